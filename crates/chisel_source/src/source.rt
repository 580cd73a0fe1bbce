//! The tree of a source.

ghost use Rattle.std.specs.Prelude.{◌≡◌, Ok, IfOk, IfErr};
ghost use Rattle.rely_tree.specs.Limits.{IsUnit};
ghost use Rattle.rely_tree.specs.Marks.{IsMarked};
ghost use Rattle.rely_tree.specs.Shape.{unit_shape};
ghost use Rattle.chisel_source.specs.Meaning.{SourceFails, unit_in};

use crate::fault::SourceFault;
use bumpalo::Bump;
use rely_lexer::tokens;
use rely_parser::parse;
use rely_tree::Unit;
use std::alloc::Global;

/// The tree of the bytes of a source, in the arena.
pub fn unit_in<'a>(alloc: Global, arena: &'a Bump, text: &'a [u8]) -> Result<Unit<'a>, SourceFault>
    ensures ok { IfOk result (λ u. unit_in text.now ≡ Ok (unit_shape u)) }
    ensures unit { IfOk result (λ u. IsUnit (unit_shape u)) }
    ensures marks { IfOk result (λ u. IsMarked text.now (unit_shape u)) }
    ensures err { IfErr result (SourceFails (unit_in text.now)) }
{
    let toks = match tokens(alloc, text) {
        Ok(toks) => toks,
        Err(fault) => return Err(SourceFault::Lex(fault)),
    };
    match parse(alloc, arena, text, toks.as_slice()) {
        Ok(unit) => Ok(unit),
        Err(fault) => Err(SourceFault::Parse(fault)),
    }
}
