// Functions, and the whole source.
ghost use Rattle.std.specs.Prelude.{◌≡◌, ◌<◌, ◌≤◌, ◌+◌, ◌⊎◌, length, map, Ok, Err, IfOk, IfErr, false};
ghost use Rattle.rely_lexer.specs.Readings.{AreTokensFrom};
ghost use Rattle.rely_tree.specs.Limits.{IsUnit};
ghost use Rattle.rely_tree.specs.Marks.{IsMarked};
ghost use Rattle.rely_tree.specs.Tree.{UnitTree};
ghost use Rattle.rely_tree.specs.Shape.{stmt_shape, block_shape, func_shape, unit_shape};
ghost use Rattle.rely_parser.specs.State.{state_of, is_memory, end_of};
ghost use Rattle.rely_parser.specs.Counts.{AllWithin, nothing};
ghost use Rattle.rely_parser.specs.Productions.{NoUnit, Spelled, Refuses};
ghost use Rattle.rely_parser.specs.Units.{last_at, returned_at, body_at, function_at, functions_at, unit_of};

use crate::decl::{claims, locals, params};
use crate::expr::expr;
use crate::fault::ParseFault;
use crate::leaf::name;
use crate::rest::{Rest, first, place, skip, skip_word};
use crate::stmt::stmt;
use bumpalo::Bump;
use bumpalo::collections::into_bump_slice;
use rely_lexer::{Token, Word};
use rely_num::Span;
use rely_tree::{Func, Stmt, Unit};
use std::alloc::Global;

/// The most brackets that may be open inside a body, beside the body's own.
const MOST_INSIDE: u32 = 63;
/// The most functions of a source.
const MOST_FUNCTIONS: usize = 64;
/// The most variables of a function.
const MOST_VARIABLES: u32 = 63;
/// The most operators of a function.
const MOST_OPERATORS: u32 = 256;
/// The most calls of a function.
const MOST_CALLS: u32 = 256;

/// What is behind the word `return`, which stands at `span`, up to the end of the body.
#[tactic(auto, using(rely_tree::proofs::Shapes::shapes), unfolding(crate::specs::Units::last_at))]
fn last<'a, 't>(
    arena: &'a Bump,
    text: &'a [u8],
    at: Rest<'t>,
    span: Span,
) -> Result<(Stmt<'a>, Rest<'t>), ParseFault>
    ensures ok { IfOk result (λ r. last_at text.now span (state_of at.entry) ≡ Ok (stmt_shape r.0, state_of r.1)) }
    ensures shorter { IfOk result (λ r. length r.1.toks.now < length at.entry.toks.now) }
    ensures err { IfErr result (λ e. is_memory e ≡ false → last_at text.now span (state_of at.entry) ≡ Err e) }
{
    let (value, rest) = expr(arena, text, at, MOST_INSIDE)?;
    let rest = skip(rest, b';')?;
    let rest = skip(rest, b'}')?;
    Ok((Stmt::Return(span, value), rest))
}

/// The last statement of a body, which begins at `at`; its word ends before `after`.
fn returned<'a, 't>(
    arena: &'a Bump,
    text: &'a [u8],
    at: Rest<'t>,
    after: Rest<'t>,
) -> Result<(Stmt<'a>, Rest<'t>), ParseFault>
    ensures ok { IfOk result (λ r.
        returned_at text.now (state_of at.entry) (state_of after.entry) ≡ Ok (stmt_shape r.0, state_of r.1)) }
    ensures shorter { IfOk result (λ r. length r.1.toks.now < length after.entry.toks.now) }
    ensures err { IfErr result (λ e. is_memory e ≡ false →
        returned_at text.now (state_of at.entry) (state_of after.entry) ≡ Err e) }
{
    let (token, _) = first(at)?;
    last(arena, text, after, token.span)
}

/// The statements of a body behind its variables.
fn body<'a, 't>(
    arena: &'a Bump,
    text: &'a [u8],
    at: Rest<'t>,
) -> Result<(&'a [Stmt<'a>], Rest<'t>), ParseFault>
    ensures ok { IfOk result (λ r. body_at text.now (state_of at.entry) ≡ Ok (block_shape r.0.now, state_of r.1)) }
    ensures shorter { IfOk result (λ r. length r.1.toks.now < length at.entry.toks.now) }
    ensures err { IfErr result (λ e. is_memory e ≡ false → body_at text.now (state_of at.entry) ≡ Err e) }
{
    let mut all = Vec::new(arena);
    let mut rest = at;
    loop {
        if let Ok(after) = skip_word(rest, Word::Return) {
            let (one, end) = returned(arena, text, rest, after)?;
            let Ok(()) = all.push(one) else {
                return Err(ParseFault::Memory);
            };
            return Ok((into_bump_slice(all), end));
        }
        let (one, after) = stmt(arena, text, rest, MOST_INSIDE)?;
        let Ok(()) = all.push(one) else {
            return Err(ParseFault::Memory);
        };
        rest = after;
    }
}

/// What is behind the word `fn`.
#[tactic(auto, unfolding(crate::specs::Units::function_at))]
fn function<'a, 't>(
    arena: &'a Bump,
    text: &'a [u8],
    at: Rest<'t>,
) -> Result<(Func<'a>, Rest<'t>), ParseFault>
    ensures ok { IfOk result (λ r. function_at text.now (state_of at.entry) ≡ Ok (func_shape r.0, state_of r.1)) }
    ensures shorter { IfOk result (λ r. length r.1.toks.now < length at.entry.toks.now) }
    ensures err { IfErr result (λ e. is_memory e ≡ false → function_at text.now (state_of at.entry) ≡ Err e) }
{
    let rest = Rest {
        toks: at.toks,
        variables: MOST_VARIABLES,
        operators: MOST_OPERATORS,
        calls: MOST_CALLS,
        end: at.end,
    };
    let (name, rest) = name(text, rest)?;
    let rest = skip(rest, b'(')?;
    let (params, rest) = params(arena, text, rest)?;
    let (claims, rest) = claims(arena, text, rest)?;
    let rest = skip(rest, b'{')?;
    let (locals, rest) = locals(arena, text, rest)?;
    let (body, rest) = body(arena, text, rest)?;
    let read = Func {
        name,
        params,
        locals,
        claims,
        body,
    };
    Ok((read, rest))
}

/// The functions of a source.
fn functions<'a, 't>(
    arena: &'a Bump,
    text: &'a [u8],
    at: Rest<'t>,
) -> Result<(&'a [Func<'a>], Rest<'t>), ParseFault>
    ensures ok { IfOk result (λ r. functions_at text.now (state_of at.entry) ≡ Ok (map func_shape r.0.now, state_of r.1)) }
    ensures err { IfErr result (λ e. is_memory e ≡ false → functions_at text.now (state_of at.entry) ≡ Err e) }
{
    let mut all = Vec::new(arena);
    let mut start = skip_word(at, Word::Fn)?;
    loop {
        let (one, rest) = match function(arena, text, start) {
            Ok(read) => read,
            Err(fault) => return Err(fault),
        };
        let Ok(()) = all.push(one) else {
            return Err(ParseFault::Memory);
        };
        let Ok(next) = skip_word(rest, Word::Fn) else {
            return Ok((into_bump_slice(all), rest));
        };
        if all.len() >= MOST_FUNCTIONS {
            return Err(ParseFault::Many(place(rest)));
        }
        start = next;
    }
}

/// The place behind a text.
fn end(text: &[u8]) -> u32
    ensures { result ≡ end_of text.now }
{
    u32::try_from(text.len()).unwrap_or(u32::MAX)
}

/// What `parse` answers, by its readers.
#[tactic(auto, unfolding(crate::specs::Units::unit_of))]
fn unit<'a>(arena: &'a Bump, text: &'a [u8], toks: &[Token]) -> Result<Unit<'a>, ParseFault>
    ensures ok { IfOk result (λ u. unit_of text.now toks.now ≡ Ok (unit_shape u)) }
    ensures err { IfErr result (λ e. (e ≡ ParseFault.Memory) ⊎ (unit_of text.now toks.now ≡ Err e)) }
{
    let start = Rest {
        toks,
        variables: 0,
        operators: 0,
        calls: 0,
        end: end(text),
    };
    let (functions, rest) = functions(arena, text, start)?;
    if !rest.toks.is_empty() {
        return Err(ParseFault::Expected(place(rest)));
    }
    Ok(Unit { functions })
}

/// The tree of a source, or the first place where its tokens leave the grammar or a limit.
#[tactic(auto, using(crate::proofs::Verdicts::sources))]
pub fn parse<'a>(
    _alloc: Global,
    arena: &'a Bump,
    text: &'a [u8],
    toks: &[Token],
) -> Result<Unit<'a>, ParseFault>
    ensures ok { IfOk result (λ u. unit_of text.now toks.now ≡ Ok (unit_shape u)) }
    ensures spells { IfOk result (λ u. Spelled text.now toks.now (unit_shape u)) }
    ensures only { IfOk result (λ u. (v : UnitTree) → Spelled text.now toks.now v → v ≡ unit_shape u) }
    ensures within { IfOk result (λ u. AllWithin nothing toks.now) }
    ensures unit { IfOk result (λ u. AreTokensFrom text.now 0 toks.now → IsUnit (unit_shape u)) }
    ensures marks { IfOk result (λ u. AreTokensFrom text.now 0 toks.now → IsMarked text.now (unit_shape u)) }
    ensures err { IfErr result (λ e. (e ≡ ParseFault.Memory) ⊎ (unit_of text.now toks.now ≡ Err e)) }
    ensures refuses { IfErr result (λ e. Refuses text.now toks.now e) }
    ensures no_unit { IfErr result (λ e. (e ≡ ParseFault.Memory) ⊎ NoUnit text.now toks.now) }
{
    unit(arena, text, toks)
}
