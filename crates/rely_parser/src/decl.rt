// Declarations and claims.
ghost use Rattle.std.specs.Prelude.{◌≡◌, ◌<◌, ◌≤◌, ◌+◌, length, map, option_map, Ok, Err, IfOk, IfErr, false};
ghost use Rattle.rely_tree.specs.Shape.{ident_shape, kind_shape, decl_shape, said_shape};
ghost use Rattle.rely_parser.specs.State.{state_of, is_memory, name_at};
ghost use Rattle.rely_parser.specs.Statements.{list_of};
ghost use Rattle.rely_parser.specs.Declarations.{one_variable, array_at, memory_at, decl_at};
ghost use Rattle.rely_parser.specs.Units.{target_at, skip_sign_at, behind_bound_at, claim_at, claims_at, local_at, locals_at};

use crate::fault::ParseFault;
use crate::leaf::{bound, choice, length, name};
use crate::rest::{Rest, first, place, skip, skip_word};
use bumpalo::Bump;
use bumpalo::collections::into_bump_slice;
use rely_lexer::{TokenKind, Word};
use rely_num::Op;
use rely_tree::{Decl, Ident, Kind, Said};

/// One variable less that may stand.
fn one_variable<'t>(at: Rest<'t>, place: u32) -> Result<Rest<'t>, ParseFault>
    ensures ok { IfOk result (λ r. one_variable place (state_of at.entry) ≡ Ok (state_of r)) }
    ensures same { IfOk result (λ r. length r.toks.now ≡ length at.entry.toks.now) }
    ensures err { IfErr result (λ e. one_variable place (state_of at.entry) ≡ Err e) }
{
    if at.variables == 0 {
        return Err(ParseFault::Many(place));
    }
    Ok(Rest {
        variables: at.variables - 1,
        ..at
    })
}

/// The length of an array in its brackets, none for a scalar.
fn array<'t>(at: Rest<'t>) -> Result<(Option<u32>, Rest<'t>), ParseFault>
    ensures ok { IfOk result (λ r. array_at (state_of at.entry) ≡ Ok (r.0, state_of r.1)) }
    ensures within { IfOk result (λ r. length r.1.toks.now ≤ length at.entry.toks.now) }
    ensures err { IfErr result (λ e. array_at (state_of at.entry) ≡ Err e) }
{
    if let Ok(after) = skip(at, b'[') {
        let (length, after) = length(after)?;
        let after = skip(after, b']')?;
        return Ok((Some(length), after));
    }
    Ok((None, at))
}

/// The memory that is written, the plain one for none.
fn memory<'a, 't>(text: &'a [u8], at: Rest<'t>) -> Result<(Kind<'a>, Rest<'t>), ParseFault>
    ensures ok { IfOk result (λ r. memory_at text.now (state_of at.entry) ≡ Ok (kind_shape r.0, state_of r.1)) }
    ensures within { IfOk result (λ r. length r.1.toks.now ≤ length at.entry.toks.now) }
    ensures err { IfErr result (λ e. memory_at text.now (state_of at.entry) ≡ Err e) }
{
    if let Ok(after) = skip_word(at, Word::In) {
        return choice(text, after);
    }
    Ok((Kind::Plain, at))
}

#[tactic(auto, unfolding(crate::specs::Declarations::decl_at))]
fn variable<'a, 't>(text: &'a [u8], at: Rest<'t>) -> Result<(Decl<'a>, Rest<'t>), ParseFault>
    ensures ok { IfOk result (λ r. decl_at text.now (state_of at.entry) ≡ Ok (decl_shape r.0, state_of r.1)) }
    ensures shorter { IfOk result (λ r. length r.1.toks.now < length at.entry.toks.now) }
    ensures err { IfErr result (λ e. decl_at text.now (state_of at.entry) ≡ Err e) }
{
    let (name, rest) = name(text, at)?;
    let rest = one_variable(rest, name.span.from)?;
    let (length, rest) = array(rest)?;
    let (memory, rest) = memory(text, rest)?;
    Ok((
        Decl {
            name,
            length,
            memory,
        },
        rest,
    ))
}

/// The parameters behind their open bracket, up to the closing one.
pub(crate) fn params<'a, 't>(
    arena: &'a Bump,
    text: &'a [u8],
    at: Rest<'t>,
) -> Result<(&'a [Decl<'a>], Rest<'t>), ParseFault>
    ensures ok { IfOk result (λ r. list_of (decl_at text.now) (state_of at.entry) ≡ Ok (map decl_shape r.0.now, state_of r.1)) }
    ensures shorter { IfOk result (λ r. length r.1.toks.now < length at.entry.toks.now) }
    ensures err { IfErr result (λ e. is_memory e ≡ false → list_of (decl_at text.now) (state_of at.entry) ≡ Err e) }
{
    if let Ok(after) = skip(at, b')') {
        return Ok((&[], after));
    }
    let mut all = Vec::new(arena);
    let mut rest = at;
    loop {
        let (one, after) = variable(text, rest)?;
        let Ok(()) = all.push(one) else {
            return Err(ParseFault::Memory);
        };
        let Ok(next) = skip(after, b',') else {
            let end = skip(after, b')')?;
            return Ok((into_bump_slice(all), end));
        };
        rest = next;
    }
}

/// A local variable behind its word.
#[tactic(auto, unfolding(crate::specs::Units::local_at))]
fn local<'a, 't>(text: &'a [u8], at: Rest<'t>) -> Result<(Decl<'a>, Rest<'t>), ParseFault>
    ensures ok { IfOk result (λ r. local_at text.now (state_of at.entry) ≡ Ok (decl_shape r.0, state_of r.1)) }
    ensures shorter { IfOk result (λ r. length r.1.toks.now < length at.entry.toks.now) }
    ensures err { IfErr result (λ e. local_at text.now (state_of at.entry) ≡ Err e) }
{
    let (one, rest) = variable(text, at)?;
    let rest = skip(rest, b';')?;
    Ok((one, rest))
}

/// The local variables at the front of a body.
pub(crate) fn locals<'a, 't>(
    arena: &'a Bump,
    text: &'a [u8],
    at: Rest<'t>,
) -> Result<(&'a [Decl<'a>], Rest<'t>), ParseFault>
    ensures ok { IfOk result (λ r. locals_at text.now (state_of at.entry) ≡ Ok (map decl_shape r.0.now, state_of r.1)) }
    ensures within { IfOk result (λ r. length r.1.toks.now ≤ length at.entry.toks.now) }
    ensures err { IfErr result (λ e. is_memory e ≡ false → locals_at text.now (state_of at.entry) ≡ Err e) }
{
    let mut all = Vec::new(arena);
    let mut rest = at;
    while let Ok(after) = skip_word(rest, Word::Var) {
        let (one, after) = local(text, after)?;
        all.push(one)?;
        rest = after;
    }
    Ok((into_bump_slice(all), rest))
}

/// The names behind the open bracket of an `R`, up to the closing one.
fn needs<'a, 't>(
    arena: &'a Bump,
    text: &'a [u8],
    at: Rest<'t>,
) -> Result<(&'a [Ident<'a>], Rest<'t>), ParseFault>
    ensures ok { IfOk result (λ r. list_of (name_at text.now) (state_of at.entry) ≡ Ok (map ident_shape r.0.now, state_of r.1)) }
    ensures shorter { IfOk result (λ r. length r.1.toks.now < length at.entry.toks.now) }
    ensures err { IfErr result (λ e. is_memory e ≡ false → list_of (name_at text.now) (state_of at.entry) ≡ Err e) }
{
    if let Ok(after) = skip(at, b')') {
        return Ok((&[], after));
    }
    let mut all = Vec::new(arena);
    let mut rest = at;
    loop {
        let (one, after) = name(text, rest)?;
        let Ok(()) = all.push(one) else {
            return Err(ParseFault::Memory);
        };
        let Ok(next) = skip(after, b',') else {
            let end = skip(after, b')')?;
            return Ok((into_bump_slice(all), end));
        };
        rest = next;
    }
}

/// What a claim speaks of: the result or a variable.
fn target<'a, 't>(text: &'a [u8], at: Rest<'t>) -> Result<(Option<Ident<'a>>, Rest<'t>), ParseFault>
    ensures ok { IfOk result (λ r. target_at text.now (state_of at.entry) ≡ Ok (option_map ident_shape r.0, state_of r.1)) }
    ensures shorter { IfOk result (λ r. length r.1.toks.now < length at.entry.toks.now) }
    ensures err { IfErr result (λ e. target_at text.now (state_of at.entry) ≡ Err e) }
{
    if let Ok(after) = skip_word(at, Word::Result) {
        return Ok((None, after));
    }
    let (name, rest) = name(text, at)?;
    Ok((Some(name), rest))
}

/// An operator's sign that stands for itself.
fn skip_sign<'t>(at: Rest<'t>, op: Op) -> Result<Rest<'t>, ParseFault>
    ensures ok { IfOk result (λ r. skip_sign_at op (state_of at.entry) ≡ Ok (state_of r)) }
    ensures shorter { IfOk result (λ r. length r.toks.now < length at.entry.toks.now) }
    ensures err { IfErr result (λ e. skip_sign_at op (state_of at.entry) ≡ Err e) }
{
    let (token, after) = first(at)?;
    match token.kind {
        TokenKind::Oper(found) if found == op => Ok(after),
        _ => Err(ParseFault::Expected(token.span.from)),
    }
}

/// What is behind a bound, up to behind the open bracket.
fn behind_bound<'t>(at: Rest<'t>) -> Result<Rest<'t>, ParseFault>
    ensures ok { IfOk result (λ r. behind_bound_at (state_of at.entry) ≡ Ok (state_of r)) }
    ensures shorter { IfOk result (λ r. length r.toks.now < length at.entry.toks.now) }
    ensures err { IfErr result (λ e. behind_bound_at (state_of at.entry) ≡ Err e) }
{
    let (_, rest) = first(at)?;
    let rest = skip_sign(rest, Op::Mul)?;
    let rest = skip_word(rest, Word::R)?;
    skip(rest, b'(')
}

/// A claim behind its word.
#[tactic(auto, unfolding(crate::specs::Units::claim_at))]
fn claim<'a, 't>(
    arena: &'a Bump,
    text: &'a [u8],
    at: Rest<'t>,
) -> Result<(Said<'a>, Rest<'t>), ParseFault>
    ensures ok { IfOk result (λ r. claim_at text.now (state_of at.entry) ≡ Ok (said_shape r.0, state_of r.1)) }
    ensures shorter { IfOk result (λ r. length r.1.toks.now < length at.entry.toks.now) }
    ensures err { IfErr result (λ e. is_memory e ≡ false → claim_at text.now (state_of at.entry) ≡ Err e) }
{
    let (target, rest) = target(text, at)?;
    let rest = skip_sign(rest, Op::Ge)?;
    let bound = bound(text, rest)?;
    let rest = behind_bound(rest)?;
    let (needs, rest) = needs(arena, text, rest)?;
    let said = Said {
        target,
        bound,
        needs,
    };
    Ok((said, rest))
}

/// The most claims of a function.
const MOST_CLAIMS: usize = 8;

/// The claims of a function, at least one.
pub(crate) fn claims<'a, 't>(
    arena: &'a Bump,
    text: &'a [u8],
    at: Rest<'t>,
) -> Result<(&'a [Said<'a>], Rest<'t>), ParseFault>
    ensures ok { IfOk result (λ r. claims_at text.now (state_of at.entry) ≡ Ok (map said_shape r.0.now, state_of r.1)) }
    ensures shorter { IfOk result (λ r. length r.1.toks.now < length at.entry.toks.now) }
    ensures err { IfErr result (λ e. is_memory e ≡ false → claims_at text.now (state_of at.entry) ≡ Err e) }
{
    let mut all = Vec::new(arena);
    let mut start = skip_word(at, Word::Claim)?;
    loop {
        let (one, rest) = match claim(arena, text, start) {
            Ok(read) => read,
            Err(fault) => return Err(fault),
        };
        let Ok(()) = all.push(one) else {
            return Err(ParseFault::Memory);
        };
        let Ok(next) = skip_word(rest, Word::Claim) else {
            return Ok((into_bump_slice(all), rest));
        };
        if all.len() >= MOST_CLAIMS {
            return Err(ParseFault::Many(place(rest)));
        }
        start = next;
    }
}
