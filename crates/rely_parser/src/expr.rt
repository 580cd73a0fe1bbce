// Expressions.
ghost use Rattle.std.specs.Prelude.{◌≡◌, ◌<◌, ◌≤◌, length, Ok, Err, IfOk, IfErr, false};
ghost use Rattle.rely_tree.specs.Shape.{ident_shape, kind_shape, expr_shape};
ghost use Rattle.rely_parser.specs.State.{state_of, is_memory, one_operator};
ghost use Rattle.rely_parser.specs.Grammar.{variable_at, prim_at, kind_at, level_at, bracketed};

use crate::fault::ParseFault;
use crate::leaf::{ident, operator, suffix};
use crate::rest::{Rest, first, place, skip};
use bumpalo::Bump;
use rely_lexer::TokenKind;
use rely_tree::{Expr, Ident, Kind};

/// How loosely a whole expression may bind.
const LOOSEST: u32 = 7;

/// One operator less that may stand.
fn one_operator<'t>(at: Rest<'t>, place: u32) -> Result<Rest<'t>, ParseFault>
    ensures ok { IfOk result (λ r. one_operator place (state_of at.entry) ≡ Ok (state_of r)) }
    ensures same { IfOk result (λ r. length r.toks.now ≡ length at.entry.toks.now) }
    ensures err { IfErr result (λ e. one_operator place (state_of at.entry) ≡ Err e) }
{
    if at.operators == 0 {
        return Err(ParseFault::Many(place));
    }
    Ok(Rest {
        operators: at.operators - 1,
        ..at
    })
}

/// The kind of an operator at `place`, which is counted.
#[tactic(auto, unfolding(crate::specs::Grammar::kind_at))]
fn kind<'a, 't>(
    text: &'a [u8],
    at: Rest<'t>,
    place: u32,
) -> Result<(Kind<'a>, Rest<'t>), ParseFault>
    ensures ok { IfOk result (λ r. kind_at text.now place (state_of at.entry) ≡ Ok (kind_shape r.0, state_of r.1)) }
    ensures within { IfOk result (λ r. length r.1.toks.now ≤ length at.entry.toks.now) }
    ensures err { IfErr result (λ e. kind_at text.now place (state_of at.entry) ≡ Err e) }
{
    let rest = one_operator(at, place)?;
    suffix(text, rest)
}

/// An expression behind an open bracket at `place`, where `deep` brackets could be opened.
#[cycle(expr)]
#[tactic(auto, using(crate::proofs::Levels::brackets))]
pub(crate) fn bracketed<'a, 't>(
    arena: &'a Bump,
    text: &'a [u8],
    at: Rest<'t>,
    deep: u32,
    place: u32,
) -> Result<(Expr<'a>, Rest<'t>), ParseFault>
    ensures ok { IfOk result (λ r. bracketed text.now deep place (state_of at.entry) ≡ Ok (expr_shape r.0, state_of r.1)) }
    ensures shorter { IfOk result (λ r. length r.1.toks.now < length at.entry.toks.now) }
    ensures err { IfErr result (λ e. is_memory e ≡ false → bracketed text.now deep place (state_of at.entry) ≡ Err e) }
{
    if deep == 0 {
        return Err(ParseFault::Deep(place));
    }
    level(arena, text, at, deep - 1, LOOSEST)
}

/// A variable whose name was read: a scalar or an element.
#[cycle(expr)]
fn variable<'a, 't>(
    arena: &'a Bump,
    text: &'a [u8],
    at: Rest<'t>,
    deep: u32,
    name: Ident<'a>,
) -> Result<(Expr<'a>, Rest<'t>), ParseFault>
    ensures ok { IfOk result (λ r. variable_at (bracketed text.now deep) (ident_shape name.entry) (state_of at.entry) ≡ Ok (expr_shape r.0, state_of r.1)) }
    ensures within { IfOk result (λ r. length r.1.toks.now ≤ length at.entry.toks.now) }
    ensures err { IfErr result (λ e. is_memory e ≡ false → variable_at (bracketed text.now deep) (ident_shape name.entry) (state_of at.entry) ≡ Err e) }
{
    if let Ok(after) = skip(at, b'[') {
        let (index, after) = bracketed(arena, text, after, deep, place(at))?;
        let after = skip(after, b']')?;
        return Ok((Expr::Elem(name, arena.try_alloc(index)?), after));
    }
    Ok((Expr::Name(name), at))
}

#[cycle(expr)]
#[tactic(auto, unfolding(crate::specs::Grammar::prim_at))]
fn prim<'a, 't>(
    arena: &'a Bump,
    text: &'a [u8],
    at: Rest<'t>,
    deep: u32,
) -> Result<(Expr<'a>, Rest<'t>), ParseFault>
    ensures ok { IfOk result (λ r. prim_at text.now (bracketed text.now deep) (state_of at.entry) ≡ Ok (expr_shape r.0, state_of r.1)) }
    ensures shorter { IfOk result (λ r. length r.1.toks.now < length at.entry.toks.now) }
    ensures err { IfErr result (λ e. is_memory e ≡ false → prim_at text.now (bracketed text.now deep) (state_of at.entry) ≡ Err e) }
{
    let (token, after) = first(at)?;
    match token.kind {
        TokenKind::Number(value) => Ok((Expr::Num(value), after)),
        TokenKind::Name => variable(arena, text, after, deep, ident(text, token.span)),
        TokenKind::Mark(b'(') => {
            let (inner, after) = bracketed(arena, text, after, deep, token.span.from)?;
            let after = skip(after, b')')?;
            Ok((inner, after))
        }
        _ => Err(ParseFault::Expected(token.span.from)),
    }
}

/// An expression whose operators outside brackets bind at most so loosely.
#[cycle(expr)]
#[tactic(auto, using(crate::proofs::Levels::levels))]
fn level<'a, 't>(
    arena: &'a Bump,
    text: &'a [u8],
    at: Rest<'t>,
    deep: u32,
    loose: u32,
) -> Result<(Expr<'a>, Rest<'t>), ParseFault>
    ensures ok { IfOk result (λ r. level_at text.now (bracketed text.now deep) loose (state_of at.entry) ≡ Ok (expr_shape r.0, state_of r.1)) }
    ensures shorter { IfOk result (λ r. length r.1.toks.now < length at.entry.toks.now) }
    ensures err { IfErr result (λ e. is_memory e ≡ false → level_at text.now (bracketed text.now deep) loose (state_of at.entry) ≡ Err e) }
{
    if loose == 0 {
        return prim(arena, text, at, deep);
    }
    let (mut left, mut rest) = level(arena, text, at, deep, loose - 1)?;
    while let Ok(((op, span), after)) = operator(rest, loose) {
        let (kind, after) = kind(text, after, span.from)?;
        let (right, after) = level(arena, text, after, deep, loose - 1)?;
        left = Expr::Bin(
            op,
            span,
            kind,
            arena.try_alloc(left)?,
            arena.try_alloc(right)?,
        );
        rest = after;
    }
    Ok((left, rest))
}

pub(crate) fn expr<'a, 't>(
    arena: &'a Bump,
    text: &'a [u8],
    at: Rest<'t>,
    deep: u32,
) -> Result<(Expr<'a>, Rest<'t>), ParseFault>
    ensures ok { IfOk result (λ r. level_at text.now (bracketed text.now deep) 7 (state_of at.entry) ≡ Ok (expr_shape r.0, state_of r.1)) }
    ensures shorter { IfOk result (λ r. length r.1.toks.now < length at.entry.toks.now) }
    ensures err { IfErr result (λ e. is_memory e ≡ false → level_at text.now (bracketed text.now deep) 7 (state_of at.entry) ≡ Err e) }
{
    level(arena, text, at, deep, LOOSEST)
}
