// Statements.
ghost use Rattle.std.specs.Prelude.{◌≡◌, ◌<◌, ◌≤◌, ◌+◌, length, map, Ok, Err, IfOk, IfErr, false};
ghost use Rattle.rely_tree.specs.Shape.{ident_shape, expr_shape, stmt_shape, block_shape};
ghost use Rattle.rely_parser.specs.State.{state_of, is_memory};
ghost use Rattle.rely_parser.specs.Grammar.{expr_at};
ghost use Rattle.rely_parser.specs.Statements.{one_call, list_of, args_at, call_at, set_at, assignment_at, condition_at, otherwise_at, if_at, while_at, repeat_at, items_at, block_at, stmt_at};

use crate::expr::{bracketed, expr};
use crate::fault::ParseFault;
use crate::leaf::{count, ident, name};
use crate::rest::{Rest, first, place, skip, skip_word};
use bumpalo::Bump;
use bumpalo::collections::into_bump_slice;
use rely_lexer::{TokenKind, Word};
use rely_num::Span;
use rely_tree::{Expr, Ident, Stmt};

/// One call less that may stand.
fn one_call<'t>(at: Rest<'t>, place: u32) -> Result<Rest<'t>, ParseFault>
    ensures ok { IfOk result (λ r. one_call place (state_of at.entry) ≡ Ok (state_of r)) }
    ensures same { IfOk result (λ r. length r.toks.now ≡ length at.entry.toks.now) }
    ensures err { IfErr result (λ e. one_call place (state_of at.entry) ≡ Err e) }
{
    if at.calls == 0 {
        return Err(ParseFault::Many(place));
    }
    Ok(Rest {
        calls: at.calls - 1,
        ..at
    })
}

/// The arguments behind the open bracket of a call, up to its closing one.
fn args<'a, 't>(
    arena: &'a Bump,
    text: &'a [u8],
    at: Rest<'t>,
    deep: u32,
) -> Result<(&'a [Expr<'a>], Rest<'t>), ParseFault>
    ensures ok { IfOk result (λ r. list_of (expr_at text.now deep) (state_of at.entry) ≡ Ok (map expr_shape r.0.now, state_of r.1)) }
    ensures shorter { IfOk result (λ r. length r.1.toks.now < length at.entry.toks.now) }
    ensures err { IfErr result (λ e. is_memory e ≡ false → list_of (expr_at text.now deep) (state_of at.entry) ≡ Err e) }
{
    if let Ok(after) = skip(at, b')') {
        return Ok((&[], after));
    }
    let mut all = Vec::new(arena);
    let mut rest = at;
    loop {
        let (one, after) = expr(arena, text, rest, deep)?;
        let Ok(()) = all.push(one) else {
            return Err(ParseFault::Memory);
        };
        let Ok(next) = skip(after, b',') else {
            let end = skip(after, b')')?;
            return Ok((into_bump_slice(all), end));
        };
        rest = next;
    }
}

/// The arguments behind an open bracket at `place`, where `deep` brackets could be opened.
#[tactic(auto, using(crate::proofs::Lists::lists))]
fn arguments<'a, 't>(
    arena: &'a Bump,
    text: &'a [u8],
    at: Rest<'t>,
    deep: u32,
    place: u32,
) -> Result<(&'a [Expr<'a>], Rest<'t>), ParseFault>
    ensures ok { IfOk result (λ r.
        args_at text.now deep place (state_of at.entry) ≡ Ok (map expr_shape r.0.now, state_of r.1)) }
    ensures shorter { IfOk result (λ r. length r.1.toks.now < length at.entry.toks.now) }
    ensures err { IfErr result (λ e. is_memory e ≡ false →
        args_at text.now deep place (state_of at.entry) ≡ Err e) }
{
    if deep == 0 {
        return Err(ParseFault::Deep(place));
    }
    args(arena, text, at, deep - 1)
}

/// What is behind the word `call`, which stands at `word`.
#[tactic(auto, using(rely_tree::proofs::Shapes::shapes), unfolding(crate::specs::Statements::call_at))]
fn call<'a, 't>(
    arena: &'a Bump,
    text: &'a [u8],
    at: Rest<'t>,
    deep: u32,
    target: Ident<'a>,
    word: Span,
) -> Result<(Stmt<'a>, Rest<'t>), ParseFault>
    ensures ok { IfOk result (λ r. call_at text.now deep (ident_shape target.entry) word (state_of at.entry) ≡ Ok (stmt_shape r.0, state_of r.1)) }
    ensures shorter { IfOk result (λ r. length r.1.toks.now < length at.entry.toks.now) }
    ensures err { IfErr result (λ e. is_memory e ≡ false → call_at text.now deep (ident_shape target.entry) word (state_of at.entry) ≡ Err e) }
{
    let rest = one_call(at, word.from)?;
    let (callee, rest) = name(text, rest)?;
    let bracket = place(rest);
    let rest = skip(rest, b'(')?;
    let (args, rest) = arguments(arena, text, rest, deep, bracket)?;
    let rest = skip(rest, b';')?;
    Ok((Stmt::Call(target.span, target, word, callee, args), rest))
}

/// What is behind the `=` of a scalar's assignment.
#[tactic(auto, using(rely_tree::proofs::Shapes::shapes), unfolding(crate::specs::Statements::set_at))]
fn set<'a, 't>(
    arena: &'a Bump,
    text: &'a [u8],
    at: Rest<'t>,
    deep: u32,
    target: Ident<'a>,
) -> Result<(Stmt<'a>, Rest<'t>), ParseFault>
    ensures ok { IfOk result (λ r. set_at text.now deep (ident_shape target.entry) (state_of at.entry) ≡ Ok (stmt_shape r.0, state_of r.1)) }
    ensures shorter { IfOk result (λ r. length r.1.toks.now < length at.entry.toks.now) }
    ensures err { IfErr result (λ e. is_memory e ≡ false → set_at text.now deep (ident_shape target.entry) (state_of at.entry) ≡ Err e) }
{
    if let Ok(after) = skip_word(at, Word::Call) {
        let (token, _) = first(at)?;
        return call(arena, text, after, deep, target, token.span);
    }
    let (value, rest) = expr(arena, text, at, deep)?;
    let rest = skip(rest, b';')?;
    Ok((Stmt::Set(target.span, target, value), rest))
}

/// What is behind the name of an assignment.
#[tactic(auto, using(rely_tree::proofs::Shapes::shapes), unfolding(crate::specs::Statements::assignment_at))]
fn assignment<'a, 't>(
    arena: &'a Bump,
    text: &'a [u8],
    at: Rest<'t>,
    deep: u32,
    target: Ident<'a>,
) -> Result<(Stmt<'a>, Rest<'t>), ParseFault>
    ensures ok { IfOk result (λ r. assignment_at text.now deep (ident_shape target.entry) (state_of at.entry) ≡ Ok (stmt_shape r.0, state_of r.1)) }
    ensures shorter { IfOk result (λ r. length r.1.toks.now < length at.entry.toks.now) }
    ensures err { IfErr result (λ e. is_memory e ≡ false → assignment_at text.now deep (ident_shape target.entry) (state_of at.entry) ≡ Err e) }
{
    if let Ok(after) = skip(at, b'=') {
        return set(arena, text, after, deep, target);
    }
    let rest = skip(at, b'[')?;
    let (index, rest) = bracketed(arena, text, rest, deep, place(at))?;
    let rest = skip(rest, b']')?;
    let rest = skip(rest, b'=')?;
    let (value, rest) = expr(arena, text, rest, deep)?;
    let rest = skip(rest, b';')?;
    Ok((Stmt::SetElem(target.span, target, index, value), rest))
}

/// A condition in its brackets.
#[tactic(auto, unfolding(crate::specs::Statements::condition_at))]
fn condition<'a, 't>(
    arena: &'a Bump,
    text: &'a [u8],
    at: Rest<'t>,
    deep: u32,
) -> Result<(Expr<'a>, Rest<'t>), ParseFault>
    ensures ok { IfOk result (λ r. condition_at text.now deep (state_of at.entry) ≡ Ok (expr_shape r.0, state_of r.1)) }
    ensures shorter { IfOk result (λ r. length r.1.toks.now < length at.entry.toks.now) }
    ensures err { IfErr result (λ e. is_memory e ≡ false → condition_at text.now deep (state_of at.entry) ≡ Err e) }
{
    let rest = skip(at, b'(')?;
    let (test, rest) = bracketed(arena, text, rest, deep, place(at))?;
    let rest = skip(rest, b')')?;
    Ok((test, rest))
}

/// What stands behind an `if`'s first block: nothing, or a second one.
#[cycle(stmt)]
#[tactic(auto, unfolding(crate::specs::Statements::otherwise_at))]
fn otherwise<'a, 't>(
    arena: &'a Bump,
    text: &'a [u8],
    at: Rest<'t>,
    deep: u32,
) -> Result<(&'a [Stmt<'a>], Rest<'t>), ParseFault>
    ensures ok { IfOk result (λ r. otherwise_at (block_at text.now deep) (state_of at.entry) ≡ Ok (block_shape r.0.now, state_of r.1)) }
    ensures within { IfOk result (λ r. length r.1.toks.now ≤ length at.entry.toks.now) }
    ensures err { IfErr result (λ e. is_memory e ≡ false → otherwise_at (block_at text.now deep) (state_of at.entry) ≡ Err e) }
{
    if let Ok(after) = skip_word(at, Word::Else) {
        return block(arena, text, after, deep);
    }
    Ok((&[], at))
}

#[cycle(stmt)]
#[tactic(auto, using(rely_tree::proofs::Shapes::shapes), unfolding(crate::specs::Statements::if_at))]
fn choice<'a, 't>(
    arena: &'a Bump,
    text: &'a [u8],
    at: Rest<'t>,
    deep: u32,
    span: Span,
) -> Result<(Stmt<'a>, Rest<'t>), ParseFault>
    ensures ok { IfOk result (λ r. if_at text.now deep (block_at text.now deep) span (state_of at.entry) ≡ Ok (stmt_shape r.0, state_of r.1)) }
    ensures shorter { IfOk result (λ r. length r.1.toks.now < length at.entry.toks.now) }
    ensures err { IfErr result (λ e. is_memory e ≡ false → if_at text.now deep (block_at text.now deep) span (state_of at.entry) ≡ Err e) }
{
    let (test, rest) = condition(arena, text, at, deep)?;
    let (held, rest) = block(arena, text, rest, deep)?;
    let (other, rest) = otherwise(arena, text, rest, deep)?;
    Ok((Stmt::If(span, test, held, other), rest))
}

#[cycle(stmt)]
#[tactic(auto, using(rely_tree::proofs::Shapes::shapes), unfolding(crate::specs::Statements::while_at))]
fn loop_while<'a, 't>(
    arena: &'a Bump,
    text: &'a [u8],
    at: Rest<'t>,
    deep: u32,
    span: Span,
) -> Result<(Stmt<'a>, Rest<'t>), ParseFault>
    ensures ok { IfOk result (λ r. while_at text.now deep (block_at text.now deep) span (state_of at.entry) ≡ Ok (stmt_shape r.0, state_of r.1)) }
    ensures shorter { IfOk result (λ r. length r.1.toks.now < length at.entry.toks.now) }
    ensures err { IfErr result (λ e. is_memory e ≡ false → while_at text.now deep (block_at text.now deep) span (state_of at.entry) ≡ Err e) }
{
    let (test, rest) = condition(arena, text, at, deep)?;
    let rest = skip_word(rest, Word::Max)?;
    let (most, rest) = count(rest)?;
    let (body, rest) = block(arena, text, rest, deep)?;
    Ok((Stmt::While(span, test, most, body), rest))
}

#[cycle(stmt)]
#[tactic(auto, using(rely_tree::proofs::Shapes::shapes), unfolding(crate::specs::Statements::repeat_at))]
fn loop_repeat<'a, 't>(
    arena: &'a Bump,
    text: &'a [u8],
    at: Rest<'t>,
    deep: u32,
    span: Span,
) -> Result<(Stmt<'a>, Rest<'t>), ParseFault>
    ensures ok { IfOk result (λ r. repeat_at (block_at text.now deep) span (state_of at.entry) ≡ Ok (stmt_shape r.0, state_of r.1)) }
    ensures shorter { IfOk result (λ r. length r.1.toks.now < length at.entry.toks.now) }
    ensures err { IfErr result (λ e. is_memory e ≡ false → repeat_at (block_at text.now deep) span (state_of at.entry) ≡ Err e) }
{
    let (turns, rest) = count(at)?;
    let (body, rest) = block(arena, text, rest, deep)?;
    Ok((Stmt::Repeat(span, turns, body), rest))
}

#[cycle(stmt)]
#[tactic(auto, unfolding(crate::specs::Statements::stmt_with))]
pub(crate) fn stmt<'a, 't>(
    arena: &'a Bump,
    text: &'a [u8],
    at: Rest<'t>,
    deep: u32,
) -> Result<(Stmt<'a>, Rest<'t>), ParseFault>
    ensures ok { IfOk result (λ r. stmt_at text.now deep (state_of at.entry) ≡ Ok (stmt_shape r.0, state_of r.1)) }
    ensures shorter { IfOk result (λ r. length r.1.toks.now < length at.entry.toks.now) }
    ensures err { IfErr result (λ e. is_memory e ≡ false → stmt_at text.now deep (state_of at.entry) ≡ Err e) }
{
    let (token, after) = first(at)?;
    let span = token.span;
    match token.kind {
        TokenKind::Name => assignment(arena, text, after, deep, ident(text, span)),
        TokenKind::Word(Word::If) => choice(arena, text, after, deep, span),
        TokenKind::Word(Word::While) => loop_while(arena, text, after, deep, span),
        TokenKind::Word(Word::Repeat) => loop_repeat(arena, text, after, deep, span),
        _ => Err(ParseFault::Expected(token.span.from)),
    }
}

/// Statements up to a closing brace.
#[cycle(stmt)]
fn braced<'a, 't>(
    arena: &'a Bump,
    text: &'a [u8],
    at: Rest<'t>,
    deep: u32,
) -> Result<(&'a [Stmt<'a>], Rest<'t>), ParseFault>
    ensures ok { IfOk result (λ r. items_at (stmt_at text.now deep) (length at.entry.toks.now + 1) (state_of at.entry) ≡ Ok (block_shape r.0.now, state_of r.1)) }
    ensures shorter { IfOk result (λ r. length r.1.toks.now < length at.entry.toks.now) }
    ensures err { IfErr result (λ e. is_memory e ≡ false → items_at (stmt_at text.now deep) (length at.entry.toks.now + 1) (state_of at.entry) ≡ Err e) }
{
    let mut all = Vec::new(arena);
    let mut rest = at;
    loop {
        if let Ok(after) = skip(rest, b'}') {
            return Ok((into_bump_slice(all), after));
        }
        let (one, after) = stmt(arena, text, rest, deep)?;
        let Ok(()) = all.push(one) else {
            return Err(ParseFault::Memory);
        };
        rest = after;
    }
}

#[cycle(stmt)]
#[tactic(auto, using(crate::proofs::Blocks::blocks))]
fn block<'a, 't>(
    arena: &'a Bump,
    text: &'a [u8],
    at: Rest<'t>,
    deep: u32,
) -> Result<(&'a [Stmt<'a>], Rest<'t>), ParseFault>
    ensures ok { IfOk result (λ r. block_at text.now deep (state_of at.entry) ≡ Ok (block_shape r.0.now, state_of r.1)) }
    ensures shorter { IfOk result (λ r. length r.1.toks.now < length at.entry.toks.now) }
    ensures err { IfErr result (λ e. is_memory e ≡ false → block_at text.now deep (state_of at.entry) ≡ Err e) }
{
    let rest = skip(at, b'{')?;
    if deep == 0 {
        return Err(ParseFault::Deep(place(at)));
    }
    braced(arena, text, rest, deep - 1)
}
