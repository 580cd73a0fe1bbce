// Names, numbers and the marks of a choice.
ghost use Rattle.std.specs.Prelude.{◌≡◌, ◌<◌, ◌≤◌, length, Ok, Err, IfOk, IfErr, false};
ghost use Rattle.rely_tree.specs.Shape.{ident_shape, kind_shape};
ghost use Rattle.rely_parser.specs.Declarations.{length_at, choice_at};
ghost use Rattle.rely_parser.specs.Units.{is_amount, bound_at};
ghost use Rattle.rely_parser.specs.State.{state_of, is_memory, word_at, ident_at, name_at, number_at, count_at, suffix_at, height, operator_at};

use crate::fault::ParseFault;
use crate::rest::{Rest, first, place, skip};
use rely_lexer::TokenKind;
use rely_num::{Atto, Op, Span};
use rely_tree::{Ident, Kind};

/// The bytes of a span, none where it reaches outside the text.
pub(crate) fn word(text: &[u8], span: Span) -> &[u8]
    ensures { result.now ≡ word_at text.now span }
{
    let from = span.from as usize;
    let to = span.to as usize;
    if to < from || text.len() < to {
        return &[];
    }
    &text[from..to]
}

pub(crate) fn ident(text: &[u8], span: Span) -> Ident<'_>
    ensures { ident_shape result ≡ ident_at text.now span }
{
    Ident {
        text: word(text, span),
        span,
    }
}

pub(crate) fn name<'a, 't>(
    text: &'a [u8],
    at: Rest<'t>,
) -> Result<(Ident<'a>, Rest<'t>), ParseFault>
    ensures ok { IfOk result (λ r. name_at text.now (state_of at.entry) ≡ Ok (ident_shape r.0, state_of r.1)) }
    ensures shorter { IfOk result (λ r. length r.1.toks.now < length at.entry.toks.now) }
    ensures err { IfErr result (λ e. name_at text.now (state_of at.entry) ≡ Err e) }
{
    let (token, after) = first(at)?;
    match token.kind {
        TokenKind::Name => Ok((ident(text, token.span), after)),
        _ => Err(ParseFault::Expected(token.span.from)),
    }
}

pub(crate) fn number<'t>(at: Rest<'t>) -> Result<(u64, Rest<'t>), ParseFault>
    ensures ok { IfOk result (λ r. number_at (state_of at.entry) ≡ Ok (r.0, state_of r.1)) }
    ensures shorter { IfOk result (λ r. length r.1.toks.now < length at.entry.toks.now) }
    ensures err { IfErr result (λ e. number_at (state_of at.entry) ≡ Err e) }
{
    let (token, after) = first(at)?;
    match token.kind {
        TokenKind::Number(value) => Ok((value, after)),
        _ => Err(ParseFault::Expected(token.span.from)),
    }
}

/// The most elements of an array.
const LONGEST: u64 = 4096;

/// An array's length.
pub(crate) fn length<'t>(at: Rest<'t>) -> Result<(u32, Rest<'t>), ParseFault>
    ensures ok { IfOk result (λ r. length_at (state_of at.entry) ≡ Ok (r.0, state_of r.1)) }
    ensures shorter { IfOk result (λ r. length r.1.toks.now < length at.entry.toks.now) }
    ensures err { IfErr result (λ e. length_at (state_of at.entry) ≡ Err e) }
{
    let (value, after) = number(at)?;
    if value == 0 || value > LONGEST {
        return Err(ParseFault::Expected(place(at)));
    }
    Ok((value as u32, after))
}

/// A number of turns.
pub(crate) fn count<'t>(at: Rest<'t>) -> Result<(u32, Rest<'t>), ParseFault>
    ensures ok { IfOk result (λ r. count_at (state_of at.entry) ≡ Ok (r.0, state_of r.1)) }
    ensures shorter { IfOk result (λ r. length r.1.toks.now < length at.entry.toks.now) }
    ensures err { IfErr result (λ e. count_at (state_of at.entry) ≡ Err e) }
{
    let (value, after) = number(at)?;
    if value > u64::from(u32::MAX) {
        return Err(ParseFault::Expected(place(at)));
    }
    Ok((value as u32, after))
}

fn is_amount(kind: TokenKind) -> bool
    ensures { result ≡ is_amount kind }
{
    matches!(kind, TokenKind::Number(_) | TokenKind::Decimal)
}

/// The probability that the first token writes.
pub(crate) fn bound(text: &[u8], at: Rest<'_>) -> Result<Atto, ParseFault>
    ensures ok { IfOk result (λ a. bound_at text.now (state_of at.entry) ≡ Ok a) }
    ensures err { IfErr result (λ e. bound_at text.now (state_of at.entry) ≡ Err e) }
{
    let (token, _) = first(at)?;
    if !is_amount(token.kind) {
        return Err(ParseFault::Expected(token.span.from));
    }
    match Atto::read(word(text, token.span)) {
        Ok(bound) => Ok(bound),
        Err(_) => Err(ParseFault::Expected(token.span.from)),
    }
}

/// A name or a question mark.
pub(crate) fn choice<'a, 't>(
    text: &'a [u8],
    at: Rest<'t>,
) -> Result<(Kind<'a>, Rest<'t>), ParseFault>
    ensures ok { IfOk result (λ r. choice_at text.now (state_of at.entry) ≡ Ok (kind_shape r.0, state_of r.1)) }
    ensures shorter { IfOk result (λ r. length r.1.toks.now < length at.entry.toks.now) }
    ensures err { IfErr result (λ e. choice_at text.now (state_of at.entry) ≡ Err e) }
{
    let (token, after) = first(at)?;
    match token.kind {
        TokenKind::Name => Ok((Kind::Named(ident(text, token.span)), after)),
        TokenKind::Mark(b'?') => Ok((Kind::Free(token.span), after)),
        _ => Err(ParseFault::Expected(token.span.from)),
    }
}

/// What may stand behind an operator: a point and a name, or a question mark.
pub(crate) fn suffix<'a, 't>(
    text: &'a [u8],
    at: Rest<'t>,
) -> Result<(Kind<'a>, Rest<'t>), ParseFault>
    ensures ok { IfOk result (λ r. suffix_at text.now (state_of at.entry) ≡ Ok (kind_shape r.0, state_of r.1)) }
    ensures within { IfOk result (λ r. length r.1.toks.now ≤ length at.entry.toks.now) }
    ensures err { IfErr result (λ e. suffix_at text.now (state_of at.entry) ≡ Err e) }
{
    if let Ok(after) = skip(at, b'.') {
        let (name, after) = name(text, after)?;
        return Ok((Kind::Named(name), after));
    }
    if let Ok(after) = skip(at, b'?') {
        let (token, _) = first(at)?;
        return Ok((Kind::Free(token.span), after));
    }
    Ok((Kind::Plain, at))
}

/// How loosely an operator binds, from 1 to 7.
fn height(op: Op) -> u32
    ensures { result ≡ height op }
{
    match op {
        Op::Mul | Op::Div | Op::Rem => 1,
        Op::Add | Op::Sub => 2,
        Op::Lt | Op::Le | Op::Gt | Op::Ge => 3,
        Op::Eq | Op::Ne => 4,
        Op::And => 5,
        Op::Xor => 6,
        Op::Or => 7,
    }
}

/// An operator that binds so loosely, and its place.
pub(crate) fn operator<'t>(at: Rest<'t>, loose: u32) -> Result<((Op, Span), Rest<'t>), ParseFault>
    ensures ok { IfOk result (λ r. operator_at loose (state_of at.entry) ≡ Ok (r.0, state_of r.1)) }
    ensures shorter { IfOk result (λ r. length r.1.toks.now < length at.entry.toks.now) }
    ensures err { IfErr result (λ e. operator_at loose (state_of at.entry) ≡ Err e) }
{
    let (token, after) = first(at)?;
    match token.kind {
        TokenKind::Oper(op) if height(op) == loose => Ok(((op, token.span), after)),
        _ => Err(ParseFault::Expected(token.span.from)),
    }
}
