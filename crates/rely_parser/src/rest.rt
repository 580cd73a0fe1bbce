// What is left to read, and the tokens at its front.
ghost use Rattle.std.specs.Prelude.{◌≡◌, ◌<◌, ◌≤◌, length, Ok, Err, IfOk, IfErr, false};
ghost use Rattle.rely_parser.specs.State.{state_of, place, first_at, skip_at, skip_word_at};

use crate::fault::ParseFault;
use rely_lexer::{Token, TokenKind, Word};

/// The tokens that are left, how many variables, operators and calls the function may still have,
/// and the place behind the text.
#[derive(Clone, Copy)]
pub(crate) struct Rest<'t> {
    pub(crate) toks: &'t [Token],
    pub(crate) variables: u32,
    pub(crate) operators: u32,
    pub(crate) calls: u32,
    pub(crate) end: u32,
}

/// The place of the first token, and the text's length where there is none.
pub(crate) fn place(at: Rest<'_>) -> u32
    ensures { result ≡ place (state_of at.entry) }
{
    match at.toks.first() {
        Some(token) => token.span.from,
        None => at.end,
    }
}

pub(crate) fn first<'t>(at: Rest<'t>) -> Result<(Token, Rest<'t>), ParseFault>
    ensures ok { IfOk result (λ r. first_at (state_of at.entry) ≡ Ok (r.0, state_of r.1)) }
    ensures shorter { IfOk result (λ r. length r.1.toks.now < length at.entry.toks.now) }
    ensures err { IfErr result (λ e. first_at (state_of at.entry) ≡ Err e) }
{
    match at.toks.split_first() {
        Some((token, toks)) => Ok((*token, Rest { toks, ..at })),
        None => Err(ParseFault::Expected(at.end)),
    }
}

pub(crate) fn skip<'t>(at: Rest<'t>, mark: u8) -> Result<Rest<'t>, ParseFault>
    ensures ok { IfOk result (λ r. skip_at mark (state_of at.entry) ≡ Ok (state_of r)) }
    ensures shorter { IfOk result (λ r. length r.toks.now < length at.entry.toks.now) }
    ensures err { IfErr result (λ e. skip_at mark (state_of at.entry) ≡ Err e) }
{
    let (token, after) = first(at)?;
    match token.kind {
        TokenKind::Mark(found) if found == mark => Ok(after),
        _ => Err(ParseFault::Expected(token.span.from)),
    }
}

pub(crate) fn skip_word<'t>(at: Rest<'t>, word: Word) -> Result<Rest<'t>, ParseFault>
    ensures ok { IfOk result (λ r. skip_word_at word (state_of at.entry) ≡ Ok (state_of r)) }
    ensures shorter { IfOk result (λ r. length r.toks.now < length at.entry.toks.now) }
    ensures err { IfErr result (λ e. skip_word_at word (state_of at.entry) ≡ Err e) }
{
    let (token, after) = first(at)?;
    match token.kind {
        TokenKind::Word(found) if found == word => Ok(after),
        _ => Err(ParseFault::Expected(token.span.from)),
    }
}
