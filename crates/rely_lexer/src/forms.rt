// The forms of tokens: which bytes are a blank, a mark, or an operator.
ghost use Rattle.std.specs.Prelude.{◌≡◌};
ghost use Rattle.rely_lexer.specs.Forms.{name_kind, mark_kind, sign_kind};
ghost use Rattle.rely_lexer.specs.Tokens.{is_blank, is_in_line};

use crate::token::TokenKind;
use rely_num::{Op, Word};

pub(crate) fn is_blank(byte: u8) -> bool
    ensures { result ≡ is_blank byte }
{
    matches!(byte, b' ' | b'\t' | b'\n' | b'\r')
}

pub(crate) fn is_in_line(byte: u8) -> bool
    ensures { result ≡ is_in_line byte }
{
    byte != b'\n'
}

#[tactic(auto, unfolding(crate::specs::Forms::name_kind))]
pub(crate) fn name_kind(name: &[u8]) -> TokenKind
    ensures { result ≡ name_kind name.now }
{
    match Word::of_text(name) {
        Some(word) => TokenKind::Word(word),
        None => TokenKind::Name,
    }
}

#[tactic(auto, unfolding(crate::specs::Forms::mark_kind))]
fn mark_kind(byte: u8) -> Option<TokenKind>
    ensures { result ≡ mark_kind byte }
{
    if b"(){}[],;=.?".contains(&byte) {
        Some(TokenKind::Mark(byte))
    } else {
        None
    }
}

#[tactic(auto, unfolding(crate::specs::Forms::sign_kind))]
pub(crate) fn sign_kind(text: &[u8]) -> Option<TokenKind>
    ensures { result ≡ sign_kind text.now }
{
    if let Some(op) = Op::of_text(text) {
        return Some(TokenKind::Oper(op));
    }
    match text {
        [byte] => mark_kind(*byte),
        _ => None,
    }
}
