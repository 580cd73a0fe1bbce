// What stands at the front of a text.
use crate::token::TokenKind;

/// What stands at the front of a text.
#[derive(Clone, Copy, Debug, PartialEq, Eq)]
pub enum Piece {
    /// Blanks or a comment, of so many bytes.
    Gap(usize),
    /// A token of so many bytes.
    Lexeme(TokenKind, usize),
    /// A number above 2^63 - 1.
    Wide,
    /// A byte that begins no token.
    Bad,
}
