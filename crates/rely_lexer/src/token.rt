use rely_num::{Op, Span, Word};
use std::alloc::AllocFailed;
use thiserror::Error;

/// What a token is.
#[derive(Clone, Copy, Debug, PartialEq, Eq)]
pub enum TokenKind {
    Name,
    Word(Word),
    /// A whole number below 2^63.
    Number(u64),
    Decimal,
    /// One of the bytes `( ) { } [ ] , ; = . ?`.
    Mark(u8),
    Oper(Op),
}

/// A token, which is the slice of the text at its span.
#[derive(Clone, Copy, Debug, PartialEq, Eq)]
pub struct Token {
    pub kind: TokenKind,
    pub span: Span,
}

/// Why a text has no tokens.
#[derive(Clone, Copy, Debug, PartialEq, Eq, Error)]
pub enum LexFault {
    /// The text is longer than 65,536 bytes.
    #[error("the text is too long")]
    TooLong,
    /// The place of a byte that begins no token.
    #[error("no token begins at {0}")]
    BadByte(u32),
    /// The place of a number above 2^63 - 1.
    #[error("the number at {0} is too wide")]
    NumberWide(u32),
    #[error("out of memory")]
    Memory,
}

impl<T: Drop> From<AllocFailed<T>> for LexFault {
    ghost use Rattle.std.specs.Prelude.{◌≡◌};
    ghost use Rattle.rely_lexer.specs.declared.token.LexFault.TheVariants.{Memory};

    ghost from_gives = { λ _ e. e ≡ Memory };

    fn from(_failed: AllocFailed<T>) -> LexFault {
        LexFault::Memory
    }
}
