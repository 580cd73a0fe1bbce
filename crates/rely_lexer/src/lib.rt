//! The tokens of a source text.
#![tactic(auto)]

mod forms;
mod front;
mod law;
mod lex;
mod piece;
mod token;

pub use law::{one_list, one_reading, one_refusal};
pub use lex::tokens;
pub use piece::Piece;
pub use rely_num::Word;
pub use token::{LexFault, Token, TokenKind};
