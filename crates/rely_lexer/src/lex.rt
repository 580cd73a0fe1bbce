// The tokens of a text.
ghost use Rattle.std.specs.Prelude.{◌≡◌, ◌≤◌, ◌⊎◌, length, IfOk, IfErr, Ok, Err};
ghost use Rattle.rely_lexer.specs.Tokens.{tokens_behind, tokens_of, token_at};
ghost use Rattle.rely_lexer.specs.Readings.{AreTokensFrom, IsCause};

use crate::front::piece_of;
use crate::piece::Piece;
use crate::token::{LexFault, Token, TokenKind};
use rely_num::Span;
use std::alloc::Global;

/// The most bytes that a text may have.
const MOST_BYTES: usize = 65_536;

fn token_at(kind: TokenKind, from: usize, to: usize) -> Token
    requires from { from ≤ MOST_BYTES }
    requires to { to ≤ MOST_BYTES }
    ensures { result ≡ token_at kind from to }
{
    Token {
        kind,
        span: Span {
            from: from as u32,
            to: to as u32,
        },
    }
}

fn tokens_in(alloc: Global, text: &[u8]) -> Result<Vec<Token>, LexFault>
    requires { length text.now ≤ MOST_BYTES }
    ensures ok { IfOk result (λ v. tokens_behind text.now 0 0 ≡ Ok v.items) }
    ensures err { IfErr result (λ e. (e ≡ LexFault.Memory) ⊎ (tokens_behind text.now 0 0 ≡ Err e)) }
{
    let mut tokens = Vec::new(alloc);
    let mut at = 0;
    while at < text.len() {
        match piece_of(&text[at..]) {
            Piece::Gap(length) => at += length,
            Piece::Lexeme(kind, length) => {
                tokens.push(token_at(kind, at, at + length))?;
                at += length;
            }
            Piece::Wide => return Err(LexFault::NumberWide(at as u32)),
            Piece::Bad => return Err(LexFault::BadByte(at as u32)),
        }
    }
    Ok(tokens)
}

/// The tokens of a text, or why there are none: `TooLong` above 65,536 bytes, and
/// else the first place where a byte begins no token or a number is too wide.
/// `Memory` comes only where an allocation fails.
#[tactic(auto, using(crate::proofs::ReadingLaws::reads, crate::proofs::RefusalLaws::causes), unfolding(crate::specs::Tokens::tokens_of))]
pub fn tokens(alloc: Global, text: &[u8]) -> Result<Vec<Token>, LexFault>
    ensures ok { IfOk result (λ v. tokens_of text.now ≡ Ok v.items) }
    ensures reads { IfOk result (λ v. AreTokensFrom text.now 0 v.items) }
    ensures err { IfErr result (λ e. (e ≡ LexFault.Memory) ⊎ (tokens_of text.now ≡ Err e)) }
    ensures cause { IfErr result (λ e. IsCause text.now e) }
{
    if text.len() > MOST_BYTES {
        return Err(LexFault::TooLong);
    }
    tokens_in(alloc, text)
}
