// The piece at the front of a text.
ghost use Rattle.std.specs.Prelude.{◌≡◌, ◌<◌, ◌≤◌, length, slice_index, Some, None};
ghost use Rattle.std.specs.List.{prefix_len};
ghost use Rattle.rely_num.specs.Texts.{is_digit, is_name_byte};
ghost use Rattle.rely_num.specs.AttoTexts.{number_of};
ghost use Rattle.rely_lexer.specs.Tokens.{is_in_line, gap_length, name_piece, fraction_length, whole_piece, number_piece, signed, sign_piece, token_piece, piece_of, IsWithin};

use crate::forms::{is_blank, is_in_line, name_kind, sign_kind};
use crate::piece::Piece;
use crate::token::TokenKind;
use rely_num::{is_digit, is_letter, is_name_byte};

/// The byte at a place, and 0 behind the end.
fn byte_at(text: &[u8], at: usize) -> u8
    ensures { result ≡ slice_index text.now at }
{
    text.get(at).copied().unwrap_or(0)
}

fn line_length(text: &[u8]) -> usize
    ensures value { result ≡ prefix_len is_in_line text.now }
{
    text.iter().take_while(|byte| is_in_line(**byte)).count()
}

fn name_length(text: &[u8]) -> usize
    ensures value { result ≡ prefix_len is_name_byte text.now }
    ensures within { result ≤ length text.now }
{
    text.iter().take_while(|byte| is_name_byte(**byte)).count()
}

fn digits_length(text: &[u8]) -> usize
    ensures value { result ≡ prefix_len is_digit text.now }
    ensures within { result ≤ length text.now }
{
    text.iter().take_while(|byte| is_digit(**byte)).count()
}

#[tactic(auto, unfolding(crate::specs::Tokens::gap_length))]
fn gap_length(text: &[u8]) -> usize
    ensures { result ≡ gap_length text.now }
{
    if is_blank(byte_at(text, 0)) {
        1
    } else if byte_at(text, 0) == b'/' && byte_at(text, 1) == b'/' {
        line_length(text)
    } else {
        0
    }
}

#[tactic(auto, unfolding(crate::specs::Tokens::name_piece))]
fn name_piece(text: &[u8]) -> Piece
    ensures { result ≡ name_piece text.now }
{
    let length = name_length(text);
    Piece::Lexeme(name_kind(&text[..length]), length)
}

#[tactic(auto, unfolding(crate::specs::Tokens::fraction_length))]
fn fraction_length(text: &[u8]) -> usize
    ensures value { result ≡ fraction_length text.now }
    ensures within { result ≤ length text.now }
{
    if byte_at(text, 0) == b'.' && is_digit(byte_at(text, 1)) {
        1 + digits_length(&text[1..])
    } else {
        0
    }
}

/// The largest number that isn't too wide.
const MOST: u64 = (1 << 63) - 1;

#[tactic(auto, unfolding(crate::specs::Tokens::whole_piece))]
fn whole_piece(digits: &[u8]) -> Piece
    ensures { result ≡ whole_piece digits.now }
{
    let mut value = 0;
    for byte in digits {
        let digit = u64::from(byte.saturating_sub(b'0'));
        if value > (MOST - digit) / 10 {
            return Piece::Wide;
        }
        value = 10 * value + digit;
    }
    Piece::Lexeme(TokenKind::Number(value), digits.len())
}

#[tactic(auto, unfolding(crate::specs::Tokens::number_piece))]
fn number_piece(text: &[u8]) -> Piece
    ensures { result ≡ number_piece text.now }
{
    let whole = digits_length(text);
    let fraction = fraction_length(&text[whole..]);
    if fraction > 0 {
        Piece::Lexeme(TokenKind::Decimal, whole + fraction)
    } else {
        whole_piece(&text[..whole])
    }
}

fn signed(text: &[u8]) -> Option<Piece>
    ensures { result ≡ signed text.now }
{
    let kind = sign_kind(text)?;
    Some(Piece::Lexeme(kind, text.len()))
}

#[tactic(auto, unfolding(crate::specs::Tokens::sign_piece))]
fn sign_piece(text: &[u8]) -> Piece
    ensures { result ≡ sign_piece text.now }
{
    let two = &text[..text.len().min(2)];
    let one = &text[..text.len().min(1)];
    signed(two).or(signed(one)).unwrap_or(Piece::Bad)
}

#[tactic(auto, unfolding(crate::specs::Tokens::token_piece))]
fn token_piece(text: &[u8]) -> Piece
    ensures { result ≡ token_piece text.now }
{
    let first = byte_at(text, 0);
    if is_letter(first) {
        name_piece(text)
    } else if is_digit(first) {
        number_piece(text)
    } else {
        sign_piece(text)
    }
}

#[tactic(auto, unfolding(crate::specs::Tokens::piece_of))]
pub(crate) fn piece_of(text: &[u8]) -> Piece
    requires { 0 < length text.now }
    ensures value { result ≡ piece_of text.now }
    ensures within { IsWithin (length text.now) result }
{
    let gap = gap_length(text);
    if gap > 0 {
        Piece::Gap(gap)
    } else {
        token_piece(text)
    }
}
