ghost use Rattle.std.specs.Prelude.{◌≡◌};
ghost use Rattle.std.specs.List.{list_all};
ghost use Rattle.rely_num.specs.Texts.{is_digit, is_letter, is_name_byte, is_word, is_among, reserved, is_name};

use crate::word::Word;

/// A decimal digit.
pub fn is_digit(byte: u8) -> bool
    ensures { result ≡ is_digit byte }
{
    b'0' <= byte && byte <= b'9'
}

/// A letter of the language: an ASCII letter or the underscore.
pub fn is_letter(byte: u8) -> bool
    ensures { result ≡ is_letter byte }
{
    (b'a' <= byte && byte <= b'z') || (b'A' <= byte && byte <= b'Z') || byte == b'_'
}

/// What may stand in a name after its first byte.
pub fn is_name_byte(byte: u8) -> bool
    ensures { result ≡ is_name_byte byte }
{
    is_letter(byte) || is_digit(byte)
}

fn are_name_bytes(text: &[u8]) -> bool
    ensures { result ≡ list_all is_name_byte text.now }
{
    text.iter().all(|byte| is_name_byte(*byte))
}

#[tactic(auto, using(crate::proofs::Names::is_word_first))]
fn is_word(text: &[u8]) -> bool
    ensures { result ≡ is_word text.now }
{
    match text {
        [] => false,
        [first, rest @ ..] => is_letter(*first) && are_name_bytes(rest),
    }
}

/// A word that the language keeps for itself.
#[tactic(auto, using(crate::proofs::Searches::word_among))]
pub fn is_reserved(text: &[u8]) -> bool
    ensures { result ≡ is_among text.now reserved }
{
    Word::of_text(text).is_some()
}

/// Whether a whole text is a name that a source may use.
pub fn is_name(text: &[u8]) -> bool
    ensures { result ≡ is_name text.now }
{
    is_word(text) && !is_reserved(text)
}
