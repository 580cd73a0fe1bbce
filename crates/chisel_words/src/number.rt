//! Numbers that are words of a command line.

ghost use Rattle.std.specs.Prelude.{◌≡◌};
ghost use Rattle.chisel_words.specs.Numbers.{number_between, number_up_to};

use itoa::Buffer;

/// A number in decimal digits, with no zero before it, at most `last`.
pub(crate) fn number(word: &str, last: u64) -> Option<u64>
    ensures { result ≡ number_up_to last word.now }
{
    let Ok(number) = word.parse::<u64>() else {
        return None;
    };
    let mut buffer = Buffer::new();
    if number <= last && buffer.format(number) == word {
        Some(number)
    } else {
        None
    }
}

/// The same, and at least `first`.
pub(crate) fn number_between(word: &str, first: u64, last: u64) -> Option<u64>
    ensures { result ≡ number_between first last word.now }
{
    let number = number(word, last)?;
    if first <= number { Some(number) } else { None }
}
