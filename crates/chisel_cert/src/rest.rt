//! What is left to read of a text, and the words and numbers at its front.
ghost use Rattle.std.specs.Prelude.{◌≡◌, ◌+◌, ◌^◌, ◌<◌, ◌≤◌, length, IfOk, IfSome};
ghost use Rattle.std.specs.List.{prefix_len};
ghost use Rattle.std.specs.Str.Parse.{AllDigits};
ghost use Rattle.rely_num.specs.Texts.{is_digit};
ghost use Rattle.chisel_cert.specs.Ranges.{IsBetween};
ghost use Rattle.chisel_cert.specs.State.{state_of, IsInLine, IsNextLine, IsPassed, IsRead, formless, is_plain, skip_at, line_end_at, number_between, number_at};

use crate::fault::{CertFault, CertWhy};
use crate::limits::MOST_LINES;
use rely_num::is_digit;

/// The bytes that are left, the number of the line that they begin in, and in the tree how many nodes are wanted and
/// how many lines are left for them.
#[derive(Clone, Copy)]
pub(crate) struct Rest<'t> {
    pub(crate) text: &'t [u8],
    pub(crate) line: u32,
    pub(crate) wanted: u32,
    pub(crate) left: u32,
}

/// The line of a place doesn't have its form.
pub(crate) fn formless(at: Rest<'_>) -> CertFault
    ensures { result ≡ formless (state_of at.entry) }
{
    CertFault::At {
        line: at.line,
        why: CertWhy::Form,
    }
}

#[tactic(auto, unfolding(crate::specs::State::skip_at))]
pub(crate) fn skip<'t>(at: Rest<'t>, word: &[u8]) -> Result<Rest<'t>, CertFault>
    ensures reads { IsPassed (skip_at word.now (state_of at.entry)) result }
    ensures line { IfOk result (λ r. IsInLine (state_of at.entry) (state_of r)) }
{
    match at.text.strip_prefix(word) {
        Some(text) => Ok(Rest { text, ..at }),
        None => Err(formless(at)),
    }
}

#[tactic(auto, unfolding(crate::specs::State::line_end_at))]
pub(crate) fn line_end<'t>(at: Rest<'t>) -> Result<Rest<'t>, CertFault>
    requires { at.line ≤ MOST_LINES }
    ensures reads { IsPassed (line_end_at (state_of at.entry)) result }
    ensures line { IfOk result (λ r. IsNextLine (state_of at.entry) (state_of r)) }
{
    let rest = skip(at, b"\n")?;
    Ok(Rest {
        line: rest.line + 1,
        ..rest
    })
}

fn digits_length(text: &[u8]) -> usize
    ensures value { result ≡ prefix_len is_digit text.now }
    ensures within { result ≤ length text.now }
{
    text.iter().take_while(|byte| is_digit(**byte)).count()
}

/// Whether there is a digit, and no zero before another one.
fn is_plain(digits: &[u8]) -> bool
    ensures { result ≡ is_plain digits.now }
{
    match digits {
        [] => false,
        [first, others @ ..] => *first != b'0' || others.is_empty(),
    }
}

/// The number that digits write, if it is in range and no zero stands before it.
fn number_between(digits: &[u8], first: u128, last: u128) -> Option<u128>
    requires digits { AllDigits 10 digits.now }
    requires last { last < 2 ^ 72 }
    ensures value { result ≡ number_between first last digits.now }
    ensures within { IfSome result (λ n. IsBetween first last n) }
{
    let mut value = 0;
    for digit in digits {
        value = 10 * value + u128::from(*digit - b'0');
        if value > last {
            return None;
        }
    }
    if !is_plain(digits) {
        return None;
    }
    if value < first {
        return None;
    }
    Some(value)
}

#[tactic(auto, using(crate::proofs::Numbers::front_digits), unfolding(crate::specs::State::number_at))]
pub(crate) fn number<'t>(
    at: Rest<'t>,
    first: u128,
    last: u128,
) -> Result<(u128, Rest<'t>), CertFault>
    requires { last < 2 ^ 72 }
    ensures reads { IsRead (number_at first last) at.entry result }
    ensures within { IfOk result (λ r. IsBetween first last r.0) }
    ensures line { IfOk result (λ r. IsInLine (state_of at.entry) (state_of r.1)) }
{
    let length = digits_length(at.text);
    match number_between(&at.text[..length], first, last) {
        Some(number) => {
            let text = &at.text[length..];
            Ok((number, Rest { text, ..at }))
        }
        None => Err(formless(at)),
    }
}
