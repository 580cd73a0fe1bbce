ghost use Rattle.std.specs.Prelude.{◌≡◌, ℕ, ◌≤◌, ◌<◌, ◌^◌, ◌-◌, ◌*◌, length, take, drop, Ok, Some, None};
ghost use Rattle.std.specs.List.{AllPass};
ghost use Rattle.rely_num.specs.Bounds.{S};
ghost use Rattle.rely_num.specs.Texts.{is_digit};
ghost use Rattle.rely_num.specs.AttoTexts.{digits, atto_text, fits_at, leaves_at, number_of, attos_of, within_one, formed, atto_of};

use crate::name::is_digit;
use crate::{Atto, NumFault};

/// The bytes of the longest text: a digit, the point and eighteen decimals.
const LONGEST: usize = 20;

impl Atto {
    /// The probability that a text writes: a digit, or a digit, a point and at most eighteen digits.
    ///
    /// Of several faults the first in the order of `NumFault` is reported.
    pub fn read(text: &[u8]) -> Result<Atto, NumFault>
        ensures { result ≡ atto_of text.now }
    {
        match text {
            [] => Err(NumFault::Empty),
            [b'+' | b'-', ..] => Err(NumFault::Sign),
            _ => read_unsigned(text),
        }
    }

    /// Writes a digit, the point and eighteen decimals.
    pub fn print(self, out: &mut [u8; 20])
        ensures text { out.new ≡ atto_text self }
        ensures read { atto_of out.new ≡ Ok self }
    {
        let attos = self.get();
        out[0] = b'0' + (attos / Atto::ONE.get()) as u8;
        out[1] = b'.';
        write_digits(&mut out[2..], attos % Atto::ONE.get());
    }
}

#[tactic(auto, using(crate::proofs::Digits::formed_short))]
fn read_unsigned(text: &[u8]) -> Result<Atto, NumFault>
    requires { 0 < length text.now }
    ensures { result ≡ formed text.now (leaves_at 0 (take 20 text.now)) }
{
    match leaves(head(text)) {
        Some(place) => Err(NumFault::Digit(place)),
        None if text.len() > LONGEST => Err(NumFault::Decimals(20)),
        None => within_one(attos(text)),
    }
}

fn head(text: &[u8]) -> &[u8]
    ensures { result.now ≡ take 20 text.now }
{
    &text[..text.len().min(LONGEST)]
}

fn within_one(attos: u64) -> Result<Atto, NumFault>
    ensures { result ≡ within_one attos }
{
    Atto::new(attos).ok_or(NumFault::Above)
}

fn fits_at(place: u32, byte: u8) -> bool
    ensures { result ≡ fits_at place byte }
{
    if place == 1 {
        byte == b'.'
    } else {
        is_digit(byte)
    }
}

/// The first place where the text leaves the form.
fn leaves(text: &[u8]) -> Option<u32>
    requires { length text.now ≤ 20 }
    ensures { result ≡ leaves_at 0 text.now }
{
    let mut place = 0;
    for byte in text {
        if !fits_at(place, *byte) {
            return Some(place);
        }
        place += 1;
    }
    if place == 0 || place == 2 {
        Some(place)
    } else {
        None
    }
}

/// The attos of a text that has the form.
#[tactic(auto, using(crate::proofs::Digits::tail_passes, crate::proofs::Digits::head_passes))]
fn attos(text: &[u8]) -> u64
    requires form { leaves_at 0 text.now ≡ None }
    requires short { length text.now ≤ 20 }
    ensures { result ≡ attos_of text.now }
{
    number(&text[..1]) * Atto::ONE.get() + fraction(decimals(text))
}

/// What stands after the point, if there is one.
fn decimals(text: &[u8]) -> &[u8]
    ensures { result.now ≡ drop 2 text.now }
{
    &text[text.len().min(2)..]
}

/// The attos that decimals write.
#[tactic(auto, using(crate::proofs::Digits::scaled))]
fn fraction(decimals: &[u8]) -> u64
    requires all { AllPass is_digit decimals.now }
    requires short { length decimals.now ≤ 18 }
    ensures value { result ≡ number_of decimals.now * 10 ^ (18 - length decimals.now) }
    ensures bound { result < S }
{
    let missing = 18 - decimals.len() as u32;
    number(decimals) * 10u64.pow(missing)
}

/// The number that digits write.
#[tactic(auto, using(crate::proofs::Digits::fits_more))]
fn number(text: &[u8]) -> u64
    requires all { AllPass is_digit text.now }
    requires short { length text.now ≤ 18 }
    ensures value { result ≡ number_of text.now }
    ensures bound { result < 10 ^ length text.now }
{
    let mut n = 0;
    for byte in text {
        n = 10 * n + u64::from(*byte - b'0');
    }
    n
}

/// Writes as many digits of a number as there is room for, the last one last.
fn write_digits(out: &mut [u8], n: u64)
    ensures { out.new ≡ digits (length out.old) n }
{
    let mut rest = n;
    for place in (0..out.len()).rev() {
        out[place] = b'0' + (rest % 10) as u8;
        rest /= 10;
    }
}
