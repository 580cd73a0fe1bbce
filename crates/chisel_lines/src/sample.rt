//! The printed lines of runs on samples.

ghost use Rattle.std.specs.Prelude.{◌≡◌, ◌≤◌, IfOk, length};
ghost use Rattle.chisel_lines.specs.SampleLines.{agree_text, energy_line, sample_line, sample_lines};

use itoa::Buffer;
use std::alloc::{AllocError, Global};

/// What the line of a sample tells.
#[derive(Clone, Copy, Debug)]
pub struct SampleEnd {
    /// That of the reliable run.
    pub result: i64,
    /// Those of the reliable run.
    pub steps: u64,
    /// How many of the sample's trials end with the same result.
    pub agreeing: u64,
}

/// How many trials agree; nothing is said of none.
fn agree_text(alloc: Global, agreeing: u64, trials: u64) -> Result<Vec<u8>, AllocError>
    ensures { IfOk result (λ v. v.items ≡ agree_text agreeing trials) }
{
    if trials == 0 {
        return Ok(Vec::new(alloc));
    }
    let mut buffer = Buffer::new();
    let mut text = Vec::from_slice(alloc, b" agree ")?;
    text.extend_from_slice(buffer.format(agreeing).as_bytes())?;
    text.extend_from_slice(b" of ")?;
    text.extend_from_slice(buffer.format(trials).as_bytes())?;
    Ok(text)
}

/// The line of the sample with that number, counted from 1.
fn sample_line(
    alloc: Global,
    trials: u64,
    number: u32,
    end: &SampleEnd,
) -> Result<Vec<u8>, AllocError>
    ensures { IfOk result (λ v. v.items ≡ sample_line trials number end.now) }
{
    let agree = agree_text(alloc, end.agreeing, trials)?;
    let mut buffer = Buffer::new();
    let mut text = Vec::from_slice(alloc, b"sample ")?;
    text.extend_from_slice(buffer.format(number).as_bytes())?;
    text.extend_from_slice(b" result ")?;
    text.extend_from_slice(buffer.format(end.result).as_bytes())?;
    text.extend_from_slice(b" steps ")?;
    text.extend_from_slice(buffer.format(end.steps).as_bytes())?;
    text.extend_from_slice(agree.as_slice())?;
    text.extend_from_slice(b"\n")?;
    Ok(text)
}

/// One line for each sample, counted from 1: its result, its steps, and where each has trials how many of them agree.
pub fn sample_lines(alloc: Global, trials: u64, ends: &[SampleEnd]) -> Result<Vec<u8>, AllocError>
    requires { length ends.now ≤ 64 }
    ensures { IfOk result (λ v. v.items ≡ sample_lines trials 1 ends.now) }
{
    let mut text = Vec::new(alloc);
    for (i, end) in ends.iter().enumerate() {
        let line = sample_line(alloc, trials, i as u32 + 1, end)?;
        text.extend_from_slice(line.as_slice())?;
    }
    Ok(text)
}

/// The line of the energy of all samples.
pub fn energy_line(alloc: Global, energy: u64) -> Result<Vec<u8>, AllocError>
    ensures { IfOk result (λ v. v.items ≡ energy_line energy) }
{
    let mut buffer = Buffer::new();
    let mut text = Vec::from_slice(alloc, b"energy ")?;
    text.extend_from_slice(buffer.format(energy).as_bytes())?;
    text.extend_from_slice(b"\n")?;
    Ok(text)
}
