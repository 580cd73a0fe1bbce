//! The lines that the commands answer.

ghost use Rattle.std.specs.Prelude.{◌≡◌, ◌++◌, IfOk, OnOk};
ghost use Rattle.chisel_lines.specs.declared.answer.Answer.TheVariants.{Text};
ghost use Rattle.chisel_lines.specs.declared.status.Grade.TheVariants.{Failing};
ghost use Rattle.chisel_optimise.specs.Lines.{cert_why_text, check_why_text, count_line, energy_line, formless, invalid, measure_lines, no_line, nothing, yes};

use chisel_cert::CertWhy;
use chisel_check::CheckWhy;
use chisel_lines::{Answer, Grade};
use itoa::Buffer;
use rely_num::List;
use std::alloc::{AllocError, Global};

/// What a made problem and its search come to.
#[derive(Clone, Copy)]
pub(crate) struct Measures {
    /// The length of the source, in bytes.
    pub(crate) source: usize,
    pub(crate) decisions: usize,
    pub(crate) rows: usize,
    /// That of the least choice.
    pub(crate) energy: Option<u64>,
    pub(crate) visits: u32,
    pub(crate) nodes: u32,
}

fn check_why_text(why: CheckWhy) -> &'static [u8]
    ensures { result.now ≡ check_why_text why }
{
    match why {
        CheckWhy::Size => b"size",
        CheckWhy::Choice => b"choice",
        CheckWhy::Energy => b"energy",
        CheckWhy::Row => b"row",
        CheckWhy::Branch => b"branch",
        CheckWhy::Children => b"children",
        CheckWhy::Leaf => b"leaf",
    }
}

fn cert_why_text(why: CertWhy) -> &'static [u8]
    ensures { result.now ≡ cert_why_text why }
{
    match why {
        CertWhy::Form => b"form",
        CertWhy::Deep => b"deep",
    }
}

/// A certificate is refused: the first line that fails, and why.
fn no(alloc: Global, line: u32, why: &[u8]) -> Result<Answer, AllocError>
    ensures { IfOk result (λ a. a ≡ Text (no_line line why.now) Failing) }
{
    let mut buffer = Buffer::new();
    let mut text = Vec::from_slice(alloc, b"no ")?;
    text.extend_from_slice(buffer.format(line).as_bytes())?;
    text.extend_from_slice(b" ")?;
    text.extend_from_slice(why)?;
    text.extend_from_slice(b"\n")?;
    Ok(Answer::Text(List::from_vec(text), Grade::Failing))
}

/// The text is no certificate.
pub(crate) fn formless(alloc: Global, line: u32, why: CertWhy) -> Result<Answer, AllocError>
    ensures { IfOk result (λ a. a ≡ formless line why) }
{
    no(alloc, line, cert_why_text(why))
}

/// The certificate isn't valid.
pub(crate) fn invalid(alloc: Global, line: u32, why: CheckWhy) -> Result<Answer, AllocError>
    ensures { IfOk result (λ a. a ≡ invalid line why) }
{
    no(alloc, line, check_why_text(why))
}

/// The certificate is valid.
pub(crate) fn yes(alloc: Global) -> Result<Answer, AllocError>
    ensures { IfOk result (λ a. a ≡ yes) }
{
    let text = Vec::from_slice(alloc, b"yes\n")?;
    Ok(Answer::Text(List::from_vec(text), Grade::Good))
}

/// There is no choice to name.
pub(crate) fn nothing(alloc: Global) -> Result<Answer, AllocError>
    ensures { IfOk result (λ a. a ≡ nothing) }
{
    let text = Vec::from_slice(alloc, b"none\n")?;
    Ok(Answer::Text(List::from_vec(text), Grade::Failing))
}

/// A word, a number and the end of a line.
fn push_count(text: &mut Vec<u8>, word: &[u8], n: u64) -> Result<(), AllocError>
    ensures { OnOk result (text.new.items ≡ text.old.items ++ count_line word.now n) }
{
    let mut buffer = Buffer::new();
    text.extend_from_slice(word)?;
    text.extend_from_slice(b" ")?;
    text.extend_from_slice(buffer.format(n).as_bytes())?;
    text.extend_from_slice(b"\n")?;
    Ok(())
}

/// The energy of a least choice, or that there is none.
fn push_energy(text: &mut Vec<u8>, energy: Option<u64>) -> Result<(), AllocError>
    ensures { OnOk result (text.new.items ≡ text.old.items ++ energy_line energy) }
{
    match energy {
        Some(energy) => push_count(text, b"energy", energy),
        None => text.extend_from_slice(b"energy none\n"),
    }
}

/// A line for each of the measures.
pub(crate) fn measure_lines(alloc: Global, m: &Measures) -> Result<Vec<u8>, AllocError>
    ensures { IfOk result (λ v. v.items ≡ measure_lines m.now) }
{
    let mut text = Vec::new(alloc);
    push_count(&mut text, b"source", m.source as u64)?;
    push_count(&mut text, b"decisions", m.decisions as u64)?;
    push_count(&mut text, b"rows", m.rows as u64)?;
    push_energy(&mut text, m.energy)?;
    push_count(&mut text, b"visits", u64::from(m.visits))?;
    push_count(&mut text, b"nodes", u64::from(m.nodes))?;
    Ok(text)
}
