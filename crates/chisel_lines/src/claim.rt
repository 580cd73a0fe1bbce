//! The printed line of a claim, and that of a function that is called.

ghost use Rattle.std.specs.Prelude.{◌≡◌, IfOk};
ghost use Rattle.rely_num.specs.AttoTexts.{atto_text};
ghost use Rattle.rely_parser.specs.State.{word_at};
ghost use Rattle.chisel_lines.specs.ClaimLines.{callee_line, line_on, said, variable_name};

use itoa::Buffer;
use rely_kernel::{Claim, Kernel};
use rely_num::{Atto, Span};
use rely_verdict::Verdict;
use std::alloc::{AllocError, Global};

fn printed(a: Atto) -> [u8; 20]
    ensures { result ≡ atto_text a }
{
    let mut text = [0u8; 20];
    a.print(&mut text);
    text
}

fn variable_name(k: &Kernel, v: u32) -> &[u8]
    ensures { result.now ≡ variable_name k.now v }
{
    match k.vars.as_slice().get(v as usize) {
        None => &[],
        Some(var) => var.name.as_slice(),
    }
}

/// What the verdict says, before the bound.
fn said(alloc: Global, k: &Kernel, verdict: &Verdict) -> Result<Vec<u8>, AllocError>
    ensures { IfOk result (λ v. v.items ≡ said k.now verdict.now) }
{
    match verdict {
        Verdict::Needs { var } => {
            let mut text = Vec::from_slice(alloc, b"needs ")?;
            text.extend_from_slice(variable_name(k, *var))?;
            Ok(text)
        }
        Verdict::Below { hi } => {
            let mut text = Vec::from_slice(alloc, b"below ")?;
            text.extend_from_slice(&printed(*hi))?;
            Ok(text)
        }
        Verdict::Undecided { lo, hi } => {
            let mut text = Vec::from_slice(alloc, b"undecided ")?;
            text.extend_from_slice(&printed(*lo))?;
            text.extend_from_slice(b" ")?;
            text.extend_from_slice(&printed(*hi))?;
            Ok(text)
        }
        Verdict::Accepted { lo } => {
            let mut text = Vec::from_slice(alloc, b"accepted ")?;
            text.extend_from_slice(&printed(*lo))?;
            Ok(text)
        }
    }
}

/// The line of the claim with that number, counted from 1: its verdict, and the bound of the claim.
pub fn line(
    alloc: Global,
    k: &Kernel,
    number: u32,
    claim: &Claim,
    verdict: &Verdict,
) -> Result<Vec<u8>, AllocError>
    ensures { IfOk result (λ v. v.items ≡ line_on k.now number claim.now verdict.now) }
{
    let said = said(alloc, k, verdict)?;
    let mut buffer = Buffer::new();
    let mut text = Vec::from_slice(alloc, b"claim ")?;
    text.extend_from_slice(buffer.format(number).as_bytes())?;
    text.extend_from_slice(b" ")?;
    text.extend_from_slice(said.as_slice())?;
    text.extend_from_slice(b" ")?;
    text.extend_from_slice(&printed(claim.bound))?;
    text.extend_from_slice(b"\n")?;
    Ok(text)
}

/// The bytes of a span, none where it reaches outside the text.
fn word_at(text: &[u8], span: Span) -> &[u8]
    ensures { result.now ≡ word_at text.now span }
{
    let from = span.from as usize;
    let to = span.to as usize;
    if to < from || text.len() < to {
        &[]
    } else {
        &text[from..to]
    }
}

/// The same line behind the function's name, which stands in the source.
pub fn callee_line(
    alloc: Global,
    text: &[u8],
    k: &Kernel,
    number: u32,
    claim: &Claim,
    verdict: &Verdict,
) -> Result<Vec<u8>, AllocError>
    ensures { IfOk result (λ v. v.items ≡ callee_line text.now k.now number claim.now verdict.now) }
{
    let line = line(alloc, k, number, claim, verdict)?;
    let mut whole = Vec::from_slice(alloc, b"callee ")?;
    whole.extend_from_slice(word_at(text, k.name))?;
    whole.extend_from_slice(b" ")?;
    whole.extend_from_slice(line.as_slice())?;
    Ok(whole)
}
