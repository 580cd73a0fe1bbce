//! The whole answer.

ghost use Rattle.std.specs.Prelude.{◌≡◌, ◌∷◌, ◌++◌, [], IfOk, IfErr, if◌then◌else◌};
ghost use Rattle.chisel_claims.specs.Verdicts.{IsLimited};
ghost use Rattle.chisel_lines.specs.Answers.{answer_status, answer_text};
ghost use Rattle.chisel_source.specs.Meaning.{AreClosed, IsReady};
ghost use Rattle.chisel_verify.specs.Answer.{IsAnswer, asked};
ghost use Rattle.chisel_verify.specs.Lines.{lines_of};
ghost use Rattle.chisel_verify.specs.Printing.{Prints};

use crate::callees::{CalleeLines, callee_lines};
use crate::own::own_lines;
use crate::printed::{Printed, grade_on};
use chisel_lines::{Answer, walk_refusal};
use chisel_source::Ready;
use rely_num::List;
use rely_precond::PreFault;
use rely_verdict::Verdict;
use std::alloc::{AllocError, Global};

/// The one line of a callee whose claim in use isn't accepted.
fn one_line(alloc: Global, text: Vec<u8>, verdict: Verdict) -> Result<Printed, AllocError>
    ensures { IfOk result (λ p. (p.text.items ≡ text.items) × (p.verdicts.items ≡ verdict ∷ [])) }
{
    let mut verdicts = Vec::new(alloc);
    verdicts.push(verdict)?;
    Ok(Printed { text, verdicts })
}

/// The lines of the function, behind those of its callees where they are wanted.
fn behind(before: Vec<u8>, wanted: bool, own: Printed) -> Result<Printed, AllocError>
    ensures { IfOk result (λ p. (p.text.items ≡ (if wanted then before.items else []) ++ own.text.items) × (p.verdicts.items ≡ own.verdicts.items)) }
{
    let Printed { text, verdicts } = own;
    if !wanted {
        return Ok(Printed { text, verdicts });
    }
    let mut all = before;
    all.extend_from_slice(text.as_slice())?;
    Ok(Printed {
        text: all,
        verdicts,
    })
}

/// What is printed, unless a walk reaches a limit.
#[tactic(auto, using(chisel_source::proofs::Parts::inner_valid, chisel_source::proofs::Parts::inner_on, chisel_source::proofs::Parts::inner_closed, chisel_source::proofs::Parts::own_valid, chisel_source::proofs::Parts::own_on, chisel_source::proofs::Parts::own_closed))]
fn printed(alloc: Global, ready: &Ready, wanted: bool) -> Result<Printed, PreFault>
    requires ready { IsReady ready.now }
    requires closed { AreClosed ready.now.linked }
    ensures ok { IfOk result (Prints ready.now.text (lines_of ready.now wanted)) }
    ensures err { IfErr result (IsLimited (lines_of ready.now wanted)) }
{
    let called = match callee_lines(
        alloc,
        ready.text.as_slice(),
        &ready.hardware,
        ready.linked.inner.as_slice(),
    ) {
        Ok(called) => called,
        Err(fault) => return Err(fault),
    };
    match called {
        CalleeLines::AllAccepted(before) => {
            let own = match own_lines(alloc, &ready.hardware, &ready.linked) {
                Ok(own) => own,
                Err(fault) => return Err(fault),
            };
            Ok(behind(before, wanted, own)?)
        }
        CalleeLines::OneFails(line, verdict) => Ok(one_line(alloc, line, verdict)?),
    }
}

/// The lines of the function's claims, and where they are wanted those of the functions that it reaches.
///
/// Want of memory is the only error: a limit that a walk reaches is a refusal among the answers.
pub fn verify(alloc: Global, ready: &Ready, callees: bool) -> Result<Answer, AllocError>
    requires ready { IsReady ready.now }
    requires closed { AreClosed ready.now.linked }
    ensures { IfOk result (λ a. IsAnswer (asked ready.now callees) (answer_text a) (answer_status a)) }
{
    match printed(alloc, ready, callees) {
        Ok(printed) => {
            let grade = grade_on(printed.verdicts.as_slice());
            Ok(Answer::Text(List::from_vec(printed.text), grade))
        }
        Err(fault) => match walk_refusal(fault) {
            Some(refusal) => Ok(Answer::Refused(refusal)),
            None => Err(AllocError),
        },
    }
}
