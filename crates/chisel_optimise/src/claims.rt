//! The claims, before any sample is run: those of the functions that are called are accepted, the walks of all claims end,
//! and no claim needs a variable that it doesn't name.

ghost use Rattle.std.specs.Prelude.{◌≡◌, None, IfOk, IfErr, OnOk};
ghost use Rattle.std.specs.List.{AllByRecursion};
ghost use Rattle.rely_kernel.specs.Setting.{IsClosed};
ghost use Rattle.chisel_claims.specs.Verdicts.{judged_of};
ghost use Rattle.chisel_lines.specs.declared.answer.Answer.TheVariants.{Text};
ghost use Rattle.chisel_lines.specs.declared.status.Grade.TheVariants.{Failing};
ghost use Rattle.chisel_problem.specs.Problem.{ArePredicates};
ghost use Rattle.chisel_source.specs.Meaning.{IsReady};
ghost use Rattle.chisel_optimise.specs.Claims.{CalleesStand, EndsEarly, callee_answer, early_answer, grade_of, needs_line};
ghost use Rattle.chisel_optimise.specs.Halts.{HaltsBy, walk_halt};
ghost use Rattle.chisel_optimise.specs.Tables.{predicates_of};

use crate::halt::Halt;
use chisel_claims::{Judged, first_failing, first_needs, predicates};
use chisel_lines::{Answer, Grade, callee_line, line, walk_refusal};
use chisel_source::Ready;
use rely_kernel::Kernel;
use rely_num::List;
use rely_precond::PreFault;
use rely_predicate::Predicate;
use rely_verdict::Verdict;
use std::alloc::{AllocError, Global};

/// What a verdict that isn't of an accepted claim says of the whole.
fn grade_of(verdict: Verdict) -> Grade
    ensures { result ≡ grade_of verdict }
{
    match verdict {
        Verdict::Needs { .. } | Verdict::Below { .. } => Grade::Failing,
        Verdict::Undecided { .. } => Grade::Undecided,
        Verdict::Accepted { .. } => Grade::Good,
    }
}

/// The walk of a claim reaches a limit.
fn walk_halt(fault: PreFault) -> Halt
    ensures { result ≡ walk_halt fault }
{
    match walk_refusal(fault) {
        Some(refusal) => Halt::refused(refusal),
        None => Halt::Memory,
    }
}

/// The line of a callee whose claim in use isn't accepted.
fn failing_callee(alloc: Global, text: &[u8], j: &Judged<'_>) -> Result<Answer, AllocError>
    ensures { IfOk result (λ a. a ≡ callee_answer text.now (judged_of j.now)) }
{
    let line = callee_line(alloc, text, j.kernel, j.number, j.claim, &j.verdict)?;
    Ok(Answer::Text(List::from_vec(line), grade_of(j.verdict)))
}

/// The claims in use of the functions that are called are accepted.
#[tactic(auto, using(crate::proofs::Early::callee_limited, crate::proofs::Early::callee_fails, crate::proofs::Early::callees_stand))]
fn callees_accepted(alloc: Global, ready: &Ready) -> Result<(), Halt>
    requires sound { IsReady ready.now }
    requires inner { AllByRecursion IsClosed ready.now.linked.inner }
    ensures ok { OnOk result (CalleesStand ready.now) }
    ensures err { IfErr result (HaltsBy (EndsEarly ready.now)) }
{
    match first_failing(alloc, &ready.hardware, ready.linked.inner.as_slice()) {
        Ok(None) => Ok(()),
        Ok(Some(judged)) => {
            let answer = failing_callee(alloc, ready.text.as_slice(), &judged)?;
            Err(Halt::Answer(answer))
        }
        Err(fault) => Err(walk_halt(fault)),
    }
}

/// The line of the first claim that needs a variable.
fn needing(alloc: Global, k: &Kernel, number: u32, var: u32) -> Result<Answer, AllocError>
    ensures { IfOk result (λ a. a ≡ Text (needs_line k.now (number, var)) Failing) }
{
    let before = (number as usize).saturating_sub(1);
    let text = match k.claims.as_slice().get(before) {
        Some(claim) => line(alloc, k, number, claim, &Verdict::Needs { var })?,
        None => Vec::new(alloc),
    };
    Ok(Answer::Text(List::from_vec(text), Grade::Failing))
}

/// The predicates of all claims, where nothing ends the command before its samples.
#[tactic(auto, using(crate::proofs::Early::claim_limited, crate::proofs::Early::claim_needs, crate::proofs::Early::goes_on, crate::proofs::Predicates::tops_are, crate::proofs::Predicates::fit_table, crate::proofs::Predicates::counted_claims))]
pub(crate) fn claim_predicates(alloc: Global, ready: &Ready) -> Result<Vec<Predicate>, Halt>
    requires sound { IsReady ready.now }
    requires inner { AllByRecursion IsClosed ready.now.linked.inner }
    ensures tops { IfOk result (λ ps. ps.items ≡ predicates_of ready.now.linked.kernel) }
    ensures small { IfOk result (λ ps. ArePredicates ready.now.linked.kernel ps.items) }
    ensures goes_on { OnOk result (early_answer ready.now ≡ None) }
    ensures err { IfErr result (HaltsBy (EndsEarly ready.now)) }
{
    match callees_accepted(alloc, ready) {
        Ok(()) => (),
        Err(halt) => return Err(halt),
    }
    let kernel = &ready.linked.kernel;
    let predicates = match predicates(alloc, kernel) {
        Ok(predicates) => predicates,
        Err(fault) => return Err(walk_halt(fault)),
    };
    match first_needs(kernel.claims.as_slice(), predicates.as_slice()) {
        Some((number, var)) => Err(Halt::Answer(needing(alloc, kernel, number, var)?)),
        None => Ok(predicates),
    }
}
