//! The reliable runs from the samples.

ghost use Rattle.std.specs.Prelude.{◌≡◌, ◌<◌, IfOk, IfErr};
ghost use Rattle.std.specs.List.{All};
ghost use Rattle.rely_kernel.specs.Bound.{IsStart};
ghost use Rattle.rely_kernel.specs.Valid.{IsLinked};
ghost use Rattle.rely_machine.specs.Run.{IsOutcome, ReachesLimit};
ghost use Rattle.chisel_optimise.specs.Halts.{HaltsBy};
ghost use Rattle.chisel_optimise.specs.Tables.{AreOutcomes, IsTooLong, too_long};

use crate::halt::Halt;
use chisel_lines::{Limit, Refusal};
use rely_kernel::{Linked, Store};
use rely_machine::{Outcome, RunFault};
use std::alloc::Global;

/// The steps that all runs of a command may not reach together.
pub(crate) const STEPS_LIMIT: u32 = 67_108_864;

/// The reliable run from a start, in fewer steps than are left.
fn outcome(alloc: Global, l: &Linked, start: &Store, left: u64) -> Result<Outcome, Halt>
    requires linked { IsLinked l.now }
    requires start { IsStart l.now.kernel start.now }
    ensures outcome { IfOk result (IsOutcome l.now start.now) }
    ensures below { IfOk result (λ o. o.steps < left) }
    ensures err { IfErr result (HaltsBy (λ a. ReachesLimit l.now start.now left × (a ≡ too_long))) }
{
    match rely_machine::run(alloc, l, start, left) {
        Ok(outcome) => Ok(outcome),
        Err(RunFault::Steps) => Err(Halt::refused(Refusal::Limit(Limit::Steps, STEPS_LIMIT))),
        Err(RunFault::Memory) => Err(Halt::Memory),
    }
}

/// The outcomes from all starts in order, unless they take too many steps together.
#[tactic(auto, using(crate::proofs::Sampling::none_sampled, crate::proofs::Sampling::one_sampled, crate::proofs::Sampling::all_sampled, crate::proofs::Sampling::too_long_together))]
pub(crate) fn outcomes(alloc: Global, l: &Linked, starts: &[Store]) -> Result<Vec<Outcome>, Halt>
    requires linked { IsLinked l.now }
    requires starts { All (IsStart l.now.kernel) starts.now }
    ensures ok { IfOk result (λ runs. AreOutcomes l.now starts.now runs.items) }
    ensures err { IfErr result (HaltsBy (IsTooLong l.now starts.now)) }
{
    let mut left = u64::from(STEPS_LIMIT);
    let mut outcomes = Vec::new(alloc);
    for start in starts {
        let outcome = match outcome(alloc, l, start, left) {
            Ok(outcome) => outcome,
            Err(halt) => return Err(halt),
        };
        left -= outcome.steps;
        outcomes.push(outcome)?;
    }
    Ok(outcomes)
}
