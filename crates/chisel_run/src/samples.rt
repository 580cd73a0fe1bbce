//! The runs from the samples: of each its reliable run, and its trials behind it.

ghost use Rattle.std.specs.Prelude.{◌≡◌, ◌<◌, ◌≤◌, [], IfOk, IfErr, length};
ghost use Rattle.std.specs.List.{All};
ghost use Rattle.rely_kernel.specs.Bound.{IsStart};
ghost use Rattle.rely_kernel.specs.Rates.{own};
ghost use Rattle.rely_kernel.specs.Setting.{IsClosed};
ghost use Rattle.chisel_run.specs.Courses.{Exceeds, Sampled, Simulates};
ghost use Rattle.chisel_run.specs.Calls.{barred_call};
ghost use Rattle.chisel_run.specs.Simulations.{RunsPass, SamplePasses, most_steps};
ghost use Rattle.chisel_run.specs.Answer.{IsRunnable};

use crate::course::Course;
use chisel_lines::SampleEnd;
use chisel_options::Trials;
use chisel_source::Ready;
use rely_kernel::{Kernel, Setting, Store, own_setting};
use rely_machine::{Outcome, RunFault};
use std::alloc::{AllocError, Global};

/// What the runs from the samples come to.
#[derive(Drop)]
pub(crate) struct Simulated {
    /// Those of the reliable runs.
    pub(crate) outcomes: Vec<Outcome>,
    pub(crate) ends: Vec<SampleEnd>,
}

/// The setting of a kernel that leaves no place open.
fn own_kinds(alloc: Global, k: &Kernel) -> Result<Setting, AllocError>
    requires { IsClosed k.now }
    ensures { IfOk result (λ t. t ≡ own k.now) }
{
    let setting = own_setting(alloc, k)?;
    let Some(setting) = setting else {
        unreachable!();
    };
    Ok(setting)
}

/// What is told of a sample, so many trials of which agree with its reliable run.
fn end_of(outcome: &Outcome, agreeing: u64) -> SampleEnd
    ensures { result ≡ record { result = outcome.now.store.result; steps = outcome.now.steps; agreeing = agreeing } }
{
    SampleEnd {
        result: outcome.store.result,
        steps: outcome.steps,
        agreeing,
    }
}

/// The reliable run from a start, and then so many trials.
fn sample(
    alloc: Global,
    start: &Store,
    count: u64,
    course: &mut Course,
) -> Result<(Outcome, SampleEnd), RunFault>
    requires ready { IsRunnable course.old.ready }
    requires start { IsStart course.old.ready.linked.kernel start.now }
    requires calls { 0 < count → course.old.ready.linked.kernel.calls ≡ [] }
    requires left { course.old.left ≤ most_steps }
    ensures ok { IfOk result (λ x. Sampled course.old.ready count start.now course.old course.new x.0 x.1) }
    ensures err { IfErr result (Exceeds (SamplePasses course.old.ready count start.now course.old.words course.old.left)) }
{
    let outcome = match course.reliable(alloc, start) {
        Ok(outcome) => outcome,
        Err(fault) => return Err(fault),
    };
    let agreeing = match course.agreeing(start, &outcome, count) {
        Ok(agreeing) => agreeing,
        Err(fault) => return Err(fault),
    };
    let end = end_of(&outcome, agreeing);
    Ok((outcome, end))
}

/// The runs from all starts, unless they take too many steps together.
pub(crate) fn samples(
    alloc: Global,
    ready: &Ready,
    trials: Trials,
    starts: &[Store],
) -> Result<Simulated, RunFault>
    requires ready { IsRunnable ready.now }
    requires starts { All (IsStart ready.now.linked.kernel) starts.now }
    requires calls { 0 < trials.count → ready.now.linked.kernel.calls ≡ [] }
    ensures ok { IfOk result (λ s. Simulates ready.now trials starts.now s.outcomes.items s.ends.items) }
    ensures err { IfErr result (Exceeds (RunsPass ready.now trials starts.now)) }
{
    let setting = own_kinds(alloc, &ready.linked.kernel)?;
    let mut course = Course::new(alloc, ready, &setting, trials.seed)?;
    let mut outcomes = Vec::new(alloc);
    let mut ends = Vec::new(alloc);
    for start in starts {
        let (outcome, end) = match sample(alloc, start, trials.count, &mut course) {
            Ok(sample) => sample,
            Err(fault) => return Err(fault),
        };
        outcomes.push(outcome)?;
        ends.push(end)?;
    }
    Ok(Simulated { outcomes, ends })
}
