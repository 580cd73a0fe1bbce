//! What the runs of a command hand on, each to the next: the steps that are left, and the generator of the trials.

ghost use Rattle.std.specs.Prelude.{◌≡◌, ◌<◌, ◌≤◌, [], IfOk, IfErr};
ghost use Rattle.std.specs.Ordering.{int_eq};
ghost use Rattle.rely_kernel.specs.Bound.{IsStart};
ghost use Rattle.rely_kernel.specs.Rates.{own};
ghost use Rattle.rely_faults.specs.Trial.{PassesLimit};
ghost use Rattle.rely_machine.specs.Run.{IsOutcome, ReachesLimit};
ghost use Rattle.chisel_run.specs.Courses.{Agreed, EndsTrial, Exceeds, Took};
ghost use Rattle.chisel_run.specs.Simulations.{TrialsPass, most_steps, seeded};
ghost use Rattle.chisel_run.specs.Answer.{IsRunnable};

use chisel_source::Ready;
use rand_core::SeedableRng;
use rand_pcg::Lcg128Xsl64;
use rely_faults::{Ended, Simulator};
use rely_kernel::{Setting, Store};
use rely_machine::{Outcome, RunFault};
use std::alloc::{AllocError, Global};
use std::marker::Model;

/// The steps that a command may not reach in all its runs and trials together.
pub(crate) const MOST_STEPS: u32 = 67_108_864;

/// The runs and trials of a command, as far as they have come.
#[derive(Drop)]
pub(crate) struct Course<'r> {
    ready: &'r Ready,
    simulator: Simulator<'r>,
    // so many steps more reach the limit
    left: u64,
    // the generator of the trials
    words: Lcg128Xsl64,
}

impl<'r> Model for Course<'r> {
    ghost use Rattle.std.specs.Prelude.{◌≡◌};
    ghost use Rattle.std.specs.Coded.{codes};
    ghost use Rattle.rely_kernel.specs.contracts.kernel.StKind as statements;
    ghost use Rattle.chisel_run.specs.Courses.{Stage, own_setup};

    ghost Value = { Stage };

    ghost coded = { Prim.hlevel (codes, statements.the_row.coded) };

    ghost view = { λ c. record { ready = c.ready.now; left = c.left; words = c.words } };

    ghost invariant = { λ c. c.simulator ≡ own_setup c.ready.now };
}

/// Whether a trial ends with the result of the reliable run.
fn agrees(ended: Ended, outcome: &Outcome) -> bool
    ensures { result ≡ int_eq ended.result outcome.now.store.result }
{
    ended.result == outcome.store.result
}

impl<'r> Course<'r> {
    /// Nothing has run. The setting is the function's own.
    pub(crate) fn new(
        alloc: Global,
        ready: &'r Ready,
        setting: &'r Setting,
        seed: u64,
    ) -> Result<Course<'r>, AllocError>
        requires { setting.now ≡ own ready.now.linked.kernel }
        ensures { IfOk result (λ c. c ≡ record { ready = ready.now; left = most_steps; words = seeded seed }) }
    {
        Ok(Course {
            ready,
            simulator: Simulator::new(alloc, &ready.linked.kernel, &ready.hardware, setting)?,
            left: u64::from(MOST_STEPS),
            words: Lcg128Xsl64::seed_from_u64(seed),
        })
    }

    /// The reliable run from a start.
    pub(crate) fn reliable(&mut self, alloc: Global, start: &Store) -> Result<Outcome, RunFault>
        requires ready { IsRunnable self.old.ready }
        requires start { IsStart self.old.ready.linked.kernel start.now }
        ensures outcome { IfOk result (IsOutcome self.old.ready.linked start.now) }
        ensures took { IfOk result (λ o. Took o.steps self.old self.new) }
        ensures words { self.new.words ≡ self.old.words }
        ensures err { IfErr result (Exceeds (ReachesLimit self.old.ready.linked start.now self.old.left)) }
    {
        match rely_machine::run(alloc, &self.ready.linked, start, self.left) {
            Ok(outcome) => {
                self.left -= outcome.steps;
                Ok(outcome)
            }
            Err(fault) => Err(fault),
        }
    }

    /// One trial from a start, under the function's own kinds and memories.
    fn trial(&mut self, start: &Store) -> Result<Ended, RunFault>
        requires ready { IsRunnable self.old.ready }
        requires start { IsStart self.old.ready.linked.kernel start.now }
        requires calls { self.old.ready.linked.kernel.calls ≡ [] }
        requires left { self.old.left ≤ most_steps }
        ensures trial { IfOk result (λ e. EndsTrial self.old.ready start.now self.old.words e self.new.words) }
        ensures took { IfOk result (λ e. Took e.steps self.old self.new) }
        ensures err { IfErr result (Exceeds (PassesLimit self.old.ready.linked.kernel self.old.ready.hardware (own self.old.ready.linked.kernel) start.now self.old.words self.old.left)) }
    {
        match self.simulator.trial(start, self.left, &mut self.words) {
            Ok(ended) => {
                self.left -= ended.steps;
                Ok(ended)
            }
            Err(fault) => Err(fault),
        }
    }

    /// How many of so many trials from a start end with the result of the reliable run.
    pub(crate) fn agreeing(
        &mut self,
        start: &Store,
        outcome: &Outcome,
        count: u64,
    ) -> Result<u64, RunFault>
        requires ready { IsRunnable self.old.ready }
        requires start { IsStart self.old.ready.linked.kernel start.now }
        requires calls { 0 < count → self.old.ready.linked.kernel.calls ≡ [] }
        requires some { 0 < self.old.left }
        requires left { self.old.left ≤ most_steps }
        ensures ok { IfOk result (Agreed self.old.ready count start.now outcome.now.store.result self.old self.new) }
        ensures err { IfErr result (Exceeds (TrialsPass self.old.ready count start.now self.old.words self.old.left)) }
    {
        let mut agreeing = 0;
        for _ in 0..count {
            let ended = match self.trial(start) {
                Ok(ended) => ended,
                Err(fault) => return Err(fault),
            };
            if agrees(ended, outcome) {
                agreeing += 1;
            }
        }
        Ok(agreeing)
    }
}
