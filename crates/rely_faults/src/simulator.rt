ghost use Rattle.std.specs.Prelude.{◌≡◌, ◌≤◌, ◌<◌, ◌^◌, Err, IfOk, OnErr};
ghost use Rattle.rely_kernel.specs.Bound.{IsStart};
ghost use Rattle.rely_faults.specs.Setup.{EndsAs, HasTrials, Leaves, Passes, Stops};
ghost use Rattle.rely_machine.specs.declared.fault.RunFault.TheVariants as fault;

use crate::Ended;
use crate::running::Running;
use crate::seeded::finish;
use rand_pcg::Lcg128Xsl64;
use rely_hard::Hardware;
use rely_kernel::{Kernel, Setting, Store};
use rely_machine::{Held, Live, RunFault, live_statements};
use std::alloc::{AllocError, Global};
use std::marker::Model;

/// Makes one trial of a kernel after another, from one table of its text and in one memory.
#[derive(Debug, Drop)]
pub struct Simulator<'k> {
    running: Running<'k>,
    live: Vec<Live<'k>>,
    held: Held,
}

impl<'k> Model for Simulator<'k> {
    ghost use Rattle.std.specs.Prelude.{◌≡◌};
    ghost use Rattle.std.specs.Coded.{codes};
    ghost use Rattle.rely_kernel.specs.contracts.kernel.StKind as statements;
    ghost use Rattle.rely_machine.specs.Table.{body_table, entries};
    ghost use Rattle.rely_faults.specs.Setup.{Setup};

    ghost Value = { Setup };

    ghost coded = { Prim.hlevel (codes, statements.the_row.coded) };

    ghost view = { λ s. record { kernel = s.running.kernel.now; hardware = s.running.hardware.now; setting = s.running.setting.now } };

    ghost invariant = { λ s. entries s.live.items ≡ body_table s.running.kernel.now };
}

impl<'k> Simulator<'k> {
    /// Goes through the kernel's text once. Only a kernel that calls nothing has trials.
    pub fn new(
        alloc: Global,
        kernel: &'k Kernel,
        hardware: &'k Hardware,
        setting: &'k Setting,
    ) -> Result<Simulator<'k>, AllocError>
        ensures { IfOk result (λ s. s ≡ record { kernel = kernel.now; hardware = hardware.now; setting = setting.now }) }
    {
        let live = live_statements(alloc, kernel.body.as_slice())?;
        let running = Running {
            kernel,
            hardware,
            setting,
        };
        Ok(Simulator {
            running,
            live,
            held: Held::new(alloc),
        })
    }

    /// A trial as the function `trial` makes it, of which the result and the steps are told. Its faults are the same.
    pub fn trial(
        &mut self,
        start: &Store,
        limit: u64,
        words: &mut Lcg128Xsl64,
    ) -> Result<Ended, RunFault>
        requires setup { HasTrials self.old }
        requires start { IsStart self.old.kernel start.now }
        requires limit { limit ≤ 2 ^ 63 }
        ensures ok { IfOk result (λ e. EndsAs self.old start.now words.old e words.new) }
        ensures below { IfOk result (λ e. e.steps < limit) }
        ensures steps { result ≡ Err fault.Steps → Passes self.old start.now words.old limit }
        ensures stopped { result ≡ Err fault.Steps → Stops self.old start.now words.old limit words.new }
        ensures refused { OnErr result (Leaves self.old start.now words.old words.new) }
        ensures kept { self.new ≡ self.old }
    {
        self.held.copy_from(start)?;
        let live = self.live.as_slice();
        let tally = finish(&self.running, live, &mut self.held, limit, words)?;
        Ok(Ended {
            result: self.held.result(),
            steps: tally.steps(),
        })
    }
}
