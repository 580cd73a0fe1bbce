//! The text of the runs.

ghost use Rattle.std.specs.Prelude.{◌≡◌, ◌≤◌, None, IfOk, IfErr, length};
ghost use Rattle.std.specs.List.{All};
ghost use Rattle.rely_kernel.specs.Bound.{IsStart};
ghost use Rattle.chisel_run.specs.Answer.{IsRunnable};
ghost use Rattle.chisel_run.specs.Calls.{barred_call};
ghost use Rattle.chisel_run.specs.Courses.{Exceeds};
ghost use Rattle.chisel_run.specs.Simulations.{RunsPass, RunsTell};

use crate::samples::samples;
use chisel_lines::{energy_line, sample_lines};
use chisel_options::Trials;
use chisel_source::Ready;
use rely_kernel::Store;
use rely_machine::{RunFault, energy};
use rely_num::List;
use std::alloc::Global;

/// What is printed of the runs from these starts.
pub(crate) fn told(
    alloc: Global,
    ready: &Ready,
    trials: Trials,
    starts: &[Store],
) -> Result<List<u8>, RunFault>
    requires ready { IsRunnable ready.now }
    requires unbarred { barred_call trials ready.now.linked.kernel ≡ None }
    requires starts { All (IsStart ready.now.linked.kernel) starts.now }
    requires few { length starts.now ≤ 64 }
    ensures ok { IfOk result (RunsTell ready.now trials starts.now) }
    ensures err { IfErr result (Exceeds (RunsPass ready.now trials starts.now)) }
{
    let simulated = match samples(alloc, ready, trials, starts) {
        Ok(simulated) => simulated,
        Err(fault) => return Err(fault),
    };
    let mut text = sample_lines(alloc, trials.count, simulated.ends.as_slice())?;
    let energy = energy(
        &ready.linked,
        &ready.hardware,
        simulated.outcomes.as_slice(),
    );
    let line = energy_line(alloc, energy)?;
    text.extend_from_slice(line.as_slice())?;
    Ok(List::from_vec(text))
}
