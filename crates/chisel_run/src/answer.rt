//! The whole answer.

ghost use Rattle.std.specs.Prelude.{◌≡◌, IfOk};
ghost use Rattle.chisel_lines.specs.Answers.{answer_status, answer_text};
ghost use Rattle.chisel_run.specs.Answer.{IsAnswer, IsInput, asked};

use crate::course::MOST_STEPS;
use crate::told::told;
use chisel_lines::{Answer, Grade, Limit, Refusal};
use chisel_options::Trials;
use chisel_source::Ready;
use rely_kernel::Store;
use rely_machine::RunFault;
use std::alloc::{AllocError, Global};

/// The lines of the runs from these starts, and the energy of the reliable ones.
///
/// Want of memory is the only error: too many steps are a refusal among the answers.
pub fn run(
    alloc: Global,
    ready: &Ready,
    trials: Trials,
    starts: &[Store],
) -> Result<Answer, AllocError>
    requires { IsInput (asked ready.now trials starts.now) }
    ensures { IfOk result (λ a. IsAnswer (asked ready.now trials starts.now) (answer_text a) (answer_status a)) }
{
    match told(alloc, ready, trials, starts) {
        Ok(text) => Ok(Answer::Text(text, Grade::Good)),
        Err(RunFault::Steps) => Ok(Answer::Refused(Refusal::Limit(Limit::Steps, MOST_STEPS))),
        Err(RunFault::Memory) => Err(AllocError),
    }
}
