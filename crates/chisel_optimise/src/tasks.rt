ghost use Rattle.std.specs.Prelude.{IfOk, IfErr};
ghost use Rattle.chisel_lines.specs.Answers.{answer_status, answer_text};
ghost use Rattle.chisel_optimise.specs.Answers.{Answers, IsAnswer, given, job_of};
ghost use Rattle.chisel_optimise.specs.Halts.{HaltsBy};
ghost use Rattle.chisel_optimise.specs.Sound.{IsSound};

use crate::certified::certified;
use crate::halt::Halt;
use crate::optimise::{measure, optimise};
use crate::table::table_of;
use crate::task::Task;
use chisel_lines::Answer;
use chisel_source::Ready;
use rely_kernel::Store;
use std::alloc::{AllocError, Global};

/// The answer, where nothing ends the command before its work is done.
#[tactic(auto, using(crate::proofs::Answering::optimise_ends, crate::proofs::Answering::optimise_answers, crate::proofs::Answering::optimise_halts, crate::proofs::Answering::make_ends, crate::proofs::Answering::make_answers, crate::proofs::Answering::make_halts))]
fn answer(alloc: Global, ready: &Ready, starts: &[Store], task: Task<'_>) -> Result<Answer, Halt>
    requires { IsSound ready.now starts.now }
    ensures ok { IfOk result (Answers (given ready.now starts.now (job_of task.entry))) }
    ensures err { IfErr result (HaltsBy (Answers (given ready.now starts.now (job_of task.entry)))) }
{
    match task {
        Task::Optimise(options) => {
            let table = match table_of(alloc, ready, starts) {
                Ok(table) => table,
                Err(halt) => return Err(halt),
            };
            optimise(alloc, &table, options)
        }
        Task::Certify(asked, text) => certified(alloc, ready, starts, text, asked),
        Task::Measure => {
            let table = match table_of(alloc, ready, starts) {
                Ok(table) => table,
                Err(halt) => return Err(halt),
            };
            measure(alloc, ready.text.as_slice().len(), &table)
        }
    }
}

/// The answer to a task: a text with what it says of what was asked, or a refusal.
///
/// # Errors
///
/// Memory was refused.
#[tactic(auto, using(crate::proofs::Answering::is_answer))]
pub fn choose(
    alloc: Global,
    ready: &Ready,
    starts: &[Store],
    task: Task<'_>,
) -> Result<Answer, AllocError>
    requires { IsSound ready.now starts.now }
    ensures { IfOk result (λ a. IsAnswer (given ready.now starts.now (job_of task.entry)) (answer_text a) (answer_status a)) }
{
    match answer(alloc, ready, starts, task) {
        Ok(answer) => Ok(answer),
        Err(Halt::Answer(answer)) => Ok(answer),
        Err(Halt::Memory) => Err(AllocError),
    }
}
