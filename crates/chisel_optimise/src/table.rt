//! The table of a function's choices, over the samples.

ghost use Rattle.std.specs.Prelude.{◌≡◌, ◌≢◌, IfOk, IfErr};
ghost use Rattle.chisel_problem.specs.Promises.{ChoicesAreKernels};
ghost use Rattle.chisel_problem.specs.declared.fault.ProblemFault.TheVariants.{NoOpen};
ghost use Rattle.chisel_table.specs.Valid.{IsTable};
ghost use Rattle.chisel_optimise.specs.Halts.{HaltsBy, problem_halt};
ghost use Rattle.chisel_optimise.specs.Sound.{IsSound};
ghost use Rattle.chisel_optimise.specs.Tables.{ComesTo, Ends};

use crate::claims::claim_predicates;
use crate::halt::Halt;
use crate::runs::outcomes;
use chisel_debit::debits;
use chisel_lines::{Limit, Refusal};
use chisel_problem::{ProblemFault, build};
use chisel_source::Ready;
use chisel_table::{MAX_DECISIONS, MAX_OPTIONS, Table};
use rely_kernel::Store;
use std::alloc::Global;

/// The number of the first decision that is one too many.
const DECISIONS_LIMIT: u32 = MAX_DECISIONS as u32 + 1;

/// The number of the first option of a decision that is one too many.
const OPTIONS_LIMIT: u32 = MAX_OPTIONS as u32 + 1;

/// There are too many decisions, or options of one. A kernel that leaves nothing open doesn't come here.
fn problem_halt(fault: ProblemFault) -> Halt
    requires { fault ≢ NoOpen }
    ensures { result ≡ problem_halt fault }
{
    match fault {
        ProblemFault::Decisions => {
            Halt::refused(Refusal::Limit(Limit::Decisions, DECISIONS_LIMIT))
        }
        ProblemFault::Options => Halt::refused(Refusal::Limit(Limit::Options, OPTIONS_LIMIT)),
        ProblemFault::NoOpen => unreachable!(),
        ProblemFault::Memory => Halt::Memory,
    }
}

/// The table, unless a claim or a limit ends the command before.
#[tactic(auto, using(crate::proofs::Halting::early_ends, crate::proofs::Halting::long_ends, crate::proofs::Halting::large_ends, crate::proofs::Halting::some_open, crate::proofs::Halting::ready_for_table, crate::proofs::Halting::samples_for_table, crate::proofs::Halting::comes_to_table))]
pub(crate) fn table_of(alloc: Global, ready: &Ready, starts: &[Store]) -> Result<Table, Halt>
    requires { IsSound ready.now starts.now }
    ensures ok { IfOk result (ComesTo ready.now starts.now) }
    ensures valid { IfOk result IsTable }
    ensures choices { IfOk result (ChoicesAreKernels ready.now.hardware ready.now.linked.kernel) }
    ensures err { IfErr result (HaltsBy (Ends ready.now starts.now)) }
{
    let predicates = match claim_predicates(alloc, ready) {
        Ok(predicates) => predicates,
        Err(halt) => return Err(halt),
    };
    let runs = match outcomes(alloc, &ready.linked, starts) {
        Ok(runs) => runs,
        Err(halt) => return Err(halt),
    };
    let debits = debits(alloc, &ready.hardware)?;
    match build(
        alloc,
        &ready.linked,
        &predicates,
        &debits,
        &ready.hardware,
        &runs,
    ) {
        Ok(table) => Ok(table),
        Err(fault) => Err(problem_halt(fault)),
    }
}
