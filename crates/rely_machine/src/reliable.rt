ghost use Rattle.std.specs.Prelude.{◌≡◌, ◌<◌, IfOk, Err};
ghost use Rattle.rely_kernel.specs.Bound.{IsStart};
ghost use Rattle.rely_kernel.specs.Valid.{IsLinked};
ghost use Rattle.rely_machine.specs.Run.{IsOutcome, ReachesLimit};
ghost use Rattle.rely_machine.specs.declared.fault.RunFault.TheVariants as fault;

use crate::function::{Function, tables};
use crate::held::Held;
use crate::tally::Tally;
use crate::walk::block;
use crate::{Outcome, RunFault};
use rely_kernel::{Linked, Store};
use std::alloc::Global;

/// The reliable run from a start, where every step is right. A read, an operator, a write and the entering of a turn are
/// one step, and a call is as many as its callee's variables hold numbers.
///
/// `Steps` comes exactly where the run takes `limit` steps or more.
pub fn run(alloc: Global, k: &Linked, start: &Store, limit: u64) -> Result<Outcome, RunFault>
    requires linked { IsLinked k.now }
    requires start { IsStart k.now.kernel start.now }
    ensures outcome { IfOk result (IsOutcome k.now start.now) }
    ensures below { IfOk result (λ o. o.steps < limit) }
    ensures steps { result ≡ Err fault.Steps → ReachesLimit k.now start.now limit }
{
    let mut tally = Tally::new(alloc, k, limit)?;
    let mut held = Held::of(alloc, start)?;
    let tables = tables(alloc, k)?;
    let main = Function::main(k, tables.as_slice());
    block(&main, main.body(), &mut held, &mut tally)?;
    let store = held.into_store(alloc)?;
    tally.into_outcome(alloc, store)
}
