ghost use Rattle.std.specs.Prelude.{◌≡◌, ◌≤◌, ◌<◌, ◌^◌, [], Err, IfOk, OnErr};
ghost use Rattle.rely_hard.specs.Valid.{IsHardware};
ghost use Rattle.rely_kernel.specs.Bound.{IsStart};
ghost use Rattle.rely_kernel.specs.Setting.{Fits};
ghost use Rattle.rely_kernel.specs.Valid.{IsValid};
ghost use Rattle.rely_faults.specs.Going.{outcome_of, setup_of};
ghost use Rattle.rely_faults.specs.Setup.{HasTrials, Stops, Tries};
ghost use Rattle.rely_faults.specs.Trial.{IsTried, LeavesWords, PassesLimit, StopsAt};
ghost use Rattle.rely_machine.specs.Table.{body_table, entries};
ghost use Rattle.rely_machine.specs.declared.fault.RunFault.TheVariants as fault;

use crate::Tried;
use crate::running::Running;
use crate::tally::Tally;
use crate::walk::block;
use rand_pcg::Lcg128Xsl64;
use rely_hard::Hardware;
use rely_kernel::{Kernel, Setting, Store};
use rely_machine::{Held, Live, RunFault, Text, live_statements};
use std::alloc::Global;

/// A run of a kernel that calls nothing, from a start, in which a step of reliability p may be wrong. Where p is one it is
/// right. Else it takes a word of 64 bits: it is right where the word modulo 10^18 is below p, in attos, and wrong
/// otherwise. It then takes one word more, as a signed number, and leaves that in place of the right one; outside an
/// array nothing is written. Steps are those of the reliable run.
///
/// `Steps` comes exactly where the trial takes `limit` steps or more, `Memory` where memory is wanting. After either
/// `words` stands behind the words that were taken.
pub fn trial(
    alloc: Global,
    k: &Kernel,
    h: &Hardware,
    t: &Setting,
    start: &Store,
    limit: u64,
    words: &mut Lcg128Xsl64,
) -> Result<Tried, RunFault>
    requires valid { IsValid k.now }
    requires no_calls { k.now.calls ≡ [] }
    requires hardware { IsHardware h.now }
    requires fits { Fits k.now h.now t.now }
    requires start { IsStart k.now start.now }
    requires limit { limit ≤ 2 ^ 63 }
    ensures ok { IfOk result (λ o. IsTried k.now h.now t.now start.now words.old o words.new) }
    ensures below { IfOk result (λ o. o.steps < limit) }
    ensures steps { result ≡ Err fault.Steps → PassesLimit k.now h.now t.now start.now words.old limit }
    ensures stopped { result ≡ Err fault.Steps → StopsAt k.now h.now t.now start.now words.old limit words.new }
    ensures refused { OnErr result (LeavesWords k.now h.now t.now start.now words.old words.new) }
{
    let mut held = Held::of(alloc, start)?;
    let running = Running {
        kernel: k,
        hardware: h,
        setting: t,
    };
    let live = live_statements(alloc, running.body())?;
    let tally = finish(&running, live.as_slice(), &mut held, limit, words)?;
    Ok(Tried {
        store: held.into_store(alloc)?,
        steps: tally.steps(),
        words: tally.words(),
    })
}

/// A trial from what is held to its end, by the table of the kernel's text. The only fault is `Steps`.
pub(crate) fn finish(
    r: &Running,
    live: &[Live],
    held: &mut Held,
    limit: u64,
    words: &mut Lcg128Xsl64,
) -> Result<Tally, RunFault>
    requires setup { HasTrials (setup_of r.now) }
    requires table { entries live.now ≡ body_table r.now.kernel.now }
    requires start { IsStart r.now.kernel.now held.old }
    requires limit { limit ≤ 2 ^ 63 }
    ensures ok { IfOk result (λ t. Tries (setup_of r.now) held.old words.old (outcome_of held.new t) words.new) }
    ensures limit { IfOk result (λ t. t.limit ≡ limit) }
    ensures stopped { OnErr result (Stops (setup_of r.now) held.old words.old limit words.new) }
{
    let mut tally = Tally::new(limit)?;
    let text = Text {
        statements: r.body(),
        live,
    };
    block(r, text, held, &mut tally, words)?;
    Ok(tally)
}
