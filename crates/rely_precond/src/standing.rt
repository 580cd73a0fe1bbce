//! Lists that stand after a step of the walk, and the three limits that keep them from it.
ghost use Rattle.std.specs.Prelude.{◌≡◌, false, ◌≤◌, ◌^◌, [], length, nat_le, IfErr, IfOk, Some, None};
ghost use Rattle.std.specs.List.{All, list_any};
ghost use Rattle.rely_loops.specs.Grown.{too_many};
ghost use Rattle.rely_predicate.specs.Top.{top};
ghost use Rattle.rely_precond.specs.Answers.{IsStop};
ghost use Rattle.rely_precond.specs.Walk.{Stands, added, worked, stand};

use crate::fault::PreFault;
use rely_num::{Conj, Span};
use rely_predicate::{PredFault, Predicate};
use std::alloc::Global;

/// A predicate on its way, no count of which reaches 2^36, and the work so far.
#[derive(Drop)]
pub(crate) struct Listed {
    pub(crate) list: Predicate,
    pub(crate) work: u64,
    ghost few: { too_many list.conjs ≡ false },
}

const MOST_WORK: u64 = 1 << 24;

// A predicate with the conjuncts of a list, added one by one. One alone is a predicate as it stands.
fn gathered(alloc: Global, labels: u32, list: Vec<Conj>) -> Result<Predicate, PredFault>
    requires { All (λ c. length c.counts ≡ labels) list.items }
    ensures ok { IfOk result (λ p. added [] list.items ≡ Some p.conjs) }
    ensures labels { IfOk result (λ p. p.labels ≡ labels) }
    ensures wide { IfErr result (λ f. f ≡ PredFault.Wide → added [] list.items ≡ None) }
{
    if list.len() <= 1 {
        return Ok(Predicate::of(labels, list));
    }
    let mut gathered = Predicate::new(alloc, labels);
    for c in list {
        gathered.add(c)?;
    }
    Ok(gathered)
}

/// The predicate of a list that is short enough.
pub(crate) fn of_few(alloc: Global, labels: u32, list: Vec<Conj>) -> Result<Predicate, PreFault>
    requires counted { All (λ c. length c.counts ≡ labels) list.items }
    requires few { length list.items ≤ 256 }
    ensures ok { IfOk result (λ p. p.conjs ≡ top list.items) }
    ensures labels { IfOk result (λ p. p.labels ≡ labels) }
    ensures err { IfErr result (λ f. f ≡ PreFault.Memory) }
{
    match gathered(alloc, labels, list) {
        Ok(p) => Ok(p),
        Err(PredFault::Memory) => Err(PreFault::Memory),
        Err(PredFault::Wide) => unreachable!(),
    }
}

/// The work grows by the square of the number of conjuncts.
pub(crate) fn worked(at: Span, list: Predicate, work: u64) -> Result<Listed, PreFault>
    requires { too_many list.conjs ≡ false }
    ensures again { stand at list.conjs work ≡ worked at (Some list.conjs) work }
    ensures ok { IfOk result (λ l. worked at (Some list.conjs) work ≡ Stands l.list.conjs l.work) }
    ensures labels { IfOk result (λ l. l.list.labels ≡ list.labels) }
    ensures refused { IfErr result (λ f. IsStop (worked at (Some list.conjs) work) f) }
{
    let n = list.conjs().len() as u64;
    let more = work.saturating_add(n * n);
    if more > MOST_WORK {
        return Err(PreFault::Work(at));
    }
    Ok(Listed { list, work: more })
}

/// What stands of a new list.
pub(crate) fn stand(
    alloc: Global,
    labels: u32,
    at: Span,
    list: Vec<Conj>,
    work: u64,
) -> Result<Listed, PreFault>
    requires counted { All (λ c. length c.counts ≡ labels) list.items }
    requires few { too_many list.items ≡ false }
    ensures ok { IfOk result (λ l. stand at list.items work ≡ Stands l.list.conjs l.work) }
    ensures labels { IfOk result (λ l. l.list.labels ≡ labels) }
    ensures refused { IfErr result (λ f. IsStop (stand at list.items work) f) }
{
    match gathered(alloc, labels, list) {
        Ok(p) => worked(at, p, work),
        Err(PredFault::Memory) => Err(PreFault::Memory),
        Err(PredFault::Wide) => Err(PreFault::Wide(at)),
    }
}

/// The same of a list that stands already: it changes nothing but the work.
pub(crate) fn stand_again(at: Span, listed: Listed) -> Result<Listed, PreFault>
    ensures ok { IfOk result (λ l. stand at listed.list.conjs listed.work ≡ Stands l.list.conjs l.work) }
    ensures labels { IfOk result (λ l. l.list.labels ≡ listed.list.labels) }
    ensures refused { IfErr result (λ f. IsStop (stand at listed.list.conjs listed.work) f) }
{
    worked(at, listed.list, listed.work)
}
