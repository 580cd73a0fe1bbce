//! The conjuncts of which a statement writes something, and the others.
ghost use Rattle.std.specs.Prelude.{◌≡◌, false, ◌<◌, ◌^◌, ◌++◌, bit_and, ◌==◌, not, map, filter, length, IfErr, IfOk};
ghost use Rattle.std.specs.List.{All};
ghost use Rattle.rely_kernel.specs.Paths.{writes, use_of};
ghost use Rattle.rely_kernel.specs.Text.{expr_of, stmt_of};
ghost use Rattle.rely_kernel.specs.Valid.{IsValid};
ghost use Rattle.rely_loops.specs.Grown.{too_many};
ghost use Rattle.rely_precond.specs.Answers.{IsStop};
ghost use Rattle.rely_precond.specs.InRange.{ExprInRange};
ghost use Rattle.rely_precond.specs.Places.{line_of};
ghost use Rattle.rely_precond.specs.Walk.{Stands, stand, untouched, touched};

use crate::fault::PreFault;
use crate::lists::{joined, parted, with_tested};
use crate::standing::{Listed, of_few, stand};
use crate::written::Marked;
use rely_kernel::{Ex, Kernel, StKind};
use rely_num::{Conj, Span};
use rely_predicate::Predicate;
use std::alloc::Global;

/// A predicate in two parts.
#[derive(Drop)]
pub(crate) struct Parts {
    pub(crate) others: Vec<Conj>,
    pub(crate) own: Listed,
}

pub(crate) fn split(alloc: Global, statement: &Marked, listed: Listed) -> Result<Parts, PreFault>
    ensures others { IfOk result (λ s. s.others.items ≡ untouched (line_of statement.now.what.now) listed.list.conjs) }
    ensures few { IfOk result (λ s. too_many s.others.items ≡ false) }
    ensures own { IfOk result (λ s. s.own.list.conjs ≡ touched (line_of statement.now.what.now) listed.list.conjs) }
    ensures work { IfOk result (λ s. s.own.work ≡ listed.work) }
    ensures labels { IfOk result (λ s. s.own.list.labels ≡ listed.list.labels) }
    ensures counted { IfOk result (λ s. All (λ c. length c.counts ≡ listed.list.labels) s.others.items) }
    ensures err { IfErr result (λ f. f ≡ PreFault.Memory) }
{
    let labels = listed.list.shape();
    let work = listed.work;
    let (others, own) = parted(alloc, statement.written, listed.list.into_conjs())?;
    let list = of_few(alloc, labels, own)?;
    let own = Listed { list, work };
    Ok(Parts { others, own })
}

/// The same predicate once more.
pub(crate) fn copy_of(alloc: Global, list: &Predicate) -> Result<Predicate, PreFault>
    ensures ok { IfOk result (λ p. p.conjs ≡ list.now.conjs) }
    ensures labels { IfOk result (λ p. p.labels ≡ list.now.labels) }
    ensures err { IfErr result (λ f. f ≡ PreFault.Memory) }
{
    Ok(list.copy(alloc)?)
}

/// What the turns of a loop left stands behind the others.
pub(crate) fn stand_turned(
    alloc: Global,
    at: Span,
    others: Vec<Conj>,
    turned: Listed,
) -> Result<Listed, PreFault>
    requires counted { All (λ c. length c.counts ≡ turned.list.labels) others.items }
    requires few { too_many others.items ≡ false }
    ensures ok { IfOk result (λ l. stand at (others.items ++ turned.list.conjs) turned.work ≡ Stands l.list.conjs l.work) }
    ensures labels { IfOk result (λ l. l.list.labels ≡ turned.list.labels) }
    ensures refused { IfErr result (λ f. IsStop (stand at (others.items ++ turned.list.conjs) turned.work) f) }
{
    let labels = turned.list.shape();
    let work = turned.work;
    let list = joined(others, turned.list.into_conjs())?;
    stand(alloc, labels, at, list, work)
}

/// So does what two branches left, with the condition added.
pub(crate) fn stand_branches(
    alloc: Global,
    k: &Kernel,
    at: Span,
    e: &Ex,
    others: Vec<Conj>,
    first: Listed,
    second: Listed,
) -> Result<Listed, PreFault>
    requires valid { IsValid k.now }
    requires condition { ExprInRange k.now (expr_of e.now) }
    requires others { All (λ c. length c.counts ≡ second.list.labels) others.items }
    requires few { too_many others.items ≡ false }
    requires labels { first.list.labels ≡ second.list.labels }
    ensures ok { IfOk result (λ l. stand at (others.items ++ map (use_of k.now (expr_of e.now)) (first.list.conjs ++ second.list.conjs)) second.work
        ≡ Stands l.list.conjs l.work) }
    ensures labels { IfOk result (λ l. l.list.labels ≡ second.list.labels) }
    ensures refused { IfErr result (λ f. IsStop
        (stand at (others.items ++ map (use_of k.now (expr_of e.now)) (first.list.conjs ++ second.list.conjs)) second.work) f) }
{
    let labels = second.list.shape();
    let work = second.work;
    let list = with_tested(k, at, e, others, first.list.into_conjs())?;
    let list = with_tested(k, at, e, list, second.list.into_conjs())?;
    stand(alloc, labels, at, list, work)
}
