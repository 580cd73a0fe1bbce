//! When the turns of a loop grow alike, and what is left of them in one step.
ghost use Rattle.std.specs.Prelude.{◌≡◌, ◌++◌, ◌||◌, false, map, nat_lt, not, length, IfErr, IfOk, IfSome, Some};
ghost use Rattle.std.specs.List.{All, list_any};
ghost use Rattle.rely_kernel.specs.Paths.{use_of};
ghost use Rattle.rely_kernel.specs.Text.{expr_of};
ghost use Rattle.rely_kernel.specs.Valid.{IsValid};
ghost use Rattle.rely_loops.specs.Grown.{too_many};
ghost use Rattle.rely_predicate.specs.Shift.{shift};
ghost use Rattle.rely_predicate.specs.Top.{covers};
ghost use Rattle.rely_precond.specs.Answers.{IsStop};
ghost use Rattle.rely_precond.specs.InRange.{ExprInRange};
ghost use Rattle.rely_precond.specs.Walk.{Stands, stand, all_covered, settled, multiply};

use crate::fault::PreFault;
use crate::lists::{joined, with_copies, with_tested};
use crate::standing::{Listed, stand, worked};
use rely_kernel::{Ex, Kernel};
use rely_loops::{LoopFault, shift, times};
use rely_num::{Conj, List, Span};
use rely_predicate::{Predicate, covers};
use std::alloc::Global;

/// The vector that takes one predicate to the other.
pub(crate) fn growth(
    alloc: Global,
    before: &Predicate,
    after: &Predicate,
) -> Result<Option<List<u64>>, PreFault>
    requires { before.now.labels ≡ after.now.labels }
    ensures ok { IfOk result (λ by. by ≡ shift before.now.conjs after.now.conjs) }
    ensures labels { IfOk result (λ by. IfSome by (λ v. length v ≡ before.now.labels)) }
    ensures err { IfErr result (λ f. f ≡ PreFault.Memory) }
{
    if before.conjs().is_empty() || after.conjs().is_empty() {
        return Ok(None);
    }
    Ok(shift(alloc, before, after)?)
}

// Whether each of the first conjuncts is covered by one of the second.
fn all_covered(conjs: &[Conj], by: &[Conj]) -> bool
    requires { All (λ c. All (λ d. length d.counts ≡ length c.counts) by.now) conjs.now }
    ensures { result ≡ all_covered conjs.now by.now }
{
    for c in conjs {
        if !is_covered(c, by) {
            return false;
        }
    }
    true
}

fn is_covered(c: &Conj, by: &[Conj]) -> bool
    requires { All (λ d. length d.counts ≡ length c.now.counts) by.now }
    ensures { result ≡ list_any (λ d. covers d c.now) by.now }
{
    for d in by {
        if covers(d, c) {
            return true;
        }
    }
    false
}

/// The turns that are left, as many times the vector.
pub(crate) fn multiply(at: Span, left: u32, by: &[u64], turned: Listed) -> Result<Listed, PreFault>
    requires { length by.now ≡ turned.list.labels }
    ensures ok { IfOk result (λ l. multiply at left by.now turned.list.conjs turned.work ≡ Stands l.list.conjs l.work) }
    ensures labels { IfOk result (λ l. l.list.labels ≡ turned.list.labels) }
    ensures refused { IfErr result (λ f. IsStop (multiply at left by.now turned.list.conjs turned.work) f) }
{
    let mut list = turned.list;
    match times(&mut list, by, u64::from(left)) {
        Ok(()) => worked(at, list, turned.work),
        Err(LoopFault::Count) => Err(PreFault::Count(at)),
    }
}

/// A turn of `while`, and whether what stands behind the loop is covered by what comes back through its body.
#[derive(Drop)]
pub(crate) struct Turn {
    pub(crate) listed: Listed,
    pub(crate) is_covered: bool,
}

/// The list after a turn: what comes back through the body and what stands behind the loop, with the condition added.
pub(crate) fn turn_while(
    alloc: Global,
    k: &Kernel,
    at: Span,
    e: &Ex,
    behind: &[Conj],
    through: Listed,
) -> Result<Turn, PreFault>
    requires valid { IsValid k.now }
    requires condition { ExprInRange k.now (expr_of e.now) }
    requires behind { All (λ c. length c.counts ≡ through.list.labels) behind.now }
    requires few { too_many behind.now ≡ false }
    ensures ok { IfOk result (λ turn. stand at (map (use_of k.now (expr_of e.now)) (through.list.conjs ++ behind.now)) through.work
        ≡ Stands turn.listed.list.conjs turn.listed.work) }
    ensures covered { IfOk result (λ turn. turn.is_covered
        ≡ all_covered (map (use_of k.now (expr_of e.now)) behind.now) (map (use_of k.now (expr_of e.now)) through.list.conjs)) }
    ensures labels { IfOk result (λ turn. turn.listed.list.labels ≡ through.list.labels) }
    ensures refused { IfErr result (λ f. IsStop (stand at (map (use_of k.now (expr_of e.now)) (through.list.conjs ++ behind.now)) through.work) f) }
{
    let labels = through.list.shape();
    let work = through.work;
    let again = with_tested(k, at, e, Vec::new(alloc), through.list.into_conjs())?;
    let behind = with_copies(alloc, Vec::new(alloc), behind)?;
    let joining = with_tested(k, at, e, Vec::new(alloc), behind)?;
    let is_covered = all_covered(&joining, &again);
    let list = joined(again, joining)?;
    let listed = stand(alloc, labels, at, list, work)?;
    Ok(Turn { listed, is_covered })
}

/// The vector of a turn that is settled: it is all zeros, or what stands behind the loop is covered.
pub(crate) fn settled(growth: Option<List<u64>>, is_covered: bool) -> Option<List<u64>>
    ensures exact { result ≡ settled is_covered growth }
    ensures same { IfSome result (λ by. growth ≡ Some by) }
{
    let by = growth?;
    if is_settled(by.as_slice(), is_covered) {
        Some(by)
    } else {
        None
    }
}

fn is_settled(by: &[u64], is_covered: bool) -> bool
    ensures { result ≡ (not (list_any (nat_lt 0) by.now) || is_covered) }
{
    !grows(by) || is_covered
}

fn grows(by: &[u64]) -> bool
    ensures { result ≡ list_any (nat_lt 0) by.now }
{
    by.iter().any(|n| *n > 0)
}
