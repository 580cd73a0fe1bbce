//! The vector by which one predicate exceeds another.
ghost use Rattle.std.specs.Prelude.{◌≡◌, ℕ, ◌+◌, ◌<◌, ◌↔◌, List, Some, length, IfOk, nat_eq};
ghost use Rattle.std.specs.List.{All};
ghost use lib.Pointwise.{pointwise};
ghost use Rattle.rely_predicate.specs.Shift.{plus, minus, raise, shift};
ghost use Rattle.rely_predicate.specs.Top.{same};
ghost use Rattle.rely_loops.specs.Grown.{IsGrown};

use rely_num::{Conj, List};
use rely_predicate::Predicate;
use std::alloc::{AllocError, Global};

/// The one vector by which each conjunct of `after` exceeds the conjunct of `before` at its place,
/// with the same variables.
///
/// There is none where the lists differ in length, where a set of variables differs, where a count falls,
/// or where two conjuncts grow differently.
pub fn shift(
    alloc: Global,
    before: &Predicate,
    after: &Predicate,
) -> Result<Option<List<u64>>, AllocError>
    requires shape { before.now.labels ≡ after.now.labels }
    requires before { 0 < length before.now.conjs }
    requires after { 0 < length after.now.conjs }
    ensures exact { IfOk result (λ found. found ≡ shift before.now.conjs after.now.conjs) }
    ensures one { IfOk result (λ found. (by : List ℕ) → (found ≡ Some by) ↔ IsGrown before.now after.now by) }
{
    let from = before.conjs();
    let to = after.conjs();
    if from[0].vars.bits != to[0].vars.bits {
        return Ok(None);
    }
    let by = difference(alloc, from[0].counts.as_slice(), to[0].counts.as_slice())?;
    if !have_grown(&by, from, to) {
        return Ok(None);
    }
    Ok(Some(List::from_vec(by)))
}

// What the later counts have more, label by label, and nothing where they have less.
fn difference(alloc: Global, before: &[u64], after: &[u64]) -> Result<Vec<u64>, AllocError>
    ensures { IfOk result (λ by. by.items ≡ minus after.now before.now) }
{
    after
        .iter()
        .zip(before)
        .map(|(m, n)| m.saturating_sub(*n))
        .collect(alloc)
}

// Whether each later conjunct is the earlier one at its place with the vector added.
fn have_grown(by: &[u64], before: &[Conj], after: &[Conj]) -> bool
    requires before { All (λ c. length c.counts ≡ length by.now) before.now }
    requires after { All (λ c. length c.counts ≡ length by.now) after.now }
    ensures { result ≡ pointwise (λ a b. same (raise by.now a) b) before.now after.now }
{
    if before.len() != after.len() {
        return false;
    }
    for i in 0..before.len() {
        if !has_grown(by, &before[i], &after[i]) {
            return false;
        }
    }
    true
}

fn has_grown(by: &[u64], before: &Conj, after: &Conj) -> bool
    requires before { length before.now.counts ≡ length by.now }
    requires after { length after.now.counts ≡ length by.now }
    ensures { result ≡ same (raise by.now before.now) after.now }
{
    before.vars.bits == after.vars.bits
        && are_added(by, before.counts.as_slice(), after.counts.as_slice())
}

// Whether the later counts are the earlier ones with the vector added.
fn are_added(by: &[u64], before: &[u64], after: &[u64]) -> bool
    requires before { length before.now ≡ length by.now }
    requires after { length after.now ≡ length by.now }
    ensures { result ≡ pointwise nat_eq (plus by.now before.now) after.now }
{
    by.iter()
        .zip(before)
        .zip(after)
        .all(|((v, n), m)| is_added(*v, *n, *m))
}

fn is_added(v: u64, before: u64, after: u64) -> bool
    ensures { result ≡ nat_eq (v + before) after }
{
    after.checked_sub(before) == Some(v)
}
