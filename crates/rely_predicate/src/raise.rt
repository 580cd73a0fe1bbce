//! Conjuncts that grow by one vector, in place.
ghost use Rattle.std.specs.Prelude.{◌≡◌, ◌<◌, ◌^◌, length, map};
ghost use Rattle.std.specs.List.{All};
ghost use Rattle.rely_predicate.specs.Shift.{plus, times, raise};
ghost use Rattle.rely_predicate.specs.Predicates.{StaysBelow};

use rely_num::{Conj, List};
use std::alloc::Global;
use std::mem::replace;

// Adds `n` times the vector to each conjunct.
pub(crate) fn raise_each(alloc: Global, conjs: &mut [Conj], by: &[u64], n: u64)
    requires counted { All (λ c. length c.counts ≡ length by.now) conjs.old }
    requires below { All (StaysBelow by.now n) conjs.old }
    ensures { conjs.new ≡ map (raise (times n by.now)) conjs.old }
{
    for c in conjs.iter_mut() {
        raise(alloc, c, by, n);
    }
}

fn raise(alloc: Global, c: &mut Conj, by: &[u64], n: u64)
    requires counted { length c.old.counts ≡ length by.now }
    requires below { StaysBelow by.now n c.old }
    ensures { c.new ≡ raise (times n by.now) c.old }
{
    let mut counts = replace(&mut c.counts, List::from_vec(Vec::new(alloc))).into_vec();
    add_times(&mut counts, by, n);
    c.counts = List::from_vec(counts);
}

fn add_times(counts: &mut [u64], by: &[u64], n: u64)
    requires counted { length counts.old ≡ length by.now }
    requires below { All (λ k. k < 2 ^ 36) (plus (times n by.now) counts.old) }
    ensures { counts.new ≡ plus (times n by.now) counts.old }
{
    for i in 0..counts.len() {
        counts[i] += n * by[i];
    }
}
