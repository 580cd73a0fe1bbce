//! Two conjuncts: which covers which, and which stands first.
ghost use Rattle.std.specs.Prelude.{◌≡◌, length, nat_le};
ghost use lib.Pointwise.{pointwise};
ghost use Rattle.rely_predicate.specs.Top.{covers, before, counts_before};

use rely_num::Conj;

/// Whether `a` covers `b`: it counts each label at least as often and has each variable of `b`.
///
/// A bound that holds with the product and the variables of `a` then holds with those of `b`,
/// since more factors below one are no more likely all right. Both have one count for each label.
pub fn covers(a: &Conj, b: &Conj) -> bool
    requires { length a.now.counts ≡ length b.now.counts }
    ensures { result ≡ covers a.now b.now }
{
    let within = b.vars.bits & a.vars.bits == b.vars.bits;
    within && at_least(a.counts.as_slice(), b.counts.as_slice())
}

// Whether each count of `more` is at least that of `less`.
fn at_least(more: &[u64], less: &[u64]) -> bool
    requires { length more.now ≡ length less.now }
    ensures { result ≡ pointwise nat_le less.now more.now }
{
    less.iter().zip(more).all(|(n, m)| n <= m)
}

// The same of any two: nothing covers a conjunct over other labels.
pub(crate) fn covers_any(a: &Conj, b: &Conj) -> bool
    ensures { result ≡ covers a.now b.now }
{
    a.counts.len() == b.counts.len() && covers(a, b)
}

// Whether `a` stands before `b`: by their sets of variables, and then by their counts label by label.
pub(crate) fn is_before(a: &Conj, b: &Conj) -> bool
    ensures { result ≡ before a.now b.now }
{
    let first = a.vars.bits;
    let second = b.vars.bits;
    first < second || (first == second && counts_before(a.counts.as_slice(), b.counts.as_slice()))
}

fn counts_before(first: &[u64], second: &[u64]) -> bool
    ensures { result ≡ counts_before first.now second.now }
{
    first < second
}
