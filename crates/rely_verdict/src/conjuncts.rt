ghost use Rattle.std.specs.Prelude.{◌≡◌, ℕ, ◌<◌, length, map, min, find, fold, option_map, nat_lt};
ghost use Rattle.rely_num.specs.Bounds.{S};
ghost use Rattle.rely_hard.specs.Valid.{IsHardware};
ghost use Rattle.rely_kernel.specs.Paths.{paths_of};
ghost use Rattle.rely_kernel.specs.Rates.{rates};
ghost use Rattle.rely_kernel.specs.Setting.{Fits};
ghost use Rattle.rely_kernel.specs.Valid.{IsValid};
ghost use Rattle.rely_predicate.specs.Top.{top};
ghost use Rattle.rely_verdict.specs.Judged.{lo, hi, outside, first_outside, verdict, AreCounted, IsNear};
ghost use Rattle.rely_verdict.specs.Soundness.{Vouches};

use crate::product::{lower, upper};
use crate::verdict::Verdict;
use rely_hard::Hardware;
use rely_kernel::{Claim, Kernel, Setting};
use rely_num::{Atto, Conj, VarSet};

/// Judges a claim by its conjuncts, which are the top of the claim's paths where the verdict is to say something of runs.
///
/// Three rules are tried in turn, each over all conjuncts: a variable outside the needs, a product below the bound,
/// a product that rounding leaves undecided. The first rule that some conjunct meets decides, at the first such conjunct.
/// The two products of an undecided conjunct are at most two attos apart for each use that it counts.
pub fn judge_conjuncts(
    k: &Kernel,
    conjuncts: &[Conj],
    c: &Claim,
    h: &Hardware,
    t: &Setting,
) -> Verdict
    requires valid { IsValid k.now }
    requires hardware { IsHardware h.now }
    requires fits { Fits k.now h.now t.now }
    requires counted { AreCounted k.now conjuncts.now }
    requires some { 0 < length conjuncts.now }
    ensures exact { result ≡ verdict (rates h.now k.now t.now) c.now.needs.bits c.now.bound conjuncts.now }
    ensures gap { IsNear (rates h.now k.now t.now) c.now.bound conjuncts.now result }
    ensures sound { conjuncts.now ≡ top (paths_of k.now c.now.target) → (lo : ℕ) → result ≡ Verdict.Accepted lo
        → Vouches h.now k.now t.now c.now }
{
    if let Some(var) = first_outside(c.needs, conjuncts) {
        return Verdict::Needs { var };
    }
    if let Some(hi) = first_below(k, h, t, c.bound, conjuncts) {
        return Verdict::Below { hi };
    }
    if let Some(verdict) = first_undecided(k, h, t, c.bound, conjuncts) {
        return verdict;
    }
    Verdict::Accepted {
        lo: least(k, h, t, conjuncts),
    }
}

/// The variable of a `needs` verdict, which no setting changes: the least variable outside the needs, of the first conjunct
/// that has one.
pub fn first_outside(needs: VarSet, conjuncts: &[Conj]) -> Option<u32>
    ensures { result ≡ first_outside needs.bits conjuncts.now }
{
    for conjunct in conjuncts {
        let var = outside(needs, conjunct);
        if var.is_some() {
            return var;
        }
    }
    None
}

// The least variable of a conjunct that stands outside the needs.
fn outside(needs: VarSet, conjunct: &Conj) -> Option<u32>
    ensures { result ≡ outside needs.bits conjunct.now }
{
    (0..64).find(|v| conjunct.vars.has(*v) && !needs.has(*v))
}

// The product, rounded up, of the first conjunct that has it below the bound.
fn first_below(
    k: &Kernel,
    h: &Hardware,
    t: &Setting,
    bound: Atto,
    conjuncts: &[Conj],
) -> Option<Atto>
    requires valid { IsValid k.now }
    requires fits { Fits k.now h.now t.now }
    requires counted { AreCounted k.now conjuncts.now }
    ensures { result ≡ option_map (hi (rates h.now k.now t.now))
        (find (λ c. nat_lt (hi (rates h.now k.now t.now) c) bound) conjuncts.now) }
{
    for conjunct in conjuncts {
        let hi = upper(k, h, t, conjunct);
        if hi < bound {
            return Some(hi);
        }
    }
    None
}

// The verdict on the first conjunct that has its product, rounded down, below the bound.
fn first_undecided(
    k: &Kernel,
    h: &Hardware,
    t: &Setting,
    bound: Atto,
    conjuncts: &[Conj],
) -> Option<Verdict>
    requires valid { IsValid k.now }
    requires fits { Fits k.now h.now t.now }
    requires counted { AreCounted k.now conjuncts.now }
    ensures { result ≡ option_map (λ c. Verdict.Undecided (lo (rates h.now k.now t.now) c) (hi (rates h.now k.now t.now) c))
        (find (λ c. nat_lt (lo (rates h.now k.now t.now) c) bound) conjuncts.now) }
{
    for conjunct in conjuncts {
        let lo = lower(k, h, t, conjunct);
        if lo < bound {
            let hi = upper(k, h, t, conjunct);
            return Some(Verdict::Undecided { lo, hi });
        }
    }
    None
}

// The least product, rounded down.
fn least(k: &Kernel, h: &Hardware, t: &Setting, conjuncts: &[Conj]) -> Atto
    requires valid { IsValid k.now }
    requires fits { Fits k.now h.now t.now }
    requires counted { AreCounted k.now conjuncts.now }
    ensures { result ≡ fold min S (map (lo (rates h.now k.now t.now)) conjuncts.now) }
{
    let mut least = Atto::ONE;
    for conjunct in conjuncts {
        least = least.min(lower(k, h, t, conjunct));
    }
    least
}
