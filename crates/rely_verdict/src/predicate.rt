ghost use Rattle.std.specs.Prelude.{◌≡◌, ℕ, ◌<◌, length};
ghost use Rattle.rely_hard.specs.Valid.{IsHardware};
ghost use Rattle.rely_kernel.specs.Labels.{labels_of};
ghost use Rattle.rely_kernel.specs.Paths.{paths_of};
ghost use Rattle.rely_kernel.specs.Rates.{rates};
ghost use Rattle.rely_kernel.specs.Setting.{Fits};
ghost use Rattle.rely_kernel.specs.Valid.{IsValid};
ghost use Rattle.rely_predicate.specs.Top.{top};
ghost use Rattle.rely_verdict.specs.Judged.{verdict, IsNear};
ghost use Rattle.rely_verdict.specs.Soundness.{Vouches};

use crate::conjuncts::judge_conjuncts;
use crate::verdict::Verdict;
use rely_hard::Hardware;
use rely_kernel::{Claim, Kernel, Setting};
use rely_predicate::Predicate;

/// Judges a claim by its predicate, by the rules of `judge_conjuncts` over its conjuncts. It takes no memory.
///
/// Where the predicate is the top of the claim's paths, an accepted claim's bound holds in every forest of runs, wherever the
/// kernel stands in a linked list whose callees keep theirs: so a callee that is judged serves its callers.
pub fn judge(k: &Kernel, p: &Predicate, c: &Claim, h: &Hardware, t: &Setting) -> Verdict
    requires valid { IsValid k.now }
    requires hardware { IsHardware h.now }
    requires fits { Fits k.now h.now t.now }
    requires labelled { p.now.labels ≡ labels_of k.now }
    requires some { 0 < length p.now.conjs }
    ensures exact { result ≡ verdict (rates h.now k.now t.now) c.now.needs.bits c.now.bound p.now.conjs }
    ensures gap { IsNear (rates h.now k.now t.now) c.now.bound p.now.conjs result }
    ensures sound { p.now.conjs ≡ top (paths_of k.now c.now.target) → (lo : ℕ) → result ≡ Verdict.Accepted lo
        → Vouches h.now k.now t.now c.now }
{
    judge_conjuncts(k, p.conjs(), c, h, t)
}
