ghost use Rattle.std.specs.Prelude.{◌≡◌, length};
ghost use Rattle.rely_kernel.specs.Labels.{labels_of};
ghost use Rattle.rely_kernel.specs.Rates.{rates};
ghost use Rattle.rely_kernel.specs.Setting.{Fits};
ghost use Rattle.rely_kernel.specs.Valid.{IsValid};
ghost use Rattle.rely_verdict.specs.Judged.{lo, hi};

use rely_hard::Hardware;
use rely_kernel::{Kernel, Setting, right_of};
use rely_num::{Atto, Conj, hi_pow, lo_pow, mul_hi, mul_lo};

/// The product of the reliabilities to the power of their counts, rounded down label by label.
pub(crate) fn lower(k: &Kernel, h: &Hardware, t: &Setting, conjunct: &Conj) -> Atto
    requires valid { IsValid k.now }
    requires fits { Fits k.now h.now t.now }
    requires counted { length conjunct.now.counts ≡ labels_of k.now }
    ensures { result ≡ lo (rates h.now k.now t.now) conjunct.now }
{
    let mut product = Atto::ONE;
    for (label, count) in conjunct.counts.as_slice().iter().enumerate() {
        let right = right_of(k, h, t, label as u32);
        product = mul_lo(product, lo_pow(right, *count));
    }
    product
}

/// The same product, rounded up.
pub(crate) fn upper(k: &Kernel, h: &Hardware, t: &Setting, conjunct: &Conj) -> Atto
    requires valid { IsValid k.now }
    requires fits { Fits k.now h.now t.now }
    requires counted { length conjunct.now.counts ≡ labels_of k.now }
    ensures { result ≡ hi (rates h.now k.now t.now) conjunct.now }
{
    let mut product = Atto::ONE;
    for (label, count) in conjunct.counts.as_slice().iter().enumerate() {
        let right = right_of(k, h, t, label as u32);
        product = mul_hi(product, hi_pow(right, *count));
    }
    product
}
