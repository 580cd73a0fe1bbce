//! Places that are left open.

ghost use Rattle.std.specs.Prelude.{◌≡◌, None};
ghost use Rattle.std.specs.List.{AllByRecursion};
ghost use Rattle.rely_kernel.specs.Machine.{functions};
ghost use Rattle.rely_kernel.specs.Setting.{IsClosed};
ghost use Rattle.chisel_source.specs.Meaning.{AreClosed};
ghost use Rattle.chisel_source.specs.Open.{open_place, open_place_in};

use rely_kernel::{Kernel, Linked, open_site};

/// The least place of an open kind or memory.
pub fn open_place(k: &Kernel) -> Option<u32>
    ensures { result ≡ open_place k.now }
{
    match open_site(k) {
        Some(mark) => Some(mark.from),
        None => None,
    }
}

/// The least place that is left open, in the first function that leaves one open.
#[tactic(auto, using(crate::proofs::Opening::all_closed))]
pub fn open_place_in(kernels: &[Kernel]) -> Option<u32>
    ensures place { result ≡ open_place_in kernels.now }
    ensures closed { result ≡ None → AllByRecursion IsClosed kernels.now }
{
    for k in kernels {
        let place = open_place(k);
        if place.is_some() {
            return place;
        }
    }
    None
}

/// That of the function and of those that it reaches, which stand first.
#[tactic(auto, using(crate::proofs::Opening::open_place_of_two, crate::proofs::Opening::all_closed))]
pub fn open_place_of(l: &Linked) -> Option<u32>
    ensures place { result ≡ open_place_in (functions l.now) }
    ensures closed { result ≡ None → AreClosed l.now }
{
    match open_place_in(l.inner.as_slice()) {
        Some(place) => Some(place),
        None => open_place(&l.kernel),
    }
}
