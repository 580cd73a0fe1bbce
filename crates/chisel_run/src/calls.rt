ghost use Rattle.std.specs.Prelude.{◌≡◌};
ghost use Rattle.chisel_run.specs.Calls.{barred_call};

use chisel_options::Trials;
use rely_kernel::Kernel;

/// The place of the first call of the function, where trials are asked of it.
pub fn barred_call(trials: Trials, k: &Kernel) -> Option<u32>
    ensures { result ≡ barred_call trials k.now }
{
    if trials.count == 0 {
        return None;
    }
    match k.calls.as_slice() {
        [] => None,
        [site, ..] => Some(site.mark.from),
    }
}
