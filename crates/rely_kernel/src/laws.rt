ghost use Rattle.rely_kernel.specs.Choice.{ChoiceFits, ChoiceHasSetting, ClosedHasOwn};
ghost use Rattle.rely_kernel.specs.Sound.{EachRunEnds, PathsSuffice};
ghost use Rattle.rely_kernel.specs.Weights.{WeightsAreKept};

/// A law and no work: the reliable run of a valid function ends, whatever its parameters hold.
pub fn each_run_ends()
    ensures { EachRunEnds }
{}

/// A law and no work, the induction under the next one: where whole statements are left to do, one path of a target through
/// them has a product of probabilities that is at most the share of runs that end with the target right.
pub fn weights_are_kept()
    ensures { WeightsAreKept }
{}

/// A law and no work, Rely's soundness over weighted trees of runs: the bound of a claim holds where each of its paths
/// names only the needs and has a product of probabilities of at least the bound.
pub fn paths_suffice()
    ensures { PathsSuffice }
{}

/// A law and no work: one setting has the option of each decision at its place, and what the kernel names at all others.
pub fn choice_has_setting()
    ensures { ChoiceHasSetting }
{}

/// A law and no work: on a hardware that has the kernel's operators and numbers the setting of each choice fits.
pub fn choice_fits()
    ensures { ChoiceFits }
{}

/// A law and no work: nothing is open exactly where nothing is to be decided, and then the kernel has its own setting.
pub fn closed_has_own()
    ensures { ClosedHasOwn }
{}
