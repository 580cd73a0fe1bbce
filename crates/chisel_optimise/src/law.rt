ghost use Rattle.chisel_optimise.specs.Answers.{OneAnswer};
ghost use Rattle.chisel_optimise.specs.Printing.{MigratedIsValid, MigratedIsWithin, PooledIsShort, PrintedIsPooled, PrintedIsWithin};
ghost use Rattle.chisel_optimise.specs.Promises.{CheckedIsBest, KeepsPromise, MigratedPasses, PrintedIsBest, PrintedPasses};

/// A law and no work: the choice that is printed, or that a checked certificate has, costs least over the samples of all that
/// keep the budgets, and under it every claim's bound holds in every forest of runs. Where there is none, none keeps them.
pub fn answers_are_best()
    ensures printed { PrintedIsBest }
    ensures checked { CheckedIsBest }
{}

/// A law and no work: what `optimise` and `migrate` write passes `check` on the same files.
pub fn certificates_pass()
    ensures printed { PrintedPasses }
    ensures migrated { MigratedPasses }
{}

/// A law and no work: what is asked has one answer at most.
pub fn one_answer()
    ensures { OneAnswer }
{}

/// A law and no work: what a command promises that ends well. The choice that `optimise` prints is the best, and what it
/// prints passes `check`; the choice of the certificate that the others are given is the best, and it is the one that
/// `rewrite` names. Where `optimise` prints that there is no choice, none keeps the budgets, and that passes too.
pub fn good_answers_hold()
    ensures { KeepsPromise }
{}

/// A law and no work: the certificate of a least choice is within the limits of the text, if its tree is, and no leaf of
/// it has a vector of its own.
pub fn printed_has_text()
    ensures within { PrintedIsWithin }
    ensures pooled { PrintedIsPooled }
{}

/// A law and no work: the text of a certificate without such leaves is shorter than a certificate file may be.
#[tactic(auto, using(crate::proofs::Short::pooled_short))]
pub fn pooled_is_short()
    ensures { PooledIsShort }
{}

/// A law and no work: what is written again is valid where the certificate is, and within the limits.
#[tactic(auto, using(crate::proofs::Migrated::migrated_valid))]
pub fn migrated_stays_valid()
    ensures valid { MigratedIsValid }
    ensures within { MigratedIsWithin }
{}
