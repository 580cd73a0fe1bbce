ghost use Rattle.chisel_rewritten_verdicts.specs.Reports.{AllowedNeverFails, CalleesAsBefore, OwnAsChosen};
ghost use Rattle.chisel_rewritten_verdicts.specs.Verdicts.{MetNeverFails, SameJudgements, SamePaths, SameRates, SameVerdicts, SameWalks};

/// A law and no work: kernels that are the same, spans aside, have the same paths, whatever their kinds and memories.
pub fn same_paths()
    ensures { SamePaths }
{}

/// A law and no work: where the walk through one of them reaches no limit, that through the other comes to the same.
pub fn same_walks()
    ensures { SameWalks }
{}

/// A law and no work: what is named by a setting has the rates of the setting, under its own kinds and memories.
pub fn same_rates()
    ensures { SameRates }
{}

/// A law and no work: its verdicts are those under the setting.
pub fn same_verdicts()
    ensures { SameVerdicts }
{}

/// A law and no work: so are its judgements, where no limit is reached.
pub fn same_judgements()
    ensures { SameJudgements }
{}

/// A law and no work: where the conjuncts name needs alone and their exact products are at least the bound, the verdict
/// is that the claim is accepted, or undecided.
pub fn met_never_fails()
    ensures { MetNeverFails }
{}

/// A law and no work: a function in which a choice is named has its claims judged as under the choice, if no walk through
/// it reaches a limit.
pub fn own_as_chosen()
    ensures { OwnAsChosen }
{}

/// A law and no work: where the choice is allowed, none of these verdicts is a `needs` or a `below`.
pub fn allowed_never_fails()
    ensures { AllowedNeverFails }
{}

/// A law and no work: the functions that it reaches are judged as before.
pub fn callees_as_before()
    ensures { CalleesAsBefore }
{}
