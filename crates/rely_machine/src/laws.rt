ghost use Rattle.rely_machine.specs.Laws.{CostByUses, CostIsBounded, HasOutcome, OneCost, OneOutcome, ReachesByOutcome};

/// A law and no work: the reliable run from each start has an outcome.
pub fn has_outcome()
    ensures { HasOutcome }
{}

/// A law and no work: it has no other.
pub fn one_outcome()
    ensures { OneOutcome }
{}

/// A law and no work: a run takes as many steps as a limit exactly where its outcome has them.
pub fn reaches_by_outcome()
    ensures { ReachesByOutcome }
{}

/// A law and no work: one number is the cost of a setting over some starts.
pub fn one_cost()
    ensures { OneCost }
{}

/// A law and no work: under every setting of the function that runs, and the own kinds of those that it reaches, the cost
/// of runs is that of their uses and entries.
pub fn cost_by_uses()
    ensures { CostByUses }
{}

/// A law and no work: under no setting is the cost of few and short runs 2^48 or more.
pub fn cost_is_bounded()
    ensures { CostIsBounded }
{}
