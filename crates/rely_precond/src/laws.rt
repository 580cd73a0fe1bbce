ghost use Rattle.rely_precond.specs.Prefixes.{CommutesWithShift, WideAtAPrefix};
ghost use Rattle.rely_precond.specs.Covering.{CoveringIsKept};

/// A law and no work: conjuncts that are added one by one are too many exactly where the top of some first part of
/// the list has 257 of them.
pub fn wide_at_a_prefix()
    ensures { WideAtAPrefix }
{}

/// A law and no work: where every conjunct grows by one vector, the top of the paths through a text grows by that vector.
/// So the turns of a loop that grow alike are taken in one step.
pub fn walk_commutes_with_shift()
    ensures { CommutesWithShift }
{}

/// A law and no work: where each conjunct of a list is covered by one of another list, so is each of its paths, through a
/// statement and through a text. So a conjunct that another covers can be dropped at every step.
pub fn covering_is_kept()
    ensures { CoveringIsKept }
{}
