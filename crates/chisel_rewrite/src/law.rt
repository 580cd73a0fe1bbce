ghost use Rattle.chisel_rewrite.specs.Laws.{ClosedStays, LengthCounts, NamesAreListed, NamesTheSetting, OneAtATime, TextInPieces};

/// A law and no work: only the marks change. What stands before, between and behind them stays, in its order.
#[tactic(auto, using(crate::proofs::Pieces::text_in_pieces))]
pub fn text_in_pieces()
    ensures { TextInPieces }
{}

/// A law and no work: marks can be named one at a time, from the last place to the first, and no name moves a mark
/// before it.
#[tactic(auto, using(crate::proofs::Pieces::one_at_a_time))]
pub fn one_at_a_time()
    ensures { OneAtATime }
{}

/// A law and no work: a rewritten text has the bytes of the source but one for each mark, and those of the names.
#[tactic(auto, using(crate::proofs::Pieces::length_counts))]
pub fn length_counts()
    ensures { LengthCounts }
{}

/// A law and no work: the source of a kernel with nothing open is its rewritten text.
#[tactic(auto, using(crate::proofs::Settings::closed_stays))]
pub fn closed_stays()
    ensures { ClosedStays }
{}

/// A law and no work: each name is that of a kind that the hardware lists for the operator, or of one of its memories.
#[tactic(auto, using(crate::proofs::Settings::names_are_listed))]
pub fn names_are_listed()
    ensures { NamesAreListed }
{}

/// A law and no work: the names are those of the setting that the choice makes.
#[tactic(auto, using(crate::proofs::Settings::names_the_setting))]
pub fn names_the_setting()
    ensures { NamesTheSetting }
{}
