ghost use Rattle.chisel_top.specs.Findings.{OneAnswer};
ghost use Rattle.chisel_top.specs.Reports.{ReportedAsChosen};

/// A law and no work: what is found has at most one text and one status, so that `run`'s report determines both.
pub fn one_answer()
    ensures { OneAnswer }
{}

/// A law and no work: of a source in which an allowed choice is named, `verify` says no `needs`, no `below` and no limit.
/// The lines of the functions that are called are those of before, and the function's claims have the verdicts of the
/// choice.
pub fn reported_as_chosen()
    ensures { ReportedAsChosen }
{}
