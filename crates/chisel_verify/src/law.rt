ghost use Rattle.chisel_verify.specs.Answer.{HasAnswer, OneAnswer};
ghost use Rattle.chisel_verify.specs.Promises.{KeepsPromise};

/// A law and no work: what is asked has an answer, and no other.
pub fn one_answer()
    ensures some { HasAnswer }
    ensures only { OneAnswer }
{}

/// A law and no work: the bound of each claim whose line says that it is accepted holds in every forest of runs, and the bound
/// of each that is undecided lies between two products near each other.
pub fn accepted_lines_hold()
    ensures { KeepsPromise }
{}
