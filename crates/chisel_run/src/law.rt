ghost use Rattle.chisel_run.specs.Answer.{HasAnswer, OneAnswer};

/// A law and no work: what is asked has an answer, and no other. Reliable runs are determined by their starts, and trials by
/// theirs and by the seed.
pub fn one_answer()
    ensures some { HasAnswer }
    ensures only { OneAnswer }
{}
