ghost use Rattle.rely_parser.specs.OneAnswer.{OneAnswer};

/// A law and no work: the tokens of a text are a unit within the limits, which is one tree, or else exactly one refusal
/// is as it must be.
#[tactic(auto, using(crate::proofs::OneAnswer::one))]
pub fn one_answer()
    ensures { OneAnswer }
{}
