ghost use Rattle.rely_lexer.specs.Readings.{OneList, OneRefusal, OneReading};

/// A law and no work: from a place on a text has one list of tokens at most.
#[tactic(auto, using(crate::proofs::OneReading::laws))]
pub fn one_list()
    ensures { OneList }
{}

/// A law and no work: a text is refused for one reason at most, at one place.
#[tactic(auto, using(crate::proofs::OneReading::laws))]
pub fn one_refusal()
    ensures { OneRefusal }
{}

/// A law and no work: a text has one reading, tokens or a refusal, which is what [`tokens`](crate::tokens) finds.
#[tactic(auto, using(crate::proofs::OneReading::laws))]
pub fn one_reading()
    ensures { OneReading }
{}
