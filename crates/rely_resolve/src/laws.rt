ghost use Rattle.rely_resolve.specs.Laws.{AnswersFirst};

/// A law and no work: of all faults of a function the one that is answered stands at the least place, and at one place
/// it is the first in their order.
pub fn answers_first()
    ensures { AnswersFirst }
{}
