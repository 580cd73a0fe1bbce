ghost use Rattle.rely_faults.specs.Laws.{EachStepFollows, EndsOrPasses, EnoughWordsEnd, HasOutcome, MoreWordsAreLeft, OneOutcome, OneTrial, WordsAreGenerated, WordsAreTaken};

/// A law and no work: each step of a trial is the right successor or one of the wrong ones.
pub fn each_step_follows()
    ensures { EachStepFollows }
{}

/// A law and no work: a trial takes the generator's next words, as many as it counts, and stands behind them at each step.
pub fn words_are_taken()
    ensures { WordsAreTaken }
{}

/// A law and no work: each trial of a kernel that calls nothing ends, whatever start and generator it has.
pub fn has_outcome()
    ensures { HasOutcome }
{}

/// A law and no work: one start and one generator have one outcome, and leave one generator.
pub fn one_outcome()
    ensures { OneOutcome }
{}

/// A law and no work: a trial that ends below a limit of steps never takes as many.
pub fn ends_or_passes()
    ensures { EndsOrPasses }
{}

/// A law and no work: a trial by a generator is the trial over the generator's next words, as many as it takes.
pub fn words_are_generated()
    ensures { WordsAreGenerated }
{}

/// A law and no work: words behind those that a trial takes change nothing, and are left.
pub fn more_words_are_left()
    ensures { MoreWordsAreLeft }
{}

/// A law and no work: a trial over a list of words has one outcome, and leaves one list.
pub fn one_trial()
    ensures { OneTrial }
{}

/// A law and no work: for each kernel that calls nothing there are so many words that every trial over them ends.
pub fn enough_words_end()
    ensures { EnoughWordsEnd }
{}
