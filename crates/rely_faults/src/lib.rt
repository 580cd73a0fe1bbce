//! A trial: a run of a kernel that calls nothing, in which each chance step is right or wrong by the words of a generator.
//! The layers above make trials by a `Simulator` beside the reliable run of the same sample, and use the laws that the outcome
//! of each is one.
#![tactic(auto)]

mod drawn;
mod laws;
mod outcome;
mod running;
mod seeded;
mod simulator;
mod tally;
mod walk;

pub use laws::{
    each_step_follows, ends_or_passes, enough_words_end, has_outcome, more_words_are_left,
    one_outcome, one_trial, words_are_generated, words_are_taken,
};
pub use outcome::{Ended, Tried};
pub use seeded::trial;
pub use simulator::Simulator;
