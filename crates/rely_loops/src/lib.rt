//! Many turns of a loop in one step.
//! Where a turn adds one vector to every conjunct, each further turn that does the same adds it again.
//! `shift` finds that vector between two predicates, and `times` adds it as often as there are turns.
#![tactic(auto)]

mod growth;
mod repeated;

pub use growth::shift;
pub use repeated::{LoopFault, times};
