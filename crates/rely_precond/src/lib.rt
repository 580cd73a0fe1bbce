//! The precondition of a claim, as Rely generates it (Carbin, Misailovic and Rinard, OOPSLA 2013): what each path of the
//! function counts and names, found by walking its text backward from the claim's target.
//! The walk keeps at most 256 conjuncts, and a loop takes one step for all turns that grow alike, so neither paths nor turns
//! cost memory. `specs/Walk.antt` says what it does step by step, and where one of its limits stops it.
#![tactic(auto)]

mod fault;
mod growth;
mod laws;
mod lists;
mod precondition;
mod split;
mod standing;
mod statement;
mod turns;
mod written;

pub use fault::PreFault;
pub use laws::{covering_is_kept, walk_commutes_with_shift, wide_at_a_prefix};
pub use precondition::generate;
