//! The answer of `verify`: the verdict on each claim of a function, in lines. It fetches nothing.
#![tactic(auto)]

mod answer;
mod callees;
mod law;
mod own;
mod printed;

pub use answer::verify;
pub use law::{accepted_lines_hold, one_answer};
