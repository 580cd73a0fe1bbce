//! The whole program over a shelf and a sink.
#![tactic(auto)]

mod commands;
mod law;
mod program;
mod tell;

pub use chisel_lines::Status;
pub use law::{one_answer, reported_as_chosen};
pub use program::run;
