//! What the commands begin with: their files are fetched and read in the order of work, and faults become lines.
//! The layer above goes on with what is ready; its contracts tell in `Works` what the log of the shelf gained.
#![tactic(auto)]

mod choosing;
mod fetching;
mod inputs;
mod reading;
mod refused;

pub use choosing::{Names, Problem, certificate, made, read_problem};
pub use fetching::fetch;
pub use inputs::starts;
pub use reading::{closed, closed_ready, ready};
