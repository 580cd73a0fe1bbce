//! The answer of `run`: of each sample its reliable run with the trials behind it, and the energy of the reliable runs.
//! It fetches nothing.
#![tactic(auto)]

mod answer;
mod calls;
mod course;
mod law;
mod samples;
mod told;

pub use answer::run;
pub use calls::barred_call;
pub use law::one_answer;
