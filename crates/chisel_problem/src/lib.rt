//! The table of a kernel, in the manner of Chisel (Misailovic, Carbin, Achour, Qi and Rinard, OOPSLA
//! 2014). Each open place is a decision, with the energy of each option over all samples. Each conjunct
//! of each claim is a row: a linear constraint on debits, by which the exact product of the
//! reliabilities stays at the claim's bound.
#![tactic(auto)]

mod energies;
mod fault;
mod hardware;
mod law;
mod places;
mod problem;
mod refusals;
mod rows;
mod spending;
mod uses;

pub use fault::ProblemFault;
pub use law::least_of_table;
pub use problem::build;
