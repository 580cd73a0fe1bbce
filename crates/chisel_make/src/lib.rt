//! Optimisation problems that are made from a size and a number, for measuring a search.
#![tactic(auto)]

mod draws;
mod made;

pub use made::{Made, make};
