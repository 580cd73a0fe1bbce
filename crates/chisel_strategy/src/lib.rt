//! The orders in which a search goes: on which decision it divides a part, and which part it takes next.
#![tactic(auto)]

mod branching;
mod law;
mod picking;
mod strategy;

pub use branching::{largest, sizes};
pub use law::orders_take_the_first;
pub use picking::{deep, least};
pub use strategy::find_least;
