//! What a command may be asked besides its files and its function. Words are read as these types, and the commands take them.
#![tactic(auto)]

mod strategy;
mod trials;

pub use strategy::{Branch, Order, Strategy};
pub use trials::Trials;
