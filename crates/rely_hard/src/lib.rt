//! The hardware: which kinds an operator has and which memories there are, each with its reliability and energy.
#![tactic(auto)]

mod fault;
mod fields;
mod file;
mod hardware;
mod kinds;
mod laws;
mod memories;
mod operators;
mod place;

pub use fault::{HardFault, HardWhy, Key};
pub use file::read;
pub use hardware::{Hardware, KindSpec, MemSpec, OpSpec};
pub use laws::members;
