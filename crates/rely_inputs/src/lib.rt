//! Sample inputs: what a kernel's parameters hold as it starts, read from a file of JSON.
//! The layers above use `read`, whose stores are starts of the kernel, and the refusals, which say what is wrong and where.
#![tactic(auto)]

mod cell;
mod fault;
mod file;
mod laws;
mod place;
mod sample;

pub use fault::{InputFault, InputWhy};
pub use file::read;
pub use laws::members;
