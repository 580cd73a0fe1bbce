//! Names: the kernel that a function of a source means, with the kernels of the functions that it reaches.
//! The definitions of `specs/` say what it is, and which refusal comes first.
//! The layers above use `resolve`.
#![tactic(auto)]

mod calls;
mod declarations;
mod expr;
mod fault;
mod kernel;
mod laws;
mod link;
mod names;
mod reach;
mod scope;
mod stmt;
mod texts;
mod variables;

pub use fault::NameFault;
pub use laws::answers_first;
pub use link::resolve;
