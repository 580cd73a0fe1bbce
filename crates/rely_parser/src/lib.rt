//! The parser: from the tokens of a source to its tree.
#![tactic(auto)]

mod decl;
mod expr;
mod fault;
mod law;
mod leaf;
mod rest;
mod stmt;
mod unit;

pub use fault::ParseFault;
pub use law::one_answer;
pub use unit::parse;
