//! The syntax trees of a source, as Copy values whose parts stand in an arena.
#![tactic(auto)]

mod expr;
mod stmt;
mod unit;

pub use expr::{Expr, Ident, Kind};
pub use stmt::Stmt;
pub use unit::{Decl, Func, Said, Unit};
