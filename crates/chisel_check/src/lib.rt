//! The checker of certificates. It judges a certificate by the definition of a valid one, and stands on no search code.
#![tactic(auto)]

mod checker;
mod node;
mod prices;

pub use checker::check;
pub use node::{Answer, CheckWhy};
