//! Debits: whole numbers in the place of logarithms of reliabilities, which Chisel's linear constraints take
//! (Misailovic, Carbin, Achour, Qi and Rinard, OOPSLA 2014).
//! A debit is rounded up and a budget down, so that debits within a budget keep the exact product at the bound.
#![tactic(auto)]

mod bound;
mod hardware;
mod known;
mod law;
mod reliability;
mod walk;

pub use bound::budget;
pub use hardware::{DebitList, debits};
pub use known::{budgets_of, debits_of};
pub use law::{budget_is_greatest, budgets_keep_bounds, debit_is_least};
pub use reliability::{BEYOND, MAX_DEBIT, debit};
