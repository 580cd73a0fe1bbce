//! The search for the least choice of a table: a branch and bound (Land and Doig 1960) with Lagrangian bounds,
//! in any order, and the certificate by which its answer is checked without a search.
#![tactic(auto)]

mod best_first;
mod certify;
mod fold;
mod found;
mod frontier;
mod law;
mod machine;
mod open;
mod part;
mod rule;
mod run;
mod tournament;
mod visit;

pub use best_first::search_best_first;
pub use found::{Found, SearchFault};
pub use law::{functions_run_once, rules_certify_once, runs_end, runs_find_least};
pub use part::Part;
pub use rule::{Pick, Rule};
pub use run::search;
