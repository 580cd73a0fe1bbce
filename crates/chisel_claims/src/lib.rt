//! Verdicts on the claims of a function and on the claims in use of those that it reaches, and what an accepted claim
//! promises. The layers above print them, or improve a function whose callees' claims are accepted.
#![tactic(auto)]

mod judged;
mod law;
mod needs;
mod reached;
mod verdict;

pub use judged::Judged;
pub use law::accepted_claims_hold;
pub use needs::{first_needs, predicates};
pub use reached::{callee_on, first_failing};
pub use verdict::{judgement, own_kinds};
