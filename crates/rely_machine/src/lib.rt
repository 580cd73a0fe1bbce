//! The reliable run of a linked function: where it ends, how often it takes each label, and what it costs in energy.
//! The layers above use `run` on each sample, and `energy` on the outcomes; `Held` and `operate` serve other runs too.
#![tactic(auto)]

mod cost;
mod fault;
mod function;
mod held;
mod laws;
mod lists;
mod live;
mod outcome;
mod reliable;
mod spare;
mod tally;
mod value;
mod walk;

pub use cost::energy;
pub use fault::RunFault;
pub use held::Held;
pub use laws::{
    cost_by_uses, cost_is_bounded, has_outcome, one_cost, one_outcome, reaches_by_outcome,
};
pub use live::{Live, Part, Text, live_statements};
pub use outcome::Outcome;
pub use reliable::run;
pub use value::operate;
