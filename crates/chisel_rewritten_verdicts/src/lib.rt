//! How a function is judged once a choice is named in it: no work, laws alone.
#![tactic(auto)]

mod law;

pub use law::{
    allowed_never_fails, callees_as_before, met_never_fails, own_as_chosen, same_judgements,
    same_paths, same_rates, same_verdicts, same_walks,
};
