//! The commands that choose kinds and memories, each as the answer to what its files say: `optimise` prints the
//! certificate of a least choice, `check`, `rewrite` and `migrate` judge one that somebody made, and `make` measures the
//! search on a made problem. A certificate is printed in one version, whoever made it. Nothing is fetched or written here.
#![tactic(auto)]

mod certified;
mod claims;
mod halt;
mod law;
mod lines;
mod newest;
mod optimise;
mod runs;
mod table;
mod task;
mod tasks;

pub use certified::Asked;
pub use law::{
    answers_are_best, certificates_pass, good_answers_hold, migrated_stays_valid, one_answer,
    pooled_is_short, printed_has_text,
};
pub use task::Task;
pub use tasks::choose;
