//! How a rewritten source reads again, and what it means: no work, laws alone.
#![tactic(auto)]

mod law;

pub use law::{
    kernel_marks_are_tokens, kernel_means_as_named, kernel_reparsed_as_named,
    kernel_reread_as_named, lexemes_as_named, marks_are_tokens, reread_as_named,
};
