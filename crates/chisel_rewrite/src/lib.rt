//! A source with its choice named in it: each open mark gives way to a name, and every other byte stays.
#![tactic(auto)]

mod law;
mod naming;
mod text;

pub use law::{
    closed_stays, length_counts, names_are_listed, names_the_setting, one_at_a_time, text_in_pieces,
};
pub use naming::Naming;
pub use text::rewrite;
