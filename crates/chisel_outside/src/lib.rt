//! Where files come from, and where lines go.
//!
//! A [`Shelf`] gives files by name, a [`Sink`] takes pieces of text. Each stands in memory, for tests, and over the
//! system, for the program. The layer above learns what failed from the log and from the count of faults.
#![tactic(auto)]

mod arg;
mod device;
mod host_shelf;
mod host_sink;
mod mem_shelf;
mod mem_sink;
mod shelf;
mod sink;

pub use arg::Arg;
pub use host_shelf::HostShelf;
pub use host_sink::HostSink;
pub use mem_shelf::MemShelf;
pub use mem_sink::MemSink;
pub use shelf::{Fetched, Shelf};
pub use sink::{Put, Sink};
