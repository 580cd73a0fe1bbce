//! What a source means on a hardware, from the bytes of the two files.
//! The layer above fetches the files, and tells what is wrong with them in the lines of faults.
#![tactic(auto)]

mod fault;
mod meant;
mod open;
mod ready;
mod source;

pub use fault::{MeaningFault, SourceFault};
pub use meant::meaning;
pub use open::{open_place, open_place_in, open_place_of};
pub use ready::{Meant, Ready};
pub use source::unit_in;
