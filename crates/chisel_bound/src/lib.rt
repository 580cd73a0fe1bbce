//! What a search for the least choice stands on: the vectors of multipliers that give its bounds, the first rule that
//! closes a partial choice, and the bounds that it keeps from one partial choice to the next.
#![tactic(auto)]

mod bounds;
mod climb;
mod closing;
mod columns;
mod differences;
mod keeping;
mod pool;
mod rows;
mod weights;

pub use bounds::{Bounds, Kept, MAX_VECTORS, greatest_value};
pub use climb::{ascent, spread};
pub use closing::{closes, options_close};
pub use differences::Differences;
pub use keeping::Best;
pub use pool::Pool;
pub use rows::RowSums;
