//! The bounds of partial choices, which a search keeps from one partial choice to the next.
ghost use Rattle.std.specs.Prelude.{◌≡◌, ◌<◌, length};
ghost use Rattle.chisel_bound.specs.BoundsAt.{greatest, values};

use chisel_table::Partial;

/// The most vectors of a pool with which bounds are kept.
pub const MAX_VECTORS: usize = 16;

/// The bounds of a partial choice with one vector of multipliers.
#[derive(Clone, Copy, Debug, PartialEq, Eq)]
pub struct Bounds {
    /// Below the energy of each completion that meets every row, times the weight of energies.
    pub value: i128,
    /// What each completion spends above the budgets at least, each row times its multiplier.
    pub excess: i128,
}

/// A partial choice, and where its bounds begin in a list of bounds, one for each vector of a pool.
#[derive(Clone, Copy)]
pub struct Kept {
    pub partial: Partial,
    pub from: usize,
}

/// The greatest of the values of some bounds.
pub fn greatest_value(bounds: &[Bounds]) -> i128
    requires { 0 < length bounds.now }
    ensures { result ≡ greatest (values bounds.now) }
{
    let mut greatest = bounds[0].value;
    for j in 1..bounds.len() {
        greatest = greatest.max(bounds[j].value);
    }
    greatest
}
