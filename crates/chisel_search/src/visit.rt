//! What a search did with the parts that it took.
use chisel_table::Partial;

/// What became of a part that was taken.
#[derive(Clone, Copy)]
pub(crate) enum Fate {
    /// A rule closed it.
    Closed,
    /// Everything is fixed, and it became the best choice.
    Complete,
    /// It has a child for each option of this decision.
    Divided(u32),
}

/// A part that was taken, by its number and its partial choice.
#[derive(Clone, Copy)]
pub(crate) struct Visit {
    pub(crate) number: usize,
    pub(crate) partial: Partial,
    /// How many parts there were before; its children have the numbers from this one on.
    pub(crate) first: usize,
    pub(crate) fate: Fate,
}
