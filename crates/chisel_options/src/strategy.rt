//! How a search for the least choice goes.

/// On which unfixed decision a part is divided (the branching rule of branch and bound); of equals the first is taken.
#[derive(Clone, Copy, Debug, PartialEq, Eq)]
pub enum Branch {
    /// The first that is unfixed.
    First,
    /// The one whose energies lie the farthest apart.
    Spread,
    /// The one whose options spend the most, over all rows.
    Heavy,
}

/// In which order open parts are taken.
#[derive(Clone, Copy, Debug, PartialEq, Eq)]
pub enum Order {
    /// Depth first: the last part of the list.
    Deep,
    /// Best first: the first of the parts with the least value.
    Best,
}

/// A branching rule, an order, and how many parts a search may take.
#[derive(Clone, Copy, Debug, PartialEq, Eq)]
pub struct Strategy {
    pub branch: Branch,
    pub order: Order,
    /// The last number of parts, at least 1.
    pub nodes: u32,
}
