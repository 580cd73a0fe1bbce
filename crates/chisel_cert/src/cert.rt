use chisel_table::{Close, CloseRule};

/// A row of the table told again: its budget, and where there is a choice what the choice spends of it.
#[derive(Clone, Copy, Debug, PartialEq, Eq)]
pub struct Restated {
    pub budget: i128,
    pub spent: Option<u32>,
}

/// Why a part of the choices is closed.
#[derive(Clone, Copy)]
pub enum Mark<'a> {
    /// By a rule with the number of its row, or of its vector in the certificate's pool.
    Pool(Close),
    /// By a rule with a vector of its own, one multiplier for each row. Never rule `C`, and only in version 2.
    Own(CloseRule, &'a [u64]),
}

/// A node of the proof tree.
#[derive(Clone, Copy)]
pub enum Node<'a> {
    /// A decision, and a child for each of its options in order.
    Branch {
        decision: u32,
        children: &'a [Node<'a>],
    },
    /// A closed part.
    Leaf(Mark<'a>),
}

/// A claim that a choice is the least of a table, or that no choice meets the table, with its proof.
#[derive(Clone, Copy)]
pub struct Cert<'a> {
    /// 1 or 2.
    pub version: u8,
    pub decisions: u32,
    pub rows: u32,
    /// The number of an option for each decision; none where no choice meets every row.
    pub choice: Option<&'a [u8]>,
    /// The energy of the choice.
    pub energy: Option<u64>,
    /// All rows in version 2, and none in version 1.
    pub restated: &'a [Restated],
    /// Vectors of Lagrangian multipliers, one multiplier for each row.
    pub pool: &'a [&'a [u64]],
    /// How many nodes the tree has.
    pub nodes: u32,
    pub root: Node<'a>,
}
