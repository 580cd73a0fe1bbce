//! Partial choices, which fix some decisions and leave the others.
ghost use Rattle.std.specs.Prelude.{◌≡◌, ◌<◌, ◌≤◌};
ghost use Rattle.chisel_table.specs.declared.table.TheConstants.{MAX_DECISIONS};
ghost use Rattle.chisel_table.specs.Tables.{decision_count};

use crate::table::{MAX_DECISIONS, Table, decision_count};

/// It stands in a slot where the decision is unfixed.
pub const UNFIXED: u8 = 255;

/// A partial choice: for each of `size` decisions the option that is fixed, or `UNFIXED`.
#[derive(Clone, Copy, Debug, PartialEq, Eq)]
pub struct Partial {
    pub size: u32,
    pub slots: [u8; MAX_DECISIONS],
}

impl Partial {
    ghost use Rattle.chisel_table.specs.Partials.{is_unfixed, nothing_fixed, with_option};

    /// The partial choice that fixes no decision.
    pub fn nothing_fixed(t: &Table) -> Partial
        requires { decision_count t.now ≤ MAX_DECISIONS }
        ensures { result ≡ nothing_fixed t.now }
    {
        Partial {
            size: decision_count(t) as u32,
            slots: [UNFIXED; MAX_DECISIONS],
        }
    }

    /// Whether a decision is unfixed.
    pub fn is_unfixed(&self, decision: usize) -> bool
        requires { decision < MAX_DECISIONS }
        ensures { result ≡ is_unfixed self.now decision }
    {
        self.slots[decision] == UNFIXED
    }

    /// The same with an option of a decision fixed.
    pub fn with_option(&self, decision: usize, option: u8) -> Partial
        requires { decision < MAX_DECISIONS }
        ensures { result ≡ with_option self.now decision option }
    {
        let mut partial = *self;
        partial.slots[decision] = option;
        partial
    }
}
