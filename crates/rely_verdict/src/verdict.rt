use rely_num::Atto;

/// What is known of a claim. Probabilities are in attos.
#[derive(Clone, Copy, Debug, PartialEq, Eq)]
pub enum Verdict {
    /// A conjunct has a variable outside the claim's needs: the least one of the first such conjunct.
    Needs { var: u32 },
    /// A conjunct's product is below the bound, even rounded up: that of the first such conjunct.
    Below { hi: Atto },
    /// A conjunct's product is below the bound rounded down, and at least the bound rounded up.
    Undecided { lo: Atto, hi: Atto },
    /// Each conjunct's product is at least the bound: the least of them, rounded down.
    Accepted { lo: Atto },
}
