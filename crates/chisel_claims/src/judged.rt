ghost use Rattle.std.specs.Prelude.{◌≡◌};
ghost use Rattle.chisel_claims.specs.Verdicts.{is_accepted};

use rely_kernel::{Claim, Kernel};
use rely_verdict::Verdict;

/// A claim with the verdict on it.
#[derive(Clone, Copy)]
pub struct Judged<'a> {
    /// The number of its function among those that are linked, from 0, the main function last.
    pub function: usize,
    pub kernel: &'a Kernel,
    /// The number of the claim in its function, from 1.
    pub number: u32,
    pub claim: &'a Claim,
    pub verdict: Verdict,
}

impl Judged<'_> {
    /// Whether the bound holds, as far as rounded products tell.
    pub fn is_accepted(&self) -> bool
        ensures { result ≡ is_accepted self.now.verdict }
    {
        match self.verdict {
            Verdict::Accepted { .. } => true,
            Verdict::Needs { .. } | Verdict::Below { .. } | Verdict::Undecided { .. } => false,
        }
    }
}
