ghost use Rattle.std.specs.Prelude.{◌≡◌, ℕ, ◌≤◌, ◌<◌, ◌↔◌, IsSome, IfSome, IsNone};
ghost use Rattle.rely_num.specs.Bounds.{S};

use std::marker::Model;
use thiserror::Error;

/// One, in attos.
const ONE: u64 = 1_000_000_000_000_000_000;

/// Why a text writes no probability.
#[derive(Clone, Copy, Debug, PartialEq, Eq, Error)]
pub enum NumFault {
    /// No byte.
    #[error("nothing is written")]
    Empty,
    /// A sign stands first.
    #[error("a sign stands first")]
    Sign,
    /// The place where the text leaves the form.
    #[error("no such byte may stand at {0}")]
    Digit(u32),
    /// The place of the first byte too many.
    #[error("more than eighteen decimals: byte {0} is too many")]
    Decimals(u32),
    /// Above one.
    #[error("above one")]
    Above,
}

/// A probability, in attos.
#[derive(Clone, Copy, Debug, PartialEq, Eq, PartialOrd, Ord, Hash)]
pub struct Atto {
    attos: u64,
}

impl Model for Atto {
    ghost Value = { ℕ };

    ghost view = { λ a. a.attos };

    ghost invariant = { λ a. a.attos ≤ S };

    ghost inverse = { λ n. record { attos = n } };
}

impl Atto {
    /// The probability one.
    pub const ONE: Atto = Atto { attos: ONE };

    /// The probability of so many attos; none above one.
    pub fn new(n: u64) -> Option<Atto>
        ensures some { IfSome result (λ a. a ≡ n) }
        ensures none { IsNone result ↔ (S < n) }
    {
        if n <= ONE {
            Some(Atto { attos: n })
        } else {
            None
        }
    }

    /// Its attos.
    pub fn get(self) -> u64
        ensures value { result ≡ self }
        ensures bound { result ≤ S }
    {
        self.attos
    }

    pub(crate) fn from_attos(n: u64) -> Atto
        requires { n ≤ S }
        ensures { result ≡ n }
    {
        Atto { attos: n }
    }
}
