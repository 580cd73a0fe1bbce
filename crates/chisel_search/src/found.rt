use chisel_cert::Cert;
use chisel_table::Choice;
use std::alloc::{AllocError, AllocFailed};
use thiserror::Error;

/// What a search has found: the least choice, or that no choice meets every row, how many parts it took,
/// and a certificate by which that is checked without a search.
#[derive(Drop)]
pub struct Found<'a> {
    pub best: Option<Choice>,
    pub visits: u32,
    pub cert: Cert<'a>,
}

/// Why a search has no answer.
#[derive(Clone, Copy, Debug, PartialEq, Eq, Error)]
pub enum SearchFault {
    /// As many parts were taken as may be, and one is still open.
    #[error("the search takes too many parts")]
    Nodes,
    #[error("out of memory")]
    Memory,
}

impl<T: Drop> From<AllocFailed<T>> for SearchFault {
    ghost use Rattle.std.specs.Prelude.{◌≡◌};
    ghost use Rattle.chisel_search.specs.declared.found.SearchFault.TheVariants.{Memory};

    ghost from_gives = { λ _ e. e ≡ Memory };

    fn from(_e: AllocFailed<T>) -> SearchFault {
        SearchFault::Memory
    }
}

impl From<AllocError> for SearchFault {
    ghost use Rattle.std.specs.Prelude.{◌≡◌};
    ghost use Rattle.chisel_search.specs.declared.found.SearchFault.TheVariants.{Memory};

    ghost from_gives = { λ _ e. e ≡ Memory };

    fn from(_e: AllocError) -> SearchFault {
        SearchFault::Memory
    }
}
