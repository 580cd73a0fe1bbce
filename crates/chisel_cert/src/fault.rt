use std::alloc::{AllocError, AllocFailed};
use thiserror::Error;

/// What is wrong with a line of a certificate's text.
#[derive(Clone, Copy, Debug, PartialEq, Eq)]
pub enum CertWhy {
    /// The line is cut off, absent or not of its form, its node doesn't fit the number of nodes, or it stands behind the end.
    Form,
    /// A branch under 256 branches.
    Deep,
}

/// Why a text is no certificate.
#[derive(Clone, Copy, Debug, PartialEq, Eq, Error)]
pub enum CertFault {
    /// The first line that fails, counted from 1.
    #[error("line {line} fails")]
    At { line: u32, why: CertWhy },
    #[error("out of memory")]
    Memory,
}

impl From<AllocError> for CertFault {
    ghost use Rattle.std.specs.Prelude.{◌≡◌};
    ghost use Rattle.chisel_cert.specs.declared.fault.CertFault.TheVariants.{Memory};

    ghost from_gives = { λ _ e. e ≡ Memory };

    fn from(_error: AllocError) -> CertFault {
        CertFault::Memory
    }
}

impl<T: Drop> From<AllocFailed<T>> for CertFault {
    ghost use Rattle.std.specs.Prelude.{◌≡◌};
    ghost use Rattle.chisel_cert.specs.declared.fault.CertFault.TheVariants.{Memory};

    ghost from_gives = { λ _ e. e ≡ Memory };

    fn from(_failed: AllocFailed<T>) -> CertFault {
        CertFault::Memory
    }
}
