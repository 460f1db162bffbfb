//! Why a statement isn't expanded.

ghost use Rattle.std.specs.Prelude.{◌≡◌};
ghost use Rattle.expand.specs.declared.faults.TermFault.TheVariants.{OutOfMemory};

use std::alloc::{AllocError, AllocFailed};
use thiserror::Error;

/// Why a statement isn't expanded.
#[derive(Debug, Drop, Error)]
pub enum ExpandFault {
    /// There are more than 16 terms.
    #[error("too many expanded terms")]
    Terms,
    /// There are at most 16 terms, and one has more than 8 factors.
    #[error("an expanded term has too many factors")]
    Factors,
    #[error("there is no memory for the expanded terms")]
    OutOfMemory,
}

/// Why terms aren't made.
#[derive(Debug, Drop)]
pub enum TermFault {
    /// One has more than 8 factors.
    Long,
    OutOfMemory,
}

impl From<AllocError> for TermFault {
    ghost from_gives = { λ _ fault. fault ≡ OutOfMemory };

    fn from(_e: AllocError) -> TermFault {
        TermFault::OutOfMemory
    }
}

impl<T: Drop> From<AllocFailed<T>> for TermFault {
    ghost from_gives = { λ _ fault. fault ≡ OutOfMemory };

    fn from(_e: AllocFailed<T>) -> TermFault {
        TermFault::OutOfMemory
    }
}
