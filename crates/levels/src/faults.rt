//! Why a tensor is not stored.

ghost use Rattle.std.specs.Prelude.{◌≡◌};
ghost use Rattle.levels.specs.declared.faults.BuildFault.TheVariants.{OutOfMemory};

use std::alloc::{AllocError, AllocFailed};
use thiserror::Error;

/// Why a tensor is not stored.
#[derive(Debug, Drop, Error)]
pub enum BuildFault {
    /// Of some length too many prefixes are stored.
    #[error("too many stored prefixes")]
    TooManyPositions,
    #[error("there is no memory for the tensor")]
    OutOfMemory,
}

impl From<AllocError> for BuildFault {
    ghost from_gives = { λ _ fault. fault ≡ OutOfMemory };

    fn from(_e: AllocError) -> BuildFault {
        BuildFault::OutOfMemory
    }
}

impl<T: Drop> From<AllocFailed<T>> for BuildFault {
    ghost from_gives = { λ _ fault. fault ≡ OutOfMemory };

    fn from(_e: AllocFailed<T>) -> BuildFault {
        BuildFault::OutOfMemory
    }
}
