//! Why a tensor file is not read, and why a result is not closed.

ghost use Rattle.std.specs.Prelude.{◌≡◌};
ghost use Rattle.tns_io.specs.declared.faults.LineFault.TheVariants as line;
ghost use Rattle.tns_io.specs.declared.faults.TnsFault.TheVariants as tns;
ghost use Rattle.tns_io.specs.declared.faults.CloseFault.TheVariants as close;
ghost use Rattle.tns_io.specs.Answers.{at_line};

use sam_base::TnsKind;
use std::alloc::{AllocError, AllocFailed};
use thiserror::Error;

/// Why a tensor file is not read.
#[derive(Debug, Drop, Error)]
pub enum TnsFault {
    /// The first bad line, counted from 1, and what is wrong there.
    #[error("line {line} of the tensor file is refused")]
    Refused { kind: TnsKind, line: u32 },
    #[error("there is no memory for the entries")]
    OutOfMemory,
}

impl From<AllocError> for TnsFault {
    ghost from_gives = { λ _ fault. fault ≡ tns.OutOfMemory };

    fn from(_e: AllocError) -> TnsFault {
        TnsFault::OutOfMemory
    }
}

/// Why a line is not read.
#[derive(Debug, Drop)]
pub enum LineFault {
    Refused(TnsKind),
    OutOfMemory,
}

impl LineFault {
    /// The fault of the file, where this is the number of the line.
    pub fn at(self, line: u32) -> TnsFault
        ensures { result ≡ at_line self line }
    {
        match self {
            LineFault::Refused(kind) => TnsFault::Refused { kind, line },
            LineFault::OutOfMemory => TnsFault::OutOfMemory,
        }
    }
}

impl From<TnsKind> for LineFault {
    ghost from_gives = { λ kind fault. fault ≡ line.Refused kind };

    fn from(kind: TnsKind) -> LineFault {
        LineFault::Refused(kind)
    }
}

impl From<AllocError> for LineFault {
    ghost from_gives = { λ _ fault. fault ≡ line.OutOfMemory };

    fn from(_e: AllocError) -> LineFault {
        LineFault::OutOfMemory
    }
}

impl<T: Drop> From<AllocFailed<T>> for LineFault {
    ghost from_gives = { λ _ fault. fault ≡ line.OutOfMemory };

    fn from(_e: AllocFailed<T>) -> LineFault {
        LineFault::OutOfMemory
    }
}

/// Why a result is not closed over its dense levels.
#[derive(Debug, Drop, Error)]
pub enum CloseFault {
    /// It would list more coordinates than a result may have.
    #[error("the result lists too many coordinates")]
    TooLarge,
    #[error("there is no memory for the coordinates")]
    OutOfMemory,
}

impl From<AllocError> for CloseFault {
    ghost from_gives = { λ _ fault. fault ≡ close.OutOfMemory };

    fn from(_e: AllocError) -> CloseFault {
        CloseFault::OutOfMemory
    }
}
