//! Why a program file is refused.

ghost use Rattle.std.specs.Prelude.{◌≡◌};
ghost use Rattle.program_file.specs.declared.faults.ProgramFault.TheVariants.{OutOfMemory};

use sam_base::ProgramKind;
use std::alloc::AllocError;
use thiserror::Error;

/// Why a text gives no program. The line is that of the first fault, counted from 1.
#[derive(Debug, Drop, Error)]
pub enum ProgramFault {
    #[error("{kind:?} at line {line}")]
    Refused { kind: ProgramKind, line: u32 },
    #[error("out of memory")]
    OutOfMemory,
}

impl From<AllocError> for ProgramFault {
    ghost from_gives = { λ _ e. e ≡ OutOfMemory };

    fn from(_e: AllocError) -> ProgramFault {
        ProgramFault::OutOfMemory
    }
}
