//! Faults of unwind codes.

ghost use Rattle.std.specs.Prelude.{◌≡◌};

use std::alloc::{AllocError, AllocFailed};
use thiserror::Error;

/// The reason that the unwind codes of a function can't be read.
#[derive(Clone, Copy, Debug, PartialEq, Eq, Error)]
pub enum UnwindFault {
    /// The function doesn't begin below its end.
    #[error("the function has no bytes")]
    EmptyRange,
    /// The bytes at an address of the image, which lie in no section's data in the file.
    #[error("the file has no unwind information at address {0:#x}")]
    NotInFile(u64),
    /// A version of unwind information other than 1 and 2.
    #[error("unwind information has the unknown version {0}")]
    UnknownVersion(u8),
    /// The byte of an unwind code that has its operation and information, of which none is known.
    #[error("an unwind code has the unknown operation {0:#x}")]
    UnknownCode(u8),
    /// The slots end before an unwind code does.
    #[error("an unwind code is cut")]
    CutCode,
    /// A chain of more than 32 parents.
    #[error("unwind information has more than 32 parents")]
    TooManyParents,
    /// A machine frame that isn't the first step.
    #[error("a machine frame isn't the first step of a prolog")]
    LateMachineFrame,
    /// Out of memory.
    #[error("out of memory")]
    OutOfMemory,
}

impl From<AllocError> for UnwindFault {
    ghost use Rattle.pdb_image.specs.declared.fault.UnwindFault.TheVariants.{OutOfMemory};

    ghost from_gives = { λ _ e. e ≡ OutOfMemory };

    fn from(_cause: AllocError) -> UnwindFault {
        UnwindFault::OutOfMemory
    }
}

impl<T: Drop> From<AllocFailed<T>> for UnwindFault {
    ghost use Rattle.pdb_image.specs.declared.fault.UnwindFault.TheVariants.{OutOfMemory};

    ghost from_gives = { λ _ e. e ≡ OutOfMemory };

    fn from(_cause: AllocFailed<T>) -> UnwindFault {
        UnwindFault::OutOfMemory
    }
}
