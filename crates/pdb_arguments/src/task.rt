//! Tasks of the program, and the faults of arguments that give none.

use std::alloc::AllocError;
use thiserror::Error;

/// A task of the program.
#[derive(Debug, Drop, PartialEq)]
pub enum Task {
    /// Answers addresses that are read from the standard input.
    Frames {
        /// The program database's file.
        file: String,
        /// Whether decorated names are undecorated.
        demangle: bool,
        /// Whether the contributions of modules may stand in any order in the file.
        any_order: bool,
        /// Whether lines of JSON are written in place of text.
        json: bool,
    },
    /// Counts the addresses that each function or source file owns in a range.
    Sizes {
        /// The program database's file.
        file: String,
        /// The range's first address.
        start: u32,
        /// The address after the range's last.
        end: u32,
        /// Whether files are counted in place of functions.
        by_file: bool,
        /// Whether decorated names are undecorated.
        demangle: bool,
        /// Whether the contributions of modules may stand in any order in the file.
        any_order: bool,
    },
}

/// The fault of arguments that give no task. `Words` and `Help` print the text that they hold, any
/// other its name.
#[derive(Debug, Drop, PartialEq, Error)]
pub enum WordsFault {
    /// START or END is no address.
    #[error("NotAnAddress")]
    NotAnAddress,
    /// The arguments are no command, for the cause in this text.
    #[error("{0}")]
    Words(String),
    /// The arguments ask for help or the version, which is this text.
    #[error("{0}")]
    Help(String),
    /// Out of memory.
    #[error("OutOfMemory")]
    OutOfMemory,
}

impl From<AllocError> for WordsFault {
    ghost use Rattle.std.specs.Prelude.{◌≡◌};
    ghost use Rattle.pdb_arguments.specs.declared.task.WordsFault.TheVariants as faults;

    ghost from_gives = { λ cause e. e ≡ faults.OutOfMemory };

    fn from(_error: AllocError) -> WordsFault {
        WordsFault::OutOfMemory
    }
}
