//! Stops: the errors that end a text.

ghost use Rattle.std.specs.Prelude.{◌≡◌};
ghost use Rattle.pdb_resolving.specs.declared.error.Error.TheVariants as errors;
ghost use Rattle.pdb_resolving.specs.declared.stop.Stop.TheVariants as stops;

use crate::error::Error;
use crate::table::Table;
use std::alloc::{AllocError, AllocFailed};

/// The result of a call that makes a part of a text, or the stop that ends the text.
pub type Result<T> = std::result::Result<T, Stop>;

/// The error that ends a text.
#[derive(Drop)]
pub enum Stop {
    /// This error, which is no table's.
    ByError(Error),
    /// A table of a module that couldn't be read, with the error of reading it.
    ByTable(Table, Error),
}

impl From<Error> for Stop {
    ghost from_gives = { λ error stop. stop ≡ stops.ByError error };

    fn from(error: Error) -> Stop {
        Stop::ByError(error)
    }
}

impl From<pdb_container::Error> for Stop {
    ghost use Rattle.pdb_resolving.specs.Fault.{error_of};

    ghost from_gives = { λ cause stop. stop ≡ stops.ByError (error_of cause) };

    fn from(cause: pdb_container::Error) -> Stop {
        Stop::ByError(Error::from(cause))
    }
}

impl From<AllocError> for Stop {
    ghost from_gives = { λ _ stop. stop ≡ stops.ByError errors.OutOfMemory };

    fn from(_e: AllocError) -> Stop {
        Stop::ByError(Error::OutOfMemory)
    }
}

impl<T: Drop> From<AllocFailed<T>> for Stop {
    ghost from_gives = { λ _ stop. stop ≡ stops.ByError errors.OutOfMemory };

    fn from(_e: AllocFailed<T>) -> Stop {
        Stop::ByError(Error::OutOfMemory)
    }
}

impl From<Stop> for Error {
    ghost use Rattle.pdb_resolving.specs.Cause.{error_in};

    ghost from_gives = { λ stop error. error ≡ error_in stop };

    fn from(stop: Stop) -> Error {
        match stop {
            Stop::ByError(error) => error,
            Stop::ByTable(_, error) => error,
        }
    }
}
