//! Errors of calls about types, functions and addresses.

ghost use Rattle.std.specs.Prelude.{◌≡◌};
ghost use Rattle.pdb_resolving.specs.declared.error.Error.TheVariants as errors;

use std::alloc::{AllocError, AllocFailed};
use std::fmt;
use thiserror::Error as ThisError;

/// The result of a call about a type, a function or an address.
pub type Result<T> = std::result::Result<T, Error>;

/// The cause for which a type, a function or an address has no answer.
#[derive(Debug, Drop, PartialEq, ThisError)]
pub enum Error {
    /// The writer refused the text.
    #[error("Formatting error: {0}")]
    FormatError(fmt::Error),
    /// The program database couldn't be read, for this cause, which is never that memory ran out.
    #[error("PDB error: {0}")]
    PdbError(pdb_container::Error),
    /// The argument list that a method's type names is no argument list.
    #[error("Unexpected type for argument list")]
    ArgumentTypeNotArgumentList,
    /// The type of a function's id is no procedure.
    #[error("Id of type Function doesn't have type of Procedure")]
    FunctionIdIsNotProcedureType,
    /// The type of a method's id is no method.
    #[error("Id of type MemberFunction doesn't have type of MemberFunction")]
    MemberFunctionIdIsNotMemberFunctionType,
    /// Two contributions of this module to this section, one after the other, of which the second
    /// ends before the first.
    #[error("There are consecutive section contributions for module {0} and section {1} which are not ordered by offset")]
    UnorderedSectionContributions(usize, u16),
    /// The contributions of these two modules overlap in this section.
    #[error("Overlapping section contributions in section {0} from modules {1} and {2}")]
    OverlappingSectionContributions(u16, usize, usize),
    /// A procedure's lines couldn't be read when they were asked for before.
    #[error("Getting the procedure lines was unsuccessful")]
    ProcedureLinesUnsuccessful,
    /// A procedure's inlined calls couldn't be read, now or before.
    #[error("Getting the procedure inline ranges was unsuccessful")]
    ProcedureInlineRangesUnsuccessful,
    /// A module's lines and inlined functions couldn't be read when they were asked for before.
    #[error("Getting the extended module info was unsuccessful")]
    ExtendedModuleInfoUnsuccessful,
    /// A module's imports couldn't be read when they were asked for before.
    #[error("Getting the module imports was unsuccessful")]
    ModuleImportsUnsuccessful,
    /// A module's exports couldn't be read when they were asked for before.
    #[error("Getting the module exports was unsuccessful")]
    ModuleExportsUnsuccessful,
    /// The index leads into another module, and there is no string table that names the module.
    #[error("Could not resolve cross-module reference due to missing string table")]
    CantResolveCrossModuleRefWithoutStringTable,
    /// No module has this name, which is in ASCII lower case.
    #[error("Could not find the module with name {0}")]
    ModuleNameNotFound(String),
    /// The other module exports no such index as it names it.
    #[error("The local index {0} was not found in the module exports")]
    LocalIndexNotInExports(u32),
    /// There is no module with this index, counted from 0.
    #[error("The module index {0} was out-of-range.")]
    OutOfRangeModuleIndex(usize),
    /// The module with this index has no stream of its own.
    #[error("Could not get the ModuleInfo for module index {0}")]
    ModuleInfoNotFound(usize),
    /// The type or id with this index holds itself, or stands too deep.
    #[error("Type with index {0} is circular")]
    CircularTypeDefinition(u32),
    /// Out of memory.
    #[error("Out of memory")]
    OutOfMemory,
}

impl From<pdb_container::Error> for Error {
    ghost use Rattle.pdb_resolving.specs.Fault.{error_of};

    ghost from_gives = { λ cause e. e ≡ error_of cause };

    fn from(cause: pdb_container::Error) -> Error {
        match cause {
            pdb_container::Error::OutOfMemory => Error::OutOfMemory,
            cause => Error::PdbError(cause),
        }
    }
}

impl From<fmt::Error> for Error {
    ghost from_gives = { λ cause e. e ≡ errors.FormatError cause };

    fn from(cause: fmt::Error) -> Error {
        Error::FormatError(cause)
    }
}

impl From<AllocError> for Error {
    ghost from_gives = { λ _ e. e ≡ errors.OutOfMemory };

    fn from(_e: AllocError) -> Error {
        Error::OutOfMemory
    }
}

impl<T: Drop> From<AllocFailed<T>> for Error {
    ghost from_gives = { λ _ e. e ≡ errors.OutOfMemory };

    fn from(_e: AllocFailed<T>) -> Error {
        Error::OutOfMemory
    }
}
