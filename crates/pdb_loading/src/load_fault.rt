//! The fault that keeps a program database from being loaded.

ghost use Rattle.std.specs.Prelude.{◌≡◌};
ghost use Rattle.pdb_container.specs.PrintedFault.{printed_text};
ghost use Rattle.pdb_loading.specs.declared.load_fault.LoadFault.TheVariants as load_faults;
ghost use Rattle.pdb_loading.specs.LoadFaultText.{HasPlainName, cause_text, load_fault_text};

use pdb_container::PrintedFault;
use pdb_resolving::Error;
use std::alloc::{AllocError, AllocFailed};
use std::fmt;

/// The fault that keeps a program database from being loaded. `Pdb` prints the error that it holds,
/// any other its name.
#[derive(Debug, Drop, PartialEq)]
pub enum LoadFault {
    /// The file can't be read, for this cause, which is never out of memory.
    Pdb(Error),
    /// The sources of an OMAP decrease.
    AddressTableDecreases,
    /// Out of memory.
    OutOfMemory,
}

impl From<pdb_container::Error> for LoadFault {
    ghost use Rattle.pdb_loading.specs.LoadFaults.{load_fault_of};

    ghost from_gives = { λ cause e. e ≡ load_fault_of cause };

    fn from(cause: pdb_container::Error) -> LoadFault {
        match cause {
            pdb_container::Error::OutOfMemory => LoadFault::OutOfMemory,
            cause => LoadFault::Pdb(Error::PdbError(cause)),
        }
    }
}

impl From<Error> for LoadFault {
    ghost use Rattle.pdb_loading.specs.LoadFaults.{load_fault_in_context};

    ghost from_gives = { λ cause e. e ≡ load_fault_in_context cause };

    fn from(cause: Error) -> LoadFault {
        match cause {
            Error::OutOfMemory => LoadFault::OutOfMemory,
            cause => LoadFault::Pdb(cause),
        }
    }
}

impl From<AllocError> for LoadFault {
    ghost from_gives = { λ _ e. e ≡ load_faults.OutOfMemory };

    fn from(_e: AllocError) -> LoadFault {
        LoadFault::OutOfMemory
    }
}

impl<T: Drop> From<AllocFailed<T>> for LoadFault {
    ghost from_gives = { λ _ e. e ≡ load_faults.OutOfMemory };

    fn from(_e: AllocFailed<T>) -> LoadFault {
        LoadFault::OutOfMemory
    }
}

impl std::error::Error for LoadFault {}

impl LoadFault {
    /// The text that the fault prints.
    pub fn printed(&self) -> PrintedFault<'_>
        ensures { printed_text result ≡ load_fault_text self.now }
    {
        match self {
            LoadFault::Pdb(cause) => printed_cause(cause),
            LoadFault::AddressTableDecreases => PrintedFault::plain("AddressTableDecreases"),
            LoadFault::OutOfMemory => PrintedFault::plain("OutOfMemory"),
        }
    }
}

/// The text that a cause prints: an error of the container prints as it does there, any other its
/// name and, in parentheses, its values.
fn printed_cause(cause: &Error) -> PrintedFault<'_>
    ensures { printed_text result ≡ cause_text cause.now }
{
    match cause {
        Error::PdbError(cause) => cause.printed(),
        Error::FormatError(_) => PrintedFault::plain("FormatError"),
        Error::UnorderedSectionContributions(module, section) => PrintedFault::numbers(
            "UnorderedSectionContributions(",
            *module as u64,
            u64::from(*section),
        ),
        Error::OverlappingSectionContributions(section, earlier, later) => PrintedFault::three(
            "OverlappingSectionContributions(",
            u64::from(*section),
            *earlier as u64,
            *later as u64,
        ),
        Error::ModuleNameNotFound(name) => PrintedFault::text("ModuleNameNotFound(", name.as_str()),
        Error::LocalIndexNotInExports(index) => {
            PrintedFault::number("LocalIndexNotInExports(", u64::from(*index))
        }
        Error::OutOfRangeModuleIndex(number) => {
            PrintedFault::number("OutOfRangeModuleIndex(", *number as u64)
        }
        Error::ModuleInfoNotFound(number) => {
            PrintedFault::number("ModuleInfoNotFound(", *number as u64)
        }
        Error::CircularTypeDefinition(index) => {
            PrintedFault::number("CircularTypeDefinition(", u64::from(*index))
        }
        cause => PrintedFault::plain(plain_name(cause)),
    }
}

/// The name of an error without values; the texts of other errors begin in other ways.
fn plain_name(cause: &Error) -> &'static str
    ensures { HasPlainName cause.now result.now }
{
    match cause {
        Error::ArgumentTypeNotArgumentList => "ArgumentTypeNotArgumentList",
        Error::FunctionIdIsNotProcedureType => "FunctionIdIsNotProcedureType",
        Error::MemberFunctionIdIsNotMemberFunctionType => "MemberFunctionIdIsNotMemberFunctionType",
        Error::ProcedureLinesUnsuccessful => "ProcedureLinesUnsuccessful",
        Error::ProcedureInlineRangesUnsuccessful => "ProcedureInlineRangesUnsuccessful",
        Error::ExtendedModuleInfoUnsuccessful => "ExtendedModuleInfoUnsuccessful",
        Error::ModuleImportsUnsuccessful => "ModuleImportsUnsuccessful",
        Error::ModuleExportsUnsuccessful => "ModuleExportsUnsuccessful",
        Error::CantResolveCrossModuleRefWithoutStringTable => {
            "CantResolveCrossModuleRefWithoutStringTable"
        }
        Error::OutOfMemory => "OutOfMemory",
        _ => "",
    }
}

impl fmt::Display for LoadFault {
    ghost use Rattle.std.specs.Prelude.{Some};
    ghost use Rattle.pdb_loading.specs.LoadFaultText.{load_fault_text};

    ghost output = { λ f. Some (load_fault_text f) };

    fn fmt<W: fmt::Write>(&self, f: &mut fmt::Formatter<W>) -> fmt::Result {
        write!(f, "{}", self.printed())
    }
}
