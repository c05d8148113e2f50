//! The texts of errors.

use pdb_addr2line::Error;
use pdb_addr2line::pdb::Error as Cause;
use std::alloc::Global;
use std::fmt;
use std::test::Fail;

/// Returns the error with that index, from 0 to 18, and its text.
fn error_of(alloc: Global, number: u32) -> Result<(Error, &'static str), Fail> {
    Ok(match number {
        0 => (
            Error::FormatError(fmt::Error),
            "Formatting error: an error occurred when formatting an argument",
        ),
        1 => (
            Error::PdbError(Cause::StreamNotFound(5)),
            "PDB error: StreamNotFound(5)",
        ),
        2 => (
            Error::ArgumentTypeNotArgumentList,
            "Unexpected type for argument list",
        ),
        3 => (
            Error::FunctionIdIsNotProcedureType,
            "Id of type Function doesn't have type of Procedure",
        ),
        4 => (
            Error::MemberFunctionIdIsNotMemberFunctionType,
            "Id of type MemberFunction doesn't have type of MemberFunction",
        ),
        5 => (
            Error::UnorderedSectionContributions(7, 3),
            "There are consecutive section contributions for module 7 and section 3 which are not \
            ordered by offset",
        ),
        6 => (
            Error::OverlappingSectionContributions(3, 7, 8),
            "Overlapping section contributions in section 3 from modules 7 and 8",
        ),
        7 => (
            Error::ProcedureLinesUnsuccessful,
            "Getting the procedure lines was unsuccessful",
        ),
        8 => (
            Error::ProcedureInlineRangesUnsuccessful,
            "Getting the procedure inline ranges was unsuccessful",
        ),
        9 => (
            Error::ExtendedModuleInfoUnsuccessful,
            "Getting the extended module info was unsuccessful",
        ),
        10 => (
            Error::CantResolveCrossModuleRefWithoutStringTable,
            "Could not resolve cross-module reference due to missing string table",
        ),
        11 => (
            Error::ModuleImportsUnsuccessful,
            "Getting the module imports was unsuccessful",
        ),
        12 => (
            Error::ModuleNameNotFound(String::from_str(alloc, "c.obj")?),
            "Could not find the module with name c.obj",
        ),
        13 => (
            Error::ModuleExportsUnsuccessful,
            "Getting the module exports was unsuccessful",
        ),
        14 => (
            Error::LocalIndexNotInExports(4096),
            "The local index 4096 was not found in the module exports",
        ),
        15 => (
            Error::OutOfRangeModuleIndex(9),
            "The module index 9 was out-of-range.",
        ),
        16 => (
            Error::ModuleInfoNotFound(2),
            "Could not get the ModuleInfo for module index 2",
        ),
        17 => (
            Error::CircularTypeDefinition(4213),
            "Type with index 4213 is circular",
        ),
        _ => (Error::OutOfMemory, "Out of memory"),
    })
}

#[test]
fn texts_of_errors(rt: HostRuntime) -> Result<(), Fail> {
    for number in 0..19 {
        let (error, wanted) = error_of(rt.alloc(), number)?;
        let text = format!(in rt.alloc(); "{error}")?;
        assert_eq!(rt; text.as_str(), wanted);
    }
    Ok(())
}
