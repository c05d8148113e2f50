//! The data that are read of a procedure once, for all places in it.

ghost use Rattle.std.specs.Prelude.{◌≡◌, ◌↔◌, true, IfOk};
ghost use Rattle.pdb_module_data.specs.InlinedCalls.{stored_rows};
ghost use Rattle.pdb_module_data.specs.InlinePieces.{StandForSites};
ghost use Rattle.pdb_module_data.specs.Procedures.{sites_of_procedure};
ghost use Rattle.pdb_resolving.specs.Fault.{Answers};
ghost use Rattle.pdb_known_modules.specs.KnownModules.{extended_procedure_of, procedure_sites};
ghost use Rattle.pdb_known_modules.specs.KnownModules.{sites_lifted};
ghost use Rattle.pdb_known_modules.specs.ProcedureData.{IsReadBy};
ghost use Rattle.pdb_known_modules.specs.Seen.{extended_seen};

use crate::modules::ExtendedModuleInfo;
use pdb_addresses::PdbInternalSectionOffset;
use pdb_container::SymbolIndex;
use pdb_module_data::{FunctionRows, InlineRanges, Inlinees, Procedure, SitesError};
use pdb_resolving::{Error, ModuleTables, Result};
use pdb_symbol_records::SymbolIter;
use std::alloc::Global;

/// The approximate number of bytes of memory that the data of a procedure take besides its sites.
const PROCEDURE_SIZE: u64 = 200;

/// The data by which the line and the inlined calls at each place of a procedure are found: the
/// rows of its `DEBUG_S_LINES`, and its inline sites.
#[derive(Drop)]
pub struct ExtendedProcedureInfo<'a> {
    /// Its line rows.
    pub rows: FunctionRows,
    /// Its inline sites.
    pub ranges: InlineRanges<'a>,
}

/// The data of [`ExtendedProcedureInfo`], lent from the cache.
#[derive(Clone, Copy)]
pub struct LentProcedure<'m, 'a> {
    /// Its line rows.
    pub rows: &'m FunctionRows,
    /// Its inline sites.
    pub ranges: &'m InlineRanges<'a>,
}

/// The cached data of a procedure: its inline sites, and the number of the `DEBUG_S_LINES` that has
/// its rows. The rows are cached under that number.
#[derive(Drop)]
pub struct KeptProcedure<'a> {
    /// The start of the procedure.
    pub offset: PdbInternalSectionOffset,
    /// The place of its symbol in the module's symbols, in bytes.
    pub symbol_index: SymbolIndex,
    /// The place of the symbol that ends it, in bytes.
    pub end_symbol_index: SymbolIndex,
    /// The number of its `DEBUG_S_LINES`, counted from 1; 0 where it has none.
    pub subsection: usize,
    /// Its inline sites.
    pub ranges: InlineRanges<'a>,
}

impl<'a> KeptProcedure<'a> {
    /// The cached data of a procedure with these sites, and with the rows of the `DEBUG_S_LINES`
    /// with that number.
    pub fn new(
        procedure: &Procedure<'_>,
        subsection: usize,
        ranges: InlineRanges<'a>,
    ) -> KeptProcedure<'a>
        ensures key { IsReadBy procedure.now result }
        ensures number { result.subsection ≡ subsection }
        ensures ranges { result.ranges ≡ ranges.entry }
    {
        KeptProcedure {
            offset: procedure.offset,
            symbol_index: procedure.symbol_index,
            end_symbol_index: procedure.end_symbol_index,
            subsection,
            ranges,
        }
    }

    /// Whether the data were read by the start and the symbols of a procedure.
    pub fn is_of(&self, procedure: &Procedure<'_>) -> bool
        ensures { (result ≡ true) ↔ IsReadBy procedure.now self.now }
    {
        procedure.offset == self.offset
            && procedure.symbol_index == self.symbol_index
            && procedure.end_symbol_index == self.end_symbol_index
    }

    /// The approximate number of bytes of memory that it takes, at most.
    pub fn memory_size(&self) -> u64 {
        self.ranges.memory_size().saturating_add(PROCEDURE_SIZE)
    }
}

/// The inline sites of a procedure among the symbols of its module, with pieces for a search of the
/// deepest one.
#[tactic(auto, using(crate::proofs::SitesSteps::sites_fail))]
fn read_ranges<'a>(
    alloc: Global,
    symbols: SymbolIter<'a>,
    procedure: &Procedure<'_>,
    inlinees: &Inlinees<'a>,
) -> Result<InlineRanges<'a>>
    ensures sites { Answers (λ r. r.sites) result
        (sites_lifted (sites_of_procedure symbols.entry.bytes procedure.now)) }
    ensures stand { IfOk result (λ r. StandForSites (stored_rows inlinees.now procedure.now.offset) r) }
{
    match InlineRanges::read(alloc, symbols, procedure, inlinees) {
        Ok(ranges) => Ok(ranges),
        Err(SitesError::Pdb(error)) => Err(Error::from(error)),
        Err(SitesError::Unsuccessful) => Err(Error::ProcedureInlineRangesUnsuccessful),
    }
}

/// The inline sites of a procedure of a module, read to their end.
///
/// # Errors
/// The faults of [`ModuleTables::symbols`] and of the sites, as `PdbError`;
/// `ProcedureInlineRangesUnsuccessful`; `OutOfMemory`.
#[tactic(auto, using(pdb_resolving::proofs::Lifting::parsed_fails_on, pdb_resolving::proofs::Lifting::fails_on))]
pub fn procedure_ranges<'a, I: ModuleTables>(
    alloc: Global,
    module_info: &'a I,
    extended: &ExtendedModuleInfo<'a>,
    procedure: &Procedure<'_>,
) -> Result<InlineRanges<'a>>
    ensures sites { Answers (λ r. r.sites) result
        (procedure_sites (I.held module_info.now) procedure.now) }
    ensures stand { IfOk result
        (λ r. StandForSites (stored_rows extended.now.inlinees procedure.now.offset) r) }
{
    let symbols = module_info.symbols()?;
    read_ranges(alloc, symbols, procedure, &extended.inlinees)
}

/// The line rows of a procedure, and then its inline sites, each read to its end.
///
/// # Errors
/// `UnexpectedEof` of the rows; the faults of [`ModuleTables::symbols`] and of the sites, as
/// `PdbError`; `ProcedureInlineRangesUnsuccessful`; `OutOfMemory`.
#[tactic(auto, using(pdb_resolving::proofs::Lifting::given_fails_on, pdb_resolving::proofs::Lifting::fails_on), unfolding(crate::specs::KnownModules::extended_procedure_of))]
pub fn read_extended_procedure<'a, I: ModuleTables>(
    alloc: Global,
    module_info: &'a I,
    extended: &ExtendedModuleInfo<'a>,
    procedure: &Procedure<'_>,
) -> Result<ExtendedProcedureInfo<'a>>
    ensures read { Answers (λ d. (d.rows, d.ranges.sites)) result (extended_procedure_of
        (I.held module_info.now) (extended_seen extended.now).program procedure.now) }
    ensures stand { IfOk result
        (λ d. StandForSites (stored_rows extended.now.inlinees procedure.now.offset) d.ranges) }
{
    let rows = FunctionRows::read(alloc, &extended.line_program, procedure.offset)?;
    let ranges = procedure_ranges(alloc, module_info, extended, procedure)?;
    Ok(ExtendedProcedureInfo { rows, ranges })
}
