//! The data of a module's own stream.

ghost use Rattle.std.specs.Prelude.{◌≡◌, ◌↔◌, true, IfOk, IfSome, None, Ok, Some, option_copied};
ghost use Rattle.std.specs.Prelude.{option_map, slice_get};
ghost use Rattle.std.specs.Box.{box_value};
ghost use Rattle.std.specs.List.{flat_map};
ghost use Rattle.pdb_addresses.specs.SectionRun.{up_to_next};
ghost use Rattle.pdb_known_modules.specs.SectionBounds.{procedure_bounds as bounds_of_procedure};
ghost use Rattle.pdb_container.specs.Fault.{Gives};
ghost use Rattle.pdb_known_modules.specs.ProcedureData.{IsKeptOf, IsLentOf, IsOfStream};
ghost use Rattle.pdb_known_modules.specs.SubsectionRows.{AreLentAt, AreRowsAt, IsNumberAt};
ghost use Rattle.pdb_known_modules.specs.Seen.{extended_seen, AreExtendedHere};
ghost use Rattle.pdb_known_modules.specs.KnownModules.{data_of_stream, data_if_there, extended_of};
ghost use Rattle.pdb_known_modules.specs.KnownModules.{module_data, own_of};
ghost use Rattle.pdb_known_modules.specs.KnownModules.{procedures_in as procedures_of_module};
ghost use Rattle.pdb_known_modules.specs.KnownModules.{IsNumberOver};

use crate::bounds::procedure_bounds;
use crate::procedure_data::{KeptProcedure, LentProcedure, procedure_ranges};
use crate::slots::{empty_all, empty_slots, slot_at};
use crate::subsection_rows::SubsectionRows;
use pdb_addresses::PdbInternalSectionOffset;
use pdb_container::{Error, Result};
use pdb_contributions::SortedBounds;
use pdb_lines::LineProgram;
use pdb_module_data::{FunctionRows, Inlinees, Procedure, Procedures, memory_of};
use pdb_resolving::{ModuleProvider, ModuleTables};
use pdb_symbols_modules::Module;
use std::alloc::{AllocError, Global};
use std::marker::Model;

/// The number of bytes of memory that the bounds of a procedure take.
const BOUNDS_SIZE: usize = 2 * size_of::<u64>();

/// The approximate number of bytes of memory that the rows of a subsection take besides the rows
/// themselves.
const SUBSECTION_ROWS_SIZE: u64 = 100;

/// A module's data: its stream, and its procedures.
pub struct BasicModuleInfo<'a, I: ModuleTables> {
    /// The module's own stream.
    pub module_info: &'a I,
    /// Its procedures, the first of each start.
    pub procedures: Procedures<'a>,
    /// The starts and ends of its procedures.
    bounds: SortedBounds,
    /// Its line program and inlinees, once they were read.
    extended: Option<ExtendedModuleInfo<'a>>,
    /// A slot for each procedure, in which its data are cached once they were read; no slot before
    /// line program and inlinees are.
    kept_procedures: Vec<Option<Box<KeptProcedure<'a>>>>,
    /// A slot for each `DEBUG_S_LINES`, in which its rows are cached once they were read; no slot
    /// before line program and inlinees are.
    subsection_rows: SubsectionRows,
    /// The number of bytes of its line data.
    line_data_size: u32,
    /// The approximate number of bytes that line program and inlinees take, if they are cached.
    extended_size: u64,
    /// The approximate number of bytes of its cached procedures, and of the rows of subsections.
    procedures_size: u64,
    /// The number of these bytes that the rows of subsections take.
    rows_size: u64,
}

impl<'a, I: ModuleTables> Model for BasicModuleInfo<'a, I> {
    ghost use Rattle.pdb_known_modules.specs.Bounds.{AreProcedureBounds};
    ghost use Rattle.pdb_known_modules.specs.KnownModules as modules;
    ghost use Rattle.pdb_known_modules.specs.ProcedureData.{AreOfStream};
    ghost use Rattle.pdb_known_modules.specs.SubsectionRows.{AreRowsOfStream};
    ghost use Rattle.pdb_known_modules.specs.Seen.{AreExtended};

    ghost Value = { modules.ModuleData };

    ghost view = { λ m. record { stream = I.held m.module_info.now; procedures = m.procedures } };

    // The bounds are those of the procedures. The cached lines and inlinees are the stream's, and
    // so are the cached data of procedures and the rows of subsections.
    ghost invariant = { λ m. AreProcedureBounds m.procedures m.bounds
        × AreExtended (I.held m.module_info.now) m.extended
        × AreOfStream (I.held m.module_info.now) m.kept_procedures.items
        × AreRowsOfStream (I.held m.module_info.now) m.subsection_rows.slots.items };
}

impl<'a, I: ModuleTables> Drop for BasicModuleInfo<'a, I> {
    fn drop(self) {
        let BasicModuleInfo {
            module_info: _,
            procedures,
            bounds,
            extended,
            kept_procedures,
            subsection_rows,
            line_data_size: _,
            extended_size: _,
            procedures_size: _,
            rows_size: _,
        } = self;
        drop(procedures);
        drop(bounds);
        drop(extended);
        drop(kept_procedures);
        drop(subsection_rows);
    }
}

impl<'a, I: ModuleTables> BasicModuleInfo<'a, I> {
    /// The data of a module's stream, whose symbols are read to their end. The faults of
    /// [`ModuleTables::symbols`], `SymbolTooShort`, `UnexpectedEof`; `OutOfMemory`.
    #[tactic(auto, using(crate::proofs::KeptProcedures::no_slots), unfolding(crate::specs::KnownModules::data_of_stream))]
    fn try_from_module_info(
        alloc: Global,
        module_info: &'a I,
        line_data_size: u32,
    ) -> Result<BasicModuleInfo<'a, I>>
        ensures { Gives (λ m. m) ⊥ result (data_of_stream (I.held module_info.now)) }
    {
        let symbols = module_info.symbols()?;
        let procedures = Procedures::read(alloc, symbols)?;
        let bounds = procedure_bounds(alloc, procedures.as_slice())?;
        Ok(BasicModuleInfo {
            module_info,
            procedures,
            bounds,
            extended: None,
            kept_procedures: Vec::new(alloc),
            subsection_rows: SubsectionRows::new(alloc),
            line_data_size,
            extended_size: 0,
            procedures_size: 0,
            rows_size: 0,
        })
    }

    /// Forgets the cached data of procedures and the rows of subsections. Returns the approximate
    /// number of their bytes.
    #[tactic(auto, using(crate::proofs::KeptProcedures::nothing_kept))]
    pub(crate) fn forget_procedures(&mut self) -> u64
        ensures { self.new ≡ self.old }
    {
        empty_all(&mut self.kept_procedures);
        self.subsection_rows.forget();
        let bytes = self.procedures_size;
        self.procedures_size = 0;
        self.rows_size = 0;
        bytes
    }

    /// Forgets the cached rows of subsections. Returns the approximate number of their bytes.
    pub(crate) fn forget_rows(&mut self) -> u64
        ensures { self.new ≡ self.old }
    {
        self.subsection_rows.forget();
        let bytes = self.rows_size;
        self.procedures_size = self.procedures_size.saturating_sub(bytes);
        self.rows_size = 0;
        bytes
    }

    /// The lesser of `far` and the distance from a place to the next start or end of a procedure.
    #[tactic(auto, using(crate::proofs::BoundSteps::procedures_alike))]
    pub fn to_next_procedure(&self, place: PdbInternalSectionOffset, far: u32) -> u32
        ensures { result ≡ up_to_next
            (flat_map (bounds_of_procedure place) (self.now).procedures) place.offset far }
    {
        self.bounds.up_to_next(place, far)
    }

    /// The approximate number of bytes of memory that its stream's data and its procedures take.
    pub(crate) fn memory_size(&self) -> u64 {
        let bounds = memory_of(self.procedures.as_slice().len(), BOUNDS_SIZE);
        self.procedures.memory_size().saturating_add(bounds)
    }

    /// The approximate number of bytes of its cached procedures, and of the rows of subsections.
    pub(crate) fn procedures_size(&self) -> u64 {
        self.procedures_size
    }

    /// The approximate number of bytes of all its cached data.
    pub(crate) fn cached_size(&self) -> u64 {
        self.memory_size()
            .saturating_add(self.extended_size)
            .saturating_add(self.procedures_size)
    }

    /// Reads the line program and the inlinees, and caches them, unless they were cached before.
    /// Nothing is cached where they have a fault, or where memory is short. Returns the approximate
    /// number of bytes that were cached.
    ///
    /// # Errors
    /// `AllocError` when memory runs out.
    #[tactic(auto, using(crate::proofs::KeptProcedures::nothing_kept))]
    pub fn keep_extended(&mut self, alloc: Global) -> std::result::Result<u64, AllocError>
        ensures { self.new ≡ self.old }
    {
        if self.extended.is_some() {
            return Ok(0);
        }
        match read_extended(alloc, self.module_info) {
            Ok(extended) => {
                let count = self.procedures.as_slice().len();
                let bytes = extended_size(&extended, self.line_data_size, count);
                let subsections = extended.line_program.subsection_count();
                self.kept_procedures = empty_slots(alloc, count)?;
                self.subsection_rows = SubsectionRows::with_slots(alloc, subsections)?;
                self.extended = Some(extended);
                self.extended_size = bytes;
                Ok(bytes)
            }
            Err(Error::OutOfMemory) => Err(AllocError),
            Err(_) => Ok(0),
        }
    }

    /// The line program and the inlinees, if they are cached.
    pub fn extended(&self) -> Option<&ExtendedModuleInfo<'a>>
        ensures { AreExtendedHere (self.now).stream result }
    {
        self.extended.as_ref()
    }

    /// Reads the line rows and the inline sites of the procedure with that index, if line program
    /// and inlinees are cached, and caches them, unless they were cached before. Rows or sites
    /// aren't cached where they have a fault, or where memory is short. After a fault of the rows
    /// no sites are read. Returns the approximate number of bytes that were cached.
    ///
    /// # Errors
    /// `AllocError` when memory runs out.
    pub fn keep_rows_and_sites(
        &mut self,
        alloc: Global,
        number: usize,
    ) -> std::result::Result<u64, AllocError>
        ensures { self.new ≡ self.old }
    {
        if self.has_rows_and_sites(number) {
            return Ok(0);
        }
        let Some(procedure) = self.procedures.as_slice().get(number) else {
            return Ok(0);
        };
        let start = procedure.offset;
        let bytes = self.keep_rows(alloc, start)?;
        let more = self.keep_sites(alloc, number)?;
        Ok(bytes.saturating_add(more))
    }

    /// Whether the inline sites of the procedure with that index are cached, and its line rows.
    fn has_rows_and_sites(&self, number: usize) -> bool {
        match slot_at(&self.kept_procedures, number) {
            Some(Some(data)) => self.subsection_rows.get(data.subsection).is_some(),
            _ => false,
        }
    }

    /// Reads the inline sites of the procedure with that index, if its line rows are cached, and
    /// caches them, unless they were cached before. Nothing is cached where they have a fault, or
    /// where memory is short. Returns the approximate number of bytes that were cached.
    #[tactic(auto, using(crate::proofs::KeptProcedures::kept_now))]
    fn keep_sites(&mut self, alloc: Global, number: usize) -> std::result::Result<u64, AllocError>
        ensures { self.new ≡ self.old }
    {
        if !has_empty_slot(&self.kept_procedures, number) {
            return Ok(0);
        }
        match self.read_procedure(alloc, number)? {
            None => Ok(0),
            Some(data) => {
                let bytes = data.memory_size();
                self.procedures_size = self.procedures_size.saturating_add(bytes);
                self.kept_procedures[number] = Some(data);
                Ok(bytes)
            }
        }
    }

    /// The data to be cached of the procedure with that index; `None` where line program and
    /// inlinees aren't cached, where there is no such procedure, where its line rows aren't cached,
    /// and where its sites have a fault.
    fn read_procedure(
        &self,
        alloc: Global,
        number: usize,
    ) -> std::result::Result<Option<Box<KeptProcedure<'a>>>, AllocError>
        ensures { IfOk result (λ d. IfSome d
            (λ info. IsOfStream (self.now).stream (box_value info))) }
    {
        let Some(extended) = self.extended() else {
            return Ok(None);
        };
        let Some(procedure) = self.procedures.as_slice().get(number) else {
            return Ok(None);
        };
        let subsection = extended.line_program.subsection_number(procedure.offset);
        if self.subsection_rows.get(subsection).is_none() {
            return Ok(None);
        }
        match procedure_ranges(alloc, self.module_info, extended, procedure) {
            Ok(ranges) => {
                let data = Box::new(alloc, KeptProcedure::new(procedure, subsection, ranges))?;
                Ok(Some(data))
            }
            Err(pdb_resolving::Error::OutOfMemory) => Err(AllocError),
            Err(_) => Ok(None),
        }
    }

    /// The data that are cached at a procedure's index, if they are the procedure's own.
    fn kept_procedure(&self, number: usize, procedure: &Procedure<'_>) -> Option<&KeptProcedure<'a>>
        ensures { IsKeptOf (self.now).stream procedure.now result }
    {
        match slot_at(&self.kept_procedures, number) {
            Some(Some(data)) if data.is_of(procedure) => Some(data.as_ref()),
            _ => None,
        }
    }

    /// The line rows and the inline sites of a procedure with that index, if they are cached.
    pub fn extended_procedure(
        &self,
        number: usize,
        procedure: &Procedure<'_>,
    ) -> Option<LentProcedure<'_, 'a>>
        ensures { IsLentOf (self.now).stream procedure.now result }
    {
        let kept = self.kept_procedure(number, procedure)?;
        let rows = self.subsection_rows.get(kept.subsection)?;
        Some(LentProcedure {
            rows,
            ranges: &kept.ranges,
        })
    }

    /// The number of the `DEBUG_S_LINES` of the function that begins at a place, if line program
    /// and inlinees are cached.
    fn subsection_if_cached(&self, start: PdbInternalSectionOffset) -> Option<usize>
        ensures { IsNumberAt (self.now).stream start result }
    {
        match self.extended() {
            None => None,
            Some(extended) => Some(extended.line_program.subsection_number(start)),
        }
    }

    /// Reads the line rows of the function that begins at a place, if line program and inlinees are
    /// cached, and caches them for all functions of their `DEBUG_S_LINES`, unless they were cached
    /// before. Nothing is cached where they have a fault, or where memory is short. Returns the
    /// approximate number of bytes that were cached.
    ///
    /// # Errors
    /// `AllocError` when memory runs out.
    pub fn keep_rows(
        &mut self,
        alloc: Global,
        start: PdbInternalSectionOffset,
    ) -> std::result::Result<u64, AllocError>
        ensures { self.new ≡ self.old }
    {
        let Some(number) = self.subsection_if_cached(start) else {
            return Ok(0);
        };
        if self.subsection_rows.get(number).is_some() {
            return Ok(0);
        }
        match self.rows_if_readable(alloc, start)? {
            None => Ok(0),
            Some(rows) => {
                let bytes = rows.memory_size().saturating_add(SUBSECTION_ROWS_SIZE);
                let rows = Box::new(alloc, rows)?;
                self.procedures_size = self.procedures_size.saturating_add(bytes);
                self.rows_size = self.rows_size.saturating_add(bytes);
                self.subsection_rows.keep_subsection(number, rows);
                Ok(bytes)
            }
        }
    }

    /// The line rows of the function that begins at a place; `None` where line program and inlinees
    /// aren't cached, and where the rows have a fault.
    fn rows_if_readable(
        &self,
        alloc: Global,
        start: PdbInternalSectionOffset,
    ) -> std::result::Result<Option<FunctionRows>, AllocError>
        ensures { IfOk result (λ r. IfSome r (λ rows. AreRowsAt (self.now).stream start rows)) }
    {
        let Some(extended) = self.extended() else {
            return Ok(None);
        };
        match FunctionRows::read(alloc, &extended.line_program, start) {
            Ok(rows) => Ok(Some(rows)),
            Err(Error::OutOfMemory) => Err(AllocError),
            Err(_) => Ok(None),
        }
    }

    /// The line rows of the function that begins at a place, if they are cached.
    pub fn public_rows(&self, start: PdbInternalSectionOffset) -> Option<&FunctionRows>
        ensures { AreLentAt (self.now).stream start result }
    {
        let number = self.subsection_if_cached(start)?;
        self.subsection_rows.get(number)
    }
}

/// Whether the slot with that number is there and empty.
fn has_empty_slot(slots: &[Option<Box<KeptProcedure<'_>>>], number: usize) -> bool
    ensures { (result ≡ true) ↔ (slice_get slots.now number ≡ Some None) }
{
    matches!(slots.get(number), Some(None))
}

/// The data of a module's stream; `None` where its symbols can't be read to their end.
fn data_if_read<'a, I: ModuleTables>(
    alloc: Global,
    module_info: &'a I,
    line_data_size: u32,
) -> std::result::Result<Option<BasicModuleInfo<'a, I>>, AllocError>
    ensures { IfOk result (λ m. m ≡ data_if_there (Some (I.held module_info.now))) }
{
    match BasicModuleInfo::try_from_module_info(alloc, module_info, line_data_size) {
        Ok(data) => Ok(Some(data)),
        Err(Error::OutOfMemory) => Err(AllocError),
        Err(_) => Ok(None),
    }
}

/// The data of the module with that index, counted from 0; `None` past the list, where it has no
/// stream, and where its stream or its symbols can't be read to the end.
///
/// # Errors
/// `AllocError` when memory runs out.
pub fn get_basic_module_info<'a, P: ModuleProvider>(
    alloc: Global,
    provider: &'a P,
    modules: &[Module<'_>],
    module_index: usize,
) -> std::result::Result<Option<BasicModuleInfo<'a, P::Info>>, AllocError>
    ensures { IfOk result (λ m. m
        ≡ module_data (own_of (P.provided provider.now) modules.now module_index)) }
{
    let Some(module) = modules.get(module_index) else {
        return Ok(None);
    };
    match provider.get_module_info(module_index, module) {
        Ok(Some(module_info)) => { data_if_read(alloc, module_info, module.c13_lines_size()) }
        Ok(None) => Ok(None),
        Err(Error::OutOfMemory) => Err(AllocError),
        Err(_) => Ok(None),
    }
}

/// A module's line program (`DEBUG_S_LINES`, `DEBUG_S_FILECHKSMS`) and inlinees
/// (`DEBUG_S_INLINEELINES`).
#[derive(Drop)]
pub struct ExtendedModuleInfo<'a> {
    /// The line program.
    pub line_program: LineProgram<'a>,
    /// The inlinees, by their ids.
    pub inlinees: Inlinees<'a>,
}

/// The approximate number of bytes of memory that line program and inlinees of a module take, at
/// most, with the slots for the data of so many procedures. A subsection of 20 bytes or more takes
/// 32, and 8 for the slot of its rows.
fn extended_size(extended: &ExtendedModuleInfo<'_>, line_data_size: u32, count: usize) -> u64 {
    let lines = u64::from(line_data_size) * 2;
    let slots = memory_of(count, size_of::<usize>());
    lines
        .saturating_add(extended.inlinees.memory_size())
        .saturating_add(slots)
}

/// The line program of a module, and then its inlinees, each to its end.
///
/// # Errors
/// The faults of [`ModuleTables::line_program`] and [`ModuleTables::inlinees`], `UnexpectedEof`;
/// `OutOfMemory`.
#[tactic(auto, unfolding(crate::specs::KnownModules::extended_of))]
pub fn read_extended<'a, I: ModuleTables>(
    alloc: Global,
    module_info: &'a I,
) -> Result<ExtendedModuleInfo<'a>>
    ensures { Gives extended_seen ⊥ result (extended_of (I.held module_info.now)) }
{
    let line_program = module_info.line_program(alloc)?;
    let inlinees = Inlinees::read(alloc, module_info.inlinees()?)?;
    Ok(ExtendedModuleInfo {
        line_program,
        inlinees,
    })
}

/// The procedures of a module; none without data.
pub fn procedures_in<'m, 'a, I: ModuleTables>(
    known: &'m Option<BasicModuleInfo<'a, I>>,
) -> &'m [Procedure<'a>]
    ensures { result.now ≡ procedures_of_module known.now }
{
    match known {
        None => &[],
        Some(known) => known.procedures.as_slice(),
    }
}

/// The index of the procedure of a module over a place, counted from 0 in the order of the module's
/// procedures; none without data.
pub fn number_over<'a, I: ModuleTables>(
    known: Option<&BasicModuleInfo<'a, I>>,
    place: PdbInternalSectionOffset,
) -> Option<usize>
    ensures { IsNumberOver (procedures_of_module (option_copied known.entry)) place result }
{
    match known {
        None => None,
        Some(known) => known.procedures.number_covering(place),
    }
}

/// The procedure with that index in a module; none without data.
pub fn procedure_numbered<'m, 'a, I: ModuleTables>(
    known: Option<&'m BasicModuleInfo<'a, I>>,
    number: usize,
) -> Option<&'m Procedure<'a>>
    ensures { option_map (λ q. q.now) result
        ≡ slice_get (procedures_of_module (option_copied known.entry)) number }
{
    match known {
        None => None,
        Some(known) => known.procedures.as_slice().get(number),
    }
}
