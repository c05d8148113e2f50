//! A database that is held: the streams that are read in the order of loading, the names of files
//! and modules, and the modules' own streams.

ghost use Rattle.std.specs.Prelude.{◌≡◌, IfOk, Ok};
ghost use Rattle.pdb_frames.specs.PartsSeen.{Checks, ChecksInAnyOrder};
ghost use Rattle.pdb_container.specs.Fault.{Gives, HasRisen};
ghost use Rattle.pdb_loading.specs.Held.{IsOwn, listed_infos, names_in, parts_checked, read_in};
ghost use Rattle.pdb_loading.specs.StreamReads.{Holds, IsOwnFrom};
ghost use Rattle.pdb_loading.specs.Loading.{database_read, listed, read_after};
ghost use Rattle.pdb_loading.specs.ModuleInfos.{KeepsNames};
ghost use Rattle.pdb_loading.specs.Orders.{checked_in_any_order as checked};
ghost use Rattle.pdb_symbols_modules.specs.DatabaseCalls.{debug_information as read_dbi};
ghost use Rattle.pdb_symbols_modules.specs.Shared.{shared};
ghost use Rattle.pdb_symbols_modules.specs.Streams.{streams};

use crate::file_modules::FileModules;
use crate::module_infos::{KeptModules, collect_modules, read_module_infos};
use crate::order::ContributionOrder;
use crate::tables::{Tables, read_names, read_tables};
use pdb_addresses::ImageSectionHeader;
use pdb_container::{Result, Source, StringTable};
use pdb_contributions::{check_symbols, compute_section_contributions_in_any_order};
use pdb_file_views::FileSource;
use pdb_frames::ContextParts;
use pdb_resolving::Error;
use pdb_symbol_records::SymbolTable;
use pdb_symbols_modules::{DebugInformation, PDB};
use std::alloc::Global;
use std::marker::Model;

/// A database that is held: everything that contexts and formatters go over, read once. A file's
/// modules are read when they are first asked for.
pub struct HeldDatabase<'s> {
    /// Stream 3 (DBI).
    pub debug_information: DebugInformation<'s>,
    /// The tables that are read after stream 3.
    pub tables: Tables<'s>,
    /// The names of files and modules (`/names`), if they can be read.
    pub names: Option<StringTable<'s>>,
    /// The modules' own streams.
    pub modules: KeptModules<'s>,
}

impl<'s> Model for HeldDatabase<'s> {
    ghost use Rattle.std.specs.Prelude.{◌≡◌, None};
    ghost use Rattle.pdb_symbols_modules.specs.Modules.{modules_of};
    ghost use Rattle.pdb_loading.specs.Held as held;

    ghost Value = { held.Held };

    ghost view = { λ d. record {
      debug_information = d.debug_information;
      tables = d.tables;
      names = d.names;
      infos = d.modules;
    } };

    // The module list is there to its end.
    ghost invariant = { λ d. (modules_of d.debug_information.modules).fault ≡ None };
}

impl<'s> Drop for HeldDatabase<'s> {
    fn drop(self) {
        let HeldDatabase {
            debug_information,
            tables,
            names,
            modules,
        } = self;
        drop(debug_information);
        drop(tables);
        drop(names);
        drop(modules);
    }
}

/// Reads all that comes after stream 3 and its tables: the module list, the modules' own streams
/// and the names table.
///
/// # Errors
/// `UnexpectedEof` of the module list; `OutOfMemory`. The names table and the modules' own streams
/// are missing where they can't be read.
#[tactic(auto, using(pdb_container::proofs::Outside::outside_alone, pdb_container::proofs::Outside::outside_earlier, pdb_container::proofs::Outside::outside_later, crate::proofs::HeldSteps::list_ends, crate::proofs::HeldSteps::own_held))]
pub fn read_after_tables<'s, S: Source + Drop>(
    pdb: &mut PDB<'s, S>,
    alloc: Global,
    debug_information: DebugInformation<'s>,
    tables: Tables<'s>,
) -> Result<HeldDatabase<'s>>
    requires { read_dbi (shared (streams (S.bytes pdb.old))) ≡ Ok debug_information }
    ensures loads { Holds S.bytes S.failures pdb.old pdb.new result
        (read_after debug_information.entry tables.entry) }
    ensures own { IfOk result (IsOwnFrom S.bytes S.failures pdb.old pdb.new) }
{
    let module_infos = read_module_infos(pdb, alloc, &debug_information)?;
    let names = read_names(pdb, alloc)?;
    Ok(HeldDatabase {
        debug_information,
        tables,
        names,
        modules: KeptModules::new(module_infos, pdb.size_hint()),
    })
}

/// Reads a database that is open: stream 3, its tables, and the module list, whose first fault is
/// the answer; then the modules' own streams and the names table.
///
/// # Errors
/// The first fault of stream 3 and its header, of [`read_tables`], and of [`read_after_tables`].
#[tactic(auto, using(pdb_container::proofs::Outside::outside_alone, pdb_container::proofs::Outside::outside_earlier, pdb_container::proofs::Outside::outside_later), unfolding(crate::specs::Loading::database_read))]
pub fn read_database<'s, S: Source + Drop>(
    pdb: &mut PDB<'s, S>,
    alloc: Global,
) -> Result<HeldDatabase<'s>>
    ensures loads { Holds S.bytes S.failures pdb.old pdb.new result
        (database_read (shared (streams (S.bytes pdb.old)))) }
    ensures own { IfOk result (IsOwnFrom S.bytes S.failures pdb.old pdb.new) }
{
    let debug_information = pdb.debug_information(alloc)?;
    let tables = read_tables(pdb, alloc, &debug_information)?;
    read_after_tables(pdb, alloc, debug_information, tables)
}

/// Reads all that comes after stream 3 and its tables of a file, and holds the file: the module
/// list and the names table. The modules' own streams are read when they are asked for.
///
/// # Errors
/// `UnexpectedEof` of the module list; `OutOfMemory`. The names table is missing where it can't be
/// read.
#[tactic(auto, using(crate::proofs::HeldSteps::list_ends, crate::proofs::HeldSteps::own_listed))]
pub fn hold_after_tables<'s>(
    alloc: Global,
    pdb: PDB<'s, FileSource>,
    debug_information: DebugInformation<'s>,
    tables: Tables<'s>,
) -> Result<HeldDatabase<'s>>
    requires { read_dbi (shared (streams pdb)) ≡ Ok debug_information }
    ensures loads { Gives read_in (HasRisen 0 0) result
        (read_after debug_information.entry tables.entry) }
    ensures own { IfOk result (λ d. IsOwn (streams pdb.entry) (HasRisen 0 0) d) }
{
    let (names, modules) = names_and_modules(alloc, pdb, &debug_information)?;
    Ok(HeldDatabase {
        debug_information,
        tables,
        names,
        modules,
    })
}

/// The names table of a file and its modules, from the list in stream 3, which was read. None of
/// the modules' streams is read.
///
/// # Errors
/// As [`hold_after_tables`].
#[tactic(auto, using(crate::proofs::OpenFiles::open_where_read, crate::proofs::HeldSteps::list_there))]
fn names_and_modules<'s>(
    alloc: Global,
    mut pdb: PDB<'s, FileSource>,
    debug_information: &DebugInformation<'_>,
) -> Result<(Option<StringTable<'s>>, KeptModules<'s>)>
    requires { read_dbi (shared (streams pdb)) ≡ Ok debug_information.now }
    ensures whole_list { Gives (λ _. tt) ⊥ result (listed debug_information.now) }
    ensures names { IfOk result
        (λ kept. KeepsNames (HasRisen 0 0) kept.0 (names_in (streams pdb.entry))) }
    ensures modules { IfOk result (λ kept. kept.1
        ≡ listed_infos debug_information.now (streams pdb.entry)) }
{
    let entries = collect_modules(alloc, debug_information.modules())?;
    let names = read_names(&mut pdb, alloc)?;
    let size = pdb.size_hint();
    let modules = FileModules::new(alloc, pdb, entries.as_slice())?;
    Ok((names, KeptModules::on_demand(modules, size)))
}

/// Reads a file's database that is open, as [`read_database`], and holds the file: the modules' own
/// streams are read when they are asked for.
///
/// # Errors
/// As [`read_database`].
#[tactic(auto, unfolding(crate::specs::Loading::database_read))]
pub fn hold_database<'s>(alloc: Global, mut pdb: PDB<'s, FileSource>) -> Result<HeldDatabase<'s>>
    ensures loads { Gives read_in (HasRisen 0 0) result
        (database_read (shared (streams pdb.entry))) }
    ensures own { IfOk result (λ d. IsOwn (streams pdb.entry) (HasRisen 0 0) d) }
{
    let debug_information = pdb.debug_information(alloc)?;
    let tables = read_tables(&mut pdb, alloc, &debug_information)?;
    hold_after_tables(alloc, pdb, debug_information, tables)
}

/// Reads the symbol records to their end, and then the section contributions of the DBI stream,
/// which may stand in any order. It stores nothing.
#[tactic(auto, using(pdb_resolving::proofs::Lifting::parsed_fails_on, pdb_resolving::proofs::Lifting::fails_on), unfolding(crate::specs::Orders::checked_in_any_order))]
fn read_in_any_order(
    alloc: Global,
    sections: &[ImageSectionHeader],
    symbol_records: &SymbolTable<'_>,
    debug_information: &DebugInformation<'_>,
) -> std::result::Result<(), Error>
    ensures { Checks result
        (checked sections.now symbol_records.now debug_information.now.contributions) }
{
    check_symbols(symbol_records.iter())?;
    compute_section_contributions_in_any_order(alloc, debug_information, sections)?;
    Ok(())
}

/// Checks that the parts that every question goes over can be made where section contributions may
/// stand in any order, whatever the address map and the names are.
#[tactic(auto, using(crate::proofs::CheckedParts::as_checked))]
fn check_in_any_order(
    alloc: Global,
    sections: &[ImageSectionHeader],
    symbol_records: &SymbolTable<'_>,
    debug_information: &DebugInformation<'_>,
) -> std::result::Result<(), Error>
    ensures { ChecksInAnyOrder sections.now symbol_records.now debug_information.now.contributions
        result }
{
    read_in_any_order(alloc, sections, symbol_records, debug_information)
}

impl<'s> HeldDatabase<'s> {
    /// Checks that a context can be made, where section contributions have to stand in this order:
    /// the symbol records are gone over to their end, and the section contributions are merged.
    ///
    /// # Errors
    /// As [`ContextParts::new`]; in any order as [`ContextParts::in_any_order`].
    pub fn check_parts(
        &self,
        alloc: Global,
        order: ContributionOrder,
    ) -> std::result::Result<(), Error>
        ensures { Checks result (parts_checked order self.now) }
    {
        let sections = self.tables.address_map.image_section_headers();
        let symbol_records = &self.tables.symbol_records;
        let debug_information = &self.debug_information;
        match order {
            ContributionOrder::InOrder => {
                ContextParts::check(alloc, sections, symbol_records, debug_information)
            }
            ContributionOrder::Any => {
                check_in_any_order(alloc, sections, symbol_records, debug_information)
            }
        }
    }
}
