//! The tables that are read of a database besides its modules, in the order of loading.

ghost use Rattle.std.specs.Prelude.{◌≡◌, Ok};
ghost use Rattle.pdb_loading.specs.Held.{names_in};
ghost use Rattle.pdb_loading.specs.ModuleInfos.{KeepsNames};
ghost use Rattle.pdb_loading.specs.StreamReads.{AnswersBy, KeepsBy, map_by, symbols_by, tables_by};
ghost use Rattle.pdb_symbols_modules.specs.DatabaseCalls.{debug_information as read_dbi};
ghost use Rattle.pdb_symbols_modules.specs.Shared.{shared};
ghost use Rattle.pdb_symbols_modules.specs.Streams.{streams};

use pdb_addresses::AddressMap;
use pdb_container::{Error, Result, Source, StringTable};
use pdb_container_types::{IdInformation, TypeInformation};
use pdb_symbol_records::SymbolTable;
use pdb_symbols_modules::{DebugInformation, PDB};
use std::alloc::Global;
use std::marker::Model;

/// The tables that are read after stream 3 (DBI): symbol records, types, ids, and the address map.
pub struct Tables<'s> {
    /// The symbol records: public and global symbols of all modules.
    pub symbol_records: SymbolTable<'s>,
    /// The table of types.
    pub types: TypeInformation<'s>,
    /// The table of ids.
    pub ids: IdInformation<'s>,
    /// The address map, between addresses of the image and places in sections.
    pub address_map: AddressMap<'s>,
}

impl<'s> Model for Tables<'s> {
    ghost use Rattle.pdb_loading.specs.Loading as loading;

    ghost Value = { loading.Tables };

    ghost view = { λ t. record {
      symbol_records = t.symbol_records;
      types = t.types;
      ids = t.ids;
      map = t.address_map;
    } };
}

impl<'s> Drop for Tables<'s> {
    fn drop(self) {
        let Tables {
            symbol_records,
            types,
            ids,
            address_map,
        } = self;
        drop(symbol_records);
        drop(types);
        drop(ids);
        drop(address_map);
    }
}

/// The symbol records, found by what was read of stream 3.
#[tactic(auto, using(pdb_symbols_modules::proofs::SharedSteps::symbols_alike))]
fn read_symbol_records<'s, S: Source + Drop>(
    pdb: &mut PDB<'s, S>,
    alloc: Global,
    debug_information: &DebugInformation<'_>,
) -> Result<SymbolTable<'s>>
    requires { read_dbi (shared (streams (S.bytes pdb.old))) ≡ Ok debug_information.now }
    ensures { AnswersBy S.bytes S.failures pdb.old pdb.new (λ t. t) result
        (symbols_by debug_information.now) }
{
    pdb.global_symbols_by(alloc, debug_information)
}

/// The address map, found by what was read of stream 3.
#[tactic(auto, using(pdb_symbols_modules::proofs::SharedSteps::address_map_alike))]
fn read_address_map<'s, S: Source + Drop>(
    pdb: &mut PDB<'s, S>,
    alloc: Global,
    debug_information: &DebugInformation<'_>,
) -> Result<AddressMap<'s>>
    requires { read_dbi (shared (streams (S.bytes pdb.old))) ≡ Ok debug_information.now }
    ensures { AnswersBy S.bytes S.failures pdb.old pdb.new (λ m. m) result
        (map_by debug_information.now) }
{
    pdb.address_map_by(alloc, debug_information)
}

/// Reads the tables after stream 3: the symbol records, types, ids and address tables, in this
/// order.
///
/// # Errors
/// The first fault: `GlobalSymbolsNotFound` and the faults of the symbol records' stream; of types
/// and ids with their headers; of the optional header, the section headers and the OMAPs.
/// `OutOfMemory`.
#[tactic(auto, using(pdb_container::proofs::Outside::outside_earlier, pdb_container::proofs::Outside::outside_later), unfolding(crate::specs::Loading::tables))]
pub fn read_tables<'s, S: Source + Drop>(
    pdb: &mut PDB<'s, S>,
    alloc: Global,
    debug_information: &DebugInformation<'_>,
) -> Result<Tables<'s>>
    requires { read_dbi (shared (streams (S.bytes pdb.old))) ≡ Ok debug_information.now }
    ensures { AnswersBy S.bytes S.failures pdb.old pdb.new (λ t. t) result
        (tables_by debug_information.now) }
{
    let symbol_records = read_symbol_records(pdb, alloc, debug_information)?;
    let types = pdb.type_information(alloc)?;
    let ids = pdb.id_information(alloc)?;
    let address_map = read_address_map(pdb, alloc, debug_information)?;
    Ok(Tables {
        symbol_records,
        types,
        ids,
        address_map,
    })
}

/// The names of files and modules (`/names`); `None` where they can't be read.
///
/// # Errors
/// `OutOfMemory` alone.
#[tactic(auto, using(crate::proofs::KeptSteps::names_missing, crate::proofs::KeptSteps::names_there))]
pub(crate) fn read_names<'s, S: Source + Drop>(
    pdb: &mut PDB<'s, S>,
    alloc: Global,
) -> Result<Option<StringTable<'s>>>
    ensures { KeepsBy S.bytes S.failures pdb.old pdb.new KeepsNames (λ n. n) result names_in }
{
    match pdb.string_table(alloc) {
        Ok(names) => Ok(Some(names)),
        Err(Error::OutOfMemory) => Err(Error::OutOfMemory),
        Err(_) => Ok(None),
    }
}
