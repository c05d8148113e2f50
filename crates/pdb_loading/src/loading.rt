//! The order of loading: a file is opened, and read up to what answers go over, step by step. The
//! first step that fails has the file's fault.

ghost use Rattle.std.specs.Prelude.{◌≡◌, true, false, IfOk, OnOk, IfErr, None};
ghost use Rattle.pdb_addresses.specs.Addresses.{IsOrdered, is_ordered};
ghost use Rattle.pdb_loading.specs.declared.load_fault.LoadFault.TheVariants as faults;
ghost use Rattle.pdb_loading.specs.declared.order.ContributionOrder.{ContributionOrder as Order};
ghost use Rattle.pdb_loading.specs.LoadedFile.{AreInOrder, IsHeld, IsLoadedWith};
ghost use Rattle.pdb_loading.specs.LoadFaults.{FailsLoading, Refuses};
ghost use Rattle.pdb_loading.specs.Loading.{loaded_with, load_fault_with};
ghost use Rattle.pdb_symbols_modules.specs.Shared.{shared};
ghost use Rattle.pdb_symbols_modules.specs.Streams.{streams};

use crate::held_database::{HeldDatabase, hold_after_tables};
use crate::load_fault::LoadFault;
use crate::order::ContributionOrder;
use crate::tables::{Tables, read_tables};
use pdb_addresses::AddressMap;
use pdb_file_views::FileSource;
use pdb_symbols_modules::{DebugInformation, PDB};
use std::alloc::Global;
use std::marker::Model;

/// An open program database over a file's bytes.
type FileDatabase = PDB<'static, FileSource>;

/// A file whose database is held: all was read that is read before the parts are made. Its value in
/// contracts is the file's bytes.
pub struct HeldFile {
    /// The file's bytes.
    pub file: FileSource,
    /// The database, from which contexts are made.
    pub held: HeldDatabase<'static>,
}

impl Model for HeldFile {
    ghost use Rattle.std.specs.Prelude.{List, ℕ};
    ghost use Rattle.pdb_loading.specs.LoadedFile.{IsHeld};

    ghost Value = { List ℕ };

    ghost view = { λ f. f.file };

    ghost invariant = { λ f. IsHeld f.file f.held };
}

impl Drop for HeldFile {
    fn drop(self) {
        let HeldFile { file, held } = self;
        drop(file);
        drop(held);
    }
}

impl HeldFile {
    /// The file's bytes, and its database.
    pub fn into_parts(self) -> (FileSource, HeldDatabase<'static>)
        ensures file { result.0 ≡ self }
        ensures held { IsHeld result.0 result.1 }
    {
        let HeldFile { file, held } = self;
        (file, held)
    }
}

/// A file that was loaded: its bytes, the order in which its section contributions have to stand,
/// and its database, which is held. Its value in contracts is the file's bytes, with this order.
pub struct LoadedFile {
    /// The file's bytes.
    pub file: FileSource,
    /// The order in which section contributions have to stand.
    pub order: ContributionOrder,
    /// The database, from which contexts are made.
    pub held: HeldDatabase<'static>,
}

impl Model for LoadedFile {
    ghost use Rattle.pdb_loading.specs.LoadedFile.{FileBytes, IsLoadedWith};

    ghost Value = { FileBytes };

    ghost view = { λ f. record { bytes = f.file; order = f.order } };

    ghost invariant = { λ f. IsLoadedWith f.order f.file f.held };
}

impl Drop for LoadedFile {
    fn drop(self) {
        let LoadedFile {
            file,
            order: _,
            held,
        } = self;
        drop(file);
        drop(held);
    }
}

impl LoadedFile {
    /// The file's bytes, and its database.
    pub fn into_parts(self) -> (FileSource, HeldDatabase<'static>)
        ensures file { result.0 ≡ self.bytes }
        ensures held { IsLoadedWith self.order result.0 result.1 }
    {
        let LoadedFile {
            file,
            order: _,
            held,
        } = self;
        (file, held)
    }
}

/// Checks that the sources of no OMAP decrease, and takes no memory for it.
fn check_order(map: &AddressMap<'_>) -> Result<(), LoadFault>
    ensures ok { OnOk result ((is_ordered map.now ≡ true) × IsOrdered map.now) }
    ensures err { IfErr result
        (λ e. (e ≡ faults.AddressTableDecreases) × (is_ordered map.now ≡ false)) }
{
    if !map.is_ordered() {
        return Err(LoadFault::AddressTableDecreases);
    }
    Ok(())
}

/// Reads stream 3 and its tables. The first fault of these; `AddressTableDecreases` where the
/// sources of an OMAP decrease; `OutOfMemory`.
fn read_in_order(
    alloc: Global,
    pdb: &mut FileDatabase,
) -> Result<(DebugInformation<'static>, Tables<'static>), LoadFault>
    requires { (streams pdb.old).open_fault ≡ None }
    ensures same { OnOk result (pdb.new ≡ pdb.old) }
    ensures read { IfOk result (λ read. AreInOrder (streams pdb.old) read.0 read.1) }
    ensures err { (order : Order)
        → IfErr result (λ e. FailsLoading e (loaded_with order (shared (streams pdb.old)))) }
{
    let debug_information = pdb.debug_information(alloc)?;
    let tables = read_tables(pdb, alloc, &debug_information)?;
    match check_order(&tables.address_map) {
        Ok(()) => Ok((debug_information, tables)),
        Err(fault) => Err(fault),
    }
}

/// Reads everything from which contexts are made.
fn read_held(alloc: Global, mut pdb: FileDatabase) -> Result<HeldDatabase<'static>, LoadFault>
    requires { (streams pdb).open_fault ≡ None }
    ensures held { IfOk result (λ held. IsHeld pdb.entry held) }
    ensures err { (order : Order) → IfErr result
        (λ e. FailsLoading e (loaded_with order (shared (streams pdb.entry)))) }
{
    let (debug_information, tables) = read_in_order(alloc, &mut pdb)?;
    let held = hold_after_tables(alloc, pdb, debug_information, tables)?;
    Ok(held)
}

/// Opens the program database of a file's bytes, which are shared.
fn open_file(alloc: Global, file: &FileSource) -> Result<FileDatabase, LoadFault>
    ensures ok { IfOk result (λ p. (p ≡ file.now) × ((streams file.now).open_fault ≡ None)) }
    ensures refused { (order : Order)
        → IfErr result (λ e. Refuses e (load_fault_with order (streams file.now))) }
{
    let file = file.share(file.limits())?;
    Ok(PDB::open(alloc, file)?)
}

/// Opens the program database of a file's bytes and holds it: all is read that is read before the
/// parts are made. Neither the symbol records nor the section contributions are gone over.
///
/// # Errors
/// As [`load_file`], but for the faults of the symbol records and the section contributions.
pub fn hold_file(alloc: Global, file: FileSource) -> Result<HeldFile, LoadFault>
    ensures ok { IfOk result (λ f. f ≡ file) }
    ensures refused { (order : Order)
        → IfErr result (λ e. Refuses e (load_fault_with order (streams file))) }
{
    let pdb = open_file(alloc, &file)?;
    match read_held(alloc, pdb) {
        Ok(held) => Ok(HeldFile { file, held }),
        Err(fault) => Err(fault),
    }
}

/// Opens the program database of a file's bytes and loads it: everything that keeps the file from
/// being answered is found here, and what answers need is read, but for the modules' own streams:
/// each is read when it is first asked for. Section contributions have to stand in this order.
///
/// # Errors
/// The first fault, in the order in which a file is read: the container; stream 3 and its header;
/// the stream of symbol records, types and ids with their headers; the address tables;
/// `AddressTableDecreases` where the sources of an OMAP decrease; the module list; the symbol
/// records to their end; the section contributions. `OutOfMemory`.
pub fn load_file(
    alloc: Global,
    file: FileSource,
    order: ContributionOrder,
) -> Result<LoadedFile, LoadFault>
    ensures ok { IfOk result (λ f. (f.bytes ≡ file) × (f.order ≡ order)) }
    ensures loaded { OnOk result (load_fault_with order (streams file) ≡ None) }
    ensures refused { IfErr result (λ e. Refuses e (load_fault_with order (streams file))) }
{
    match hold_file(alloc, file) {
        Ok(file) => check_held(alloc, file, order),
        Err(fault) => Err(fault),
    }
}

/// Checks the parts of a file that is held, the last step of loading it.
///
/// # Errors
/// As [`HeldDatabase::check_parts`].
#[tactic(auto, using(crate::proofs::LoadingSteps::parts_checked_load, crate::proofs::LoadingSteps::parts_checked_refuse))]
fn check_held(
    alloc: Global,
    file: HeldFile,
    order: ContributionOrder,
) -> Result<LoadedFile, LoadFault>
    ensures ok { IfOk result (λ f. (f.bytes ≡ file) × (f.order ≡ order)) }
    ensures loaded { OnOk result (load_fault_with order (streams file) ≡ None) }
    ensures refused { IfErr result (λ e. Refuses e (load_fault_with order (streams file))) }
{
    let (file, held) = file.into_parts();
    match held.check_parts(alloc, order) {
        Ok(()) => Ok(LoadedFile { file, order, held }),
        Err(error) => Err(LoadFault::from(error)),
    }
}
