//! The modules' own streams, each read once and stored with its fault.

ghost use Rattle.std.specs.Prelude.{ℕ, ◌≡◌, ◌≤◌, length, IfOk, IsOkUnless, Ok, None, option_copied};
ghost use Rattle.pdb_loading.specs.ModuleInfos.{answered_if_listed, kept_as};
ghost use Rattle.pdb_loading.specs.ModuleInfos.{KeepsInfo, KeepsInfos};
ghost use Rattle.pdb_loading.specs.Loading.{listed};
ghost use Rattle.pdb_loading.specs.Sharing.{SharesFrom, in_parts_of};
ghost use Rattle.pdb_loading.specs.StreamReads.{KeepsBy, KeepsListed, info_by, infos_by};
ghost use Rattle.pdb_container.specs.Fault.{Gives, kept_of};
ghost use Rattle.pdb_container.specs.Listing.{whole};
ghost use Rattle.pdb_symbols_modules.specs.DatabaseCalls.{debug_information as read_dbi};
ghost use Rattle.pdb_symbols_modules.specs.Shared.{shared};
ghost use Rattle.pdb_symbols_modules.specs.Streams.{streams};

use crate::file_modules::FileModules;
use pdb_container::{Error, FallibleIterator, ModuleFault, Result, Source};
use pdb_resolving::ModuleProvider;
use pdb_symbols_modules::{DebugInformation, Module, ModuleInfo, ModuleIter, PDB};
use std::alloc::Global;
use std::collections::BTreeMap;
use std::marker::Model;
use std::ops::Range;

/// The stored information of a module: its own stream, where it has one, or the fault in reading
/// it.
pub type KeptInfo<'s> = std::result::Result<Option<ModuleInfo<'s>>, ModuleFault>;

/// Modules in the order of the module list.
#[derive(Drop)]
enum ModuleStore<'s> {
    /// Modules that were read.
    Read(Vec<KeptInfo<'s>>),
    /// Modules of which each is read when it is first asked for.
    OnDemand(FileModules<'s>),
}

/// The modules' own streams, in the order of the module list, each with its fault in its place. A
/// file's modules are read when they are first asked for.
#[derive(Drop)]
pub struct KeptModules<'s> {
    modules: ModuleStore<'s>,
    /// An upper bound of the database's size, in bytes.
    database_size: u64,
}

impl<'s> Model for KeptModules<'s> {
    ghost use Rattle.std.specs.Prelude.{List};
    ghost use Rattle.pdb_loading.specs.KeptModules.{infos_of};
    ghost use Rattle.pdb_loading.specs.ModuleInfos as stored;

    ghost Value = { List stored.KeptInfo };

    ghost view = { λ m. infos_of m.modules };
}

impl<'s> KeptModules<'s> {
    /// The modules of these streams, in a database of at most so many bytes ([`PDB::size_hint`]).
    pub fn new(infos: Vec<KeptInfo<'s>>, database_size: u64) -> KeptModules<'s>
        ensures { result ≡ infos.entry.items }
    {
        KeptModules {
            modules: ModuleStore::Read(infos),
            database_size,
        }
    }

    /// The modules of a file of at most so many bytes, each of which is read when it is asked for.
    pub fn on_demand(modules: FileModules<'s>, database_size: u64) -> KeptModules<'s>
        ensures { result ≡ modules.entry }
    {
        KeptModules {
            modules: ModuleStore::OnDemand(modules),
            database_size,
        }
    }
}

impl<'s> KeptModules<'s> {
    /// Asks for the modules with these indices, and answers nothing: bytes that they lack of a file
    /// that is read on demand are wanted then.
    pub fn ask(&self, numbers: Range<usize>) {
        if let ModuleStore::OnDemand(modules) = &self.modules {
            modules.ask(numbers);
        }
    }

    /// The number of modules.
    pub fn len(&self) -> usize
        ensures { result ≡ length self.now }
    {
        match &self.modules {
            ModuleStore::Read(infos) => infos.len(),
            ModuleStore::OnDemand(modules) => modules.len(),
        }
    }
}

/// The answer for a module, from its stored information; a fault as `Kept`.
fn answer_of<'k, 's>(kept: Option<&'k KeptInfo<'s>>) -> Result<Option<&'k ModuleInfo<'s>>>
    ensures { Gives (λ info. option_copied info) ⊥ result
        (answered_if_listed (option_copied kept.entry)) }
{
    match kept {
        None => Ok(None),
        Some(Ok(None)) => Ok(None),
        Some(Ok(Some(info))) => Ok(Some(info)),
        Some(Err(fault)) => Err(Error::Kept(*fault)),
    }
}

/// A module goes by its number alone. The fault of its stream is answered as `Kept`.
impl<'s> ModuleProvider for KeptModules<'s> {
    ghost use Rattle.pdb_loading.specs.ModuleInfos.{answered_at};
    ghost use Rattle.pdb_loading.specs.Provided.{faults_kept};

    type Info = ModuleInfo<'s>;

    ghost provided = { λ m number entry. answered_at m number };

    fn get_module_info(
        &self,
        module_index: usize,
        _module: &Module<'_>,
    ) -> Result<Option<&ModuleInfo<'s>>> {
        match &self.modules {
            ModuleStore::Read(infos) => answer_of(infos.get(module_index)),
            ModuleStore::OnDemand(modules) => answer_of(modules.get(module_index)?),
        }
    }

    fn size_hint(&self) -> u64 {
        self.database_size
    }

    ghost faults_of_modules = { λ m number entry. faults_kept m number };
}

/// The modules of a list, which is read to its end.
///
/// # Errors
/// `UnexpectedEof`; `OutOfMemory`.
#[tactic(auto, using(pdb_container::proofs::Listings::gather_start, pdb_container::proofs::Listings::gather_more, pdb_container::proofs::Listings::gather_end, pdb_container::proofs::Listings::gather_fault))]
pub fn collect_modules<'m>(alloc: Global, mut remaining: ModuleIter<'m>) -> Result<Vec<Module<'m>>>
    ensures { Gives (λ v. v.items) ⊥ result (whole remaining.entry) }
{
    let mut modules = Vec::new(alloc);
    while let Some(module) = remaining.next()? {
        modules.push(module)?;
    }
    Ok(modules)
}

/// The fault of a module's stream, as it is stored; any other error stays one.
pub(crate) fn keep<'s>(error: Error) -> Result<KeptInfo<'s>>
    ensures { result ≡ kept_as (kept_of error) }
{
    match ModuleFault::try_from(error) {
        Ok(fault) => Ok(Err(fault)),
        Err(error) => Err(error),
    }
}

/// A module's own stream, or the fault in reading it. `OutOfMemory` alone.
#[tactic(auto, using(crate::proofs::KeptSteps::info_kept, crate::proofs::KeptSteps::info_there, crate::proofs::OpenFiles::module_fails))]
fn read_info<'s, S: Source + Drop>(
    pdb: &mut PDB<'s, S>,
    alloc: Global,
    entry: &Module<'_>,
) -> Result<KeptInfo<'s>>
    requires { (streams (S.bytes pdb.old)).open_fault ≡ None }
    ensures { KeepsBy S.bytes S.failures pdb.old pdb.new KeepsInfo (λ k. k) result
        (info_by entry.now) }
{
    match pdb.module_info(alloc, entry) {
        Ok(info) => Ok(Ok(info)),
        Err(error) => keep(error),
    }
}

/// Streams of modules that were read, by their numbers, as they were stored for the first module
/// that names each.
type ReadStreams<'s> = BTreeMap<u16, KeptInfo<'s>>;

/// The stored information of a module, from that of another one that names the same stream. Both
/// share its bytes. `OutOfMemory` alone.
fn share_info<'s>(kept: &KeptInfo<'s>, entry: &Module<'_>) -> Result<KeptInfo<'s>>
    ensures { Gives (λ k. k) ⊥ result (Ok (in_parts_of entry.now kept.now)) }
{
    match kept {
        Ok(None) => Ok(Ok(None)),
        Ok(Some(info)) => {
            let info = info.with_sizes(
                entry.symbols_size(),
                entry.c11_lines_size(),
                entry.c13_lines_size(),
            )?;
            Ok(Ok(Some(info)))
        }
        Err(fault) => Ok(Err(*fault)),
    }
}

/// A module's own stream, or the fault in reading it; a stream that another module named before
/// isn't read again. `OutOfMemory` alone.
fn keep_info<'s, S: Source + Drop>(
    pdb: &mut PDB<'s, S>,
    alloc: Global,
    read: &mut ReadStreams<'s>,
    entry: &Module<'_>,
) -> Result<KeptInfo<'s>>
    requires { (streams (S.bytes pdb.old)).open_fault ≡ None }
    ensures same { S.bytes pdb.new ≡ S.bytes pdb.old }
    ensures counts { S.failures pdb.old ≤ S.failures pdb.new }
    ensures memory { IsOkUnless result Error.OutOfMemory }
    ensures shared { IfOk result (SharesFrom S.bytes S.failures pdb.old pdb.new entry.now read.old
        read.new) }
{
    let number = entry.stream().0;
    if let Some(kept) = read.get(&number) {
        return share_info(kept, entry);
    }
    let first = read_info(pdb, alloc, entry)?;
    let info = share_info(&first, entry)?;
    read.insert(number, first)?;
    Ok(info)
}

/// The own streams of these modules, each or the fault in reading it. `OutOfMemory` alone.
fn read_infos<'s, S: Source + Drop>(
    pdb: &mut PDB<'s, S>,
    alloc: Global,
    entries: &[Module<'_>],
) -> Result<Vec<KeptInfo<'s>>>
    requires { (streams (S.bytes pdb.old)).open_fault ≡ None }
    ensures { KeepsBy S.bytes S.failures pdb.old pdb.new KeepsInfos (λ v. v.items) result
        (infos_by entries.now) }
{
    let mut infos = Vec::new(alloc);
    let mut read = BTreeMap::new(alloc);
    for entry in entries {
        infos.push(keep_info(pdb, alloc, &mut read, entry)?)?;
    }
    Ok(infos)
}

/// The own streams of all modules of the list in stream 3, which was read; each or the fault in
/// reading it.
///
/// # Errors
/// `UnexpectedEof` where the list isn't whole; `OutOfMemory`.
#[tactic(auto, using(crate::proofs::OpenFiles::open_where_read, crate::proofs::HeldSteps::list_there, crate::proofs::HeldSteps::list_missing))]
pub(crate) fn read_module_infos<'s, S: Source + Drop>(
    pdb: &mut PDB<'s, S>,
    alloc: Global,
    debug_information: &DebugInformation<'_>,
) -> Result<Vec<KeptInfo<'s>>>
    requires { read_dbi (shared (streams (S.bytes pdb.old))) ≡ Ok debug_information.now }
    ensures same { S.bytes pdb.new ≡ S.bytes pdb.old }
    ensures counts { S.failures pdb.old ≤ S.failures pdb.new }
    ensures whole_list { Gives (λ _. tt) ⊥ result (listed debug_information.now) }
    ensures kept { IfOk result (λ v. KeepsListed S.bytes S.failures pdb.old pdb.new
        debug_information.now v.items) }
{
    let modules = collect_modules(alloc, debug_information.modules())?;
    read_infos(pdb, alloc, modules.as_slice())
}
