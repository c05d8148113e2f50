//! A database that is loaded.

ghost use Rattle.std.specs.Prelude.{IfOk};
ghost use Rattle.pdb_addresses.specs.Addresses.{IsOrdered};

use crate::fault::{Fault, file_fault, load_fault, read_fault};
use crate::file_facts::{FileFacts, facts_of};
use crate::opened_file::open;
use bumpalo::Bump;
use pdb_addr2line::{
    ContributionOrder, FileContext, FileOnDemand, FileSymbolizer, Held, KeptModules, LoadFault,
    NotLoaded, TRIES, TypeFormatterFlags,
};
use pdb_addresses::AddressMap;
use pdb_container::{Error, Result as ReadResult, StringTable};
use pdb_file_views::{FileSource, Wanted};
use pdb_symbols_modules::PDB;
use std::alloc::Global;
use std::mem::forget;
use std::os::unix::fs::FileExt;
use std::rt::Files;

/// What a command goes over, beside a database's tables.
#[derive(Clone, Copy)]
pub enum Needs {
    /// Nothing.
    Tables,
    /// All of its modules.
    Modules,
    /// All of its modules, and the names of its string table.
    Names,
    /// All of its modules, and what its file says of itself.
    Facts,
}

/// A database that is loaded. What is held of it lies in an arena, and stays there until the
/// process ends.
#[derive(Clone, Copy)]
pub struct Loaded<'a> {
    /// The path of its file.
    pub path: &'a str,
    /// What is held of it.
    pub held: &'a Held,
    /// Its modules.
    pub modules: &'a KeptModules<'static>,
    /// The names of its string table (`/names`), if they are needed and can be read.
    pub names: Option<&'a StringTable<'static>>,
    /// What its file says of itself, if that is needed.
    pub facts: Option<FileFacts>,
}

/// Reads all modules of a file.
fn read_modules<F: FileExt + Drop>(
    alloc: Global,
    path: &str,
    symbolizer: &mut FileSymbolizer<'_, F>,
) -> Result<(), Fault> {
    for _ in 0..TRIES {
        symbolizer.ask_all();
        match symbolizer.go_on(alloc) {
            Ok(true) => {}
            Ok(false) => return Ok(()),
            Err(kind) => return Err(read_fault(alloc, path, kind)),
        }
    }
    Err(Fault::OutOfMemory)
}

/// The names of the string table (`/names`) by what was read of a file. What they lack is noted as
/// wanted.
fn names_read<F: Drop>(
    alloc: Global,
    source: &FileOnDemand<'_, F>,
    wanted: &Wanted,
) -> ReadResult<StringTable<'static>> {
    let bytes = FileSource::of_views(alloc, &source.views, &source.contents, wanted)?;
    match PDB::open(alloc, bytes) {
        Ok(mut pdb) => pdb.string_table(alloc),
        Err(error) => Err(error),
    }
}

/// The names of the string table (`/names`) of a file that was loaded; `None` where they can't be
/// read. Loading reads them.
fn names_of<'a, F: Drop>(
    alloc: Global,
    source: &FileOnDemand<'a, F>,
) -> Result<Option<&'a StringTable<'static>>, Fault> {
    let wanted = Wanted::new(alloc)?;
    match names_read(alloc, source, &wanted) {
        Ok(names) => Ok(Some(source.arena.try_alloc(names)?)),
        Err(Error::OutOfMemory) => Err(Fault::OutOfMemory),
        Err(_) => Ok(None),
    }
}

/// A database with what is needed beside its modules, from its file.
fn with_needs<'a, F: FileExt + Drop>(
    alloc: Global,
    mut loaded: Loaded<'a>,
    source: &mut FileOnDemand<'a, F>,
    needs: Needs,
) -> Result<Loaded<'a>, Fault> {
    match needs {
        Needs::Tables | Needs::Modules => {}
        Needs::Names => loaded.names = names_of(alloc, source)?,
        Needs::Facts => loaded.facts = Some(facts_of(alloc, loaded.path, source)?),
    }
    Ok(loaded)
}

/// The modules that a context goes over. The context is left to the process.
fn modules_in(context: Option<FileContext<'_>>) -> Option<&KeptModules<'static>> {
    let modules = match &context {
        Some(context) => Some(context.provider()),
        None => None,
    };
    forget(context);
    modules
}

/// A database by what was read of its file, which is let go of.
fn loaded_by<'a, F: FileExt + Drop>(
    alloc: Global,
    path: &'a str,
    symbolizer: FileSymbolizer<'a, F>,
    needs: Needs,
) -> Result<Loaded<'a>, Fault> {
    let held = symbolizer.held();
    let (mut source, context) = symbolizer.into_parts();
    let Some(modules) = modules_in(context) else {
        return Err(Fault::OutOfMemory);
    };
    let loaded = Loaded {
        path,
        held,
        modules,
        names: None,
        facts: None,
    };
    with_needs(alloc, loaded, &mut source, needs)
}

/// Loads the database of a file.
fn load_file<'a, F: FileExt + Drop>(
    alloc: Global,
    path: &'a str,
    source: FileOnDemand<'a, F>,
    needs: Needs,
) -> Result<Loaded<'a>, Fault> {
    let mut symbolizer = match FileSymbolizer::open(alloc, source) {
        Ok(symbolizer) => symbolizer,
        Err(NotLoaded { fault, source }) => {
            drop(source);
            return Err(file_fault(alloc, path, fault));
        }
    };
    if !matches!(needs, Needs::Tables) {
        read_modules(alloc, path, &mut symbolizer)?;
    }
    loaded_by(alloc, path, symbolizer, needs)
}

/// Loads the database of the file at a path.
///
/// # Errors
/// `Read`, `Load`, `OutOfMemory`.
pub fn load<'a, S: Files + AllocGlobal>(
    rt: &S,
    arena: &'a Bump,
    path: &'a str,
    needs: Needs,
) -> Result<Loaded<'a>, Fault>
where
    S::File: FileExt,
{
    match open(rt, arena, path) {
        Ok(source) => load_file(rt.alloc(), path, source, needs),
        Err(fault) => Err(fault),
    }
}

impl<'a> Loaded<'a> {
    /// The address map of the database.
    ///
    /// # Errors
    /// `Load` where it is out of order; `OutOfMemory`.
    pub fn address_map(self, alloc: Global) -> Result<&'a AddressMap<'static>, Fault>
        ensures { IfOk result (λ map. IsOrdered map.now) }
    {
        let map = self.held.address_map();
        if map.is_ordered() {
            return Ok(map);
        }
        let fault = LoadFault::AddressTableDecreases;
        Err(load_fault(alloc, self.path, fault))
    }

    /// A context over the database.
    ///
    /// # Errors
    /// `Load` where its address map is out of order; `OutOfMemory`.
    pub fn context(self, alloc: Global) -> Result<FileContext<'a>, Fault> {
        if !self.held.address_map().is_ordered() {
            let fault = LoadFault::AddressTableDecreases;
            return Err(load_fault(alloc, self.path, fault));
        }
        let flags = TypeFormatterFlags::default();
        let order = ContributionOrder::Any;
        let made = match self.held.make_context_with_order(alloc, flags, order) {
            Ok(context) => {
                let parts = context.into_parts();
                self.held.make_context_over(alloc, self.modules, parts)
            }
            Err(error) => Err(error),
        };
        match made {
            Ok(context) => Ok(context),
            Err(error) => Err(load_fault(alloc, self.path, LoadFault::from(error))),
        }
    }
}
