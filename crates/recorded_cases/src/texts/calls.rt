//! The number of times that a context asks for modules.

use crate::texts::question::{Asked, Question};
use crate::texts::{Data, each_address, forgotten};
use pdb_addr2line::maybe_owned::MaybeOwned;
use pdb_addr2line::pdb::{
    self, DebugInformation, FallibleIterator, Module, ModuleInfo, PDB, StringTable,
};
use pdb_addr2line::{
    Context, ContextPdbData, Error, ModuleProvider, Tables, TypeFormatter, read_tables,
};
use std::alloc::Global;
use std::cell::Cell;

/// A provider of the modules of a database's data, which counts how often it is asked.
#[derive(Drop)]
struct CountingProvider {
    inner: Data,
    calls: Cell<u32>,
}

impl ModuleProvider for CountingProvider {
    ghost use Rattle.pdb_addr2line.specs.ModuleInfos.{answered_at};
    ghost use Rattle.pdb_addr2line.specs.Provided.{faults_kept};

    type Info = ModuleInfo<'static>;

    ghost provided = { λ c number entry. answered_at c.inner.infos number };

    fn get_module_info(
        &self,
        module_index: usize,
        module: &Module<'_>,
    ) -> pdb::Result<Option<&ModuleInfo<'static>>> {
        self.calls.set(self.calls.get().saturating_add(1));
        self.inner.get_module_info(module_index, module)
    }

    fn size_hint(&self) -> u64 {
        self.inner.size_hint()
    }

    ghost faults_of_modules = { λ c number entry. faults_kept c.inner.infos number };
}

/// An open database over a file's bytes.
type Database<'s> = PDB<'s, Vec<u8>>;

/// Answers a question about how often contexts ask for modules: any but `each_again` as
/// `forgotten`.
///
/// # Errors
/// A database that can't be read, or can't answer; out of memory.
pub fn ask(alloc: Global, bytes: Vec<u8>, question: &Question<'_>) -> Result<String, Error> {
    let mut database = PDB::open(alloc, bytes)?;
    ask_database(alloc, &mut database, question)
}

/// Answers as [`ask`], from an open database.
fn ask_database(
    alloc: Global,
    database: &mut Database<'static>,
    question: &Question<'_>,
) -> Result<String, Error> {
    let inner: Data = ContextPdbData::try_from_pdb_ref(alloc, database)?;
    let calls = Cell::new(0);
    let provider = CountingProvider { inner, calls };
    ask_counted(alloc, database, &provider, &provider.calls, question)
}

/// Answers as [`ask`], over a provider that counts how often it is asked.
fn ask_counted<'s, P: ModuleProvider>(
    alloc: Global,
    database: &mut Database<'s>,
    provider: &P,
    calls: &Cell<u32>,
    question: &Question<'_>,
) -> Result<String, Error> {
    let names = database.string_table(alloc)?;
    ask_named(alloc, database, provider, calls, &names, question)
}

/// Answers as [`ask`], with these names of files and modules.
fn ask_named<'s, P: ModuleProvider>(
    alloc: Global,
    database: &mut Database<'s>,
    provider: &P,
    calls: &Cell<u32>,
    names: &StringTable<'s>,
    question: &Question<'_>,
) -> Result<String, Error> {
    let debug_information = database.debug_information(alloc)?;
    let tables = read_tables(database, alloc, &debug_information)?;
    let parts = Parts {
        debug_information: &debug_information,
        tables: &tables,
        names,
    };
    ask_over(alloc, provider, calls, parts, question)
}

/// The parts that were read of a database, but for its modules.
#[derive(Clone, Copy)]
pub struct Parts<'d, 's> {
    debug_information: &'d DebugInformation<'s>,
    tables: &'d Tables<'s>,
    names: &'d StringTable<'s>,
}

/// Reads the first eight modules of the list.
fn modules_of<'d>(
    alloc: Global,
    debug_information: &'d DebugInformation<'_>,
) -> pdb::Result<Vec<Module<'d>>> {
    let mut remaining = debug_information.modules();
    let mut modules = Vec::new(alloc);
    for _ in 0..8 {
        if let Some(module) = remaining.next()? {
            modules.push(module)?;
        }
    }
    Ok(modules)
}

/// Makes a formatter whose modules come from a provider.
fn formatter_of<'d, 's, P: ModuleProvider>(
    alloc: Global,
    provider: &'d P,
    parts: Parts<'d, 's>,
    question: &Question<'_>,
) -> pdb::Result<TypeFormatter<'d, 's, P>> {
    let tables = parts.tables;
    let modules = modules_of(alloc, parts.debug_information)?;
    TypeFormatter::new_from_parts(
        alloc,
        provider,
        modules,
        parts.debug_information,
        &tables.types,
        &tables.ids,
        Some(parts.names),
        question.formatter_flags(),
    )
}

/// Makes a context over what was read of a database.
///
/// # Errors
/// `CircularTypeDefinition` for an address map that isn't ordered, a database that can't be read;
/// out of memory.
pub fn context_of<'d, 's, P: ModuleProvider>(
    alloc: Global,
    provider: &'d P,
    parts: Parts<'d, 's>,
    question: &Question<'_>,
) -> Result<Context<'d, 's, P>, Error> {
    let tables = parts.tables;
    let map = &tables.address_map;
    if !map.is_ordered() {
        return Err(Error::CircularTypeDefinition(0));
    }
    let formatter = formatter_of(alloc, provider, parts, question)?;
    Context::new_from_parts(
        alloc,
        provider,
        map.image_section_headers(),
        map,
        &tables.symbol_records,
        Some(parts.names),
        parts.debug_information,
        MaybeOwned::Owned(formatter),
    )
}

/// Answers as [`ask`], over what was read.
fn ask_over<P: ModuleProvider>(
    alloc: Global,
    provider: &P,
    calls: &Cell<u32>,
    parts: Parts<'_, '_>,
    question: &Question<'_>,
) -> Result<String, Error> {
    match question.asked {
        Asked::EachAgain => each_address::ask(alloc, provider, calls, parts, question),
        _ => forgotten::ask(alloc, provider, calls, parts, question),
    }
}
