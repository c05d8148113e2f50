//! Open databases.

use crate::reads::question::{Question, Task};
use crate::reads::shown::{listed, push, shown, shown_read};
use crate::reads::{addresses, modules, refusals};
use pdb_container::{Error, FallibleIterator, Result, Stream, StringRef, StringTable};
use pdb_container_types::{
    IdFinder, IdIndex, IdInformation, SymbolIndex, TypeFinder, TypeIndex, TypeInformation,
};
use pdb_symbols_modules::{
    DebugInformation, Module, PDB, PDBInformation, StreamIndex, StreamNames, SymbolTable,
};
use std::alloc::Global;

/// An open database over a file's bytes.
type Database = PDB<'static, Vec<u8>>;

/// Answers a question from the database of a file's bytes. It is asked again if memory runs out.
///
/// # Errors
/// A database that can't be read; `OutOfMemory`.
pub fn ask(
    rt: &(impl Print + AllocGlobal),
    bytes: Vec<u8>,
    question: &Question<'_>,
) -> Result<String> {
    let mut database = PDB::open(rt.alloc(), bytes)?;
    match ask_database(rt.alloc(), &mut database, question) {
        Err(Error::OutOfMemory) => {
            refusals::tell(rt)?;
            ask_database(rt.alloc(), &mut database, question)
        }
        answer => answer,
    }
}

/// Answers a question from an open database.
fn ask_database(alloc: Global, database: &mut Database, question: &Question<'_>) -> Result<String> {
    match question.task {
        Task::Raw | Task::Get | Task::Named => ask_streams(alloc, database, question),
        Task::Name | Task::NameText => ask_name(alloc, database, question),
        Task::Information => information_text(alloc, database),
        Task::Names => names_text(alloc, database),
        Task::Sections => sections_text(alloc, database),
        Task::Globals | Task::GlobalsAt => globals_text(alloc, database, question),
        Task::Debug | Task::Modules | Task::Contributions => debug_text(alloc, database, question),
        Task::TypeTable | Task::Types | Task::FindType => types_text(alloc, database, question),
        Task::IdTable | Task::Ids | Task::FindId => ids_text(alloc, database, question),
        Task::ImageSections
        | Task::SectionNames
        | Task::ImageAddress
        | Task::InternalAddress
        | Task::ImagePlace
        | Task::InternalPlace
        | Task::ImageRange
        | Task::InternalRange
        | Task::Run => addresses_text(alloc, database, question),
        _ => ask_module(alloc, database, question),
    }
}

/// Returns the section headers of the image.
fn sections_text(alloc: Global, database: &mut Database) -> Result<String> {
    shown_read(alloc, database.sections(alloc))
}

/// Answers a question from the global symbols.
fn globals_text(alloc: Global, database: &mut Database, question: &Question<'_>) -> Result<String> {
    let table = database.global_symbols(alloc)?;
    ask_globals(alloc, &table, question)
}

/// Returns the global symbols, or the global symbols from an index on.
fn ask_globals(alloc: Global, table: &SymbolTable<'_>, question: &Question<'_>) -> Result<String> {
    match question.task {
        Task::Globals => listed(alloc, &mut table.iter()),
        _ => listed(alloc, &mut table.iter_at(SymbolIndex(question.numbers.0))),
    }
}

/// Answers a question from stream 3.
fn debug_text(alloc: Global, database: &mut Database, question: &Question<'_>) -> Result<String> {
    let debug = database.debug_information(alloc)?;
    ask_debug(alloc, &debug, question.task)
}

/// Answers a question from stream 2.
fn types_text(alloc: Global, database: &mut Database, question: &Question<'_>) -> Result<String> {
    let table = database.type_information(alloc)?;
    ask_types(alloc, &table, question)
}

/// Answers a question from stream 4.
fn ids_text(alloc: Global, database: &mut Database, question: &Question<'_>) -> Result<String> {
    let table = database.id_information(alloc)?;
    ask_ids(alloc, &table, question)
}

/// Answers a question from the address map.
fn addresses_text(
    alloc: Global,
    database: &mut Database,
    question: &Question<'_>,
) -> Result<String> {
    let map = database.address_map(alloc)?;
    addresses::ask(alloc, &map, question)
}

/// Returns the bytes of a stream by its number or its name.
fn ask_streams(alloc: Global, database: &mut Database, question: &Question<'_>) -> Result<String> {
    let index = StreamIndex(u16::try_from(question.numbers.0).unwrap_or(0xffff));
    match question.task {
        Task::Raw => stream_text(alloc, &database.raw_stream(alloc, index)?),
        Task::Get => stream_text(alloc, &index.get(alloc, database)?),
        _ => {
            let stream = database.named_stream(alloc, question.name.as_bytes())?;
            shown(alloc, &stream.as_slice())
        }
    }
}

/// Returns the bytes of a stream, if it is there.
fn stream_text(alloc: Global, stream: &Option<Stream<'_>>) -> Result<String> {
    match stream {
        None => shown(alloc, &"none"),
        Some(stream) => shown(alloc, &stream.as_slice()),
    }
}

/// Returns the name of a file.
fn ask_name(alloc: Global, database: &mut Database, question: &Question<'_>) -> Result<String> {
    let names = database.string_table(alloc)?;
    let name = StringRef(question.numbers.0);
    match question.task {
        Task::Name => shown_read(alloc, names.get(name)),
        _ => name_text(alloc, &names, name),
    }
}

/// Returns the name of a file as a text, in UTF-8.
fn name_text(alloc: Global, names: &StringTable<'_>, name: StringRef) -> Result<String> {
    let text = name.to_string_lossy(alloc, names)?;
    shown(alloc, &text.as_str().as_bytes())
}

/// Returns the numbers of stream 1.
fn information_text(alloc: Global, database: &mut Database) -> Result<String> {
    let said = database.pdb_information(alloc)?;
    let guid = said.guid;
    shown(alloc, &(said.version, said.signature, said.age, guid))
}

/// Returns the names of streams.
fn names_text(alloc: Global, database: &mut Database) -> Result<String> {
    let information = database.pdb_information(alloc)?;
    ask_names(alloc, &information)
}

/// Returns the names of streams from stream 1.
fn ask_names(alloc: Global, information: &PDBInformation<'_>) -> Result<String> {
    let names = information.stream_names(alloc)?;
    listed_names(alloc, &names)
}

/// Lists names of streams, in the order of their entries.
fn listed_names(alloc: Global, names: &StreamNames<'_>) -> Result<String> {
    let mut text = String::new(alloc);
    for entry in names.iter() {
        push(alloc, &mut text, &(entry.name, entry.stream_id))?;
    }
    Ok(text)
}

/// Returns an answer from stream 3: the machine and the age, the modules, or the contributions.
fn ask_debug(alloc: Global, debug: &DebugInformation<'_>, task: Task) -> Result<String> {
    match task {
        Task::Debug => shown(alloc, &(debug.machine_type(), debug.age())),
        Task::Modules => listed(alloc, &mut debug.modules()),
        _ => listed(alloc, &mut debug.section_contributions()?),
    }
}

/// Answers a question from the table of types.
fn ask_types(
    alloc: Global,
    table: &TypeInformation<'_>,
    question: &Question<'_>,
) -> Result<String> {
    match question.task {
        Task::TypeTable => shown(
            alloc,
            &(table.minimum_index(), table.maximum_index(), table.len()),
        ),
        Task::Types => listed(alloc, &mut table.iter()),
        _ => type_text(alloc, table, TypeIndex(question.numbers.0)),
    }
}

/// Returns the record of a type of the first block, by a new finder.
fn type_text(alloc: Global, table: &TypeInformation<'_>, index: TypeIndex) -> Result<String> {
    let finder = table.finder(alloc)?;
    found_type(alloc, &finder, index)
}

/// Returns the record of a type that a finder finds.
fn found_type(alloc: Global, finder: &TypeFinder<'_>, index: TypeIndex) -> Result<String> {
    let item = finder.find(index)?;
    shown_read(alloc, item.parse(alloc))
}

/// Answers a question from the table of ids.
fn ask_ids(alloc: Global, table: &IdInformation<'_>, question: &Question<'_>) -> Result<String> {
    match question.task {
        Task::IdTable => shown(
            alloc,
            &(table.minimum_index(), table.maximum_index(), table.len()),
        ),
        Task::Ids => listed(alloc, &mut table.iter()),
        _ => id_text(alloc, table, IdIndex(question.numbers.0)),
    }
}

/// Returns the record of an id of the first block, by a new finder.
fn id_text(alloc: Global, table: &IdInformation<'_>, index: IdIndex) -> Result<String> {
    let finder = table.finder(alloc)?;
    found_id(alloc, &finder, index)
}

/// Returns the record of an id that a finder finds.
fn found_id(alloc: Global, finder: &IdFinder<'_>, index: IdIndex) -> Result<String> {
    let item = finder.find(index)?;
    shown_read(alloc, item.parse(alloc))
}

/// Answers a question from the stream of the module with that index.
fn ask_module(alloc: Global, database: &mut Database, question: &Question<'_>) -> Result<String> {
    let debug = database.debug_information(alloc)?;
    ask_module_of(alloc, database, &debug, question)
}

/// Answers a question from the stream of the module with that index in the list of stream 3.
fn ask_module_of(
    alloc: Global,
    database: &mut Database,
    debug: &DebugInformation<'_>,
    question: &Question<'_>,
) -> Result<String> {
    match module_at(debug, question.numbers.0)? {
        None => shown(alloc, &"no module"),
        Some(module) if matches!(question.task, Task::ModuleNames) => module_names(alloc, &module),
        Some(module) => ask_stream_of(alloc, database, &module, question),
    }
}

/// Returns the names of a module and of its object file as texts, in UTF-8.
fn module_names(alloc: Global, module: &Module<'_>) -> Result<String> {
    let name = module.module_name(alloc)?;
    let object_file = module.object_file_name(alloc)?;
    let name = shown(alloc, &name.as_str().as_bytes())?;
    let object_file = shown(alloc, &object_file.as_str().as_bytes())?;
    Ok(format!(in alloc; "({name}, {object_file})")?)
}

/// Answers a question from a module's stream.
fn ask_stream_of(
    alloc: Global,
    database: &mut Database,
    module: &Module<'_>,
    question: &Question<'_>,
) -> Result<String> {
    match database.module_info(alloc, module)? {
        None => shown(alloc, &"no stream"),
        Some(info) => modules::ask_stream(alloc, &info, question),
    }
}

/// Returns the module with that index.
fn module_at<'m>(debug: &'m DebugInformation<'_>, number: u32) -> Result<Option<Module<'m>>> {
    let mut modules = debug.modules();
    for _ in 0..number {
        modules.next()?;
    }
    modules.next()
}
