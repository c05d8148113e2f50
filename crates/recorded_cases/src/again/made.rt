//! Makes contexts and formatters of a database, and asks them. If memory runs out, it makes them
//! again.

use crate::again::marks::{begin, end, is_refusal};
use crate::again::{contexts, formatters};
use crate::texts::{Data, data_of};
use anyhow::{Result, bail};
use pdb_addr2line::pdb::PDB;
use pdb_addr2line::{ContextPdbData, Error, TypeFormatterFlags};
use pdb_report::{LoadFault, Symbolizer};
use std::alloc::Global;

/// The number of times that a context or a formatter is made, if memory runs out.
const ATTEMPTS: u32 = 2;

/// An open database over a file's bytes.
type Database = PDB<'static, Vec<u8>>;

/// Opens the database of a file's bytes.
fn open_database(alloc: Global, bytes: &[u8]) -> Result<Database, Error> {
    let bytes = Vec::from_slice(alloc, bytes)?;
    Ok(PDB::open(alloc, bytes)?)
}

/// Opens the database of a file's bytes, and once more if memory runs out.
fn database_of(rt: &(impl Print + Eprint + AllocGlobal), bytes: &[u8]) -> Result<Database> {
    begin(rt)?;
    let mut database = open_database(rt.alloc(), bytes);
    let is_refused = matches!(&database, Err(error) if is_refusal(error));
    end(rt, is_refused)?;
    if is_refused {
        database = open_database(rt.alloc(), bytes);
    }
    Ok(database?)
}

/// Opens the database of a file's bytes, and reads its data.
fn read_data(alloc: Global, bytes: &[u8]) -> Result<Data, Error> {
    data_of(alloc, Vec::from_slice(alloc, bytes)?)
}

/// Opens the database of a file's bytes and reads its data, and does both once more if memory runs
/// out.
fn data_again(rt: &(impl Print + Eprint + AllocGlobal), bytes: &[u8]) -> Result<Data> {
    begin(rt)?;
    let mut data = read_data(rt.alloc(), bytes);
    let is_refused = matches!(&data, Err(error) if is_refusal(error));
    end(rt, is_refused)?;
    if is_refused {
        data = read_data(rt.alloc(), bytes);
    }
    Ok(data?)
}

/// Reads the data of an open database, and once more of the same one if memory runs out.
fn data_in(rt: &(impl Print + Eprint + AllocGlobal), database: &mut Database) -> Result<Data> {
    begin(rt)?;
    let mut data: Result<Data, Error> = ContextPdbData::try_from_pdb_ref(rt.alloc(), database);
    let is_refused = matches!(&data, Err(error) if is_refusal(error));
    end(rt, is_refused)?;
    if is_refused {
        data = ContextPdbData::try_from_pdb_ref(rt.alloc(), database);
    }
    Ok(data?)
}

/// Makes a context over a file's bytes, and prints each question with its answer, twice. If memory
/// runs out each time it is made, nothing is asked.
///
/// # Errors
/// A database that can't be read, an address map that isn't ordered, a failed write; out of memory.
pub fn ask_context(
    rt: &(impl Print + Eprint + AllocGlobal),
    bytes: &[u8],
    flags: TypeFormatterFlags,
    questions: &str,
) -> Result<()> {
    let mut database = database_of(rt, bytes)?;
    let data = data_in(rt, &mut database)?;
    ask_context_over(rt, &data, flags, questions)
}

/// Asks a context over what was read. It is made once more if memory runs out.
fn ask_context_over(
    rt: &(impl Print + Eprint + AllocGlobal),
    data: &Data,
    flags: TypeFormatterFlags,
    questions: &str,
) -> Result<()> {
    if !data.address_map().is_ordered() {
        bail!("a map that isn't ordered");
    }
    for _ in 0..ATTEMPTS {
        begin(rt)?;
        let made = data.make_context_with_formatter_flags(rt.alloc(), flags);
        if contexts::ask_made(rt, made, questions)? {
            break;
        }
    }
    Ok(())
}

/// Makes a formatter over a file's bytes, and prints each question with its answer, twice. If
/// memory runs out each time it is made, nothing is asked.
///
/// # Errors
/// A database that can't be read, a failed write; out of memory.
pub fn ask_formatter(
    rt: &(impl Print + Eprint + AllocGlobal),
    bytes: &[u8],
    flags: TypeFormatterFlags,
    questions: &str,
) -> Result<()> {
    let data = data_again(rt, bytes)?;
    ask_formatter_over(rt, &data, flags, questions)
}

/// Asks a formatter over what was read. It is made once more if memory runs out.
fn ask_formatter_over(
    rt: &(impl Print + Eprint + AllocGlobal),
    data: &Data,
    flags: TypeFormatterFlags,
    questions: &str,
) -> Result<()> {
    for _ in 0..ATTEMPTS {
        begin(rt)?;
        let made = data.make_type_formatter_with_flags(rt.alloc(), flags);
        if formatters::ask_made(rt, made, questions)? {
            break;
        }
    }
    Ok(())
}

/// Opens a file's bytes as a symbolizer.
fn open_symbolizer(alloc: Global, bytes: &[u8]) -> Result<Symbolizer, LoadFault> {
    match Vec::from_slice(alloc, bytes) {
        Ok(bytes) => Symbolizer::open(alloc, bytes),
        Err(_) => Err(LoadFault::OutOfMemory),
    }
}

/// Opens a file's bytes as a symbolizer, makes its context, and prints each question with its
/// answer, twice. If memory runs out each time the context is made, nothing is asked.
///
/// # Errors
/// The fault in loading the file, a failed write; out of memory.
pub fn ask_symbolizer(
    rt: &(impl Print + Eprint + AllocGlobal),
    bytes: &[u8],
    questions: &str,
) -> Result<()> {
    begin(rt)?;
    let mut symbolizer = open_symbolizer(rt.alloc(), bytes);
    let is_refused = matches!(&symbolizer, Err(LoadFault::OutOfMemory));
    end(rt, is_refused)?;
    if is_refused {
        symbolizer = open_symbolizer(rt.alloc(), bytes);
    }
    match symbolizer {
        Ok(symbolizer) => ask_symbolizer_over(rt, &symbolizer, questions),
        Err(fault) => bail!("{fault}"),
    }
}

/// Asks the context of a symbolizer. It is made once more if memory runs out.
fn ask_symbolizer_over(
    rt: &(impl Print + Eprint + AllocGlobal),
    symbolizer: &Symbolizer,
    questions: &str,
) -> Result<()> {
    for _ in 0..ATTEMPTS {
        begin(rt)?;
        if ask_context_of(rt, symbolizer, questions)? {
            break;
        }
    }
    Ok(())
}

/// Asks the context of a symbolizer, and returns whether it was made. It always is, unless memory
/// runs out.
fn ask_context_of(
    rt: &(impl Print + Eprint + AllocGlobal),
    symbolizer: &Symbolizer,
    questions: &str,
) -> Result<bool> {
    match symbolizer.context(rt.alloc()) {
        Ok(context) => contexts::ask_made(rt, Ok(context), questions),
        Err(_) => {
            end(rt, true)?;
            Ok(false)
        }
    }
}
