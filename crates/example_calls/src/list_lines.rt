//! Lists the lines of a program database, module by module.
//!
//! The head of `pdb_symbols_modules` shows lines of this file, so these change in both places.
//!
//! It prints the name of each module, and after it each of its procedures: its place (section and
//! offset), the length of its code, and its name. After a procedure it prints each row of its
//! lines: where the row's code begins in the section, its length in bytes, and the file and line
//! from which it was made. A length that isn't known is `-`. Places are hexadecimal, and lengths
//! decimal.
//!
//! The stored run lists `lines.pdb`, a file of two modules. `main.obj` has the procedures `main`,
//! of 0x20 bytes at 0x10 of section 1, and `helper`, of 0x10 bytes at 0x30. The lines of each are a
//! subsection of its own. `main` has rows at 0 and 8 for lines 5 and 7 of `main.c`, and at 0x18 for
//! line 3 of `inline.h`, which ends where the subsection does. `helper` has rows at 0 and 0x14 for
//! lines 12 and 13 of `inline.h`. The second lies past the end of the subsection, so it has no
//! length. `import.dll` has no stream of its own.

use anyhow::Result;
use pdb_container::{Error, FallibleIterator, RawString, StringTable};
use pdb_symbols_modules::{
    LineInfo, LineProgram, Module, ModuleInfo, ModuleIter, PDB, ProcedureSymbol, SymbolData,
};
use std::rt::Files;
use std::{fs, io};

/// An open database over a file's bytes.
type Database = PDB<'static, Vec<u8>>;

/// Lists the modules of a file, with the lines of their procedures.
pub fn list_file(rt: &(impl Files + Print + AllocGlobal), file: &str) -> Result<()> {
    let bytes = fs::read(rt, file)?;
    let mut database = PDB::open(rt.alloc(), bytes)?;
    list_database(rt, &mut database)
}

/// Lists the modules of a database.
fn list_database(rt: &(impl Print + AllocGlobal), database: &mut Database) -> Result<()> {
    let names = database.string_table(rt.alloc())?;
    list_by_names(rt, database, &names)
}

/// Lists the modules of a database with these names of files.
fn list_by_names(
    rt: &(impl Print + AllocGlobal),
    database: &mut Database,
    names: &StringTable<'_>,
) -> Result<()> {
    let debug_information = database.debug_information(rt.alloc())?;
    list_modules(rt, database, &mut debug_information.modules(), names)
}

/// Lists the modules that an iterator gives.
fn list_modules(
    rt: &(impl Print + AllocGlobal),
    database: &mut Database,
    modules: &mut ModuleIter<'_>,
    names: &StringTable<'_>,
) -> Result<()> {
    while let Some(module) = modules.next()? {
        list_module(rt, database, &module, names)?;
    }
    Ok(())
}

/// Lists a module. A module without a stream of its own is listed by its name alone.
fn list_module(
    rt: &(impl Print + AllocGlobal),
    database: &mut Database,
    module: &Module<'_>,
    names: &StringTable<'_>,
) -> Result<()> {
    println!(rt; "{}", module.raw_module_name())?;
    match database.module_info(rt.alloc(), module)? {
        None => Ok(()),
        Some(info) => list_procedures(rt, &info, names),
    }
}

/// Lists the procedures of a module.
fn list_procedures(
    rt: &(impl Print + AllocGlobal),
    info: &ModuleInfo<'_>,
    names: &StringTable<'_>,
) -> Result<()> {
    let lines = info.line_program(rt.alloc())?;
    let mut symbols = info.symbols()?;
    while let Some(symbol) = symbols.next()? {
        match symbol.parse() {
            Ok(SymbolData::Procedure(procedure)) => list_procedure(rt, &procedure, &lines, names)?,
            Ok(_) | Err(Error::UnimplementedSymbolKind(_)) => {}
            Err(fault) => return Err(fault.into()),
        }
    }
    Ok(())
}

/// Lists a procedure and the rows of its lines.
fn list_procedure(
    rt: &impl Print,
    procedure: &ProcedureSymbol<'_>,
    lines: &LineProgram<'_>,
    names: &StringTable<'_>,
) -> Result<()> {
    let place = procedure.offset;
    println!(rt;
        "  {:04x}:{:08x} {} {}",
        place.section, place.offset, procedure.len, procedure.name
    )?;
    let mut rows = lines.lines_for_symbol(place);
    while let Some(row) = rows.next()? {
        let file = lines.get_file_info(row.file_index)?;
        list_row(rt, row, names.get(file.name)?)?;
    }
    Ok(())
}

/// Lists a row of a file with that name.
fn list_row(rt: &impl Print, row: LineInfo, file: RawString<'_>) -> io::Result<()> {
    let place = row.offset.offset;
    let line = row.line_start;
    match row.length {
        None => println!(rt; "    {place:08x} - {file}:{line}"),
        Some(length) => println!(rt; "    {place:08x} {length} {file}:{line}"),
    }
}
