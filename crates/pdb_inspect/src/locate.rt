//! The addresses of functions by their names.

use crate::fault::Fault;
use crate::functions::rows_of;
use crate::loaded::Loaded;
use crate::output::{Output, text_or_unknown};
use pdb_listings::{Column, FunctionRow, Value, functions_named};
use std::alloc::Global;
use std::io::Write;

const COLUMNS: &[Column] = &[
    Column {
        name: "address",
        before: "",
        width: 10,
    },
    Column {
        name: "name",
        before: " ",
        width: 0,
    },
];

/// A name that is looked for, and an offset from its address.
#[derive(Clone, Copy)]
struct Asked<'n> {
    name: &'n str,
    offset: u32,
}

/// The number of an offset: in hexadecimal digits after `0x`, else in decimal ones.
fn offset_in(word: &str) -> Option<u32> {
    let parsed = match word.strip_prefix("0x") {
        Some(digits) => u32::from_str_radix(digits, 16),
        None => word.parse::<u32>(),
    };
    match parsed {
        Ok(offset) => Some(offset),
        Err(_) => None,
    }
}

/// The name and the offset of a word that ends with one.
fn asked_by(word: &str) -> Option<Asked<'_>> {
    let (name, digits) = word.rsplit_once('+')?;
    match offset_in(digits) {
        Some(offset) => Some(Asked { name, offset }),
        None => None,
    }
}

/// Writes the row of a function, and returns whether the offset leads to an address.
fn write_row<W: Write + Drop>(
    row: &FunctionRow,
    offset: u32,
    output: &mut Output<W>,
) -> Result<bool, Fault> {
    let Some(address) = row.function.start_rva.checked_add(offset) else {
        return Ok(false);
    };
    let name = text_or_unknown(&row.function.name);
    output.row(COLUMNS, &[Value::Address(address), name])?;
    Ok(true)
}

/// Writes the functions with a name, and returns whether there is one.
fn write_named<W: Write + Drop>(
    alloc: Global,
    rows: &[FunctionRow],
    asked: Asked<'_>,
    output: &mut Output<W>,
) -> Result<bool, Fault> {
    let mut found = false;
    let marks = functions_named(alloc, rows, asked.name.as_bytes())?;
    for (row, mark) in rows.iter().zip(marks) {
        if mark && write_row(row, asked.offset, output)? {
            found = true;
        }
    }
    Ok(found)
}

/// Writes the functions whose name is a word or, if there is none, the word without its offset;
/// returns whether there is one.
fn write_asked<W: Write + Drop>(
    alloc: Global,
    rows: &[FunctionRow],
    word: &str,
    output: &mut Output<W>,
) -> Result<bool, Fault> {
    let whole = Asked {
        name: word,
        offset: 0,
    };
    if write_named(alloc, rows, whole, output)? {
        return Ok(true);
    }
    match asked_by(word) {
        Some(asked) => write_named(alloc, rows, asked, output),
        None => Ok(false),
    }
}

/// Writes the functions with each of the names, and returns whether there is one of each; a name
/// that no function has is reported.
///
/// # Errors
/// Why not all are written.
pub fn write<W: Write + Drop>(
    rt: &(impl Eprint + AllocGlobal),
    loaded: Loaded<'_>,
    names: &[&str],
    output: &mut Output<W>,
) -> Result<bool, Fault> {
    let alloc = rt.alloc();
    let rows = rows_of(alloc, loaded)?;
    output.header(COLUMNS)?;
    let mut all = true;
    for name in names {
        if !write_asked(alloc, &rows, name, output)? {
            let _ = eprintln!(rt; "pdb_inspect: no function is called {name}");
            all = false;
        }
    }
    Ok(all)
}
