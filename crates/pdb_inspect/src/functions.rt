//! The list of functions.

use crate::fault::Fault;
use crate::loaded::Loaded;
use crate::output::{Output, number_or_unknown, text_or_unknown};
use pdb_listings::{Column, FunctionRow, Value, list_functions, listed_name};
use std::alloc::Global;
use std::cmp::Ordering;
use std::io::Write;

const COLUMNS: &[Column] = &[
    Column {
        name: "start",
        before: "",
        width: 10,
    },
    Column {
        name: "size",
        before: " ",
        width: 8,
    },
    Column {
        name: "name",
        before: " ",
        width: 0,
    },
    Column {
        name: "file",
        before: " at ",
        width: 0,
    },
    Column {
        name: "line",
        before: ":",
        width: 0,
    },
];

/// How many bytes the function of a row has, if its end is known.
fn size_of(row: &FunctionRow) -> Value<'static> {
    match row.function.end_rva {
        None => Value::Unknown,
        Some(end) => Value::Number(u64::from(end.saturating_sub(row.function.start_rva))),
    }
}

/// Writes the row of a function under a name.
fn write_row<'r, W: Write + Drop>(
    row: &'r FunctionRow,
    name: Value<'r>,
    output: &mut Output<W>,
) -> Result<(), Fault> {
    let values = [
        Value::Address(row.function.start_rva),
        size_of(row),
        name,
        text_or_unknown(&row.file),
        number_or_unknown(row.line),
    ];
    output.row(COLUMNS, &values)
}

/// Writes the row of a function, by its name as it is listed.
fn write_function<W: Write + Drop>(
    alloc: Global,
    row: &FunctionRow,
    undecorate: bool,
    output: &mut Output<W>,
) -> Result<(), Fault> {
    let Some(name) = &row.function.name else {
        return write_row(row, Value::Unknown, output);
    };
    let name = listed_name(alloc, name.as_str(), undecorate)?;
    write_row(row, Value::Text(name.as_str()), output)
}

/// Writes the functions of a database.
///
/// # Errors
/// Why not all are written.
pub fn write<W: Write + Drop>(
    alloc: Global,
    loaded: Loaded<'_>,
    undecorate: bool,
    output: &mut Output<W>,
) -> Result<(), Fault> {
    let rows = rows_of(alloc, loaded)?;
    output.header(COLUMNS)?;
    for row in &rows {
        write_function(alloc, row, undecorate, output)?;
    }
    Ok(())
}

/// The order of functions: by address, and then by name.
fn row_order(a: &FunctionRow, b: &FunctionRow) -> Ordering {
    let (a, b) = (&a.function, &b.function);
    a.start_rva.cmp(&b.start_rva).then(a.name.cmp(&b.name))
}

/// The functions of a database with their places, as a context lists them.
fn listed_rows(alloc: Global, loaded: Loaded<'_>) -> Result<Vec<FunctionRow>, Fault> {
    let lister = loaded.context(alloc)?;
    match loaded.context(alloc) {
        Ok(mut context) => Ok(list_functions(alloc, lister, &mut context)?),
        Err(fault) => Err(fault),
    }
}

/// The functions of a database with their places, by address. A context lists a function for each
/// symbol in it that begins a piece: here it stands once.
///
/// # Errors
/// `Load`, `OutOfMemory`.
pub fn rows_of(alloc: Global, loaded: Loaded<'_>) -> Result<Vec<FunctionRow>, Fault> {
    let mut rows = listed_rows(alloc, loaded)?;
    rows.sort_by(|a: &FunctionRow, b: &FunctionRow| row_order(a, b))?;
    rows.dedup_by(|a: &mut FunctionRow, b: &mut FunctionRow| row_order(a, b).is_eq());
    Ok(rows)
}
