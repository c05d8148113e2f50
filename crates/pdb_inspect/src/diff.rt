//! What changed between two databases.

use crate::fault::Fault;
use crate::output::Output;
use pdb_listings::{Change, Column, Size, Value, changes_of, total_of};
use std::alloc::{AllocError, Global};
use std::io::Write;

const COLUMNS: &[Column] = &[
    Column {
        name: "old",
        before: "",
        width: 10,
    },
    Column {
        name: "new",
        before: " ",
        width: 10,
    },
    Column {
        name: "change",
        before: " ",
        width: 10,
    },
    Column {
        name: "name",
        before: " ",
        width: 0,
    },
];

/// Writes a row.
fn write_row<W: Write + Drop>(change: &Change, output: &mut Output<W>) -> Result<(), Fault> {
    let (rose, by) = change.difference();
    let values = [
        Value::Number(change.old),
        Value::Number(change.new),
        Value::Change(rose, by),
        Value::Text(change.name.as_str()),
    ];
    output.row(COLUMNS, &values)
}

/// The changes that change something, the largest first.
fn largest_first(alloc: Global, changes: Vec<Change>) -> Result<Vec<Change>, AllocError> {
    let mut found = Vec::new(alloc);
    for change in changes {
        if change.old != change.new {
            found.push(change)?;
        }
    }
    found.sort_by(|a: &Change, b: &Change| {
        let (_, a_by) = a.difference();
        let (_, b_by) = b.difference();
        b_by.cmp(&a_by).then(a.name.cmp(&b.name))
    })?;
    Ok(found)
}

/// What changes make together, under a name; at `u64::MAX` a sum stays.
fn together(alloc: Global, name: &str, changes: &[Change]) -> Result<Change, AllocError> {
    let mut sum = Change {
        name: String::from_str(alloc, name)?,
        old: 0,
        new: 0,
    };
    for change in changes {
        sum.old = sum.old.saturating_add(change.old);
        sum.new = sum.new.saturating_add(change.new);
    }
    Ok(sum)
}

/// Writes the rows of changes.
fn write_rows<W: Write + Drop>(changes: &[Change], output: &mut Output<W>) -> Result<(), Fault> {
    for change in changes {
        write_row(change, output)?;
    }
    Ok(())
}

/// Writes what changes make together that are left out, if any are, and then the totals.
fn write_sums<W: Write + Drop>(
    alloc: Global,
    others: &[Change],
    old: &[Size],
    new: &[Size],
    output: &mut Output<W>,
) -> Result<(), Fault> {
    if !others.is_empty() {
        write_row(&together(alloc, "(others)", others)?, output)?;
    }
    let total = Change {
        name: String::from_str(alloc, "(total)")?,
        old: total_of(old),
        new: total_of(new),
    };
    write_row(&total, output)
}

/// Writes what changed from sizes to others, the largest change first; in lines for people then
/// what is left out where only `top` are written, and the totals. Both are in the order of their
/// names.
///
/// # Errors
/// Why not all are written.
pub fn write<W: Write + Drop>(
    alloc: Global,
    old: &[Size],
    new: &[Size],
    top: Option<usize>,
    output: &mut Output<W>,
) -> Result<(), Fault> {
    output.header(COLUMNS)?;
    let changes = largest_first(alloc, changes_of(alloc, old, new)?)?;
    let count = top.unwrap_or(changes.len()).min(changes.len());
    let (listed, others) = changes.as_slice().split_at(count);
    write_rows(listed, output)?;
    if output.is_text() {
        return write_sums(alloc, others, old, new, output);
    }
    Ok(())
}
