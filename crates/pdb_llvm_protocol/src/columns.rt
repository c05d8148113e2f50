//! Columns of places in functions.

ghost use Rattle.std.specs.Prelude.{◌≡◌, IfOk};
ghost use Rattle.pdb_container.specs.Fault.{Parses};
ghost use Rattle.pdb_llvm_protocol.specs.Columns.{column_for as column_for_place};
ghost use Rattle.pdb_llvm_protocol.specs.Columns.{column_of as column_in};
ghost use Rattle.pdb_llvm_protocol.specs.Columns.{found_with as found_with_row};
ghost use Rattle.pdb_llvm_protocol.specs.Columns.{is_later as is_later_row};
ghost use Rattle.pdb_llvm_protocol.specs.Columns.{has_column as has_column_in, IsOfLine};
ghost use Rattle.pdb_llvm_protocol.specs.Columns.{has_columns as have_columns};

use pdb_addresses::PdbInternalSectionOffset;
use pdb_container::{FallibleIterator, Result};
use pdb_lines::LineProgram;
use pdb_subsections::LineInfo;

/// Whether a row has a column.
fn has_column(row: LineInfo) -> bool
    ensures { result ≡ has_column_in row }
{
    match row.column_start {
        None => false,
        Some(_) => true,
    }
}

/// Whether a row of a module has a column. Rows are read up to the first that has one, or to a
/// fault.
#[tactic(auto, using(crate::proofs::ColumnSteps::rows_more, crate::proofs::ColumnSteps::rows_found, crate::proofs::ColumnSteps::rows_ended))]
pub fn has_columns(line_program: &LineProgram<'_>) -> bool
    ensures { result ≡ have_columns line_program.now }
{
    let mut remaining = line_program.lines();
    while let Ok(Some(row)) = remaining.next() {
        if has_column(row) {
            return true;
        }
    }
    false
}

/// Whether a row begins at an offset or before it, and not before the one that was found so far.
fn is_later(offset: u32, found: Option<LineInfo>, row: LineInfo) -> bool
    ensures { result ≡ is_later_row offset found row }
{
    match found {
        None => row.offset.offset <= offset,
        Some(found) => row.offset.offset <= offset && found.offset.offset <= row.offset.offset,
    }
}

/// The row that was found so far, or a later one.
fn found_with(offset: u32, found: Option<LineInfo>, row: LineInfo) -> Option<LineInfo>
    ensures { result ≡ found_with_row offset found row }
{
    if is_later(offset, found, row) {
        Some(row)
    } else {
        found
    }
}

/// The first column of a row that may be there.
fn column_of(found: Option<LineInfo>) -> Option<u32>
    ensures { result ≡ column_in found }
{
    match found {
        None => None,
        Some(row) => row.column_start,
    }
}

/// The column of an offset in the function that begins at `start`, counted from 1, where one is
/// given: the first column of the row that gives the offset's line. That is, of the rows of
/// [`LineProgram::lines_for_symbol`] that begin at the offset or before it, the one with the
/// greatest start, of equals the last.
///
/// # Errors
/// `UnexpectedEof` where some block can't be read.
#[tactic(auto, using(crate::proofs::ColumnSteps::column_more, crate::proofs::ColumnSteps::column_end, crate::proofs::ColumnSteps::column_fault, crate::proofs::RowOfLine::end_of_line))]
pub fn column_for(
    line_program: &LineProgram<'_>,
    start: PdbInternalSectionOffset,
    offset: u32,
) -> Result<Option<u32>>
    ensures value { Parses (λ column. column) result
        (column_for_place line_program.now start offset) }
    ensures of_line { IfOk result (IsOfLine line_program.now start offset) }
{
    let mut remaining = line_program.lines_for_symbol(start);
    let mut found: Option<LineInfo> = None;
    while let Some(row) = remaining.next()? {
        found = found_with(offset, found, row);
    }
    Ok(column_of(found))
}
