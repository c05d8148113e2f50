//! The line rows of a function, and a search by halving of the row at an offset, and of the next
//! row's start.

ghost use Rattle.std.specs.Prelude.{◌≡◌, ℕ, ◌+◌, ◌^◌, ◌<◌, ◌≤◌, true, IfOk, length, slice_get};
ghost use Rattle.pdb_addresses.specs.SectionOrder.{AreInOrder};
ghost use Rattle.pdb_addresses.specs.SectionRun.{up_to_next};
ghost use Rattle.pdb_container.specs.Fault.{Gives};
ghost use Rattle.pdb_module_data.specs.FunctionLine.{function_rows, row_at, row_starts};
ghost use Rattle.pdb_module_data.specs.RowPieces.{row_span as span_of_row};
ghost use Rattle.pdb_module_data.specs.RowPieces.{row_spans as spans_of_rows, AreAscending};
ghost use Rattle.pdb_module_data.specs.RowPieces.{AreSearchable, StandForRows};

use crate::memory::{PIECES_OF_SPAN, memory_of};
use pdb_addresses::PdbInternalSectionOffset;
use pdb_container::{FallibleIterator, FileIndex, Result};
use pdb_lines::LineProgram;
use pdb_pieces::{Begins, Mark, Pieces, Span, count_begun, to_next};
use std::alloc::{AllocError, Global};
use std::marker::Model;

/// The number of rows of most functions, so that the list of them isn't moved as it grows.
const USUAL_ROWS: usize = 16;

/// A stored line row of a function: the start and the number of bytes of its code, and its file and
/// line.
#[derive(Clone, Copy, Debug, PartialEq, Eq)]
pub struct LineRow {
    /// The start of the code: an offset in the function's section, in bytes.
    pub start: u32,
    /// The number of bytes of code: up to the next entry of the `DEBUG_S_LINES` in the file's
    /// order, or else to its end. `None` where that lies before the row.
    pub length: Option<u32>,
    /// The file, by its place among the module's checksums, in bytes.
    pub file_index: FileIndex,
    /// The line, counted from 1.
    pub line_start: u32,
}

/// A row begins where its code does.
impl Begins for LineRow {
    ghost beginning = { λ row. row.start };

    fn begins_at(&self) -> u64 {
        u64::from(self.start)
    }
}

/// The search of rows that don't ascend: pieces of offsets with the number of the row at each, and
/// the starts of the rows, in ascending order.
#[derive(Drop)]
struct Unordered {
    pieces: Pieces,
    starts: Vec<u32>,
}

impl Model for Unordered {
    ghost use Rattle.pdb_module_data.specs.RowPieces as rows;

    ghost Value = { rows.Unordered };

    ghost view = { λ u. record { pieces = u.pieces; starts = u.starts.items } };
}

/// The line rows of a function: the stored rows of its `DEBUG_S_LINES`, in their order, and their
/// search where they don't ascend.
#[derive(Drop)]
pub struct FunctionRows {
    rows: Vec<LineRow>,
    unordered: Option<Box<Unordered>>,
}

impl Model for FunctionRows {
    ghost use Rattle.std.specs.Prelude.{List};
    ghost use Rattle.pdb_module_data.specs.declared.function_rows.LineRow.{LineRow};
    ghost use Rattle.pdb_module_data.specs.RowPieces.{AreSearchable};

    ghost Value = { List LineRow };

    ghost view = { λ r. r.rows.items };

    // The rows ascend, or there are pieces and starts for their search.
    ghost invariant = { λ r. AreSearchable r.rows.items r.unordered };
}

/// The span that a row with this number covers, to the end of its section, ranked by its start.
fn row_span(number: usize, row: LineRow) -> Span
    ensures { result ≡ span_of_row number row }
{
    let start = u64::from(row.start);
    Span {
        start,
        end: 0x1_0000_0000,
        mark: Mark {
            rank: start,
            value: number,
        },
    }
}

/// The spans that rows cover, each ranked by its start. The last row comes first, since of equal
/// ranks the first counts.
fn row_spans(alloc: Global, rows: &[LineRow]) -> std::result::Result<Vec<Span>, AllocError>
    ensures { IfOk result (λ v. v.items ≡ spans_of_rows 0 rows.now) }
{
    let mut spans = Vec::with_capacity(alloc, rows.len())?;
    let mut number = rows.len();
    while number > 0 {
        number -= 1;
        spans.push(row_span(number, rows[number]))?;
    }
    Ok(spans)
}

/// Pieces of offsets with the number of the row at each.
#[tactic(auto, using(crate::proofs::RowPieceSteps::stand_for_rows))]
fn row_pieces(alloc: Global, rows: &[LineRow]) -> std::result::Result<Pieces, AllocError>
    ensures { IfOk result (λ pieces. StandForRows pieces rows.now) }
{
    let spans = row_spans(alloc, rows)?;
    Pieces::new(alloc, spans.as_slice())
}

/// Whether no row begins before the one that precedes it.
fn are_ascending(rows: &[LineRow]) -> bool
    ensures { result ≡ true → AreAscending 0 rows.now }
{
    let mut last = 0;
    for row in rows {
        if row.start < last {
            return false;
        }
        last = row.start;
    }
    true
}

/// The starts of rows, in their order.
fn starts_of(alloc: Global, rows: &[LineRow]) -> std::result::Result<Vec<u32>, AllocError>
    ensures { IfOk result (λ v. v.items ≡ row_starts rows.now) }
{
    let mut starts = Vec::with_capacity(alloc, rows.len())?;
    for row in rows {
        starts.push(row.start)?;
    }
    Ok(starts)
}

/// The starts of rows, in ascending order.
fn ascending_starts(alloc: Global, rows: &[LineRow]) -> std::result::Result<Vec<u32>, AllocError>
    ensures { IfOk result (λ v. AreInOrder (row_starts rows.now) v.items) }
{
    let mut starts = starts_of(alloc, rows)?;
    starts.sort_unstable();
    Ok(starts)
}

/// The search of rows, unless they ascend.
fn unless_ascending(
    alloc: Global,
    rows: &[LineRow],
) -> std::result::Result<Option<Box<Unordered>>, AllocError>
    ensures { IfOk result (λ unordered. AreSearchable rows.now unordered) }
{
    if are_ascending(rows) {
        return Ok(None);
    }
    let pieces = row_pieces(alloc, rows)?;
    let starts = ascending_starts(alloc, rows)?;
    let unordered = Box::new(alloc, Unordered { pieces, starts })?;
    Ok(Some(unordered))
}

/// The row with that number, if it is there.
fn row_numbered(rows: &[LineRow], number: usize) -> Option<LineRow>
    ensures { result ≡ slice_get rows.now number }
{
    rows.get(number).copied()
}

/// The row at an offset, of rows that ascend, by halving, and the number of rows that were looked
/// at.
fn row_by_halving(rows: &[LineRow], offset: u32) -> (Option<LineRow>, u32)
    requires { AreAscending 0 rows.now }
    ensures row { result.0 ≡ row_at rows.now offset }
    ensures probes { (digits : ℕ) → length rows.now < 2 ^ digits → result.1 ≤ digits }
    ensures fewest { length rows.now + 1 < 2 ^ (result.1 + 1) }
{
    let (count, probes) = count_begun(rows, u64::from(offset));
    if count == 0 {
        (None, probes)
    } else {
        (row_numbered(rows, count - 1), probes)
    }
}

/// The row at an offset, by pieces.
fn row_by_pieces(rows: &[LineRow], pieces: &Pieces, offset: u32) -> Option<LineRow>
    requires { StandForRows pieces.now rows.now }
    ensures { result ≡ row_at rows.now offset }
{
    let place = PdbInternalSectionOffset { offset, section: 0 };
    let number = pieces.value_at(place)?;
    row_numbered(rows, number)
}

/// The rows of the function that begins at `start`, read to their end.
#[tactic(auto, using(crate::proofs::RowSteps::rows_start, crate::proofs::RowSteps::rows_more, crate::proofs::RowSteps::rows_end, crate::proofs::RowSteps::rows_fault))]
fn read_rows(
    alloc: Global,
    line_program: &LineProgram<'_>,
    start: PdbInternalSectionOffset,
) -> Result<Vec<LineRow>>
    ensures { Gives (λ v. v.items) ⊥ result (function_rows line_program.now start) }
{
    let mut remaining = line_program.lines_for_symbol(start);
    let mut rows = Vec::with_capacity(alloc, USUAL_ROWS)?;
    while let Some(row) = remaining.next()? {
        rows.push(LineRow {
            start: row.offset.offset,
            length: row.length,
            file_index: row.file_index,
            line_start: row.line_start,
        })?;
    }
    Ok(Vec::from_slice(alloc, rows.as_slice())?)
}

impl FunctionRows {
    /// The line rows of the function that begins at `start`: the rows of the last `DEBUG_S_LINES`
    /// at or before that start, if that one is in its section; they are read to their end.
    ///
    /// # Errors
    /// `UnexpectedEof` where some block can't be read; `OutOfMemory`.
    pub fn read(
        alloc: Global,
        line_program: &LineProgram<'_>,
        start: PdbInternalSectionOffset,
    ) -> Result<FunctionRows>
        ensures { Gives (λ r. r) ⊥ result (function_rows line_program.now start) }
    {
        let rows = read_rows(alloc, line_program, start)?;
        let unordered = unless_ascending(alloc, rows.as_slice())?;
        Ok(FunctionRows { rows, unordered })
    }

    /// The row at an offset: the row with the greatest start among those that begin at it or before
    /// it, of equals the last. Rows or pieces are halved: of n as many are looked at as n has
    /// binary digits, or one fewer.
    pub fn at(&self, offset: u32) -> Option<LineRow>
        ensures { result ≡ row_at self.now offset }
    {
        match &self.unordered {
            None => row_by_halving(self.rows.as_slice(), offset).0,
            Some(unordered) => row_by_pieces(self.rows.as_slice(), &unordered.pieces, offset),
        }
    }

    /// Returns the lesser of `far` and the distance, in bytes, from an offset to the next start of
    /// a row past it. Rows, or their starts in ascending order, are halved.
    pub fn to_next_start(&self, offset: u32, far: u32) -> u32
        ensures { result ≡ up_to_next (row_starts self.now) offset far }
    {
        match &self.unordered {
            None => to_next(self.rows.as_slice(), u64::from(offset), far),
            Some(unordered) => to_next(unordered.starts.as_slice(), u64::from(offset), far),
        }
    }

    /// The approximate number of bytes of memory that they take, at most.
    pub fn memory_size(&self) -> u64 {
        let unordered = match &self.unordered {
            None => 0,
            Some(_) => PIECES_OF_SPAN + size_of::<u32>(),
        };
        memory_of(self.rows.len(), size_of::<LineRow>() + unordered)
    }
}
