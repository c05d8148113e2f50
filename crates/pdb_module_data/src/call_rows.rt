//! The stored rows of an inlined call, and a search of the one over a place by halving.

ghost use Rattle.std.specs.Prelude.{◌≡◌, ◌+◌, ◌++◌, IfOk, OnOk, map, option_map, slice_get, true};
ghost use Rattle.std.specs.List.{find};
ghost use Rattle.pdb_addresses.specs.SectionRun.{nearer as nearer_of, up_to_next};
ghost use Rattle.pdb_pieces.specs.Spans.{place_number as number_of_place};
ghost use Rattle.pdb_module_data.specs.InlinedCalls.{stored_rows};
ghost use Rattle.pdb_module_data.specs.InlinePieces.{kept_rows as kept_of_rows, site_row_span};
ghost use Rattle.pdb_module_data.specs.InlinePieces.{call_by_kept, covers_kept, AreShortRows};
ghost use Rattle.pdb_module_data.specs.InlinePieces.{cuts_of as cuts_of_rows, row_cuts};
ghost use Rattle.pdb_module_data.specs.InlinePieces.{IsShortRow};
ghost use Rattle.pdb_module_data.specs.InlinePieces.{row_spans, AreApart, AreFound, StandForFirst};

use crate::inline_sites::Site;
use crate::inlined_calls::{CodeSpan, InlinedCall};
use crate::inlinees::Inlinees;
use pdb_addresses::PdbInternalSectionOffset;
use pdb_container::{FallibleIterator, FileIndex, IdIndex};
use pdb_lines::InlineeLineIterator;
use pdb_pieces::{Begins, Mark, Pieces, Span, count_begun, place_number};
use std::alloc::{AllocError, Global};

/// The greatest end of a section: its offsets have 32 bits.
const SECTION_END: u64 = 0x1_0000_0000;

/// A row of an inlined call that covers something: the start and the number of bytes of its code,
/// and its file and line.
#[derive(Clone, Copy, Debug, PartialEq, Eq)]
pub struct CallRow {
    /// The start of the code: a section's number, counted from 1, and an offset in bytes.
    pub offset: PdbInternalSectionOffset,
    /// The number of bytes of code, at least 1.
    pub length: u32,
    /// The file, by its place among the module's checksums, in bytes.
    pub file_index: FileIndex,
    /// The line, counted from 1.
    pub line_start: u32,
}

/// A row begins at the number of its place.
impl Begins for CallRow {
    ghost use Rattle.pdb_pieces.specs.Spans.{place_number};

    ghost beginning = { λ row. place_number row.offset };

    fn begins_at(&self) -> u64 {
        place_number(self.offset)
    }
}

/// Appends the stored rows; a fault ends them.
fn push_kept(kept: &mut Vec<CallRow>, mut rows: InlineeLineIterator<'_>) -> Result<(), AllocError>
    ensures { OnOk result (kept.new.items ≡ kept.old.items ++ kept_of_rows rows.entry.items) }
{
    while let Ok(Some(row)) = rows.next() {
        let length = row.length.unwrap_or(0);
        if length > 0 {
            kept.push(CallRow {
                offset: row.offset,
                length,
                file_index: row.file_index,
                line_start: row.line_start,
            })?;
        }
    }
    Ok(())
}

/// Appends the stored rows of a site, where its procedure begins at `start`.
pub fn push_site_rows<'a>(
    kept: &mut Vec<CallRow>,
    site: &Site<'a>,
    inlinees: &Inlinees<'a>,
    start: PdbInternalSectionOffset,
) -> Result<(), AllocError>
    ensures { OnOk result
        (kept.new.items ≡ kept.old.items
        ++ kept_of_rows (stored_rows inlinees.now start site.now.call)) }
{
    match inlinees.get(site.call.inlinee) {
        None => Ok(()),
        Some(inlinee) => push_kept(kept, inlinee.lines(start, &site.call)),
    }
}

/// The span that a row of the site of this number covers, ranked by the site's depth.
fn call_row_span(number: usize, depth: usize, row: CallRow) -> Span
    ensures span { result ≡ site_row_span number depth row }
    ensures short { IsShortRow row }
{
    let start = place_number(row.offset);
    Span {
        start,
        end: start + u64::from(row.length),
        mark: Mark {
            rank: depth as u64,
            value: number,
        },
    }
}

/// Appends the spans that the rows of a site cover.
pub fn push_spans(
    spans: &mut Vec<Span>,
    number: usize,
    depth: usize,
    rows: &[CallRow],
) -> Result<(), AllocError>
    ensures spans { OnOk result
        (spans.new.items ≡ spans.old.items ++ map (site_row_span number depth) rows.now) }
    ensures short { OnOk result (AreShortRows rows.now) }
{
    for row in rows {
        spans.push(call_row_span(number, depth, *row))?;
    }
    Ok(())
}

/// The lesser of `far` and the distance from an offset to a place, if that lies past it.
fn nearer(offset: u32, place: u64, far: u32) -> u32
    ensures { result ≡ nearer_of offset place far }
{
    let distance = place.saturating_sub(u64::from(offset));
    if 0 < distance && distance < u64::from(far) {
        distance as u32
    } else {
        far
    }
}

/// The lesser of `far` and the distances from an offset to the start and the end of a row past it.
/// A row ends at 2^32 at the latest.
fn to_cut(row: &CallRow, offset: u32, far: u32) -> u32
    ensures { result ≡ up_to_next (row_cuts row.now) offset far }
{
    let start = u64::from(row.offset.offset);
    let end = start + u64::from(row.length);
    nearer(offset, start, nearer(offset, end.min(SECTION_END), far))
}

/// The lesser of `far` and the distance from an offset to the next place past it at which a row
/// begins or ends. It takes a step for each row.
pub fn to_next_cut_of(rows: &[CallRow], offset: u32, far: u32) -> u32
    ensures { result ≡ up_to_next (cuts_of_rows rows.now) offset far }
{
    let mut nearest = far;
    for row in rows {
        nearest = to_cut(row, offset, nearest);
    }
    nearest
}

/// Whether a row covers a place.
pub fn covers(row: &CallRow, place: PdbInternalSectionOffset) -> bool
    ensures { result ≡ covers_kept place row.now }
{
    row.offset.section == place.section
        && row.offset.offset <= place.offset
        && u64::from(place.offset) < u64::from(row.offset.offset) + u64::from(row.length)
}

/// The number of the place after the last byte of a row.
fn end_of(row: CallRow) -> u64
    ensures { result ≡ number_of_place row.offset + row.length }
{
    place_number(row.offset) + u64::from(row.length)
}

/// Whether each row begins where the one before it ends, or after that.
fn are_apart(rows: &[CallRow]) -> bool
    ensures { result ≡ true → AreApart 0 rows.now }
{
    let mut end = 0;
    for row in rows {
        if row.begins_at() < end {
            return false;
        }
        end = end_of(*row);
    }
    true
}

/// The spans that rows cover, each with its number among them, all of one rank: of equals the first
/// counts.
fn numbered_spans(alloc: Global, rows: &[CallRow]) -> Result<Vec<Span>, AllocError>
    ensures spans { IfOk result (λ v. v.items ≡ row_spans 0 rows.now) }
    ensures short { IfOk result (λ v. AreShortRows rows.now) }
{
    let mut spans = Vec::with_capacity(alloc, rows.len())?;
    for (number, row) in rows.iter().enumerate() {
        spans.push(call_row_span(number, 0, *row))?;
    }
    Ok(spans)
}

/// Pieces of places with the number of the first row over each.
#[tactic(auto, using(crate::proofs::CallRowSteps::stand_for_first))]
fn call_row_pieces(alloc: Global, rows: &[CallRow]) -> Result<Pieces, AllocError>
    ensures { IfOk result (λ pieces. StandForFirst pieces rows.now) }
{
    let spans = numbered_spans(alloc, rows)?;
    Pieces::new(alloc, spans.as_slice())
}

/// Pieces of places with the number of the first row over each, unless the rows lie apart in
/// ascending order.
pub fn pieces_unless_apart(alloc: Global, rows: &[CallRow]) -> Result<Option<Pieces>, AllocError>
    ensures { IfOk result (λ pieces. AreFound rows.now pieces) }
{
    if are_apart(rows) {
        return Ok(None);
    }
    let pieces = call_row_pieces(alloc, rows)?;
    Ok(Some(pieces))
}

/// The row with that number, if it is there.
fn call_row_numbered(rows: &[CallRow], number: usize) -> Option<CallRow>
    ensures { result ≡ slice_get rows.now number }
{
    rows.get(number).copied()
}

/// The row over a place, of rows that lie apart in ascending order: no row but the last one that
/// begins there or before can be over it.
fn call_row_by_halving(rows: &[CallRow], place: PdbInternalSectionOffset) -> Option<CallRow>
    requires { AreApart 0 rows.now }
    ensures { result ≡ find (covers_kept place) rows.now }
{
    let count = count_begun(rows, place_number(place)).0;
    if count == 0 {
        return None;
    }
    let last = call_row_numbered(rows, count - 1)?;
    if covers(&last, place) {
        Some(last)
    } else {
        None
    }
}

/// The first row over a place, by pieces.
fn call_row_by_pieces(
    rows: &[CallRow],
    pieces: &Pieces,
    place: PdbInternalSectionOffset,
) -> Option<CallRow>
    requires { StandForFirst pieces.now rows.now }
    ensures { result ≡ find (covers_kept place) rows.now }
{
    let number = pieces.value_at(place)?;
    call_row_numbered(rows, number)
}

/// The first row that covers a place. Rows or pieces are halved.
fn row_over(
    rows: &[CallRow],
    pieces: Option<&Pieces>,
    place: PdbInternalSectionOffset,
) -> Option<CallRow>
    requires { AreFound rows.now (option_map (λ p. p.now) pieces) }
    ensures { result ≡ find (covers_kept place) rows.now }
{
    match pieces {
        None => call_row_by_halving(rows, place),
        Some(pieces) => call_row_by_pieces(rows, pieces, place),
    }
}

/// A call over a place, from its stored rows, and by pieces where these don't lie apart.
pub fn call_over(
    inlinee: IdIndex,
    rows: &[CallRow],
    pieces: Option<&Pieces>,
    place: PdbInternalSectionOffset,
) -> InlinedCall
    requires { AreFound rows.now (option_map (λ p. p.now) pieces) }
    ensures { result ≡ call_by_kept inlinee (find (covers_kept place) rows.now) rows.now }
{
    match row_over(rows, pieces, place) {
        Some(row) => InlinedCall {
            inlinee,
            file: Some(row.file_index),
            line: Some(row.line_start),
            row: Some(CodeSpan {
                offset: row.offset,
                length: row.length,
            }),
        },
        None => InlinedCall {
            inlinee,
            file: match rows.first() {
                None => None,
                Some(row) => Some(row.file_index),
            },
            line: None,
            row: None,
        },
    }
}
