//! Rows of lines, in their order.

ghost use Rattle.std.specs.Prelude.{◌≡◌, None, option_map};
ghost use Rattle.pdb_container.specs.Listing.{Listing, ending, before, Advances};
ghost use Rattle.pdb_lines.specs.declared.line_mark.LineMark.{LineMark as MarkValue};
ghost use Rattle.pdb_lines.specs.LineMarks.{marks_of};
ghost use Rattle.pdb_lines.specs.LineRows.{distance_to, closer as closer_of, with_length, with_row};
ghost use Rattle.pdb_lines.specs.LineRows.{rows_with_begun, rows_of, GivesRow};
ghost use Rattle.pdb_lines.specs.MarksLeft.{left_in};

use crate::line_mark::LineMark;
use crate::line_marks::LineMarks;
use crate::lines_subsection::LinesSubsection;
use pdb_addresses::PdbInternalSectionOffset;
use pdb_container::{Error, FallibleIterator, Result};
use pdb_subsections::LineInfo;
use std::marker::Model;

/// The distance forward from a place to another, of which the offset may lie past 32 bits.
fn distance(from: PdbInternalSectionOffset, section: u16, place: u64) -> Option<u32>
    ensures { result ≡ distance_to from section place }
{
    if section != from.section {
        return None;
    }
    let distance = place.checked_sub(u64::from(from.offset))?;
    u32::try_from(distance).ok()
}

/// The lesser one of two distances that may be there.
fn closer(first: Option<u32>, second: Option<u32>) -> Option<u32>
    ensures { result ≡ closer_of first second }
{
    match (first, second) {
        (None, _) => second,
        (_, None) => first,
        (Some(first), Some(second)) => Some(first.min(second)),
    }
}

/// A row, up to the mark that follows it.
fn row_up_to(row: LineInfo, section: u16, place: u64) -> LineInfo
    ensures { result
        ≡ with_length row (closer_of row.length (distance_to row.offset section place)) }
{
    let length = closer(row.length, distance(row.offset, section, place));
    LineInfo { length, ..row }
}

/// A row that may have begun, up to the mark that follows it.
fn up_to_mark(row: Option<LineInfo>, section: u16, place: u64) -> Option<LineInfo>
    ensures { result ≡ option_map
        (λ row. with_length row (closer_of row.length (distance_to row.offset section place))) row }
{
    match row {
        None => None,
        Some(row) => Some(row_up_to(row, section, place)),
    }
}

/// Passes a mark after a row that may have begun: returns the row that ends there, and the row that
/// begins.
#[tactic(auto, using(crate::proofs::RowSteps::behind_entry, crate::proofs::RowSteps::behind_end))]
fn pass_mark(row: Option<LineInfo>, mark: LineMark) -> (Option<LineInfo>, Option<LineInfo>)
    ensures { (others : Listing MarkValue) → rows_with_begun row (before mark others)
        ≡ with_row result.0 (rows_with_begun result.1 others) }
{
    match mark {
        LineMark::Entry(section, place, begun) => (up_to_mark(row, section, place), begun),
        LineMark::End(section, place) => (None, up_to_mark(row, section, place)),
    }
}

/// An iterator over rows of lines, in their order: by section and offset of their subsections, and
/// in a subsection by the order of the file. A fault is returned once. It comes in place of the row
/// before it too, of which the length isn't known.
#[derive(Debug, Drop)]
pub struct LineIterator<'a> {
    marks: LineMarks<'a>,
    row: Option<LineInfo>,
}

impl<'a> Model for LineIterator<'a> {
    ghost use Rattle.pdb_container.specs.Listing.{Listing};
    ghost use Rattle.pdb_subsections.specs.declared.line_info.LineInfo.{LineInfo as Row};
    ghost use Rattle.pdb_lines.specs.MarksLeft.{left_in};
    ghost use Rattle.pdb_lines.specs.LineRows.{rows_with_begun};

    ghost Value = { Listing Row };

    ghost view = { λ it. rows_with_begun it.row (left_in it.marks) };
}

/// The next row after one that may have begun and before these marks, and the row that has begun
/// after it.
#[tactic(auto, using(crate::proofs::RowSteps::last_row, crate::proofs::RowSteps::lost_row))]
fn next_row(
    row: Option<LineInfo>,
    marks: &mut LineMarks<'_>,
) -> Result<(Option<LineInfo>, Option<LineInfo>)>
    ensures { GivesRow (rows_with_begun row (left_in marks.old)) result (left_in marks.new) }
{
    let mut row = row;
    while let Some(mark) = marks.next()? {
        let (done, begun) = pass_mark(row, mark);
        if done.is_some() {
            return Ok((done, begun));
        }
        row = begun;
    }
    Ok((row, None))
}

impl<'a> LineIterator<'a> {
    /// The rows of subsections.
    pub(crate) fn new(subsections: &'a [LinesSubsection<'a>]) -> LineIterator<'a>
        ensures { result ≡ rows_of (marks_of subsections.now) }
    {
        LineIterator {
            marks: LineMarks::new(subsections),
            row: None,
        }
    }

    fn advance(&mut self) -> Result<Option<LineInfo>>
        ensures { Advances (λ row. row) self.old result self.new }
    {
        match next_row(self.row, &mut self.marks) {
            Ok((done, begun)) => {
                self.row = begun;
                Ok(done)
            }
            Err(fault) => {
                self.row = None;
                Err(fault)
            }
        }
    }
}

impl<'a> FallibleIterator for LineIterator<'a> {
    type Item = LineInfo;

    type Error = Error;

    ghost has_ended = { λ s. s ≡ ending None };

    ghost next_gives = { Advances (λ row. row) };

    #[tactic(auto, using(crate::proofs::RowSteps::ended_stays))]
    fn next(&mut self) -> Result<Option<LineInfo>> {
        self.advance()
    }
}
