//! The state of an inlined call's rows before an annotation.

ghost use Rattle.std.specs.Prelude.{◌≡◌, [], ◌∷◌, unwrap_or, option_map};
ghost use Rattle.pdb_lines.specs.InlinedRows.{row_behind, length_by, place_behind, line_behind};
ghost use Rattle.pdb_lines.specs.InlinedRows.{last_line_behind, last_column_behind};
ghost use Rattle.pdb_lines.specs.InlinedRows.{is_same_kind};
ghost use Rattle.pdb_lines.specs.Operands.{own_length, range_kind, column_change};
ghost use Rattle.pdb_symbol_records.specs.declared.annotation.BinaryAnnotation.TheVariants as kinds;
ghost use Rattle.pdb_lines.specs.RowsToCome.{state_behind, moved_on};

use pdb_addresses::PdbInternalSectionOffset;
use pdb_container::FileIndex;
use pdb_subsections::{LineInfo, LineInfoKind};
use pdb_symbol_records::BinaryAnnotation;

/// The state before the annotations that are still to come.
#[derive(Clone, Copy, Debug)]
pub(crate) struct AnnotationState {
    /// The section's number, counted from 1.
    pub section: u16,
    /// The offset at which the code goes on, in bytes.
    pub offset: u32,
    /// The number that is added to that offset at each row, in bytes.
    pub base: u32,
    /// The file of the next row.
    pub file: FileIndex,
    /// The line of the next row, counted from 1.
    pub line: u32,
    /// The distance in lines from the first line to the last one.
    pub line_length: u32,
    /// The first column, where one was given.
    pub first_column: Option<u32>,
    /// The last column, where one was given.
    pub last_column: Option<u32>,
    /// The kind of the next row.
    pub kind: LineInfoKind,
}

fn kind_by(number: u32, kind: LineInfoKind) -> LineInfoKind
    ensures { result ≡ unwrap_or (range_kind (kinds.ChangeRangeKind number)) kind }
{
    match number {
        0 => LineInfoKind::Expression,
        1 => LineInfoKind::Statement,
        _ => kind,
    }
}

fn moved_column(column: Option<u32>, columns: i32) -> Option<u32>
    ensures { result ≡ option_map (moved_on (column_change (kinds.ChangeColumnEndDelta columns)))
        column }
{
    match column {
        None => None,
        Some(column) => Some(column.wrapping_add(columns.cast_unsigned())),
    }
}

impl AnnotationState {
    /// Goes on to the state after an annotation.
    pub(crate) fn pass(&mut self, annotation: BinaryAnnotation)
        ensures { self.new ≡ state_behind self.old annotation }
    {
        match annotation {
            BinaryAnnotation::CodeOffset(offset) => self.offset = offset,
            BinaryAnnotation::ChangeCodeOffsetBase(base) => self.base = base,
            BinaryAnnotation::ChangeCodeOffset(offset) => {
                self.offset = self.offset.wrapping_add(offset);
            }
            BinaryAnnotation::ChangeCodeLength(length) => {
                self.offset = self.offset.wrapping_add(length);
            }
            BinaryAnnotation::ChangeFile(file) => self.file = file,
            BinaryAnnotation::ChangeLineOffset(lines) => {
                self.line = self.line.wrapping_add(lines.cast_unsigned());
            }
            BinaryAnnotation::ChangeLineEndDelta(line_length) => self.line_length = line_length,
            BinaryAnnotation::ChangeRangeKind(number) => self.kind = kind_by(number, self.kind),
            BinaryAnnotation::ChangeColumnStart(column) => self.first_column = Some(column),
            BinaryAnnotation::ChangeColumnEndDelta(columns) => {
                self.last_column = moved_column(self.last_column, columns);
            }
            BinaryAnnotation::ChangeCodeOffsetAndLineOffset(offset, lines) => {
                self.offset = self.offset.wrapping_add(offset);
                self.line = self.line.wrapping_add(lines.cast_unsigned());
            }
            BinaryAnnotation::ChangeCodeLengthAndCodeOffset(_, offset) => {
                self.offset = self.offset.wrapping_add(offset);
            }
            BinaryAnnotation::ChangeColumnEnd(column) => self.last_column = Some(column),
        }
    }

    /// The offset at which a row begins here.
    #[tactic(auto, unfolding(crate::specs::InlinedRows::place_behind))]
    pub(crate) fn place(self) -> u32
        ensures { result ≡ place_behind self [] }
    {
        self.offset.wrapping_add(self.base)
    }

    /// The line of a row that begins here.
    #[tactic(auto, unfolding(crate::specs::InlinedRows::line_behind))]
    fn line(self) -> u32
        ensures { result ≡ line_behind self [] }
    {
        self.line
    }

    /// The last line of a row that begins here.
    #[tactic(auto, unfolding(crate::specs::InlinedRows::last_line_behind))]
    fn last_line(self) -> u32
        ensures { result ≡ last_line_behind self [] }
    {
        self.line().wrapping_add(self.line_length)
    }

    /// The last column of a row that begins here.
    #[tactic(auto, unfolding(crate::specs::InlinedRows::last_column_behind))]
    fn last_column(self) -> Option<u32>
        ensures { result ≡ last_column_behind self [] }
    {
        self.last_column
    }

    /// The row that begins here.
    #[tactic(auto, unfolding(crate::specs::InlinedRows::row_behind))]
    pub(crate) fn row(self, length: Option<u32>) -> LineInfo
        ensures { result ≡ row_behind self [] length }
    {
        LineInfo {
            offset: PdbInternalSectionOffset {
                offset: self.place(),
                section: self.section,
            },
            length,
            file_index: self.file,
            line_start: self.line(),
            line_end: self.last_line(),
            column_start: self.first_column,
            column_end: self.last_column(),
            kind: self.kind,
        }
    }
}
