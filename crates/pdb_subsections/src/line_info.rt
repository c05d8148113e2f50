//! Rows of line data.

use pdb_addresses::PdbInternalSectionOffset;
use pdb_container::FileIndex;

/// The kind of a row: whether its code was made of an expression or a statement.
#[derive(Clone, Copy, Debug, PartialEq, Eq)]
pub enum LineInfoKind {
    /// An expression.
    Expression,
    /// A statement.
    Statement,
}

/// A row of line data: the lines and columns of a file from which the code from a place on was
/// made.
#[derive(Clone, Copy, Debug, PartialEq, Eq)]
pub struct LineInfo {
    /// The start of the code: a section's number, counted from 1, and an offset in bytes.
    pub offset: PdbInternalSectionOffset,
    /// The number of bytes of code, where that is known.
    pub length: Option<u32>,
    /// The file, by its place among the module's checksums, in bytes.
    pub file_index: FileIndex,
    /// The first line, counted from 1.
    pub line_start: u32,
    /// The last line, counted from 1.
    pub line_end: u32,
    /// The first column, where one is given.
    pub column_start: Option<u32>,
    /// The last column, where one is given.
    pub column_end: Option<u32>,
    /// The kind of the row.
    pub kind: LineInfoKind,
}
