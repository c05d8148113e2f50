//! Blocks of entries of lines.

ghost use Rattle.std.specs.Prelude.{◌≡◌, ◌+◌, ◌*◌, ◌<◌, ◌≤◌, ◌^◌, length, IfOk, IfSome, option_map};
ghost use Rattle.pdb_container.specs.Buffer.{rest, ReadsInSteps};
ghost use Rattle.pdb_container.specs.Fault.{Parses};
ghost use Rattle.pdb_lines.specs.LineMarks.{block_at, block_in, columns_of, column_at as column_in};
ghost use Rattle.pdb_lines.specs.LineMarks.{is_line as is_line_number, line_kind, entry_place};
ghost use Rattle.pdb_lines.specs.LineMarks.{entry_row, entry_mark};

use crate::line_mark::{ALSO_HIDDEN, HIDDEN, LineMark};
use crate::lines_subsection::LinesSubsection;
use pdb_addresses::PdbInternalSectionOffset;
use pdb_container::{Error, FileIndex, ParseBuffer, Result, half_at, word_at};
use pdb_subsections::{LineInfo, LineInfoKind};
use std::marker::Model;

/// The number of bytes of a block before its entries.
const BLOCK_HEADER: usize = 12;

/// A lines block: the entries of one file, and the place at which their subsection begins.
#[derive(Debug, Drop)]
pub(crate) struct LinesBlock<'a> {
    section: u16,
    offset: u32,
    file: u32,
    count: usize,
    lines: &'a [u8],
    columns: Option<&'a [u8]>,
}

impl<'a> Model for LinesBlock<'a> {
    ghost use Rattle.std.specs.Prelude.{◌≡◌, ◌*◌, length, IfSome, option_map};
    ghost use Rattle.pdb_lines.specs.LineMarks.{LinesBlock as BlockValue};

    ghost Value = { BlockValue };

    ghost view = { λ b. record {
      section = b.section;
      offset = b.offset;
      file = b.file;
      count = b.count;
      lines = b.lines.now;
      columns = option_map (λ c. c.now) b.columns;
    } };

    ghost invariant = { λ b. (length b.lines.now ≡ 8 * b.count)
        × IfSome b.columns (λ c. length c.now ≡ 4 * b.count) };
}

/// The bytes of the columns of that many entries, if the subsection has columns.
fn parse_columns<'a>(
    buffer: &mut ParseBuffer<'a>,
    has_columns: bool,
    count: usize,
) -> Result<Option<&'a [u8]>>
    requires { count < 2 ^ 32 }
    ensures value { Parses (option_map (λ c. c.now)) result
        (columns_of has_columns count (rest buffer.old)) }
    ensures size { IfOk result (λ columns. IfSome columns (λ c. length c.now ≡ 4 * count)) }
{
    if !has_columns {
        return Ok(None);
    }
    Ok(Some(buffer.take(4 * count)?))
}

/// The block of a subsection in these bytes, of a file and that many entries.
#[tactic(auto, unfolding(crate::specs::LineMarks::block_in))]
fn block_of<'a>(
    subsection: &LinesSubsection<'_>,
    file: u32,
    count: u32,
    bytes: &'a [u8],
) -> Result<LinesBlock<'a>>
    ensures { Parses (λ b. b) result (block_in subsection.now file count bytes.now) }
{
    let count = count as usize;
    let mut buffer = ParseBuffer::from(bytes);
    let lines = buffer.take(8 * count)?;
    let columns = parse_columns(&mut buffer, subsection.has_columns(), count)?;
    Ok(LinesBlock {
        section: subsection.section(),
        offset: subsection.offset(),
        file,
        count,
        lines,
        columns,
    })
}

/// The block of a subsection at the buffer's place. Where it is refused, the place may have moved.
#[tactic(auto, unfolding(crate::specs::LineMarks::block_at))]
fn parse_block<'a>(
    subsection: &LinesSubsection<'_>,
    buffer: &mut ParseBuffer<'a>,
) -> Result<LinesBlock<'a>>
    ensures value { ReadsInSteps (λ b. b) result buffer.old buffer.new (block_at subsection.now) }
    ensures taken { IfOk result (λ _. length (rest buffer.new) < length (rest buffer.old)) }
{
    let file = buffer.parse_u32()?;
    let count = buffer.parse_u32()?;
    let size = buffer.parse_u32()? as usize;
    if size < BLOCK_HEADER {
        return Err(Error::UnexpectedEof);
    }
    let content = buffer.take(size - BLOCK_HEADER)?;
    block_of(subsection, file, count, content)
}

/// The first block of a subsection in these bytes, and the bytes after it.
#[tactic(auto, unfolding(pdb_container::specs::Buffer::rest))]
pub(crate) fn split_block<'a>(
    subsection: &LinesSubsection<'_>,
    bytes: &'a [u8],
) -> Result<(LinesBlock<'a>, &'a [u8])>
    ensures value { Parses (λ x. (x.0, x.1.now)) result (block_at subsection.now bytes.now) }
    ensures taken { IfOk result (λ x. length x.1.now < length bytes.now) }
{
    let mut buffer = ParseBuffer::from(bytes);
    let block = parse_block(subsection, &mut buffer)?;
    Ok((block, &bytes[buffer.pos()..]))
}

/// Whether a number is that of a line.
fn is_line(line: u32) -> bool
    ensures { result ≡ is_line_number line }
{
    line != HIDDEN && line != ALSO_HIDDEN
}

/// The kind of a row: an expression where bit 31 of its flags isn't set, otherwise a statement.
fn kind_by_flags(flags: u32) -> LineInfoKind
    ensures { result ≡ line_kind flags }
{
    if flags < 0x8000_0000 {
        LineInfoKind::Expression
    } else {
        LineInfoKind::Statement
    }
}

/// The column at a place, if the subsection has columns.
fn column_at(columns: Option<&[u8]>, at: usize) -> Option<u32>
    requires { IfSome columns (λ c. at + 2 ≤ length c.now) }
    ensures { result ≡ column_in (option_map (λ c. c.now) columns.entry) at }
{
    match columns {
        None => None,
        Some(bytes) => Some(u32::from(half_at(bytes, at))),
    }
}

impl<'a> LinesBlock<'a> {
    /// A block without entries.
    pub(crate) fn empty() -> LinesBlock<'a>
        ensures { result.count ≡ 0 }
    {
        LinesBlock {
            section: 0,
            offset: 0,
            file: 0,
            count: 0,
            lines: &[],
            columns: None,
        }
    }

    /// The number of entries.
    pub(crate) fn count(&self) -> usize
        ensures { result ≡ self.now.count }
    {
        self.count
    }

    /// The row that an entry begins at a place, if it begins one.
    fn row_at(&self, index: usize, place: u64) -> Option<LineInfo>
        requires within { index < self.now.count }
        requires place { place ≡ entry_place self.now index }
        ensures { result ≡ entry_row self.now index }
    {
        let flags = word_at(self.lines, 8 * index + 4);
        let line = flags & 0xff_ffff;
        if u64::from(u32::MAX) < place || !is_line(line) {
            return None;
        }
        Some(LineInfo {
            offset: PdbInternalSectionOffset {
                offset: place as u32,
                section: self.section,
            },
            length: None,
            file_index: FileIndex(self.file),
            line_start: line,
            line_end: line,
            column_start: column_at(self.columns, 4 * index),
            column_end: column_at(self.columns, 4 * index + 2),
            kind: kind_by_flags(flags),
        })
    }

    /// An entry's mark.
    pub(crate) fn mark(&self, index: usize) -> LineMark
        requires { index < self.now.count }
        ensures { result ≡ entry_mark self.now index }
    {
        let place = u64::from(self.offset) + u64::from(word_at(self.lines, 8 * index));
        LineMark::Entry(self.section, place, self.row_at(index, place))
    }
}
