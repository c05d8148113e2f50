//! Lines subsections (`DEBUG_S_LINES`): runs of code and the lines from which they were made.

ghost use Rattle.std.specs.Prelude.{◌≡◌, ◌+◌, IfOk};
ghost use Rattle.std.specs.List.Sorted.{IsNonDecreasingBy};
ghost use Rattle.pdb_container.specs.Fault.{Parses, Gives};
ghost use Rattle.pdb_subsections.specs.Subsections.{subsections_of};
ghost use Rattle.pdb_lines.specs.LinesSubsections.{place_rank, rank, lines_subsection_of};
ghost use Rattle.pdb_lines.specs.LinesSubsections.{lines_subsections_of, sorted_subsections_of};

use pdb_container::{FallibleIterator, ParseBuffer, Result};
use pdb_subsections::{DebugSubsectionIterator, LINES};
use std::alloc::Global;
use std::marker::Model;

/// A lines subsection (`DEBUG_S_LINES`): the start and the length of its code, and the bytes of its
/// blocks.
#[derive(Debug, Drop)]
pub(crate) struct LinesSubsection<'a> {
    section: u16,
    offset: u32,
    size: u32,
    has_columns: bool,
    blocks: &'a [u8],
}

impl<'a> Model for LinesSubsection<'a> {
    ghost use Rattle.pdb_lines.specs.LinesSubsections.{LinesSubsection as SubsectionValue};

    ghost Value = { SubsectionValue };

    ghost view = { λ r. record {
      section = r.section;
      offset = r.offset;
      size = r.size;
      has_columns = r.has_columns;
      blocks = r.blocks.now;
    } };
}

/// A place as one number, by its section first.
pub(crate) fn rank_of(section: u16, offset: u32) -> u64
    ensures { result ≡ place_rank section offset }
{
    u64::from(section) * 0x1_0000_0000 + u64::from(offset)
}

impl<'a> LinesSubsection<'a> {
    /// The lines subsection that these bytes hold.
    #[tactic(auto, unfolding(crate::specs::LinesSubsections::lines_subsection_of, pdb_container::specs::Buffer::rest))]
    fn parse(bytes: &'a [u8]) -> Result<LinesSubsection<'a>>
        ensures { Parses (λ r. r) result (lines_subsection_of bytes.now) }
    {
        let mut buffer = ParseBuffer::from(bytes);
        let offset = buffer.parse_u32()?;
        let section = buffer.parse_u16()?;
        let flags = buffer.parse_u16()?;
        let size = buffer.parse_u32()?;
        Ok(LinesSubsection {
            section,
            offset,
            size,
            has_columns: flags & 1 != 0,
            blocks: &bytes[buffer.pos()..],
        })
    }

    /// The number of its section.
    pub(crate) fn section(&self) -> u16
        ensures { result ≡ self.now.section }
    {
        self.section
    }

    /// Its start in its section.
    pub(crate) fn offset(&self) -> u32
        ensures { result ≡ self.now.offset }
    {
        self.offset
    }

    /// Its end in its section.
    pub(crate) fn end(&self) -> u64
        ensures { result ≡ self.now.offset + self.now.size }
    {
        u64::from(self.offset) + u64::from(self.size)
    }

    /// Whether its blocks have columns.
    pub(crate) fn has_columns(&self) -> bool
        ensures { result ≡ self.now.has_columns }
    {
        self.has_columns
    }

    /// The bytes of its blocks.
    pub(crate) fn blocks(&self) -> &'a [u8]
        ensures { result.now ≡ self.now.blocks }
    {
        self.blocks
    }

    /// Its place as one number.
    pub(crate) fn rank(&self) -> u64
        ensures { result ≡ rank self.now }
    {
        rank_of(self.section, self.offset)
    }
}

/// The lines subsections of line data, in the order of the file.
fn subsections_in_file(alloc: Global, bytes: &[u8]) -> Result<Vec<LinesSubsection<'_>>>
    ensures { Gives (λ v. v.items) ⊥ result (lines_subsections_of (subsections_of bytes.now)) }
{
    let mut remaining = DebugSubsectionIterator::new(bytes);
    let mut subsections = Vec::new(alloc);
    while let Some(found) = remaining.next()? {
        if found.kind == LINES {
            subsections.push(LinesSubsection::parse(found.bytes)?)?;
        }
    }
    Ok(subsections)
}

/// The lines subsections of line data, by section and offset.
pub(crate) fn sorted_subsections(alloc: Global, bytes: &[u8]) -> Result<Vec<LinesSubsection<'_>>>
    ensures value { Gives (λ v. v.items) ⊥ result
        (sorted_subsections_of (subsections_of bytes.now)) }
    ensures order { IfOk result (λ v. IsNonDecreasingBy rank v.items) }
{
    let mut subsections = subsections_in_file(alloc, bytes)?;
    subsections.sort_by_key(|subsection: &LinesSubsection<'_>| subsection.rank())?;
    Ok(subsections)
}
