//! The marks of lines subsections (`DEBUG_S_LINES`), in their order.

ghost use Rattle.std.specs.Prelude.{◌≡◌, []};
ghost use Rattle.pdb_container.specs.Listing.{ending, Advances};
ghost use Rattle.pdb_lines.specs.LineMarks.{marks_of, marks_left};
ghost use Rattle.pdb_lines.specs.MarksLeft.{left_in};

use crate::line_mark::{LineEntries, LineMark};
use crate::lines_block::split_block;
use crate::lines_subsection::LinesSubsection;
use pdb_container::Result;

/// The marks of subsections that are still to come: those of entries, of blocks of the first
/// subsection, and of the other subsections.
#[derive(Debug, Drop)]
pub(crate) struct LineMarks<'a> {
    entries: LineEntries<'a>,
    bytes: &'a [u8],
    subsections: &'a [LinesSubsection<'a>],
}

/// The bytes of the first subsection's blocks.
#[tactic(auto, using(crate::proofs::MarkSteps::marks_start, crate::proofs::MarkSteps::marks_start_none))]
fn first_blocks<'a>(subsections: &'a [LinesSubsection<'a>]) -> &'a [u8]
    ensures { marks_left [] result.now subsections.now ≡ marks_of subsections.now }
{
    match subsections.first() {
        None => &[],
        Some(subsection) => subsection.blocks(),
    }
}

impl<'a> LineMarks<'a> {
    /// The marks of subsections.
    pub(crate) fn new(subsections: &'a [LinesSubsection<'a>]) -> LineMarks<'a>
        ensures { left_in result ≡ marks_of subsections.now }
    {
        LineMarks {
            entries: LineEntries::none(),
            bytes: first_blocks(subsections),
            subsections,
        }
    }

    /// The next mark. A fault is returned once.
    #[tactic(auto, using(crate::proofs::MarkSteps::mark_of_entry, crate::proofs::MarkSteps::no_mark, crate::proofs::MarkSteps::mark_of_end_here, crate::proofs::MarkSteps::block_read, crate::proofs::MarkSteps::block_fault))]
    pub(crate) fn next(&mut self) -> Result<Option<LineMark>>
        ensures { Advances (λ m. m) (left_in self.old) result (left_in self.new) }
    {
        loop {
            if let Some(mark) = self.entries.next() {
                return Ok(Some(mark));
            }
            let Some(subsection) = self.subsections.first() else {
                return Ok(None);
            };
            if self.bytes.is_empty() {
                self.subsections = &self.subsections[1..];
                self.bytes = first_blocks(self.subsections);
                return Ok(Some(LineMark::End(subsection.section(), subsection.end())));
            }
            match split_block(subsection, self.bytes) {
                Ok((block, left)) => {
                    self.entries = LineEntries::of(block);
                    self.bytes = left;
                }
                Err(fault) => {
                    self.subsections = &[];
                    return Err(fault);
                }
            }
        }
    }
}
