//! Line marks: places where entries of lines begin, and places where lines subsections end; the
//! marks of a block's entries.

ghost use Rattle.std.specs.Prelude.{◌≡◌, []};
ghost use Rattle.pdb_lines.specs.LineMarks.{entries_of, GivesMark};

use crate::lines_block::LinesBlock;
use pdb_subsections::LineInfo;
use std::marker::Model;

/// A number that marks an entry without a line.
pub(crate) const HIDDEN: u32 = 0xfe_efee;

/// Another number that marks an entry without a line.
pub(crate) const ALSO_HIDDEN: u32 = 0xf0_0f00;

/// A line mark: a place in a section; its offset may lie past 32 bits.
#[derive(Clone, Copy, Debug)]
pub(crate) enum LineMark {
    /// An entry, and the row that it begins, if it begins one.
    Entry(u16, u64, Option<LineInfo>),
    /// The end of a subsection.
    End(u16, u64),
}

/// The entries of a block that are still to come.
#[derive(Debug, Drop)]
pub(crate) struct LineEntries<'a> {
    block: LinesBlock<'a>,
    index: usize,
}

impl<'a> Model for LineEntries<'a> {
    ghost use Rattle.std.specs.Prelude.{List};
    ghost use Rattle.pdb_lines.specs.LineMarks.{entries_from};
    ghost use Rattle.pdb_lines.specs.declared.line_mark.LineMark.{LineMark as MarkValue};

    ghost Value = { List MarkValue };

    ghost view = { λ e. entries_from e.block e.index };
}

impl<'a> LineEntries<'a> {
    /// No entries.
    pub(crate) fn none() -> LineEntries<'a>
        ensures { result ≡ [] }
    {
        LineEntries::of(LinesBlock::empty())
    }

    /// The entries of a block.
    pub(crate) fn of(block: LinesBlock<'a>) -> LineEntries<'a>
        ensures { result ≡ entries_of block.entry }
    {
        LineEntries { block, index: 0 }
    }

    /// The next entry's mark.
    #[tactic(auto, using(crate::proofs::MarkSteps::entry_here, crate::proofs::MarkSteps::no_entry))]
    pub(crate) fn next(&mut self) -> Option<LineMark>
        ensures { GivesMark self.old result self.new }
    {
        if self.block.count() <= self.index {
            return None;
        }
        let mark = self.block.mark(self.index);
        self.index += 1;
        Some(mark)
    }
}
