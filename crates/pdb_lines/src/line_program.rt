//! Line programs: the lines of a module's code.

ghost use Rattle.std.specs.Prelude.{◌≡◌, ◌<◌, ◌≤◌, length};
ghost use Rattle.std.specs.List.{AllWithin};
ghost use Rattle.std.specs.List.Sorted.{IsNonDecreasingBy};
ghost use Rattle.pdb_container.specs.Fault.{Parses, Gives};
ghost use Rattle.pdb_lines.specs.Checksums.{files_of, file_in, file_seen};
ghost use Rattle.pdb_lines.specs.LinesSubsections.{rank, program_of, or_nothing};
ghost use Rattle.pdb_lines.specs.LineRows.{subsection_numbered, subsections_for};
ghost use Rattle.pdb_lines.specs.LineRows.{line_rows, lines_for};
ghost use Rattle.pdb_subsections.specs.Subsections.{bytes_seen};

use crate::checksum::{FileInfo, FileIterator, file_in_list};
use crate::line_iterator::LineIterator;
use crate::lines_subsection::{LinesSubsection, rank_of, sorted_subsections};
use pdb_addresses::PdbInternalSectionOffset;
use pdb_container::{FileIndex, Result};
use pdb_subsections::{FILE_CHECKSUMS, find_subsection};
use std::alloc::Global;
use std::marker::Model;

/// A line program: the lines of a module's code (`DEBUG_S_LINES`), and the files that they are in.
#[derive(Debug, Drop)]
pub struct LineProgram<'a> {
    subsections: Vec<LinesSubsection<'a>>,
    files: &'a [u8],
}

impl<'a> Model for LineProgram<'a> {
    ghost use Rattle.std.specs.List.Sorted.{IsNonDecreasingBy};
    ghost use Rattle.pdb_lines.specs.LinesSubsections.{Program, rank};

    ghost Value = { Program };

    ghost view = { λ p. record { subsections = p.subsections.items; files = p.files.now } };

    ghost invariant = { λ p. IsNonDecreasingBy rank p.subsections.items };
}

/// The bytes that were found, or none.
fn or_no_bytes(found: Option<&[u8]>) -> &[u8]
    ensures { result.now ≡ or_nothing (bytes_seen found.entry) }
{
    match found {
        Some(bytes) => bytes,
        None => &[],
    }
}

/// The number of subsections that begin at or before a place, by their rank. It is a binary search.
fn number_at(subsections: &[LinesSubsection<'_>], at: u64) -> usize
    requires { IsNonDecreasingBy rank subsections.now }
    ensures bound { result ≤ length subsections.now }
    ensures low { AllWithin (λ r. rank r ≤ at) subsections.now 0 result }
    ensures high { AllWithin (λ r. at < rank r) subsections.now result (length subsections.now) }
{
    subsections.partition_point(|subsection: &LinesSubsection<'_>| subsection.rank() <= at)
}

impl<'a> LineProgram<'a> {
    /// The line program of a module's C13 line data. All subsections are read, and all headers of
    /// lines.
    ///
    /// # Errors
    /// `UnexpectedEof` where a subsection or a header of lines isn't whole, `OutOfMemory`.
    #[tactic(auto, unfolding(crate::specs::LinesSubsections::program_of))]
    pub fn parse(alloc: Global, bytes: &'a [u8]) -> Result<LineProgram<'a>>
        ensures { Gives (λ p. p) ⊥ result (program_of bytes.now) }
    {
        let subsections = sorted_subsections(alloc, bytes)?;
        let files = or_no_bytes(find_subsection(bytes, FILE_CHECKSUMS)?);
        Ok(LineProgram { subsections, files })
    }

    /// The number of `DEBUG_S_LINES`.
    pub fn subsection_count(&self) -> usize
        ensures { result ≡ length self.now.subsections }
    {
        self.subsections.len()
    }

    /// The number of a place's `DEBUG_S_LINES`, counted from 1 in the order of section and offset:
    /// of the last one at or before the place; 0 where that one isn't in the place's section. It is
    /// a binary search.
    #[tactic(auto, using(crate::proofs::Halving::no_subsection, crate::proofs::Halving::other_section, crate::proofs::Halving::one_subsection))]
    pub fn subsection_number(&self, place: PdbInternalSectionOffset) -> usize
        ensures bound { result ≤ length self.now.subsections }
        ensures number { subsection_numbered self.now result ≡ subsections_for self.now place }
    {
        let number = number_at(&self.subsections, rank_of(place.section, place.offset));
        if number == 0 || self.subsections[number - 1].section() != place.section {
            return 0;
        }
        number
    }

    /// The subsections of a place: the last one at or before it, where that one is in the place's
    /// section.
    #[tactic(auto, using(crate::proofs::Halving::in_row))]
    fn subsections_at(&self, place: PdbInternalSectionOffset) -> &[LinesSubsection<'a>]
        ensures { result.now ≡ subsections_for self.now place }
    {
        let number = self.subsection_number(place);
        if number == 0 {
            return &[];
        }
        &self.subsections[number - 1..number]
    }

    /// The line rows of all `DEBUG_S_LINES`, in the order of section and offset.
    pub fn lines(&self) -> LineIterator<'_>
        ensures { result ≡ line_rows self.now }
    {
        LineIterator::new(&self.subsections)
    }

    /// The line rows of one `DEBUG_S_LINES` alone: of the last one at or before a place; none where
    /// that one isn't in the place's section. Blocks of others aren't read.
    pub fn lines_for_symbol(&self, offset: PdbInternalSectionOffset) -> LineIterator<'_>
        ensures { result ≡ lines_for self.now offset }
    {
        LineIterator::new(self.subsections_at(offset))
    }

    /// The source files (`DEBUG_S_FILECHKSMS`), in their order.
    pub fn files(&self) -> FileIterator<'a>
        ensures { result ≡ files_of self.now.files }
    {
        FileIterator::new(self.files)
    }

    /// The source file with that index.
    ///
    /// # Errors
    /// `InvalidFileChecksumOffset` at the end of the files and past it, and where there are none;
    /// `UnexpectedEof` where the entry isn't whole; `UnimplementedFileChecksumKind`, which comes
    /// before the checksum's bytes are read.
    pub fn get_file_info(&self, index: FileIndex) -> Result<FileInfo<'a>>
        ensures { Parses file_seen result (file_in self.now.files index.0) }
    {
        file_in_list(self.files, index)
    }
}
