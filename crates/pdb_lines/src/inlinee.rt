//! Inlinees (`DEBUG_S_INLINEELINES`): inlined functions.

ghost use Rattle.std.specs.Prelude.{◌≡◌, ◌<◌, ◌≤◌, [], None, length, IfOk};
ghost use Rattle.pdb_container.specs.Buffer.{rest, ParsesFront};
ghost use Rattle.pdb_container.specs.Fault.{Parses};
ghost use Rattle.pdb_container.specs.Listing.{ending, Advances};
ghost use Rattle.pdb_symbol_records.specs.Annotations.{annotation_bytes};
ghost use Rattle.pdb_lines.specs.Inlinee.{inlined_function};
ghost use Rattle.pdb_lines.specs.Inlinees.{files_at, further_files_at, inlinee_at, inlinees_of};
ghost use Rattle.pdb_lines.specs.InlinedRows.{inlined_rows};

use crate::annotation_state::AnnotationState;
use crate::inlinee_line_iterator::InlineeLineIterator;
use pdb_addresses::PdbInternalSectionOffset;
use pdb_container::{Error, FallibleIterator, FileIndex, IdIndex, ParseBuffer, Result};
use pdb_subsections::LineInfoKind;
use pdb_symbol_records::InlineSiteSymbol;
use std::marker::{Model, PhantomData};

/// An inlinee: a function that was inlined, by its id, with the file and line at which its text
/// begins.
#[derive(Clone, Copy, Debug)]
pub struct Inlinee<'a> {
    index: IdIndex,
    file: FileIndex,
    line: u32,
    of: PhantomData<&'a [u8]>,
}

impl<'a> Inlinee<'a> {
    /// The inlinee's id in the IPI.
    pub fn index(&self) -> IdIndex
        ensures { result ≡ (inlined_function self.now).index }
    {
        self.index
    }

    /// The line rows of a call of the inlinee, where the procedure around the call begins at
    /// `parent_offset`.
    pub fn lines(
        &self,
        parent_offset: PdbInternalSectionOffset,
        inline_site: &InlineSiteSymbol<'a>,
    ) -> InlineeLineIterator<'a>
        ensures { result ≡ inlined_rows parent_offset (inlined_function self.now)
            (annotation_bytes inline_site.now.annotations) }
    {
        let origin = AnnotationState {
            section: parent_offset.section,
            offset: parent_offset.offset,
            base: 0,
            file: self.file,
            line: self.line,
            line_length: 1,
            first_column: None,
            last_column: None,
            kind: LineInfoKind::Statement,
        };
        InlineeLineIterator::over_annotations(inline_site.annotations.iter(), origin)
    }
}

fn no_bytes<'a>() -> &'a [u8]
    ensures { result.now ≡ [] }
{
    &[]
}

/// The further files of an entry, as bytes, after their count.
#[tactic(auto, unfolding(crate::specs::Inlinees::files_at))]
fn take_files<'a>(buffer: &mut ParseBuffer<'a>) -> Result<&'a [u8]>
    ensures value { ParsesFront (λ files. files.now) result (rest buffer.new)
        (files_at (rest buffer.old)) }
    ensures taken { IfOk result (λ _. length (rest buffer.new) ≤ length (rest buffer.old)) }
{
    let count = buffer.parse_u32()?;
    buffer.take(4 * count as usize)
}

/// The further files of an entry, as bytes; none, where entries have none.
fn take_further_files<'a>(buffer: &mut ParseBuffer<'a>, has_files: bool) -> Result<&'a [u8]>
    ensures value { ParsesFront (λ files. files.now) result (rest buffer.new)
        (further_files_at has_files (rest buffer.old)) }
    ensures taken { IfOk result (λ _. length (rest buffer.new) ≤ length (rest buffer.old)) }
{
    if has_files {
        take_files(buffer)
    } else {
        Ok(no_bytes())
    }
}

/// An entry, which may have further files.
#[tactic(auto, unfolding(crate::specs::Inlinees::inlinee_at))]
fn parse_entry<'a>(buffer: &mut ParseBuffer<'a>, has_files: bool) -> Result<Inlinee<'a>>
    ensures value { ParsesFront inlined_function result (rest buffer.new)
        (inlinee_at has_files (rest buffer.old)) }
    ensures taken { IfOk result (λ _. length (rest buffer.new) < length (rest buffer.old)) }
{
    let index = IdIndex(buffer.parse_u32()?);
    let file = FileIndex(buffer.parse_u32()?);
    let line = buffer.parse_u32()?;
    let _ = take_further_files(buffer, has_files)?;
    Ok(Inlinee {
        index,
        file,
        line,
        of: PhantomData,
    })
}

/// An iterator over the inlinees of a module. In place of one that can't be read it returns
/// `UnexpectedEof`. No inlinee comes after that.
#[derive(Debug, Drop)]
pub struct InlineeIterator<'a> {
    buffer: ParseBuffer<'a>,
    has_files: bool,
    has_ended: bool,
}

impl<'a> Model for InlineeIterator<'a> {
    ghost use Rattle.std.specs.Prelude.{None, if◌then◌else◌};
    ghost use Rattle.pdb_container.specs.Buffer.{rest};
    ghost use Rattle.pdb_container.specs.Listing.{Listing, ending, listing};
    ghost use Rattle.pdb_lines.specs.Inlinees.{InlinedFunction, inlinee_at};

    ghost Value = { Listing InlinedFunction };

    ghost view = { λ i. if i.has_ended then ending None
        else listing (inlinee_at i.has_files) (rest i.buffer) };
}

impl<'a> InlineeIterator<'a> {
    /// The inlinees in the bytes of a `DEBUG_S_INLINEELINES`.
    ///
    /// # Errors
    /// `UnexpectedEof` where there are fewer than four bytes. The iterator returns the fault of an
    /// entry.
    #[tactic(auto, unfolding(crate::specs::Inlinees::inlinees_of))]
    pub fn parse(bytes: &'a [u8]) -> Result<InlineeIterator<'a>>
        ensures { Parses (λ i. i) result (inlinees_of bytes.now) }
    {
        let mut buffer = ParseBuffer::from(bytes);
        let signature = buffer.parse_u32()?;
        Ok(InlineeIterator {
            buffer,
            has_files: signature == 1,
            has_ended: false,
        })
    }

    /// The empty list of inlinees of a module without `DEBUG_S_INLINEELINES`.
    pub fn empty() -> InlineeIterator<'a>
        ensures { result ≡ ending None }
    {
        InlineeIterator {
            buffer: ParseBuffer::from(no_bytes()),
            has_files: false,
            has_ended: true,
        }
    }
}

impl<'a> FallibleIterator for InlineeIterator<'a> {
    type Item = Inlinee<'a>;

    type Error = Error;

    ghost has_ended = { λ i. i ≡ ending None };

    ghost next_gives = { Advances inlined_function };

    #[tactic(auto, using(crate::proofs::Entries::inlinee_next, crate::proofs::Entries::inlinee_fault, crate::proofs::Entries::inlinee_end))]
    fn next(&mut self) -> Result<Option<Inlinee<'a>>> {
        if self.has_ended || self.buffer.is_empty() {
            return Ok(None);
        }
        match parse_entry(&mut self.buffer, self.has_files) {
            Ok(inlinee) => Ok(Some(inlinee)),
            Err(fault) => {
                self.has_ended = true;
                Err(fault)
            }
        }
    }
}
