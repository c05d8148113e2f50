//! Debug subsections (`DEBUG_S_*`) of C13 line data.

ghost use Rattle.std.specs.Prelude.{◌≡◌, ◌<◌, ◌^◌, length, IfOk};
ghost use Rattle.pdb_container.specs.Buffer.{rest, Reads, ReadsInSteps};
ghost use Rattle.pdb_container.specs.Fault.{Parses};
ghost use Rattle.pdb_container.specs.Listing.{ending, Advances};
ghost use Rattle.pdb_subsections.specs.Subsections.{subsection_at, subsections_of, subsection_seen};
ghost use Rattle.pdb_subsections.specs.Subsections.{split_seen, first_of, bytes_seen};

use pdb_container::{Error, FallibleIterator, ParseBuffer, Result, padding_behind};
use std::marker::Model;

/// `DEBUG_S_LINES`: the kind of a subsection of lines.
pub const LINES: u32 = 0xf2;

/// `DEBUG_S_FILECHKSMS`: the kind of a subsection of the checksums of source files.
pub const FILE_CHECKSUMS: u32 = 0xf4;

/// `DEBUG_S_INLINEELINES`: the kind of a subsection of inlinees.
pub const INLINEE_LINES: u32 = 0xf6;

/// `DEBUG_S_CROSSSCOPEIMPORTS`: the kind of a subsection of cross-module imports.
pub const CROSS_MODULE_IMPORTS: u32 = 0xf7;

/// `DEBUG_S_CROSSSCOPEEXPORTS`: the kind of a subsection of cross-module exports.
pub const CROSS_MODULE_EXPORTS: u32 = 0xf8;

/// A debug subsection of C13 line data.
#[derive(Clone, Copy, Debug)]
pub struct DebugSubsection<'a> {
    /// Its kind (`DEBUG_S_*`); with bit 31 set it is to be passed over.
    pub kind: u32,
    /// Its bytes, which follow its kind and its length.
    pub bytes: &'a [u8],
}

/// The subsection at the buffer's place. Where it is refused, the place may have moved.
#[tactic(auto, using(pdb_container::proofs::Taking::drop_within), unfolding(crate::specs::Subsections::subsection_at, pdb_container::specs::Buffer::rest))]
fn parse_subsection<'a>(buffer: &mut ParseBuffer<'a>) -> Result<DebugSubsection<'a>>
    ensures value { ReadsInSteps subsection_seen result buffer.old buffer.new subsection_at }
    ensures taken { IfOk result (λ _. length (rest buffer.new) < length (rest buffer.old)) }
{
    let kind = buffer.parse_u32()?;
    let size = buffer.parse_u32()? as usize;
    let bytes = buffer.take(size)?;
    buffer.take(padding_behind(size).min(buffer.len()))?;
    Ok(DebugSubsection { kind, bytes })
}

/// The first subsection in these bytes, and the bytes after it.
#[tactic(auto, unfolding(pdb_container::specs::Buffer::rest))]
fn split_subsection(bytes: &[u8]) -> Result<(DebugSubsection<'_>, &[u8])>
    ensures value { Parses split_seen result (subsection_at bytes.now) }
    ensures taken { IfOk result (λ x. length x.1.now < length bytes.now) }
{
    let mut buffer = ParseBuffer::from(bytes);
    let subsection = parse_subsection(&mut buffer)?;
    Ok((subsection, &bytes[buffer.pos()..]))
}

/// An iterator over the debug subsections of line data, in their order. A fault is returned once.
#[derive(Debug, Drop)]
pub struct DebugSubsectionIterator<'a> {
    bytes: &'a [u8],
}

impl<'a> Model for DebugSubsectionIterator<'a> {
    ghost use Rattle.pdb_container.specs.Listing.{Listing};
    ghost use Rattle.pdb_subsections.specs.Subsections.{Subsection, subsections_of};

    ghost Value = { Listing Subsection };

    ghost view = { λ it. subsections_of it.bytes.now };
}

impl<'a> DebugSubsectionIterator<'a> {
    /// The debug subsections in these bytes.
    pub fn new(bytes: &'a [u8]) -> DebugSubsectionIterator<'a>
        ensures { result ≡ subsections_of bytes.now }
    {
        DebugSubsectionIterator { bytes }
    }
}

impl<'a> FallibleIterator for DebugSubsectionIterator<'a> {
    type Item = DebugSubsection<'a>;

    type Error = Error;

    ghost use Rattle.std.specs.Prelude.{None};

    ghost has_ended = { λ s. s ≡ ending None };

    ghost next_gives = { Advances subsection_seen };

    #[tactic(auto, using(pdb_container::proofs::Listings::listing_next, pdb_container::proofs::Listings::listing_fault, pdb_container::proofs::Listings::listing_end, pdb_container::proofs::Listings::listing_past, crate::proofs::Steps::not_ended_here, crate::proofs::Steps::not_ended_badly))]
    fn next(&mut self) -> Result<Option<DebugSubsection<'a>>> {
        if self.bytes.is_empty() {
            return Ok(None);
        }
        match split_subsection(self.bytes) {
            Ok((subsection, left)) => {
                self.bytes = left;
                Ok(Some(subsection))
            }
            Err(fault) => {
                self.bytes = &self.bytes[self.bytes.len()..];
                Err(fault)
            }
        }
    }
}

/// The bytes of the first debug subsection of a kind, if there is one. A fault after it isn't met.
///
/// # Errors
/// `UnexpectedEof` where a subsection isn't whole, and none before it has the kind.
pub fn find_subsection(bytes: &[u8], kind: u32) -> Result<Option<&[u8]>>
    ensures { Parses bytes_seen result (first_of kind (subsections_of bytes.now)) }
{
    let mut subsections = DebugSubsectionIterator::new(bytes);
    while let Some(subsection) = subsections.next()? {
        if subsection.kind == kind {
            return Ok(Some(subsection.bytes));
        }
    }
    Ok(None)
}
