//! Binary annotations, in bytes and one by one.

ghost use Rattle.std.specs.Prelude.{◌≡◌, None, length};
ghost use Rattle.pdb_container.specs.Buffer.{rest};
ghost use Rattle.pdb_container.specs.Listing.{Listing, ending, Advances};
ghost use Rattle.pdb_symbol_records.specs.Annotations.{annotation_bytes, annotations_of};

use crate::annotation::{BinaryAnnotation, parse_annotation};
use pdb_container::{Error, FallibleIterator, ParseBuffer, Result};
use std::marker::Model;

/// Binary annotations of an inline site, in bytes.
#[derive(Clone, Copy, Debug)]
pub struct BinaryAnnotations<'t> {
    bytes: &'t [u8],
}

impl<'t> BinaryAnnotations<'t> {
    /// The binary annotations that these bytes spell.
    pub fn new(bytes: &'t [u8]) -> BinaryAnnotations<'t>
        ensures { annotation_bytes result ≡ bytes.now }
    {
        BinaryAnnotations { bytes }
    }

    /// The binary annotations one by one, up to the first end.
    pub fn iter(&self) -> BinaryAnnotationsIter<'t>
        ensures { result ≡ annotations_of (annotation_bytes self.now) }
    {
        BinaryAnnotationsIter {
            buffer: ParseBuffer::from(self.bytes),
            has_ended: false,
        }
    }
}

/// An iterator over binary annotations. In place of one that can't be read it returns its fault:
/// `UnexpectedEof`, `InvalidCompressedAnnotation` or `UnknownBinaryAnnotation`. No annotation comes
/// after a fault.
#[derive(Debug, Drop)]
pub struct BinaryAnnotationsIter<'t> {
    buffer: ParseBuffer<'t>,
    has_ended: bool,
}

impl<'t> Model for BinaryAnnotationsIter<'t> {
    ghost use Rattle.std.specs.Prelude.{None, if◌then◌else◌};
    ghost use Rattle.pdb_container.specs.Buffer.{rest};
    ghost use Rattle.pdb_container.specs.Listing.{Listing, ending};
    ghost use Rattle.pdb_symbol_records.specs.declared.annotation.BinaryAnnotation.{BinaryAnnotation};
    ghost use Rattle.pdb_symbol_records.specs.Annotations.{annotations_of};

    ghost Value = { Listing BinaryAnnotation };

    ghost view = { λ i. if i.has_ended then ending None else annotations_of (rest i.buffer) };
}

impl<'t> FallibleIterator for BinaryAnnotationsIter<'t> {
    type Item = BinaryAnnotation;

    type Error = Error;

    ghost has_ended = { λ i. i ≡ ending None };

    ghost next_gives = { Advances (λ a. a) };

    #[tactic(auto, using(crate::proofs::Annotating::annotation_next, crate::proofs::Annotating::annotation_end, crate::proofs::Annotating::annotation_fault, crate::proofs::Annotating::annotation_none))]
    fn next(&mut self) -> Result<Option<BinaryAnnotation>> {
        if self.has_ended || self.buffer.is_empty() {
            return Ok(None);
        }
        match parse_annotation(&mut self.buffer) {
            Ok(Some(annotation)) => Ok(Some(annotation)),
            Ok(None) => {
                self.has_ended = true;
                Ok(None)
            }
            Err(fault) => {
                self.has_ended = true;
                Err(fault)
            }
        }
    }
}
