//! The record of an image's database, read from the image's file by places: no more of the file is
//! read than that takes, however large it is.

ghost use Rattle.std.specs.Prelude.{◌≡◌, ◌-◌, length, min, IfOk, IfSome};
ghost use Rattle.pdb_image.specs.CodeView.{rsds_of};

use crate::code_view::{CodeView, is_code_view, parse_rsds};
use crate::error::ImageError;
use crate::image::Image;
use crate::optional_header::DataDirectory;
use pdb_container::{half_at, word_at};
use std::alloc::{AllocError, Global};
use std::io;
use std::os::unix::fs::FileExt;
use thiserror::Error;

/// The size of a DOS header in bytes: in its last four stands the place of the PE signature.
const DOS_HEADER: u64 = 64;

/// The size of PE signature and COFF header in bytes.
const COFF_HEADER: u64 = 24;

/// The reason that the record of an image's database can't be read.
#[derive(Debug, Drop, Error)]
pub enum RecordFault {
    /// The file can't be read.
    #[error("the image can't be read")]
    File(#[from] io::Error),
    /// The file is no image, or the record isn't where the image says.
    #[error("{0}")]
    Image(#[from] ImageError),
}

impl From<AllocError> for RecordFault {
    fn from(cause: AllocError) -> RecordFault {
        RecordFault::File(io::Error::from(cause))
    }
}

/// A file that is read by places, and its size in bytes.
#[derive(Drop)]
struct Places<'f, F> {
    file: &'f F,
    size: u64,
}

impl<'f, F: FileExt> Places<'f, F> {
    /// The `size` bytes from a place on; `None` where the file ends before.
    fn part(&self, alloc: Global, place: u64, size: u64) -> io::Result<Option<Vec<u8>>>
        ensures { IfOk result (λ found. IfSome found (λ part. length part.items ≡ size)) }
    {
        if self.size < place || self.size - place < size {
            return Ok(None);
        }
        match self.part_within(alloc, place, size) {
            Ok(part) => Ok(Some(part)),
            Err(error) => Err(error),
        }
    }

    /// The bytes from a place on, `size` or as many as the file has.
    fn part_within(&self, alloc: Global, place: u64, size: u64) -> io::Result<Vec<u8>>
        ensures { IfOk result (λ part. length part.items ≡ min size (self.now.size - place)) }
    {
        let size = size.min(self.size.saturating_sub(place));
        let mut bytes = vec![in alloc; 0u8; size as usize]?;
        self.file.read_exact_at(&mut bytes, place)?;
        Ok(bytes)
    }

    /// The headers from the PE signature on, as far as the file has them.
    fn pe_headers(&self, alloc: Global, place: u64) -> io::Result<Vec<u8>> {
        let Some(coff) = self.part(alloc, place, COFF_HEADER)? else {
            return self.part_within(alloc, place, COFF_HEADER);
        };
        let optional_header = u64::from(half_at(&coff, 20));
        let sections = 40 * u64::from(half_at(&coff, 6));
        self.part_within(alloc, place, COFF_HEADER + optional_header + sections)
    }

    /// The headers of an image, with the PE signature right after the DOS header, wherever the
    /// file has it.
    fn headers(&self, alloc: Global) -> io::Result<Vec<u8>> {
        let Some(mut bytes) = self.part(alloc, 0, DOS_HEADER)? else {
            return self.part_within(alloc, 0, DOS_HEADER);
        };
        let headers = self.pe_headers(alloc, u64::from(word_at(&bytes, 60)))?;
        bytes[60..].copy_from_slice(&[DOS_HEADER as u8, 0, 0, 0]);
        bytes.extend_from_slice(&headers)?;
        Ok(bytes)
    }

    /// The bytes of the debug directory of an image.
    fn directory(
        &self,
        alloc: Global,
        image: &Image<'_>,
        debug: DataDirectory,
    ) -> Result<Vec<u8>, RecordFault> {
        let place = image.directory_place(debug)? as u64;
        let bytes = self.part(alloc, place, u64::from(debug.size))?;
        Ok(bytes.ok_or(ImageError::DebugDirectoryPastEnd)?)
    }

    /// Whether an entry of the debug directory is a CodeView entry with an RSDS record.
    fn is_rsds(&self, alloc: Global, entry: &[u8; 28]) -> io::Result<bool> {
        if !is_code_view(entry) {
            return Ok(false);
        }
        let signature = self.part(alloc, u64::from(word_at(entry, 24)), 4)?;
        Ok(signature.is_some_and(|bytes| bytes.starts_with(b"RSDS")))
    }

    /// The first CodeView entry with an RSDS record.
    fn rsds_entry<'e>(
        &self,
        alloc: Global,
        entries: &'e [[u8; 28]],
    ) -> io::Result<Option<&'e [u8; 28]>> {
        for entry in entries {
            if self.is_rsds(alloc, entry)? {
                return Ok(Some(entry));
            }
        }
        Ok(None)
    }

    /// The bytes of the first RSDS record that this debug directory leads to.
    fn record(&self, alloc: Global, directory: &[u8]) -> Result<Option<Vec<u8>>, RecordFault> {
        let (entries, _) = directory.as_chunks::<28>();
        let Some(entry) = self.rsds_entry(alloc, entries)? else {
            return if entries.iter().any(is_code_view) {
                Err(ImageError::NoRsdsRecord.into())
            } else {
                Ok(None)
            };
        };
        let (place, size) = (word_at(entry, 24), word_at(entry, 16));
        match self.part(alloc, u64::from(place), u64::from(size))? {
            Some(bytes) => Ok(Some(bytes)),
            None => Err(ImageError::RecordPastEnd.into()),
        }
    }
}

/// The record of an image's database, which is read from the image's file by places.
#[derive(Debug, Drop)]
pub struct ImageRecord {
    /// The image base: the address at which the image wants to be loaded.
    pub image_base: u64,
    /// The bytes of the CodeView record, which begin with `RSDS`.
    pub bytes: Vec<u8>,
}

impl ImageRecord {
    /// Reads the record of an image's database from the image's file of `size` bytes: its headers,
    /// its debug directory, the beginnings of the records there, and the one that is chosen, as
    /// [`Image::code_view`] chooses it of the whole file. `None` where that gives none.
    ///
    /// # Errors
    /// `File` with the file's errors (`UnexpectedEof` where the file became shorter), and
    /// `OutOfMemory`; `Image` as [`Image::parse`] and [`Image::code_view`] say of the whole file,
    /// but for faults inside of the record, which [`ImageRecord::code_view`] returns.
    pub fn read<F: FileExt>(
        alloc: Global,
        file: &F,
        size: u64,
    ) -> Result<Option<ImageRecord>, RecordFault> {
        let places = Places { file, size };
        let headers = places.headers(alloc)?;
        let image = Image::parse(&headers)?;
        let Some(debug) = image.debug() else {
            return Ok(None);
        };
        let directory = places.directory(alloc, &image, debug)?;
        let record = places.record(alloc, &directory)?;
        let image_base = image.image_base();
        Ok(record.map(|bytes| ImageRecord { image_base, bytes }))
    }

    /// The CodeView record, which says what PDB the image has.
    ///
    /// # Errors
    /// The first one of `RecordTooShort` and `PathNotEnded`.
    pub fn code_view(&self) -> Result<CodeView<'_>, ImageError>
        ensures { result ≡ rsds_of self.now.bytes.items }
    {
        parse_rsds(&self.bytes)
    }
}
