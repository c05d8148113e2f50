//! Images: what their headers say.

ghost use Rattle.std.specs.Prelude.{◌≡◌, Some, IfSome, length, option_map, slice_get};
ghost use Rattle.pdb_addresses.specs.Sections.{header_in};
ghost use Rattle.pdb_image.specs.Image.{image_of};
ghost use Rattle.pdb_image.specs.CodeView.{Returns, code_view_of, directory_of};
ghost use Rattle.pdb_image.specs.CodeView.{directory_place as directory_place_of};
ghost use Rattle.pdb_image.specs.Tables.{bytes_at, exception_directory_of};

use crate::code_view::{CodeView, file_place, parse_record_in};
use crate::error::ImageError;
use crate::file_part::part;
use crate::optional_header::{DataDirectory, parse_exceptions, parse_optional};
use crate::section_data::whole_place;
use pdb_addresses::ImageSectionHeader;
use pdb_container::{ParseBuffer, half_at, word_at};
use std::marker::Model;

/// The machine's number of x64 (`IMAGE_FILE_MACHINE_AMD64`).
const X64: u16 = 0x8664;

/// A PE image, PE32 or PE32+, over the bytes of its file, of which it copies nothing.
#[derive(Debug, Drop)]
pub struct Image<'a> {
    file: &'a [u8],
    machine: u16,
    time_stamp: u32,
    image_base: u64,
    size_of_image: u32,
    optional_header: &'a [u8],
    sections: &'a [[u8; 40]],
    debug: Option<DataDirectory>,
}

impl<'a> Model for Image<'a> {
    ghost use Rattle.std.specs.Prelude.{map};
    ghost use Rattle.pdb_addresses.specs.Sections.{header_in};
    ghost use Rattle.pdb_image.specs.Image.{Image};

    ghost Value = { Image };

    ghost view = { λ i. record {
      file = i.file.now;
      machine = i.machine;
      time_stamp = i.time_stamp;
      image_base = i.image_base;
      size_of_image = i.size_of_image;
      optional_header = i.optional_header.now;
      sections = map header_in i.sections.now;
      debug = i.debug;
    } };
}

impl<'a> Image<'a> {
    /// The image that a file holds, by its headers alone.
    ///
    /// # Errors
    /// The first one in the order of the headers of `NoDosSignature`, `HeadersPastEnd`,
    /// `NoPeSignature`, `UnknownMagic`, `OptionalHeaderTooShort` and `SectionsPastEnd`.
    #[tactic(auto, unfolding(crate::specs::Image::image_of))]
    pub fn parse(file: &'a [u8]) -> Result<Image<'a>, ImageError>
        ensures { result ≡ image_of file.now }
    {
        if !file.starts_with(b"MZ") {
            return Err(ImageError::NoDosSignature);
        }
        let header = part(file, 0, 64).ok_or(ImageError::HeadersPastEnd)?;
        let place = word_at(header, 60) as usize;
        let coff = part(file, place, 24).ok_or(ImageError::HeadersPastEnd)?;
        if word_at(coff, 0) != 0x4550 {
            return Err(ImageError::NoPeSignature);
        }
        let size = usize::from(half_at(coff, 20));
        let optional_header = part(file, place + 24, size).ok_or(ImageError::HeadersPastEnd)?;
        let optional = parse_optional(optional_header)?;
        let count = usize::from(half_at(coff, 6));
        let table = part(file, place + 24 + size, 40 * count).ok_or(ImageError::SectionsPastEnd)?;
        let (sections, _) = table.as_chunks::<40>();
        Ok(Image {
            file,
            machine: half_at(coff, 4),
            time_stamp: word_at(coff, 8),
            image_base: optional.image_base,
            size_of_image: optional.size_of_image,
            optional_header,
            sections,
            debug: optional.debug,
        })
    }

    /// The machine's number (`IMAGE_FILE_MACHINE_*`).
    pub fn machine(&self) -> u16
        ensures { result ≡ self.now.machine }
    {
        self.machine
    }

    /// The time stamp: when the image was linked, in seconds since the start of 1970, or a hash in
    /// its place. With the image's size it names the image in a symbol server.
    pub fn time_stamp(&self) -> u32
        ensures { result ≡ self.now.time_stamp }
    {
        self.time_stamp
    }

    /// The size of the image in memory, once it is loaded, in bytes.
    pub fn size_of_image(&self) -> u32
        ensures { result ≡ self.now.size_of_image }
    {
        self.size_of_image
    }

    /// The image base: the address at which the image wants to be loaded.
    pub fn image_base(&self) -> u64
        ensures { result ≡ self.now.image_base }
    {
        self.image_base
    }

    /// The number of sections.
    pub fn section_count(&self) -> usize
        ensures { result ≡ length self.now.sections }
    {
        self.sections.len()
    }

    /// The header of a section, counted from 0; `None` past the last one.
    #[tactic(auto, using(crate::proofs::SectionSteps::section_at))]
    pub fn section(&self, number: usize) -> Option<ImageSectionHeader>
        ensures { result ≡ slice_get self.now.sections number }
    {
        section_header(self.sections.get(number)?)
    }

    /// The CodeView record, which says what PDB the image has: that of the first CodeView entry of
    /// the debug directory whose record begins with `RSDS`. `None` without a debug directory, or
    /// without a CodeView entry in it.
    ///
    /// The debug directory lies in the first section whose data in the file hold its address. It is
    /// made of entries of 28 bytes; fewer bytes at its end are no entry. A record lies at its
    /// entry's pointer to raw data, which PE Format calls the file pointer to the debug data.
    /// `llvm-symbolizer` 19 takes the first CodeView entry whatever its record begins with, and
    /// finds the record by its address.
    ///
    /// # Errors
    /// The first one in this order of `DebugDirectoryNotFound`, `DebugDirectoryPastEnd`,
    /// `NoRsdsRecord`, `RecordPastEnd`, `RecordTooShort` and `PathNotEnded`.
    #[tactic(auto, unfolding(crate::specs::CodeView::code_view_of))]
    pub fn code_view(&self) -> Result<Option<CodeView<'a>>, ImageError>
        ensures { result ≡ code_view_of self.now }
    {
        match self.debug {
            None => Ok(None),
            Some(directory) => parse_record_in(self.file, self.directory(directory)?),
        }
    }

    /// The exception directory (`.pdata`), which lists functions with their unwind information.
    /// `None` for an image that isn't x64 and PE32+, or has no such directory.
    ///
    /// # Errors
    /// `OptionalHeaderTooShort` where the optional header counts the directory and has no room for
    /// its address and size.
    pub fn exception_directory(&self) -> Result<Option<DataDirectory>, ImageError>
        ensures { result ≡ exception_directory_of self.now }
    {
        if self.machine == X64 {
            parse_exceptions(self.optional_header)
        } else {
            Ok(None)
        }
    }

    /// `size` bytes at an address of the image, once it is loaded: those of the first section whose
    /// data in the file hold them all. `None` where no section does, or the file ends before.
    #[tactic(auto, unfolding(crate::specs::Tables::bytes_at))]
    pub fn bytes_at(&self, address: u64, size: usize) -> Option<&'a [u8]>
        ensures bytes { option_map (λ bytes. bytes.now) result ≡ bytes_at self.now address size }
        ensures size { IfSome result (λ bytes. length bytes.now ≡ size) }
    {
        part(self.file, whole_place(self.sections, address, size)?, size)
    }

    /// The address and size of the debug directory, if there is one.
    pub(crate) fn debug(&self) -> Option<DataDirectory>
        ensures { result ≡ self.now.debug }
    {
        self.debug
    }

    /// The place of the debug directory in the file.
    pub(crate) fn directory_place(&self, debug: DataDirectory) -> Result<usize, ImageError>
        ensures { result ≡ directory_place_of self.now debug }
    {
        file_place(self.sections, debug.address).ok_or(ImageError::DebugDirectoryNotFound(
            debug.address,
        ))
    }

    /// The bytes of the debug directory, which are all in the file.
    #[tactic(auto, unfolding(crate::specs::CodeView::directory_of))]
    fn directory(&self, debug: DataDirectory) -> Result<&'a [u8], ImageError>
        ensures { Returns (λ bytes. bytes.now) result (directory_of self.now debug) }
    {
        let place = self.directory_place(debug)?;
        part(self.file, place, debug.size as usize).ok_or(ImageError::DebugDirectoryPastEnd)
    }
}

/// The section header in 40 bytes.
#[tactic(auto, using(crate::proofs::SectionSteps::header_read))]
fn section_header(bytes: &[u8; 40]) -> Option<ImageSectionHeader>
    ensures { result ≡ Some (header_in bytes.now) }
{
    ParseBuffer::from(bytes.as_slice()).parse().ok()
}
