//! The optional header of an image.

ghost use Rattle.std.specs.Prelude.{◌≡◌, ◌+◌, ◌≤◌, length};
ghost use Rattle.pdb_image.specs.Image.{optional_of, pe32_of, pe32_plus_of, debug_entry_of};
ghost use Rattle.pdb_image.specs.Tables.{exception_entry_of, exceptions_of};

use crate::error::ImageError;
use crate::file_part::part;
use pdb_container::{half_at, word_at};

/// The magic number of a PE32 optional header.
const PE32: u16 = 0x10b;

/// The magic number of a PE32+ optional header.
const PE32_PLUS: u16 = 0x20b;

/// The number of the debug directory among the data directories, counted from 0.
const DEBUG: u32 = 6;

/// The number of the exception directory among the data directories, counted from 0.
const EXCEPTIONS: u32 = 3;

/// A data directory: where a table lies once the image is loaded.
#[derive(Clone, Copy, Debug, PartialEq, Eq)]
pub struct DataDirectory {
    /// The table's address, in bytes from the image's start.
    pub address: u32,
    /// The table's size, in bytes.
    pub size: u32,
}

/// The fields that are read of an optional header.
#[derive(Clone, Copy)]
pub(crate) struct OptionalHeader {
    /// The address at which the image wants to be loaded.
    pub(crate) image_base: u64,
    /// The size of the image in memory, in bytes.
    pub(crate) size_of_image: u32,
    /// The debug directory, if there is one.
    pub(crate) debug: Option<DataDirectory>,
}

/// The fields in the bytes of an optional header.
#[tactic(auto, unfolding(crate::specs::Image::optional_of))]
pub(crate) fn parse_optional(bytes: &[u8]) -> Result<OptionalHeader, ImageError>
    ensures { result ≡ optional_of bytes.now }
{
    if bytes.len() < 2 {
        return Err(ImageError::OptionalHeaderTooShort);
    }
    match half_at(bytes, 0) {
        PE32 => parse_pe32(bytes),
        PE32_PLUS => parse_pe32_plus(bytes),
        magic => Err(ImageError::UnknownMagic(magic)),
    }
}

/// The fields of a PE32 optional header.
#[tactic(auto, unfolding(crate::specs::Image::pe32_of))]
fn parse_pe32(bytes: &[u8]) -> Result<OptionalHeader, ImageError>
    ensures { result ≡ pe32_of bytes.now }
{
    if bytes.len() < 96 {
        return Err(ImageError::OptionalHeaderTooShort);
    }
    Ok(OptionalHeader {
        image_base: u64::from(word_at(bytes, 28)),
        size_of_image: word_at(bytes, 56),
        debug: parse_debug_entry(bytes, 92)?,
    })
}

/// The fields of a PE32+ optional header.
#[tactic(auto, unfolding(crate::specs::Image::pe32_plus_of))]
fn parse_pe32_plus(bytes: &[u8]) -> Result<OptionalHeader, ImageError>
    ensures { result ≡ pe32_plus_of bytes.now }
{
    if bytes.len() < 112 {
        return Err(ImageError::OptionalHeaderTooShort);
    }
    let high = u64::from(word_at(bytes, 28));
    Ok(OptionalHeader {
        image_base: high * 0x1_0000_0000 + u64::from(word_at(bytes, 24)),
        size_of_image: word_at(bytes, 56),
        debug: parse_debug_entry(bytes, 108)?,
    })
}

/// The debug directory, from the data directories, which lie after their count. There is none where
/// they are fewer than seven, or its address is 0.
#[tactic(auto, unfolding(crate::specs::Image::debug_entry_of))]
fn parse_debug_entry(bytes: &[u8], count_place: usize) -> Result<Option<DataDirectory>, ImageError>
    requires { count_place + 4 ≤ length bytes.now }
    ensures { result ≡ debug_entry_of count_place bytes.now }
{
    if word_at(bytes, count_place) <= DEBUG {
        return Ok(None);
    }
    let Some(entry) = part(bytes, count_place + 52, 8) else {
        return Err(ImageError::OptionalHeaderTooShort);
    };
    let address = word_at(entry, 0);
    if address == 0 {
        return Ok(None);
    }
    Ok(Some(DataDirectory {
        address,
        size: word_at(entry, 4),
    }))
}

/// The exception directory of an optional header, if it is PE32+.
#[tactic(auto, unfolding(crate::specs::Tables::exceptions_of))]
pub(crate) fn parse_exceptions(bytes: &[u8]) -> Result<Option<DataDirectory>, ImageError>
    ensures { result ≡ exceptions_of bytes.now }
{
    let magic = part(bytes, 0, 2).ok_or(ImageError::OptionalHeaderTooShort)?;
    if half_at(magic, 0) != PE32_PLUS {
        return Ok(None);
    }
    parse_exception_entry(bytes)
}

/// The exception directory of a PE32+ optional header, from the data directories, which lie after
/// their count. There is none where they are fewer than four.
#[tactic(auto, unfolding(crate::specs::Tables::exception_entry_of))]
fn parse_exception_entry(bytes: &[u8]) -> Result<Option<DataDirectory>, ImageError>
    ensures { result ≡ exception_entry_of bytes.now }
{
    let count = part(bytes, 108, 4).ok_or(ImageError::OptionalHeaderTooShort)?;
    if word_at(count, 0) <= EXCEPTIONS {
        return Ok(None);
    }
    let entry = part(bytes, 136, 8).ok_or(ImageError::OptionalHeaderTooShort)?;
    Ok(Some(DataDirectory {
        address: word_at(entry, 0),
        size: word_at(entry, 4),
    }))
}
