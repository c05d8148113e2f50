//! Reading an image's file.

use crate::fault::SymbolsFault;
use pdb_image::read_image as read_image_from;
use std::fs;
use std::io::{self, ErrorKind};
use std::rt::Files;

/// The bytes of an image, as far as its headers and its sections' data reach.
fn read_bytes(rt: &(impl Files + AllocGlobal), path: &str) -> io::Result<Vec<u8>> {
    let mut file = fs::open(rt, path)?;
    read_image_from(rt.alloc(), &mut file)
}

/// Reads an image's file, if one is named, as far as its headers and its sections' data reach.
///
/// # Errors
/// `ImageFile` where it can't be read, or out of memory.
pub fn read_image(
    rt: &(impl Files + AllocGlobal),
    path: Option<&str>,
) -> Result<Option<Vec<u8>>, SymbolsFault> {
    let Some(path) = path else {
        return Ok(None);
    };
    match read_bytes(rt, path) {
        Ok(bytes) => Ok(Some(bytes)),
        Err(error) if error.kind() == ErrorKind::OutOfMemory => Err(SymbolsFault::out_of_memory()),
        Err(error) => Err(SymbolsFault::ImageFile(error.kind())),
    }
}
