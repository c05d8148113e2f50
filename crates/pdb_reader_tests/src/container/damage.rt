//! Places in the file's header and directory, and numbers that are written there.

use pdb_container::Error;
use pdb_samples::{SampleError, overwrite};
use std::io::ErrorKind;

/// A page lies past the file's end.
pub const PAST_END: Error = Error::IoError(ErrorKind::UnexpectedEof);

/// The place of the number of pages used.
pub const PAGES_USED: usize = 40;

/// The place of the directory's size.
pub const DIRECTORY_SIZE: usize = 44;

/// The place of the number of the list's page.
pub const LIST_PAGE: usize = 52;

/// The place, in the list, of the number of the directory's page.
pub const DIRECTORY_PAGE: usize = 0x100;

/// Places in a file, and the numbers that are written there.
pub type Numbers = &'static [(usize, u32)];

/// Writes numbers over a file's bytes at places.
pub fn write_numbers(bytes: &mut [u8], numbers: &[(usize, u32)]) -> Result<(), SampleError> {
    for (at, number) in numbers {
        overwrite(bytes, *at, &number.to_le_bytes())?;
    }
    Ok(())
}
