//! Reading an image: no more of its file than what its headers count.

use crate::error::ImageError;
use crate::image::Image;
use std::alloc::Global;
use std::io::{self, Read};

/// The number of bytes of an image that are read first.
const FRONT: u64 = 4096;

/// The place before which all lies that headers and debug directory can point to: a place and a
/// size have 32 bits each.
const LIMIT: u64 = 1 << 33;

/// The greatest number of times that an image is read. Each but one doubles what was read, up to
/// [`LIMIT`].
const STEPS: u32 = 64;

/// The end of the sections' data in the file.
fn sections_end(image: &Image<'_>) -> u64 {
    let mut end = 0;
    for number in 0..image.section_count() {
        if let Some(section) = image.section(number) {
            let data_end = u64::from(section.pointer_to_raw_data)
                + u64::from(section.size_of_raw_data);
            end = data_end.max(end);
        }
    }
    end
}

/// Whether the CodeView record may lie past what was read of an image.
fn lies_further(image: &Image<'_>) -> bool {
    matches!(
        image.code_view(),
        Err(
            ImageError::DebugDirectoryPastEnd | ImageError::NoRsdsRecord | ImageError::RecordPastEnd
        )
    )
}

/// The end up to which an image is read next, judged from what was read of it; `None` where all
/// that is asked of the image is there, and where the file is no image.
fn next_end(bytes: &[u8]) -> Option<u64> {
    let held = bytes.len() as u64;
    let doubled = held.saturating_mul(2);
    let end = match Image::parse(bytes) {
        Err(ImageError::HeadersPastEnd | ImageError::SectionsPastEnd) => doubled,
        Err(_) => return None,
        Ok(image) => match sections_end(&image) {
            end if held < end => end,
            _ if lies_further(&image) => doubled,
            _ => return None,
        },
    };
    if held < LIMIT {
        Some(end.min(LIMIT))
    } else {
        None
    }
}

/// Reads an image from where its reader stands, as far as its headers and its sections' data reach.
/// Where the headers or the CodeView record lie further on, twice as many bytes are read, until
/// they are there. Of a file that begins with `MZ` and has no PE signature where its header says,
/// no more is read than up to twice that place, or 4096 bytes; of any file, no more than 8 GiB.
///
/// # Errors
/// The reader's errors; a read that a signal interrupts is tried again.
pub fn read_image<R: Read>(alloc: Global, file: &mut R) -> io::Result<Vec<u8>> {
    let mut bytes = Vec::new(alloc);
    let mut end = FRONT;
    for _ in 0..STEPS {
        let missing = end.saturating_sub(bytes.len() as u64);
        file.by_ref().take(missing).read_to_end(&mut bytes)?;
        match next_end(&bytes) {
            Some(next) if bytes.len() as u64 == end => end = next,
            _ => break,
        }
    }
    Ok(bytes)
}
