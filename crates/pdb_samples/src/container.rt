ghost use Rattle.std.specs.Prelude.{◌<◌, IfOk};

use crate::bytes::{overwrite, pad_to, push_u32};
use crate::error::{Result, SampleError};
use std::alloc::Global;

const MAGIC: &[u8; 32] = b"Microsoft C/C++ MSF 7.00\r\n\x1aDS\0\0\0";

/// The size of an absent stream.
const ABSENT: u32 = 0xffff_ffff;

/// The number of bytes at the start of a file that a reader views first.
const FIRST_VIEW: usize = 4096;

/// The streams of a file and how they lie in its pages.
#[derive(Drop)]
pub struct Container {
    /// The size of a page, in bytes.
    pub page_size: u32,
    /// The bytes of each stream, and `None` for an absent one.
    pub streams: Vec<Option<Vec<u8>>>,
    /// The order in which the pages lie.
    pub order: PageOrder,
}

/// The order in which the pages lie: list pages, then directory pages, then the streams' pages.
#[derive(Clone, Copy)]
pub enum PageOrder {
    /// All in the order in which they are read.
    Natural,
    /// The directory's pages from its last to its first.
    DirectoryReversed,
    /// The streams' pages from the last page of the last stream to the first of the first.
    StreamsReversed,
    /// All from the last to the first.
    AllReversed,
    /// The pages of the stream with this index after those of all others.
    StreamLast(usize),
}

/// The last page of each part, counted from 1 in the order in which pages are read, and the pages
/// that lie in another order.
#[derive(Clone, Copy)]
struct Layout {
    list: u32,
    directory: u32,
    streams: u32,
    /// The pages after the first of these two up to the second lie in another order.
    moved: (u32, u32),
    /// They lie after all others, and not from their last to their first.
    is_last: bool,
}

impl Layout {
    /// The number of the page that is read at a place, counted from 1.
    fn number(&self, place: u32) -> u32 {
        let (before, end) = self.moved;
        if place <= before || !self.is_last && end < place {
            return place;
        }
        if end < place {
            return place.saturating_sub(end.saturating_sub(before));
        }
        if self.is_last {
            return place.saturating_add(self.streams.saturating_sub(end));
        }
        before.saturating_add(end - place).saturating_add(1)
    }
}

impl Container {
    /// The bytes of the file.
    ///
    /// # Errors
    /// `DoesNotFit` where the page size is 0, or the header or a number doesn't fit; `OutOfMemory`.
    pub fn bytes(&self, alloc: Global) -> Result<Vec<u8>> {
        let layout = self.layout()?;
        let mut natural = Vec::new(alloc);
        self.push_parts(&mut natural, &layout)?;
        let mut file = Vec::new(alloc);
        self.arrange(&mut file, natural.as_slice(), &layout)?;
        Ok(file)
    }

    fn page_bytes(&self) -> Result<usize>
        ensures { IfOk result (λ size. 0 < size) }
    {
        match self.page_size {
            0 => Err(SampleError::DoesNotFit),
            size => Ok(size as usize),
        }
    }

    /// The number of pages that hold `length` bytes.
    fn pages_of(&self, length: usize) -> Result<u32> {
        Ok(u32::try_from(length.div_ceil(self.page_bytes()?))?)
    }

    /// The number of pages that the streams before this number take.
    fn pages_before(&self, number: usize) -> Result<u32> {
        let mut count = 0u32;
        let mut left = number;
        for stream in &self.streams {
            if left == 0 {
                return Ok(count);
            }
            left -= 1;
            if let Some(bytes) = stream {
                count = count.saturating_add(self.pages_of(bytes.len())?);
            }
        }
        Ok(count)
    }

    /// The directory's size in bytes.
    fn directory_size(&self, pages: u32) -> usize {
        let count = self.streams.len().saturating_add(pages as usize);
        count.saturating_add(1).saturating_mul(4)
    }

    fn layout(&self) -> Result<Layout> {
        let pages = self.pages_before(usize::MAX)?;
        let directory_pages = self.pages_of(self.directory_size(pages))?;
        let list = self.pages_of((directory_pages as usize).saturating_mul(4))?;
        let directory = list.saturating_add(directory_pages);
        let streams = directory.saturating_add(pages);
        let mut layout = Layout {
            list,
            directory,
            streams,
            moved: (0, 0),
            is_last: false,
        };
        match self.order {
            PageOrder::Natural => {}
            PageOrder::DirectoryReversed => layout.moved = (list, directory),
            PageOrder::StreamsReversed => layout.moved = (directory, streams),
            PageOrder::AllReversed => layout.moved = (0, streams),
            PageOrder::StreamLast(number) => {
                let before = directory.saturating_add(self.pages_before(number)?);
                let end = directory.saturating_add(self.pages_before(number.saturating_add(1))?);
                layout.moved = (before, end);
                layout.is_last = true;
            }
        }
        Ok(layout)
    }

    /// Appends the header and the parts in the order in which they are read, each filled up to
    /// whole pages.
    fn push_parts(&self, file: &mut Vec<u8>, layout: &Layout) -> Result<()> {
        self.push_header(file, layout)?;
        push_numbers(file, layout, layout.list, layout.directory)?;
        self.fill_page(file)?;
        self.push_directory(file, layout)?;
        self.push_streams(file)
    }

    /// Appends zero bytes up to the end of a page.
    fn fill_page(&self, file: &mut Vec<u8>) -> Result<()> {
        pad_to(file, self.page_bytes()?)
    }

    fn push_streams(&self, file: &mut Vec<u8>) -> Result<()> {
        for stream in &self.streams {
            if let Some(bytes) = stream {
                file.extend_from_slice(bytes.as_slice())?;
                self.fill_page(file)?;
            }
        }
        Ok(())
    }

    /// Appends the header, which fits into a page.
    fn push_header(&self, file: &mut Vec<u8>, layout: &Layout) -> Result<()> {
        let pages = layout.streams.saturating_sub(layout.directory);
        let directory = u32::try_from(self.directory_size(pages))?;
        file.extend_from_slice(MAGIC)?;
        push_u32(file, &[self.page_size, 0, layout.streams, directory, 0])?;
        push_numbers(file, layout, 0, layout.list)?;
        if file.len() > self.page_bytes()? {
            return Err(SampleError::DoesNotFit);
        }
        self.fill_page(file)
    }

    /// Appends the count of the streams, their sizes and the numbers of their pages.
    fn push_directory(&self, file: &mut Vec<u8>, layout: &Layout) -> Result<()> {
        push_u32(file, &[u32::try_from(self.streams.len())?])?;
        for stream in &self.streams {
            push_u32(file, &[size_of(stream)?])?;
        }
        push_numbers(file, layout, layout.directory, layout.streams)?;
        self.fill_page(file)
    }

    /// Writes each page to where it lies.
    fn arrange(&self, file: &mut Vec<u8>, natural: &[u8], layout: &Layout) -> Result<()> {
        let size = self.page_bytes()?;
        file.resize(natural.len().max(FIRST_VIEW), 0)?;
        let mut place = 0u32;
        for page in natural.chunks(size) {
            let at = (layout.number(place) as usize).saturating_mul(size);
            overwrite(file.as_mut_slice(), at, page)?;
            place = place.saturating_add(1);
        }
        Ok(())
    }
}

/// Appends the numbers of the pages after one, up to another.
fn push_numbers(file: &mut Vec<u8>, layout: &Layout, before: u32, end: u32) -> Result<()> {
    for place in before..end {
        push_u32(file, &[layout.number(place.saturating_add(1))])?;
    }
    Ok(())
}

/// The size of a stream, as the directory has it.
fn size_of(stream: &Option<Vec<u8>>) -> Result<u32> {
    match stream {
        Some(bytes) => Ok(u32::try_from(bytes.len())?),
        None => Ok(ABSENT),
    }
}
