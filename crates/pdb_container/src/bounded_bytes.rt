//! Bytes of which only so many are copied.

ghost use Rattle.std.specs.Prelude.{◌≡◌, IfOk};

use crate::shared_bytes::SharedBytes;
use crate::source::{ReadView, Source, SourceSlice, size_within};
use std::alloc::{AllocError, Global};
use std::io;
use std::io::ErrorKind;
use std::marker::Model;

/// The number of bytes that may be copied, and as many listed, of a file of any size: 1 MB. So a
/// small file whose streams lie in several pieces isn't refused. docs/COSTS.md has what the limits
/// on copies and lists lead to.
pub const ALWAYS_ALLOWED: u64 = 0x10_0000;

/// The multiple of a file's size that may be copied besides: the file and all copies of it then
/// take eight times its bytes. Of 252 databases of real linkers none lists a page twice, and the
/// one that copies most copies 0.22 times its bytes.
const TIMES_COPIED: u64 = 7;

/// The multiple of a file's size that may be listed besides. It is large, so that a caller who asks
/// for the same streams again and again isn't refused, and yet going through the lists is linear in
/// the file: it takes 0.2 microseconds for each byte.
pub const TIMES_LISTED: u64 = 1024;

/// The numbers of bytes that may still be copied and listed of bytes that are shared.
#[derive(Clone, Copy, Debug)]
pub struct CopyLimits {
    copied: u64,
    listed: u64,
}

/// Shared bytes, such as a file's. A view of one slice shares them, and any other has a copy. No
/// more is copied in all than 1 MB and seven times the bytes themselves, and no more is listed than
/// 1 MB and 1,024 times the bytes, by the sizes that are asked for.
///
/// A file's streams can name the same pages over and over. The bounds limit the memory that copies
/// of the pages take, and the time of going through the lists, which is spent even where the view
/// is then refused and nothing is copied.
#[derive(Debug, Drop)]
pub struct BoundedBytes {
    bytes: SharedBytes,
    /// The number of bytes that may still be copied.
    left: u64,
    /// The number of bytes that may still be listed.
    listed_left: u64,
}

impl Model for BoundedBytes {
    ghost use Rattle.std.specs.Prelude.{ℕ, List};

    ghost Value = { List ℕ };

    ghost view = { λ b. b.bytes };
}

impl BoundedBytes {
    /// These bytes, of which nothing was copied or listed yet.
    pub fn new(bytes: SharedBytes) -> BoundedBytes
        ensures { result ≡ bytes }
    {
        let len = bytes.as_slice().len() as u64;
        let left = len
            .saturating_mul(TIMES_COPIED)
            .saturating_add(ALWAYS_ALLOWED);
        let listed_left = len
            .saturating_mul(TIMES_LISTED)
            .saturating_add(ALWAYS_ALLOWED);
        BoundedBytes {
            bytes,
            left,
            listed_left,
        }
    }

    /// The numbers of bytes that may still be copied and listed.
    pub fn limits(&self) -> CopyLimits {
        CopyLimits {
            copied: self.left,
            listed: self.listed_left,
        }
    }

    /// The same bytes, of which so many more may be copied and listed.
    ///
    /// # Errors
    /// `AllocError` when memory runs out.
    pub fn share(&self, limits: CopyLimits) -> Result<BoundedBytes, AllocError>
        ensures { IfOk result (λ b. b ≡ self.now) }
    {
        let bytes = self.bytes.share()?;
        Ok(BoundedBytes {
            bytes,
            left: limits.copied,
            listed_left: limits.listed,
        })
    }
}

/// Past the bound a view is refused by `OutOfMemory`, and isn't counted; nor is a refused list. Any
/// other list counts whether or not a view of it succeeds.
impl Source for BoundedBytes {
    ghost bytes = { λ b. b };

    ghost failures = { λ _. 0 };

    fn view(&mut self, alloc: Global, slices: &[SourceSlice]) -> io::Result<ReadView> {
        let copied = match size_within(self.bytes.as_slice(), slices) {
            None => return Err(ErrorKind::UnexpectedEof.into()),
            Some(_) if slices.len() == 1 => 0,
            Some(size) => size as u64,
        };
        if self.left < copied {
            return Err(ErrorKind::OutOfMemory.into());
        }
        let view = self.bytes.view(alloc, slices)?;
        self.left -= copied;
        Ok(view)
    }

    fn failures(&self) -> u64 {
        0
    }

    fn size_hint(&self) -> u64 {
        self.bytes.as_slice().len() as u64
    }

    fn may_list(&mut self, size: u64) -> bool {
        if self.listed_left < size {
            return false;
        }
        self.listed_left -= size;
        true
    }
}
