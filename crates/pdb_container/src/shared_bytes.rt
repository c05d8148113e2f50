//! Bytes that are shared.

ghost use Rattle.std.specs.Prelude.{◌≡◌, ◌+◌, ◌≤◌, IfOk, length, take, drop};

use std::alloc::AllocError;
use std::marker::Model;
use std::sync::Arc;

/// Shared bytes: a range of a buffer that counts its owners, such as a loaded file, or a stream
/// that lies in one piece of it. The buffer is freed with the last owner.
#[derive(Debug, Drop)]
pub struct SharedBytes {
    whole: Arc<Vec<u8>>,
    /// The range's start in the buffer, in bytes.
    start: usize,
    /// The number of bytes in the range.
    len: usize,
}

impl Model for SharedBytes {
    ghost use Rattle.std.specs.Prelude.{ℕ, List, take, drop};
    ghost use Rattle.std.specs.Arc.{arc_value};

    ghost Value = { List ℕ };

    ghost view = { λ b. take b.len (drop b.start (arc_value b.whole).items) };
}

impl SharedBytes {
    /// These bytes, of one owner.
    ///
    /// # Errors
    /// `AllocError` when memory runs out.
    pub fn new(bytes: Vec<u8>) -> Result<SharedBytes, AllocError>
        ensures { IfOk result (λ b. b ≡ bytes.items) }
    {
        let alloc = *bytes.allocator();
        let len = bytes.len();
        let whole = Arc::new(alloc, bytes)?;
        Ok(SharedBytes {
            whole,
            start: 0,
            len,
        })
    }

    /// The bytes.
    pub fn as_slice(&self) -> &[u8]
        ensures { result.now ≡ self.now }
    {
        let whole = self.whole.as_slice();
        let rest = &whole[self.start.min(whole.len())..];
        &rest[..self.len.min(rest.len())]
    }

    /// Another owner of these bytes: none is copied.
    ///
    /// # Errors
    /// `AllocError` when memory runs out.
    pub fn share(&self) -> Result<SharedBytes, AllocError>
        ensures { IfOk result (λ b. b ≡ self.now) }
    {
        let whole = self.whole.clone()?;
        Ok(SharedBytes {
            whole,
            start: self.start,
            len: self.len,
        })
    }

    /// Another owner of `len` of these bytes, from `start` on: none is copied.
    ///
    /// # Errors
    /// `AllocError` when memory runs out.
    #[tactic(auto, using(crate::proofs::SharedParts::part_of_part))]
    pub fn part(&self, start: usize, len: usize) -> Result<SharedBytes, AllocError>
        requires { start + len ≤ length self.now }
        ensures { IfOk result (λ b. b ≡ take len (drop start self.now)) }
    {
        let whole = self.whole.clone()?;
        let start = self.start.min(whole.len()) + start;
        Ok(SharedBytes { whole, start, len })
    }
}
