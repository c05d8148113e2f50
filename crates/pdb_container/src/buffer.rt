//! Parse buffers: bytes that are read in order.

ghost use Rattle.std.specs.Prelude.{◌≡◌, ◌<◌, ◌-◌, drop, length, min, ◌==◌, ◌+◌, IfOk};
ghost use Rattle.std.specs.Int.{w8, w16, w32, w64};
ghost use Rattle.pdb_container.specs.Buffer.{rest, Reads, ReadsInSteps, Moves, peeked, truncated};
ghost use Rattle.pdb_container.specs.Buffer.{aligned};
ghost use Rattle.pdb_container.specs.Fault.{Parses};
ghost use Rattle.pdb_container.specs.Fields.{Reader, bytes_of, number_at, signed_at, c_string_at};
ghost use Rattle.pdb_container.specs.Fields.{pascal_string_at};
ghost use Rattle.pdb_container.specs.RawString.{raw_bytes};

use crate::error::{Error, Result};
use crate::numbers::nul_in;
use crate::raw_string::RawString;
use std::marker::Model;

/// A parse buffer: bytes that are read in order. A call that is refused leaves them and the place
/// in them as they were.
#[derive(Debug, Drop)]
pub struct ParseBuffer<'b> {
    bytes: &'b [u8],
    pos: usize,
}

impl<'b> Model for ParseBuffer<'b> {
    ghost use Rattle.std.specs.Prelude.{◌≤◌, length};
    ghost use Rattle.pdb_container.specs.Buffer.{Buffer};

    ghost Value = { Buffer };

    ghost view = { λ b. record { bytes = b.bytes.now; pos = b.pos } };

    ghost invariant = { λ b. b.pos ≤ length b.bytes.now };
}

impl<'b> From<&'b [u8]> for ParseBuffer<'b> {
    ghost use Rattle.pdb_container.specs.Buffer.{rest};

    ghost from_gives = { λ bytes b. (b ≡ record { bytes = bytes.now; pos = 0 })
        × (rest b ≡ bytes.now) };

    #[tactic(auto, unfolding(crate::specs::Buffer::rest))]
    fn from(bytes: &'b [u8]) -> ParseBuffer<'b> {
        ParseBuffer { bytes, pos: 0 }
    }
}

/// A value that can be read at the place of a parse buffer.
pub trait FromBuffer {
    /// The reading of the bytes that are left: a value and the bytes after it, or the fault.
    ghost read: { Reader Self };

    /// Reads the value at the buffer's place.
    ///
    /// # Errors
    /// The fault of the bytes that are left, by `read`; the place may have moved then.
    fn from_buffer(buffer: &mut ParseBuffer<'_>) -> Result<Self>
        ensures { ReadsInSteps (λ x. x) result buffer.old buffer.new read };
}

impl<'b> ParseBuffer<'b> {
    /// The number of bytes that are left.
    #[tactic(auto, unfolding(crate::specs::Buffer::rest))]
    pub fn len(&self) -> usize
        ensures { result ≡ length (rest self.now) }
    {
        self.bytes.len() - self.pos
    }

    /// Whether no byte is left.
    pub fn is_empty(&self) -> bool
        ensures { result ≡ (length (rest self.now) == 0) }
    {
        self.len() == 0
    }

    /// The place of the next byte, in bytes counted from 0.
    #[tactic(auto, unfolding(crate::specs::Buffer::rest))]
    pub fn pos(&self) -> usize
        ensures pos { result ≡ self.now.pos }
        ensures left { result ≡ length self.now.bytes - length (rest self.now) }
    {
        self.pos
    }

    /// Goes to a place in bytes, or to the end where the place lies past it.
    #[tactic(auto, using(crate::proofs::Taking::drop_within), unfolding(crate::specs::Buffer::rest))]
    pub fn seek(&mut self, pos: usize)
        ensures place { self.new ≡ record {
          bytes = self.old.bytes;
          pos = min pos (length self.old.bytes);
        } }
        ensures left { rest self.new ≡ drop pos self.old.bytes }
    {
        self.pos = pos.min(self.bytes.len());
    }

    /// Drops all bytes but the first `len`.
    ///
    /// # Errors
    /// `UnexpectedEof` where the place lies past them, or fewer are there.
    #[tactic(auto, unfolding(crate::specs::Buffer::truncated))]
    pub fn truncate(&mut self, len: usize) -> Result<()>
        ensures { Moves result self.old self.new (truncated len self.old) }
    {
        if len < self.pos || self.bytes.len() < len {
            return Err(Error::UnexpectedEof);
        }
        self.bytes = &self.bytes[..len];
        Ok(())
    }

    /// Goes to the least multiple of `alignment`, which is at least 1, at or past the place.
    ///
    /// # Errors
    /// `UnexpectedEof` past the end.
    #[tactic(auto, unfolding(crate::specs::Buffer::aligned))]
    pub fn align(&mut self, alignment: usize) -> Result<()>
        requires { 0 < alignment }
        ensures { Moves result self.old self.new (aligned alignment self.old) }
    {
        let Some(pos) = self.pos.checked_next_multiple_of(alignment) else {
            return Err(Error::UnexpectedEof);
        };
        if self.bytes.len() < pos {
            return Err(Error::UnexpectedEof);
        }
        self.pos = pos;
        Ok(())
    }

    /// The next `size` bytes.
    ///
    /// # Errors
    /// `UnexpectedEof` where fewer are left.
    #[tactic(auto, unfolding(crate::specs::Buffer::rest))]
    pub fn take(&mut self, size: usize) -> Result<&'b [u8]>
        ensures value { Reads (λ part. part.now) result self.old self.new (bytes_of size) }
        ensures taken { IfOk result (λ _. length (rest self.new) + size ≡ length (rest self.old)) }
        ensures size { IfOk result (λ part. length part.now ≡ size) }
    {
        if self.len() < size {
            return Err(Error::UnexpectedEof);
        }
        let start = self.pos;
        self.pos = start + size;
        Ok(&self.bytes[start..start + size])
    }

    /// The value that a type reads here.
    ///
    /// # Errors
    /// The fault of that reading.
    pub fn parse<T: FromBuffer>(&mut self) -> Result<T>
        ensures { Reads (λ x. x) result self.old self.new T.read }
    {
        let start = self.pos;
        match T::from_buffer(self) {
            Ok(value) => Ok(value),
            Err(fault) => {
                self.pos = start;
                Err(fault)
            }
        }
    }

    /// The next byte as a number.
    ///
    /// # Errors
    /// `UnexpectedEof` where none is left.
    pub fn parse_u8(&mut self) -> Result<u8>
        ensures value { Reads (λ x. x) result self.old self.new (number_at w8) }
        ensures taken { IfOk result (λ _. length (rest self.new) + 1 ≡ length (rest self.old)) }
    {
        match self.take(1) {
            Ok(part) => Ok(part[0]),
            Err(fault) => Err(fault),
        }
    }

    /// The next two bytes as a number, the lowest first.
    ///
    /// # Errors
    /// `UnexpectedEof` where fewer are left.
    pub fn parse_u16(&mut self) -> Result<u16>
        ensures value { Reads (λ x. x) result self.old self.new (number_at w16) }
        ensures taken { IfOk result (λ _. length (rest self.new) + 2 ≡ length (rest self.old)) }
    {
        match self.take(2) {
            Ok(part) => Ok(u16::from_le_bytes([part[0], part[1]])),
            Err(fault) => Err(fault),
        }
    }

    /// The next four bytes as a number, the lowest first.
    ///
    /// # Errors
    /// `UnexpectedEof` where fewer are left.
    pub fn parse_u32(&mut self) -> Result<u32>
        ensures value { Reads (λ x. x) result self.old self.new (number_at w32) }
        ensures taken { IfOk result (λ _. length (rest self.new) + 4 ≡ length (rest self.old)) }
    {
        match self.take(4) {
            Ok(part) => Ok(u32::from_le_bytes([part[0], part[1], part[2], part[3]])),
            Err(fault) => Err(fault),
        }
    }

    /// The next eight bytes as a number, the lowest first.
    ///
    /// # Errors
    /// `UnexpectedEof` where fewer are left.
    pub fn parse_u64(&mut self) -> Result<u64>
        ensures value { Reads (λ x. x) result self.old self.new (number_at w64) }
        ensures taken { IfOk result (λ _. length (rest self.new) + 8 ≡ length (rest self.old)) }
    {
        match self.take(8) {
            Ok(part) => Ok(u64::from_le_bytes([
                part[0], part[1], part[2], part[3], part[4], part[5], part[6], part[7],
            ])),
            Err(fault) => Err(fault),
        }
    }

    /// The next byte in two's complement.
    ///
    /// # Errors
    /// `UnexpectedEof` where none is left.
    pub fn parse_i8(&mut self) -> Result<i8>
        ensures value { Reads (λ x. x) result self.old self.new (signed_at w8) }
        ensures taken { IfOk result (λ _. length (rest self.new) + 1 ≡ length (rest self.old)) }
    {
        match self.parse_u8() {
            Ok(number) => Ok(number.cast_signed()),
            Err(fault) => Err(fault),
        }
    }

    /// The next two bytes in two's complement, the lowest first.
    ///
    /// # Errors
    /// `UnexpectedEof` where fewer are left.
    pub fn parse_i16(&mut self) -> Result<i16>
        ensures value { Reads (λ x. x) result self.old self.new (signed_at w16) }
        ensures taken { IfOk result (λ _. length (rest self.new) + 2 ≡ length (rest self.old)) }
    {
        match self.parse_u16() {
            Ok(number) => Ok(number.cast_signed()),
            Err(fault) => Err(fault),
        }
    }

    /// The next four bytes in two's complement, the lowest first.
    ///
    /// # Errors
    /// `UnexpectedEof` where fewer are left.
    pub fn parse_i32(&mut self) -> Result<i32>
        ensures value { Reads (λ x. x) result self.old self.new (signed_at w32) }
        ensures taken { IfOk result (λ _. length (rest self.new) + 4 ≡ length (rest self.old)) }
    {
        match self.parse_u32() {
            Ok(number) => Ok(number.cast_signed()),
            Err(fault) => Err(fault),
        }
    }

    /// The next eight bytes in two's complement, the lowest first.
    ///
    /// # Errors
    /// `UnexpectedEof` where fewer are left.
    pub fn parse_i64(&mut self) -> Result<i64>
        ensures value { Reads (λ x. x) result self.old self.new (signed_at w64) }
        ensures taken { IfOk result (λ _. length (rest self.new) + 8 ≡ length (rest self.old)) }
    {
        match self.parse_u64() {
            Ok(number) => Ok(number.cast_signed()),
            Err(fault) => Err(fault),
        }
    }

    /// The next byte, which isn't taken.
    ///
    /// # Errors
    /// `UnexpectedEof` where none is left.
    pub fn peek_u8(&self) -> Result<u8>
        ensures { Parses (λ x. x) result (peeked (number_at w8) (rest self.now)) }
    {
        self.ahead().parse_u8()
    }

    /// The next two bytes as a number, the lowest first, which aren't taken.
    ///
    /// # Errors
    /// `UnexpectedEof` where fewer are left.
    pub fn peek_u16(&self) -> Result<u16>
        ensures { Parses (λ x. x) result (peeked (number_at w16) (rest self.now)) }
    {
        self.ahead().parse_u16()
    }

    /// The bytes that are left.
    #[tactic(auto, unfolding(crate::specs::Buffer::rest))]
    pub(crate) fn left(&self) -> &'b [u8]
        ensures { result.now ≡ rest self.now }
    {
        &self.bytes[self.pos..]
    }

    /// A buffer of the same bytes at the same place, to be read on its own.
    fn ahead(&self) -> ParseBuffer<'b>
        ensures { result ≡ self.now }
    {
        ParseBuffer {
            bytes: self.bytes,
            pos: self.pos,
        }
    }

    /// A C string: the bytes before the next NUL, which is read too.
    ///
    /// # Errors
    /// `UnexpectedEof` where there is no NUL.
    #[tactic(auto, unfolding(crate::specs::Buffer::rest, crate::specs::Fields::c_string_at))]
    pub fn parse_cstring(&mut self) -> Result<RawString<'b>>
        ensures value { Reads raw_bytes result self.old self.new c_string_at }
        ensures taken { IfOk result (λ _. length (rest self.new) < length (rest self.old)) }
    {
        let left = self.left();
        let Some(end) = nul_in(left) else {
            return Err(Error::UnexpectedEof);
        };
        self.pos += end + 1;
        Ok(RawString::from(&left[..end]))
    }

    /// A Pascal string: a length in one byte and so many bytes.
    ///
    /// # Errors
    /// `UnexpectedEof` where any is missing.
    #[tactic(auto, unfolding(crate::specs::Buffer::rest, crate::specs::Fields::pascal_string_at))]
    pub fn parse_u8_pascal_string(&mut self) -> Result<RawString<'b>>
        ensures value { Reads raw_bytes result self.old self.new pascal_string_at }
        ensures taken { IfOk result (λ _. length (rest self.new) < length (rest self.old)) }
    {
        let Some((size, behind)) = self.left().split_first() else {
            return Err(Error::UnexpectedEof);
        };
        let size = usize::from(*size);
        if behind.len() < size {
            return Err(Error::UnexpectedEof);
        }
        self.pos += size + 1;
        Ok(RawString::from(&behind[..size]))
    }
}
