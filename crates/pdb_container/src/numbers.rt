//! Numbers as values that are read in order; numbers and NULs at places of bytes.

ghost use Rattle.std.specs.Int.{w8, w16, w32, w64};
ghost use Rattle.std.specs.Prelude.{◌≡◌, ◌+◌, ◌<◌, ◌≤◌, ◌==◌, length, position, IfSome};
ghost use Rattle.pdb_container.specs.Container.{half_at as half_in, word_at as word_in};
ghost use Rattle.pdb_container.specs.Fields.{number_at, signed_at, padding};

use crate::buffer::{FromBuffer, ParseBuffer};
use crate::error::Result;

/// The number in the four bytes from a place on, its lowest byte first.
pub fn word_at(bytes: &[u8], at: usize) -> u32
    requires { at + 4 ≤ length bytes.now }
    ensures { result ≡ word_in bytes.now at }
{
    u32::from_le_bytes([bytes[at], bytes[at + 1], bytes[at + 2], bytes[at + 3]])
}

/// The number in the two bytes from a place on, its lowest byte first.
pub fn half_at(bytes: &[u8], at: usize) -> u16
    requires { at + 2 ≤ length bytes.now }
    ensures { result ≡ half_in bytes.now at }
{
    u16::from_le_bytes([bytes[at], bytes[at + 1]])
}

/// The place of the first NUL.
pub fn nul_in(bytes: &[u8]) -> Option<usize>
    ensures value { result ≡ position (λ byte. byte == 0) bytes.now }
    ensures within { IfSome result (λ n. n < length bytes.now) }
{
    bytes.iter().position(|byte| *byte == 0)
}

/// The number of bytes from a place to the next multiple of 4.
pub fn padding_behind(place: usize) -> usize
    ensures { result ≡ padding place }
{
    (4 - place % 4) % 4
}

impl FromBuffer for u8 {
    ghost read = { number_at w8 };

    fn from_buffer(buffer: &mut ParseBuffer<'_>) -> Result<u8> {
        buffer.parse_u8()
    }
}

impl FromBuffer for u16 {
    ghost read = { number_at w16 };

    fn from_buffer(buffer: &mut ParseBuffer<'_>) -> Result<u16> {
        buffer.parse_u16()
    }
}

impl FromBuffer for u32 {
    ghost read = { number_at w32 };

    fn from_buffer(buffer: &mut ParseBuffer<'_>) -> Result<u32> {
        buffer.parse_u32()
    }
}

impl FromBuffer for u64 {
    ghost read = { number_at w64 };

    fn from_buffer(buffer: &mut ParseBuffer<'_>) -> Result<u64> {
        buffer.parse_u64()
    }
}

impl FromBuffer for i8 {
    ghost read = { signed_at w8 };

    fn from_buffer(buffer: &mut ParseBuffer<'_>) -> Result<i8> {
        buffer.parse_i8()
    }
}

impl FromBuffer for i16 {
    ghost read = { signed_at w16 };

    fn from_buffer(buffer: &mut ParseBuffer<'_>) -> Result<i16> {
        buffer.parse_i16()
    }
}

impl FromBuffer for i32 {
    ghost read = { signed_at w32 };

    fn from_buffer(buffer: &mut ParseBuffer<'_>) -> Result<i32> {
        buffer.parse_i32()
    }
}

impl FromBuffer for i64 {
    ghost read = { signed_at w64 };

    fn from_buffer(buffer: &mut ParseBuffer<'_>) -> Result<i64> {
        buffer.parse_i64()
    }
}
