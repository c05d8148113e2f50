//! Numeric leaves (`LF_CHAR` to `LF_UQUADWORD`): numbers that say their own width.

ghost use Rattle.std.specs.Prelude.{◌≡◌};
ghost use Rattle.pdb_container.specs.Buffer.{rest, ParsesFront};
ghost use Rattle.pdb_container.specs.RecordFields.{numeric_at, variant_at};

use crate::buffer::ParseBuffer;
use crate::error::{Error, Result};

/// A numeric leaf: a number as it is stored, with its width and whether it is signed.
#[derive(Clone, Copy, Debug, PartialEq, Eq, Hash)]
pub enum Variant {
    /// `LF_CHAR` (0x8000): one byte.
    U8(u8),
    /// `LF_USHORT` (0x8002): two bytes; or a prefix below 0x8000, which is the number itself.
    U16(u16),
    /// `LF_ULONG` (0x8004): four bytes.
    U32(u32),
    /// `LF_UQUADWORD` (0x800a): eight bytes.
    U64(u64),
    /// One byte in two's complement, which no record spells.
    I8(i8),
    /// `LF_SHORT` (0x8001): two bytes in two's complement.
    I16(i16),
    /// `LF_LONG` (0x8003): four bytes in two's complement.
    I32(i32),
    /// `LF_QUADWORD` (0x8009): eight bytes in two's complement.
    I64(i64),
}

/// A numeric leaf that is not signed.
///
/// # Errors
/// `UnexpectedNumericPrefix` at another prefix from 0x8000 on, a signed one too; `UnexpectedEof`
/// where bytes are missing.
#[tactic(auto, unfolding(crate::specs::RecordFields::numeric_at))]
pub fn parse_numeric(buffer: &mut ParseBuffer<'_>) -> Result<u64>
    ensures { ParsesFront (λ x. x) result (rest buffer.new) (numeric_at (rest buffer.old)) }
{
    let prefix = buffer.parse_u16()?;
    match prefix {
        0..0x8000 => Ok(u64::from(prefix)),
        0x8000 => buffer.parse_u8().map(u64::from),
        0x8002 => buffer.parse_u16().map(u64::from),
        0x8004 => buffer.parse_u32().map(u64::from),
        0x800a => buffer.parse_u64(),
        _ => Err(Error::UnexpectedNumericPrefix(prefix)),
    }
}

/// A numeric leaf as it is stored.
///
/// # Errors
/// `UnexpectedNumericPrefix` at an unknown prefix from 0x8000 on; `UnexpectedEof` where bytes are
/// missing.
#[tactic(auto, unfolding(crate::specs::RecordFields::variant_at))]
pub fn parse_variant(buffer: &mut ParseBuffer<'_>) -> Result<Variant>
    ensures { ParsesFront (λ x. x) result (rest buffer.new) (variant_at (rest buffer.old)) }
{
    let prefix = buffer.parse_u16()?;
    match prefix {
        0..0x8000 => Ok(Variant::U16(prefix)),
        0x8000 => buffer.parse_u8().map(Variant::U8),
        0x8001 => buffer.parse_i16().map(Variant::I16),
        0x8002 => buffer.parse_u16().map(Variant::U16),
        0x8003 => buffer.parse_i32().map(Variant::I32),
        0x8004 => buffer.parse_u32().map(Variant::U32),
        0x8009 => buffer.parse_i64().map(Variant::I64),
        0x800a => buffer.parse_u64().map(Variant::U64),
        _ => Err(Error::UnexpectedNumericPrefix(prefix)),
    }
}
