//! Fields of CodeView records: indices, names, and values one after another.

ghost use Rattle.pdb_container.specs.Buffer.{rest, ParsesFront};
ghost use Rattle.pdb_container.specs.RawString.{raw_bytes};
ghost use Rattle.pdb_container.specs.RecordFields.{GivesFront, type_index_at, id_index_at};
ghost use Rattle.pdb_container.specs.RecordFields.{name_at, many_at};

use crate::buffer::{FromBuffer, ParseBuffer};
use crate::error::Result;
use crate::index::{IdIndex, TypeIndex};
use crate::raw_string::RawString;
use std::alloc::Global;

impl FromBuffer for TypeIndex {
    ghost read = { type_index_at };

    #[tactic(auto, unfolding(crate::specs::RecordFields::type_index_at))]
    fn from_buffer(buffer: &mut ParseBuffer<'_>) -> Result<TypeIndex> {
        Ok(TypeIndex(buffer.parse_u32()?))
    }
}

impl FromBuffer for IdIndex {
    ghost read = { id_index_at };

    #[tactic(auto, unfolding(crate::specs::RecordFields::id_index_at))]
    fn from_buffer(buffer: &mut ParseBuffer<'_>) -> Result<IdIndex> {
        Ok(IdIndex(buffer.parse_u32()?))
    }
}

/// A name in a record with that leaf: a C string above 0x1500, otherwise a Pascal string.
///
/// # Errors
/// `UnexpectedEof` where the C string has no NUL, or bytes of the Pascal string are missing.
#[tactic(auto, unfolding(crate::specs::RecordFields::name_at))]
pub fn parse_name<'t>(buffer: &mut ParseBuffer<'t>, leaf: u16) -> Result<RawString<'t>>
    ensures { ParsesFront raw_bytes result (rest buffer.new) (name_at leaf (rest buffer.old)) }
{
    if leaf > 0x1500 {
        buffer.parse_cstring()
    } else {
        buffer.parse_u8_pascal_string()
    }
}

/// That many values, one after another. Memory for them grows with what is read, not with `count`.
///
/// # Errors
/// The error of the first value that can't be read, or `OutOfMemory`.
#[tactic(auto, using(crate::proofs::Many::many_start, crate::proofs::Many::many_more, crate::proofs::Many::many_fail, crate::proofs::Many::many_done))]
pub fn parse_many<T: FromBuffer + Drop>(
    alloc: Global,
    buffer: &mut ParseBuffer<'_>,
    count: u32,
) -> Result<Vec<T>>
    ensures { GivesFront (λ v. v.items) result (rest buffer.new)
        (many_at T.read count (rest buffer.old)) }
{
    let mut values = Vec::new(alloc);
    for _ in 0..count {
        values.push(buffer.parse::<T>()?)?;
    }
    Ok(values)
}
