//! Records that are lists, or hold one.

ghost use Rattle.std.specs.Prelude.{◌≡◌, ◌<◌, length, IfOk};
ghost use Rattle.pdb_container.specs.Buffer.{rest, ParsesFront};
ghost use Rattle.pdb_container.specs.Fault.{Gives};
ghost use Rattle.pdb_container.specs.Fields.{entries};
ghost use Rattle.pdb_container.specs.RecordFields.{GivesFront};
ghost use Rattle.pdb_records.specs.Forms as forms;
ghost use Rattle.pdb_records.specs.Forms.{Plain};
ghost use Rattle.pdb_records.specs.Parsing.{GivesForm};
ghost use Rattle.pdb_records.specs.Shapes.{shape, plain_shape};
ghost use Rattle.pdb_records.specs.TypeRecords.{argument_list_at, method_list_entry_at};
ghost use Rattle.pdb_records.specs.TypeRecords.{method_list_at, dimension_at, dimensions_at};
ghost use Rattle.pdb_records.specs.TypeRecords.{stride_at, array_at};

use crate::parse_member::parse_vtable_offset;
use crate::parse_type::parse_two_types;
use crate::type_attributes::FieldAttributes;
use crate::type_data::{ArgumentList, ArrayType, MethodList, MethodListEntry, TypeData};
use pdb_container::{
    Error, ParseBuffer, Result, TypeIndex, half_at, parse_many, parse_numeric, word_at,
};
use std::alloc::Global;

/// `LF_ARGLIST`, after its leaf. `UnexpectedEof`, `OutOfMemory`.
#[tactic(auto, unfolding(crate::specs::TypeRecords::argument_list_at))]
pub fn parse_argument_list<'t>(alloc: Global, buffer: &mut ParseBuffer<'t>) -> Result<TypeData<'t>>
    ensures form { GivesForm result buffer.old buffer.new forms.ArgumentList argument_list_at }
    ensures plain { IfOk result (λ t. shape t ≡ Plain (plain_shape t)) }
{
    let count = buffer.parse_u32()?;
    let arguments = parse_many::<TypeIndex>(alloc, buffer, count)?;
    Ok(TypeData::ArgumentList(ArgumentList { arguments }))
}

#[tactic(auto, unfolding(crate::specs::TypeRecords::method_list_entry_at))]
fn parse_method_list_entry(buffer: &mut ParseBuffer<'_>) -> Result<MethodListEntry>
    ensures { ParsesFront (λ x. x) result (rest buffer.new)
        (method_list_entry_at (rest buffer.old)) }
{
    let front = buffer.take(8)?;
    let attributes = FieldAttributes::new(half_at(front, 0));
    let vtable_offset = parse_vtable_offset(buffer, attributes)?;
    Ok(MethodListEntry {
        attributes,
        method_type: TypeIndex(word_at(front, 4)),
        vtable_offset,
    })
}

#[tactic(auto, using(pdb_container::proofs::Entries::entries_start, pdb_container::proofs::Entries::entries_more, pdb_container::proofs::Entries::entries_fail, pdb_container::proofs::Entries::entries_end, pdb_container::proofs::Entries::entries_done))]
fn parse_methods(alloc: Global, bytes: &[u8]) -> Result<Vec<MethodListEntry>>
    ensures { Gives (λ v. v.items) ⊥ result (entries method_list_entry_at bytes.now) }
{
    let mut buffer = ParseBuffer::from(bytes);
    let mut methods = Vec::new(alloc);
    for _ in 0..bytes.len() {
        if buffer.is_empty() {
            break;
        }
        methods.push(parse_method_list_entry(&mut buffer)?)?;
    }
    Ok(methods)
}

/// `LF_METHODLIST`, after its leaf. `UnexpectedEof`, `OutOfMemory`.
#[tactic(auto, unfolding(crate::specs::TypeRecords::method_list_at))]
pub fn parse_method_list<'t>(alloc: Global, buffer: &mut ParseBuffer<'t>) -> Result<TypeData<'t>>
    ensures form { GivesForm result buffer.old buffer.new forms.MethodList method_list_at }
    ensures plain { IfOk result (λ t. shape t ≡ Plain (plain_shape t)) }
{
    let bytes = buffer.take(buffer.len())?;
    let methods = parse_methods(alloc, bytes)?;
    Ok(TypeData::MethodList(MethodList { methods }))
}

/// A size in bytes. `UnimplementedFeature` past 32 bits.
#[tactic(auto, unfolding(crate::specs::TypeRecords::dimension_at))]
fn parse_dimension(buffer: &mut ParseBuffer<'_>) -> Result<u32>
    ensures { ParsesFront (λ x. x) result (rest buffer.new) (dimension_at (rest buffer.old)) }
{
    let size = parse_numeric(buffer)?;
    if size > 0xffff_ffff {
        return Err(Error::UnimplementedFeature("u64 array sizes"));
    }
    Ok(size as u32)
}

/// The sizes of an array, at least one, and the zero byte after them.
#[tactic(auto, using(crate::proofs::Dimensions::dimensions_start, crate::proofs::Dimensions::dimensions_more, crate::proofs::Dimensions::dimensions_end, crate::proofs::Dimensions::dimensions_fail, crate::proofs::Dimensions::dimensions_unended, crate::proofs::Dimensions::dimensions_missing))]
fn parse_dimensions(alloc: Global, buffer: &mut ParseBuffer<'_>) -> Result<Vec<u32>>
    ensures dimensions { GivesFront (λ v. v.items) result (rest buffer.new)
        (dimensions_at (rest buffer.old)) }
    ensures some { IfOk result (λ v. 0 < length v.items) }
{
    let mut dimensions = Vec::new(alloc);
    let count = buffer.len();
    for _ in 0..count {
        dimensions.push(parse_dimension(buffer)?)?;
        if buffer.peek_u8()? == 0 {
            buffer.parse_u8()?;
            return Ok(dimensions);
        }
    }
    Err(Error::UnexpectedEof)
}

#[tactic(auto, unfolding(crate::specs::TypeRecords::stride_at))]
fn parse_stride(buffer: &mut ParseBuffer<'_>, is_strided: bool) -> Result<Option<u32>>
    ensures { ParsesFront (λ x. x) result (rest buffer.new)
        (stride_at is_strided (rest buffer.old)) }
{
    if !is_strided {
        return Ok(None);
    }
    Ok(Some(buffer.parse_u32()?))
}

/// `LF_ARRAY` or `LF_STRIDED_ARRAY`, after its leaf. `UnexpectedEof`, `UnexpectedNumericPrefix`,
/// `UnimplementedFeature` past 32 bits, `OutOfMemory`.
#[tactic(auto, unfolding(crate::specs::TypeRecords::array_at))]
pub fn parse_array<'t>(
    alloc: Global,
    buffer: &mut ParseBuffer<'t>,
    is_strided: bool,
) -> Result<TypeData<'t>>
    ensures form { GivesForm result buffer.old buffer.new forms.Array (array_at is_strided) }
    ensures plain { IfOk result (λ t. shape t ≡ Plain (plain_shape t)) }
{
    let (element_type, indexing_type) = parse_two_types(buffer)?;
    let stride = parse_stride(buffer, is_strided)?;
    let dimensions = parse_dimensions(alloc, buffer)?;
    Ok(TypeData::Array(ArrayType {
        element_type,
        indexing_type,
        stride,
        dimensions,
    }))
}
