//! A type's record, by its leaf.

ghost use Rattle.std.specs.Prelude.{◌≡◌, IfOk};
ghost use Rattle.pdb_container.specs.Buffer.{rest, ParsesFront};
ghost use Rattle.pdb_container.specs.Fault.{Gives};
ghost use Rattle.pdb_records.specs.Forms.{Plain};
ghost use Rattle.pdb_container.specs.RecordFields.{GivesFront};
ghost use Rattle.pdb_records.specs.Shapes.{shape, plain_shape, field_list_shape, field_form};
ghost use Rattle.pdb_records.specs.TypeLeaves.{aggregate_at, type_at, base_at, plain_at};
ghost use Rattle.pdb_records.specs.TypeLeaves.{continuation_at, field_behind, field_at};
ghost use Rattle.pdb_records.specs.TypeLeaves.{field_list_of, type_form_behind, type_form_of};

use crate::leaves::*;
use crate::parse_list::{parse_argument_list, parse_array, parse_method_list};
use crate::parse_member::{
    parse_base_class, parse_data_member, parse_enumerate, parse_method, parse_nested,
    parse_overloaded_method, parse_static_member, parse_virtual_base_class,
    parse_virtual_function_table_pointer,
};
use crate::parse_type::{
    parse_bitfield, parse_class, parse_enumeration, parse_member_function, parse_modifier,
    parse_newer_struct, parse_pointer, parse_procedure, parse_union,
};
use crate::type_data::{ClassKind, FieldList, TypeData};
use pdb_container::{Error, ParseBuffer, Result, TypeIndex};
use std::alloc::Global;

/// A type with members. `UnimplementedTypeKind` at another leaf.
#[tactic(auto, unfolding(crate::specs::TypeLeaves::aggregate_at))]
fn parse_aggregate<'t>(buffer: &mut ParseBuffer<'t>, leaf: u16) -> Result<TypeData<'t>>
    ensures form { ParsesFront plain_shape result (rest buffer.new)
        (aggregate_at leaf (rest buffer.old)) }
    ensures plain { IfOk result (λ t. shape t ≡ Plain (plain_shape t)) }
{
    match leaf {
        LF_CLASS | LF_CLASS_ST => parse_class(buffer, leaf, ClassKind::Class),
        LF_STRUCTURE | LF_STRUCTURE_ST => parse_class(buffer, leaf, ClassKind::Struct),
        LF_INTERFACE => parse_class(buffer, leaf, ClassKind::Interface),
        LF_STRUCTURE19 => parse_newer_struct(buffer, leaf),
        LF_UNION | LF_UNION_ST => parse_union(buffer, leaf),
        LF_ENUM | LF_ENUM_ST => parse_enumeration(buffer, leaf),
        _ => Err(Error::UnimplementedTypeKind(leaf)),
    }
}

/// A type that is no list of members. `UnimplementedTypeKind` at another leaf.
#[tactic(auto, unfolding(crate::specs::TypeLeaves::type_at))]
fn parse_type<'t>(alloc: Global, buffer: &mut ParseBuffer<'t>, leaf: u16) -> Result<TypeData<'t>>
    ensures form { GivesFront plain_shape result (rest buffer.new)
        (type_at leaf (rest buffer.old)) }
    ensures plain { IfOk result (λ t. shape t ≡ Plain (plain_shape t)) }
{
    match leaf {
        LF_MODIFIER => parse_modifier(buffer),
        LF_POINTER => parse_pointer(buffer),
        LF_PROCEDURE => parse_procedure(buffer),
        LF_MFUNCTION => parse_member_function(buffer),
        LF_BITFIELD => parse_bitfield(buffer),
        LF_ARGLIST => parse_argument_list(alloc, buffer),
        LF_METHODLIST => parse_method_list(alloc, buffer),
        LF_ARRAY | LF_ARRAY_ST => parse_array(alloc, buffer, false),
        LF_STRIDED_ARRAY => parse_array(alloc, buffer, true),
        _ => parse_aggregate(buffer, leaf),
    }
}

/// A base class, the pointer to a virtual function table, or a type. `UnimplementedTypeKind` at
/// another leaf.
#[tactic(auto, unfolding(crate::specs::TypeLeaves::base_at))]
fn parse_base<'t>(alloc: Global, buffer: &mut ParseBuffer<'t>, leaf: u16) -> Result<TypeData<'t>>
    ensures form { GivesFront plain_shape result (rest buffer.new)
        (base_at leaf (rest buffer.old)) }
    ensures plain { IfOk result (λ t. shape t ≡ Plain (plain_shape t)) }
{
    match leaf {
        LF_BCLASS => parse_base_class(buffer, ClassKind::Class),
        LF_BINTERFACE => parse_base_class(buffer, ClassKind::Interface),
        LF_VBCLASS => parse_virtual_base_class(buffer, true),
        LF_IVBCLASS => parse_virtual_base_class(buffer, false),
        LF_VFUNCTAB => parse_virtual_function_table_pointer(buffer),
        _ => parse_type(alloc, buffer, leaf),
    }
}

/// A member, or a type that is no list of members. `UnimplementedTypeKind` at another leaf.
#[tactic(auto, unfolding(crate::specs::TypeLeaves::plain_at))]
fn parse_plain<'t>(alloc: Global, buffer: &mut ParseBuffer<'t>, leaf: u16) -> Result<TypeData<'t>>
    ensures form { GivesFront plain_shape result (rest buffer.new)
        (plain_at leaf (rest buffer.old)) }
    ensures plain { IfOk result (λ t. shape t ≡ Plain (plain_shape t)) }
{
    match leaf {
        LF_ENUMERATE | LF_ENUMERATE_ST => parse_enumerate(buffer, leaf),
        LF_MEMBER | LF_MEMBER_ST => parse_data_member(buffer, leaf),
        LF_STMEMBER | LF_STMEMBER_ST => parse_static_member(buffer, leaf),
        LF_METHOD | LF_METHOD_ST => parse_overloaded_method(buffer, leaf),
        LF_ONEMETHOD | LF_ONEMETHOD_ST => parse_method(buffer, leaf),
        LF_NESTTYPE | LF_NESTTYPEEX | LF_NESTTYPE_ST | LF_NESTTYPEEX_ST => parse_nested(
            buffer, leaf,
        ),
        _ => parse_base(alloc, buffer, leaf),
    }
}

/// An entry of a list of members.
#[derive(Drop)]
pub(crate) enum FieldEntry<'t> {
    Field(TypeData<'t>),
    /// The index of the list that continues this one.
    Continuation(TypeIndex),
    /// Bytes to be passed over.
    Padding,
}

/// The index of the list that continues this one, after its leaf.
#[tactic(auto, unfolding(crate::specs::TypeLeaves::continuation_at))]
fn parse_continuation(buffer: &mut ParseBuffer<'_>) -> Result<TypeIndex>
    ensures { ParsesFront (λ x. x) result (rest buffer.new) (continuation_at (rest buffer.old)) }
{
    buffer.parse_u16()?;
    buffer.parse()
}

/// The entry of a list of members after its leaf.
#[tactic(auto, unfolding(crate::specs::TypeLeaves::field_behind))]
fn parse_field_behind<'t>(
    alloc: Global,
    buffer: &mut ParseBuffer<'t>,
    leaf: u16,
) -> Result<FieldEntry<'t>>
    ensures { GivesFront field_form result (rest buffer.new) (field_behind leaf (rest buffer.old)) }
{
    if leaf == LF_INDEX {
        return Ok(FieldEntry::Continuation(parse_continuation(buffer)?));
    }
    Ok(FieldEntry::Field(parse_plain(alloc, buffer, leaf)?))
}

/// The next entry of a list of members. A byte from 0xf0 on begins padding, and its low four bits
/// count it.
#[tactic(auto, unfolding(crate::specs::TypeLeaves::field_at))]
fn parse_field<'t>(alloc: Global, buffer: &mut ParseBuffer<'t>) -> Result<FieldEntry<'t>>
    ensures { GivesFront field_form result (rest buffer.new) (field_at (rest buffer.old)) }
{
    let first = buffer.peek_u8()?;
    if first >= 0xf0 {
        buffer.take(usize::from(first - 0xf0).max(1))?;
        return Ok(FieldEntry::Padding);
    }
    let leaf = buffer.parse_u16()?;
    parse_field_behind(alloc, buffer, leaf)
}

/// The members in a list, to its end. A list in it is `UnimplementedTypeKind`.
#[tactic(auto, using(crate::proofs::FieldLists::fields_start, crate::proofs::FieldLists::fields_more, crate::proofs::FieldLists::fields_fail, crate::proofs::FieldLists::fields_end, crate::proofs::FieldLists::fields_done))]
fn parse_field_list<'t>(alloc: Global, buffer: &mut ParseBuffer<'t>) -> Result<FieldList<'t>>
    ensures { Gives field_list_shape ⊥ result (field_list_of (rest buffer.old)) }
{
    let mut fields = Vec::new(alloc);
    let mut continuation = None;
    let count = buffer.len();
    for _ in 0..count {
        if buffer.is_empty() {
            break;
        }
        match parse_field(alloc, buffer)? {
            FieldEntry::Field(field) => fields.push(field)?,
            FieldEntry::Continuation(index) => continuation = Some(index),
            FieldEntry::Padding => {}
        }
    }
    Ok(FieldList {
        fields,
        continuation,
    })
}

/// The type after the leaf at the beginning of a record.
#[tactic(auto, unfolding(crate::specs::TypeLeaves::type_form_behind))]
fn parse_behind<'t>(alloc: Global, buffer: &mut ParseBuffer<'t>, leaf: u16) -> Result<TypeData<'t>>
    ensures { Gives shape ⊥ result (type_form_behind leaf (rest buffer.old)) }
{
    if leaf == LF_FIELDLIST {
        return Ok(TypeData::FieldList(parse_field_list(alloc, buffer)?));
    }
    parse_plain(alloc, buffer, leaf)
}

/// The type that the bytes of its record spell, from the leaf on.
///
/// # Errors
/// `UnexpectedEof` where bytes are missing, `UnimplementedTypeKind` at a leaf of no type,
/// `UnexpectedNumericPrefix`, `UnimplementedFeature` (array sizes past 32 bits, a pointer's unknown
/// kind or mode, a struct of more than 65535 members), `OutOfMemory`.
#[tactic(auto, unfolding(crate::specs::TypeLeaves::type_form_of))]
pub fn parse_type_data(alloc: Global, bytes: &[u8]) -> Result<TypeData<'_>>
    ensures { Gives shape ⊥ result (type_form_of bytes.now) }
{
    let mut buffer = ParseBuffer::from(bytes);
    let leaf = buffer.parse_u16()?;
    parse_behind(alloc, &mut buffer, leaf)
}
