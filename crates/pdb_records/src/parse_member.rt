//! Records of members, after their leaves. Each is refused with `UnexpectedEof` where bytes are
//! missing, and with `UnexpectedNumericPrefix` where a numeric leaf begins no number.

ghost use Rattle.std.specs.Prelude.{◌≡◌, IfOk};
ghost use Rattle.pdb_container.specs.Buffer.{rest, ParsesFront};
ghost use Rattle.pdb_records.specs.Forms as forms;
ghost use Rattle.pdb_records.specs.Forms.{Plain};
ghost use Rattle.pdb_records.specs.Parsing.{ParsesForm};
ghost use Rattle.pdb_records.specs.Shapes.{shape, plain_shape};
ghost use Rattle.pdb_records.specs.TypeRecords.{enumerate_at, member_at, static_member_at};
ghost use Rattle.pdb_records.specs.TypeRecords.{overloaded_method_at, vtable_offset_at, method_at};
ghost use Rattle.pdb_records.specs.TypeRecords.{nested_at, base_class_at, virtual_base_class_at};
ghost use Rattle.pdb_records.specs.TypeRecords.{
  virtual_function_table_pointer_at as table_pointer_at,
};

use crate::parse_type::parse_half_and_type;
use crate::type_attributes::FieldAttributes;
use crate::type_data::{
    BaseClassType, ClassKind, EnumerateType, MemberType, MethodType, NestedType,
    OverloadedMethodType, StaticMemberType, TypeData, VirtualBaseClassType,
    VirtualFunctionTablePointerType,
};
use pdb_container::{
    ParseBuffer, Result, TypeIndex, half_at, parse_name, parse_numeric, parse_variant, word_at,
};

/// `LF_ENUMERATE`: a value of an enumeration.
#[tactic(auto, unfolding(crate::specs::TypeRecords::enumerate_at))]
pub fn parse_enumerate<'t>(buffer: &mut ParseBuffer<'t>, leaf: u16) -> Result<TypeData<'t>>
    ensures form { ParsesForm result buffer.old buffer.new forms.Enumerate (enumerate_at leaf) }
    ensures plain { IfOk result (λ t. shape t ≡ Plain (plain_shape t)) }
{
    let attributes = FieldAttributes::new(buffer.parse_u16()?);
    let value = parse_variant(buffer)?;
    let name = parse_name(buffer, leaf)?;
    Ok(TypeData::Enumerate(EnumerateType {
        attributes,
        value,
        name,
    }))
}

/// `LF_MEMBER`: a data member.
#[tactic(auto, unfolding(crate::specs::TypeRecords::member_at))]
pub fn parse_data_member<'t>(buffer: &mut ParseBuffer<'t>, leaf: u16) -> Result<TypeData<'t>>
    ensures form { ParsesForm result buffer.old buffer.new forms.Member (member_at leaf) }
    ensures plain { IfOk result (λ t. shape t ≡ Plain (plain_shape t)) }
{
    let (bits, field_type) = parse_half_and_type(buffer)?;
    let attributes = FieldAttributes::new(bits);
    let offset = parse_numeric(buffer)?;
    let name = parse_name(buffer, leaf)?;
    Ok(TypeData::Member(MemberType {
        attributes,
        field_type,
        offset,
        name,
    }))
}

/// `LF_STMEMBER`: a static data member.
#[tactic(auto, unfolding(crate::specs::TypeRecords::static_member_at))]
pub fn parse_static_member<'t>(buffer: &mut ParseBuffer<'t>, leaf: u16) -> Result<TypeData<'t>>
    ensures form { ParsesForm result buffer.old buffer.new forms.StaticMember
        (static_member_at leaf) }
    ensures plain { IfOk result (λ t. shape t ≡ Plain (plain_shape t)) }
{
    let (bits, field_type) = parse_half_and_type(buffer)?;
    let attributes = FieldAttributes::new(bits);
    let name = parse_name(buffer, leaf)?;
    Ok(TypeData::StaticMember(StaticMemberType {
        attributes,
        field_type,
        name,
    }))
}

/// `LF_METHOD`: methods of one name.
#[tactic(auto, unfolding(crate::specs::TypeRecords::overloaded_method_at))]
pub fn parse_overloaded_method<'t>(buffer: &mut ParseBuffer<'t>, leaf: u16) -> Result<TypeData<'t>>
    ensures form { ParsesForm result buffer.old buffer.new forms.OverloadedMethod
        (overloaded_method_at leaf) }
    ensures plain { IfOk result (λ t. shape t ≡ Plain (plain_shape t)) }
{
    let (count, method_list) = parse_half_and_type(buffer)?;
    let name = parse_name(buffer, leaf)?;
    Ok(TypeData::OverloadedMethod(OverloadedMethodType {
        count,
        method_list,
        name,
    }))
}

/// The offset in the virtual function table, in bytes, of a method that introduces one.
#[tactic(auto, unfolding(crate::specs::TypeRecords::vtable_offset_at))]
pub fn parse_vtable_offset(
    buffer: &mut ParseBuffer<'_>,
    attributes: FieldAttributes,
) -> Result<Option<u32>>
    ensures { ParsesFront (λ x. x) result (rest buffer.new)
        (vtable_offset_at attributes (rest buffer.old)) }
{
    if !attributes.is_intro_virtual() {
        return Ok(None);
    }
    Ok(Some(buffer.parse_u32()?))
}

/// `LF_ONEMETHOD`: a method that is alone of its name.
#[tactic(auto, unfolding(crate::specs::TypeRecords::method_at))]
pub fn parse_method<'t>(buffer: &mut ParseBuffer<'t>, leaf: u16) -> Result<TypeData<'t>>
    ensures form { ParsesForm result buffer.old buffer.new forms.Method (method_at leaf) }
    ensures plain { IfOk result (λ t. shape t ≡ Plain (plain_shape t)) }
{
    let (bits, method_type) = parse_half_and_type(buffer)?;
    let attributes = FieldAttributes::new(bits);
    let vtable_offset = parse_vtable_offset(buffer, attributes)?;
    let name = parse_name(buffer, leaf)?;
    Ok(TypeData::Method(MethodType {
        attributes,
        method_type,
        vtable_offset,
        name,
    }))
}

/// `LF_NESTTYPE`, `LF_NESTTYPEEX`: a nested type.
#[tactic(auto, unfolding(crate::specs::TypeRecords::nested_at))]
pub fn parse_nested<'t>(buffer: &mut ParseBuffer<'t>, leaf: u16) -> Result<TypeData<'t>>
    ensures form { ParsesForm result buffer.old buffer.new forms.Nested (nested_at leaf) }
    ensures plain { IfOk result (λ t. shape t ≡ Plain (plain_shape t)) }
{
    let (bits, nested_type) = parse_half_and_type(buffer)?;
    let attributes = FieldAttributes::new(bits);
    let name = parse_name(buffer, leaf)?;
    Ok(TypeData::Nested(NestedType {
        attributes,
        nested_type,
        name,
    }))
}

/// `LF_BCLASS`, `LF_BINTERFACE`: a base class.
#[tactic(auto, unfolding(crate::specs::TypeRecords::base_class_at))]
pub fn parse_base_class<'t>(buffer: &mut ParseBuffer<'t>, kind: ClassKind) -> Result<TypeData<'t>>
    ensures form { ParsesForm result buffer.old buffer.new forms.BaseClass (base_class_at kind) }
    ensures plain { IfOk result (λ t. shape t ≡ Plain (plain_shape t)) }
{
    let (bits, base_class) = parse_half_and_type(buffer)?;
    let attributes = FieldAttributes::new(bits);
    let offset = parse_numeric(buffer)?;
    Ok(TypeData::BaseClass(BaseClassType {
        kind,
        attributes,
        base_class,
        offset,
    }))
}

/// `LF_VBCLASS` (direct), `LF_IVBCLASS`: a virtual base class.
#[tactic(auto, unfolding(crate::specs::TypeRecords::virtual_base_class_at))]
pub fn parse_virtual_base_class<'t>(
    buffer: &mut ParseBuffer<'t>,
    direct: bool,
) -> Result<TypeData<'t>>
    ensures form { ParsesForm result buffer.old buffer.new forms.VirtualBaseClass
        (virtual_base_class_at direct) }
    ensures plain { IfOk result (λ t. shape t ≡ Plain (plain_shape t)) }
{
    let front = buffer.take(10)?;
    let base_pointer_offset = parse_numeric(buffer)?;
    let virtual_base_offset = parse_numeric(buffer)?;
    Ok(TypeData::VirtualBaseClass(VirtualBaseClassType {
        direct,
        attributes: FieldAttributes::new(half_at(front, 0)),
        base_class: TypeIndex(word_at(front, 2)),
        base_pointer: TypeIndex(word_at(front, 6)),
        base_pointer_offset,
        virtual_base_offset,
    }))
}

/// `LF_VFUNCTAB`: the pointer to a virtual function table.
#[tactic(auto, unfolding(crate::specs::TypeRecords::virtual_function_table_pointer_at))]
pub fn parse_virtual_function_table_pointer<'t>(
    buffer: &mut ParseBuffer<'t>,
) -> Result<TypeData<'t>>
    ensures form { ParsesForm result buffer.old buffer.new forms.VirtualFunctionTablePointer
        table_pointer_at }
    ensures plain { IfOk result (λ t. shape t ≡ Plain (plain_shape t)) }
{
    let (_, table) = parse_half_and_type(buffer)?;
    Ok(TypeData::VirtualFunctionTablePointer(VirtualFunctionTablePointerType { table }))
}
