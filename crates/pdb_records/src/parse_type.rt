//! Records of types that are no members, after their leaves. Each is refused with `UnexpectedEof`
//! where bytes are missing, and with `UnexpectedNumericPrefix` where a numeric leaf begins no
//! number.

ghost use Rattle.std.specs.Prelude.{◌≡◌, ◌≤◌, length, IfOk, option_map};
ghost use Rattle.pdb_container.specs.Buffer.{rest, ParsesFront};
ghost use Rattle.pdb_container.specs.RawString.{raw_bytes};
ghost use Rattle.pdb_records.specs.Forms as forms;
ghost use Rattle.pdb_records.specs.Forms.{Plain};
ghost use Rattle.pdb_records.specs.Parsing.{ParsesForm, ParsesField};
ghost use Rattle.pdb_records.specs.Shapes.{shape, plain_shape, names_shape, sized_names_shape};
ghost use Rattle.pdb_records.specs.TypeRecords.{optional_type as type_or_none, half_and_type_at};
ghost use Rattle.pdb_records.specs.TypeRecords.{two_types_at, modifier_in as modifier_of};
ghost use Rattle.pdb_records.specs.TypeRecords.{procedure_in as procedure_of};
ghost use Rattle.pdb_records.specs.TypeRecords.{member_function_in as member_function_of};
ghost use Rattle.pdb_records.specs.TypeRecords.{modifier_at, pointer_front_at, containing_class_at};
ghost use Rattle.pdb_records.specs.TypeRecords.{pointer_at, procedure_at, member_function_at};
ghost use Rattle.pdb_records.specs.TypeRecords.{bitfield_at, unique_name_at, names_at};
ghost use Rattle.pdb_records.specs.TypeRecords.{size_and_names_at, class_at, field_count_at};
ghost use Rattle.pdb_records.specs.TypeRecords.{newer_struct_at, union_at, enumeration_at};

use crate::type_attributes::{FunctionAttributes, PointerAttributes, TypeProperties};
use crate::type_data::{
    BitfieldType, ClassKind, ClassType, EnumerationType, MemberFunctionType, ModifierType,
    PointerType, ProcedureType, TypeData, UnionType,
};
use pdb_container::{
    Error, ParseBuffer, RawString, Result, TypeIndex, half_at, parse_name, parse_numeric, word_at,
};

/// The type that a number names: none for 0 and for 0xffff.
fn optional_type(number: u32) -> Option<TypeIndex>
    ensures { result ≡ type_or_none number }
{
    if number == 0 || number == 0xffff {
        return None;
    }
    Some(TypeIndex(number))
}

/// A number in two bytes, and a type.
pub fn parse_half_and_type(buffer: &mut ParseBuffer<'_>) -> Result<(u16, TypeIndex)>
    ensures { ParsesFront (λ x. x) result (rest buffer.new) (half_and_type_at (rest buffer.old)) }
{
    let front = buffer.take(6)?;
    Ok((half_at(front, 0), TypeIndex(word_at(front, 2))))
}

/// Two types.
pub fn parse_two_types(buffer: &mut ParseBuffer<'_>) -> Result<(TypeIndex, TypeIndex)>
    ensures { ParsesFront (λ x. x) result (rest buffer.new) (two_types_at (rest buffer.old)) }
{
    let front = buffer.take(8)?;
    Ok((TypeIndex(word_at(front, 0)), TypeIndex(word_at(front, 4))))
}

/// `LF_MODIFIER`: a constant, volatile or unaligned type.
#[tactic(auto, unfolding(crate::specs::TypeRecords::modifier_at))]
pub fn parse_modifier<'t>(buffer: &mut ParseBuffer<'t>) -> Result<TypeData<'t>>
    ensures form { ParsesForm result buffer.old buffer.new forms.Modifier modifier_at }
    ensures plain { IfOk result (λ t. shape t ≡ Plain (plain_shape t)) }
{
    Ok(TypeData::Modifier(modifier_in(buffer.take(6)?)))
}

/// The modifier, from its 6 bytes.
fn modifier_in(bytes: &[u8]) -> ModifierType
    requires { 6 ≤ length bytes.now }
    ensures { result ≡ modifier_of bytes.now }
{
    let flags = half_at(bytes, 4);
    ModifierType {
        underlying_type: TypeIndex(word_at(bytes, 0)),
        constant: flags & 1 != 0,
        volatile: flags & 2 != 0,
        unaligned: flags & 4 != 0,
    }
}

/// A pointer's type, and its attributes. `UnimplementedFeature` where its kind or mode is unknown.
#[tactic(auto, unfolding(crate::specs::TypeRecords::pointer_front_at))]
fn parse_pointer_front(buffer: &mut ParseBuffer<'_>) -> Result<(TypeIndex, PointerAttributes)>
    ensures { ParsesFront (λ x. x) result (rest buffer.new) (pointer_front_at (rest buffer.old)) }
{
    let front = buffer.take(8)?;
    let attributes = PointerAttributes::new(word_at(front, 4));
    if !attributes.is_known() {
        return Err(Error::UnimplementedFeature("pointer kind or mode"));
    }
    Ok((TypeIndex(word_at(front, 0)), attributes))
}

#[tactic(auto, unfolding(crate::specs::TypeRecords::containing_class_at))]
fn parse_containing_class(
    buffer: &mut ParseBuffer<'_>,
    attributes: PointerAttributes,
) -> Result<Option<TypeIndex>>
    ensures { ParsesFront (λ x. x) result (rest buffer.new)
        (containing_class_at attributes (rest buffer.old)) }
{
    if !attributes.is_to_member() {
        return Ok(None);
    }
    Ok(Some(buffer.parse()?))
}

/// `LF_POINTER`: a pointer or a reference. `UnimplementedFeature` where its kind or mode is
/// unknown.
#[tactic(auto, unfolding(crate::specs::TypeRecords::pointer_at))]
pub fn parse_pointer<'t>(buffer: &mut ParseBuffer<'t>) -> Result<TypeData<'t>>
    ensures form { ParsesForm result buffer.old buffer.new forms.Pointer pointer_at }
    ensures plain { IfOk result (λ t. shape t ≡ Plain (plain_shape t)) }
{
    let (underlying_type, attributes) = parse_pointer_front(buffer)?;
    let containing_class = parse_containing_class(buffer, attributes)?;
    Ok(TypeData::Pointer(PointerType {
        underlying_type,
        attributes,
        containing_class,
    }))
}

/// `LF_PROCEDURE`: the type of a function that is no method.
#[tactic(auto, unfolding(crate::specs::TypeRecords::procedure_at))]
pub fn parse_procedure<'t>(buffer: &mut ParseBuffer<'t>) -> Result<TypeData<'t>>
    ensures form { ParsesForm result buffer.old buffer.new forms.Procedure procedure_at }
    ensures plain { IfOk result (λ t. shape t ≡ Plain (plain_shape t)) }
{
    Ok(TypeData::Procedure(procedure_in(buffer.take(12)?)))
}

/// The type of a function, from its 12 bytes.
fn procedure_in(bytes: &[u8]) -> ProcedureType
    requires { 12 ≤ length bytes.now }
    ensures { result ≡ procedure_of bytes.now }
{
    ProcedureType {
        return_type: optional_type(word_at(bytes, 0)),
        attributes: FunctionAttributes::new(half_at(bytes, 4)),
        parameter_count: half_at(bytes, 6),
        argument_list: TypeIndex(word_at(bytes, 8)),
    }
}

/// `LF_MFUNCTION`: the type of a method.
#[tactic(auto, unfolding(crate::specs::TypeRecords::member_function_at))]
pub fn parse_member_function<'t>(buffer: &mut ParseBuffer<'t>) -> Result<TypeData<'t>>
    ensures form { ParsesForm result buffer.old buffer.new forms.MemberFunction member_function_at }
    ensures plain { IfOk result (λ t. shape t ≡ Plain (plain_shape t)) }
{
    Ok(TypeData::MemberFunction(member_function_in(buffer.take(24)?)))
}

/// The type of a method, from its 24 bytes.
fn member_function_in(bytes: &[u8]) -> MemberFunctionType
    requires { 24 ≤ length bytes.now }
    ensures { result ≡ member_function_of bytes.now }
{
    MemberFunctionType {
        return_type: TypeIndex(word_at(bytes, 0)),
        class_type: TypeIndex(word_at(bytes, 4)),
        this_pointer_type: optional_type(word_at(bytes, 8)),
        attributes: FunctionAttributes::new(half_at(bytes, 12)),
        parameter_count: half_at(bytes, 14),
        argument_list: TypeIndex(word_at(bytes, 16)),
        this_adjustment: word_at(bytes, 20),
    }
}

/// `LF_BITFIELD`: some bits of a number.
#[tactic(auto, unfolding(crate::specs::TypeRecords::bitfield_at))]
pub fn parse_bitfield<'t>(buffer: &mut ParseBuffer<'t>) -> Result<TypeData<'t>>
    ensures form { ParsesForm result buffer.old buffer.new forms.Bitfield bitfield_at }
    ensures plain { IfOk result (λ t. shape t ≡ Plain (plain_shape t)) }
{
    let front = buffer.take(6)?;
    Ok(TypeData::Bitfield(BitfieldType {
        underlying_type: TypeIndex(word_at(front, 0)),
        length: front[4],
        position: front[5],
    }))
}

/// The unique name in a record with that leaf, where the properties say that it has one.
#[tactic(auto, unfolding(crate::specs::TypeRecords::unique_name_at))]
fn parse_unique_name<'t>(
    buffer: &mut ParseBuffer<'t>,
    leaf: u16,
    properties: TypeProperties,
) -> Result<Option<RawString<'t>>>
    ensures { ParsesField (option_map raw_bytes) result buffer.old buffer.new
        (unique_name_at leaf properties) }
{
    if !properties.has_unique_name() {
        return Ok(None);
    }
    Ok(Some(parse_name(buffer, leaf)?))
}

/// The name, and the unique name where the properties say that it has one.
#[tactic(auto, unfolding(crate::specs::TypeRecords::names_at))]
fn parse_names<'t>(
    buffer: &mut ParseBuffer<'t>,
    leaf: u16,
    properties: TypeProperties,
) -> Result<(RawString<'t>, Option<RawString<'t>>)>
    ensures { ParsesFront names_shape result (rest buffer.new)
        (names_at leaf properties (rest buffer.old)) }
{
    let name = parse_name(buffer, leaf)?;
    let unique_name = parse_unique_name(buffer, leaf, properties)?;
    Ok((name, unique_name))
}

/// The size in bytes, and the names.
#[tactic(auto, unfolding(crate::specs::TypeRecords::size_and_names_at))]
fn parse_size_and_names<'t>(
    buffer: &mut ParseBuffer<'t>,
    leaf: u16,
    properties: TypeProperties,
) -> Result<(u64, (RawString<'t>, Option<RawString<'t>>))>
    ensures { ParsesField sized_names_shape result buffer.old buffer.new
        (size_and_names_at leaf properties) }
{
    let size = parse_numeric(buffer)?;
    let names = parse_names(buffer, leaf, properties)?;
    Ok((size, names))
}

/// `LF_CLASS`, `LF_STRUCTURE`, `LF_INTERFACE`, by its leaf.
#[tactic(auto, unfolding(crate::specs::TypeRecords::class_at))]
pub fn parse_class<'t>(
    buffer: &mut ParseBuffer<'t>,
    leaf: u16,
    kind: ClassKind,
) -> Result<TypeData<'t>>
    ensures form { ParsesForm result buffer.old buffer.new forms.Class (class_at leaf kind) }
    ensures plain { IfOk result (λ t. shape t ≡ Plain (plain_shape t)) }
{
    let front = buffer.take(16)?;
    let properties = TypeProperties::new(half_at(front, 2));
    let (size, (name, unique_name)) = parse_size_and_names(buffer, leaf, properties)?;
    Ok(TypeData::Class(ClassType {
        kind,
        count: half_at(front, 0),
        properties,
        fields: optional_type(word_at(front, 4)),
        derived_from: optional_type(word_at(front, 8)),
        vtable_shape: optional_type(word_at(front, 12)),
        size,
        name,
        unique_name,
    }))
}

/// The number of a struct's members, as newer compilers write it. `UnimplementedFeature` past
/// 65535.
#[tactic(auto, unfolding(crate::specs::TypeRecords::field_count_at))]
fn parse_field_count(buffer: &mut ParseBuffer<'_>) -> Result<u16>
    ensures { ParsesFront (λ x. x) result (rest buffer.new) (field_count_at (rest buffer.old)) }
{
    let count = parse_numeric(buffer)?;
    if count > 65535 {
        return Err(Error::UnimplementedFeature("field count"));
    }
    Ok(count as u16)
}

/// `LF_STRUCTURE19`: a struct as newer compilers write it. `UnimplementedFeature` past 65535
/// members.
#[tactic(auto, unfolding(crate::specs::TypeRecords::newer_struct_at))]
pub fn parse_newer_struct<'t>(buffer: &mut ParseBuffer<'t>, leaf: u16) -> Result<TypeData<'t>>
    ensures form { ParsesForm result buffer.old buffer.new forms.Class (newer_struct_at leaf) }
    ensures plain { IfOk result (λ t. shape t ≡ Plain (plain_shape t)) }
{
    let front = buffer.take(16)?;
    let properties = TypeProperties::new(half_at(front, 0));
    let count = parse_field_count(buffer)?;
    let (size, (name, unique_name)) = parse_size_and_names(buffer, leaf, properties)?;
    Ok(TypeData::Class(ClassType {
        kind: ClassKind::Struct,
        count,
        properties,
        fields: optional_type(word_at(front, 4)),
        derived_from: optional_type(word_at(front, 8)),
        vtable_shape: optional_type(word_at(front, 12)),
        size,
        name,
        unique_name,
    }))
}

/// `LF_UNION`, by its leaf.
#[tactic(auto, unfolding(crate::specs::TypeRecords::union_at))]
pub fn parse_union<'t>(buffer: &mut ParseBuffer<'t>, leaf: u16) -> Result<TypeData<'t>>
    ensures form { ParsesForm result buffer.old buffer.new forms.Union (union_at leaf) }
    ensures plain { IfOk result (λ t. shape t ≡ Plain (plain_shape t)) }
{
    let front = buffer.take(8)?;
    let properties = TypeProperties::new(half_at(front, 2));
    let (size, (name, unique_name)) = parse_size_and_names(buffer, leaf, properties)?;
    Ok(TypeData::Union(UnionType {
        count: half_at(front, 0),
        properties,
        fields: TypeIndex(word_at(front, 4)),
        size,
        name,
        unique_name,
    }))
}

/// `LF_ENUM`, by its leaf.
#[tactic(auto, unfolding(crate::specs::TypeRecords::enumeration_at))]
pub fn parse_enumeration<'t>(buffer: &mut ParseBuffer<'t>, leaf: u16) -> Result<TypeData<'t>>
    ensures form { ParsesForm result buffer.old buffer.new forms.Enumeration (enumeration_at leaf) }
    ensures plain { IfOk result (λ t. shape t ≡ Plain (plain_shape t)) }
{
    let front = buffer.take(12)?;
    let properties = TypeProperties::new(half_at(front, 2));
    let (name, unique_name) = parse_names(buffer, leaf, properties)?;
    Ok(TypeData::Enumeration(EnumerationType {
        count: half_at(front, 0),
        properties,
        underlying_type: TypeIndex(word_at(front, 4)),
        fields: TypeIndex(word_at(front, 8)),
        name,
        unique_name,
    }))
}
