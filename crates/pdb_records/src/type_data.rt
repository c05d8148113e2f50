//! Types of the TPI as values (`LF_*`).

ghost use Rattle.std.specs.Prelude.{◌<◌, length};

use crate::primitive::PrimitiveType;
use crate::type_attributes::{
    FieldAttributes, FunctionAttributes, PointerAttributes, TypeProperties,
};
use pdb_container::{RawString, TypeIndex, Variant};

/// A type of the TPI, or an entry of a list of a type's members.
#[derive(Debug, Drop)]
#[cycle(types)]
pub enum TypeData<'t> {
    /// A primitive type, which has no record.
    Primitive(PrimitiveType),
    /// `LF_CLASS`, `LF_STRUCTURE`, `LF_INTERFACE`, `LF_STRUCTURE19`.
    Class(ClassType<'t>),
    /// `LF_MEMBER`.
    Member(MemberType<'t>),
    /// `LF_MFUNCTION`.
    MemberFunction(MemberFunctionType),
    /// `LF_METHOD`.
    OverloadedMethod(OverloadedMethodType<'t>),
    /// `LF_ONEMETHOD`.
    Method(MethodType<'t>),
    /// `LF_STMEMBER`.
    StaticMember(StaticMemberType<'t>),
    /// `LF_NESTTYPE`, `LF_NESTTYPEEX`.
    Nested(NestedType<'t>),
    /// `LF_BCLASS`, `LF_BINTERFACE`.
    BaseClass(BaseClassType),
    /// `LF_VBCLASS`, `LF_IVBCLASS`.
    VirtualBaseClass(VirtualBaseClassType),
    /// `LF_VFUNCTAB`.
    VirtualFunctionTablePointer(VirtualFunctionTablePointerType),
    /// `LF_PROCEDURE`.
    Procedure(ProcedureType),
    /// `LF_POINTER`.
    Pointer(PointerType),
    /// `LF_MODIFIER`.
    Modifier(ModifierType),
    /// `LF_ENUM`.
    Enumeration(EnumerationType<'t>),
    /// `LF_ENUMERATE`.
    Enumerate(EnumerateType<'t>),
    /// `LF_ARRAY`, `LF_STRIDED_ARRAY`.
    Array(ArrayType),
    /// `LF_UNION`.
    Union(UnionType<'t>),
    /// `LF_BITFIELD`.
    Bitfield(BitfieldType),
    /// `LF_FIELDLIST`.
    FieldList(FieldList<'t>),
    /// `LF_ARGLIST`.
    ArgumentList(ArgumentList),
    /// `LF_METHODLIST`.
    MethodList(MethodList),
}

/// The kind of a class: the keyword that declares it.
#[derive(Clone, Copy, Debug, PartialEq, Eq, Hash)]
pub enum ClassKind {
    /// `class`: `LF_CLASS`, `LF_BCLASS`.
    Class,
    /// `struct`: `LF_STRUCTURE`, `LF_STRUCTURE19`.
    Struct,
    /// `interface`: `LF_INTERFACE`, `LF_BINTERFACE`.
    Interface,
}

/// A class, a struct or an interface (`LF_CLASS`, `LF_STRUCTURE`, `LF_INTERFACE`,
/// `LF_STRUCTURE19`).
#[derive(Clone, Copy, Debug, PartialEq, Eq)]
pub struct ClassType<'t> {
    /// The kind: class, struct or interface.
    pub kind: ClassKind,
    /// The number of its members.
    pub count: u16,
    /// Its properties, a forward reference among them.
    pub properties: TypeProperties,
    /// The list of its members, if it has one.
    pub fields: Option<TypeIndex>,
    /// The list of types from which it is derived, if it has one.
    pub derived_from: Option<TypeIndex>,
    /// The shape of its virtual function table, if it has one.
    pub vtable_shape: Option<TypeIndex>,
    /// Its size in bytes.
    pub size: u64,
    /// Its name, with its namespaces.
    pub name: RawString<'t>,
    /// The name that no other type has.
    pub unique_name: Option<RawString<'t>>,
}

/// A data member (`LF_MEMBER`), which each object has.
#[derive(Clone, Copy, Debug, PartialEq, Eq)]
pub struct MemberType<'t> {
    /// Its attributes.
    pub attributes: FieldAttributes,
    /// Its type.
    pub field_type: TypeIndex,
    /// Its offset from the object's beginning, in bytes.
    pub offset: u64,
    /// Its name.
    pub name: RawString<'t>,
}

/// A member function (`LF_MFUNCTION`): the type of a method.
#[derive(Clone, Copy, Debug, PartialEq, Eq)]
pub struct MemberFunctionType {
    /// The return type.
    pub return_type: TypeIndex,
    /// The class that has the method.
    pub class_type: TypeIndex,
    /// The type of `this`; `None` for a static method.
    pub this_pointer_type: Option<TypeIndex>,
    /// Its attributes, that of a constructor among them.
    pub attributes: FunctionAttributes,
    /// The number of its parameters, as the record states it.
    pub parameter_count: u16,
    /// The list of its parameters' types.
    pub argument_list: TypeIndex,
    /// The number of bytes that are added to `this` before the call.
    pub this_adjustment: u32,
}

/// Overloaded methods (`LF_METHOD`), which share a name.
#[derive(Clone, Copy, Debug, PartialEq, Eq)]
pub struct OverloadedMethodType<'t> {
    /// The number of methods that have the name.
    pub count: u16,
    /// The list of these methods.
    pub method_list: TypeIndex,
    /// The name.
    pub name: RawString<'t>,
}

/// A method (`LF_ONEMETHOD`), the only one of its name.
#[derive(Clone, Copy, Debug, PartialEq, Eq)]
pub struct MethodType<'t> {
    /// Its attributes.
    pub attributes: FieldAttributes,
    /// Its type.
    pub method_type: TypeIndex,
    /// Its offset in the virtual function table, in bytes, where the method introduces one.
    pub vtable_offset: Option<u32>,
    /// Its name.
    pub name: RawString<'t>,
}

/// A static data member (`LF_STMEMBER`), which all objects share.
#[derive(Clone, Copy, Debug, PartialEq, Eq)]
pub struct StaticMemberType<'t> {
    /// Its attributes.
    pub attributes: FieldAttributes,
    /// Its type.
    pub field_type: TypeIndex,
    /// Its name.
    pub name: RawString<'t>,
}

/// A nested type (`LF_NESTTYPE`, `LF_NESTTYPEEX`), which is declared in a class.
#[derive(Clone, Copy, Debug, PartialEq, Eq)]
pub struct NestedType<'t> {
    /// Its attributes: the record's first two bytes, which `LF_NESTTYPE` leaves unused.
    pub attributes: FieldAttributes,
    /// The type that is named.
    pub nested_type: TypeIndex,
    /// The name inside the class.
    pub name: RawString<'t>,
}

/// A base class (`LF_BCLASS`, `LF_BINTERFACE`): a class that another one extends.
#[derive(Clone, Copy, Debug, PartialEq, Eq)]
pub struct BaseClassType {
    /// `Interface` or `Class`.
    pub kind: ClassKind,
    /// Its attributes.
    pub attributes: FieldAttributes,
    /// The class.
    pub base_class: TypeIndex,
    /// Its offset from the object's beginning, in bytes.
    pub offset: u64,
}

/// A virtual base class (`LF_VBCLASS`, `LF_IVBCLASS`), of which an object has one part at most.
#[derive(Clone, Copy, Debug, PartialEq, Eq)]
pub struct VirtualBaseClassType {
    /// Whether the class itself names it, and not only a base class.
    pub direct: bool,
    /// Its attributes.
    pub attributes: FieldAttributes,
    /// The class.
    pub base_class: TypeIndex,
    /// The type of the pointer to the table of virtual base classes.
    pub base_pointer: TypeIndex,
    /// The offset of that pointer from the object's address, in bytes.
    pub base_pointer_offset: u64,
    /// The class's place in that table.
    pub virtual_base_offset: u64,
}

/// The pointer to a virtual function table (`LF_VFUNCTAB`).
#[derive(Clone, Copy, Debug, PartialEq, Eq)]
pub struct VirtualFunctionTablePointerType {
    /// The type of the pointer.
    pub table: TypeIndex,
}

/// A procedure (`LF_PROCEDURE`): the type of a function that is no method.
#[derive(Clone, Copy, Debug, PartialEq, Eq)]
pub struct ProcedureType {
    /// The return type, if one is named.
    pub return_type: Option<TypeIndex>,
    /// Its attributes.
    pub attributes: FunctionAttributes,
    /// The number of its parameters.
    pub parameter_count: u16,
    /// The list of its parameters' types.
    pub argument_list: TypeIndex,
}

/// A pointer or a reference (`LF_POINTER`).
#[derive(Clone, Copy, Debug, PartialEq, Eq)]
pub struct PointerType {
    /// The type to which it leads.
    pub underlying_type: TypeIndex,
    /// Its kind, mode, size and qualifiers.
    pub attributes: PointerAttributes,
    /// The class whose member or method it leads to, where it leads to one.
    pub containing_class: Option<TypeIndex>,
}

/// A modifier (`LF_MODIFIER`): a type with qualifiers added to it.
#[derive(Clone, Copy, Debug, PartialEq, Eq)]
pub struct ModifierType {
    /// The type.
    pub underlying_type: TypeIndex,
    /// Whether it is `const`.
    pub constant: bool,
    /// Whether it is `volatile`.
    pub volatile: bool,
    /// Whether it is `__unaligned`.
    pub unaligned: bool,
}

/// An enumeration (`LF_ENUM`).
#[derive(Clone, Copy, Debug, PartialEq, Eq)]
pub struct EnumerationType<'t> {
    /// The number of values that it names.
    pub count: u16,
    /// Its properties, a forward reference among them.
    pub properties: TypeProperties,
    /// The type that holds a value.
    pub underlying_type: TypeIndex,
    /// The list of its values.
    pub fields: TypeIndex,
    /// Its name, with its namespaces.
    pub name: RawString<'t>,
    /// The name that no other type has.
    pub unique_name: Option<RawString<'t>>,
}

/// A value of an enumeration (`LF_ENUMERATE`).
#[derive(Clone, Copy, Debug, PartialEq, Eq)]
pub struct EnumerateType<'t> {
    /// Its attributes.
    pub attributes: FieldAttributes,
    /// The value.
    pub value: Variant,
    /// Its name.
    pub name: RawString<'t>,
}

/// An array (`LF_ARRAY`, `LF_STRIDED_ARRAY`).
#[derive(Debug, Drop)]
pub struct ArrayType {
    /// The type of an element.
    pub element_type: TypeIndex,
    /// The type of an index.
    pub indexing_type: TypeIndex,
    /// The stride: from one element to the next, in bytes, where it is not the element's size.
    pub stride: Option<u32>,
    /// Sizes in bytes, the last that of the whole array; there is one at least.
    pub dimensions: Vec<u32>,
    ghost some_dimension: { 0 < length dimensions.items },
}

/// A union (`LF_UNION`).
#[derive(Clone, Copy, Debug, PartialEq, Eq)]
pub struct UnionType<'t> {
    /// The number of its members.
    pub count: u16,
    /// Its properties, a forward reference among them.
    pub properties: TypeProperties,
    /// The list of its members.
    pub fields: TypeIndex,
    /// Its size in bytes.
    pub size: u64,
    /// Its name, with its namespaces.
    pub name: RawString<'t>,
    /// The name that no other type has.
    pub unique_name: Option<RawString<'t>>,
}

/// A bit field (`LF_BITFIELD`): some bits of a number.
#[derive(Clone, Copy, Debug, PartialEq, Eq)]
pub struct BitfieldType {
    /// The number's type.
    pub underlying_type: TypeIndex,
    /// The number of bits.
    pub length: u8,
    /// The lowest bit, counted from 0.
    pub position: u8,
}

/// A field list (`LF_FIELDLIST`): the members of a type, none of which is such a list.
#[derive(Debug, Drop)]
#[cycle(types)]
pub struct FieldList<'t> {
    /// The members.
    pub fields: Vec<TypeData<'t>>,
    /// The list in which more members stand, if there is one (`LF_INDEX`).
    pub continuation: Option<TypeIndex>,
}

/// An argument list (`LF_ARGLIST`).
#[derive(Debug, Drop)]
pub struct ArgumentList {
    /// The types of a function's arguments.
    pub arguments: Vec<TypeIndex>,
}

/// A method list (`LF_METHODLIST`).
#[derive(Debug, Drop)]
pub struct MethodList {
    /// The methods that share a name.
    pub methods: Vec<MethodListEntry>,
}

/// An entry of a method list: one of several methods that share a name.
#[derive(Clone, Copy, Debug, PartialEq, Eq)]
pub struct MethodListEntry {
    /// Its attributes.
    pub attributes: FieldAttributes,
    /// Its type.
    pub method_type: TypeIndex,
    /// Its offset in the virtual function table, in bytes, where the method introduces one.
    pub vtable_offset: Option<u32>,
}
