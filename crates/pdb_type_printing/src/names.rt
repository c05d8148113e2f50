//! Names of types without a record, keywords before names, names of forms and of ids.

ghost use Rattle.std.specs.Prelude.{◌≡◌, ◌++◌, string_bytes};
ghost use Rattle.std.specs.Str.Parse.{without_leading_plus};
ghost use Rattle.pdb_container.specs.RawString.{raw_bytes};
ghost use Rattle.pdb_records.specs.Shapes.{shape};
ghost use Rattle.pdb_records.specs.IdForms.{id_shape};
ghost use Rattle.pdb_type_printing.specs.Printed.{Prints, say};
ghost use Rattle.pdb_type_printing.specs.Names.{primitive_name, primitive_text, class_word, named};
ghost use Rattle.pdb_type_printing.specs.Names.{name_or_omitted, is_number, is_anonymous_namespace};
ghost use Rattle.pdb_type_printing.specs.Names.{string_text};
ghost use Rattle.pdb_type_printing.specs.FormNames.{form_name, unhandled, id_form_name};
ghost use Rattle.pdb_type_printing.specs.FormNames.{unhandled_id};

use crate::flags::TypeFormatterFlags;
use crate::text::emit;
use bitflags::Flags;
use pdb_container::RawString;
use pdb_records::{ClassKind, IdData, PrimitiveKind, PrimitiveType, TypeData};
use pdb_resolving::stop::Result;

fn primitive_name(kind: PrimitiveKind) -> &'static str
    ensures { result.now ≡ primitive_name kind }
{
    match kind {
        PrimitiveKind::NoType => "<NoType>",
        PrimitiveKind::Void => "void",
        PrimitiveKind::HRESULT => "HRESULT",
        PrimitiveKind::Char => "signed char",
        PrimitiveKind::UChar => "unsigned char",
        PrimitiveKind::I8 => "int8_t",
        PrimitiveKind::U8 => "uint8_t",
        PrimitiveKind::RChar => "char",
        PrimitiveKind::WChar => "wchar_t",
        PrimitiveKind::RChar16 => "char16_t",
        PrimitiveKind::RChar32 => "char32_t",
        PrimitiveKind::Char8 => "char8_t",
        PrimitiveKind::Short => "short",
        PrimitiveKind::UShort => "unsigned short",
        PrimitiveKind::I16 => "int16_t",
        PrimitiveKind::U16 => "uint16_t",
        PrimitiveKind::Long => "long",
        PrimitiveKind::ULong => "unsigned long",
        PrimitiveKind::I32 => "int",
        PrimitiveKind::U32 => "unsigned int",
        PrimitiveKind::Quad => "long long",
        PrimitiveKind::UQuad => "unsigned long long",
        PrimitiveKind::I64 => "int64_t",
        PrimitiveKind::U64 => "uint64_t",
        PrimitiveKind::Octa | PrimitiveKind::I128 => "int128_t",
        PrimitiveKind::UOcta | PrimitiveKind::U128 => "uint128_t",
        PrimitiveKind::F16 => "float16_t",
        PrimitiveKind::F32 | PrimitiveKind::F32PP => "float",
        PrimitiveKind::F48 => "float48_t",
        PrimitiveKind::F64 => "double",
        PrimitiveKind::F80 | PrimitiveKind::F128 => "long double",
        PrimitiveKind::Complex32 => "complex<float>",
        PrimitiveKind::Complex64 => "complex<double>",
        PrimitiveKind::Complex80 | PrimitiveKind::Complex128 => "complex<long double>",
        PrimitiveKind::Bool8 => "bool",
        PrimitiveKind::Bool16 => "bool16_t",
        PrimitiveKind::Bool32 => "bool32_t",
        PrimitiveKind::Bool64 => "bool64_t",
    }
}

/// Appends a type without a record, as constant or not.
///
/// # Errors
/// `OutOfMemory`.
pub fn emit_primitive(
    w: &mut String,
    flags: TypeFormatterFlags,
    primitive: PrimitiveType,
    is_constant: bool,
) -> Result<()>
    ensures { Prints result (string_bytes w.new)
        (say (primitive_text flags.bits is_constant primitive) (string_bytes w.old)) }
{
    let name = primitive_name(primitive.kind);
    if primitive.indirection.is_none() {
        if is_constant {
            emit(w, "const ")?;
        }
        return emit(w, name);
    }
    emit(w, name)?;
    if is_constant {
        emit(w, " const")?;
    }
    emit(
        w,
        if flags.intersects(TypeFormatterFlags::SPACE_BEFORE_POINTER) {
            " *"
        } else {
            "*"
        },
    )
}

/// The keyword before the name of a class, and a space.
pub fn class_word(kind: ClassKind) -> &'static str
    ensures { result.now ≡ class_word kind }
{
    match kind {
        ClassKind::Class => "class ",
        ClassKind::Struct => "struct ",
        ClassKind::Interface => "interface ",
    }
}

/// Appends a name after its keyword, which a flag leaves out.
///
/// # Errors
/// `OutOfMemory`.
pub fn emit_named(
    w: &mut String,
    flags: TypeFormatterFlags,
    word: &str,
    name: RawString<'_>,
) -> Result<()>
    ensures { Prints result (string_bytes w.new)
        (named flags.bits word.now (raw_bytes name.entry) (string_bytes w.old)) }
{
    if !flags.intersects(TypeFormatterFlags::NAME_ONLY) {
        emit(w, word)?;
    }
    write!(w, "{name}")?;
    Ok(())
}

/// Appends the name of a function.
///
/// # Errors
/// `OutOfMemory`.
pub fn emit_name(w: &mut String, name: &str) -> Result<()>
    ensures { Prints result (string_bytes w.new)
        (say (name_or_omitted name.now) (string_bytes w.old)) }
{
    emit(
        w,
        if name.is_empty() {
            "<name omitted>"
        } else {
            name
        },
    )
}

/// The name of a type's form.
#[tactic(auto, unfolding(crate::specs::FormNames::form_name))]
fn form_name(found: &TypeData<'_>) -> &'static str
    ensures { result.now ≡ form_name (shape found.now) }
{
    match found {
        TypeData::Primitive(_) => "Primitive",
        TypeData::Class(_) => "Class",
        TypeData::Member(_) => "Member",
        TypeData::MemberFunction(_) => "MemberFunction",
        TypeData::OverloadedMethod(_) => "OverloadedMethod",
        TypeData::Method(_) => "Method",
        TypeData::StaticMember(_) => "StaticMember",
        TypeData::Nested(_) => "Nested",
        TypeData::BaseClass(_) => "BaseClass",
        TypeData::VirtualBaseClass(_) => "VirtualBaseClass",
        TypeData::VirtualFunctionTablePointer(_) => "VirtualFunctionTablePointer",
        TypeData::Procedure(_) => "Procedure",
        TypeData::Pointer(_) => "Pointer",
        TypeData::Modifier(_) => "Modifier",
        TypeData::Enumeration(_) => "Enumeration",
        TypeData::Enumerate(_) => "Enumerate",
        TypeData::Array(_) => "Array",
        TypeData::Union(_) => "Union",
        TypeData::Bitfield(_) => "Bitfield",
        TypeData::FieldList(_) => "FieldList",
        TypeData::ArgumentList(_) => "ArgumentList",
        TypeData::MethodList(_) => "MethodList",
    }
}

/// Appends the text in place of a type that has no text of its own.
///
/// # Errors
/// `OutOfMemory`.
pub fn emit_unhandled(w: &mut String, found: &TypeData<'_>) -> Result<()>
    ensures { Prints result (string_bytes w.new)
        (unhandled (shape found.now) (string_bytes w.old)) }
{
    emit(w, "unhandled type /* ")?;
    emit(w, form_name(found))?;
    emit(w, " */")
}

/// The name of an id's form.
#[tactic(auto, unfolding(crate::specs::FormNames::id_form_name))]
fn id_form_name(found: &IdData<'_>) -> &'static str
    ensures { result.now ≡ id_form_name (id_shape found.now) }
{
    match found {
        IdData::Function(_) => "Function",
        IdData::MemberFunction(_) => "MemberFunction",
        IdData::BuildInfo(_) => "BuildInfo",
        IdData::StringList(_) => "StringList",
        IdData::String(_) => "String",
        IdData::UserDefinedTypeSource(_) => "UserDefinedTypeSource",
    }
}

/// Appends the text in place of an id that has no text of its own.
///
/// # Errors
/// `OutOfMemory`.
pub fn emit_unhandled_id(w: &mut String, found: &IdData<'_>) -> Result<()>
    ensures { Prints result (string_bytes w.new)
        (unhandled_id (id_shape found.now) (string_bytes w.old)) }
{
    emit(w, "<unhandled id scope ")?;
    emit(w, id_form_name(found))?;
    emit(w, ">::")
}

/// Whether the digits are one hexadecimal digit or more and nothing else, of a value below 2^32.
fn is_number(digits: &[u8]) -> bool
    ensures { result ≡ is_number digits.now }
{
    let mut value = 0u64;
    for byte in digits {
        let Some(digit) = char::from(*byte).to_digit(16) else {
            return false;
        };
        value = value * 16 + u64::from(digit);
        if value >= 0x1_0000_0000 {
            return false;
        }
    }
    !digits.is_empty()
}

/// The bytes without a plus at their beginning.
fn without_plus(bytes: &[u8]) -> &[u8]
    ensures { result.now ≡ without_leading_plus bytes.now }
{
    match bytes.first() {
        Some(b'+') => &bytes[1..],
        _ => bytes,
    }
}

/// Whether a name is that of an anonymous namespace: `?A0x` and a number.
fn is_anonymous_namespace(name: &[u8]) -> bool
    ensures { result ≡ is_anonymous_namespace name.now }
{
    name.starts_with(b"?A0x") && is_number(without_plus(&name[4..]))
}

/// Appends the text of a string.
///
/// # Errors
/// `OutOfMemory`.
pub fn emit_string(w: &mut String, name: &str) -> Result<()>
    ensures { Prints result (string_bytes w.new) (say (string_text name.now) (string_bytes w.old)) }
{
    if is_anonymous_namespace(name.as_bytes()) {
        emit(w, "`anonymous namespace'")
    } else {
        emit(w, name)
    }
}
