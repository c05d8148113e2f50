//! Primitive types, which have no record: their index alone names them (TYPE_ENUM_e of
//! microsoft-pdb's cvinfo.h).

ghost use Rattle.std.specs.Prelude.{◌≡◌};
ghost use Rattle.pdb_container.specs.Fault.{Parses};
ghost use Rattle.pdb_records.specs.Primitives.{pointer_numbered, older_kind_numbered};
ghost use Rattle.pdb_records.specs.Primitives.{real_kind_numbered, sized_kind_numbered};
ghost use Rattle.pdb_records.specs.Primitives.{primitive_of, type_of_primitive};
ghost use Rattle.pdb_records.specs.Shapes.{shape};

use crate::type_data::TypeData;
use pdb_container::{Error, Result, TypeIndex};

/// A primitive type, which has no record, or a pointer to one.
#[derive(Clone, Copy, Debug, PartialEq, Eq, Hash)]
pub struct PrimitiveType {
    /// The type.
    pub kind: PrimitiveKind,
    /// The indirection of a pointer to it; `None` for the type itself.
    pub indirection: Option<Indirection>,
}

/// The indirection of a primitive type: how a pointer to it is held.
#[derive(Clone, Copy, Debug, PartialEq, Eq, Hash)]
pub enum Indirection {
    /// 16 bits.
    Near16,
    /// 16:16 bits.
    Far16,
    /// 16:16 bits, normalized.
    Huge16,
    /// 32 bits.
    Near32,
    /// 16:32 bits.
    Far32,
    /// 64 bits.
    Near64,
    /// 128 bits.
    Near128,
}

/// The kind of a primitive type.
#[derive(Clone, Copy, Debug, PartialEq, Eq, Hash)]
pub enum PrimitiveKind {
    /// No type.
    NoType,
    /// Nothing.
    Void,
    /// A result code of the system.
    HRESULT,
    /// A signed character.
    Char,
    /// An unsigned character.
    UChar,
    /// A signed 8-bit number.
    I8,
    /// An unsigned 8-bit number.
    U8,
    /// A plain character.
    RChar,
    /// A wide character.
    WChar,
    /// A 16-bit character.
    RChar16,
    /// A 32-bit character.
    RChar32,
    /// An 8-bit character of UTF-8.
    Char8,
    /// A signed 16-bit number, such as `short`.
    Short,
    /// An unsigned 16-bit number, such as `unsigned short`.
    UShort,
    /// A signed 16-bit number.
    I16,
    /// An unsigned 16-bit number.
    U16,
    /// A signed 32-bit number, such as `long`.
    Long,
    /// An unsigned 32-bit number, such as `unsigned long`.
    ULong,
    /// A signed 32-bit number.
    I32,
    /// An unsigned 32-bit number.
    U32,
    /// A signed 64-bit number, such as `long long`.
    Quad,
    /// An unsigned 64-bit number, such as `unsigned long long`.
    UQuad,
    /// A signed 64-bit number.
    I64,
    /// An unsigned 64-bit number.
    U64,
    /// A signed 128-bit number.
    Octa,
    /// An unsigned 128-bit number.
    UOcta,
    /// A signed 128-bit number.
    I128,
    /// An unsigned 128-bit number.
    U128,
    /// A 16-bit real number.
    F16,
    /// A 32-bit real number.
    F32,
    /// A 32-bit real number of partial precision.
    F32PP,
    /// A 48-bit real number.
    F48,
    /// A 64-bit real number.
    F64,
    /// An 80-bit real number.
    F80,
    /// A 128-bit real number.
    F128,
    /// A complex number of 32-bit parts.
    Complex32,
    /// A complex number of 64-bit parts.
    Complex64,
    /// A complex number of 80-bit parts.
    Complex80,
    /// A complex number of 128-bit parts.
    Complex128,
    /// An 8-bit truth value.
    Bool8,
    /// A 16-bit truth value.
    Bool16,
    /// A 32-bit truth value.
    Bool32,
    /// A 64-bit truth value.
    Bool64,
}

/// The indirection with that number in an index: the type itself for 0. None past 7.
#[tactic(auto, unfolding(crate::specs::Primitives::pointer_numbered))]
fn indirection_numbered(number: u32) -> Option<Option<Indirection>>
    ensures { result ≡ pointer_numbered number }
{
    match number {
        0 => Some(None),
        1 => Some(Some(Indirection::Near16)),
        2 => Some(Some(Indirection::Far16)),
        3 => Some(Some(Indirection::Huge16)),
        4 => Some(Some(Indirection::Near32)),
        5 => Some(Some(Indirection::Far32)),
        6 => Some(Some(Indirection::Near64)),
        7 => Some(Some(Indirection::Near128)),
        _ => None,
    }
}

/// Kinds of no type, of nothing, of results, and of whole numbers with names such as `long`.
#[tactic(auto, unfolding(crate::specs::Primitives::older_kind_numbered))]
fn older_kind(number: u32) -> Option<PrimitiveKind>
    ensures { result ≡ older_kind_numbered number }
{
    match number {
        0x00 => Some(PrimitiveKind::NoType),
        0x03 => Some(PrimitiveKind::Void),
        0x08 => Some(PrimitiveKind::HRESULT),
        0x10 => Some(PrimitiveKind::Char),
        0x11 => Some(PrimitiveKind::Short),
        0x12 => Some(PrimitiveKind::Long),
        0x13 => Some(PrimitiveKind::Quad),
        0x14 => Some(PrimitiveKind::Octa),
        0x20 => Some(PrimitiveKind::UChar),
        0x21 => Some(PrimitiveKind::UShort),
        0x22 => Some(PrimitiveKind::ULong),
        0x23 => Some(PrimitiveKind::UQuad),
        0x24 => Some(PrimitiveKind::UOcta),
        _ => real_kind(number),
    }
}

/// Kinds of truth values, and of real and complex numbers.
#[tactic(auto, unfolding(crate::specs::Primitives::real_kind_numbered))]
fn real_kind(number: u32) -> Option<PrimitiveKind>
    ensures { result ≡ real_kind_numbered number }
{
    match number {
        0x30 => Some(PrimitiveKind::Bool8),
        0x31 => Some(PrimitiveKind::Bool16),
        0x32 => Some(PrimitiveKind::Bool32),
        0x33 => Some(PrimitiveKind::Bool64),
        0x40 => Some(PrimitiveKind::F32),
        0x41 => Some(PrimitiveKind::F64),
        0x42 => Some(PrimitiveKind::F80),
        0x43 => Some(PrimitiveKind::F128),
        0x44 => Some(PrimitiveKind::F48),
        0x45 => Some(PrimitiveKind::F32PP),
        0x46 => Some(PrimitiveKind::F16),
        0x50 => Some(PrimitiveKind::Complex32),
        0x51 => Some(PrimitiveKind::Complex64),
        0x52 => Some(PrimitiveKind::Complex80),
        0x53 => Some(PrimitiveKind::Complex128),
        _ => sized_kind(number),
    }
}

/// Kinds of characters, and of whole numbers named by their width.
#[tactic(auto, unfolding(crate::specs::Primitives::sized_kind_numbered))]
fn sized_kind(number: u32) -> Option<PrimitiveKind>
    ensures { result ≡ sized_kind_numbered number }
{
    match number {
        0x68 => Some(PrimitiveKind::I8),
        0x69 => Some(PrimitiveKind::U8),
        0x70 => Some(PrimitiveKind::RChar),
        0x71 => Some(PrimitiveKind::WChar),
        0x72 => Some(PrimitiveKind::I16),
        0x73 => Some(PrimitiveKind::U16),
        0x74 => Some(PrimitiveKind::I32),
        0x75 => Some(PrimitiveKind::U32),
        0x76 => Some(PrimitiveKind::I64),
        0x77 => Some(PrimitiveKind::U64),
        0x78 => Some(PrimitiveKind::I128),
        0x79 => Some(PrimitiveKind::U128),
        0x7a => Some(PrimitiveKind::RChar16),
        0x7b => Some(PrimitiveKind::RChar32),
        0x7c => Some(PrimitiveKind::Char8),
        _ => None,
    }
}

/// The primitive type with that index: its low byte says the kind, the bits above the indirection.
///
/// # Errors
/// `TypeNotFound` where there is none.
#[tactic(auto, unfolding(crate::specs::Primitives::primitive_of))]
pub(crate) fn primitive(index: TypeIndex) -> Result<PrimitiveType>
    ensures { Parses (λ x. x) result (primitive_of index.0) }
{
    let Some(indirection) = indirection_numbered(index.0 >> 8) else {
        return Err(Error::TypeNotFound(index.0));
    };
    let Some(kind) = older_kind(index.0 & 0xff) else {
        return Err(Error::TypeNotFound(index.0));
    };
    Ok(PrimitiveType { kind, indirection })
}

/// The primitive type with that index, which lies below 0x1000.
///
/// # Errors
/// `TypeNotFound` where there is none.
pub fn type_data_for_primitive<'t>(index: TypeIndex) -> Result<TypeData<'t>>
    ensures { Parses shape result (type_of_primitive index.0) }
{
    Ok(TypeData::Primitive(primitive(index)?))
}
