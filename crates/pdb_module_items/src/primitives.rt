//! Sizes of types that have no record, in bytes.

ghost use Rattle.std.specs.Prelude.{◌≡◌};
ghost use Rattle.pdb_module_items.specs.Sizes.{kind_bytes, indirect_bytes};

use pdb_records::PrimitiveKind::*;
use pdb_records::{PrimitiveKind, PrimitiveType};

/// The size of a primitive type.
fn kind_size(kind: PrimitiveKind) -> u64
    ensures { result ≡ kind_bytes kind }
{
    match kind {
        NoType | Void => 0,
        Char | UChar | I8 | U8 | RChar | Char8 | Bool8 => 1,
        WChar | RChar16 | Short | UShort | I16 | U16 | F16 | Bool16 => 2,
        HRESULT | RChar32 | Long | ULong | I32 | U32 | F32 | F32PP | Bool32 => 4,
        F48 => 6,
        Quad | UQuad | I64 | U64 | F64 | Complex32 | Bool64 => 8,
        F80 => 10,
        Octa | UOcta | I128 | U128 | F128 | Complex64 => 16,
        Complex80 => 20,
        Complex128 => 32,
    }
}

/// The size of a primitive type, or of a pointer to one, which has the machine's size.
pub(crate) fn primitive_size(pointer_size: u64, primitive: PrimitiveType) -> u64
    ensures { result ≡ indirect_bytes pointer_size (kind_bytes primitive.kind)
        primitive.indirection }
{
    match primitive.indirection {
        None => kind_size(primitive.kind),
        Some(_) => pointer_size,
    }
}
