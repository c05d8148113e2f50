//! Arrays of arrays.

ghost use Rattle.std.specs.Prelude.{◌≡◌};
ghost use Rattle.pdb_records.specs.Shapes.{shape};
ghost use Rattle.pdb_type_printing.specs.Arrays.{array_step};

use crate::brackets::first_or_zero;
use pdb_container::TypeIndex;
use pdb_records::TypeData;

/// The number of elements that a chain of arrays may have: as many as a path of a type's text has
/// (`MAX_LENGTH` of `index_path`).
pub const MAX_ELEMENTS: u32 = 1024;

/// Arrays of arrays, down to the innermost element, which is no array.
#[derive(Drop)]
pub struct Elements<'t> {
    /// The first dimension of each array in bytes, the outer first.
    pub dimensions: Vec<u32>,
    /// The index of the innermost element.
    pub index: TypeIndex,
    /// The innermost element.
    pub found: TypeData<'t>,
}

/// The first dimension and the element of an array.
#[tactic(auto, unfolding(crate::specs::Arrays::array_step))]
pub fn array_step(found: &TypeData<'_>) -> Option<(u32, TypeIndex)>
    ensures { result ≡ array_step (shape found.now) }
{
    match found {
        TypeData::Array(t) => Some((first_or_zero(&t.dimensions), t.element_type)),
        _ => None,
    }
}
