//! Definitions of classes and unions that are named elsewhere.

ghost use Rattle.std.specs.Prelude.{◌≡◌, option_map, IfOk};
ghost use Rattle.pdb_container.specs.RawString.{raw_bytes};
ghost use Rattle.pdb_container_types.specs.Item.{item_bytes};
ghost use Rattle.pdb_container_types.specs.ItemType.{type_of_item};
ghost use Rattle.pdb_records.specs.Attributes.{is_forward};
ghost use Rattle.pdb_records.specs.Shapes.{shape};
ghost use Rattle.pdb_module_items.specs.KeptSizes.{is_reference};
ghost use Rattle.pdb_module_items.specs.Sizes.{key_name as key_name_of};
ghost use Rattle.pdb_module_items.specs.Sizes.{size_if_defined as size_if_defined_by, form_size};
ghost use Rattle.pdb_module_items.specs.Sizes.{defined_size as defined_size_in};
ghost use Rattle.pdb_module_items.specs.Sizes.{definition_behind as definition_behind_index};
ghost use Rattle.pdb_module_items.specs.Sizes.{aggregate_bytes};

use crate::item_map::ItemMap;
use pdb_container::{Error, RawString, TypeIndex};
use pdb_container_types::Type;
use pdb_records::{TypeData, TypeProperties};
use std::alloc::{AllocError, Global};

/// Whether a type is a class or a union that is defined elsewhere.
pub(crate) fn is_forward_reference(type_data: &TypeData<'_>) -> bool
    ensures { result ≡ is_reference (shape type_data.now) }
{
    match type_data {
        TypeData::Class(t) => t.properties.forward_reference(),
        TypeData::Union(t) => t.properties.forward_reference(),
        _ => false,
    }
}

/// The name by which a class or a union is looked for: the unique one, if it has one.
pub(crate) fn key_name<'t>(name: RawString<'t>, unique_name: Option<RawString<'t>>) -> RawString<'t>
    ensures { raw_bytes result ≡ key_name_of (raw_bytes name.entry)
        (option_map raw_bytes unique_name.entry) }
{
    match unique_name {
        Some(unique_name) => unique_name,
        None => name,
    }
}

/// The size of a definition with the wanted name; a forward reference is none.
fn size_if_defined(
    wanted: &[u8],
    properties: TypeProperties,
    name: RawString<'_>,
    size: u64,
) -> Option<u64>
    ensures { result ≡ size_if_defined_by wanted.now (is_forward properties)
        (raw_bytes name.entry) size }
{
    if !properties.forward_reference() && name.as_bytes() == wanted {
        Some(size)
    } else {
        None
    }
}

/// The size that a type states for a class or a union of the wanted name.
fn size_of_definition(wanted: &[u8], type_data: &TypeData<'_>) -> Option<u64>
    ensures { result ≡ form_size wanted.now (shape type_data.now) }
{
    match type_data {
        TypeData::Class(t) => {
            let name = key_name(t.name, t.unique_name);
            size_if_defined(wanted, t.properties, name, t.size)
        }
        TypeData::Union(t) => {
            let name = key_name(t.name, t.unique_name);
            size_if_defined(wanted, t.properties, name, t.size)
        }
        _ => None,
    }
}

/// The size that a type's item states for a class or a union of the wanted name; none where it
/// can't be read.
fn defined_size(alloc: Global, wanted: &[u8], item: &Type<'_>) -> Result<Option<u64>, AllocError>
    ensures { IfOk result
        (λ size. size ≡ defined_size_in wanted.now
        (type_of_item (item.now.index).0 (item_bytes item.now))) }
{
    match item.parse(alloc) {
        Ok(type_data) => Ok(size_of_definition(wanted, &type_data)),
        Err(Error::OutOfMemory) => Err(AllocError),
        Err(_) => Ok(None),
    }
}

/// The size by the first definition of a name after an index of the table.
#[tactic(auto, using(crate::proofs::DefinitionSteps::definition_found, crate::proofs::DefinitionSteps::definition_more, crate::proofs::DefinitionSteps::definition_end, crate::proofs::DefinitionSteps::definition_past))]
fn definition_behind(
    alloc: Global,
    types: &mut ItemMap<'_, TypeIndex>,
    index: u32,
    wanted: &[u8],
) -> Result<Option<u64>, AllocError>
    ensures same { types.new ≡ types.old }
    ensures size { IfOk result (λ size. size ≡ definition_behind_index types.old index wanted.now) }
{
    let first = (u64::from(index) + 1).max(u64::from(types.minimum()));
    let maximum = u64::from(types.maximum());
    for number in first..maximum {
        let Ok(item) = types.try_get(TypeIndex(number as u32)) else {
            return Ok(None);
        };
        match defined_size(alloc, wanted, &item)? {
            Some(size) => return Ok(Some(size)),
            None => {}
        }
    }
    Ok(None)
}

/// The own size of a class or a union, or the size of its definition, where it is a forward
/// reference and there is a definition.
pub(crate) fn aggregate_size(
    alloc: Global,
    types: &mut ItemMap<'_, TypeIndex>,
    index: u32,
    is_forward_reference: bool,
    name: RawString<'_>,
    size: u64,
) -> Result<u64, AllocError>
    ensures same { types.new ≡ types.old }
    ensures size { IfOk result
        (λ n. n ≡ aggregate_bytes types.old index is_forward_reference
        (raw_bytes name.entry) size) }
{
    if !is_forward_reference {
        return Ok(size);
    }
    match definition_behind(alloc, types, index, name.as_bytes())? {
        Some(defined) => Ok(defined),
        None => Ok(size),
    }
}
