//! Sizes of types in bytes.

ghost use Rattle.std.specs.Prelude.{◌≡◌, Ok, IfOk};
ghost use Rattle.pdb_records.specs.Shapes.{shape, class_form, union_form};
ghost use Rattle.pdb_resolving.specs.Fault.{Answers};
ghost use Rattle.pdb_module_items.specs.KeptSizes.{AreSizes};
ghost use Rattle.pdb_module_items.specs.Reading.{type_in};
ghost use Rattle.pdb_module_items.specs.Sizes.{variant_bytes, last_dimension as last_dimension_of};
ghost use Rattle.pdb_module_items.specs.Sizes.{class_bytes, union_bytes, StatesForm, StatesIn};

use crate::definitions::{aggregate_size, is_forward_reference, key_name};
use crate::item_map::ItemMap;
use crate::primitives::primitive_size;
use crate::references::update_forward_ref_size_map;
use pdb_container::{TypeIndex, Variant};
use pdb_records::{ClassType, TypeData, UnionType};
use pdb_resolving::{Error, Result};
use std::alloc::{AllocError, Global};
use std::collections::BTreeMap;

/// The size that a type states.
#[derive(Clone, Copy)]
pub(crate) enum Stated {
    /// A number of bytes.
    Bytes(u64),
    /// The size of the type with this index, as the module names it.
    SameAs(TypeIndex),
}

/// The size of a value as it is stored.
fn variant_size(value: Variant) -> u64
    ensures { result ≡ variant_bytes value }
{
    match value {
        Variant::U8(_) | Variant::I8(_) => 1,
        Variant::U16(_) | Variant::I16(_) => 2,
        Variant::U32(_) | Variant::I32(_) => 4,
        Variant::U64(_) | Variant::I64(_) => 8,
    }
}

/// An array's last dimension, which is that of the whole array.
fn last_dimension(dimensions: &[u32]) -> u64
    ensures { result ≡ last_dimension_of dimensions.now }
{
    match dimensions.last() {
        Some(size) => u64::from(*size),
        None => 0,
    }
}

/// The size of the class with that index of the table.
fn class_size(
    alloc: Global,
    types: &mut ItemMap<'_, TypeIndex>,
    index: u32,
    class_type: &ClassType<'_>,
) -> std::result::Result<u64, AllocError>
    ensures same { types.new ≡ types.old }
    ensures size { IfOk result
        (λ n. n ≡ class_bytes types.old index (class_form class_type.now)) }
{
    let is_forward_reference = class_type.properties.forward_reference();
    let name = key_name(class_type.name, class_type.unique_name);
    aggregate_size(
        alloc,
        types,
        index,
        is_forward_reference,
        name,
        class_type.size,
    )
}

/// The size of the union with that index of the table.
fn union_size(
    alloc: Global,
    types: &mut ItemMap<'_, TypeIndex>,
    index: u32,
    union_type: &UnionType<'_>,
) -> std::result::Result<u64, AllocError>
    ensures same { types.new ≡ types.old }
    ensures size { IfOk result
        (λ n. n ≡ union_bytes types.old index (union_form union_type.now)) }
{
    let is_forward_reference = union_type.properties.forward_reference();
    let name = key_name(union_type.name, union_type.unique_name);
    aggregate_size(
        alloc,
        types,
        index,
        is_forward_reference,
        name,
        union_type.size,
    )
}

/// The size that the type with that index of the table states, where pointers have `pointer_size`
/// bytes.
fn stated_size(
    alloc: Global,
    types: &mut ItemMap<'_, TypeIndex>,
    pointer_size: u64,
    index: u32,
    type_data: &TypeData<'_>,
) -> std::result::Result<Stated, AllocError>
    ensures same { types.new ≡ types.old }
    ensures size { IfOk result
        (StatesForm types.old pointer_size index (shape type_data.now)) }
{
    match type_data {
        TypeData::Primitive(t) => Ok(Stated::Bytes(primitive_size(pointer_size, *t))),
        TypeData::MemberFunction(_) => Ok(Stated::Bytes(pointer_size)),
        TypeData::Procedure(_) => Ok(Stated::Bytes(pointer_size)),
        TypeData::Pointer(t) => Ok(Stated::Bytes(u64::from(t.attributes.size()))),
        TypeData::Array(t) => Ok(Stated::Bytes(last_dimension(t.dimensions.as_slice()))),
        TypeData::Class(t) => Ok(Stated::Bytes(class_size(alloc, types, index, t)?)),
        TypeData::Union(t) => Ok(Stated::Bytes(union_size(alloc, types, index, t)?)),
        TypeData::Enumeration(t) => Ok(Stated::SameAs(t.underlying_type)),
        TypeData::Modifier(t) => Ok(Stated::SameAs(t.underlying_type)),
        TypeData::Enumerate(t) => Ok(Stated::Bytes(variant_size(t.value))),
        _ => Ok(Stated::Bytes(0)),
    }
}

/// The type with that index of the table. Its item's fault, or that of its record.
#[tactic(auto, unfolding(crate::specs::Reading::type_in))]
pub(crate) fn read_type_in<'t>(
    alloc: Global,
    types: &mut ItemMap<'t, TypeIndex>,
    index: u32,
) -> Result<TypeData<'t>>
    ensures same { types.new ≡ types.old }
    ensures value { Answers shape result (type_in types.old index) }
{
    let item = types.try_get(TypeIndex(index))?;
    Ok(item.parse(alloc)?)
}

/// The size that the type with that index of the table states. Where it is a forward reference, the
/// sizes of all forward references of the table are cached.
#[tactic(auto, using(crate::proofs::KeptSteps::size_read))]
fn stated_and_kept(
    alloc: Global,
    types: &mut ItemMap<'_, TypeIndex>,
    sizes: &mut BTreeMap<u32, u64>,
    pointer_size: u64,
    index: u32,
    type_data: &TypeData<'_>,
) -> std::result::Result<Stated, AllocError>
    requires sizes { AreSizes types.old sizes.old }
    requires read { type_in types.old index ≡ Ok (shape type_data.now) }
    ensures same { types.new ≡ types.old }
    ensures kept { AreSizes types.old sizes.new }
    ensures size { IfOk result
        (StatesForm types.old pointer_size index (shape type_data.now)) }
{
    if !is_forward_reference(type_data) {
        return stated_size(alloc, types, pointer_size, index, type_data);
    }
    update_forward_ref_size_map(alloc, types, sizes)?;
    match sizes.get(&index) {
        Some(size) => Ok(Stated::Bytes(*size)),
        None => stated_size(alloc, types, pointer_size, index, type_data),
    }
}

/// The stated size of the type with that index of the table, where none is cached; 0 where it can't
/// be read.
fn read_stated(
    alloc: Global,
    types: &mut ItemMap<'_, TypeIndex>,
    sizes: &mut BTreeMap<u32, u64>,
    pointer_size: u64,
    index: u32,
) -> std::result::Result<Stated, AllocError>
    requires { AreSizes types.old sizes.old }
    ensures same { types.new ≡ types.old }
    ensures kept { AreSizes types.old sizes.new }
    ensures size { IfOk result (StatesIn types.old pointer_size index) }
{
    match read_type_in(alloc, types, index) {
        Ok(type_data) => stated_and_kept(alloc, types, sizes, pointer_size, index, &type_data),
        Err(Error::OutOfMemory) => Err(AllocError),
        Err(_) => Ok(Stated::Bytes(0)),
    }
}

/// The stated size of the type with that index of the table, from the cache or else from its
/// record; 0 where it can't be read.
pub(crate) fn stated_in(
    alloc: Global,
    types: &mut ItemMap<'_, TypeIndex>,
    sizes: &mut BTreeMap<u32, u64>,
    pointer_size: u64,
    index: u32,
) -> std::result::Result<Stated, AllocError>
    requires { AreSizes types.old sizes.old }
    ensures same { types.new ≡ types.old }
    ensures kept { AreSizes types.old sizes.new }
    ensures size { IfOk result (StatesIn types.old pointer_size index) }
{
    if let Some(size) = sizes.get(&index) {
        return Ok(Stated::Bytes(*size));
    }
    read_stated(alloc, types, sizes, pointer_size, index)
}
