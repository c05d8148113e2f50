//! The sizes of all forward references of a table, by one pass over it from its end.

ghost use Rattle.std.specs.Prelude.{◌≡◌, ◌+◌, ◌≤◌, [], IfOk, OnOk};
ghost use Rattle.pdb_container_types.specs.Item.{item_bytes};
ghost use Rattle.pdb_container_types.specs.Items.{Table};
ghost use Rattle.pdb_container_types.specs.ItemType.{type_of_item};
ghost use Rattle.pdb_records.specs.Shapes.{shape};
ghost use Rattle.pdb_module_items.specs.Definitions.{AreDefinitions, aggregate_of as aggregate_in};
ghost use Rattle.pdb_module_items.specs.Definitions.{definition, Gathers, IsReferenceSize};
ghost use Rattle.pdb_module_items.specs.Definitions.{read_aggregate as read_aggregate_by};
ghost use Rattle.pdb_module_items.specs.Definitions.{reference_bytes};
ghost use Rattle.pdb_module_items.specs.KeptSizes.{AreSizes, IsSize};
ghost use Rattle.pdb_module_items.specs.Sizes.{records_from};

use crate::definitions::key_name;
use crate::item_map::ItemMap;
use pdb_container::{Error, RawString, TypeIndex};
use pdb_container_types::Type;
use pdb_records::TypeData;
use std::alloc::{AllocError, Global};
use std::collections::BTreeMap;
use std::marker::Model;

/// A class or a union.
#[derive(Drop)]
struct Aggregate<'t> {
    /// Whether it is defined elsewhere.
    is_forward_reference: bool,
    /// The name by which it is looked for: the unique one, if it has one.
    name: RawString<'t>,
    /// The size that it states, in bytes.
    size: u64,
}

impl<'t> Model for Aggregate<'t> {
    ghost use Rattle.pdb_container.specs.RawString.{raw_bytes};
    ghost use Rattle.pdb_module_items.specs.Definitions as definitions;

    ghost Value = { definitions.Aggregate };

    ghost view = { λ a. record {
      is_forward_reference = a.is_forward_reference;
      name = raw_bytes a.name;
      size = a.size;
    } };
}

/// A type as a class or a union, if it is one.
fn aggregate_of<'t>(type_data: &TypeData<'t>) -> Option<Aggregate<'t>>
    ensures { result ≡ aggregate_in (shape type_data.now) }
{
    match type_data {
        TypeData::Class(t) => Some(Aggregate {
            is_forward_reference: t.properties.forward_reference(),
            name: key_name(t.name, t.unique_name),
            size: t.size,
        }),
        TypeData::Union(t) => Some(Aggregate {
            is_forward_reference: t.properties.forward_reference(),
            name: key_name(t.name, t.unique_name),
            size: t.size,
        }),
        _ => None,
    }
}

/// The class or union of a type's item; none where it can't be read.
fn read_aggregate<'t>(alloc: Global, item: &Type<'t>) -> Result<Option<Aggregate<'t>>, AllocError>
    ensures { IfOk result
        (λ a. a ≡ read_aggregate_by (type_of_item (item.now.index).0 (item_bytes item.now))) }
{
    match item.parse(alloc) {
        Ok(type_data) => Ok(aggregate_of(&type_data)),
        Err(Error::OutOfMemory) => Err(AllocError),
        Err(_) => Ok(None),
    }
}

/// Stores a definition's size under its name, in place of the size of any definition after it.
#[tactic(auto, using(crate::proofs::GatherSteps::name_kept))]
fn keep_definition<'t>(
    definitions: &mut BTreeMap<&'t [u8], u64>,
    name: &'t [u8],
    size: u64,
) -> Result<(), AllocError>
    ensures { OnOk result (Gathers definitions.old definitions.new (definition name.now size)) }
{
    definitions.insert(name, size)?;
    Ok(())
}

/// The size of a forward reference: the size of the first definition after it, or else its own.
fn reference_size(definitions: &BTreeMap<&[u8], u64>, reference: &Aggregate<'_>) -> u64
    ensures { result ≡ reference_bytes definitions.now reference.now }
{
    match definitions.get(reference.name.as_bytes()) {
        Some(size) => *size,
        None => reference.size,
    }
}

/// Stores the size of a forward reference under its index in the table.
#[tactic(auto, using(crate::proofs::KeptSteps::size_kept, crate::proofs::KeptSteps::sizes_stay))]
fn keep_size(sizes: &mut BTreeMap<u32, u64>, index: u32, size: u64) -> Result<(), AllocError>
    ensures { (types : Table) → IsSize types index size → AreSizes types sizes.old
        → AreSizes types sizes.new }
{
    sizes.insert(index, size)?;
    Ok(())
}

/// Stores the size of a definition under its name. Stores the size of a forward reference, by the
/// definitions after it, under its index.
fn keep_aggregate<'t>(
    definitions: &mut BTreeMap<&'t [u8], u64>,
    sizes: &mut BTreeMap<u32, u64>,
    index: u32,
    aggregate: Aggregate<'t>,
) -> Result<(), AllocError>
    ensures definitions { OnOk result
        (Gathers definitions.old definitions.new aggregate.entry) }
    ensures sizes { (types : Table) → IsReferenceSize types index definitions.old aggregate.entry
        → AreSizes types sizes.old → AreSizes types sizes.new }
{
    if aggregate.is_forward_reference {
        keep_size(sizes, index, reference_size(definitions, &aggregate))
    } else {
        keep_definition(definitions, aggregate.name.as_bytes(), aggregate.size)
    }
}

/// Stores the size of the type with that index, as [`keep_aggregate`] does. The definitions after
/// it were stored.
fn keep_type<'t>(
    alloc: Global,
    types: &mut ItemMap<'t, TypeIndex>,
    definitions: &mut BTreeMap<&'t [u8], u64>,
    sizes: &mut BTreeMap<u32, u64>,
    index: u32,
) -> Result<(), AllocError>
    requires low { types.old.minimum ≤ index }
    requires definitions { AreDefinitions types.old (index + 1) definitions.old }
    requires sizes { AreSizes types.old sizes.old }
    ensures same { types.new ≡ types.old }
    ensures definitions { OnOk result (AreDefinitions types.old index definitions.new) }
    ensures sizes { AreSizes types.old sizes.new }
{
    let Ok(item) = types.try_get(TypeIndex(index)) else {
        return Ok(());
    };
    match read_aggregate(alloc, &item)? {
        Some(aggregate) => keep_aggregate(definitions, sizes, index, aggregate),
        None => Ok(()),
    }
}

/// An index from which on a table has no items, close after the last one.
#[tactic(auto, using(crate::proofs::DefinitionSteps::records_past, crate::proofs::GatherSteps::none_from))]
fn past_items(types: &mut ItemMap<'_, TypeIndex>) -> u32
    ensures same { types.new ≡ types.old }
    ensures none { records_from types.old result ≡ [] }
{
    let behind = types.go_over();
    if behind < types.minimum() || types.maximum() <= behind {
        return types.maximum();
    }
    match types.try_get(TypeIndex(behind)) {
        Ok(_) => types.maximum(),
        Err(_) => behind,
    }
}

/// Stores the sizes of all forward references of a table, each under its index. When memory runs
/// out, the sizes of the last ones stay stored.
#[tactic(auto, using(crate::proofs::GatherSteps::none_gathered))]
pub(crate) fn update_forward_ref_size_map(
    alloc: Global,
    types: &mut ItemMap<'_, TypeIndex>,
    sizes: &mut BTreeMap<u32, u64>,
) -> Result<(), AllocError>
    requires { AreSizes types.old sizes.old }
    ensures same { types.new ≡ types.old }
    ensures kept { AreSizes types.old sizes.new }
{
    let mut definitions = BTreeMap::new(alloc);
    let minimum = types.minimum();
    let mut index = past_items(types);
    while minimum < index {
        index -= 1;
        keep_type(alloc, types, &mut definitions, sizes, index)?;
    }
    Ok(())
}
