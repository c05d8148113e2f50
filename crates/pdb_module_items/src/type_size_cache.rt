//! Types by their indices with the sizes of forward references.

ghost use Rattle.std.specs.Prelude.{◌≡◌, IfOk, IsOkUnless};
ghost use Rattle.pdb_container.specs.declared.error.Error.TheVariants as causes;
ghost use Rattle.pdb_records.specs.Shapes.{shape};
ghost use Rattle.pdb_resolving.specs.Fault.{Answers};
ghost use Rattle.pdb_module_items.specs.Reading.{type_in};
ghost use Rattle.pdb_module_items.specs.Sizes.{StatesIn};

use crate::item_map::ItemMap;
use crate::sizes::{Stated, read_type_in, stated_in};
use pdb_container::TypeIndex;
use pdb_container_types::TypeInformation;
use pdb_records::TypeData;
use pdb_resolving::Result;
use std::alloc::{AllocError, Global};
use std::collections::BTreeMap;
use std::marker::Model;

/// The types of a table. When the size of a forward reference is first asked for, the sizes of all
/// forward references are cached, so that the table is gone over once for their definitions.
#[derive(Drop)]
pub(crate) struct TypeSizeCache<'t> {
    types: ItemMap<'t, TypeIndex>,
    /// The sizes of forward references, each under its index in the table.
    sizes: BTreeMap<u32, u64>,
}

impl<'t> Model for TypeSizeCache<'t> {
    ghost use Rattle.pdb_container_types.specs.Items.{Table};
    ghost use Rattle.pdb_module_items.specs.KeptSizes.{AreSizes};

    ghost Value = { Table };

    ghost view = { λ s. s.types };

    ghost invariant = { λ s. AreSizes s.types s.sizes };
}

impl<'t> TypeSizeCache<'t> {
    /// The types of a table, of which no size is known yet. `OutOfMemory`, and no other.
    pub(crate) fn of(
        alloc: Global,
        information: &'t TypeInformation<'_>,
    ) -> pdb_container::Result<TypeSizeCache<'t>>
        ensures table { IfOk result (λ s. s ≡ information.now) }
        ensures memory { IsOkUnless result causes.OutOfMemory }
    {
        let types = ItemMap::of_types(alloc, information)?;
        Ok(TypeSizeCache {
            types,
            sizes: BTreeMap::new(alloc),
        })
    }

    /// The type with that index of the table. Its item's fault, or that of its record.
    pub(crate) fn read(&mut self, alloc: Global, index: u32) -> Result<TypeData<'t>>
        ensures same { self.new ≡ self.old }
        ensures value { Answers shape result (type_in self.old index) }
    {
        read_type_in(alloc, &mut self.types, index)
    }

    /// The stated size of the type with that index of the table, where pointers have `pointer_size`
    /// bytes; 0 where it can't be read.
    pub(crate) fn stated(
        &mut self,
        alloc: Global,
        pointer_size: u64,
        index: u32,
    ) -> std::result::Result<Stated, AllocError>
        ensures same { self.new ≡ self.old }
        ensures size { IfOk result (StatesIn self.old pointer_size index) }
    {
        stated_in(alloc, &mut self.types, &mut self.sizes, pointer_size, index)
    }
}
