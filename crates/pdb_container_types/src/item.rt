//! An item of the TPI or the IPI.

ghost use Rattle.std.specs.Prelude.{◌≡◌, ◌==◌, length};
ghost use Rattle.std.specs.Int.{w16};
ghost use Rattle.pdb_container.specs.Buffer.{peeked};
ghost use Rattle.pdb_container.specs.Fault.{Gives, Parses};
ghost use Rattle.pdb_container.specs.Fields.{number_at};
ghost use Rattle.pdb_records.specs.IdForms.{id_shape};
ghost use Rattle.pdb_records.specs.IdRecords.{id_form_of};
ghost use Rattle.pdb_container_types.specs.Item.{item_bytes};
ghost use Rattle.pdb_container_types.specs.ItemType.{type_of_item};
ghost use Rattle.pdb_records.specs.Shapes.{shape};

use pdb_container::{IdIndex, ItemIndex, ParseBuffer, Result, TypeIndex};
use pdb_records::{IdData, TypeData, parse_id_data, parse_type_data, type_data_for_primitive};
use std::alloc::Global;

/// The first index of a type that has a record.
const FIRST_RECORD: u32 = 0x1000;

/// An item of the TPI or the IPI, a type or an id: its index, and its record, which begins with the
/// leaf. An index below the table's has no bytes.
#[derive(Clone, Copy, Debug)]
pub struct Item<'t, I> {
    pub(crate) index: I,
    pub(crate) bytes: &'t [u8],
}

impl<'t, I: ItemIndex> Item<'t, I> {
    /// The index of the type or of the id.
    pub fn index(&self) -> I
        ensures { result ≡ self.now.index }
    {
        self.index
    }

    /// The number of bytes of the record.
    pub fn len(&self) -> usize
        ensures { result ≡ length (item_bytes self.now) }
    {
        self.raw_bytes().len()
    }

    /// Whether there is no byte.
    pub fn is_empty(&self) -> bool
        ensures { result ≡ (length (item_bytes self.now) == 0) }
    {
        self.raw_bytes().is_empty()
    }

    /// The bytes of the record, which begin with the leaf.
    pub fn raw_bytes(&self) -> &'t [u8]
        ensures { result.now ≡ item_bytes self.now }
    {
        self.bytes
    }

    /// The leaf (`LF_*`), which decides the item's form.
    ///
    /// # Errors
    /// `UnexpectedEof` where its two bytes are missing.
    pub fn raw_kind(&self) -> Result<u16>
        ensures { Parses (λ leaf. leaf) result (peeked (number_at w16) (item_bytes self.now)) }
    {
        ParseBuffer::from(self.raw_bytes()).peek_u16()
    }
}

impl<'t> Item<'t, TypeIndex> {
    /// The type: below index 0x1000 from the index alone, and otherwise from the record.
    ///
    /// # Errors
    /// `TypeNotFound` below 0x1000, `UnimplementedTypeKind` for a leaf without a form,
    /// `UnexpectedEof` and others for a record that can't be read; `OutOfMemory`.
    pub fn parse(&self, alloc: Global) -> Result<TypeData<'t>>
        ensures { Gives shape ⊥ result (type_of_item self.now.index.0 (item_bytes self.now)) }
    {
        let index = Item::index(self);
        if index.0 < FIRST_RECORD {
            type_data_for_primitive(index)
        } else {
            parse_type_data(alloc, self.raw_bytes())
        }
    }
}

impl<'t> Item<'t, IdIndex> {
    /// The id, from its record.
    ///
    /// # Errors
    /// `UnimplementedTypeKind` for a leaf without a form, `UnexpectedEof` for a record that can't
    /// be read; `OutOfMemory`.
    pub fn parse(&self, alloc: Global) -> Result<IdData<'t>>
        ensures { Gives id_shape ⊥ result (id_form_of (item_bytes self.now)) }
    {
        parse_id_data(alloc, self.raw_bytes())
    }
}
