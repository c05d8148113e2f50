//! The TPI (types) and the IPI (ids).

ghost use Rattle.std.specs.Prelude.{◌≡◌, ◌-◌, ◌==◌, IfOk, IsOkUnless};
ghost use Rattle.pdb_container.specs.Fault.{Parses};
ghost use Rattle.pdb_container_types.specs.Items.{table_of};
ghost use Rattle.pdb_container_types.specs.IteratorAndFinder.{fresh_iteration, fresh_finding};

use crate::header::{Header, parse_header};
use crate::item::Item;
use crate::item_finder::ItemFinder;
use crate::item_iter::ItemIter;
use crate::item_list::behind;
use pdb_container::{Error, IdIndex, ItemIndex, Result, Stream, TypeIndex};
use std::alloc::Global;
use std::marker::{Model, PhantomData};

/// The TPI: the table of types (stream 2).
pub type TypeInformation<'s> = ItemInformation<'s, TypeIndex>;

/// The IPI: the table of ids (stream 4).
pub type IdInformation<'s> = ItemInformation<'s, IdIndex>;

/// A finder of types by their indices.
pub type TypeFinder<'t> = ItemFinder<'t, TypeIndex>;

/// A finder of ids by their indices.
pub type IdFinder<'t> = ItemFinder<'t, IdIndex>;

/// An iterator over the types of the TPI.
pub type TypeIter<'t> = ItemIter<'t, TypeIndex>;

/// An iterator over the ids of the IPI.
pub type IdIter<'t> = ItemIter<'t, IdIndex>;

/// A type of the TPI.
pub type Type<'t> = Item<'t, TypeIndex>;

/// An id of the IPI.
pub type Id<'t> = Item<'t, IdIndex>;

/// The TPI or the IPI: a table of types or of ids.
#[derive(Drop)]
pub struct ItemInformation<'s, I> {
    stream: Stream<'s>,
    header: Header,
    of: PhantomData<I>,
}

impl<'s, I> Model for ItemInformation<'s, I> {
    ghost use Rattle.std.specs.Prelude.{◌≤◌, length, drop};
    ghost use Rattle.pdb_container_types.specs.Items.{Table, table_in};

    ghost Value = { Table };

    ghost view = { λ t. table_in t.header (drop t.header.header_size t.stream) };

    ghost invariant = { λ t. (t.header.header_size ≤ length t.stream)
        × (t.header.minimum_index ≤ t.header.maximum_index) };
}

impl<'s, I: ItemIndex> ItemInformation<'s, I> {
    /// The table that a stream holds; an empty stream is a table without indices.
    ///
    /// # Errors
    /// `UnexpectedEof` where the header isn't there, `InvalidTypeInformationHeader` where it
    /// contradicts itself.
    #[tactic(auto, unfolding(crate::specs::Items::table_of))]
    pub fn parse(stream: Stream<'s>) -> Result<ItemInformation<'s, I>>
        ensures { Parses (λ t. t) result (table_of stream.entry) }
    {
        let header = parse_header(stream.as_slice())?;
        Ok(ItemInformation {
            stream,
            header,
            of: PhantomData,
        })
    }

    /// The first index of the table, by its header.
    pub fn minimum_index(&self) -> I
        ensures { result ≡ I.index self.now.minimum }
    {
        I::from(self.header.minimum_index)
    }

    /// The first index past the table, by its header.
    pub fn maximum_index(&self) -> I
        ensures { result ≡ I.index self.now.maximum }
    {
        I::from(self.header.maximum_index)
    }

    /// The number of indices of the table, by its header.
    pub fn len(&self) -> usize
        ensures { result ≡ self.now.maximum - self.now.minimum }
    {
        (self.header.maximum_index - self.header.minimum_index) as usize
    }

    /// Whether the table has no index, by its header.
    pub fn is_empty(&self) -> bool
        ensures { result ≡ (self.now.maximum - self.now.minimum == 0) }
    {
        self.len() == 0
    }

    /// The items (types or ids) in their order.
    pub fn iter(&self) -> ItemIter<'_, I>
        ensures { result ≡ fresh_iteration self.now }
    {
        ItemIter::over(self.header, self.items())
    }

    /// A finder of the items by their indices, with room for all that it will know.
    ///
    /// # Errors
    /// `OutOfMemory`, and no other.
    pub fn finder(&self, alloc: Global) -> Result<ItemFinder<'_, I>>
        ensures fresh { IfOk result (λ f. f ≡ fresh_finding self.now) }
        ensures memory { IsOkUnless result Error.OutOfMemory }
    {
        ItemFinder::over(alloc, self.header, self.items())
    }

    /// The bytes after the header.
    fn items(&self) -> &[u8]
        ensures { result.now ≡ self.now.bytes }
    {
        behind(self.stream.as_slice(), self.header.header_size as usize)
    }
}
