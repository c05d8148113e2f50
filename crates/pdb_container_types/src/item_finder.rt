//! Finders: items of the TPI or the IPI by their indices.

ghost use Rattle.std.specs.Prelude.{◌≡◌, ◌+◌, ◌-◌, ◌*◌, ◌<◌, ◌≤◌, ◌^◌, length, drop, option_map};
ghost use Rattle.std.specs.Prelude.{is_some, ◌||◌, IfOk, IsOkUnless};
ghost use Rattle.pdb_container.specs.Fault.{Parses};
ghost use Rattle.pdb_container_types.specs.Item.{item_bytes};
ghost use Rattle.pdb_container_types.specs.Items.{table_in, items_of, item_number, found_or_fault};
ghost use Rattle.pdb_container_types.specs.IteratorAndFinder.{fresh_finding, first_unknown};
ghost use Rattle.pdb_container_types.specs.IteratorAndFinder.{last_known};
ghost use Rattle.pdb_container_types.specs.IteratorAndFinder.{known_end, shown, find_in};
ghost use Rattle.pdb_container_types.specs.KeptPlaces.{IsPlaceAt, IsEnd, seen};

use crate::header::Header;
use crate::item::Item;
use crate::item_iter::ItemIter;
use crate::item_list::{behind, walk};
use pdb_container::{Error, ItemIndex, Result};
use std::alloc::Global;
use std::marker::{Model, PhantomData};

/// A finder of items by their indices. It knows the places of blocks of eight indices, of the first
/// at once and of each further one from an iterator that is shown to it as it goes over the table.
/// Room for all of them is taken at once, but no byte of it is written before its block is known.
#[derive(Drop)]
pub struct ItemFinder<'t, I> {
    header: Header,
    items: &'t [u8],
    places: Vec<usize>,
    blocks: usize,
    end: Option<u32>,
    of: PhantomData<I>,
}

impl<'t, I> Model for ItemFinder<'t, I> {
    ghost use Rattle.std.specs.Prelude.{is_some, vec_capacity};
    ghost use Rattle.pdb_container_types.specs.Items.{table_in};
    ghost use Rattle.pdb_container_types.specs.IteratorAndFinder.{Finding};
    ghost use Rattle.pdb_container_types.specs.KeptPlaces.{IsKeptOfTable};

    ghost Value = { Finding };

    ghost view = { λ f. record {
      table = table_in f.header f.items.now;
      blocks = f.blocks;
      is_end_known = is_some f.end;
    } };

    ghost invariant = { λ f. IsKeptOfTable (table_in f.header f.items.now) f.places.items
        (vec_capacity f.places) f.blocks f.end };
}

impl<'t, I: ItemIndex> ItemFinder<'t, I> {
    /// A finder in the items that these bytes hold, by this header.
    #[tactic(auto, using(crate::proofs::Blocks::kept_start))]
    pub(crate) fn over(alloc: Global, header: Header, items: &'t [u8]) -> Result<ItemFinder<'t, I>>
        ensures fresh { IfOk result (λ f. f ≡ fresh_finding (table_in header items.now)) }
        ensures memory { IsOkUnless result Error.OutOfMemory }
    {
        let mut places = Vec::with_capacity(alloc, items.len() / 32 + 1)?;
        places.push_reserved(0usize);
        Ok(ItemFinder {
            header,
            items,
            places,
            blocks: 1,
            end: None,
            of: PhantomData,
        })
    }

    /// The last index of the known blocks of items.
    pub fn max_index(&self) -> I
        ensures { result ≡ I.index (last_known self.now) }
    {
        let last = self.first_unknown() - 1;
        I::from(last.min(u64::from(u32::MAX)) as u32)
    }

    /// The first index past the list, once an iterator was shown that had returned `None` at a good
    /// end.
    pub fn end_index(&self) -> Option<I>
        ensures { result ≡ option_map I.index (known_end self.now) }
    {
        match self.end {
            Some(end) => Some(I::from(end)),
            None => None,
        }
    }

    /// Learns from an iterator over the same table. If the iterator stands at the first unknown
    /// index, the finder stores the place of that block. If the iterator has returned the end of
    /// the list, the finder stores the end.
    pub fn update(&mut self, iterator: &ItemIter<'_, I>)
        requires { iterator.now.table ≡ self.old.table }
        ensures { self.new ≡ shown iterator.now self.old }
    {
        if u64::from(iterator.next_index()) == self.first_unknown() {
            self.add_block(iterator.place());
        }
        self.add_end(iterator.end());
    }

    /// The item (a type or an id) with that index.
    ///
    /// # Errors
    /// `TypeNotIndexed` past the known blocks, `TypeNotFound` at or past the table's maximum and
    /// past a good end of its list, and past a bad end the list's own fault.
    pub fn find(&self, index: I) -> Result<Item<'t, I>>
        ensures item { Parses item_bytes result (find_in self.now (I.number index)) }
        ensures index { IfOk result (λ item. item.index ≡ index) }
    {
        let mut lengths = 0;
        find_counting(self, index, &mut lengths)
    }

    /// The bytes of the item with that index.
    #[tactic(auto, unfolding(crate::specs::IteratorAndFinder::find_in, crate::specs::Items::item_at))]
    fn piece_of(&self, index: u32, lengths: &mut u32) -> Result<&'t [u8]>
        requires none { lengths.old ≡ 0 }
        ensures item { Parses (λ piece. piece.now) result (find_in self.now index) }
        ensures few { lengths.new ≤ 8 }
    {
        let unknown = self.first_unknown();
        if u64::from(index) >= unknown {
            return Err(Error::TypeNotIndexed(index, unknown as u32));
        }
        if index >= self.header.maximum_index {
            return Err(Error::TypeNotFound(index));
        }
        if index < self.header.minimum_index {
            return Ok(&self.items[..0]);
        }
        self.known_item(index, lengths)
    }

    /// The bytes of an index of the known blocks; `TypeNotFound` past a good end, past a bad one
    /// its fault.
    fn known_item(&self, index: u32, lengths: &mut u32) -> Result<&'t [u8]>
        requires low { self.now.table.minimum ≤ index }
        requires known { index < first_unknown self.now }
        requires none { lengths.old ≡ 0 }
        ensures few { lengths.new ≤ 8 }
        ensures item { Parses (λ piece. piece.now) result
            (found_or_fault index
            (item_number (items_of self.now.table) (index - self.now.table.minimum))) }
    {
        match self.known_piece(index, lengths) {
            Ok(Some(piece)) => Ok(piece),
            Ok(None) => Err(Error::TypeNotFound(index)),
            Err(fault) => Err(fault),
        }
    }

    /// The bytes of an index of the known blocks, if there is an item.
    #[tactic(auto, using(crate::proofs::Blocks::known_number))]
    fn known_piece(&self, index: u32, lengths: &mut u32) -> Result<Option<&'t [u8]>>
        requires low { self.now.table.minimum ≤ index }
        requires known { index < first_unknown self.now }
        requires none { lengths.old ≡ 0 }
        ensures few { lengths.new ≤ 8 }
        ensures item { Parses (seen (λ piece. piece.now)) result
            (item_number (items_of self.now.table) (index - self.now.table.minimum)) }
    {
        let number = index - self.header.minimum_index;
        let skip = number % 8;
        let place = self.places[(number / 8) as usize];
        walk(behind(self.items, place), index - skip, skip, lengths)
    }

    /// The first index past the known blocks; it may have more than 32 bits.
    fn first_unknown(&self) -> u64
        ensures index { result ≡ first_unknown self.now }
        ensures some { 8 ≤ result }
    {
        u64::from(self.header.minimum_index) + 8 * self.blocks as u64
    }

    /// Stores the place of the block after the known ones.
    #[tactic(auto, using(crate::proofs::Blocks::kept_more, crate::proofs::Blocks::room_left))]
    fn add_block(&mut self, place: usize)
        requires { IsPlaceAt self.old.table (first_unknown self.old) place }
        ensures { self.new ≡ record self.old { blocks = self.old.blocks + 1 } }
    {
        self.places.push_reserved(place);
        self.blocks += 1;
    }

    /// Stores the end of the list, if it is given.
    fn add_end(&mut self, end: Option<u32>)
        requires { IsEnd self.old.table end }
        ensures { self.new
            ≡ record self.old { is_end_known = self.old.is_end_known || is_some end } }
    {
        if let Some(index) = end {
            self.end = Some(index);
        }
    }
}

/// The item with that index, as `ItemFinder::find` returns it. Counts the lengths of items that it
/// reads: eight at most.
///
/// # Errors
/// Those of `ItemFinder::find`.
pub fn find_counting<'t, I: ItemIndex>(
    finder: &ItemFinder<'t, I>,
    index: I,
    lengths: &mut u32,
) -> Result<Item<'t, I>>
    requires none { lengths.old ≡ 0 }
    ensures item { Parses item_bytes result (find_in finder.now (I.number index)) }
    ensures index { IfOk result (λ item. item.index ≡ index) }
    ensures few { lengths.new ≤ 8 }
{
    let number: u32 = index.into();
    let bytes = finder.piece_of(number, lengths)?;
    Ok(Item { index, bytes })
}
