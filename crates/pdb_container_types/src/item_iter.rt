//! Iterators over the items of the TPI or the IPI, in their order.

ghost use Rattle.std.specs.Prelude.{◌≡◌, length};
ghost use Rattle.pdb_container.specs.Fault.{Parses};
ghost use Rattle.pdb_container.specs.Buffer.{rest};
ghost use Rattle.pdb_container_types.specs.Item.{found_bytes, HasIndex};
ghost use Rattle.pdb_container_types.specs.Items.{table_in};
ghost use Rattle.pdb_container_types.specs.KeptPlaces.{IsPlaceAt};
ghost use Rattle.pdb_container_types.specs.IteratorAndFinder.{fresh_iteration, answered_end};
ghost use Rattle.pdb_container_types.specs.IteratorAndFinder.{HasEnded};
ghost use Rattle.pdb_container_types.specs.IteratorAndFinder.{next_answer, iteration_behind};

use crate::header::Header;
use crate::item::Item;
use crate::item_list::next_piece;
use pdb_container::{Error, FallibleIterator, ItemIndex, ParseBuffer, Result};
use std::marker::{Model, PhantomData};

/// The progress of an iterator over items.
#[derive(Clone, Copy, Debug, PartialEq, Eq)]
pub enum Progress {
    /// No end was returned.
    Reading,
    /// The list ended well, and `None` was returned.
    Ended,
    /// The list's fault was returned.
    Failed,
}

/// An iterator over the items of a table in their order. Where the list ends badly its fault is
/// returned once.
#[derive(Drop)]
pub struct ItemIter<'t, I> {
    header: Header,
    buffer: ParseBuffer<'t>,
    index: u32,
    progress: Progress,
    of: PhantomData<I>,
}

impl<'t, I> Model for ItemIter<'t, I> {
    ghost use Rattle.std.specs.Prelude.{◌≡◌};
    ghost use Rattle.pdb_container.specs.Buffer.{rest};
    ghost use Rattle.pdb_container_types.specs.Items.{table_in};
    ghost use Rattle.pdb_container_types.specs.IteratorAndFinder.{ItemIteration, ended_well};
    ghost use Rattle.pdb_container_types.specs.KeptPlaces.{IsBefore, IsRightEnd};

    ghost Value = { ItemIteration };

    ghost view = { λ it. record {
      table = table_in it.header it.buffer.bytes;
      index = it.index;
      progress = it.progress;
    } };

    ghost invariant = { λ it. IsBefore (table_in it.header it.buffer.bytes) it.index
        (rest it.buffer)
        × IsRightEnd (ended_well it.progress) it.index (table_in it.header it.buffer.bytes) };
}

impl<'t, I> ItemIter<'t, I> {
    /// The items that these bytes hold, by this header.
    #[tactic(auto, using(crate::proofs::Walks::before_first))]
    pub(crate) fn over(header: Header, items: &'t [u8]) -> ItemIter<'t, I>
        ensures { result ≡ fresh_iteration (table_in header items.now) }
    {
        let index = header.minimum_index;
        ItemIter {
            header,
            buffer: ParseBuffer::from(items),
            index,
            progress: Progress::Reading,
            of: PhantomData,
        }
    }

    /// The index of the next item.
    pub(crate) fn next_index(&self) -> u32
        ensures { result ≡ self.now.index }
    {
        self.index
    }

    /// The place of the next item in the bytes of the items.
    #[tactic(auto, unfolding(pdb_container::specs::Buffer::rest))]
    pub(crate) fn place(&self) -> usize
        ensures { IsPlaceAt self.now.table self.now.index result }
    {
        self.buffer.pos()
    }

    /// The first index past the list, once `None` was returned at a good end.
    pub(crate) fn end(&self) -> Option<u32>
        ensures { result ≡ answered_end self.now }
    {
        match self.progress {
            Progress::Ended => Some(self.index),
            _ => None,
        }
    }
}

impl<'t, I: ItemIndex> FallibleIterator for ItemIter<'t, I> {
    type Item = Item<'t, I>;

    type Error = Error;

    ghost has_ended = { λ it. HasEnded it.progress };

    ghost next_gives = { λ old result new. Parses found_bytes result (next_answer old)
        × HasIndex result (I.index old.index)
        × (new ≡ iteration_behind old (next_answer old)) };

    #[tactic(auto, using(crate::proofs::Walks::number_here, crate::proofs::Walks::number_end, crate::proofs::Walks::number_fault, crate::proofs::Walks::end_here, crate::proofs::Walks::before_next))]
    fn next(&mut self) -> Result<Option<Item<'t, I>>> {
        match self.progress {
            Progress::Reading => {}
            _ => return Ok(None),
        }
        let mut lengths = 0;
        match next_piece(&mut self.buffer, self.index, &mut lengths) {
            Ok(Some(bytes)) => {
                let index = I::from(self.index);
                self.index += 1;
                Ok(Some(Item { index, bytes }))
            }
            Ok(None) => {
                self.progress = Progress::Ended;
                Ok(None)
            }
            Err(fault) => {
                self.progress = Progress::Failed;
                Err(fault)
            }
        }
    }
}
