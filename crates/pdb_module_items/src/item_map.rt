//! Items of a table by their indices, whatever was asked before.

ghost use Rattle.std.specs.Prelude.{◌≡◌, ◌<◌, nat_lt, IfOk, IsOkUnless};
ghost use Rattle.pdb_container.specs.Fault.{Parses};
ghost use Rattle.pdb_container_types.specs.Item.{item_bytes};
ghost use Rattle.pdb_container_types.specs.Items.{item_at};
ghost use Rattle.pdb_container_types.specs.IteratorAndFinder.{
  first_unknown,
  last_known as last_known_index,
};
ghost use Rattle.pdb_module_items.specs.Ends.{IsShown, IsReached};
ghost use Rattle.pdb_module_items.specs.declared.item_map.End.TheVariants as ends;

use pdb_container::{Error, FallibleIterator, IdIndex, ItemIndex, Result, TypeIndex};
use pdb_container_types::{
    IdInformation, Item, ItemFinder, ItemInformation, ItemIter, TypeInformation,
};
use std::alloc::Global;
use std::marker::Model;

/// The known end of a table's list.
#[derive(Clone, Copy)]
pub enum End {
    /// The end wasn't reached yet.
    Ahead,
    /// The list ends well.
    Good,
    /// The list ends badly, with this fault.
    Bad(Error),
}

/// The items of a table by their indices. It goes over the table as far as it is asked, and stores
/// the places where it has been.
#[derive(Drop)]
pub struct ItemMap<'t, I> {
    minimum: u32,
    maximum: u32,
    finder: ItemFinder<'t, I>,
    iterator: ItemIter<'t, I>,
    end: End,
}

impl<'t, I> Model for ItemMap<'t, I> {
    ghost use Rattle.pdb_container_types.specs.Items.{Table};
    ghost use Rattle.pdb_module_items.specs.Ends.{IsKept};

    ghost Value = { Table };

    ghost view = { λ m. m.finder.table };

    ghost invariant = { λ m. IsKept m.finder m.iterator m.end m.minimum m.maximum };
}

impl<'t> ItemMap<'t, TypeIndex> {
    /// The types of a table.
    ///
    /// # Errors
    /// `OutOfMemory`, and no other.
    pub fn of_types(
        alloc: Global,
        information: &'t TypeInformation<'_>,
    ) -> Result<ItemMap<'t, TypeIndex>>
        ensures table { IfOk result (λ m. m ≡ information.now) }
        ensures memory { IsOkUnless result Error.OutOfMemory }
    {
        let minimum = information.minimum_index().0;
        let maximum = information.maximum_index().0;
        ItemMap::over(alloc, information, minimum, maximum)
    }
}

impl<'t> ItemMap<'t, IdIndex> {
    /// The ids of a table.
    ///
    /// # Errors
    /// `OutOfMemory`, and no other.
    pub fn of_ids(alloc: Global, information: &'t IdInformation<'_>) -> Result<ItemMap<'t, IdIndex>>
        ensures table { IfOk result (λ m. m ≡ information.now) }
        ensures memory { IsOkUnless result Error.OutOfMemory }
    {
        let minimum = information.minimum_index().0;
        let maximum = information.maximum_index().0;
        ItemMap::over(alloc, information, minimum, maximum)
    }
}

impl<'t, I: ItemIndex> ItemMap<'t, I> {
    /// The items of a table with these bounds. `OutOfMemory`, and no other.
    #[tactic(auto, using(crate::proofs::EndSteps::kept_fresh))]
    fn over(
        alloc: Global,
        information: &'t ItemInformation<'_, I>,
        minimum: u32,
        maximum: u32,
    ) -> Result<ItemMap<'t, I>>
        requires low { minimum ≡ information.now.minimum }
        requires high { maximum ≡ information.now.maximum }
        ensures table { IfOk result (λ m. m ≡ information.now) }
        ensures memory { IsOkUnless result Error.OutOfMemory }
    {
        let finder = information.finder(alloc)?;
        Ok(ItemMap {
            minimum,
            maximum,
            finder,
            iterator: information.iter(),
            end: End::Ahead,
        })
    }

    /// The first index of the table.
    pub fn minimum(&self) -> u32
        ensures { result ≡ self.now.minimum }
    {
        self.minimum
    }

    /// The first index past the table, by its header.
    pub fn maximum(&self) -> u32
        ensures { result ≡ self.now.maximum }
    {
        self.maximum
    }

    /// Goes over the whole table, and returns an index close after its last item.
    #[tactic(auto, using(crate::proofs::EndSteps::kept_on))]
    pub(crate) fn go_over(&mut self) -> u32
        ensures { self.new ≡ self.old }
    {
        self.end = advance(&mut self.finder, &mut self.iterator, self.end, self.maximum);
        last_known(&self.finder).saturating_add(1)
    }

    /// The item with that index, by the whole table: below the table's first index it has no bytes.
    ///
    /// # Errors
    /// `TypeNotFound` at or past the table's maximum and past a good end of its list, and past a
    /// bad end the list's own fault.
    #[tactic(auto, using(crate::proofs::EndSteps::past_maximum, crate::proofs::EndSteps::kept_on, crate::proofs::EndSteps::reached, crate::proofs::EndSteps::known_some))]
    pub fn try_get(&mut self, index: I) -> Result<Item<'t, I>>
        ensures same { self.new ≡ self.old }
        ensures item { Parses item_bytes result (item_at self.old (I.number index)) }
        ensures index { IfOk result (λ item. item.index ≡ index) }
    {
        let number: u32 = index.into();
        if number >= self.maximum {
            return Err(Error::TypeNotFound(number));
        }
        self.end = advance(&mut self.finder, &mut self.iterator, self.end, number);
        find_or_end(&self.finder, self.end, index, number)
    }
}

/// The last index of the blocks that a finder knows.
fn last_known<I: ItemIndex>(finder: &ItemFinder<'_, I>) -> u32
    ensures { result ≡ last_known_index finder.now }
{
    finder.max_index().into()
}

/// Whether a finder knows the block of an index.
#[tactic(auto, using(crate::proofs::EndSteps::is_below, crate::proofs::EndSteps::is_not_below))]
fn is_known<I: ItemIndex>(finder: &ItemFinder<'_, I>, number: u32) -> bool
    requires { 0 < first_unknown finder.now }
    ensures { result ≡ nat_lt number (first_unknown finder.now) }
{
    number <= last_known(finder)
}

/// Goes over the table until the finder knows an index or the list has ended.
#[tactic(auto, using(crate::proofs::EndSteps::shown_more, crate::proofs::EndSteps::shown_good, crate::proofs::EndSteps::shown_bad, crate::proofs::EndSteps::known, crate::proofs::EndSteps::known_some))]
fn reach<I: ItemIndex>(
    finder: &mut ItemFinder<'_, I>,
    iterator: &mut ItemIter<'_, I>,
    number: u32,
) -> End
    requires { IsShown finder.old iterator.old ends.Ahead }
    ensures table { finder.new.table ≡ finder.old.table }
    ensures shown { IsShown finder.new iterator.new result }
    ensures known { result ≡ ends.Ahead → number < first_unknown finder.new }
{
    while !is_known(finder, number) {
        match iterator.next() {
            Ok(Some(_)) => finder.update(iterator),
            Ok(None) => return End::Good,
            Err(fault) => return End::Bad(fault),
        }
    }
    End::Ahead
}

/// Goes on as [`reach`] does, unless the list's end is known.
fn advance<I: ItemIndex>(
    finder: &mut ItemFinder<'_, I>,
    iterator: &mut ItemIter<'_, I>,
    end: End,
    number: u32,
) -> End
    requires { IsShown finder.old iterator.old end }
    ensures table { finder.new.table ≡ finder.old.table }
    ensures shown { IsShown finder.new iterator.new result }
    ensures known { result ≡ ends.Ahead → number < first_unknown finder.new }
{
    match end {
        End::Ahead => reach(finder, iterator, number),
        End::Good => End::Good,
        End::Bad(fault) => End::Bad(fault),
    }
}

/// The item with an index that the finder knows, or else the answer at the list's end.
#[tactic(auto, using(crate::proofs::EndSteps::found_known, crate::proofs::EndSteps::past_ahead, crate::proofs::EndSteps::past_good, crate::proofs::EndSteps::past_bad))]
fn find_or_end<'t, I: ItemIndex>(
    finder: &ItemFinder<'t, I>,
    end: End,
    index: I,
    number: u32,
) -> Result<Item<'t, I>>
    requires number { number ≡ I.number index }
    requires some { 0 < first_unknown finder.now }
    requires reached { IsReached finder.now end number }
    ensures item { Parses item_bytes result (item_at finder.now.table (I.number index)) }
    ensures index { IfOk result (λ item. item.index ≡ index) }
{
    if is_known(finder, number) {
        return finder.find(index);
    }
    match end {
        End::Ahead => Err(Error::TypeNotFound(number)),
        End::Good => Err(Error::TypeNotFound(number)),
        End::Bad(fault) => Err(fault),
    }
}
