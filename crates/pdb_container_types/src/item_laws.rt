//! Laws of finders.

ghost use Rattle.std.specs.Prelude.{◌≡◌, ◌<◌};
ghost use Rattle.pdb_container.specs.Fault.{Parses};
ghost use Rattle.pdb_container_types.specs.Item.{item_bytes};
ghost use Rattle.pdb_container_types.specs.Items.{item_at};
ghost use Rattle.pdb_container_types.specs.IteratorAndFinder.{first_unknown, shown};

use crate::item::Item;
use crate::item_finder::ItemFinder;
use crate::item_iter::ItemIter;
use pdb_container::{ItemIndex, Result};

/// An index that a finder knows has one answer, by the whole table, whatever is shown to the finder
/// in between. Whatever was shown is known from then on.
///
/// # Errors
/// Both answers are the fault that the table has at that index.
#[tactic(auto, unfolding(crate::specs::IteratorAndFinder::find_in))]
pub fn one_answer<'t, I: ItemIndex>(
    finder: &mut ItemFinder<'t, I>,
    iterator: &ItemIter<'_, I>,
    index: I,
) -> (Result<Item<'t, I>>, Result<Item<'t, I>>)
    requires table { iterator.now.table ≡ finder.old.table }
    requires known { I.number index < first_unknown finder.old }
    ensures before { Parses item_bytes result.0 (item_at finder.old.table (I.number index)) }
    ensures shown { finder.new ≡ shown iterator.now finder.old }
    ensures behind { Parses item_bytes result.1 (item_at finder.old.table (I.number index)) }
{
    let before = finder.find(index);
    finder.update(iterator);
    (before, finder.find(index))
}

/// Two finders, each shown an iterator over its own table, know what that iterator showed. Each
/// still belongs to its table.
pub fn two_finders<'s, 't, I: ItemIndex>(
    first: &mut ItemFinder<'s, I>,
    of_first: &ItemIter<'_, I>,
    second: &mut ItemFinder<'t, I>,
    of_second: &ItemIter<'_, I>,
)
    requires first_table { of_first.now.table ≡ first.old.table }
    requires second_table { of_second.now.table ≡ second.old.table }
    ensures first { first.new ≡ shown of_first.now first.old }
    ensures second { second.new ≡ shown of_second.now second.old }
    ensures tables { (first.new.table ≡ first.old.table) × (second.new.table ≡ second.old.table) }
{
    first.update(of_first);
    second.update(of_second);
}
