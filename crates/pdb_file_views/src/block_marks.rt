//! Marks of the blocks of a file that were read. A block is read once, so that bytes that were read
//! at different times agree.

ghost use Rattle.std.specs.Prelude.{◌≡◌, ℕ, ◌≤◌, ◌<◌, ◌/◌, true, false, get_or, set};
ghost use Rattle.pdb_container.specs.Places.{places_of, slice_places};
ghost use Rattle.pdb_file_views.specs.Blocks.{AreDistinct, AreFree, AreMarked, StayMarked};
ghost use Rattle.pdb_file_views.specs.Blocks.{WereFree};

use pdb_container::SourceSlice;

/// The number of bytes of a block: the smallest size of pages.
pub(crate) const BLOCK: u64 = 512;

/// Marks a block, unless it is marked or past the end; returns whether it did.
fn mark_block(marks: &mut Vec<bool>, block: usize) -> bool
    ensures free { result ≡ true → get_or marks.old.items block true ≡ false }
    ensures marked { result ≡ true → marks.new.items ≡ set marks.old.items block true }
    ensures same { result ≡ false → marks.new.items ≡ marks.old.items }
{
    match marks.get_mut(block) {
        Some(mark) => {
            if *mark {
                return false;
            }
            *mark = true;
            true
        }
        None => false,
    }
}

/// Marks the blocks from `first` on and before `end`, up to one that can't be marked; returns
/// whether it marked all.
#[tactic(auto, using(crate::proofs::BlockSteps::stay_set, crate::proofs::BlockSteps::stay_same, crate::proofs::BlockSteps::were_set, crate::proofs::BlockSteps::free_more, crate::proofs::BlockSteps::marked_more))]
fn mark_blocks(marks: &mut Vec<bool>, first: usize, end: usize) -> bool
    ensures free { result ≡ true → (block : ℕ) → first ≤ block → block < end
        → get_or marks.old.items block true ≡ false }
    ensures marked { result ≡ true → (block : ℕ) → first ≤ block → block < end
        → get_or marks.new.items block false ≡ true }
    ensures stay { StayMarked marks.old.items marks.new.items }
    ensures were { WereFree marks.old.items marks.new.items }
{
    for block in first..end {
        if !mark_block(marks, block) {
            return false;
        }
    }
    true
}

/// Marks the blocks that a slice lies in, up to one that can't be marked; returns whether it marked
/// all.
#[tactic(auto, using(crate::proofs::BlockSteps::slice_free, crate::proofs::BlockSteps::slice_marked, crate::proofs::BlockSteps::none_free, crate::proofs::BlockSteps::none_marked))]
fn mark_slice(marks: &mut Vec<bool>, slice: SourceSlice) -> bool
    ensures free { result ≡ true → AreFree marks.old.items (slice_places slice) }
    ensures marked { result ≡ true → AreMarked marks.new.items (slice_places slice) }
    ensures stay { StayMarked marks.old.items marks.new.items }
    ensures were { WereFree marks.old.items marks.new.items }
{
    if slice.size == 0 {
        return true;
    }
    let Some(last) = slice.offset.checked_add(slice.size as u64 - 1) else {
        return false;
    };
    let first = (slice.offset / BLOCK) as usize;
    mark_blocks(marks, first, (last / BLOCK) as usize + 1)
}

/// Marks the blocks that slices lie in; returns whether none of them was marked before, and no two
/// slices lie in one block.
#[tactic(auto, using(crate::proofs::BlockSteps::slices_free, crate::proofs::BlockSteps::slices_marked, crate::proofs::BlockSteps::slices_distinct, crate::proofs::BlockSteps::stay_on, crate::proofs::BlockSteps::were_on))]
pub(crate) fn mark_slices(marks: &mut Vec<bool>, slices: &[SourceSlice]) -> bool
    ensures free { result ≡ true → AreFree marks.old.items (places_of slices.now) }
    ensures marked { result ≡ true → AreMarked marks.new.items (places_of slices.now) }
    ensures distinct { result ≡ true → AreDistinct (places_of slices.now) }
    ensures stay { StayMarked marks.old.items marks.new.items }
{
    for slice in slices {
        if !mark_slice(marks, *slice) {
            return false;
        }
    }
    true
}
