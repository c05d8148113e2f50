//! Pages of which each is read once, however often a list names it.

ghost use Rattle.std.specs.Prelude.{◌≡◌, ◌⊎◌, ◌+◌, ◌*◌, ◌<◌, ◌≤◌, ◌^◌, ◌++◌, [], ◌∷◌, length};
ghost use Rattle.std.specs.Prelude.{slice_index, IfOk, IsOkUnless};
ghost use Rattle.pdb_container.specs.declared.error.Error.TheVariants.{OutOfMemory};
ghost use Rattle.pdb_container.specs.PagedNumbers.{AreDistinct, AreKnown, StandIn};

use crate::error::Result;
use std::alloc::Global;
use std::collections::BTreeMap;

/// The pages to read for the first bytes of a list of pages.
#[derive(Drop)]
pub struct PagesToRead {
    /// The pages' numbers.
    pub pages: Vec<u32>,
    /// The place of each page of the list among these pages, counted in pages.
    pub places: Vec<u32>,
    /// The number of the pages' bytes to read.
    pub size: usize,
}

/// The pages to read for the first `size` bytes of the pages of a list. Each is there once, except
/// that the list's last page has a place of its own: the file may end within it.
///
/// # Errors
/// `OutOfMemory` alone.
#[tactic(auto, using(crate::proofs::DistinctPages::none_stand_in))]
pub fn pages_to_read(
    alloc: Global,
    page_size: u32,
    list: &[u32],
    size: usize,
) -> Result<PagesToRead>
    requires page_size { (0 < page_size) × (page_size ≤ 0x800000) }
    requires enough { size ≤ length list.now * page_size }
    requires full { length list.now * page_size < size + page_size }
    requires few { length list.now < 2 ^ 32 }
    ensures pages { IfOk result (λ read.
        StandIn page_size list.now size read.pages.items read.places.items read.size) }
    ensures memory { IsOkUnless result OutOfMemory }
{
    let Some((last, others)) = list.split_last() else {
        return Ok(PagesToRead {
            pages: Vec::new(alloc),
            places: Vec::new(alloc),
            size: 0,
        });
    };
    let (mut pages, mut places) = distinct_pages(alloc, others)?;
    let distinct = pages.len();
    places.push(distinct as u32)?;
    pages.push(*last)?;
    let page_size = page_size as usize;
    let in_last = size - others.len() * page_size;
    Ok(PagesToRead {
        pages,
        places,
        size: distinct * page_size + in_last,
    })
}

/// The pages of a list, each once, in the order in which the list first names them; and for each
/// page of the list its place among them. `OutOfMemory` alone.
#[tactic(auto, using(crate::proofs::DistinctPages::distinct_none, crate::proofs::DistinctPages::known_none))]
fn distinct_pages(alloc: Global, list: &[u32]) -> Result<(Vec<u32>, Vec<u32>)>
    requires few { length list.now < 2 ^ 32 }
    ensures distinct { IfOk result (λ r. AreDistinct list.now r.0.items r.1.items) }
    ensures memory { IsOkUnless result OutOfMemory }
{
    let mut known = BTreeMap::new(alloc);
    let mut pages = Vec::new(alloc);
    let mut places = Vec::with_capacity(alloc, list.len())?;
    for page in list {
        let place = place_among(&mut pages, &mut known, *page)?;
        places.push(place)?;
    }
    Ok((pages, places))
}

/// The place of a page among the pages. It is added at their end where it isn't known yet.
fn place_among(pages: &mut Vec<u32>, known: &mut BTreeMap<u32, u32>, page: u32) -> Result<u32>
    requires known { AreKnown pages.old.items known.old }
    requires few { length pages.old.items < 2 ^ 32 }
    ensures known { IfOk result (λ place. AreKnown pages.new.items known.new) }
    ensures there { IfOk result (λ place.
        (place < length pages.new.items) × (slice_index pages.new.items place ≡ page)) }
    ensures pages { IfOk result (λ place. (pages.new.items ≡ pages.old.items)
        ⊎ ((pages.new.items ≡ pages.old.items ++ page ∷ [])
        × (place ≡ length pages.old.items))) }
    ensures memory { IsOkUnless result OutOfMemory }
{
    if let Some(place) = known.get(&page).copied() {
        return Ok(place);
    }
    let place = pages.len() as u32;
    known.insert(page, place)?;
    pages.push(page)?;
    Ok(place)
}
