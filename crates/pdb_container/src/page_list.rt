//! Lists of MSF pages, joined into slices of the source.

ghost use Rattle.std.specs.Prelude.{[], ◌≡◌, ◌+◌, ◌*◌, ◌<◌, ◌≤◌, ◌^◌, ◌++◌, length, take, OnOk};
ghost use Rattle.std.specs.Prelude.{OnErr, IsOkUnless};
ghost use Rattle.pdb_container.specs.Pages.{page, AreApart};
ghost use Rattle.pdb_container.specs.Places.{slice_places, places_of};

use crate::error::{Error, Result};
use crate::source::SourceSlice;
use std::alloc::Global;
use std::marker::Model;

/// A list of MSF pages, one after the other, and perhaps cut.
#[derive(Debug, Drop)]
pub struct PageList {
    page_size: usize,
    slices: Vec<SourceSlice>,
    len: usize,
}

impl Model for PageList {
    ghost use Rattle.std.specs.Prelude.{[], ◌≡◌, ◌<◌, ◌≤◌, ◌^◌, length};
    ghost use Rattle.pdb_container.specs.Pages.{Pages, AreApart};
    ghost use Rattle.pdb_container.specs.Places.{places_of};

    ghost Value = { Pages };

    ghost view = { λ p. record { page_size = p.page_size; places = places_of p.slices.items } };

    ghost invariant = { λ p. (0 < p.page_size) × (p.page_size ≤ 0x800000)
        × (p.len ≡ length (places_of p.slices.items)) × AreApart p.slices.items };
}

impl PageList {
    /// A list of no pages, of so many bytes each, 1 to 0x800000.
    pub fn new(alloc: Global, page_size: usize) -> PageList
        requires { (0 < page_size) × (page_size ≤ 0x800000) }
        ensures { result ≡ record { page_size = page_size; places = [] } }
    {
        PageList {
            page_size,
            slices: Vec::new(alloc),
            len: 0,
        }
    }

    /// The number of bytes that the pages have, or were cut to.
    pub fn len(&self) -> usize
        ensures { result ≡ length self.now.places }
    {
        self.len
    }

    /// One more page by its number, to a list of fewer than 2^62 bytes. Adjacent pages join into
    /// one slice.
    ///
    /// # Errors
    /// `OutOfMemory` alone, with the list as before.
    #[tactic(auto, using(crate::proofs::Slices::length_pushed))]
    pub fn push(&mut self, number: u32) -> Result<()>
        requires { length self.old.places < 2 ^ 62 }
        ensures ok { OnOk result
            (self.new
            ≡ record self.old { places = self.old.places ++ page self.old.page_size number }) }
        ensures len { OnOk result
            (length self.new.places ≡ length self.old.places + self.old.page_size) }
        ensures err { OnErr result (self.new ≡ self.old) }
        ensures memory { IsOkUnless result Error.OutOfMemory }
    {
        let slice = SourceSlice {
            offset: u64::from(number) * self.page_size as u64,
            size: self.page_size,
        };
        match add_slice(&mut self.slices, slice) {
            Ok(()) => {
                self.len += self.page_size;
                Ok(())
            }
            Err(fault) => Err(fault),
        }
    }

    /// Keeps the first bytes alone.
    pub fn truncate(&mut self, bytes: usize)
        ensures { self.new ≡ record self.old { places = take bytes self.old.places } }
    {
        cut_slices(&mut self.slices, bytes);
        self.len = self.len.min(bytes);
    }

    /// The slices whose bytes, joined end to end, are those of the pages. None is empty, and none
    /// ends where the next begins.
    pub fn source_slices(&self) -> &[SourceSlice]
        ensures joined { places_of result.now ≡ self.now.places }
        ensures apart { AreApart result.now }
    {
        self.slices.as_slice()
    }
}

#[tactic(auto, using(crate::proofs::Slices::size_le_len, crate::proofs::Slices::places_join, crate::proofs::Slices::places_push, crate::proofs::Slices::apart_set, crate::proofs::Slices::apart_push))]
fn add_slice(slices: &mut Vec<SourceSlice>, slice: SourceSlice) -> Result<()>
    requires few { length (places_of slices.old.items) + slice.size < 2 ^ 64 }
    requires full { 0 < slice.size }
    ensures ok { OnOk result
        (places_of slices.new.items ≡ places_of slices.old.items ++ slice_places slice) }
    ensures apart { AreApart slices.old.items → AreApart slices.new.items }
    ensures err { OnErr result (slices.new.items ≡ slices.old.items) }
    ensures memory { IsOkUnless result Error.OutOfMemory }
{
    let count = slices.len();
    if count > 0 {
        let last = slices[count - 1];
        if last.offset <= slice.offset && slice.offset - last.offset == last.size as u64 {
            slices[count - 1] = SourceSlice {
                offset: last.offset,
                size: last.size + slice.size,
            };
            return Ok(());
        }
    }
    slices.push(slice)?;
    Ok(())
}

#[tactic(auto, using(crate::proofs::Slices::places_cut, crate::proofs::Slices::places_cut_in, crate::proofs::Slices::apart_take, crate::proofs::Slices::apart_cut_in, crate::proofs::Slices::places_len_more))]
fn cut_slices(slices: &mut Vec<SourceSlice>, bytes: usize)
    ensures cut { places_of slices.new.items ≡ take bytes (places_of slices.old.items) }
    ensures apart { AreApart slices.old.items → AreApart slices.new.items }
{
    let mut left = bytes;
    for i in 0..slices.len() {
        let slice = slices[i];
        if left == 0 {
            slices.truncate(i);
            return;
        }
        if left < slice.size {
            slices[i] = SourceSlice {
                offset: slice.offset,
                size: left,
            };
            slices.truncate(i + 1);
            return;
        }
        left -= slice.size;
    }
}
