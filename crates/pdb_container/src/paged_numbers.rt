//! The numbers of the directory, read through its pages.

ghost use Rattle.std.specs.Prelude.{◌≡◌, ◌<◌, ◌^◌, length, take, drop, slice_index, Ok};
ghost use Rattle.pdb_container.specs.PagedNumbers.{numbers_through, AreThere};
ghost use Rattle.pdb_container.specs.Fault.{Gives};

use crate::error::Result;
use crate::numbers::word_at;
use crate::source::ReadView;
use std::alloc::Global;
use std::marker::Model;

/// The numbers of the directory. Its pages are stored once each, however often it names a page.
#[derive(Drop)]
pub struct PagedNumbers {
    page_size: u32,
    /// The place of each page of the directory in the bytes, counted in pages.
    places: Vec<u32>,
    bytes: ReadView,
    count: usize,
}

impl Model for PagedNumbers {
    ghost use Rattle.std.specs.Prelude.{ℕ, List};
    ghost use Rattle.pdb_container.specs.PagedNumbers.{numbers_through, AreThere};

    ghost Value = { List ℕ };

    ghost view = { λ n. numbers_through n.page_size n.places.items n.bytes n.count };

    ghost invariant = { λ n. AreThere n.page_size n.places.items n.bytes n.count };
}

impl PagedNumbers {
    /// `count` numbers, in pages at these places of the bytes.
    pub fn new(page_size: u32, places: Vec<u32>, bytes: ReadView, count: usize) -> PagedNumbers
        requires { AreThere page_size places.items bytes count }
        ensures { result ≡ numbers_through page_size places.items bytes count }
    {
        PagedNumbers {
            page_size,
            places,
            bytes,
            count,
        }
    }

    /// The count of numbers.
    #[tactic(auto, using(crate::proofs::PagedNumbers::through_len))]
    pub fn len(&self) -> usize
        ensures count { result ≡ length self.now }
        ensures few { result < 2 ^ 30 }
    {
        self.count
    }

    /// The number with that index.
    #[tactic(auto, using(crate::proofs::PagedNumbers::through_at, crate::proofs::PagedNumbers::through_len))]
    pub fn at(&self, index: usize) -> u32
        requires { index < length self.now }
        ensures { result ≡ slice_index self.now index }
    {
        let page_size = self.page_size as usize;
        let at = 4 * index;
        let place = self.places[at / page_size] as usize;
        word_at(self.bytes.as_slice(), place * page_size + at % page_size)
    }

    /// A copy of at most `count` numbers from an index on.
    ///
    /// # Errors
    /// `OutOfMemory`, and no other.
    #[tactic(auto, using(crate::proofs::PagedNumbers::taken))]
    pub fn copied(&self, alloc: Global, from: usize, count: usize) -> Result<Vec<u32>>
        ensures { Gives (λ v. v.items) ⊥ result (Ok (take count (drop from self.now))) }
    {
        let there = self.len().saturating_sub(from).min(count);
        let mut numbers = Vec::with_capacity(alloc, there)?;
        for i in 0..there {
            numbers.push(self.at(from + i))?;
        }
        Ok(numbers)
    }
}
