//! The MSF directory: the number of streams, their sizes, and the places of their page numbers.

ghost use Rattle.std.specs.Prelude.{◌≡◌, ◌+◌, ◌-◌, ◌*◌, ◌<◌, ◌≤◌, ◌^◌, ℕ, length, vec_len};
ghost use Rattle.std.specs.Prelude.{take, drop, slice_index, IfOk, IfErr, Ok, Err, ◌≢◌};
ghost use Rattle.std.specs.List.{sum_by};
ghost use Rattle.pdb_container.specs.Container.{absent, page_count, pages_in, stream_pages_in};
ghost use Rattle.pdb_container.specs.Directory.{counted_in, starts_in, HasStarts};
ghost use Rattle.pdb_container.specs.declared.error.Error.TheVariants.{OutOfMemory};
ghost use Rattle.pdb_container.specs.Fault.{fault_of, Gives};

use crate::error::{Error, Result};
use crate::paged_numbers::PagedNumbers;
use std::alloc::Global;

/// The size of a stream that is not there.
const ABSENT: u32 = 0xffff_ffff;

/// The number of streams that have one start together.
const GROUP: usize = 256;

/// An MSF directory: its numbers, and for the first of each 256 streams that have a size the number
/// of page numbers before the stream's own.
#[derive(Drop)]
pub struct Directory {
    numbers: PagedNumbers,
    starts: Vec<usize>,
}

impl Directory {
    /// A directory of these numbers. Memory is taken for the sizes that are there, whatever the
    /// count says: 8 bytes for 256 of them.
    ///
    /// # Errors
    /// `OutOfMemory`.
    pub fn new(alloc: Global, page_size: u32, numbers: PagedNumbers) -> Result<Directory>
        requires { 0 < page_size }
        ensures numbers { Gives (λ d. d.numbers) ⊥ result (Ok numbers) }
        ensures starts { IfOk result (λ d. HasStarts page_size d) }
    {
        match starts_of(alloc, page_size, &numbers) {
            Ok(starts) => Ok(Directory { numbers, starts }),
            Err(fault) => Err(fault),
        }
    }

    /// The size in bytes and the pages of a stream.
    ///
    /// # Errors
    /// `StreamNotFound`, `UnexpectedEof`, `PageReferenceOutOfRange`; `OutOfMemory`.
    #[tactic(auto, using(crate::proofs::Paging::pages_enough, crate::proofs::Starts::counted_at))]
    pub fn place_of(
        &self,
        alloc: Global,
        page_size: u32,
        used: u32,
        number: u32,
    ) -> Result<(u32, Vec<u32>)>
        requires size { 0 < page_size }
        requires starts { HasStarts page_size self.now }
        ensures exact { Gives (λ found. (found.0, found.1.items)) ⊥ result
            (stream_pages_in page_size used number self.now.numbers) }
        ensures enough { IfOk result (λ found. found.0 ≤ vec_len found.1 * page_size) }
        ensures few { IfOk result (λ found. vec_len found.1 < 2 ^ 32) }
    {
        let size = match self.size_of(number) {
            Ok(size) => size,
            Err(fault) => return Err(fault),
        };
        let numbers = &self.numbers;
        let count = numbers.at(0);
        let from = 1 + count as usize + self.pages_before(page_size, number);
        let pages = pages_for(page_size, size) as usize;
        let own = numbers.copied(alloc, from, pages)?;
        match pages_of(alloc, used, pages, own.as_slice()) {
            Ok(pages) => Ok((size, pages)),
            Err(fault) => Err(fault),
        }
    }

    /// The size in bytes that is stated for a stream. None of the stream's page numbers is looked
    /// at.
    ///
    /// # Errors
    /// `StreamNotFound`, `UnexpectedEof`, and no other.
    pub fn size_of(&self, number: u32) -> Result<u32>
        ensures counted { IfOk result (λ size. number < slice_index self.now.numbers 0) }
        ensures whole { IfOk result
            (λ size. slice_index self.now.numbers 0 < length self.now.numbers) }
        ensures size { IfOk result (λ size. size ≡ slice_index self.now.numbers (1 + number)) }
        ensures there { IfOk result (λ size. size ≢ absent) }
        ensures err { IfErr result (λ e. (page_size used : ℕ)
            → stream_pages_in page_size used number self.now.numbers ≡ Err (fault_of e)) }
        ensures memory { IfErr result (λ e. e ≢ OutOfMemory) }
    {
        let numbers = &self.numbers;
        if numbers.len() == 0 {
            return Err(Error::UnexpectedEof);
        }
        let count = numbers.at(0);
        if count <= number {
            return Err(Error::StreamNotFound(number));
        }
        if numbers.len() - 1 < count as usize {
            return Err(Error::UnexpectedEof);
        }
        let size = numbers.at(1 + number as usize);
        if size == ABSENT {
            return Err(Error::StreamNotFound(number));
        }
        Ok(size)
    }

    /// The number of bytes that the pages of a list can have: one page for each of the directory's
    /// numbers.
    pub fn longest_list(&self, page_size: u32) -> u64
        ensures { result ≡ length self.now.numbers * page_size }
    {
        self.numbers.len() as u64 * u64::from(page_size)
    }

    /// The number of pages of the streams before the one with that number: the start of its group
    /// of 256, and the pages of the group's streams that come before it.
    #[tactic(auto, using(crate::proofs::Starts::starts_len, crate::proofs::Starts::start_at, crate::proofs::Starts::counted_at, crate::proofs::Starts::counted_none))]
    fn pages_before(&self, page_size: u32, number: u32) -> usize
        requires size { 0 < page_size }
        requires starts { HasStarts page_size self.now }
        requires counted { number < counted_in self.now.numbers }
        ensures sum { result
            ≡ sum_by (page_count page_size) (take number (drop 1 self.now.numbers)) }
        ensures bound { result < 2 ^ 63 }
    {
        let number = number as usize;
        let first = number / GROUP * GROUP;
        self.starts[number / GROUP] + pages_between(page_size, &self.numbers, first, number)
    }
}

/// The number of streams that the directory both counts and has sizes of.
#[tactic(auto, using(crate::proofs::Starts::counted_at, crate::proofs::Starts::counted_none))]
fn counted(numbers: &PagedNumbers) -> usize
    ensures count { result ≡ counted_in numbers.now }
    ensures few { result < 2 ^ 30 }
    ensures there { 0 < result → result < length numbers.now }
{
    if numbers.len() == 0 {
        return 0;
    }
    (numbers.at(0) as usize).min(numbers.len() - 1)
}

/// The number of pages before each first of 256 streams that the directory counts and has a size
/// of.
#[tactic(auto, using(crate::proofs::Starts::starts_none, crate::proofs::Starts::starts_more))]
fn starts_of(alloc: Global, page_size: u32, numbers: &PagedNumbers) -> Result<Vec<usize>>
    requires { 0 < page_size }
    ensures exact { Gives (λ v. v.items) ⊥ result (Ok (starts_in page_size numbers.now)) }
    ensures few { IfOk result (λ v. (k : ℕ) → slice_index v.items k ≤ 2 ^ 62) }
{
    let count = counted(numbers);
    let groups = count.div_ceil(GROUP);
    let mut starts = Vec::with_capacity(alloc, groups)?;
    let mut before = 0;
    for group in 0..groups {
        starts.push(before)?;
        let first = group * GROUP;
        before += pages_between(page_size, numbers, first, (first + GROUP).min(count));
    }
    Ok(starts)
}

/// The number of pages of the streams from number `from` up to but not including `to`, by their
/// sizes.
#[tactic(auto, using(crate::proofs::Starts::pages_more))]
fn pages_between(page_size: u32, numbers: &PagedNumbers, from: usize, to: usize) -> usize
    requires size { 0 < page_size }
    requires order { from ≤ to }
    requires there { to < length numbers.now }
    requires few { to < 2 ^ 32 }
    ensures sum { sum_by (page_count page_size) (take from (drop 1 numbers.now)) + result
        ≡ sum_by (page_count page_size) (take to (drop 1 numbers.now)) }
    ensures bound { result ≤ (to - from) * 2 ^ 32 }
{
    let mut pages = 0;
    for i in from..to {
        pages += pages_for(page_size, numbers.at(1 + i)) as usize;
    }
    pages
}

fn pages_for(page_size: u32, size: u32) -> u32
    requires { 0 < page_size }
    ensures { result ≡ page_count page_size size }
{
    if size == ABSENT {
        0
    } else {
        size.div_ceil(page_size)
    }
}

/// The first `count` numbers, which have to be page numbers.
///
/// # Errors
/// `UnexpectedEof` where fewer are there; `PageReferenceOutOfRange` of the first that is none;
/// `OutOfMemory`.
#[tactic(auto, using(crate::proofs::Words::pages_start))]
pub fn pages_of(alloc: Global, used: u32, count: usize, numbers: &[u32]) -> Result<Vec<u32>>
    ensures exact { Gives (λ v. v.items) ⊥ result (pages_in used count numbers.now) }
    ensures len { IfOk result (λ v. vec_len v ≡ count) }
{
    let mut pages = Vec::with_capacity(alloc, count.min(numbers.len()))?;
    for i in 0..count {
        if i >= numbers.len() {
            return Err(Error::UnexpectedEof);
        }
        let page = numbers[i];
        if page < 1 || used < page {
            return Err(Error::PageReferenceOutOfRange(page));
        }
        pages.push(page)?;
    }
    Ok(pages)
}
