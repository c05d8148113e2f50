//! Sources of a container's bytes.

ghost use Rattle.std.specs.Prelude.{◌≡◌, ℕ, ◌+◌, ◌≤◌, ◌-◌, ◌^◌, List, length, min, is_ok, IsOk};
ghost use Rattle.std.specs.Prelude.{IfSome, IfOk, IfErr, ◌⊎◌};
ghost use Rattle.pdb_container.specs.Fault.{error_of, fault_of, HasRisen, IsOutside, IsFaultOf};
ghost use Rattle.pdb_container.specs.Places.{slice_places, places_of, bytes_at, IsSomeWithin};

use crate::error::Error;
use crate::shared_bytes::SharedBytes;
use std::alloc::{AllocError, Global};
use std::io;
use std::io::ErrorKind;
use std::marker::Model;

/// A slice of a source: some bytes, one after the other.
#[derive(Clone, Copy, Debug, PartialEq, Eq)]
pub struct SourceSlice {
    /// The start of the slice, in bytes from the source's beginning.
    pub offset: u64,
    /// The number of bytes.
    pub size: usize,
}

/// A view of a source: the bytes that it returned, which may be shared with others.
#[derive(Debug, Drop)]
pub struct ReadView {
    bytes: SharedBytes,
}

impl Model for ReadView {
    ghost Value = { List ℕ };

    ghost view = { λ v. v.bytes };
}

impl ReadView {
    /// A view of these bytes.
    ///
    /// # Errors
    /// `AllocError` when memory runs out.
    pub fn new(bytes: Vec<u8>) -> Result<ReadView, AllocError>
        ensures { IfOk result (λ v. v ≡ bytes.items) }
    {
        let bytes = SharedBytes::new(bytes)?;
        Ok(ReadView { bytes })
    }

    /// A view of bytes that others may have too: none is copied.
    pub fn shared(bytes: SharedBytes) -> ReadView
        ensures { result ≡ bytes }
    {
        ReadView { bytes }
    }

    /// The bytes.
    pub fn as_slice(&self) -> &[u8]
        ensures { result.now ≡ self.now }
    {
        self.bytes.as_slice()
    }
}

/// A source: fixed bytes that may be read anywhere.
pub trait Source {
    /// The bytes, which no call changes.
    ghost bytes: { Self → List ℕ };

    /// The number of views that failed otherwise than by memory or past the end.
    ghost failures: { Self → ℕ };

    /// The bytes at the slices, joined.
    ///
    /// # Errors
    /// `UnexpectedEof` past the end, and only there. Any other failure but out of memory raises the
    /// count of failures.
    fn view(&mut self, alloc: Global, slices: &[SourceSlice]) -> io::Result<ReadView>
        ensures same { bytes self.new ≡ bytes self.old }
        ensures counts { failures self.old ≤ failures self.new }
        ensures ok { IfOk result (λ v. bytes_at (bytes self.old) (places_of slices.now) ≡ Ok v) }
        ensures err { IfErr result
            (λ e. IsOutside (error_of e) (HasRisen (failures self.old) (failures self.new))
            ⊎ (bytes_at (bytes self.old) (places_of slices.now) ≡ Err (fault_of (error_of e)))) };

    /// The number of views that failed otherwise than by memory or past the end; at `u64::MAX` it
    /// stays.
    fn failures(&self) -> u64
        ensures { result ≡ failures self.now };

    /// An upper bound of the source's size, in bytes; `u64::MAX` where none is known. No answer
    /// depends on it: it bounds what is cached of a file whose streams list the same pages over and
    /// over. A source that wraps another one passes the question on.
    fn size_hint(&self) -> u64
        ensures { (length (bytes self.now) ≤ result) ⊎ (result ≡ 2 ^ 64 - 1) }
    {
        u64::MAX
    }

    /// Returns whether the pages of `size` bytes may be listed, and counts them as listed. It is
    /// asked before a list of pages is made, which takes time even if no view follows. Where it
    /// refuses, the container answers `OutOfMemory`.
    ///
    /// A source that writes no such method allows each list. One that wraps another source has to
    /// pass the question on to it.
    fn may_list(&mut self, size: u64) -> bool
        ensures same { bytes self.new ≡ bytes self.old }
        ensures counts { failures self.new ≡ failures self.old }
    {
        true
    }
}

/// Bytes of a file's own: each view has a copy.
impl Source for Vec<u8> {
    ghost use Rattle.std.specs.Global.{Vec};

    ghost bytes = { λ v. v.items };

    ghost failures = { λ _. 0 };

    fn view(&mut self, alloc: Global, slices: &[SourceSlice]) -> io::Result<ReadView> {
        copy_slices(alloc, self, slices)
    }

    fn failures(&self) -> u64 {
        0
    }

    fn size_hint(&self) -> u64 {
        self.len() as u64
    }
}

/// Bytes that are shared: a view of one slice shares them, and any other has a copy.
impl Source for SharedBytes {
    ghost bytes = { λ b. b };

    ghost failures = { λ _. 0 };

    fn view(&mut self, alloc: Global, slices: &[SourceSlice]) -> io::Result<ReadView> {
        match only_slice(slices) {
            Some(slice) => share_slice(self, slice),
            None => copy_slices(alloc, self.as_slice(), slices),
        }
    }

    fn failures(&self) -> u64 {
        0
    }

    fn size_hint(&self) -> u64 {
        self.as_slice().len() as u64
    }
}

/// The slice, where there is one alone.
#[tactic(auto, using(crate::proofs::Bytes::places_of_one))]
fn only_slice(slices: &[SourceSlice]) -> Option<SourceSlice>
    ensures { IfSome result (λ s. places_of slices.now ≡ slice_places s) }
{
    if slices.len() == 1 {
        Some(slices[0])
    } else {
        None
    }
}

/// The bytes of a slice of shared bytes, which are shared.
#[tactic(auto, using(crate::proofs::Bytes::bytes_at_none, crate::proofs::Bytes::bytes_at_range, crate::proofs::Bytes::ok_fits, crate::proofs::Bytes::not_ok_ends))]
fn share_slice(file: &SharedBytes, slice: SourceSlice) -> io::Result<ReadView>
    ensures ok { IfOk result (λ v. bytes_at file.now (slice_places slice) ≡ Ok v) }
    ensures err { IfErr result
        (λ e. IsFaultOf (bytes_at file.now (slice_places slice)) (error_of e)) }
{
    if !is_within(file.as_slice(), slice) {
        return Err(ErrorKind::UnexpectedEof.into());
    }
    if slice.size == 0 {
        return Ok(ReadView::shared(file.part(0, 0)?));
    }
    let start = slice.offset as usize;
    let part = file.part(start, slice.size)?;
    Ok(ReadView::shared(part))
}

/// The bytes at the slices, joined, copied. Memory is taken only for bytes that are there, once and
/// for all of them.
fn copy_slices(alloc: Global, file: &[u8], slices: &[SourceSlice]) -> io::Result<ReadView>
    ensures ok { IfOk result (λ v. bytes_at file.now (places_of slices.now) ≡ Ok v) }
    ensures err { IfErr result
        (λ e. IsFaultOf (bytes_at file.now (places_of slices.now)) (error_of e)) }
{
    let Some(size) = size_within(file, slices) else {
        return Err(ErrorKind::UnexpectedEof.into());
    };
    let mut bytes = Vec::with_capacity(alloc, size)?;
    for slice in slices {
        bytes.extend_from_slice(part_of(file, *slice))?;
    }
    let view = ReadView::new(bytes)?;
    Ok(view)
}

/// The number of bytes of the slices, at most `usize::MAX`; `None` where one doesn't lie within the
/// file.
#[tactic(auto, using(crate::proofs::Bytes::within_more, crate::proofs::Bytes::within_fail, crate::proofs::Bytes::within_done, crate::proofs::Slices::places_len_more))]
pub fn size_within(file: &[u8], slices: &[SourceSlice]) -> Option<usize>
    ensures within { IsSomeWithin result file.now slices.now }
    ensures size { IfSome result (λ size. size ≡ min (length (places_of slices.now)) (2 ^ 64 - 1)) }
{
    let mut size = 0usize;
    for slice in slices {
        if !is_within(file, *slice) {
            return None;
        }
        size = size.saturating_add(slice.size);
    }
    Some(size)
}

/// Whether the slice lies within the file; one with no bytes lies within any.
#[tactic(auto, using(crate::proofs::Bytes::ok_none, crate::proofs::Bytes::ok_range, crate::proofs::Bytes::ok_past))]
fn is_within(file: &[u8], slice: SourceSlice) -> bool
    ensures { result ≡ is_ok (bytes_at file.now (slice_places slice)) }
{
    let len = file.len() as u64;
    slice.size == 0 || slice.offset <= len && slice.size as u64 <= len - slice.offset
}

/// The bytes of a slice that lies within the file.
#[tactic(auto, using(crate::proofs::Bytes::bytes_at_none, crate::proofs::Bytes::bytes_at_range, crate::proofs::Bytes::ok_fits))]
fn part_of(file: &[u8], slice: SourceSlice) -> &[u8]
    requires { IsOk (bytes_at file.now (slice_places slice)) }
    ensures { bytes_at file.now (slice_places slice) ≡ Ok result.now }
{
    if slice.size == 0 {
        return &file[..0];
    }
    let start = slice.offset as usize;
    &file[start..start + slice.size]
}
