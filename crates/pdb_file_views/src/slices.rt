//! Slices of a file of which only the size is known.

ghost use Rattle.std.specs.Prelude.{◌≡◌, ℕ, ◌-◌, ◌^◌, List, length, min, is_ok, IsOk, Err, IfSome};
ghost use Rattle.std.specs.Prelude.{MatchOption};
ghost use Rattle.std.specs.declared.io.ErrorKind.TheVariants.{UnexpectedEof};
ghost use Rattle.pdb_container.specs.Fault.{IoError};
ghost use Rattle.pdb_container.specs.Places.{bytes_at, places_of, slice_places};

use pdb_container::SourceSlice;

/// Returns whether a slice lies within a file of `file_size` bytes; one with no bytes lies within
/// any.
#[tactic(auto, using(pdb_container::proofs::Bytes::ok_none, pdb_container::proofs::Bytes::ok_range, pdb_container::proofs::Bytes::ok_past))]
fn is_within(file_size: u64, slice: SourceSlice) -> bool
    ensures { (file : List ℕ) → length file ≡ file_size
        → result ≡ is_ok (bytes_at file (slice_places slice)) }
{
    slice.size == 0 || slice.offset <= file_size && slice.size as u64 <= file_size - slice.offset
}

/// Returns the number of bytes of slices, at most `usize::MAX`; `None` where one doesn't lie within
/// a file of `file_size` bytes.
#[tactic(auto, using(crate::proofs::SliceSteps::within_more, crate::proofs::SliceSteps::within_fail, crate::proofs::SliceSteps::within_done, pdb_container::proofs::Slices::places_len_more))]
pub(crate) fn size_within(file_size: u64, slices: &[SourceSlice]) -> Option<usize>
    ensures within { (file : List ℕ) → length file ≡ file_size → MatchOption result
        (bytes_at file (places_of slices.now) ≡ Err (IoError UnexpectedEof))
        (λ _. IsOk (bytes_at file (places_of slices.now))) }
    ensures size { IfSome result (λ size. size ≡ min (length (places_of slices.now)) (2 ^ 64 - 1)) }
{
    let mut size = 0usize;
    for slice in slices {
        if !is_within(file_size, *slice) {
            return None;
        }
        size = size.saturating_add(slice.size);
    }
    Some(size)
}

/// Returns the number of bytes of slices that lie within a file of `file_size` bytes; `None` where
/// one doesn't, or where they have more bytes than the file, and so lie over one another.
pub(crate) fn size_apart(file_size: u64, slices: &[SourceSlice]) -> Option<usize>
    ensures within { IfSome result (λ _. (file : List ℕ) → length file ≡ file_size
        → IsOk (bytes_at file (places_of slices.now))) }
    ensures size { IfSome result (λ size. size ≡ length (places_of slices.now)) }
{
    match size_within(file_size, slices) {
        Some(size) if size < usize::MAX && size as u64 <= file_size => Some(size),
        _ => None,
    }
}
