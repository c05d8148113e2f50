//! Names one after another, each with a NUL at its end.

ghost use Rattle.std.specs.Prelude.{◌≡◌, ◌<◌, ◌≤◌, ◌^◌, length, Ok};
ghost use Rattle.std.specs.List.{find, AllWithin};
ghost use Rattle.std.specs.List.Sorted.{IsNonDecreasingBy};
ghost use Rattle.pdb_container.specs.Fault.{Gives, Parses};
ghost use Rattle.pdb_container.specs.StringTable.{name_in};
ghost use Rattle.pdb_container.specs.RawString.{raw_bytes};
ghost use Rattle.pdb_symbols_modules.specs.NameBlock.{nul_places as nul_places_of, is_reached};

use pdb_container::{Error, RawString, Result};
use std::alloc::Global;
use std::marker::Model;

/// A block of names with the places of its NULs, so that a name's end is found without a walk over
/// it.
#[derive(Debug, Drop)]
pub(crate) struct NameBlock<'n> {
    bytes: &'n [u8],
    ends: Vec<u32>,
}

impl<'n> Model for NameBlock<'n> {
    ghost use Rattle.std.specs.Prelude.{◌≡◌, ℕ, List};
    ghost use Rattle.pdb_symbols_modules.specs.NameBlock.{nul_places as nul_places_of};

    ghost Value = { List ℕ };

    ghost view = { λ b. b.bytes.now };

    ghost invariant = { λ b. b.ends.items ≡ nul_places_of 0 b.bytes.now };
}

impl<'n> NameBlock<'n> {
    /// The names in these bytes. `OutOfMemory`, and no other.
    pub(crate) fn new(alloc: Global, bytes: &'n [u8]) -> Result<NameBlock<'n>>
        requires { length bytes.now < 2 ^ 32 }
        ensures { Gives (λ b. b) ⊥ result (Ok bytes.now) }
    {
        let ends = nul_places(alloc, bytes)?;
        Ok(NameBlock { bytes, ends })
    }

    /// The name at an offset. `UnexpectedEof` outside the block, and where no NUL in it ends the
    /// name.
    #[tactic(auto, using(crate::proofs::NulPlaces::name_missing, crate::proofs::NulPlaces::name_found, crate::proofs::NulPlaces::found_bounds))]
    pub(crate) fn name_at(&self, offset: u32) -> Result<RawString<'n>>
        ensures { Parses raw_bytes result (name_in self.now offset) }
    {
        match next_place(self.ends.as_slice(), offset) {
            None => Err(Error::UnexpectedEof),
            Some(end) => Ok(RawString::from(&self.bytes[offset as usize..end as usize])),
        }
    }
}

/// The places of the NULs among bytes, ascending. `OutOfMemory`, and no other.
#[tactic(auto, using(crate::proofs::NulPlaces::places_more, crate::proofs::NulPlaces::places_pass, crate::proofs::NulPlaces::places_done))]
fn nul_places(alloc: Global, bytes: &[u8]) -> Result<Vec<u32>>
    requires { length bytes.now < 2 ^ 32 }
    ensures { Gives (λ v. v.items) ⊥ result (Ok (nul_places_of 0 bytes.now)) }
{
    let mut places = Vec::new(alloc);
    for (place, byte) in bytes.iter().enumerate() {
        if *byte != 0 {
            continue;
        }
        places.push(place as u32)?;
    }
    Ok(places)
}

/// The first of ascending places that isn't below an offset. It is a binary search.
#[tactic(auto, using(crate::proofs::NulPlaces::none_reached, crate::proofs::NulPlaces::first_reached))]
fn next_place(places: &[u32], offset: u32) -> Option<u32>
    requires { IsNonDecreasingBy (λ place. place) places.now }
    ensures { result ≡ find (is_reached offset) places.now }
{
    let first = before(places, offset);
    if first == places.len() {
        return None;
    }
    Some(places[first])
}

/// The number of ascending places below an offset.
fn before(places: &[u32], offset: u32) -> usize
    requires { IsNonDecreasingBy (λ place. place) places.now }
    ensures bound { result ≤ length places.now }
    ensures low { AllWithin (λ place. place < offset) places.now 0 result }
    ensures high { AllWithin (λ place. offset ≤ place) places.now result (length places.now) }
{
    places.partition_point(|place| *place < offset)
}
