//! A trait for answers at places, run by run.

ghost use Rattle.std.specs.Prelude.{◌≡◌, ℕ, ◌+◌, ◌-◌, ◌^◌, ◌≤◌, min, IfOk, OnOk};
ghost use Rattle.pdb_owners.specs.Databases.{IsKeyAt, IsOneRun, Keyed, place_of};

use crate::countable::Countable;
use pdb_addresses::PdbInternalSectionOffset;
use std::alloc::{AllocError, Global};

/// A value that answers places run by run, and counts how often it was asked. A run has a key in
/// place of its answer, so that a long answer isn't made, copied or compared for each run.
pub trait Runs {
    /// The key that tells answers apart: a key stands for one answer, or for none. Several keys may
    /// stand for the same answer.
    type Key: Countable;

    /// The answer.
    type Found: Countable;

    ghost keyed: { Self → Keyed Self.Key Self.Found };

    ghost lookups: { Self → ℕ };

    /// The number of times that an answer was made of a key.
    ghost answered: { Self → ℕ };

    /// Returns a key of the answer at a place, and the number of places from it on without a bound,
    /// `limit` at most.
    ///
    /// # Errors
    /// `AllocError` when memory runs out.
    fn run_at(
        &mut self,
        alloc: Global,
        place: PdbInternalSectionOffset,
        limit: u32,
    ) -> Result<(Option<Self::Key>, u32), AllocError>
        requires some { 1 ≤ limit }
        requires within { place.offset + limit ≤ 2 ^ 32 }
        ensures answer { IfOk result (λ r. IsKeyAt (keyed self.old) place r.0) }
        ensures count { IfOk result (λ r. IsOneRun (keyed self.old).places
            (place_of place) limit r.1) }
        ensures same { keyed self.new ≡ keyed self.old }
        ensures lookups { OnOk result (lookups self.new
            ≡ min (lookups self.old + 1) (2 ^ 64 - 1)) }
        ensures answered { OnOk result (answered self.new ≡ answered self.old) };

    /// Returns the answer that a key stands for, if there is one.
    ///
    /// # Errors
    /// `AllocError` when memory runs out.
    fn answer_of(
        &mut self,
        alloc: Global,
        key: &Self::Key,
    ) -> Result<Option<Self::Found>, AllocError>
        ensures answer { IfOk result (λ answer. answer ≡ (keyed self.old).answer_of key.now) }
        ensures same { keyed self.new ≡ keyed self.old }
        ensures lookups { OnOk result (lookups self.new ≡ lookups self.old) }
        ensures answered { OnOk result (answered self.new
            ≡ min (answered self.old + 1) (2 ^ 64 - 1)) };
}
