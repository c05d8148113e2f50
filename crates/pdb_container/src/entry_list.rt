//! Entries, one after the other.

ghost use Rattle.pdb_container.specs.Fault.{Gives};
ghost use Rattle.pdb_container.specs.Fields.{entries};

use crate::buffer::{FromBuffer, ParseBuffer};
use crate::error::Result;
use std::alloc::Global;

/// The entries that these bytes hold, one after the other, to their end. The room for them grows
/// with what is read.
///
/// # Errors
/// The fault of the first entry that has one; `OutOfMemory`.
#[tactic(auto, using(crate::proofs::Entries::entries_start, crate::proofs::Entries::entries_more, crate::proofs::Entries::entries_fail, crate::proofs::Entries::entries_end, crate::proofs::Entries::entries_done))]
pub fn parse_entries<T: FromBuffer + Drop>(alloc: Global, bytes: &[u8]) -> Result<Vec<T>>
    ensures { Gives (λ v. v.items) ⊥ result (entries T.read bytes.now) }
{
    let mut buffer = ParseBuffer::from(bytes);
    let mut read = Vec::new(alloc);
    for _ in 0..bytes.len() {
        if buffer.is_empty() {
            break;
        }
        read.push(buffer.parse::<T>()?)?;
    }
    Ok(read)
}
