//! The inlined functions of a module, by their ids.

ghost use Rattle.std.specs.Prelude.{◌≡◌, option_map};
ghost use Rattle.pdb_container.specs.Fault.{Gives};
ghost use Rattle.pdb_lines.specs.Inlinee.{inlined_function};
ghost use Rattle.pdb_module_data.specs.InlinedCalls.{inlinees_by_id, given_by};

use crate::memory::memory_of;
use pdb_container::{FallibleIterator, IdIndex, Result};
use pdb_lines::{Inlinee, InlineeIterator};
use std::alloc::Global;
use std::collections::BTreeMap;

/// The inlinees of a module (`DEBUG_S_INLINEELINES`) by their ids; of inlinees with one id the last
/// counts.
#[derive(Debug, Drop)]
pub struct Inlinees<'a> {
    by_id: BTreeMap<u32, Inlinee<'a>>,
}

impl<'a> Inlinees<'a> {
    /// The inlinees of a list, which is read to its end.
    ///
    /// # Errors
    /// `UnexpectedEof` where an entry can't be read; `OutOfMemory`.
    #[tactic(auto, using(crate::proofs::InlineeSteps::inlinees_start, crate::proofs::InlineeSteps::inlinees_more, crate::proofs::InlineeSteps::inlinees_end, crate::proofs::InlineeSteps::inlinees_fault))]
    pub fn read(alloc: Global, mut remaining: InlineeIterator<'a>) -> Result<Inlinees<'a>>
        ensures { Gives given_by ⊥ result (inlinees_by_id remaining.entry) }
    {
        let mut by_id = BTreeMap::new(alloc);
        while let Some(inlinee) = remaining.next()? {
            by_id.insert(inlinee.index().0, inlinee)?;
        }
        Ok(Inlinees { by_id })
    }

    /// The inlinee of an id, if there is one; of several the last.
    pub fn get(&self, id: IdIndex) -> Option<&Inlinee<'a>>
        ensures { option_map (λ i. inlined_function i.now) result ≡ given_by self.now id.0 }
    {
        self.by_id.get(&id.0)
    }

    /// The approximate number of bytes of memory that they take.
    pub fn memory_size(&self) -> u64 {
        memory_of(
            self.by_id.len(),
            2 * (size_of::<u32>() + size_of::<Inlinee<'_>>()),
        )
    }
}
