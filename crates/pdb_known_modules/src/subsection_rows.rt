//! Line rows of subsections (`DEBUG_S_LINES`), once they were read. Functions that share a
//! subsection share its rows.

ghost use Rattle.std.specs.Prelude.{IfOk, IfSome};
ghost use Rattle.std.specs.Box.{box_value};
ghost use Rattle.pdb_symbols_modules.specs.ModuleStream.{ModuleStream};
ghost use Rattle.pdb_known_modules.specs.SubsectionRows.{AreRowsOf, AreRowsOfStream};

use crate::slots::{empty_all, empty_slots, slot_at};
use pdb_module_data::FunctionRows;
use std::alloc::{AllocError, Global};

/// Line rows, each at the number of its subsection, counted from 1 in the order of section and
/// offset. The rows at 0 are those of functions without a subsection: none.
#[derive(Drop)]
pub struct SubsectionRows {
    slots: Vec<Option<Box<FunctionRows>>>,
}

impl SubsectionRows {
    /// No rows, and no slot for any.
    #[tactic(auto, using(crate::proofs::KeptRows::no_slots))]
    pub fn new(alloc: Global) -> SubsectionRows
        ensures { (stream : ModuleStream) → AreRowsOfStream stream result.slots.items }
    {
        SubsectionRows {
            slots: Vec::new(alloc),
        }
    }

    /// Empty slots for the rows of so many subsections.
    #[tactic(auto, using(crate::proofs::KeptRows::nothing_kept))]
    pub fn with_slots(alloc: Global, count: usize) -> Result<SubsectionRows, AllocError>
        ensures { IfOk result (λ kept. (stream : ModuleStream)
            → AreRowsOfStream stream kept.slots.items) }
    {
        let slots = empty_slots(alloc, count.saturating_add(1))?;
        Ok(SubsectionRows { slots })
    }

    /// Forgets all rows.
    #[tactic(auto, using(crate::proofs::KeptRows::nothing_kept))]
    pub fn forget(&mut self)
        ensures { (stream : ModuleStream) → AreRowsOfStream stream (self.new).slots.items }
    {
        empty_all(&mut self.slots);
    }

    /// The rows of the subsection of that number, if they are cached.
    pub fn get(&self, number: usize) -> Option<&FunctionRows>
        ensures { (stream : ModuleStream) → AreRowsOfStream stream (self.now).slots.items
            → IfSome result (λ rows. AreRowsOf stream number rows.now) }
    {
        match slot_at(&self.slots, number) {
            Some(Some(rows)) => Some(rows.as_ref()),
            _ => None,
        }
    }

    /// Caches the rows of the subsection of that number.
    #[tactic(auto, using(crate::proofs::KeptRows::kept_now))]
    pub fn keep_subsection(&mut self, number: usize, rows: Box<FunctionRows>)
        ensures { (stream : ModuleStream) → AreRowsOf stream number (box_value rows)
            → AreRowsOfStream stream (self.old).slots.items
            → AreRowsOfStream stream (self.new).slots.items }
    {
        if number < self.slots.len() {
            self.slots[number] = Some(rows);
        }
    }
}
