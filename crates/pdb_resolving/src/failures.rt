//! The parts of modules that could not be read when they were asked for: they stand as failed.

ghost use Rattle.std.specs.Prelude.{◌≡◌, OnErr, OnOk};
ghost use Rattle.pdb_resolving.specs.Failures.{has_failed, no_failures, number_of as number_at};
ghost use Rattle.pdb_resolving.specs.Failures.{with_failed};

use crate::failed_parts::FailedParts;
use pdb_addresses::PdbInternalSectionOffset;
use std::alloc::{AllocError, Global};
use std::marker::Model;

/// A part of the module with that index from which frames are made.
#[derive(Clone, Copy)]
pub enum Part {
    /// Its line program and inlinees.
    ExtendedModule(u16),
    /// The line rows of the function that begins at a place.
    ProcedureLines(u16, PdbInternalSectionOffset),
    /// The inline sites of the procedure that begins at a place.
    ProcedureInlineRanges(u16, PdbInternalSectionOffset),
}

/// The parts of modules that stand as failed.
#[derive(Drop)]
pub struct Failures {
    modules: FailedParts,
    lines: FailedParts,
    inline_ranges: FailedParts,
}

impl Model for Failures {
    ghost use Rattle.pdb_resolving.specs.Failures as failures;

    ghost Value = { failures.Failures };

    ghost view = { λ f. record {
      modules = f.modules;
      lines = f.lines;
      inline_ranges = f.inline_ranges;
    } };
}

/// The number of a place in a module, which no other place and no place in another module has.
pub fn number_of(module_index: u16, place: PdbInternalSectionOffset) -> u64
    ensures { result ≡ number_at module_index place }
{
    let section = u64::from(module_index) * 0x1_0000 + u64::from(place.section);
    section * 0x1_0000_0000 + u64::from(place.offset)
}

impl Failures {
    /// The value in which nothing stands as failed.
    pub fn new(alloc: Global) -> Failures
        ensures { result ≡ no_failures }
    {
        Failures {
            modules: FailedParts::new(alloc),
            lines: FailedParts::new(alloc),
            inline_ranges: FailedParts::new(alloc),
        }
    }

    /// Whether a part stands as failed.
    pub fn has(&self, part: Part) -> bool
        ensures { result ≡ has_failed self.now part }
    {
        match part {
            Part::ExtendedModule(number) => self.modules.stands(u64::from(number)),
            Part::ProcedureLines(number, start) => self.lines.stands(number_of(number, start)),
            Part::ProcedureInlineRanges(number, start) => {
                self.inline_ranges.stands(number_of(number, start))
            }
        }
    }

    /// Stores a part as failed. Nothing changes when memory runs out.
    ///
    /// # Errors
    /// `AllocError` when memory runs out.
    pub fn keep(&mut self, part: Part) -> Result<(), AllocError>
        ensures kept { OnOk result (self.new ≡ with_failed self.old part) }
        ensures same { OnErr result (self.new ≡ self.old) }
    {
        match part {
            Part::ExtendedModule(number) => self.modules.keep_number(u64::from(number)),
            Part::ProcedureLines(number, start) => self.lines.keep_number(number_of(number, start)),
            Part::ProcedureInlineRanges(number, start) => {
                self.inline_ranges.keep_number(number_of(number, start))
            }
        }
    }
}
