//! The addresses of a file that is in memory, with what is told of them.

ghost use Rattle.pdb_addr2line.specs.Answer.{AnswersWith, answered_in};
ghost use Rattle.pdb_symbols_modules.specs.Streams.{streams};

use crate::told_places::told_at_place;
use pdb_addr2line::{FileContext, Symbolizer};
use pdb_addresses::Rva;
use pdb_symbol_files::{ToldFault, ToldRun, ToldRuns};
use std::alloc::Global;

/// A value that tells of the addresses of a file that is in memory, from a context over it.
#[derive(Drop)]
pub struct MemoryTold<'a> {
    /// The file.
    pub symbolizer: &'a Symbolizer,
    /// A context over the file.
    pub context: FileContext<'a>,
    /// Whether inlined calls are told.
    pub inlines: bool,
    ghost answers: { AnswersWith symbolizer.now.order answered_in (streams symbolizer.now.bytes)
        context },
}

impl<'a> ToldRuns for MemoryTold<'a> {
    ghost use Rattle.pdb_symbols.specs.Lookups.{begins_named};
    ghost use Rattle.pdb_symbols.specs.Told.{told_named};
    ghost use Rattle.pdb_symbols_modules.specs.Streams.{streams};

    ghost known = { λ t. Unit {0} };

    ghost told = { λ t. told_named t.inlines 23 t.symbolizer.now.order
        (streams t.symbolizer.now.bytes) };

    ghost file = { λ t. t.symbolizer.now.bytes };

    ghost begins = { λ t. begins_named 23 t.symbolizer.now.order
        (streams t.symbolizer.now.bytes) };

    ghost lookups = { λ t. t.context.lookups };

    fn told_run(&mut self, alloc: Global, address: u32, end: u32) -> Result<ToldRun, ToldFault> {
        let map = self.symbolizer.address_map();
        let (place, count) = map.place_run(Rva(address), Rva(end));
        let place = match place {
            None => return Ok(ToldRun { told: None, count }),
            Some(place) => place,
        };
        let inlines = self.inlines;
        // The context has a count of its own.
        let mut lookups = 0;
        match told_at_place(
            alloc,
            &mut self.context,
            &mut lookups,
            inlines,
            place,
            count,
        ) {
            Ok(run) => Ok(run),
            Err(_) => Err(ToldFault::OutOfMemory),
        }
    }
}
