//! A source that fails at some views.

use pdb_container::{ReadView, Source, SourceSlice};
use std::alloc::Global;
use std::cell::Cell;
use std::io::{self, ErrorKind};

/// The kind of error with which a view fails.
#[derive(Clone, Copy)]
pub enum Refusal {
    Other,
    Memory,
}

/// The bytes of a file. Views are counted from 0, and views with some numbers fail.
#[derive(Drop)]
pub struct Failing<'c> {
    pub bytes: Vec<u8>,
    pub views: &'c Cell<u64>,
    pub fails: &'static [u64],
    pub refusal: Refusal,
    pub failures: u64,
}

impl<'c> Source for Failing<'c> {
    ghost bytes = { λ f. f.bytes.items };

    ghost failures = { λ f. f.failures };

    fn view(&mut self, alloc: Global, slices: &[SourceSlice]) -> io::Result<ReadView> {
        let number = self.views.get();
        self.views.set(number.saturating_add(1));
        if !self.fails.contains(&number) {
            return self.bytes.view(alloc, slices);
        }
        match self.refusal {
            Refusal::Memory => Err(ErrorKind::OutOfMemory.into()),
            Refusal::Other => {
                self.failures = self.failures.saturating_add(1);
                Err(ErrorKind::Other.into())
            }
        }
    }

    fn failures(&self) -> u64 {
        self.failures
    }
}
