//! Runs of addresses, while the progress of the work is shown.

use crate::progress::Progress;
use pdb_symbol_files::{ToldFault, ToldRun, ToldRuns};
use std::alloc::Global;
use std::io::Write;

/// A value that tells of addresses what another one does, and shows the progress of the work.
#[derive(Drop)]
pub struct Shown<R, E> {
    /// The value that tells of addresses.
    pub told: R,
    /// The progress of the work.
    pub progress: Progress<E>,
}

impl<R: ToldRuns, E: Write + Drop> ToldRuns for Shown<R, E> {
    ghost known = { λ t. R.known t.told };

    ghost told = { λ t. R.told t.told };

    ghost file = { λ t. R.file t.told };

    ghost begins = { λ t. R.begins t.told };

    ghost lookups = { λ t. R.lookups t.told };

    fn prepare(&mut self, addresses: u64) {
        self.told.prepare(addresses);
        self.progress.begin(addresses);
    }

    fn told_run(&mut self, alloc: Global, address: u32, end: u32) -> Result<ToldRun, ToldFault> {
        let run = self.told.told_run(alloc, address, end)?;
        self.progress.advance(run.count);
        Ok(run)
    }
}
