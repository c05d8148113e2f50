//! The parts of one kind that stand as failed.

ghost use Rattle.std.specs.Prelude.{◌≡◌, [], OnErr, OnOk};
ghost use Rattle.pdb_resolving.specs.Failed.{stands as stands_among, with_part};

use std::alloc::{AllocError, Global};
use std::collections::BTreeSet;
use std::marker::Model;

/// The parts of one kind that could not be read, each by a number that it alone has.
#[derive(Drop)]
pub struct FailedParts {
    numbers: BTreeSet<u64>,
}

impl Model for FailedParts {
    ghost use Rattle.std.specs.Prelude.{List, ℕ};

    ghost Value = { List ℕ };

    ghost view = { λ f. f.numbers.keys };
}

impl FailedParts {
    /// No failed parts yet.
    pub fn new(alloc: Global) -> FailedParts
        ensures { result ≡ [] }
    {
        FailedParts {
            numbers: BTreeSet::new(alloc),
        }
    }

    /// Whether the part with that number stands as failed.
    pub fn stands(&self, number: u64) -> bool
        ensures { result ≡ stands_among self.now number }
    {
        self.numbers.contains(&number)
    }

    /// Stores the part with that number as failed. Nothing changes when memory runs out.
    ///
    /// # Errors
    /// `AllocError` when memory runs out.
    pub fn keep_number(&mut self, number: u64) -> Result<(), AllocError>
        ensures kept { OnOk result (self.new ≡ with_part self.old number) }
        ensures same { OnErr result (self.new ≡ self.old) }
    {
        self.numbers.insert(number)?;
        Ok(())
    }
}
