//! How answers are named when bytes are counted by names.

ghost use Rattle.std.specs.Prelude.{◌≡◌, ℕ, ◌+◌, ◌^◌, ◌<◌, Bool, false, List, OnOk};
ghost use Rattle.pdb_owners.specs.Table.{sum_of};
ghost use Rattle.pdb_listings.specs.Sizes.{AddsTo};

use crate::by_name::{file_name, function_name};
use crate::named::Named;
use crate::sizes::add_bytes;
use pdb_owners::{Countable, CountedFile, Counts, Function};
use std::alloc::{AllocError, Global};

/// How answers are named when bytes are counted by names.
pub(crate) trait Naming {
    /// The answer.
    type Answer: Countable;

    // whether no clause states the names of answers
    ghost unsaid: { Self → Bool };

    // the name of an answer
    ghost name: { Self → Self.Answer → List ℕ };

    /// Adds bytes to the name of an answer.
    ///
    /// # Errors
    /// `AllocError` when memory runs out.
    fn add(
        &self,
        alloc: Global,
        table: &mut Counts<Named>,
        answer: &Self::Answer,
        bytes: u64,
    ) -> Result<(), AllocError>
        requires room { sum_of table.old + bytes < 2 ^ 64 }
        ensures each { unsaid self.now ≡ false → OnOk result (AddsTo (name self.now answer.now)
            bytes table.old table.new) }
        ensures total { OnOk result (sum_of table.new ≡ sum_of table.old + bytes) };
}

/// Functions are named by their stored names, or by undecorated ones, which no clause states.
#[derive(Drop)]
pub(crate) struct FunctionNaming {
    pub(crate) undecorate: bool,
}

impl Naming for FunctionNaming {
    ghost use Rattle.pdb_listings.specs.NamedSizes.{stored_name};

    type Answer = Function;

    ghost unsaid = { λ naming. naming.undecorate };

    ghost name = { λ naming. stored_name };

    fn add(
        &self,
        alloc: Global,
        table: &mut Counts<Named>,
        answer: &Function,
        bytes: u64,
    ) -> Result<(), AllocError> {
        let name = function_name(alloc, answer, self.undecorate)?;
        add_bytes(alloc, table, name.as_str(), bytes)
    }
}

/// Source files are named by their paths, or by their folders.
#[derive(Drop)]
pub(crate) struct FileNaming {
    pub(crate) by_folder: bool,
}

impl Naming for FileNaming {
    ghost use Rattle.pdb_listings.specs.Sizes.{path_name};

    type Answer = CountedFile;

    ghost unsaid = { λ naming. false };

    ghost name = { λ naming. path_name naming.by_folder };

    fn add(
        &self,
        alloc: Global,
        table: &mut Counts<Named>,
        answer: &CountedFile,
        bytes: u64,
    ) -> Result<(), AllocError> {
        add_bytes(alloc, table, file_name(answer, self.by_folder), bytes)
    }
}
