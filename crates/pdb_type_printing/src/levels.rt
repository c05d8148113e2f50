//! Further levels on a path.

ghost use Rattle.std.specs.Prelude.{◌≡◌, ◌++◌, [], ◌∷◌, length, IfOk, IfErr};
ghost use Rattle.std.specs.Borrow.{sem};
ghost use Rattle.pdb_type_printing.specs.Levels.{IsBlocked, LendsPath, RestsIfRefused};

use crate::index_path::IndexPath;
use crate::path::{Seen, enter};
use pdb_resolving::Result;

impl<'a> Seen<'a> {
    /// A further level on the same path, at which nothing is inserted yet.
    pub fn new_level(&mut self) -> Seen<'_>
        ensures* writes_back { sem 𝓛 (LendsPath self.entry result) }
        ensures path { result.path.now.items ≡ self.old.path.now.items }
        ensures level { result.level ≡ length self.old.path.now.items }
    {
        Seen::new(&mut *self.path)
    }

    /// A level of one index on a path.
    ///
    /// # Errors
    /// Those of [`Seen::insert`], and then no level is begun.
    pub fn insert_one(path: &'a mut IndexPath, index: u32) -> Result<Seen<'a>>
        ensures* refused { sem 𝓛 (RestsIfRefused path.entry result) }
        ensures same_reference { IfOk result (λ s. s.path.ghost_name ≡ path.entry.ghost_name) }
        ensures path { IfOk result (λ s. s.path.now.items ≡ path.old.items ++ index ∷ []) }
        ensures level { IfOk result (λ s. s.level ≡ length path.old.items) }
        ensures blocked { IfErr result (λ e. IsBlocked e path.old.items index) }
    {
        let level = path.len();
        match enter(path, index) {
            Ok(()) => Ok(Seen { path, level }),
            Err(error) => Err(error),
        }
    }
}
