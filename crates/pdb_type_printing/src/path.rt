//! Levels of indices on a path.

ghost use Rattle.std.specs.Prelude.{◌≡◌, length, take};
ghost use Rattle.pdb_type_printing.specs.Paths.{Enters};

use crate::index_path::IndexPath;
use pdb_resolving::{Error, Result};

/// An index that is on the path already, or that a full path can't take.
#[derive(Clone, Copy, Debug, PartialEq, Eq)]
pub struct AlreadySeenError(pub u32);

/// `CircularTypeDefinition` of that index.
impl From<AlreadySeenError> for Error {
    ghost use Rattle.pdb_resolving.specs.declared.error.Error.TheVariants.{CircularTypeDefinition};

    ghost from_gives = { λ seen e. e ≡ CircularTypeDefinition seen.0 };

    fn from(seen: AlreadySeenError) -> Error {
        Error::CircularTypeDefinition(seen.0)
    }
}

/// Puts an index on a path.
///
/// # Errors
/// Those of [`Seen::insert`].
pub(crate) fn enter(path: &mut IndexPath, index: u32) -> Result<()>
    ensures { Enters result path.old.items path.new.items index }
{
    if !path.may_enter(index) {
        return Err(Error::from(AlreadySeenError(index)));
    }
    path.push(index)?;
    Ok(())
}

/// A level of indices on a path: the indices inserted at this level are taken back when the level
/// is dropped.
pub struct Seen<'a> {
    /// The path, with the indices of all levels.
    pub path: &'a mut IndexPath,
    /// The number of indices that the path had when the level began.
    pub level: usize,
}

impl<'a> Seen<'a> {
    /// A level at which nothing is inserted yet.
    pub fn new(path: &'a mut IndexPath) -> Seen<'a>
        ensures same_reference { result.path.ghost_name ≡ path.entry.ghost_name }
        ensures path { result.path.now.items ≡ path.old.items }
        ensures level { result.level ≡ length path.old.items }
    {
        let level = path.len();
        Seen { path, level }
    }

    /// Puts an index on the path.
    ///
    /// # Errors
    /// `CircularTypeDefinition` where it is on the path already, and where the path has 1,024
    /// indices; `OutOfMemory`. The path stays as it was.
    pub fn insert(&mut self, index: u32) -> Result<()>
        ensures same_reference { self.new.path.ghost_name ≡ self.old.path.ghost_name }
        ensures level { self.new.level ≡ self.old.level }
        ensures entered { Enters result self.old.path.now.items self.new.path.now.items index }
    {
        enter(self.path, index)
    }
}

impl Drop for Seen<'_> {
    fn drop(self)
        ensures { self.exit.0.now.items ≡ take self.entry.level self.entry.path.now.items }
    {
        let Seen { path, level } = self;
        path.truncate(level);
    }
}
