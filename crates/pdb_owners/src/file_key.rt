//! Keys that tell the files of addresses apart, without their names.

ghost use Rattle.std.specs.Prelude.{◌≡◌, Some, refl};
ghost use Rattle.std.specs.Cmp.{eq_by_cmp_equiv, partial_equiv_from_equiv};
ghost use Rattle.std.specs.Cmp.{partial_order_from_total};
ghost use Rattle.pdb_owners.specs.Answers.{is_same};
ghost use Rattle.pdb_owners.specs.FileKeyOrder.{file_key_cmp, file_key_exact};
ghost use Rattle.pdb_owners.specs.FileKeyOrder.{file_key_total, file_numbers};

use crate::countable::Countable;
use std::cmp::Ordering;

/// A key that tells the files of addresses apart, without their names. Several keys may stand for
/// the same file: the string table may hold a name more than once, and the end of a name is a name.
#[derive(Clone, Copy, Debug)]
pub enum FileKey {
    /// There is a function whose frames can't be read.
    Unreadable,
    /// There are frames, and no row, or the row's file has no entry among its module's checksums
    /// (`DEBUG_S_FILECHKSMS`): the file isn't known.
    NoFile,
    /// A file by the offset of its name in the string table (`/names`), in bytes.
    Name(u32),
}

impl FileKey {
    /// Returns the numbers by which the key is compared.
    fn numbers(&self) -> (u8, u32)
        ensures { result ≡ file_numbers self.now }
    {
        match self {
            FileKey::Unreadable => (0, 0),
            FileKey::NoFile => (1, 0),
            FileKey::Name(offset) => (2, *offset),
        }
    }
}

/// Two keys are equal where all their numbers are.
impl PartialEq for FileKey {
    ghost eq = { is_same file_key_cmp };

    ghost laws = { partial_equiv_from_equiv (eq_by_cmp_equiv file_key_total) };

    fn eq(&self, other: &FileKey) -> bool {
        self.cmp(other).is_eq()
    }
}

impl Eq for FileKey {
    ghost laws = { eq_by_cmp_equiv file_key_total };
}

/// By kind, and files by the offsets of their names.
impl PartialOrd for FileKey {
    ghost partial_cmp = { λ a b. Some (file_key_cmp a b) };

    ghost laws = { partial_order_from_total file_key_total };

    fn partial_cmp(&self, other: &FileKey) -> Option<Ordering> {
        Some(self.cmp(other))
    }
}

/// By kind, and files by the offsets of their names.
impl Ord for FileKey {
    ghost cmp = { file_key_cmp };

    ghost total = { file_key_total };

    ghost matches_partial_cmp = { λ a b. refl };

    ghost matches_eq = { λ a b. refl };

    fn cmp(&self, other: &FileKey) -> Ordering {
        let (kind, offset) = self.numbers();
        let (other_kind, other_offset) = other.numbers();
        kind.cmp(&other_kind).then(offset.cmp(&other_offset))
    }
}

/// Two keys that compare as equal are one.
impl Countable for FileKey {
    ghost exact = { file_key_exact };
}
