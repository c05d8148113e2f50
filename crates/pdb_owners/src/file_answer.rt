//! The file of an address.

ghost use Rattle.std.specs.Prelude.{◌≡◌, Some, refl};
ghost use Rattle.std.specs.Cmp.{eq_by_cmp_equiv, partial_equiv_from_equiv};
ghost use Rattle.std.specs.Cmp.{partial_order_from_total};
ghost use Rattle.pdb_owners.specs.Answers.{is_same};
ghost use Rattle.pdb_owners.specs.FileAnswers.{FileAnswer as FileValue, file_cmp, file_seen};
ghost use Rattle.pdb_owners.specs.FileAnswers.{kind_of, name_of};
ghost use Rattle.pdb_owners.specs.FileLaws.{file_total, file_exact};

use crate::countable::Countable;
use std::cmp::Ordering;
use std::marker::Model;

/// The file of an address: the file of the outermost frame, which is the function's.
#[derive(Debug, Drop)]
pub enum FileAnswer {
    /// There is no function.
    Nothing,
    /// There is a function whose frames can't be read.
    Unreadable,
    /// There are frames, and the function's file isn't known.
    NoFile,
    /// The function's file.
    File(String),
}

impl FileAnswer {
    /// Returns the number of its kind, counted from 0 in the order above.
    fn kind(&self) -> u8
        ensures { result ≡ kind_of (file_seen self.now) }
    {
        match self {
            FileAnswer::Nothing => 0,
            FileAnswer::Unreadable => 1,
            FileAnswer::NoFile => 2,
            FileAnswer::File(_) => 3,
        }
    }

    /// Returns the file's text; an empty text where there is no file.
    fn name(&self) -> &str
        ensures { result.now ≡ name_of (file_seen self.now) }
    {
        match self {
            FileAnswer::File(name) => name.as_str(),
            _ => "",
        }
    }
}

/// The file of an address, as it is counted.
#[derive(Debug, Drop)]
pub struct CountedFile {
    /// The file, or the reason that there is none.
    pub answer: FileAnswer,
}

impl Model for CountedFile {
    ghost use Rattle.pdb_owners.specs.FileAnswers as files;

    ghost Value = { files.FileAnswer };

    ghost view = { λ f. files.file_seen f.answer };
}

/// Two files are equal where their kinds and their texts are.
impl PartialEq for CountedFile {
    ghost eq = { is_same file_cmp };

    ghost laws = { partial_equiv_from_equiv (eq_by_cmp_equiv file_total) };

    fn eq(&self, other: &CountedFile) -> bool {
        self.cmp(other).is_eq()
    }
}

impl Eq for CountedFile {
    ghost laws = { eq_by_cmp_equiv file_total };
}

/// By kind, and files by the bytes of their texts.
impl PartialOrd for CountedFile {
    ghost partial_cmp = { λ a b. Some (file_cmp a b) };

    ghost laws = { partial_order_from_total file_total };

    fn partial_cmp(&self, other: &CountedFile) -> Option<Ordering> {
        Some(self.cmp(other))
    }
}

/// By kind, and files by the bytes of their texts.
impl Ord for CountedFile {
    ghost cmp = { file_cmp };

    ghost total = { file_total };

    ghost matches_partial_cmp = { λ a b. refl };

    ghost matches_eq = { λ a b. refl };

    fn cmp(&self, other: &CountedFile) -> Ordering {
        self.answer
            .kind()
            .cmp(&other.answer.kind())
            .then(self.answer.name().cmp(other.answer.name()))
    }
}

/// Two files that compare as equal are one.
impl Countable for CountedFile {
    ghost exact = { file_exact };
}
