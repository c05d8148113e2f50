//! Names by which functions and source files are counted.

ghost use Rattle.std.specs.Prelude.{◌≡◌, false, IfOk, string_bytes};
ghost use Rattle.pdb_owners.specs.FileAnswers.{FileAnswer as FileValue};
ghost use Rattle.pdb_owners.specs.Texts.{text_or};
ghost use Rattle.pdb_listings.specs.Sizes.{path_name};

use crate::names::listed_name;
use crate::sizes::folder_of;
use pdb_owners::{CountedFile, FileAnswer, Function};
use std::alloc::{AllocError, Global};

/// The name of a function as it is counted; `??` where it has none.
///
/// # Errors
/// `AllocError` when memory runs out.
pub fn function_name(
    alloc: Global,
    function: &Function,
    undecorate: bool,
) -> Result<String, AllocError>
    ensures { undecorate ≡ false → IfOk result (λ text. string_bytes text
        ≡ text_or function.now.name) }
{
    match &function.name {
        None => String::from_str(alloc, "??"),
        Some(name) => listed_name(alloc, name.as_str(), undecorate),
    }
}

/// The name that a source file is counted by: its path, or its folder.
pub fn file_name(file: &CountedFile, by_folder: bool) -> &str
    ensures { result.now ≡ path_name by_folder file.now }
{
    match &file.answer {
        FileAnswer::File(name) if by_folder => folder_of(name.as_str()),
        FileAnswer::File(name) => name.as_str(),
        FileAnswer::Unreadable => "(unreadable)",
        FileAnswer::NoFile | FileAnswer::Nothing => "(no file)",
    }
}
