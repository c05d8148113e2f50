//! The names of source files.

ghost use Rattle.std.specs.Prelude.{◌≡◌, IfOk, option_map};
ghost use Rattle.std.specs.Cow.{cow_str_bytes};
ghost use Rattle.pdb_module_data.specs.FunctionLine.{file_text};

use crate::file_names::FileNames;
use pdb_container::FileIndex;
use pdb_lines::LineProgram;
use std::alloc::{AllocError, Global};
use std::borrow::CowStr;

/// The name of a source file of a line program as text: that of its entry in `DEBUG_S_FILECHKSMS`,
/// in the string table (`/names`). `None` where there is no string table, no such entry, or no such
/// name.
///
/// # Errors
/// `AllocError` when memory runs out.
#[tactic(auto, using(crate::proofs::KnownNames::no_entry, crate::proofs::KnownNames::entry_named))]
pub fn file_name<'t>(
    alloc: Global,
    line_program: &LineProgram<'_>,
    names: &FileNames<'t, '_>,
    index: FileIndex,
) -> Result<Option<CowStr<'t>>, AllocError>
    ensures { IfOk result
        (λ name. option_map cow_str_bytes name ≡ file_text line_program.now names.now index.0) }
{
    match line_program.get_file_info(index) {
        Err(_) => Ok(None),
        Ok(file) => names.text(alloc, file.name),
    }
}
