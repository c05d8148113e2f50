//! Texts from a formatter that stays as it is.

ghost use Rattle.std.specs.Prelude.{◌≡◌, string_bytes};
ghost use Rattle.pdb_resolving.specs.Fault.{Answers};
ghost use Rattle.pdb_type_printing.specs.Printing.{env_of};
ghost use Rattle.pdb_names.specs.Calls.{AnswersSignature};
ghost use Rattle.pdb_names.specs.Ids.{id_text};

use crate::formatter::TypeFormatter;
use pdb_container::{IdIndex, TypeIndex};
use pdb_resolving::{ModuleProvider, Result};
use pdb_type_printing::Asker;
use std::alloc::Global;

/// The signature that [`TypeFormatter::format_function`] returns. No table of a module is stored as
/// failed.
///
/// # Errors
/// The errors of [`TypeFormatter::format_function`].
#[tactic(auto, using(pdb_resolving::proofs::Ending::ends_fails))]
pub fn function_text_of<P: ModuleProvider>(
    formatter: &mut TypeFormatter<'_, '_, P>,
    alloc: Global,
    name: &str,
    module_index: usize,
    function_type_index: TypeIndex,
) -> Result<String>
    ensures same { formatter.new ≡ formatter.old }
    ensures text { AnswersSignature P.provided formatter.old module_index name.now
        function_type_index result }
{
    let asker = Asker {
        alloc,
        module_index,
    };
    Ok(
        formatter
            .printer
            .function_text(asker, name, function_type_index)?,
    )
}

/// The text that [`TypeFormatter::format_id`] returns. No table of a module is stored as failed.
///
/// # Errors
/// The errors of [`TypeFormatter::format_id`].
#[tactic(auto, using(pdb_resolving::proofs::Ending::ends_fails))]
pub fn id_text_of<P: ModuleProvider>(
    formatter: &mut TypeFormatter<'_, '_, P>,
    alloc: Global,
    module_index: usize,
    id_index: IdIndex,
) -> Result<String>
    ensures same { formatter.new ≡ formatter.old }
    ensures text { Answers string_bytes result
        (id_text (env_of P.provided formatter.old module_index) id_index.0) }
{
    let asker = Asker {
        alloc,
        module_index,
    };
    Ok(formatter.printer.id_text(asker, id_index)?)
}
