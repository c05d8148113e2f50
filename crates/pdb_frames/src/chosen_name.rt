//! The name of a chosen function.

ghost use Rattle.std.specs.Prelude.{◌≡◌, IfOk, option_map};
ghost use Rattle.pdb_container.specs.RawString.{raw_bytes};
ghost use Rattle.pdb_frames.specs.ChosenNames.{public_name as public_name_of};
ghost use Rattle.pdb_frames.specs.NamesSeen.{NamesChosen, NamesProcedure};
ghost use Rattle.pdb_names.specs.Printing.{env_of};

use crate::choice::Chosen;
use crate::parts::{ContextParts, is_decorated};
use pdb_container::RawString;
use pdb_module_data::Procedure;
use pdb_names::{Namer, if_named, shared_raw_name};
use pdb_resolving::ModuleProvider;
use std::alloc::{AllocError, Global};
use std::sync::ArcStr;

/// The decorated public name that a procedure has in place of its own: at its start, where it has
/// no type and no decorated name of its own.
fn public_name<'a>(parts: &ContextParts<'a, '_>, procedure: &Procedure<'_>) -> Option<RawString<'a>>
    ensures { option_map raw_bytes result ≡ public_name_of parts.now procedure.now }
{
    if procedure.type_index.0 == 0 && !is_decorated(procedure.name.as_bytes()) {
        parts.decorated_at(procedure.offset)
    } else {
        None
    }
}

/// A procedure's name in the module with that index: the decorated public name in place of its own,
/// or the name by its type.
fn procedure_name<'a, P: ModuleProvider>(
    alloc: Global,
    parts: &ContextParts<'_, '_>,
    namer: &mut Namer<'a, '_, P>,
    module_index: u16,
    number: usize,
    procedure: &Procedure<'a>,
) -> Result<Option<ArcStr>, AllocError>
    ensures same { namer.new ≡ namer.old }
    ensures name { IfOk result (NamesProcedure parts.now (env_of P.provided namer.old module_index)
        procedure.now) }
{
    match public_name(parts, procedure) {
        Some(name) => {
            let name = shared_raw_name(alloc, &name)?;
            Ok(Some(name))
        }
        None => namer.typed_name(alloc, module_index, number, procedure),
    }
}

/// The name of a chosen function in the module with that index.
///
/// # Errors
/// `AllocError` when memory runs out.
pub fn name_of<'a, P: ModuleProvider>(
    alloc: Global,
    parts: &ContextParts<'_, '_>,
    namer: &mut Namer<'a, '_, P>,
    module_index: u16,
    chosen: Chosen<'_, 'a>,
) -> Result<Option<ArcStr>, AllocError>
    ensures same { namer.new ≡ namer.old }
    ensures name { IfOk result (NamesChosen parts.now (env_of P.provided namer.old module_index)
        chosen.entry) }
{
    match chosen {
        Chosen::Procedure(number, procedure) => procedure_name(
            alloc,
            parts,
            namer,
            module_index,
            number,
            procedure,
        ),
        Chosen::Public(_, name) => if_named(alloc, &name),
    }
}
