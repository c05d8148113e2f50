//! The names of functions.

ghost use Rattle.std.specs.Prelude.{◌≡◌, IfOk, option_map, string_bytes};
ghost use Rattle.std.specs.Cow.{cow_str_bytes};
ghost use Rattle.std.specs.Arc.{arc_str_bytes};
ghost use Rattle.std.specs.Str.Lossy.{utf8_lossy};
ghost use Rattle.pdb_container.specs.RawString.{raw_bytes};
ghost use Rattle.pdb_names.specs.InlineNames.{inline_text};
ghost use Rattle.pdb_names.specs.StoredNames.{IsText, Names, procedure_text};

use crate::formatter::TypeFormatter;
use crate::texts::{function_text_of, id_text_of};
use pdb_container::{IdIndex, RawString};
use pdb_module_data::Procedure;
use pdb_resolving::{Error, ModuleProvider, Result};
use std::alloc::{AllocError, Global};
use std::borrow::CowStr;
use std::sync::ArcStr;

/// A text, if it could be made. Running out of memory is never taken for a missing text.
fn if_text(made: Result<String>) -> std::result::Result<Option<String>, AllocError>
    ensures { IfOk result (λ t. IsText t made) }
{
    match made {
        Ok(text) => Ok(Some(text)),
        Err(Error::OutOfMemory) => Err(AllocError),
        Err(_) => Ok(None),
    }
}

/// A stored name as text: lent where its bytes are UTF-8, and copied otherwise.
fn raw_text<'n>(alloc: Global, name: &RawString<'n>) -> std::result::Result<CowStr<'n>, AllocError>
    ensures { IfOk result (λ t. cow_str_bytes t ≡ utf8_lossy (raw_bytes name.now)) }
{
    match name.to_string(alloc) {
        Ok(text) => Ok(text),
        Err(_) => Err(AllocError),
    }
}

/// The name of an inlined function by its id in the IPI, as the module at `module_index` names it;
/// `None` where the id has no text.
///
/// # Errors
/// `AllocError` when memory runs out.
pub fn inlinee_name<P: ModuleProvider>(
    alloc: Global,
    formatter: &mut TypeFormatter<'_, '_, P>,
    module_index: usize,
    inlinee: IdIndex,
) -> std::result::Result<Option<String>, AllocError>
    ensures same { formatter.new ≡ formatter.old }
    ensures name { Names string_bytes result
        (inline_text P.provided formatter.old module_index inlinee.0) }
{
    let made = id_text_of(formatter, alloc, module_index, inlinee);
    if_text(made)
}

/// The name of a procedure by its type; `None` where the type has no text.
///
/// # Errors
/// `AllocError` when memory runs out.
pub fn name_by_type<P: ModuleProvider>(
    alloc: Global,
    formatter: &mut TypeFormatter<'_, '_, P>,
    module_index: usize,
    procedure: &Procedure<'_>,
) -> std::result::Result<Option<String>, AllocError>
    ensures same { formatter.new ≡ formatter.old }
    ensures name { Names string_bytes result
        (procedure_text P.provided formatter.old module_index procedure.now) }
{
    let name = raw_text(alloc, &procedure.name)?;
    let made = function_text_of(
        formatter,
        alloc,
        name.as_str(),
        module_index,
        procedure.type_index,
    );
    if_text(made)
}

/// A shared copy of a name, if there is one. Bytes that are no UTF-8 are replaced.
///
/// # Errors
/// `AllocError` when memory runs out.
pub fn if_named(
    alloc: Global,
    name: &Option<RawString<'_>>,
) -> std::result::Result<Option<ArcStr>, AllocError>
    ensures { Names arc_str_bytes result (option_map (λ r. utf8_lossy (raw_bytes r)) name.now) }
{
    match name {
        None => Ok(None),
        Some(name) => {
            let name = shared_raw_name(alloc, name)?;
            Ok(Some(name))
        }
    }
}

/// A shared copy of a stored name. Bytes that are no UTF-8 are replaced.
///
/// # Errors
/// `AllocError` when memory runs out.
pub fn shared_raw_name(
    alloc: Global,
    name: &RawString<'_>,
) -> std::result::Result<ArcStr, AllocError>
    ensures { IfOk result (λ t. arc_str_bytes t ≡ utf8_lossy (raw_bytes name.now)) }
{
    let name = String::from_utf8_lossy(alloc, name.as_bytes())?;
    ArcStr::from_string(name)
}

/// A name that may be missing, copied to be shared: the copy takes no more room than it needs.
///
/// # Errors
/// `AllocError` when memory runs out.
pub fn shared_name(
    alloc: Global,
    name: &Option<String>,
) -> std::result::Result<Option<ArcStr>, AllocError>
    ensures { Names arc_str_bytes result (option_map string_bytes name.now) }
{
    match name {
        None => Ok(None),
        Some(name) => {
            let name = ArcStr::from_str(alloc, name.as_str())?;
            Ok(Some(name))
        }
    }
}

/// The bytes of names of one kind that may be cached before they are forgotten: 64 MB. It is a
/// choice: 100,000 addresses of a database of 10 MB cache 20 MB in all, and with less, questions at
/// random would make names again. docs/COSTS.md has it under what is cached.
pub const CACHED_NAMES: u64 = 64 << 20;

/// The bytes of memory that a name that may be missing takes, with as many more as its place takes.
pub fn name_size(name: &Option<ArcStr>, place: usize) -> u64 {
    let text = match name {
        None => 0,
        Some(name) => name.as_str().len(),
    };
    (text as u64).saturating_add(place as u64)
}

/// Shares a name once more, if there is one.
///
/// # Errors
/// `AllocError` when memory runs out.
pub fn share_name(name: &Option<ArcStr>) -> std::result::Result<Option<ArcStr>, AllocError>
    ensures { Names arc_str_bytes result (option_map arc_str_bytes name.now) }
{
    match name {
        None => Ok(None),
        Some(name) => {
            let name = name.clone()?;
            Ok(Some(name))
        }
    }
}
