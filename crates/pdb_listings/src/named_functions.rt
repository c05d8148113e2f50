//! Functions that have a name.

ghost use Rattle.std.specs.Prelude.{IfOk};
ghost use Rattle.pdb_listings.specs.NamedFunctions.{AreNamed, IsNamed};

use crate::functions::FunctionRow;
use crate::names::has_name;
use std::alloc::{AllocError, Global};

/// Whether a function has a name: as it is stored or undecorated, whole or without arguments.
fn is_named(alloc: Global, row: &FunctionRow, asked: &[u8]) -> Result<bool, AllocError>
    ensures { IfOk result (λ found. IsNamed row.now.function asked.now found) }
{
    match &row.function.name {
        None => Ok(false),
        Some(name) => has_name(alloc, name.as_bytes(), asked),
    }
}

/// For each function, whether it has a name: as it is stored or undecorated, whole or without
/// arguments.
///
/// # Errors
/// `AllocError` when memory runs out.
#[tactic(auto, using(crate::proofs::Marks::mark_more))]
pub fn functions_named(
    alloc: Global,
    rows: &[FunctionRow],
    asked: &[u8],
) -> Result<Vec<bool>, AllocError>
    ensures { IfOk result (λ marks. AreNamed asked.now rows.now marks.items) }
{
    let mut marks = Vec::new(alloc);
    for row in rows {
        marks.push(is_named(alloc, row, asked)?)?;
    }
    Ok(marks)
}
