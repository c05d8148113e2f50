//! A function: where it begins and ends, and its name.

ghost use Rattle.std.specs.Prelude.{◌≡◌, IfOk, Some, refl, option_map, string_bytes};
ghost use Rattle.std.specs.Cmp.{eq_by_cmp_equiv, partial_equiv_from_equiv};
ghost use Rattle.std.specs.Cmp.{partial_order_from_total};
ghost use Rattle.pdb_owners.specs.Answers.{is_same};
ghost use Rattle.pdb_owners.specs.FunctionOrder.{function_cmp};
ghost use Rattle.pdb_owners.specs.OrderLaws.{function_total, function_exact};

use crate::countable::Countable;
use std::alloc::{AllocError, Global};
use std::cmp::Ordering;
use std::marker::Model;

/// A function: where it begins and ends in the image, and its name.
#[derive(Debug, Drop)]
pub struct Function {
    /// The RVA at which the function begins.
    pub start_rva: u32,
    /// The RVA at which the function ends, if it is known; the byte there isn't part of the
    /// function.
    pub end_rva: Option<u32>,
    /// The function's name, if it has one.
    pub name: Option<String>,
}

impl Model for Function {
    ghost use Rattle.std.specs.Prelude.{option_map, string_bytes};
    ghost use Rattle.pdb_owners.specs.FunctionOrder as functions;

    ghost Value = { functions.Function };

    ghost view = { λ f. record {
      start_rva = f.start_rva;
      end_rva = f.end_rva;
      name = option_map string_bytes f.name;
    } };
}

impl Function {
    /// Makes a copy that is equal in all fields.
    ///
    /// # Errors
    /// `AllocError` when memory runs out.
    pub fn try_clone(&self, alloc: Global) -> Result<Function, AllocError>
        ensures { IfOk result (λ f. f ≡ self.now) }
    {
        let name = clone_name(alloc, &self.name)?;
        Ok(Function {
            start_rva: self.start_rva,
            end_rva: self.end_rva,
            name,
        })
    }
}

/// Copies a name that may be missing.
pub(crate) fn clone_name(alloc: Global, name: &Option<String>) -> Result<Option<String>, AllocError>
    ensures { IfOk result (λ n. option_map string_bytes n ≡ option_map string_bytes name.now) }
{
    match name {
        None => Ok(None),
        Some(name) => {
            let name = String::from_str(alloc, name.as_str())?;
            Ok(Some(name))
        }
    }
}

/// Two functions are equal where start, end and name are.
impl PartialEq for Function {
    ghost eq = { is_same function_cmp };

    ghost laws = { partial_equiv_from_equiv (eq_by_cmp_equiv function_total) };

    fn eq(&self, other: &Function) -> bool {
        self.cmp(other).is_eq()
    }
}

impl Eq for Function {
    ghost laws = { eq_by_cmp_equiv function_total };
}

/// By start, end and name; a missing one comes first.
impl PartialOrd for Function {
    ghost partial_cmp = { λ a b. Some (function_cmp a b) };

    ghost laws = { partial_order_from_total function_total };

    fn partial_cmp(&self, other: &Function) -> Option<Ordering> {
        Some(self.cmp(other))
    }
}

/// By start, end and name; a missing one comes first.
impl Ord for Function {
    ghost cmp = { function_cmp };

    ghost total = { function_total };

    ghost matches_partial_cmp = { λ a b. refl };

    ghost matches_eq = { λ a b. refl };

    fn cmp(&self, other: &Function) -> Ordering {
        self.start_rva
            .cmp(&other.start_rva)
            .then(self.end_rva.cmp(&other.end_rva))
            .then(self.name.cmp(&other.name))
    }
}

/// Two functions that compare as equal are one.
impl Countable for Function {
    ghost exact = { function_exact };
}
