//! Laws of the definitions: functions that do nothing, whose contracts are proved.

ghost use Rattle.std.specs.Prelude.{◌≡◌, ◌↔◌, ℕ, List, None, Some};
ghost use Rattle.pdb_subsections.specs.Exports.{first_export, IsFirst, Lack};
ghost use Rattle.pdb_subsections.specs.declared.exports.Export.{Export as Pair};

/// The first export of an index gives its index in the file's table, and there is none exactly
/// where no export has it.
pub fn first_export_counts()
    ensures found { (exports : List Pair) (local global : ℕ)
        → (first_export exports local ≡ Some global) ↔ IsFirst exports local global }
    ensures missing { (exports : List Pair) (local : ℕ) → (first_export exports local ≡ None)
        ↔ Lack exports local }
{}
