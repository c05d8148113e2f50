//! Laws of the definitions: functions that do nothing, whose contracts are proved.

ghost use Rattle.std.specs.Prelude.{◌≡◌, ◌↔◌, ℕ, List, [], IfOk, Ok};
ghost use Rattle.std.specs.List.{AllPairs, IsDistinct};
ghost use Rattle.pdb_addresses.specs.declared.internal_section_offset.PdbInternalSectionOffset.{
  PdbInternalSectionOffset as Place,
};
ghost use Rattle.pdb_lines.specs.LinesSubsections.{Program};
ghost use Rattle.pdb_lines.specs.LineRows.{subsection_numbered, subsections_for};
ghost use Rattle.pdb_module_data.specs.Forest.{Site, IsForest, sites_from};
ghost use Rattle.pdb_module_data.specs.FunctionLine.{function_rows, numbered_rows};
ghost use Rattle.pdb_module_data.specs.InlinedCalls.{IsNested, RowsOfCalls, AreAsDeep};
ghost use Rattle.pdb_module_data.specs.InlinedCalls.{FindsDeepest, MissesNone, IsDepthOfFound};
ghost use Rattle.pdb_module_data.specs.Procedures.{Procedure, is_at, first_at, firsts_onto};
ghost use Rattle.pdb_module_data.specs.Procedures.{StandsBefore};

/// The sites from a place on are those that the grammar gives, and no others.
pub fn forest_is_grammar()
    ensures { (bytes : List ℕ) (limit start : ℕ) (sites : List Site)
        → (sites_from bytes limit start ≡ Ok sites) ↔ IsForest bytes limit start sites }
{}

/// Sites lie in sites before them, each one deeper than the one that it lies in.
pub fn forest_is_nested()
    ensures { (bytes : List ℕ) (limit start : ℕ)
        → IfOk (sites_from bytes limit start) IsNested }
{}

/// The deepest site over a place is over it, none over it is deeper, and none before it is as deep.
/// Where there is none, no site is over the place.
pub fn deepest_is_deepest()
    ensures deepest { (rows : RowsOfCalls) (sites : List Site) (place : Place)
        → FindsDeepest rows sites place }
    ensures none { (rows : RowsOfCalls) (sites : List Site) (place : Place)
        → MissesNone rows sites place }
{}

/// There are as many calls over a place as the deepest site over it is deep; none where there is no
/// such site.
pub fn calls_as_deep()
    ensures calls { (rows : RowsOfCalls) (sites : List Site) (p : Place)
        → IsNested sites → AreAsDeep rows sites p }
    ensures depth { (rows : RowsOfCalls) (sites : List Site) (place : Place)
        → IsDepthOfFound rows sites place }
{}

/// The rows of a function are those of its subsection's number, and so of every function that has
/// that subsection.
pub fn rows_of_a_subsection()
    ensures { (program : Program) (start : Place) (number : ℕ)
        → subsection_numbered program number ≡ subsections_for program start
        → numbered_rows program number ≡ function_rows program start }
{}

/// The first procedure of each start counts among those that are taken: the one that begins at a
/// place is the first of all that begin there, no two begin at one place, and they stand in the
/// order in which they were taken.
pub fn first_of_each_start()
    ensures first { (taken : List Procedure) (p : Place)
        → first_at (firsts_onto [] taken) p ≡ first_at taken p }
    ensures once { (taken : List Procedure)
        → IsDistinct (λ a b. is_at a.offset b.offset) (firsts_onto [] taken) }
    ensures order { (taken : List Procedure)
        → AllPairs (StandsBefore taken) (firsts_onto [] taken) }
{}
