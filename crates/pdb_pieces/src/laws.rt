//! Laws of the definitions.

ghost use Rattle.std.specs.Prelude.{◌≡◌, ◌^◌, ◌<◌, ℕ, Some, None, List, Option, slice_get};
ghost use Rattle.pdb_addresses.specs.declared.internal_section_offset.PdbInternalSectionOffset.{
  PdbInternalSectionOffset,
};
ghost use Rattle.pdb_pieces.specs.Spans.{best, place_number, IsGreatest, IsOver};
ghost use Rattle.pdb_pieces.specs.declared.span.Span.{Span};
ghost use Rattle.pdb_pieces.specs.declared.span.Mark.{Mark};

/// The best mark at a place is that of a span of greatest rank over it, the first of these. Where
/// there is none, no span is over the place.
pub fn best_is_greatest()
    ensures greatest { (spans : List Span) (p : ℕ) (m : Mark) → best spans p ≡ Some m
        → IsGreatest spans p m }
    ensures none { (spans : List Span) (p : ℕ) → best spans p ≡ None → (j : ℕ) (t : Span)
        → slice_get spans j ≡ Some t → IsOver t p → ⊥ }
{}

/// No two places have one number.
pub fn places_have_own_numbers()
    ensures { (p q : PdbInternalSectionOffset) → p.offset < 2 ^ 32 → q.offset < 2 ^ 32
        → place_number p ≡ place_number q → p ≡ q }
{}
