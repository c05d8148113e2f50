//! The statements of the definitions about each other.

ghost use Rattle.std.specs.Prelude.{ℕ};
ghost use Rattle.pdb_symbols_modules.specs.Streams.{Streams};
ghost use Rattle.pdb_frames.specs.Choice.{Parts};
ghost use Rattle.pdb_frames.specs.Scopes.{Scope};
ghost use Rattle.pdb_report_tests.specs.Laws.{AnswersAsDeep, FailsInAPart};

/// An answer with a fault has a part that fails. That part stands as failed from then on.
#[tactic(auto, using(crate::proofs::laws::FailingParts::answers_fail_in_a_part))]
pub fn answers_fail_in_a_part()
    ensures { (parts : Parts) (scope : ℕ → Scope) (address : ℕ) → FailsInAPart parts scope address }
{}

/// A file's answer has one frame more than the depth of the deepest inline site over the address's
/// place.
pub fn answers_as_deep()
    ensures { (s : Streams) (address : ℕ) → AnswersAsDeep s address }
{}
