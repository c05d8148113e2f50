//! Laws of the definitions: functions that do nothing, whose contracts are proved.

ghost use Rattle.std.specs.Prelude.{ℕ};
ghost use Rattle.pdb_frames.specs.Choice.{Parts};
ghost use Rattle.pdb_frames.specs.Depth.{FramesAreAsDeep};
ghost use Rattle.pdb_frames.specs.Files.{files_of};
ghost use Rattle.pdb_frames.specs.FrameRuns.{frames_of_places};
ghost use Rattle.pdb_frames.specs.Runs.{database_of};
ghost use Rattle.pdb_frames.specs.Scopes.{Scope};
ghost use Rattle.pdb_owners.specs.Databases.{AnswersWhere, ChangesAtBounds};

/// The number of frames at an address is one more than the depth of the deepest inline site over
/// its place: one alone where no site is over it, in a public entry, and in a module without data.
pub fn frames_as_deep()
    ensures { (parts : Parts) (scope : ℕ → Scope) → FramesAreAsDeep parts scope }
{}

/// Each place with a function has a file, no known file, or frames that can't be read: counted by
/// file, none of them is missing.
pub fn functions_have_files()
    ensures { (parts : Parts) (scope : ℕ → Scope)
        → AnswersWhere (files_of parts scope) (database_of parts scope) }
{}

/// Answers change at bounds alone: a place that is no bound has the function, the file, and the
/// frames with their rows, of the place before it in its section.
pub fn answers_change_at_bounds()
    ensures functions { (parts : Parts) (scope : ℕ → Scope)
        → ChangesAtBounds (database_of parts scope) }
    ensures files { (parts : Parts) (scope : ℕ → Scope) → ChangesAtBounds (files_of parts scope) }
    ensures frames { (parts : Parts) (scope : ℕ → Scope)
        → ChangesAtBounds (frames_of_places parts scope) }
{}
