//! Laws of the definitions: functions that do nothing, whose contracts are proved.

ghost use Rattle.std.specs.Prelude.{◌≡◌, ℕ, [], List, take};
ghost use Rattle.std.specs.List.{fold};
ghost use Rattle.msvc_demangler.specs.References.{remember, remember_type, remembered_names};
ghost use Rattle.msvc_demangler.specs.Words.{Text};

/// Back references: the digits stand for the first ten distinct names that were read, in order, and
/// for the first ten types of parameters whose codes are longer than a letter.
#[tactic(auto, using(crate::proofs::Remembered::laws))]
pub fn digits_stand_for_the_first_ten()
    ensures names { (names : List Text) → fold remember [] names ≡ remembered_names names }
    ensures types { (nodes : List ℕ) → fold remember_type [] nodes ≡ take 10 nodes }
{}
