//! Keys and answers that are counted.

use std::cmp::Ord;

/// Keys and answers by which addresses are counted: functions, source files, and the keys that tell
/// these apart. Two that compare as equal in their order are the same.
pub trait Countable: Ord + Drop {
    ghost use Rattle.std.specs.Prelude.{◌≡◌};
    ghost use Rattle.std.specs.declared.cmp.Ordering.TheVariants.{Equal};

    ghost exact: { (a b : Self) → Self.cmp a b ≡ Equal → a ≡ b };
}
