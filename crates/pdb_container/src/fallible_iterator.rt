//! Iterators whose steps may fail.

ghost use Rattle.std.specs.Prelude.{◌≡◌, Option, Result, Ok, None, IfErr, ⊤};

/// An iterator whose steps may fail. After an error it returns `None`.
pub trait FallibleIterator {
    /// The items that it goes over.
    type Item;

    /// The error of a step that fails.
    type Error;

    /// Whether the iterator returns nothing more: it does so from its first error on.
    ghost has_ended: { Self → Type 0 };

    /// The result that may be returned at a state, and the state after it.
    ghost next_gives: { Self → Result (Option Self.Item) Self.Error → Self → Type 0 };

    /// Returns the next item; `None` at the end, and after an error.
    ///
    /// # Errors
    /// The cause for which the step failed; every later step returns `None`.
    fn next(&mut self) -> std::result::Result<Option<Self::Item>, Self::Error>
        ensures step { next_gives self.old result self.new }
        ensures fails { IfErr result (λ _. has_ended self.new) }
        ensures ended { has_ended self.old → (result ≡ Ok None) × has_ended self.new };
}
