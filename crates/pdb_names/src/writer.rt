//! Writers of texts.

ghost use Rattle.std.specs.Prelude.{ℕ, List, OnOk, OnErr};

use std::fmt::{Result, Write};

/// A writer of texts: each [`Write`], and a writer of one's own that also says when it refused one.
pub trait TextWriter {
    // a text was taken: the writer before, the text, and the writer after
    ghost has_taken: { Self → List ℕ → Self → Type 0 };
    // a text was refused, likewise
    ghost has_refused: { Self → List ℕ → Self → Type 0 };

    /// Takes a text.
    ///
    /// # Errors
    /// `std::fmt::Error` where the writer refuses it.
    fn take_text(&mut self, text: &str) -> Result
        ensures ok { OnOk result (has_taken self.old text.now self.new) }
        ensures err { OnErr result (has_refused self.old text.now self.new) };
}

/// A writer of std, whose own implementation says what it took: a `String` has the text appended.
/// Of a text that it refused it says nothing.
impl<W: Write> TextWriter for W {
    ghost use Rattle.std.specs.Prelude.{⊤};

    ghost has_taken = { λ old text new. W.write_str_gives old text new };

    ghost has_refused = { λ _ _ _. ⊤ };

    fn take_text(&mut self, text: &str) -> Result {
        self.write_str(text)
    }
}
