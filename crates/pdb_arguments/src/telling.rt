//! The report where the arguments give no task.

ghost use Rattle.std.specs.Prelude.{◌≡◌, ◌⊎◌, ℕ, List, Option, Some, OnOk, IfErr, IfOk};
ghost use Rattle.std.specs.Io.KnownBytes.{Appends};
ghost use Rattle.std.specs.declared.io.ErrorKind.{ErrorKind as Kind};
ghost use Rattle.pdb_arguments.specs.Telling.{IsHelp, Puts, Tells, status_of};
ghost use Rattle.pdb_arguments.specs.Telling.{output_text, errors_text};

use crate::task::WordsFault;
use std::io::{ErrorKind, Write};

/// An output for texts: any writer.
pub trait TextOutput {
    // the text that it holds, where it is known
    ghost contents: { Self → Option (List ℕ) };
    // a write failed with this kind between the one and the other, where this is known
    ghost has_failed: { Self → Self → Kind → Type 0 };

    /// Writes all of a text.
    ///
    /// # Errors
    /// The kind of the write that failed.
    fn put(&mut self, text: &str) -> Result<(), ErrorKind>
        ensures ok { OnOk result (Appends (contents self.old) (contents self.new) text.now) }
        ensures err { IfErr result (λ kind. has_failed self.old self.new kind) };
}

impl<W: Write> TextOutput for W {
    ghost use Rattle.std.specs.Prelude.{⊤};

    ghost contents = { λ w. W.contents w };

    ghost has_failed = { λ _ _ _. ⊤ };

    fn put(&mut self, text: &str) -> Result<(), ErrorKind> {
        match self.write_all(text.as_bytes()) {
            Ok(()) => Ok(()),
            Err(error) => Err(error.kind()),
        }
    }
}

/// Writes a text. A write that fails is ignored, and ends it.
fn tell<W: TextOutput>(output: &mut W, text: &str)
    ensures { Tells W.contents W.has_failed output.old output.new (Some text.now) }
{
    let _ = output.put(text);
}

/// Reports the fault of arguments that give no task, and returns the exit status. Help goes to
/// `output`, with status 0. Wrong arguments go to `errors`, with status 2, and so does a report
/// that memory ran out, with status 1. A fault without a text is reported in one line, which is
/// `fault: ` and its name. A write to `errors` that fails is ignored, and ends the text. It takes
/// no memory of its own.
///
/// # Errors
/// The kind of a write to `output` that failed, which ends the help. Nothing is reported of it.
pub fn tell_words<W: TextOutput, E: TextOutput>(
    fault: &WordsFault,
    output: &mut W,
    errors: &mut E,
) -> Result<u8, ErrorKind>
    ensures status { IfOk result (λ status. status ≡ status_of fault.now) }
    // A status is returned exactly where all of the help was written, or there is none.
    ensures output { OnOk result (Puts W.contents output.old output.new (output_text fault.now)) }
    ensures failed { IfErr result (λ kind.
        IsHelp fault.now × W.has_failed output.old output.new kind) }
    ensures errors { Tells E.contents E.has_failed errors.old errors.new (errors_text fault.now) }
{
    match fault {
        WordsFault::Help(text) => {
            output.put(text.as_str())?;
            Ok(0)
        }
        WordsFault::Words(text) => {
            tell(errors, text.as_str());
            Ok(2)
        }
        WordsFault::NotAnAddress => {
            tell(errors, "fault: NotAnAddress\n");
            Ok(2)
        }
        WordsFault::OutOfMemory => {
            tell(errors, "fault: OutOfMemory\n");
            Ok(1)
        }
    }
}
