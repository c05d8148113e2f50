//! Outputs to which faults are reported.

ghost use Rattle.std.specs.Prelude.{◌≡◌, ℕ, List, Option, OnOk, OnErr};
ghost use Rattle.std.specs.Io.KnownBytes.{Appends};
ghost use Rattle.std.specs.declared.io.ErrorKind.{ErrorKind as Kind};
ghost use Rattle.pdb_engine.specs.Puts.{Puts};
ghost use Rattle.pdb_engine.specs.Watched.{AppendsFront};

use crate::engine::write_all;
use crate::watched::Watched;
use std::io::{ErrorKind, Write};

/// An output to which a fault is reported: any writer.
pub trait ErrorOutput {
    // the bytes that it holds, if they are known
    ghost contents: { Self → Option (List ℕ) };
    // the number of its calls that failed, and how the last one did, if this is counted
    ghost failures: { Self → Option (ℕ × Option Kind) };
    // its last write failed with this kind; a writer that counts nothing says nothing
    ghost has_failed: { Self → Kind → Type 0 };

    /// Writes all of the bytes, and stops at the first failure.
    ///
    /// # Errors
    /// The kind of the failure.
    fn put(&mut self, bytes: &[u8]) -> Result<(), ErrorKind>
        ensures { Puts contents failures has_failed self.old self.new result bytes.now };
}

impl<W: Write> ErrorOutput for Watched<W> {
    ghost use Rattle.std.specs.Prelude.{◌≡◌, Some};
    ghost use Rattle.pdb_engine.specs.Watched.{inner_of, failures_of, last_kind_of};

    ghost contents = { λ w. W.contents (inner_of w) };

    ghost failures = { λ w. Some (failures_of w, last_kind_of w) };

    ghost has_failed = { λ w kind. last_kind_of w ≡ Some kind };

    #[tactic(auto, using(crate::proofs::Puts::watched_puts))]
    fn put(&mut self, bytes: &[u8]) -> Result<(), ErrorKind> {
        write_all(self, bytes)
    }
}

impl<W: Write> ErrorOutput for W {
    ghost use Rattle.std.specs.Prelude.{None, ⊤};

    ghost contents = { λ w. W.contents w };

    ghost failures = { λ _. None };

    ghost has_failed = { λ _ _. ⊤ };

    fn put(&mut self, bytes: &[u8]) -> Result<(), ErrorKind> {
        write_plain(self, bytes)
    }
}

/// Writes all of the bytes, and stops at the first failure.
///
/// # Errors
/// The kind of the failure.
fn write_plain<W: Write>(writer: &mut W, bytes: &[u8]) -> Result<(), ErrorKind>
    ensures ok { OnOk result (Appends (W.contents writer.old) (W.contents writer.new) bytes.now) }
    ensures part { OnErr result
        (AppendsFront (W.contents writer.old) (W.contents writer.new) bytes.now) }
{
    let mut rest = bytes;
    while !rest.is_empty() {
        match writer.write(rest) {
            Ok(0) => return Err(ErrorKind::WriteZero),
            Ok(count) => rest = &rest[count..],
            Err(error) => return Err(error.kind()),
        }
    }
    Ok(())
}
