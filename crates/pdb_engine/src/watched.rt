//! A reader or a writer whose failures are counted.

ghost use Rattle.std.specs.Prelude.{◌≡◌, None};
ghost use Rattle.std.specs.Io.{ReadsAtMost, WritesAtMost};
ghost use Rattle.std.specs.Io.KnownBytes.{ReadConsumes, WriteAppends};

use std::io::{self, ErrorKind, Read, Write};

/// A watched reader or writer. It counts its calls that fail, and stores how the last one failed.
#[derive(Drop)]
pub struct Watched<T> {
    inner: T,
    failures: u64,
    last_kind: Option<ErrorKind>,
}

impl<T> Watched<T> {
    ghost use Rattle.pdb_engine.specs.Watched.{inner_of, failures_of, last_kind_of, CountsFailure};

    /// Wraps a reader or a writer of which no call has failed yet.
    pub fn new(inner: T) -> Watched<T>
        ensures inner { inner_of result ≡ inner }
        ensures failures { failures_of result ≡ 0 }
        ensures last_kind { last_kind_of result ≡ None }
    {
        Watched {
            inner,
            failures: 0,
            last_kind: None,
        }
    }

    /// Returns the number of calls that have failed since [`Watched::new`]. At `u64::MAX` the count
    /// stays.
    pub fn failures(&self) -> u64
        ensures { result ≡ failures_of self.now }
    {
        self.failures
    }

    /// Returns the kind of the last failure, and `None` before the first.
    pub fn last_kind(&self) -> Option<ErrorKind>
        ensures { result ≡ last_kind_of self.now }
    {
        self.last_kind
    }

    /// Counts a failure.
    fn note(&mut self, kind: ErrorKind)
        ensures fails { CountsFailure self.old self.new kind }
        ensures inner { inner_of self.new ≡ inner_of self.old }
    {
        self.failures = self.failures.saturating_add(1);
        self.last_kind = Some(kind);
    }
}

impl<R: Read> Watched<R> {
    ghost use Rattle.pdb_engine.specs.Watched.{inner_of, WatchesRead};

    /// Reads at most `buf.len()` bytes into the start of `buf`, and returns their number.
    ///
    /// # Errors
    /// The wrapped reader's errors. Each error counts as one failure, and nothing else does.
    pub fn read(&mut self, buf: &mut [u8]) -> io::Result<usize>
        ensures bound { ReadsAtMost result buf.new }
        ensures bytes { ReadConsumes (R.remaining (inner_of self.old))
            (R.remaining (inner_of self.new)) result buf.new }
        ensures watch { WatchesRead self.old self.new result }
    {
        match self.inner.read(buf) {
            Ok(count) => Ok(count),
            Err(error) => {
                self.note(error.kind());
                Err(error)
            }
        }
    }
}

impl<W: Write> Watched<W> {
    ghost use Rattle.pdb_engine.specs.Watched.{inner_of, WatchesWrite};

    /// Writes a prefix of `buf`, and returns its length in bytes.
    ///
    /// # Errors
    /// The wrapped writer's errors. Each error counts as one failure. A write that takes none of
    /// some bytes counts as one too, as `WriteZero`, and nothing else does.
    pub fn write(&mut self, buf: &[u8]) -> io::Result<usize>
        ensures bound { WritesAtMost result buf.now }
        ensures bytes { WriteAppends (W.contents (inner_of self.old))
            (W.contents (inner_of self.new)) result buf.now }
        ensures watch { WatchesWrite self.old self.new buf.now result }
    {
        match self.inner.write(buf) {
            Ok(count) => {
                if count == 0 && !buf.is_empty() {
                    self.note(ErrorKind::WriteZero);
                }
                Ok(count)
            }
            Err(error) => {
                self.note(error.kind());
                Err(error)
            }
        }
    }
}
