//! A writer that undecorates names.

ghost use Rattle.std.specs.Prelude.{◌≡◌, ◌++◌, [], IfOk, OnErr, OnOk};
ghost use Rattle.pdb_symbolizer.specs.UndecoratedLines.{WritesLines};

use crate::undecorated::lines::{ReportKind, append_lines};
use pdb_engine::ErrorOutput;
use std::alloc::{AllocError, Global};
use std::io::{self, ErrorKind, Write};

/// Lines with the texts of their names, and the rest after them.
#[derive(Drop)]
struct EndedLines {
    named: Vec<u8>,
    pending: Vec<u8>,
}

/// The lines that end in a text and in the bytes that come after it.
fn ended_lines(
    alloc: Global,
    kind: ReportKind,
    pending: &[u8],
    bytes: &[u8],
) -> Result<EndedLines, AllocError>
    ensures { IfOk result (λ ended.
        WritesLines kind (pending.now ++ bytes.now) ended.pending.items ended.named.items) }
{
    let mut text = Vec::new(alloc);
    text.extend_from_slice(pending)?;
    text.extend_from_slice(bytes)?;
    let mut named = Vec::new(alloc);
    let rest = append_lines(alloc, kind, text.as_slice(), &mut named)?;
    let mut pending = Vec::new(alloc);
    pending.extend_from_slice(rest)?;
    Ok(EndedLines { named, pending })
}

/// A writer that takes a report, and writes it to another writer with the texts of decorated names
/// in place of the names. A line is written when its newline comes, with the lines that come with
/// it.
#[derive(Drop)]
pub struct UndecoratedWriter<W> {
    alloc: Global,
    kind: ReportKind,
    writer: W,
    pending: Vec<u8>,
}

impl<W: Write> UndecoratedWriter<W> {
    ghost use Rattle.pdb_symbolizer.specs.UndecoratedText.{WritesEnded, WritesFrontOf};

    /// A writer to another writer, to which nothing was given yet.
    pub fn new(alloc: Global, kind: ReportKind, writer: W) -> UndecoratedWriter<W>
        ensures kind { result.kind ≡ kind }
        ensures writer { result.writer ≡ writer }
        ensures pending { result.pending.items ≡ [] }
    {
        UndecoratedWriter {
            alloc,
            kind,
            writer,
            pending: Vec::new(alloc),
        }
    }

    /// Writes the lines that end with these bytes, and keeps the rest after them.
    ///
    /// # Errors
    /// The kind of a write that failed, or `OutOfMemory`. A prefix of the lines is written then,
    /// and the bytes aren't taken.
    pub fn put_lines(&mut self, bytes: &[u8]) -> Result<(), ErrorKind>
        ensures ok { OnOk result (WritesEnded W.contents self.old self.new bytes.now) }
        ensures part { OnErr result (WritesFrontOf W.contents self.old self.new bytes.now) }
    {
        let Ok(ended) = ended_lines(self.alloc, self.kind, self.pending.as_slice(), bytes) else {
            return Err(ErrorKind::OutOfMemory);
        };
        self.writer.put(ended.named.as_slice())?;
        self.pending = ended.pending;
        Ok(())
    }
}

impl<W: Write> Write for UndecoratedWriter<W> {
    fn write(&mut self, buf: &[u8]) -> io::Result<usize> {
        match self.put_lines(buf) {
            Ok(()) => Ok(buf.len()),
            Err(kind) => Err(io::Error::from(kind)),
        }
    }

    fn flush(&mut self) -> io::Result<()> {
        self.writer.flush()
    }
}
