ghost use Rattle.std.specs.Prelude.{◌≤◌, length};

use std::io::{self, ErrorKind, Read, Write};

/// A reader that gives its bytes in pieces, fails once if it does, gives the rest in pieces, and
/// then its end at each call.
#[derive(Drop)]
pub struct PieceReader<'t> {
    /// The bytes that are still to come before the failure. A piece that has some of them has none
    /// of the rest.
    pub bytes: &'t [u8],
    /// The bytes after the failure.
    pub rest: &'t [u8],
    /// The most bytes that a call gives.
    pub piece: usize,
    /// The failure, if it fails.
    pub fault: Option<ErrorKind>,
}

/// A writer that takes bytes in pieces, up to `room` of them. Then it fails once and takes more, or
/// it takes none at all.
#[derive(Drop)]
pub struct PieceWriter {
    /// The bytes that were taken.
    pub written: Vec<u8>,
    /// The most bytes that a call takes.
    pub piece: usize,
    /// The number of bytes that the writer still takes.
    pub room: usize,
    /// The failure once there is no room, if it fails then.
    pub fault: Option<ErrorKind>,
}

/// Moves at most `most` bytes from the beginning of `from` into `to`, and returns their number.
fn give(from: &mut &[u8], to: &mut [u8], most: usize) -> usize
    ensures { result ≤ length to.new }
{
    let source = *from;
    let count = source.len().min(to.len()).min(most);
    to[..count].copy_from_slice(&source[..count]);
    *from = &source[count..];
    count
}

impl Read for PieceReader<'_> {
    fn read(&mut self, buf: &mut [u8]) -> io::Result<usize> {
        if self.bytes.is_empty() {
            if let Some(kind) = self.fault.take() {
                return Err(io::Error::from(kind));
            }
            self.bytes = self.rest;
            self.rest = &[];
        }
        Ok(give(&mut self.bytes, buf, self.piece))
    }
}

impl Write for PieceWriter {
    fn write(&mut self, buf: &[u8]) -> io::Result<usize> {
        if self.room == 0 {
            if let Some(kind) = self.fault.take() {
                self.room = usize::MAX;
                return Err(io::Error::from(kind));
            }
        }
        let count = buf.len().min(self.piece).min(self.room);
        self.written.extend_from_slice(&buf[..count])?;
        self.room -= count;
        Ok(count)
    }

    fn flush(&mut self) -> io::Result<()> {
        Ok(())
    }
}
