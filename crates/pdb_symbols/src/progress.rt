//! The progress of the work.

use std::io::Write;

/// The bytes that erase the shown progress.
pub const ERASED: &[u8] = b"\r    \r";

/// The progress of the work, in hundredths of it, on a terminal.
#[derive(Drop)]
pub struct Progress<E> {
    errors: E,
    shows: bool,
    /// The hundredths that are shown.
    shown: Option<u64>,
    /// The amount of work that was done, and of all work.
    done: u64,
    all: u64,
}

impl<E: Write> Progress<E> {
    /// Shows the progress of the work on `errors`, or nothing.
    pub fn new(errors: E, shows: bool) -> Progress<E> {
        Progress {
            errors,
            shows,
            shown: None,
            done: 0,
            all: 0,
        }
    }

    /// Sets the amount that is to be done.
    pub fn begin(&mut self, all: u64) {
        self.all = all;
    }

    /// Adds an amount that was done, and shows the progress until all is done; a write that fails
    /// is ignored.
    pub fn advance(&mut self, count: u32) {
        self.done = self.done.saturating_add(u64::from(count));
        if self.shows && self.all != 0 {
            self.show();
        }
    }

    /// Shows the progress; a write that fails is ignored.
    fn show(&mut self) {
        if self.all <= self.done {
            let _ = self.errors.write_all(ERASED);
            return;
        }
        let hundredths = self.done.saturating_mul(100) / self.all;
        if self.shown != Some(hundredths) {
            self.shown = Some(hundredths);
            let _ = write!(self.errors, "\r{hundredths}%");
        }
    }
}
