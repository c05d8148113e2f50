//! How far long work is, on a terminal.

use std::io::Write;

/// How far long work is, on one line of standard error where that is a terminal.
#[derive(Drop)]
pub struct Progress<E> {
    errors: E,
    shows: bool,
    /// How many bytes are shown.
    shown: usize,
}

impl<E: Write> Progress<E> {
    /// Shows how far work is on `errors`, or nothing.
    pub fn new(errors: E, shows: bool) -> Progress<E> {
        Progress {
            errors,
            shows,
            shown: 0,
        }
    }

    /// Shows that so many of all files were looked for, after each hundred of them; a write that
    /// fails is ignored.
    pub fn files(&mut self, done: usize, all: usize) {
        if self.shows && done % 100 == 0 {
            self.shown = 40;
            let _ = write!(self.errors, "\r{done} of {all} files");
        }
    }

    /// Shows which file is gone over; a write that fails is ignored.
    pub fn over(&mut self, path: &str) {
        self.end();
        if self.shows {
            self.shown = path.len();
            let _ = write!(self.errors, "{path}");
        }
    }

    /// Ends what is shown; a write that fails is ignored.
    pub fn end(&mut self) {
        let shown = self.shown;
        if shown > 0 {
            self.shown = 0;
            let _ = write!(self.errors, "\r{:shown$}\r", "");
        }
    }
}
