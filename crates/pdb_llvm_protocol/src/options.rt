//! Options of the texts of answers.

/// The style of answers.
#[derive(Clone, Copy, PartialEq, Eq)]
pub enum Style {
    /// A name, then file, line and column, and an empty line after each answer.
    Llvm,
    /// Answers as GNU's `addr2line` writes them: no column, and no empty line.
    Gnu,
    /// An object for each answer.
    Json,
}

/// The options of the texts of answers.
#[derive(Clone, Copy)]
pub struct TextOptions {
    /// The style.
    pub style: Style,
    /// Whether names of functions are written. In JSON they always are.
    pub functions: bool,
    /// Whether the address is written before its answer. In JSON it always is.
    pub addresses: bool,
    /// Whether each frame has one line; in JSON, whether each member has one.
    pub pretty: bool,
    /// Whether file, line and column have a line each. In JSON that changes nothing.
    pub verbose: bool,
    /// In JSON, whether the answers are elements of an array, which the caller opens, parts by
    /// commas and closes. Otherwise a newline ends each.
    pub in_array: bool,
}
