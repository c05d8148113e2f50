//! The words of a text that holds arguments: of a response file, or of an environment variable.

use std::alloc::{AllocError, Global};

/// How the next byte is read.
#[derive(Clone, Copy)]
enum Mode {
    /// Outside quotes.
    Plain,
    /// After a backslash, outside quotes.
    Escaped,
    /// In quotes that this byte closes.
    Quoted(u8),
    /// After a backslash, in quotes that this byte closes.
    QuotedEscaped(u8),
}

/// The effect of a byte on the word that is read.
#[derive(Clone, Copy)]
enum Effect {
    /// None.
    Skip,
    /// The byte is the word's next.
    Take,
    /// The word ends before the byte.
    End,
}

/// The effect of a byte, and how the next one is read.
fn step(mode: Mode, byte: u8) -> (Effect, Mode) {
    match mode {
        Mode::Escaped => (Effect::Take, Mode::Plain),
        Mode::QuotedEscaped(quote) => (Effect::Take, Mode::Quoted(quote)),
        Mode::Quoted(quote) if byte == quote => (Effect::Skip, Mode::Plain),
        Mode::Quoted(quote) if byte == b'\\' => (Effect::Skip, Mode::QuotedEscaped(quote)),
        Mode::Quoted(_) => (Effect::Take, mode),
        Mode::Plain => match byte {
            b'\\' => (Effect::Skip, Mode::Escaped),
            b'"' | b'\'' => (Effect::Skip, Mode::Quoted(byte)),
            b' ' | b'\t' | b'\r' | b'\n' => (Effect::End, mode),
            _ => (Effect::Take, mode),
        },
    }
}

/// Ends the word, unless it is empty.
fn end_word(alloc: Global, word: &mut Vec<u8>, words: &mut Vec<String>) -> Result<(), AllocError> {
    if !word.is_empty() {
        words.push(String::from_utf8_lossy(alloc, word)?)?;
        word.clear();
    }
    Ok(())
}

/// Appends the words of a text, of which the last is made in `word`. At the end of the text a
/// backslash stands for itself.
fn read_words(
    alloc: Global,
    text: &[u8],
    word: &mut Vec<u8>,
    words: &mut Vec<String>,
) -> Result<(), AllocError> {
    let mut mode = Mode::Plain;
    for byte in text {
        let (effect, next) = step(mode, *byte);
        mode = next;
        match effect {
            Effect::Skip => {}
            Effect::Take => word.push(*byte)?,
            Effect::End => end_word(alloc, word, words)?,
        }
    }
    if matches!(mode, Mode::Escaped | Mode::QuotedEscaped(_)) {
        word.push(b'\\')?;
    }
    end_word(alloc, word, words)
}

/// Appends the words of a text, as LLVM's programs read it: blanks part words, a backslash takes
/// the next byte as it is, and in quotes blanks are taken, too. An empty word is none.
///
/// # Errors
/// Where memory ran out.
pub fn push_words(alloc: Global, text: &[u8], words: &mut Vec<String>) -> Result<(), AllocError> {
    let mut word = Vec::new(alloc);
    read_words(alloc, text, &mut word, words)
}
