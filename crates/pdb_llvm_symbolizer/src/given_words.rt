//! The words that the program is given: those of an environment variable, its arguments, and those
//! of response files.

use crate::command_words::push_words;
use crate::regular_file::open_regular;
use std::alloc::AllocError;
use std::env::{self, VarError};
use std::io::{self, ErrorKind, Read};
use std::rt::{Env, Files};

/// How many response files are read at most, since one may name itself. Behind these a word stands
/// for itself.
const RESPONSE_FILES: usize = 100;

/// The program's name, as it was called, and the texts that it is given.
#[derive(Drop)]
pub struct GivenWords {
    /// The name.
    pub program: String,
    /// The words: those of the environment variable, and then the arguments, which count more.
    pub words: Vec<String>,
    /// The search path of symbols, `_NT_SYMBOL_PATH`; empty where it isn't set.
    pub search_path: String,
}

/// Whether a program of this name answers as `llvm-addr2line` does: its file is called so.
pub fn is_addr2line(program: &str) -> bool {
    let name = match program.rsplit_once('/') {
        Some((_, name)) => name,
        None => program,
    };
    let stem = match name.rsplit_once('.') {
        Some((stem, _)) => stem,
        None => name,
    };
    stem.contains("addr2line")
}

/// The text of an environment variable, empty where it isn't set.
fn variable(rt: &(impl Env + AllocGlobal), name: &str) -> Result<String, AllocError> {
    match env::var(rt, name) {
        Ok(text) => Ok(text),
        Err(VarError::OutOfMemory) => Err(AllocError),
        Err(_) => Ok(String::new(rt.alloc())),
    }
}

/// Appends the words of the environment variable that a program of this name has for its options.
fn push_environment_words(
    rt: &(impl Env + AllocGlobal),
    program: &str,
    words: &mut Vec<String>,
) -> Result<(), AllocError> {
    let name = if is_addr2line(program) {
        "LLVM_ADDR2LINE_OPTS"
    } else {
        "LLVM_SYMBOLIZER_OPTS"
    };
    let text = variable(rt, name)?;
    push_words(rt.alloc(), text.as_str().as_bytes(), words)
}

/// The text of a response file; None where no such file can be read, and the word that names it
/// stands for itself.
fn response_text(rt: &(impl Files + AllocGlobal), path: &str) -> io::Result<Option<Vec<u8>>> {
    let mut file = match open_regular(rt, path) {
        Ok((file, _)) => file,
        Err(error) if error.kind() == ErrorKind::OutOfMemory => return Err(error),
        Err(_) => return Ok(None),
    };
    let mut text = Vec::new(rt.alloc());
    match file.read_to_end(&mut text) {
        Ok(_) => Ok(Some(text)),
        Err(error) => Err(error),
    }
}

/// Appends the words of the response file that a word names (`@FILE`) to those that wait, the last
/// of which is the next. Returns whether there is such a file.
fn push_response(
    rt: &(impl Files + AllocGlobal),
    word: &str,
    waiting: &mut Vec<String>,
) -> io::Result<bool> {
    let Some(path) = word.strip_prefix('@') else {
        return Ok(false);
    };
    let Some(text) = response_text(rt, path)? else {
        return Ok(false);
    };
    let count = waiting.len();
    push_words(rt.alloc(), &text, waiting)?;
    if let Some(words) = waiting.as_mut_slice().get_mut(count..) {
        words.reverse();
    }
    Ok(true)
}

/// The words with those of response files in the place of their names.
fn expanded(rt: &(impl Files + AllocGlobal), mut waiting: Vec<String>) -> io::Result<Vec<String>> {
    waiting.reverse();
    let mut read = 0;
    let mut all = Vec::new(rt.alloc());
    for _ in 0..u64::MAX {
        let Some(word) = waiting.pop() else {
            break;
        };
        if read < RESPONSE_FILES && push_response(rt, word.as_str(), &mut waiting)? {
            read += 1;
        } else {
            all.push(word)?;
        }
    }
    Ok(all)
}

/// The texts that the program is given.
///
/// # Errors
/// As the system's.
pub fn given_words(rt: &(impl Env + Files + AllocGlobal)) -> io::Result<GivenWords> {
    let mut arguments = env::args(rt)?;
    let program = match arguments.next() {
        Some(program) => program,
        None => String::from_str(rt.alloc(), "pdb_llvm_symbolizer")?,
    };
    let mut words = Vec::new(rt.alloc());
    push_environment_words(rt, program.as_str(), &mut words)?;
    for word in arguments {
        words.push(word)?;
    }
    let words = expanded(rt, words)?;
    let search_path = variable(rt, "_NT_SYMBOL_PATH")?;
    Ok(GivenWords {
        program,
        words,
        search_path,
    })
}
