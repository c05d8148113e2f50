//! Texts of decorated names of Visual C++: `undecorated FILE`.
//!
//! FILE has a name a line. For each the name is written, a tab, its short text, a tab, and its full
//! text, each `-` where the name has none. The short text leaves out access, calling conventions,
//! `static`, `virtual` and the type that a function returns. Bytes that aren't UTF-8 are written as
//! they are.

use anyhow::{Result, bail};
use msvc_demangler::{DemangleFlags, Demangled, FULL_TEXT, SHORT_TEXT, demangle};
use std::alloc::{AllocError, Global};
use std::fs;
use std::io::{self, BufRead, BufReader, BufWriter, Read, Write};
use std::rt::Files;

/// Writes the texts of the names of a file, as the program's arguments say, of which the first is
/// `undecorated`.
///
/// # Errors
/// Arguments of another form, a file that can't be read, a failed write; out of memory.
pub fn run(rt: &(impl Files + Print + AllocGlobal), words: &[String]) -> Result<()> {
    let [_, file] = words else {
        bail!("usage: recorded_cases undecorated FILE");
    };
    let mut output = BufWriter::new(rt.alloc(), io::writer(rt))?;
    write_texts(rt.alloc(), fs::open(rt, file.as_str())?, &mut output)?;
    Ok(output.flush()?)
}

/// Writes a line for each name that a reader gives.
fn write_texts(alloc: Global, names: impl Read + Drop, output: &mut impl Write) -> Result<()> {
    for name in BufReader::new(alloc, names)?.split(alloc, b'\n') {
        let line = line_of(alloc, &name?)?;
        output.write_all(line.as_slice())?;
    }
    Ok(())
}

/// The line for a name.
fn line_of(alloc: Global, name: &[u8]) -> Result<Vec<u8>, AllocError> {
    let mut line = Vec::new(alloc);
    line.extend_from_slice(name)?;
    push_text(alloc, &mut line, name, SHORT_TEXT)?;
    push_text(alloc, &mut line, name, FULL_TEXT)?;
    line.push(b'\n')?;
    Ok(line)
}

/// Appends a tab and the text of a name, or `-`.
fn push_text(
    alloc: Global,
    line: &mut Vec<u8>,
    name: &[u8],
    flags: DemangleFlags,
) -> Result<(), AllocError> {
    line.push(b'\t')?;
    match demangle(alloc, name, flags)? {
        Demangled::Text(text) => line.extend_from_slice(text.as_slice())?,
        Demangled::Undecorated => line.push(b'-')?,
    }
    Ok(())
}
