//! The compiler that made a module.

use pdb_container::{FallibleIterator, half_at, nul_in};
use pdb_symbols_modules::{ModuleInfo, Symbol, SymbolIter};
use std::alloc::{AllocError, Global};

/// The kind of a record of the compiler, with three numbers in each version (`S_COMPILE2`).
const S_COMPILE2: u16 = 0x1116;

/// The kind of a record of the compiler, with four numbers in each version (`S_COMPILE3`).
const S_COMPILE3: u16 = 0x113c;

/// The number of symbols that are looked at: a compiler's record stands among a module's first
/// ones.
const FIRST_SYMBOLS: usize = 16;

/// Appends a blank and the numbers of a version, with points between them.
fn append_version(text: &mut String, bytes: &[u8]) -> Result<(), AllocError> {
    let mut before = " ";
    let mut rest = bytes;
    while rest.len() >= 2 {
        let number = half_at(rest, 0);
        write!(text, "{before}{number}")?;
        before = ".";
        rest = &rest[2..];
    }
    Ok(())
}

/// The bytes before the first NUL, or all of them.
fn before_nul(bytes: &[u8]) -> &[u8] {
    match nul_in(bytes) {
        Some(end) => bytes.get(..end).unwrap_or(bytes),
        None => bytes,
    }
}

/// Whether a text has a digit.
fn has_digit(text: &[u8]) -> bool {
    text.iter().any(|byte| byte.is_ascii_digit())
}

/// The compiler of a record, after its kind, in which a version has so many bytes: its name, with
/// its version where the name has no digit.
fn compiler_in(alloc: Global, bytes: &[u8], version: usize) -> Result<Option<String>, AllocError> {
    // Flags, a machine, and the version of the compiler's front stand before the compiler's own.
    let start = version.saturating_add(6);
    let end = start.saturating_add(version);
    let (Some(numbers), Some(name)) = (bytes.get(start..end), bytes.get(end..)) else {
        return Ok(None);
    };
    let name = before_nul(name);
    let mut text = String::from_utf8_lossy(alloc, name)?;
    if !has_digit(name) {
        append_version(&mut text, numbers)?;
    }
    Ok(Some(text))
}

/// The compiler of a symbol, if it is a record of one.
fn compiler_by(alloc: Global, symbol: &Symbol<'_>) -> Result<Option<String>, AllocError> {
    let bytes = symbol.raw_bytes().get(2..).unwrap_or(&[]);
    match symbol.raw_kind() {
        S_COMPILE2 => compiler_in(alloc, bytes, 6),
        S_COMPILE3 => compiler_in(alloc, bytes, 8),
        _ => Ok(None),
    }
}

/// The compiler of the first record of one among symbols.
fn first_compiler(
    alloc: Global,
    symbols: &mut SymbolIter<'_>,
) -> Result<Option<String>, AllocError> {
    for _ in 0..FIRST_SYMBOLS {
        let Ok(Some(symbol)) = symbols.next() else {
            return Ok(None);
        };
        if let Some(compiler) = compiler_by(alloc, &symbol)? {
            return Ok(Some(compiler));
        }
    }
    Ok(None)
}

/// The compiler that made a module: the name in the first record of one (`S_COMPILE2`,
/// `S_COMPILE3`) among its first symbols, with the compiler's version where the name has no digit.
/// `None` where there is none, or the symbols can't be read.
///
/// # Errors
/// `AllocError` when memory runs out.
pub fn compiler_of(alloc: Global, module: &ModuleInfo<'_>) -> Result<Option<String>, AllocError> {
    match module.symbols() {
        Ok(mut symbols) => first_compiler(alloc, &mut symbols),
        Err(_) => Ok(None),
    }
}
