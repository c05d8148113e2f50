//! The text of a decorated name.

ghost use Rattle.std.specs.Prelude.{◌+◌, ◌*◌, ◌≤◌, ◌^◌, IfOk, length};
ghost use Rattle.std.specs.Prelude.{◌≡◌, IsTrue};
ghost use Rattle.std.specs.Option.{ForSome};
ghost use Rattle.std.specs.Vec.{vec_len};
ghost use Rattle.msvc_demangler.specs.Answer.{IsTextOf, text_length};
ghost use Rattle.msvc_demangler.specs.Literals.{is_literal, literal_at, literal_name};

use crate::flags::DemangleFlags;
use crate::parser::Parser;
use crate::printer::{Piece, print_tree};
use crate::stop::{Result, Stop};
use std::alloc::{AllocError, Global};

/// The work that is done for a name.
#[derive(Clone, Copy)]
struct Work {
    /// The number of tasks of reading.
    tasks: usize,
    /// The number of pieces that are printed, with the pieces of parts that are printed to be
    /// referred to.
    pieces: usize,
}

/// The text of a name, or that it has none.
#[derive(Debug, Drop)]
pub enum Demangled {
    /// The text: bytes, since a name may have any.
    Text(Vec<u8>),
    /// The name isn't decorated, or the text is too long.
    Undecorated,
}

/// The text of a decorated name of Visual C++, as `llvm-undname` 19 prints it, without the parts
/// that the flags leave out. Bytes after a decorated name don't count. Where more than 2^20 pieces
/// and bytes would have to be printed, the name counts as one that isn't decorated, and so do names
/// of Rust (`_R..`) and of the Itanium ABI (`_ZN..`).
///
/// # Errors
/// `AllocError` when memory runs out.
pub fn demangle(
    alloc: Global,
    name: &[u8],
    flags: DemangleFlags,
) -> std::result::Result<Demangled, AllocError>
    ensures few { IfOk result (λ d. text_length d ≤ 2 ^ 20) }
    ensures literal { IsTrue (is_literal name.now)
        → IfOk result (λ d. IsTextOf (literal_name name.now) d) }
{
    let mut work = Work {
        tasks: 0,
        pieces: 0,
    };
    match text_of(alloc, name, flags, &mut work) {
        Ok(text) => Ok(Demangled::Text(text)),
        Err(Stop::Undecorated) => Ok(Demangled::Undecorated),
        Err(Stop::OutOfMemory) => Err(AllocError),
    }
}

/// The text of a name that was read, and the number of pieces that were printed for it in all.
fn print(
    parser: &Parser<'_>,
    symbol: usize,
    flags: DemangleFlags,
    pieces: &mut usize,
) -> Result<Vec<u8>>
    ensures few { IfOk result (λ text. vec_len text ≤ 2 ^ 20) }
    ensures pieces { pieces.new ≤ 2 ^ 20 }
    ensures literal { ForSome (literal_at parser.now.tree symbol)
        (λ text. IfOk result (λ printed. printed.items ≡ text)) }
{
    let mut budget = parser.budget;
    let piece = Piece::Whole(symbol, flags);
    let text = print_tree(parser.alloc, &parser.tree, piece, &mut budget);
    *pieces = budget.pieces;
    text
}

/// The text of a decorated name, and the work that is done for it, or for finding that it has none.
fn text_of(alloc: Global, name: &[u8], flags: DemangleFlags, work: &mut Work) -> Result<Vec<u8>>
    ensures few { IfOk result (λ text. vec_len text ≤ 2 ^ 20) }
    ensures literal { IsTrue (is_literal name.now)
        → IfOk result (λ text. literal_name name.now ≡ Some text.items) }
    ensures tasks { work.new.tasks ≤ 32 * (length name.now + 1) }
    ensures pieces { work.new.pieces ≤ 2 ^ 20 }
{
    *work = Work {
        tasks: 0,
        pieces: 0,
    };
    let mut parser = Parser::new(alloc, name)?;
    let read = parser.read(&mut work.tasks);
    work.pieces = parser.budget.pieces;
    match read {
        Ok(symbol) => print(&parser, symbol, flags, &mut work.pieces),
        Err(stop) => Err(stop),
    }
}
