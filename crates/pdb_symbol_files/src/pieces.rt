//! Pieces: ranges of addresses with one answer, as a symbol file tells it.

ghost use Rattle.std.specs.Prelude.{◌≡◌};
ghost use Rattle.pdb_symbol_files.specs.Told.{continues, same_function as is_same_function};
ghost use Rattle.pdb_symbol_files.specs.Told.{same_call as is_same_call};

use std::marker::Model;

/// An inlined call: the function that was called, and the place of the call.
#[derive(Drop)]
pub struct Call {
    /// The source file of the place of the call.
    pub file: String,
    /// The line of this place, counted from 1; 0 if it isn't known.
    pub line: u32,
    /// The name of the function that was called.
    pub callee: String,
}

impl Model for Call {
    ghost use Rattle.std.specs.Prelude.{string_bytes};
    ghost use Rattle.pdb_symbol_files.specs.Told as answers;

    ghost Value = { answers.Call };

    ghost view = { λ c. record {
      file = string_bytes c.file;
      line = c.line;
      callee = string_bytes c.callee;
    } };
}

/// The function, the inlined calls and the place that a symbol file tells of an address.
#[derive(Drop)]
pub struct Told {
    /// The address at which the function begins, if it is known.
    pub start: Option<u32>,
    /// The function's name.
    pub function: String,
    /// The inlined calls over the address, the outermost one first.
    pub calls: Vec<Call>,
    /// The source file of the innermost frame.
    pub file: String,
    /// The line of the innermost frame, counted from 1; 0 if it isn't known.
    pub line: u32,
}

impl Model for Told {
    ghost use Rattle.std.specs.Prelude.{string_bytes};
    ghost use Rattle.pdb_symbol_files.specs.Told as answers;

    ghost Value = { answers.Told };

    ghost view = { λ t. record {
      start = t.start;
      function = string_bytes t.function;
      calls = t.calls.items;
      file = string_bytes t.file;
      line = t.line;
    } };
}

/// A range of addresses with one answer.
#[derive(Drop)]
pub struct Piece {
    /// The first address, in bytes from the image's start.
    pub address: u32,
    /// The number of its addresses.
    pub size: u32,
    /// The answer for each of these addresses.
    pub told: Told,
}

impl Model for Piece {
    ghost use Rattle.pdb_symbol_files.specs.Told as answers;

    ghost Value = { answers.Piece };

    ghost view = { λ p. record { address = p.address; size = p.size; told = p.told } };
}

/// Whether two answers are of one function: its start and its name are the same.
fn is_one_function(a: &Told, b: &Told) -> bool
    ensures { result ≡ is_same_function a.now b.now }
{
    a.start == b.start && a.function.as_str() == b.function.as_str()
}

/// Whether a piece goes on with the function of the one before it: it begins where the one before
/// ends.
pub(crate) fn goes_on(before: &Piece, piece: &Piece) -> bool
    ensures { result ≡ continues before.now piece.now }
{
    u64::from(before.address) + u64::from(before.size) == u64::from(piece.address)
        && is_one_function(&before.told, &piece.told)
}

/// Whether two calls are the same.
pub(crate) fn is_one_call(a: &Call, b: &Call) -> bool
    ensures { result ≡ is_same_call a.now b.now }
{
    a.line == b.line && a.file.as_str() == b.file.as_str() && a.callee.as_str() == b.callee.as_str()
}
