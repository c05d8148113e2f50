//! FUNC records, with the records below them.

ghost use Rattle.std.specs.Prelude.{◌≡◌, [], IfOk, OnOk, List, string_bytes};
ghost use Rattle.pdb_symbol_files.specs.Output.{IsAppended};
ghost use Rattle.pdb_symbol_files.specs.PieceRecords.{AddsAnswers, added, AreOf};
ghost use Rattle.pdb_symbol_files.specs.PieceRecords.{is_more as is_more_of};
ghost use Rattle.pdb_symbol_files.specs.PieceRecords.{numbers_after_function, pieces_head};
ghost use Rattle.pdb_symbol_files.specs.PieceRecords.{pieces_text, without_last};
ghost use Rattle.pdb_symbol_files.specs.PlainAnswers.{AreCountable};
ghost use Rattle.pdb_symbol_files.specs.Records.{symbol_records};
ghost use Rattle.pdb_symbol_files.specs.RecordTexts.{functions_text, numbers_text};
ghost use Rattle.pdb_symbol_files.specs.Told.{Answer, answers_of};

use crate::inlines::{Numbers, append_inlines};
use crate::lines::append_lines;
use crate::numbering::Numbering;
use crate::pieces::{Piece, goes_on};
use std::alloc::{AllocError, Global};
use std::marker::Model;

/// The records of a module's functions, by pieces in ascending order: FUNC records with INLINE and
/// line records below them, and before them FILE and INLINE_ORIGIN records. After an error they
/// are of no use.
#[derive(Drop)]
pub struct FunctionRecords {
    alloc: Global,
    numbers: Numbers,
    /// The pieces of the last function.
    pieces: Vec<Piece>,
    /// The text of the functions before the last.
    text: String,
}

impl Model for FunctionRecords {
    ghost use Rattle.std.specs.Prelude.{string_bytes};
    ghost use Rattle.pdb_symbol_files.specs.PieceRecords as adding;

    ghost Value = { adding.SoFar };

    ghost view = { λ r. record {
      numbers = r.numbers;
      last = r.pieces.items;
      text = string_bytes r.text;
    } };
}

/// Whether a piece goes on with the function of the pieces before it.
#[tactic(auto, using(crate::proofs::LastPieces::none_more, crate::proofs::LastPieces::some_more))]
fn is_more(pieces: &[Piece], piece: &Piece) -> bool
    ensures { result ≡ is_more_of pieces.now piece.now }
{
    match pieces.last() {
        Some(last) => goes_on(last, piece),
        None => true,
    }
}

/// Appends the FUNC record of pieces, from the first one and the last one.
fn append_head(first: &Piece, last: &Piece, output: &mut String) -> Result<(), AllocError>
    ensures { OnOk result (IsAppended output.old output.new (pieces_head first.now last.now)) }
{
    let end = u64::from(last.address) + u64::from(last.size);
    let size = end.saturating_sub(u64::from(first.address));
    let (address, name) = (first.address, &first.told.function);
    write!(output, "FUNC {address:x} {size:x} 0 {name}\n")
}

/// Appends the records of a function's pieces.
fn append_function(
    alloc: Global,
    pieces: &[Piece],
    numbers: &mut Numbers,
    output: &mut String,
) -> Result<(), AllocError>
    ensures numbers { OnOk result (numbers.new ≡ numbers_after_function numbers.old pieces.now) }
    ensures text { OnOk result
        (IsAppended output.old output.new (pieces_text numbers.old pieces.now)) }
{
    let (Some(first), Some(last)) = (pieces.first(), pieces.last()) else {
        return Ok(());
    };
    append_head(first, last, output)?;
    append_inlines(alloc, pieces, numbers, output)?;
    append_lines(alloc, pieces, &mut numbers.files, output)?;
    Ok(())
}

impl FunctionRecords {
    /// No records.
    pub fn new(alloc: Global) -> FunctionRecords
        ensures { AreOf result [] }
    {
        FunctionRecords {
            alloc,
            numbers: Numbers {
                files: Numbering::new(alloc),
                origins: Numbering::new(alloc),
            },
            pieces: Vec::new(alloc),
            text: String::new(alloc),
        }
    }

    /// Appends the records of the last function to the text.
    fn end_function(&mut self) -> Result<(), AllocError>
        ensures { OnOk result (self.new ≡ without_last self.old) }
    {
        let FunctionRecords {
            alloc,
            numbers,
            pieces,
            text,
        } = self;
        append_function(*alloc, pieces.as_slice(), numbers, text)?;
        pieces.clear();
        Ok(())
    }

    /// Adds a piece, which may have no address.
    fn add_piece(&mut self, piece: Piece) -> Result<(), AllocError>
        ensures { OnOk result (self.new ≡ added self.old piece) }
    {
        if piece.size == 0 {
            return Ok(());
        }
        if !is_more(self.pieces.as_slice(), &piece) {
            self.end_function()?;
        }
        self.pieces.push(piece)?;
        Ok(())
    }

    /// Adds a piece, with addresses that come after all that were added.
    ///
    /// # Errors
    /// `AllocError` when memory runs out.
    pub fn add(&mut self, piece: Piece) -> Result<(), AllocError>
        ensures { AddsAnswers self.old self.new (answers_of piece) result }
    {
        self.add_piece(piece)?;
        Ok(())
    }

    /// Appends the FILE and INLINE_ORIGIN records, and returns the text of the FUNC records with
    /// the records below them.
    ///
    /// # Errors
    /// `AllocError` when memory runs out.
    pub fn finish(self, output: &mut String) -> Result<String, AllocError>
        ensures numbers { (answers : List Answer) → AreOf self answers
            → OnOk result (IsAppended output.old output.new (numbers_text (symbol_records answers))) }
        ensures functions { (answers : List Answer) → AreOf self answers
            → IfOk result (λ text. string_bytes text ≡ functions_text (symbol_records answers)) }
        ensures few { (answers : List Answer) → AreOf self answers
            → OnOk result (AreCountable (symbol_records answers)) }
    {
        let mut records = self;
        records.end_function()?;
        let FunctionRecords {
            alloc: _,
            numbers,
            pieces: _,
            text,
        } = records;
        numbers.files.append_records("FILE", output)?;
        numbers.origins.append_records("INLINE_ORIGIN", output)?;
        Ok(text)
    }
}
