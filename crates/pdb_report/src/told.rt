//! The line on a fault, written in pieces, so that it takes no memory.

ghost use Rattle.std.specs.Prelude.{◌≡◌, decimal};
ghost use Rattle.pdb_container.specs.PrintedFault.{piece_text};
ghost use Rattle.pdb_engine.specs.Puts.{Puts};
ghost use Rattle.pdb_report.specs.ToldFault.{fault_line, pieces_text};

use crate::fault::RunFault;
use itoa::Buffer;
use pdb_container::PrintedPiece;
use pdb_engine::ErrorOutput;
use std::io::ErrorKind;

/// Writes a piece, and stops at the first failure.
///
/// # Errors
/// The kind of the failure.
fn write_piece<W: ErrorOutput>(output: &mut W, piece: PrintedPiece<'_>) -> Result<(), ErrorKind>
    ensures { Puts W.contents W.failures W.has_failed output.old output.new result
        (piece_text piece.entry) }
{
    match piece {
        PrintedPiece::Text(text) => output.put(text.as_bytes()),
        PrintedPiece::Number(number) => write_number(output, number),
    }
}

/// Writes a number in decimal, and stops at the first failure.
///
/// # Errors
/// As [`write_piece`].
fn write_number<W: ErrorOutput>(output: &mut W, number: u64) -> Result<(), ErrorKind>
    ensures { Puts W.contents W.failures W.has_failed output.old output.new result
        (decimal number) }
{
    let mut buffer = Buffer::new();
    let digits = buffer.format(number);
    output.put(digits.as_bytes())
}

/// Writes pieces, one after the other, and stops at the first failure.
///
/// # Errors
/// The kind of the failure.
#[tactic(auto, using(crate::proofs::Pieces::pieces_more, crate::proofs::Pieces::pieces_all, crate::proofs::Pieces::pieces_part))]
fn write_pieces<W: ErrorOutput>(
    output: &mut W,
    pieces: &[PrintedPiece<'_>],
) -> Result<(), ErrorKind>
    ensures { Puts W.contents W.failures W.has_failed output.old output.new result
        (pieces_text pieces.now) }
{
    for piece in pieces {
        match write_piece(output, *piece) {
            Ok(()) => {}
            Err(kind) => return Err(kind),
        }
    }
    Ok(())
}

/// Returns the pieces of the line on a fault.
#[tactic(auto, using(std::proofs::Common::append_assoc))]
fn line_pieces(fault: &RunFault) -> [PrintedPiece<'_>; 9]
    ensures { pieces_text result ≡ fault_line fault.now }
{
    let printed = fault.printed();
    [
        PrintedPiece::Text("fault: "),
        PrintedPiece::Text(printed.name),
        printed.first,
        PrintedPiece::Text(printed.between),
        printed.second,
        PrintedPiece::Text(printed.before_third),
        printed.third,
        PrintedPiece::Text(printed.end),
        PrintedPiece::Text("\n"),
    ]
}

/// Reports a fault in one line, and stops at the first failure. It takes no memory.
///
/// # Errors
/// The kind of the failure.
pub fn tell<W: ErrorOutput>(fault: &RunFault, output: &mut W) -> Result<(), ErrorKind>
    ensures { Puts W.contents W.failures W.has_failed output.old output.new result
        (fault_line fault.now) }
{
    let pieces = line_pieces(fault);
    write_pieces(output, &pieces)
}
