//! Forms of reports on lines: as text, and as JSON.

ghost use Rattle.std.specs.Prelude.{◌≡◌, List, Some, codes, take, ℕ};
ghost use Rattle.pdb_report.specs.Forms.{AddsFound, AddsFoundLine, AddsOther, LineText};
ghost use Rattle.pdb_report.specs.AddressText.{AddressAnswers, answered_text};
ghost use Rattle.pdb_report.specs.Adds.{Adds};
ghost use Rattle.pdb_report.specs.JsonLine.{answered_object};

use crate::json::{append_json_address, append_json_other, append_json_unreadable};
use crate::texts::{append_address, append_unreadable};
use pdb_addr2line::{Error, SharedFunctionFrames};
use pdb_engine::{AddressStart, LineStart, LongStart};
use std::alloc::{AllocError, Global};

/// A form of reports on lines: the text for an address, from what was found there, and for any
/// other line.
pub trait LineForm {
    /// The start of a line, which decides the line's text.
    type Start: LineStart;

    // the text that is written for a line, from the answers
    ghost text: { LineText };

    /// Appends the text for a line that is an address, at which this was found.
    ///
    /// # Errors
    /// `AllocError` when memory runs out; a part may be appended then.
    fn append_found(
        address: u32,
        found: Result<Option<SharedFunctionFrames<'_>>, Error>,
        output: &mut Vec<u8>,
    ) -> Result<(), AllocError>
        ensures { AddsFoundLine text address found.entry result output.old output.new };

    /// Appends the text for a line that isn't an address.
    ///
    /// # Errors
    /// `AllocError` when memory runs out; a part may be appended then.
    fn append_other(alloc: Global, line: &[u8], output: &mut Vec<u8>) -> Result<(), AllocError>
        ensures { AddsOther text line.now result output.old output.new };

    // the start of a line decides the line's text
    ghost is_short: { (answers : AddressAnswers) (line : List ℕ)
        → text answers (take Self.Start.limit line) ≡ text answers line };
}

/// Lines of text: each address, and below it one line for each function there.
pub struct TextLines;

/// JSON Lines: for each line one line, which is an object.
pub struct JsonLines;

/// Appends the text for an address at which this was found.
#[tactic(auto, using(crate::proofs::ToldSteps::found_text, crate::proofs::ToldSteps::unreadable_text))]
fn append_found_text(
    address: u32,
    found: Result<Option<SharedFunctionFrames<'_>>, Error>,
    output: &mut Vec<u8>,
) -> Result<(), AllocError>
    ensures { AddsFound answered_text address found.entry result output.old output.new }
{
    match found {
        Ok(found) => {
            append_address(output, address, &found)?;
            Ok(())
        }
        Err(Error::OutOfMemory) => Err(AllocError),
        Err(_) => {
            append_unreadable(output, address)?;
            Ok(())
        }
    }
}

/// Appends the line of JSON for an address at which this was found.
#[tactic(auto, using(crate::proofs::ToldSteps::found_json, crate::proofs::ToldSteps::unreadable_json))]
fn append_found_json(
    address: u32,
    found: Result<Option<SharedFunctionFrames<'_>>, Error>,
    output: &mut Vec<u8>,
) -> Result<(), AllocError>
    ensures { AddsFound answered_object address found.entry result output.old output.new }
{
    match found {
        Ok(found) => {
            append_json_address(output, address, &found)?;
            Ok(())
        }
        Err(Error::OutOfMemory) => Err(AllocError),
        Err(_) => {
            append_json_unreadable(output, address)?;
            Ok(())
        }
    }
}

/// Appends the text for a line that isn't an address.
fn append_no_address(output: &mut Vec<u8>) -> Result<(), AllocError>
    ensures { Adds result output.old output.new (codes "not an address\n") }
{
    output.extend_from_slice(b"not an address\n")
}

impl LineForm for TextLines {
    type Start = AddressStart;

    ghost use Rattle.pdb_report.specs.AddressText.{line_text};
    ghost use Rattle.pdb_report.specs.ShortLines.{line_short};

    ghost text = { λ answers line. line_text answers line };

    fn append_found(
        address: u32,
        found: Result<Option<SharedFunctionFrames<'_>>, Error>,
        output: &mut Vec<u8>,
    ) -> Result<(), AllocError> {
        append_found_text(address, found, output)
    }

    fn append_other(_alloc: Global, _line: &[u8], output: &mut Vec<u8>) -> Result<(), AllocError> {
        append_no_address(output)
    }

    ghost is_short = { line_short };
}

impl LineForm for JsonLines {
    type Start = LongStart;

    ghost use Rattle.pdb_report.specs.JsonLine.{json_line};
    ghost use Rattle.pdb_report.specs.ShortLines.{json_short};

    ghost text = { λ answers line. json_line answers line };

    fn append_found(
        address: u32,
        found: Result<Option<SharedFunctionFrames<'_>>, Error>,
        output: &mut Vec<u8>,
    ) -> Result<(), AllocError> {
        append_found_json(address, found, output)
    }

    fn append_other(alloc: Global, line: &[u8], output: &mut Vec<u8>) -> Result<(), AllocError> {
        append_json_other(alloc, output, line)
    }

    ghost is_short = { λ answers line. json_short line answers };
}
