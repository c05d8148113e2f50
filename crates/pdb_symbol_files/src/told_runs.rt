//! The addresses of an image with what is told of them, run by run.

ghost use Rattle.std.specs.Prelude.{◌≡◌, ◌+◌, ◌*◌, ◌<◌, ◌≤◌, [], ℕ, Bool, IfOk, IfSome, List, OnOk};
ghost use Rattle.std.specs.Prelude.{Option};
ghost use Rattle.std.specs.Prelude.{string_bytes};
ghost use Rattle.pdb_symbol_files.specs.Code.{AreAscending, answers_along, in_ranges};
ghost use Rattle.pdb_symbol_files.specs.Code.{pieces_of_code};
ghost use Rattle.pdb_symbol_files.specs.CodeRoads.{records_of_code};
ghost use Rattle.pdb_symbol_files.specs.Output.{IsAppended};
ghost use Rattle.pdb_symbol_files.specs.PieceRecords.{AddsAnswers, AreOf};
ghost use Rattle.pdb_symbol_files.specs.PlainAnswers.{ArePlainAnswers, IsPlainTold};
ghost use Rattle.pdb_symbol_files.specs.Reading.{ReadsBack};
ghost use Rattle.pdb_symbol_files.specs.RecordTexts.{functions_text, numbers_text};
ghost use Rattle.pdb_symbol_files.specs.Told.{Told as ToldOf};
ghost use Rattle.pdb_symbol_files.specs.ToldRanges.{answers_of_range, answers_of_ranges, EndsPiece};
ghost use Rattle.pdb_symbol_files.specs.ToldRanges.{pieces_of_range, pieces_of_ranges, TellsRun};

use crate::addresses::{AddressRange, code_ranges, size_of_all};
use crate::functions::FunctionRecords;
use crate::pieces::{Piece, Told};
use pdb_addresses::ImageSectionHeader;
use std::alloc::{AllocError, Global};
use std::io::ErrorKind;

/// A run of addresses, with what is told of them.
#[derive(Drop)]
pub struct ToldRun {
    /// The answer that is told of each address, if there is one.
    pub told: Option<Told>,
    /// The number of addresses.
    pub count: u32,
}

/// The fault that leaves unknown what is told of an address.
#[derive(Debug, Drop)]
pub enum ToldFault {
    /// Out of memory.
    OutOfMemory,
    /// The database's file couldn't be read, with this kind.
    File(ErrorKind),
}

impl From<AllocError> for ToldFault {
    fn from(_cause: AllocError) -> ToldFault {
        ToldFault::OutOfMemory
    }
}

/// A value that tells what a symbol file says of addresses, run by run.
pub trait ToldRuns {
    // Whether what is told is known. This may be lost, and is never gained: fewer files agree with
    // more of a file's bytes.
    ghost known: { Self → Type 0 };
    // what is told of an address, where it is known
    ghost told: { Self → ℕ → Option ToldOf };
    // the bytes of the file from which it is told
    ghost file: { Self → List ℕ };
    // the addresses at which a piece may begin: there the answer may differ from the one before
    ghost begins: { Self → ℕ → Bool };
    // the number of lookups
    ghost lookups: { Self → ℕ };

    /// Makes ready for so many addresses, before the first of them is asked for. Nothing that is
    /// told depends on it. An implementation that doesn't need it leaves it out.
    fn prepare(&mut self, _addresses: u64)
        ensures grows { known self.new → known self.old }
        ensures same { told self.new ≡ told self.old }
        ensures file { file self.new ≡ file self.old }
        ensures begins { begins self.new ≡ begins self.old }
        ensures lookups { lookups self.new ≡ lookups self.old }
    {}

    /// Returns what is told of an address, and the number of addresses from there on, before `end`,
    /// of which the same is told.
    ///
    /// # Errors
    /// `File` where the database's file couldn't be read; `OutOfMemory`.
    fn told_run(&mut self, alloc: Global, address: u32, end: u32) -> Result<ToldRun, ToldFault>
        requires { address < end }
        ensures some { IfOk result (λ run. 1 ≤ run.count) }
        ensures within { IfOk result (λ run. address + run.count ≤ end) }
        ensures told { known self.new → IfOk result (TellsRun (told self.old) address) }
        // No name or file has a control character, such as a line break.
        ensures plain { IfOk result (λ run. IfSome run.told IsPlainTold) }
        ensures grows { known self.new → known self.old }
        // Asking changes nothing that is told.
        ensures same { told self.new ≡ told self.old }
        ensures file { file self.new ≡ file self.old }
        // A run ends where the next piece may begin, so that runs are few.
        ensures ends { known self.new → IfOk result (EndsPiece (begins self.old) address end) }
        ensures begins { begins self.new ≡ begins self.old }
        // The function and the frames are looked up, once for all of the run.
        ensures lookups { OnOk result (lookups self.new ≤ lookups self.old + 2) };
}

/// Adds a run from an address on.
fn add_run(records: &mut FunctionRecords, address: u32, run: ToldRun) -> Result<(), AllocError>
    ensures { (told : ℕ → Option ToldOf) → TellsRun told address run
        → AddsAnswers records.old records.new (answers_along told address run.count) result }
{
    let ToldRun { told, count } = run;
    match told {
        Some(told) => records.add(Piece {
            address,
            size: count,
            told,
        }),
        None => Ok(()),
    }
}

/// Adds what is told of a range of addresses.
fn add_range<R: ToldRuns>(
    alloc: Global,
    runs: &mut R,
    range: AddressRange,
    records: &mut FunctionRecords,
) -> Result<(), ToldFault>
    ensures grows { R.known runs.new → R.known runs.old }
    ensures same { R.told runs.new ≡ R.told runs.old }
    ensures file { R.file runs.new ≡ R.file runs.old }
    ensures added { R.known runs.new
        → AddsAnswers records.old records.new (answers_of_range (R.told runs.old) range) result }
    ensures plain { R.known runs.new
        → OnOk result (ArePlainAnswers (answers_of_range (R.told runs.old) range)) }
    ensures begins { R.begins runs.new ≡ R.begins runs.old }
    ensures lookups { R.known runs.new → OnOk result (R.lookups runs.new
        ≤ R.lookups runs.old + 2 * pieces_of_range (R.begins runs.old) range) }
{
    let mut address = range.start;
    while address < range.end {
        let run = runs.told_run(alloc, address, range.end)?;
        let count = run.count;
        add_run(records, address, run)?;
        address += count;
    }
    Ok(())
}

/// The records of what is told of ranges of addresses.
fn records_of_ranges<R: ToldRuns>(
    alloc: Global,
    runs: &mut R,
    ranges: &[AddressRange],
) -> Result<FunctionRecords, ToldFault>
    ensures grows { R.known runs.new → R.known runs.old }
    ensures same { R.told runs.new ≡ R.told runs.old }
    ensures file { R.file runs.new ≡ R.file runs.old }
    ensures of { R.known runs.new → IfOk result
        (λ records. AreOf records (answers_of_ranges (R.told runs.old) ranges.now)) }
    ensures plain { R.known runs.new
        → OnOk result (ArePlainAnswers (answers_of_ranges (R.told runs.old) ranges.now)) }
    ensures begins { R.begins runs.new ≡ R.begins runs.old }
    ensures lookups { R.known runs.new → OnOk result (R.lookups runs.new
        ≤ R.lookups runs.old + 2 * pieces_of_ranges (R.begins runs.old) ranges.now) }
{
    let mut records = FunctionRecords::new(alloc);
    for range in ranges {
        add_range(alloc, runs, *range, &mut records)?;
    }
    Ok(records)
}

/// Appends the FILE and INLINE_ORIGIN records of what is told of the addresses at which code may
/// run, by the image's section headers, and returns the text of the FUNC records with the records
/// below them. A consumer reads both texts back as these records; so it says of each address what
/// is told of it, and nothing of any other, by the law [`code_roads`](crate::laws::code_roads).
/// Places are looked up at most twice for each piece of these addresses.
///
/// # Errors
/// `File` where the database's file couldn't be read; `OutOfMemory`.
pub fn append_functions<R: ToldRuns>(
    alloc: Global,
    runs: &mut R,
    sections: &[ImageSectionHeader],
    output: &mut String,
) -> Result<String, ToldFault>
    ensures grows { R.known runs.new → R.known runs.old }
    ensures same { R.told runs.new ≡ R.told runs.old }
    ensures file { R.file runs.new ≡ R.file runs.old }
    ensures numbers { R.known runs.new → OnOk result (IsAppended output.old output.new
        (numbers_text (records_of_code sections.now (R.told runs.old)))) }
    ensures functions { R.known runs.new → IfOk result (λ text. string_bytes text
        ≡ functions_text (records_of_code sections.now (R.told runs.old))) }
    ensures back { R.known runs.new
        → OnOk result (ReadsBack (records_of_code sections.now (R.told runs.old))) }
    ensures begins { R.begins runs.new ≡ R.begins runs.old }
    ensures lookups { R.known runs.new → OnOk result (R.lookups runs.new
        ≤ R.lookups runs.old + 2 * pieces_of_code sections.now (R.begins runs.old)) }
{
    let ranges = code_ranges(alloc, sections)?;
    runs.prepare(size_of_all(ranges.as_slice()));
    let records = records_of_ranges(alloc, runs, ranges.as_slice())?;
    Ok(records.finish(output)?)
}
