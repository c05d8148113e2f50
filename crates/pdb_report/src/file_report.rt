//! The report on an input, from a file that is read on demand.

ghost use Rattle.std.specs.Prelude.{◌≡◌, ◌^◌, true};
ghost use Rattle.pdb_addr2line.specs.FileAnswers.{IsKnown, file_of};
ghost use Rattle.pdb_file_views.specs.Views.{agrees, Grows};
ghost use Rattle.pdb_report.specs.FrameReports.{ExchangesFrames, ExchangesFramesIn};
ghost use Rattle.pdb_report.specs.FrameReports.{ReportsFileFrames, ReportsFileFramesIn};
ghost use Rattle.pdb_report.specs.FrameReports.{ReportsIfKnown, answers_in, frames_loaded};
ghost use Rattle.pdb_report.specs.FrameReports.{frames_of};
ghost use Rattle.pdb_report.specs.Isolation.{IsIsolated};
ghost use Rattle.pdb_report.specs.Adds.{Adds};
ghost use Rattle.pdb_report.specs.RunFaults.{OnMemoryOrFile};

use crate::fault::RunFault;
use crate::forms::{LineForm, TextLines};
use crate::lines::append_text;
use crate::report::{AtEnd, INPUT_LIMIT, let_go};
use pdb_addr2line::{FileOnDemand, FileSymbolizer, NotLoaded, TRIES};
use pdb_engine::{Answers, InputFault, LineStart, Request, Watched, parse_address, run};
use std::alloc::{AllocError, Global};
use std::io::{ErrorKind, Read, Write};
use std::marker::{Model, PhantomData};
use std::os::unix::fs::FileExt;

/// The number of lines up to which a read is made ready for even where nothing was missing the
/// last time: to find the modules of many lines takes a twentieth of the time of their answers.
const SHORT_READ: usize = 1000;

/// A file that is asked for the answers to lines, whose names are made with the default flags; room
/// for a text; whether nothing was missing when the file was last to be read; how reading it
/// failed, if it did; and the form of texts.
#[derive(Drop)]
struct FileLines<'a, F: Drop, L> {
    symbolizer: FileSymbolizer<'a, F>,
    room: Vec<u8>,
    is_ready: bool,
    failed: Option<ErrorKind>,
    form: PhantomData<L>,
}

impl<'a, F: Drop, L> Model for FileLines<'a, F, L> {
    ghost use Rattle.std.specs.Prelude.{◌≡◌};
    ghost use Rattle.pdb_addr2line.specs.FileAnswers.{FileAnswers};

    ghost Value = { FileAnswers };

    ghost view = { λ lines. lines.symbolizer };

    ghost invariant = { λ lines. lines.symbolizer.flags ≡ 23 };
}

/// Appends the text in a form for a line, from what was read of a file.
///
/// # Errors
/// `AllocError` where memory runs out, or where something has to be read first.
#[tactic(auto, using(crate::proofs::FileLines::found_known))]
fn append_held_line<L: LineForm, F: Drop>(
    alloc: Global,
    symbolizer: &mut FileSymbolizer<'_, F>,
    line: &[u8],
    room: &mut Vec<u8>,
) -> Result<(), AllocError>
    requires { symbolizer.old.flags ≡ 23 }
    ensures contents { symbolizer.new.contents ≡ symbolizer.old.contents }
    ensures order { symbolizer.new.order ≡ symbolizer.old.order }
    ensures flags { symbolizer.new.flags ≡ symbolizer.old.flags }
    ensures views { symbolizer.new.views ≡ symbolizer.old.views }
    ensures text { IsKnown symbolizer.new → Adds result room.old room.new
        (L.text (answers_in symbolizer.old) line.now) }
{
    match parse_address(line) {
        None => L::append_other(alloc, line, room),
        Some(address) => {
            let found = symbolizer.find_held_shared_frames(alloc, address);
            L::append_found(address, found, room)
        }
    }
}

impl<'a, F: FileExt + Drop, L: LineForm> FileLines<'a, F, L> {
    /// Reads what was asked for and is missing, unless reading the file failed before; returns
    /// whether there is more now.
    fn read_missing(&mut self, alloc: Global) -> bool
        ensures contents { self.new.contents ≡ self.old.contents }
        ensures order { self.new.order ≡ self.old.order }
        ensures grows { Grows self.old.views self.new.views }
    {
        if self.failed.is_some() {
            return false;
        }
        match self.symbolizer.go_on(alloc) {
            Ok(more) => {
                self.is_ready = !more;
                more
            }
            Err(kind) => {
                self.failed = Some(kind);
                false
            }
        }
    }
}

/// The numbers of the modules that hold the addresses of requests; some may be repeated.
fn modules_of<F: Drop, S: LineStart>(
    alloc: Global,
    symbolizer: &FileSymbolizer<'_, F>,
    requests: &[Request<S>],
) -> Result<Vec<usize>, AllocError> {
    let mut numbers = Vec::new(alloc);
    for request in requests {
        let Some(address) = parse_address(request.line.bytes()) else {
            continue;
        };
        if let Some(number) = symbolizer.module_at(address) {
            numbers.push(number)?;
        }
    }
    Ok(numbers)
}

impl<'a, F: FileExt + Drop, L: LineForm> Answers for FileLines<'a, F, L> {
    type Start = L::Start;

    ghost use Rattle.pdb_report.specs.Answer.{answer_with};
    ghost use Rattle.pdb_addr2line.specs.FileAnswers.{IsKnown};
    ghost use Rattle.pdb_symbols_modules.specs.Streams.{streams};

    ghost known = { λ lines. IsKnown lines };

    ghost text = { λ lines line. L.text
        (answer_with lines.order (streams lines.contents)) line };

    ghost subject = { λ lines. lines.contents };

    fn place(&self, line: &[u8]) -> u32 {
        parse_address(line).unwrap_or(0)
    }

    fn prepare(&mut self, alloc: Global, requests: &[Request<L::Start>]) {
        let is_long = requests.len() > SHORT_READ;
        if self.is_ready && is_long || !self.symbolizer.reads_exactly() {
            return;
        }
        if let Ok(numbers) = modules_of(alloc, &self.symbolizer, requests) {
            self.symbolizer.ask(numbers);
            self.read_missing(alloc);
        }
    }

    fn answer(
        &mut self,
        alloc: Global,
        line: &[u8],
        output: &mut Vec<u8>,
    ) -> Result<(), AllocError> {
        for _ in 0..TRIES {
            self.room.clear();
            match append_held_line::<L, F>(alloc, &mut self.symbolizer, line, &mut self.room) {
                Ok(()) => return append_text(alloc, &mut self.room, output),
                Err(_) => {}
            }
            if !self.read_missing(alloc) {
                return Err(AllocError);
            }
        }
        Err(AllocError)
    }
}

/// Answers the lines of the reader from a file that was loaded and is read on demand.
///
/// # Errors
/// `Read` and `Write` where reader or writer failed in this call; `File` where the file couldn't be
/// read; `InputTooLong` past 2^30 bytes of input; `OutOfMemory`.
fn answer_file_lines<L: LineForm, F: FileExt + Drop, R: Read, W: Write>(
    alloc: Global,
    lines: &mut FileLines<'_, F, L>,
    reader: &mut Watched<R>,
    writer: &mut Watched<W>,
) -> Result<(), RunFault>
    ensures contents { lines.new.contents ≡ lines.old.contents }
    ensures grows { IsKnown lines.new → IsKnown lines.old }
    ensures run { ReportsIfKnown (IsKnown lines.new) L.text (frames_loaded (file_of lines.old))
        (2 ^ 30) R.remaining W.contents reader.old reader.new writer.old writer.new result }
{
    match run(alloc, lines, reader, writer, INPUT_LIMIT) {
        Ok(()) => Ok(()),
        Err(InputFault::OutOfMemory) => Err(memory_fault(lines.failed)),
        Err(fault) => Err(RunFault::from(fault)),
    }
}

/// The fault of a run that was refused for lack of memory or of the file, with the kind with which
/// reading the file failed, if it did.
pub(crate) fn memory_fault(failed: Option<ErrorKind>) -> RunFault
    ensures { OnMemoryOrFile result }
{
    match failed {
        Some(kind) if kind != ErrorKind::OutOfMemory => RunFault::File(kind),
        _ => RunFault::OutOfMemory,
    }
}

/// The outcome of a run over a file that is read on demand, and the file.
#[derive(Drop)]
pub struct FileRun<'a, F: Drop> {
    /// The outcome of the run.
    pub outcome: Result<(), RunFault>,
    /// The file, with what was read of it.
    pub source: FileOnDemand<'a, F>,
}

/// Answers the lines of the reader from a file that was loaded and is read on demand, and lets go
/// of all but the file.
///
/// # Errors
/// As [`answer_file_lines`].
fn answer_file<'a, L: LineForm, F: FileExt + Drop, R: Read, W: Write>(
    alloc: Global,
    symbolizer: FileSymbolizer<'a, F>,
    reader: &mut Watched<R>,
    writer: &mut Watched<W>,
    at_end: AtEnd,
) -> FileRun<'a, F>
    requires { symbolizer.flags ≡ 23 }
    ensures grows { agrees result.source.views symbolizer.entry.contents ≡ true
        → IsKnown symbolizer.entry }
    ensures report { ReportsFileFramesIn L.text (frames_loaded (file_of symbolizer.entry))
        R.remaining W.contents reader.old reader.new writer.old writer.new result }
{
    let form: PhantomData<L> = PhantomData;
    let mut lines = FileLines {
        symbolizer,
        room: Vec::new(alloc),
        is_ready: false,
        failed: None,
        form,
    };
    let outcome = answer_file_lines(alloc, &mut lines, reader, writer);
    let FileLines {
        symbolizer,
        room,
        ..
    } = lines;
    drop(room);
    let (source, context) = symbolizer.into_parts();
    let_go(context, at_end);
    FileRun { outcome, source }
}

/// Writes the report on the lines of the reader from a file that is read on demand: for each line
/// the answer for its address, and nothing else. What is said of the file's bytes holds of those
/// that `source` takes the file to have, where they agree with everything that was read.
///
/// # Errors
/// As [`run_frames`](crate::run_frames); `File` where the file couldn't be read, and then a prefix
/// of the report is out.
pub fn run_file_frames<'a, F: FileExt + Drop, R: Read, W: Write>(
    alloc: Global,
    source: FileOnDemand<'a, F>,
    reader: &mut Watched<R>,
    writer: &mut Watched<W>,
    at_end: AtEnd,
) -> FileRun<'a, F>
    ensures report { ReportsFileFrames (frames_of source.entry) R.remaining W.contents
        reader.old reader.new writer.old writer.new result }
    // The file's answers are the answers of every other file that is alike for the module that
    // holds the address. At `Ok` what is out is also the report in which the lines of one module's
    // addresses are such a file's.
    ensures isolated { IsIsolated source.entry.contents.numbers }
    ensures exchanged { ExchangesFrames (frames_of source.entry) R.remaining W.contents
        reader.old writer.old writer.new result }
{
    run_file_frames_in::<TextLines, F, R, W>(alloc, source, reader, writer, at_end)
}

/// As [`run_file_frames`], in any form, such as [`JsonLines`](crate::JsonLines).
///
/// # Errors
/// The errors of [`run_file_frames`].
pub fn run_file_frames_in<'a, L: LineForm, F: FileExt + Drop, R: Read, W: Write>(
    alloc: Global,
    source: FileOnDemand<'a, F>,
    reader: &mut Watched<R>,
    writer: &mut Watched<W>,
    at_end: AtEnd,
) -> FileRun<'a, F>
    ensures report { ReportsFileFramesIn L.text (frames_of source.entry) R.remaining W.contents
        reader.old reader.new writer.old writer.new result }
    ensures isolated { IsIsolated source.entry.contents.numbers }
    ensures exchanged { ExchangesFramesIn L.text (frames_of source.entry) R.remaining W.contents
        reader.old writer.old writer.new result }
{
    match FileSymbolizer::open(alloc, source) {
        Ok(symbolizer) => answer_file::<L, F, R, W>(alloc, symbolizer, reader, writer, at_end),
        Err(NotLoaded { fault, source }) => FileRun {
            outcome: Err(RunFault::from(fault)),
            source,
        },
    }
}
