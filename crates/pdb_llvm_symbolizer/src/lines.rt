//! The lines of standard input, and the addresses among the arguments.

ghost use Rattle.std.specs.Prelude.{[]};

use crate::arguments::Arguments;
use crate::files::{AskedFiles, LoadedFile, Loads};
use pdb_engine::{
    Answers, InputFault, LineStart, LongStart, Request, Watched, write_all, write_fault,
};
use pdb_llvm_protocol::{Style, TextOptions};
use std::alloc::{AllocError, Global};
use std::io::Write;

/// What answers the requests of a run: its files, and room for a text.
#[derive(Drop)]
pub struct RequestAnswers<'a, S: Eprint + AllocGlobal, O: Drop, L: Drop> {
    /// The files that were asked for.
    pub files: AskedFiles<'a, S, O, L>,
    /// Room in which each text is made.
    pub room: Vec<u8>,
    /// Whether memory ran out while lines were made ready for. Then none is answered.
    pub is_short: bool,
}

impl<'a, S, O, L> Answers for RequestAnswers<'a, S, O, L>
where
    S: Eprint + AllocGlobal,
    O: Loads<L> + Drop,
    L: LoadedFile,
{
    type Start = LongStart;

    // A line may name a file that is opened for it.
    ghost known = { λ _. ⊥ };

    ghost text = { λ _ _. [] };

    ghost subject = { λ _. [] };

    fn place(&self, _line: &[u8]) -> u32 {
        0
    }

    fn prepare(&mut self, _alloc: Global, requests: &[Request<LongStart>]) {
        for request in requests {
            if !self.expects(request.line.bytes()) {
                break;
            }
        }
        self.files.read_expected();
    }

    fn answer(
        &mut self,
        _alloc: Global,
        line: &[u8],
        output: &mut Vec<u8>,
    ) -> Result<(), AllocError> {
        if self.is_short {
            return Err(AllocError);
        }
        self.room.clear();
        self.files.append_line(line, &mut self.room)?;
        output.extend_from_slice(&self.room)
    }
}

/// What stands before, between and after the answers to addresses among the arguments.
#[derive(Clone, Copy)]
struct Marks {
    first: &'static str,
    next: &'static str,
    last: &'static str,
}

/// The marks of an array in JSON, and nothing in another style.
fn marks_of(texts: TextOptions) -> Marks {
    match texts.style {
        Style::Json if texts.pretty => Marks {
            first: "[\n  ",
            next: ",\n  ",
            last: "\n]\n",
        },
        Style::Json => Marks {
            first: "[",
            next: ",",
            last: "]\n",
        },
        Style::Llvm | Style::Gnu => Marks {
            first: "",
            next: "",
            last: "",
        },
    }
}

impl<'a, S, O, L> RequestAnswers<'a, S, O, L>
where
    S: Eprint + AllocGlobal,
    O: Loads<L> + Drop,
    L: LoadedFile,
{
    /// Makes ready for a line, and returns whether that may be done for lines after it, too.
    fn expects(&mut self, line: &[u8]) -> bool {
        match self.files.expect(line) {
            Ok(goes_on) => goes_on,
            Err(_) => {
                self.is_short = true;
                false
            }
        }
    }

    /// Makes ready for the addresses among the arguments, before the first of them is answered.
    fn prepare_inputs(&mut self, inputs: &[&str]) {
        for input in inputs {
            if !self.expects(input.as_bytes()) {
                break;
            }
        }
        self.files.read_expected();
    }

    /// Makes the answer to an address among the arguments, with the mark before it.
    fn make_answer(&mut self, mark: &str, address: &str) -> Result<(), AllocError> {
        if self.is_short {
            return Err(AllocError);
        }
        self.room.clear();
        self.room.extend_from_slice(mark.as_bytes())?;
        self.files.append_line(address.as_bytes(), &mut self.room)
    }
}

/// Writes a text that was made.
pub fn write_made<W: Write>(
    made: Result<(), AllocError>,
    text: &[u8],
    writer: &mut Watched<W>,
) -> Result<(), InputFault> {
    if made.is_err() {
        return Err(InputFault::OutOfMemory);
    }
    match write_all(writer, text) {
        Ok(()) => Ok(()),
        Err(kind) => Err(write_fault(kind)),
    }
}

/// Writes the answers to the addresses among the arguments, each once it is made; in JSON they are
/// one array.
///
/// # Errors
/// `OutOfMemory`, or that the writer failed.
pub fn write_answers<S: Eprint + AllocGlobal, O: Loads<L> + Drop, L: LoadedFile, W: Write>(
    answers: &mut RequestAnswers<'_, S, O, L>,
    arguments: &Arguments<'_>,
    writer: &mut Watched<W>,
) -> Result<(), InputFault> {
    answers.prepare_inputs(arguments.choices.inputs.as_slice());
    let marks = marks_of(arguments.texts);
    let mut mark = marks.first;
    for address in &arguments.choices.inputs {
        let made = answers.make_answer(mark, *address);
        write_made(made, &answers.room, writer)?;
        mark = marks.next;
    }
    write_made(Ok(()), marks.last.as_bytes(), writer)
}
