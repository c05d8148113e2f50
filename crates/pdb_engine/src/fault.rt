//! The fault that leaves lines of an input without an answer.

ghost use Rattle.std.specs.Prelude.{◌≡◌};
ghost use Rattle.pdb_container.specs.PrintedFault.{printed_text};
ghost use Rattle.pdb_engine.specs.InputFaultText.{input_fault_text};
ghost use Rattle.pdb_engine.specs.InputFaults.{read_fault_of, write_fault_of, IsOfRunning};
ghost use Rattle.pdb_engine.specs.InputFaults.{IsOfWriting};

use pdb_container::{PrintedFault, kind_name};
use std::fmt;
use std::io::ErrorKind;

/// The fault that leaves lines of an input without an answer. It prints as its name and, in
/// parentheses, its kind.
#[derive(Debug, Drop, PartialEq)]
pub enum InputFault {
    /// A read failed with this kind.
    Read(ErrorKind),
    /// A write failed with this kind.
    Write(ErrorKind),
    /// The input has more bytes than may be read.
    InputTooLong,
    /// Out of memory.
    OutOfMemory,
}

impl InputFault {
    /// The text that the fault prints.
    pub fn printed(&self) -> PrintedFault<'static>
        ensures { printed_text result ≡ input_fault_text self.now }
    {
        match self {
            InputFault::Read(kind) => PrintedFault::text("Read(", kind_name(*kind)),
            InputFault::Write(kind) => PrintedFault::text("Write(", kind_name(*kind)),
            InputFault::InputTooLong => PrintedFault::plain("InputTooLong"),
            InputFault::OutOfMemory => PrintedFault::plain("OutOfMemory"),
        }
    }
}

impl fmt::Display for InputFault {
    ghost use Rattle.std.specs.Prelude.{Some};
    ghost use Rattle.pdb_engine.specs.InputFaultText.{input_fault_text};

    ghost output = { λ f. Some (input_fault_text f) };

    fn fmt<W: fmt::Write>(&self, f: &mut fmt::Formatter<W>) -> fmt::Result {
        write!(f, "{}", self.printed())
    }
}

impl std::error::Error for InputFault {}

/// Returns the fault for a failed read. Out of memory is a fault of its own.
pub fn read_fault(kind: ErrorKind) -> InputFault
    ensures value { result ≡ read_fault_of kind }
    ensures kind { IsOfRunning result }
{
    match kind {
        ErrorKind::OutOfMemory => InputFault::OutOfMemory,
        _ => InputFault::Read(kind),
    }
}

/// Returns the fault for a failed write. Out of memory is a fault of its own.
pub fn write_fault(kind: ErrorKind) -> InputFault
    ensures value { result ≡ write_fault_of kind }
    ensures kind { IsOfWriting result }
{
    match kind {
        ErrorKind::OutOfMemory => InputFault::OutOfMemory,
        _ => InputFault::Write(kind),
    }
}
