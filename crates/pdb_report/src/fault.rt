//! The fault with which a run ends early.

ghost use Rattle.std.specs.Prelude.{◌≡◌};
ghost use Rattle.pdb_container.specs.PrintedFault.{printed_text};
ghost use Rattle.pdb_report.specs.FaultText.{run_fault_text};

use pdb_container::{PrintedFault, kind_name};
use pdb_engine::InputFault;
use pdb_loading::{FileFault, LoadFault};
use std::fmt;
use std::io::ErrorKind;

/// The fault with which a run ended early. `Load` prints the fault that it holds, any other its
/// name and, in parentheses, its values.
#[derive(Debug, Drop, PartialEq)]
pub enum RunFault {
    /// The program database wasn't loaded, for this cause, which is never out of memory.
    Load(LoadFault),
    /// The range's start lies above its end.
    ReversedRange,
    /// A read failed with this kind.
    Read(ErrorKind),
    /// A write failed with this kind.
    Write(ErrorKind),
    /// The file, which is read on demand, couldn't be read: reading it failed with this kind.
    File(ErrorKind),
    /// The input has more bytes than a run reads.
    InputTooLong,
    /// Out of memory.
    OutOfMemory,
}

impl From<LoadFault> for RunFault {
    ghost use Rattle.pdb_report.specs.RunFaults.{run_fault_of};

    ghost from_gives = { λ fault e. e ≡ run_fault_of fault };

    fn from(fault: LoadFault) -> RunFault {
        match fault {
            LoadFault::OutOfMemory => RunFault::OutOfMemory,
            fault => RunFault::Load(fault),
        }
    }
}

impl From<FileFault> for RunFault {
    ghost use Rattle.pdb_report.specs.RunFaults.{run_fault_of_file};

    ghost from_gives = { λ fault e. e ≡ run_fault_of_file fault };

    fn from(fault: FileFault) -> RunFault {
        match fault {
            FileFault::Load(fault) => RunFault::from(fault),
            FileFault::File(ErrorKind::OutOfMemory) => RunFault::OutOfMemory,
            FileFault::File(kind) => RunFault::File(kind),
        }
    }
}

impl From<InputFault> for RunFault {
    ghost use Rattle.pdb_report.specs.RunFaults.{run_fault_of_input};

    ghost from_gives = { λ fault e. e ≡ run_fault_of_input fault };

    fn from(fault: InputFault) -> RunFault {
        match fault {
            InputFault::Read(kind) => RunFault::Read(kind),
            InputFault::Write(kind) => RunFault::Write(kind),
            InputFault::InputTooLong => RunFault::InputTooLong,
            InputFault::OutOfMemory => RunFault::OutOfMemory,
        }
    }
}

impl RunFault {
    /// The text that the fault prints.
    pub fn printed(&self) -> PrintedFault<'_>
        ensures { printed_text result ≡ run_fault_text self.now }
    {
        match self {
            RunFault::Load(fault) => fault.printed(),
            RunFault::ReversedRange => PrintedFault::plain("ReversedRange"),
            RunFault::Read(kind) => PrintedFault::text("Read(", kind_name(*kind)),
            RunFault::Write(kind) => PrintedFault::text("Write(", kind_name(*kind)),
            RunFault::File(kind) => PrintedFault::text("File(", kind_name(*kind)),
            RunFault::InputTooLong => PrintedFault::plain("InputTooLong"),
            RunFault::OutOfMemory => PrintedFault::plain("OutOfMemory"),
        }
    }
}

impl fmt::Display for RunFault {
    ghost use Rattle.std.specs.Prelude.{Some};
    ghost use Rattle.pdb_report.specs.FaultText.{run_fault_text};

    ghost output = { λ f. Some (run_fault_text f) };

    fn fmt<W: fmt::Write>(&self, f: &mut fmt::Formatter<W>) -> fmt::Result {
        write!(f, "{}", self.printed())
    }
}

impl std::error::Error for RunFault {}
