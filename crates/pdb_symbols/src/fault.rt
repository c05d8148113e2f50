//! Why a symbol file isn't written.

ghost use Rattle.std.specs.Prelude.{◌≡◌};
ghost use Rattle.pdb_loading.specs.declared.load_fault.LoadFault.TheVariants as load_faults;
ghost use Rattle.pdb_symbols.specs.Ends.{FailsToWrite, IsFaultOfFile, IsReadFault};
ghost use Rattle.pdb_symbols.specs.declared.fault.SymbolsFault.TheVariants as ends;

use pdb_container::kind_name;
use pdb_image::ImageError;
use pdb_loading::{FileFault, LoadFault};
use pdb_symbol_files::ToldFault;
use std::alloc::AllocError;
use std::fmt;
use std::io::{self, ErrorKind};

/// Why a symbol file isn't written.
#[derive(Drop)]
pub enum SymbolsFault {
    /// The program database isn't loaded, or memory ran out.
    Load(LoadFault),
    /// The program database's file couldn't be read, with that kind.
    File(ErrorKind),
    /// It couldn't be opened or read from its beginning on.
    ReadFile,
    /// The image's file couldn't be read, with that kind.
    ImageFile(ErrorKind),
    /// The file is no image, or doesn't say which database it has.
    Image(ImageError),
    /// The image names no database.
    ImageNamesNoPdb,
    /// The image is of another build than the database: GUID or age differ.
    OtherBuild,
    /// A write failed with that kind.
    Write(ErrorKind),
    /// The database or the image, which are read, would be written over.
    OutputIsRead,
}

/// Writes a fault's name and, if it has a kind, the kind's name in parentheses.
fn write_name<W: fmt::Write>(
    f: &mut fmt::Formatter<W>,
    name: &str,
    kind: Option<ErrorKind>,
) -> fmt::Result {
    match kind {
        Some(kind) => write!(f, "{name}({})", kind_name(kind)),
        None => f.write_str(name),
    }
}

impl fmt::Display for SymbolsFault {
    fn fmt<W: fmt::Write>(&self, f: &mut fmt::Formatter<W>) -> fmt::Result {
        match self {
            SymbolsFault::Load(fault) => fault.fmt(f),
            SymbolsFault::Image(error) => write!(f, "Image({error:?})"),
            fault => write_name(f, fault.name(), fault.kind()),
        }
    }
}

impl SymbolsFault {
    /// The name of the kind of fault.
    fn name(&self) -> &'static str {
        match self {
            SymbolsFault::Load(_) => "Load",
            SymbolsFault::File(_) => "File",
            SymbolsFault::ReadFile => "ReadFile",
            SymbolsFault::ImageFile(_) => "ImageFile",
            SymbolsFault::Image(_) => "Image",
            SymbolsFault::ImageNamesNoPdb => "ImageNamesNoPdb",
            SymbolsFault::OtherBuild => "OtherBuild",
            SymbolsFault::Write(_) => "Write",
            SymbolsFault::OutputIsRead => "OutputIsRead",
        }
    }

    /// The kind of error with which reading or writing a file failed, if that is the fault.
    fn kind(&self) -> Option<ErrorKind> {
        match self {
            SymbolsFault::File(kind) => Some(*kind),
            SymbolsFault::ImageFile(kind) => Some(*kind),
            SymbolsFault::Write(kind) => Some(*kind),
            _ => None,
        }
    }

    /// Out of memory.
    pub fn out_of_memory() -> SymbolsFault
        ensures { result ≡ ends.Load load_faults.OutOfMemory }
    {
        SymbolsFault::Load(LoadFault::OutOfMemory)
    }

    /// Why a file that is read on demand couldn't be read.
    pub fn of_file(error: &io::Error) -> SymbolsFault {
        match error.kind() {
            ErrorKind::OutOfMemory => SymbolsFault::out_of_memory(),
            kind => SymbolsFault::File(kind),
        }
    }

    /// Why an output couldn't be written.
    pub fn of_write(kind: ErrorKind) -> SymbolsFault
        ensures { FailsToWrite result }
    {
        match kind {
            ErrorKind::OutOfMemory => SymbolsFault::out_of_memory(),
            kind => SymbolsFault::Write(kind),
        }
    }
}

impl From<AllocError> for SymbolsFault {
    ghost from_gives = { λ _ e. e ≡ ends.Load load_faults.OutOfMemory };

    fn from(_cause: AllocError) -> SymbolsFault {
        SymbolsFault::out_of_memory()
    }
}

impl From<LoadFault> for SymbolsFault {
    ghost from_gives = { λ cause e. e ≡ ends.Load cause };

    fn from(cause: LoadFault) -> SymbolsFault {
        SymbolsFault::Load(cause)
    }
}

impl From<FileFault> for SymbolsFault {
    ghost from_gives = { λ cause e. IsFaultOfFile cause e };

    fn from(cause: FileFault) -> SymbolsFault {
        match cause {
            FileFault::Load(fault) => SymbolsFault::Load(fault),
            FileFault::File(ErrorKind::OutOfMemory) => SymbolsFault::out_of_memory(),
            FileFault::File(kind) => SymbolsFault::File(kind),
        }
    }
}

impl From<ToldFault> for SymbolsFault {
    ghost from_gives = { λ _ e. IsReadFault e };

    fn from(cause: ToldFault) -> SymbolsFault {
        match cause {
            ToldFault::OutOfMemory => SymbolsFault::out_of_memory(),
            ToldFault::File(kind) => SymbolsFault::File(kind),
        }
    }
}

impl From<ImageError> for SymbolsFault {
    ghost from_gives = { λ cause e. e ≡ ends.Image cause };

    fn from(cause: ImageError) -> SymbolsFault {
        SymbolsFault::Image(cause)
    }
}
