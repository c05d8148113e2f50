//! The identity of a PDB, which says that an image and its PDB belong together.

ghost use Rattle.std.specs.Prelude.{◌≡◌, ◌↔◌, IsTrue, unwrap_or};

use pdb_container::{half_at, word_at};
use std::fmt;

/// The identity of a PDB: a GUID, and an age that says how often the PDB of that GUID was written.
/// It prints as symbol servers name it: the GUID and the age in hexadecimal, without hyphens.
#[derive(Clone, Copy, Debug, PartialEq, Eq, Hash)]
pub struct PdbIdentity {
    /// The GUID, as its 16 bytes stand in the file: of its first three numbers the lowest byte is
    /// the first one.
    pub guid: [u8; 16],
    /// The age.
    pub age: u32,
}

impl PdbIdentity {
    /// The identity that a PDB has: the GUID of its information stream (1), and the age of its DBI
    /// header (in stream 3), or that of the information stream where the DBI header has none. The
    /// linker writes the DBI header's age; other tools may raise that of the information stream.
    pub fn of_pdb(guid: [u8; 16], information_age: u32, dbi_age: Option<u32>) -> PdbIdentity
        ensures { result ≡ record { guid = guid; age = unwrap_or dbi_age information_age } }
    {
        PdbIdentity {
            guid,
            age: dbi_age.unwrap_or(information_age),
        }
    }

    /// Whether both are of one PDB: GUID and age are equal, which is what Windows's debuggers ask
    /// of an image's PDB. `llvm-symbolizer` 19 compares neither: it takes the file of the path's
    /// name beside the image, or the one at the path.
    pub fn matches(&self, other: &PdbIdentity) -> bool
        ensures { IsTrue result ↔ (self.now ≡ other.now) }
    {
        self == other
    }
}

impl fmt::Display for PdbIdentity {
    fn fmt<W: fmt::Write>(&self, f: &mut fmt::Formatter<W>) -> fmt::Result {
        let first = word_at(&self.guid, 0);
        let second = half_at(&self.guid, 4);
        let third = half_at(&self.guid, 6);
        write!(f, "{first:08X}{second:04X}{third:04X}")?;
        for byte in &self.guid[8..] {
            write!(f, "{byte:02X}")?;
        }
        write!(f, "{:x}", self.age)
    }
}
