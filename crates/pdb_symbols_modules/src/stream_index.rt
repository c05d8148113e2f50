//! Stream indices: numbers of streams.

ghost use Rattle.std.specs.Prelude.{◌≡◌, ◌==◌};
ghost use Rattle.pdb_symbols_modules.specs.DatabaseAnswers.{FileGives};
ghost use Rattle.pdb_symbols_modules.specs.Streams.{stream_if_named};

use crate::pdb::PDB;
use pdb_container::{Result, Source, Stream};
use std::alloc::Global;

/// A stream index: the number of a stream, of which 0xffff names none.
#[derive(Clone, Copy, Debug, PartialEq, Eq, PartialOrd, Ord, Hash)]
pub struct StreamIndex(pub u16);

impl StreamIndex {
    /// Whether the number names no stream.
    pub fn is_none(self) -> bool
        ensures { result ≡ (self.0 == 65535) }
    {
        self.0 == 0xffff
    }

    /// The bytes of the stream, as [`PDB::raw_stream`] returns them.
    ///
    /// # Errors
    /// Those of [`PDB::raw_stream`].
    pub fn get<'s, S: Source + Drop>(
        self,
        alloc: Global,
        pdb: &mut PDB<'s, S>,
    ) -> Result<Option<Stream<'s>>>
        ensures { FileGives S.bytes S.failures pdb.old pdb.new (λ s. s) result
            (λ s. stream_if_named s self.0) }
    {
        pdb.raw_stream(alloc, self)
    }
}
