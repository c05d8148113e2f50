//! The number of bytes of modules' data that are cached, and its limits. No clause speaks of it,
//! since no answer shows what is cached.

use crate::modules::BasicModuleInfo;
use pdb_resolving::ModuleTables;
use pdb_symbols_modules::Module;
use std::alloc::{AllocError, Global};
use std::collections::BTreeSet;

/// The number of bytes that may be cached whatever the modules are: 64 MB. Questions to a database
/// of 10 MB never get there; with less, random ones to greater databases would read modules again.
/// docs/COSTS.md has it, and the limits below, under what is cached.
const ALLOWED: u64 = 64 << 20;

/// The number of further bytes that may be cached for each byte of the symbols and lines that were
/// read. In all it is no more than this for each byte of the database, whose streams may list the
/// same pages over and over. With it 100,000 addresses of the database of 89 MB in
/// docs/PERFORMANCE.md fit.
const FOR_EACH_BYTE: u64 = 4;

/// The number of bytes of the symbols and lines that were read that don't count in the two limits
/// below: 2 MB. The answers that wait take about as much. With it 100,000 addresses at random of
/// the database of 10 MB in docs/PERFORMANCE.md take a little less memory than the ported crate
/// does.
const UNCOUNTED: u64 = 2 << 20;

/// The number of bytes that may be cached of modules but for their procedures, beside one for each
/// eight bytes that count of the symbols and lines that were read: 64 KB. Past that a module is
/// forgotten once another one is asked for, but only the first time. This limit and the next one
/// were tuned on the databases in docs/PERFORMANCE.md, to take no more memory there than the ported
/// crate does.
const ALLOWED_MODULES: u64 = 64 << 10;

/// The number of bytes that may be cached of procedures, beside five for each eight bytes that
/// count of the symbols and lines that were read: 256 KB. Past half of that the line rows of a
/// module are forgotten once another module is asked for; past all of it its procedures are, too.
const ALLOWED_PROCEDURES: u64 = 256 << 10;

/// Counts the bytes that are cached of modules.
#[derive(Drop)]
pub struct Meter {
    /// The number of cached bytes.
    cached: u64,
    /// The number of cached bytes that are of procedures.
    procedures: u64,
    /// The number of bytes of symbols and lines that were read, each stream's once.
    read: u64,
    /// The number of bytes, but for those of procedures, that may be cached of modules that are
    /// left for the first time.
    allowed_modules: u64,
    /// The number of bytes that may be cached of procedures.
    allowed_procedures: u64,
    /// The most that one part takes: a part is cached whatever its size, and for its size alone
    /// nothing is forgotten.
    greatest: u64,
    /// The number of bytes that may be cached besides that part. It grows with the symbols and
    /// lines that were read.
    allowed: u64,
    /// The most that `allowed` grows to.
    most_allowed: u64,
    /// The numbers of the streams whose symbols were counted.
    streams: BTreeSet<u16>,
}

impl Meter {
    /// A meter for a database of at most so many bytes, of which nothing is cached yet.
    pub fn new(alloc: Global, database_size: u64) -> Meter {
        let for_database = database_size.saturating_mul(FOR_EACH_BYTE);
        Meter {
            cached: 0,
            procedures: 0,
            read: 0,
            allowed_modules: ALLOWED_MODULES,
            allowed_procedures: ALLOWED_PROCEDURES,
            greatest: 0,
            allowed: ALLOWED,
            most_allowed: ALLOWED.saturating_add(for_database),
            streams: BTreeSet::new(alloc),
        }
    }

    /// Whether more bytes are cached than may be.
    pub fn is_full(&self) -> bool {
        self.cached > self.allowed.saturating_add(self.greatest)
    }

    /// Counts bytes that were cached.
    pub fn count_bytes(&mut self, bytes: u64) {
        self.cached = self.cached.saturating_add(bytes);
        self.greatest = self.greatest.max(bytes);
    }

    /// Counts bytes that were cached of a procedure.
    pub fn count_procedure(&mut self, bytes: u64) {
        self.count_bytes(bytes);
        self.procedures = self.procedures.saturating_add(bytes);
    }

    /// Whether procedures take more bytes than they may with their line rows.
    pub fn has_many_rows(&self) -> bool {
        self.procedures > self.allowed_procedures / 2
    }

    /// Whether procedures take more bytes than they may.
    pub fn has_many_procedures(&self) -> bool {
        self.procedures > self.allowed_procedures
    }

    /// Whether modules take more bytes, besides procedures, than they may when they are left for the
    /// first time.
    pub fn has_many_modules(&self) -> bool {
        self.cached.saturating_sub(self.procedures) > self.allowed_modules
    }

    /// Counts bytes that are no longer cached, so many of them of procedures.
    pub fn give_back(&mut self, bytes: u64, procedures: u64) {
        self.cached = self.cached.saturating_sub(bytes);
        self.procedures = self.procedures.saturating_sub(procedures);
    }

    /// Counts the data of a module, if it has some. The first time that a module names its stream,
    /// more is allowed for the stream's symbols and lines: where there are data, the stream has as
    /// many bytes of them as the module's entry states.
    pub fn count_module<I: ModuleTables>(
        &mut self,
        known: &Option<BasicModuleInfo<'_, I>>,
        module: Option<&Module<'_>>,
    ) -> Result<(), AllocError> {
        let (Some(known), Some(module)) = (known, module) else {
            return Ok(());
        };
        if self.streams.insert(module.stream().0)? {
            let bytes = u64::from(module.symbols_size()) + u64::from(module.c13_lines_size());
            let allowed = self.allowed.saturating_add(bytes * FOR_EACH_BYTE);
            self.allowed = allowed.min(self.most_allowed);
            self.read = self.read.saturating_add(bytes);
            let counted = self.read.saturating_sub(UNCOUNTED);
            self.allowed_modules = ALLOWED_MODULES.saturating_add(counted / 8);
            self.allowed_procedures = ALLOWED_PROCEDURES.saturating_add(counted / 8 * 5);
        }
        self.count_bytes(known.memory_size());
        Ok(())
    }

    /// Forgets the count of cached bytes, of which none is left. The limits stay.
    pub fn clear(&mut self) {
        self.cached = 0;
        self.procedures = 0;
    }
}
