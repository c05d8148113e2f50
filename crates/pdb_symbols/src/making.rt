//! Symbol files from the bytes of their databases: made, and written.

ghost use Rattle.std.specs.Prelude.{◌≡◌, false, IfErr, IfOk, OnErr, OnOk, option_copied};
ghost use Rattle.pdb_loading.specs.declared.order.ContributionOrder.TheVariants.{Any};
ghost use Rattle.pdb_loading.specs.Loading.{load_fault_with};
ghost use Rattle.pdb_symbols.specs.Ends.{FailsToWrite};
ghost use Rattle.pdb_symbols.specs.Lookups.{AreFewLookups};
ghost use Rattle.pdb_symbols.specs.Making.{FailsMaking, Makes, WritesAsked};
ghost use Rattle.pdb_symbols.specs.Roads.{WritesTold};
ghost use Rattle.pdb_symbols.specs.SymbolsText.{WritesText, WritesTextPart};
ghost use Rattle.pdb_symbols_modules.specs.Streams.{streams};

use crate::describing::{Described, describe};
use crate::fault::SymbolsFault;
use crate::memory_told::MemoryTold;
use crate::options::Options;
use crate::progress::Progress;
use crate::shown::Shown;
use crate::writing::{FileText, text_of, write_symbols_text};
use pdb_addr2line::{ContributionOrder, Symbolizer};
use pdb_image::{Image, PdbIdentity};
use std::alloc::Global;
use std::io::Write;

/// A writer to which a symbol file is written, whose place may depend on the database.
pub trait Destination<S>: Write {
    /// Makes ready for the symbol file that is asked for, of a database with an identity. Nothing
    /// is written.
    ///
    /// # Errors
    /// `Write`, or out of memory.
    fn open(
        &mut self,
        rt: &S,
        options: &Options<'_>,
        identity: &PdbIdentity,
    ) -> Result<(), SymbolsFault>
        ensures same { Self.contents self.new ≡ Self.contents self.old }
        ensures fails { IfErr result FailsToWrite };
}

/// A symbol file that was made.
#[derive(Drop)]
pub struct Made<'b> {
    /// Its text, but for how functions are unwound.
    pub text: FileText,
    /// The image, whose functions are unwound.
    pub image: Option<Image<'b>>,
    /// The identity of the database.
    pub identity: PdbIdentity,
    /// The number of lookups of places: at most two for each piece of the addresses.
    pub lookups: u64,
}

/// Makes the symbol file of a database that was loaded, and of the bytes of its image, if they are
/// given, from a value that tells of its addresses.
///
/// # Errors
/// The errors of the information stream, of the image, or out of memory.
fn made_by<'b, E: Write + Drop>(
    alloc: Global,
    options: &Options<'_>,
    runs: &mut Shown<MemoryTold<'_>, E>,
    image: Option<&'b [u8]>,
) -> Result<Made<'b>, SymbolsFault>
    requires order { runs.old.told.symbolizer.now.order ≡ Any }
    requires inlines { runs.old.told.inlines ≡ options.now.inlines }
    requires unasked { runs.old.told.context.lookups ≡ 0 }
    ensures ok { IfOk result (λ m. Makes options.now (option_copied image.entry)
        runs.old.told.symbolizer.now.bytes m.text m.image) }
    ensures lookups { IfOk result
        (λ m. AreFewLookups runs.old.told.symbolizer.now.bytes m.lookups) }
    ensures failed { IfErr result (FailsMaking false options.now (option_copied image.entry)
        runs.old.told.symbolizer.now.bytes) }
{
    let symbolizer = runs.told.symbolizer;
    let held = symbolizer.held();
    let identity = symbolizer.identity(alloc)?;
    let information = held.debug_information();
    let Described { first, image } = describe(alloc, options, information, &identity, image)?;
    let sections = held.address_map().image_section_headers();
    let Ok(text) = text_of(alloc, first, sections, runs) else {
        return Err(SymbolsFault::out_of_memory());
    };
    Ok(Made {
        text,
        image,
        identity,
        lookups: runs.told.context.lookups(),
    })
}

/// Makes the symbol file of a database that was loaded, and of the bytes of its image, if they are
/// given.
///
/// # Errors
/// As [`made_by`].
fn made_of_loaded<'b, E: Write + Drop>(
    alloc: Global,
    options: &Options<'_>,
    symbolizer: &Symbolizer,
    image: Option<&'b [u8]>,
    progress: Progress<E>,
) -> Result<Made<'b>, SymbolsFault>
    requires order { symbolizer.now.order ≡ Any }
    ensures ok { IfOk result (λ m. Makes options.now (option_copied image.entry)
        symbolizer.now.bytes m.text m.image) }
    ensures lookups { IfOk result (λ m. AreFewLookups symbolizer.now.bytes m.lookups) }
    ensures failed { IfErr result
        (FailsMaking false options.now (option_copied image.entry) symbolizer.now.bytes) }
{
    let context = symbolizer.context(alloc)?;
    let told = MemoryTold {
        symbolizer,
        context,
        inlines: options.inlines,
    };
    let mut runs = Shown { told, progress };
    made_by(alloc, options, &mut runs, image)
}

/// Makes the symbol file of a database from the bytes of its file and, if they are given, the bytes
/// of its image.
///
/// # Errors
/// The first fault of loading; the information stream's; the image's; out of memory.
fn made_in_memory<'b, E: Write + Drop>(
    alloc: Global,
    options: &Options<'_>,
    bytes: Vec<u8>,
    image: Option<&'b [u8]>,
    progress: Progress<E>,
) -> Result<Made<'b>, SymbolsFault>
    ensures ok { IfOk result
        (λ m. Makes options.now (option_copied image.entry) bytes.items m.text m.image) }
    ensures lookups { IfOk result (λ m. AreFewLookups bytes.items m.lookups) }
    ensures failed { IfErr result
        (FailsMaking false options.now (option_copied image.entry) bytes.items) }
{
    let symbolizer = Symbolizer::open_with_order(alloc, bytes, ContributionOrder::Any)?;
    made_of_loaded(alloc, options, &symbolizer, image, progress)
}

/// Writes a symbol file that was made.
///
/// # Errors
/// `Write`, or out of memory; a prefix of it was written.
pub fn write_made<S: AllocGlobal, W: Destination<S>>(
    rt: &S,
    options: &Options<'_>,
    made: &Made<'_>,
    output: &mut W,
) -> Result<(), SymbolsFault>
    ensures ok { OnOk result (WritesText options.now.demangle made.now.text made.now.image
        (W.contents output.old) (W.contents output.new)) }
    ensures part { OnErr result (WritesTextPart options.now.demangle made.now.text made.now.image
        (W.contents output.old) (W.contents output.new)) }
    ensures fails { IfErr result FailsToWrite }
{
    output.open(rt, options, &made.identity)?;
    let (text, image) = (&made.text, made.image.as_ref());
    write_symbols_text(rt.alloc(), text, options.demangle, image, output)
}

/// Writes the symbol file of a database from the bytes of its file and, if they are given, the
/// bytes of its image. A consumer that reads all that was written says of each address the frames
/// that the report on lines has there, where code may run; of any other address nothing.
///
/// # Errors
/// The first fault of loading; the information stream's; the image's; `Write`; out of memory.
pub fn write_in_memory<S: AllocGlobal, W: Destination<S>, E: Write + Drop>(
    rt: &S,
    options: &Options<'_>,
    bytes: Vec<u8>,
    image: Option<&[u8]>,
    output: &mut W,
    progress: Progress<E>,
) -> Result<(), SymbolsFault>
    ensures writes { WritesAsked false options.now (option_copied image.entry) bytes.items
        (W.contents output.old) (W.contents output.new) result }
    ensures says { OnOk result (WritesTold options.now.demangle options.now.inlines
        (streams bytes.items) (W.contents output.old) (W.contents output.new)) }
{
    match made_in_memory(rt.alloc(), options, bytes, image, progress) {
        Ok(made) => write_made(rt, options, &made, output),
        Err(fault) => Err(fault),
    }
}
