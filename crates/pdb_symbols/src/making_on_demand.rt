//! Symbol files of databases that are read on demand: made, and written.

ghost use Rattle.std.specs.Prelude.{◌≡◌, true, None, IfErr, IfOk, option_copied};
ghost use Rattle.pdb_addr2line.specs.FileAnswers.{IsKnown};
ghost use Rattle.pdb_file_views.specs.Views.{agrees};
ghost use Rattle.pdb_loading.specs.declared.order.ContributionOrder.TheVariants.{Any};
ghost use Rattle.pdb_loading.specs.Loading.{load_fault_with};
ghost use Rattle.pdb_symbols.specs.Lookups.{AreFewLookups};
ghost use Rattle.pdb_symbols.specs.Making.{FailsMaking, Makes, SaysOnDemand, WritesOnDemand};
ghost use Rattle.pdb_symbols_modules.specs.Streams.{streams};

use crate::describing::{Described, describe};
use crate::fault::SymbolsFault;
use crate::file_told::FileTold;
use crate::making::{Destination, Made, write_made};
use crate::options::Options;
use crate::progress::Progress;
use crate::shown::Shown;
use crate::writing::text_of;
use pdb_addr2line::{FileOnDemand, FileSymbolizer, NotLoaded};
use std::alloc::Global;
use std::io::Write;
use std::os::unix::fs::FileExt;

/// The outcome of a symbol file, and the database's file, with what was read of it.
pub struct OnDemand<'a, F: Drop, T: Drop> {
    /// The outcome of the symbol file.
    pub outcome: Result<T, SymbolsFault>,
    /// The file.
    pub source: FileOnDemand<'a, F>,
}

/// Makes the symbol file of a database that was loaded and is read on demand, and of the bytes of
/// its image, if they are given.
///
/// # Errors
/// The errors of the information stream, of the image, `File`, or out of memory.
fn made_by_file<'b, F: FileExt + Drop, E: Write + Drop>(
    alloc: Global,
    options: &Options<'_>,
    runs: &mut Shown<FileTold<'_, F>, E>,
    image: Option<&'b [u8]>,
) -> Result<Made<'b>, SymbolsFault>
    requires order { runs.old.told.symbolizer.order ≡ Any }
    requires flags { runs.old.told.symbolizer.flags ≡ 23 }
    requires inlines { runs.old.told.inlines ≡ options.now.inlines }
    requires unasked { runs.old.told.lookups ≡ 0 }
    requires loaded { IsKnown runs.old.told.symbolizer
        → load_fault_with Any (streams runs.old.told.symbolizer.contents) ≡ None }
    ensures contents { runs.new.told.symbolizer.contents ≡ runs.old.told.symbolizer.contents }
    ensures ok { IsKnown runs.new.told.symbolizer → IfOk result (λ m. Makes options.now
        (option_copied image.entry) runs.old.told.symbolizer.contents m.text m.image) }
    ensures lookups { IsKnown runs.new.told.symbolizer → IfOk result
        (λ m. AreFewLookups runs.old.told.symbolizer.contents m.lookups) }
    ensures failed { IsKnown runs.new.told.symbolizer → IfErr result (FailsMaking true options.now
        (option_copied image.entry) runs.old.told.symbolizer.contents) }
{
    let identity = runs.told.symbolizer.identity(alloc)?;
    let held = runs.told.symbolizer.held();
    let information = held.debug_information();
    let Described { first, image } = describe(alloc, options, information, &identity, image)?;
    let sections = held.address_map().image_section_headers();
    let text = text_of(alloc, first, sections, runs)?;
    Ok(Made {
        text,
        image,
        identity,
        lookups: runs.told.lookups,
    })
}

/// The file of a database of which nothing more is asked.
fn close<'a, F: Drop, E: Drop>(runs: Shown<FileTold<'a, F>, E>) -> FileOnDemand<'a, F>
    ensures views { result.views ≡ runs.entry.told.symbolizer.views }
    ensures contents { result.contents.numbers ≡ runs.entry.told.symbolizer.contents }
{
    let Shown { told, progress } = runs;
    drop(progress);
    let FileTold {
        symbolizer,
        inlines: _,
        lookups: _,
    } = told;
    let (source, context) = symbolizer.into_parts();
    drop(context);
    source
}

/// Makes the symbol file of a database that is read on demand, and of the bytes of its image, if
/// they are given.
#[tactic(auto, using(crate::proofs::MakingSteps::unopened_fails))]
fn made_on_demand<'a, 'b, F: FileExt + Drop, E: Write + Drop>(
    alloc: Global,
    options: &Options<'_>,
    source: FileOnDemand<'a, F>,
    image: Option<&'b [u8]>,
    progress: Progress<E>,
) -> OnDemand<'a, F, Made<'b>>
    requires { source.order ≡ Any }
    ensures ok { agrees result.source.views source.entry.contents.numbers ≡ true
        → IfOk result.outcome (λ m. Makes options.now (option_copied image.entry)
        source.entry.contents.numbers m.text m.image) }
    ensures lookups { agrees result.source.views source.entry.contents.numbers ≡ true
        → IfOk result.outcome (λ m. AreFewLookups source.entry.contents.numbers m.lookups) }
    ensures failed { agrees result.source.views source.entry.contents.numbers ≡ true
        → IfErr result.outcome (FailsMaking true options.now (option_copied image.entry)
        source.entry.contents.numbers) }
{
    match FileSymbolizer::open(alloc, source) {
        Ok(symbolizer) => {
            let told = FileTold {
                symbolizer,
                inlines: options.inlines,
                lookups: 0,
            };
            let mut runs = Shown { told, progress };
            let outcome = made_by_file(alloc, options, &mut runs, image);
            OnDemand {
                outcome,
                source: close(runs),
            }
        }
        Err(NotLoaded { fault, source }) => OnDemand {
            outcome: Err(SymbolsFault::from(fault)),
            source,
        },
    }
}

/// Writes the symbol file of a database that is read on demand, and of the bytes of its image, if
/// they are given. It is the symbol file of the bytes that the database's file is taken to have,
/// where these agree with all that was read. A consumer that reads all that was written says of
/// each address the frames that the report on lines has there, where code may run; of any other
/// address nothing.
pub fn write_on_demand<'a, S: AllocGlobal, F: FileExt + Drop, W: Destination<S>, E: Write + Drop>(
    rt: &S,
    options: &Options<'_>,
    source: FileOnDemand<'a, F>,
    image: Option<&[u8]>,
    output: &mut W,
    progress: Progress<E>,
) -> OnDemand<'a, F, ()>
    requires { source.order ≡ Any }
    ensures writes { WritesOnDemand result.source.views options.now (option_copied image.entry)
        source.entry.contents.numbers (W.contents output.old) (W.contents output.new)
        result.outcome }
    ensures says { SaysOnDemand result.source.views options.now source.entry.contents.numbers
        (W.contents output.old) (W.contents output.new) result.outcome }
{
    let OnDemand { outcome, source } = made_on_demand(rt.alloc(), options, source, image, progress);
    let outcome = match outcome {
        Ok(made) => write_made(rt, options, &made, output),
        Err(fault) => Err(fault),
    };
    OnDemand { outcome, source }
}
