//! A symbolizer of places, and the data that its answers go over.

ghost use Rattle.std.specs.Prelude.{◌≡◌, IfOk};
ghost use Rattle.pdb_answers.specs.KnownFailures.{data_among};
ghost use Rattle.pdb_answers.specs.Symbolizers.{symbolizer_over};
ghost use Rattle.pdb_known_modules.specs.CachedModules.{AreKept};

use crate::known_failures::KnownFailures;
use crate::place_data::PlaceData;
use pdb_frames::{ContextParts, Failures, Namer};
use pdb_known_modules::{CachedModules, nothing_cached};
use pdb_resolving::ModuleProvider;
use std::alloc::{AllocError, Global};
use std::marker::Model;

/// Returns places for the modules of a namer, in which nothing is cached yet.
fn empty_modules<'a, P: ModuleProvider>(
    alloc: Global,
    provider: &'a P,
    namer: &Namer<'_, '_, P>,
) -> Result<CachedModules<'a, P::Info>, AllocError>
    ensures { IfOk result (λ cached. AreKept (data_among P.provided provider.now namer.now)
        cached) }
{
    nothing_cached(alloc, namer.modules().len(), provider.size_hint())
}

/// A symbolizer of places: it answers which frames, which function and which file a place in a
/// section has. What it reads of modules is cached, and a part that can't be read stands as failed
/// from then on.
pub struct PlaceSymbolizer<'a, 's, P: ModuleProvider> {
    /// The data that answers go over, but for names.
    pub(crate) data: PlaceData<'a, 's, P>,
    /// The namer of functions, which has the list of modules.
    pub(crate) namer: Namer<'a, 's, P>,
    /// The parts of modules that stand as failed.
    pub(crate) failed: Failures,
    /// The parts that fail in functions that were asked for.
    pub(crate) known_failures: KnownFailures,
}

impl<'a, 's, P: ModuleProvider> Model for PlaceSymbolizer<'a, 's, P> {
    ghost use Rattle.pdb_answers.specs.Symbolizers as symbolizers;
    ghost use Rattle.pdb_answers.specs.KnownFailures.{AreFailuresOf, data_among, data_of_modules};
    ghost use Rattle.pdb_known_modules.specs.CachedModules.{AreKept};

    ghost Value = { symbolizers.Symbolizer P };

    ghost view = { λ s. record {
      provider = s.data.provider.now;
      parts = s.data.parts;
      formatting = s.namer;
      failed = s.failed;
    } };

    // The cached data of each module are its own, and the parts known to fail do.
    ghost invariant = { λ s.
        AreKept (data_among P.provided s.data.provider.now s.namer) s.data.cached
        × AreFailuresOf (data_of_modules P.provided s.data.provider.now s.namer)
        s.known_failures };
}

impl<'a, 's, P: ModuleProvider> Drop for PlaceSymbolizer<'a, 's, P> {
    fn drop(self) {
        let PlaceSymbolizer {
            data,
            namer,
            failed,
            known_failures,
        } = self;
        let PlaceData {
            provider: _,
            parts,
            cached,
        } = data;
        drop(parts);
        drop(cached);
        drop(namer);
        drop(failed);
        drop(known_failures);
    }
}

impl<'a, 's, P: ModuleProvider> PlaceSymbolizer<'a, 's, P> {
    /// Returns a symbolizer over a provider of modules, the parts that every answer goes over, and
    /// a namer of functions. Nothing is cached, and nothing has failed yet.
    ///
    /// # Errors
    /// [`AllocError`] where memory is refused.
    pub fn new(
        alloc: Global,
        provider: &'a P,
        parts: ContextParts<'a, 's>,
        namer: Namer<'a, 's, P>,
    ) -> Result<PlaceSymbolizer<'a, 's, P>, AllocError>
        ensures { IfOk result (λ s. s
            ≡ symbolizer_over provider.now parts.entry namer.entry) }
    {
        let cached = empty_modules(alloc, provider, &namer)?;
        Ok(PlaceSymbolizer {
            data: PlaceData {
                provider,
                parts,
                cached,
            },
            namer,
            failed: Failures::new(alloc),
            known_failures: KnownFailures::new(alloc),
        })
    }

    /// The provider of the modules' own streams.
    pub fn provider(&self) -> &'a P
        ensures { result.now ≡ self.now.provider }
    {
        self.data.provider
    }

    /// The parts that every answer goes over: the address map, the contributions, the public list
    /// and the string table.
    pub fn parts(&self) -> &ContextParts<'a, 's>
        ensures { result.now ≡ self.now.parts }
    {
        &self.data.parts
    }

    /// The namer of functions, which has the list of modules.
    pub fn namer(&self) -> &Namer<'a, 's, P>
        ensures { result.now ≡ self.now.formatting }
    {
        &self.namer
    }

    /// The parts that every answer goes over, for another symbolizer over the same tables. What was
    /// cached is let go.
    pub fn into_parts(self) -> ContextParts<'a, 's>
        ensures { result ≡ self.entry.parts }
    {
        let PlaceSymbolizer {
            data,
            namer,
            failed,
            known_failures,
        } = self;
        drop(namer);
        drop(failed);
        drop(known_failures);
        data.into_parts()
    }
}
