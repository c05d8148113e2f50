//! The data of places: what is read and cached for an answer at a place.

ghost use Rattle.std.specs.Prelude.{◌≡◌, IfOk, option_copied};
ghost use Rattle.pdb_answers.specs.KnownFailures.{data_among};
ghost use Rattle.pdb_frames.specs.Choice.{NumbersOver};
ghost use Rattle.pdb_known_modules.specs.CachedModules.{AreKept, known_in};
ghost use Rattle.pdb_known_modules.specs.KnownModules.{procedures_in};

use crate::known_failures::KnownFailures;
use pdb_addresses::PdbInternalSectionOffset;
use pdb_contributions::ModuleSectionContribution;
use pdb_frames::{ContextParts, Namer, choose};
use pdb_known_modules::{
    CachedModules, keep_lines, keep_module, keep_procedure, keep_public_rows, known_at, number_over,
};
use pdb_resolving::ModuleProvider;
use std::alloc::{AllocError, Global};

/// A place, the contribution that holds it, and the number of the procedure over it, if there is
/// one.
#[derive(Clone, Copy)]
struct HeldPlace {
    contribution: ModuleSectionContribution,
    place: PdbInternalSectionOffset,
    number: Option<usize>,
}

/// The data that answers at places go over, but for names.
pub(crate) struct PlaceData<'a, 's, P: ModuleProvider> {
    /// The provider of the modules' own streams.
    pub(crate) provider: &'a P,
    /// The parts that every answer goes over.
    pub(crate) parts: ContextParts<'a, 's>,
    /// The data that were read of modules.
    pub(crate) cached: CachedModules<'a, P::Info>,
}

impl<'a, 's, P: ModuleProvider> PlaceData<'a, 's, P> {
    /// Reads and caches the parts from which frames at a place are made: line program and inlinees
    /// of its module, and the data of the procedure over the place, or, where there is none, the
    /// rows of the public entry.
    fn keep_parts(&mut self, alloc: Global, held: HeldPlace) -> Result<(), AllocError>
        ensures { self.new ≡ self.old }
    {
        let cache_place = usize::from(held.contribution.module_index());
        keep_lines(alloc, &mut self.cached, cache_place)?;
        if let Some(number) = held.number {
            return keep_procedure(alloc, &mut self.cached, cache_place, number);
        }
        let start = held.contribution.start_offset();
        match self.parts.publics.over(start, held.place) {
            None => Ok(()),
            Some(public) => {
                keep_public_rows(alloc, &mut self.cached, cache_place, public.start_offset)
            }
        }
    }

    /// Whether a part of the function at a place is known to be unreadable. No clause says so: it
    /// only saves reading.
    fn is_known_unreadable(&self, known_failures: &KnownFailures, held: HeldPlace) -> bool
        requires { NumbersOver
            (procedures_in (known_in self.now.cached held.contribution.module_index)) held.number
            held.place }
    {
        let HeldPlace {
            contribution,
            place,
            number,
        } = held;
        let module_index = contribution.module_index();
        let known = known_at(&self.cached, usize::from(module_index));
        match choose(&self.parts, known, number, contribution, place) {
            None => false,
            Some(chosen) => known_failures.part(module_index, chosen).is_some(),
        }
    }

    /// Reads and caches the data of a module.
    ///
    /// # Errors
    /// [`AllocError`] where memory is refused.
    pub(crate) fn keep_module(
        &mut self,
        alloc: Global,
        namer: &Namer<'a, 's, P>,
        module_index: u16,
    ) -> Result<(), AllocError>
        requires { AreKept (data_among P.provided self.old.provider.now namer.now)
            self.old.cached }
        ensures kept { AreKept (data_among P.provided self.old.provider.now namer.now)
            self.new.cached }
        ensures known { IfOk result (λ _. known_in self.new.cached module_index
            ≡ data_among P.provided self.old.provider.now namer.now module_index) }
        ensures same { self.new ≡ record self.old { cached = self.new.cached } }
    {
        let modules = namer.modules();
        let cache_place = usize::from(module_index);
        keep_module(alloc, &mut self.cached, self.provider, modules, cache_place)
    }

    /// Reads and caches the data of the module that holds a place, and the parts from which frames
    /// there are made, unless one of them is known to be unreadable. Returns the number of the
    /// procedure over the place, if there is one.
    ///
    /// # Errors
    /// [`AllocError`] where memory is refused.
    pub(crate) fn keep_place(
        &mut self,
        alloc: Global,
        namer: &Namer<'a, 's, P>,
        known_failures: &KnownFailures,
        contribution: ModuleSectionContribution,
        place: PdbInternalSectionOffset,
    ) -> Result<Option<usize>, AllocError>
        requires { AreKept (data_among P.provided self.old.provider.now namer.now)
            self.old.cached }
        ensures kept { AreKept (data_among P.provided self.old.provider.now namer.now)
            self.new.cached }
        ensures known { IfOk result (λ _. known_in self.new.cached contribution.module_index
            ≡ data_among P.provided self.old.provider.now namer.now contribution.module_index) }
        ensures number { IfOk result (λ number. NumbersOver
            (procedures_in (known_in self.new.cached contribution.module_index)) number place) }
        ensures same { self.new ≡ record self.old { cached = self.new.cached } }
    {
        let module_index = contribution.module_index();
        self.keep_module(alloc, namer, module_index)?;
        let known = known_at(&self.cached, usize::from(module_index));
        let held = HeldPlace {
            contribution,
            place,
            number: number_over(known, place),
        };
        if !self.is_known_unreadable(known_failures, held) {
            self.keep_parts(alloc, held)?;
        }
        Ok(held.number)
    }

    /// The parts that every answer goes over. Everything around them is let go.
    pub(crate) fn into_parts(self) -> ContextParts<'a, 's>
        ensures { result ≡ self.entry.parts }
    {
        let PlaceData {
            provider: _,
            parts,
            cached,
        } = self;
        drop(cached);
        parts
    }
}
