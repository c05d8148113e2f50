//! Functions at places: the function, a key of it, and how far it goes on.

ghost use Rattle.std.specs.Prelude.{◌≡◌, ◌≤◌, IfOk, IfSome, Ok, Some, option_copied, option_map};
ghost use Rattle.pdb_answers.specs.PlaceAnswers.{AnswersFunction, GivesFunctionKey};
ghost use Rattle.pdb_answers.specs.PlaceAnswers.{IsKeyOfChosen, IsRunOf, chosen_by_key};
ghost use Rattle.pdb_answers.specs.PlaceAnswers.{database_in, far_from, function_held};
ghost use Rattle.pdb_answers.specs.PlaceAnswers.{function_of_key, function_on};
ghost use Rattle.pdb_frames.specs.Printing.{env_of};
ghost use Rattle.pdb_frames.specs.ChosenSeen.{chosen_seen};
ghost use Rattle.pdb_owners.specs.KeyOrder.{key_module};
ghost use Rattle.pdb_resolving.specs.Fault.{Answers};

use crate::symbolizer::PlaceSymbolizer;
use pdb_addresses::PdbInternalSectionOffset;
use pdb_contributions::ModuleSectionContribution;
use pdb_frames::{
    Chosen, ContextParts, FunctionEnd, Namer, choose, name_of, to_next_bound, to_next_shared_bound,
};
use pdb_known_modules::{BasicModuleInfo, known_at, number_over, procedure_numbered};
use pdb_owners::{Function, FunctionKey, owned_name};
use pdb_resolving::{ModuleProvider, ModuleTables, Result};
use std::alloc::Global;

/// Returns a chosen function, where it has an RVA, and where the public entry after it has one.
fn function_of<'a, P: ModuleProvider>(
    alloc: Global,
    parts: &ContextParts<'_, '_>,
    namer: &mut Namer<'a, '_, P>,
    module_index: u16,
    chosen: Chosen<'_, 'a>,
) -> Result<Option<Function>>
    ensures same { namer.new ≡ namer.old }
    ensures function { AnswersFunction parts.now (env_of P.provided namer.old module_index)
        chosen.entry result }
{
    let Some(start_rva) = chosen.start_rva(parts) else {
        return Ok(None);
    };
    let end_rva = match chosen.end_of_function(parts, start_rva) {
        FunctionEnd::At(end_rva) => Some(end_rva),
        FunctionEnd::Unknown => None,
        FunctionEnd::NoFunction => return Ok(None),
    };
    let name = name_of(alloc, parts, namer, module_index, chosen)?;
    let name = owned_name(alloc, &name)?;
    Ok(Some(Function {
        start_rva,
        end_rva,
        name,
    }))
}

/// Returns the key of the function that is chosen at a place that a contribution holds, if one is.
fn key_at<I: ModuleTables>(
    parts: &ContextParts<'_, '_>,
    known: Option<&BasicModuleInfo<'_, I>>,
    contribution: ModuleSectionContribution,
    place: PdbInternalSectionOffset,
) -> Option<FunctionKey>
    ensures index { IfSome result (λ key. key_module key ≡ contribution.module_index) }
    ensures chosen { IsKeyOfChosen parts.now (option_copied known.entry) contribution place
        result }
{
    let module_index = contribution.module_index();
    if let Some(number) = number_over(known, place) {
        if procedure_numbered(known, number).is_some() {
            return Some(FunctionKey::Procedure(module_index, number));
        }
    }
    match parts.publics.over(contribution.start_offset(), place) {
        None => None,
        Some(public) => Some(FunctionKey::Public(module_index, public.start_offset)),
    }
}

/// Returns the function that a key chooses, from the data of its module.
fn choose_by<'c, 'a, I: ModuleTables>(
    parts: &'c ContextParts<'a, '_>,
    known: Option<&'c BasicModuleInfo<'a, I>>,
    key: &FunctionKey,
) -> Option<Chosen<'c, 'a>>
    ensures { option_map chosen_seen result
        ≡ chosen_by_key parts.now (option_copied known.entry) key.now }
{
    match key {
        FunctionKey::Procedure(_, number) => match procedure_numbered(known, *number) {
            None => None,
            Some(procedure) => Some(Chosen::Procedure(*number, procedure)),
        },
        FunctionKey::Public(_, start) => match parts.publics.over(start.offset, *start) {
            None => None,
            Some(public) => Some(Chosen::Public(public.start_offset, public.name)),
        },
    }
}

impl<'a, 's, P: ModuleProvider> PlaceSymbolizer<'a, 's, P> {
    /// Returns the function at a place that a contribution holds.
    #[tactic(auto, unfolding(pdb_frames::specs::FramesAt::function_at))]
    fn function_at(
        &mut self,
        alloc: Global,
        contribution: ModuleSectionContribution,
        place: PdbInternalSectionOffset,
    ) -> Result<Option<Function>>
        ensures same { self.new ≡ self.old }
        ensures function { Answers (λ f. f) result
            (Ok (function_held P.provided self.old contribution place)) }
    {
        let module_index = contribution.module_index();
        self.data.keep_module(alloc, &self.namer, module_index)?;
        let data = &self.data;
        let known = known_at(&data.cached, usize::from(module_index));
        let number = number_over(known, place);
        let Some(chosen) = choose(&data.parts, known, number, contribution, place) else {
            return Ok(None);
        };
        function_of(alloc, &data.parts, &mut self.namer, module_index, chosen)
    }

    /// Returns the function at a place.
    ///
    /// # Errors
    /// `OutOfMemory` alone.
    pub fn function(
        &mut self,
        alloc: Global,
        place: PdbInternalSectionOffset,
    ) -> Result<Option<Function>>
        ensures same { self.new ≡ self.old }
        ensures function { Answers (λ f. f) result (Ok (function_on P.provided self.old place)) }
    {
        match self.data.parts.holding_contribution(place) {
            None => Ok(None),
            Some(contribution) => self.function_at(alloc, contribution, place),
        }
    }

    /// Returns a key of the function at a place that a contribution holds, and the number of bytes
    /// from there on that have this function.
    #[tactic(auto, unfolding(pdb_frames::specs::FramesAt::function_at))]
    fn key_run_at(
        &mut self,
        alloc: Global,
        contribution: ModuleSectionContribution,
        place: PdbInternalSectionOffset,
        limit: u32,
    ) -> Result<(Option<FunctionKey>, u32)>
        ensures same { self.new ≡ self.old }
        ensures function { GivesFunctionKey P.provided self.old
            (function_held P.provided self.old contribution place) result }
        ensures count { IfOk result
            (λ run. run.1 ≡ far_from P.provided self.old contribution place limit) }
    {
        let module_index = contribution.module_index();
        self.data.keep_module(alloc, &self.namer, module_index)?;
        let data = &self.data;
        let known = known_at(&data.cached, usize::from(module_index));
        let count = to_next_bound(&data.parts, known, place, limit);
        Ok((key_at(&data.parts, known, contribution, place), count))
    }

    /// Returns a key of the function at a place, and the number of bytes from there on that have
    /// this function.
    ///
    /// # Errors
    /// `OutOfMemory` alone.
    pub fn key_run(
        &mut self,
        alloc: Global,
        place: PdbInternalSectionOffset,
        limit: u32,
    ) -> Result<(Option<FunctionKey>, u32)>
        requires { 1 ≤ limit }
        ensures same { self.new ≡ self.old }
        ensures function { GivesFunctionKey P.provided self.old
            (function_on P.provided self.old place) result }
        ensures count { IsRunOf (database_in P.provided self.old) place limit result }
    {
        match self.data.parts.holding_contribution(place) {
            None => Ok((None, to_next_shared_bound(&self.data.parts, place, limit))),
            Some(contribution) => self.key_run_at(alloc, contribution, place, limit),
        }
    }

    /// Returns the function that a key stands for, if there is one.
    ///
    /// # Errors
    /// `OutOfMemory` alone.
    pub fn function_by_key(&mut self, alloc: Global, key: &FunctionKey) -> Result<Option<Function>>
        ensures same { self.new ≡ self.old }
        ensures function { Answers (λ f. f) result
            (Ok (function_of_key P.provided self.old key.now)) }
    {
        let module_index = key.module_index();
        self.data.keep_module(alloc, &self.namer, module_index)?;
        let data = &self.data;
        let known = known_at(&data.cached, usize::from(module_index));
        let Some(chosen) = choose_by(&data.parts, known, key) else {
            return Ok(None);
        };
        function_of(alloc, &data.parts, &mut self.namer, module_index, chosen)
    }

    /// Returns the function at a place, and the number of bytes from there on that have this
    /// function.
    ///
    /// # Errors
    /// `OutOfMemory` alone.
    pub fn run(
        &mut self,
        alloc: Global,
        place: PdbInternalSectionOffset,
        limit: u32,
    ) -> Result<(Option<Function>, u32)>
        requires { 1 ≤ limit }
        ensures same { self.new ≡ self.old }
        ensures function { Answers (λ run. run.0) result
            (Ok (function_on P.provided self.old place)) }
        ensures count { IsRunOf (database_in P.provided self.old) place limit result }
    {
        let (key, count) = self.key_run(alloc, place, limit)?;
        let Some(key) = key else {
            return Ok((None, count));
        };
        let function = self.function_by_key(alloc, &key)?;
        Ok((function, count))
    }
}
