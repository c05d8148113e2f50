//! The modules that places in the string table lead to, each found once.

ghost use Rattle.std.specs.Prelude.{◌≡◌, ℕ, List, ◌⊎◌};
ghost use Rattle.pdb_symbols_modules.specs.Modules as entries;
ghost use Rattle.pdb_container.specs.declared.error.Error as container;
ghost use Rattle.pdb_resolving.specs.Fault.{Answers, error_of};
ghost use Rattle.pdb_resolving.specs.KeptTables.{named_at, AreNamed, AreNames, RefusesAt, StayNamed};
ghost use Rattle.pdb_resolving.specs.declared.error.Error.TheVariants as errors;

use crate::error::{Error, Result};
use crate::module_names::ModuleNames;
use pdb_container::{StringRef, StringTable};
use pdb_symbols_modules::Module;
use std::alloc::Global;
use std::collections::BTreeMap;

/// A name that no module has: its place among the names, and its text in ASCII lower case.
#[derive(Drop)]
pub struct MissingName {
    pub place: u32,
    pub name: String,
}

/// The modules that names of the string table lead to, by the place of the name. Each is stored
/// once it was found; so are the place from which on no name ends, and the last name that no module
/// has.
#[derive(Drop)]
pub struct NamedModules {
    /// For the place of a name, the index of the last module with that name.
    numbers: BTreeMap<u32, usize>,
    /// The place from which on no name ends.
    unended: Option<u32>,
    /// The last name that no module has; one alone is stored, since each takes memory for its text.
    missing: Option<MissingName>,
}

impl NamedModules {
    /// The value in which nothing is stored.
    pub fn new(alloc: Global) -> NamedModules
        ensures { (names : List ℕ) (modules : List entries.Module) → AreNamed names modules result }
    {
        NamedModules {
            numbers: BTreeMap::new(alloc),
            unended: None,
            missing: None,
        }
    }

    /// The index of the last module with the name at a place, without regard to ASCII case.
    ///
    /// # Errors
    /// The name's fault, `ModuleNameNotFound`, `OutOfMemory`.
    #[tactic(auto, using(crate::proofs::Lifting::given_fails_on))]
    pub fn number_by_reference(
        &mut self,
        alloc: Global,
        strings: &StringTable<'_>,
        modules: &[Module<'_>],
        names: &mut ModuleNames,
        place: StringRef,
    ) -> Result<usize>
        requires named { AreNamed strings.now modules.now self.old }
        requires names { AreNames modules.now names.old }
        ensures named { AreNamed strings.now modules.now self.new }
        ensures names { AreNames modules.now names.new }
        ensures value { Answers (λ n. n) result (named_at strings.now modules.now place.0) }
    {
        if let Some(number) = self.numbers.get(&place.0) {
            return Ok(*number);
        }
        self.check_end(place)?;
        self.check_missing(place)?;
        let name = match place.to_string_lossy(alloc, strings) {
            Ok(name) => name,
            Err(fault) => {
                self.store_unended(place, &fault);
                return Err(Error::from(fault));
            }
        };
        match names.number(alloc, modules, name.as_str()) {
            Ok(number) => {
                self.numbers.insert(place.0, number)?;
                Ok(number)
            }
            Err(fault) => Err(self.store_missing(place, fault)),
        }
    }

    /// Checks that a name may end at or after the place.
    ///
    /// # Errors
    /// `UnexpectedEof` where it is stored that none does.
    fn check_end(&self, place: StringRef) -> Result<()>
        ensures { RefusesAt self.now place.0 result }
    {
        match self.unended {
            Some(first) if first <= place.0 => {
                Err(Error::PdbError(pdb_container::Error::UnexpectedEof))
            }
            _ => Ok(()),
        }
    }

    /// Checks that a module may have the name at the place.
    ///
    /// # Errors
    /// `ModuleNameNotFound` where it is stored that none has; `OutOfMemory`.
    fn check_missing(&self, place: StringRef) -> Result<()>
        ensures { RefusesAt self.now place.0 result }
    {
        match &self.missing {
            Some(missing) if missing.place == place.0 => {
                Err(Error::ModuleNameNotFound(missing.name.clone()?))
            }
            _ => Ok(()),
        }
    }

    /// Stores that no name ends from the place on, if that is the fault.
    fn store_unended(&mut self, place: StringRef, fault: &pdb_container::Error)
        ensures { StayNamed self.old self.new place.0 (error_of fault.now) }
    {
        if let pdb_container::Error::UnexpectedEof = fault {
            self.unended = Some(place.0);
        }
    }

    /// Stores the name at the place if the fault is that no module has it. Returns the fault, or
    /// `OutOfMemory`.
    fn store_missing(&mut self, place: StringRef, fault: Error) -> Error
        ensures same { (result ≡ fault) ⊎ (result ≡ errors.OutOfMemory) }
        ensures kept { StayNamed self.old self.new place.0 fault }
    {
        match fault {
            Error::ModuleNameNotFound(name) => self.store_name(place, name),
            other => other,
        }
    }

    /// Stores a name that no module has, and returns that fault, or `OutOfMemory`.
    fn store_name(&mut self, place: StringRef, name: String) -> Error
        ensures same { (result ≡ errors.ModuleNameNotFound name) ⊎ (result ≡ errors.OutOfMemory) }
        ensures kept { StayNamed self.old self.new place.0 (errors.ModuleNameNotFound name) }
    {
        match name.clone() {
            Ok(kept) => {
                self.missing = Some(MissingName {
                    place: place.0,
                    name: kept,
                });
                Error::ModuleNameNotFound(name)
            }
            Err(_) => Error::OutOfMemory,
        }
    }
}
