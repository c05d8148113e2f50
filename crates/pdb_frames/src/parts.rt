//! The parts that every question goes over.

ghost use Rattle.std.specs.Prelude.{◌≡◌, option_copied, option_map};
ghost use Rattle.pdb_addresses.specs.Addresses.{IsOrdered};
ghost use Rattle.pdb_container.specs.RawString.{raw_bytes};
ghost use Rattle.pdb_contributions.specs.MergedContributions.{holder as holder_of};
ghost use Rattle.pdb_frames.specs.Choice.{decorated_at as decorated_name_at};
ghost use Rattle.pdb_frames.specs.Choice.{is_decorated as is_decorated_name};
ghost use Rattle.pdb_frames.specs.Parts.{parts_checked, parts_over};
ghost use Rattle.pdb_frames.specs.PartsSeen.{AreMade, Checks, ChecksParts, MakesInAnyOrder};
ghost use Rattle.pdb_frames.specs.PartsSeen.{MakesParts};

use pdb_addresses::{AddressMap, ImageSectionHeader, PdbInternalSectionOffset};
use pdb_container::{RawString, StringTable};
use pdb_contributions::{
    HeldPlaces, ModuleSectionContribution, PublicFunction, PublicList, SectionContributions,
    check_symbols, compute_section_contributions, compute_section_contributions_in_any_order,
    read_public_symbols,
};
use pdb_module_data::FileNames;
use pdb_resolving::Result;
use pdb_symbol_records::SymbolTable;
use pdb_symbols_modules::DebugInformation;
use std::alloc::Global;
use std::marker::Model;

/// Returns whether a name is decorated: it begins with a question mark.
pub fn is_decorated(name: &[u8]) -> bool
    ensures { result ≡ is_decorated_name name.now }
{
    match name.first() {
        None => false,
        Some(byte) => *byte == b'?',
    }
}

/// The parts that every question goes over: the address map, what modules hold, the public list,
/// and the string table.
pub struct ContextParts<'a, 's> {
    /// The address map, between RVAs and places in sections.
    pub address_map: &'a AddressMap<'s>,
    /// The contributions of modules to sections, in order and apart.
    pub contributions: HeldPlaces,
    /// The public list.
    pub publics: PublicList<'a>,
    /// The names of the string table (`/names`), if there is one.
    pub names: FileNames<'a, 's>,
}

impl<'a, 's> Model for ContextParts<'a, 's> {
    ghost use Rattle.pdb_addresses.specs.Addresses.{IsOrdered};
    ghost use Rattle.pdb_frames.specs.Choice as choice;

    ghost Value = { choice.Parts };

    ghost view = { λ p. record {
      map = p.address_map.now;
      contributions = p.contributions;
      publics = p.publics;
      names = p.names;
    } };

    // The OMAPs are in order.
    ghost invariant = { λ p. IsOrdered p.address_map.now };
}

impl<'a, 's> Drop for ContextParts<'a, 's> {
    fn drop(self) {
        let ContextParts {
            address_map: _,
            contributions,
            publics,
            names,
        } = self;
        drop(contributions);
        drop(publics);
        drop(names);
    }
}

/// Reads the symbol records to their end, and then the section contributions of the DBI stream. It
/// stores nothing.
#[tactic(auto, using(pdb_resolving::proofs::Lifting::parsed_fails_on, pdb_resolving::proofs::Lifting::fails_on), unfolding(crate::specs::Parts::parts_checked))]
fn read_through(
    alloc: Global,
    sections: &[ImageSectionHeader],
    global_symbols: &SymbolTable<'_>,
    debug_info: &DebugInformation<'_>,
) -> Result<()>
    ensures { Checks result
        (parts_checked sections.now global_symbols.now debug_info.now.contributions) }
{
    check_symbols(global_symbols.iter())?;
    compute_section_contributions(alloc, debug_info, sections)?;
    Ok(())
}

impl<'a, 's> ContextParts<'a, 's> {
    /// The parts over functions and contributions that were read. `OutOfMemory` alone.
    fn over_functions(
        alloc: Global,
        sections: &[ImageSectionHeader],
        address_map: &'a AddressMap<'s>,
        string_table: Option<&'a StringTable<'s>>,
        functions: Vec<PublicFunction<'a>>,
        held: SectionContributions,
    ) -> Result<ContextParts<'a, 's>>
        requires { IsOrdered address_map.now }
        ensures { AreMade result (parts_over sections.now address_map.now
            (option_copied string_table.entry) functions.entry.items held) }
    {
        let SectionContributions {
            contributions,
            later_starts,
        } = held;
        let publics = PublicList::new(functions, later_starts, sections)?;
        let contributions = HeldPlaces::new(alloc, contributions)?;
        let names = FileNames::new(alloc, string_table)?;
        Ok(ContextParts {
            address_map,
            contributions,
            publics,
            names,
        })
    }

    /// Makes the parts. It reads the symbol records to their end, and then the section
    /// contributions of the DBI stream.
    ///
    /// # Errors
    /// `SymbolTooShort` and `UnexpectedEof` of the symbol records, as `PdbError`; the errors of
    /// [`compute_section_contributions`]; `OutOfMemory`.
    #[tactic(auto, using(pdb_resolving::proofs::Lifting::given_fails_on, pdb_resolving::proofs::Lifting::fails_on), unfolding(crate::specs::Parts::parts_of))]
    pub fn new(
        alloc: Global,
        sections: &[ImageSectionHeader],
        address_map: &'a AddressMap<'s>,
        global_symbols: &'a SymbolTable<'s>,
        string_table: Option<&'a StringTable<'s>>,
        debug_info: &DebugInformation<'_>,
    ) -> Result<ContextParts<'a, 's>>
        requires { IsOrdered address_map.now }
        ensures { MakesParts sections.now address_map.now global_symbols.now debug_info.now
            string_table.entry result }
    {
        let functions = read_public_symbols(alloc, global_symbols.iter(), sections)?;
        let held = compute_section_contributions(alloc, debug_info, sections)?;
        ContextParts::over_functions(alloc, sections, address_map, string_table, functions, held)
    }

    /// Makes the parts as [`ContextParts::new`], where section contributions may stand in any
    /// order: where merging them is refused for their order, the first one in the order of the file
    /// that holds a place is its holder.
    ///
    /// # Errors
    /// The errors of [`ContextParts::new`], but for `UnorderedSectionContributions`.
    #[tactic(auto, using(pdb_resolving::proofs::Lifting::given_fails_on, pdb_resolving::proofs::Lifting::fails_on), unfolding(crate::specs::Parts::parts_in_any_order))]
    pub fn in_any_order(
        alloc: Global,
        sections: &[ImageSectionHeader],
        address_map: &'a AddressMap<'s>,
        global_symbols: &'a SymbolTable<'s>,
        string_table: Option<&'a StringTable<'s>>,
        debug_info: &DebugInformation<'_>,
    ) -> Result<ContextParts<'a, 's>>
        requires { IsOrdered address_map.now }
        ensures { MakesInAnyOrder sections.now address_map.now global_symbols.now debug_info.now
            string_table.entry result }
    {
        let functions = read_public_symbols(alloc, global_symbols.iter(), sections)?;
        let held = compute_section_contributions_in_any_order(alloc, debug_info, sections)?;
        ContextParts::over_functions(alloc, sections, address_map, string_table, functions, held)
    }

    /// Checks that the parts can be made, whatever the address map and the names are.
    ///
    /// # Errors
    /// The errors of [`ContextParts::new`].
    #[tactic(auto, using(crate::proofs::CheckedParts::as_checked))]
    pub fn check(
        alloc: Global,
        sections: &[ImageSectionHeader],
        global_symbols: &SymbolTable<'_>,
        debug_info: &DebugInformation<'_>,
    ) -> Result<()>
        ensures { ChecksParts sections.now global_symbols.now debug_info.now.contributions result }
    {
        read_through(alloc, sections, global_symbols, debug_info)
    }

    /// Returns the contribution that holds a place.
    pub fn holding_contribution(
        &self,
        place: PdbInternalSectionOffset,
    ) -> Option<ModuleSectionContribution>
        ensures { result ≡ holder_of self.now.contributions place }
    {
        self.contributions.holder(place)
    }

    /// Returns the decorated public name at exactly a place.
    pub fn decorated_at(&self, place: PdbInternalSectionOffset) -> Option<RawString<'a>>
        ensures { option_map raw_bytes result ≡ decorated_name_at self.now place }
    {
        let public = self.publics.exactly(place)?;
        match public.name {
            None => None,
            Some(name) => {
                if is_decorated(name.as_bytes()) {
                    Some(name)
                } else {
                    None
                }
            }
        }
    }
}
