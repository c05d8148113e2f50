//! The function that is chosen at a place.

ghost use Rattle.std.specs.Prelude.{◌≡◌, option_copied, option_map};
ghost use Rattle.pdb_addresses.specs.Addresses.{outer_of_place};
ghost use Rattle.pdb_frames.specs.Choice.{NumbersOver, chosen_in, start_of, start_address};
ghost use Rattle.pdb_frames.specs.Choice.{length_of, end_behind, function_end};
ghost use Rattle.pdb_known_modules.specs.KnownModules.{procedures_in};
ghost use Rattle.pdb_frames.specs.ChosenSeen.{chosen_seen, end_seen};

use crate::parts::ContextParts;
use pdb_addresses::PdbInternalSectionOffset;
use pdb_container::RawString;
use pdb_contributions::ModuleSectionContribution;
use pdb_known_modules::{BasicModuleInfo, procedure_numbered};
use pdb_module_data::Procedure;
use pdb_resolving::ModuleTables;

/// A chosen function: a procedure, or an entry of the public list.
#[derive(Clone, Copy)]
pub enum Chosen<'c, 'a> {
    /// A procedure of the module that holds the place, after its index among that module's
    /// procedures.
    Procedure(usize, &'c Procedure<'a>),
    /// An entry of the public list: the place at which it begins, and its name; a placeholder has
    /// no name.
    Public(PdbInternalSectionOffset, Option<RawString<'a>>),
}

/// The end of a chosen function.
#[derive(Clone, Copy)]
pub enum FunctionEnd {
    /// At an RVA.
    At(u32),
    /// At no known address: no public entry is after this one in its section, or the end lies past
    /// 32 bits.
    Unknown,
    /// The public entry after this one has no RVA. Then this one is no function.
    NoFunction,
}

/// Returns the function that is chosen at a place that a contribution holds, from its module's data
/// and the index of the procedure over the place. It is this procedure, if there is one. Otherwise
/// it is the entry of the public list, unless the entry lies before the contribution.
pub fn choose<'c, 'a, I: ModuleTables>(
    parts: &'c ContextParts<'a, '_>,
    known: Option<&'c BasicModuleInfo<'a, I>>,
    number: Option<usize>,
    contribution: ModuleSectionContribution,
    place: PdbInternalSectionOffset,
) -> Option<Chosen<'c, 'a>>
    requires { NumbersOver (procedures_in (option_copied known)) number place }
    ensures { option_map chosen_seen result
        ≡ chosen_in parts.now (option_copied known.entry) contribution place }
{
    if let Some(number) = number {
        if let Some(procedure) = procedure_numbered(known, number) {
            return Some(Chosen::Procedure(number, procedure));
        }
    }
    match parts.publics.over(contribution.start_offset(), place) {
        None => None,
        Some(public) => Some(Chosen::Public(public.start_offset, public.name)),
    }
}

/// Returns the RVA of a place, if it has one.
pub fn rva_of(parts: &ContextParts<'_, '_>, place: PdbInternalSectionOffset) -> Option<u32>
    ensures { result ≡ outer_of_place parts.now.map place.section place.offset }
{
    match place.to_rva(parts.address_map) {
        None => None,
        Some(address) => Some(address.0),
    }
}

impl<'c, 'a> Chosen<'c, 'a> {
    /// Returns the place at which the function begins.
    pub fn start(self) -> PdbInternalSectionOffset
        ensures { result ≡ start_of (chosen_seen self.entry) }
    {
        match self {
            Chosen::Procedure(_, procedure) => procedure.offset,
            Chosen::Public(start, _) => start,
        }
    }

    /// Returns the RVA at which the function begins, if it has one.
    pub fn start_rva(self, parts: &ContextParts<'_, '_>) -> Option<u32>
        ensures { result ≡ start_address parts.now (chosen_seen self.entry) }
    {
        rva_of(parts, self.start())
    }

    /// Returns the function's length in bytes, if it is known. A public entry goes on to the next
    /// one of its section.
    fn len(self, parts: &ContextParts<'_, '_>) -> Option<u32>
        ensures { result ≡ length_of parts.now (chosen_seen self.entry) }
    {
        match self {
            Chosen::Procedure(_, procedure) => Some(procedure.len),
            Chosen::Public(start, _) => {
                let next = parts.publics.next_behind(start)?;
                Some(next.start_offset.offset.saturating_sub(start.offset))
            }
        }
    }

    /// Returns the RVA at which the function's frames end, if it is known: the sum of its start and
    /// its length, below 2^32.
    pub fn end_of_frames(self, parts: &ContextParts<'_, '_>, start_rva: u32) -> Option<u32>
        ensures { result ≡ end_behind start_rva (length_of parts.now (chosen_seen self.entry)) }
    {
        start_rva.checked_add(self.len(parts)?)
    }

    /// Returns the end of the chosen function as a function: a public entry ends at the next one in
    /// its section.
    pub fn end_of_function(self, parts: &ContextParts<'_, '_>, start_rva: u32) -> FunctionEnd
        ensures { end_seen result ≡ function_end parts.now (chosen_seen self.entry) start_rva }
    {
        match self {
            Chosen::Procedure(_, procedure) => match start_rva.checked_add(procedure.len) {
                None => FunctionEnd::Unknown,
                Some(end) => FunctionEnd::At(end),
            },
            Chosen::Public(start, _) => match parts.publics.next_behind(start) {
                None => FunctionEnd::Unknown,
                Some(next) => match next.start_offset.to_rva(parts.address_map) {
                    None => FunctionEnd::NoFunction,
                    Some(end) => FunctionEnd::At(end.0),
                },
            },
        }
    }
}
