//! The modules that hold the places of RVAs.

ghost use Rattle.std.specs.Prelude.{◌≡◌, ℕ, ◌<◌, ◌≤◌, IfOk, IsOkUnless};
ghost use Rattle.pdb_addresses.specs.Addresses.{IsOrdered};
ghost use Rattle.pdb_addresses.specs.Ranges.{runs};
ghost use Rattle.pdb_addr2line.specs.ModulesAt.{cover, may_hold, module_at as module_at_rva};
ghost use Rattle.pdb_addr2line.specs.ModulesAt.{modules_between as modules_between_rvas};
ghost use Rattle.pdb_addr2line.specs.ModulesAt.{modules_holding, HasHolders};

use crate::context::{Context, place_at};
use pdb_addresses::{AddressMap, PdbInternalSectionOffset, Rva};
use pdb_answers::ModuleSectionContribution;
use pdb_resolving::{Error, ModuleProvider, Result};
use std::alloc::{AllocError, Global};
use std::ops::Range;

/// A range of internal addresses that has those of a range of RVAs, but for 0xffffffff: one run,
/// where the RVAs become one; all addresses, where the OMAP has moved parts of it.
fn covering_range(map: &AddressMap<'_>, start: u32, end: u32) -> Range<u32>
    requires { IsOrdered map.now }
    ensures { result ≡ cover (runs map.now.to_internal start end) }
{
    let mut ranges = map.internal_rva_ranges(Rva(start)..Rva(end));
    let Some(range) = ranges.next() else {
        return 0..0;
    };
    match ranges.next() {
        None => range.start.0..range.end.0,
        Some(_) => 0..u32::MAX,
    }
}

/// Whether a contribution holds an address in a range of internal addresses.
fn meets(map: &AddressMap<'_>, range: &Range<u32>, contribution: ModuleSectionContribution) -> bool
    ensures { result ≡ may_hold map.now range.now contribution }
{
    let place = PdbInternalSectionOffset {
        offset: contribution.start_offset(),
        section: contribution.section_index(),
    };
    let Some(start) = place.to_internal_rva(map) else {
        return false;
    };
    let length = contribution
        .end_offset()
        .saturating_sub(contribution.start_offset());
    start.0 < range.end && u64::from(range.start) < u64::from(start.0) + u64::from(length)
}

/// Returns the indices of the modules whose contributions hold addresses in a range of internal
/// addresses, in the order of the contributions.
#[tactic(auto, using(crate::proofs::HolderSteps::passed, crate::proofs::HolderSteps::held, crate::proofs::HolderSteps::none_left))]
fn holding_modules(
    alloc: Global,
    map: &AddressMap<'_>,
    range: &Range<u32>,
    contributions: &[ModuleSectionContribution],
) -> std::result::Result<Vec<usize>, AllocError>
    ensures { IfOk result (λ modules. modules.items
        ≡ modules_holding map.now range.now contributions.now) }
{
    let mut modules = Vec::new(alloc);
    for contribution in contributions {
        if meets(map, range, *contribution) {
            modules.push(usize::from(contribution.module_index()))?;
        }
    }
    Ok(modules)
}

impl<'a, 's, P: ModuleProvider> Context<'a, 's, P> {
    /// Returns the index of the module that holds the place of an RVA: the module whose stream an
    /// answer at this address needs. It isn't counted as a lookup.
    pub fn module_at(&self, probe: u32) -> Option<usize>
        ensures { result ≡ module_at_rva self.now.parts probe }
    {
        let parts = self.symbolizer.parts();
        let place = place_at(parts, probe)?;
        let held = parts.holding_contribution(place)?;
        Some(usize::from(held.module_index()))
    }

    /// Returns the indices of modules that hold places of RVAs from `start` to before `end`, in the
    /// order of the contributions; a module with several is repeated. No module that holds one is
    /// missing, unless its internal address is 0xffffffff. Where an OMAP has moved parts of the
    /// range, all modules that hold places are there.
    ///
    /// # Errors
    /// `OutOfMemory` alone.
    pub fn modules_between(&self, alloc: Global, start: u32, end: u32) -> Result<Vec<usize>>
        ensures exact { IfOk result (λ modules. modules.items
            ≡ modules_between_rvas self.now.parts start end) }
        ensures holders { IfOk result
            (λ modules. HasHolders self.now.parts start end modules.items) }
        ensures memory { IsOkUnless result Error.OutOfMemory }
    {
        let parts = self.symbolizer.parts();
        let range = covering_range(parts.address_map, start, end);
        let modules = holding_modules(
            alloc,
            parts.address_map,
            &range,
            parts.contributions.as_slice(),
        )?;
        Ok(modules)
    }
}
