//! The starts of functions: the RVAs of the public list's entries and of all modules' procedures.

ghost use Rattle.std.specs.Prelude.{◌≡◌, ◌++◌, IfOk, OnOk};
ghost use Rattle.pdb_addresses.specs.Addresses.{IsOrdered};
ghost use Rattle.pdb_addr2line.specs.Starts.{Appends, AreKeptStarts, AreSame, IsAscending};
ghost use Rattle.pdb_addr2line.specs.Starts.{address_of, addresses_of};
ghost use Rattle.pdb_addr2line.specs.Starts.{all_starts, module_starts, public_starts};
ghost use Rattle.pdb_addr2line.specs.Starts.{starts_given, starts_of};

use pdb_addresses::{AddressMap, PdbInternalSectionOffset};
use pdb_answers::{ContextParts, Namer, get_basic_module_info, procedures_in};
use pdb_contributions::{PublicFunction, PublicList};
use pdb_module_data::Procedure;
use pdb_resolving::ModuleProvider;
use std::alloc::{AllocError, Global};

/// Appends the RVA of a place, if it has one.
#[tactic(auto, using(crate::proofs::StartSteps::none_added, crate::proofs::StartSteps::one_added))]
fn push_address(
    addresses: &mut Vec<u32>,
    address_map: &AddressMap<'_>,
    place: PdbInternalSectionOffset,
) -> Result<(), AllocError>
    requires { IsOrdered address_map.now }
    ensures { OnOk result (addresses.new.items
        ≡ addresses.old.items ++ address_of address_map.now place) }
{
    let Some(address) = place.to_rva(address_map) else {
        return Ok(());
    };
    addresses.push(address.0)?;
    Ok(())
}

/// Appends the RVAs at which entries of the public list begin, in the order of the entries.
#[tactic(auto, using(crate::proofs::StartSteps::publics_start, crate::proofs::StartSteps::publics_more, crate::proofs::StartSteps::publics_end))]
fn push_functions(
    addresses: &mut Vec<u32>,
    address_map: &AddressMap<'_>,
    publics: &[PublicFunction<'_>],
) -> Result<(), AllocError>
    requires { IsOrdered address_map.now }
    ensures { Appends result address_map.now addresses.old addresses.new
        (public_starts publics.now) }
{
    for public in publics {
        push_address(addresses, address_map, public.start_offset)?;
    }
    Ok(())
}

/// Appends the RVAs of places, in their order.
#[tactic(auto, using(crate::proofs::StartSteps::places_start, crate::proofs::StartSteps::places_more, crate::proofs::StartSteps::places_end))]
fn push_places(
    addresses: &mut Vec<u32>,
    address_map: &AddressMap<'_>,
    places: &[PdbInternalSectionOffset],
) -> Result<(), AllocError>
    requires { IsOrdered address_map.now }
    ensures { Appends result address_map.now addresses.old addresses.new places.now }
{
    for place in places {
        push_address(addresses, address_map, *place)?;
    }
    Ok(())
}

/// The RVAs at which entries of the public list begin, in any order, and some more than once.
#[tactic(auto, using(crate::proofs::StartSteps::publics_joined))]
fn public_addresses(
    alloc: Global,
    address_map: &AddressMap<'_>,
    publics: &PublicList<'_>,
) -> Result<Vec<u32>, AllocError>
    requires { IsOrdered address_map.now }
    ensures { IfOk result (λ v. AreSame (addresses_of address_map.now (public_starts publics.now))
        v.items) }
{
    let (functions, places) = publics.as_slices();
    let mut addresses = Vec::new(alloc);
    push_functions(&mut addresses, address_map, functions)?;
    push_places(&mut addresses, address_map, places)?;
    Ok(addresses)
}

/// Appends the RVAs at which procedures begin, in the order of the procedures.
#[tactic(auto, using(crate::proofs::StartSteps::procedures_start, crate::proofs::StartSteps::procedures_more, crate::proofs::StartSteps::procedures_end))]
fn push_procedures(
    addresses: &mut Vec<u32>,
    address_map: &AddressMap<'_>,
    procedures: &[Procedure<'_>],
) -> Result<(), AllocError>
    requires { IsOrdered address_map.now }
    ensures { Appends result address_map.now addresses.old addresses.new
        (starts_of procedures.now) }
{
    for procedure in procedures {
        push_address(addresses, address_map, procedure.offset)?;
    }
    Ok(())
}

/// Appends the RVAs at which the procedures of the module with that index, counted from 0, begin.
fn push_module<P: ModuleProvider>(
    alloc: Global,
    addresses: &mut Vec<u32>,
    address_map: &AddressMap<'_>,
    provider: &P,
    namer: &Namer<'_, '_, P>,
    module_index: usize,
) -> Result<(), AllocError>
    requires { IsOrdered address_map.now }
    ensures { Appends result address_map.now addresses.old addresses.new
        (module_starts P.provided provider.now namer.now module_index) }
{
    let known = get_basic_module_info(alloc, provider, namer.modules(), module_index)?;
    push_procedures(addresses, address_map, procedures_in(&known))
}

/// Appends the RVAs at which the procedures of all modules begin, in the order of the modules.
#[tactic(auto, using(crate::proofs::StartSteps::modules_start, crate::proofs::StartSteps::modules_more, crate::proofs::StartSteps::modules_end))]
fn push_modules<P: ModuleProvider>(
    alloc: Global,
    addresses: &mut Vec<u32>,
    address_map: &AddressMap<'_>,
    provider: &P,
    namer: &Namer<'_, '_, P>,
) -> Result<(), AllocError>
    requires { IsOrdered address_map.now }
    ensures { Appends result address_map.now addresses.old addresses.new
        (all_starts P.provided provider.now namer.now) }
{
    for module_index in 0..namer.modules().len() {
        push_module(alloc, addresses, address_map, provider, namer, module_index)?;
    }
    Ok(())
}

/// Brings numbers into ascending order, each once.
fn sort_and_dedup(numbers: &mut Vec<u32>)
    ensures { IsAscending numbers.old.items numbers.new.items }
{
    numbers.sort_unstable();
    numbers.dedup();
}

/// The distinct RVAs at which entries of the public list or procedures begin, in ascending order.
#[tactic(auto, using(crate::proofs::StartSteps::ascending_both))]
fn function_starts<P: ModuleProvider>(
    alloc: Global,
    provider: &P,
    parts: &ContextParts<'_, '_>,
    namer: &Namer<'_, '_, P>,
) -> Result<Vec<u32>, AllocError>
    ensures { IfOk result
        (λ v. IsAscending (starts_given P.provided provider.now parts.now namer.now) v.items) }
{
    let mut starts = public_addresses(alloc, parts.address_map, &parts.publics)?;
    push_modules(alloc, &mut starts, parts.address_map, provider, namer)?;
    sort_and_dedup(&mut starts);
    Ok(starts)
}

/// A copy of numbers.
fn copied(alloc: Global, numbers: &Vec<u32>) -> Result<Vec<u32>, AllocError>
    ensures { IfOk result (λ v. v.items ≡ numbers.now.items) }
{
    let mut copy = Vec::new(alloc);
    copy.extend_from_slice(numbers.as_slice())?;
    Ok(copy)
}

/// The distinct RVAs at which functions begin, in ascending order: the cached ones, or else they
/// are found and cached. Nothing is cached where memory is short.
pub fn kept_starts<P: ModuleProvider>(
    alloc: Global,
    kept: &mut Option<Vec<u32>>,
    provider: &P,
    parts: &ContextParts<'_, '_>,
    namer: &Namer<'_, '_, P>,
) -> Result<Vec<u32>, AllocError>
    requires { AreKeptStarts (starts_given P.provided provider.now parts.now namer.now) kept.old }
    ensures kept { AreKeptStarts (starts_given P.provided provider.now parts.now namer.now)
        kept.new }
    ensures starts { IfOk result
        (λ v. IsAscending (starts_given P.provided provider.now parts.now namer.now) v.items) }
{
    if let Some(starts) = kept {
        return copied(alloc, starts);
    }
    let starts = function_starts(alloc, provider, parts, namer)?;
    let copy = copied(alloc, &starts)?;
    *kept = Some(starts);
    Ok(copy)
}
