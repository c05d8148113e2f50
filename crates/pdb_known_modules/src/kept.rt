//! The cache of modules that were asked for; past the meter's limit it is forgotten.

ghost use Rattle.std.specs.Prelude.{◌≡◌, ◌<◌, ℕ, IfOk, length, Option, option_copied, replicate};
ghost use Rattle.std.specs.Prelude.{None, slice_get, slice_set};
ghost use Rattle.pdb_known_modules.specs.CachedModules.{AreKept, known_in};
ghost use Rattle.pdb_known_modules.specs.CachedModules.{is_empty as is_empty_slot};
ghost use Rattle.pdb_known_modules.specs.KnownModules.{ModuleData, module_data, own_of};

use crate::meter::Meter;
use crate::modules::{BasicModuleInfo, get_basic_module_info};
use crate::slots::{empty_all, empty_slots};
use pdb_addresses::PdbInternalSectionOffset;
use pdb_resolving::{ModuleProvider, ModuleTables};
use pdb_symbols_modules::Module;
use std::alloc::{AllocError, Global};
use std::marker::Model;

/// A slot for a module's data, which are cached there once they were read: `Some(None)` for a
/// module without data.
type KeptModule<'a, I> = Option<Option<BasicModuleInfo<'a, I>>>;

/// The cached data of the modules that were asked for, each at its index, and the number of bytes
/// that they take.
pub struct CachedModules<'a, I: ModuleTables> {
    slots: Vec<KeptModule<'a, I>>,
    meter: Meter,
    /// The index of the module that was asked for last; no module's before the first question.
    last: usize,
    /// For each module, whether another one was asked for after it.
    left: Vec<bool>,
}

impl<'a, I: ModuleTables> Model for CachedModules<'a, I> {
    ghost use Rattle.std.specs.Prelude.{List, Option};
    ghost use Rattle.pdb_known_modules.specs.KnownModules.{ModuleData};

    ghost Value = { List (Option (Option ModuleData)) };

    ghost view = { λ c. c.slots.items };
}

impl<'a, I: ModuleTables> Drop for CachedModules<'a, I> {
    fn drop(self) {
        let CachedModules {
            slots,
            meter,
            last: _,
            left,
        } = self;
        drop(slots);
        drop(meter);
        drop(left);
    }
}

/// Makes an empty cache for so many modules, of a database of at most so many bytes
/// ([`ModuleProvider::size_hint`]).
///
/// # Errors
/// `AllocError` when memory runs out.
pub fn nothing_cached<'a, I: ModuleTables>(
    alloc: Global,
    count: usize,
    database_size: u64,
) -> Result<CachedModules<'a, I>, AllocError>
    ensures { IfOk result (λ cached. cached ≡ replicate count None) }
{
    let slots = empty_slots(alloc, count)?;
    Ok(CachedModules {
        slots,
        meter: Meter::new(alloc, database_size),
        last: count,
        left: vec![in alloc; false; count]?,
    })
}

/// Forgets all cached data: all slots are as empty as before the first question.
fn forget_all_modules<'a, I: ModuleTables>(cached: &mut CachedModules<'a, I>)
    ensures { cached.new ≡ replicate (length cached.old) None }
{
    empty_all(&mut cached.slots);
    cached.meter.clear();
}

/// Forgets all cached data if they are more than the meter allows.
#[tactic(auto, using(crate::proofs::KeptSteps::none_kept))]
fn forget_modules_if_full<'a, I: ModuleTables>(cached: &mut CachedModules<'a, I>)
    ensures { (own : ℕ → Option ModuleData) → AreKept own cached.old → AreKept own cached.new }
{
    if cached.meter.is_full() {
        forget_all_modules(cached);
    }
}

/// The approximate number of bytes that are cached of a module, and the number of them that are of
/// its procedures.
fn sizes_at<'a, I: ModuleTables>(place: &KeptModule<'a, I>) -> (u64, u64) {
    match place {
        Some(Some(known)) => (known.cached_size(), known.procedures_size()),
        _ => (0, 0),
    }
}

/// Forgets the module with that index.
fn forget_module<'a, I: ModuleTables>(cached: &mut CachedModules<'a, I>, number: usize)
    requires { number < length cached.old }
    ensures { cached.new ≡ slice_set cached.old number None }
{
    let (bytes, procedures) = sizes_at(&cached.slots[number]);
    cached.slots[number] = None;
    cached.meter.give_back(bytes, procedures);
}

/// Forgets the cached data of the procedures of a module, if the module's data are cached there.
/// Returns the approximate number of their bytes.
fn forget_procedures_at<'a, I: ModuleTables>(place: &mut KeptModule<'a, I>) -> u64
    ensures { place.new ≡ place.old }
{
    match place {
        Some(Some(known)) => known.forget_procedures(),
        _ => 0,
    }
}

/// Forgets the line rows that are cached of a module, if its data are cached there. Returns the
/// approximate number of their bytes.
fn forget_rows_at<'a, I: ModuleTables>(place: &mut KeptModule<'a, I>) -> u64
    ensures { place.new ≡ place.old }
{
    match place {
        Some(Some(known)) => known.forget_rows(),
        _ => 0,
    }
}

/// Forgets the line rows that are cached of the module with that index.
fn forget_module_rows<'a, I: ModuleTables>(cached: &mut CachedModules<'a, I>, number: usize)
    requires { number < length cached.old }
    ensures { cached.new ≡ cached.old }
{
    let bytes = forget_rows_at(&mut cached.slots[number]);
    cached.meter.give_back(bytes, bytes);
}

/// Forgets the cached data of the procedures of the module with that index.
fn forget_module_procedures<'a, I: ModuleTables>(cached: &mut CachedModules<'a, I>, number: usize)
    requires { number < length cached.old }
    ensures { cached.new ≡ cached.old }
{
    let bytes = forget_procedures_at(&mut cached.slots[number]);
    cached.meter.give_back(bytes, bytes);
}

/// Notes that another module is asked for after the one with that index. Returns whether that wasn't
/// noted before.
fn note_left(left: &mut Vec<bool>, number: usize) -> bool {
    match left.get_mut(number) {
        None => false,
        Some(is_left) => {
            let first = !*is_left;
            *is_left = true;
            first
        }
    }
}

/// Forgets cached data of the procedures of the module with that index, where procedures take more
/// bytes than they may: line rows first, which take the least time to be read again.
fn forget_of_procedures<'a, I: ModuleTables>(cached: &mut CachedModules<'a, I>, number: usize)
    requires { number < length cached.old }
    ensures { cached.new ≡ cached.old }
{
    if cached.meter.has_many_rows() {
        forget_module_rows(cached, number);
    }
    if cached.meter.has_many_procedures() {
        forget_module_procedures(cached, number);
    }
}

/// Leaves the module that was asked for last, where another one is asked for now. Where much is
/// cached, the module is forgotten if it is left for the first time: most modules are asked for
/// once. Otherwise, where procedures take more bytes than they may, its line rows are forgotten, or
/// all of its procedures. Questions that go from module to module, in turn and again, then find the
/// modules that were cached first.
#[tactic(auto, using(crate::proofs::KeptSteps::one_forgotten))]
fn leave_last<'a, I: ModuleTables>(cached: &mut CachedModules<'a, I>, module_index: usize)
    ensures { (own : ℕ → Option ModuleData) → AreKept own cached.old → AreKept own cached.new }
{
    let last = cached.last;
    cached.last = module_index;
    if last == module_index || last >= cached.slots.len() {
        return;
    }
    let is_first = note_left(&mut cached.left, last);
    if is_first && cached.meter.has_many_modules() {
        forget_module(cached, last);
    } else {
        forget_of_procedures(cached, last);
    }
}

/// Whether the slot with that number is there and empty.
fn is_empty_at<'a, I: ModuleTables>(kept: &[KeptModule<'a, I>], number: usize) -> bool
    ensures { result ≡ is_empty_slot (slice_get kept.now number) }
{
    matches!(kept.get(number), Some(None))
}

/// Reads the data of the module with that index, counted from 0, and caches them, unless they were
/// cached before. Where more is cached than the meter allows, all of it is forgotten first. Nothing
/// is cached where memory is short.
///
/// # Errors
/// `AllocError` when memory runs out.
#[tactic(auto, using(crate::proofs::KeptSteps::known_if_full, crate::proofs::KeptSteps::empty_is, crate::proofs::KeptSteps::known_now, crate::proofs::KeptSteps::kept_now))]
pub fn keep_module<'a, P: ModuleProvider>(
    alloc: Global,
    kept: &mut CachedModules<'a, P::Info>,
    provider: &'a P,
    modules: &[Module<'_>],
    module_index: usize,
) -> Result<(), AllocError>
    requires { AreKept
        (λ n. module_data (own_of (P.provided provider.now) modules.now n)) kept.old }
    ensures kept { AreKept
        (λ n. module_data (own_of (P.provided provider.now) modules.now n)) kept.new }
    ensures known { IfOk result (λ _. known_in kept.new module_index
        ≡ module_data (own_of (P.provided provider.now) modules.now module_index)) }
{
    forget_modules_if_full(kept);
    leave_last(kept, module_index);
    if !is_empty_at(&kept.slots, module_index) {
        return Ok(());
    }
    let known = get_basic_module_info(alloc, provider, modules, module_index)?;
    kept.meter.count_module(&known, modules.get(module_index))?;
    kept.slots[module_index] = Some(known);
    Ok(())
}

/// Reads line program and inlinees of the module of a place, if its data are cached there, and
/// caches them too. Returns the approximate number of bytes that were cached.
fn keep_lines_at<'a, I: ModuleTables>(
    alloc: Global,
    place: &mut KeptModule<'a, I>,
) -> Result<u64, AllocError>
    ensures { place.new ≡ place.old }
{
    match place {
        Some(Some(known)) => known.keep_extended(alloc),
        _ => Ok(0),
    }
}

/// Reads line program and inlinees of the module with that index, if its data are cached, and
/// caches them too.
///
/// # Errors
/// `AllocError` when memory runs out.
pub fn keep_lines<'a, I: ModuleTables>(
    alloc: Global,
    kept: &mut CachedModules<'a, I>,
    module_index: usize,
) -> Result<(), AllocError>
    ensures { kept.new ≡ kept.old }
{
    if module_index < kept.slots.len() {
        let bytes = keep_lines_at(alloc, &mut kept.slots[module_index])?;
        kept.meter.count_bytes(bytes);
    }
    Ok(())
}

/// Reads the data of the procedure with that index, if its module's data are cached there, and
/// caches them too. Returns the approximate number of bytes that were cached.
fn keep_procedure_at<'a, I: ModuleTables>(
    alloc: Global,
    kept_module: &mut KeptModule<'a, I>,
    number: usize,
) -> Result<u64, AllocError>
    ensures { kept_module.new ≡ kept_module.old }
{
    match kept_module {
        Some(Some(known)) => known.keep_rows_and_sites(alloc, number),
        _ => Ok(0),
    }
}

/// Reads the data of the procedure with that index in the module with that index, if the module's
/// data are cached, and caches them too.
///
/// # Errors
/// `AllocError` when memory runs out.
pub fn keep_procedure<'a, I: ModuleTables>(
    alloc: Global,
    kept: &mut CachedModules<'a, I>,
    module_index: usize,
    number: usize,
) -> Result<(), AllocError>
    ensures { kept.new ≡ kept.old }
{
    if module_index < kept.slots.len() {
        let bytes = keep_procedure_at(alloc, &mut kept.slots[module_index], number)?;
        kept.meter.count_procedure(bytes);
    }
    Ok(())
}

/// Reads the line rows of the function that begins at a place, if its module's data are cached
/// there, and caches them too. Returns the approximate number of bytes that were cached.
fn keep_public_rows_at<'a, I: ModuleTables>(
    alloc: Global,
    kept_module: &mut KeptModule<'a, I>,
    start: PdbInternalSectionOffset,
) -> Result<u64, AllocError>
    ensures { kept_module.new ≡ kept_module.old }
{
    match kept_module {
        Some(Some(known)) => known.keep_rows(alloc, start),
        _ => Ok(0),
    }
}

/// Reads the line rows of the function that begins at a place in the module with that index, if the
/// module's data are cached, and caches them too.
///
/// # Errors
/// `AllocError` when memory runs out.
pub fn keep_public_rows<'a, I: ModuleTables>(
    alloc: Global,
    kept: &mut CachedModules<'a, I>,
    module_index: usize,
    start: PdbInternalSectionOffset,
) -> Result<(), AllocError>
    ensures { kept.new ≡ kept.old }
{
    if module_index < kept.slots.len() {
        let bytes = keep_public_rows_at(alloc, &mut kept.slots[module_index], start)?;
        kept.meter.count_procedure(bytes);
    }
    Ok(())
}

/// The data that are cached of the module with that index, if there are any.
pub fn known_at<'m, 'a, I: ModuleTables>(
    kept: &'m CachedModules<'a, I>,
    module_index: usize,
) -> Option<&'m BasicModuleInfo<'a, I>>
    ensures { option_copied result ≡ known_in kept.now module_index }
{
    match kept.slots.get(module_index) {
        Some(Some(known)) => known.as_ref(),
        _ => None,
    }
}
