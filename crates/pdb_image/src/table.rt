//! Tables of unwind codes, and those of their parents.

ghost use Rattle.std.specs.Prelude.{◌≡◌, ◌+◌, ◌-◌, ◌<◌, ◌≤◌, ◌^◌, length, IfOk, false, take};
ghost use Rattle.std.specs.Prelude.{◌||◌, not, vec_len};
ghost use Rattle.std.specs.List.{list_any};
ghost use Rattle.pdb_image.specs.Codes.{Gives, codes_of, is_machine_frame as is_frame};
ghost use Rattle.pdb_image.specs.Codes.{chain, header_of as header_in};
ghost use Rattle.pdb_image.specs.Codes.{info_of_entry as info_in, is_pointer as is_pointer_at};
ghost use Rattle.pdb_image.specs.Codes.{parent_of as parent_in, slots_at as slots_in};
ghost use Rattle.pdb_image.specs.Codes.{table_at, table_of, GivesTable};

use crate::code::{UnwindCode, UnwindOperation};
use crate::codes::push_codes;
use crate::fault::UnwindFault;
use crate::image::Image;
use pdb_container::word_at;
use std::alloc::Global;

/// The number of tables in which a function's codes may stand: its own, and those of 32 parents.
const TABLES: u8 = 33;

/// Whether an address of unwind information points to another entry.
fn is_pointer(info: u32) -> bool
    ensures { result ≡ is_pointer_at info }
{
    info % 2 == 1
}

/// The address of the unwind information of the entry at an address.
#[tactic(auto, unfolding(crate::specs::Codes::info_of_entry))]
fn info_of_entry(image: &Image<'_>, address: u64) -> Result<u32, UnwindFault>
    ensures { result ≡ info_in image.now address }
{
    match image.bytes_at(address, 12) {
        Some(entry) => Ok(word_at(entry, 8)),
        None => Err(UnwindFault::NotInFile(address)),
    }
}

/// The address of the unwind information of the parent, if there is one, from the first four bytes
/// of the unwind information at an address.
#[tactic(auto, unfolding(crate::specs::Codes::parent_of))]
fn parent_of(image: &Image<'_>, header: &[u8], info: u32) -> Result<Option<u32>, UnwindFault>
    requires { length header.now ≡ 4 }
    ensures { result ≡ parent_in image.now header.now info }
{
    if header[0] / 32 % 2 == 0 {
        return Ok(None);
    }
    let slots = u64::from(header[2]) + u64::from(header[2] % 2);
    Ok(Some(info_of_entry(image, u64::from(info) + 4 + 2 * slots)?))
}

/// The first four bytes of the unwind information at an address.
#[tactic(auto, unfolding(crate::specs::Codes::header_of))]
fn header_of<'a>(image: &Image<'a>, info: u32) -> Result<&'a [u8], UnwindFault>
    ensures header { Gives (λ bytes. bytes.now) result (header_in image.now info) }
    ensures size { IfOk result (λ bytes. length bytes.now ≡ 4) }
{
    let Some(header) = image.bytes_at(u64::from(info), 4) else {
        return Err(UnwindFault::NotInFile(u64::from(info)));
    };
    match header[0] % 8 {
        1 | 2 => Ok(header),
        version => Err(UnwindFault::UnknownVersion(version)),
    }
}

/// The bytes of the slots after these four bytes of the unwind information at an address.
#[tactic(auto, unfolding(crate::specs::Codes::slots_at))]
fn slots_at<'a>(image: &Image<'a>, header: &[u8], info: u32) -> Result<&'a [u8], UnwindFault>
    requires { length header.now ≡ 4 }
    ensures bytes { Gives (λ bytes. bytes.now) result (slots_in image.now header.now info) }
    ensures size { IfOk result (λ bytes. length bytes.now < 512) }
{
    let place = u64::from(info) + 4;
    match image.bytes_at(place, 2 * usize::from(header[2])) {
        Some(bytes) => Ok(bytes),
        None => Err(UnwindFault::NotInFile(place)),
    }
}

/// Appends the codes of the table at an address, and returns the address of its parent's.
#[tactic(auto, unfolding(crate::specs::Codes::table_of), using(crate::proofs::Tables::table_no_codes))]
fn push_table_of(
    image: &Image<'_>,
    of_parent: bool,
    info: u32,
    codes: &mut Vec<UnwindCode>,
) -> Result<Option<u32>, UnwindFault>
    ensures table { GivesTable codes.old.items codes.new.items result
        (table_of image.now of_parent info) }
    ensures count { vec_len codes.new ≤ vec_len codes.old + 256 }
{
    let header = header_of(image, info)?;
    let bytes = slots_at(image, header, info)?;
    push_codes(of_parent, header[3], bytes, codes)?;
    parent_of(image, header, info)
}

/// Appends the codes of the table at an address, and returns the address of its parent's. An odd
/// address points to another entry, and has no codes.
#[tactic(auto, unfolding(crate::specs::Codes::table_at), using(crate::proofs::Tables::pointer_given, crate::proofs::Tables::pointer_failed))]
fn push_table(
    image: &Image<'_>,
    of_parent: bool,
    info: u32,
    codes: &mut Vec<UnwindCode>,
) -> Result<Option<u32>, UnwindFault>
    ensures table { GivesTable codes.old.items codes.new.items result
        (table_at image.now of_parent info) }
    ensures count { vec_len codes.new ≤ vec_len codes.old + 256 }
{
    if is_pointer(info) {
        Ok(Some(info_of_entry(image, u64::from(info) - 1)?))
    } else {
        push_table_of(image, of_parent, info, codes)
    }
}

/// Whether the table at an address leads to a parent's table: a pointer leads to the table that it
/// stands for.
fn leads_to_parent(of_parent: bool, info: u32) -> bool
    ensures { result ≡ (of_parent || not (is_pointer_at info)) }
{
    of_parent || !is_pointer(info)
}

/// The codes of the table at an address and of its parents.
#[tactic(auto, using(crate::proofs::Chains::chain_starts))]
fn read_chain(alloc: Global, image: &Image<'_>, info: u32) -> Result<Vec<UnwindCode>, UnwindFault>
    ensures codes { Gives (λ codes. codes.items) result (chain image.now 33 false info) }
    ensures count { IfOk result (λ codes. vec_len codes < 2 ^ 16) }
{
    let mut codes = Vec::new(alloc);
    let mut of_parent = false;
    let mut info = info;
    for _ in 0..TABLES {
        let Some(parent) = push_table(image, of_parent, info, &mut codes)? else {
            return Ok(codes);
        };
        of_parent = leads_to_parent(of_parent, info);
        info = parent;
    }
    Err(UnwindFault::TooManyParents)
}

/// Whether a code says that the processor had pushed a machine frame.
fn is_machine_frame(code: &UnwindCode) -> bool
    ensures { result ≡ is_frame code.now }
{
    match code.operation {
        UnwindOperation::MachineFrame(_) => true,
        _ => false,
    }
}

/// Whether a machine frame stands before the last of these codes.
fn has_late_machine_frame(codes: &[UnwindCode]) -> bool
    ensures { result ≡ list_any is_frame (take (length codes.now - 1) codes.now) }
{
    let count = codes.len().saturating_sub(1);
    codes[..count].iter().any(is_machine_frame)
}

/// The unwind codes of the function whose unwind information lies at an address.
///
/// # Errors
/// The first fault in the order of the tables: in each one `NotInFile`, `UnknownVersion`, then
/// those of its codes, and `NotInFile` of its parent; `TooManyParents` after the last table, and
/// `LateMachineFrame` where all can be read. `OutOfMemory` when memory runs out.
#[tactic(auto, unfolding(crate::specs::Codes::codes_of))]
pub(crate) fn read_codes(
    alloc: Global,
    image: &Image<'_>,
    info: u32,
) -> Result<Vec<UnwindCode>, UnwindFault>
    ensures codes { Gives (λ codes. codes.items) result (codes_of image.now info) }
    ensures count { IfOk result (λ codes. vec_len codes < 2 ^ 16) }
{
    let codes = read_chain(alloc, image, info)?;
    if has_late_machine_frame(&codes) {
        return Err(UnwindFault::LateMachineFrame);
    }
    Ok(codes)
}
