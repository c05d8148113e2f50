//! The unwind codes of one table.

ghost use Rattle.std.specs.Prelude.{◌≡◌, ◌++◌, ◌+◌, ◌*◌, ◌≤◌, length, drop};
ghost use Rattle.std.specs.Prelude.{MatchResult, IfSome, if◌then◌else◌, slice_index};
ghost use Rattle.std.specs.Prelude.{vec_len};
ghost use Rattle.pdb_image.specs.Codes.{Gives, behind, code_at, codes_in, RefusesCodes};
ghost use Rattle.pdb_image.specs.Codes.{TakesCode};
ghost use Rattle.pdb_image.specs.Codes.{one_slot as one_slot_in, operation_of as operation_in};
ghost use Rattle.pdb_image.specs.Codes.{slots_of as slots_in, three_slots as three_slots_in};
ghost use Rattle.pdb_image.specs.Codes.{two_slots as two_slots_in};

use crate::code::{UnwindCode, UnwindOperation};
use crate::fault::UnwindFault;
use pdb_container::{half_at, word_at};

/// The number of slots that a code takes, from its operation's number and its information.
fn slots_of(operation: u8, info: u8) -> Option<usize>
    ensures slots { result ≡ slots_in operation info }
    ensures some { IfSome result (λ n. (1 ≤ n) × (n ≤ 3)) }
{
    match operation {
        0 | 2 | 3 => Some(1),
        10 if info <= 1 => Some(1),
        4 | 6 | 8 => Some(2),
        1 if info == 0 => Some(2),
        5 | 7 | 9 => Some(3),
        1 if info == 1 => Some(3),
        _ => None,
    }
}

/// The operation of a code of one slot, from the byte of the frame register, the operation's
/// number, and the information.
fn one_slot(frame: u8, operation: u8, info: u8) -> UnwindOperation
    ensures { result ≡ one_slot_in frame operation info }
{
    match operation {
        0 => UnwindOperation::Push(info),
        2 => UnwindOperation::Allocate(u32::from(info) * 8 + 8),
        3 => UnwindOperation::SetFrame(frame % 16, frame / 16 * 16),
        _ => UnwindOperation::MachineFrame(info == 1),
    }
}

/// The operation of a code of two slots, if it is a step.
fn two_slots(operation: u8, info: u8, operand: u16) -> Option<UnwindOperation>
    ensures { result ≡ two_slots_in operation info operand }
{
    match operation {
        1 => Some(UnwindOperation::Allocate(u32::from(operand) * 8)),
        4 => Some(UnwindOperation::Save(info, u32::from(operand) * 8)),
        _ => None,
    }
}

/// The operation of a code of three slots, if it is a step.
fn three_slots(operation: u8, info: u8, operand: u32) -> Option<UnwindOperation>
    ensures { result ≡ three_slots_in operation info operand }
{
    match operation {
        1 => Some(UnwindOperation::Allocate(operand)),
        5 => Some(UnwindOperation::Save(info, operand)),
        _ => None,
    }
}

/// The operation of the code of so many slots that bytes begin with, if it is a step.
fn operation_of(frame: u8, slots: usize, bytes: &[u8]) -> Option<UnwindOperation>
    requires few { (1 ≤ slots) × (slots ≤ 3) }
    requires bytes { 2 * slots ≤ length bytes.now }
    ensures { result
        ≡ operation_in frame (slice_index bytes.now 1) slots (drop 2 bytes.now) }
{
    let (operation, info) = (bytes[1] % 16, bytes[1] / 16);
    match slots {
        1 => Some(one_slot(frame, operation, info)),
        2 => two_slots(operation, info, half_at(bytes, 2)),
        _ => three_slots(operation, info, word_at(bytes, 2)),
    }
}

/// The offset at which a code counts: 0 if it is a parent's.
fn counted_offset(of_parent: bool, offset: u8) -> u8
    ensures { result ≡ (if of_parent then 0 else offset) }
{
    if of_parent { 0 } else { offset }
}

/// Appends a code, if it is a step.
fn push_step(
    offset: u8,
    step: Option<UnwindOperation>,
    codes: &mut Vec<UnwindCode>,
) -> Result<(), UnwindFault>
    ensures codes { MatchResult result
        (λ _. codes.new.items ≡ codes.old.items ++ code_at offset step)
        (λ e. e ≡ UnwindFault.OutOfMemory) }
    ensures count { vec_len codes.new ≤ vec_len codes.old + 1 }
{
    match step {
        Some(operation) => Ok(codes.push(UnwindCode { offset, operation })?),
        None => Ok(()),
    }
}

/// Appends the code that bytes begin with, if it is a step, and returns the number of its bytes.
#[tactic(auto, using(crate::proofs::Slots::code_pushed, crate::proofs::Slots::first_short, crate::proofs::Slots::first_unknown))]
fn push_code(
    of_parent: bool,
    frame: u8,
    bytes: &[u8],
    codes: &mut Vec<UnwindCode>,
) -> Result<usize, UnwindFault>
    requires { 1 ≤ length bytes.now }
    ensures step { MatchResult result
        (TakesCode of_parent frame bytes.now codes.old.items codes.new.items)
        (RefusesCodes of_parent frame bytes.now) }
    ensures count { vec_len codes.new ≤ vec_len codes.old + 1 }
{
    if bytes.len() < 2 {
        return Err(UnwindFault::CutCode);
    }
    let Some(slots) = slots_of(bytes[1] % 16, bytes[1] / 16) else {
        return Err(UnwindFault::UnknownCode(bytes[1]));
    };
    if bytes.len() < 2 * slots {
        return Err(UnwindFault::CutCode);
    }
    let step = operation_of(frame, slots, bytes);
    push_step(counted_offset(of_parent, bytes[0]), step, codes)?;
    Ok(2 * slots)
}

/// Appends the codes of a table of these bytes.
#[tactic(auto, using(crate::proofs::Slots::codes_more, crate::proofs::Slots::codes_done, crate::proofs::Slots::codes_failed))]
pub(crate) fn push_codes(
    of_parent: bool,
    frame: u8,
    bytes: &[u8],
    codes: &mut Vec<UnwindCode>,
) -> Result<(), UnwindFault>
    ensures codes { Gives (λ _. codes.new.items) result
        (behind codes.old.items (codes_in of_parent frame 0 bytes.now)) }
    ensures count { 2 * vec_len codes.new ≤ 2 * vec_len codes.old + length bytes.now + 2 }
{
    let mut place = 0;
    while place < bytes.len() {
        place += push_code(of_parent, frame, &bytes[place..], codes)?;
    }
    Ok(())
}
