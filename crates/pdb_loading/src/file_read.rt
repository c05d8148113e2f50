//! Reading a file: no more of it than shows that it is no container, or than its pages reach.

ghost use Rattle.std.specs.Prelude.{◌≡◌, ◌<◌, ◌≤◌, max, IfOk, IfSome, OnOk, length, vec_len, take};
ghost use Rattle.std.specs.Prelude.{nat_eq, false};
ghost use Rattle.std.specs.List.{starts_with};
ghost use Rattle.std.specs.Io.{ReadsAtMost, StartsWith};
ghost use Rattle.std.specs.Io.KnownBytes.{Consumes, IsAtEnd};
ghost use Rattle.pdb_container.specs.Container.{magic, pages_end as end_in};
ghost use Rattle.pdb_loading.specs.FileRead.{Appends, IsRead};

use pdb_container::{may_be_container, pages_end};
use std::alloc::Global;
use std::io::{self, ErrorKind, Read};

/// The number of bytes that show whether a file may be a container.
const FRONT: u64 = 32;

/// The number of bytes in which the header and its list of pages lie.
const HEADER_VIEW: u64 = 4096;

/// The number of bytes that are asked for at once.
const AT_ONCE: usize = 16_384;

/// The number of times that a read is tried again where a signal interrupts it.
const TRIES: u32 = u32::MAX;

/// Reads a file from where its reader stands. Of a big MSF container no more is read than its first
/// 4096 bytes and the pages that its header counts. Of a file that is longer than 32 bytes and
/// doesn't begin as a container does, the first 32 are read. No more is read, however long the file
/// is.
///
/// # Errors
/// The reader's errors; a read that a signal interrupts is tried again.
#[tactic(auto, using(crate::proofs::Consumed::front_read, crate::proofs::Consumed::pages_read, crate::proofs::Consumed::rest_taken, crate::proofs::Consumed::still_begins))]
pub fn read_file<R: Read>(alloc: Global, file: &mut R) -> io::Result<Vec<u8>>
    ensures taken { IfOk result
        (λ v. Consumes (R.remaining file.old) (R.remaining file.new) v.items) }
    ensures read { IfOk result (λ v. IfSome (R.remaining file.old) (λ all. IsRead all v.items)) }
    ensures front { IfOk result (λ v. starts_with nat_eq v.items magic ≡ false → vec_len v ≤ 32) }
    ensures bound { IfOk result (λ v. vec_len v ≤ max 4096 (end_in v.items)) }
{
    let mut bytes = Vec::new(alloc);
    read_on(file, &mut bytes, FRONT)?;
    if !may_be_container(&bytes) {
        return Ok(bytes);
    }
    read_container(file, &mut bytes)?;
    Ok(bytes)
}

/// Reads the rest of a header that begins as a container's does, and then the pages that it counts.
fn read_container<R: Read>(file: &mut R, bytes: &mut Vec<u8>) -> io::Result<()>
    requires { vec_len bytes.old ≤ 4096 }
    ensures begun { StartsWith bytes.new.items bytes.old.items }
    ensures taken { OnOk result (Appends (R.remaining file.old) (R.remaining file.new) bytes.old
        bytes.new) }
    ensures end { OnOk result (vec_len bytes.new < max 4096 (end_in bytes.new.items)
        → IsAtEnd (R.remaining file.new)) }
    ensures bound { OnOk result (vec_len bytes.new ≤ max 4096 (end_in bytes.new.items)) }
{
    read_on(file, bytes, HEADER_VIEW)?;
    if (bytes.len() as u64) < HEADER_VIEW {
        return Ok(());
    }
    let end = pages_end(bytes);
    read_on(file, bytes, end)
}

/// Reads on after other bytes, until there are so many or the reader is at its end.
fn read_on<R: Read>(file: &mut R, bytes: &mut Vec<u8>, end: u64) -> io::Result<()>
    ensures begun { StartsWith bytes.new.items bytes.old.items }
    ensures taken { OnOk result (Appends (R.remaining file.old) (R.remaining file.new) bytes.old
        bytes.new) }
    ensures end { OnOk result (vec_len bytes.new < end → IsAtEnd (R.remaining file.new)) }
    ensures bound { vec_len bytes.new ≤ max end (vec_len bytes.old) }
{
    let mut buffer = [0u8; AT_ONCE];
    while (bytes.len() as u64) < end {
        let room = (end - bytes.len() as u64).min(AT_ONCE as u64) as usize;
        let count = read_some(file, &mut buffer[..room])?;
        if count == 0 {
            return Ok(());
        }
        bytes.extend_from_slice(&buffer[..count])?;
    }
    Ok(())
}

/// Reads once, and again where a signal interrupted it.
#[tactic(auto, using(crate::proofs::Consumed::still, crate::proofs::Consumed::still_none, crate::proofs::Consumed::after_still))]
fn read_some<R: Read>(file: &mut R, buffer: &mut [u8]) -> io::Result<usize>
    ensures bound { ReadsAtMost result buffer.new }
    ensures taken { IfOk result
        (λ n. Consumes (R.remaining file.old) (R.remaining file.new) (take n buffer.new)) }
    ensures end { IfOk result
        (λ n. n ≡ 0 → 0 < length buffer.old → IsAtEnd (R.remaining file.new)) }
{
    for _ in 0..TRIES {
        match file.read(buffer) {
            Ok(count) => return Ok(count),
            Err(error) => {
                if error.kind() != ErrorKind::Interrupted {
                    return Err(error);
                }
            }
        }
    }
    Err(ErrorKind::Interrupted.into())
}
