//! The identity of a database, as symbol servers name it.

ghost use Rattle.std.specs.Prelude.{◌≡◌, IfOk, OnOk, length, string_bytes};
ghost use Rattle.std.specs.List.{flat_map};
ghost use Rattle.pdb_symbol_files.specs.Output.{IsAppended};
ghost use Rattle.pdb_symbol_files.specs.RecordTexts.{hexadecimal};
ghost use Rattle.pdb_symbols.specs.SymbolFile.{guid_name, guid_numbers, identity_name, padded};

use pdb_container::{half_at, word_at};
use pdb_image::PdbIdentity;
use std::alloc::{AllocError, Global};

/// Appends the numbers that a GUID begins with.
fn append_numbers(guid: &[u8], output: &mut String) -> Result<(), AllocError>
    requires { length guid.now ≡ 16 }
    ensures { OnOk result (IsAppended output.old output.new (guid_numbers guid.now)) }
{
    let first = word_at(guid, 0);
    let second = half_at(guid, 4);
    let third = half_at(guid, 6);
    write!(output, "{first:08X}{second:04X}{third:04X}")
}

/// Appends bytes, each as two digits.
#[tactic(auto, using(crate::proofs::HeadSteps::byte_more, crate::proofs::HeadSteps::bytes_end))]
fn append_bytes(bytes: &[u8], output: &mut String) -> Result<(), AllocError>
    ensures { OnOk result (IsAppended output.old output.new
        (flat_map (λ byte. padded 2 byte) bytes.now)) }
{
    for byte in bytes {
        write!(output, "{byte:02X}")?;
    }
    Ok(())
}

/// Appends a GUID.
#[tactic(auto, using(crate::proofs::HeadSteps::guid_made))]
fn append_guid(guid: &[u8], output: &mut String) -> Result<(), AllocError>
    requires { length guid.now ≡ 16 }
    ensures { OnOk result (IsAppended output.old output.new (guid_name guid.now)) }
{
    append_numbers(guid, output)?;
    append_bytes(&guid[8..], output)?;
    Ok(())
}

/// Appends the age.
fn append_age(age: u32, output: &mut String) -> Result<(), AllocError>
    ensures { OnOk result (IsAppended output.old output.new (hexadecimal age)) }
{
    write!(output, "{age:x}")
}

/// The text of an identity: the GUID and the age in hexadecimal, without hyphens.
///
/// # Errors
/// `AllocError` when memory runs out.
pub fn identity_text(alloc: Global, identity: &PdbIdentity) -> Result<String, AllocError>
    ensures { IfOk result (λ text. string_bytes text ≡ identity_name identity.now) }
{
    let mut text = String::new(alloc);
    append_guid(identity.guid.as_slice(), &mut text)?;
    append_age(identity.age, &mut text)?;
    Ok(text)
}
