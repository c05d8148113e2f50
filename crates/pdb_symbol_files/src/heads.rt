//! The first records of a symbol file, which identify its database and its image.

ghost use Rattle.std.specs.Prelude.{◌≡◌, OnOk};
ghost use Rattle.pdb_symbol_files.specs.Output.{IsAppended};
ghost use Rattle.pdb_symbol_files.specs.Heads.{code_id_text, file_name as file_name_of};
ghost use Rattle.pdb_symbol_files.specs.Heads.{identity_text, image_text, machine_text};
ghost use Rattle.pdb_symbol_files.specs.Heads.{machine_name as machine_name_of};
ghost use Rattle.pdb_symbol_files.specs.Heads.{module_text};

use crate::texts::told_text;
use std::alloc::{AllocError, Global};

/// The machine's name, by its number (`IMAGE_FILE_MACHINE_*`).
#[tactic(auto, unfolding(crate::specs::Heads::machine_name))]
fn machine_name(machine: u16) -> &'static str
    ensures { result.now ≡ machine_name_of machine }
{
    match machine {
        0x8664 => "x86_64",
        0x14c => "x86",
        0xaa64 | 0xa641 => "arm64",
        0x1c4 => "arm",
        _ => "unknown",
    }
}

/// The text after the last slash of a path; all of a path without one.
fn file_name(path: &str) -> &str
    ensures { result.now ≡ file_name_of path.now }
{
    match path.rsplit_once('/') {
        Some((_, name)) => name,
        None => path,
    }
}

/// Appends the MODULE record up to the identity.
fn append_machine(machine: &str, output: &mut String) -> Result<(), AllocError>
    ensures { OnOk result (IsAppended output.old output.new (machine_text machine.now)) }
{
    write!(output, "MODULE windows {machine} ")
}

/// Appends the identity and the database's name, at the end of the MODULE record.
fn append_identity(identity: &str, name: &str, output: &mut String) -> Result<(), AllocError>
    ensures { OnOk result (IsAppended output.old output.new (identity_text identity.now name.now)) }
{
    write!(output, "{identity} {name}\n")
}

/// Appends the MODULE record: the machine, by its number, the identity, as symbol servers name it,
/// and the name of the database's file.
///
/// # Errors
/// `AllocError` when memory runs out.
pub fn append_module(
    alloc: Global,
    machine: u16,
    identity: &str,
    path: &str,
    output: &mut String,
) -> Result<(), AllocError>
    ensures { OnOk result (IsAppended output.old output.new
        (module_text machine identity.now path.now)) }
{
    let machine = machine_name(machine);
    let name = told_text(alloc, Some(file_name(path)))?;
    append_machine(machine, output)?;
    append_identity(identity, name.as_str(), output)
}

/// Appends the INFO record of an image, by its time stamp, its size, and the name of its file.
fn append_image(
    time_stamp: u32,
    size_of_image: u32,
    name: &str,
    output: &mut String,
) -> Result<(), AllocError>
    ensures { OnOk result (IsAppended output.old output.new
        (image_text time_stamp size_of_image name.now)) }
{
    write!(
        output,
        "INFO CODE_ID {time_stamp:08X}{size_of_image:x} {name}\n"
    )
}

/// Appends the INFO record of an image: its time stamp and its size, and the name of its file.
///
/// # Errors
/// `AllocError` when memory runs out.
pub fn append_code_id(
    alloc: Global,
    time_stamp: u32,
    size_of_image: u32,
    path: &str,
    output: &mut String,
) -> Result<(), AllocError>
    ensures { OnOk result (IsAppended output.old output.new
        (code_id_text time_stamp size_of_image path.now)) }
{
    let name = told_text(alloc, Some(file_name(path)))?;
    append_image(time_stamp, size_of_image, name.as_str(), output)
}
