//! The description of a symbol file: the records that identify its database and image, and the
//! image.

ghost use Rattle.std.specs.Prelude.{◌≡◌, Ok, IfErr, IfOk, OnOk, option_copied, string_bytes};
ghost use Rattle.pdb_symbol_files.specs.Output.{IsAppended};
ghost use Rattle.pdb_symbol_files.specs.Heads.{machine_name};
ghost use Rattle.pdb_symbols.specs.Described.{RefusesImage, asked_of};
ghost use Rattle.pdb_symbols.specs.Described.{machine_number as machine_number_of};
ghost use Rattle.pdb_symbols.specs.SymbolFile.{build_of, first_records, image_if, image_in};
ghost use Rattle.pdb_symbols.specs.SymbolFile.{image_record, same_identity};

use crate::fault::SymbolsFault;
use crate::identity::identity_text;
use crate::options::Options;
use pdb_addr2line::pdb::MachineType;
use pdb_image::{CodeView, Image, PdbIdentity};
use pdb_symbol_files::{append_code_id, append_module};
use pdb_symbols_modules::DebugInformation;
use std::alloc::{AllocError, Global};

/// The number of a machine (`IMAGE_FILE_MACHINE_*`), of the machines that records name.
fn machine_number(machine: MachineType) -> u16
    ensures { result ≡ machine_number_of machine }
{
    match machine {
        MachineType::Amd64 => 0x8664,
        MachineType::Arm64 => 0xaa64,
        MachineType::Other(number) => number,
        _ => 0,
    }
}

/// The number of a database's machine, of the machines that records name.
#[tactic(auto, using(crate::proofs::HeadSteps::machine_same))]
fn machine_in(information: &DebugInformation<'_>) -> u16
    ensures { machine_name result ≡ machine_name information.now.machine }
{
    machine_number(information.machine_type())
}

/// Whether an image's record names a database of an identity.
#[tactic(auto, using(crate::proofs::HeadSteps::same_test))]
fn is_build(view: &CodeView<'_>, identity: &PdbIdentity) -> bool
    ensures { result ≡ same_identity view.now.identity identity.now }
{
    view.identity().matches(identity)
}

/// Checks that an image is of the build of a database's identity.
///
/// # Errors
/// `Image` where it can't be read which database the image has, `ImageNamesNoPdb`, and
/// `OtherBuild`.
#[tactic(auto, unfolding(crate::specs::SymbolFile::build_of))]
pub fn check_build(image: &Image<'_>, identity: &PdbIdentity) -> Result<(), SymbolsFault>
    ensures ok { OnOk result (build_of identity.now image.now ≡ Ok tt) }
    ensures refused { IfErr result (λ e. RefusesImage e (build_of identity.now image.now)) }
{
    match image.code_view()? {
        None => Err(SymbolsFault::ImageNamesNoPdb),
        Some(record) if is_build(&record, identity) => Ok(()),
        Some(_) => Err(SymbolsFault::OtherBuild),
    }
}

/// The image in bytes, if they are given, which is of the build of a database's identity.
///
/// # Errors
/// `Image` where the bytes are no image; the errors of [`check_build`].
#[tactic(auto, unfolding(crate::specs::SymbolFile::image_in))]
fn given_image<'b>(
    identity: &PdbIdentity,
    bytes: Option<&'b [u8]>,
) -> Result<Option<Image<'b>>, SymbolsFault>
    ensures ok { IfOk result (λ image. image_if identity.now (option_copied bytes.entry)
        ≡ Ok image) }
    ensures refused { IfErr result
        (λ e. RefusesImage e (image_if identity.now (option_copied bytes.entry))) }
{
    let Some(bytes) = bytes else {
        return Ok(None);
    };
    let image = Image::parse(bytes)?;
    check_build(&image, identity)?;
    Ok(Some(image))
}

/// Appends the record of an image, if there is one.
fn append_image(
    alloc: Global,
    image: Option<&Image<'_>>,
    path: Option<&str>,
    output: &mut String,
) -> Result<(), AllocError>
    ensures { OnOk result (IsAppended output.old output.new
        (image_record (option_copied image.entry) (option_copied path.entry))) }
{
    let (Some(image), Some(path)) = (image, path) else {
        return Ok(());
    };
    let (time_stamp, size) = (image.time_stamp(), image.size_of_image());
    append_code_id(alloc, time_stamp, size, path, output)
}

/// The records that identify a symbol file's database and its image.
#[tactic(auto, using(crate::proofs::HeadSteps::first_made))]
fn first_of(
    alloc: Global,
    options: &Options<'_>,
    information: &DebugInformation<'_>,
    identity: &PdbIdentity,
    image: Option<&Image<'_>>,
) -> Result<String, AllocError>
    ensures { IfOk result (λ first. string_bytes first ≡ first_records (asked_of options.now)
        information.now.machine identity.now (option_copied image.entry)) }
{
    let mut first = String::new(alloc);
    let identity = identity_text(alloc, identity)?;
    let (machine, path) = (machine_in(information), options.file);
    append_module(alloc, machine, identity.as_str(), path, &mut first)?;
    append_image(alloc, image, options.image, &mut first)?;
    Ok(first)
}

/// The description of a symbol file.
pub struct Described<'b> {
    /// The records that identify its database and its image.
    pub first: String,
    /// The image, if it is given.
    pub image: Option<Image<'b>>,
}

/// The description of the symbol file of a database, from its debug information, its identity, and
/// the bytes of its image, if they are given.
///
/// # Errors
/// The errors of the image, or out of memory.
pub fn describe<'b>(
    alloc: Global,
    options: &Options<'_>,
    information: &DebugInformation<'_>,
    identity: &PdbIdentity,
    bytes: Option<&'b [u8]>,
) -> Result<Described<'b>, SymbolsFault>
    ensures image { IfOk result (λ d. image_if identity.now (option_copied bytes.entry)
        ≡ Ok d.image) }
    ensures first { IfOk result (λ d. string_bytes d.first ≡ first_records (asked_of options.now)
        information.now.machine identity.now d.image) }
    ensures refused { IfErr result
        (λ e. RefusesImage e (image_if identity.now (option_copied bytes.entry))) }
{
    let image = given_image(identity, bytes)?;
    let first = first_of(alloc, options, information, identity, image.as_ref())?;
    Ok(Described { first, image })
}
