//! What a database says of itself.

use crate::arguments::Request;
use crate::contributions::{information_of_all, modules_of};
use crate::fault::{Fault, read_fault};
use crate::file_facts::FileFacts;
use crate::loaded::{Loaded, Needs, load};
use crate::output::{Output, text_or_unknown};
use crate::sizes::add;
use bumpalo::Bump;
use pdb_addr2line::PdbIdentity;
use pdb_container::{half_at, word_at};
use pdb_image::{Image, ImageError, read_image};
use pdb_listings::{Column, Counts, Named, SymbolCounts, Value, compiler_of, listed};
use pdb_symbols_modules::{MachineType, ModuleInfo, SymbolIter};
use std::alloc::{AllocError, Global};
use std::fs;
use std::io::{self, Write};
use std::os::unix::fs::FileExt;
use std::rt::Files;

const COLUMNS: &[Column] = &[
    Column {
        name: "file",
        before: "file        ",
        width: 0,
    },
    Column {
        name: "guid",
        before: "\nGUID        ",
        width: 0,
    },
    Column {
        name: "age",
        before: "\nage         ",
        width: 0,
    },
    Column {
        name: "machine",
        before: "\nmachine     ",
        width: 0,
    },
    Column {
        name: "page_size",
        before: "\npage size   ",
        width: 0,
    },
    Column {
        name: "streams",
        before: "\nstreams     ",
        width: 0,
    },
    Column {
        name: "modules",
        before: "\nmodules     ",
        width: 0,
    },
    Column {
        name: "procedures",
        before: "\nprocedures  ",
        width: 0,
    },
    Column {
        name: "publics",
        before: "\npublics     ",
        width: 0,
    },
    Column {
        name: "compilers",
        before: "\ncompilers   ",
        width: 0,
    },
    Column {
        name: "fits",
        before: "\nimage fits  ",
        width: 0,
    },
];

/// What a database says of itself.
#[derive(Drop)]
struct Information {
    guid: String,
    machine: String,
    modules: usize,
    symbols: SymbolCounts,
    compilers: String,
    fits: Option<String>,
}

/// The text of a GUID. Its first three numbers are stored with their lowest byte first, the others
/// with their highest.
fn guid_text(alloc: Global, guid: &[u8; 16]) -> Result<String, AllocError> {
    let [.., h, i, j, k, l, m, n, o] = *guid;
    let first = word_at(guid, 0);
    let second = half_at(guid, 4);
    let third = half_at(guid, 6);
    let fourth = u16::from_be_bytes([h, i]);
    let node = u64::from_be_bytes([0, 0, j, k, l, m, n, o]);
    format!(in alloc; "{first:08X}-{second:04X}-{third:04X}-{fourth:04X}-{node:012X}")
}

/// The name of a machine.
fn machine_text(alloc: Global, machine: MachineType) -> Result<String, AllocError> {
    match machine {
        MachineType::Amd64 => String::from_str(alloc, "x86-64"),
        MachineType::Arm64 => String::from_str(alloc, "ARM64"),
        MachineType::Ia64 => String::from_str(alloc, "Itanium"),
        MachineType::RiscV64 => String::from_str(alloc, "RISC-V 64"),
        MachineType::RiscV128 => String::from_str(alloc, "RISC-V 128"),
        MachineType::Other(0x14c) => String::from_str(alloc, "x86"),
        MachineType::Other(number) => format!(in alloc; "0x{number:04x}"),
    }
}

/// How many procedures modules have, and how many public symbols a list of records has.
fn all_symbols(information: &[&ModuleInfo<'_>], records: SymbolIter<'_>) -> SymbolCounts {
    let mut counts = SymbolCounts::default();
    for module in information {
        if let Ok(symbols) = module.symbols() {
            counts.add(symbols);
        }
    }
    let mut all = SymbolCounts::default();
    all.add(records);
    counts.publics = all.publics;
    counts
}

/// How many modules each compiler made.
fn modules_by_compiler(
    alloc: Global,
    information: &[&ModuleInfo<'_>],
) -> Result<Counts<Named>, AllocError> {
    let mut table: Counts<Named> = Counts::new(alloc);
    for module in information {
        if let Some(name) = compiler_of(alloc, module)? {
            add(alloc, &mut table, name.as_str(), 1)?;
        }
    }
    Ok(table)
}

/// The compilers of modules, with how many modules each made.
fn all_compilers(alloc: Global, information: &[&ModuleInfo<'_>]) -> Result<String, AllocError> {
    let sizes = listed(alloc, &modules_by_compiler(alloc, information)?)?;
    let mut text = String::new(alloc);
    for size in &sizes {
        let before = if text.is_empty() { "" } else { ", " };
        write!(text, "{before}{} ({})", size.name, size.bytes)?;
    }
    Ok(text)
}

/// The bytes of an image, as far as its headers and its sections' data reach.
fn image_bytes(rt: &(impl Files + AllocGlobal), path: &str) -> io::Result<Vec<u8>> {
    let mut file = fs::open(rt, path)?;
    read_image(rt.alloc(), &mut file)
}

/// The identity of the database that an image names, if it names one.
fn identity_named(alloc: Global, path: &str, image: &[u8]) -> Result<Option<PdbIdentity>, Fault> {
    let record = match Image::parse(image) {
        Ok(image) => image.code_view(),
        Err(error) => Err(error),
    };
    match record {
        Ok(None) => Ok(None),
        Ok(Some(record)) => Ok(Some(record.identity())),
        Err(error) => Err(image_fault(alloc, path, error)?),
    }
}

/// The identity of the database that the image at a path names, if it names one.
fn identity_of_image(
    rt: &(impl Files + AllocGlobal),
    path: &str,
) -> Result<Option<PdbIdentity>, Fault> {
    match image_bytes(rt, path) {
        Ok(bytes) => identity_named(rt.alloc(), path, &bytes),
        Err(error) => Err(read_fault(rt.alloc(), path, error.kind())),
    }
}

/// Whether an image fits a database of this identity: `yes`, or why not.
fn image_fits(
    rt: &(impl Files + AllocGlobal),
    path: &str,
    identity: PdbIdentity,
) -> Result<String, Fault> {
    let named = identity_of_image(rt, path)?;
    let alloc = rt.alloc();
    let Some(other) = named else {
        return Ok(String::from_str(alloc, "no: the image names no database")?);
    };
    if identity.matches(&other) {
        return Ok(String::from_str(alloc, "yes")?);
    }
    let guid = guid_text(alloc, &other.guid)?;
    let age = other.age;
    Ok(format!(in alloc; "no: the image is of {guid}, age {age}")?)
}

/// The fault of a file that is no image.
fn image_fault(alloc: Global, path: &str, error: ImageError) -> Result<Fault, AllocError> {
    let path = String::from_str(alloc, path)?;
    let why = format!(in alloc; "{error}")?;
    Ok(Fault::Image(path, why))
}

/// Whether the image fits, if one is given.
fn fits_if_given(
    rt: &(impl Files + AllocGlobal),
    image: Option<&str>,
    identity: PdbIdentity,
) -> Result<Option<String>, Fault> {
    match image {
        Some(image) => Ok(Some(image_fits(rt, image, identity)?)),
        None => Ok(None),
    }
}

/// What a database says of itself.
fn gathered(
    alloc: Global,
    loaded: Loaded<'_>,
    identity: PdbIdentity,
    fits: Option<String>,
) -> Result<Information, Fault> {
    let modules = modules_of(alloc, loaded)?;
    let information = information_of_all(alloc, loaded.modules, &modules)?;
    Ok(Information {
        guid: guid_text(alloc, &identity.guid)?,
        machine: machine_text(alloc, loaded.held.debug_information().machine_type())?,
        modules: modules.len(),
        symbols: all_symbols(&information, loaded.held.symbol_records().iter()),
        compilers: all_compilers(alloc, &information)?,
        fits,
    })
}

/// Writes what a database says of itself.
fn write_row<'r, W: Write + Drop>(
    path: &'r str,
    facts: FileFacts,
    found: &'r Information,
    output: &mut Output<W>,
) -> Result<(), Fault> {
    let values = [
        Value::Text(path),
        Value::Text(found.guid.as_str()),
        Value::Number(u64::from(facts.identity.age)),
        Value::Text(found.machine.as_str()),
        Value::Number(u64::from(facts.page_size)),
        Value::Number(u64::from(facts.streams)),
        Value::Number(found.modules as u64),
        Value::Number(found.symbols.procedures),
        Value::Number(found.symbols.publics),
        Value::Text(found.compilers.as_str()),
        text_or_unknown(&found.fits),
    ];
    let count = if found.fits.is_some() { 11 } else { 10 };
    if !output.is_text() {
        output.header(&COLUMNS[..count])?;
    }
    output.row(COLUMNS, &values[..count])
}

/// Writes what a database says of itself, and whether the image fits, if one is given.
///
/// # Errors
/// Why it isn't written.
pub fn write<S: Files + AllocGlobal, W: Write + Drop>(
    rt: &S,
    arena: &Bump,
    request: &Request<'_>,
    output: &mut Output<W>,
) -> Result<(), Fault>
where
    S::File: FileExt,
{
    let loaded = load(rt, arena, request.file, Needs::Facts)?;
    let Some(facts) = loaded.facts else {
        return Ok(());
    };
    let fits = fits_if_given(rt, request.other(), facts.identity)?;
    let found = gathered(rt.alloc(), loaded, facts.identity, fits)?;
    write_row(request.file, facts, &found, output)
}
