//! Asks a program database by the library's calls, and lists the lines of one:
//! `example_calls FILE LISTED ADDRESS..`.
//!
//! For each ADDRESS, which is hexadecimal and image-relative, it prints the function there and its
//! frames. Then it prints all functions, each with its source file and line; the frames again, from
//! a file that is read on demand; the texts of formatters for two types of the file, this file's
//! first; and the functions again, without their arguments. It prints the number of each function's
//! addresses, and at last the lines of the file LISTED, module by module (`list_lines.rt`).
//!
//! Calls may be added. docs/GUIDE.md and the heads of libraries show pieces of it, so these change
//! together.
//!
//! Its stored run asks `x64.pdb`, which examples/make.sh made. There type 0x1007 is the member
//! function `TextReader::read`, and 0x1016 the class `Entry`.
#![tactic(auto)]

mod list_lines;

use crate::list_lines::list_file;
use anyhow::{Context as _, Result, bail};
use bumpalo::Bump;
use pdb_addr2line::pdb::TypeIndex;
use pdb_addr2line::{
    Context, Frame, FrameRow, Function, ModuleProvider, TypeFormatter, TypeFormatterFlags,
};
use pdb_report::{
    FileOnDemand, FileSymbolizer, RunFault, Symbolizer, Watched, parse_address, run_sizes,
};
use std::alloc::Global;
use std::fs::OpenFile;
use std::io::Write;
use std::os::unix::fs::FileExt;
use std::rt::{Env, Files};
use std::{env, fs};

/// The usage of the program.
const USAGE: &str = "usage: example_calls FILE LISTED ADDRESS..";

fn main(rt: HostRuntime) -> Result<()> {
    let file = env::args(&rt)?.nth(1).context(USAGE)?;
    let listed = env::args(&rt)?.nth(2).context(USAGE)?;
    let symbolizer = load(&rt, file.as_str())?;
    tell_addresses(&rt, &symbolizer)?;
    tell_on_demand(&rt, file.as_str())?;
    tell_types(&rt, &symbolizer)?;
    let bytes = fs::read(&rt, file.as_str())?;
    write_sizes(rt.alloc(), bytes, &mut Watched::new(rt.stdout()))?;
    list_file(&rt, listed.as_str())
}

/// Loads a file for questions about addresses and types.
fn load(rt: &(impl Files + AllocGlobal), file: &str) -> Result<Symbolizer> {
    let bytes = fs::read(rt, file)?;
    match Symbolizer::open(rt.alloc(), bytes) {
        Ok(symbolizer) => Ok(symbolizer),
        Err(fault) => bail!("{file}: {fault}"),
    }
}

/// Prints what is at each address of the program's arguments, and all functions.
fn tell_addresses(rt: &(impl Env + Print + AllocGlobal), symbolizer: &Symbolizer) -> Result<()> {
    let mut context = symbolizer.context(rt.alloc())?;
    tell_words(rt, &mut context)?;
    tell_functions(rt, &mut context)?;
    tell_files(rt, &mut context)
}

/// Prints the function and the frames at each address of the program's arguments.
fn tell_words<P: ModuleProvider>(
    rt: &(impl Env + Print + AllocGlobal),
    context: &mut Context<'_, '_, P>,
) -> Result<()> {
    for word in env::args(rt)?.skip(3) {
        let address = parse_address(word.as_bytes()).context("an address is needed")?;
        println!(rt; "at {address:#x}")?;
        tell_owner(rt, context, address)?;
        tell_frames(rt, context, address)?;
    }
    Ok(())
}

/// Prints the function at an address.
fn tell_owner<P: ModuleProvider>(
    rt: &(impl Print + AllocGlobal),
    context: &mut Context<'_, '_, P>,
    address: u32,
) -> Result<()> {
    match context.find_function(rt.alloc(), address)? {
        Some(function) => tell_function(rt, &function),
        None => Ok(println!(rt; "no function")?),
    }
}

/// Prints the frames at an address, innermost first.
fn tell_frames<P: ModuleProvider>(
    rt: &(impl Print + AllocGlobal),
    context: &mut Context<'_, '_, P>,
    address: u32,
) -> Result<()> {
    if let Some(found) = context.find_frames(rt.alloc(), address)? {
        for frame in found.frames.iter() {
            tell_frame(rt, frame)?;
        }
    }
    Ok(())
}

/// Prints a frame.
fn tell_frame(rt: &impl Print, frame: &Frame<'_>) -> Result<()> {
    let name = frame.function.as_deref().unwrap_or("??");
    let file = frame.file.as_deref().unwrap_or("??");
    let line = frame.line.unwrap_or(0);
    println!(rt; "  {name}, {file}, line {line}")?;
    tell_row(rt, frame.row)
}

/// Prints the row from which a line comes, if it is known.
fn tell_row(rt: &impl Print, row: Option<FrameRow>) -> Result<()> {
    if let Some(row) = row {
        let start = row.start_rva;
        match row.length {
            Some(length) => println!(rt; "    whose code is {length} bytes at {start:#x}")?,
            None => println!(rt; "    whose code begins at {start:#x}")?,
        }
    }
    Ok(())
}

/// Prints all functions.
fn tell_functions<P: ModuleProvider>(
    rt: &(impl Print + AllocGlobal),
    context: &mut Context<'_, '_, P>,
) -> Result<()> {
    for function in context.functions(rt.alloc())? {
        tell_function(rt, &function?)?;
    }
    Ok(())
}

/// Prints each function with the source file and line of its own frame at its start.
fn tell_files<P: ModuleProvider>(
    rt: &(impl Print + AllocGlobal),
    context: &mut Context<'_, '_, P>,
) -> Result<()> {
    // The list borrows the context, so all starts are gathered before the context is asked again.
    let mut starts = Vec::new(rt.alloc());
    for function in context.functions(rt.alloc())? {
        starts.push(function?.start_rva)?;
    }
    for start in starts.iter() {
        if let Some(found) = context.find_frames(rt.alloc(), *start)? {
            if let Some(frame) = found.frames.last() {
                tell_frame(rt, frame)?;
            }
        }
    }
    Ok(())
}

/// Prints a function.
fn tell_function(rt: &impl Print, function: &Function) -> Result<()> {
    let name = function.name.as_deref().unwrap_or("??");
    let start = function.start_rva;
    match function.end_rva {
        Some(end) => println!(rt; "{start:#x} to {end:#x}: {name}")?,
        None => println!(rt; "{start:#x}: {name}")?,
    }
    Ok(())
}

/// Prints the frames at each address of the program's arguments, from a file of which no more is
/// read than they need.
fn tell_on_demand<S: Env + Files + Print + AllocGlobal>(rt: &S, path: &str) -> Result<()>
where
    S::File: FileExt,
{
    let file = fs::open(rt, path)?;
    let size = file.metadata()?.len();
    let arena = Bump::new(rt.alloc());
    let source = FileOnDemand::new(rt.alloc(), &arena, file, size)?;
    match FileSymbolizer::open(rt.alloc(), source) {
        Ok(mut symbolizer) => tell_demanded(rt, &mut symbolizer),
        Err(refused) => bail!("{path}: {}", RunFault::from(refused.fault)),
    }
}

/// Prints the frames at each address of the program's arguments, from a file that is read on
/// demand, and the texts of a formatter for types.
fn tell_demanded<F: FileExt + Drop>(
    rt: &(impl Env + Print + AllocGlobal),
    symbolizer: &mut FileSymbolizer<'_, F>,
) -> Result<()> {
    for word in env::args(rt)?.skip(3) {
        let address = parse_address(word.as_bytes()).context("an address is needed")?;
        println!(rt; "on demand, at {address:#x}")?;
        if let Some(found) = symbolizer.find_frames(rt.alloc(), address)? {
            for frame in found.frames.iter() {
                tell_frame(rt, frame)?;
            }
        }
    }
    let flags = TypeFormatterFlags::default();
    tell_texts(rt, symbolizer.type_formatter(rt.alloc(), flags)?)
}

/// Prints the texts of formatters for types, and all functions without their arguments.
fn tell_types(rt: &(impl Print + AllocGlobal), symbolizer: &Symbolizer) -> Result<()> {
    let flags = TypeFormatterFlags::default();
    tell_texts(rt, symbolizer.type_formatter(rt.alloc(), flags)?)?;
    // Flags replace the default ones, so those that are to stay are named too.
    let flags = TypeFormatterFlags::default() - TypeFormatterFlags::NO_FUNCTION_RETURN;
    tell_texts(rt, symbolizer.type_formatter(rt.alloc(), flags)?)?;
    let flags = TypeFormatterFlags::default() | TypeFormatterFlags::NO_ARGUMENTS;
    let mut context = symbolizer.context_with_flags(rt.alloc(), flags)?;
    tell_functions(rt, &mut context)
}

/// Prints the text of a function's type and the size of a class, as module 0 has them.
fn tell_texts<P: ModuleProvider>(
    rt: &(impl Print + AllocGlobal),
    mut formatter: TypeFormatter<'_, '_, P>,
) -> Result<()> {
    let text = formatter.format_function(rt.alloc(), "read", 0, TypeIndex(0x1007))?;
    let size = formatter.get_type_size(rt.alloc(), 0, TypeIndex(0x1016))?;
    println!(rt; "{text}; an entry has {size} bytes")?;
    Ok(())
}

/// Writes the number of addresses of the whole image that each function has.
fn write_sizes<W: Write>(alloc: Global, bytes: Vec<u8>, writer: &mut Watched<W>) -> Result<()> {
    match run_sizes(alloc, bytes, 0, 0xffffffff, writer) {
        Ok(_) => Ok(()),
        Err(fault) => bail!("{fault}"),
    }
}
