//! Runs of frames: the frames at each of their places, and where they end.

ghost use Rattle.std.specs.Prelude.{◌≤◌};

use crate::addr2line::files::{Data, data_of};
use pdb_addr2line::pdb::PdbInternalSectionOffset;
use pdb_addr2line::{Context, Error, FunctionFrames, ModuleProvider};
use pdb_samples::{nested_sites, short_line_block};
use std::alloc::Global;
use std::test::Fail;

/// The end of the runs that are asked for, in section 1, which begins at 0x1000.
const END: u32 = 0x60;

/// Returns the text of frames: for each function, file and line.
fn told(alloc: Global, found: &FunctionFrames<'_>) -> Result<String, Error> {
    let mut text = String::new(alloc);
    for frame in &found.frames {
        let function = &frame.function;
        let file = &frame.file;
        let line = frame.line;
        write!(text, " {function:?} {file:?} {line:?}")?;
    }
    Ok(text)
}

/// Returns the text of frames at an address, with their rows; nothing where they can't be read.
fn frames_text<P: ModuleProvider>(
    alloc: Global,
    context: &mut Context<'_, '_, P>,
    rva: u32,
) -> Result<String, Error> {
    match context.find_frames(alloc, rva) {
        Ok(found) => Ok(format!(in alloc; "{found:?}")?),
        Err(Error::OutOfMemory) => Err(Error::OutOfMemory),
        Err(_) => Ok(String::from_str(alloc, "None")?),
    }
}

/// Returns the number of addresses of a run that have other frames than it says.
fn count_others<P: ModuleProvider>(
    alloc: Global,
    context: &mut Context<'_, '_, P>,
    start: u32,
    count: u32,
    said: &str,
) -> Result<u32, Error> {
    let mut others = 0u32;
    for place in start..start.saturating_add(count) {
        let text = frames_text(alloc, context, place.saturating_add(0x1000))?;
        others = others.saturating_add(u32::from(text.as_str() != said));
    }
    Ok(others)
}

/// Appends the start of a run, its length, its frames, and the number of its addresses that have
/// others. Returns its length.
fn push_run<P: ModuleProvider>(
    alloc: Global,
    context: &mut Context<'_, '_, P>,
    text: &mut String,
    offset: u32,
    limit: u32,
) -> Result<u32, Error>
    requires { 1 ≤ limit }
{
    let place = PdbInternalSectionOffset { offset, section: 1 };
    let (found, count) = context.find_frames_run(alloc, place, limit)?;
    let said = format!(in alloc; "{found:?}")?;
    let frames = match &found {
        None => String::new(alloc),
        Some(found) => told(alloc, found)?,
    };
    let others = count_others(alloc, context, offset, count, said.as_str())?;
    write!(text, "{offset:#x}+{count:#x}{frames} ({others}); ")?;
    Ok(count)
}

/// Returns the runs of a context up to the end that is asked for.
fn runs_by<P: ModuleProvider>(
    alloc: Global,
    context: &mut Context<'_, '_, P>,
) -> Result<String, Error> {
    let mut text = String::new(alloc);
    let mut offset = 0u32;
    for _ in 0..END {
        if offset < END {
            let count = push_run(alloc, context, &mut text, offset, END - offset)?;
            offset = offset.saturating_add(count);
        }
    }
    Ok(text)
}

/// Returns the runs over what was read, if the address map is in order.
fn runs_over(alloc: Global, data: &Data) -> Result<String, Error> {
    if !data.address_map().is_ordered() {
        return Err(Error::CircularTypeDefinition(0));
    }
    let mut context = data.make_context(alloc)?;
    runs_by(alloc, &mut context)
}

/// Returns the runs over a file's bytes.
fn runs_of(alloc: Global, bytes: Vec<u8>) -> Result<String, Error> {
    let data = data_of(alloc, bytes)?;
    runs_over(alloc, &data)
}

// Runs end where a row of the function begins, and where a row of an inlined call begins or ends.
#[test]
fn runs_of_nested_calls(rt: HostRuntime) -> Result<(), Fail> {
    let text = runs_of(rt.alloc(), nested_sites(rt.alloc())?)?;
    assert_eq!(rt;
        text.as_str(),
        "0x0+0x10 (0); \
        0x10+0x4 Some(\"g()\") Some(\"b.h\") Some(3) Some(\"f\") Some(\"a.c\") Some(5) (0); \
        0x14+0x4 Some(\"f\") Some(\"a.c\") Some(5) (0); \
        0x18+0x4 Some(\"h()\") Some(\"c.h\") Some(9) Some(\"g()\") Some(\"b.h\") None \
        Some(\"f\") Some(\"a.c\") Some(7) (0); \
        0x1c+0x14 Some(\"f\") Some(\"a.c\") Some(7) (0); \
        0x30+0x10 (0); 0x40+0x20 (0); "
    );
    Ok(())
}

// Frames that can't be read have a run, and so has an address without a function.
#[test]
fn runs_of_lines_that_fail(rt: HostRuntime) -> Result<(), Fail> {
    let text = runs_of(rt.alloc(), short_line_block(rt.alloc())?)?;
    assert_eq!(rt;
        text.as_str(),
        "0x0+0x10 (0); 0x10+0x20 (0); 0x30+0x10 (0); 0x40+0x20 (0); "
    );
    Ok(())
}
