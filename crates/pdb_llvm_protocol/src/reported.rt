//! Frames as they are reported.

ghost use Rattle.std.specs.Prelude.{◌≡◌, ◌<◌, ◌+◌, ◌++◌, ◌∷◌, [], IfOk, OnOk, drop, length};
ghost use Rattle.std.specs.Prelude.{option_map};
ghost use Rattle.std.specs.Cow.{cow_str_bytes};
ghost use Rattle.std.specs.Arc.{arc_str_bytes};
ghost use Rattle.pdb_llvm_protocol.specs.Reported.{base_name as base_name_of, is_own, name_from};
ghost use Rattle.pdb_llvm_protocol.specs.Reported.{is_separator as is_separator_byte};
ghost use Rattle.pdb_llvm_protocol.specs.Reported.{asked_calls, calls_at, function_alone as alone};
ghost use Rattle.pdb_llvm_protocol.specs.Reported.{kept_asked, named, reported, reported_found};
ghost use Rattle.pdb_llvm_protocol.specs.Reported.{reported_frames};

use pdb_owners::{FrameRow, SharedFrame, SharedFunctionFrames};
use std::alloc::{AllocError, Global};
use std::borrow::CowStr;
use std::marker::Model;
use std::sync::ArcStr;

/// A frame as it is reported: the function's name, its file and line at an address.
#[derive(Drop)]
pub struct ReportedFrame<'f> {
    /// The function's name, in UTF-8. It is empty where there is no function, and `None` where
    /// the function has no name.
    pub function: Option<&'f [u8]>,
    /// The source file, in UTF-8, if it is known.
    pub file: Option<&'f [u8]>,
    /// The line, counted from 1, and 0 where it isn't known.
    pub line: u32,
    /// The column, counted from 1, and 0 where it isn't known.
    pub column: u32,
}

impl<'f> Model for ReportedFrame<'f> {
    ghost use Rattle.std.specs.Prelude.{option_map};
    ghost use Rattle.pdb_llvm_protocol.specs.ReportedFrames as frames;

    ghost Value = { frames.ReportedFrame };

    ghost view = { λ f. record {
      function = option_map (λ s. s.now) f.function;
      file = option_map (λ s. s.now) f.file;
      line = f.line;
      column = f.column;
    } };
}

impl<'f> ReportedFrame<'f> {
    ghost use Rattle.pdb_llvm_protocol.specs.AnswerTexts.{unknown as unknown_frame};

    /// A frame of which nothing is known, such as where a file isn't there.
    pub fn unknown() -> ReportedFrame<'f>
        ensures { result ≡ unknown_frame }
    {
        ReportedFrame {
            function: None,
            file: None,
            line: 0,
            column: 0,
        }
    }
}

/// The frames that are asked for.
#[derive(Clone, Copy, PartialEq, Eq)]
pub enum Asked {
    /// Inlined calls and the function.
    All,
    /// The innermost of these.
    Innermost,
    /// The function.
    Outermost,
}

/// The frames that are reported, and the form of their files.
#[derive(Clone, Copy)]
pub struct ReportOptions {
    /// The frames that are reported.
    pub asked: Asked,
    /// Whether a file is reported without its folders.
    pub base_names: bool,
}

/// The name and the column of the function's own frame, which are known besides the found frame.
#[derive(Clone, Copy)]
pub struct OwnFrame<'f> {
    /// The function's name, in UTF-8, if it has one.
    pub name: Option<&'f [u8]>,
    /// The column of its line, counted from 1, and 0 where it isn't known.
    pub column: u32,
}

/// Whether a byte parts the names of a path.
fn is_separator(byte: u8) -> bool
    ensures { result ≡ is_separator_byte byte }
{
    byte == b'/' || byte == b'\\'
}

/// The name so far, begun anew after a separator at this place of a path.
#[tactic(auto, using(crate::proofs::Names::name_kept, crate::proofs::Names::name_begun))]
fn name_after<'p>(path: &'p [u8], name: &'p [u8], index: usize) -> &'p [u8]
    requires { index < length path.now }
    ensures { name_from result.now (drop (index + 1) path.now)
        ≡ name_from name.now (drop index path.now) }
{
    if is_separator(path[index]) {
        &path[index + 1..]
    } else {
        name
    }
}

/// The name of a file without its folders.
#[tactic(auto, using(crate::proofs::Names::name_all))]
fn base_name(path: &[u8]) -> &[u8]
    ensures { result.now ≡ base_name_of path.now }
{
    let mut name = path;
    for index in 0..path.len() {
        name = name_after(path, name, index);
    }
    name
}

/// Whether a row's code begins in the function and goes on past the address.
fn is_own_row(row: FrameRow, start_rva: u32, address: u32) -> bool
    ensures { result ≡ is_own start_rva address row }
{
    let reaches = match row.length {
        None => true,
        Some(length) => u64::from(address) < u64::from(row.start_rva) + u64::from(length),
    };
    start_rva <= row.start_rva && reaches
}

/// The bytes of a function's name.
fn name_bytes(name: &Option<ArcStr>) -> Option<&[u8]>
    ensures { option_map (λ s. s.now) result ≡ option_map arc_str_bytes name.now }
{
    match name {
        None => None,
        Some(name) => Some(name.as_str().as_bytes()),
    }
}

/// The bytes of a file's name.
fn file_bytes<'f>(file: &'f Option<CowStr<'_>>) -> Option<&'f [u8]>
    ensures { option_map (λ s. s.now) result ≡ option_map cow_str_bytes file.now }
{
    match file {
        None => None,
        Some(CowStr::Borrowed(name)) => Some(name.as_bytes()),
        Some(CowStr::Owned(name)) => Some(name.as_bytes()),
    }
}

/// A frame at an address in a function with this start, as it is reported. A row that isn't the
/// function's own there is left out with its file.
pub fn report_frame<'f>(
    frame: &'f SharedFrame<'_>,
    start_rva: u32,
    address: u32,
    base_names: bool,
) -> ReportedFrame<'f>
    ensures { result ≡ reported base_names start_rva address frame.now }
{
    let function = name_bytes(&frame.function);
    if let Some(row) = frame.row
        && !is_own_row(row, start_rva, address)
    {
        return ReportedFrame {
            function,
            file: None,
            line: 0,
            column: 0,
        };
    }
    let line = frame.line.unwrap_or(0);
    let file = match file_bytes(&frame.file) {
        Some(path) if base_names => Some(base_name(path)),
        file => file,
    };
    ReportedFrame {
        function,
        file,
        line,
        column: 0,
    }
}

/// Appends inlined calls as they are reported.
#[tactic(auto, using(crate::proofs::Lists::map_more, crate::proofs::Lists::map_all))]
fn push_calls<'f>(
    frames: &mut Vec<ReportedFrame<'f>>,
    calls: &'f [SharedFrame<'_>],
    start_rva: u32,
    address: u32,
    base_names: bool,
) -> Result<(), AllocError>
    ensures { OnOk result
        (frames.new.items ≡ frames.old.items ++ calls_at base_names start_rva address calls.now) }
{
    for call in calls {
        frames.push(report_frame(call, start_rva, address, base_names))?;
    }
    Ok(())
}

/// Appends inlined calls as they are reported, unless the function alone is asked for.
fn push_asked<'f>(
    frames: &mut Vec<ReportedFrame<'f>>,
    calls: &'f [SharedFrame<'_>],
    start_rva: u32,
    address: u32,
    options: ReportOptions,
) -> Result<(), AllocError>
    ensures { OnOk result
        (frames.new.items ≡ frames.old.items ++ asked_calls options start_rva address calls.now) }
{
    match options.asked {
        Asked::Outermost => Ok(()),
        Asked::All | Asked::Innermost => {
            push_calls(frames, calls, start_rva, address, options.base_names)
        }
    }
}

/// Leaves the innermost frame only, if this one is asked for.
fn keep_asked(reported: &mut Vec<ReportedFrame<'_>>, asked: Asked)
    ensures { reported.new.items ≡ kept_asked asked reported.old.items }
{
    if asked == Asked::Innermost {
        reported.truncate(1);
    }
}

/// The function's own frame, under its name. A line has the column.
fn own_frame<'f>(frame: ReportedFrame<'f>, own: OwnFrame<'f>) -> ReportedFrame<'f>
    ensures { result ≡ named own.entry frame.entry }
{
    let column = if frame.line == 0 { 0 } else { own.column };
    ReportedFrame {
        function: own.name,
        file: frame.file,
        line: frame.line,
        column,
    }
}

/// The frames of a function that was found, as they are reported.
#[tactic(auto, using(crate::proofs::Parts::parts_of))]
fn report_function<'f>(
    alloc: Global,
    found: &'f SharedFunctionFrames<'_>,
    own: OwnFrame<'f>,
    address: u32,
    options: ReportOptions,
) -> Result<Vec<ReportedFrame<'f>>, AllocError>
    ensures { IfOk result (λ v.
        v.items ≡ reported_frames options own.entry address found.now) }
{
    let mut reported = Vec::new(alloc);
    let Some((frame, calls)) = found.frames.split_last() else {
        return Ok(reported);
    };
    push_asked(&mut reported, calls, found.start_rva, address, options)?;
    let frame = report_frame(frame, found.start_rva, address, options.base_names);
    reported.push(own_frame(frame, own))?;
    keep_asked(&mut reported, options.asked);
    Ok(reported)
}

/// A function without file and line.
fn function_alone<'f>(
    alloc: Global,
    name: Option<&'f [u8]>,
) -> Result<Vec<ReportedFrame<'f>>, AllocError>
    ensures { IfOk result (λ v. v.items
        ≡ alone (option_map (λ s. s.now) name.entry) ∷ []) }
{
    let mut reported = Vec::new(alloc);
    reported.push(ReportedFrame {
        function: name,
        file: None,
        line: 0,
        column: 0,
    })?;
    Ok(reported)
}

/// The frames at an address as they are reported: the inlined calls, innermost first, and then the
/// function, under its name. Where no frames were found, the function alone.
///
/// A frame has a line only from a row that begins in the function and goes on past the address. So
/// a function without lines of its own has none, and neither has padding after a function.
///
/// # Errors
/// Where memory ran out.
pub fn report_frames<'f>(
    alloc: Global,
    found: &'f Option<SharedFunctionFrames<'_>>,
    own: OwnFrame<'f>,
    address: u32,
    options: ReportOptions,
) -> Result<Vec<ReportedFrame<'f>>, AllocError>
    ensures { IfOk result (λ v. v.items ≡ reported_found options own.entry address found.now) }
{
    match found {
        None => function_alone(alloc, own.name),
        Some(found) => report_function(alloc, found, own, address, options),
    }
}
