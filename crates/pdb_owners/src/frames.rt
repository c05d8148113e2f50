//! The frames at an address in a function.

ghost use Rattle.std.specs.Prelude.{◌≡◌, IfOk, option_map, string_bytes};
ghost use Rattle.std.specs.Cow.{cow_str_bytes};

use crate::function::clone_name;
use std::alloc::{AllocError, Global};
use std::borrow::CowStr;
use std::marker::Model;

/// The line row from which a frame's line comes: where its code begins, and its length.
///
/// A function without line data of its own takes a row of an earlier function. Then `start_rva`
/// mostly lies before the function's.
#[derive(Clone, Copy, Debug, PartialEq, Eq)]
pub struct FrameRow {
    /// The RVA at which the row's code begins.
    pub start_rva: u32,
    /// The length of the row's code in bytes. A function's row goes on to the next entry of its
    /// line data in the order of the file, and the last row to the end of what the line data cover.
    /// The length is `None` where this end lies before the row. The length of an inlined call's row
    /// is always known.
    pub length: Option<u32>,
}

/// A frame: a function, or an inlined call in one, with the file and line of an address in it.
#[derive(Debug, Drop)]
pub struct Frame<'a> {
    /// The function's name, if it has one.
    pub function: Option<String>,
    /// The source file, if it is known.
    pub file: Option<CowStr<'a>>,
    /// The line, counted from 1, if it is known.
    pub line: Option<u32>,
    /// The row from which the line comes, if its start has an RVA.
    pub row: Option<FrameRow>,
}

impl<'a> Model for Frame<'a> {
    ghost use Rattle.std.specs.Cow.{cow_str_bytes};
    ghost use Rattle.std.specs.Prelude.{option_map, string_bytes};
    ghost use Rattle.pdb_owners.specs.Frames as answers;

    ghost Value = { answers.Frame };

    ghost view = { λ f. record {
      function = option_map string_bytes f.function;
      file = option_map cow_str_bytes f.file;
      line = f.line;
      row = f.row;
    } };
}

/// A function with the frames at an address in it.
#[derive(Debug, Drop)]
pub struct FunctionFrames<'a> {
    /// The RVA at which the function begins.
    pub start_rva: u32,
    /// The RVA at which the function ends, if it is known; the byte there isn't part of the
    /// function.
    pub end_rva: Option<u32>,
    /// The inlined calls over the address, innermost first, and then the function itself.
    pub frames: Vec<Frame<'a>>,
}

impl<'a> Model for FunctionFrames<'a> {
    ghost use Rattle.pdb_owners.specs.Frames as answers;

    ghost Value = { answers.FunctionFrames };

    ghost view = { λ f. record {
      start_rva = f.start_rva;
      end_rva = f.end_rva;
      frames = f.frames.items;
    } };
}

/// Copies a file's name that may be missing. A borrowed name stays borrowed.
pub(crate) fn clone_file<'a>(
    alloc: Global,
    file: &Option<CowStr<'a>>,
) -> Result<Option<CowStr<'a>>, AllocError>
    ensures { IfOk result (λ n. option_map cow_str_bytes n ≡ option_map cow_str_bytes file.now) }
{
    match file {
        None => Ok(None),
        Some(CowStr::Borrowed(name)) => Ok(Some(CowStr::Borrowed(*name))),
        Some(CowStr::Owned(name)) => {
            let name = String::from_str(alloc, name.as_str())?;
            Ok(Some(CowStr::Owned(name)))
        }
    }
}

impl<'a> Frame<'a> {
    /// Makes a copy that is equal in all fields.
    ///
    /// # Errors
    /// `AllocError` when memory runs out.
    pub fn try_clone(&self, alloc: Global) -> Result<Frame<'a>, AllocError>
        ensures { IfOk result (λ f. f ≡ self.now) }
    {
        let function = clone_name(alloc, &self.function)?;
        let file = clone_file(alloc, &self.file)?;
        Ok(Frame {
            function,
            file,
            line: self.line,
            row: self.row,
        })
    }
}

impl<'a> FunctionFrames<'a> {
    /// Makes a copy that is equal in all fields.
    ///
    /// # Errors
    /// `AllocError` when memory runs out.
    pub fn try_clone(&self, alloc: Global) -> Result<FunctionFrames<'a>, AllocError>
        ensures { IfOk result (λ f. f ≡ self.now) }
    {
        let frames = clone_frames(alloc, self.frames.as_slice())?;
        Ok(FunctionFrames {
            start_rva: self.start_rva,
            end_rva: self.end_rva,
            frames,
        })
    }
}

/// Copies frames.
fn clone_frames<'a>(alloc: Global, frames: &[Frame<'a>]) -> Result<Vec<Frame<'a>>, AllocError>
    ensures { IfOk result (λ v. v.items ≡ frames.now) }
{
    let mut copied = Vec::new(alloc);
    for frame in frames {
        copied.push(frame.try_clone(alloc)?)?;
    }
    Ok(copied)
}
