//! The frames at an address in a function, with shared names.

ghost use Rattle.std.specs.Prelude.{◌≡◌, IfOk, option_map, string_bytes};
ghost use Rattle.std.specs.Arc.{arc_str_bytes};

use crate::frames::{Frame, FrameRow, FunctionFrames, clone_file};
use std::alloc::{AllocError, Global};
use std::borrow::CowStr;
use std::marker::Model;
use std::sync::ArcStr;

/// A frame whose name is shared with what stores it. A copy of the name takes no memory.
#[derive(Debug, Drop)]
pub struct SharedFrame<'a> {
    /// The function's name, if it has one.
    pub function: Option<ArcStr>,
    /// The source file, if it is known.
    pub file: Option<CowStr<'a>>,
    /// The line, counted from 1, if it is known.
    pub line: Option<u32>,
    /// The row from which the line comes, if its start has an RVA.
    pub row: Option<FrameRow>,
}

impl<'a> Model for SharedFrame<'a> {
    ghost use Rattle.std.specs.Cow.{cow_str_bytes};
    ghost use Rattle.std.specs.Prelude.{option_map};
    ghost use Rattle.std.specs.Arc.{arc_str_bytes};
    ghost use Rattle.pdb_owners.specs.Frames as answers;

    ghost Value = { answers.Frame };

    ghost view = { λ f. record {
      function = option_map arc_str_bytes f.function;
      file = option_map cow_str_bytes f.file;
      line = f.line;
      row = f.row;
    } };
}

/// A function with the frames at an address in it, whose names are shared.
#[derive(Debug, Drop)]
pub struct SharedFunctionFrames<'a> {
    /// The RVA at which the function begins.
    pub start_rva: u32,
    /// The RVA at which the function ends, if it is known; the byte there isn't part of the
    /// function.
    pub end_rva: Option<u32>,
    /// The inlined calls over the address, innermost first, and then the function itself.
    pub frames: Vec<SharedFrame<'a>>,
}

impl<'a> Model for SharedFunctionFrames<'a> {
    ghost use Rattle.pdb_owners.specs.Frames as answers;

    ghost Value = { answers.FunctionFrames };

    ghost view = { λ f. record {
      start_rva = f.start_rva;
      end_rva = f.end_rva;
      frames = f.frames.items;
    } };
}

/// Copies a shared name that may be missing to a name of its own.
///
/// # Errors
/// `AllocError` when memory runs out.
pub fn owned_name(alloc: Global, name: &Option<ArcStr>) -> Result<Option<String>, AllocError>
    ensures { IfOk result (λ n. option_map string_bytes n ≡ option_map arc_str_bytes name.now) }
{
    match name {
        None => Ok(None),
        Some(name) => {
            let name = String::from_str(alloc, name.as_str())?;
            Ok(Some(name))
        }
    }
}

impl<'a> SharedFrame<'a> {
    /// Makes a frame that is equal in all fields, with a name of its own.
    ///
    /// # Errors
    /// `AllocError` when memory runs out.
    pub fn to_frame(&self, alloc: Global) -> Result<Frame<'a>, AllocError>
        ensures { IfOk result (λ f. f ≡ self.now) }
    {
        let function = owned_name(alloc, &self.function)?;
        let file = clone_file(alloc, &self.file)?;
        Ok(Frame {
            function,
            file,
            line: self.line,
            row: self.row,
        })
    }
}

impl<'a> SharedFunctionFrames<'a> {
    /// Makes frames that are equal in all fields, with names of their own.
    ///
    /// # Errors
    /// `AllocError` when memory runs out.
    pub fn to_frames(&self, alloc: Global) -> Result<FunctionFrames<'a>, AllocError>
        ensures { IfOk result (λ f. f ≡ self.now) }
    {
        let frames = owned_frames(alloc, self.frames.as_slice())?;
        Ok(FunctionFrames {
            start_rva: self.start_rva,
            end_rva: self.end_rva,
            frames,
        })
    }
}

/// Makes frames with names of their own.
fn owned_frames<'a>(alloc: Global, frames: &[SharedFrame<'a>]) -> Result<Vec<Frame<'a>>, AllocError>
    ensures { IfOk result (λ v. v.items ≡ frames.now) }
{
    let mut owned = Vec::with_capacity(alloc, frames.len())?;
    for frame in frames {
        owned.push(frame.to_frame(alloc)?)?;
    }
    Ok(owned)
}
