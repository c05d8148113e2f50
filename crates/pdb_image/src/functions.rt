//! The functions of an image that can be unwound.

ghost use Rattle.std.specs.Prelude.{◌≡◌, ◌++◌, ◌<◌, ◌^◌, [], IfOk, None, Ok, OnErr, length};
ghost use Rattle.std.specs.Option.{option_to_list};
ghost use Rattle.pdb_image.specs.Codes.{Gives};
ghost use Rattle.pdb_image.specs.Entries.{entries_from, function_at, functions_in};
ghost use Rattle.pdb_image.specs.Entries.{functions_of, taken as taken_of};
ghost use Rattle.pdb_image.specs.Rules.{rules_at};

use crate::code::UnwindCode;
use crate::entry::FunctionEntry;
use crate::error::ImageError;
use crate::fault::UnwindFault;
use crate::image::Image;
use crate::rules::Rules;
use crate::table::read_codes;
use std::alloc::{AllocError, Global};
use std::marker::Model;

/// A function, or a part of one, that can be unwound: where it begins and ends, in bytes from the
/// image's start, and its unwind codes.
#[derive(Debug, Drop)]
pub struct UnwoundFunction {
    begin: u32,
    end: u32,
    codes: Vec<UnwindCode>,
}

impl Model for UnwoundFunction {
    ghost use Rattle.std.specs.Prelude.{◌<◌, ◌^◌, vec_len};
    ghost use Rattle.pdb_image.specs.Entries.{UnwoundFunction as Function};

    ghost Value = { Function };

    ghost view = { λ f. record { begin = f.begin; end = f.end; codes = f.codes.items } };

    ghost invariant = { λ f. (f.begin < f.end) × (vec_len f.codes < 2 ^ 16) };
}

impl UnwoundFunction {
    /// The function of an entry.
    ///
    /// # Errors
    /// `EmptyRange` where it doesn't begin below its end; then the first fault in the order of the
    /// tables of its codes: in each one `NotInFile`, `UnknownVersion`, `UnknownCode` or `CutCode`,
    /// and `NotInFile` of its parent's; `TooManyParents` after the last table, and
    /// `LateMachineFrame` where all can be read. `OutOfMemory` when memory runs out.
    #[tactic(auto, unfolding(crate::specs::Entries::function_at))]
    pub fn read(
        alloc: Global,
        image: &Image<'_>,
        entry: FunctionEntry,
    ) -> Result<UnwoundFunction, UnwindFault>
        ensures { Gives (λ f. f) result (function_at image.now entry) }
    {
        if entry.end <= entry.begin {
            return Err(UnwindFault::EmptyRange);
        }
        let codes = read_codes(alloc, image, entry.info)?;
        Ok(UnwoundFunction {
            begin: entry.begin,
            end: entry.end,
            codes,
        })
    }

    /// The address at which the function begins.
    pub fn begin(&self) -> u32
        ensures { result ≡ self.now.begin }
    {
        self.begin
    }

    /// The address after the function's last byte.
    pub fn end(&self) -> u32
        ensures end { result ≡ self.now.end }
        ensures above { self.now.begin < result }
    {
        self.end
    }

    /// The unwind codes, the last step first.
    pub fn codes(&self) -> &[UnwindCode]
        ensures codes { result.now ≡ self.now.codes }
        ensures count { length result.now < 2 ^ 16 }
    {
        self.codes.as_slice()
    }

    /// The rules by which the frame is left at an offset from the function's begin, in bytes: those
    /// of the prolog's steps that are done there. In an epilog, once it has begun, they are still
    /// those of the body.
    pub fn rules_at(&self, offset: u32) -> Rules
        ensures { result ≡ rules_at self.now.codes offset }
    {
        Rules::at(&self.codes, offset)
    }
}

/// The functions of an image that can be unwound, in the order of its exception directory, which is
/// read to the first entry that isn't in the file. An entry is left out where it begins below the
/// end of the one before, or can't be read.
#[derive(Debug, Drop)]
pub struct UnwoundFunctions<'i, 'a> {
    image: &'i Image<'a>,
    address: u64,
    left: u32,
    last: u32,
}

impl<'i, 'a> Model for UnwoundFunctions<'i, 'a> {
    ghost use Rattle.std.specs.Prelude.{◌+◌, ◌*◌, ◌<◌, ◌^◌, List};
    ghost use Rattle.pdb_image.specs.Entries.{UnwoundFunction as Function};
    ghost use Rattle.pdb_image.specs.Entries.{functions_of, entries_from};

    ghost Value = { List Function };

    ghost view = { λ f. functions_of f.image.now (entries_from f.image.now f.left f.address)
        f.last };

    ghost invariant = { λ f. f.address + 12 * f.left < 2 ^ 40 };
}

impl<'i, 'a> UnwoundFunctions<'i, 'a> {
    /// The functions of an image; none of an image that isn't x64, or has no exception directory.
    ///
    /// # Errors
    /// `OptionalHeaderTooShort` where the optional header has no room for the exception directory
    /// that it counts.
    #[tactic(auto, unfolding(crate::specs::Entries::functions_in), using(crate::proofs::Entries::no_directory))]
    pub fn of_image(image: &'i Image<'a>) -> Result<UnwoundFunctions<'i, 'a>, ImageError>
        ensures { result ≡ functions_in image.now }
    {
        match image.exception_directory()? {
            None => Ok(functions_from(image, 0, 0)),
            Some(directory) => Ok(functions_from(image, directory.address, directory.size / 12)),
        }
    }

    /// Returns the next function; `None` after the last one.
    ///
    /// # Errors
    /// `AllocError` when memory runs out; then nothing is passed over.
    #[tactic(auto, using(crate::proofs::Entries::entry_passed, crate::proofs::Entries::entry_missing, crate::proofs::Entries::no_entry, crate::proofs::Entries::no_functions))]
    pub fn next(&mut self, alloc: Global) -> Result<Option<UnwoundFunction>, AllocError>
        ensures ok { IfOk result (λ f. self.old ≡ option_to_list f ++ self.new) }
        ensures end { result ≡ Ok None → self.old ≡ [] }
        ensures err { OnErr result (self.new ≡ self.old) }
    {
        let (image, last) = (self.image, self.last);
        let (mut address, mut left) = (self.address, self.left);
        while left > 0 {
            let Some(bytes) = image.bytes_at(address, 12) else {
                break;
            };
            address += 12;
            left -= 1;
            if let Some(function) = taken(alloc, image, last, FunctionEntry::from_bytes(bytes))? {
                let last = function.end;
                *self = UnwoundFunctions {
                    image,
                    address,
                    left,
                    last,
                };
                return Ok(Some(function));
            }
        }
        self.left = 0;
        Ok(None)
    }
}

/// The functions of at most so many entries from an address on.
fn functions_from<'i, 'a>(
    image: &'i Image<'a>,
    address: u32,
    count: u32,
) -> UnwoundFunctions<'i, 'a>
    ensures { result ≡ functions_of image.now (entries_from image.now count address) 0 }
{
    UnwoundFunctions {
        image,
        address: u64::from(address),
        left: count,
        last: 0,
    }
}

/// The function of an entry that is taken: it doesn't begin below the end of the one before, and
/// can be read.
fn taken(
    alloc: Global,
    image: &Image<'_>,
    last: u32,
    entry: FunctionEntry,
) -> Result<Option<UnwoundFunction>, AllocError>
    ensures { IfOk result (λ f. f ≡ taken_of image.now last entry) }
{
    if entry.begin < last {
        return Ok(None);
    }
    match UnwoundFunction::read(alloc, image, entry) {
        Ok(function) => Ok(Some(function)),
        Err(UnwindFault::OutOfMemory) => Err(AllocError),
        Err(_) => Ok(None),
    }
}
