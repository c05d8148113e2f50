//! The names of the string table, found by their ends.

ghost use Rattle.std.specs.Prelude.{◌≡◌, ◌<◌, ◌≤◌, ◌^◌, ℕ, IfOk, Option, IfSome, option_map};
ghost use Rattle.std.specs.Prelude.{List, length, slice_get, slice_range};
ghost use Rattle.std.specs.Cow.{cow_str_bytes};
ghost use Rattle.std.specs.Str.Lossy.{utf8_lossy};
ghost use Rattle.pdb_module_data.specs.FileNames.{after_nuls, name_text, AreNamesOf, IsNameEnd};

use pdb_container::{RawString, StringRef, StringTable};
use pdb_pieces::count_begun;
use std::alloc::{AllocError, Global};
use std::borrow::CowStr;
use std::marker::Model;

/// The names of the string table (`/names`), if there is one. The table is gone over once: to see
/// whether all of it is text, and to list the NULs that end names. A name is then found by halving,
/// wherever it begins and however long it is.
pub struct FileNames<'t, 's> {
    strings: Option<&'t StringTable<'s>>,
    /// The names with their NULs, where all of them together are text as they stand.
    text: Option<&'t str>,
    /// The start of the name after each NUL, in bytes from the first name.
    next_names: Vec<u32>,
}

impl<'t, 's> Model for FileNames<'t, 's> {
    ghost use Rattle.std.specs.Prelude.{ℕ, List, Option, option_map};
    ghost use Rattle.pdb_module_data.specs.FileNames.{AreNamesOf};

    ghost Value = { Option (List ℕ) };

    ghost view = { λ n. option_map (λ t. t.now) n.strings };

    // The text and the starts are those of the table.
    ghost invariant = { λ n. AreNamesOf (option_map (λ t. t.now) n.strings)
        (option_map (λ t. t.now) n.text) n.next_names.items };
}

impl<'t, 's> Drop for FileNames<'t, 's> {
    fn drop(self) {
        let FileNames {
            strings: _,
            text: _,
            next_names,
        } = self;
        drop(next_names);
    }
}

/// The start of the name after each NUL.
fn starts_after_nuls(alloc: Global, names: &[u8]) -> Result<Vec<u32>, AllocError>
    requires { length names.now < 2 ^ 32 }
    ensures { IfOk result (λ v. v.items ≡ after_nuls 0 names.now) }
{
    let mut starts = Vec::new(alloc);
    for (place, byte) in names.iter().enumerate() {
        if *byte == 0 {
            starts.push(place as u32 + 1)?;
        }
    }
    Ok(starts)
}

/// The bytes as text, where they are text as they stand.
fn text_as_it_stands(names: &[u8]) -> Option<&str>
    ensures { IfSome result (λ text. text.now ≡ names.now) }
{
    std::str::from_utf8(names).ok()
}

/// The start with that number, if it is there.
fn start_numbered(starts: &[u32], number: usize) -> Option<u32>
    ensures { result ≡ slice_get starts.now number }
{
    starts.get(number).copied()
}

/// The end of the name at an offset, from the start of the name after each NUL; `None` where no NUL
/// ends it.
fn end_of_name(next_names: &[u32], offset: u32) -> Option<u32>
    requires { (names : List ℕ) × (next_names.now ≡ after_nuls 0 names) }
    ensures { (names : List ℕ) → next_names.now ≡ after_nuls 0 names → IsNameEnd result names offset }
{
    let number = count_begun(next_names, u64::from(offset)).0;
    match start_numbered(next_names, number) {
        None => None,
        Some(next) => Some(next - 1),
    }
}

/// The text from one place on and before another, unless one of them lies within a character.
fn part_of_text(text: &str, start: usize, end: usize) -> Option<&str>
    requires { start ≤ end }
    ensures { IfSome result (λ part. part.now ≡ utf8_lossy (slice_range text.now start end)) }
{
    if text.is_char_boundary(start) && text.is_char_boundary(end) {
        Some(&text[start..end])
    } else {
        None
    }
}

/// A name as text, with U+FFFD for what is no character.
fn lossy_text(alloc: Global, name: &[u8]) -> Result<CowStr<'_>, AllocError>
    ensures { IfOk result (λ text. cow_str_bytes text ≡ utf8_lossy name.now) }
{
    match RawString::from(name).to_string(alloc) {
        Ok(text) => Ok(text),
        Err(_) => Err(AllocError),
    }
}

/// The name from one place on and before another as text: a part of the text of all names, where
/// they are text.
fn name_between<'t>(
    alloc: Global,
    names: &'t [u8],
    text: Option<&'t str>,
    start: u32,
    end: u32,
) -> Result<CowStr<'t>, AllocError>
    requires text { IfSome text (λ all. all.now ≡ names.now) }
    requires order { start ≤ end }
    requires bound { end ≤ length names.now }
    ensures { IfOk result
        (λ name. cow_str_bytes name ≡ utf8_lossy (slice_range names.now start end)) }
{
    let start = start as usize;
    let end = end as usize;
    if let Some(all) = text {
        if let Some(part) = part_of_text(all, start, end) {
            return Ok(CowStr::Borrowed(part));
        }
    }
    lossy_text(alloc, &names[start..end])
}

impl<'t, 's> FileNames<'t, 's> {
    /// The names of a string table, if there is one, gone over once.
    ///
    /// # Errors
    /// `AllocError` when memory runs out.
    pub fn new(
        alloc: Global,
        strings: Option<&'t StringTable<'s>>,
    ) -> Result<FileNames<'t, 's>, AllocError>
        ensures { IfOk result (λ n. n ≡ option_map (λ t. t.now) strings.entry) }
    {
        let Some(table) = strings else {
            return Ok(FileNames {
                strings,
                text: None,
                next_names: Vec::new(alloc),
            });
        };
        let names = table.names();
        let next_names = starts_after_nuls(alloc, names)?;
        Ok(FileNames {
            strings,
            text: text_as_it_stands(names),
            next_names,
        })
    }

    /// The name at an offset as text, with U+FFFD for what is no character; `None` where there is
    /// no string table or no such name.
    ///
    /// # Errors
    /// `AllocError` when memory runs out.
    pub fn text(&self, alloc: Global, name: StringRef) -> Result<Option<CowStr<'t>>, AllocError>
        ensures { IfOk result
            (λ text. option_map cow_str_bytes text ≡ name_text self.now name.0) }
    {
        let Some(table) = self.strings else {
            return Ok(None);
        };
        let Some(end) = end_of_name(self.next_names.as_slice(), name.0) else {
            return Ok(None);
        };
        let text = name_between(alloc, table.names(), self.text, name.0, end)?;
        Ok(Some(text))
    }
}
