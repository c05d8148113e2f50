//! The modules of a file, each read when it is first asked for, and then stored.

ghost use Rattle.std.specs.Prelude.{◌≡◌, length, IfOk, IsOkUnless, None, Ok, option_map, slice_get};
ghost use Rattle.std.specs.List.{All};
ghost use Rattle.pdb_container.specs.Fault.{Gives};
ghost use Rattle.pdb_loading.specs.FileModules.{entry_of, kept_by, kept_by_tag, kept_in};
ghost use Rattle.pdb_loading.specs.FileModules.{AreSlotsOf, IsOfFile, tag_of};
ghost use Rattle.pdb_loading.specs.Held.{kept_infos};
ghost use Rattle.pdb_loading.specs.Sharing.{in_parts_of};
ghost use Rattle.pdb_symbols_modules.specs.Streams.{streams};

use crate::file_reader::{FileReader, ModuleParts};
use crate::module_infos::KeptInfo;
use boxcar::slot::{OnceSlot, SlotRule};
use boxcar::tag::{Names, Tag};
use pdb_container::{Error, Result};
use pdb_file_views::FileSource;
use pdb_symbols_modules::{Module, PDB};
use std::alloc::Global;
use std::collections::BTreeMap;
use std::marker::Model;
use std::ops::Range;

/// The rule of a module's slot: it stores what its file has of the module.
pub struct OfFile;

impl<'s> SlotRule<KeptInfo<'s>> for OfFile {
    ghost holds = { λ tag kept. kept ≡ kept_by_tag tag };
}

/// A module and its file, by which the module's slot is tagged.
#[derive(Drop)]
struct TaggedModule<'f> {
    parts: ModuleParts,
    file: &'f FileSource,
}

impl<'f> Names<TaggedModule<'f>> for OfFile {
    ghost numbers = { λ m. tag_of m.parts m.file.now };
}

/// A slot of a module, with what is stored of the module once it was asked for.
#[derive(Drop)]
pub struct ModuleSlot<'s> {
    parts: ModuleParts,
    /// The index of the first module that names the same stream.
    first: usize,
    kept: OnceSlot<KeptInfo<'s>, OfFile>,
}

/// The modules of a file, of which each is read when it is first asked for. Their value in
/// contracts is what is stored of each module once it was asked for.
#[derive(Drop)]
pub struct FileModules<'s> {
    reader: FileReader<'s>,
    slots: Vec<ModuleSlot<'s>>,
}

impl<'s> Model for FileModules<'s> {
    ghost use Rattle.std.specs.Prelude.{List};
    ghost use Rattle.std.specs.List.{All};
    ghost use Rattle.pdb_loading.specs.FileModules.{kept_in, IsOfFile};
    ghost use Rattle.pdb_loading.specs.ModuleInfos as stored;

    ghost Value = { List stored.KeptInfo };

    ghost view = { λ m. kept_in m.reader m.slots.items };

    ghost invariant = { λ m. All (IsOfFile m.reader) m.slots.items };
}

impl<'s> FileModules<'s> {
    /// The modules of a file that is open. None is read.
    ///
    /// # Errors
    /// `OutOfMemory`.
    pub fn new(
        alloc: Global,
        pdb: PDB<'s, FileSource>,
        entries: &[Module<'_>],
    ) -> Result<FileModules<'s>>
        requires { (streams pdb).open_fault ≡ None }
        ensures { Gives (λ m. m) ⊥ result (Ok (kept_infos (streams pdb.entry) entries.now)) }
    {
        let reader = FileReader::new(alloc, pdb);
        let slots = empty_slots(alloc, reader.source(), entries)?;
        Ok(FileModules { reader, slots })
    }

    /// The stored information of the module with that index; `None` past the list. It is read where
    /// it isn't stored.
    ///
    /// # Errors
    /// `OutOfMemory`.
    pub fn get(&self, number: usize) -> Result<Option<&KeptInfo<'s>>>
        ensures { Gives (option_map (λ k. k.now)) ⊥ result (Ok (slice_get self.now number)) }
    {
        kept_at(&self.reader, self.slots.as_slice(), number)
    }
}

impl<'s> FileModules<'s> {
    /// The number of modules.
    pub fn len(&self) -> usize
        ensures { result ≡ length self.now }
    {
        self.slots.len()
    }

    /// Asks for the modules with these indices, and answers nothing.
    pub fn ask(&self, numbers: Range<usize>) {
        for number in numbers {
            let _ = self.get(number);
        }
    }
}

/// A slot for each module of a file, in which nothing is stored yet.
fn empty_slots<'s>(
    alloc: Global,
    file: &FileSource,
    entries: &[Module<'_>],
) -> Result<Vec<ModuleSlot<'s>>>
    ensures slots { IfOk result (λ v. AreSlotsOf file.now entries.now v.items) }
    ensures memory { IsOkUnless result Error.OutOfMemory }
{
    let mut slots = Vec::new(alloc);
    let mut firsts = BTreeMap::new(alloc);
    for entry in entries {
        let parts = ModuleParts::of(entry);
        let first = first_with(&mut firsts, parts.stream, slots.len())?;
        slots.push(slot_of(file, parts, first))?;
    }
    Ok(slots)
}

/// The first index that was given with a stream's number; it may be this index.
fn first_with(firsts: &mut BTreeMap<u16, usize>, stream: u16, index: usize) -> Result<usize>
    ensures memory { IsOkUnless result Error.OutOfMemory }
{
    if let Some(first) = firsts.get(&stream) {
        return Ok(*first);
    }
    firsts.insert(stream, index)?;
    Ok(index)
}

/// The slot of a module of a file, in which nothing is stored yet.
fn slot_of<'s>(file: &FileSource, parts: ModuleParts, first: usize) -> ModuleSlot<'s>
    ensures of { IsOfFile file.now result }
    ensures parts { result.parts ≡ parts }
{
    let tag = Tag::of::<TaggedModule<'_>, OfFile>(&TaggedModule { parts, file });
    ModuleSlot {
        parts,
        first,
        kept: OnceSlot::new(&tag),
    }
}

/// The stored information of the module with that index among these slots; `None` past them.
/// Modules that name one stream share its bytes.
fn kept_at<'a, 's>(
    reader: &FileReader<'s>,
    slots: &'a [ModuleSlot<'s>],
    number: usize,
) -> Result<Option<&'a KeptInfo<'s>>>
    requires { All (IsOfFile reader.now) slots.now }
    ensures { Gives (option_map (λ k. k.now)) ⊥ result
        (Ok (slice_get (kept_in reader.now slots.now) number)) }
{
    let Some(slot) = slots.get(number) else {
        return Ok(None);
    };
    match slots.get(slot.first) {
        Some(first) if slot.first != number && first.parts.stream == slot.parts.stream => {
            Ok(Some(kept_as_first(reader, first, slot)?))
        }
        _ => Ok(Some(kept_alone(reader, slot)?)),
    }
}

/// The stored information of a slot's module; it is read where it isn't stored. `OutOfMemory`
/// alone.
fn kept_alone<'a, 's>(reader: &FileReader<'s>, slot: &'a ModuleSlot<'s>) -> Result<&'a KeptInfo<'s>>
    requires { IsOfFile reader.now slot.now }
    ensures { Gives (λ k. k.now) ⊥ result (Ok (kept_by reader.now slot.now.parts)) }
{
    if let Some(kept) = slot.kept.get() {
        return Ok(kept);
    }
    let read = reader.read(slot.parts)?;
    match slot.kept.set(read) {
        Ok(kept) => Ok(kept),
        Err(_) => stored_in(slot),
    }
}

/// The information that another thread stored in a slot. `OutOfMemory` while it is at it.
fn stored_in<'a, 's>(slot: &'a ModuleSlot<'s>) -> Result<&'a KeptInfo<'s>>
    ensures { Gives (λ k. k.now) ⊥ result (Ok (kept_by_tag slot.now.kept.tag)) }
{
    match slot.kept.get() {
        Some(kept) => Ok(kept),
        None => Err(Error::OutOfMemory),
    }
}

/// The stored information of a slot's module, whose stream another slot's module names first: it
/// shares the bytes of the first one. `OutOfMemory` alone.
#[tactic(auto, using(crate::proofs::FileSteps::same_stream))]
fn kept_as_first<'a, 's>(
    reader: &FileReader<'s>,
    first: &ModuleSlot<'s>,
    slot: &'a ModuleSlot<'s>,
) -> Result<&'a KeptInfo<'s>>
    requires of { IsOfFile reader.now slot.now }
    requires first { IsOfFile reader.now first.now }
    requires same { first.now.parts.stream ≡ slot.now.parts.stream }
    ensures { Gives (λ k. k.now) ⊥ result (Ok (kept_by reader.now slot.now.parts)) }
{
    if let Some(kept) = slot.kept.get() {
        return Ok(kept);
    }
    let read = kept_alone(reader, first)?;
    match slot.kept.set(in_parts(read, slot.parts)?) {
        Ok(kept) => Ok(kept),
        Err(_) => stored_in(slot),
    }
}

/// The stored information of a module, from that of another one that names the same stream. Both
/// share the stream's bytes. `OutOfMemory` alone.
fn in_parts<'s>(kept: &KeptInfo<'s>, parts: ModuleParts) -> Result<KeptInfo<'s>>
    ensures { Gives (λ k. k) ⊥ result (Ok (in_parts_of (entry_of parts) kept.now)) }
{
    match kept {
        Ok(None) => Ok(Ok(None)),
        Ok(Some(info)) => {
            let info = info.with_sizes(
                parts.symbols_size,
                parts.c11_lines_size,
                parts.c13_lines_size,
            )?;
            Ok(Ok(Some(info)))
        }
        Err(fault) => Ok(Err(*fault)),
    }
}
