//! Laws of the definitions: functions that do nothing, whose contracts are proved.

ghost use Rattle.std.specs.Prelude.{◌≡◌, ◌↔◌, ◌≤◌, ◌++◌, ℕ, List, length, Option, Ok, true};
ghost use Rattle.std.specs.Ordering.{nat_cmp};
ghost use Rattle.pdb_container.specs.Alike.{ReadAlike, AreAlike, HaveSameStream, HaveSameStreams};
ghost use Rattle.pdb_container.specs.Container.{layout_of, pages_end, stream};
ghost use Rattle.pdb_container.specs.Paged.{IsStream, IsLimited};
ghost use Rattle.pdb_container.specs.Pages.{AreApart};
ghost use Rattle.pdb_container.specs.Places.{bytes_at, page_places, places_of, IsPaged};
ghost use Rattle.pdb_container.specs.RawString.{raw_bytes};
ghost use Rattle.pdb_container.specs.declared.raw_string.RawString.{RawString as Text};
ghost use Rattle.pdb_container.specs.declared.string_table.StringRef.{StringRef as Offset};
ghost use Rattle.pdb_container.specs.declared.source.SourceSlice.{SourceSlice as Slice};
ghost use Rattle.pdb_container.specs.declared.error.ModuleFault.{ModuleFault as KeptFault};
ghost use Rattle.pdb_container.specs.declared.error.Error.{Error as AnyError};
ghost use Rattle.pdb_container.specs.Fault.{said};

use crate::error::{Error, ModuleFault};
use crate::raw_string::RawString;
use crate::source::SourceSlice;
use crate::string_table::StringRef;
use std::hash::Hash;

/// Pages hold so many bytes. Byte i is the file's byte in page number i / size, at i % size. Bytes
/// of which this is true are the bytes that the pages hold.
pub fn paged()
    ensures { (file pages bytes : List ℕ) (size count : ℕ)
        → (bytes_at file (page_places size pages count) ≡ Ok bytes)
        ↔ IsPaged file size pages count bytes }
{}

/// A stream has the length that the directory says, or the limit. Byte i of it is the file's byte
/// in the stream's page number i / P, at i % P, where P is the size of a page. Bytes of which this
/// is true are the stream.
pub fn stream_byte_by_byte()
    ensures { (file : List ℕ) (n : ℕ) (limit : Option ℕ) (bytes : List ℕ)
        → (stream file n limit ≡ Ok bytes) ↔ IsStream file n limit bytes }
{}

/// A limit cuts a stream that is there to its first bytes. The directory, the stream's number and
/// all its page numbers are checked before it cuts, and each fault under a limit is the whole
/// stream's.
pub fn limited()
    ensures { (file : List ℕ) (n : ℕ) → IsLimited file n }
{}

/// Two files that read alike at a number have the same stream there. Two that open alike, and read
/// alike at every number, have the same fault in opening, or none, and the same streams, however
/// their pages lie.
pub fn page_layout()
    ensures at_one_number { (a b : List ℕ) (n : ℕ) → ReadAlike a b n → HaveSameStream a b n }
    ensures at_every_number { (a b : List ℕ) → AreAlike a b → HaveSameStreams a b }
{}

/// The bytes after the pages that a header counts are part of no stream: with them and without them
/// a file has the same header or fault of it, and the same streams, each with the same bytes or
/// fault.
pub fn tail_of_no_stream()
    ensures opens { (file tail : List ℕ) → 4096 ≤ length file
        → layout_of (file ++ tail) ≡ layout_of file }
    ensures streams { (file tail : List ℕ) (n : ℕ) (limit : Option ℕ)
        → 4096 ≤ length file → pages_end file ≤ length file
        → stream (file ++ tail) n limit ≡ stream file n limit }
{}

/// Two lists of slices with the same bytes, in which none is empty and none ends where the next
/// begins, are one and the same.
pub fn slices_of_places()
    ensures { (a b : List Slice) → AreApart a → AreApart b → places_of a ≡ places_of b → a ≡ b }
{}

/// Raw strings are equal exactly where their bytes are, and equal ones hash alike.
pub fn equal_texts_hash_alike()
    ensures equal { (a b : Text) → (⟦<RawString<'static> as PartialEq>⟧.eq a b ≡ true)
        ↔ (raw_bytes a ≡ raw_bytes b) }
    ensures hash { (a b : Text) → raw_bytes a ≡ raw_bytes b
        → ⟦<RawString<'static> as Hash>⟧.hash_input a
        ≡ ⟦<RawString<'static> as Hash>⟧.hash_input b }
{}

/// Offsets of names, slices and stored faults are equal exactly where they are one and the same,
/// and errors where they report the same fault, or both that memory ran out: `==` leaves out no
/// part of them. Offsets come in the order of their numbers.
pub fn equal_values_are_one()
    ensures offsets { (a b : Offset) → (⟦<StringRef as PartialEq>⟧.eq a b ≡ true) ↔ (a ≡ b) }
    ensures order { (a b : Offset) → ⟦<StringRef as Ord>⟧.cmp a b ≡ nat_cmp a.0 b.0 }
    ensures slices { (a b : Slice) → (⟦<SourceSlice as PartialEq>⟧.eq a b ≡ true) ↔ (a ≡ b) }
    ensures kept { (a b : KeptFault) → (⟦<ModuleFault as PartialEq>⟧.eq a b ≡ true) ↔ (a ≡ b) }
    ensures equal_errors { (a b : AnyError) → ⟦<Error as PartialEq>⟧.eq a b ≡ true
        → said a ≡ said b }
    ensures same_faults { (a b : AnyError) → said a ≡ said b
        → ⟦<Error as PartialEq>⟧.eq a b ≡ true }
{}
