//! Tables of types (TPI, stream 2) and of ids (IPI, stream 4): their items in order, and by their
//! indices; and the names of all that a program database is made of: its container, the records of
//! types and ids, and the addresses of its image. The layout of tables is that of LLVM's The PDB
//! TPI and IPI Streams.
//!
//! How an item is searched may change. Which item has an index, and how far a finder knows the
//! table, may not. A name may be added; none may be taken away, since users name them.
//!
//! A type is found in the table that a database has of them, by its index, and read:
//!
//! ```rust
//! let table = database.type_information(alloc)?;
//! ```
//!
//! ```rust
//! fn type_text(alloc: Global, table: &TypeInformation<'_>, index: TypeIndex) -> Result<String> {
//!     let finder = table.finder(alloc)?;
//!     found_type(alloc, &finder, index)
//! }
//! ```
//!
//! ```rust
//! let item = finder.find(index)?;
//! shown_read(alloc, item.parse(alloc))
//! ```
//!
//! The program `recorded_cases` has all of it.
#![tactic(auto)]

mod header;
mod item;
mod item_finder;
mod item_information;
mod item_iter;
pub mod item_laws;
mod item_list;

pub use item::Item;
pub use item_finder::{ItemFinder, find_counting};
pub use item_information::{
    Id, IdFinder, IdInformation, IdIter, ItemInformation, Type, TypeFinder, TypeInformation,
    TypeIter,
};
pub use item_iter::ItemIter;
pub use pdb_addresses::{
    AddressMap, ImageSectionHeader, OMAPRecord, PdbInternalRva, PdbInternalRvaRangeIter,
    PdbInternalSectionOffset, Rva, RvaRangeIter, SectionCharacteristics, SectionOffset,
    laws as address_laws, parse_omap, parse_section_headers,
};
pub use pdb_container::{
    BigMSF, BoundedBytes, Error, FallibleIterator, FileIndex, FromBuffer, IdIndex, ItemIndex,
    Local, ModuleFault, Msf, PageList, ParseBuffer, RawString, ReadView, Result, SharedBytes,
    Source, SourceSlice, Stream, StringRef, StringTable, SymbolIndex, TypeIndex, Variant,
    index_laws, laws as container_laws, open_msf,
};
pub use pdb_records::{
    ArgumentList, ArrayType, BaseClassType, BitfieldType, BuildInfoId, ClassKind, ClassType,
    EnumerateType, EnumerationType, FieldAttributes, FieldList, FunctionAttributes, FunctionId,
    IdData, Indirection, MemberFunctionId, MemberFunctionType, MemberType, MethodList,
    MethodListEntry, MethodType, ModifierType, NestedType, OverloadedMethodType, PointerAttributes,
    PointerKind, PointerMode, PointerType, PrimitiveKind, PrimitiveType, ProcedureType,
    StaticMemberType, StringId, StringListId, TypeData, TypeProperties, UnionType,
    UserDefinedTypeSourceFileRef, UserDefinedTypeSourceId, VirtualBaseClassType,
    VirtualFunctionTablePointerType, type_data_for_primitive,
};
