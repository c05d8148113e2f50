//! Records of ids.

ghost use Rattle.std.specs.Prelude.{◌≡◌, ◌≤◌, length};
ghost use Rattle.pdb_container.specs.Buffer.{rest, ParsesFront};
ghost use Rattle.pdb_container.specs.Fault.{Gives};
ghost use Rattle.pdb_records.specs.IdForms as forms;
ghost use Rattle.pdb_records.specs.IdForms.{id_shape};
ghost use Rattle.pdb_records.specs.IdRecords.{optional_id as id_or_none, two_words_at};
ghost use Rattle.pdb_records.specs.IdRecords.{source_in as source_of};
ghost use Rattle.pdb_records.specs.IdRecords.{module_source_in as module_source_of, function_id_at};
ghost use Rattle.pdb_records.specs.IdRecords.{member_function_id_at, build_info_at, string_list_at};
ghost use Rattle.pdb_records.specs.IdRecords.{string_at, source_at, module_source_at};
ghost use Rattle.pdb_records.specs.IdRecords.{id_form_behind, id_form_of};
ghost use Rattle.pdb_records.specs.Parsing.{ParsesIdForm, GivesIdForm};

use crate::id_data::{
    BuildInfoId, FunctionId, IdData, MemberFunctionId, StringId, StringListId,
    UserDefinedTypeSourceFileRef, UserDefinedTypeSourceId,
};
use crate::leaves::*;
use pdb_container::{
    Error, IdIndex, ParseBuffer, Result, StringRef, TypeIndex, half_at, parse_many, parse_name,
    word_at,
};
use std::alloc::Global;

/// The id that a number names: none for 0 and for 0xffff.
fn optional_id(number: u32) -> Option<IdIndex>
    ensures { result ≡ id_or_none number }
{
    if number == 0 || number == 0xffff {
        return None;
    }
    Some(IdIndex(number))
}

/// Two numbers in four bytes each.
fn parse_two_words(buffer: &mut ParseBuffer<'_>) -> Result<(u32, u32)>
    ensures { ParsesFront (λ x. x) result (rest buffer.new) (two_words_at (rest buffer.old)) }
{
    let front = buffer.take(8)?;
    Ok((word_at(front, 0), word_at(front, 4)))
}

#[tactic(auto, unfolding(crate::specs::IdRecords::function_id_at))]
fn parse_function<'t>(buffer: &mut ParseBuffer<'t>, leaf: u16) -> Result<IdData<'t>>
    ensures { ParsesIdForm result buffer.old buffer.new forms.Function (function_id_at leaf) }
{
    let (scope, function_type) = parse_two_words(buffer)?;
    let name = parse_name(buffer, leaf)?;
    Ok(IdData::Function(FunctionId {
        scope: optional_id(scope),
        function_type: TypeIndex(function_type),
        name,
    }))
}

#[tactic(auto, unfolding(crate::specs::IdRecords::member_function_id_at))]
fn parse_member_function<'t>(buffer: &mut ParseBuffer<'t>, leaf: u16) -> Result<IdData<'t>>
    ensures { ParsesIdForm result buffer.old buffer.new forms.MemberFunction
        (member_function_id_at leaf) }
{
    let (parent, function_type) = parse_two_words(buffer)?;
    let name = parse_name(buffer, leaf)?;
    Ok(IdData::MemberFunction(MemberFunctionId {
        parent: TypeIndex(parent),
        function_type: TypeIndex(function_type),
        name,
    }))
}

#[tactic(auto, unfolding(crate::specs::IdRecords::build_info_at))]
fn parse_build_info<'t>(alloc: Global, buffer: &mut ParseBuffer<'t>) -> Result<IdData<'t>>
    ensures { GivesIdForm result buffer.old buffer.new forms.BuildInfo build_info_at }
{
    let count = buffer.parse_u16()?;
    let arguments = parse_many::<IdIndex>(alloc, buffer, u32::from(count))?;
    Ok(IdData::BuildInfo(BuildInfoId { arguments }))
}

#[tactic(auto, unfolding(crate::specs::IdRecords::string_list_at))]
fn parse_string_list<'t>(alloc: Global, buffer: &mut ParseBuffer<'t>) -> Result<IdData<'t>>
    ensures { GivesIdForm result buffer.old buffer.new forms.StringList string_list_at }
{
    let count = buffer.parse_u32()?;
    let substrings = parse_many::<TypeIndex>(alloc, buffer, count)?;
    Ok(IdData::StringList(StringListId { substrings }))
}

#[tactic(auto, unfolding(crate::specs::IdRecords::string_at))]
fn parse_string<'t>(buffer: &mut ParseBuffer<'t>, leaf: u16) -> Result<IdData<'t>>
    ensures { ParsesIdForm result buffer.old buffer.new forms.String (string_at leaf) }
{
    let substrings = buffer.parse_u32()?;
    let name = parse_name(buffer, leaf)?;
    Ok(IdData::String(StringId {
        substrings: optional_id(substrings),
        name,
    }))
}

#[tactic(auto, unfolding(crate::specs::IdRecords::source_at))]
fn parse_source<'t>(buffer: &mut ParseBuffer<'t>) -> Result<IdData<'t>>
    ensures { ParsesIdForm result buffer.old buffer.new forms.UserDefinedTypeSource source_at }
{
    Ok(IdData::UserDefinedTypeSource(source_in(buffer.take(12)?)))
}

/// The source of a type, from its 12 bytes.
fn source_in(bytes: &[u8]) -> UserDefinedTypeSourceId
    requires { 12 ≤ length bytes.now }
    ensures { result ≡ source_of bytes.now }
{
    UserDefinedTypeSourceId {
        udt: TypeIndex(word_at(bytes, 0)),
        source_file: UserDefinedTypeSourceFileRef::Local(IdIndex(word_at(bytes, 4))),
        line: word_at(bytes, 8),
    }
}

#[tactic(auto, unfolding(crate::specs::IdRecords::module_source_at))]
fn parse_module_source<'t>(buffer: &mut ParseBuffer<'t>) -> Result<IdData<'t>>
    ensures { ParsesIdForm result buffer.old buffer.new forms.UserDefinedTypeSource
        module_source_at }
{
    let front = buffer.take(14)?;
    Ok(IdData::UserDefinedTypeSource(module_source_in(front)))
}

/// The source of a type in a module, from its 14 bytes.
fn module_source_in(bytes: &[u8]) -> UserDefinedTypeSourceId
    requires { 14 ≤ length bytes.now }
    ensures { result ≡ module_source_of bytes.now }
{
    let file = StringRef(word_at(bytes, 4));
    UserDefinedTypeSourceId {
        udt: TypeIndex(word_at(bytes, 0)),
        source_file: UserDefinedTypeSourceFileRef::Remote(half_at(bytes, 12), file),
        line: word_at(bytes, 8),
    }
}

/// The id after the leaf at the beginning of a record.
#[tactic(auto, unfolding(crate::specs::IdRecords::id_form_behind))]
fn parse_behind<'t>(alloc: Global, buffer: &mut ParseBuffer<'t>, leaf: u16) -> Result<IdData<'t>>
    ensures { Gives id_shape ⊥ result (id_form_behind leaf (rest buffer.old)) }
{
    match leaf {
        LF_FUNC_ID => parse_function(buffer, leaf),
        LF_MFUNC_ID => parse_member_function(buffer, leaf),
        LF_BUILDINFO => parse_build_info(alloc, buffer),
        LF_SUBSTR_LIST => parse_string_list(alloc, buffer),
        LF_STRING_ID => parse_string(buffer, leaf),
        LF_UDT_SRC_LINE => parse_source(buffer),
        LF_UDT_MOD_SRC_LINE => parse_module_source(buffer),
        _ => Err(Error::UnimplementedTypeKind(leaf)),
    }
}

/// The id that the bytes of its record spell, from the leaf on.
///
/// # Errors
/// `UnexpectedEof` where bytes are missing, `UnimplementedTypeKind` at a leaf of no id,
/// `OutOfMemory`.
#[tactic(auto, unfolding(crate::specs::IdRecords::id_form_of))]
pub fn parse_id_data(alloc: Global, bytes: &[u8]) -> Result<IdData<'_>>
    ensures { Gives id_shape ⊥ result (id_form_of bytes.now) }
{
    let mut buffer = ParseBuffer::from(bytes);
    let leaf = buffer.parse_u16()?;
    parse_behind(alloc, &mut buffer, leaf)
}
