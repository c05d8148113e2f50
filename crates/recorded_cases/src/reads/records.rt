//! Records of types and ids, and primitive types.

use crate::reads::shown::{shown, shown_read};
use crate::reads::words::not_a_case;
use pdb_container::Result;
use pdb_container_types::{PointerAttributes, TypeData, TypeIndex, type_data_for_primitive};
use pdb_records::{parse_id_data, parse_type_data};
use std::alloc::Global;

/// Returns the content of a type's record.
///
/// # Errors
/// The errors of [`parse_type_data`]; `OutOfMemory`.
pub fn type_text(alloc: Global, bytes: &[u8]) -> Result<String> {
    shown_read(alloc, parse_type_data(alloc, bytes))
}

/// Returns the content of an id's record.
///
/// # Errors
/// The errors of [`parse_id_data`]; `OutOfMemory`.
pub fn id_text(alloc: Global, bytes: &[u8]) -> Result<String> {
    shown_read(alloc, parse_id_data(alloc, bytes))
}

/// Returns the primitive type of an index.
///
/// # Errors
/// The errors of [`type_data_for_primitive`]; `OutOfMemory`.
pub fn primitive(alloc: Global, index: u32) -> Result<String> {
    shown_read(alloc, type_data_for_primitive(TypeIndex(index)))
}

/// Returns the meaning of the attributes of a type's record.
///
/// # Errors
/// The errors of [`parse_type_data`], an unknown case; `OutOfMemory`.
pub fn attributes_text(alloc: Global, bytes: &[u8]) -> Result<String> {
    let data = parse_type_data(alloc, bytes)?;
    attributes_of(alloc, &data)
}

/// Returns the meaning of a type's attributes.
fn attributes_of(alloc: Global, data: &TypeData<'_>) -> Result<String> {
    match data {
        TypeData::Pointer(pointer) => pointer_text(alloc, pointer.attributes),
        TypeData::Class(class) => shown(
            alloc,
            &(
                class.properties.forward_reference(),
                class.properties.has_unique_name(),
            ),
        ),
        TypeData::Procedure(procedure) => shown(alloc, &procedure.attributes.is_constructor()),
        TypeData::StaticMember(member) => shown(alloc, &member.attributes.is_intro_virtual()),
        _ => Err(not_a_case()),
    }
}

/// Returns kind, mode and size of a pointer, and whether it is constant.
fn pointer_text(alloc: Global, pointer: PointerAttributes) -> Result<String> {
    let (kind, mode) = (pointer.pointer_kind(), pointer.pointer_mode());
    shown(alloc, &(kind, mode, pointer.size(), pointer.is_const()))
}
