//! Sums of addresses, and primitive types: the questions about numbers.

use crate::reads::question::{Question, Task};
use crate::reads::records;
use crate::reads::shown::shown;
use pdb_container::Result;
use pdb_container_types::{PdbInternalRva, PdbInternalSectionOffset, Rva, SectionOffset};
use std::alloc::Global;

/// Answers a question from a number and further ones.
///
/// # Errors
/// The errors of [`records::primitive`]; `OutOfMemory`.
pub fn ask(alloc: Global, number: u32, question: &Question<'_>) -> Result<String> {
    let (other, _, _) = question.numbers;
    match question.task {
        Task::ImageSums => image_sums(alloc, Rva(number), other),
        Task::InternalSums => internal_sums(alloc, PdbInternalRva(number), other),
        Task::ImagePlaceSums => image_place_sums(alloc, number, other),
        Task::InternalPlaceSums => internal_place_sums(alloc, number, other),
        _ => records::primitive(alloc, number),
    }
}

/// Returns the sums and differences of an address and a number: checked, saturating, wrapping.
fn image_sums(alloc: Global, address: Rva, other: u32) -> Result<String> {
    let on = (
        address.checked_add(other),
        address.saturating_add(other),
        address.wrapping_add(other),
    );
    let apart = (
        address.checked_sub(Rva(other)),
        address.saturating_sub(Rva(other)),
        address.wrapping_sub(Rva(other)),
    );
    shown(alloc, &(on, apart))
}

/// Returns the sums and differences of an internal address and a number.
fn internal_sums(alloc: Global, address: PdbInternalRva, other: u32) -> Result<String> {
    let on = (
        address.checked_add(other),
        address.saturating_add(other),
        address.wrapping_add(other),
    );
    let apart = (
        address.checked_sub(PdbInternalRva(other)),
        address.saturating_sub(PdbInternalRva(other)),
        address.wrapping_sub(PdbInternalRva(other)),
    );
    shown(alloc, &(on, apart))
}

/// Returns the sums of an offset in section 2, and how the place compares with the number as an
/// offset in the same section and in another one.
fn image_place_sums(alloc: Global, offset: u32, other: u32) -> Result<String> {
    let place = SectionOffset { offset, section: 2 };
    let on = (
        place.checked_add(other),
        place.saturating_add(other),
        place.wrapping_add(other),
    );
    let same = SectionOffset {
        offset: other,
        section: 2,
    };
    let apart = SectionOffset {
        offset: other,
        section: 3,
    };
    shown(
        alloc,
        &(on, place.partial_cmp(&same), place.partial_cmp(&apart)),
    )
}

/// Returns the sums of an offset in section 2, and how the internal place compares with the number
/// as an offset in the same section and in another one.
fn internal_place_sums(alloc: Global, offset: u32, other: u32) -> Result<String> {
    let place = PdbInternalSectionOffset { offset, section: 2 };
    let on = (
        place.checked_add(other),
        place.saturating_add(other),
        place.wrapping_add(other),
    );
    let same = PdbInternalSectionOffset {
        offset: other,
        section: 2,
    };
    let apart = PdbInternalSectionOffset {
        offset: other,
        section: 3,
    };
    shown(
        alloc,
        &(on, place.partial_cmp(&same), place.partial_cmp(&apart)),
    )
}
