//! Lists of pages.

use crate::reads::question::Question;
use crate::reads::shown::shown;
use crate::reads::words::not_a_case;
use pdb_container::Result;
use pdb_container_types::PageList;
use std::alloc::Global;

/// Returns the slices and the length of the pages that the question's name lists. The first number
/// is their size, and the second one the length in bytes to which they are cut.
///
/// # Errors
/// `UnimplementedFeature` for an unknown case; `OutOfMemory`.
pub fn pages_text(alloc: Global, question: &Question<'_>) -> Result<String> {
    let (size, length, _) = question.numbers;
    if size == 0 || size > 0x10000 {
        return Err(not_a_case());
    }
    let mut pages = PageList::new(alloc, size as usize);
    push_pages(&mut pages, question.name)?;
    pages.truncate(length as usize);
    shown(alloc, &(pages.source_slices(), pages.len()))
}

/// Appends a page for each number.
fn push_pages(pages: &mut PageList, numbers: &str) -> Result<()> {
    for number in numbers.split(',') {
        if pages.len() > 0x1000_0000 {
            return Err(not_a_case());
        }
        pages.push(number.parse::<u32>().unwrap_or(0))?;
    }
    Ok(())
}
