//! Names in folders, in whatever case they are written.

use std::alloc::AllocError;
use std::fs;
use std::io::{self, ErrorKind};
use std::rt::Files;

/// The path of a name in a folder.
///
/// # Errors
/// Where memory ran out.
pub fn joined(rt: &impl AllocGlobal, folder: &str, name: &str) -> Result<String, AllocError> {
    let separator = if folder.is_empty() || folder.ends_with('/') {
        ""
    } else {
        "/"
    };
    format!(in rt.alloc(); "{folder}{separator}{name}")
}

/// What the system gave; None where it failed for another cause than memory.
///
/// # Errors
/// Where memory ran out.
pub fn unless_memory<T: Drop>(given: io::Result<T>) -> Result<Option<T>, AllocError> {
    match given {
        Ok(found) => Ok(Some(found)),
        Err(error) if error.kind() == ErrorKind::OutOfMemory => Err(AllocError),
        Err(_) => Ok(None),
    }
}

/// Appends the paths of the names in a folder that are this one but for the case of their letters;
/// none where the folder can't be listed.
///
/// # Errors
/// Where memory ran out.
pub fn push_in_other_case(
    rt: &(impl Files + AllocGlobal),
    folder: &str,
    name: &str,
    paths: &mut Vec<String>,
) -> Result<(), AllocError> {
    let listed = if folder.is_empty() { "." } else { folder };
    let Some(entries) = unless_memory(fs::read_dir(&rt, listed))? else {
        return Ok(());
    };
    for entry in entries {
        if let Some(entry) = unless_memory(entry)? {
            let other = entry.file_name();
            if other != name && other.eq_ignore_ascii_case(name) {
                paths.push(joined(rt, folder, other)?)?;
            }
        }
    }
    Ok(())
}

/// The path of a name in a folder, if it is there.
///
/// # Errors
/// Where memory ran out.
pub fn find_exactly(
    rt: &(impl Files + AllocGlobal),
    folder: &str,
    name: &str,
) -> Result<Option<String>, AllocError> {
    let path = joined(rt, folder, name)?;
    let is_there = unless_memory(fs::exists(rt, path.as_str()))?;
    Ok(is_there.unwrap_or(false).then_some(path))
}

/// The path of a name in a folder, of this name or otherwise of one in other case; None where
/// neither is there.
///
/// # Errors
/// Where memory ran out.
pub fn find_in(
    rt: &(impl Files + AllocGlobal),
    folder: &str,
    name: &str,
) -> Result<Option<String>, AllocError> {
    let found = find_exactly(rt, folder, name)?;
    if found.is_some() {
        return Ok(found);
    }
    let mut paths = Vec::new(rt.alloc());
    push_in_other_case(rt, folder, name, &mut paths)?;
    Ok(paths.into_iter().next())
}
