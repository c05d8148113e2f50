//! Symbol stores: folders in which databases and images lie by their names and identities.

use crate::folders::{find_exactly, push_in_other_case};
use std::alloc::AllocError;
use std::rt::Files;

/// The paths of a name in folders, in whatever case it is written, of each folder that in the same
/// case first.
fn all_in(
    rt: &(impl Files + AllocGlobal),
    folders: &[String],
    name: &str,
) -> Result<Vec<String>, AllocError> {
    let mut paths = Vec::new(rt.alloc());
    for folder in folders {
        if let Some(path) = find_exactly(rt, folder.as_str(), name)? {
            paths.push(path)?;
        }
        push_in_other_case(rt, folder.as_str(), name, &mut paths)?;
    }
    Ok(paths)
}

/// The first path that leads from a folder through these names, in whatever case they are written.
/// Folders may differ in case alone, so each is followed.
fn find_in_any_case(
    rt: &(impl Files + AllocGlobal),
    folder: &str,
    names: &[&str],
) -> Result<Option<String>, AllocError> {
    let mut paths = Vec::new(rt.alloc());
    paths.push(String::from_str(rt.alloc(), folder)?)?;
    for name in names {
        paths = all_in(rt, &paths, *name)?;
    }
    Ok(paths.into_iter().next())
}

/// The path that leads from a folder through these names, as they are written or otherwise in other
/// case.
fn find_through(
    rt: &(impl Files + AllocGlobal),
    folder: &str,
    names: &[&str],
) -> Result<Option<String>, AllocError> {
    let path = names.join(rt.alloc(), "/")?;
    let found = find_exactly(rt, folder, path.as_str())?;
    match found {
        Some(path) => Ok(Some(path)),
        None => find_in_any_case(rt, folder, names),
    }
}

/// The path of a file of this name and identity in a store: at `NAME/IDENTITY/NAME`, or in the
/// folder of the name's first two letters there.
fn find_in_store(
    rt: &(impl Files + AllocGlobal),
    store: &str,
    name: &str,
    identity: &str,
) -> Result<Option<String>, AllocError> {
    let found = find_through(rt, store, &[name, identity, name])?;
    match (found, name.get(..2)) {
        (None, Some(letters)) => find_through(rt, store, &[letters, name, identity, name]),
        (found, _) => Ok(found),
    }
}

/// The path of a file of this name and identity in the first store that has it.
///
/// # Errors
/// Where memory ran out.
pub fn find_in_stores(
    rt: &(impl Files + AllocGlobal),
    stores: &[&str],
    name: &str,
    identity: &str,
) -> Result<Option<String>, AllocError> {
    for store in stores {
        let found = find_in_store(rt, *store, name, identity);
        if !matches!(found, Ok(None)) {
            return found;
        }
    }
    Ok(None)
}

/// Whether an element of a search path is a folder of this machine: it is no address of a server,
/// and none of the words that say how folders are used.
fn is_local(element: &str) -> bool {
    let is_word = element.eq_ignore_ascii_case("srv")
        || element.eq_ignore_ascii_case("cache")
        || element.eq_ignore_ascii_case("symsrv");
    let is_library = element.len() > 4 && element.ends_with(".dll");
    !element.is_empty() && !is_word && !is_library && !element.contains("://")
}

/// Appends the folders of a search path that are on this machine: between semicolons stand folders,
/// and after `srv*`, `cache*` or `symsrv*symsrv.dll*` folders and servers with asterisks between.
///
/// # Errors
/// Where memory ran out.
pub fn push_search_path<'p>(stores: &mut Vec<&'p str>, path: &'p str) -> Result<(), AllocError> {
    for element in path.split([';', '*']) {
        if is_local(element) {
            stores.push(element)?;
        }
    }
    Ok(())
}
