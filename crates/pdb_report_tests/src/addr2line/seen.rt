//! The indices on a path, which each level removes when it ends.

use pdb_addr2line::Error;
use pdb_type_printing::{IndexPath, Seen};
use std::alloc::Global;
use std::test::Fail;

/// Begins a level with the index 1 on a path, inserts 0 and 2 at it, and 3 at a further level.
/// Returns whether 0 is refused, and the indices on the path after the further level has ended.
fn inserted(alloc: Global, path: &mut IndexPath) -> Result<(bool, Vec<u32>), Fail> {
    let mut first = Seen::new(path);
    let mut second = Seen::insert_one(&mut *first.path, 1)?;
    let is_refused = matches!(&second.insert(0), Err(Error::CircularTypeDefinition(0)));
    second.insert(2)?;
    insert_further(&mut second, 3)?;
    let indices = Vec::from_slice(alloc, second.path.as_slice())?;
    Ok((is_refused, indices))
}

/// Inserts an index at a further level, which then ends.
fn insert_further(level: &mut Seen<'_>, index: u32) -> Result<(), Error> {
    let mut further = level.new_level();
    further.insert(index)
}

#[test]
fn levels_of_a_path(rt: HostRuntime) -> Result<(), Fail> {
    let mut path = IndexPath::new(rt.alloc());
    path.push(0)?;
    let (is_refused, indices) = inserted(rt.alloc(), &mut path)?;
    assert!(rt; is_refused);
    assert_eq!(rt;
        (indices.as_slice(), path.as_slice()),
        ([0, 1, 2].as_slice(), [0].as_slice())
    );
    Ok(())
}
