//! A source that fails while the directory of a database is read.

use crate::failing::{Failing, Refusal};
use pdb_container::Error;
use pdb_samples::file_f;
use pdb_symbols_modules::{PDB, StreamIndex};
use std::alloc::Global;
use std::cell::Cell;
use std::io::ErrorKind;
use std::test::Fail;

/// The error with which a call is refused, if it is, and the number of views by then.
type Asked = (Option<Error>, u64);

/// Asks a database for its types, for stream 5 and for stream 3.
fn asked(database: &mut PDB<'static, Failing<'_>>, alloc: Global, views: &Cell<u64>) -> [Asked; 3] {
    let types = database.type_information(alloc).err();
    let of_types = views.get();
    let raw = database.raw_stream(alloc, StreamIndex(5)).err();
    let of_raw = views.get();
    let by_index = StreamIndex(3).get(alloc, database).err();
    [(types, of_types), (raw, of_raw), (by_index, views.get())]
}

/// Returns the number of views that the opening of file F takes, and the answers of the calls, if
/// some views fail.
fn viewed(alloc: Global, fails: &'static [u64]) -> Result<(u64, [Asked; 3]), Fail> {
    let views = Cell::new(0);
    let source = Failing {
        bytes: file_f(alloc)?.bytes(alloc)?,
        views: &views,
        fails,
        refusal: Refusal::Other,
        failures: 0,
    };
    let mut database = PDB::open(alloc, source)?;
    let opening = views.get();
    Ok((opening, asked(&mut database, alloc, &views)))
}

// No table is cached if a view of the list (1) or of the directory (2) failed: the next call views
// both anew. From then on each call views its stream alone.
#[test]
fn the_directory_is_read_anew_where_the_source_failed(rt: HostRuntime) -> Result<(), Fail> {
    let other = Some(Error::IoError(ErrorKind::Other));
    let rows: [(&'static [u64], u64, [Asked; 3]); 4] = [
        (&[], 3, [(None, 4), (None, 5), (None, 6)]),
        (&[2], 3, [(None, 6), (None, 7), (None, 8)]),
        (&[1, 2], 2, [(other, 3), (None, 6), (None, 7)]),
        (&[1, 3], 2, [(other, 4), (None, 7), (None, 8)]),
    ];
    for (fails, opening, calls) in rows {
        let found = viewed(rt.alloc(), fails)?;
        assert_eq!(rt; found, (opening, calls), "{fails:?}");
    }
    Ok(())
}
