//! The deepest inline site over a place, by going over sites and their stored rows.

ghost use Rattle.std.specs.Prelude.{◌≡◌, None, Some, if◌then◌else◌, length};
ghost use Rattle.std.specs.List.{list_any};
ghost use Rattle.pdb_module_data.specs.BriefSites.{IfKept};
ghost use Rattle.pdb_module_data.specs.InlinedCalls.{deeper, deepest};
ghost use Rattle.pdb_module_data.specs.InlinePieces.{covers_kept, AreCut};

use crate::brief_sites::BriefSite;
use crate::call_rows::{CallRow, covers};
use crate::inlined_calls::site_numbered;
use crate::site_rows::SiteRows;
use pdb_addresses::PdbInternalSectionOffset;

/// Whether one of the rows covers a place.
fn is_any_over(rows: &[CallRow], place: PdbInternalSectionOffset) -> bool
    ensures { result ≡ list_any (covers_kept place) rows.now }
{
    for row in rows {
        if covers(row, place) {
            return true;
        }
    }
    false
}

/// The deeper of a site, if one of its rows covers a place, and of one after it that was found, by
/// number and depth; of equals the first.
fn deeper_of(
    number: usize,
    depth: u32,
    rows: &[CallRow],
    place: PdbInternalSectionOffset,
    found: Option<(usize, u32)>,
) -> Option<(usize, u32)>
    ensures { result ≡ deeper
        (if list_any (covers_kept place) rows.now then Some (number, depth) else None) found }
{
    match found {
        Some(after) if depth < after.1 => found,
        _ => {
            if is_any_over(rows, place) {
                Some((number, depth))
            } else {
                found
            }
        }
    }
}

/// The number of the deepest site with a row over a place, of equals the first, from the stored
/// sites and their rows. It takes a step for each of them.
pub fn deepest_of(
    sites: &[BriefSite],
    of_sites: &SiteRows,
    place: PdbInternalSectionOffset,
) -> Option<usize>
    requires cut { AreCut (length sites.now) of_sites.now.starts.items
        (length of_sites.now.rows.items) }
    ensures { IfKept sites.now of_sites.now (λ lines whole. result ≡ deepest lines whole place) }
{
    let mut found = None;
    let mut number = sites.len();
    while number > 0 {
        number -= 1;
        let site = site_numbered(sites, number);
        let rows = of_sites.rows_of(number);
        found = deeper_of(number, site.depth, rows, place, found);
    }
    match found {
        None => None,
        Some(found) => Some(found.0),
    }
}
