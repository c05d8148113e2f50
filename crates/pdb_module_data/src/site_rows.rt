//! The stored rows of a procedure's inline sites, and pieces for a search among the rows of each
//! site.

ghost use Rattle.std.specs.Prelude.{◌≡◌, ◌+◌, ◌<◌, ◌≤◌, IfOk, OnOk};
ghost use Rattle.std.specs.Prelude.{length, option_map, slice_index};
ghost use Rattle.std.specs.BTreeMap.{get};
ghost use Rattle.std.specs.Ordering.{nat_cmp};
ghost use Rattle.pdb_module_data.specs.InlinePieces.{rows_at, AddsFound, AreAllFound, AreCut};

use crate::call_rows::{CallRow, pieces_unless_apart};
use pdb_pieces::Pieces;
use std::alloc::{AllocError, Global};
use std::collections::BTreeMap;

/// The stored rows of sites, one after another, with the starts of the rows of each site; and
/// pieces of places for a search among the rows of a site, under its number, where they don't lie
/// apart in ascending order.
#[derive(Drop)]
pub struct SiteRows {
    pub rows: Vec<CallRow>,
    pub starts: Vec<u32>,
    pub pieces: BTreeMap<usize, Pieces>,
}

impl SiteRows {
    /// The stored rows of the site with that number.
    pub fn rows_of(&self, number: usize) -> &[CallRow]
        requires there { number + 1 < length self.now.starts.items }
        requires ascend { slice_index self.now.starts.items number
            ≤ slice_index self.now.starts.items (number + 1) }
        requires bound { slice_index self.now.starts.items (number + 1)
            ≤ length self.now.rows.items }
        ensures { result.now ≡ rows_at self.now.rows.items self.now.starts.items number }
    {
        rows_of_site(self.rows.as_slice(), self.starts.as_slice(), number)
    }

    /// The pieces for a search among the rows of the site with that number, if there are any.
    pub fn pieces_of(&self, number: usize) -> Option<&Pieces>
        ensures { option_map (λ p. p.now) result ≡ get nat_cmp self.now.pieces number }
    {
        self.pieces.get(&number)
    }
}

/// The rows of the site with that number, from the starts of the rows of each site.
pub fn rows_of_site<'r>(rows: &'r [CallRow], starts: &[u32], number: usize) -> &'r [CallRow]
    requires there { number + 1 < length starts.now }
    requires ascend { slice_index starts.now number ≤ slice_index starts.now (number + 1) }
    requires bound { slice_index starts.now (number + 1) ≤ length rows.now }
    ensures { result.now ≡ rows_at rows.now starts.now number }
{
    let start = starts[number] as usize;
    let end = starts[number + 1] as usize;
    &rows[start..end]
}

/// Adds pieces for a search among the rows of the site with that number, unless these lie apart in
/// ascending order.
fn add_pieces(
    alloc: Global,
    pieces: &mut BTreeMap<usize, Pieces>,
    number: usize,
    rows: &[CallRow],
) -> Result<(), AllocError>
    ensures { OnOk result (AddsFound pieces.old pieces.new number rows.now) }
{
    match pieces_unless_apart(alloc, rows)? {
        None => Ok(()),
        Some(of_site) => {
            pieces.insert(number, of_site)?;
            Ok(())
        }
    }
}

/// Pieces for a search among the rows of each of so many sites, unless these lie apart in
/// ascending order.
pub fn site_pieces(
    alloc: Global,
    sites: usize,
    rows: &[CallRow],
    starts: &[u32],
) -> Result<BTreeMap<usize, Pieces>, AllocError>
    requires { AreCut sites starts.now (length rows.now) }
    ensures { IfOk result (λ pieces. AreAllFound sites rows.now starts.now pieces) }
{
    let mut pieces = BTreeMap::new(alloc);
    for number in 0..sites {
        let of_site = rows_of_site(rows, starts, number);
        add_pieces(alloc, &mut pieces, number, of_site)?;
    }
    Ok(pieces)
}
