//! Inlined calls over a place.

ghost use Rattle.std.specs.Prelude.{◌≡◌, ◌<◌, IfOk, Some, length, slice_get};
ghost use Rattle.pdb_module_data.specs.BriefSites.{AreOfNested, IfKept};
ghost use Rattle.pdb_module_data.specs.InlinedCalls.{AreCallsFrom};
ghost use Rattle.pdb_module_data.specs.InlinePieces.{AreAllFound, AreCut};

use crate::brief_sites::BriefSite;
use crate::call_rows::call_over;
use crate::site_rows::SiteRows;
use pdb_addresses::PdbInternalSectionOffset;
use pdb_container::{FileIndex, IdIndex};
use std::alloc::{AllocError, Global};

/// The code of a row of an inlined call.
#[derive(Clone, Copy, Debug, PartialEq, Eq)]
pub struct CodeSpan {
    /// The start of the code: a section's number, counted from 1, and an offset in bytes.
    pub offset: PdbInternalSectionOffset,
    /// The number of its bytes, at least 1.
    pub length: u32,
}

/// An inlined call over a place: the function's id in the IPI, and file, line and code of its first
/// row over the place; or else the file of its first row that has a length, no line and no code.
#[derive(Clone, Copy, Debug, PartialEq, Eq)]
pub struct InlinedCall {
    /// The id of the inlined function, which may lead into another module.
    pub inlinee: IdIndex,
    /// The source file.
    pub file: Option<FileIndex>,
    /// The line, counted from 1.
    pub line: Option<u32>,
    /// The code of its first row over the place.
    pub row: Option<CodeSpan>,
}

/// The stored site with that number.
pub fn site_numbered(sites: &[BriefSite], number: usize) -> BriefSite
    requires { number < length sites.now }
    ensures { slice_get sites.now number ≡ Some result }
{
    sites[number]
}

/// The number of the site that a site lies in.
fn parent_of(site: BriefSite) -> Option<usize>
    ensures { result ≡ site.parent }
{
    match site.parent {
        None => None,
        Some(number) => Some(number as usize),
    }
}

/// The calls of a site and of the sites that it lies in, innermost first, from the stored sites and
/// the rows of each.
pub fn calls_from(
    alloc: Global,
    sites: &[BriefSite],
    of_sites: &SiteRows,
    number: usize,
    place: PdbInternalSectionOffset,
) -> Result<Vec<InlinedCall>, AllocError>
    requires nested { AreOfNested sites.now }
    requires there { number < length sites.now }
    requires cut { AreCut (length sites.now) of_sites.now.starts.items
        (length of_sites.now.rows.items) }
    requires found { AreAllFound (length sites.now) of_sites.now.rows.items
        of_sites.now.starts.items of_sites.now.pieces }
    ensures { IfOk result
        (λ v. IfKept sites.now of_sites.now (AreCallsFrom v.items place number)) }
{
    let deepest = site_numbered(sites, number);
    let mut calls = Vec::with_capacity(alloc, deepest.depth as usize)?;
    let mut next = Some(number);
    while let Some(k) = next {
        let site = site_numbered(sites, k);
        let rows = of_sites.rows_of(k);
        let pieces = of_sites.pieces_of(k);
        calls.push(call_over(site.inlinee, rows, pieces, place))?;
        next = parent_of(site);
    }
    Ok(calls)
}
