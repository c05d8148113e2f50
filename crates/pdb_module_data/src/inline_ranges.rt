//! The inline sites of a procedure, and a search of the deepest one over a place.

ghost use Rattle.std.specs.Prelude.{◌≡◌, IfOk, length};
ghost use Rattle.pdb_addresses.specs.SectionRun.{up_to_next};
ghost use Rattle.pdb_module_data.specs.InlinedCalls.{calls_over as calls_over_place, deepest};
ghost use Rattle.pdb_module_data.specs.InlinedCalls.{stored_rows};
ghost use Rattle.pdb_module_data.specs.InlinePieces.{rows_of_sites, starts_of_sites};
ghost use Rattle.pdb_module_data.specs.InlinePieces.{cuts_of};
ghost use Rattle.pdb_module_data.specs.InlinePieces.{AreCut, AreShortSites, StandForDeepest};
ghost use Rattle.pdb_module_data.specs.InlinePieces.{AreSpansOf, IfStored, StandForSites};
ghost use Rattle.pdb_module_data.specs.Procedures.{sites_of_procedure};
ghost use Rattle.pdb_module_data.specs.SitesFaults.{Reads};

use crate::brief_sites::{BriefSite, briefs_of, short_number};
use crate::call_rows::{CallRow, push_site_rows, push_spans, to_next_cut_of};
use crate::deepest_site::deepest_of;
use crate::inline_sites::{InlineSites, Site, SitesError};
use crate::inlined_calls::{InlinedCall, calls_from};
use crate::inlinees::Inlinees;
use crate::memory::{PIECES_OF_SPAN, memory_of};
use crate::procedures::Procedure;
use crate::site_rows::{SiteRows, rows_of_site, site_pieces};
use pdb_addresses::PdbInternalSectionOffset;
use pdb_container::SymbolIndex;
use pdb_pieces::{Pieces, Span};
use pdb_symbol_records::SymbolIter;
use std::alloc::{AllocError, Global};
use std::marker::Model;

/// The number of rows of most sites, so that lists of them aren't moved as they grow.
const ROWS_OF_SITE: usize = 4;

/// The number of sites and rows that are gone over in a search of the deepest site over a place.
/// Past that number the rows are cut into pieces, which costs more than some such searches.
const GONE_OVER: usize = 128;

/// The inline sites of a procedure (`S_INLINESITE`, `S_INLINESITE2`) in the order of the file, the
/// stored rows of all of them, and, where these aren't few, pieces of places for a search of the
/// deepest one over a place.
#[derive(Drop)]
pub struct InlineRanges<'t> {
    /// The module's symbols, from which the sites were read.
    symbols: SymbolIter<'t>,
    /// The place of the procedure's symbol in them, in bytes.
    start: SymbolIndex,
    /// The place of the symbol that ends the procedure, in bytes.
    end: SymbolIndex,
    sites: Vec<BriefSite>,
    rows: SiteRows,
    pieces: Option<Pieces>,
}

impl<'t> Model for InlineRanges<'t> {
    ghost use Rattle.std.specs.Prelude.{◌≡◌, length, map};
    ghost use Rattle.pdb_module_data.specs.BriefSites.{brief_of, sites_if_read};
    ghost use Rattle.pdb_module_data.specs.Forest.{sites_of};
    ghost use Rattle.pdb_module_data.specs.InlinedCalls.{IsNested};
    ghost use Rattle.pdb_module_data.specs.InlinePieces as ranges;
    ghost use Rattle.pdb_module_data.specs.InlinePieces.{AreAllFound};

    ghost Value = { ranges.Ranges };

    ghost view = { λ r. record {
      sites = sites_if_read (sites_of r.symbols.bytes r.start.0 r.end.0);
      rows = r.rows.rows.items;
      starts = r.rows.starts.items;
      pieces = r.pieces;
    } };

    // The row of each site over a place is found by halving. The stored rows are those of the
    // sites.
    ghost invariant = { λ r. AreAllFound (length r.sites.items) r.rows.rows.items
        r.rows.starts.items r.rows.pieces
        × (r.sites.items ≡ map brief_of
        (sites_if_read (sites_of r.symbols.bytes r.start.0 r.end.0)))
        × IsNested (sites_if_read (sites_of r.symbols.bytes r.start.0 r.end.0)) };
}

/// The stored rows of sites, and the starts of the rows of each site.
#[derive(Drop)]
struct RowsAndStarts {
    rows: Vec<CallRow>,
    starts: Vec<u32>,
}

/// The rows of sites, and the starts of the rows of each site.
fn rows_and_starts<'a>(
    alloc: Global,
    sites: &[Site<'a>],
    inlinees: &Inlinees<'a>,
    start: PdbInternalSectionOffset,
) -> Result<RowsAndStarts, AllocError>
    ensures rows { IfOk result
        (λ r. r.rows.items ≡ rows_of_sites (stored_rows inlinees.now start) sites.now) }
    ensures starts { IfOk result
        (λ r. r.starts.items ≡ starts_of_sites (stored_rows inlinees.now start) 0 sites.now) }
{
    let usual = sites.len().saturating_mul(ROWS_OF_SITE);
    let mut rows = Vec::with_capacity(alloc, usual)?;
    let mut starts = Vec::with_capacity(alloc, sites.len() + 1)?;
    for site in sites {
        starts.push(short_number(rows.len())?)?;
        push_site_rows(&mut rows, site, inlinees, start)?;
    }
    starts.push(short_number(rows.len())?)?;
    Ok(RowsAndStarts {
        rows: Vec::from_slice(alloc, rows.as_slice())?,
        starts,
    })
}

/// The spans that sites cover by their rows, each ranked by its site's depth.
fn spans_of(
    alloc: Global,
    sites: &[Site<'_>],
    rows: &[CallRow],
    starts: &[u32],
) -> Result<Vec<Span>, AllocError>
    requires { AreCut (length sites.now) starts.now (length rows.now) }
    ensures spans { IfOk result (λ v. IfStored rows.now starts.now sites.now
        (AreSpansOf v.items)) }
    ensures short { IfOk result (λ _. IfStored rows.now starts.now sites.now AreShortSites) }
{
    let mut spans = Vec::with_capacity(alloc, rows.len())?;
    for (number, site) in sites.iter().enumerate() {
        let of_site = rows_of_site(rows, starts, number);
        push_spans(&mut spans, number, site.depth, of_site)?;
    }
    Ok(spans)
}

/// Pieces of places for a search of the deepest site over one, unless sites and rows are few.
#[tactic(auto, using(crate::proofs::InlineSteps::stand_for_deepest))]
fn pieces_unless_few(
    alloc: Global,
    sites: &[Site<'_>],
    rows: &[CallRow],
    starts: &[u32],
) -> Result<Option<Pieces>, AllocError>
    requires { AreCut (length sites.now) starts.now (length rows.now) }
    ensures { IfOk result (λ v. IfStored rows.now starts.now sites.now
        (λ lines all. StandForDeepest lines all v)) }
{
    if sites.len().saturating_add(rows.len()) <= GONE_OVER {
        return Ok(None);
    }
    let spans = spans_of(alloc, sites, rows, starts)?;
    let pieces = Pieces::new(alloc, spans.as_slice())?;
    Ok(Some(pieces))
}

impl<'t> InlineRanges<'t> {
    /// The inline sites of a procedure, as [`InlineSites::read`] says, and pieces of places from
    /// the rows that the module's inlinees give them. A row before an annotation that can't be read
    /// counts, but for the last of them.
    ///
    /// # Errors
    /// Those of [`InlineSites::read`].
    pub fn read(
        alloc: Global,
        mut symbols: SymbolIter<'t>,
        procedure: &Procedure<'_>,
        inlinees: &Inlinees<'t>,
    ) -> Result<InlineRanges<'t>, SitesError>
        ensures sites { Reads (λ r. r.sites) result
            (sites_of_procedure symbols.entry.bytes procedure.now) }
        ensures stand { IfOk result
            (λ r. StandForSites (stored_rows inlinees.now procedure.now.offset) r) }
    {
        let sites = InlineSites::read_by(alloc, &mut symbols, procedure)?;
        let read = rows_and_starts(alloc, sites.as_slice(), inlinees, procedure.offset)?;
        let rows = read.rows.as_slice();
        let starts = read.starts.as_slice();
        let pieces = pieces_unless_few(alloc, sites.as_slice(), rows, starts)?;
        let of_sites = site_pieces(alloc, sites.as_slice().len(), rows, starts)?;
        let briefs = briefs_of(alloc, sites.as_slice())?;
        Ok(InlineRanges {
            symbols,
            start: procedure.symbol_index,
            end: procedure.end_symbol_index,
            sites: briefs,
            rows: SiteRows {
                rows: read.rows,
                starts: read.starts,
                pieces: of_sites,
            },
            pieces,
        })
    }

    /// The number of the deepest site with a row over a place, of equals the first.
    #[tactic(auto, using(crate::proofs::BriefSteps::briefs_cut))]
    fn deepest_over(
        &self,
        inlinees: &Inlinees<'t>,
        start: PdbInternalSectionOffset,
        place: PdbInternalSectionOffset,
    ) -> Option<usize>
        requires { StandForSites (stored_rows inlinees.now start) self.now }
        ensures { result ≡ deepest (stored_rows inlinees.now start) (self.now).sites place }
    {
        match &self.pieces {
            None => deepest_of(self.sites.as_slice(), &self.rows, place),
            Some(pieces) => pieces.value_at(place),
        }
    }

    /// The inlined calls over a place, innermost first: the call of the deepest site with a row
    /// over the place, and the calls of the sites that it lies in. Of equally deep sites the first
    /// in the order of the file counts. There are none where no row covers the place. The procedure
    /// has to begin at `start`, and `inlinees` have to be those from which the pieces were made.
    /// The row of each over the place is found by halving, and so is the deepest site where sites
    /// and rows are more than 128; otherwise these are gone over.
    ///
    /// # Errors
    /// `AllocError` when memory runs out.
    #[tactic(auto, using(crate::proofs::BriefSteps::brief_within, crate::proofs::BriefSteps::briefs_cut))]
    pub fn calls_over(
        &self,
        alloc: Global,
        inlinees: &Inlinees<'t>,
        start: PdbInternalSectionOffset,
        place: PdbInternalSectionOffset,
    ) -> Result<Vec<InlinedCall>, AllocError>
        requires { StandForSites (stored_rows inlinees.now start) self.now }
        ensures { IfOk result (λ v. v.items
            ≡ calls_over_place (stored_rows inlinees.now start) self.now.sites place) }
    {
        match self.deepest_over(inlinees, start, place) {
            None => Ok(Vec::new(alloc)),
            Some(number) => {
                let calls = calls_from(alloc, self.sites.as_slice(), &self.rows, number, place)?;
                Ok(calls)
            }
        }
    }

    /// Returns the lesser of `far` and the distance, in bytes, from an offset to the next place
    /// past it at which a row of a site begins or ends. It takes a step for each row.
    pub fn to_next_cut(&self, offset: u32, far: u32) -> u32
        ensures { result ≡ up_to_next (cuts_of (self.now).rows) offset far }
    {
        to_next_cut_of(self.rows.rows.as_slice(), offset, far)
    }

    /// The approximate number of bytes of memory that they take, at most.
    pub fn memory_size(&self) -> u64 {
        let site_size = size_of::<BriefSite>() + size_of::<u32>();
        let pieces = if self.pieces.is_none() && self.rows.pieces.is_empty() {
            0
        } else {
            2 * PIECES_OF_SPAN
        };
        let row_size = size_of::<CallRow>() + pieces;
        let sites = memory_of(self.sites.len(), site_size);
        sites.saturating_add(memory_of(self.rows.rows.len(), row_size))
    }
}
