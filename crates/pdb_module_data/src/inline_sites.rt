//! The inline sites of a procedure.

ghost use Rattle.std.specs.Prelude.{◌≡◌, ◌∷◌, ◌<◌, ◌≤◌, ◌^◌, length, IfOk, OnOk};
ghost use Rattle.pdb_module_data.specs.Elements.{element_seen, nested_past, with_site};
ghost use Rattle.pdb_module_data.specs.Forest.{element_of, sites_from};
ghost use Rattle.pdb_module_data.specs.InlinedCalls.{IsNested};
ghost use Rattle.pdb_module_data.specs.Procedures.{sites_of_procedure};
ghost use Rattle.pdb_module_data.specs.SitesFaults.{Reads};
ghost use Rattle.pdb_symbol_records.specs.Forms.{inline_site_form};

use crate::procedures::Procedure;
use pdb_container::{Error, FallibleIterator, SymbolIndex};
use pdb_symbol_records::kinds::{is_inline_site, is_procedure};
use pdb_symbol_records::{InlineSiteSymbol, Symbol, SymbolData, SymbolIter};
use std::alloc::{AllocError, AllocFailed, Global};
use std::marker::Model;

/// Room that is taken ahead for sites, so that a list of few of them isn't moved as it grows.
const SITES_AHEAD: usize = 16;

/// The greatest depth of a site in others: the most that 16 bits count, as the ported crate counts
/// depth. Memory for them grows with their rows, as docs/COSTS.md says of nested calls.
const MAXIMUM_DEPTH: usize = 65_535;

/// The cause for which the inline sites of a procedure can't be read.
#[derive(Debug, Drop, PartialEq)]
pub enum SitesError {
    /// A symbol can't be read, or memory ran out.
    Pdb(Error),
    /// A nested procedure doesn't end after its own symbol, or sites lie in one another more than
    /// 65,535 deep.
    Unsuccessful,
}

impl From<Error> for SitesError {
    ghost use Rattle.pdb_module_data.specs.declared.inline_sites.SitesError.TheVariants as faults;

    ghost from_gives = { λ cause e. e ≡ faults.Pdb cause };

    fn from(cause: Error) -> SitesError {
        SitesError::Pdb(cause)
    }
}

impl From<AllocError> for SitesError {
    ghost use Rattle.pdb_container.specs.declared.error.Error.TheVariants as errors;
    ghost use Rattle.pdb_module_data.specs.declared.inline_sites.SitesError.TheVariants as faults;

    ghost from_gives = { λ _ e. e ≡ faults.Pdb errors.OutOfMemory };

    fn from(_e: AllocError) -> SitesError {
        SitesError::Pdb(Error::OutOfMemory)
    }
}

impl<T: Drop> From<AllocFailed<T>> for SitesError {
    ghost use Rattle.pdb_container.specs.declared.error.Error.TheVariants as errors;
    ghost use Rattle.pdb_module_data.specs.declared.inline_sites.SitesError.TheVariants as faults;

    ghost from_gives = { λ _ e. e ≡ faults.Pdb errors.OutOfMemory };

    fn from(_e: AllocFailed<T>) -> SitesError {
        SitesError::Pdb(Error::OutOfMemory)
    }
}

/// An inline site (`S_INLINESITE`, `S_INLINESITE2`): an inlined call, with the call that it lies
/// in.
#[derive(Debug, Drop)]
pub struct Site<'t> {
    /// The fields of its symbol.
    pub call: InlineSiteSymbol<'t>,
    /// The number of the site that it lies in, counted from 0 in the order of the file; `None`
    /// directly in the procedure.
    pub parent: Option<usize>,
    /// The depth: 1 directly in the procedure.
    pub depth: usize,
}

impl<'t> Model for Site<'t> {
    ghost use Rattle.pdb_symbol_records.specs.Forms.{inline_site_form};
    ghost use Rattle.pdb_module_data.specs.Forest as forest;

    ghost Value = { forest.Site };

    ghost view = { λ s. record {
      call = inline_site_form s.call;
      parent = s.parent;
      depth = s.depth;
    } };
}

/// The inline sites of a procedure, in the order of the file.
#[derive(Debug, Drop)]
pub struct InlineSites<'t> {
    sites: Vec<Site<'t>>,
}

impl<'t> Model for InlineSites<'t> {
    ghost use Rattle.std.specs.Prelude.{List};
    ghost use Rattle.pdb_module_data.specs.Forest as forest;
    ghost use Rattle.pdb_module_data.specs.InlinedCalls.{IsNested};

    ghost Value = { List forest.Site };

    ghost view = { λ s. s.sites.items };

    ghost invariant = { λ s. IsNested s.sites.items };
}

/// The element that a symbol is among others of a procedure.
#[derive(Clone, Copy)]
enum Element<'t> {
    Call(InlineSiteSymbol<'t>),
    Nested(u32),
    Plain,
}

/// A body that isn't closed yet: the place at which it closes, and the site of which it is the
/// body.
#[derive(Clone, Copy)]
struct Open {
    limit: u32,
    site: Option<usize>,
}

/// The element that a symbol is among others. No symbol of another kind is parsed.
#[tactic(auto, using(crate::proofs::PlainKinds::plain_kind))]
fn parse_element<'t>(symbol: &Symbol<'t>) -> Element<'t>
    ensures { element_seen result ≡ element_of symbol.now }
{
    let kind = symbol.raw_kind();
    if !is_inline_site(kind) && !is_procedure(kind) {
        return Element::Plain;
    }
    match symbol.parse() {
        Ok(SymbolData::InlineSite(call)) => Element::Call(call),
        Ok(SymbolData::Procedure(procedure)) => Element::Nested(procedure.end.0),
        _ => Element::Plain,
    }
}

/// Goes on after a nested procedure and the symbol at its end, which has to stand after the
/// procedure's own.
fn skip_nested(symbols: &mut SymbolIter<'_>, index: SymbolIndex, end: u32) -> Result<(), SitesError>
    ensures place { Reads (λ _. symbols.new.place) result
        (nested_past symbols.old.bytes index.0 end) }
    ensures bytes { symbols.new.bytes ≡ symbols.old.bytes }
{
    if end <= index.0 {
        return Err(SitesError::Unsuccessful);
    }
    symbols.skip_to(SymbolIndex(end))?;
    Ok(())
}

/// Adds one more site, directly in a body below so many others; returns its number.
fn push_site<'t>(
    sites: &mut Vec<Site<'t>>,
    parent: Option<usize>,
    below: usize,
    call: InlineSiteSymbol<'t>,
) -> Result<usize, SitesError>
    ensures { Reads (λ number. (number, sites.new.items)) result
        (with_site sites.old.items parent below (inline_site_form call.entry)) }
{
    if below >= MAXIMUM_DEPTH {
        return Err(SitesError::Unsuccessful);
    }
    let number = sites.len();
    let depth = below + 1;
    sites.push(Site {
        call,
        parent,
        depth,
    })?;
    Ok(number)
}

/// The sites of the body that closes at a limit, from the iterator's place on.
fn scan_sites<'t>(
    alloc: Global,
    symbols: &mut SymbolIter<'t>,
    limit: u32,
) -> Result<Vec<Site<'t>>, SitesError>
    ensures sites { Reads (λ v. v.items) result
        (sites_from symbols.old.bytes limit symbols.old.place) }
    ensures bytes { OnOk result (symbols.new.bytes ≡ symbols.old.bytes) }
{
    let mut sites = Vec::with_capacity(alloc, SITES_AHEAD)?;
    let mut below = Vec::new(alloc);
    let mut top = Open { limit, site: None };
    while let Some(symbol) = symbols.next()? {
        if top.limit <= symbol.index().0 {
            match below.pop() {
                None => return Ok(sites),
                Some(open) => top = open,
            }
        } else {
            match parse_element(&symbol) {
                Element::Plain => {}
                Element::Nested(end) => {
                    skip_nested(symbols, symbol.index(), end)?;
                }
                Element::Call(call) => {
                    let number = push_site(&mut sites, top.site, below.len(), call)?;
                    below.push(top)?;
                    top = Open {
                        limit: call.end.0,
                        site: Some(number),
                    };
                }
            }
        }
    }
    Ok(sites)
}

impl<'t> InlineSites<'t> {
    /// The inline sites of a procedure: those of the symbols after its own and before the one that
    /// ends it. An inline site is closed by the first symbol at its end or past it, whatever that
    /// symbol is; a nested procedure is passed over, with the symbol at its end; the end of the
    /// symbols closes all.
    ///
    /// # Errors
    /// `Unsuccessful` where a nested procedure doesn't end after its own symbol, and where sites
    /// lie in one another more than 65,535 deep; a symbol's fault, or `OutOfMemory`, as `Pdb`.
    pub fn read(
        alloc: Global,
        mut symbols: SymbolIter<'t>,
        procedure: &Procedure<'_>,
    ) -> Result<InlineSites<'t>, SitesError>
        ensures { Reads (λ s. s) result (sites_of_procedure symbols.entry.bytes procedure.now) }
    {
        InlineSites::read_by(alloc, &mut symbols, procedure)
    }

    /// The inline sites of a procedure, by an iterator over the symbols, which is over them
    /// afterward, too.
    pub(crate) fn read_by(
        alloc: Global,
        symbols: &mut SymbolIter<'t>,
        procedure: &Procedure<'_>,
    ) -> Result<InlineSites<'t>, SitesError>
        ensures sites { Reads (λ s. s) result
            (sites_of_procedure symbols.old.bytes procedure.now) }
        ensures bytes { OnOk result (symbols.new.bytes ≡ symbols.old.bytes) }
    {
        symbols.skip_to(procedure.symbol_index)?;
        let sites = scan_sites(alloc, symbols, procedure.end_symbol_index.0)?;
        Ok(InlineSites { sites })
    }

    /// The sites in the order of the file, each after the one that it lies in.
    pub fn as_slice(&self) -> &[Site<'t>]
        ensures sites { result.now ≡ self.now }
        ensures nested { IsNested result.now }
    {
        self.sites.as_slice()
    }
}
