//! The public symbols of a database, by their places.

use pdb_addr2line::pdb::{
    FallibleIterator, ImageSectionHeader, PublicSymbol, RawString, SymbolData, SymbolIter,
    SymbolTable,
};
use std::alloc::{AllocError, Global};

/// A public symbol: where it lies, and its name as it is stored.
#[derive(Clone, Copy, Drop)]
pub struct PublicName<'a> {
    /// The number of its section, counted from 1.
    pub section: u16,
    /// Where it lies in its section, in bytes.
    pub offset: u32,
    /// Its name.
    pub name: RawString<'a>,
}

/// The public symbols of a database, which are read when they are first asked for.
#[derive(Drop)]
pub struct Publics<'a> {
    symbols: &'a SymbolTable<'static>,
    sections: &'a [ImageSectionHeader],
    /// The public symbols in the order of their places, and those of one place in that of their
    /// names, once they are read.
    sorted: Option<Vec<PublicName<'a>>>,
}

/// The next public symbol that can be read. A fault of the records ends them.
fn next_public<'a>(symbols: &mut SymbolIter<'a>) -> Option<PublicSymbol<'a>> {
    for _ in 0..u64::MAX {
        let Ok(Some(symbol)) = symbols.next() else {
            return None;
        };
        if let Ok(SymbolData::Public(public)) = symbol.parse() {
            return Some(public);
        }
    }
    None
}

/// The public symbols in their order.
fn sorted_names<'a>(
    alloc: Global,
    symbols: &'a SymbolTable<'static>,
) -> Result<Vec<PublicName<'a>>, AllocError> {
    let mut names = Vec::new(alloc);
    let mut symbols = symbols.iter();
    for _ in 0..u64::MAX {
        let Some(public) = next_public(&mut symbols) else {
            break;
        };
        names.push(PublicName {
            section: public.offset.section,
            offset: public.offset.offset,
            name: public.name,
        })?;
    }
    names.sort_by(|a: &PublicName<'_>, b: &PublicName<'_>| {
        let places = (a.section, a.offset).cmp(&(b.section, b.offset));
        places.then(a.name.as_bytes().cmp(b.name.as_bytes()))
    })?;
    Ok(names)
}

impl<'a> Publics<'a> {
    /// Those among symbols, of an image that has these sections.
    pub fn new(
        symbols: &'a SymbolTable<'static>,
        sections: &'a [ImageSectionHeader],
    ) -> Publics<'a> {
        Publics {
            symbols,
            sections,
            sorted: None,
        }
    }

    /// The place of an RVA as llvm-symbolizer counts it: the section before the first one that
    /// begins after it, and 0 where that is the first.
    fn place_of(&self, rva: u32) -> (u16, u32) {
        let mut place = (0, rva);
        for section in self.sections {
            let start = section.virtual_address;
            if rva < start || place.0 == u16::MAX {
                break;
            }
            place = (place.0 + 1, rva - start);
        }
        place
    }

    /// The RVA of a public symbol.
    pub fn rva_of(&self, public: &PublicName<'a>) -> Option<u32> {
        if public.section == 0 {
            return None;
        }
        let section = self.sections.get(usize::from(public.section) - 1)?;
        section.virtual_address.checked_add(public.offset)
    }

    /// The last public symbol at an RVA or before it, however far.
    ///
    /// # Errors
    /// Where memory ran out.
    pub fn nearest(
        &mut self,
        alloc: Global,
        rva: u32,
    ) -> Result<Option<PublicName<'a>>, AllocError> {
        let place = self.place_of(rva);
        if self.sorted.is_none() {
            self.sorted = Some(sorted_names(alloc, self.symbols)?);
        }
        let Some(names) = &self.sorted else {
            return Ok(None);
        };
        let count = names.partition_point(|public| (public.section, public.offset) <= place);
        Ok(names[..count].last().copied())
    }
}
