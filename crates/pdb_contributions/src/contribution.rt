//! A section contribution that counts, and the rule by which contributions merge.

ghost use Rattle.std.specs.Prelude.{◌≡◌};
ghost use Rattle.pdb_contributions.specs.MergedContributions.{is_executable as is_executable_at};
ghost use Rattle.pdb_contributions.specs.MergedContributions.{is_kept as is_kept_entry};
ghost use Rattle.pdb_contributions.specs.MergedContributions.{span_of as span_of_entry};
ghost use Rattle.pdb_contributions.specs.MergedContributions.{is_of_same as are_of_same};
ghost use Rattle.pdb_contributions.specs.MergedContributions.{up_to as up_to_end};
ghost use Rattle.pdb_contributions.specs.MergedContributions.{overlaps as do_overlap};
ghost use Rattle.pdb_contributions.specs.MergedContributions.{holds as does_hold};

use pdb_addresses::{ImageSectionHeader, PdbInternalSectionOffset};
use pdb_symbols_modules::DBISectionContribution;

/// A section contribution of a module: a stretch of a section, from a start to before an end.
/// Contributions are ordered by section, start, end and module.
#[derive(Clone, Copy, Debug, PartialEq, Eq, PartialOrd, Ord)]
pub struct ModuleSectionContribution {
    /// The section's number, counted from 1.
    pub(crate) section_index: u16,
    /// The offset at which it begins, in bytes.
    pub(crate) start_offset: u32,
    /// The offset at which it ends, in bytes; the byte there isn't held.
    pub(crate) end_offset: u32,
    /// The module's number, counted from 0.
    pub(crate) module_index: u16,
}

impl ModuleSectionContribution {
    /// The section's number, counted from 1.
    pub fn section_index(self) -> u16
        ensures { result ≡ self.section_index }
    {
        self.section_index
    }

    /// The offset at which it begins, in bytes.
    pub fn start_offset(self) -> u32
        ensures { result ≡ self.start_offset }
    {
        self.start_offset
    }

    /// The offset at which it ends, in bytes; the byte there isn't held.
    pub fn end_offset(self) -> u32
        ensures { result ≡ self.end_offset }
    {
        self.end_offset
    }

    /// The module's number, counted from 0.
    pub fn module_index(self) -> u16
        ensures { result ≡ self.module_index }
    {
        self.module_index
    }
}

/// Whether the number is that of a section in which code may run (`IMAGE_SCN_MEM_EXECUTE`).
pub fn is_executable(sections: &[ImageSectionHeader], number: u16) -> bool
    ensures { result ≡ is_executable_at sections.now number }
{
    if number == 0 {
        return false;
    }
    match sections.get(usize::from(number) - 1) {
        None => false,
        Some(section) => section.characteristics.execute(),
    }
}

/// Whether an entry counts: it has a size, and code may run in its section.
pub(crate) fn is_kept(sections: &[ImageSectionHeader], entry: DBISectionContribution) -> bool
    ensures { result ≡ is_kept_entry sections.now entry }
{
    entry.size > 0 && is_executable(sections, entry.offset.section)
}

/// The contribution of an entry; an end past 32 bits is cut.
pub(crate) fn span_of(entry: DBISectionContribution) -> ModuleSectionContribution
    ensures { result ≡ span_of_entry entry }
{
    ModuleSectionContribution {
        section_index: entry.offset.section,
        start_offset: entry.offset.offset,
        end_offset: entry.offset.offset.saturating_add(entry.size),
        module_index: entry.module,
    }
}

/// Whether two contributions are of one module and section.
pub(crate) fn is_of_same(a: ModuleSectionContribution, b: ModuleSectionContribution) -> bool
    ensures { result ≡ are_of_same a b }
{
    a.section_index == b.section_index && a.module_index == b.module_index
}

/// A contribution that goes on to the end of another one.
pub(crate) fn up_to(
    a: ModuleSectionContribution,
    b: ModuleSectionContribution,
) -> ModuleSectionContribution
    ensures { result ≡ up_to_end a b }
{
    ModuleSectionContribution {
        end_offset: b.end_offset,
        ..a
    }
}

/// Whether a contribution begins before the end of the one before it, in one section.
pub(crate) fn overlaps(a: ModuleSectionContribution, b: ModuleSectionContribution) -> bool
    ensures { result ≡ do_overlap a b }
{
    b.section_index == a.section_index && b.start_offset < a.end_offset
}

/// Whether a contribution holds a place.
pub(crate) fn holds(
    place: PdbInternalSectionOffset,
    contribution: ModuleSectionContribution,
) -> bool
    ensures { result ≡ does_hold place contribution }
{
    contribution.section_index == place.section
        && contribution.start_offset <= place.offset
        && place.offset < contribution.end_offset
}
