//! The bytes of modules, by their contributions to sections.

ghost use Rattle.std.specs.Prelude.{◌≡◌, ◌+◌, ◌^◌, ◌<◌, ◌≤◌, IfOk, OnOk, Some, length, refl};
ghost use Rattle.std.specs.Cmp.{eq_by_cmp_equiv, partial_equiv_from_equiv};
ghost use Rattle.std.specs.Cmp.{partial_order_from_total};
ghost use Rattle.std.specs.List.{sum_by};
ghost use Rattle.pdb_owners.specs.Answers.{is_same};
ghost use Rattle.pdb_owners.specs.Table.{sum_of};
ghost use Rattle.pdb_listings.specs.Contributed.{AddsContribution, HasContributions};
ghost use Rattle.pdb_listings.specs.Contributed.{module_part as module_part_of};
ghost use Rattle.pdb_listings.specs.Contributed.{part_by, part_cmp, part_exact, part_number};
ghost use Rattle.pdb_listings.specs.Contributed.{part_total};

use pdb_addresses::SectionCharacteristics;
use pdb_owners::{Countable, Counts};
use pdb_symbols_modules::DBISectionContribution;
use std::alloc::{AllocError, Global};
use std::cmp::Ordering;

/// The part to which a contribution belongs, by what may be done in its section.
#[derive(Clone, Copy)]
pub enum Part {
    /// Code, or what may run.
    Code,
    /// Data that may be read alone.
    ReadOnly,
    /// Data that may be written.
    Written,
    /// Data that are zero when the program starts, and have no bytes in the image's file.
    Zeroed,
}

impl Part {
    /// The part's number, counted from 0 in the order above.
    fn number(self) -> u8
        ensures { result ≡ part_number self }
    {
        match self {
            Part::Code => 0,
            Part::ReadOnly => 1,
            Part::Written => 2,
            Part::Zeroed => 3,
        }
    }
}

/// A part of a module.
#[derive(Clone, Copy)]
pub struct ModulePart {
    /// The module's number, counted from 0.
    pub module: u16,
    /// The part.
    pub part: Part,
}

/// Two parts of modules are equal where module and part are.
impl PartialEq for ModulePart {
    ghost eq = { is_same part_cmp };

    ghost laws = { partial_equiv_from_equiv (eq_by_cmp_equiv part_total) };

    fn eq(&self, other: &ModulePart) -> bool {
        self.cmp(other).is_eq()
    }
}

impl Eq for ModulePart {
    ghost laws = { eq_by_cmp_equiv part_total };
}

/// The order by module, and then by the number of the part.
impl PartialOrd for ModulePart {
    ghost partial_cmp = { λ a b. Some (part_cmp a b) };

    ghost laws = { partial_order_from_total part_total };

    fn partial_cmp(&self, other: &ModulePart) -> Option<Ordering> {
        Some(self.cmp(other))
    }
}

/// The order by module, and then by the number of the part.
impl Ord for ModulePart {
    ghost cmp = { part_cmp };

    ghost total = { part_total };

    ghost matches_partial_cmp = { λ a b. refl };

    ghost matches_eq = { λ a b. refl };

    fn cmp(&self, other: &ModulePart) -> Ordering {
        let parts = self.part.number().cmp(&other.part.number());
        self.module.cmp(&other.module).then(parts)
    }
}

/// Two parts of modules that compare as equal are one.
impl Countable for ModulePart {
    ghost exact = { part_exact };
}

/// The part of a contribution to a section with these characteristics: code where they have
/// `IMAGE_SCN_CNT_CODE` or `IMAGE_SCN_MEM_EXECUTE`, otherwise zeroed where they have
/// `IMAGE_SCN_CNT_UNINITIALIZED_DATA`, otherwise written where they have `IMAGE_SCN_MEM_WRITE`.
pub fn part_of(characteristics: SectionCharacteristics) -> Part
    ensures { result ≡ part_by characteristics.0 }
{
    let flags = characteristics.0;
    if flags & 0x2000_0020 != 0 {
        Part::Code
    } else if flags & 0x80 != 0 {
        Part::Zeroed
    } else if flags & 0x8000_0000 != 0 {
        Part::Written
    } else {
        Part::ReadOnly
    }
}

/// The part of a module that a contribution belongs to.
fn module_part(contribution: &DBISectionContribution) -> ModulePart
    ensures { result ≡ module_part_of contribution.now }
{
    ModulePart {
        module: contribution.module,
        part: part_of(contribution.characteristics),
    }
}

/// The number of bytes that each part of a module contributes; a part without a byte isn't there.
///
/// # Errors
/// `AllocError` when memory runs out.
pub fn module_sizes(
    alloc: Global,
    contributions: &[DBISectionContribution],
) -> Result<Counts<ModulePart>, AllocError>
    requires { length contributions.now < 2 ^ 32 }
    // The bytes of the parts that pass a test are the bytes of their contributions.
    ensures each { IfOk result (HasContributions contributions.now) }
    // All of them together are the bytes of all contributions.
    ensures total { IfOk result (λ table. sum_of table ≡ sum_by (λ c. c.size) contributions.now) }
{
    let mut table = Counts::new(alloc);
    for contribution in contributions {
        add_contribution(&mut table, contribution)?;
    }
    Ok(table)
}

/// Adds the bytes of a contribution to the bytes of its module's part.
fn add_contribution(
    table: &mut Counts<ModulePart>,
    contribution: &DBISectionContribution,
) -> Result<(), AllocError>
    requires { sum_of table.old + 2 ^ 32 ≤ 2 ^ 64 }
    ensures each { OnOk result (AddsContribution contribution.now table.old table.new) }
    ensures total { OnOk result (sum_of table.new ≡ sum_of table.old + contribution.now.size) }
    ensures room { OnOk result (sum_of table.new < sum_of table.old + 2 ^ 32) }
{
    let bytes = u64::from(contribution.size);
    if bytes == 0 {
        return Ok(());
    }
    table.add(module_part(contribution), bytes)
}
