//! Laws of the definitions: functions that do nothing, whose contracts are proved.

ghost use Rattle.std.specs.Prelude.{List, IfOk};
ghost use Rattle.pdb_addresses.specs.declared.sections.ImageSectionHeader.{
  ImageSectionHeader as Section,
};
ghost use Rattle.pdb_container.specs.Listing.{Listing};
ghost use Rattle.pdb_contributions.specs.Publics.{PublicFunction, publics_among};
ghost use Rattle.pdb_contributions.specs.Publics.{Rises, StandNamed};
ghost use Rattle.pdb_contributions.specs.UnmergedContributions.{unmerged_by, HoldByFirst};
ghost use Rattle.pdb_symbols_modules.specs.declared.contributions.DBISectionContribution.{
  DBISectionContribution as Entry,
};

/// Places ascend strictly in the public list of entries, so that each is there at most once. An
/// entry stands at the place of each given one, and it has a name if the given one has.
pub fn one_a_place()
    ensures rising { (given : List PublicFunction) → Rises (publics_among given) }
    ensures named { (given : List PublicFunction) → StandNamed given (publics_among given) }
{}

/// The holder of a place is, where entries stand as they are, in the order of the file, the
/// contribution of the first of them that counts and holds the place.
pub fn first_entry_holds()
    ensures { (sections : List Section) (entries : Listing Entry)
        → IfOk (unmerged_by sections entries) (HoldByFirst sections entries) }
{}
