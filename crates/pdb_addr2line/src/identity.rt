//! The identity of a database, which says to which image it belongs.

ghost use Rattle.std.specs.Prelude.{◌≡◌, None, Ok, IfErr, IfOk};
ghost use Rattle.pdb_addr2line.specs.Identity.{FailsIdentity, HasIdentity, identity_in};
ghost use Rattle.pdb_loading.specs.LoadFaults.{FailsLoading};
ghost use Rattle.pdb_symbols_modules.specs.Streams.{streams};

use pdb_file_views::FileSource;
use pdb_image::PdbIdentity;
use pdb_loading::LoadFault;
use pdb_symbols_modules::PDB;
use std::alloc::Global;

/// The identity of a database that is open.
#[tactic(auto, unfolding(crate::specs::Identity::identity_in))]
fn identity_of(alloc: Global, pdb: &mut PDB<'static, FileSource>) -> Result<PdbIdentity, LoadFault>
    requires { (streams pdb.old).open_fault ≡ None }
    ensures identity { IfOk result (λ i. identity_in (streams pdb.old) ≡ Ok i) }
    ensures refused { IfErr result (λ e. FailsLoading e (identity_in (streams pdb.old))) }
{
    let information = pdb.pdb_information(alloc)?;
    let age = pdb.debug_information(alloc)?.age();
    Ok(PdbIdentity::of_pdb(information.guid, information.age, age))
}

/// The identity of the database that a source holds.
///
/// # Errors
/// The errors of the source's container, of the information stream (1), and of stream 3;
/// `OutOfMemory`.
#[tactic(auto, unfolding(crate::specs::Identity::identity_in))]
pub(crate) fn identity_of_source(
    alloc: Global,
    source: FileSource,
) -> Result<PdbIdentity, LoadFault>
    ensures identity { IfOk result (HasIdentity source) }
    ensures refused { IfErr result (FailsIdentity source) }
{
    let mut pdb = PDB::open(alloc, source)?;
    identity_of(alloc, &mut pdb)
}
