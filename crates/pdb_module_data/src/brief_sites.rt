//! The stored inline sites, once their rows were read.

ghost use Rattle.std.specs.Prelude.{◌≡◌, IfOk, map};
ghost use Rattle.pdb_module_data.specs.BriefSites.{brief_of};

use crate::inline_sites::Site;
use pdb_container::IdIndex;
use std::alloc::{AllocError, Global};

/// A stored inline site: the id of its function, and the site that it lies in. All other fields
/// stand in the symbols.
#[derive(Clone, Copy, Debug)]
pub struct BriefSite {
    /// The id of the inlined function.
    pub inlinee: IdIndex,
    /// The number of the site that it lies in, counted from 0 in the order of the file; `None`
    /// directly in the procedure.
    pub parent: Option<u32>,
    /// The depth: 1 directly in the procedure.
    pub depth: u32,
}

/// A number in 32 bits. No list of symbols, which has fewer than 2^32 bytes, has so many sites or
/// rows that their numbers don't fit; such a list would be refused as if memory were too short for
/// it.
pub fn short_number(number: usize) -> Result<u32, AllocError>
    ensures { IfOk result (λ short. short ≡ number) }
{
    match u32::try_from(number) {
        Ok(short) => Ok(short),
        Err(_) => Err(AllocError),
    }
}

/// The number of a site, if there is one, in 32 bits.
fn short_parent(parent: Option<usize>) -> Result<Option<u32>, AllocError>
    ensures { IfOk result (λ short. short ≡ parent) }
{
    match parent {
        None => Ok(None),
        Some(number) => {
            let short = short_number(number)?;
            Ok(Some(short))
        }
    }
}

/// The stored site.
fn brief(site: &Site<'_>) -> Result<BriefSite, AllocError>
    ensures { IfOk result (λ b. b ≡ brief_of site.now) }
{
    let parent = short_parent(site.parent)?;
    let depth = short_number(site.depth)?;
    Ok(BriefSite {
        inlinee: site.call.inlinee,
        parent,
        depth,
    })
}

/// The stored sites.
pub fn briefs_of(alloc: Global, sites: &[Site<'_>]) -> Result<Vec<BriefSite>, AllocError>
    ensures { IfOk result (λ v. v.items ≡ map brief_of sites.now) }
{
    let mut briefs = Vec::with_capacity(alloc, sites.len())?;
    for site in sites {
        let stored = brief(site)?;
        briefs.push(stored)?;
    }
    Ok(briefs)
}
