//! The names of a container in memory with the lengths of their blobs.
ghost use Rattle.std.specs.Prelude.{◌≡◌, IfOk, map, option_copied};
ghost use Rattle.std.specs.FinMap.{empty};
ghost use Rattle.esr_depot.specs.Image.{sizes_of};
ghost use Rattle.esr_depot.specs.Listing.{size_of, page_from, IsPage};
ghost use Rattle.esr_memdepot.specs.Past.{held, is_there};

use crate::blob::KeptBlob;
use esr_depot::{Pages, page_of};
use esr_seq::{Text, TryClone};
use std::alloc::{AllocError, Global};
use std::collections::BTreeMap;

fn sizes(alloc: Global, blobs: &[KeptBlob]) -> Result<BTreeMap<Text, u64>, AllocError>
    ensures { IfOk result (λ m. m.entries ≡ sizes_of (held is_there blobs.now empty)) }
{
    let mut sizes = BTreeMap::new(alloc);
    for kept in blobs {
        if kept.gone.is_none() {
            let name = kept.name.try_clone(alloc)?;
            sizes.insert(name, kept.bytes.len() as u64)?;
        }
    }
    Ok(sizes)
}

/// A page of the blobs that are there now.
pub fn listing(alloc: Global, blobs: &[KeptBlob], after: Option<&str>) -> Result<Pages, AllocError>
    ensures page { IfOk result (λ p. IsPage (option_copied after.entry) (map size_of p.page)) }
    ensures copy { IfOk result (λ p. p.copy ≡ p.page) }
    ensures listing { IfOk result (λ p. map size_of p.page
        ≡ page_from (option_copied after.entry) (sizes_of (held is_there blobs.now empty))) }
{
    page_of(alloc, after, sizes(alloc, blobs)?)
}
