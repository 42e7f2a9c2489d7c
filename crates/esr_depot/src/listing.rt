//! Listings, and the pages in which a container gives them.
ghost use Rattle.std.specs.Prelude.{◌≡◌, ℕ, List, [], Option, map, option_copied, IfOk};
ghost use Rattle.std.specs.BTreeMap.{IsOrdered};
ghost use Rattle.std.specs.Cmp.Lexicographic.{slice_cmp};
ghost use Rattle.std.specs.Ordering.{nat_cmp};
ghost use Rattle.esr_depot.specs.Listing.{size_of, is_after, page_from, IsPage};

use esr_seq::{Seq, Text, TryClone};
use std::alloc::{AllocError, Global};
use std::collections::BTreeMap;

/// How many names a page has at most.
pub const PAGE: usize = 1000;

/// A blob that is listed, by its name and its length in bytes.
#[derive(Debug)]
pub struct Listed {
    pub name: Text,
    pub length: u64,
}

impl Drop for Listed {
    // Not derived: each crate above would prove a derived one again.
    fn drop(self) {
        let Listed {
            name: _name,
            length: _,
        } = self;
    }
}

/// Blobs of a container, in the byte order of their names.
pub type Listing = Seq<Listed>;

/// A page of a listing, twice: a caller that keeps the one and hands out the other wants no memory after the call.
#[derive(Debug, Drop)]
pub struct Pages {
    pub page: Listing,
    pub copy: Listing,
}

impl Pages {
    /// A page without a blob.
    pub fn new(alloc: Global) -> Pages
        ensures page { (after : Option (List ℕ)) → IsPage after (map size_of result.page) }
        ensures copy { result.copy ≡ result.page }
        ensures none { result.page ≡ [] }
    {
        Pages {
            page: Seq::new(alloc),
            copy: Seq::new(alloc),
        }
    }
}

impl TryClone for Listed {
    fn try_clone(&self, alloc: Global) -> Result<Listed, AllocError> {
        Ok(Listed {
            name: self.name.try_clone(alloc)?,
            length: self.length,
        })
    }
}

/// Whether a page after the first name may have the second one.
pub fn is_after(after: Option<&str>, name: &str) -> bool
    ensures { result ≡ is_after (option_copied after.entry) name.now }
{
    match after {
        None => true,
        Some(after) => after < name,
    }
}

/// Of these lengths by name the first 1,000 whose names come after this one, or of all.
fn first_after(
    alloc: Global,
    after: Option<&str>,
    lengths: BTreeMap<Text, u64>,
) -> Result<Listing, AllocError>
    ensures listing { IfOk result (λ l. map size_of l ≡ page_from (option_copied after.entry) lengths.entries) }
    ensures ordered { IsOrdered (slice_cmp nat_cmp) lengths }
{
    let mut page = Seq::new(alloc);
    for (name, length) in lengths {
        if page.len() < PAGE && is_after(after, name.as_str()) {
            page.push(Listed { name, length })?;
        }
    }
    Ok(page)
}

/// The page of these lengths by name that follows this name, or the first one.
pub fn page_of(
    alloc: Global,
    after: Option<&str>,
    lengths: BTreeMap<Text, u64>,
) -> Result<Pages, AllocError>
    ensures page { IfOk result (λ p. IsPage (option_copied after.entry) (map size_of p.page)) }
    ensures listing { IfOk result (λ p. map size_of p.page ≡ page_from (option_copied after.entry) lengths.entries) }
    ensures copy { IfOk result (λ p. p.copy ≡ p.page) }
{
    let page = first_after(alloc, after, lengths)?;
    let copy = page.try_clone(alloc)?;
    Ok(Pages { page, copy })
}
