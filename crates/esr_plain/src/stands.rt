//! The shelf for which a root stands.
ghost use Rattle.std.specs.Prelude.{◌≡◌, ℕ, IfOk, List};
ghost use Rattle.esr_formats.specs.Roots.{root_of};
ghost use Rattle.esr_model.specs.Shelf.{Shelved as SnapOnShelf};
ghost use Rattle.esr_model.specs.Image.{At, Blobs, Picked, RootStands, Stands};
ghost use Rattle.esr_plain.specs.Exactly.{Always, IsExactly};

use crate::indices::indices_stand;
use crate::reading::root_at;
use crate::snap::shelf_of;
use crate::{Image, Shelf};
use esr_root::RootData;
use esr_seq::Seq;
use std::alloc::{AllocError, Global};

/// The shelf of a root: None where what it reaches doesn't stand.
fn root_shelf(alloc: Global, image: &Image, root: &RootData) -> Result<Option<Shelf>, AllocError>
    ensures { IfOk result (λ o. Always (λ f. IsExactly (RootStands f (At f image.now) (root_of root.now)) o)) }
{
    if indices_stand(alloc, image, root)? {
        shelf_of(alloc, image, root)
    } else {
        Ok(None)
    }
}

/// The shelf for which the root of this generation stands: None where it stands for none, which is where it isn't there,
/// doesn't read, or something that it reaches is absent, damaged or disagrees. Want of memory is the only error.
pub fn whole(alloc: Global, image: &Image, n: u64) -> Result<Option<Shelf>, AllocError>
    ensures { IfOk result (λ o. Always (λ f. IsExactly (Stands f (At f image.now) n) o)) }
{
    match root_at(alloc, image, n)? {
        Some(root) => root_shelf(alloc, image, &root),
        None => Ok(None),
    }
}

/// The shelf of the last of so many roots, which is the safe one: with none it is empty.
pub fn picked(alloc: Global, image: &Image, count: u64) -> Result<Option<Shelf>, AllocError>
    ensures { IfOk result (λ o. Always (λ f. IsExactly (Picked f (At f image.now) count) o)) }
{
    if count == 0 {
        Ok(Some(Seq::new(alloc)))
    } else {
        whole(alloc, image, count - 1)
    }
}

/// A root stands for one shelf at most, so the shelf that `whole` answers is the only one.
pub fn shelf_is_one()
    ensures { Always (λ f. (blobs : Blobs) (n : ℕ) (a b : List SnapOnShelf) → Stands f (At f blobs) n a → Stands f (At f blobs) n b → a ≡ b) }
{}
