//! The listed snapshots of a root.
ghost use Rattle.std.specs.Prelude.{◌≡◌, IfOk, map};
ghost use Rattle.esr_formats.specs.Refs.{ref_of_code};
ghost use Rattle.esr_formats.specs.Roots.{root_of, root_snap_of};
ghost use Rattle.esr_model.specs.Image.{AllPairs, At, ShardStands, SnapStands};
ghost use Rattle.esr_model.specs.Places.{shelf_places as in_order};
ghost use Rattle.esr_plain.specs.Exactly.{Always, IsExactly};

use crate::info::snap_info;
use crate::places::shelf_places;
use crate::shard::shelf_shard;
use crate::{Image, Shelf, ShelfShards, Shelved};
use esr_names::{Id, IndexRef};
use esr_root::{RootData, RootSnap};
use esr_seq::{Seq, Text};
use std::alloc::{AllocError, Global};

/// The shards of a snapshot in the order of the shelf: None where one doesn't stand.
fn shelf_shards(
    alloc: Global,
    image: &Image,
    root: &RootData,
    uuid: Id,
    indices: &[IndexRef],
) -> Result<Option<ShelfShards>, AllocError>
    ensures { IfOk result (λ o. Always (λ f. IsExactly (AllPairs (ShardStands f (At f image.now) (root_of root.now) uuid.number) (in_order (map ref_of_code indices.now))) o)) }
{
    let places = shelf_places(alloc, indices)?;
    let mut shards = Seq::new(alloc);
    for place in places.as_slice() {
        let Some(shard) = shelf_shard(alloc, image, root, uuid, place)? else {
            return Ok(None);
        };
        shards.push(shard)?;
    }
    Ok(Some(shards))
}

/// A listed snapshot: None where it doesn't stand.
fn shelved(
    alloc: Global,
    image: &Image,
    root: &RootData,
    snap: &RootSnap,
) -> Result<Option<Shelved>, AllocError>
    ensures { IfOk result (λ o. Always (λ f. IsExactly (SnapStands f (At f image.now) (root_of root.now) (root_snap_of snap.now)) o)) }
{
    let Some(info) = snap_info(alloc, image, root, snap)? else {
        return Ok(None);
    };
    let indices = info.indices.as_slice();
    let Some(shards) = shelf_shards(alloc, image, root, snap.uuid, indices)? else {
        return Ok(None);
    };
    let name = Text::from_str(alloc, snap.name.as_str())?;
    Ok(Some(Shelved {
        name,
        uuid: snap.uuid,
        shards,
    }))
}

/// The listed snapshots of a root: None where one doesn't stand.
pub fn shelf_of(alloc: Global, image: &Image, root: &RootData) -> Result<Option<Shelf>, AllocError>
    ensures { IfOk result (λ o. Always (λ f. IsExactly (AllPairs (SnapStands f (At f image.now) (root_of root.now)) (root_of root.now).snapshots) o)) }
{
    let mut shelf = Seq::new(alloc);
    for snap in root.snapshots.as_slice() {
        let Some(snap) = shelved(alloc, image, root, snap)? else {
            return Ok(None);
        };
        shelf.push(snap)?;
    }
    Ok(Some(shelf))
}
