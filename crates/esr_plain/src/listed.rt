//! What the listed snapshots have of a shard.
ghost use Rattle.std.specs.Prelude.{◌↔◌, IfOk, IsTrue};
ghost use Rattle.esr_formats.specs.Roots.{root_of};
ghost use Rattle.esr_formats.specs.Shards.{shard_index_of};
ghost use Rattle.esr_model.specs.Image.{At};
ghost use Rattle.esr_plain.specs.Exactly.{Always};
ghost use Rattle.esr_plain.specs.Listed.{HasSnap, HaveSnaps};

use crate::Image;
use crate::reading::shard_snap_at;
use esr_agreement::is_listed;
use esr_names::{Id, ShardId};
use esr_root::RootData;
use esr_shardidx::ShardIndex;
use std::alloc::{AllocError, Global};

/// Whether what the snapshot has of the shard reads, where the root lists it.
fn has_snap(
    alloc: Global,
    image: &Image,
    root: &RootData,
    shard: ShardId,
    uuid: Id,
) -> Result<bool, AllocError>
    ensures { IfOk result (λ b. Always (λ f. IsTrue b ↔ HasSnap f (At f image.now) (root_of root.now) shard.index.number shard.number uuid.number)) }
{
    if !is_listed(root, uuid) {
        return Ok(true);
    }
    let Some(_snap) = shard_snap_at(alloc, image, shard, uuid)? else {
        return Ok(false);
    };
    Ok(true)
}

/// The same of each snapshot that the index of the shard lists.
pub fn have_snaps(
    alloc: Global,
    image: &Image,
    root: &RootData,
    shard: ShardId,
    held: &ShardIndex,
) -> Result<bool, AllocError>
    ensures { IfOk result (λ b. Always (λ f. IsTrue b ↔ HaveSnaps f (At f image.now) (root_of root.now) shard.index.number shard.number (shard_index_of held.now).snapshots)) }
{
    for list in held.snapshots() {
        if !has_snap(alloc, image, root, shard, list.uuid)? {
            return Ok(false);
        }
    }
    Ok(true)
}
