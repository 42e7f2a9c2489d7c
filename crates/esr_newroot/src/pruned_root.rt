//! The root that a delete writes.
ghost use Rattle.std.specs.Prelude.{◌≡◌, ◌+◌, ◌<◌, ◌^◌, length, map, option_map, IfOk};
ghost use Rattle.esr_model.specs.Delete.{next_after, own_id, set_fresh, deleted_root};
ghost use Rattle.esr_formats.specs.Ids.{number_of};
ghost use Rattle.esr_formats.specs.Roots.{root_of};
ghost use Rattle.esr_results.specs.Pruned.{pruned_of, IsPlaced, ArePlaced};
ghost use Rattle.esr_root.specs.Indices.{AreIndices};

use esr_names::{Id, Ids};
use esr_results::{PrunedShard, PrunedShards};
use esr_root::RootData;
use esr_seq::TryClone;
use std::alloc::{AllocError, Global};

/// The indices of a root keep their rule.
fn indices_rule(root: &RootData)
    ensures { AreIndices root.now.indices }
{
    let _indices = root.indices.as_slice();
}

/// The root with another generation of a shard; where the root hasn't its index, the root as it is.
fn renewed_shard(
    alloc: Global,
    root: &RootData,
    shard: &PrunedShard,
    to: Option<Id>,
) -> Result<RootData, AllocError>
    requires { IsPlaced (root_of root.now) (pruned_of shard.now) }
    ensures { IfOk result (λ r. root_of r ≡ set_fresh shard.now.shard.index.number shard.now.shard.number (option_map number_of to) (root_of root.now)) }
{
    indices_rule(root);
    for index in root.indices.as_slice() {
        if index.id == shard.shard.index {
            return root.set_generation(alloc, &index.name, shard.shard.number, to);
        }
    }
    root.try_clone(alloc)
}

/// The id that a shard gets, where something is left of it.
fn own_id(next: Id, shard: &PrunedShard) -> Option<Id>
    ensures { option_map number_of result ≡ own_id next.number (pruned_of shard.now) }
{
    if shard.kept { Some(next) } else { None }
}

/// The id that the next shard gets.
fn next_after(next: Id, shard: &PrunedShard) -> Id
    requires { next.number + 1 < 2 ^ 128 }
    ensures { result.number ≡ next_after next.number (pruned_of shard.now) }
{
    Id {
        number: next.number + u128::from(shard.kept),
    }
}

/// The root without the snapshots of these uuids, and without the indices that have no other. Each of these shards gets the
/// next id as its generation, from the first one on, or none where nothing of it is left.
pub fn deleted(
    alloc: Global,
    root: &RootData,
    uuids: &Ids,
    shards: &PrunedShards,
    first: Id,
) -> Result<RootData, AllocError>
    requires placed { ArePlaced (root_of root.now) (map pruned_of shards.now) }
    requires room { first.number + length shards.now < 2 ^ 128 }
    ensures { IfOk result (λ r. root_of r ≡ deleted_root (root_of root.now) (map number_of uuids.now) (map pruned_of shards.now) first.number) }
{
    let mut new = root.without(alloc, uuids)?;
    let mut next = first;
    for shard in shards.as_slice() {
        new = renewed_shard(alloc, &new, shard, own_id(next, shard))?;
        next = next_after(next, shard);
    }
    Ok(new)
}
