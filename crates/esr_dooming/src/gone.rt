//! The shards whose generation a new root hasn't.
ghost use Rattle.std.specs.Prelude.{◌≡◌, [], ◌∷◌, IfOk, map, flat_map, option_map};
ghost use Rattle.esr_model.specs.Image.{index_at, at_shard_of};
ghost use Rattle.esr_model.specs.Delete.{gone_by, gone_shards};
ghost use Rattle.esr_formats.specs.Ids.{number_of};
ghost use Rattle.esr_formats.specs.Roots.{root_of, root_index_of};
ghost use Rattle.esr_results.specs.Pruned.{pruned_of};
ghost use Rattle.esr_dooming.specs.Pieces.{Added, one_shard, gone_place, gone_index};
ghost use Rattle.esr_dooming.specs.Reading.{AreFew};

use esr_names::{Id, ShardId};
use esr_results::{PrunedShard, PrunedShards};
use esr_root::{RootData, RootIndex};
use esr_seq::Seq;
use std::alloc::{AllocError, Global};

/// The generation of a shard: none also where no index has the id.
fn generation_of(indices: &[RootIndex], shard: ShardId) -> Option<Id>
    ensures { option_map number_of result ≡ at_shard_of (index_at (map root_index_of indices.now) shard.index.number) shard.number }
{
    for index in indices {
        if index.id == shard.index {
            return index.generations.get(shard.number);
        }
    }
    None
}

/// Appends a shard.
pub(crate) fn push_gone(
    gone: &mut PrunedShards,
    shard: ShardId,
    base: Id,
    kept: bool,
) -> Result<(), AllocError>
    ensures { IfOk result (λ _. Added gone.old gone.new (one_shard shard.index.number shard.number base.number kept ∷ [])) }
{
    gone.push(PrunedShard { shard, base, kept })?;
    Ok(())
}

/// Appends a shard with a generation, unless that is its generation now.
fn push_changed(
    gone: &mut PrunedShards,
    shard: ShardId,
    base: Id,
    now: Option<Id>,
) -> Result<(), AllocError>
    ensures { IfOk result (λ _. Added gone.old gone.new (gone_by base.number (option_map number_of now) shard.index.number shard.number [])) }
{
    match now {
        Some(now) => {
            if now == base {
                Ok(())
            } else {
                push_gone(gone, shard, base, true)
            }
        }
        None => push_gone(gone, shard, base, false),
    }
}

/// The same by the new root's indices, where the shard has a generation.
fn push_place(
    gone: &mut PrunedShards,
    new: &[RootIndex],
    shard: ShardId,
    base: Option<Id>,
) -> Result<(), AllocError>
    ensures { IfOk result (λ _. Added gone.old gone.new (gone_place (map root_index_of new.now) shard.index.number shard.number (option_map number_of base))) }
{
    match base {
        Some(base) => push_changed(gone, shard, base, generation_of(new, shard)),
        None => Ok(()),
    }
}

/// The same of all shards of an index.
fn push_places(
    gone: &mut PrunedShards,
    new: &[RootIndex],
    index: &RootIndex,
) -> Result<(), AllocError>
    ensures { IfOk result (λ _. Added gone.old gone.new (gone_index (map root_index_of new.now) (root_index_of index.now))) }
{
    for (number, base) in index.generations.as_slice().iter().enumerate() {
        let shard = ShardId {
            index: index.id,
            number: number as u32,
        };
        push_place(gone, new, shard, *base)?;
    }
    Ok(())
}

/// The same of all indices.
fn push_indices(
    gone: &mut PrunedShards,
    new: &[RootIndex],
    indices: &[RootIndex],
) -> Result<(), AllocError>
    ensures { IfOk result (λ _. Added gone.old gone.new (flat_map (gone_index (map root_index_of new.now)) (map root_index_of indices.now))) }
{
    for index in indices {
        push_places(gone, new, index)?;
    }
    Ok(())
}

/// The shards of a root whose generation the next one hasn't, in the order of the root. Want of memory is the only error.
pub(crate) fn gone(
    alloc: Global,
    root: &RootData,
    next: &RootData,
) -> Result<PrunedShards, AllocError>
    ensures exact { IfOk result (λ gone. map pruned_of gone ≡ gone_shards (root_of next.now) (root_of root.now).indices) }
    ensures few { IfOk result (λ gone. AreFew (map pruned_of gone)) }
{
    let after = next.indices.as_slice();
    let before = root.indices.as_slice();
    let mut gone = Seq::new(alloc);
    push_indices(&mut gone, after, before)?;
    Ok(gone)
}
