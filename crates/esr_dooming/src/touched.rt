//! The shards that a delete or cleanup is to read.
ghost use Rattle.std.specs.Prelude.{map, flat_map, option_map, IfOk};
ghost use Rattle.std.specs.Ordering.{nat_cmp};
ghost use Rattle.std.specs.BTreeSet.{contains};
ghost use Rattle.esr_formats.specs.Ids.{number_of};
ghost use Rattle.esr_formats.specs.Roots.{root_of, root_index_of};
ghost use Rattle.esr_core.specs.Pruning.{AreOfRoot};
ghost use Rattle.esr_results.specs.Pruned.{pruned_of};
ghost use Rattle.esr_dooming.specs.Pieces.{Added, of_places, read_place, read_index};
ghost use Rattle.esr_dooming.specs.Reading.{AreToRead, HasToRead, AreFew};

use crate::gone::push_gone;
use crate::prune::is_touched;
use crate::sets::id_set;
use esr_names::{Id, Ids, ShardId};
use esr_results::PrunedShards;
use esr_root::{RootData, RootIndex};
use esr_seq::Seq;
use std::alloc::{AllocError, Global};
use std::collections::BTreeSet;

/// Appends a shard, where it has a generation.
fn push_place(shards: &mut PrunedShards, shard: ShardId, base: Option<Id>) -> Result<(), AllocError>
    ensures { IfOk result (λ _. Added shards.old shards.new (read_place shard.index.number shard.number (option_map number_of base))) }
{
    match base {
        Some(base) => push_gone(shards, shard, base, false),
        None => Ok(()),
    }
}

/// The same of all shards of an index.
fn push_places(shards: &mut PrunedShards, index: &RootIndex) -> Result<(), AllocError>
    ensures { IfOk result (λ _. Added shards.old shards.new (of_places (read_place index.now.id.number) 0 (root_index_of index.now).generations)) }
{
    for (number, base) in index.generations.as_slice().iter().enumerate() {
        let shard = ShardId {
            index: index.id,
            number: number as u32,
        };
        push_place(shards, shard, *base)?;
    }
    Ok(())
}

/// Appends the shards of an index, where it is to be read.
fn push_index(
    shards: &mut PrunedShards,
    clean: bool,
    named: &BTreeSet<u128>,
    index: &RootIndex,
) -> Result<(), AllocError>
    ensures { IfOk result (λ _. Added shards.old shards.new (read_index clean (contains nat_cmp named.now) (root_index_of index.now))) }
{
    if is_touched(clean, named, index) {
        push_places(shards, index)
    } else {
        Ok(())
    }
}

/// Appends the shards of all indices that are to be read.
fn push_indices(
    shards: &mut PrunedShards,
    clean: bool,
    named: &BTreeSet<u128>,
    indices: &[RootIndex],
) -> Result<(), AllocError>
    ensures { IfOk result (λ _. Added shards.old shards.new (flat_map (read_index clean (contains nat_cmp named.now)) (map root_index_of indices.now))) }
{
    for index in indices {
        push_index(shards, clean, named, index)?;
    }
    Ok(())
}

/// The shards that a delete of these uuids, or a cleanup, is to read, in the order of the root: those with a generation; of a
/// delete, of the indices that have such a snapshot. Want of memory is the only error.
pub fn to_read(
    alloc: Global,
    clean: bool,
    root: &RootData,
    uuids: &Ids,
) -> Result<PrunedShards, AllocError>
    ensures each { IfOk result (λ shards. AreToRead clean (root_of root.now) (map number_of uuids.now) (map pruned_of shards)) }
    ensures all { IfOk result (λ shards. HasToRead clean (root_of root.now) (map number_of uuids.now) (map pruned_of shards)) }
    ensures of_root { IfOk result (λ shards. AreOfRoot (root_of root.now) (map pruned_of shards)) }
    ensures few { IfOk result (λ shards. AreFew (map pruned_of shards)) }
{
    let ids = uuids.as_slice();
    let named = id_set(alloc, ids)?;
    let indices = root.indices.as_slice();
    let mut shards = Seq::new(alloc);
    push_indices(&mut shards, clean, &named, indices)?;
    Ok(shards)
}
