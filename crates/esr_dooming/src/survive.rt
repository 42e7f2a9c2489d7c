//! What a delete leaves of a shard.
ghost use Rattle.std.specs.Prelude.{◌≡◌, IfOk, map};
ghost use Rattle.esr_formats.specs.Ids.{number_of};
ghost use Rattle.esr_formats.specs.Shards.{shard_index_of};
ghost use Rattle.esr_model.specs.Delete.{surviving};

use esr_names::Ids;
use esr_shardidx::ShardIndex;
use std::alloc::{AllocError, Global};

/// The index of a shard with the snapshots of these uuids alone, and the files that some of them has. Want of memory is the
/// only error.
pub fn left(alloc: Global, index: &ShardIndex, uuids: &Ids) -> Result<ShardIndex, AllocError>
    ensures { IfOk result (λ i. shard_index_of i ≡ surviving (map number_of uuids.now) (shard_index_of index.now)) }
{
    index.survivors(alloc, uuids)
}
