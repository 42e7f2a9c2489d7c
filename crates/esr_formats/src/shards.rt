//! The files of a shard.
ghost use Rattle.std.specs.Prelude.{◌≡◌, IfOk};
ghost use Rattle.esr_shardidx.specs.Snapshots.{shard_snap_from};
ghost use Rattle.esr_shardidx.specs.Indices.{shard_index_from};
ghost use Rattle.esr_json.specs.Steps.{Gives};
ghost use Rattle.esr_model.specs.Values.{ReadsBack};
ghost use Rattle.esr_formats.specs.Kinds.{IsRead};
ghost use Rattle.esr_formats.specs.Shards.{shard_snap_of, shard_snap_kind, shard_index_of, shard_index_kind};

use esr_json::ReadRefusal;
use esr_seq::Bytes;
use esr_shardidx::{
    ShardIndex, ShardSnap, shard_index_read, shard_index_text, shard_snap_read, shard_snap_text,
};
use std::alloc::{AllocError, Global};

/// The text of what a snapshot has of a shard, which reads as it.
pub fn write_shard_snap(alloc: Global, snap: &ShardSnap) -> Result<Bytes, AllocError>
    ensures text { IfOk result (λ b. b ≡ shard_snap_kind.text (shard_snap_of snap.now)) }
    ensures reads { ReadsBack shard_snap_kind (shard_snap_of snap.now) }
{
    let _files = snap.files();
    shard_snap_text(alloc, snap)
}

/// What a snapshot has of a shard by its text, else the first reason why the bytes are none.
pub fn read_shard_snap(alloc: Global, bytes: &[u8]) -> Result<ShardSnap, ReadRefusal>
    ensures read { IsRead shard_snap_kind shard_snap_of bytes.now result }
    ensures reason { Gives (λ s. s) result (shard_snap_from bytes.now) }
{
    shard_snap_read(alloc, bytes)
}

/// The text of a shard's index, which reads as it.
pub fn write_shard_index(alloc: Global, index: &ShardIndex) -> Result<Bytes, AllocError>
    ensures text { IfOk result (λ b. b ≡ shard_index_kind.text (shard_index_of index.now)) }
    ensures reads { ReadsBack shard_index_kind (shard_index_of index.now) }
{
    let _files = index.files();
    shard_index_text(alloc, index)
}

/// The index of a shard by its text, else the first reason why the bytes are none.
pub fn read_shard_index(alloc: Global, bytes: &[u8]) -> Result<ShardIndex, ReadRefusal>
    ensures read { IsRead shard_index_kind shard_index_of bytes.now result }
    ensures reason { Gives (λ i. i) result (shard_index_from bytes.now) }
{
    shard_index_read(alloc, bytes)
}
