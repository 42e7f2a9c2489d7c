//! The shards whose generations go with a delete.
use esr_names::{Id, ShardId};
use esr_seq::Seq;

/// A shard whose generation goes: it gets an index of what is left of it, or nothing is left.
#[derive(Clone, Copy)]
pub struct PrunedShard {
    pub shard: ShardId,
    /// Its generation so far.
    pub base: Id,
    /// Something is left of it.
    pub kept: bool,
}

/// Such shards, in the order in which they draw their ids.
pub type PrunedShards = Seq<PrunedShard>;
