//! What a shard's unit reports.
use esr_names::{Id, ShardId};
use esr_seq::Seq;

/// What a shard's unit reports: its new generation, how many files it has and the sum of their lengths in bytes.
#[derive(Clone, Copy, PartialEq, Eq)]
pub struct ShardResult {
    pub shard: ShardId,
    pub generation: Id,
    pub files: u64,
    pub bytes: u64,
}

/// Results in the order of an op's shards.
pub type ShardResults = Seq<ShardResult>;
