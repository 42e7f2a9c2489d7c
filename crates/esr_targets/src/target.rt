//! A shard that was restored.
use esr_names::IndexName;
use esr_seq::Seq;

/// A shard that a line of the script restored, by the number of the line, with the target that has its files.
#[derive(Drop)]
pub struct Restored<T> {
    pub line: u32,
    pub index: IndexName,
    pub shard: u32,
    pub target: T,
}

/// Restored shards, by line, the index's name in byte order, and shard.
pub type TargetList<T> = Seq<Restored<T>>;
