//! Targets that restores have filled.

use crate::StepRefusal;
use esr_names::IndexName;
use esr_seq::Seq;

/// A target that was filled with the files of a shard: by the restore of this op, of this shard of the index of this name.
#[derive(Drop)]
pub struct RestoredTarget<T> {
    pub op: u64,
    pub index: IndexName,
    pub shard: u32,
    pub target: T,
}

/// The end of a shard that was restored by this ticket: with so many files of so many bytes, which the target has.
#[derive(Drop)]
pub struct RestoreEnd<T> {
    pub ticket: u64,
    pub files: u64,
    pub bytes: u64,
    pub target: RestoredTarget<T>,
}

/// A restored target whose end was refused.
#[derive(Drop)]
pub struct Unended<T> {
    pub refusal: StepRefusal,
    pub target: RestoredTarget<T>,
}

/// Targets in the order of the entries by which their shards were restored.
pub type RestoredTargets<T> = Seq<RestoredTarget<T>>;
