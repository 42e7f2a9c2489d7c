//! The job of a unit.
use esr_names::{Id, ShardId};
use esr_source::Gate;
use std::alloc::AllocError;

/// What a shard's unit is of: its ticket, the shard and the snapshot, the base on which it builds, the length of a part, and the
/// gate that is told of each write.
pub struct Job<'a, G: Gate> {
    pub ticket: u64,
    pub at: ShardId,
    pub uuid: Id,
    pub base: Option<Id>,
    pub part_size: u64,
    pub gate: &'a G,
}

impl<'a, G: Gate> Clone for Job<'a, G> {
    fn clone(&self) -> Result<Job<'a, G>, AllocError> {
        Ok(*self)
    }
}

impl<'a, G: Gate> Copy for Job<'a, G> {}
