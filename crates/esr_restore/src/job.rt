//! What is restored.
use esr_names::{Id, ShardId};

/// What a unit is of: its ticket, and the shard and the snapshot.
#[derive(Clone, Copy)]
pub struct Job {
    pub ticket: u64,
    pub at: ShardId,
    pub uuid: Id,
}
