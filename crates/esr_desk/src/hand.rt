//! For whom a step is made.

/// For whom a blob is fetched, or a failure is told: each asks for something else, and shows a failure otherwise.
#[derive(Clone, Copy)]
pub enum Hand {
    /// A unit of a snapshot or a clone: a shard, a finalization, or the drop of an op that failed.
    Unit,
    /// A delete or cleanup.
    Delete,
    /// A shard of a restore.
    Restore,
    /// Who 0, who checks the repository.
    Check,
    /// Who 0, who verifies the container.
    Verify,
}

/// Who makes a step: the ticket of this number, or who 0, for this hand.
#[derive(Clone, Copy)]
pub struct Who {
    pub hand: Hand,
    pub number: u64,
}
