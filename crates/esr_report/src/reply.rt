//! What a line of a script was answered.
use esr_desk::{EntryRefusal, Why};
use esr_names::Id;
use esr_root::RootSnaps;
use esr_seq::Seq;

/// What a line of a script was answered.
#[derive(Drop)]
pub enum Reply {
    /// The snapshot of this uuid is in the root.
    Made { uuid: Id },
    /// This op took snapshots out of the root.
    Deleted { op: u64 },
    /// So many files are restored, of so many bytes; a sum stops at 2^64 - 1.
    Restored { files: u64, bytes: u64 },
    /// So many blobs are removed, of so many bytes.
    Cleaned { blobs: u64, bytes: u64 },
    /// A failover began this term.
    Term { term: u64 },
    /// The units that were open have ended.
    Waited,
    /// The snapshots of the safe root.
    Listed { snapshots: RootSnaps },
    /// A check has read all: so many snapshots and blobs.
    Checked { snapshots: u64, blobs: u64 },
    /// The container was verified.
    Verified,
    /// A rule refused the command.
    Refused { refusal: EntryRefusal },
    /// A unit of the command failed, or the container did as it was asked; with the op of an accepted delete, of no
    /// other command.
    Failed { why: Why, op: Option<u64> },
    /// This delete aborted the command.
    Aborted { by: u64 },
    /// A record swap had failed.
    Deposed,
}

/// The replies of lines in order.
pub type Replies = Seq<Reply>;
