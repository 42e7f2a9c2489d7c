//! Units of work, and what they report.
ghost use Rattle.std.specs.Prelude.{◌≡◌};
ghost use Rattle.esr_ops.specs.Plan.{kind_of_code};
ghost use Rattle.esr_ops.specs.Seats.{is_master, is_of_shard, is_drop};

use esr_meta::SnapInfo;
use esr_names::{Id, Ids, IndexName, ShardId};
use esr_results::ShardResults;
use esr_root::RootData;
use esr_seq::Text;

/// What a unit is to do.
#[derive(Drop)]
pub enum Work {
    /// Stores the files of a shard for the snapshot `uuid`.
    Shard {
        uuid: Id,
        shard: ShardId,
        index: IndexName,
        place: Text,
    },
    /// Writes the metadata of a snapshot whose shards are done, and swaps the root.
    Finalize {
        info: SnapInfo,
        shards: ShardResults,
    },
    /// Takes away an op that failed.
    Drop,
    /// Restores the files of a shard of the snapshot `uuid`.
    RestoreShard {
        uuid: Id,
        shard: ShardId,
        index: IndexName,
        place: Text,
    },
    /// Lists the files that the snapshot `source` has of a shard for the snapshot `uuid`.
    CloneShard {
        source: Id,
        uuid: Id,
        shard: ShardId,
        index: IndexName,
    },
    /// Takes these snapshots out of the root.
    Delete {
        uuids: Ids,
    },
    /// Removes what the root doesn't reach.
    Cleanup,
}

/// What a unit may rely on, copied as it was given: the safe root with its generation (-1: none), and the largest live
/// generation of its shard.
#[derive(Drop)]
pub struct Copied {
    pub safe: i64,
    pub root: RootData,
    pub base: Option<Id>,
}

/// A unit that is ready, with the ticket that it is given.
pub struct ReadyUnit {
    pub ticket: u64,
    pub op: u64,
    pub work: Work,
    pub copy: Copied,
}

impl ReadyUnit {
    /// What it is to do.
    pub fn into_work(self) -> Work
        ensures { result ≡ self.work }
    {
        let ReadyUnit {
            ticket: _,
            op: _,
            work,
            copy: _copy,
        } = self;
        work
    }
}

impl Drop for ReadyUnit {
    // Not derived: an early exit that owns a unit then has one call, and not the drop of each variant of the work.
    fn drop(self) {
        let ReadyUnit {
            ticket: _,
            op: _,
            work: _work,
            copy: _copy,
        } = self;
    }
}

/// The kind of a ticket's unit.
#[derive(Clone, Copy)]
pub enum SeatKind {
    Shard { shard: ShardId },
    Finalize,
    Delete,
    Drop,
}

/// What is kept of a ticket while it is out: its unit, whether it is a cleanup, its op, the term in which it was given, the
/// generation that it raised, and whether it has settled. A cleanup has the kind of a delete.
#[derive(Clone, Copy)]
pub struct Seat {
    pub kind: SeatKind,
    pub clean: bool,
    pub op: u64,
    pub term: u64,
    pub raised: Option<u64>,
    pub settled: bool,
}

/// What is kept of a restore's ticket while it is out: its op and its shard. It belongs to no term.
#[derive(Clone, Copy)]
pub struct ReaderSeat {
    pub op: u64,
    pub shard: ShardId,
}

impl SeatKind {
    pub(crate) fn is_of_shard(&self) -> bool
        ensures { result ≡ is_of_shard (kind_of_code self.now) }
    {
        matches!(self, SeatKind::Shard { .. })
    }

    pub(crate) fn is_drop(&self) -> bool
        ensures { result ≡ is_drop (kind_of_code self.now) }
    {
        matches!(self, SeatKind::Drop)
    }

    /// Whether the unit swaps the root.
    pub(crate) fn is_master(&self) -> bool
        ensures { result ≡ is_master (kind_of_code self.now) }
    {
        matches!(self, SeatKind::Finalize | SeatKind::Delete)
    }
}
