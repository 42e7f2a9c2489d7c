//! What a take and a look answer.
ghost use Rattle.std.specs.Prelude.{◌≡◌};
ghost use Rattle.esr_desk.specs.declared.unit.UnitRefusal.TheVariants.{Stopped};

use crate::{StepRefusal, Why};
use esr_names::{Id, Ids, IndexRefs};
use esr_ops::ReadyUnit;
use esr_results::PrunedShards;
use esr_root::{RootData, RootSnaps};

/// A unit that was taken. A finalization has the root that it is to write, too.
#[derive(Drop)]
pub struct Unit {
    pub ready: ReadyUnit,
    pub new_root: Option<RootData>,
}

/// The snapshots of the safe root, and its generation (-1: none).
#[derive(Drop)]
pub struct Look {
    pub listing: RootSnaps,
    pub safe: i64,
}

/// A restore was accepted as this op: of the snapshot `uuid`, which has these indices.
#[derive(Drop)]
pub struct AcceptedRestore {
    pub op: u64,
    pub uuid: Id,
    pub indices: IndexRefs,
}

/// What a delete or cleanup is planned by: the root of its ticket, the uuids that it names, which are none for a cleanup, and its
/// shards, each with what is left of it.
#[derive(Clone, Copy)]
pub struct Basis<'a> {
    pub root: &'a RootData,
    pub uuids: &'a Ids,
    pub shards: &'a PrunedShards,
}

/// What a delete or cleanup writes: the root, and the first id of its shard indices.
#[derive(Drop)]
pub struct Planned {
    pub first: Id,
    pub root: RootData,
}

/// Why a unit didn't do its work.
#[derive(Clone, Copy, Debug)]
pub enum UnitRefusal {
    /// A step was refused so, and the ticket is still out.
    Stopped(StepRefusal),
    /// The ticket has ended as failed.
    Failed(Why),
    /// The ticket has ended, since its term is over; the unit is ready again.
    Stale,
}

impl From<StepRefusal> for UnitRefusal {
    ghost from_gives = { λ r e. e ≡ Stopped r };

    fn from(refusal: StepRefusal) -> Self {
        UnitRefusal::Stopped(refusal)
    }
}
