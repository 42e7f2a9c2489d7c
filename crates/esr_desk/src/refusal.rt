//! Why a step isn't made.
ghost use Rattle.std.specs.Prelude.{◌≡◌};
ghost use Rattle.esr_desk.specs.declared.refusal.StepRefusal.TheVariants.{Memory};

use esr_names::{BlobName, Id};
use std::alloc::{AllocError, AllocFailed};

/// A refusal that the history tells.
#[derive(Clone, Copy, Debug)]
pub enum EntryRefusal {
    /// This cleanup is open.
    CleanupRunning { op: u64 },
    /// A snapshot with this uuid is listed under the name, or is being made.
    NameInUse { uuid: Id },
    /// So many ops are open, which is the limit.
    TooMany { limit: u64 },
    /// The record swap at this place of the history failed, and all steps since are refused.
    Deposed { entry: u64 },
    /// This delete aborted the ticket's op.
    Aborted { by: u64 },
    /// The ticket's term is over.
    StaleTerm { own: u64, now: u64 },
    /// The last generation, 2^63 - 1, was given out.
    GenerationsSpent { number: i64 },
    /// The last term, 2^63 - 1, has come.
    TermsSpent { number: u64 },
    /// The term has too few ids left from this one on.
    IdsSpent { next: Id },
    /// A blob of this name is there.
    NameTaken { name: BlobName },
    /// The container failed.
    DepotFault,
    /// No snapshot is listed under the name at this place of the command, from 0 on.
    NoSnapshot { place: u64 },
    /// The snapshot has no index of the name at this place of the command, from 0 on.
    NoIndex { place: u64 },
    /// This open delete names the snapshot.
    BeingDeleted { op: u64 },
    /// This clone of the snapshot is open.
    CloneRunning { op: u64 },
    /// This restore of the snapshot is open.
    RestoreRunning { op: u64 },
    /// This op is open.
    BusyOp { op: u64 },
    /// This ticket is out.
    BusyTicket { ticket: u64 },
}

/// Why a step isn't made.
#[derive(Clone, Copy, Debug)]
pub enum StepRefusal {
    /// There was no memory: nothing happened.
    Memory,
    /// The desk has no turn left: nothing happened.
    TurnsSpent,
    /// The history has an entry that says so.
    Refused(EntryRefusal),
}

/// What a step answers, by default nothing, or why it isn't made.
pub type Attempt<X = ()> = Result<X, StepRefusal>;

impl From<AllocError> for StepRefusal {
    ghost from_gives = { λ _ e. e ≡ Memory };

    fn from(_: AllocError) -> Self {
        StepRefusal::Memory
    }
}

impl<T: Drop> From<AllocFailed<T>> for StepRefusal {
    ghost from_gives = { λ _ e. e ≡ Memory };

    fn from(_: AllocFailed<T>) -> Self {
        StepRefusal::Memory
    }
}
