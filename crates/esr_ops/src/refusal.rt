//! Why a command is not accepted.
use esr_names::Id;
use std::alloc::{AllocError, AllocFailed};

/// Why a command is not accepted: the first rule that it breaks. The list of ops is as it was.
#[derive(Clone, Copy)]
pub enum Refusal {
    Memory,
    /// This cleanup is open.
    CleanupRunning { op: u64 },
    /// A snapshot with this uuid is listed under the name, or is being made.
    NameInUse { uuid: Id },
    /// So many ops are open, which is the limit.
    TooMany { limit: u64 },
    /// The term has too few ids left from this one on.
    IdsSpent { next: Id },
    /// No snapshot has the name at this place of the command: for a restore none is listed, for a delete none is made either.
    NoSnapshot { place: u64 },
    /// The snapshot has no index of the name at this place of the command.
    NoIndex { place: u64 },
    /// This open delete names the snapshot.
    BeingDeleted { op: u64 },
    /// This open clone copies one of the snapshots.
    CloneRunning { op: u64 },
    /// This open restore reads one of the snapshots.
    RestoreRunning { op: u64 },
    /// This op is open, no lower one, and a cleanup waits for none.
    BusyOp { op: u64 },
    /// This ticket is out, no lower one, and a cleanup waits for none.
    BusyTicket { ticket: u64 },
}

impl From<AllocError> for Refusal {
    ghost use Rattle.std.specs.Prelude.{◌≡◌};
    ghost use Rattle.esr_ops.specs.declared.refusal.Refusal.TheVariants.{Memory};

    ghost from_gives = { λ _ r. r ≡ Memory };

    fn from(_: AllocError) -> Refusal {
        Refusal::Memory
    }
}

impl<T: Drop> From<AllocFailed<T>> for Refusal {
    ghost use Rattle.std.specs.Prelude.{◌≡◌};
    ghost use Rattle.esr_ops.specs.declared.refusal.Refusal.TheVariants.{Memory};

    ghost from_gives = { λ _ r. r ≡ Memory };

    fn from(_: AllocFailed<T>) -> Refusal {
        Refusal::Memory
    }
}
