//! Why a container isn't opened.

use esr_depot::CallError;
use esr_json::Reason;
use esr_names::{BlobName, Id};
use esr_seq::Text;
use std::alloc::{AllocError, AllocFailed};

/// What is wrong with a blob, or with the cluster record.
#[derive(Clone, Copy, Debug)]
pub enum Why {
    /// There is no cluster record, but this blob: the first in byte order of names.
    NoRecord,
    /// It isn't there.
    Absent,
    /// It doesn't read, for this reason.
    Unreadable { reason: Reason },
    /// The info of a snapshot says something else than the root.
    Disagrees { with: BlobName },
    /// The root has an id of a term that has not come.
    ForeignId { id: Id },
}

/// Why a container isn't opened. It is as it was, unless the swap of the record failed.
#[derive(Drop)]
pub enum OpenRefusal<F> {
    Memory,
    /// A call of the container failed, or a read of the fetch that is given.
    DepotFault { fetch: Option<F> },
    /// What an earlier run left, or somebody else, can't be opened: a blob of this name, or `record`.
    Damaged { name: Text, why: Why },
    /// The last term, 2^63 - 1, has come.
    TermsSpent { term: u64 },
}

impl<F> From<CallError> for OpenRefusal<F> {
    ghost use Rattle.std.specs.Prelude.{◌≡◌};
    ghost use Rattle.esr_opening.specs.Refusals.{call_refusal};

    ghost from_gives = { λ e r. r ≡ call_refusal e };

    fn from(error: CallError) -> Self {
        match error {
            CallError::Memory => OpenRefusal::Memory,
            CallError::Failed => OpenRefusal::DepotFault { fetch: None },
        }
    }
}

impl<F> From<AllocError> for OpenRefusal<F> {
    ghost use Rattle.std.specs.Prelude.{◌≡◌};
    ghost use Rattle.esr_opening.specs.declared.refusal.OpenRefusal.TheVariants.{Memory};

    ghost from_gives = { λ _ r. r ≡ Memory };

    fn from(_: AllocError) -> Self {
        OpenRefusal::Memory
    }
}

impl<T: Drop, F> From<AllocFailed<T>> for OpenRefusal<F> {
    ghost use Rattle.std.specs.Prelude.{◌≡◌};
    ghost use Rattle.esr_opening.specs.declared.refusal.OpenRefusal.TheVariants.{Memory};

    ghost from_gives = { λ _ r. r ≡ Memory };

    fn from(_: AllocFailed<T>) -> Self {
        OpenRefusal::Memory
    }
}
