//! Why a text wasn't read.
use crate::Key;
use std::alloc::{AllocError, AllocFailed};

/// Why a text isn't one of its kind.
#[derive(Clone, Copy, Debug)]
pub enum Reason {
    /// No JSON text.
    Json,
    /// A member is absent.
    Missing { key: Key },
    /// A member is of another kind.
    WrongKind { key: Key },
    /// A whole number breaks the bound `limit`.
    OutOfRange { key: Key, limit: i128 },
    /// A text breaks a rule of names.
    BadName,
    /// A text isn't that of an id or of a digest.
    BadId,
    /// What stands here stood before.
    Duplicate,
    /// What is named here isn't listed.
    Unlisted,
}

/// Why a text wasn't read.
#[derive(Clone, Copy, Debug)]
pub enum ReadRefusal {
    /// Memory ran out.
    Memory,
    /// The text isn't one of its kind.
    Damaged { why: Reason },
}

impl From<AllocError> for ReadRefusal {
    ghost use Rattle.std.specs.Prelude.{◌≡◌};
    ghost use Rattle.esr_json.specs.declared.refusal.ReadRefusal.TheVariants.{Memory};

    ghost from_gives = { λ _ e. e ≡ Memory };

    fn from(_: AllocError) -> ReadRefusal {
        ReadRefusal::Memory
    }
}

impl<T: Drop> From<AllocFailed<T>> for ReadRefusal {
    ghost use Rattle.std.specs.Prelude.{◌≡◌};
    ghost use Rattle.esr_json.specs.declared.refusal.ReadRefusal.TheVariants.{Memory};

    ghost from_gives = { λ _ e. e ≡ Memory };

    fn from(_: AllocFailed<T>) -> ReadRefusal {
        ReadRefusal::Memory
    }
}

impl From<Reason> for ReadRefusal {
    ghost use Rattle.std.specs.Prelude.{◌≡◌};
    ghost use Rattle.esr_json.specs.declared.refusal.ReadRefusal.TheVariants.{Damaged};

    ghost from_gives = { λ r e. e ≡ Damaged r };

    fn from(reason: Reason) -> ReadRefusal {
        ReadRefusal::Damaged { why: reason }
    }
}
