//! Why a call of the outside doesn't answer.
ghost use Rattle.std.specs.Prelude.{◌≡◌};
ghost use Rattle.esr_depot.specs.declared.error.CallError.TheVariants.{Memory, Failed as CallFailed};

use std::alloc::{AllocError, AllocFailed};
use thiserror::Error;

/// The object failed: its count of failures has risen.
#[derive(Clone, Copy, Debug, Drop, Error)]
#[error("the object failed")]
pub struct Failed;

/// Why a call that takes memory doesn't answer.
#[derive(Clone, Copy, Debug, Error)]
pub enum CallError {
    /// There was no memory. The object is as it was.
    #[error("out of memory")]
    Memory,
    /// The object failed: its count of failures has risen.
    #[error("the object failed")]
    Failed,
}

impl From<AllocError> for CallError {
    ghost from_gives = { λ _ e. e ≡ Memory };

    fn from(_: AllocError) -> Self {
        CallError::Memory
    }
}

impl<T: Drop> From<AllocFailed<T>> for CallError {
    ghost from_gives = { λ _ e. e ≡ Memory };

    fn from(_: AllocFailed<T>) -> Self {
        CallError::Memory
    }
}

impl From<Failed> for CallError {
    ghost from_gives = { λ _ e. e ≡ CallFailed };

    fn from(_: Failed) -> Self {
        CallError::Failed
    }
}
