//! What ends a unit before its time.
ghost use Rattle.std.specs.Prelude.{◌≡◌};
ghost use Rattle.esr_desk.specs.declared.refusal.StepRefusal.TheVariants.{Memory};
ghost use Rattle.esr_unit.specs.declared.trouble.Trouble.TheVariants.{Step};
ghost use Rattle.esr_unit.specs.Ending.{unread_as};

use esr_desk::{StepRefusal, Why};
use esr_json::ReadRefusal;
use esr_names::BlobName;
use std::alloc::{AllocError, AllocFailed};

/// What ends a unit, a check or a verification before its time. `S` is the type of stages, `F` that of fetches.
#[derive(Drop)]
pub enum Trouble<S, F> {
    /// A step was refused, or memory was wanting.
    Step(StepRefusal),
    /// A write to this stage failed.
    Stage { stage: S },
    /// A read of this fetch failed.
    Fetch { fetch: F },
    /// The unit's own object of the outside failed: the shard that it reads, or the target that it fills.
    Own,
    /// What was read shows that the unit can't do its work.
    Found { why: Why },
}

impl<S: Drop, F: Drop> From<StepRefusal> for Trouble<S, F> {
    ghost from_gives = { λ r e. e ≡ Step r };

    fn from(refusal: StepRefusal) -> Self {
        Trouble::Step(refusal)
    }
}

impl<S: Drop, F: Drop> From<AllocError> for Trouble<S, F> {
    ghost from_gives = { λ _ e. e ≡ Step Memory };

    fn from(_: AllocError) -> Self {
        Trouble::Step(StepRefusal::Memory)
    }
}

impl<S: Drop, F: Drop, T: Drop> From<AllocFailed<T>> for Trouble<S, F> {
    ghost from_gives = { λ _ e. e ≡ Step Memory };

    fn from(_: AllocFailed<T>) -> Self {
        Trouble::Step(StepRefusal::Memory)
    }
}

/// What a text of this name that wasn't read shows: that it doesn't read, for the first reason, unless memory was wanting.
pub fn unread<S: Drop, F: Drop>(name: BlobName, refusal: ReadRefusal) -> Trouble<S, F>
    ensures { result ≡ unread_as name refusal }
{
    match refusal {
        ReadRefusal::Memory => Trouble::Step(StepRefusal::Memory),
        ReadRefusal::Damaged { why: reason } => Trouble::Found {
            why: Why::Unreadable { name, reason },
        },
    }
}
