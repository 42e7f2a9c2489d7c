//! The end of a check; a look begins it.
ghost use Rattle.std.specs.Prelude.{◌≡◌, OnOk, OnErr};
ghost use Rattle.esr_core.specs.World.{no_caller};
ghost use Rattle.esr_core.specs.Entry.{ReadStep, CheckedAll, HasEnded};
ghost use Rattle.esr_desk.specs.Own.{caller_of};
ghost use Rattle.esr_desk.specs.Check.Conditions.{CanEndCheck};
ghost use Rattle.esr_repo.specs.Next.{Did};

use esr_depot::Depot;
use esr_desk::{Answer, Read, Step, StepRefusal};
use esr_repo::{Repo, Told, entries_tell_the_caller};
use std::alloc::Global;

/// The check has read all: so many snapshots, and so many blobs.
pub fn end_check<D: Depot, K: Told>(
    repo: &mut Repo<D, K>,
    alloc: Global,
    snapshots: u64,
    blobs: u64,
) -> Result<(), StepRefusal>
    requires may { CanEndCheck K.start repo.old snapshots blobs }
    ensures step { Did K.start repo.old repo.new 0 (ReadStep (CheckedAll snapshots blobs)) (λ _. HasEnded) result }
    ensures own { OnOk result (caller_of K.start repo.new ≡ no_caller) }
    ensures kept { OnErr result (caller_of K.start repo.new ≡ caller_of K.start repo.old) }
{
    entries_tell_the_caller();
    let read = Read::Checked { snapshots, blobs };
    repo.check(0, Step::Read { read })?;
    let next = repo.next_id();
    let read = Read::Checked { snapshots, blobs };
    repo.note(0, Step::Read { read }, Answer::Ended, None, next)
}
