//! The steps that ask, take and look.
ghost use Rattle.std.specs.Prelude.{length, ◌<◌, ◌^◌, ◌≤ℤ◌, negsuc, map, Option, Some, None, IfOk, IfSome};
ghost use Rattle.esr_core.specs.Entry.{AskStep, TakeStep, LookStep, Accepted, Looked};
ghost use Rattle.esr_formats.specs.Roots.{root_snap_of};
ghost use Rattle.esr_formats.specs.Clusters.{count_of};
ghost use Rattle.esr_ops.specs.Asked.{asked_of, IsForOp};
ghost use Rattle.esr_desk.specs.Outcome.{take_reply};
ghost use Rattle.esr_desk.specs.Readers.{TookUnit, IsBare};
ghost use Rattle.esr_desk.specs.declared.refusal.StepRefusal.{StepRefusal};
ghost use Rattle.esr_repo.specs.Next.{Did};
ghost use Rattle.esr_client.specs.Given.{HasNoRoot};

use crate::accepting::{accepted, refuse_asked};
use crate::taking::give;
use esr_depot::Depot;
use esr_desk::{Answer, Look, Step, StepRefusal, Unit};
use esr_ops::Command;
use esr_repo::{Repo, Told};
use esr_seq::TryClone;
use std::alloc::Global;

/// Asks for a snapshot, a delete or a cleanup. It is the op that is answered; a delete may go into one that was open.
pub fn ask<D: Depot, K: Told>(
    repo: &mut Repo<D, K>,
    alloc: Global,
    command: &Command,
) -> Result<u64, StepRefusal>
    requires may { IsForOp (asked_of command.now) }
    requires room { length repo.old < 2 ^ 41 }
    ensures { Did K.start repo.old repo.new 0 (AskStep (asked_of command.now)) (λ op. Accepted op) result }
{
    let step = Step::Ask {
        command: command.try_clone(alloc)?,
    };
    repo.check(0, step)?;
    let step = Step::Ask {
        command: command.try_clone(alloc)?,
    };
    match accepted(repo, alloc, command) {
        Ok((op, renewed)) => {
            repo.swap(alloc, 0, step, Answer::Accepted { op }, renewed)?;
            Ok(op)
        }
        Err(refusal) => Err(refuse_asked(repo, step, refusal)),
    }
}

/// Takes the first ready unit of the lowest op, or `None` where no unit is ready.
pub fn take<D: Depot, K: Told>(
    repo: &mut Repo<D, K>,
    alloc: Global,
) -> Result<Option<Unit>, StepRefusal>
    requires room { length repo.old < 2 ^ 41 }
    ensures step { Did K.start repo.old repo.new 0 TakeStep take_reply result }
    ensures took { IfOk result (λ o. IfSome o (λ u. TookUnit K.start repo.new u)) }
    ensures bare { IfOk result (λ o. IfSome o (λ u. IsBare K.start repo.new u)) }
    ensures rest { IfOk result (λ o. IfSome o (λ u. HasNoRoot u.ready u.new_root)) }
{
    repo.check(0, Step::Take)?;
    if let Some((progress, ready)) = repo.ready(alloc)? {
        return Ok(Some(give(repo, alloc, progress, ready)?));
    }
    let next = repo.next_id();
    repo.note(0, Step::Take, Answer::NothingReady, None, next)?;
    Ok(None)
}

/// The snapshots of the safe root.
pub fn look<D: Depot, K: Told>(repo: &mut Repo<D, K>, alloc: Global) -> Result<Look, StepRefusal>
    ensures step { Did K.start repo.old repo.new 0 LookStep (λ l. Looked (map root_snap_of l.listing) (count_of l.safe)) result }
    ensures least { IfOk result (λ l. negsuc 0 ≤ℤ l.safe) }
{
    repo.check(0, Step::Look)?;
    let safe = repo.safe();
    let listing = repo.safe_root().snapshots.try_clone(alloc)?;
    let snapshots = listing.try_clone(alloc)?;
    let next = repo.next_id();
    repo.note(
        0,
        Step::Look,
        Answer::Looked { snapshots, safe },
        None,
        next,
    )?;
    Ok(Look { listing, safe })
}
