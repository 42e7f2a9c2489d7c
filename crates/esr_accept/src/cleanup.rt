//! Whether a cleanup is accepted.
ghost use Rattle.std.specs.Prelude.{◌≡◌, ◌<◌, ◌^◌, IfOk};
ghost use Rattle.esr_core.specs.World.{World};
ghost use Rattle.esr_core.specs.After.{cleanup_opened};
ghost use Rattle.esr_ops.specs.Plan.{IsPlanOf};
ghost use Rattle.esr_accept.specs.Asking.{open_cleanup, cleanup_refusal};
ghost use Rattle.esr_progress.specs.Choice.{first_number, lower_of};
ghost use Rattle.esr_accept.specs.Accepting.{IsCleanupRuledOn, AcceptingCleanup};

use crate::snapshot::open_cleanup;
use esr_ops::{OpenDelete, OpenOp, Refusal};
use esr_progress::{Progress, lowest_open};
use esr_seq::copies_of;
use std::alloc::{AllocError, Global};

/// The list with a cleanup more, as the next op, and its number. It waits for nothing: an open op or a ticket that is out, those
/// of restores aside, refuses it. The first rule that does decides.
pub fn accept_cleanup(progress: &Progress, alloc: Global) -> Result<(Progress, u64), Refusal>
    requires { progress.now.next_op < 2 ^ 62 }
    ensures { (w : World) → IsPlanOf w progress.now → AcceptingCleanup w result }
{
    if let Some(refusal) = cleanup_refusal(progress) {
        return Err(refusal);
    }
    let op = progress.next_op();
    let after = with_cleanup(progress, alloc)?;
    Ok((after, op))
}

/// The first rule that refuses a cleanup.
fn cleanup_refusal(progress: &Progress) -> Option<Refusal>
    ensures { (w : World) → IsPlanOf w progress.now → IsCleanupRuledOn w result }
{
    let list = progress.lists();
    refusal(list.ops, list.deletes, progress.first_out())
}

/// The list with a cleanup more.
fn with_cleanup(progress: &Progress, alloc: Global) -> Result<Progress, AllocError>
    requires room { progress.now.next_op < 2 ^ 62 }
    ensures { IfOk result (λ p. (w : World) → IsPlanOf w progress.now → IsPlanOf (cleanup_opened w) p) }
{
    let list = progress.lists();
    let ops = copies_of(alloc, list.ops)?;
    let mut deletes = copies_of(alloc, list.deletes)?;
    deletes.push(OpenDelete::cleanup(alloc, list.next_op))?;
    progress.with_lists(alloc, ops, deletes, list.next_op + 1)
}

/// The first rule that refuses a cleanup.
fn refusal(ops: &[OpenOp], deletes: &[OpenDelete], ticket: Option<u64>) -> Option<Refusal>
    ensures { result ≡ cleanup_refusal (open_cleanup deletes.now) (lower_of (first_number ops.now) (first_number deletes.now)) ticket }
{
    if let Some(op) = open_cleanup(deletes) {
        return Some(Refusal::CleanupRunning { op });
    }
    if let Some(op) = lowest_open(ops, deletes) {
        return Some(Refusal::BusyOp { op });
    }
    if let Some(ticket) = ticket {
        return Some(Refusal::BusyTicket { ticket });
    }
    None
}
