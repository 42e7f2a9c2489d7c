//! What stands against a cleanup: open ops, and tickets that are out. Restores and their tickets don't.
ghost use Rattle.std.specs.Prelude.{◌≡◌};
ghost use Rattle.esr_core.specs.World.{World};
ghost use Rattle.esr_core.specs.Allowed.{HasTicket};
ghost use Rattle.esr_ops.specs.Plan.{IsPlanOf};
ghost use Rattle.esr_ops.specs.Units.{IsLowest};
ghost use Rattle.esr_progress.specs.Choice.{first_number, has_other, cleanup_waits, lower_of};

use crate::Progress;
use crate::ready::lower;
use crate::tickets::Tickets;
use esr_ops::{OpenDelete, OpenOp};

impl Progress {
    /// The lowest ticket that is out.
    pub fn first_out(&self) -> Option<u64>
        ensures { (w : World) → IsPlanOf w self.now → IsLowest (HasTicket w) result }
    {
        self.tickets.first()
    }
}

/// The number of the first op.
fn first_op(ops: &[OpenOp]) -> Option<u64>
    ensures { result ≡ first_number ops.now }
{
    let [op, ..] = ops else {
        return None;
    };
    Some(op.number())
}

/// The number of the first delete.
fn first_delete(deletes: &[OpenDelete]) -> Option<u64>
    ensures { result ≡ first_number deletes.now }
{
    let [delete, ..] = deletes else {
        return None;
    };
    Some(delete.number())
}

/// The lowest number of an op or delete.
pub fn lowest_open(ops: &[OpenOp], deletes: &[OpenDelete]) -> Option<u64>
    ensures { result ≡ lower_of (first_number ops.now) (first_number deletes.now) }
{
    lower(first_op(ops), first_delete(deletes))
}

/// Whether a delete of another number is open.
fn has_other(deletes: &[OpenDelete], number: u64) -> bool
    ensures { result ≡ has_other deletes.now number }
{
    deletes.iter().any(|delete| !delete.has_number(number))
}

/// Whether the cleanup of this number waits: something else is open, or a ticket is out.
pub(crate) fn cleanup_waits(
    ops: &[OpenOp],
    deletes: &[OpenDelete],
    tickets: &Tickets,
    number: u64,
) -> bool
    ensures { result ≡ cleanup_waits ops.now deletes.now tickets.now number }
{
    first_op(ops).is_some() || has_other(deletes, number) || tickets.first().is_some()
}
