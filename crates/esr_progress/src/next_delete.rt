//! Which unit of a delete or cleanup is ready.
ghost use Rattle.std.specs.Prelude.{◌≡◌, ◌<◌, ◌^◌, nat_lt, position, IfOk, IfSome};
ghost use Rattle.std.specs.List.{list_any};
ghost use Rattle.esr_core.specs.World.{World};
ghost use Rattle.esr_formats.specs.Roots.{root_of};
ghost use Rattle.esr_formats.specs.Clusters.{count_of};
ghost use Rattle.esr_ops.specs.Plan.{IsGivenIn, IsPlanOf};
ghost use Rattle.esr_ops.specs.Units.{HasDeleteReady, IsLowest, LowestUnit};
ghost use Rattle.esr_progress.specs.Based.{IsBased};
ghost use Rattle.esr_progress.specs.Choice.{barred, delete_ready};

use crate::Progress;
use crate::cleanup::cleanup_waits;
use crate::tickets::Tickets;
use esr_ops::{Copied, OpenDelete, OpenOp, ReadyUnit};
use esr_root::RootData;
use esr_seq::{TryClone, copies_of};
use std::alloc::{AllocError, Global};

impl Progress {
    /// The number of the lowest delete of which a unit is ready.
    pub(crate) fn ready_delete(&self, term: u64) -> Option<u64>
        ensures { (w : World) → IsPlanOf w self.now → w.term ≡ term → IsLowest (HasDeleteReady w) result }
    {
        let Some(at) = find_delete(&self.ops, &self.deletes, &self.tickets, term) else {
            return None;
        };
        Some(self.deletes[at].number())
    }

    /// The ready unit of the lowest delete.
    pub(crate) fn delete_unit(
        &self,
        alloc: Global,
        root: &RootData,
        safe: i64,
        term: u64,
    ) -> Result<Option<(Progress, ReadyUnit)>, AllocError>
        requires room { self.now.next_ticket < 2 ^ 62 }
        ensures unit { IfOk result (λ o. (w : World) → IsGivenIn self.now (root_of root.now) (count_of safe) term w → LowestUnit (HasDeleteReady w) w o) }
        ensures base { IfOk result (λ o. IfSome o (λ next. IsBased next.1)) }
    {
        let Some(at) = find_delete(&self.ops, &self.deletes, &self.tickets, term) else {
            return Ok(None);
        };
        let delete = &self.deletes[at];
        let ticket = self.tickets.next();
        let unit = ReadyUnit {
            ticket,
            op: delete.number(),
            copy: Copied {
                safe,
                root: root.try_clone(alloc)?,
                base: None,
            },
            work: delete.work(alloc)?,
        };
        let ops = copies_of(alloc, &self.ops)?;
        Ok(Some((
            self.with_seat(
                alloc,
                ops,
                delete.kind(),
                unit.op,
                term,
                delete.gives_cleanup(),
            )?,
            unit,
        )))
    }
}

/// The first delete of which a unit is ready, by its place.
fn find_delete(
    ops: &[OpenOp],
    deletes: &[OpenDelete],
    tickets: &Tickets,
    term: u64,
) -> Option<usize>
    ensures { result ≡ position (delete_ready ops.now deletes.now tickets.now term) deletes.now }
{
    deletes
        .iter()
        .position(|delete| delete_ready(ops, deletes, tickets, term, delete))
}

/// Whether a unit of the delete is ready: that it leaves where it failed, else its own.
fn delete_ready(
    ops: &[OpenOp],
    deletes: &[OpenDelete],
    tickets: &Tickets,
    term: u64,
    delete: &OpenDelete,
) -> bool
    ensures { result ≡ delete_ready ops.now deletes.now tickets.now term delete.now }
{
    if delete.has_failed() {
        return !tickets.unit_is_out(term, delete.number());
    }
    if delete.cleans() {
        return !cleanup_waits(ops, deletes, tickets, delete.number());
    }
    !barred(deletes, delete.number())
        && !precede(ops, delete.number())
        && !tickets.swap_is_out(term)
}

/// Whether an open delete has a number below this one.
pub(crate) fn barred(deletes: &[OpenDelete], number: u64) -> bool
    ensures { result ≡ barred deletes.now number }
{
    deletes.iter().any(|delete| delete.number() < number)
}

/// Whether an open op has a number below this one.
fn precede(ops: &[OpenOp], number: u64) -> bool
    ensures { result ≡ list_any (λ e. nat_lt e.0 number) ops.now }
{
    ops.iter().any(|op| op.number() < number)
}
