//! What a command that is accepted makes of the list.
ghost use Rattle.std.specs.Prelude.{◌≡◌, ◌<◌, ◌^◌, ◌++◌, [], ◌∷◌, suc, IfOk, OnErr, OnOk, if◌then◌else◌};
ghost use Rattle.std.specs.FinMap as fin;
ghost use Rattle.std.specs.List.{list_any};
ghost use Rattle.esr_core.specs.Steps.{completing};
ghost use Rattle.esr_ops.specs.Restores.{is_waiting};
ghost use Rattle.esr_progress.specs.Changes.{put_plan};
ghost use Rattle.esr_ops.specs.Inside.{IsProgress};

use crate::Progress;
use esr_ops::{OpenDelete, OpenOp, OpenRestore};
use esr_seq::copies_of;
use std::alloc::{AllocError, Global};

impl Progress {
    /// The list with a new op, which completes where it has no shards.
    pub fn with_op(&self, alloc: Global, op: OpenOp) -> Result<Progress, AllocError>
        requires number { op.0 ≡ self.now.next_op }
        requires room { self.now.next_op < 2 ^ 62 }
        ensures { IfOk result (λ p. p ≡ record self.now { ops = fin.insert self.now.ops op.0 op.1; completed = completing self.now.completed op.0 op.1.shards; next_op = suc self.now.next_op }) }
    {
        let mut new = self.copy(alloc)?;
        note_completed(&mut new.completed, &op)?;
        new.ops.push(op)?;
        new.next_op += 1;
        Ok(new)
    }

    /// A copy with these ops and deletes.
    pub fn with_lists(
        &self,
        alloc: Global,
        ops: Vec<OpenOp>,
        deletes: Vec<OpenDelete>,
        next_op: u64,
    ) -> Result<Progress, AllocError>
        requires { IsProgress ops.items deletes.items next_op (fin.entries self.now.restores) }
        ensures { IfOk result (λ p. p ≡ record self.now { ops = fin.from_entries ops.items; deletes = fin.from_entries deletes.items; next_op = next_op }) }
    {
        let restores = copies_of(alloc, &self.restores)?;
        self.with_entries(alloc, ops, deletes, restores, next_op)
    }

    /// A copy with these ops, deletes and restores.
    pub(crate) fn with_entries(
        &self,
        alloc: Global,
        ops: Vec<OpenOp>,
        deletes: Vec<OpenDelete>,
        restores: Vec<OpenRestore>,
        next_op: u64,
    ) -> Result<Progress, AllocError>
        requires { IsProgress ops.items deletes.items next_op restores.items }
        ensures { IfOk result (λ p. p ≡ record self.now { ops = fin.from_entries ops.items; deletes = fin.from_entries deletes.items; restores = fin.from_entries restores.items; next_op = next_op }) }
    {
        let completed = Vec::from_slice(alloc, self.completed.as_slice())?;
        let tickets = self.tickets.try_clone(alloc)?;
        Ok(Progress {
            ops,
            deletes,
            completed,
            tickets,
            next_op,
            restores,
        })
    }

    /// The list with a restore more, where it has a shard.
    pub fn with_restore(&self, alloc: Global, restore: OpenRestore) -> Result<Progress, AllocError>
        requires number { restore.0 ≡ self.now.next_op }
        requires room { self.now.next_op < 2 ^ 62 }
        ensures { IfOk result (λ p. p ≡ record self.now { restores = put_plan self.now.restores restore.0 restore.1; next_op = suc self.now.next_op }) }
    {
        let mut new = self.copy(alloc)?;
        push_waiting(&mut new.restores, restore)?;
        new.next_op += 1;
        Ok(new)
    }
}

/// Appends the number of an op all of whose shards are done.
fn note_completed(completed: &mut Vec<u64>, op: &OpenOp) -> Result<(), AllocError>
    ensures { OnOk result (completed.new.items ≡ completing completed.old.items op.now.0 op.now.1.shards) }
{
    if op.is_done() {
        completed.push(op.number())?;
    }
    Ok(())
}

/// Appends a restore some shard of which waits.
fn push_waiting(restores: &mut Vec<OpenRestore>, restore: OpenRestore) -> Result<(), AllocError>
    ensures ok { OnOk result (restores.new.items ≡ (if list_any is_waiting restore.1.shards then restores.old.items ++ restore ∷ [] else restores.old.items)) }
    ensures err { OnErr result (restores.new.items ≡ restores.old.items) }
{
    if !restore.waits() {
        return Ok(());
    }
    restores.push(restore)?;
    Ok(())
}
