//! The list of open ops and their tickets.
ghost use Rattle.std.specs.Prelude.{◌≡◌, ◌==◌, ◌<◌, ◌+◌, ◌^◌, length, IfOk, position};
ghost use Rattle.esr_ops.specs.Plan.{no_plan};
ghost use Rattle.esr_ops.specs.Inside.{plan_with, IsProgress};

use crate::tickets::Tickets;
use esr_ops::{OpenDelete, OpenOp, OpenRestore};
use esr_seq::copies_of;
use std::alloc::{AllocError, Global};
use std::marker::Model;

/// The open ops, deletes and restores by number, the numbers of ops in the order in which they completed, and the tickets that
/// are out.
pub struct Progress {
    pub(crate) ops: Vec<OpenOp>,
    pub(crate) deletes: Vec<OpenDelete>,
    pub(crate) completed: Vec<u64>,
    pub(crate) tickets: Tickets,
    pub(crate) next_op: u64,
    pub(crate) restores: Vec<OpenRestore>,
}

impl Drop for Progress {
    // Not derived: an early exit that owns a list then has one call, and not the drop of each part.
    fn drop(self) {
        let Progress {
            ops: _ops,
            deletes: _deletes,
            completed: _completed,
            tickets: _tickets,
            next_op: _,
            restores: _restores,
        } = self;
    }
}

/// What a list holds, to be looked up.
#[derive(Clone, Copy)]
pub struct OpenLists<'a> {
    pub ops: &'a [OpenOp],
    pub deletes: &'a [OpenDelete],
    pub completed: &'a [u64],
    pub tickets: &'a Tickets,
    pub next_op: u64,
    pub restores: &'a [OpenRestore],
}

impl Model for Progress {
    ghost use Rattle.esr_ops.specs.Plan.{Plan};
    ghost use Rattle.esr_progress.specs.Codes.{plan_code};

    ghost Value = { Plan };

    ghost coded = { plan_code };

    ghost use Rattle.esr_ops.specs.Inside.{plan_with, IsProgress};

    ghost view = { λ a. plan_with a.ops.items a.deletes.items a.completed.items a.tickets a.next_op a.restores.items };

    ghost invariant = { λ a. IsProgress a.ops.items a.deletes.items a.next_op a.restores.items };
}

impl Progress {
    /// No op and no ticket; asks for no memory.
    pub fn new(alloc: Global) -> Progress
        ensures { result ≡ no_plan }
    {
        Progress {
            ops: Vec::new(alloc),
            deletes: Vec::new(alloc),
            completed: Vec::new(alloc),
            tickets: Tickets::new(alloc),
            next_op: 1,
            restores: Vec::new(alloc),
        }
    }

    /// The number of the next op.
    pub fn next_op(&self) -> u64
        ensures { result ≡ self.now.next_op }
    {
        self.next_op
    }

    /// What it holds.
    pub fn lists(&self) -> OpenLists<'_>
        ensures view { plan_with result.ops.now result.deletes.now result.completed.now result.tickets.now result.next_op result.restores.now ≡ self.now }
        ensures valid { IsProgress result.ops.now result.deletes.now result.next_op result.restores.now }
        ensures next { result.next_op ≡ self.now.next_op }
        ensures few { length result.ops.now + length result.deletes.now < 2 ^ 64 }
    {
        OpenLists {
            ops: self.ops.as_slice(),
            deletes: self.deletes.as_slice(),
            completed: self.completed.as_slice(),
            tickets: &self.tickets,
            next_op: self.next_op,
            restores: self.restores.as_slice(),
        }
    }

    /// A copy.
    pub fn copy(&self, alloc: Global) -> Result<Progress, AllocError>
        ensures { IfOk result (λ p. p ≡ self.now) }
    {
        let ops = copies_of(alloc, &self.ops)?;
        let deletes = copies_of(alloc, &self.deletes)?;
        let restores = copies_of(alloc, &self.restores)?;
        self.with_entries(alloc, ops, deletes, restores, self.next_op)
    }
}

/// Where the restore of a number stands.
pub(crate) fn restore_place(restores: &[OpenRestore], number: u64) -> Option<usize>
    ensures { result ≡ position (λ e. e.0 == number) restores.now }
{
    restores
        .iter()
        .position(|restore| restore.number() == number)
}

/// Where the delete of a number stands.
pub(crate) fn delete_place(deletes: &[OpenDelete], number: u64) -> Option<usize>
    ensures { result ≡ position (λ e. e.0 == number) deletes.now }
{
    deletes.iter().position(|delete| delete.number() == number)
}

/// Where the op of a number stands.
pub(crate) fn place(ops: &[OpenOp], number: u64) -> Option<usize>
    ensures { result ≡ position (λ e. e.0 == number) ops.now }
{
    ops.iter().position(|op| op.number() == number)
}
