//! The shards of an open op.
ghost use Rattle.std.specs.Prelude.{◌≡◌, map, position, IfOk};
ghost use Rattle.std.specs.List.{list_any, list_all, filter_map};
ghost use Rattle.esr_core.specs.Steps.{is_done};
ghost use Rattle.esr_ops.specs.Shards.{given_open, marked_open, failed_open, is_pending, waits, is_done_with, is_open_waiting, is_open_free, generation_open, result_in, state_of};

use crate::open_op::op_waits;
use crate::restore::restore_waits;
use crate::{OpenOp, OpenRestore};
use esr_names::{Id, ShardId};
use esr_results::{ShardResult, ShardResults};
use std::alloc::{AllocError, Global};

/// How far the work on a shard is.
#[derive(Clone, Copy, PartialEq, Eq)]
pub enum ShardState {
    Pending,
    /// This ticket works on it.
    Out(u64),
    Done(ShardResult),
    /// Its op failed first.
    GivenUp,
}

/// A shard of an open op: `at` is the place of its index in the op's list.
#[derive(Clone, Copy)]
pub struct OpenShard {
    pub at: usize,
    pub shard: ShardId,
    pub state: ShardState,
}

impl ShardState {
    fn is_pending(&self) -> bool
        ensures { result ≡ is_pending (state_of self.now) }
    {
        matches!(self, ShardState::Pending)
    }

    fn is_done(&self) -> bool
        ensures { result ≡ is_done (state_of self.now) }
    {
        matches!(self, ShardState::Done(_))
    }

    /// Whether it is done, or out with this ticket.
    fn is_done_with(&self, ticket: u64) -> bool
        ensures { result ≡ is_done_with ticket self.now }
    {
        match self {
            ShardState::Done(_) => true,
            ShardState::Out(by) => *by == ticket,
            _ => false,
        }
    }

    /// The result where it is done.
    fn result(&self) -> Option<ShardResult>
        ensures { result ≡ result_in self.now }
    {
        match self {
            ShardState::Done(result) => Some(*result),
            _ => None,
        }
    }

    /// Whether it is pending or out.
    fn waits(&self) -> bool
        ensures { result ≡ waits (state_of self.now) }
    {
        matches!(self, ShardState::Pending | ShardState::Out(_))
    }
}

impl OpenShard {
    /// The shard, given to a ticket where it is of this id and number.
    fn given(self, shard: ShardId, ticket: u64) -> OpenShard
        ensures { result ≡ given_open ticket shard self }
    {
        if self.shard == shard {
            OpenShard {
                state: ShardState::Out(ticket),
                ..self
            }
        } else {
            self
        }
    }

    /// Whether it is pending, and no op and no restore before the number waits on it.
    fn is_free(&self, ops: &[OpenOp], restores: &[OpenRestore], number: u64) -> bool
        ensures { result ≡ is_open_free ops.now restores.now number self.now }
    {
        self.state.is_pending()
            && !op_waits(ops, number, self.shard)
            && !restore_waits(restores, number, self.shard)
    }

    /// The generation at which it is done, where it is of this id and number.
    pub fn generation(&self, shard: ShardId) -> Option<Id>
        ensures { result ≡ generation_open shard self.now }
    {
        match self.state {
            ShardState::Done(result) if self.shard == shard => Some(result.generation),
            _ => None,
        }
    }

    /// The shard in another state, where this ticket has it.
    fn marked(self, ticket: u64, state: ShardState) -> OpenShard
        ensures { result ≡ marked_open ticket state self }
    {
        match self.state {
            ShardState::Out(by) if by == ticket => OpenShard { state, ..self },
            _ => self,
        }
    }

    /// The shard given up, where it is pending or this ticket has it.
    fn failed(self, ticket: u64) -> OpenShard
        ensures { result ≡ failed_open ticket self }
    {
        if self.state == ShardState::Pending {
            OpenShard {
                state: ShardState::GivenUp,
                ..self
            }
        } else {
            self.marked(ticket, ShardState::GivenUp)
        }
    }
}

/// Whether all are done.
pub(crate) fn are_done(shards: &[OpenShard]) -> bool
    ensures { result ≡ list_all (λ s. is_done (state_of s.state)) shards.now }
{
    shards.iter().all(|open| open.state.is_done())
}

/// Whether each is done or out with this ticket.
pub(crate) fn are_done_with(shards: &[OpenShard], ticket: u64) -> bool
    ensures { result ≡ list_all (λ s. is_done_with ticket s.state) shards.now }
{
    shards.iter().all(|open| open.state.is_done_with(ticket))
}

/// Whether one of this id and number is pending or out.
pub(crate) fn wait(shards: &[OpenShard], shard: ShardId) -> bool
    ensures { result ≡ list_any (is_open_waiting shard) shards.now }
{
    shards
        .iter()
        .any(|open| open.shard == shard && open.state.waits())
}

/// The results of those that are done, in their order.
pub(crate) fn results(alloc: Global, shards: &[OpenShard]) -> Result<ShardResults, AllocError>
    ensures { IfOk result (λ rs. rs ≡ filter_map (λ s. result_in s.state) shards.now) }
{
    let mut results = ShardResults::new(alloc);
    for open in shards {
        if let Some(result) = open.state.result() {
            results.push(result)?;
        }
    }
    Ok(results)
}

/// The place of the first that is pending and on which no op and no restore before the number waits.
pub(crate) fn first_free(
    shards: &[OpenShard],
    ops: &[OpenOp],
    restores: &[OpenRestore],
    number: u64,
) -> Option<usize>
    ensures { result ≡ position (is_open_free ops.now restores.now number) shards.now }
{
    shards
        .iter()
        .position(|open| open.is_free(ops, restores, number))
}

/// The place of the first that is pending.
pub(crate) fn first_unread(shards: &[OpenShard]) -> Option<usize>
    ensures { result ≡ position (λ s. is_pending (state_of s.state)) shards.now }
{
    shards.iter().position(|open| open.state.is_pending())
}

/// Whether one is pending or out.
pub(crate) fn any_waits(shards: &[OpenShard]) -> bool
    ensures { result ≡ list_any (λ s. waits (state_of s.state)) shards.now }
{
    shards.iter().any(|open| open.state.waits())
}

/// Gives those of this id and number to a ticket.
pub(crate) fn give(shards: &mut Vec<OpenShard>, shard: ShardId, ticket: u64)
    ensures { shards.new.items ≡ map (given_open ticket shard) shards.old.items }
{
    for open in shards.iter_mut() {
        *open = open.given(shard, ticket);
    }
}

/// What a ticket has goes on to another state.
pub(crate) fn mark(shards: &mut Vec<OpenShard>, ticket: u64, state: ShardState)
    ensures { shards.new.items ≡ map (marked_open ticket state) shards.old.items }
{
    for open in shards.iter_mut() {
        *open = open.marked(ticket, state);
    }
}

/// What is pending, and what a ticket has, is given up.
pub(crate) fn give_up(shards: &mut Vec<OpenShard>, ticket: u64)
    ensures { shards.new.items ≡ map (failed_open ticket) shards.old.items }
{
    for open in shards.iter_mut() {
        *open = open.failed(ticket);
    }
}
