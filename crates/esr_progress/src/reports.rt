//! What the reports of units change.
ghost use Rattle.std.specs.Prelude.{◌≡◌, ℕ, true, false, Some, map, option_map, is_some, IfOk};
ghost use Rattle.std.specs.FinMap as fin;
ghost use Rattle.esr_model.specs.Values.{Formats};
ghost use Rattle.esr_core.specs.World.{World, ReadState, Ticket, Swap, swap, record_ops};
ghost use Rattle.esr_core.specs.After.{change, raised, settled_of, done_of, failed_of, dropped_of, delete_failed, delete_settled, read_over};
ghost use Rattle.esr_core.specs.Restores.{waits};
ghost use Rattle.esr_formats.specs.Clusters.{op_of};
ghost use Rattle.esr_results.specs.Results.{result_of};
ghost use Rattle.esr_ops.specs.Plan.{seat_of_code, reader_of_code, IsPlanOf};
ghost use Rattle.esr_progress.specs.Aborts.{op_aborter, seat_aborter, aborter};

use crate::Progress;
use crate::progress::place;
use esr_ops::{ReaderSeat, Seat, push_between};
use esr_record::RecordOps;
use esr_results::ShardResult;
use std::alloc::{AllocError, Global};

impl Progress {
    /// What is kept of a ticket that is out.
    pub fn seat(&self, ticket: u64) -> Option<Seat>
        ensures { option_map seat_of_code result ≡ fin.get self.now.seats ticket }
    {
        self.tickets.seat(ticket)
    }

    /// What is kept of a restore's ticket that is out.
    pub fn reader(&self, ticket: u64) -> Option<ReaderSeat>
        ensures { option_map reader_of_code result ≡ fin.get self.now.readers ticket }
    {
        self.tickets.reader(ticket)
    }

    /// The delete that has aborted the op of a ticket that is out, unless that is to take the op away.
    pub fn aborter(&self, ticket: u64) -> Option<u64>
        ensures { result ≡ aborter self.now.ops (fin.get self.now.seats ticket) }
    {
        self.seat_aborter(self.seat(ticket)?)
    }

    /// The delete that has aborted the op of a seat, where it is no drop.
    fn seat_aborter(&self, seat: Seat) -> Option<u64>
        ensures { result ≡ seat_aborter self.now.ops (seat_of_code seat) }
    {
        if !seat.can_abort() {
            return None;
        }
        self.op_aborter(seat.op)
    }

    /// The delete that has aborted the op of this number.
    fn op_aborter(&self, number: u64) -> Option<u64>
        ensures { result ≡ op_aborter (fin.get self.now.ops number) }
    {
        let at = place(&self.ops, number)?;
        self.ops[at].aborter()
    }

    /// The ops as the cluster record tells them: snapshots, deletes and a cleanup, by number.
    pub fn record_ops(&self, alloc: Global) -> Result<RecordOps, AllocError>
        ensures { IfOk result (λ ops. map op_of ops ≡ record_ops self.now.ops self.now.deletes) }
    {
        let mut ops = RecordOps::new(alloc);
        let mut last = 0;
        for op in &self.ops {
            push_between(alloc, &mut ops, &self.deletes, last, op.number())?;
            ops.push(op.record_op(alloc)?)?;
            last = op.number();
        }
        push_between(alloc, &mut ops, &self.deletes, last, self.next_op)?;
        Ok(ops)
    }

    /// The list after a shard was done: the ticket has ended, and the op completes where that was its last shard.
    pub fn shard_done(
        &self,
        alloc: Global,
        ticket: u64,
        outcome: &ShardResult,
    ) -> Result<Progress, AllocError>
        requires { is_some (fin.get self.now.seats ticket) ≡ true }
        ensures { IfOk result (λ p. (w : World) → IsPlanOf w self.now → IsPlanOf (done_of w ticket (result_of outcome.now) (fin.get w.tickets ticket)) p) }
    {
        let mut copy = self.copy(alloc)?;
        copy.finish(ticket, *outcome)?;
        Ok(copy)
    }

    /// The list after a unit failed in this term: the ticket has ended, and its op has failed, but for a unit of a stale master.
    pub fn unit_failed(&self, alloc: Global, term: u64, ticket: u64) -> Result<Progress, AllocError>
        requires { is_some (fin.get self.now.seats ticket) ≡ true }
        ensures { IfOk result (λ p. (w : World) → IsPlanOf w self.now → w.term ≡ term → IsPlanOf (failed_of w ticket (fin.get w.tickets ticket)) p) }
    {
        let mut copy = self.copy(alloc)?;
        copy.fail(term, ticket);
        Ok(copy)
    }

    /// The list after the unit of a delete or cleanup failed in this term: the ticket has ended, and the delete has failed, but for a
    /// unit of a stale master.
    pub fn delete_failed(
        &self,
        alloc: Global,
        term: u64,
        ticket: u64,
    ) -> Result<Progress, AllocError>
        requires { is_some (fin.get self.now.seats ticket) ≡ true }
        ensures { IfOk result (λ p. (w : World) → IsPlanOf w self.now → w.term ≡ term → IsPlanOf (delete_failed w ticket (fin.get w.tickets ticket)) p) }
    {
        let mut copy = self.copy(alloc)?;
        copy.fail_delete(term, ticket);
        Ok(copy)
    }

    /// The list after a restore's ticket ended: its shard is restored, or failed. The restore leaves with its last shard.
    pub fn shard_read(&self, alloc: Global, ticket: u64) -> Result<Progress, AllocError>
        requires { is_some (fin.get self.now.readers ticket) ≡ true }
        ensures { IfOk result (λ p. (w : World) (state : ReadState) → waits state ≡ false → IsPlanOf w self.now → IsPlanOf (read_over w ticket state (fin.get w.readers ticket)) p) }
    {
        let mut copy = self.copy(alloc)?;
        copy.end_reader(ticket);
        Ok(copy)
    }

    /// The list after a ticket raised a generation.
    pub fn raised(
        &self,
        alloc: Global,
        ticket: u64,
        generation: u64,
    ) -> Result<Progress, AllocError>
        requires { is_some (fin.get self.now.seats ticket) ≡ true }
        ensures { IfOk result (λ p. (w : World) → IsPlanOf w self.now → w.pending ≡ generation → IsPlanOf (raised w ticket) p) }
    {
        let mut copy = self.copy(alloc)?;
        copy.raise(ticket, generation);
        Ok(copy)
    }

    /// The list after a swap has settled: its op has left, its ticket stays out.
    pub fn finalized(&self, alloc: Global, ticket: u64) -> Result<Progress, AllocError>
        requires { is_some (fin.get self.now.seats ticket) ≡ true }
        ensures { IfOk result (λ p. (f : Formats) (w : World) (t : Ticket) (s : Swap) (n : ℕ) → IsPlanOf w self.now → fin.get w.tickets ticket ≡ Some t → swap f t ≡ Some s → t.raised ≡ Some n
            → IsPlanOf (settled_of f w ticket (Some t)) p) }
    {
        let mut copy = self.copy(alloc)?;
        copy.settle(ticket);
        Ok(copy)
    }

    /// The list after the swap of a delete or cleanup has settled: the delete has left, its ticket stays out. A cleanup stays.
    pub fn delete_settled(&self, alloc: Global, ticket: u64) -> Result<Progress, AllocError>
        requires { is_some (fin.get self.now.seats ticket) ≡ true }
        ensures { IfOk result (λ p. (f : Formats) (w : World) (t : Ticket) (s : Swap) (n : ℕ) → IsPlanOf w self.now → fin.get w.tickets ticket ≡ Some t → swap f t ≡ Some s → t.raised ≡ Some n
            → IsPlanOf (delete_settled f w ticket (Some t)) p) }
    {
        let mut copy = self.copy(alloc)?;
        copy.settle_delete(ticket);
        Ok(copy)
    }

    /// The list after a ticket ended.
    pub fn ended(&self, alloc: Global, ticket: u64) -> Result<Progress, AllocError>
        requires { is_some (fin.get self.now.seats ticket) ≡ true }
        ensures { IfOk result (λ p. (w : World) → IsPlanOf w self.now → IsPlanOf (change w ticket (λ t. record t { out = false })) p) }
    {
        let mut copy = self.copy(alloc)?;
        copy.end(ticket);
        Ok(copy)
    }

    /// The list after an op that failed was dropped, or a cleanup is over: it has left, and the ticket has ended.
    pub fn dropped(&self, alloc: Global, ticket: u64) -> Result<Progress, AllocError>
        requires { is_some (fin.get self.now.seats ticket) ≡ true }
        ensures { IfOk result (λ p. (w : World) → IsPlanOf w self.now → IsPlanOf (dropped_of w ticket (fin.get w.tickets ticket)) p) }
    {
        let mut copy = self.copy(alloc)?;
        copy.drop_op(ticket);
        Ok(copy)
    }
}
