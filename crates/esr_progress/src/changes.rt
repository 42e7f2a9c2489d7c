//! The changes of which the reports of units are made.
ghost use Rattle.std.specs.Prelude.{◌≡◌, true, not, option_map, is_some, OnOk};
ghost use Rattle.std.specs.FinMap as fin;
ghost use Rattle.esr_core.specs.Steps.{all_done};
ghost use Rattle.esr_model.specs.Values.{ShardResult as Outcome};
ghost use Rattle.esr_results.specs.Results.{result_of};
ghost use Rattle.esr_ops.specs.Plan.{seat_of_code, reader_of_code};
ghost use Rattle.esr_progress.specs.Changes.{with_seat, without_seat, without_reader, without_snap, without_op, without_settled, delete_left, with_completed, op_changed, op_marked, op_failed, seat_changed, seat_settled, seat_raised, op_left, op_dropped, done_in, failed_by, failed_in, delete_changed, delete_failing, deletion_failed_by, deletion_failed_in, restore_changed, restore_over, restore_kept, read_by, read_in};

use crate::Progress;
use crate::progress::{delete_place, place, restore_place};
use esr_ops::{ReaderSeat, Seat, ShardState};
use esr_results::ShardResult;
use std::alloc::AllocError;

impl Progress {
    /// A restore's ticket ends.
    fn end_reader_seat(&mut self, ticket: u64)
        ensures { self.new ≡ without_reader self.old ticket }
    {
        self.tickets.end_reader(ticket);
    }

    /// What a ticket has of a restore is over.
    fn end_read(&mut self, number: u64, ticket: u64)
        ensures { self.new ≡ restore_changed (restore_over ticket) self.old number (fin.get self.old.restores number) }
    {
        if let Some(at) = restore_place(&self.restores, number) {
            self.restores[at].end(ticket);
        }
    }

    /// A restore leaves where none of its shards waits.
    fn leave(&mut self, number: u64)
        ensures { self.new ≡ restore_kept self.old number (fin.get self.old.restores number) }
    {
        let Some(at) = restore_place(&self.restores, number) else {
            return;
        };
        if self.restores[at].waits() {
            return;
        }
        self.restores.retain(|restore| restore.number() != number);
    }

    /// Whether a restore of this number is open.
    fn has_restore(&self, number: u64) -> bool
        ensures { result ≡ is_some (fin.get self.now.restores number) }
    {
        restore_place(&self.restores, number).is_some()
    }

    /// The ticket of a restore ends, where the restore is open.
    pub(crate) fn end_reader(&mut self, ticket: u64)
        ensures { self.new ≡ read_in self.old ticket (fin.get self.old.readers ticket) }
    {
        let Some(reader) = self.reader(ticket) else {
            return;
        };
        self.end_open(ticket, reader);
    }

    /// Whether no restore of this number is open.
    fn lacks_restore(&self, number: u64) -> bool
        ensures { result ≡ not (is_some (fin.get self.now.restores number)) }
    {
        !self.has_restore(number)
    }

    /// What a ticket has of its restore is over, where that is open, and the ticket ends.
    fn end_open(&mut self, ticket: u64, reader: ReaderSeat)
        ensures { self.new ≡ read_by self.old ticket (reader_of_code reader) (fin.get self.old.restores reader.op) }
    {
        if self.lacks_restore(reader.op) {
            return;
        }
        self.end_reader_seat(ticket);
        self.end_read(reader.op, ticket);
        self.leave(reader.op);
    }

    /// Keeps this of a ticket.
    pub(crate) fn put_seat(&mut self, ticket: u64, seat: Seat)
        requires { is_some (fin.get self.old.seats ticket) ≡ true }
        ensures { self.new ≡ with_seat self.old ticket (seat_of_code seat) }
    {
        self.tickets.put(ticket, seat);
    }

    /// An op leaves, or a delete.
    pub(crate) fn remove_op(&mut self, number: u64)
        ensures { self.new ≡ without_op self.old number }
    {
        self.ops.retain(|op| op.number() != number);
        self.deletes.retain(|delete| delete.number() != number);
    }

    /// Whether the op of this number completes with the shard of a ticket; `None` where there is no such op.
    pub(crate) fn completes(&self, number: u64, ticket: u64) -> Option<bool>
        ensures { (r : Outcome) → result ≡ option_map (λ op. all_done (op_marked ticket r op).shards) (fin.get self.now.ops number) }
    {
        let at = place(&self.ops, number)?;
        Some(self.ops[at].completes(ticket))
    }

    /// Notes that an op has completed, where it has.
    pub(crate) fn complete(&mut self, completes: bool, number: u64) -> Result<(), AllocError>
        ensures { OnOk result (self.new ≡ with_completed completes self.old number) }
    {
        if completes {
            self.completed.push(number)?;
        }
        Ok(())
    }

    /// What a ticket has of an op is done.
    pub(crate) fn mark_op(&mut self, number: u64, ticket: u64, outcome: ShardResult)
        ensures { self.new ≡ op_changed (op_marked ticket (result_of outcome)) self.old number (fin.get self.old.ops number) }
    {
        if let Some(at) = place(&self.ops, number) {
            self.ops[at].mark(ticket, ShardState::Done(outcome));
        }
    }

    /// An op fails with the unit of a ticket.
    pub(crate) fn fail_op(&mut self, number: u64, ticket: u64)
        ensures { self.new ≡ op_changed (op_failed ticket) self.old number (fin.get self.old.ops number) }
    {
        if let Some(at) = place(&self.ops, number) {
            self.ops[at].fail(ticket);
        }
    }

    /// A ticket ends.
    pub(crate) fn end(&mut self, ticket: u64)
        ensures { self.new ≡ without_seat self.old ticket }
    {
        self.tickets.end(ticket);
    }

    /// A ticket raises a generation.
    pub(crate) fn raise(&mut self, ticket: u64, generation: u64)
        ensures { self.new ≡ seat_changed (seat_raised generation) self.old ticket (fin.get self.old.seats ticket) }
    {
        let Some(seat) = self.seat(ticket) else {
            return;
        };
        let raised = Some(generation);
        self.put_seat(ticket, Seat { raised, ..seat });
    }

    /// A snapshot leaves.
    fn remove_snap(&mut self, number: u64)
        ensures { self.new ≡ without_snap self.old number }
    {
        self.ops.retain(|op| op.number() != number);
    }

    /// The op of a delete's ticket leaves, a cleanup stays.
    fn leave_settled(&mut self, seat: Seat)
        ensures { self.new ≡ without_settled self.old (seat_of_code seat) }
    {
        if seat.clean {
            self.remove_snap(seat.op);
            return;
        }
        self.remove_op(seat.op);
    }

    /// The swap of a delete's ticket has settled, and its op leaves, unless it is a cleanup.
    pub(crate) fn settle_delete(&mut self, ticket: u64)
        ensures { self.new ≡ delete_left self.old ticket (fin.get self.old.seats ticket) }
    {
        let Some(seat) = self.seat(ticket) else {
            return;
        };
        self.leave_settled(seat);
        self.put_seat(
            ticket,
            Seat {
                settled: true,
                ..seat
            },
        );
    }

    /// The swap of a ticket has settled, and its op leaves.
    pub(crate) fn settle(&mut self, ticket: u64)
        ensures { self.new ≡ op_left seat_settled self.old ticket (fin.get self.old.seats ticket) }
    {
        let Some(seat) = self.seat(ticket) else {
            return;
        };
        self.remove_op(seat.op);
        self.put_seat(
            ticket,
            Seat {
                settled: true,
                ..seat
            },
        );
    }

    /// A ticket ends, and its op leaves.
    pub(crate) fn drop_op(&mut self, ticket: u64)
        ensures { self.new ≡ op_dropped self.old ticket (fin.get self.old.seats ticket) }
    {
        let Some(seat) = self.seat(ticket) else {
            return;
        };
        self.remove_op(seat.op);
        self.end(ticket);
    }

    /// A shard's unit ends with its result.
    pub(crate) fn finish(&mut self, ticket: u64, outcome: ShardResult) -> Result<(), AllocError>
        ensures { OnOk result (self.new ≡ done_in self.old ticket (result_of outcome) (fin.get self.old.seats ticket)) }
    {
        let Some(seat) = self.seat(ticket) else {
            return Ok(());
        };
        let Some(completes) = self.completes(seat.op, ticket) else {
            return Ok(());
        };
        self.complete(completes, seat.op)?;
        self.end(ticket);
        self.mark_op(seat.op, ticket, outcome);
        Ok(())
    }

    /// A delete fails.
    fn fail_open(&mut self, number: u64)
        ensures { self.new ≡ delete_changed delete_failing self.old number (fin.get self.old.deletes number) }
    {
        if let Some(at) = delete_place(&self.deletes, number) {
            self.deletes[at].fail();
        }
    }

    /// Whether a delete of this number is open.
    fn has_delete(&self, number: u64) -> bool
        ensures { result ≡ is_some (fin.get self.now.deletes number) }
    {
        delete_place(&self.deletes, number).is_some()
    }

    /// The delete of a ticket fails, where it is open, and the ticket ends.
    fn fail_deletion(&mut self, ticket: u64, seat: Seat)
        ensures { self.new ≡ deletion_failed_by self.old ticket (seat_of_code seat) (fin.get self.old.deletes seat.op) }
    {
        if !self.has_delete(seat.op) {
            return;
        }
        self.end(ticket);
        self.fail_open(seat.op);
    }

    /// The unit of a delete has failed in this term.
    pub(crate) fn fail_delete(&mut self, term: u64, ticket: u64)
        ensures { self.new ≡ deletion_failed_in term self.old ticket (fin.get self.old.seats ticket) }
    {
        let Some(seat) = self.seat(ticket) else {
            return;
        };
        if seat.is_stale(term) {
            self.end(ticket);
            return;
        }
        self.fail_deletion(ticket, seat);
    }

    /// Whether an op of this number is open.
    fn has_op(&self, number: u64) -> bool
        ensures { result ≡ is_some (fin.get self.now.ops number) }
    {
        place(&self.ops, number).is_some()
    }

    /// The op of a ticket fails, where it is open, and the ticket ends.
    fn fail_unit(&mut self, ticket: u64, seat: Seat)
        ensures { self.new ≡ failed_by self.old ticket (seat_of_code seat) (fin.get self.old.ops seat.op) }
    {
        if !self.has_op(seat.op) {
            return;
        }
        self.end(ticket);
        self.fail_op(seat.op, ticket);
    }

    /// A unit has failed in this term.
    pub(crate) fn fail(&mut self, term: u64, ticket: u64)
        ensures { self.new ≡ failed_in term self.old ticket (fin.get self.old.seats ticket) }
    {
        let Some(seat) = self.seat(ticket) else {
            return;
        };
        if seat.is_stale(term) {
            self.end(ticket);
            return;
        }
        self.fail_unit(ticket, seat);
    }
}
