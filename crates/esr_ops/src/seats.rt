//! What is kept of a ticket that is out.
ghost use Rattle.std.specs.Prelude.{◌≡◌};
ghost use Rattle.esr_ops.specs.Plan.{seat_of_code};
ghost use Rattle.esr_ops.specs.Seats.{is_stale_seat, can_abort, is_swap_out, is_unit_out, has_op, swaps_op};

use crate::Seat;

impl Seat {
    /// Whether it is no drop.
    pub fn can_abort(&self) -> bool
        ensures { result ≡ can_abort (seat_of_code self.now) }
    {
        !self.kind.is_drop()
    }

    /// Whether it is a swap of the term that hasn't settled.
    pub fn is_swap_out(&self, term: u64) -> bool
        ensures { result ≡ is_swap_out term (seat_of_code self.now) }
    {
        !self.settled && self.term == term && self.kind.is_master()
    }

    /// Whether it is a unit of the op: a shard's of any term, another's of this one.
    pub fn is_unit_out(&self, term: u64, op: u64) -> bool
        ensures { result ≡ is_unit_out term op (seat_of_code self.now) }
    {
        self.op == op && (self.kind.is_of_shard() || self.term == term)
    }

    /// Whether it is of the term and has the op.
    pub fn has_op(&self, term: u64, op: u64) -> bool
        ensures { result ≡ has_op term op (seat_of_code self.now) }
    {
        self.term == term && self.op == op
    }

    /// Whether it is a swap, too, that hasn't settled.
    pub fn swaps_op(&self, term: u64, op: u64) -> bool
        ensures { result ≡ swaps_op term op (seat_of_code self.now) }
    {
        self.has_op(term, op) && !self.settled && self.kind.is_master()
    }

    /// Whether it is of a master that is none any more: a shard's unit never is.
    pub fn is_stale(&self, term: u64) -> bool
        ensures { result ≡ is_stale_seat term (seat_of_code self.now) }
    {
        !self.kind.is_of_shard() && self.term != term
    }
}
