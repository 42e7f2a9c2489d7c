//! The tickets that are out. One that ends is kept no more.
ghost use Rattle.std.specs.Prelude.{◌≡◌, ◌<◌, ◌^◌, true, suc, option_map, is_some, position, ◌==◌, IfOk, OnOk};
ghost use Rattle.std.specs.FinMap as fin;
ghost use Rattle.esr_ops.specs.Plan.{seat_of_code, reader_of_code};
ghost use Rattle.esr_ops.specs.Seats.{any_seat, has_op, is_swap_out, is_unit_out, swaps_op};
ghost use Rattle.esr_progress.specs.Choice.{first_number};
ghost use Rattle.esr_progress.specs.TicketMaps.{no_tickets};

use esr_ops::{ReaderSeat, Seat};
use esr_seq::{TryClone, copies_of};
use std::alloc::{AllocError, Global};
use std::marker::Model;

/// What is kept of a ticket, under its number.
#[derive(Drop)]
struct SeatEntry {
    ticket: u64,
    seat: Seat,
}

impl Model for SeatEntry {
    ghost use Rattle.std.specs.Prelude.{ℕ};
    ghost use Rattle.esr_ops.specs.Plan.{Seat as Kept, seat_of_code};

    ghost Value = { ℕ × Kept };

    ghost view = { λ a. (a.ticket, seat_of_code a.seat) };
}

/// What is kept of a restore's ticket, under its number.
#[derive(Drop)]
struct ReaderEntry {
    ticket: u64,
    reader: ReaderSeat,
}

impl Model for ReaderEntry {
    ghost use Rattle.std.specs.Prelude.{ℕ};
    ghost use Rattle.esr_ops.specs.Plan.{ReaderSeat as Kept, reader_of_code};

    ghost Value = { ℕ × Kept };

    ghost view = { λ a. (a.ticket, reader_of_code a.reader) };
}

/// The tickets that are out, by number, those of restores apart, and the number of the next one: they begin with 1.
#[derive(Drop)]
pub struct Tickets {
    seats: Vec<SeatEntry>,
    readers: Vec<ReaderEntry>,
    next: u64,
}

impl Model for Tickets {
    ghost use Rattle.esr_ops.specs.Plan.{TicketMaps};
    ghost use Rattle.esr_progress.specs.Codes.{tickets_code};

    ghost Value = { TicketMaps };

    ghost coded = { tickets_code };

    ghost use Rattle.esr_progress.specs.TicketMaps.{tickets_with, AreTickets};

    ghost view = { λ a. tickets_with a.seats.items a.readers.items a.next };

    ghost invariant = { λ a. AreTickets a.seats.items a.readers.items a.next };
}

impl SeatEntry {
    fn ticket(&self) -> u64
        ensures { result ≡ self.now.0 }
    {
        self.ticket
    }

    fn seat(&self) -> Seat
        ensures { seat_of_code result ≡ self.now.1 }
    {
        self.seat
    }

    fn put(&mut self, seat: Seat)
        ensures { self.new ≡ (self.old.0, seat_of_code seat) }
    {
        self.seat = seat;
    }
}

impl TryClone for SeatEntry {
    fn try_clone(&self, _alloc: Global) -> Result<SeatEntry, AllocError> {
        Ok(SeatEntry {
            ticket: self.ticket,
            seat: self.seat,
        })
    }
}

impl ReaderEntry {
    fn ticket(&self) -> u64
        ensures { result ≡ self.now.0 }
    {
        self.ticket
    }

    fn reader(&self) -> ReaderSeat
        ensures { reader_of_code result ≡ self.now.1 }
    {
        self.reader
    }
}

impl TryClone for ReaderEntry {
    fn try_clone(&self, _alloc: Global) -> Result<ReaderEntry, AllocError> {
        Ok(ReaderEntry {
            ticket: self.ticket,
            reader: self.reader,
        })
    }
}

impl Tickets {
    /// None; asks for no memory.
    pub(crate) fn new(alloc: Global) -> Tickets
        ensures { result ≡ no_tickets }
    {
        Tickets {
            seats: Vec::new(alloc),
            readers: Vec::new(alloc),
            next: 1,
        }
    }

    /// The number of the next ticket.
    pub(crate) fn next(&self) -> u64
        ensures { result ≡ self.now.next }
    {
        self.next
    }

    /// A copy.
    pub(crate) fn try_clone(&self, alloc: Global) -> Result<Tickets, AllocError>
        ensures { IfOk result (λ t. t ≡ self.now) }
    {
        Ok(Tickets {
            seats: copies_of(alloc, &self.seats)?,
            readers: copies_of(alloc, &self.readers)?,
            next: self.next,
        })
    }

    /// What is kept of a ticket.
    pub(crate) fn seat(&self, ticket: u64) -> Option<Seat>
        ensures { option_map seat_of_code result ≡ fin.get self.now.seats ticket }
    {
        let at = seat_place(&self.seats, ticket)?;
        Some(self.seats[at].seat())
    }

    /// What is kept of a restore's ticket.
    pub(crate) fn reader(&self, ticket: u64) -> Option<ReaderSeat>
        ensures { option_map reader_of_code result ≡ fin.get self.now.readers ticket }
    {
        let at = reader_place(&self.readers, ticket)?;
        Some(self.readers[at].reader())
    }

    /// Gives the next ticket.
    pub(crate) fn give(&mut self, seat: Seat) -> Result<(), AllocError>
        requires { self.old.next < 2 ^ 62 }
        ensures { OnOk result (self.new ≡ record self.old { seats = fin.insert self.old.seats self.old.next (seat_of_code seat); next = suc self.old.next }) }
    {
        let ticket = self.next;
        self.seats.push(SeatEntry { ticket, seat })?;
        self.next += 1;
        Ok(())
    }

    /// Gives the next ticket to a restore.
    pub(crate) fn give_reader(&mut self, reader: ReaderSeat) -> Result<(), AllocError>
        requires { self.old.next < 2 ^ 62 }
        ensures { OnOk result (self.new ≡ record self.old { readers = fin.insert self.old.readers self.old.next (reader_of_code reader); next = suc self.old.next }) }
    {
        let ticket = self.next;
        self.readers.push(ReaderEntry { ticket, reader })?;
        self.next += 1;
        Ok(())
    }

    /// Keeps this of a ticket.
    pub(crate) fn put(&mut self, ticket: u64, seat: Seat)
        requires { is_some (fin.get self.old.seats ticket) ≡ true }
        ensures { self.new ≡ record self.old { seats = fin.insert self.old.seats ticket (seat_of_code seat) } }
    {
        if let Some(at) = seat_place(&self.seats, ticket) {
            self.seats[at].put(seat);
        }
    }

    /// A ticket ends.
    pub(crate) fn end(&mut self, ticket: u64)
        ensures { self.new ≡ record self.old { seats = fin.remove self.old.seats ticket } }
    {
        self.seats.retain(|entry| entry.ticket() != ticket);
    }

    /// A restore's ticket ends.
    pub(crate) fn end_reader(&mut self, ticket: u64)
        ensures { self.new ≡ record self.old { readers = fin.remove self.old.readers ticket } }
    {
        self.readers.retain(|entry| entry.ticket() != ticket);
    }

    /// The lowest ticket, those of restores aside.
    pub(crate) fn first(&self) -> Option<u64>
        ensures { result ≡ first_number (fin.entries self.now.seats) }
    {
        first_ticket(self.entries())
    }

    /// What is kept of each ticket.
    fn entries(&self) -> &[SeatEntry]
        ensures { result.now ≡ fin.entries self.now.seats }
    {
        &self.seats
    }

    /// Whether a swap of the term is out.
    pub(crate) fn swap_is_out(&self, term: u64) -> bool
        ensures { result ≡ any_seat (is_swap_out term) self.now }
    {
        self.entries()
            .iter()
            .any(|entry| entry.seat().is_swap_out(term))
    }

    /// Whether a unit of the op is out.
    pub(crate) fn unit_is_out(&self, term: u64, op: u64) -> bool
        ensures { result ≡ any_seat (is_unit_out term op) self.now }
    {
        self.entries()
            .iter()
            .any(|entry| entry.seat().is_unit_out(term, op))
    }

    /// Whether a ticket of the term has the op.
    pub fn op_is_taken(&self, term: u64, op: u64) -> bool
        ensures { result ≡ any_seat (has_op term op) self.now }
    {
        self.entries()
            .iter()
            .any(|entry| entry.seat().has_op(term, op))
    }

    /// Whether a swap of the term that hasn't settled has the op.
    pub fn op_is_swapped(&self, term: u64, op: u64) -> bool
        ensures { result ≡ any_seat (swaps_op term op) self.now }
    {
        self.entries()
            .iter()
            .any(|entry| entry.seat().swaps_op(term, op))
    }
}

/// Where what is kept of a ticket stands.
fn seat_place(seats: &[SeatEntry], ticket: u64) -> Option<usize>
    ensures { result ≡ position (λ e. e.0 == ticket) seats.now }
{
    seats.iter().position(|entry| entry.ticket() == ticket)
}

/// Where what is kept of a restore's ticket stands.
fn reader_place(readers: &[ReaderEntry], ticket: u64) -> Option<usize>
    ensures { result ≡ position (λ e. e.0 == ticket) readers.now }
{
    readers.iter().position(|entry| entry.ticket() == ticket)
}

fn first_ticket(seats: &[SeatEntry]) -> Option<u64>
    ensures { result ≡ first_number seats.now }
{
    let [entry, ..] = seats else {
        return None;
    };
    Some(entry.ticket())
}
