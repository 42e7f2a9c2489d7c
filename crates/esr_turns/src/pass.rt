// The right to take turns, and the value that a turn lends.
ghost use Rattle.std.specs.Prelude.{◌≡◌};

use crate::logged::Logged;
use crate::view::View;
use atomic_table::Seat;
use std::marker::Model;

/// The right to take turns at one lock. Contracts see its lock, the entries that it has seen, the places of its own
/// among them, how many turns it has left and has used, and the value that it put into the lock last. One that is
/// dropped takes its turns along: the lock can't be closed then.
#[derive(Drop)]
pub struct Pass<T: Logged> {
    pub(crate) seat: Seat<Option<T>, View<T, T::Event>>,
    pub(crate) left: u64,
}

impl<T: Logged> Model for Pass<T> {
    ghost use Rattle.std.specs.Prelude.{◌≡◌, []};
    ghost use Rattle.esr_turns.specs.declared.view.Stage.TheVariants.{Idle};
    ghost use Rattle.esr_turns.specs.Passes.{Holder, holder};

    ghost Value = { Holder T T.Event };

    ghost view = { λ p. holder p.seat.table_id p.seat.me.0 };

    ghost invariant = { λ p. (p.seat.me.1 ≡ []) × (p.seat.me.0.stage ≡ Idle) × (p.seat.me.0.left ≡ p.left) };
}

impl<T: Logged> Pass<T> {
    /// How many turns it has left.
    pub fn left(&self) -> u64
        ensures { result ≡ self.now.left }
    {
        self.left
    }
}

/// A pass whose turn it is. Contracts see it as a pass.
pub struct Turn<T: Logged> {
    pub(crate) seat: Seat<Option<T>, View<T, T::Event>>,
    pub(crate) ticket: u64,
    pub(crate) entries: u64,
    pub(crate) left: u64,
}

impl<T: Logged> Model for Turn<T> {
    ghost use Rattle.std.specs.Prelude.{◌≡◌, ◌≤◌, ◌+◌, [], ◌∷◌, None, length};
    ghost use Rattle.esr_turns.specs.declared.view.Stage.TheVariants.{Lifted};
    ghost use Rattle.esr_turns.specs.Passes.{Holder, holder};

    ghost Value = { Holder T T.Event };

    ghost view = { λ p. holder p.seat.table_id p.seat.me.0 };

    ghost invariant = { λ p. (p.seat.me.1 ≡ (0, None) ∷ []) × (p.seat.me.0.stage ≡ Lifted p.ticket)
        × (p.seat.me.0.left ≡ p.left) × (length p.seat.me.0.seen ≡ p.entries) × (p.seat.me.0.last ≤ p.ticket + 1) };
}

/// The value, lent for one turn. Change it in place, by at most one entry, and give it back with `TurnLock::home`.
pub struct Held<T: Logged> {
    pub value: T,
    pub turn: Turn<T>,
}
