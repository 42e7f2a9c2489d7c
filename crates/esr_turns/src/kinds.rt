// The rule of the lock, and the kinds of atomic step: draw, look, count, serve, a seat that is split and seats that are
// joined. The seventh and eighth, lift and home, exchange the value that a seat has taken.
ghost use Rattle.std.specs.Prelude.{ℕ, List};

use crate::logged::Logged;
use crate::view::View;
use atomic_table::{Join, Play, Split, TableRule};
use std::marker::{Brand, PhantomData};
use std::snapshot::Snapshot;

/// The rule of the lock.
pub struct OneAtATime<T> {
    of: PhantomData<T>,
}

impl<T: Logged> TableRule<Option<T>, View<T, T::Event>, Snapshot<T>> for OneAtATime<T> {
    ghost use Rattle.esr_turns.specs.Rule.{Kept};
    ghost use Rattle.esr_turns.specs.Views.{newcomer};

    ghost holds = { λ _. Kept T.history T.of T.gave };

    ghost first = { λ k. newcomer k.value };
}

/// Takes the next ticket.
pub struct Draw;

impl<T, E> Play<Option<T>, View<T, E>> for Draw {
    ghost use Rattle.esr_turns.specs.Kinds.{HasDrawn};

    ghost then = { HasDrawn };
}

/// Reads which ticket is served. Who finds its own takes the value out of the slot.
pub struct Look<T> {
    of: PhantomData<T>,
}

impl<T: Logged> Play<Option<T>, View<T, T::Event>> for Look<T> {
    ghost use Rattle.esr_turns.specs.Kinds.{HasLooked};

    ghost then = { HasLooked T.history T.of T.gave };
}

/// The entries that a turn added.
pub trait Adds<E> {
    ghost added: { List E };
}

impl<E> Adds<E> for Brand {
    ghost use Rattle.std.specs.Prelude.{[]};

    ghost added = { [] };
}

/// Adds them to the count of entries.
pub struct Count<J> {
    of: PhantomData<J>,
}

impl<T, E, J: Adds<E>> Play<Option<T>, View<T, E>> for Count<J> {
    ghost use Rattle.esr_turns.specs.Kinds.{HasCounted};

    ghost then = { HasCounted J.added };
}

/// Gives the value back to the slot, and lets the next ticket in.
pub struct Serve;

impl<T, E> Play<Option<T>, View<T, E>> for Serve {
    ghost use Rattle.esr_turns.specs.Kinds.{HasServed};

    ghost then = { HasServed };
}

/// The turns that a new pass gets.
pub trait Share {
    ghost share: { ℕ };
}

impl Share for Brand {
    ghost share = { 0 };
}

/// Cuts a seat in two.
pub struct SplitSeat<J> {
    of: PhantomData<J>,
}

impl<T, E, J: Share> Split<View<T, E>> for SplitSeat<J> {
    ghost use Rattle.esr_turns.specs.Views.{without_share, with_share};

    ghost left = { without_share J.share };

    ghost right = { with_share J.share };
}

/// Makes two seats one.
pub struct JoinSeats;

impl<T, E> Join<View<T, E>> for JoinSeats {
    ghost use Rattle.esr_turns.specs.Views.{both_of, spent};

    ghost both = { both_of };

    ghost spent = { spent };
}
