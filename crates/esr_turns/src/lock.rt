// The lock.
ghost use Rattle.std.specs.Prelude.{◌≡◌, ℕ, [], ◌∷◌, ◌++◌, ◌<◌, ◌≤◌, ◌+◌, ◌^◌, length, drop, max, Some, None, IfOk, IfErr, ◌⊎◌};
ghost use Rattle.esr_turns.specs.declared.view.Stage.TheVariants.{Idle, Waits, Lifted, Counted};
ghost use Rattle.esr_turns.specs.Places.{places_from, merged};
ghost use Rattle.esr_turns.specs.Histories.{StartsWith, Grows, gained, longer};
ghost use Rattle.esr_turns.specs.Tickets.{MayAdd, Together};
ghost use Rattle.esr_turns.specs.Views.{later, both_of, without_share, with_share};
ghost use Rattle.esr_turns.specs.Kinds.{after_draw, after_look, after_count, after_serve, IfAlone};
ghost use Rattle.esr_turns.specs.Passes.{first_pass};

use crate::kinds::{Adds, Count, Draw, JoinSeats, Look, OneAtATime, Serve, Share, SplitSeat};
use crate::logged::Logged;
use crate::pass::{Held, Pass, Turn};
use crate::view::View;
use atomic_table::{Seat, Table};
use std::alloc::{AllocFailed, Global};
use std::marker::{Brand, Model};
use std::snapshot::Snapshot;
use std::sync::Wait;

// The words of the table: the next ticket to be drawn, the one that is served, and how many entries the history has.
const TICKET: usize = 0;

const SERVING: usize = 1;

const COUNT: usize = 2;

// Where the value lies while no pass has it.
const SLOT: usize = 0;

// How many turns a lock has in all.
const TURNS: u64 = 1 << 40;

/// A lock round a value with a history, whose turns are taken in the order in which their tickets were drawn. It has
/// 2^40 turns. Contracts see which lock it is.
pub struct TurnLock<T: Logged> {
    table: Table<Option<T>, View<T, T::Event>, Snapshot<T>, OneAtATime<T>, Global>,
}

impl<T: Logged> Model for TurnLock<T> {
    ghost use Rattle.std.specs.Prelude.{◌≡◌};
    ghost use Rattle.atomic_table.specs.Seated.{TableId, table_id_coded};

    ghost Value = { TableId };

    ghost coded = { table_id_coded };

    ghost view = { λ l. l.table.shared.table_id };

    ghost invariant = { λ l. (l.table.shared.table_id.words ≡ 3) × (l.table.shared.table_id.slots ≡ 1) };
}

impl<T: Logged> TurnLock<T> {
    /// A lock round a value with no history, and the pass that has all turns. At `Err` there was no memory, and the
    /// value comes back.
    pub fn new(alloc: Global, value: T) -> Result<(TurnLock<T>, Pass<T>), T>
        requires { T.history value ≡ [] }
        ensures ok { IfOk result (λ r. r.1 ≡ first_pass r.0 value) }
        ensures err { IfErr result (λ v. v ≡ value) }
    {
        let first = Snapshot::of(&value);
        let slots = one_slot(alloc, value)?;
        match Table::new(alloc, &[0, 0, 0], slots, &first) {
            Ok((table, seat)) => Ok((TurnLock { table }, Pass { seat, left: TURNS })),
            Err(refused) => Err(only(refused.slots)),
        }
    }

    /// Waits for the pass's turn, and lends the value.
    pub fn turn<R: Wait>(&self, rt: &R, pass: Pass<T>) -> Held<T>
        requires own { pass.lock ≡ self.now }
        requires left { 0 < pass.left }
        ensures own { result.turn.lock ≡ self.now }
        ensures value { T.history result.value ≡ result.turn.seen }
        ensures seen { StartsWith result.turn.seen pass.seen }
        ensures alone { pass.left + pass.used ≡ 2 ^ 40
            → (result.turn.seen ≡ pass.seen) × (pass.put ≡ Some result.value) }
        ensures mine { result.turn.mine ≡ pass.mine }
        ensures put { (result.turn.put ≡ pass.put) × (result.turn.last ≡ pass.last) }
        ensures together { Together T.of T.gave result.turn.seen result.turn.mine }
        ensures turns { (result.turn.left + 1 ≡ pass.left) × (result.turn.used ≡ pass.used + 1) }
    {
        let Pass { mut seat, left } = pass;
        let ticket = self.draw(&mut seat);
        self.wait(rt, &mut seat, ticket);
        let value = self.lift(&mut seat);
        let entries = value.entries();
        Held {
            value,
            turn: Turn {
                seat,
                ticket,
                entries,
                left: left - 1,
            },
        }
    }

    /// Gives the value back. Its history is the one that it had when it was lent, or has one entry more: one of no
    /// ticket or of a ticket that an entry of the pass's own gave, which gives no ticket that was given before.
    pub fn home(&self, held: Held<T>) -> Pass<T>
        requires own { held.turn.lock ≡ self.now }
        requires grown { Grows held.turn.seen (T.history held.value) }
        requires may { (e : T.Event) → T.history held.value ≡ held.turn.seen ++ e ∷ []
            → MayAdd T.of T.gave held.turn.seen held.turn.mine e }
        ensures own { result.lock ≡ self.now }
        ensures seen { result.seen ≡ T.history held.value }
        ensures mine { result.mine ≡ held.turn.mine ++ gained held.turn.seen (T.history held.value) }
        ensures put { (result.put ≡ Some held.value) × (held.turn.last < result.last) }
        ensures turns { (result.left ≡ held.turn.left) × (result.used ≡ held.turn.used) }
    {
        let Held { value, turn } = held;
        let Turn {
            mut seat,
            ticket,
            entries,
            left,
        } = turn;
        self.count::<Brand>(&mut seat, &value, entries, ticket);
        self.put(&mut seat, value);
        self.serve(&mut seat, ticket);
        Pass { seat, left }
    }

    /// Gives a share of what is left to a new pass, which has seen as much and has no place of its own.
    pub fn split(&self, pass: Pass<T>, share: u64) -> (Pass<T>, Pass<T>)
        requires own { pass.lock ≡ self.now }
        requires share { share < pass.left }
        ensures own { (result.0.lock ≡ self.now) × (result.1.lock ≡ self.now) }
        ensures old_turns { (result.0.left + share ≡ pass.left) × (result.0.used ≡ pass.used) }
        ensures old_places { (result.0.seen ≡ pass.seen) × (result.0.mine ≡ pass.mine) }
        ensures old_put { (result.0.put ≡ pass.put) × (result.0.last ≡ pass.last) }
        ensures new_turns { (result.1.left ≡ share) × (result.1.used ≡ 0) }
        ensures new_places { (result.1.seen ≡ pass.seen) × (result.1.mine ≡ []) }
        ensures new_put { (result.1.put ≡ None) × (result.1.last ≡ 0) }
    {
        let Pass { mut seat, left } = pass;
        let other = self.split_seat::<Brand>(&mut seat, share);
        let kept = left - share;
        (
            Pass { seat, left: kept },
            Pass {
                seat: other,
                left: share,
            },
        )
    }

    /// Puts two passes together.
    pub fn join(&self, one: Pass<T>, other: Pass<T>) -> Pass<T>
        requires own { (one.lock ≡ self.now) × (other.lock ≡ self.now) }
        ensures own { result.lock ≡ self.now }
        ensures seen { result.seen ≡ longer one.seen other.seen }
        ensures both { StartsWith result.seen one.seen × StartsWith result.seen other.seen }
        ensures mine { result.mine ≡ merged one.mine other.mine }
        ensures put { result.put ≡ later one.last other.last one.put other.put }
        ensures last { result.last ≡ max one.last other.last }
        ensures turns { (result.left ≡ one.left + other.left) × (result.used ≡ one.used + other.used) }
    {
        let Pass { mut seat, left } = one;
        let Pass {
            seat: second,
            left: more,
        } = other;
        self.join_seats(&mut seat, second);
        Pass {
            seat,
            left: left + more,
        }
    }

    /// The value, once all passes were joined.
    pub fn close(self, pass: Pass<T>) -> T
        requires own { pass.lock ≡ self }
        requires all { pass.left + pass.used ≡ 2 ^ 40 }
        ensures history { T.history result ≡ pass.seen }
        ensures mine { pass.mine ≡ places_from 0 pass.seen }
        ensures value { pass.put ≡ Some result }
    {
        let TurnLock { table } = self;
        let Pass { seat, left: _ } = pass;
        let mut closed = table.close_with(seat);
        let slot = closed.take(SLOT);
        closed.free();
        let Some(value) = slot else { unreachable!() };
        value
    }

    fn draw(&self, seat: &mut Seat<Option<T>, View<T, T::Event>>) -> u64
        requires own { seat.old.table_id ≡ self.now }
        requires idle { seat.old.me.0.stage ≡ Idle }
        requires left { 0 < seat.old.me.0.left }
        ensures own { seat.new.table_id ≡ seat.old.table_id }
        ensures drawn { seat.new.me ≡ (after_draw seat.old.me.0 result, seat.old.me.1) }
    {
        self.table.shared.fetch_add::<Draw>(seat, TICKET, 1)
    }

    // Waits until the ticket is served.
    fn wait<R: Wait>(&self, rt: &R, seat: &mut Seat<Option<T>, View<T, T::Event>>, ticket: u64)
        requires own { seat.old.table_id ≡ self.now }
        requires waits { (seat.old.me.0.stage ≡ Waits ticket) × (seat.old.me.1 ≡ []) }
        ensures own { seat.new.table_id ≡ seat.old.table_id }
        ensures together { Together T.of T.gave seat.new.me.0.seen seat.new.me.0.mine }
        ensures taken { (x : T) × (seat.new.me ≡ (after_look seat.old.me.0 ticket (T.history x), (0, Some x) ∷ []))
            × StartsWith (T.history x) seat.old.me.0.seen × IfAlone T.history x seat.old.me.0 }
        ensures last { seat.new.me.0.last ≤ ticket + 1 }
    {
        for _ in rt.forever() {
            let serving = self.table.shared.load::<Look<T>>(seat, SERVING);
            if serving == ticket {
                return;
            }
            self.table
                .shared
                .park(rt, SERVING, (serving % (1 << 32)) as u32);
        }
        unreachable!()
    }

    // Takes the value out of the slot.
    fn lift(&self, seat: &mut Seat<Option<T>, View<T, T::Event>>) -> T
        requires own { seat.old.table_id ≡ self.now }
        requires full { (x : T) × (seat.old.me.1 ≡ (0, Some x) ∷ []) }
        ensures own { seat.new.table_id ≡ seat.old.table_id }
        ensures value { seat.old.me.1 ≡ (0, Some result) ∷ [] }
        ensures empty { seat.new.me ≡ (seat.old.me.0, (0, None) ∷ []) }
    {
        let Some(value) = self.table.shared.exchange(seat, SLOT, None) else {
            unreachable!()
        };
        value
    }

    // Adds what the turn added, one entry at most, to the count.
    fn count<J: Adds<T::Event>>(
        &self,
        seat: &mut Seat<Option<T>, View<T, T::Event>>,
        value: &T,
        entries: u64,
        ticket: u64,
    )
        requires own { seat.old.table_id ≡ self.now }
        requires lifted { (seat.old.me.0.stage ≡ Lifted ticket) × (length seat.old.me.0.seen ≡ entries) }
        requires added { (T.history value.now ≡ seat.old.me.0.seen ++ J.added) × (length J.added ≤ 1) }
        requires may { (e : T.Event) → J.added ≡ e ∷ []
            → MayAdd T.of T.gave seat.old.me.0.seen seat.old.me.0.mine e }
        ensures own { seat.new.table_id ≡ seat.old.table_id }
        ensures counted { seat.new.me ≡ (after_count seat.old.me.0 ticket J.added, seat.old.me.1) }
    {
        let added = value.entries() - entries;
        self.table.shared.fetch_add::<Count<J>>(seat, COUNT, added);
    }

    // Puts the value back into the slot.
    fn put(&self, seat: &mut Seat<Option<T>, View<T, T::Event>>, value: T)
        requires own { seat.old.table_id ≡ self.now }
        requires empty { seat.old.me.1 ≡ (0, None) ∷ [] }
        ensures own { seat.new.table_id ≡ seat.old.table_id }
        ensures full { seat.new.me ≡ (seat.old.me.0, (0, Some value) ∷ []) }
    {
        let old = self.table.shared.exchange(seat, SLOT, Some(value));
        let None = old else { unreachable!() };
    }

    // Gives the slot back, and lets the next ticket in.
    fn serve(&self, seat: &mut Seat<Option<T>, View<T, T::Event>>, ticket: u64)
        requires own { seat.old.table_id ≡ self.now }
        requires counted { seat.old.me.0.stage ≡ Counted ticket }
        requires home { (x : T) × (seat.old.me.1 ≡ (0, Some x) ∷ []) × (T.history x ≡ seat.old.me.0.seen) }
        ensures own { seat.new.table_id ≡ seat.old.table_id }
        ensures served { (x : T) → seat.old.me.1 ≡ (0, Some x) ∷ []
            → seat.new.me ≡ (after_serve seat.old.me.0 ticket x, []) }
    {
        self.table.shared.fetch_add::<Serve>(seat, SERVING, 1);
        self.table.shared.wake_all(SERVING);
    }

    fn split_seat<J: Share>(
        &self,
        seat: &mut Seat<Option<T>, View<T, T::Event>>,
        share: u64,
    ) -> Seat<Option<T>, View<T, T::Event>>
        requires picked { J.share ≡ share }
        requires own { seat.old.table_id ≡ self.now }
        requires idle { seat.old.me.0.stage ≡ Idle }
        requires share { share < seat.old.me.0.left }
        ensures own { (seat.new.table_id ≡ seat.old.table_id) × (result.table_id ≡ seat.old.table_id) }
        ensures old { seat.new.me ≡ (without_share share seat.old.me.0, seat.old.me.1) }
        ensures new { result.me ≡ (with_share share seat.old.me.0, []) }
    {
        self.table.shared.split_seat::<SplitSeat<J>>(seat)
    }

    // Joins them, and looks: so it learns that both had seen beginnings of one history.
    fn join_seats(
        &self,
        seat: &mut Seat<Option<T>, View<T, T::Event>>,
        other: Seat<Option<T>, View<T, T::Event>>,
    )
        requires own { (seat.old.table_id ≡ self.now) × (other.table_id ≡ seat.old.table_id) }
        requires idle { (seat.old.me.0.stage ≡ Idle) × (other.me.0.stage ≡ Idle) }
        requires empty { (seat.old.me.1 ≡ []) × (other.me.1 ≡ []) }
        ensures own { seat.new.table_id ≡ seat.old.table_id }
        ensures joined { seat.new.me ≡ (both_of seat.old.me.0 other.me.0, []) }
        ensures seen { StartsWith seat.new.me.0.seen seat.old.me.0.seen }
        ensures told { StartsWith seat.new.me.0.seen other.me.0.seen }
        ensures few { seat.new.me.0.left + seat.new.me.0.used ≤ 2 ^ 40 }
    {
        self.table.shared.join_seat::<JoinSeats>(seat, other);
        self.table.shared.load::<Look<T>>(seat, SERVING);
    }
}

// A list of the value alone. At `Err` there was no memory.
fn one_slot<T>(alloc: Global, value: T) -> Result<Vec<Option<T>>, T>
    ensures ok { IfOk result (λ v. v.items ≡ Some value ∷ []) }
    ensures err { IfErr result (λ v. v ≡ value) }
{
    let mut slots = Vec::new(alloc);
    match slots.push(Some(value)) {
        Ok(()) => Ok(slots),
        Err(failed) => {
            let AllocFailed { value } = failed;
            slots.destroy_empty();
            let Some(value) = value else { unreachable!() };
            Err(value)
        }
    }
}

// The value of such a list.
fn only<T>(mut slots: Vec<Option<T>>) -> T
    requires { (x : T) × (slots.items ≡ Some x ∷ []) }
    ensures { slots.items ≡ Some result ∷ [] }
{
    let Some(Some(value)) = slots.pop() else {
        unreachable!()
    };
    slots.destroy_empty();
    value
}
