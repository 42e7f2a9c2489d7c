//! A worker's pass at its lock, and a turn of it.
ghost use Rattle.std.specs.Prelude.{◌≡◌, ◌+◌, ◌<◌, ◌≤◌, ◌^◌, ◌++◌, length, Bool, true, false, not, None, is_some, IfOk, IfErr, OnErr};
ghost use Rattle.esr_desk.specs.Outcome.{Grounds};
ghost use Rattle.esr_desk.specs.Refusals.{told_refusal};
ghost use Rattle.esr_desk.specs.Start.{Legal};
ghost use Rattle.esr_handle.specs.Turned.{was_told, shared, or_no_seat, IsFit, IsLent, Turned, Came, Homed, RefusesTurn};

use crate::{Share, Since, Sitting};
use esr_desk::{Desk, Sole, StepRefusal, each_ticket_is_given_once};
use esr_turns::{Held, Pass, Turn, TurnLock};
use std::marker::{Model, PhantomData};
use std::sync::Wait;

/// A worker's pass at its lock. After an answer that the history doesn't tell it is over, and takes no turn any more.
#[derive(Drop)]
pub(crate) struct Seat<'a, Q: Sole, B: Since, W: Share, R> {
    lock: &'a TurnLock<Sitting<Q, B>>,
    rt: &'a R,
    pass: Pass<Sitting<Q, B>>,
    pub(crate) is_over: bool,
    of: PhantomData<W>,
}

impl<'a, Q: Sole, B: Since, W: Share, R> Model for Seat<'a, Q, B, W, R> {
    ghost use Rattle.std.specs.Coded.{codes};
    ghost use Rattle.esr_depot.specs.Image.{blobs_code};
    ghost use Rattle.esr_handle.specs.Turned.{Seated, IsSeat};

    ghost Value = { Seated };

    ghost coded = { Prim.hlevel (codes, blobs_code) };

    ghost view = { λ s. record { pass = s.pass; is_over = s.is_over } };

    ghost invariant = { λ s. IsSeat Q.start B.before W.lock W.total s.lock.now s.is_over s.pass };
}

/// A turn of a worker, with the desk out of the lock.
pub(crate) struct Lent<'a, Q: Sole, B: Since, W: Share, R> {
    lock: &'a TurnLock<Sitting<Q, B>>,
    rt: &'a R,
    pub(crate) desk: Q,
    base: u64,
    turn: Turn<Sitting<Q, B>>,
    of: PhantomData<W>,
}

impl<'a, Q: Sole, B: Since, W: Share, R> Seat<'a, Q, B, W, R> {
    /// The seat of a pass that has used no turn yet.
    pub(crate) fn new(
        lock: &'a TurnLock<Sitting<Q, B>>,
        rt: &'a R,
        pass: Pass<Sitting<Q, B>>,
    ) -> Seat<'a, Q, B, W, R>
        requires own { (pass.lock ≡ lock.now) × (lock.now ≡ W.lock) }
        requires turns { (pass.left ≡ W.total) × (pass.used ≡ 0) }
        requires much { 2 ^ 33 ≤ Q.start.earlier_turns + W.total }
        requires fit { IsFit Q.start B.before pass }
        ensures pass { result.pass ≡ pass }
        ensures live { result.is_over ≡ false }
    {
        Seat {
            lock,
            rt,
            pass,
            is_over: false,
            of: PhantomData,
        }
    }

    /// Its pass.
    pub(crate) fn into_pass(self) -> Pass<Sitting<Q, B>>
        ensures pass { result ≡ self.entry.pass }
        ensures own { result.lock ≡ W.lock }
        ensures turns { result.left + result.used ≡ W.total }
        ensures fit { IsFit Q.start B.before result }
    {
        let Seat { pass, .. } = self;
        pass
    }
}

/// The turns of a worker.
pub(crate) trait Turns {
    type Lent;

    ghost may_turn: { Self → Type 0 };

    /// Whether it takes no turn any more. Else each turn that it used is an entry of the history.
    fn is_over(&self) -> bool;

    /// How many turns are left.
    fn left(&self) -> u64;

    /// Waits for its turn.
    fn turn(self) -> Self::Lent
        requires { may_turn self };
}

impl<'a, Q: Sole, B: Since, W: Share, R: Wait> Turns for Seat<'a, Q, B, W, R> {
    type Lent = Lent<'a, Q, B, W, R>;

    ghost may_turn = { λ s. (0 < s.pass.left) × (s.is_over ≡ false) };

    fn is_over(&self) -> bool
        ensures is { result ≡ self.now.is_over }
        ensures legal { Legal Q.start (B.before ++ self.now.pass.seen) }
        ensures spent { result ≡ false → self.now.pass.left ≡ 0 → 2 ^ 33 ≤ Q.start.earlier_turns + length (B.before ++ self.now.pass.seen) }
    {
        self.is_over
    }

    fn left(&self) -> u64
        ensures { result ≡ self.now.pass.left }
    {
        self.pass.left()
    }

    fn turn(self) -> Lent<'a, Q, B, W, R>
        requires { (0 < self.pass.left) × (self.is_over ≡ false) }
        ensures lent { IsLent Q.start W.lock W.total result.lock.now result.turn }
        ensures turned { Turned Q.start B.before self.entry.pass result.turn (Q.seen result.desk) }
        ensures base { result.base ≡ length B.before }
    {
        esr_core::each_step_leaves_the_others();
        each_ticket_is_given_once();
        let Seat { lock, rt, pass, .. } = self;
        let held = lock.turn(rt, pass);
        let Held { value, turn } = held;
        let Sitting { desk, base, of: _ } = value;
        desk.is_legal();
        Lent {
            lock,
            rt,
            desk,
            base,
            turn,
            of: PhantomData,
        }
    }
}

/// The end of a turn: at most one entry came, and `is_told` says whether one did.
pub(crate) struct TurnEnd<'a, Q: Sole, B: Since, W: Share, R> {
    pub(crate) lent: Lent<'a, Q, B, W, R>,
    pub(crate) is_told: bool,
}

impl<'a, Q: Sole, B: Since, W: Share, R> Model for TurnEnd<'a, Q, B, W, R> {
    ghost use Rattle.std.specs.Prelude.{◌≡◌, List, length, Bool, true};
    ghost use Rattle.std.specs.Coded.{codes};
    ghost use Rattle.esr_depot.specs.Image.{blobs_code};
    ghost use Rattle.esr_core.specs.Entry.{Moment};
    ghost use Rattle.esr_handle.specs.Turned.{Seen, IsLent, Came};

    ghost Value = { Seen × List Moment × Bool };

    ghost coded = { Prim.hlevel (codes, blobs_code) };

    ghost view = { λ e. (e.lent.turn, Q.seen e.lent.desk, e.is_told) };

    ghost invariant = { λ e. IsLent Q.start W.lock W.total e.lent.lock.now e.lent.turn × (e.lent.base ≡ length B.before) × (Q.start.alone ≡ true) × Came B.before e.lent.turn (Q.seen e.lent.desk) e.is_told };
}

/// Brings the desk home.
pub(crate) trait Ends {
    type Seat;

    fn home(self) -> Self::Seat;
}

impl<'a, Q: Sole, B: Since, W: Share, R> Ends for TurnEnd<'a, Q, B, W, R> {
    type Seat = Seat<'a, Q, B, W, R>;

    fn home(self) -> Seat<'a, Q, B, W, R>
        ensures pass { Homed B.before self.entry.0 self.entry.1 result.pass }
        ensures over { result.is_over ≡ not self.entry.2 }
    {
        let TurnEnd { lent, is_told } = self;
        let Lent {
            lock,
            rt,
            desk,
            base,
            turn,
            of: _,
        } = lent;
        desk.is_legal();
        desk.never_fails();
        let value = Sitting {
            desk,
            base,
            of: PhantomData,
        };
        let pass = lock.home(Held { value, turn });
        Seat {
            lock,
            rt,
            pass,
            is_over: !is_told,
            of: PhantomData,
        }
    }
}

/// Where a worker sits between its turns. (Its methods are those of a trait, since the steps of a trait call them.)
pub(crate) trait Place {
    type Lent;

    type End;

    ghost may_begin: { Self → Type 0 };

    /// Waits for its turn, in which it has no seat. It is refused where it is over or has no turn left.
    fn begin_turn(&mut self) -> Result<Self::Lent, StepRefusal>
        requires { may_begin self.old };

    /// Gives the desk back.
    fn end_turn(&mut self, end: Self::End);
}

impl<'a, Q: Sole, B: Since, W: Share, R: Wait> Place for Option<Seat<'a, Q, B, W, R>> {
    type Lent = Lent<'a, Q, B, W, R>;

    type End = TurnEnd<'a, Q, B, W, R>;

    ghost may_begin = { λ o. is_some o ≡ true };

    fn begin_turn(&mut self) -> Result<Lent<'a, Q, B, W, R>, StepRefusal>
        requires { is_some self.old ≡ true }
        ensures lent { IfOk result (λ l. IsLent Q.start W.lock W.total l.lock.now l.turn) }
        ensures turned { IfOk result (λ l. Turned Q.start B.before (or_no_seat self.old).pass l.turn (Q.seen l.desk)) }
        ensures base { IfOk result (λ l. l.base ≡ length B.before) }
        ensures kept { OnErr result (self.new ≡ self.old) }
        ensures legal { OnErr result (Legal Q.start (B.before ++ (or_no_seat self.old).pass.seen)) }
        ensures grounds { IfErr result (λ e. (told_refusal e ≡ None) × Grounds (shared Q.start) (B.before ++ (or_no_seat self.old).pass.seen) 0 e) }
        ensures why { IfErr result (λ e. RefusesTurn (or_no_seat self.old) e) }
    {
        let seat = self.take().unwrap();
        if seat.is_over() {
            drop(self.replace(seat));
            return Err(StepRefusal::Memory);
        }
        if seat.left() == 0 {
            drop(self.replace(seat));
            return Err(StepRefusal::TurnsSpent);
        }
        Ok(seat.turn())
    }

    fn end_turn(&mut self, end: TurnEnd<'a, Q, B, W, R>)
        ensures full { is_some self.new ≡ true }
        ensures pass { Homed B.before end.entry.0 end.entry.1 (or_no_seat self.new).pass }
        ensures over { (or_no_seat self.new).is_over ≡ not end.entry.2 }
    {
        drop(self.replace(end.home()));
    }
}

/// Whether the history tells the answer.
pub(crate) fn is_told<X: Drop>(answer: &Result<X, StepRefusal>) -> bool
    ensures { result ≡ was_told answer.now }
{
    !matches!(answer, Err(StepRefusal::Memory | StepRefusal::TurnsSpent))
}
