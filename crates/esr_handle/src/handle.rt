//! The desk of one worker.
ghost use Rattle.std.specs.Prelude.{◌≡◌, ◌+◌, ◌^◌, ◌≤◌, ◌++◌, length, false, IfErr, OnOk, OnErr};
ghost use Rattle.esr_core.specs.Entry.{ReadStep, RestoredShard, HasEnded};
ghost use Rattle.esr_desk.specs.Entries.{why_of};
ghost use Rattle.esr_desk.specs.Own.{own_of, reader_of};
ghost use Rattle.esr_desk.specs.Calls.{HasTaken, IsMine, called_by};
ghost use Rattle.esr_desk.specs.Evidence.{evidence};
ghost use Rattle.esr_desk.specs.Hands.{fail_step, MayFail, own_failed};
ghost use Rattle.esr_desk.specs.Outcome.{Outcome};
ghost use Rattle.esr_desk.specs.Restore.Conditions.{CanEndRestore};
ghost use Rattle.esr_desk.specs.Restore.Targets.{IsFilled, refused_of};
ghost use Rattle.esr_desk.specs.Shown.{IsShown};
ghost use Rattle.esr_handle.specs.Owned.{calls_in};
ghost use Rattle.esr_handle.specs.Turned.{shared, was_told, IsFit};

use crate::seat::{Place, Seat, TurnEnd, is_told};
use crate::{Share, Since, Sitting};
use esr_depot::{Commit, Listing};
use esr_desk::{
    Attempt, Basis, Desk, Failure, Named, NewBlob, Planned, RestoreEnd, Sole, Unended, Unit, Who,
    each_ticket_is_given_once,
};
use esr_names::{BlobName, Id};
use esr_results::ShardResult;
use esr_root::RootData;
use esr_seq::Seq;
use esr_turns::{Pass, TurnLock};
use std::alloc::Global;
use std::marker::Model;
use std::sync::Wait;

/// The desk of one worker, who steps in turns of the lock. After an answer that the history doesn't tell it takes no more turns.
#[derive(Drop)]
pub struct Handle<'a, Q: Sole, B: Since, W: Share, R> {
    seat: Option<Seat<'a, Q, B, W, R>>,
}

impl<'a, Q: Sole, B: Since, W: Share, R> Model for Handle<'a, Q, B, W, R> {
    ghost use Rattle.std.specs.Prelude.{◌≡◌, true, is_some};
    ghost use Rattle.std.specs.Coded.{codes};
    ghost use Rattle.esr_depot.specs.Image.{blobs_code};
    ghost use Rattle.esr_handle.specs.Turned.{Seated, or_no_seat};

    ghost Value = { Seated };

    ghost coded = { Prim.hlevel (codes, blobs_code) };

    ghost view = { λ h. or_no_seat h.seat };

    ghost invariant = { λ h. is_some h.seat ≡ true };
}

impl<'a, Q: Sole, B: Since, W: Share, R> Handle<'a, Q, B, W, R> {
    /// The desk of a worker whose pass has used no turn yet.
    pub fn new(
        lock: &'a TurnLock<Sitting<Q, B>>,
        rt: &'a R,
        pass: Pass<Sitting<Q, B>>,
    ) -> Handle<'a, Q, B, W, R>
        requires own { (pass.lock ≡ lock.now) × (lock.now ≡ W.lock) }
        requires turns { (pass.left ≡ W.total) × (pass.used ≡ 0) }
        requires much { 2 ^ 33 ≤ Q.start.earlier_turns + W.total }
        requires fit { IsFit Q.start B.before pass }
        ensures pass { result.pass ≡ pass }
        ensures live { result.is_over ≡ false }
    {
        Handle {
            seat: Some(Seat::new(lock, rt, pass)),
        }
    }

    /// Its pass.
    pub fn into_pass(self) -> Pass<Sitting<Q, B>>
        ensures pass { result ≡ self.entry.pass }
        ensures own { result.lock ≡ W.lock }
        ensures turns { result.left + result.used ≡ W.total }
        ensures fit { IsFit Q.start B.before result }
    {
        let Handle { seat } = self;
        let Some(seat) = seat else { unreachable!() };
        seat.into_pass()
    }
}

impl<'a, Q: Sole, B: Since, W: Share, R: Wait + Sync> Desk for Handle<'a, Q, B, W, R> {
    type Stage = Q::Stage;

    type Fetch = Q::Fetch;

    type Shard = Q::Shard;

    type Target = Q::Target;

    ghost start = { shared Q.start };

    ghost seen = { λ h. B.before ++ h.pass.seen };

    ghost calls = { λ h. calls_in (length B.before) h.pass.seen h.pass.mine };

    fn never_fails(&self) {
        let Some(seat) = &self.seat else {
            unreachable!()
        };
        let _is_over = seat.is_over;
    }

    fn take(&mut self, alloc: Global) -> Attempt<Option<Unit>> {
        each_ticket_is_given_once();
        let mut lent = self.seat.begin_turn()?;
        let answer = lent.desk.take(alloc);
        let is_told = is_told(&answer);
        let end = TurnEnd { lent, is_told };
        self.seat.end_turn(end);
        answer
    }

    fn elect(&mut self, alloc: Global) -> Attempt<u64> {
        let mut lent = self.seat.begin_turn()?;
        let answer = lent.desk.elect(alloc);
        let is_told = is_told(&answer);
        let end = TurnEnd { lent, is_told };
        self.seat.end_turn(end);
        answer
    }

    fn fetch(&mut self, alloc: Global, who: Who, name: BlobName) -> Attempt<Option<Self::Fetch>> {
        let mut lent = self.seat.begin_turn()?;
        let answer = lent.desk.fetch(alloc, who, name);
        let is_told = is_told(&answer);
        let end = TurnEnd { lent, is_told };
        self.seat.end_turn(end);
        answer
    }

    fn fail(
        &mut self,
        alloc: Global,
        failure: Failure<Q::Stage, Q::Fetch, Q::Shard, Q::Target>,
    ) -> Attempt
        requires mine { IsMine failure.who.hand (calls_in (length B.before) self.old.pass.seen self.old.pass.mine) failure.who.number }
        requires may { MayFail failure.who.hand (shared Q.start) (B.before ++ self.old.pass.seen) failure.who.number }
        requires shown { IsShown failure.who.hand (evidence Q.Stage.faults Q.Fetch.faults Q.Shard.faults Q.Target.faults Q.Shard.told Q.Target.told)
            (shared Q.start) (B.before ++ self.old.pass.seen) failure.who.number (why_of failure.why) failure.by }
        ensures step { Outcome (shared Q.start) (B.before ++ self.old.pass.seen) (B.before ++ self.new.pass.seen) failure.who.number (fail_step failure.who.hand (why_of failure.why)) (λ _. HasEnded) result }
        ensures own { OnOk result (own_of (shared Q.start) (B.before ++ self.new.pass.seen) failure.who.number ≡ own_failed failure.who.hand (own_of (shared Q.start) (B.before ++ self.old.pass.seen) failure.who.number)) }
        ensures kept { OnErr result (own_of (shared Q.start) (B.before ++ self.new.pass.seen) failure.who.number ≡ own_of (shared Q.start) (B.before ++ self.old.pass.seen) failure.who.number) }
        ensures calls { calls_in (length B.before) self.new.pass.seen self.new.pass.mine
            ≡ called_by failure.who.hand (B.before ++ self.new.pass.seen) (fail_step failure.who.hand (why_of failure.why)) (λ _. HasEnded) result (calls_in (length B.before) self.old.pass.seen self.old.pass.mine) }
    {
        let mut lent = match self.seat.begin_turn() {
            Ok(lent) => lent,
            Err(refusal) => {
                drop(failure);
                return Err(refusal);
            }
        };
        let answer = lent.desk.fail(alloc, failure);
        let is_told = is_told(&answer);
        let end = TurnEnd { lent, is_told };
        self.seat.end_turn(end);
        answer
    }

    fn draw(&mut self, alloc: Global, ticket: u64, count: u64) -> Attempt<Id> {
        let mut lent = self.seat.begin_turn()?;
        let answer = lent.desk.draw(alloc, ticket, count);
        let is_told = is_told(&answer);
        let end = TurnEnd { lent, is_told };
        self.seat.end_turn(end);
        answer
    }

    fn begin(&mut self, alloc: Global, ticket: u64, blob: NewBlob) -> Attempt<Named<Self::Stage>> {
        let mut lent = self.seat.begin_turn()?;
        let answer = lent.desk.begin(alloc, ticket, blob);
        let is_told = is_told(&answer);
        let end = TurnEnd { lent, is_told };
        self.seat.end_turn(end);
        answer
    }

    fn commit(
        &mut self,
        alloc: Global,
        ticket: u64,
        name: BlobName,
        stage: Self::Stage,
    ) -> Attempt<Commit> {
        let mut lent = self.seat.begin_turn()?;
        let answer = lent.desk.commit(alloc, ticket, name, stage);
        let is_told = is_told(&answer);
        let end = TurnEnd { lent, is_told };
        self.seat.end_turn(end);
        answer
    }

    fn latest(
        &mut self,
        alloc: Global,
        ticket: u64,
        name: BlobName,
        stage: Self::Stage,
    ) -> Attempt {
        let mut lent = self.seat.begin_turn()?;
        let answer = lent.desk.latest(alloc, ticket, name, stage);
        let is_told = is_told(&answer);
        let end = TurnEnd { lent, is_told };
        self.seat.end_turn(end);
        answer
    }

    fn raise(&mut self, alloc: Global, ticket: u64) -> Attempt<u64> {
        let mut lent = self.seat.begin_turn()?;
        let answer = lent.desk.raise(alloc, ticket);
        let is_told = is_told(&answer);
        let end = TurnEnd { lent, is_told };
        self.seat.end_turn(end);
        answer
    }

    fn settle(&mut self, alloc: Global, ticket: u64, root: &RootData) -> Attempt {
        let mut lent = self.seat.begin_turn()?;
        let answer = lent.desk.settle(alloc, ticket, root);
        let is_told = is_told(&answer);
        let end = TurnEnd { lent, is_told };
        self.seat.end_turn(end);
        answer
    }

    fn plan(&mut self, alloc: Global, ticket: u64, basis: &Basis<'_>) -> Attempt<Planned> {
        let mut lent = self.seat.begin_turn()?;
        let answer = lent.desk.plan(alloc, ticket, basis);
        let is_told = is_told(&answer);
        let end = TurnEnd { lent, is_told };
        self.seat.end_turn(end);
        answer
    }

    fn list(&mut self, alloc: Global, ticket: u64, after: Option<&str>) -> Attempt<Listing> {
        let mut lent = self.seat.begin_turn()?;
        let answer = lent.desk.list(alloc, ticket, after);
        let is_told = is_told(&answer);
        let end = TurnEnd { lent, is_told };
        self.seat.end_turn(end);
        answer
    }

    fn settle_delete(&mut self, alloc: Global, ticket: u64, root: &RootData) -> Attempt {
        let mut lent = self.seat.begin_turn()?;
        let answer = lent.desk.settle_delete(alloc, ticket, root);
        let is_told = is_told(&answer);
        let end = TurnEnd { lent, is_told };
        self.seat.end_turn(end);
        answer
    }

    fn remove(&mut self, alloc: Global, ticket: u64, names: &Seq<BlobName>) -> Attempt {
        let mut lent = self.seat.begin_turn()?;
        let answer = lent.desk.remove(alloc, ticket, names);
        let is_told = is_told(&answer);
        let end = TurnEnd { lent, is_told };
        self.seat.end_turn(end);
        answer
    }

    fn end_shard(&mut self, alloc: Global, ticket: u64, outcome: &ShardResult) -> Attempt {
        let mut lent = self.seat.begin_turn()?;
        let answer = lent.desk.end_shard(alloc, ticket, outcome);
        let is_told = is_told(&answer);
        let end = TurnEnd { lent, is_told };
        self.seat.end_turn(end);
        answer
    }

    fn end_restore(
        &mut self,
        alloc: Global,
        done: RestoreEnd<Q::Target>,
    ) -> Result<(), Unended<Q::Target>>
        requires mine { HasTaken (calls_in (length B.before) self.old.pass.seen self.old.pass.mine) done.ticket }
        requires may { CanEndRestore (shared Q.start) (reader_of (shared Q.start) (B.before ++ self.old.pass.seen) done.ticket) done.files done.bytes }
        requires filled { IsFilled (evidence Q.Stage.faults Q.Fetch.faults Q.Shard.faults Q.Target.faults Q.Shard.told Q.Target.told)
            (shared Q.start) (reader_of (shared Q.start) (B.before ++ self.old.pass.seen) done.ticket) done.files done.bytes done.target }
        ensures step { Outcome (shared Q.start) (B.before ++ self.old.pass.seen) (B.before ++ self.new.pass.seen) done.ticket (ReadStep (RestoredShard done.files done.bytes)) (λ _. HasEnded) (refused_of result) }
        ensures own { OnOk result (reader_of (shared Q.start) (B.before ++ self.new.pass.seen) done.ticket
            ≡ record (reader_of (shared Q.start) (B.before ++ self.old.pass.seen) done.ticket) { out = false }) }
        ensures kept { OnErr result (reader_of (shared Q.start) (B.before ++ self.new.pass.seen) done.ticket ≡ reader_of (shared Q.start) (B.before ++ self.old.pass.seen) done.ticket) }
        ensures target { IfErr result (λ u. u.target ≡ done.target) }
        ensures calls { calls_in (length B.before) self.new.pass.seen self.new.pass.mine ≡ calls_in (length B.before) self.old.pass.seen self.old.pass.mine }
    {
        let mut lent = match self.seat.begin_turn() {
            Ok(lent) => lent,
            Err(refusal) => {
                let target = done.target;
                return Err(Unended { refusal, target });
            }
        };
        let answer = lent.desk.end_restore(alloc, done);
        let is_told = is_end_told(&answer);
        let end = TurnEnd { lent, is_told };
        self.seat.end_turn(end);
        answer
    }

    fn end_delete(&mut self, alloc: Global, ticket: u64) -> Attempt {
        let mut lent = self.seat.begin_turn()?;
        let answer = lent.desk.end_delete(alloc, ticket);
        let is_told = is_told(&answer);
        let end = TurnEnd { lent, is_told };
        self.seat.end_turn(end);
        answer
    }

    fn end_drop(&mut self, alloc: Global, ticket: u64) -> Attempt {
        let mut lent = self.seat.begin_turn()?;
        let answer = lent.desk.end_drop(alloc, ticket);
        let is_told = is_told(&answer);
        let end = TurnEnd { lent, is_told };
        self.seat.end_turn(end);
        answer
    }

    fn end_cleanup(&mut self, alloc: Global, ticket: u64) -> Attempt {
        let mut lent = self.seat.begin_turn()?;
        let answer = lent.desk.end_cleanup(alloc, ticket);
        let is_told = is_told(&answer);
        let end = TurnEnd { lent, is_told };
        self.seat.end_turn(end);
        answer
    }

    fn finish(&mut self, alloc: Global, ticket: u64) -> Attempt {
        let mut lent = self.seat.begin_turn()?;
        let answer = lent.desk.finish(alloc, ticket);
        let is_told = is_told(&answer);
        let end = TurnEnd { lent, is_told };
        self.seat.end_turn(end);
        answer
    }
}

/// Whether the history tells the end of a restore.
fn is_end_told<T: Drop>(answer: &Result<(), Unended<T>>) -> bool
    ensures { result ≡ was_told (refused_of answer.now) }
{
    match answer {
        Ok(()) => true,
        Err(unended) => is_told::<()>(&Err(unended.refusal)),
    }
}
