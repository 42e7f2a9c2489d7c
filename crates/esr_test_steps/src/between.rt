//! The desk of a worker, beside whom another desk begins the next term at a step that is picked.
ghost use Rattle.std.specs.Prelude.{◌≡◌, false, IfErr, OnOk, OnErr};
ghost use Rattle.esr_core.specs.Entry.{ReadStep, RestoredShard, HasEnded};
ghost use Rattle.esr_desk.specs.Entries.{why_of};
ghost use Rattle.esr_desk.specs.Own.{reader_of, own_of};
ghost use Rattle.esr_desk.specs.Calls.{HasTaken, IsMine, called_by};
ghost use Rattle.esr_desk.specs.Evidence.{evidence};
ghost use Rattle.esr_desk.specs.Hands.{fail_step, MayFail, own_failed};
ghost use Rattle.esr_desk.specs.Outcome.{Outcome};
ghost use Rattle.esr_desk.specs.Restore.Conditions.{CanEndRestore};
ghost use Rattle.esr_desk.specs.Restore.Targets.{IsFilled, refused_of};
ghost use Rattle.esr_desk.specs.Shown.{IsShown};

use crate::told::{tell, tell_commit, tell_number, tell_refused};
use esr_depot::{Commit, Listing};
use esr_desk::{
    Attempt, Basis, Desk, Failure, Named, NewBlob, Planned, RestoreEnd, Unended, Unit, Who,
};
use esr_names::{BlobName, Id};
use esr_results::ShardResult;
use esr_root::RootData;
use esr_seq::Seq;
use std::alloc::Global;

/// Where the next term begins: just after the next raise or the next plan, or just before the next drop; or, by a desk that has
/// no turn, just before the next take.
#[derive(Clone, Copy)]
pub(crate) enum Due {
    Raise,
    Plan,
    Drop,
    Take,
    Never,
}

/// The desk of a worker, that of who elects beside it, and what was told of their steps.
pub(crate) struct Between<Q> {
    pub(crate) own: Q,
    pub(crate) elector: Q,
    pub(crate) due: Due,
    pub(crate) told: String,
}

/// Whether the next term begins there, which it does once.
fn is_due(due: &mut Due, at: Due) -> bool {
    let is = matches!(
        (*due, at),
        (Due::Raise, Due::Raise)
            | (Due::Plan, Due::Plan)
            | (Due::Drop, Due::Drop)
            | (Due::Take, Due::Take)
    );
    if is {
        *due = Due::Never;
    }
    is
}

impl<Q: Desk> Desk for Between<Q> {
    type Stage = Q::Stage;

    type Fetch = Q::Fetch;

    type Shard = Q::Shard;

    type Target = Q::Target;

    ghost start = { Q.start };

    ghost seen = { λ b. Q.seen b.own };

    ghost calls = { λ b. Q.calls b.own };

    fn never_fails(&self) {
        self.own.never_fails();
    }

    fn take(&mut self, alloc: Global) -> Attempt<Option<Unit>> {
        if is_due(&mut self.due, Due::Take) {
            let term = self.elector.elect(alloc);
            tell_number(&mut self.told, "elect", &term);
        }
        let answer = self.own.take(alloc);
        tell_refused(&mut self.told, "take", &answer);
        answer
    }

    fn elect(&mut self, alloc: Global) -> Attempt<u64> {
        self.own.elect(alloc)
    }

    fn fetch(&mut self, alloc: Global, who: Who, name: BlobName) -> Attempt<Option<Self::Fetch>> {
        self.own.fetch(alloc, who, name)
    }

    fn fail(
        &mut self,
        alloc: Global,
        failure: Failure<Q::Stage, Q::Fetch, Q::Shard, Q::Target>,
    ) -> Attempt
        requires mine { IsMine failure.who.hand (Q.calls self.old.own) failure.who.number }
        requires may { MayFail failure.who.hand Q.start (Q.seen self.old.own) failure.who.number }
        requires shown { IsShown failure.who.hand (evidence Q.Stage.faults Q.Fetch.faults Q.Shard.faults Q.Target.faults Q.Shard.told Q.Target.told)
            Q.start (Q.seen self.old.own) failure.who.number (why_of failure.why) failure.by }
        ensures step { Outcome Q.start (Q.seen self.old.own) (Q.seen self.new.own) failure.who.number (fail_step failure.who.hand (why_of failure.why)) (λ _. HasEnded) result }
        ensures own { OnOk result (own_of Q.start (Q.seen self.new.own) failure.who.number ≡ own_failed failure.who.hand (own_of Q.start (Q.seen self.old.own) failure.who.number)) }
        ensures kept { OnErr result (own_of Q.start (Q.seen self.new.own) failure.who.number ≡ own_of Q.start (Q.seen self.old.own) failure.who.number) }
        ensures calls { Q.calls self.new.own ≡ called_by failure.who.hand (Q.seen self.new.own) (fail_step failure.who.hand (why_of failure.why)) (λ _. HasEnded) result (Q.calls self.old.own) }
    {
        let answer = self.own.fail(alloc, failure);
        tell(&mut self.told, "fail", &answer);
        answer
    }

    fn draw(&mut self, alloc: Global, ticket: u64, count: u64) -> Attempt<Id> {
        self.own.draw(alloc, ticket, count)
    }

    fn begin(&mut self, alloc: Global, ticket: u64, blob: NewBlob) -> Attempt<Named<Self::Stage>> {
        self.own.begin(alloc, ticket, blob)
    }

    fn commit(
        &mut self,
        alloc: Global,
        ticket: u64,
        name: BlobName,
        stage: Self::Stage,
    ) -> Attempt<Commit> {
        let answer = self.own.commit(alloc, ticket, name, stage);
        tell_commit(&mut self.told, &answer);
        answer
    }

    fn latest(
        &mut self,
        alloc: Global,
        ticket: u64,
        name: BlobName,
        stage: Self::Stage,
    ) -> Attempt {
        let answer = self.own.latest(alloc, ticket, name, stage);
        tell(&mut self.told, "latest", &answer);
        answer
    }

    fn raise(&mut self, alloc: Global, ticket: u64) -> Attempt<u64> {
        let answer = self.own.raise(alloc, ticket);
        tell_number(&mut self.told, "raise", &answer);
        if is_due(&mut self.due, Due::Raise) {
            let term = self.elector.elect(alloc);
            tell_number(&mut self.told, "elect", &term);
        }
        answer
    }

    fn settle(&mut self, alloc: Global, ticket: u64, root: &RootData) -> Attempt {
        let answer = self.own.settle(alloc, ticket, root);
        tell(&mut self.told, "settle", &answer);
        answer
    }

    fn plan(&mut self, alloc: Global, ticket: u64, basis: &Basis<'_>) -> Attempt<Planned> {
        let answer = self.own.plan(alloc, ticket, basis);
        tell(&mut self.told, "plan", &answer);
        if is_due(&mut self.due, Due::Plan) {
            let term = self.elector.elect(alloc);
            tell_number(&mut self.told, "elect", &term);
        }
        answer
    }

    fn list(&mut self, alloc: Global, ticket: u64, after: Option<&str>) -> Attempt<Listing> {
        let answer = self.own.list(alloc, ticket, after);
        tell(&mut self.told, "list", &answer);
        answer
    }

    fn settle_delete(&mut self, alloc: Global, ticket: u64, root: &RootData) -> Attempt {
        let answer = self.own.settle_delete(alloc, ticket, root);
        tell(&mut self.told, "settle", &answer);
        answer
    }

    fn remove(&mut self, alloc: Global, ticket: u64, names: &Seq<BlobName>) -> Attempt {
        let answer = self.own.remove(alloc, ticket, names);
        tell(&mut self.told, "remove", &answer);
        answer
    }

    fn end_shard(&mut self, alloc: Global, ticket: u64, outcome: &ShardResult) -> Attempt {
        self.own.end_shard(alloc, ticket, outcome)
    }

    fn end_restore(
        &mut self,
        alloc: Global,
        done: RestoreEnd<Q::Target>,
    ) -> Result<(), Unended<Q::Target>>
        requires mine { HasTaken (Q.calls self.old.own) done.ticket }
        requires may { CanEndRestore Q.start (reader_of Q.start (Q.seen self.old.own) done.ticket) done.files done.bytes }
        requires filled { IsFilled (evidence Q.Stage.faults Q.Fetch.faults Q.Shard.faults Q.Target.faults Q.Shard.told Q.Target.told)
            Q.start (reader_of Q.start (Q.seen self.old.own) done.ticket) done.files done.bytes done.target }
        ensures step { Outcome Q.start (Q.seen self.old.own) (Q.seen self.new.own) done.ticket (ReadStep (RestoredShard done.files done.bytes)) (λ _. HasEnded) (refused_of result) }
        ensures own { OnOk result (reader_of Q.start (Q.seen self.new.own) done.ticket
            ≡ record (reader_of Q.start (Q.seen self.old.own) done.ticket) { out = false }) }
        ensures kept { OnErr result (reader_of Q.start (Q.seen self.new.own) done.ticket ≡ reader_of Q.start (Q.seen self.old.own) done.ticket) }
        ensures target { IfErr result (λ u. u.target ≡ done.target) }
        ensures calls { Q.calls self.new.own ≡ Q.calls self.old.own }
    {
        self.own.end_restore(alloc, done)
    }

    fn end_delete(&mut self, alloc: Global, ticket: u64) -> Attempt {
        let answer = self.own.end_delete(alloc, ticket);
        tell(&mut self.told, "end", &answer);
        answer
    }

    fn end_cleanup(&mut self, alloc: Global, ticket: u64) -> Attempt {
        let answer = self.own.end_cleanup(alloc, ticket);
        tell(&mut self.told, "end", &answer);
        answer
    }

    fn end_drop(&mut self, alloc: Global, ticket: u64) -> Attempt {
        if is_due(&mut self.due, Due::Drop) {
            let term = self.elector.elect(alloc);
            tell_number(&mut self.told, "elect", &term);
        }
        let answer = self.own.end_drop(alloc, ticket);
        tell(&mut self.told, "drop", &answer);
        answer
    }

    fn finish(&mut self, alloc: Global, ticket: u64) -> Attempt {
        let answer = self.own.finish(alloc, ticket);
        tell(&mut self.told, "finish", &answer);
        answer
    }
}
