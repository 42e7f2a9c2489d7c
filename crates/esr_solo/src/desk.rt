//! The steps that work on the repository: each is that of the repository, while turns are left.
ghost use Rattle.std.specs.Prelude.{◌≡◌, false, IfErr, OnOk, OnErr};
ghost use Rattle.esr_core.specs.Entry.{ReadStep, RestoredShard, HasEnded};
ghost use Rattle.esr_desk.specs.Entries.{why_of};
ghost use Rattle.esr_desk.specs.Own.{reader_of, own_of};
ghost use Rattle.esr_desk.specs.Calls.{HasTaken, IsMine, calls_at, called_by};
ghost use Rattle.esr_desk.specs.Evidence.{evidence};
ghost use Rattle.esr_desk.specs.Hands.{fail_step, MayFail, own_failed};
ghost use Rattle.esr_desk.specs.Outcome.{Outcome};
ghost use Rattle.esr_desk.specs.Restore.Conditions.{CanEndRestore};
ghost use Rattle.esr_desk.specs.Restore.Targets.{IsFilled, refused_of};
ghost use Rattle.esr_desk.specs.Shown.{IsShown};

use crate::Solo;
use crate::kept::{keep, list};
use crate::solo::{TURNS, spend};
use esr_depot::{Commit, Depot, Listing};
use esr_desk::{
    Attempt, Basis, Desk, Failure, Named, NewBlob, Planned, RestoreEnd, StepRefusal, Unended, Unit,
    Who, each_ticket_is_new,
};
use esr_names::{BlobName, Id};
use esr_repo::Told;
use esr_results::ShardResult;
use esr_root::RootData;
use esr_seq::Seq;
use esr_source::{Shard, Target};
use std::alloc::Global;

impl<D: Depot, K: Told, H: Shard, T: Target> Desk for Solo<D, K, H, T> {
    type Stage = D::Stage;

    type Fetch = D::Fetch;

    type Shard = H;

    type Target = T;

    ghost start = { K.start };

    ghost seen = { λ s. s };

    ghost calls = { λ s. calls_at 0 s };

    fn never_fails(&self) {
        self.repo.never_fails();
    }

    fn take(&mut self, alloc: Global) -> Attempt<Option<Unit>> {
        each_ticket_is_new();
        if self.left == 0 {
            return Err(StepRefusal::TurnsSpent);
        }
        let answer = esr_client::take(&mut self.repo, alloc);
        spend(&mut self.left, &self.repo, &answer);
        answer
    }

    fn elect(&mut self, alloc: Global) -> Attempt<u64> {
        if self.left == 0 {
            return Err(StepRefusal::TurnsSpent);
        }
        let answer = esr_client::elect(&mut self.repo, alloc);
        spend(&mut self.left, &self.repo, &answer);
        answer
    }

    fn fetch(&mut self, alloc: Global, who: Who, name: BlobName) -> Attempt<Option<Self::Fetch>> {
        if self.left == 0 {
            return Err(StepRefusal::TurnsSpent);
        }
        let answer = esr_steps::fetch(&mut self.repo, alloc, who.hand, who.number, name);
        spend(&mut self.left, &self.repo, &answer);
        answer
    }

    fn fail(&mut self, alloc: Global, failure: Failure<D::Stage, D::Fetch, H, T>) -> Attempt
        requires mine { IsMine failure.who.hand (calls_at 0 self.old) failure.who.number }
        requires may { MayFail failure.who.hand K.start self.old failure.who.number }
        requires shown { IsShown failure.who.hand (evidence D.Stage.faults D.Fetch.faults H.faults T.faults H.told T.told)
            K.start self.old failure.who.number (why_of failure.why) failure.by }
        ensures step { Outcome K.start self.old self.new failure.who.number (fail_step failure.who.hand (why_of failure.why)) (λ _. HasEnded) result }
        ensures own { OnOk result (own_of K.start self.new failure.who.number ≡ own_failed failure.who.hand (own_of K.start self.old failure.who.number)) }
        ensures kept { OnErr result (own_of K.start self.new failure.who.number ≡ own_of K.start self.old failure.who.number) }
        ensures calls { calls_at 0 self.new ≡ called_by failure.who.hand self.new (fail_step failure.who.hand (why_of failure.why)) (λ _. HasEnded) result (calls_at 0 self.old) }
    {
        let Failure { who, why, by } = failure;
        if self.left == 0 {
            drop(by);
            return Err(StepRefusal::TurnsSpent);
        }
        if self.faults.reserve(1).is_err() {
            drop(by);
            return Err(StepRefusal::Memory);
        }
        let place = TURNS - self.left;
        let answer = esr_steps::fail(&mut self.repo, alloc, who.hand, who.number, why);
        spend(&mut self.left, &self.repo, &answer);
        keep(&mut self.faults, place, by, &answer);
        answer
    }

    fn draw(&mut self, alloc: Global, ticket: u64, count: u64) -> Attempt<Id> {
        if self.left == 0 {
            return Err(StepRefusal::TurnsSpent);
        }
        let answer = esr_steps::draw(&mut self.repo, alloc, ticket, count);
        spend(&mut self.left, &self.repo, &answer);
        answer
    }

    fn begin(&mut self, alloc: Global, ticket: u64, blob: NewBlob) -> Attempt<Named<Self::Stage>> {
        if self.left == 0 {
            return Err(StepRefusal::TurnsSpent);
        }
        let answer = esr_steps::begin(&mut self.repo, alloc, ticket, blob.name, blob.room);
        spend(&mut self.left, &self.repo, &answer);
        answer
    }

    fn commit(
        &mut self,
        alloc: Global,
        ticket: u64,
        name: BlobName,
        stage: Self::Stage,
    ) -> Attempt<Commit> {
        if self.left == 0 {
            return Err(StepRefusal::TurnsSpent);
        }
        let answer = esr_steps::commit(&mut self.repo, alloc, ticket, Named { name, stage });
        spend(&mut self.left, &self.repo, &answer);
        answer
    }

    fn latest(
        &mut self,
        alloc: Global,
        ticket: u64,
        name: BlobName,
        stage: Self::Stage,
    ) -> Attempt {
        if self.left == 0 {
            return Err(StepRefusal::TurnsSpent);
        }
        let answer = esr_steps::latest(&mut self.repo, alloc, ticket, Named { name, stage });
        spend(&mut self.left, &self.repo, &answer);
        answer
    }

    fn raise(&mut self, alloc: Global, ticket: u64) -> Attempt<u64> {
        if self.left == 0 {
            return Err(StepRefusal::TurnsSpent);
        }
        let answer = esr_steps::raise(&mut self.repo, alloc, ticket);
        spend(&mut self.left, &self.repo, &answer);
        answer
    }

    fn settle(&mut self, alloc: Global, ticket: u64, root: &RootData) -> Attempt {
        if self.left == 0 {
            return Err(StepRefusal::TurnsSpent);
        }
        let answer = esr_steps::settle(&mut self.repo, alloc, ticket, root);
        spend(&mut self.left, &self.repo, &answer);
        answer
    }

    fn plan(&mut self, alloc: Global, ticket: u64, basis: &Basis<'_>) -> Attempt<Planned> {
        if self.left == 0 {
            return Err(StepRefusal::TurnsSpent);
        }
        let answer = esr_steps::plan_delete(
            &mut self.repo,
            alloc,
            ticket,
            basis.root,
            basis.uuids,
            basis.shards,
        );
        spend(&mut self.left, &self.repo, &answer);
        answer
    }

    fn list(&mut self, alloc: Global, ticket: u64, after: Option<&str>) -> Attempt<Listing> {
        if self.left == 0 {
            return Err(StepRefusal::TurnsSpent);
        }
        let answer = esr_steps::list(&mut self.repo, alloc, ticket, after);
        spend(&mut self.left, &self.repo, &answer);
        answer
    }

    fn settle_delete(&mut self, alloc: Global, ticket: u64, root: &RootData) -> Attempt {
        if self.left == 0 {
            return Err(StepRefusal::TurnsSpent);
        }
        let answer = esr_steps::settle_delete(&mut self.repo, alloc, ticket, root);
        spend(&mut self.left, &self.repo, &answer);
        answer
    }

    fn remove(&mut self, alloc: Global, ticket: u64, names: &Seq<BlobName>) -> Attempt {
        if self.left == 0 {
            return Err(StepRefusal::TurnsSpent);
        }
        let answer = esr_steps::remove(&mut self.repo, alloc, ticket, names);
        spend(&mut self.left, &self.repo, &answer);
        answer
    }

    fn end_shard(&mut self, alloc: Global, ticket: u64, outcome: &ShardResult) -> Attempt {
        if self.left == 0 {
            return Err(StepRefusal::TurnsSpent);
        }
        let answer = esr_steps::end_shard(&mut self.repo, alloc, ticket, outcome);
        spend(&mut self.left, &self.repo, &answer);
        answer
    }

    fn end_restore(&mut self, alloc: Global, done: RestoreEnd<T>) -> Result<(), Unended<T>>
        requires mine { HasTaken (calls_at 0 self.old) done.ticket }
        requires may { CanEndRestore K.start (reader_of K.start self.old done.ticket) done.files done.bytes }
        requires filled { IsFilled (evidence D.Stage.faults D.Fetch.faults H.faults T.faults H.told T.told)
            K.start (reader_of K.start self.old done.ticket) done.files done.bytes done.target }
        ensures step { Outcome K.start self.old self.new done.ticket (ReadStep (RestoredShard done.files done.bytes)) (λ _. HasEnded) (refused_of result) }
        ensures own { OnOk result (reader_of K.start self.new done.ticket
            ≡ record (reader_of K.start self.old done.ticket) { out = false }) }
        ensures kept { OnErr result (reader_of K.start self.new done.ticket ≡ reader_of K.start self.old done.ticket) }
        ensures target { IfErr result (λ u. u.target ≡ done.target) }
        ensures calls { calls_at 0 self.new ≡ calls_at 0 self.old }
    {
        let RestoreEnd {
            ticket,
            files,
            bytes,
            target,
        } = done;
        if self.left == 0 {
            let refusal = StepRefusal::TurnsSpent;
            return Err(Unended { refusal, target });
        }
        if self.targets.reserve(1).is_err() {
            let refusal = StepRefusal::Memory;
            return Err(Unended { refusal, target });
        }
        let answer = esr_steps::end_restore(&mut self.repo, alloc, ticket, files, bytes);
        spend(&mut self.left, &self.repo, &answer);
        list(&mut self.targets, target, answer)
    }

    fn end_delete(&mut self, alloc: Global, ticket: u64) -> Attempt {
        if self.left == 0 {
            return Err(StepRefusal::TurnsSpent);
        }
        let answer = esr_steps::end_delete(&mut self.repo, alloc, ticket);
        spend(&mut self.left, &self.repo, &answer);
        answer
    }

    fn end_drop(&mut self, alloc: Global, ticket: u64) -> Attempt {
        if self.left == 0 {
            return Err(StepRefusal::TurnsSpent);
        }
        let answer = esr_steps::end_drop(&mut self.repo, alloc, ticket);
        spend(&mut self.left, &self.repo, &answer);
        answer
    }

    fn end_cleanup(&mut self, alloc: Global, ticket: u64) -> Attempt {
        if self.left == 0 {
            return Err(StepRefusal::TurnsSpent);
        }
        let answer = esr_steps::end_cleanup(&mut self.repo, alloc, ticket);
        spend(&mut self.left, &self.repo, &answer);
        answer
    }

    fn finish(&mut self, alloc: Global, ticket: u64) -> Attempt {
        if self.left == 0 {
            return Err(StepRefusal::TurnsSpent);
        }
        let answer = esr_steps::finish(&mut self.repo, alloc, ticket);
        spend(&mut self.left, &self.repo, &answer);
        answer
    }
}
