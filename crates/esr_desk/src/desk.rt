//! One call for each step that works on a repository.
ghost use Rattle.std.specs.Prelude.{◌≡◌, ◌+◌, ◌<◌, ◌≤◌, ◌^◌, ℕ, List, [], map, option_copied, length, Some, true, false, IsTrue, IfOk, IfErr, IfSome, OnOk, OnErr};
ghost use Rattle.esr_model.specs.Names.{Latest};
ghost use Rattle.esr_model.specs.Values.{Bytes, Has};
ghost use Rattle.esr_model.specs.Delete.{deleted_root};
ghost use Rattle.esr_model.specs.Cleanup.{IsPage};
ghost use Rattle.esr_core.specs.Entry.{Moment, TakeStep, DrawStep, BeginStep, CommitStep, LatestStep, ListStep, RaiseStep, SettleStep, DoneStep, FinishStep, DroppedStep, ElectStep, ReadStep, RestoredShard, PruneStep, PlanShards, SettlePruned, RemoveDoomed, EndDelete, DrawnFrom, WasBegun, WasReplaced, WasListed, RaisedTo, WasSettled, WasRemoved, HasEnded, ElectedTerm};
ghost use Rattle.esr_core.specs.Allowed.{IsMetadata, latest_text};
ghost use Rattle.esr_core.specs.Pruning.{planned};
ghost use Rattle.esr_core.specs.Steps.{listing};
ghost use Rattle.esr_names.specs.Layout.{IsName};
ghost use Rattle.esr_formats.specs.Ids.{number_of};
ghost use Rattle.esr_formats.specs.Names.{name_of, name_kind};
ghost use Rattle.esr_formats.specs.Roots.{root_of};
ghost use Rattle.esr_results.specs.Pruned.{pruned_of};
ghost use Rattle.esr_results.specs.Results.{result_of};
ghost use Rattle.esr_desk.specs.Entries.{why_of};
ghost use Rattle.esr_desk.specs.Listing.{page_of};
ghost use Rattle.esr_desk.specs.Start.{Start, formats_of, ticket_of};
ghost use Rattle.esr_desk.specs.Own.{own_of, reader_of, made_of};
ghost use Rattle.esr_desk.specs.Once.{IsFresh};
ghost use Rattle.esr_desk.specs.Calls.{Call, HasTaken, IsMine, called, called_by};
ghost use Rattle.esr_desk.specs.Evidence.{NeverFailed, evidence};
ghost use Rattle.esr_desk.specs.Shown.{IsShown};
ghost use Rattle.esr_desk.specs.Hands.{fetch_step, fail_step, MayFetch, MayFail, own_fetched, own_failed};
ghost use Rattle.esr_desk.specs.Outcome.{Outcome, commit_reply, fetch_reply, take_reply};
ghost use Rattle.esr_desk.specs.Conditions.{CanDraw, CanCommit, CanPut, CanBegin, Holds, CanRaise, IsUnpruned, CanSettle, CanEnd, CanFinish, CanDrop};
ghost use Rattle.esr_desk.specs.Delete.Conditions.{CanPlan, CanList, CanSettleDelete, CanRemove, CanEndDelete, CanEndCleanup};
ghost use Rattle.esr_desk.specs.Restore.Conditions.{CanEndRestore};
ghost use Rattle.esr_desk.specs.Restore.Targets.{IsFilled, refused_of};
ghost use Rattle.esr_desk.specs.Readers.{TookUnit, IsBare};
ghost use Rattle.esr_desk.specs.Taken.{committed_by, begun_by, tried_by, LeftBy, HasRaised, IsSettled, HasEndedAs};
ghost use Rattle.esr_desk.specs.declared.refusal.StepRefusal.{StepRefusal};

use crate::{Attempt, Basis, Failure, Named, NewBlob, Planned, RestoreEnd, Unended, Unit, Who};
use esr_depot::{Commit, Fetch, Listing, Stage};
use esr_names::{BlobName, Id};
use esr_results::ShardResult;
use esr_root::RootData;
use esr_seq::Seq;
use esr_source::{Shard, Target};
use std::alloc::Global;

/// The steps that work on a repository: a unit is taken, and its ticket steps until it ends. Each adds one entry to the history,
/// or none where it answers `Memory` or `TurnsSpent`; nothing else of the caller's own changes then. A refusal leaves the
/// repository as it was, but for what a failed call of the container may leave. Several may work on one repository, each by a
/// desk of its own: the steps of others change nothing of a ticket that this one took.
pub trait Desk {
    type Stage: Stage;

    type Fetch: Fetch;

    /// The shards of the sources, and the targets, of which a unit may report that they failed.
    type Shard: Shard;

    type Target: Target;

    /// What was told when the history began.
    ghost start: { Start };

    /// The history, as far as this desk has seen it.
    ghost seen: { Self → List Moment };

    /// The entries of who 0 that this desk made.
    ghost calls: { Self → List Call };

    /// Where the container is quiet, it has failed in no step that the history tells.
    fn never_fails(&self)
        ensures { start.quiet ≡ true → NeverFailed (seen self.now) };

    /// Takes the first ready unit of the lowest op, or `None` where no unit is ready. Its ticket has made no step.
    fn take(&mut self, alloc: Global) -> Attempt<Option<Unit>>
        ensures step { Outcome start (seen self.old) (seen self.new) 0 TakeStep take_reply result }
        ensures took { IfOk result (λ o. IfSome o (λ u. TookUnit start (seen self.new) u)) }
        ensures bare { IfOk result (λ o. IfSome o (λ u. IsBare start (seen self.new) u)) }
        ensures new { IfOk result (λ o. IfSome o (λ u. made_of start (seen self.new) u.ready.ticket ≡ [])) }
        ensures mine { IfOk result (λ o. IfSome o (λ u. HasTaken (calls self.new) u.ready.ticket)) }
        ensures calls { calls self.new ≡ called (seen self.new) TakeStep take_reply result (calls self.old) };

    /// Begins the next term, and answers it. Tickets of earlier terms begin and settle no root any more.
    fn elect(&mut self, alloc: Global) -> Attempt<u64>
        ensures step { Outcome start (seen self.old) (seen self.new) 0 ElectStep (λ term. ElectedTerm term) result }
        ensures range { IfOk result (λ term. term < 2 ^ 63) }
        ensures calls { calls self.new ≡ called (seen self.new) ElectStep (λ term. ElectedTerm term) result (calls self.old) };

    /// The blob of that name, to be read from its first byte, or `None` where there is none. Who 0 fetches for a check or a
    /// verification.
    fn fetch(&mut self, alloc: Global, who: Who, name: BlobName) -> Attempt<Option<Self::Fetch>>
        requires mine { IsMine who.hand (calls self.old) who.number }
        requires layout { IsName name }
        requires may { MayFetch who.hand start (seen self.old) who.number (name_of name) }
        requires new { IsFresh start (seen self.old) who.number (fetch_step who.hand (name_of name)) }
        ensures step { Outcome start (seen self.old) (seen self.new) who.number (fetch_step who.hand (name_of name)) fetch_reply result }
        ensures own { IfOk result (λ o. own_of start (seen self.new) who.number
            ≡ own_fetched who.hand Self.Fetch.left (name_of name) o (own_of start (seen self.old) who.number)) }
        ensures told { IfOk result (λ o. IfSome o (λ f. (bytes : Bytes) × Holds start (Self.Fetch.left f) bytes)) }
        ensures count { IfOk result (λ o. IfSome o (λ f. Self.Fetch.faults f ≡ 0)) }
        ensures sure { IfOk result (λ o. IfSome o (λ f. start.quiet ≡ true → IsTrue (Self.Fetch.is_sure f))) }
        // There are 2^40 turns, of which each entry took one.
        ensures few { OnOk result (start.alone ≡ true → length (seen self.new) ≤ 2 ^ 40) }
        ensures kept { OnErr result (own_of start (seen self.new) who.number ≡ own_of start (seen self.old) who.number) }
        ensures calls { calls self.new ≡ called_by who.hand (seen self.new) (fetch_step who.hand (name_of name)) fetch_reply result (calls self.old) };

    /// A unit, a check or a verification failed, as `by` shows, and ends. An object that failed is given up in each answer.
    fn fail(
        &mut self,
        alloc: Global,
        failure: Failure<Self::Stage, Self::Fetch, Self::Shard, Self::Target>,
    ) -> Attempt
        requires mine { IsMine failure.who.hand (calls self.old) failure.who.number }
        requires may { MayFail failure.who.hand start (seen self.old) failure.who.number }
        requires shown { IsShown failure.who.hand
            (evidence Self.Stage.faults Self.Fetch.faults Self.Shard.faults Self.Target.faults Self.Shard.told Self.Target.told)
            start (seen self.old) failure.who.number (why_of failure.why) failure.by }
        ensures step { Outcome start (seen self.old) (seen self.new) failure.who.number (fail_step failure.who.hand (why_of failure.why)) (λ _. HasEnded) result }
        ensures own { OnOk result (own_of start (seen self.new) failure.who.number ≡ own_failed failure.who.hand (own_of start (seen self.old) failure.who.number)) }
        ensures kept { OnErr result (own_of start (seen self.new) failure.who.number ≡ own_of start (seen self.old) failure.who.number) }
        ensures calls { calls self.new ≡ called_by failure.who.hand (seen self.new) (fail_step failure.who.hand (why_of failure.why)) (λ _. HasEnded) result (calls self.old) };

    /// Draws so many ids, one after another, and answers the first.
    fn draw(&mut self, alloc: Global, ticket: u64, count: u64) -> Attempt<Id>
        requires mine { HasTaken (calls self.old) ticket }
        requires may { CanDraw start (ticket_of start (seen self.old) ticket) count }
        requires new { IsFresh start (seen self.old) ticket (DrawStep count) }
        ensures step { Outcome start (seen self.old) (seen self.new) ticket (DrawStep count) (λ first. DrawnFrom first.number) result }
        ensures own { IfOk result (λ first. ticket_of start (seen self.new) ticket
            ≡ record (ticket_of start (seen self.old) ticket) { first = first.number; drawn = count }) }
        ensures range { IfOk result (λ first. first.number + count < 2 ^ 128) }
        ensures kept { OnErr result (ticket_of start (seen self.new) ticket ≡ ticket_of start (seen self.old) ticket) }
        ensures calls { calls self.new ≡ calls self.old };

    /// A new stage for a blob of that name, for at most `room` bytes.
    fn begin(&mut self, alloc: Global, ticket: u64, blob: NewBlob) -> Attempt<Named<Self::Stage>>
        requires mine { HasTaken (calls self.old) ticket }
        requires layout { IsName blob.name }
        requires may { CanBegin start (ticket_of start (seen self.old) ticket) (name_of blob.name) }
        requires new { IsFresh start (seen self.old) ticket (BeginStep (name_of blob.name)) }
        ensures step { Outcome start (seen self.old) (seen self.new) ticket (BeginStep (name_of blob.name)) (λ stage. WasBegun) result }
        ensures own { ticket_of start (seen self.new) ticket
            ≡ begun_by (name_of blob.name) result (ticket_of start (seen self.old) ticket) }
        ensures name { IfOk result (λ s. s.name ≡ blob.name) }
        ensures room { IfOk result (λ s. Self.Stage.room s.stage ≡ blob.room) }
        ensures contents { IfOk result (λ s. Holds start (Self.Stage.contents s.stage) []) }
        ensures count { IfOk result (λ s. Self.Stage.faults s.stage ≡ 0) }
        ensures sure { IfOk result (λ s. start.quiet ≡ true → IsTrue (Self.Stage.is_sure s.stage)) }
        ensures calls { calls self.new ≡ calls self.old };

    /// Adds the whole blob. A blob of a finalization that is there already counts as committed; any other is refused as
    /// `NameTaken`.
    fn commit(
        &mut self,
        alloc: Global,
        ticket: u64,
        name: BlobName,
        stage: Self::Stage,
    ) -> Attempt<Commit>
        requires mine { HasTaken (calls self.old) ticket }
        requires named { Self.Stage.name stage ≡ name_kind.text (name_of name) }
        requires layout { IsName name }
        requires may { (bytes : Bytes) × Holds start (Self.Stage.contents stage) bytes
            × CanCommit start (ticket_of start (seen self.old) ticket) (name_of name) bytes }
        requires new { IsFresh start (seen self.old) ticket (CommitStep (name_of name)) }
        ensures step { Outcome start (seen self.old) (seen self.new) ticket (CommitStep (name_of name)) commit_reply result }
        ensures own { IfOk result (λ c. ticket_of start (seen self.new) ticket
            ≡ committed_by (name_of name) (Self.Stage.contents stage) c (ticket_of start (seen self.old) ticket)) }
        ensures found { result ≡ Ok Commit.Exists → IsMetadata (name_of name) }
        ensures kept { OnErr result (ticket_of start (seen self.new) ticket ≡ ticket_of start (seen self.old) ticket) }
        ensures calls { calls self.new ≡ calls self.old };

    /// Puts `index.latest`, which tells the generation that the ticket raised. Nothing reads it, so a failure is no
    /// reason to stop.
    fn latest(&mut self, alloc: Global, ticket: u64, name: BlobName, stage: Self::Stage) -> Attempt
        requires mine { HasTaken (calls self.old) ticket }
        requires named { Self.Stage.name stage ≡ name_kind.text (name_of name) }
        requires name { name_of name ≡ Latest }
        requires may { (n : ℕ) × CanPut start (ticket_of start (seen self.old) ticket) n
            × Holds start (Self.Stage.contents stage) (latest_text n) }
        requires new { IsFresh start (seen self.old) ticket LatestStep }
        ensures step { Outcome start (seen self.old) (seen self.new) ticket LatestStep (λ _. WasReplaced) result }
        ensures own { ticket_of start (seen self.new) ticket ≡ tried_by result (ticket_of start (seen self.old) ticket) }
        ensures calls { calls self.new ≡ calls self.old };

    /// Begins a generation for the root that the ticket is to write, and answers it.
    fn raise(&mut self, alloc: Global, ticket: u64) -> Attempt<u64>
        requires mine { HasTaken (calls self.old) ticket }
        requires may { CanRaise start (ticket_of start (seen self.old) ticket) }
        requires new { IsFresh start (seen self.old) ticket RaiseStep }
        ensures step { Outcome start (seen self.old) (seen self.new) ticket RaiseStep (λ n. RaisedTo n) result }
        ensures own { IfOk result (λ n. ticket_of start (seen self.new) ticket
            ≡ record (ticket_of start (seen self.old) ticket) { raised = Some n }) }
        ensures range { IfOk result (λ n. n < 2 ^ 63) }
        ensures kept { LeftBy (HasRaised (ticket_of start (seen self.old) ticket)) result (ticket_of start (seen self.old) ticket) (ticket_of start (seen self.new) ticket) }
        ensures calls { calls self.new ≡ calls self.old };

    /// Makes the root that the ticket of a snapshot or a clone committed the safe one.
    fn settle(&mut self, alloc: Global, ticket: u64, root: &RootData) -> Attempt
        requires mine { HasTaken (calls self.old) ticket }
        requires may { CanSettle start (ticket_of start (seen self.old) ticket) (root_of root.now) }
        requires unpruned { IsUnpruned (ticket_of start (seen self.old) ticket) }
        requires new { IsFresh start (seen self.old) ticket SettleStep }
        ensures step { Outcome start (seen self.old) (seen self.new) ticket SettleStep (λ _. WasSettled) result }
        ensures own { OnOk result (ticket_of start (seen self.new) ticket
            ≡ record (ticket_of start (seen self.old) ticket) { settled = true }) }
        ensures kept { LeftBy (IsSettled (ticket_of start (seen self.old) ticket)) result (ticket_of start (seen self.old) ticket) (ticket_of start (seen self.new) ticket) }
        ensures calls { calls self.new ≡ calls self.old };

    /// Plans a delete or cleanup: draws an id for each shard of which something is left, and answers the first one and the root
    /// without the named snapshots.
    fn plan(&mut self, alloc: Global, ticket: u64, basis: &Basis<'_>) -> Attempt<Planned>
        requires mine { HasTaken (calls self.old) ticket }
        requires copied { root_of basis.now.root.now ≡ (ticket_of start (seen self.old) ticket).root }
        requires may { CanPlan start (ticket_of start (seen self.old) ticket) (map number_of basis.now.uuids.now) (map pruned_of basis.now.shards.now) }
        requires new { IsFresh start (seen self.old) ticket (PruneStep (PlanShards (map pruned_of basis.now.shards.now))) }
        ensures step { Outcome start (seen self.old) (seen self.new) ticket (PruneStep (PlanShards (map pruned_of basis.now.shards.now))) (λ p. DrawnFrom p.first.number) result }
        ensures own { IfOk result (λ p. ticket_of start (seen self.new) ticket
            ≡ planned (formats_of start) (map pruned_of basis.now.shards.now) p.first.number (ticket_of start (seen self.old) ticket)) }
        ensures root { IfOk result (λ p. root_of p.root ≡ deleted_root (root_of basis.now.root.now) (map number_of basis.now.uuids.now) (map pruned_of basis.now.shards.now) p.first.number) }
        ensures range { IfOk result (λ p. p.first.number + length basis.now.shards.now < 2 ^ 128) }
        ensures kept { OnErr result (ticket_of start (seen self.new) ticket ≡ ticket_of start (seen self.old) ticket) }
        ensures calls { calls self.new ≡ calls self.old };

    /// A page of the container's blobs, by name and length: the first 1,000 after this name, or from the first one on, in the byte
    /// order of their names. A cleanup lists page after page, until one of fewer than 1,000 ends the listing.
    fn list(&mut self, alloc: Global, ticket: u64, after: Option<&str>) -> Attempt<Listing>
        requires mine { HasTaken (calls self.old) ticket }
        requires may { CanList (ticket_of start (seen self.old) ticket) (option_copied after) }
        requires new { IsFresh start (seen self.old) ticket (ListStep (option_copied after)) }
        ensures step { Outcome start (seen self.old) (seen self.new) ticket (ListStep (option_copied after.entry)) (λ page. WasListed (page_of page)) result }
        ensures own { IfOk result (λ page. ticket_of start (seen self.new) ticket
            ≡ listing (ticket_of start (seen self.old) ticket) (page_of page)) }
        ensures page { IfOk result (λ page. IsPage (option_copied after.entry) (page_of page)) }
        ensures kept { OnErr result (ticket_of start (seen self.new) ticket ≡ ticket_of start (seen self.old) ticket) }
        ensures calls { calls self.new ≡ calls self.old };

    /// Makes the root that the ticket of a delete or cleanup committed the safe one, and what it dooms may be removed. A delete
    /// leaves the list, a cleanup stays.
    fn settle_delete(&mut self, alloc: Global, ticket: u64, root: &RootData) -> Attempt
        requires mine { HasTaken (calls self.old) ticket }
        requires may { CanSettleDelete start (ticket_of start (seen self.old) ticket) (root_of root.now) }
        requires new { IsFresh start (seen self.old) ticket (PruneStep SettlePruned) }
        ensures step { Outcome start (seen self.old) (seen self.new) ticket (PruneStep SettlePruned) (λ _. WasSettled) result }
        ensures own { OnOk result (ticket_of start (seen self.new) ticket
            ≡ record (ticket_of start (seen self.old) ticket) { settled = true }) }
        ensures kept { LeftBy (IsSettled (ticket_of start (seen self.old) ticket)) result (ticket_of start (seen self.old) ticket) (ticket_of start (seen self.new) ticket) }
        ensures calls { calls self.new ≡ calls self.old };

    /// Takes blobs that the ticket dooms away; those that are gone already are no failure. Where the container fails in it, they
    /// count as named, too.
    fn remove(&mut self, alloc: Global, ticket: u64, names: &Seq<BlobName>) -> Attempt
        requires mine { HasTaken (calls self.old) ticket }
        requires layout { (name : BlobName) → Has names.now name → IsName name }
        requires may { CanRemove start (ticket_of start (seen self.old) ticket) (map name_of names.now) }
        requires new { IsFresh start (seen self.old) ticket (PruneStep (RemoveDoomed (map name_of names.now))) }
        ensures step { Outcome start (seen self.old) (seen self.new) ticket (PruneStep (RemoveDoomed (map name_of names.now))) (λ _. WasRemoved) result }
        ensures own { ticket_of start (seen self.new) ticket ≡ ticket_of start (seen self.old) ticket }
        ensures calls { calls self.new ≡ calls self.old };

    /// A shard is done; its ticket ends.
    fn end_shard(&mut self, alloc: Global, ticket: u64, outcome: &ShardResult) -> Attempt
        requires mine { HasTaken (calls self.old) ticket }
        requires may { CanEnd start (ticket_of start (seen self.old) ticket) (result_of outcome.now) }
        ensures step { Outcome start (seen self.old) (seen self.new) ticket (DoneStep (result_of outcome.now)) (λ _. HasEnded) result }
        ensures own { OnOk result (HasEndedAs (ticket_of start (seen self.old) ticket) (ticket_of start (seen self.new) ticket)) }
        ensures kept { OnErr result (ticket_of start (seen self.new) ticket ≡ ticket_of start (seen self.old) ticket) }
        ensures calls { calls self.new ≡ calls self.old };

    /// A shard is restored; its ticket ends. The target is listed, or given back where that is refused.
    fn end_restore(
        &mut self,
        alloc: Global,
        done: RestoreEnd<Self::Target>,
    ) -> Result<(), Unended<Self::Target>>
        requires mine { HasTaken (calls self.old) done.ticket }
        requires may { CanEndRestore start (reader_of start (seen self.old) done.ticket) done.files done.bytes }
        requires filled { IsFilled
            (evidence Self.Stage.faults Self.Fetch.faults Self.Shard.faults Self.Target.faults Self.Shard.told Self.Target.told)
            start (reader_of start (seen self.old) done.ticket) done.files done.bytes done.target }
        ensures step { Outcome start (seen self.old) (seen self.new) done.ticket (ReadStep (RestoredShard done.files done.bytes)) (λ _. HasEnded) (refused_of result) }
        ensures own { OnOk result (reader_of start (seen self.new) done.ticket
            ≡ record (reader_of start (seen self.old) done.ticket) { out = false }) }
        ensures kept { OnErr result (reader_of start (seen self.new) done.ticket ≡ reader_of start (seen self.old) done.ticket) }
        ensures target { IfErr result (λ u. u.target ≡ done.target) }
        ensures calls { calls self.new ≡ calls self.old };

    /// A delete is over: its removals have named all that its plan dooms. Its ticket ends.
    fn end_delete(&mut self, alloc: Global, ticket: u64) -> Attempt
        requires mine { HasTaken (calls self.old) ticket }
        requires may { CanEndDelete start (seen self.old) ticket }
        ensures step { Outcome start (seen self.old) (seen self.new) ticket (PruneStep EndDelete) (λ _. HasEnded) result }
        ensures own { OnOk result (HasEndedAs (ticket_of start (seen self.old) ticket) (ticket_of start (seen self.new) ticket)) }
        ensures kept { OnErr result (ticket_of start (seen self.new) ticket ≡ ticket_of start (seen self.old) ticket) }
        ensures calls { calls self.new ≡ calls self.old };

    /// An op that failed leaves the list; its ticket ends.
    fn end_drop(&mut self, alloc: Global, ticket: u64) -> Attempt
        requires mine { HasTaken (calls self.old) ticket }
        requires may { CanDrop (ticket_of start (seen self.old) ticket) }
        requires new { IsFresh start (seen self.old) ticket DroppedStep }
        ensures step { Outcome start (seen self.old) (seen self.new) ticket DroppedStep (λ _. HasEnded) result }
        ensures own { OnOk result (HasEndedAs (ticket_of start (seen self.old) ticket) (ticket_of start (seen self.new) ticket)) }
        ensures kept { LeftBy (HasEndedAs (ticket_of start (seen self.old) ticket)) result (ticket_of start (seen self.old) ticket) (ticket_of start (seen self.new) ticket) }
        ensures calls { calls self.new ≡ calls self.old };

    /// A cleanup is over: its removals took all that it dooms away. Its op leaves the list; its ticket ends.
    fn end_cleanup(&mut self, alloc: Global, ticket: u64) -> Attempt
        requires mine { HasTaken (calls self.old) ticket }
        requires may { CanEndCleanup start (seen self.old) ticket }
        requires new { IsFresh start (seen self.old) ticket DroppedStep }
        ensures step { Outcome start (seen self.old) (seen self.new) ticket DroppedStep (λ _. HasEnded) result }
        ensures own { OnOk result (HasEndedAs (ticket_of start (seen self.old) ticket) (ticket_of start (seen self.new) ticket)) }
        ensures kept { LeftBy (HasEndedAs (ticket_of start (seen self.old) ticket)) result (ticket_of start (seen self.old) ticket) (ticket_of start (seen self.new) ticket) }
        ensures calls { calls self.new ≡ calls self.old };

    /// The unit of a snapshot or a clone that has settled ends, and so does any but a shard's once its term is over, as a step of
    /// its own was told.
    fn finish(&mut self, alloc: Global, ticket: u64) -> Attempt
        requires mine { HasTaken (calls self.old) ticket }
        requires may { CanFinish start (seen self.old) ticket }
        ensures step { Outcome start (seen self.old) (seen self.new) ticket FinishStep (λ _. HasEnded) result }
        ensures own { OnOk result (HasEndedAs (ticket_of start (seen self.old) ticket) (ticket_of start (seen self.new) ticket)) }
        ensures kept { OnErr result (ticket_of start (seen self.new) ticket ≡ ticket_of start (seen self.old) ticket) }
        ensures calls { calls self.new ≡ calls self.old };
}
