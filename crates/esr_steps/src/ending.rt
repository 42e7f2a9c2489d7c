//! The steps by which a unit swaps the record, and ends.
ghost use Rattle.std.specs.Prelude.{◌≡◌, ◌<◌, ◌^◌, Some, true, false, IfOk, OnOk, OnErr};
ghost use Rattle.esr_core.specs.Entry.{RaiseStep, SettleStep, DoneStep, FinishStep, DroppedStep, ReadStep, RestoredShard, RaisedTo, WasSettled, HasEnded};
ghost use Rattle.esr_formats.specs.Roots.{root_of};
ghost use Rattle.esr_results.specs.Results.{result_of};
ghost use Rattle.esr_desk.specs.Start.{ticket_of};
ghost use Rattle.esr_desk.specs.Own.{reader_of};
ghost use Rattle.esr_desk.specs.Once.{IsFresh};
ghost use Rattle.esr_desk.specs.Conditions.{CanRaise, IsUnpruned, CanSettle, CanEnd, CanFinish, CanDrop};
ghost use Rattle.esr_desk.specs.Delete.Conditions.{CanEndCleanup};
ghost use Rattle.esr_desk.specs.Restore.Conditions.{CanEndRestore};
ghost use Rattle.esr_desk.specs.Taken.{LeftBy, HasRaised, IsSettled, HasEndedAs};
ghost use Rattle.esr_desk.specs.declared.refusal.StepRefusal.{StepRefusal};
ghost use Rattle.esr_repo.specs.Next.{Did};
ghost use Rattle.esr_steps.specs.Leave.{CanLeave};

use crate::renewing::{count, raised, settled, without_op};
use esr_depot::Depot;
use esr_desk::{Answer, EntryRefusal, Read, Step, StepRefusal};
use esr_repo::{Repo, Told, entry_refusal};
use esr_results::ShardResult;
use esr_root::RootData;
use esr_seq::TryClone;
use std::alloc::Global;

/// Begins a generation for the root that the ticket is to write, and answers it.
pub fn raise<D: Depot, K: Told>(
    repo: &mut Repo<D, K>,
    alloc: Global,
    ticket: u64,
) -> Result<u64, StepRefusal>
    requires may { CanRaise K.start (ticket_of K.start repo.old ticket) }
    requires new { IsFresh K.start repo.old ticket RaiseStep }
    ensures step { Did K.start repo.old repo.new ticket RaiseStep (λ n. RaisedTo n) result }
    ensures own { IfOk result (λ n. ticket_of K.start repo.new ticket
        ≡ record (ticket_of K.start repo.old ticket) { raised = Some n }) }
    ensures range { IfOk result (λ n. n < 2 ^ 63) }
    ensures kept { LeftBy (HasRaised (ticket_of K.start repo.old ticket)) result (ticket_of K.start repo.old ticket) (ticket_of K.start repo.new ticket) }
{
    repo.check(ticket, Step::Raise)?;
    let own = repo.seat(ticket).term;
    let generation = count(repo.record().pending);
    let mut cluster = repo.record().try_clone(alloc)?;
    if let Err(refusal) = cluster.raise(own) {
        return Err(repo.refuse(ticket, Step::Raise, entry_refusal(refusal)));
    }
    let renewed = raised(repo, alloc, ticket, generation, cluster)?;
    repo.swap(
        alloc,
        ticket,
        Step::Raise,
        Answer::Raised { generation },
        renewed,
    )?;
    Ok(generation)
}

/// Makes the root that the ticket committed the safe one.
pub fn settle<D: Depot, K: Told>(
    repo: &mut Repo<D, K>,
    alloc: Global,
    ticket: u64,
    root: &RootData,
) -> Result<(), StepRefusal>
    requires may { CanSettle K.start (ticket_of K.start repo.old ticket) (root_of root.now) }
    requires unpruned { IsUnpruned (ticket_of K.start repo.old ticket) }
    requires new { IsFresh K.start repo.old ticket SettleStep }
    ensures step { Did K.start repo.old repo.new ticket SettleStep (λ _. WasSettled) result }
    ensures own { OnOk result (ticket_of K.start repo.new ticket
        ≡ record (ticket_of K.start repo.old ticket) { settled = true }) }
    ensures kept { LeftBy (IsSettled (ticket_of K.start repo.old ticket)) result (ticket_of K.start repo.old ticket) (ticket_of K.start repo.new ticket) }
{
    repo.check(ticket, Step::Settle)?;
    let own = repo.seat(ticket).term;
    let now = repo.term();
    if own != now {
        let refusal = EntryRefusal::StaleTerm { own, now };
        return Err(repo.refuse(ticket, Step::Settle, refusal));
    }
    let renewed = settled(repo, alloc, ticket, root)?;
    repo.swap(alloc, ticket, Step::Settle, Answer::Settled, renewed)
}

/// A shard is done; its ticket ends.
pub fn end_shard<D: Depot, K: Told>(
    repo: &mut Repo<D, K>,
    alloc: Global,
    ticket: u64,
    outcome: &ShardResult,
) -> Result<(), StepRefusal>
    requires may { CanEnd K.start (ticket_of K.start repo.old ticket) (result_of outcome.now) }
    ensures step { Did K.start repo.old repo.new ticket (DoneStep (result_of outcome.now)) (λ _. HasEnded) result }
    ensures own { OnOk result (ticket_of K.start repo.new ticket
        ≡ record (ticket_of K.start repo.old ticket) { out = false }) }
    ensures kept { OnErr result (ticket_of K.start repo.new ticket ≡ ticket_of K.start repo.old ticket) }
{
    repo.check(ticket, Step::Done { result: *outcome })?;
    repo.rules();
    let progress = repo.plan().shard_done(alloc, ticket, outcome)?;
    let next = repo.next_id();
    let step = Step::Done { result: *outcome };
    repo.note(ticket, step, Answer::Ended, Some(progress), next)
}

/// A shard is restored, with so many files of so many bytes; its ticket ends.
pub fn end_restore<D: Depot, K: Told>(
    repo: &mut Repo<D, K>,
    alloc: Global,
    ticket: u64,
    files: u64,
    bytes: u64,
) -> Result<(), StepRefusal>
    requires may { CanEndRestore K.start (reader_of K.start repo.old ticket) files bytes }
    ensures step { Did K.start repo.old repo.new ticket (ReadStep (RestoredShard files bytes)) (λ _. HasEnded) result }
    ensures own { OnOk result (reader_of K.start repo.new ticket
        ≡ record (reader_of K.start repo.old ticket) { out = false }) }
    ensures kept { OnErr result (reader_of K.start repo.new ticket ≡ reader_of K.start repo.old ticket) }
{
    let read = Read::Restored { files, bytes };
    repo.check(ticket, Step::Read { read })?;
    repo.rules();
    let ended = repo.plan().shard_read(alloc, ticket)?;
    let next = repo.next_id();
    let read = Read::Restored { files, bytes };
    let step = Step::Read { read };
    repo.note(ticket, step, Answer::Ended, Some(ended), next)
}

/// The op of the ticket leaves the list; the ticket ends.
fn end_op<D: Depot, K: Told>(
    repo: &mut Repo<D, K>,
    alloc: Global,
    ticket: u64,
) -> Result<(), StepRefusal>
    requires may { CanLeave K.start repo.old ticket }
    requires new { IsFresh K.start repo.old ticket DroppedStep }
    ensures step { Did K.start repo.old repo.new ticket DroppedStep (λ _. HasEnded) result }
    ensures own { OnOk result (ticket_of K.start repo.new ticket
        ≡ record (ticket_of K.start repo.old ticket) { out = false }) }
    ensures kept { LeftBy (HasEndedAs (ticket_of K.start repo.old ticket)) result (ticket_of K.start repo.old ticket) (ticket_of K.start repo.new ticket) }
{
    repo.check(ticket, Step::Dropped)?;
    repo.rules();
    let own = repo.seat(ticket).term;
    let now = repo.term();
    if own != now {
        let refusal = EntryRefusal::StaleTerm { own, now };
        return Err(repo.refuse(ticket, Step::Dropped, refusal));
    }
    let renewed = without_op(repo, alloc, ticket)?;
    repo.swap(alloc, ticket, Step::Dropped, Answer::Ended, renewed)
}

/// An op that failed leaves the list; its ticket ends.
pub fn end_drop<D: Depot, K: Told>(
    repo: &mut Repo<D, K>,
    alloc: Global,
    ticket: u64,
) -> Result<(), StepRefusal>
    requires may { CanDrop (ticket_of K.start repo.old ticket) }
    requires new { IsFresh K.start repo.old ticket DroppedStep }
    ensures step { Did K.start repo.old repo.new ticket DroppedStep (λ _. HasEnded) result }
    ensures own { OnOk result (ticket_of K.start repo.new ticket
        ≡ record (ticket_of K.start repo.old ticket) { out = false }) }
    ensures kept { LeftBy (HasEndedAs (ticket_of K.start repo.old ticket)) result (ticket_of K.start repo.old ticket) (ticket_of K.start repo.new ticket) }
{
    end_op(repo, alloc, ticket)
}

/// A cleanup is over: its removals took away all that it dooms. Its op leaves the list; its ticket ends.
pub fn end_cleanup<D: Depot, K: Told>(
    repo: &mut Repo<D, K>,
    alloc: Global,
    ticket: u64,
) -> Result<(), StepRefusal>
    requires may { CanEndCleanup K.start repo.old ticket }
    requires new { IsFresh K.start repo.old ticket DroppedStep }
    ensures step { Did K.start repo.old repo.new ticket DroppedStep (λ _. HasEnded) result }
    ensures own { OnOk result (ticket_of K.start repo.new ticket
        ≡ record (ticket_of K.start repo.old ticket) { out = false }) }
    ensures kept { LeftBy (HasEndedAs (ticket_of K.start repo.old ticket)) result (ticket_of K.start repo.old ticket) (ticket_of K.start repo.new ticket) }
{
    end_op(repo, alloc, ticket)
}

/// The unit of a snapshot or a clone that has settled ends, and so does any but a shard's once its term is over, as a step of its
/// own was told.
pub fn finish<D: Depot, K: Told>(
    repo: &mut Repo<D, K>,
    alloc: Global,
    ticket: u64,
) -> Result<(), StepRefusal>
    requires may { CanFinish K.start repo.old ticket }
    ensures step { Did K.start repo.old repo.new ticket FinishStep (λ _. HasEnded) result }
    ensures own { OnOk result (ticket_of K.start repo.new ticket
        ≡ record (ticket_of K.start repo.old ticket) { out = false }) }
    ensures kept { OnErr result (ticket_of K.start repo.new ticket ≡ ticket_of K.start repo.old ticket) }
{
    repo.check(ticket, Step::Finish)?;
    repo.rules();
    let progress = repo.plan().ended(alloc, ticket)?;
    let next = repo.next_id();
    repo.note(ticket, Step::Finish, Answer::Ended, Some(progress), next)
}
