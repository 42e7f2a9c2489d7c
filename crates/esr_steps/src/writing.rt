//! The steps by which a unit writes.
ghost use Rattle.std.specs.Prelude.{◌≡◌, ◌+◌, ◌<◌, ◌^◌, ℕ, [], length, true, IsTrue, IfOk, OnErr};
ghost use Rattle.esr_model.specs.Names.{Latest};
ghost use Rattle.esr_model.specs.Values.{Bytes};
ghost use Rattle.esr_core.specs.Entry.{DrawStep, BeginStep, CommitStep, LatestStep, DrawnFrom, WasBegun, WasReplaced};
ghost use Rattle.esr_core.specs.Allowed.{IsMetadata, latest_text};
ghost use Rattle.esr_names.specs.Layout.{IsName};
ghost use Rattle.esr_formats.specs.Names.{name_of};
ghost use Rattle.esr_desk.specs.Start.{ticket_of};
ghost use Rattle.esr_desk.specs.Once.{IsFresh};
ghost use Rattle.esr_desk.specs.Outcome.{commit_reply};
ghost use Rattle.esr_desk.specs.Conditions.{CanDraw, CanCommit, CanPut, CanBegin, Holds};
ghost use Rattle.esr_desk.specs.Taken.{committed_by, begun_by, tried_by};
ghost use Rattle.esr_desk.specs.declared.refusal.StepRefusal.{StepRefusal};
ghost use Rattle.esr_repo.specs.Next.{Did};

use esr_depot::{Commit, Depot, Stage};
use esr_desk::{Answer, EntryRefusal, Named, Step, StepRefusal};
use esr_names::{BlobName, Id};
use esr_repo::{Repo, Told};
use std::alloc::Global;

/// Draws so many ids, one after another, and answers the first.
pub fn draw<D: Depot, K: Told>(
    repo: &mut Repo<D, K>,
    alloc: Global,
    ticket: u64,
    count: u64,
) -> Result<Id, StepRefusal>
    requires may { CanDraw K.start (ticket_of K.start repo.old ticket) count }
    requires new { IsFresh K.start repo.old ticket (DrawStep count) }
    ensures step { Did K.start repo.old repo.new ticket (DrawStep count) (λ first. DrawnFrom first.number) result }
    ensures own { IfOk result (λ first. ticket_of K.start repo.new ticket
        ≡ record (ticket_of K.start repo.old ticket) { first = first.number; drawn = count }) }
    ensures range { IfOk result (λ first. first.number + count < 2 ^ 128) }
    ensures kept { OnErr result (ticket_of K.start repo.new ticket ≡ ticket_of K.start repo.old ticket) }
{
    repo.check(ticket, Step::Draw { count })?;
    let first = repo.next_id();
    let Some(next) = repo.id_after(count) else {
        let refusal = EntryRefusal::IdsSpent { next: first };
        return Err(repo.refuse(ticket, Step::Draw { count }, refusal));
    };
    repo.note(
        ticket,
        Step::Draw { count },
        Answer::Drawn { first },
        None,
        next,
    )?;
    Ok(first)
}

/// A new stage for a blob of that name, for at most `room` bytes.
pub fn begin<D: Depot, K: Told>(
    repo: &mut Repo<D, K>,
    alloc: Global,
    ticket: u64,
    name: BlobName,
    room: usize,
) -> Result<Named<D::Stage>, StepRefusal>
    requires layout { IsName name }
    requires may { CanBegin K.start (ticket_of K.start repo.old ticket) (name_of name) }
    requires new { IsFresh K.start repo.old ticket (BeginStep (name_of name)) }
    ensures step { Did K.start repo.old repo.new ticket (BeginStep (name_of name)) (λ stage. WasBegun) result }
    ensures own { ticket_of K.start repo.new ticket
        ≡ begun_by (name_of name) result (ticket_of K.start repo.old ticket) }
    ensures name { IfOk result (λ s. s.name ≡ name) }
    ensures room { IfOk result (λ s. D.Stage.room s.stage ≡ room) }
    ensures contents { IfOk result (λ s. Holds K.start (D.Stage.contents s.stage) []) }
    ensures count { IfOk result (λ s. D.Stage.faults s.stage ≡ 0) }
    ensures sure { IfOk result (λ s. K.start.quiet ≡ true → length repo.old < 2 ^ 41 → IsTrue (D.Stage.is_sure s.stage)) }
{
    repo.check(ticket, Step::Begin { name })?;
    repo.rules();
    repo.call_begin(alloc, ticket, Step::Begin { name }, name, room)
}

/// Adds the whole blob. A blob of a finalization that is there already counts as committed; any other is refused as
/// `NameTaken`.
pub fn commit<D: Depot, K: Told>(
    repo: &mut Repo<D, K>,
    alloc: Global,
    ticket: u64,
    stage: Named<D::Stage>,
) -> Result<Commit, StepRefusal>
    requires layout { IsName stage.name }
    requires may { (bytes : Bytes) × Holds K.start (D.Stage.contents stage.stage) bytes
        × CanCommit K.start (ticket_of K.start repo.old ticket) (name_of stage.name) bytes }
    requires new { IsFresh K.start repo.old ticket (CommitStep (name_of stage.name)) }
    ensures step { Did K.start repo.old repo.new ticket (CommitStep (name_of stage.name)) commit_reply result }
    ensures own { IfOk result (λ c. ticket_of K.start repo.new ticket
        ≡ committed_by (name_of stage.name) (D.Stage.contents stage.stage) c (ticket_of K.start repo.old ticket)) }
    ensures found { result ≡ Ok Commit.Exists → IsMetadata (name_of stage.name) }
    ensures kept { OnErr result (ticket_of K.start repo.new ticket ≡ ticket_of K.start repo.old ticket) }
{
    repo.check(ticket, Step::Commit { name: stage.name })?;
    repo.rules();
    let step = Step::Commit { name: stage.name };
    repo.call_commit(alloc, ticket, step, stage)
}

/// Puts `index.latest`, which tells the generation that the ticket raised. Nothing reads it, so a failure is no
/// reason to stop.
pub fn latest<D: Depot, K: Told>(
    repo: &mut Repo<D, K>,
    alloc: Global,
    ticket: u64,
    stage: Named<D::Stage>,
) -> Result<(), StepRefusal>
    requires name { name_of stage.name ≡ Latest }
    requires may { (n : ℕ) × CanPut K.start (ticket_of K.start repo.old ticket) n
        × Holds K.start (D.Stage.contents stage.stage) (latest_text n) }
    requires new { IsFresh K.start repo.old ticket LatestStep }
    ensures step { Did K.start repo.old repo.new ticket LatestStep (λ _. WasReplaced) result }
    ensures own { ticket_of K.start repo.new ticket ≡ tried_by result (ticket_of K.start repo.old ticket) }
{
    repo.check(ticket, Step::Latest)?;
    repo.call_replace(alloc, ticket, stage)
}
