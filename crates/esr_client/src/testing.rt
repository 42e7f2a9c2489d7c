//! The steps of a verification.
ghost use Rattle.std.specs.Prelude.{◌≡◌, ◌<◌, ◌^◌, [], length, map, true, IsTrue, IfOk, OnOk, OnErr};
ghost use Rattle.esr_model.specs.Values.{Bytes, Has};
ghost use Rattle.esr_core.specs.World.{no_caller};
ghost use Rattle.esr_core.specs.Entry.{ReadStep, DrawTest, BeginTest, CommitTest, RemoveTests, VerifiedAll, DrawnFrom, WasBegun, WasDone, WasRemoved, HasEnded};
ghost use Rattle.esr_core.specs.After.{caller_wrote};
ghost use Rattle.esr_names.specs.Layout.{IsName};
ghost use Rattle.esr_formats.specs.Names.{name_of};
ghost use Rattle.esr_desk.specs.Entries.{step_of};
ghost use Rattle.esr_desk.specs.Conditions.{Holds};
ghost use Rattle.esr_desk.specs.Own.{caller_of};
ghost use Rattle.esr_desk.specs.Once.{IsFresh};
ghost use Rattle.esr_desk.specs.Caller.{drawn_by, removed_more};
ghost use Rattle.esr_desk.specs.Verify.Conditions.{CanDrawTest, IsOwn, CanCommitTest, CanRemoveTests, CanEndVerification, HasTestedNone};
ghost use Rattle.esr_repo.specs.Next.{Did};

use esr_depot::{Depot, Stage};
use esr_desk::{Answer, BlobNames, EntryRefusal, Named, Read, Step, StepRefusal};
use esr_names::{BlobName, Id};
use esr_repo::{Repo, Told, entries_tell_the_caller};
use esr_seq::Seq;
use std::alloc::{AllocError, Global};

/// The step that takes test blobs away.
fn removes(alloc: Global, names: &[BlobName]) -> Result<Step, AllocError>
    ensures { IfOk result (λ step. step_of step ≡ ReadStep (RemoveTests (map name_of names.now))) }
{
    let names = BlobNames::from_slice(alloc, names)?;
    let read = Read::RemoveTests { names };
    Ok(Step::Read { read })
}

/// Draws the id of the test blobs, which begins a verification.
pub fn draw_test<D: Depot, K: Told>(repo: &mut Repo<D, K>, alloc: Global) -> Result<Id, StepRefusal>
    requires may { CanDrawTest (caller_of K.start repo.old) }
    ensures step { Did K.start repo.old repo.new 0 (ReadStep DrawTest) (λ id. DrawnFrom id.number) result }
    ensures own { caller_of K.start repo.new ≡ drawn_by result (caller_of K.start repo.old) }
    ensures range { IfOk result (λ id. id.number < 2 ^ 128) }
    ensures new { IfOk result (λ id. HasTestedNone K.start repo.new id.number) }
{
    entries_tell_the_caller();
    repo.rules();
    let read = Read::DrawTest;
    repo.check(0, Step::Read { read })?;
    let read = Read::DrawTest;
    let step = Step::Read { read };
    let first = repo.next_id();
    let Some(next) = repo.id_after(1) else {
        let refusal = EntryRefusal::IdsSpent { next: first };
        return Err(repo.refuse(0, step, refusal));
    };
    repo.note(0, step, Answer::Drawn { first }, None, next)?;
    Ok(first)
}

/// A new stage for a test blob of that name, for at most `room` bytes.
pub fn begin_test<D: Depot, K: Told>(
    repo: &mut Repo<D, K>,
    alloc: Global,
    name: BlobName,
    room: usize,
) -> Result<Named<D::Stage>, StepRefusal>
    requires layout { IsName name }
    requires may { IsOwn (caller_of K.start repo.old) (name_of name) }
    requires new { IsFresh K.start repo.old 0 (ReadStep (BeginTest (name_of name))) }
    ensures step { Did K.start repo.old repo.new 0 (ReadStep (BeginTest (name_of name))) (λ stage. WasBegun) result }
    ensures own { caller_of K.start repo.new ≡ caller_of K.start repo.old }
    ensures name { IfOk result (λ s. s.name ≡ name) }
    ensures room { IfOk result (λ s. D.Stage.room s.stage ≡ room) }
    ensures contents { IfOk result (λ s. Holds K.start (D.Stage.contents s.stage) []) }
    ensures count { IfOk result (λ s. D.Stage.faults s.stage ≡ 0) }
    ensures sure { IfOk result (λ s. K.start.quiet ≡ true → length repo.old < 2 ^ 41 → IsTrue (D.Stage.is_sure s.stage)) }
{
    entries_tell_the_caller();
    let read = Read::BeginTest { name };
    repo.check(0, Step::Read { read })?;
    repo.rules();
    let read = Read::BeginTest { name };
    repo.call_begin(alloc, 0, Step::Read { read }, name, room)
}

/// Adds the whole test blob. One that is there is refused as `NameTaken`.
pub fn commit_test<D: Depot, K: Told>(
    repo: &mut Repo<D, K>,
    alloc: Global,
    stage: Named<D::Stage>,
) -> Result<(), StepRefusal>
    requires layout { IsName stage.name }
    requires holds { (bytes : Bytes) × Holds K.start (D.Stage.contents stage.stage) bytes }
    requires may { CanCommitTest (caller_of K.start repo.old) (name_of stage.name) }
    requires new { IsFresh K.start repo.old 0 (ReadStep (CommitTest (name_of stage.name))) }
    ensures step { Did K.start repo.old repo.new 0 (ReadStep (CommitTest (name_of stage.name))) (λ _. WasDone) result }
    ensures own { OnOk result (caller_of K.start repo.new
        ≡ caller_wrote (caller_of K.start repo.old) (name_of stage.name) (D.Stage.contents stage.stage)) }
    ensures kept { OnErr result (caller_of K.start repo.new ≡ caller_of K.start repo.old) }
{
    entries_tell_the_caller();
    let name = stage.name;
    let read = Read::CommitTest { name };
    repo.check(0, Step::Read { read })?;
    repo.rules();
    let read = Read::CommitTest { name };
    repo.call_commit(alloc, 0, Step::Read { read }, stage)?;
    Ok(())
}

/// Takes the test blobs of these names away.
pub fn remove_tests<D: Depot, K: Told>(
    repo: &mut Repo<D, K>,
    alloc: Global,
    names: &Seq<BlobName>,
) -> Result<(), StepRefusal>
    requires layout { (name : BlobName) → Has names.now name → IsName name }
    requires may { CanRemoveTests (caller_of K.start repo.old) (map name_of names.now) }
    requires new { IsFresh K.start repo.old 0 (ReadStep (RemoveTests (map name_of names.now))) }
    ensures step { Did K.start repo.old repo.new 0 (ReadStep (RemoveTests (map name_of names.now))) (λ _. WasRemoved) result }
    ensures own { OnOk result (caller_of K.start repo.new
        ≡ removed_more (map name_of names.now) (caller_of K.start repo.old)) }
    ensures kept { OnErr result (caller_of K.start repo.new ≡ caller_of K.start repo.old) }
{
    entries_tell_the_caller();
    let names = names.as_slice();
    repo.check(0, removes(alloc, names)?)?;
    repo.rules();
    let step = removes(alloc, names)?;
    repo.call_remove(alloc, 0, step, names)
}

/// The container was verified: each test blob was there, and was removed.
pub fn end_verification<D: Depot, K: Told>(
    repo: &mut Repo<D, K>,
    alloc: Global,
) -> Result<(), StepRefusal>
    requires may { CanEndVerification (caller_of K.start repo.old) }
    ensures step { Did K.start repo.old repo.new 0 (ReadStep VerifiedAll) (λ _. HasEnded) result }
    ensures own { OnOk result (caller_of K.start repo.new ≡ no_caller) }
    ensures kept { OnErr result (caller_of K.start repo.new ≡ caller_of K.start repo.old) }
{
    entries_tell_the_caller();
    let read = Read::Verified;
    repo.check(0, Step::Read { read })?;
    let next = repo.next_id();
    let read = Read::Verified;
    repo.note(0, Step::Read { read }, Answer::Ended, None, next)
}
