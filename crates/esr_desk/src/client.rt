//! One call for each step that a line of a script asks for.
ghost use Rattle.std.specs.Prelude.{◌≡◌, ◌<◌, ◌^◌, ◌≤ℤ◌, negsuc, [], map, Option, true, IsTrue, IfOk, OnOk, OnErr};
ghost use Rattle.esr_model.specs.Values.{Has};
ghost use Rattle.esr_core.specs.World.{no_caller};
ghost use Rattle.esr_core.specs.Restores.{AreOnce};
ghost use Rattle.esr_core.specs.After.{caller_wrote};
ghost use Rattle.esr_core.specs.Entry.{CloneOf, Clone, Restore, AskStep, LookStep, ReadStep, CheckedAll, DrawTest, BeginTest, CommitTest, RemoveTests, VerifiedAll, Accepted, AcceptedRestore as AcceptedAs, Looked, DrawnFrom, WasBegun, WasDone, WasRemoved, HasEnded};
ghost use Rattle.esr_names.specs.Layout.{IsName};
ghost use Rattle.esr_formats.specs.Names.{name_of, name_kind};
ghost use Rattle.esr_formats.specs.Refs.{ref_of_code};
ghost use Rattle.esr_formats.specs.Roots.{root_snap_of};
ghost use Rattle.esr_formats.specs.Clusters.{count_of};
ghost use Rattle.esr_ops.specs.Asked.{asked_of, IsForOp};
ghost use Rattle.esr_desk.specs.Own.{caller_of};
ghost use Rattle.esr_desk.specs.Once.{IsFresh};
ghost use Rattle.esr_desk.specs.Caller.{drawn_by, removed_more};
ghost use Rattle.esr_desk.specs.Calls.{called};
ghost use Rattle.esr_desk.specs.Outcome.{Outcome};
ghost use Rattle.esr_desk.specs.Conditions.{Holds};
ghost use Rattle.esr_desk.specs.Check.Conditions.{CanEndCheck};
ghost use Rattle.esr_desk.specs.Verify.Conditions.{CanDrawTest, IsOwn, HoldsText, CanCommitTest, CanRemoveTests, CanEndVerification, HasTestedNone};

use crate::{AcceptedRestore, Attempt, CloneAsk, Desk, Look, Named, NewBlob};
use esr_depot::Stage;
use esr_names::{BlobName, Id, SnapName};
use esr_ops::Command;
use esr_seq::{Seq, Text};
use std::alloc::Global;

/// The steps that a line of a script asks for, which no worker makes. Each adds one entry of who 0 to the history, or none where
/// it answers `Memory` or `TurnsSpent`; nothing else of the caller's own changes then. Checks and verifications need a desk that
/// is alone; what they fetch, and that they failed, are steps of `Desk`.
pub trait Client: Desk {
    /// Asks for a snapshot, a delete or a cleanup. It is the op that is answered; a delete may go into one that was open.
    fn ask(&mut self, alloc: Global, command: &Command) -> Attempt<u64>
        requires { IsForOp (asked_of command.now) }
        ensures step { Outcome Self.start (Self.seen self.old) (Self.seen self.new) 0 (AskStep (asked_of command.now)) (λ op. Accepted op) result }
        ensures calls { Self.calls self.new ≡ called (Self.seen self.new) (AskStep (asked_of command.now)) (λ op. Accepted op) result (Self.calls self.old) };

    /// Asks for a clone, which names each index once. It is accepted as the op that is answered; the entry tells what it takes.
    fn clone_snapshot(&mut self, alloc: Global, ask: &CloneAsk<'_>) -> Attempt<u64>
        requires once { AreOnce ask.now.indices.now }
        ensures step { (taken : Option CloneOf)
            × Outcome Self.start (Self.seen self.old) (Self.seen self.new) 0 (AskStep (Clone ask.now.source.now ask.now.name.now ask.now.indices.now ask.now.moment taken)) (λ op. Accepted op) result
            × (Self.calls self.new ≡ called (Self.seen self.new) (AskStep (Clone ask.now.source.now ask.now.name.now ask.now.indices.now ask.now.moment taken)) (λ op. Accepted op) result (Self.calls self.old)) };

    /// Asks for a restore of the files of the snapshot of that name below a place. The answer tells its indices.
    fn restore(&mut self, alloc: Global, name: &SnapName, place: &Text) -> Attempt<AcceptedRestore>
        ensures step { Outcome Self.start (Self.seen self.old) (Self.seen self.new) 0 (AskStep (Restore name.now place.now))
            (λ a. AcceptedAs a.op a.uuid.number (map ref_of_code a.indices)) result }
        ensures calls { Self.calls self.new ≡ called (Self.seen self.new) (AskStep (Restore name.now place.now))
            (λ a. AcceptedAs a.op a.uuid.number (map ref_of_code a.indices)) result (Self.calls self.old) };

    /// The snapshots of the safe root, and its generation, which is -1 exactly where there is none. It begins a check.
    fn look(&mut self, alloc: Global) -> Attempt<Look>
        ensures step { Outcome Self.start (Self.seen self.old) (Self.seen self.new) 0 LookStep (λ l. Looked (map root_snap_of l.listing) (count_of l.safe)) result }
        ensures least { IfOk result (λ l. negsuc 0 ≤ℤ l.safe) }
        ensures calls { Self.calls self.new ≡ called (Self.seen self.new) LookStep (λ l. Looked (map root_snap_of l.listing) (count_of l.safe)) result (Self.calls self.old) };

    /// The check has read all: so many snapshots, and so many blobs.
    fn end_check(&mut self, alloc: Global, snapshots: u64, blobs: u64) -> Attempt
        requires alone { Self.start.alone ≡ true }
        requires may { CanEndCheck Self.start (Self.seen self.old) snapshots blobs }
        ensures step { Outcome Self.start (Self.seen self.old) (Self.seen self.new) 0 (ReadStep (CheckedAll snapshots blobs)) (λ _. HasEnded) result }
        ensures own { OnOk result (caller_of Self.start (Self.seen self.new) ≡ no_caller) }
        ensures kept { OnErr result (caller_of Self.start (Self.seen self.new) ≡ caller_of Self.start (Self.seen self.old)) }
        ensures calls { Self.calls self.new ≡ called (Self.seen self.new) (ReadStep (CheckedAll snapshots blobs)) (λ _. HasEnded) result (Self.calls self.old) };

    /// Draws the id of the test blobs, which begins a verification.
    fn draw_test(&mut self, alloc: Global) -> Attempt<Id>
        requires alone { Self.start.alone ≡ true }
        requires may { CanDrawTest (caller_of Self.start (Self.seen self.old)) }
        ensures step { Outcome Self.start (Self.seen self.old) (Self.seen self.new) 0 (ReadStep DrawTest) (λ id. DrawnFrom id.number) result }
        ensures own { caller_of Self.start (Self.seen self.new) ≡ drawn_by result (caller_of Self.start (Self.seen self.old)) }
        ensures range { IfOk result (λ id. id.number < 2 ^ 128) }
        ensures new { IfOk result (λ id. HasTestedNone Self.start (Self.seen self.new) id.number) }
        ensures calls { Self.calls self.new ≡ called (Self.seen self.new) (ReadStep DrawTest) (λ id. DrawnFrom id.number) result (Self.calls self.old) };

    /// A new stage for a test blob of that name, for at most `room` bytes.
    fn begin_test(&mut self, alloc: Global, blob: NewBlob) -> Attempt<Named<Self::Stage>>
        requires alone { Self.start.alone ≡ true }
        requires layout { IsName blob.name }
        requires may { IsOwn (caller_of Self.start (Self.seen self.old)) (name_of blob.name) }
        requires new { IsFresh Self.start (Self.seen self.old) 0 (ReadStep (BeginTest (name_of blob.name))) }
        ensures step { Outcome Self.start (Self.seen self.old) (Self.seen self.new) 0 (ReadStep (BeginTest (name_of blob.name))) (λ stage. WasBegun) result }
        ensures own { caller_of Self.start (Self.seen self.new) ≡ caller_of Self.start (Self.seen self.old) }
        ensures name { IfOk result (λ s. s.name ≡ blob.name) }
        ensures room { IfOk result (λ s. Self.Stage.room s.stage ≡ blob.room) }
        ensures contents { IfOk result (λ s. Holds Self.start (Self.Stage.contents s.stage) []) }
        ensures count { IfOk result (λ s. Self.Stage.faults s.stage ≡ 0) }
        ensures sure { IfOk result (λ s. Self.start.quiet ≡ true → IsTrue (Self.Stage.is_sure s.stage)) }
        ensures calls { Self.calls self.new ≡ called (Self.seen self.new) (ReadStep (BeginTest (name_of blob.name))) (λ stage. WasBegun) result (Self.calls self.old) };

    /// Adds the whole test blob, which holds the text of the id. One that is there is refused as `NameTaken`.
    fn commit_test(&mut self, alloc: Global, name: BlobName, stage: Self::Stage) -> Attempt
        requires alone { Self.start.alone ≡ true }
        requires named { Self.Stage.name stage ≡ name_kind.text (name_of name) }
        requires layout { IsName name }
        requires holds { HoldsText Self.start (caller_of Self.start (Self.seen self.old)) (Self.Stage.contents stage) }
        requires may { CanCommitTest (caller_of Self.start (Self.seen self.old)) (name_of name) }
        requires new { IsFresh Self.start (Self.seen self.old) 0 (ReadStep (CommitTest (name_of name))) }
        ensures step { Outcome Self.start (Self.seen self.old) (Self.seen self.new) 0 (ReadStep (CommitTest (name_of name))) (λ _. WasDone) result }
        ensures own { OnOk result (caller_of Self.start (Self.seen self.new)
            ≡ caller_wrote (caller_of Self.start (Self.seen self.old)) (name_of name) (Self.Stage.contents stage)) }
        ensures kept { OnErr result (caller_of Self.start (Self.seen self.new) ≡ caller_of Self.start (Self.seen self.old)) }
        ensures calls { Self.calls self.new ≡ called (Self.seen self.new) (ReadStep (CommitTest (name_of name))) (λ _. WasDone) result (Self.calls self.old) };

    /// Takes the test blobs of these names away.
    fn remove_tests(&mut self, alloc: Global, names: &Seq<BlobName>) -> Attempt
        requires alone { Self.start.alone ≡ true }
        requires layout { (name : BlobName) → Has names.now name → IsName name }
        requires may { CanRemoveTests (caller_of Self.start (Self.seen self.old)) (map name_of names.now) }
        requires new { IsFresh Self.start (Self.seen self.old) 0 (ReadStep (RemoveTests (map name_of names.now))) }
        ensures step { Outcome Self.start (Self.seen self.old) (Self.seen self.new) 0 (ReadStep (RemoveTests (map name_of names.now))) (λ _. WasRemoved) result }
        ensures own { OnOk result (caller_of Self.start (Self.seen self.new)
            ≡ removed_more (map name_of names.now) (caller_of Self.start (Self.seen self.old))) }
        ensures kept { OnErr result (caller_of Self.start (Self.seen self.new) ≡ caller_of Self.start (Self.seen self.old)) }
        ensures calls { Self.calls self.new ≡ called (Self.seen self.new) (ReadStep (RemoveTests (map name_of names.now))) (λ _. WasRemoved) result (Self.calls self.old) };

    /// The container was verified: each test blob was there, and was removed.
    fn end_verification(&mut self, alloc: Global) -> Attempt
        requires alone { Self.start.alone ≡ true }
        requires may { CanEndVerification (caller_of Self.start (Self.seen self.old)) }
        ensures step { Outcome Self.start (Self.seen self.old) (Self.seen self.new) 0 (ReadStep VerifiedAll) (λ _. HasEnded) result }
        ensures own { OnOk result (caller_of Self.start (Self.seen self.new) ≡ no_caller) }
        ensures kept { OnErr result (caller_of Self.start (Self.seen self.new) ≡ caller_of Self.start (Self.seen self.old)) }
        ensures calls { Self.calls self.new ≡ called (Self.seen self.new) (ReadStep VerifiedAll) (λ _. HasEnded) result (Self.calls self.old) };
}
