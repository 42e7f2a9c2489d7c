//! The unit of a restore's shard.
ghost use Rattle.std.specs.Prelude.{◌≡◌, ◌<◌, [], Some, None, true, false, length, IfErr, IfOk, IfSome, OnOk, OnErr};
ghost use Rattle.esr_core.specs.Entry.{ReadStep, RestoredShard, HasEnded};
ghost use Rattle.esr_desk.specs.Own.{made_of, reader_of};
ghost use Rattle.esr_desk.specs.Calls.{HasTaken};
ghost use Rattle.esr_desk.specs.Grew.{GrewBy};
ghost use Rattle.esr_desk.specs.Readers.{TookRestore};
ghost use Rattle.esr_desk.specs.Outcome.{Outcome};
ghost use Rattle.esr_desk.specs.declared.unit.UnitRefusal.TheVariants.{Stopped};
ghost use Rattle.esr_desk.specs.Evidence.{evidence};
ghost use Rattle.esr_desk.specs.Restore.First.{HasFirst};
ghost use Rattle.esr_desk.specs.Restore.Shown.{IsFor};
ghost use Rattle.esr_desk.specs.Restore.Targets.{IsFilled, refused_of};
ghost use Rattle.esr_restore.specs.Files.{sum_files, HasFiles, RestoredAll};
ghost use Rattle.esr_restore.specs.Snapped.{IsAt, HasSnap};
ghost use Rattle.esr_restore.specs.Trouble.{IsTrouble};
ghost use Rattle.esr_restore.specs.Went.{Went};
ghost use Rattle.esr_restore.specs.Restored.{HasRestored};
ghost use Rattle.esr_restore.specs.Refused.{IsUnitRefused};
ghost use Rattle.esr_restore.specs.Left.{IsLeft};

use crate::files::{restore_files, sum_of};
use crate::job::Job;
use crate::snap::fetch_snap;
use crate::unrestored::Unrestored;
use esr_desk::{
    By, Desk, FailedObject, Hand, RestoreEnd, RestoredTarget, StepRefusal, Unended, Unit,
    UnitRefusal, Why,
};
use esr_ops::Work;
use esr_parts::buffer;
use esr_shardidx::ShardSnap;
use esr_source::{Target, Targets};
use esr_unit::{Ending, Trouble, ending_of, give_up};
use std::alloc::Global;

/// Restores the files that the snapshot has of the shard, and answers these. Where that fails the target has the files that
/// were ended before.
fn restore<Q: Desk>(
    alloc: Global,
    desk: &mut Q,
    job: Job,
    target: &mut Q::Target,
) -> Result<ShardSnap, Trouble<Q::Stage, Q::Fetch>>
    requires mine { HasTaken (Q.calls desk.old) job.ticket }
    requires at { IsAt (reader_of Q.start (Q.seen desk.old) job.ticket) job.at.index.number job.at.number job.uuid.number }
    requires few { job.at.number < 1024 }
    requires none_begun { (Q.Target.told target.old).begun ≡ None }
    requires empty { IfSome (Q.Target.told target.old).files (λ fs. fs ≡ []) }
    requires new { made_of Q.start (Q.seen desk.old) job.ticket ≡ [] }
    ensures snap { IfOk result (λ v. HasSnap Q.start (reader_of Q.start (Q.seen desk.new) job.ticket) v) }
    ensures restored { IfOk result (λ v. RestoredAll Q.start (reader_of Q.start (Q.seen desk.new) job.ticket) job.at v.files (Q.Target.told target.old).files (Q.Target.told target.new).files) }
    ensures first { OnErr result (HasFirst Q.start (reader_of Q.start (Q.seen desk.new) job.ticket) (Q.Target.told target.new).files) }
    ensures begun { OnOk result ((Q.Target.told target.new).begun ≡ None) }
    ensures steady { OnOk result (Q.Target.faults target.new ≡ Q.Target.faults target.old) }
    ensures made_for { (Q.Target.told target.new).made_for ≡ (Q.Target.told target.old).made_for }
    ensures is_sure { (Q.Target.told target.new).is_sure ≡ (Q.Target.told target.old).is_sure }
    ensures trouble { IfErr result (IsTrouble (evidence Q.Stage.faults Q.Fetch.faults Q.Shard.faults Q.Target.faults Q.Shard.told Q.Target.told) (Q.Target.faults target.new) (Q.Target.told target.new).is_sure Q.start (Q.seen desk.new) job.ticket) }
    ensures went { Went Q.start (Q.seen desk.old) (Q.seen desk.new) job.ticket }
    ensures calls { Q.calls desk.new ≡ Q.calls desk.old }
{
    let mut buf = buffer();
    let snap = fetch_snap(alloc, desk, job)?;
    restore_files(alloc, desk, job, &snap, target, &mut buf)?;
    Ok(snap)
}

/// Ends the ticket of a shard whose files are restored.
fn finish<Q: Desk>(
    alloc: Global,
    desk: &mut Q,
    ticket: u64,
    snap: &ShardSnap,
    target: RestoredTarget<Q::Target>,
) -> Result<(), Unended<Q::Target>>
    requires mine { HasTaken (Q.calls desk.old) ticket }
    requires out { (reader_of Q.start (Q.seen desk.old) ticket).out ≡ true }
    requires read { HasFiles Q.start (reader_of Q.start (Q.seen desk.old) ticket) snap.now }
    requires filled { IsFilled (evidence Q.Stage.faults Q.Fetch.faults Q.Shard.faults Q.Target.faults Q.Shard.told Q.Target.told)
        Q.start (reader_of Q.start (Q.seen desk.old) ticket) (length snap.now.files) (sum_files snap.now.files) target }
    ensures step { Outcome Q.start (Q.seen desk.old) (Q.seen desk.new) ticket (ReadStep (RestoredShard (length snap.now.files) (sum_files snap.now.files))) (λ _. HasEnded) (refused_of result) }
    ensures own { OnOk result (reader_of Q.start (Q.seen desk.new) ticket ≡ record (reader_of Q.start (Q.seen desk.old) ticket) { out = false }) }
    ensures kept { OnErr result (reader_of Q.start (Q.seen desk.new) ticket ≡ reader_of Q.start (Q.seen desk.old) ticket) }
    ensures target { IfErr result (λ u. u.target ≡ target) }
    ensures calls { Q.calls desk.new ≡ Q.calls desk.old }
{
    let entries = snap.files();
    let done = RestoreEnd {
        ticket,
        files: entries.len() as u64,
        bytes: sum_of(entries),
        target,
    };
    desk.end_restore(alloc, done)
}

/// Ends the ticket for a trouble, unless that leaves it out. The target, which has the files that were ended before, is given
/// back, unless it failed: then the report of that takes it, also where that is refused.
fn fail<Q: Desk>(
    alloc: Global,
    desk: &mut Q,
    ticket: u64,
    target: Q::Target,
    trouble: Trouble<Q::Stage, Q::Fetch>,
) -> Unrestored<Q::Target>
    requires mine { HasTaken (Q.calls desk.old) ticket }
    requires out { (reader_of Q.start (Q.seen desk.old) ticket).out ≡ true }
    requires of { IsFor (reader_of Q.start (Q.seen desk.old) ticket) (Q.Target.told target).made_for }
    requires first { HasFirst Q.start (reader_of Q.start (Q.seen desk.old) ticket) (Q.Target.told target).files }
    requires sure { Q.start.sure_targets ≡ true → (Q.Target.told target).is_sure ≡ true }
    requires trouble { IsTrouble (evidence Q.Stage.faults Q.Fetch.faults Q.Shard.faults Q.Target.faults Q.Shard.told Q.Target.told) (Q.Target.faults target) (Q.Target.told target).is_sure Q.start (Q.seen desk.old) ticket trouble }
    ensures refused { IsUnitRefused (evidence Q.Stage.faults Q.Fetch.faults Q.Shard.faults Q.Target.faults Q.Shard.told Q.Target.told)
        Q.start (Q.seen desk.old) (Q.seen desk.new) ticket result.refusal }
    ensures left { IsLeft Q.Target.told Q.start (Q.seen desk.new) ticket result.refusal result.target }
    ensures grew { GrewBy Q.start ticket (Q.seen desk.old) (Q.seen desk.new) }
    ensures calls { Q.calls desk.new ≡ Q.calls desk.old }
{
    match ending_of(trouble) {
        Ending::Failed { why, by } => {
            let ending = Ending::Failed { why, by };
            Unrestored {
                refusal: give_up(alloc, desk, Hand::Restore, ticket, ending),
                target: Some(target),
            }
        }
        Ending::Own => {
            let object = FailedObject::Target { target };
            let by = By::Object { object };
            let why = Why::Target;
            let failed = Ending::Failed { why, by };
            Unrestored {
                refusal: give_up(alloc, desk, Hand::Restore, ticket, failed),
                target: None,
            }
        }
        Ending::Stale => unreachable!(),
        Ending::Stopped(refusal) => {
            let left = Some(target);
            Unrestored {
                refusal: UnitRefusal::Stopped(refusal),
                target: left,
            }
        }
    }
}

/// The end of the ticket was refused, and the target, which has all files, is given back.
fn give_back<T: Drop>(unended: Unended<T>) -> Unrestored<T>
    ensures refusal { result.refusal ≡ Stopped unended.refusal }
    ensures target { result.target ≡ Some unended.target.target }
{
    let Unended { refusal, target } = unended;
    let RestoredTarget { target, .. } = target;
    Unrestored {
        refusal: UnitRefusal::Stopped(refusal),
        target: Some(target),
    }
}

/// The unit is stopped, and there is no target to give back.
fn stopped<T: Drop>(refusal: StepRefusal) -> Unrestored<T>
    ensures refusal { result.refusal ≡ Stopped refusal }
    ensures target { result.target ≡ None }
{
    Unrestored {
        refusal: UnitRefusal::Stopped(refusal),
        target: None,
    }
}

/// Reads the snapshot of the unit's shard and the parts of its files, writes the files to a target of their own, and ends the
/// ticket, by which the target is listed. Where an object failed, a blob is absent or doesn't read, or a file isn't as the
/// snapshot states, the ticket ends as failed. Where the shard isn't restored the target has the files that were ended before,
/// the first ones of the snapshot, and is given back; one that failed went to the report of that, also where that was refused.
pub fn run_unit<Q: Desk, T: Targets<Target = Q::Target>>(
    alloc: Global,
    desk: &mut Q,
    unit: Unit,
    targets: &T,
) -> Result<(), Unrestored<Q::Target>>
    requires mine { HasTaken (Q.calls desk.old) unit.ready.ticket }
    requires fresh { TookRestore Q.start (Q.seen desk.old) unit }
    requires new { made_of Q.start (Q.seen desk.old) unit.ready.ticket ≡ [] }
    requires sure { Q.start.sure_targets ≡ (T.told targets.now).is_quiet }
    requires tells { Q.start.targets_tell ≡ (T.told targets.now).tells }
    ensures ok { OnOk result (HasRestored Q.start (Q.seen desk.old) (Q.seen desk.new) unit.ready.ticket) }
    ensures refused { IfErr result (λ e. IsUnitRefused (evidence Q.Stage.faults Q.Fetch.faults Q.Shard.faults Q.Target.faults Q.Shard.told Q.Target.told)
        Q.start (Q.seen desk.old) (Q.seen desk.new) unit.ready.ticket e.refusal) }
    ensures left { IfErr result (λ e. IsLeft Q.Target.told Q.start (Q.seen desk.new) unit.ready.ticket e.refusal e.target) }
    ensures grew { GrewBy Q.start unit.ready.ticket (Q.seen desk.old) (Q.seen desk.new) }
    ensures calls { Q.calls desk.new ≡ Q.calls desk.old }
{
    esr_core::refusals_are_of_their_steps();
    let Unit { ready, new_root } = unit;
    drop(new_root);
    let (ticket, op) = (ready.ticket, ready.op);
    let work = ready.into_work();
    let Work::RestoreShard {
        uuid,
        shard: at,
        index,
        place,
    } = work
    else {
        unreachable!();
    };
    let mut target = match targets.target(alloc, place.as_str(), index.as_str(), at.number) {
        Ok(target) => target,
        Err(_) => return Err(stopped(StepRefusal::Memory)),
    };
    drop(place);
    let job = Job { ticket, at, uuid };
    match restore(alloc, desk, job, &mut target) {
        Ok(snap) => {
            let shard = at.number;
            let restored = RestoredTarget {
                op,
                index,
                shard,
                target,
            };
            match finish(alloc, desk, ticket, &snap, restored) {
                Ok(()) => Ok(()),
                Err(unended) => Err(give_back(unended)),
            }
        }
        Err(trouble) => Err(fail(alloc, desk, ticket, target, trouble)),
    }
}
