//! The files of a shard, one after another.
ghost use Rattle.std.specs.Prelude.{◌≡◌, ◌<◌, [], None, length, IfErr, IfSome, OnOk, OnErr};
ghost use Rattle.esr_restore.specs.Files.{sum_files, RestoredAll};
ghost use Rattle.esr_desk.specs.Calls.{HasTaken};
ghost use Rattle.esr_desk.specs.Own.{reader_of};
ghost use Rattle.esr_desk.specs.Restore.First.{HasFirst};
ghost use Rattle.esr_restore.specs.Snapped.{IsAt, HasSnap};
ghost use Rattle.esr_restore.specs.Unread.{AreUnread, IsPartOfAny};
ghost use Rattle.esr_desk.specs.Evidence.{evidence};
ghost use Rattle.esr_restore.specs.Trouble.{IsTrouble};
ghost use Rattle.esr_restore.specs.Went.{Went};

use crate::file::restore_file;
use crate::job::Job;
use esr_desk::Desk;
use esr_shardidx::{FileEntry, ShardSnap};
use esr_source::Target;
use esr_unit::Trouble;
use std::alloc::Global;

/// The sum of the files' lengths in bytes, at most 2^64 - 1.
pub fn sum_of(entries: &[FileEntry]) -> u64
    ensures { result ≡ sum_files entries.now }
{
    let mut sum: u64 = 0;
    for entry in entries {
        sum = sum.saturating_add(entry.print.len);
    }
    sum
}

/// Restores each file that the snapshot has of the shard. Where one fails the target has those before it.
pub fn restore_files<Q: Desk>(
    alloc: Global,
    desk: &mut Q,
    job: Job,
    snap: &ShardSnap,
    target: &mut Q::Target,
    buf: &mut [u8],
) -> Result<(), Trouble<Q::Stage, Q::Fetch>>
    requires mine { HasTaken (Q.calls desk.old) job.ticket }
    requires at { IsAt (reader_of Q.start (Q.seen desk.old) job.ticket) job.at.index.number job.at.number job.uuid.number }
    requires few { job.at.number < 1024 }
    requires snap { HasSnap Q.start (reader_of Q.start (Q.seen desk.old) job.ticket) snap.now }
    requires none_begun { (Q.Target.told target.old).begun ≡ None }
    requires empty { IfSome (Q.Target.told target.old).files (λ fs. fs ≡ []) }
    requires buffer { 0 < length buf.old }
    requires new { AreUnread Q.start (Q.seen desk.old) job.ticket (IsPartOfAny job.at snap.now.files) }
    ensures restored { OnOk result (RestoredAll Q.start (reader_of Q.start (Q.seen desk.new) job.ticket) job.at snap.now.files (Q.Target.told target.old).files (Q.Target.told target.new).files) }
    ensures first { OnErr result (HasFirst Q.start (reader_of Q.start (Q.seen desk.new) job.ticket) (Q.Target.told target.new).files) }
    ensures begun { OnOk result ((Q.Target.told target.new).begun ≡ None) }
    ensures steady { OnOk result (Q.Target.faults target.new ≡ Q.Target.faults target.old) }
    ensures made_for { (Q.Target.told target.new).made_for ≡ (Q.Target.told target.old).made_for }
    ensures is_sure { (Q.Target.told target.new).is_sure ≡ (Q.Target.told target.old).is_sure }
    ensures trouble { IfErr result (IsTrouble (evidence Q.Stage.faults Q.Fetch.faults Q.Shard.faults Q.Target.faults Q.Shard.told Q.Target.told) (Q.Target.faults target.new) (Q.Target.told target.new).is_sure Q.start (Q.seen desk.new) job.ticket) }
    ensures went { Went Q.start (Q.seen desk.old) (Q.seen desk.new) job.ticket }
    ensures calls { Q.calls desk.new ≡ Q.calls desk.old }
{
    for entry in snap.files() {
        restore_file(alloc, desk, job, entry, target, buf)?;
    }
    Ok(())
}
