//! A file is restored.
ghost use Rattle.std.specs.Prelude.{◌≡◌, ◌<◌, Some, None, map, length, Contains, IfErr, IfSome, OnOk, OnErr};
ghost use Rattle.esr_source.specs.Begun.{begun_file};
ghost use Rattle.esr_shardidx.specs.Entries.{IsEntry};
ghost use Rattle.esr_desk.specs.Calls.{HasTaken};
ghost use Rattle.esr_desk.specs.Own.{reader_of};
ghost use Rattle.esr_desk.specs.Made.{ReadsOnly};
ghost use Rattle.esr_restore.specs.Files.{RestoredFile};
ghost use Rattle.esr_restore.specs.Snapped.{IsAt, IsListed};
ghost use Rattle.esr_restore.specs.Unread.{AreUnread, IsPartOf};
ghost use Rattle.esr_desk.specs.Evidence.{evidence};
ghost use Rattle.esr_restore.specs.Trouble.{IsTrouble, IsOfStart, Judged};
ghost use Rattle.esr_restore.specs.Went.{Went};

use crate::job::Job;
use crate::part::read_parts;
use esr_depot::CallError;
use esr_desk::{Desk, StepRefusal, Why};
use esr_hash::{Hasher, Print};
use esr_names::{BlobName, Id, ShardId};
use esr_shardidx::FileEntry;
use esr_source::Target;
use esr_unit::Trouble;
use std::alloc::Global;

/// Begins the file of an entry.
fn begin_file<Q: Desk>(
    alloc: Global,
    target: &mut Q::Target,
    entry: &FileEntry,
) -> Result<(), Trouble<Q::Stage, Q::Fetch>>
    requires none_begun { (Q.Target.told target.old).begun ≡ None }
    requires free { IfSome (Q.Target.told target.old).files (λ fs. Contains (map (λ f. f.0) fs) entry.now.physical → ⊥) }
    ensures begun { OnOk result ((Q.Target.told target.new).begun ≡ Some (begun_file entry.now.physical (Q.Target.told target.old).files entry.now.print.len)) }
    ensures files { (Q.Target.told target.new).files ≡ (Q.Target.told target.old).files }
    ensures made_for { (Q.Target.told target.new).made_for ≡ (Q.Target.told target.old).made_for }
    ensures is_sure { (Q.Target.told target.new).is_sure ≡ (Q.Target.told target.old).is_sure }
    ensures steady { OnOk result (Q.Target.faults target.new ≡ Q.Target.faults target.old) }
    ensures trouble { IfErr result (IsOfStart (Q.Target.faults target.new) (Q.Target.told target.new).is_sure) }
{
    match target.create(alloc, entry.physical.as_str(), entry.print.len) {
        Ok(()) => Ok(()),
        Err(CallError::Memory) => Err(Trouble::Step(StepRefusal::Memory)),
        Err(CallError::Failed) => Err(Trouble::Own),
    }
}

/// What is wrong with a file by the print of what was read, and by whether each part has the size that is stated.
fn judge(at: ShardId, uuid: Id, entry: &FileEntry, found: Print, is_exact: bool) -> Option<Why>
    ensures { Judged at uuid entry.now found is_exact result }
{
    let name = BlobName::Whole(at, entry.name);
    let stated = entry.print;
    if stated != found {
        return Some(Why::Misprinted {
            name,
            stated,
            found,
        });
    }
    if is_exact {
        return None;
    }
    let other = BlobName::ShardSnap(at, uuid);
    Some(Why::Disagreeing { name, other })
}

/// Reads the file of an entry and writes it to the target, which it joins if it is as the entry states; else the target has
/// the files that it had.
pub fn restore_file<Q: Desk>(
    alloc: Global,
    desk: &mut Q,
    job: Job,
    entry: &FileEntry,
    target: &mut Q::Target,
    buf: &mut [u8],
) -> Result<(), Trouble<Q::Stage, Q::Fetch>>
    requires mine { HasTaken (Q.calls desk.old) job.ticket }
    requires at { IsAt (reader_of Q.start (Q.seen desk.old) job.ticket) job.at.index.number job.at.number job.uuid.number }
    requires few { job.at.number < 1024 }
    requires entry { IsEntry entry.now }
    requires listed { IsListed Q.start (reader_of Q.start (Q.seen desk.old) job.ticket) entry.now }
    requires none_begun { (Q.Target.told target.old).begun ≡ None }
    requires free { IfSome (Q.Target.told target.old).files (λ fs. Contains (map (λ f. f.0) fs) entry.now.physical → ⊥) }
    requires buffer { 0 < length buf.old }
    requires new { AreUnread Q.start (Q.seen desk.old) job.ticket (IsPartOf job.at entry.now) }
    ensures buffer { length buf.new ≡ length buf.old }
    ensures restored { OnOk result (RestoredFile Q.start (reader_of Q.start (Q.seen desk.new) job.ticket) job.at entry.now (Q.Target.told target.old).files (Q.Target.told target.new).files) }
    ensures kept { OnErr result ((Q.Target.told target.new).files ≡ (Q.Target.told target.old).files) }
    ensures begun { OnOk result ((Q.Target.told target.new).begun ≡ None) }
    ensures steady { OnOk result (Q.Target.faults target.new ≡ Q.Target.faults target.old) }
    ensures made_for { (Q.Target.told target.new).made_for ≡ (Q.Target.told target.old).made_for }
    ensures is_sure { (Q.Target.told target.new).is_sure ≡ (Q.Target.told target.old).is_sure }
    ensures reads { OnOk result (ReadsOnly Q.start (Q.seen desk.old) (Q.seen desk.new) job.ticket (IsPartOf job.at entry.now)) }
    ensures trouble { IfErr result (IsTrouble (evidence Q.Stage.faults Q.Fetch.faults Q.Shard.faults Q.Target.faults Q.Shard.told Q.Target.told) (Q.Target.faults target.new) (Q.Target.told target.new).is_sure Q.start (Q.seen desk.new) job.ticket) }
    ensures went { Went Q.start (Q.seen desk.old) (Q.seen desk.new) job.ticket }
    ensures calls { Q.calls desk.new ≡ Q.calls desk.old }
{
    begin_file::<Q>(alloc, target, entry)?;
    let mut hasher = Hasher::start();
    let is_exact = read_parts(alloc, desk, job, entry, target, &mut hasher, buf)?;
    if let Some(why) = judge(job.at, job.uuid, entry, hasher.end(), is_exact) {
        return Err(Trouble::Found { why });
    }
    match target.end() {
        Ok(()) => Ok(()),
        Err(_) => Err(Trouble::Own),
    }
}
