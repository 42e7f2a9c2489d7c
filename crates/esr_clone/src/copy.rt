//! The files of the source, under the clone's uuid.
ghost use Rattle.std.specs.Prelude.{◌≡◌, ◌<◌, [], Some, IfErr, OnOk};
ghost use Rattle.esr_desk.specs.Calls.{HasTaken};
ghost use Rattle.esr_desk.specs.Evidence.{evidence};
ghost use Rattle.esr_desk.specs.Start.{ticket_of};
ghost use Rattle.esr_desk.specs.Told.{TellsAll};
ghost use Rattle.esr_desk.specs.Grew.{GrewBy};
ghost use Rattle.esr_upload.specs.Refused.{HasDone};
ghost use Rattle.esr_upload.specs.Trouble.{Shown};
ghost use Rattle.esr_upload.specs.Worked.{Went};
ghost use Rattle.esr_clone.specs.Copied.{sum_entries, HasRead};

use esr_desk::Desk;
use esr_names::{Id, ShardId};
use esr_results::ShardResult;
use esr_shardidx::{FileEntry, ShardIndex, ShardSnap};
use esr_unit::Trouble;
use esr_upload::end_shard;
use std::alloc::Global;

/// The sum of the files' lengths in bytes, at most 2^64 - 1.
fn sum_of(entries: &[FileEntry]) -> u64
    ensures { result ≡ sum_entries entries.now }
{
    let mut sum: u64 = 0;
    for entry in entries {
        sum = sum.saturating_add(entry.print.len);
    }
    sum
}

/// What a unit is of: its ticket, the shard, and the clone's uuid.
#[derive(Clone, Copy)]
pub struct Job {
    pub ticket: u64,
    pub at: ShardId,
    pub uuid: Id,
}

/// Writes the files of the source under the clone's uuid, adds them to the index under the id that was drawn, and ends the
/// ticket.
pub fn copy<Q: Desk>(
    alloc: Global,
    desk: &mut Q,
    job: Job,
    base: &ShardIndex,
    snap: ShardSnap,
    first: Id,
) -> Result<(), Trouble<Q::Stage, Q::Fetch>>
    requires mine { HasTaken (Q.calls desk.old) job.ticket }
    requires read { HasRead Q.start job.at.index.number job.at.number job.uuid base.now snap first.number (ticket_of Q.start (Q.seen desk.old) job.ticket) }
    requires few { job.at.number < 1024 }
    requires tells { TellsAll Q.start (Q.seen desk.old) job.ticket }
    ensures ok { OnOk result (HasDone Q.start (Q.seen desk.old) (Q.seen desk.new) job.ticket) }
    ensures trouble { IfErr result (Shown (evidence Q.Stage.faults Q.Fetch.faults Q.Shard.faults Q.Target.faults Q.Shard.told Q.Target.told) 0 (Some []) Q.start (Q.seen desk.new) job.ticket) }
    ensures went { IfErr result (λ e. Went Q.start (Q.seen desk.old) (Q.seen desk.new) job.ticket) }
    ensures grew { GrewBy Q.start job.ticket (Q.seen desk.old) (Q.seen desk.new) }
    ensures calls { Q.calls desk.new ≡ Q.calls desk.old }
{
    let files = snap.files();
    let outcome = ShardResult {
        shard: job.at,
        generation: first,
        files: files.len() as u64,
        bytes: sum_of(files),
    };
    let own = snap.under(job.uuid);
    let index = base.with_snap(alloc, &own)?;
    end_shard(alloc, desk, job.ticket, &own, &index, &outcome)
}
