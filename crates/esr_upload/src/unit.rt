//! The unit of a shard.
ghost use Rattle.std.specs.Prelude.{◌≡◌, ◌+◌, ◌<◌, ◌≤◌, ◌^◌, ℕ, [], Option, None, Some, false, true, length, option_map, IfErr, IfOk, IsErr, OnOk};
ghost use Rattle.esr_formats.specs.Ids.{number_of};
ghost use Rattle.esr_desk.specs.Evidence.{evidence};
ghost use Rattle.esr_desk.specs.Own.{made_of};
ghost use Rattle.esr_desk.specs.Calls.{HasTaken};
ghost use Rattle.esr_desk.specs.Once.{IsFresh};
ghost use Rattle.esr_desk.specs.Start.{ticket_of};
ghost use Rattle.esr_model.specs.Names.{ShardIndex as IndexName};
ghost use Rattle.esr_core.specs.Entry.{FetchStep};
ghost use Rattle.esr_desk.specs.Told.{TellsAll};
ghost use Rattle.esr_desk.specs.Taken.{Took};
ghost use Rattle.esr_desk.specs.Sources.{AreSources};
ghost use Rattle.esr_desk.specs.Grew.{GrewBy};
ghost use Rattle.esr_parts.specs.Reads.{ReadOn};
ghost use Rattle.esr_upload.specs.Entries.{new_count};
ghost use Rattle.esr_upload.specs.Published.{IsUnit, IsPlanned, HasIndex, HasDrawn, ReadShown};
ghost use Rattle.esr_upload.specs.Refused.{IsOfShard, told_of, HasDone, IsUnitRefused};
ghost use Rattle.esr_upload.specs.Stored.{IsAt};
ghost use Rattle.esr_upload.specs.Base.{HasFetched};
ghost use Rattle.esr_upload.specs.Surveyed.{SameShard};
ghost use Rattle.esr_upload.specs.Trouble.{Shown};
ghost use Rattle.esr_upload.specs.Worked.{Went};

use crate::base::read_base;
use crate::fault::with_shard;
use crate::files::{count_new, store_files, sum_of};
use crate::job::Job;
use crate::publish::finish;
use crate::survey::survey;
use esr_depot::CallError;
use esr_desk::{Desk, Hand, StepRefusal, Unit, UnitRefusal, Why};
use esr_names::{BlobName, Id, ShardId};
use esr_ops::Work;
use esr_parts::buffer;
use esr_results::ShardResult;
use esr_reuse::{Planned, Plans, plan};
use esr_shardidx::ShardIndex;
use esr_source::{Gate, Shard, Sources};
use esr_unit::{Trouble, ending_of, give_up};
use std::alloc::Global;

/// The index of the base, which doesn't list the snapshot; an empty one where there is no base.
pub fn base_of<Q: Desk>(
    alloc: Global,
    desk: &mut Q,
    ticket: u64,
    at: ShardId,
    uuid: Id,
    base: Option<Id>,
) -> Result<ShardIndex, Trouble<Q::Stage, Q::Fetch>>
    requires mine { HasTaken (Q.calls desk.old) ticket }
    requires at { IsAt (ticket_of Q.start (Q.seen desk.old) ticket) at.index.number at.number }
    requires undrawn { (ticket_of Q.start (Q.seen desk.old) ticket).drawn ≡ 0 }
    requires uuid { (ticket_of Q.start (Q.seen desk.old) ticket).uuid ≡ uuid.number }
    requires base { (ticket_of Q.start (Q.seen desk.old) ticket).base ≡ option_map number_of base }
    requires few { at.number < 1024 }
    requires new { (generation : ℕ) → IsFresh Q.start (Q.seen desk.old) ticket (FetchStep (IndexName at.index.number at.number generation)) }
    requires tells { TellsAll Q.start (Q.seen desk.old) ticket }
    ensures based { IfOk result (HasIndex Q.start at.index.number at.number uuid (ticket_of Q.start (Q.seen desk.old) ticket) (ticket_of Q.start (Q.seen desk.new) ticket)) }
    ensures tells { IfOk result (λ v. TellsAll Q.start (Q.seen desk.new) ticket) }
    ensures fetched { IfOk result (λ v. HasFetched (Q.seen desk.new) ticket at.index.number at.number base) }
    ensures trouble { IfErr result (Shown (evidence Q.Stage.faults Q.Fetch.faults Q.Shard.faults Q.Target.faults Q.Shard.told Q.Target.told) 0 (Some []) Q.start (Q.seen desk.new) ticket) }
    ensures went { Went Q.start (Q.seen desk.old) (Q.seen desk.new) ticket }
    ensures calls { Q.calls desk.new ≡ Q.calls desk.old }
{
    let generation = match base {
        Some(generation) => generation,
        None => return Ok(ShardIndex::new(alloc)),
    };
    let index = read_base(alloc, desk, ticket, at, generation)?;
    // Where it gives its files it is known to be whole.
    let _ = index.files();
    match index.list(uuid) {
        Some(_) => {
            let name = BlobName::ShardIndex(at, generation);
            let why = Why::Ahead { name, id: uuid };
            Err(Trouble::Found { why })
        }
        None => Ok(index),
    }
}

/// Reads the files for their prints, and plans what each reuses of the base.
fn plan_files<Q: Desk, S: Shard>(
    alloc: Global,
    shard: &mut S,
    base: &ShardIndex,
    buf: &mut [u8],
) -> Result<Plans, Trouble<Q::Stage, Q::Fetch>>
    requires buffer { 0 < length buf.old }
    ensures buffer { length buf.new ≡ length buf.old }
    ensures same { SameShard (S.told shard.old) (S.told shard.new) }
    ensures steady { (S.told shard.old).is_sure ≡ true → S.faults shard.new ≡ S.faults shard.old }
    ensures planned { IfOk result (IsPlanned (S.told shard.old).files (S.told shard.new).listed base.now) }
    ensures absent { (S.told shard.old).is_there ≡ Some false → IsErr result }
    ensures trouble { IfErr result (ReadShown (S.faults shard.new)) }
{
    match survey(alloc, shard, buf) {
        Ok(files) => Ok(plan(alloc, base, files.as_slice())?),
        Err(CallError::Memory) => Err(Trouble::Step(StepRefusal::Memory)),
        Err(CallError::Failed) => Err(Trouble::Own),
    }
}

/// What is to be stored: the index of the base, what each file reuses of it, and the first of the ids that were drawn.
#[derive(Clone, Copy)]
struct Draft<'a> {
    base: &'a ShardIndex,
    plans: &'a [Planned],
    first: Id,
}

/// Stores the files that reuse nothing, then the shard's snapshot and its next index, and ends the ticket.
fn store<Q: Desk, S: Shard, G: Gate>(
    alloc: Global,
    desk: &mut Q,
    job: &Job<'_, G>,
    draft: Draft<'_>,
    shard: &mut S,
    buf: &mut [u8],
) -> Result<(), Trouble<Q::Stage, Q::Fetch>>
    requires mine { HasTaken (Q.calls desk.old) job.now.ticket }
    requires drawn { HasDrawn Q.start (S.told shard.old).files (S.told shard.old).listed job.now.at.index.number job.now.at.number job.now.uuid draft.base.now draft.plans.now draft.first.number (ticket_of Q.start (Q.seen desk.old) job.now.ticket) }
    requires base { (ticket_of Q.start (Q.seen desk.old) job.now.ticket).base ≡ option_map number_of job.now.base }
    requires fetched { HasFetched (Q.seen desk.old) job.now.ticket job.now.at.index.number job.now.at.number job.now.base }
    requires room { draft.first.number + (new_count draft.plans.now + 1) < 2 ^ 128 }
    requires few { job.now.at.number < 1024 }
    requires size { job.now.part_size ≡ Q.start.part_size }
    requires sized { (1 ≤ job.now.part_size) × (job.now.part_size ≤ 2 ^ 30) }
    requires buffer { 0 < length buf.old }
    requires tells { TellsAll Q.start (Q.seen desk.old) job.now.ticket }
    ensures ok { OnOk result (HasDone Q.start (Q.seen desk.old) (Q.seen desk.new) job.now.ticket) }
    ensures trouble { IfErr result (Shown (evidence Q.Stage.faults Q.Fetch.faults Q.Shard.faults Q.Target.faults Q.Shard.told Q.Target.told) (S.faults shard.new) (S.told shard.old).files Q.start (Q.seen desk.new) job.now.ticket) }
    ensures kept { ReadOn (S.told shard.old) (S.told shard.new) }
    ensures steady { (S.told shard.old).is_sure ≡ true → S.faults shard.new ≡ S.faults shard.old }
    ensures went { IfErr result (λ e. Went Q.start (Q.seen desk.old) (Q.seen desk.new) job.now.ticket) }
    ensures grew { GrewBy Q.start job.now.ticket (Q.seen desk.old) (Q.seen desk.new) }
    ensures calls { Q.calls desk.new ≡ Q.calls desk.old }
{
    let entries = store_files(alloc, desk, job, shard, draft.plans, draft.first, buf)?;
    let outcome = ShardResult {
        shard: job.at,
        generation: Id {
            number: draft.first.number + u128::from(count_new(draft.plans)),
        },
        files: draft.plans.len() as u64,
        bytes: sum_of(draft.plans),
    };
    finish(alloc, desk, job, draft.base, entries, &outcome, draft.first)
}

/// What the unit does until its ticket ends as done, or a trouble.
fn work<Q: Desk, S: Shard, G: Gate>(
    alloc: Global,
    desk: &mut Q,
    job: &Job<'_, G>,
    shard: &mut S,
) -> Result<(), Trouble<Q::Stage, Q::Fetch>>
    requires mine { HasTaken (Q.calls desk.old) job.now.ticket }
    requires unit { IsUnit Q.start (S.told shard.old).files (S.told shard.old).is_there job.now.at.index.number job.now.at.number job.now.uuid.number (option_map number_of job.now.base) (ticket_of Q.start (Q.seen desk.old) job.now.ticket) }
    requires few { job.now.at.number < 1024 }
    requires size { job.now.part_size ≡ Q.start.part_size }
    requires sized { (1 ≤ job.now.part_size) × (job.now.part_size ≤ 2 ^ 30) }
    requires new { made_of Q.start (Q.seen desk.old) job.now.ticket ≡ [] }
    ensures ok { OnOk result (HasDone Q.start (Q.seen desk.old) (Q.seen desk.new) job.now.ticket) }
    ensures trouble { IfErr result (Shown (evidence Q.Stage.faults Q.Fetch.faults Q.Shard.faults Q.Target.faults Q.Shard.told Q.Target.told) (S.faults shard.new) (S.told shard.old).files Q.start (Q.seen desk.new) job.now.ticket) }
    ensures same { SameShard (S.told shard.old) (S.told shard.new) }
    ensures steady { (S.told shard.old).is_sure ≡ true → S.faults shard.new ≡ S.faults shard.old }
    ensures went { IfErr result (λ e. Went Q.start (Q.seen desk.old) (Q.seen desk.new) job.now.ticket) }
    ensures grew { GrewBy Q.start job.now.ticket (Q.seen desk.old) (Q.seen desk.new) }
    ensures calls { Q.calls desk.new ≡ Q.calls desk.old }
{
    esr_core::refusals_are_of_their_steps();
    let mut buf = buffer();
    let index = base_of(alloc, desk, job.ticket, job.at, job.uuid, job.base)?;
    let plans = plan_files::<Q, S>(alloc, shard, &index, &mut buf)?;
    let first = desk.draw(alloc, job.ticket, count_new(plans.as_slice()) + 1)?;
    let draft = Draft {
        base: &index,
        plans: plans.as_slice(),
        first,
    };
    store(alloc, desk, job, draft, shard, &mut buf)
}

/// Stores the files of a shard that its base doesn't have, the snapshot of the shard and its next index, and ends the ticket.
/// Where an object failed, a file changed, the base is absent, doesn't read or is ahead, a name is taken, too few ids are left or a delete
/// aborted the op, the ticket ends as failed, and the object is handed over.
pub fn run_unit<Q: Desk<Shard = S::Shard>, S: Sources, G: Gate>(
    alloc: Global,
    desk: &mut Q,
    unit: &Unit,
    sources: &S,
    gate: &G,
    part_size: u64,
) -> Result<(), UnitRefusal>
    requires mine { HasTaken (Q.calls desk.old) unit.now.ready.ticket }
    requires fresh { Took Q.start (Q.seen desk.old) unit.now }
    requires new { made_of Q.start (Q.seen desk.old) unit.now.ready.ticket ≡ [] }
    requires work { IsOfShard unit.now.ready.work }
    requires sources { AreSources Q.start (S.told sources.now) }
    requires size { part_size ≡ Q.start.part_size }
    requires sized { (1 ≤ part_size) × (part_size ≤ 2 ^ 30) }
    ensures ok { OnOk result (HasDone Q.start (Q.seen desk.old) (Q.seen desk.new) unit.now.ready.ticket) }
    ensures refused { IfErr result (IsUnitRefused (evidence Q.Stage.faults Q.Fetch.faults S.Shard.faults Q.Target.faults S.Shard.told Q.Target.told)
        (told_of (S.told sources.now).files unit.now.ready.work) Q.start (Q.seen desk.old) (Q.seen desk.new) unit.now.ready.ticket) }
    ensures grew { GrewBy Q.start unit.now.ready.ticket (Q.seen desk.old) (Q.seen desk.new) }
    ensures calls { Q.calls desk.new ≡ Q.calls desk.old }
{
    let Work::Shard {
        uuid,
        shard: at,
        index,
        place,
    } = &unit.ready.work
    else {
        unreachable!();
    };
    let mut shard = match sources.shard(alloc, place.as_str(), index.as_str(), at.number) {
        Ok(shard) => shard,
        Err(_) => return Err(UnitRefusal::Stopped(StepRefusal::Memory)),
    };
    let job = Job {
        ticket: unit.ready.ticket,
        at: *at,
        uuid: *uuid,
        base: unit.ready.copy.base,
        part_size,
        gate,
    };
    match work(alloc, desk, &job, &mut shard) {
        Ok(()) => Ok(()),
        Err(trouble) => Err(give_up(
            alloc,
            desk,
            Hand::Unit,
            job.ticket,
            with_shard(shard, ending_of(trouble)),
        )),
    }
}
