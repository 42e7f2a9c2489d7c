//! The shard's snapshot and its index.
ghost use Rattle.std.specs.Prelude.{◌≡◌, [], ◌∷◌, ◌<◌, ℕ, find, false, IfErr, IsSome, OnOk, Some, option_copied};
ghost use Rattle.esr_model.specs.Names.{ShardSnap as SnapName, ShardIndex as IndexName};
ghost use Rattle.esr_model.specs.Values.{ReadsBack, Has};
ghost use Rattle.esr_core.specs.World.{Shard};
ghost use Rattle.esr_core.specs.Steps.{Drew};
ghost use Rattle.esr_core.specs.Allowed.{IsMetadata};
ghost use Rattle.esr_names.specs.Layout.{IsName};
ghost use Rattle.esr_formats.specs.Names.{name_of};
ghost use Rattle.esr_shardidx.specs.Snapshots.{are_snap_files};
ghost use Rattle.esr_shardidx.specs.Indices.{with_snap_of};
ghost use Rattle.esr_formats.specs.Shards.{shard_snap_of, shard_snap_kind, shard_index_of, shard_index_kind};
ghost use Rattle.esr_results.specs.Results.{result_of};
ghost use Rattle.esr_desk.specs.Calls.{HasTaken};
ghost use Rattle.esr_desk.specs.Start.{ticket_of};
ghost use Rattle.esr_desk.specs.Evidence.{evidence};
ghost use Rattle.esr_names.specs.declared.ids.Id.{Id as CodeId};
ghost use Rattle.esr_shardidx.specs.declared.entry.FileEntry.{FileEntry as CodeEntry};
ghost use Rattle.esr_desk.specs.Told.{TellsAll};
ghost use Rattle.esr_desk.specs.Conditions.{CanCommit, CanEnd};
ghost use Rattle.esr_desk.specs.Grew.{GrewBy};
ghost use Rattle.esr_desk.specs.Taken.{after_writes};
ghost use Rattle.esr_upload.specs.Published.{snap_blob, index_blob, last_blobs};
ghost use Rattle.esr_upload.specs.Refused.{HasDone};
ghost use Rattle.esr_upload.specs.Stored.{IsAt, AreBelow};
ghost use Rattle.esr_upload.specs.Base.{is_from, IsBaseAhead};
ghost use Rattle.esr_upload.specs.Trouble.{Shown};
ghost use Rattle.esr_upload.specs.Worked.{Went};

use crate::job::Job;
use esr_desk::{Desk, Why};
use esr_formats::{write_shard_index, write_shard_snap};
use esr_names::{BlobName, Id, ShardId};
use esr_results::ShardResult;
use esr_shardidx::{FileEntries, FileEntry, ShardIndex, ShardSnap};
use esr_source::Gate;
use esr_unit::{Trouble, put};
use std::alloc::Global;

/// Writes a blob of a shard's ticket that is of no finalization's metadata, and commits it.
fn put_own<Q: Desk>(
    alloc: Global,
    desk: &mut Q,
    ticket: u64,
    name: BlobName,
    bytes: &[u8],
) -> Result<(), Trouble<Q::Stage, Q::Fetch>>
    requires mine { HasTaken (Q.calls desk.old) ticket }
    requires layout { IsName name }
    requires data { IsMetadata (name_of name) → ⊥ }
    requires work { (index : ℕ) × (number : ℕ) × ((ticket_of Q.start (Q.seen desk.old) ticket).work ≡ Shard index number) }
    requires may { CanCommit Q.start (ticket_of Q.start (Q.seen desk.old) ticket) (name_of name) bytes.now }
    requires tells { TellsAll Q.start (Q.seen desk.old) ticket }
    ensures ok { OnOk result (ticket_of Q.start (Q.seen desk.new) ticket ≡ after_writes Q.start ((name_of name, bytes.now) ∷ []) (ticket_of Q.start (Q.seen desk.old) ticket)) }
    ensures tells { OnOk result (TellsAll Q.start (Q.seen desk.new) ticket) }
    ensures trouble { IfErr result (Shown (evidence Q.Stage.faults Q.Fetch.faults Q.Shard.faults Q.Target.faults Q.Shard.told Q.Target.told) 0 (Some []) Q.start (Q.seen desk.new) ticket) }
    ensures went { Went Q.start (Q.seen desk.old) (Q.seen desk.new) ticket }
    ensures calls { Q.calls desk.new ≡ Q.calls desk.old }
{
    esr_core::refusals_are_of_their_steps();
    put(alloc, desk, ticket, name, bytes)?;
    Ok(())
}

/// Writes what the snapshot has of the shard.
fn put_snap<Q: Desk>(
    alloc: Global,
    desk: &mut Q,
    ticket: u64,
    at: ShardId,
    snap: &ShardSnap,
) -> Result<(), Trouble<Q::Stage, Q::Fetch>>
    requires mine { HasTaken (Q.calls desk.old) ticket }
    requires work { IsAt (ticket_of Q.start (Q.seen desk.old) ticket) at.index.number at.number }
    requires few { at.number < 1024 }
    requires uuid { (ticket_of Q.start (Q.seen desk.old) ticket).uuid ≡ snap.now.uuid.number }
    requires unnoted { Has (ticket_of Q.start (Q.seen desk.old) ticket).noted (SnapName at.index.number at.number snap.now.uuid.number) → ⊥ }
    requires tells { TellsAll Q.start (Q.seen desk.old) ticket }
    ensures ok { OnOk result (ticket_of Q.start (Q.seen desk.new) ticket ≡ after_writes Q.start (snap_blob at snap.now ∷ []) (ticket_of Q.start (Q.seen desk.old) ticket)) }
    ensures back { OnOk result (ReadsBack shard_snap_kind (shard_snap_of snap.now)) }
    ensures tells { OnOk result (TellsAll Q.start (Q.seen desk.new) ticket) }
    ensures trouble { IfErr result (Shown (evidence Q.Stage.faults Q.Fetch.faults Q.Shard.faults Q.Target.faults Q.Shard.told Q.Target.told) 0 (Some []) Q.start (Q.seen desk.new) ticket) }
    ensures went { Went Q.start (Q.seen desk.old) (Q.seen desk.new) ticket }
    ensures calls { Q.calls desk.new ≡ Q.calls desk.old }
{
    let text = write_shard_snap(alloc, snap)?;
    let name = BlobName::ShardSnap(at, snap.uuid());
    put_own(alloc, desk, ticket, name, text.as_slice())?;
    Ok(())
}

/// Writes the index of the shard under its generation.
fn put_index<Q: Desk>(
    alloc: Global,
    desk: &mut Q,
    ticket: u64,
    at: ShardId,
    generation: Id,
    index: &ShardIndex,
) -> Result<(), Trouble<Q::Stage, Q::Fetch>>
    requires mine { HasTaken (Q.calls desk.old) ticket }
    requires work { IsAt (ticket_of Q.start (Q.seen desk.old) ticket) at.index.number at.number }
    requires few { at.number < 1024 }
    requires drew { Drew (ticket_of Q.start (Q.seen desk.old) ticket) generation.number }
    requires unnoted { Has (ticket_of Q.start (Q.seen desk.old) ticket).noted (IndexName at.index.number at.number generation.number) → ⊥ }
    requires tells { TellsAll Q.start (Q.seen desk.old) ticket }
    ensures ok { OnOk result (ticket_of Q.start (Q.seen desk.new) ticket ≡ after_writes Q.start (index_blob at generation index.now ∷ []) (ticket_of Q.start (Q.seen desk.old) ticket)) }
    ensures back { OnOk result (ReadsBack shard_index_kind (shard_index_of index.now)) }
    ensures tells { OnOk result (TellsAll Q.start (Q.seen desk.new) ticket) }
    ensures trouble { IfErr result (Shown (evidence Q.Stage.faults Q.Fetch.faults Q.Shard.faults Q.Target.faults Q.Shard.told Q.Target.told) 0 (Some []) Q.start (Q.seen desk.new) ticket) }
    ensures went { Went Q.start (Q.seen desk.old) (Q.seen desk.new) ticket }
    ensures calls { Q.calls desk.new ≡ Q.calls desk.old }
{
    let text = write_shard_index(alloc, index)?;
    let name = BlobName::ShardIndex(at, generation);
    put_own(alloc, desk, ticket, name, text.as_slice())?;
    Ok(())
}

/// Writes the shard's snapshot and its index, and ends the ticket.
pub fn end_shard<Q: Desk>(
    alloc: Global,
    desk: &mut Q,
    ticket: u64,
    snap: &ShardSnap,
    index: &ShardIndex,
    outcome: &ShardResult,
) -> Result<(), Trouble<Q::Stage, Q::Fetch>>
    requires mine { HasTaken (Q.calls desk.old) ticket }
    requires work { IsAt (ticket_of Q.start (Q.seen desk.old) ticket) outcome.now.shard.index.number outcome.now.shard.number }
    requires few { outcome.now.shard.number < 1024 }
    requires uuid { (ticket_of Q.start (Q.seen desk.old) ticket).uuid ≡ snap.now.uuid.number }
    requires drew { Drew (ticket_of Q.start (Q.seen desk.old) ticket) outcome.now.generation.number }
    requires files { AreBelow (ticket_of Q.start (Q.seen desk.old) ticket) outcome.now.generation.number }
    requires ready { ReadsBack shard_snap_kind (shard_snap_of snap.now) → ReadsBack shard_index_kind (shard_index_of index.now)
        → CanEnd Q.start (after_writes Q.start (last_blobs outcome.now.shard outcome.now.generation snap.now index.now) (ticket_of Q.start (Q.seen desk.old) ticket)) (result_of outcome.now) }
    requires tells { TellsAll Q.start (Q.seen desk.old) ticket }
    ensures ok { OnOk result (HasDone Q.start (Q.seen desk.old) (Q.seen desk.new) ticket) }
    ensures trouble { IfErr result (Shown (evidence Q.Stage.faults Q.Fetch.faults Q.Shard.faults Q.Target.faults Q.Shard.told Q.Target.told) 0 (Some []) Q.start (Q.seen desk.new) ticket) }
    ensures went { IfErr result (λ e. Went Q.start (Q.seen desk.old) (Q.seen desk.new) ticket) }
    ensures grew { GrewBy Q.start ticket (Q.seen desk.old) (Q.seen desk.new) }
    ensures calls { Q.calls desk.new ≡ Q.calls desk.old }
{
    esr_core::refusals_are_of_their_steps();
    put_snap(alloc, desk, ticket, outcome.shard, snap)?;
    put_index(
        alloc,
        desk,
        ticket,
        outcome.shard,
        outcome.generation,
        index,
    )?;
    desk.end_shard(alloc, ticket, outcome)?;
    Ok(())
}

/// The first entry of an index with this id or a later one.
fn entry_from(index: &ShardIndex, first: Id) -> Option<&FileEntry>
    ensures { option_copied result ≡ find (is_from first.number) index.now.files }
{
    index
        .files()
        .iter()
        .find(|entry| entry.name.number >= first.number)
}

/// That the base of this generation is ahead: it has an entry with an id from `first` on.
fn ahead(at: ShardId, generation: Option<Id>, base: &ShardIndex, first: Id) -> Why
    requires some { IsSome generation }
    requires there { IsSome (find (is_from first.number) base.now.files) }
    ensures { (g : CodeId) × (e : CodeEntry) × (generation ≡ Some g) × (find (is_from first.number) base.now.files ≡ Some e)
        × (result ≡ Why.Ahead (BlobName.ShardIndex at g) e.name) }
{
    let Some(generation) = generation else {
        unreachable!("a base is there");
    };
    let Some(entry) = entry_from(base, first) else {
        unreachable!("it has such an entry");
    };
    Why::Ahead {
        name: BlobName::ShardIndex(at, generation),
        id: entry.name,
    }
}

/// Makes the snapshot and the next index of the base and the entries, writes them, and ends the ticket, whose ids begin at
/// `first`.
pub fn finish<Q: Desk, G: Gate>(
    alloc: Global,
    desk: &mut Q,
    job: &Job<'_, G>,
    base: &ShardIndex,
    entries: FileEntries,
    outcome: &ShardResult,
    first: Id,
) -> Result<(), Trouble<Q::Stage, Q::Fetch>>
    requires mine { HasTaken (Q.calls desk.old) job.now.ticket }
    requires work { IsAt (ticket_of Q.start (Q.seen desk.old) job.now.ticket) outcome.now.shard.index.number outcome.now.shard.number }
    requires few { outcome.now.shard.number < 1024 }
    requires uuid { (ticket_of Q.start (Q.seen desk.old) job.now.ticket).uuid ≡ job.now.uuid.number }
    requires drew { Drew (ticket_of Q.start (Q.seen desk.old) job.now.ticket) outcome.now.generation.number }
    requires files { AreBelow (ticket_of Q.start (Q.seen desk.old) job.now.ticket) outcome.now.generation.number }
    requires ahead { are_snap_files [] entries ≡ false → IsBaseAhead Q.start (Q.seen desk.old) job.now.ticket outcome.now.shard job.now.base base.now first.number }
    requires ready { ReadsBack shard_snap_kind (shard_snap_of (record { files = entries; uuid = job.now.uuid })) → ReadsBack shard_index_kind (shard_index_of (with_snap_of base.now (record { files = entries; uuid = job.now.uuid })))
        → CanEnd Q.start
        (after_writes Q.start (last_blobs outcome.now.shard outcome.now.generation (record { files = entries; uuid = job.now.uuid }) (with_snap_of base.now (record { files = entries; uuid = job.now.uuid })))
        (ticket_of Q.start (Q.seen desk.old) job.now.ticket))
        (result_of outcome.now) }
    requires tells { TellsAll Q.start (Q.seen desk.old) job.now.ticket }
    ensures ok { OnOk result (HasDone Q.start (Q.seen desk.old) (Q.seen desk.new) job.now.ticket) }
    ensures trouble { IfErr result (Shown (evidence Q.Stage.faults Q.Fetch.faults Q.Shard.faults Q.Target.faults Q.Shard.told Q.Target.told) 0 (Some []) Q.start (Q.seen desk.new) job.now.ticket) }
    ensures went { IfErr result (λ e. Went Q.start (Q.seen desk.old) (Q.seen desk.new) job.now.ticket) }
    ensures grew { GrewBy Q.start job.now.ticket (Q.seen desk.old) (Q.seen desk.new) }
    ensures calls { Q.calls desk.new ≡ Q.calls desk.old }
{
    match ShardSnap::new(entries, job.uuid) {
        Some(snap) => {
            let index = base.with_snap(alloc, &snap)?;
            end_shard(alloc, desk, job.ticket, &snap, &index, outcome)
        }
        None => Err(Trouble::Found {
            why: ahead(outcome.shard, job.base, base, first),
        }),
    }
}
