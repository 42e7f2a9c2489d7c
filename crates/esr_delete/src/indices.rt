//! The shard indices that a delete or cleanup writes.
ghost use Rattle.std.specs.Prelude.{◌≡◌, ◌+◌, ◌<◌, ◌^◌, [], ◌∷◌, map, IfErr, IfOk, OnOk};
ghost use Rattle.esr_model.specs.Names.{ShardIndex as IndexName};
ghost use Rattle.esr_model.specs.Delete.{next_after, uuids_of, surviving, pruned_blobs};
ghost use Rattle.esr_formats.specs.Ids.{number_of};
ghost use Rattle.esr_formats.specs.Roots.{root_of};
ghost use Rattle.esr_formats.specs.Shards.{shard_index_of, shard_index_kind};
ghost use Rattle.esr_results.specs.Pruned.{pruned_of};
ghost use Rattle.esr_desk.specs.Calls.{HasTaken};
ghost use Rattle.esr_desk.specs.Start.{formats_of, ticket_of};
ghost use Rattle.esr_desk.specs.Told.{TellsAll};
ghost use Rattle.esr_finish.specs.Ticket.{MayStore, IsUnnoted, Puts};
ghost use Rattle.esr_finish.specs.Went.{Went};
ghost use Rattle.esr_finish.specs.Refused.{IsPutRefused};
ghost use Rattle.esr_dooming.specs.Reading.{AreFew};
ghost use Rattle.esr_delete.specs.Planned.{IsUnwritten, IsIndexOf, Notes, NotesOwn};

use crate::plan::Draft;
use esr_desk::Desk;
use esr_dooming::left;
use esr_finish::put;
use esr_formats::write_shard_index;
use esr_names::{BlobName, Id, Ids, ShardId};
use esr_reach::ShardIndices;
use esr_results::PrunedShard;
use esr_root::RootData;
use esr_seq::Seq;
use esr_shardidx::ShardIndex;
use esr_unit::Trouble;
use std::alloc::{AllocError, Global};

/// The uuids of the snapshots of a root.
pub fn uuids_of(alloc: Global, root: &RootData) -> Result<Ids, AllocError>
    ensures { IfOk result (λ us. map number_of us ≡ uuids_of (root_of root.now)) }
{
    let mut uuids = Seq::new(alloc);
    for snap in root.snapshots.as_slice() {
        uuids.push(snap.uuid)?;
    }
    Ok(uuids)
}

/// Writes what these snapshots have of a shard as its index under an id.
fn write_index<Q: Desk>(
    alloc: Global,
    desk: &mut Q,
    ticket: u64,
    uuids: &Ids,
    index: &ShardIndex,
    shard: ShardId,
    id: Id,
) -> Result<(), Trouble<Q::Stage, Q::Fetch>>
    requires mine { HasTaken (Q.calls desk.old) ticket }
    requires few { shard.number < 1024 }
    requires may { MayStore Q.start (ticket_of Q.start (Q.seen desk.old) ticket) (IndexName shard.index.number shard.number id.number) (shard_index_kind.text (surviving (map number_of uuids.now) (shard_index_of index.now))) }
    requires new { IsUnnoted (ticket_of Q.start (Q.seen desk.old) ticket) (IndexName shard.index.number shard.number id.number) }
    requires tells { TellsAll Q.start (Q.seen desk.old) ticket }
    ensures ok { OnOk result (Puts Q.start (Q.seen desk.old) (Q.seen desk.new) ticket ((IndexName shard.index.number shard.number id.number, shard_index_kind.text (surviving (map number_of uuids.now) (shard_index_of index.now))) ∷ [])) }
    ensures tells { OnOk result (TellsAll Q.start (Q.seen desk.new) ticket) }
    ensures trouble { IfErr result (IsPutRefused Q.start Q.Stage.faults (Q.seen desk.new) ticket) }
    ensures went { Went Q.start (Q.seen desk.old) (Q.seen desk.new) ticket }
    ensures calls { Q.calls desk.new ≡ Q.calls desk.old }
{
    let index = left(alloc, index, uuids)?;
    let text = write_shard_index(alloc, &index)?;
    put(
        alloc,
        desk,
        ticket,
        BlobName::ShardIndex(shard, id),
        text.as_slice(),
    )
}

/// Writes the new index of a shard of which something is left; answers the id for the next one.
fn write_shard<Q: Desk>(
    alloc: Global,
    desk: &mut Q,
    ticket: u64,
    uuids: &Ids,
    held: &ShardIndices,
    shard: &PrunedShard,
    id: Id,
) -> Result<Id, Trouble<Q::Stage, Q::Fetch>>
    requires mine { HasTaken (Q.calls desk.old) ticket }
    requires few { shard.now.shard.number < 1024 }
    requires room { id.number + 1 < 2 ^ 128 }
    requires may { IsIndexOf Q.start (ticket_of Q.start (Q.seen desk.old) ticket) held.now (map number_of uuids.now) (pruned_of shard.now) id.number }
    requires tells { TellsAll Q.start (Q.seen desk.old) ticket }
    ensures ok { IfOk result (λ next. Notes Q.start (ticket_of Q.start (Q.seen desk.old) ticket) (ticket_of Q.start (Q.seen desk.new) ticket)
        (pruned_blobs (formats_of Q.start) (ticket_of Q.start (Q.seen desk.old) ticket).read (map number_of uuids.now) id.number (pruned_of shard.now ∷ []))) }
    ensures next { IfOk result (λ next. next.number ≡ next_after id.number (pruned_of shard.now)) }
    ensures tells { IfOk result (λ next. TellsAll Q.start (Q.seen desk.new) ticket) }
    ensures trouble { IfErr result (IsPutRefused Q.start Q.Stage.faults (Q.seen desk.new) ticket) }
    ensures went { Went Q.start (Q.seen desk.old) (Q.seen desk.new) ticket }
    ensures calls { Q.calls desk.new ≡ Q.calls desk.old }
{
    if !shard.kept {
        return Ok(id);
    }
    let Some(index) = held.get(shard.shard) else {
        unreachable!();
    };
    write_index(alloc, desk, ticket, uuids, index, shard.shard, id)?;
    Ok(Id {
        number: id.number + 1,
    })
}

/// Writes the new index of each shard of the plan of which something is left, in the order of the plan.
pub fn write_indices<Q: Desk>(
    alloc: Global,
    desk: &mut Q,
    ticket: u64,
    held: &ShardIndices,
    draft: &Draft,
) -> Result<(), Trouble<Q::Stage, Q::Fetch>>
    requires mine { HasTaken (Q.calls desk.old) ticket }
    requires may { IsUnwritten Q.start (ticket_of Q.start (Q.seen desk.old) ticket) held.now (map pruned_of draft.now.shards) draft.now.first.number (root_of draft.now.root) }
    requires few { AreFew (map pruned_of draft.now.shards) }
    requires tells { TellsAll Q.start (Q.seen desk.old) ticket }
    ensures ok { OnOk result (NotesOwn Q.start (ticket_of Q.start (Q.seen desk.old) ticket) (ticket_of Q.start (Q.seen desk.new) ticket)) }
    ensures tells { OnOk result (TellsAll Q.start (Q.seen desk.new) ticket) }
    ensures trouble { IfErr result (IsPutRefused Q.start Q.Stage.faults (Q.seen desk.new) ticket) }
    ensures went { Went Q.start (Q.seen desk.old) (Q.seen desk.new) ticket }
    ensures calls { Q.calls desk.new ≡ Q.calls desk.old }
{
    let left = uuids_of(alloc, &draft.root)?;
    let mut next = draft.first;
    for shard in draft.shards.as_slice() {
        next = write_shard(alloc, desk, ticket, &left, held, shard, next)?;
    }
    Ok(())
}
