//! The indices of the shards that a delete or cleanup reads.
ghost use Rattle.std.specs.Prelude.{◌≡◌, ◌<◌, [], map, IfErr, IfOk};
ghost use Rattle.esr_model.specs.Names.{ShardIndex as IndexName};
ghost use Rattle.esr_core.specs.After.{fetching};
ghost use Rattle.esr_core.specs.Entry.{PruneStep, FetchShard, WasFetched};
ghost use Rattle.esr_formats.specs.Ids.{number_of};
ghost use Rattle.esr_formats.specs.Roots.{root_of};
ghost use Rattle.esr_formats.specs.Shards.{shard_index_of};
ghost use Rattle.esr_desk.specs.Own.{made_of};
ghost use Rattle.esr_desk.specs.Calls.{HasTaken};
ghost use Rattle.esr_desk.specs.Once.{IsFresh};
ghost use Rattle.esr_desk.specs.Start.{ticket_of, told_bytes};
ghost use Rattle.esr_desk.specs.Grew.{GrewBy};
ghost use Rattle.esr_desk.specs.Delete.Conditions.{CanFetchShard};
ghost use Rattle.esr_desk.specs.Evidence.{HadFetch, evidence};
ghost use Rattle.esr_unit.specs.Fetch.{MadeOne};
ghost use Rattle.esr_unit.specs.Shown.{Shown};
ghost use Rattle.esr_delete.specs.Gathered.{IsUnplanned, HasRead, HasMadeFetches, IsGathered, HasFetched};

use esr_desk::{Desk, Hand, Why};
use esr_dooming::to_read;
use esr_formats::read_shard_index;
use esr_names::{BlobName, Id, Ids, ShardId};
use esr_reach::ShardIndices;
use esr_root::RootData;
use esr_seq::Bytes;
use esr_shardidx::ShardIndex;
use esr_unit::{Trouble, fetch_whole, unread};
use std::alloc::Global;

/// The bytes of the index of a shard, which is there.
fn fetch_bytes<Q: Desk>(
    alloc: Global,
    desk: &mut Q,
    ticket: u64,
    shard: ShardId,
    base: Id,
) -> Result<Bytes, Trouble<Q::Stage, Q::Fetch>>
    requires mine { HasTaken (Q.calls desk.old) ticket }
    requires few { shard.number < 1024 }
    requires may { CanFetchShard (ticket_of Q.start (Q.seen desk.old) ticket) (IndexName shard.index.number shard.number base.number) }
    requires new { IsFresh Q.start (Q.seen desk.old) ticket (PruneStep (FetchShard (IndexName shard.index.number shard.number base.number))) }
    ensures fetched { IfOk result (λ b. ticket_of Q.start (Q.seen desk.new) ticket ≡ fetching (IndexName shard.index.number shard.number base.number) (told_bytes Q.start b) (ticket_of Q.start (Q.seen desk.old) ticket)) }
    ensures found { IfOk result (λ b. HadFetch Hand.Delete (Q.seen desk.new) ticket (IndexName shard.index.number shard.number base.number) WasFetched) }
    ensures made { MadeOne Q.start (Q.seen desk.old) (Q.seen desk.new) ticket (PruneStep (FetchShard (IndexName shard.index.number shard.number base.number))) }
    ensures trouble { IfErr result (Shown Hand.Delete (evidence Q.Stage.faults Q.Fetch.faults Q.Shard.faults Q.Target.faults Q.Shard.told Q.Target.told) ⊥ Q.start (Q.seen desk.new) ticket) }
    ensures read { HasRead (ticket_of Q.start (Q.seen desk.old) ticket) (ticket_of Q.start (Q.seen desk.new) ticket) }
    ensures grew { GrewBy Q.start ticket (Q.seen desk.old) (Q.seen desk.new) }
    ensures calls { Q.calls desk.new ≡ Q.calls desk.old }
{
    esr_core::refusals_are_of_their_steps();
    let name = BlobName::ShardIndex(shard, base);
    match fetch_whole(alloc, desk, Hand::Delete, ticket, name)? {
        Some(bytes) => Ok(bytes),
        None => {
            let why = Why::Absent { name };
            Err(Trouble::Found { why })
        }
    }
}

/// The index of a shard.
fn fetch_index<Q: Desk>(
    alloc: Global,
    desk: &mut Q,
    ticket: u64,
    shard: ShardId,
    base: Id,
) -> Result<ShardIndex, Trouble<Q::Stage, Q::Fetch>>
    requires mine { HasTaken (Q.calls desk.old) ticket }
    requires few { shard.number < 1024 }
    requires may { CanFetchShard (ticket_of Q.start (Q.seen desk.old) ticket) (IndexName shard.index.number shard.number base.number) }
    requires new { IsFresh Q.start (Q.seen desk.old) ticket (PruneStep (FetchShard (IndexName shard.index.number shard.number base.number))) }
    ensures fetched { IfOk result (λ v. HasFetched Q.start (ticket_of Q.start (Q.seen desk.old) ticket) (ticket_of Q.start (Q.seen desk.new) ticket) (IndexName shard.index.number shard.number base.number) (shard_index_of v)) }
    ensures made { MadeOne Q.start (Q.seen desk.old) (Q.seen desk.new) ticket (PruneStep (FetchShard (IndexName shard.index.number shard.number base.number))) }
    ensures trouble { IfErr result (Shown Hand.Delete (evidence Q.Stage.faults Q.Fetch.faults Q.Shard.faults Q.Target.faults Q.Shard.told Q.Target.told) ⊥ Q.start (Q.seen desk.new) ticket) }
    ensures read { HasRead (ticket_of Q.start (Q.seen desk.old) ticket) (ticket_of Q.start (Q.seen desk.new) ticket) }
    ensures grew { GrewBy Q.start ticket (Q.seen desk.old) (Q.seen desk.new) }
    ensures calls { Q.calls desk.new ≡ Q.calls desk.old }
{
    let bytes = fetch_bytes(alloc, desk, ticket, shard, base)?;
    match read_shard_index(alloc, bytes.as_slice()) {
        Ok(index) => Ok(index),
        Err(refusal) => {
            let name = BlobName::ShardIndex(shard, base);
            Err(unread(name, refusal))
        }
    }
}

/// The index of each shard with a generation; of a delete, of the indices that have a snapshot of these uuids: each is fetched
/// and read to its end.
pub fn gather<Q: Desk>(
    alloc: Global,
    desk: &mut Q,
    ticket: u64,
    clean: bool,
    root: &RootData,
    uuids: &Ids,
) -> Result<ShardIndices, Trouble<Q::Stage, Q::Fetch>>
    requires mine { HasTaken (Q.calls desk.old) ticket }
    requires may { IsUnplanned (ticket_of Q.start (Q.seen desk.old) ticket) clean (root_of root.now) (map number_of uuids.now) }
    requires unread { (ticket_of Q.start (Q.seen desk.old) ticket).read ≡ [] }
    requires new { made_of Q.start (Q.seen desk.old) ticket ≡ [] }
    ensures ok { IfOk result (λ held. IsGathered Q.start (ticket_of Q.start (Q.seen desk.new) ticket) (map number_of uuids.now) held) }
    ensures made { IfOk result (λ held. HasMadeFetches Q.start (Q.seen desk.new) ticket) }
    ensures trouble { IfErr result (Shown Hand.Delete (evidence Q.Stage.faults Q.Fetch.faults Q.Shard.faults Q.Target.faults Q.Shard.told Q.Target.told) ⊥ Q.start (Q.seen desk.new) ticket) }
    ensures read { HasRead (ticket_of Q.start (Q.seen desk.old) ticket) (ticket_of Q.start (Q.seen desk.new) ticket) }
    ensures grew { GrewBy Q.start ticket (Q.seen desk.old) (Q.seen desk.new) }
    ensures calls { Q.calls desk.new ≡ Q.calls desk.old }
{
    let shards = to_read(alloc, clean, root, uuids)?;
    let mut held = ShardIndices::new(alloc);
    for shard in shards.as_slice() {
        let index = fetch_index(alloc, desk, ticket, shard.shard, shard.base)?;
        held.insert(shard.shard, index)?;
    }
    Ok(held)
}
