//! What the listed snapshots have of a shard, by the lists of its index.
ghost use Rattle.std.specs.Prelude.{◌≡◌, ◌<◌, true, map, IfOk, IfErr, OnOk};
ghost use Rattle.esr_model.specs.Names.{ShardSnap as SnapName};
ghost use Rattle.esr_model.specs.Values.{Has};
ghost use Rattle.esr_desk.specs.Start.{formats_of};
ghost use Rattle.esr_formats.specs.Infos.{info_of_code};
ghost use Rattle.esr_formats.specs.Roots.{root_of};
ghost use Rattle.esr_formats.specs.Shards.{shard_index_of, shard_snap_of, snap_list_of};
ghost use Rattle.esr_shardidx.specs.Indices.{IsShardIndex};
ghost use Rattle.esr_desk.specs.Own.{caller_of};
ghost use Rattle.esr_desk.specs.Check.Conditions.{CanCheck};
ghost use Rattle.esr_desk.specs.Check.Shown.{ReadAs};
ghost use Rattle.esr_agreement.specs.Lists.{IsListed};
ghost use Rattle.esr_check.specs.First.{TellsOne, FirstOfLists};
ghost use Rattle.esr_check.specs.Names.{Just, IsSnapOf, AreUnfetched};
ghost use Rattle.esr_check.specs.Pieces.{IsShardOfRoot, HasHeld, HasSnap, HasListed, HasLists};
ghost use Rattle.esr_check.specs.Trouble.{Shown};
ghost use Rattle.esr_check.specs.Went.{IsSoFar, Went};

use crate::fetch::fetch_whole;
use crate::root_shard::ShardOfRoot;
use esr_agreement::{has_shard, is_listed, lists};
use esr_desk::{Client, Why};
use esr_formats::read_shard_snap;
use esr_names::{BlobName, Id, ShardId};
use esr_shardidx::{ShardIndex, ShardSnap, SnapList};
use esr_unit::{Trouble, unread};
use std::alloc::Global;

/// What a snapshot has of a shard.
fn fetch_list<Q: Client>(
    alloc: Global,
    desk: &mut Q,
    count: &mut u64,
    at: ShardId,
    uuid: Id,
) -> Result<ShardSnap, Trouble<Q::Stage, Q::Fetch>>
    requires alone { Q.start.alone ≡ true }
    requires few { at.number < 1024 }
    requires may { CanCheck Q.start (Q.seen desk.old) (SnapName at.index.number at.number uuid.number) }
    requires so_far { IsSoFar Q.start (Q.seen desk.old) count.old }
    ensures read { IfOk result (λ v. ReadAs Q.start (caller_of Q.start (Q.seen desk.new)) (SnapName at.index.number at.number uuid.number) (formats_of Q.start).shard_snap (shard_snap_of v)) }
    ensures so_far { IfOk result (λ v. IsSoFar Q.start (Q.seen desk.new) count.new) }
    ensures trouble { IfErr result (Shown Q.Fetch.faults Q.start (Q.seen desk.new)) }
    ensures first { IfErr result (TellsOne (Just (SnapName at.index.number at.number uuid.number))) }
    ensures went { Went Q.start (Q.seen desk.old) (Q.seen desk.new) (Just (SnapName at.index.number at.number uuid.number)) }
{
    let name = BlobName::ShardSnap(at, uuid);
    let bytes = fetch_whole(alloc, desk, count, name)?;
    match read_shard_snap(alloc, bytes.as_slice()) {
        Ok(snap) => Ok(snap),
        Err(refusal) => Err(unread(name, refusal)),
    }
}

/// What a listed snapshot has of a shard; where the shard is one of the snapshot, the index lists these files.
fn check_list<Q: Client>(
    alloc: Global,
    desk: &mut Q,
    count: &mut u64,
    shard: ShardOfRoot<'_>,
    held: &ShardIndex,
    list: &SnapList,
) -> Result<(), Trouble<Q::Stage, Q::Fetch>>
    requires alone { Q.start.alone ≡ true }
    requires shard { IsShardOfRoot Q.start (Q.seen desk.old) (root_of shard.root.now) (map info_of_code shard.infos.now) shard.at.index.number shard.at.number shard.generation.number }
    requires held { HasHeld Q.start (caller_of Q.start (Q.seen desk.old)) shard.at.index.number shard.at.number shard.generation.number (shard_index_of held.now) }
    requires list { Has (shard_index_of held.now).snapshots (snap_list_of list.now) }
    requires listed { IsListed (root_of shard.root.now) list.now.uuid.number }
    requires new { AreUnfetched (caller_of Q.start (Q.seen desk.old)) (Just (SnapName shard.at.index.number shard.at.number list.now.uuid.number)) }
    requires so_far { IsSoFar Q.start (Q.seen desk.old) count.old }
    ensures snap { OnOk result (HasSnap Q.start (caller_of Q.start (Q.seen desk.new)) (map info_of_code shard.entry.infos.now) shard.entry.at.index.number shard.entry.at.number (shard_index_of held.now) list.now.uuid.number) }
    ensures so_far { OnOk result (IsSoFar Q.start (Q.seen desk.new) count.new) }
    ensures trouble { IfErr result (Shown Q.Fetch.faults Q.start (Q.seen desk.new)) }
    ensures first { IfErr result (TellsOne (Just (SnapName shard.entry.at.index.number shard.entry.at.number list.now.uuid.number))) }
    ensures went { Went Q.start (Q.seen desk.old) (Q.seen desk.new) (Just (SnapName shard.entry.at.index.number shard.entry.at.number list.now.uuid.number)) }
{
    let snap = fetch_list(alloc, desk, count, shard.at, list.uuid)?;
    if !has_shard(shard.infos, list.uuid, shard.at) {
        return Ok(());
    }
    if lists(held, list.uuid, snap.files()) {
        return Ok(());
    }
    let name = BlobName::ShardSnap(shard.at, list.uuid);
    let other = BlobName::ShardIndex(shard.at, shard.generation);
    let why = Why::Disagreeing { name, other };
    Err(Trouble::Found { why })
}

/// The same, if the root lists the snapshot; one that it doesn't list is not reached.
fn check_listed<Q: Client>(
    alloc: Global,
    desk: &mut Q,
    count: &mut u64,
    shard: ShardOfRoot<'_>,
    held: &ShardIndex,
    list: &SnapList,
) -> Result<(), Trouble<Q::Stage, Q::Fetch>>
    requires alone { Q.start.alone ≡ true }
    requires shard { IsShardOfRoot Q.start (Q.seen desk.old) (root_of shard.root.now) (map info_of_code shard.infos.now) shard.at.index.number shard.at.number shard.generation.number }
    requires held { HasHeld Q.start (caller_of Q.start (Q.seen desk.old)) shard.at.index.number shard.at.number shard.generation.number (shard_index_of held.now) }
    requires list { Has (shard_index_of held.now).snapshots (snap_list_of list.now) }
    requires new { AreUnfetched (caller_of Q.start (Q.seen desk.old)) (Just (SnapName shard.at.index.number shard.at.number list.now.uuid.number)) }
    requires so_far { IsSoFar Q.start (Q.seen desk.old) count.old }
    ensures snap { OnOk result (HasListed Q.start (caller_of Q.start (Q.seen desk.new)) (root_of shard.entry.root.now) (map info_of_code shard.entry.infos.now)
        shard.entry.at.index.number shard.entry.at.number (shard_index_of held.now) (snap_list_of list.now)) }
    ensures so_far { OnOk result (IsSoFar Q.start (Q.seen desk.new) count.new) }
    ensures trouble { IfErr result (Shown Q.Fetch.faults Q.start (Q.seen desk.new)) }
    ensures first { IfErr result (TellsOne (Just (SnapName shard.entry.at.index.number shard.entry.at.number list.now.uuid.number))) }
    ensures went { Went Q.start (Q.seen desk.old) (Q.seen desk.new) (Just (SnapName shard.entry.at.index.number shard.entry.at.number list.now.uuid.number)) }
{
    if !is_listed(shard.root, list.uuid) {
        return Ok(());
    }
    check_list(alloc, desk, count, shard, held, list)
}

/// No snapshot has two lists in the index of a shard.
fn index_rule(held: &ShardIndex)
    ensures { IsShardIndex held.now }
{
    let _files = held.files();
}

/// What each listed snapshot has of a shard.
pub fn check_lists<Q: Client>(
    alloc: Global,
    desk: &mut Q,
    count: &mut u64,
    shard: ShardOfRoot<'_>,
    held: &ShardIndex,
) -> Result<(), Trouble<Q::Stage, Q::Fetch>>
    requires alone { Q.start.alone ≡ true }
    requires shard { IsShardOfRoot Q.start (Q.seen desk.old) (root_of shard.root.now) (map info_of_code shard.infos.now) shard.at.index.number shard.at.number shard.generation.number }
    requires held { HasHeld Q.start (caller_of Q.start (Q.seen desk.old)) shard.at.index.number shard.at.number shard.generation.number (shard_index_of held.now) }
    requires new { AreUnfetched (caller_of Q.start (Q.seen desk.old)) (IsSnapOf shard.at.index.number shard.at.number) }
    requires so_far { IsSoFar Q.start (Q.seen desk.old) count.old }
    ensures snaps { OnOk result (HasLists Q.start (caller_of Q.start (Q.seen desk.new)) (root_of shard.entry.root.now) (map info_of_code shard.entry.infos.now)
        shard.entry.at.index.number shard.entry.at.number (shard_index_of held.now) (shard_index_of held.now).snapshots) }
    ensures so_far { OnOk result (IsSoFar Q.start (Q.seen desk.new) count.new) }
    ensures trouble { IfErr result (Shown Q.Fetch.faults Q.start (Q.seen desk.new)) }
    ensures first { IfErr result (TellsOne (FirstOfLists Q.start (caller_of Q.start (Q.seen desk.new)) (root_of shard.entry.root.now) (map info_of_code shard.entry.infos.now)
        shard.entry.at.index.number shard.entry.at.number (shard_index_of held.now))) }
    ensures went { Went Q.start (Q.seen desk.old) (Q.seen desk.new) (IsSnapOf shard.entry.at.index.number shard.entry.at.number) }
{
    index_rule(held);
    for list in held.snapshots() {
        check_listed(alloc, desk, count, shard, held, list)?;
    }
    Ok(())
}
