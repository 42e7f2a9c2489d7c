//! A shard: its index, what the listed snapshots have of it, and its files.
ghost use Rattle.std.specs.Prelude.{◌≡◌, ◌<◌, ℕ, true, Some, map, option_map, length, IfOk, IfErr, OnOk};
ghost use Rattle.esr_model.specs.Names.{ShardIndex as IndexName};
ghost use Rattle.esr_model.specs.Image.{Generation, at_shard};
ghost use Rattle.esr_formats.specs.Ids.{number_of};
ghost use Rattle.esr_formats.specs.Infos.{info_of_code};
ghost use Rattle.esr_formats.specs.Roots.{root_of, root_index_of};
ghost use Rattle.esr_formats.specs.Shards.{shard_index_of};
ghost use Rattle.esr_desk.specs.Own.{caller_of};
ghost use Rattle.esr_desk.specs.Check.Conditions.{CanCheck};
ghost use Rattle.esr_agreement.specs.Lists.{AreKept};
ghost use Rattle.esr_check.specs.First.{TellsOne, FirstOfPlace, FirstOfShard, FirstOfShards};
ghost use Rattle.esr_check.specs.Names.{Just, IsOfShard, IsOfShards, AreUnfetched};
ghost use Rattle.esr_check.specs.Pieces.{HasSafe, HasInfos, IsShardOfRoot, HasHeld, HasShard, HasPlace, HasShards};
ghost use Rattle.esr_check.specs.Trouble.{Shown};
ghost use Rattle.esr_check.specs.Went.{IsSoFar, Went};

use crate::fetch::fetch_whole;
use crate::file::check_files;
use crate::lists::check_lists;
use crate::root_shard::ShardOfRoot;
use esr_agreement::unlisted;
use esr_desk::{Client, Why};
use esr_formats::read_shard_index;
use esr_meta::SnapInfo;
use esr_names::{BlobName, Id, ShardId};
use esr_root::{RootData, RootIndex};
use esr_shardidx::ShardIndex;
use esr_unit::{Trouble, unread};
use std::alloc::Global;

/// The index of a shard.
fn fetch_held<Q: Client>(
    alloc: Global,
    desk: &mut Q,
    count: &mut u64,
    at: ShardId,
    generation: Id,
) -> Result<ShardIndex, Trouble<Q::Stage, Q::Fetch>>
    requires alone { Q.start.alone ≡ true }
    requires few { at.number < 1024 }
    requires may { CanCheck Q.start (Q.seen desk.old) (IndexName at.index.number at.number generation.number) }
    requires so_far { IsSoFar Q.start (Q.seen desk.old) count.old }
    ensures read { IfOk result (λ v. HasHeld Q.start (caller_of Q.start (Q.seen desk.new)) at.index.number at.number generation.number (shard_index_of v)) }
    ensures so_far { IfOk result (λ v. IsSoFar Q.start (Q.seen desk.new) count.new) }
    ensures trouble { IfErr result (Shown Q.Fetch.faults Q.start (Q.seen desk.new)) }
    ensures first { IfErr result (TellsOne (Just (IndexName at.index.number at.number generation.number))) }
    ensures went { Went Q.start (Q.seen desk.old) (Q.seen desk.new) (Just (IndexName at.index.number at.number generation.number)) }
{
    let name = BlobName::ShardIndex(at, generation);
    let bytes = fetch_whole(alloc, desk, count, name)?;
    match read_shard_index(alloc, bytes.as_slice()) {
        Ok(held) => Ok(held),
        Err(refusal) => Err(unread(name, refusal)),
    }
}

/// The index of a shard lists each snapshot that has the shard.
fn check_held<Q: Client>(
    alloc: Global,
    desk: &mut Q,
    count: &mut u64,
    shard: ShardOfRoot<'_>,
) -> Result<ShardIndex, Trouble<Q::Stage, Q::Fetch>>
    requires alone { Q.start.alone ≡ true }
    requires shard { IsShardOfRoot Q.start (Q.seen desk.old) (root_of shard.root.now) (map info_of_code shard.infos.now) shard.at.index.number shard.at.number shard.generation.number }
    requires new { AreUnfetched (caller_of Q.start (Q.seen desk.old)) (Just (IndexName shard.at.index.number shard.at.number shard.generation.number)) }
    requires so_far { IsSoFar Q.start (Q.seen desk.old) count.old }
    ensures read { IfOk result (λ v. HasHeld Q.start (caller_of Q.start (Q.seen desk.new)) shard.entry.at.index.number shard.entry.at.number shard.entry.generation.number (shard_index_of v)) }
    ensures kept { IfOk result (λ v. AreKept (map info_of_code shard.entry.infos.now) shard.entry.at.index.number shard.entry.at.number (shard_index_of v)) }
    ensures so_far { IfOk result (λ v. IsSoFar Q.start (Q.seen desk.new) count.new) }
    ensures trouble { IfErr result (Shown Q.Fetch.faults Q.start (Q.seen desk.new)) }
    ensures first { IfErr result (TellsOne (Just (IndexName shard.entry.at.index.number shard.entry.at.number shard.entry.generation.number))) }
    ensures went { Went Q.start (Q.seen desk.old) (Q.seen desk.new) (Just (IndexName shard.entry.at.index.number shard.entry.at.number shard.entry.generation.number)) }
{
    let held = fetch_held(alloc, desk, count, shard.at, shard.generation)?;
    match unlisted(shard.infos, shard.at, &held) {
        None => Ok(held),
        Some(uuid) => {
            let name = BlobName::ShardIndex(shard.at, shard.generation);
            let other = BlobName::Snap(uuid);
            let why = Why::Disagreeing { name, other };
            Err(Trouble::Found { why })
        }
    }
}

/// A shard with a generation: its index, and all that this has.
fn check_shard<Q: Client>(
    alloc: Global,
    desk: &mut Q,
    count: &mut u64,
    shard: ShardOfRoot<'_>,
    buf: &mut [u8],
) -> Result<(), Trouble<Q::Stage, Q::Fetch>>
    requires alone { Q.start.alone ≡ true }
    requires shard { IsShardOfRoot Q.start (Q.seen desk.old) (root_of shard.root.now) (map info_of_code shard.infos.now) shard.at.index.number shard.at.number shard.generation.number }
    requires buffer { 0 < length buf.old }
    requires new { AreUnfetched (caller_of Q.start (Q.seen desk.old)) (IsOfShard shard.at.index.number shard.at.number) }
    requires so_far { IsSoFar Q.start (Q.seen desk.old) count.old }
    ensures buffer { length buf.new ≡ length buf.old }
    ensures shard { OnOk result (HasShard Q.start (caller_of Q.start (Q.seen desk.new)) (root_of shard.entry.root.now) (map info_of_code shard.entry.infos.now) shard.entry.at.index.number shard.entry.at.number shard.entry.generation.number) }
    ensures so_far { OnOk result (IsSoFar Q.start (Q.seen desk.new) count.new) }
    ensures trouble { IfErr result (Shown Q.Fetch.faults Q.start (Q.seen desk.new)) }
    ensures first { IfErr result (TellsOne (FirstOfShard Q.start (caller_of Q.start (Q.seen desk.new)) (root_of shard.entry.root.now) (map info_of_code shard.entry.infos.now)
        shard.entry.at.index.number shard.entry.at.number shard.entry.generation.number)) }
    ensures went { Went Q.start (Q.seen desk.old) (Q.seen desk.new) (IsOfShard shard.entry.at.index.number shard.entry.at.number) }
{
    let held = check_held(alloc, desk, count, shard)?;
    check_lists(alloc, desk, count, shard, &held)?;
    check_files(alloc, desk, count, shard, &held, buf)?;
    Ok(())
}

/// A shard of the safe root, and its generation if it has one.
#[derive(Clone, Copy)]
struct Place {
    at: ShardId,
    generation: Option<Id>,
}

/// A shard of the safe root, and all that it has if it has a generation.
fn check_place<Q: Client>(
    alloc: Global,
    desk: &mut Q,
    count: &mut u64,
    root: &RootData,
    infos: &[SnapInfo],
    place: Place,
    buf: &mut [u8],
) -> Result<(), Trouble<Q::Stage, Q::Fetch>>
    requires alone { Q.start.alone ≡ true }
    requires root { HasSafe Q.start (Q.seen desk.old) (root_of root.now) }
    requires infos { HasInfos Q.start (caller_of Q.start (Q.seen desk.old)) (root_of root.now) (map info_of_code infos.now) }
    requires few { place.at.number < 1024 }
    requires generation { (g : ℕ) → option_map number_of place.generation ≡ Some g → Generation (root_of root.now) place.at.index.number place.at.number g }
    requires buffer { 0 < length buf.old }
    requires new { AreUnfetched (caller_of Q.start (Q.seen desk.old)) (IsOfShard place.at.index.number place.at.number) }
    requires so_far { IsSoFar Q.start (Q.seen desk.old) count.old }
    ensures buffer { length buf.new ≡ length buf.old }
    ensures place { OnOk result (HasPlace Q.start (caller_of Q.start (Q.seen desk.new)) (root_of root.now) (map info_of_code infos.now) place.at.index.number place.at.number (option_map number_of place.generation)) }
    ensures so_far { OnOk result (IsSoFar Q.start (Q.seen desk.new) count.new) }
    ensures trouble { IfErr result (Shown Q.Fetch.faults Q.start (Q.seen desk.new)) }
    ensures first { IfErr result (TellsOne (FirstOfPlace Q.start (caller_of Q.start (Q.seen desk.new)) (root_of root.now) (map info_of_code infos.now) place.at.index.number place.at.number (option_map number_of place.generation))) }
    ensures went { Went Q.start (Q.seen desk.old) (Q.seen desk.new) (IsOfShard place.at.index.number place.at.number) }
{
    match place.generation {
        Some(generation) => {
            let shard = ShardOfRoot {
                root,
                infos,
                at: place.at,
                generation,
            };
            check_shard(alloc, desk, count, shard, buf)
        }
        None => Ok(()),
    }
}

/// The shards of an index that have a generation, by number.
pub fn check_shards<Q: Client>(
    alloc: Global,
    desk: &mut Q,
    count: &mut u64,
    root: &RootData,
    infos: &[SnapInfo],
    index: &RootIndex,
    buf: &mut [u8],
) -> Result<(), Trouble<Q::Stage, Q::Fetch>>
    requires alone { Q.start.alone ≡ true }
    requires root { HasSafe Q.start (Q.seen desk.old) (root_of root.now) }
    requires infos { HasInfos Q.start (caller_of Q.start (Q.seen desk.old)) (root_of root.now) (map info_of_code infos.now) }
    requires index { (k g : ℕ) → at_shard (root_index_of index.now).generations k ≡ Some g → Generation (root_of root.now) index.now.id.number k g }
    requires buffer { 0 < length buf.old }
    requires new { AreUnfetched (caller_of Q.start (Q.seen desk.old)) (IsOfShards index.now.id.number) }
    requires so_far { IsSoFar Q.start (Q.seen desk.old) count.old }
    ensures buffer { length buf.new ≡ length buf.old }
    ensures shards { OnOk result (HasShards Q.start (caller_of Q.start (Q.seen desk.new)) (root_of root.now) (map info_of_code infos.now) (root_index_of index.now)) }
    ensures so_far { OnOk result (IsSoFar Q.start (Q.seen desk.new) count.new) }
    ensures trouble { IfErr result (Shown Q.Fetch.faults Q.start (Q.seen desk.new)) }
    ensures first { IfErr result (TellsOne (FirstOfShards Q.start (caller_of Q.start (Q.seen desk.new)) (root_of root.now) (map info_of_code infos.now) (root_index_of index.now))) }
    ensures went { Went Q.start (Q.seen desk.old) (Q.seen desk.new) (IsOfShards index.now.id.number) }
{
    for (number, generation) in index.generations.as_slice().iter().enumerate() {
        let at = ShardId {
            index: index.id,
            number: number as u32,
        };
        let place = Place {
            at,
            generation: *generation,
        };
        check_place(alloc, desk, count, root, infos, place, buf)?;
    }
    Ok(())
}
