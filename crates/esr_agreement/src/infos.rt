//! The infos of the listed snapshots, beside the root and the index of a shard.
ghost use Rattle.std.specs.Prelude.{◌≡◌, ◌↔◌, ◌<◌, true, false, IsTrue, MatchOption, map};
ghost use Rattle.esr_formats.specs.Infos.{info_of_code};
ghost use Rattle.esr_formats.specs.Refs.{ref_of_code};
ghost use Rattle.esr_formats.specs.Roots.{root_of, root_snap_of};
ghost use Rattle.esr_formats.specs.Shards.{shard_index_of};
ghost use Rattle.esr_agreement.specs.Lists.{IsListed, IsAt, IsOf, IsOwn, HaveShard, IsKept, AreKept, IsLost, IsUnlisted};

use crate::listing::has_list;
use esr_meta::SnapInfo;
use esr_names::{Id, IndexRef, ShardId};
use esr_root::{RootData, RootSnap};
use esr_shardidx::ShardIndex;

/// The listed snapshot has this uuid.
fn is_snap(snap: &RootSnap, uuid: Id) -> bool
    ensures { IsTrue result ↔ ((root_snap_of snap.now).uuid ≡ uuid.number) }
{
    snap.uuid.number == uuid.number
}

/// The root lists the snapshot.
pub fn is_listed(root: &RootData, uuid: Id) -> bool
    ensures { IsTrue result ↔ IsListed (root_of root.now) uuid.number }
{
    for snap in root.snapshots.as_slice() {
        if is_snap(snap, uuid) {
            return true;
        }
    }
    false
}

/// The index is that of the shard, and has it.
fn is_at(told: &IndexRef, at: ShardId) -> bool
    ensures { IsTrue result ↔ IsAt (ref_of_code told.now) at.index.number at.number }
{
    told.id.number == at.index.number && at.number < told.shards
}

/// The shard is one of the snapshot of this info.
fn is_of(info: &SnapInfo, at: ShardId) -> bool
    ensures { IsTrue result ↔ IsOf (info_of_code info.now) at.index.number at.number }
{
    for told in info.indices.as_slice() {
        if is_at(told, at) {
            return true;
        }
    }
    false
}

/// The uuid of the info.
fn uuid_of(info: &SnapInfo) -> Id
    ensures { result ≡ info.now.uuid }
{
    info.uuid
}

/// The ids are one.
fn is_id(a: Id, b: Id) -> bool
    ensures { IsTrue result ↔ (a.number ≡ b.number) }
{
    a.number == b.number
}

/// The info is that of the snapshot, and has the shard.
fn is_own(info: &SnapInfo, uuid: Id, at: ShardId) -> bool
    ensures { IsTrue result ↔ IsOwn uuid.number at.index.number at.number (info_of_code info.now) }
{
    if !is_id(uuid_of(info), uuid) {
        return false;
    }
    is_of(info, at)
}

/// One of these infos is that of the snapshot, and has the shard.
pub fn has_shard(infos: &[SnapInfo], uuid: Id, at: ShardId) -> bool
    ensures { IsTrue result ↔ HaveShard (map info_of_code infos.now) uuid.number at.index.number at.number }
{
    for info in infos {
        if is_own(info, uuid, at) {
            return true;
        }
    }
    false
}

/// The index of the shard lists the snapshot of this info, if that has the shard.
fn is_kept(info: &SnapInfo, at: ShardId, held: &ShardIndex) -> bool
    ensures kept { result ≡ true → IsKept at.index.number at.number (shard_index_of held.now) (info_of_code info.now) }
    ensures lost { result ≡ false → IsLost at.index.number at.number (shard_index_of held.now) (info_of_code info.now) }
{
    if !is_of(info, at) {
        return true;
    }
    has_list(held, uuid_of(info))
}

/// The first of these snapshots that has the shard, though the index of the shard doesn't list it.
pub fn unlisted(infos: &[SnapInfo], at: ShardId, held: &ShardIndex) -> Option<Id>
    ensures { MatchOption result
        (AreKept (map info_of_code infos.now) at.index.number at.number (shard_index_of held.now))
        (λ uuid. IsUnlisted (map info_of_code infos.now) at.index.number at.number (shard_index_of held.now) uuid.number) }
{
    for info in infos {
        if !is_kept(info, at, held) {
            return Some(uuid_of(info));
        }
    }
    None
}
