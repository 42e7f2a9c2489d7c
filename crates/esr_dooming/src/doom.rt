//! The names that a delete dooms.
ghost use Rattle.std.specs.Prelude.{◌≡◌, ◌<◌, ◌^◌, ◌&&◌, List, IfOk, IfSome, map, flat_map};
ghost use Rattle.std.specs.List.{AllByRecursion};
ghost use Rattle.std.specs.Ordering.{nat_cmp};
ghost use Rattle.std.specs.BTreeSet.{contains};
ghost use Rattle.esr_shardidx.specs.Entries.{IsEntry};
ghost use Rattle.esr_formats.specs.Ids.{number_of};
ghost use Rattle.esr_formats.specs.Names.{name_of};
ghost use Rattle.esr_formats.specs.Roots.{root_of, root_snap_of, root_index_of};
ghost use Rattle.esr_formats.specs.Shards.{entry_of, snap_list_of, shard_index_of};
ghost use Rattle.esr_model.specs.Names.{BlobName as StoredName};
ghost use Rattle.esr_model.specs.Values.{Bytes, Formats};
ghost use Rattle.esr_model.specs.Parts.{part_names};
ghost use Rattle.esr_model.specs.Delete.{doomed_names, gone_shards};
ghost use Rattle.esr_reach.specs.Names.{Pushed};
ghost use Rattle.esr_results.specs.Pruned.{pruned_of};
ghost use Rattle.esr_dooming.specs.Pieces.{leaves, root_piece, root_count, snap_piece, metas_piece, list_piece, file_piece, held_piece, shard_piece, snaps_names, gone_names};
ghost use Rattle.esr_dooming.specs.Reading.{AreHeld, AreFew};

use crate::gone::gone;
use crate::names::DoomedNames;
use crate::sets::{file_set, id_set};
use esr_names::{BlobName, Id, Ids, ShardId};
use esr_reach::{ShardIndices, listed_uuids};
use esr_results::PrunedShard;
use esr_root::{RootData, RootIndex, RootSnap};
use esr_shardidx::{FileEntry, ShardIndex, SnapList, part_count, part_name, part_names_differ};
use std::alloc::{AllocError, Global};
use std::collections::BTreeSet;

/// Appends the name of the root, where there is one.
fn push_root(names: &mut DoomedNames, number: Option<u64>) -> Result<(), AllocError>
    requires { IfSome number (λ n. n < 2 ^ 63) }
    ensures { IfOk result (λ _. Pushed names.old names.new (root_piece number)) }
{
    if let Some(n) = number {
        names.push(BlobName::Root(n))?;
    }
    Ok(())
}

/// Appends the info and the global metadata of each named snapshot.
fn push_snaps(
    names: &mut DoomedNames,
    named: &BTreeSet<u128>,
    snaps: &[RootSnap],
) -> Result<(), AllocError>
    ensures { IfOk result (λ _. Pushed names.old names.new (flat_map (snap_piece (contains nat_cmp named.now)) (map root_snap_of snaps.now))) }
{
    for snap in snaps {
        if named.contains(&snap.uuid.number) {
            names.push(BlobName::Snap(snap.uuid))?;
            names.push(BlobName::Meta(snap.uuid))?;
        }
    }
    Ok(())
}

/// Appends the metadata of an index in each of its named snapshots.
fn push_metas(
    names: &mut DoomedNames,
    named: &BTreeSet<u128>,
    index: &RootIndex,
) -> Result<(), AllocError>
    ensures { IfOk result (λ _. Pushed names.old names.new (metas_piece (contains nat_cmp named.now) (root_index_of index.now))) }
{
    for uuid in index.snapshots.as_slice() {
        if named.contains(&uuid.number) {
            names.push(BlobName::IndexMeta(index.id, *uuid))?;
        }
    }
    Ok(())
}

/// The same of all indices.
fn push_index_metas(
    names: &mut DoomedNames,
    named: &BTreeSet<u128>,
    indices: &[RootIndex],
) -> Result<(), AllocError>
    ensures { IfOk result (λ _. Pushed names.old names.new (flat_map (metas_piece (contains nat_cmp named.now)) (map root_index_of indices.now))) }
{
    for index in indices {
        push_metas(names, named, index)?;
    }
    Ok(())
}

/// What a listed snapshot has of a shard goes: the shard's new index hasn't the snapshot.
fn leaves(listed: &BTreeSet<u128>, left: &BTreeSet<u128>, kept: bool, uuid: Id) -> bool
    ensures { result ≡ leaves (contains nat_cmp listed.now) (contains nat_cmp left.now) kept uuid.number }
{
    listed.contains(&uuid.number) && !(kept && left.contains(&uuid.number))
}

/// Appends what the snapshots that leave have of a shard.
fn push_lists(
    names: &mut DoomedNames,
    listed: &BTreeSet<u128>,
    left: &BTreeSet<u128>,
    shard: &PrunedShard,
    lists: &[SnapList],
) -> Result<(), AllocError>
    requires { shard.now.shard.number < 1024 }
    ensures { IfOk result (λ _. Pushed names.old names.new (flat_map (list_piece (contains nat_cmp listed.now) (contains nat_cmp left.now) (pruned_of shard.now)) (map snap_list_of lists.now))) }
{
    for list in lists {
        if leaves(listed, left, shard.kept, list.uuid) {
            names.push(BlobName::ShardSnap(shard.shard, list.uuid))?;
        }
    }
    Ok(())
}

/// The shard's new index has the file.
fn stays(files: &BTreeSet<u128>, kept: bool, file: Id) -> bool
    ensures { result ≡ (kept && contains nat_cmp files.now file.number) }
{
    kept && files.contains(&file.number)
}

/// Appends the parts of a file.
fn push_parts(names: &mut DoomedNames, shard: ShardId, entry: &FileEntry) -> Result<(), AllocError>
    requires entry { IsEntry entry.now }
    requires few { shard.number < 1024 }
    ensures { IfOk result (λ _. Pushed names.old names.new (part_names shard.index.number shard.number (entry_of entry.now))) }
{
    part_names_differ();
    for k in 0..part_count(entry.print.len, entry.part_size) {
        names.push(part_name(shard, entry, k))?;
    }
    Ok(())
}

/// Appends the parts of the files that the shard's new index hasn't.
fn push_files(
    names: &mut DoomedNames,
    has: &BTreeSet<u128>,
    shard: &PrunedShard,
    files: &[FileEntry],
) -> Result<(), AllocError>
    requires entries { AllByRecursion IsEntry files.now }
    requires few { shard.now.shard.number < 1024 }
    ensures { IfOk result (λ _. Pushed names.old names.new (flat_map (file_piece (contains nat_cmp has.now) (pruned_of shard.now)) (map entry_of files.now))) }
{
    for entry in files {
        if !stays(has, shard.kept, entry.name) {
            push_parts(names, shard.shard, entry)?;
        }
    }
    Ok(())
}

/// Appends what goes of a shard, by what its old index has.
fn push_held(
    alloc: Global,
    names: &mut DoomedNames,
    listed: &BTreeSet<u128>,
    left: &BTreeSet<u128>,
    shard: &PrunedShard,
    held: &ShardIndex,
) -> Result<(), AllocError>
    requires { shard.now.shard.number < 1024 }
    ensures { IfOk result (λ _. Pushed names.old names.new (held_piece (contains nat_cmp listed.now) (contains nat_cmp left.now) (pruned_of shard.now) (shard_index_of held.now))) }
{
    let lists = held.snapshots();
    let has = file_set(alloc, left, lists)?;
    push_lists(names, listed, left, shard, lists)?;
    let files = held.files();
    push_files(names, &has, shard, files)?;
    Ok(())
}

/// Appends the old index of a shard, and what goes of it.
fn push_shard(
    alloc: Global,
    names: &mut DoomedNames,
    listed: &BTreeSet<u128>,
    left: &BTreeSet<u128>,
    read: &ShardIndices,
    shard: &PrunedShard,
) -> Result<(), AllocError>
    requires { shard.now.shard.number < 1024 }
    ensures { IfOk result (λ _. Pushed names.old names.new (shard_piece (contains nat_cmp listed.now) (contains nat_cmp left.now) read.now (pruned_of shard.now))) }
{
    names.push(BlobName::ShardIndex(shard.shard, shard.base))?;
    match read.get(shard.shard) {
        Some(held) => push_held(alloc, names, listed, left, shard, held),
        None => Ok(()),
    }
}

/// The same of all of these shards.
fn push_shards(
    alloc: Global,
    names: &mut DoomedNames,
    listed: &BTreeSet<u128>,
    left: &BTreeSet<u128>,
    read: &ShardIndices,
    shards: &[PrunedShard],
) -> Result<(), AllocError>
    requires { AreFew (map pruned_of shards.now) }
    ensures { IfOk result (λ _. Pushed names.old names.new (flat_map (shard_piece (contains nat_cmp listed.now) (contains nat_cmp left.now) read.now) (map pruned_of shards.now))) }
{
    for shard in shards {
        push_shard(alloc, names, listed, left, read, shard)?;
    }
    Ok(())
}

/// Appends the names of the named snapshots themselves.
fn push_named(
    alloc: Global,
    names: &mut DoomedNames,
    root: &RootData,
    uuids: &Ids,
) -> Result<(), AllocError>
    ensures { IfOk result (λ _. Pushed names.old names.new (snaps_names (map number_of uuids.now) (root_of root.now))) }
{
    let ids = uuids.as_slice();
    let named = id_set(alloc, ids)?;
    let snaps = root.snapshots.as_slice();
    push_snaps(names, &named, snaps)?;
    let indices = root.indices.as_slice();
    push_index_metas(names, &named, indices)?;
    Ok(())
}

/// Appends the names of the shards whose generation the next root hasn't.
fn push_pruned(
    alloc: Global,
    names: &mut DoomedNames,
    root: &RootData,
    next: &RootData,
    read: &ShardIndices,
) -> Result<(), AllocError>
    ensures { IfOk result (λ _. Pushed names.old names.new (gone_names (root_of root.now) (root_of next.now) read.now)) }
{
    let before = root.snapshots.as_slice();
    let listed = listed_uuids(alloc, before)?;
    let after = next.snapshots.as_slice();
    let left = listed_uuids(alloc, after)?;
    let shards = gone(alloc, root, next)?;
    let items = shards.as_slice();
    push_shards(alloc, names, &listed, &left, read, items)?;
    Ok(())
}

/// What a delete of these uuids dooms, in the order of the root: the root itself, where it has a number, and what it reaches
/// and the next one doesn't, where what is held is what was read of the shards. Want of memory is the only error.
pub fn doomed(
    alloc: Global,
    number: Option<u64>,
    root: &RootData,
    next: &RootData,
    uuids: &Ids,
    read: &ShardIndices,
) -> Result<DoomedNames, AllocError>
    requires { IfSome number (λ n. n < 2 ^ 63) }
    ensures { IfOk result (λ names. (f : Formats) (blobs : List (StoredName × Bytes)) → AreHeld f blobs read.now (gone_shards (root_of next.now) (root_of root.now).indices)
        → map name_of names ≡ doomed_names f (root_count number) (root_of root.now) (root_of next.now) (map number_of uuids.now) blobs) }
{
    let mut names = DoomedNames::new(alloc);
    push_root(&mut names, number)?;
    push_named(alloc, &mut names, root, uuids)?;
    push_pruned(alloc, &mut names, root, next, read)?;
    Ok(names)
}
