//! The names that a root reaches, its own aside.
ghost use Rattle.std.specs.Prelude.{◌≡◌, IfOk, map, flat_map, option_map};
ghost use Rattle.std.specs.List.{AllByRecursion};
ghost use Rattle.std.specs.Ordering.{nat_cmp};
ghost use Rattle.std.specs.BTreeSet.{contains};
ghost use Rattle.esr_shardidx.specs.Entries.{IsEntry};
ghost use Rattle.esr_formats.specs.Ids.{number_of};
ghost use Rattle.esr_formats.specs.Names.{name_of};
ghost use Rattle.esr_formats.specs.Roots.{root_of, root_snap_of, root_index_of};
ghost use Rattle.esr_formats.specs.Shards.{entry_of, snap_list_of, shard_index_of};
ghost use Rattle.esr_model.specs.Parts.{part_names};
ghost use Rattle.esr_model.specs.Reach.{Reached};
ghost use Rattle.esr_reach.specs.Names.{AreNames, AreOnce, Pushed};
ghost use Rattle.esr_reach.specs.Listing.{is_listed, snap_names, meta_names, list_names, held_names, shard_names, place_names, shards_names, index_names, root_names};
ghost use Rattle.esr_reach.specs.Reading.{HasEach, ReadsAsHeld, InEachImage};

use crate::ShardIndices;
use esr_names::{BlobName, Id, ShardId};
use esr_root::{RootData, RootIndex, RootSnap};
use esr_seq::Seq;
use esr_shardidx::{FileEntry, ShardIndex, SnapList, part_count, part_name};
use std::alloc::{AllocError, Global};
use std::collections::BTreeSet;

/// Names of blobs.
pub type Names = Seq<BlobName>;

/// The numbers of the uuids of the snapshots.
pub fn listed_uuids(alloc: Global, snaps: &[RootSnap]) -> Result<BTreeSet<u128>, AllocError>
    ensures { IfOk result (λ uuids. contains nat_cmp uuids ≡ is_listed (map root_snap_of snaps.now)) }
{
    let mut uuids = BTreeSet::new(alloc);
    for snap in snaps {
        uuids.insert(snap.uuid.number)?;
    }
    Ok(uuids)
}

/// Appends the info and the global metadata of each snapshot.
fn push_snaps(names: &mut Names, snaps: &[RootSnap]) -> Result<(), AllocError>
    ensures { IfOk result (λ _. Pushed names.old names.new (flat_map snap_names (map root_snap_of snaps.now))) }
{
    for snap in snaps {
        names.push(BlobName::Snap(snap.uuid))?;
        names.push(BlobName::Meta(snap.uuid))?;
    }
    Ok(())
}

/// Appends the metadata of an index in each of its snapshots.
fn push_metas(names: &mut Names, index: &RootIndex) -> Result<(), AllocError>
    ensures { IfOk result (λ _. Pushed names.old names.new (flat_map (meta_names index.now.id.number) (map number_of index.now.snapshots))) }
{
    for uuid in index.snapshots.as_slice() {
        names.push(BlobName::IndexMeta(index.id, *uuid))?;
    }
    Ok(())
}

/// Appends what the listed ones of these snapshots have of a shard.
fn push_lists(
    names: &mut Names,
    listed: &BTreeSet<u128>,
    shard: ShardId,
    lists: &[SnapList],
) -> Result<(), AllocError>
    ensures { IfOk result (λ _. Pushed names.old names.new (flat_map (list_names (contains nat_cmp listed.now) shard.index.number shard.number) (map snap_list_of lists.now))) }
{
    for list in lists {
        if listed.contains(&list.uuid.number) {
            names.push(BlobName::ShardSnap(shard, list.uuid))?;
        }
    }
    Ok(())
}

/// Appends the parts of a file.
pub fn push_parts(names: &mut Names, shard: ShardId, entry: &FileEntry) -> Result<(), AllocError>
    requires { IsEntry entry.now }
    ensures { IfOk result (λ _. Pushed names.old names.new (part_names shard.index.number shard.number (entry_of entry.now))) }
{
    for k in 0..part_count(entry.print.len, entry.part_size) {
        names.push(part_name(shard, entry, k))?;
    }
    Ok(())
}

/// Appends the parts of all files.
fn push_files(names: &mut Names, shard: ShardId, files: &[FileEntry]) -> Result<(), AllocError>
    requires { AllByRecursion IsEntry files.now }
    ensures { IfOk result (λ _. Pushed names.old names.new (flat_map (part_names shard.index.number shard.number) (map entry_of files.now))) }
{
    for entry in files {
        push_parts(names, shard, entry)?;
    }
    Ok(())
}

/// Appends what the index of a shard has: of its snapshots the listed ones, and all of its files.
fn push_held(
    names: &mut Names,
    listed: &BTreeSet<u128>,
    shard: ShardId,
    held: &ShardIndex,
) -> Result<(), AllocError>
    ensures { IfOk result (λ _. Pushed names.old names.new (held_names (contains nat_cmp listed.now) shard.index.number shard.number (shard_index_of held.now))) }
{
    push_lists(names, listed, shard, held.snapshots())?;
    push_files(names, shard, held.files())
}

/// Appends the index of a shard under a generation, and what it has.
fn push_shard(
    names: &mut Names,
    listed: &BTreeSet<u128>,
    held: &ShardIndices,
    shard: ShardId,
    generation: Id,
) -> Result<(), AllocError>
    ensures { IfOk result (λ _. Pushed names.old names.new (shard_names (contains nat_cmp listed.now) held.now shard.index.number shard.number generation.number)) }
{
    names.push(BlobName::ShardIndex(shard, generation))?;
    match held.get(shard) {
        Some(held) => push_held(names, listed, shard, held),
        None => Ok(()),
    }
}

/// The same, where the shard has a generation.
fn push_place(
    names: &mut Names,
    listed: &BTreeSet<u128>,
    held: &ShardIndices,
    shard: ShardId,
    generation: Option<Id>,
) -> Result<(), AllocError>
    ensures { IfOk result (λ _. Pushed names.old names.new (place_names (contains nat_cmp listed.now) held.now shard.index.number shard.number (option_map number_of generation))) }
{
    match generation {
        Some(generation) => push_shard(names, listed, held, shard, generation),
        None => Ok(()),
    }
}

/// The same of all shards of an index.
fn push_shards(
    names: &mut Names,
    listed: &BTreeSet<u128>,
    held: &ShardIndices,
    index: &RootIndex,
) -> Result<(), AllocError>
    ensures { IfOk result (λ _. Pushed names.old names.new (shards_names (contains nat_cmp listed.now) held.now index.now.id.number 0 (root_index_of index.now).generations)) }
{
    for (number, generation) in index.generations.as_slice().iter().enumerate() {
        let shard = ShardId {
            index: index.id,
            number: number as u32,
        };
        push_place(names, listed, held, shard, *generation)?;
    }
    Ok(())
}

/// Appends what an index of a root reaches.
fn push_index(
    names: &mut Names,
    listed: &BTreeSet<u128>,
    held: &ShardIndices,
    index: &RootIndex,
) -> Result<(), AllocError>
    ensures { IfOk result (λ _. Pushed names.old names.new (index_names (contains nat_cmp listed.now) held.now (root_index_of index.now))) }
{
    push_metas(names, index)?;
    push_shards(names, listed, held, index)
}

/// Appends what the indices of a root reach.
fn push_indices(
    names: &mut Names,
    listed: &BTreeSet<u128>,
    held: &ShardIndices,
    indices: &[RootIndex],
) -> Result<(), AllocError>
    ensures { IfOk result (λ _. Pushed names.old names.new (flat_map (index_names (contains nat_cmp listed.now) held.now) (map root_index_of indices.now))) }
{
    for index in indices {
        push_index(names, listed, held, index)?;
    }
    Ok(())
}

/// The names that a root reaches, its own aside, where what is held is what the indices of its shards read as: exactly
/// these, none twice, in the order of the root. Want of memory is the only error.
pub fn reach(alloc: Global, root: &RootData, held: &ShardIndices) -> Result<Names, AllocError>
    requires { HasEach (root_of root.now) held.now }
    ensures names { IfOk result (λ names. InEachImage (λ f has. ReadsAsHeld f has (root_of root.now) held.now → AreNames names (Reached f has (root_of root.now)))) }
    ensures once { IfOk result (λ names. AreOnce (map name_of names)) }
    ensures order { IfOk result (λ names. map name_of names ≡ root_names (root_of root.now) held.now) }
{
    held.rule();
    let snaps = root.snapshots.as_slice();
    let listed = listed_uuids(alloc, snaps)?;
    let mut names = Seq::new(alloc);
    push_snaps(&mut names, snaps)?;
    push_indices(&mut names, &listed, held, root.indices.as_slice())?;
    Ok(names)
}
