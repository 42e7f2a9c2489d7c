//! The names that a root reaches, its own aside.
ghost use Rattle.std.specs.Prelude.{◌≡◌, ◌↔◌, ◌++◌, IfOk, IsTrue, map, option_map};
ghost use Rattle.esr_shardidx.specs.Entries.{IsEntry};
ghost use Rattle.esr_formats.specs.Ids.{number_of};
ghost use Rattle.esr_formats.specs.Names.{name_of};
ghost use Rattle.esr_formats.specs.Roots.{root_of, root_snap_of, root_index_of};
ghost use Rattle.esr_formats.specs.Shards.{entry_of, shard_index_of, snap_list_of};
ghost use Rattle.esr_model.specs.Names.{BlobName as Name};
ghost use Rattle.esr_model.specs.Values.{Has};
ghost use Rattle.esr_model.specs.Image.{At};
ghost use Rattle.esr_model.specs.Parts.{part_names};
ghost use Rattle.esr_model.specs.Reach.{Reached};
ghost use Rattle.esr_plain.specs.Exactly.{Always};
ghost use Rattle.esr_plain.specs.Reach.{AreNames, AreOnce, HasList, OfSome, OfSnap, OfMeta, OfList, OfFile, OfHeld, OfShard, OfPlace, OfShards, OfIndex, OfRoot};

use crate::Image;
use crate::reading::shard_index_at;
use esr_names::{BlobName, Id, ShardId};
use esr_root::{RootData, RootIndex, RootSnap};
use esr_seq::Seq;
use esr_shardidx::{FileEntry, ShardIndex, SnapList, part_count, part_name};
use std::alloc::{AllocError, Global};

/// Names of blobs.
pub type Names = Seq<BlobName>;

/// The info and the global metadata of each snapshot.
fn snap_names(alloc: Global, snaps: &[RootSnap]) -> Result<Names, AllocError>
    ensures { IfOk result (λ names. AreNames names (OfSome OfSnap (map root_snap_of snaps.now))) }
{
    let mut names = Seq::new(alloc);
    for snap in snaps {
        names.push(BlobName::Snap(snap.uuid))?;
        names.push(BlobName::Meta(snap.uuid))?;
    }
    Ok(names)
}

/// The metadata of an index in each of its snapshots.
fn meta_names(alloc: Global, index: &RootIndex) -> Result<Names, AllocError>
    ensures { IfOk result (λ names. AreNames names (OfSome (OfMeta index.now.id.number) (map number_of index.now.snapshots))) }
{
    let mut names = Seq::new(alloc);
    for uuid in index.snapshots.as_slice() {
        names.push(BlobName::IndexMeta(index.id, *uuid))?;
    }
    Ok(names)
}

/// Whether one of the lists is that of the snapshot.
fn has_list(lists: &[SnapList], uuid: Id) -> bool
    ensures { IsTrue result ↔ HasList (map snap_list_of lists.now) uuid.number }
{
    for list in lists {
        if list.uuid.number == uuid.number {
            return true;
        }
    }
    false
}

/// What each listed snapshot has of a shard, where the shard's index has the snapshot.
fn list_names(
    alloc: Global,
    snaps: &[RootSnap],
    shard: ShardId,
    held: &ShardIndex,
) -> Result<Names, AllocError>
    ensures { IfOk result (λ names. AreNames names (OfSome (OfList (shard_index_of held.now) shard.index.number shard.number) (map root_snap_of snaps.now))) }
{
    let mut names = Seq::new(alloc);
    for snap in snaps {
        if has_list(held.snapshots(), snap.uuid) {
            names.push(BlobName::ShardSnap(shard, snap.uuid))?;
        }
    }
    Ok(names)
}

/// Appends the parts of a file.
fn push_parts(names: &mut Names, shard: ShardId, entry: &FileEntry) -> Result<(), AllocError>
    requires { IsEntry entry.now }
    ensures { IfOk result (λ _. map name_of names.new ≡ map name_of names.old ++ part_names shard.index.number shard.number (entry_of entry.now)) }
{
    for k in 0..part_count(entry.print.len, entry.part_size) {
        names.push(part_name(shard, entry, k))?;
    }
    Ok(())
}

/// The parts of all files that the index of a shard lists, those of unlisted snapshots too.
fn file_names(alloc: Global, shard: ShardId, held: &ShardIndex) -> Result<Names, AllocError>
    ensures { IfOk result (λ names. AreNames names (OfSome (OfFile shard.index.number shard.number) (shard_index_of held.now).files)) }
{
    let mut names = Seq::new(alloc);
    for entry in held.files() {
        push_parts(&mut names, shard, entry)?;
    }
    Ok(names)
}

/// What the index of a shard reaches.
fn held_names(
    alloc: Global,
    snaps: &[RootSnap],
    shard: ShardId,
    held: &ShardIndex,
) -> Result<Names, AllocError>
    ensures { IfOk result (λ names. AreNames names (OfHeld (map root_snap_of snaps.now) (shard_index_of held.now) shard.index.number shard.number)) }
{
    let mut names = list_names(alloc, snaps, shard, held)?;
    let files = file_names(alloc, shard, held)?;
    names.extend_from_slice(files.as_slice())?;
    Ok(names)
}

/// The index of a shard under a generation, and what it reaches where it reads.
fn shard_names(
    alloc: Global,
    image: &Image,
    snaps: &[RootSnap],
    shard: ShardId,
    generation: Id,
) -> Result<Names, AllocError>
    ensures { IfOk result (λ names. Always (λ f. AreNames names (OfShard f (At f image.now) (map root_snap_of snaps.now) shard.index.number shard.number generation.number))) }
{
    let Some(held) = shard_index_at(alloc, image, shard, generation)? else {
        return Seq::from_slice(alloc, &[BlobName::ShardIndex(shard, generation)]);
    };
    let mut names = held_names(alloc, snaps, shard, &held)?;
    names.push(BlobName::ShardIndex(shard, generation))?;
    Ok(names)
}

/// The same, where the shard has a generation.
fn place_names(
    alloc: Global,
    image: &Image,
    snaps: &[RootSnap],
    shard: ShardId,
    generation: Option<Id>,
) -> Result<Names, AllocError>
    ensures { IfOk result (λ names. Always (λ f. AreNames names (OfPlace f (At f image.now) (map root_snap_of snaps.now) shard.index.number shard.number (option_map number_of generation)))) }
{
    match generation {
        Some(generation) => shard_names(alloc, image, snaps, shard, generation),
        None => Ok(Seq::new(alloc)),
    }
}

/// The same of all shards of an index.
fn shards_names(
    alloc: Global,
    image: &Image,
    snaps: &[RootSnap],
    index: &RootIndex,
) -> Result<Names, AllocError>
    ensures { IfOk result (λ names. Always (λ f. AreNames names (OfShards f (At f image.now) (map root_snap_of snaps.now) index.now.id.number (root_index_of index.now).generations))) }
{
    let mut names = Seq::new(alloc);
    for (number, generation) in index.generations.as_slice().iter().enumerate() {
        let shard = ShardId {
            index: index.id,
            number: number as u32,
        };
        let more = place_names(alloc, image, snaps, shard, *generation)?;
        names.extend_from_slice(more.as_slice())?;
    }
    Ok(names)
}

/// What an index of a root reaches.
fn index_names(
    alloc: Global,
    image: &Image,
    snaps: &[RootSnap],
    index: &RootIndex,
) -> Result<Names, AllocError>
    ensures { IfOk result (λ names. Always (λ f. AreNames names (OfIndex f (At f image.now) (map root_snap_of snaps.now) (root_index_of index.now)))) }
{
    let mut names = meta_names(alloc, index)?;
    let more = shards_names(alloc, image, snaps, index)?;
    names.extend_from_slice(more.as_slice())?;
    Ok(names)
}

/// What the indices of a root reach.
fn indices_names(
    alloc: Global,
    image: &Image,
    snaps: &[RootSnap],
    indices: &[RootIndex],
) -> Result<Names, AllocError>
    ensures { IfOk result (λ names. Always (λ f. AreNames names (OfSome (OfIndex f (At f image.now) (map root_snap_of snaps.now)) (map root_index_of indices.now)))) }
{
    let mut names = Seq::new(alloc);
    for index in indices {
        let more = index_names(alloc, image, snaps, index)?;
        names.extend_from_slice(more.as_slice())?;
    }
    Ok(names)
}

fn is_same(a: &BlobName, b: &BlobName) -> bool
    ensures { IsTrue result ↔ (name_of a.now ≡ name_of b.now) }
{
    *a == *b
}

fn has_name(names: &[BlobName], name: &BlobName) -> bool
    ensures { IsTrue result ↔ Has (map name_of names.now) (name_of name.now) }
{
    for old in names {
        if is_same(old, name) {
            return true;
        }
    }
    false
}

/// The names in their order, each where it stands first.
fn each_once(alloc: Global, names: &[BlobName]) -> Result<Names, AllocError>
    ensures same { IfOk result (λ kept. AreNames kept (Has (map name_of names.now))) }
    ensures once { IfOk result (λ kept. AreOnce (map name_of kept)) }
{
    let mut kept = Seq::new(alloc);
    for name in names {
        if !has_name(kept.as_slice(), name) {
            kept.push(*name)?;
        }
    }
    Ok(kept)
}

/// The names that a root reaches, its own aside: exactly these, none twice, in the order of the root. A shard's index that
/// isn't there or doesn't read is reached, and nothing beyond it. Want of memory is the only error.
pub fn reach(alloc: Global, image: &Image, root: &RootData) -> Result<Names, AllocError>
    ensures names { IfOk result (λ names. Always (λ f. AreNames names (Reached f (At f image.now) (root_of root.now)))) }
    ensures once { IfOk result (λ names. AreOnce (map name_of names)) }
{
    let snaps = root.snapshots.as_slice();
    let mut names = snap_names(alloc, snaps)?;
    let more = indices_names(alloc, image, snaps, root.indices.as_slice())?;
    names.extend_from_slice(more.as_slice())?;
    each_once(alloc, names.as_slice())
}
