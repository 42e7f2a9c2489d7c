//! The names that a cleanup dooms: those of the layout that it listed and its new root doesn't reach.
ghost use Rattle.std.specs.Prelude.{◌≡◌, ◌↔◌, true, [], ◌∷◌, Some, IfOk, OnOk, map, flat_map};
ghost use Rattle.std.specs.BTreeSet.{contains};
ghost use Rattle.esr_names.specs.declared.blob.BlobName.{BlobName as CodeName};
ghost use Rattle.esr_names.specs.Layout.{IsName};
ghost use Rattle.esr_core.specs.After.{is_latest};
ghost use Rattle.esr_model.specs.Values.{Has, ShardFiles};
ghost use Rattle.esr_formats.specs.Ids.{number_of};
ghost use Rattle.esr_formats.specs.Names.{name_of};
ghost use Rattle.esr_formats.specs.Roots.{root_of};
ghost use Rattle.esr_reach.specs.Held.{held_at};
ghost use Rattle.esr_reach.specs.Listing.{root_names};
ghost use Rattle.esr_reach.specs.Names.{AreOnce, Pushed};
ghost use Rattle.esr_reach.specs.Reading.{HasEach};
ghost use Rattle.esr_results.specs.Pruned.{pruned_of};
ghost use Rattle.esr_dooming.specs.Reading.{AreHeldSome};
ghost use Rattle.esr_dooming.specs.Unreached.{is_spared, name_piece, blob_piece, is_root, rest_piece, place_of, Renewed};

use crate::names::DoomedNames;
use crate::survive::left;
use esr_depot::Listed;
use esr_formats::read_name;
use esr_names::{BlobName, Ids};
use esr_reach::{ShardIndices, reach, set_of};
use esr_results::PrunedShard;
use esr_root::RootData;
use std::alloc::{AllocError, Global};
use std::collections::BTreeSet;

/// Holds what is left of one of these shards in place of its index.
fn renew_shard(
    alloc: Global,
    held: &mut ShardIndices,
    shard: &PrunedShard,
    uuids: &Ids,
) -> Result<(), AllocError>
    requires { (was : ShardFiles) × (held_at held.old shard.now.shard.index.number shard.now.shard.number ≡ Some was) }
    ensures { OnOk result (Renewed held.old held.new (pruned_of shard.now ∷ []) (map number_of uuids.now)) }
{
    if !shard.kept {
        return Ok(());
    }
    let Some(index) = held.get(shard.shard) else {
        unreachable!();
    };
    let index = left(alloc, index, uuids)?;
    held.insert(shard.shard, index)
}

/// Holds what these snapshots have of each of these shards in place of its index, where something is left of it.
pub fn renew(
    alloc: Global,
    held: &mut ShardIndices,
    shards: &[PrunedShard],
    uuids: &Ids,
) -> Result<(), AllocError>
    requires some { AreHeldSome held.old (map pruned_of shards.now) }
    requires once { AreOnce (map place_of (map pruned_of shards.now)) }
    ensures { OnOk result (Renewed held.old held.new (map pruned_of shards.now) (map number_of uuids.now)) }
{
    for shard in shards {
        renew_shard(alloc, held, shard, uuids)?;
    }
    Ok(())
}

/// The names that a root reaches, its own aside, by what is held of its shards.
pub fn reach_set(
    alloc: Global,
    root: &RootData,
    held: &ShardIndices,
) -> Result<BTreeSet<BlobName>, AllocError>
    requires { HasEach (root_of root.now) held.now }
    ensures { IfOk result (λ set. (name : CodeName) → (contains ⟦<BlobName as Ord>⟧.cmp set name ≡ true) ↔ Has (root_names (root_of root.now) held.now) (name_of name)) }
{
    let names = reach(alloc, root, held)?;
    set_of(alloc, names.as_slice())
}

/// The name is that of `index.latest`.
fn is_latest(name: BlobName) -> bool
    ensures { result ≡ is_latest (name_of name) }
{
    match name {
        BlobName::Latest => true,
        _ => false,
    }
}

/// The name is reached, or that of `index.latest`.
fn is_spared(reached: &BTreeSet<BlobName>, name: BlobName) -> bool
    ensures { result ≡ is_spared (contains ⟦<BlobName as Ord>⟧.cmp reached.now) (name_of name) }
{
    is_latest(name) || reached.contains(&name)
}

/// Appends a name, unless it is spared.
fn push_name(
    names: &mut DoomedNames,
    reached: &BTreeSet<BlobName>,
    name: BlobName,
) -> Result<(), AllocError>
    requires { IsName name }
    ensures { IfOk result (λ _. Pushed names.old names.new (name_piece (contains ⟦<BlobName as Ord>⟧.cmp reached.now) (Some (name_of name)))) }
{
    if is_spared(reached, name) {
        return Ok(());
    }
    names.push(name)?;
    Ok(())
}

/// Appends the name of a listed blob, where it is one of the layout and isn't spared.
fn push_blob(
    names: &mut DoomedNames,
    reached: &BTreeSet<BlobName>,
    blob: &Listed,
) -> Result<(), AllocError>
    ensures { IfOk result (λ _. Pushed names.old names.new (blob_piece (contains ⟦<BlobName as Ord>⟧.cmp reached.now) blob.now)) }
{
    let text = blob.name.as_str();
    match read_name(text.as_bytes()) {
        Some(name) => push_name(names, reached, name),
        None => Ok(()),
    }
}

/// Appends the names of the layout among the blobs of a page, without those that are reached, and without `index.latest`.
pub fn push_unreached(
    names: &mut DoomedNames,
    reached: &BTreeSet<BlobName>,
    page: &[Listed],
) -> Result<(), AllocError>
    ensures { IfOk result (λ _. Pushed names.old names.new (flat_map (blob_piece (contains ⟦<BlobName as Ord>⟧.cmp reached.now)) page.now)) }
{
    for blob in page {
        push_blob(names, reached, blob)?;
    }
    Ok(())
}

/// The name is that of the root of this generation.
fn is_root(name: BlobName, generation: u64) -> bool
    ensures { result ≡ is_root generation (name_of name) }
{
    match name {
        BlobName::Root(n) => generation == n,
        _ => false,
    }
}

/// These names, without that of the root of this generation.
pub fn without_root(
    alloc: Global,
    names: &DoomedNames,
    generation: u64,
) -> Result<DoomedNames, AllocError>
    ensures { IfOk result (λ rest. map name_of rest ≡ flat_map (rest_piece generation) (map name_of names.now)) }
{
    let mut rest = DoomedNames::new(alloc);
    for name in names.as_slice() {
        if !is_root(*name, generation) {
            rest.push(*name)?;
        }
    }
    Ok(rest)
}
