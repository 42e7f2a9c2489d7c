//! The shards that a delete or cleanup prunes.
ghost use Rattle.std.specs.Prelude.{◌≡◌, ◌&&◌, not, ℕ, Bool, List, IfOk, map, flat_map, option_map, Option};
ghost use Rattle.std.specs.List.{list_any};
ghost use Rattle.std.specs.Ordering.{nat_cmp};
ghost use Rattle.std.specs.BTreeSet.{contains};
ghost use Rattle.esr_model.specs.Names.{BlobName};
ghost use Rattle.esr_model.specs.Values.{Bytes, IsOneEach, Formats};
ghost use Rattle.esr_formats.specs.Formats.{formats};
ghost use Rattle.esr_formats.specs.Ids.{number_of};
ghost use Rattle.esr_formats.specs.Roots.{root_of, root_index_of};
ghost use Rattle.esr_formats.specs.Shards.{shard_index_of};
ghost use Rattle.esr_core.specs.Pruning.{AreOfRoot, AreWritable, pruned_shards};
ghost use Rattle.esr_results.specs.Pruned.{pruned_of};
ghost use Rattle.esr_dooming.specs.Pieces.{Added, touches, has_victim, has_unlisted, has_left, loses_all, loss_of, kept_where, kept_by, one_piece, known_piece, place_piece, of_places, index_piece};
ghost use Rattle.esr_dooming.specs.Reading.{IsHeld, AreToRead, AreHeldSome, AreFew};

use crate::sets::id_set;
use esr_names::{Id, Ids, ShardId};
use esr_reach::{ShardIndices, listed_uuids};
use esr_results::{PrunedShard, PrunedShards};
use esr_root::{RootData, RootIndex};
use esr_seq::Seq;
use esr_shardidx::{ShardIndex, SnapList};
use std::alloc::{AllocError, Global};
use std::collections::BTreeSet;

/// What the shards of an index lose: all, where no snapshot of the index is left; or the listed snapshots that are named; or
/// those that aren't listed.
#[derive(Clone, Copy)]
pub enum Loss {
    All,
    Named,
    Unlisted,
}

/// Some of the ids is among the numbers.
fn has_some(numbers: &BTreeSet<u128>, ids: &[Id]) -> bool
    ensures { result ≡ list_any (λ u. contains nat_cmp numbers.now u.number) ids.now }
{
    ids.iter().any(|id| numbers.contains(&id.number))
}

/// Some of the ids isn't.
fn has_other(numbers: &BTreeSet<u128>, ids: &[Id]) -> bool
    ensures { result ≡ list_any (λ u. not (contains nat_cmp numbers.now u.number)) ids.now }
{
    ids.iter().any(|id| !numbers.contains(&id.number))
}

/// The index has a named snapshot.
fn has_named(named: &BTreeSet<u128>, index: &RootIndex) -> bool
    ensures { result ≡ list_any (contains nat_cmp named.now) (root_index_of index.now).snapshots }
{
    has_some(named, index.snapshots.as_slice())
}

/// The shards of the index are to be read: by a delete where it has a named snapshot, by a cleanup always.
pub(crate) fn is_touched(clean: bool, named: &BTreeSet<u128>, index: &RootIndex) -> bool
    ensures { result ≡ touches clean (contains nat_cmp named.now) (root_index_of index.now).snapshots }
{
    clean || has_named(named, index)
}

/// The index has another one.
fn is_left(named: &BTreeSet<u128>, index: &RootIndex) -> bool
    ensures { result ≡ list_any (λ u. not (contains nat_cmp named.now u)) (root_index_of index.now).snapshots }
{
    has_other(named, index.snapshots.as_slice())
}

/// Some list is of a listed snapshot that is named.
fn victim_among(named: &BTreeSet<u128>, listed: &BTreeSet<u128>, lists: &[SnapList]) -> bool
    ensures { result ≡ list_any (λ l. contains nat_cmp named.now l.uuid.number && contains nat_cmp listed.now l.uuid.number) lists.now }
{
    lists.iter().any(|list| named.contains(&list.uuid.number) && listed.contains(&list.uuid.number))
}

/// Some list is of a snapshot that isn't listed.
fn unlisted_among(listed: &BTreeSet<u128>, lists: &[SnapList]) -> bool
    ensures { result ≡ list_any (λ l. not (contains nat_cmp listed.now l.uuid.number)) lists.now }
{
    lists.iter().any(|list| !listed.contains(&list.uuid.number))
}

/// Some list is of a listed snapshot that isn't named.
fn left_among(named: &BTreeSet<u128>, listed: &BTreeSet<u128>, lists: &[SnapList]) -> bool
    ensures { result ≡ list_any (λ l. contains nat_cmp listed.now l.uuid.number && not (contains nat_cmp named.now l.uuid.number)) lists.now }
{
    lists.iter().any(|list| listed.contains(&list.uuid.number)
        && !named.contains(&list.uuid.number))
}

/// The shard has a listed snapshot that is named.
fn has_victim(named: &BTreeSet<u128>, listed: &BTreeSet<u128>, held: &ShardIndex) -> bool
    ensures { result ≡ has_victim (contains nat_cmp named.now) (contains nat_cmp listed.now) (shard_index_of held.now).snapshots }
{
    victim_among(named, listed, held.snapshots())
}

/// The shard has a snapshot that isn't listed.
fn has_unlisted(listed: &BTreeSet<u128>, held: &ShardIndex) -> bool
    ensures { result ≡ has_unlisted (contains nat_cmp listed.now) (shard_index_of held.now).snapshots }
{
    unlisted_among(listed, held.snapshots())
}

/// The shard has a listed snapshot that isn't named.
fn has_left(named: &BTreeSet<u128>, listed: &BTreeSet<u128>, held: &ShardIndex) -> bool
    ensures { result ≡ has_left (contains nat_cmp named.now) (contains nat_cmp listed.now) (shard_index_of held.now).snapshots }
{
    left_among(named, listed, held.snapshots())
}

/// Whether something is left of a shard, where some snapshot of it goes.
fn kept_where(victim: bool, left: bool) -> Option<bool>
    ensures { result ≡ kept_where victim left }
{
    if victim { Some(left) } else { None }
}

/// Whether something is left of a shard that is pruned; `None` where the shard loses nothing. Of an index that leaves nothing
/// is left.
fn kept_of(
    named: &BTreeSet<u128>,
    listed: &BTreeSet<u128>,
    loss: Loss,
    held: &ShardIndex,
) -> Option<bool>
    ensures { result ≡ kept_by (contains nat_cmp named.now) (contains nat_cmp listed.now) loss (shard_index_of held.now).snapshots }
{
    match loss {
        Loss::All => Some(false),
        Loss::Named => kept_where(
            has_victim(named, listed, held),
            has_left(named, listed, held),
        ),
        Loss::Unlisted => kept_where(has_unlisted(listed, held), has_left(named, listed, held)),
    }
}

/// Appends the shard, where it is pruned.
fn push_kept(
    shards: &mut PrunedShards,
    shard: ShardId,
    base: Id,
    kept: Option<bool>,
) -> Result<(), AllocError>
    ensures { IfOk result (λ _. Added shards.old shards.new (one_piece shard.index.number shard.number base.number kept)) }
{
    if let Some(kept) = kept {
        shards.push(PrunedShard { shard, base, kept })?;
    }
    Ok(())
}

/// The same of a shard with a generation, by what is held of it.
fn push_shard(
    shards: &mut PrunedShards,
    named: &BTreeSet<u128>,
    listed: &BTreeSet<u128>,
    loss: Loss,
    read: &ShardIndices,
    shard: ShardId,
    base: Id,
) -> Result<(), AllocError>
    ensures { IfOk result (λ _. Added shards.old shards.new (known_piece (contains nat_cmp named.now) (contains nat_cmp listed.now) loss read.now shard.index.number shard.number base.number)) }
{
    match read.get(shard) {
        Some(held) => push_kept(shards, shard, base, kept_of(named, listed, loss, held)),
        None => Ok(()),
    }
}

/// The same, where the shard has a generation.
fn push_place(
    shards: &mut PrunedShards,
    named: &BTreeSet<u128>,
    listed: &BTreeSet<u128>,
    loss: Loss,
    read: &ShardIndices,
    shard: ShardId,
    base: Option<Id>,
) -> Result<(), AllocError>
    ensures { IfOk result (λ _. Added shards.old shards.new (place_piece (contains nat_cmp named.now) (contains nat_cmp listed.now) loss read.now shard.index.number shard.number (option_map number_of base))) }
{
    match base {
        Some(base) => push_shard(shards, named, listed, loss, read, shard, base),
        None => Ok(()),
    }
}

/// The same of all shards of an index.
fn push_places(
    shards: &mut PrunedShards,
    named: &BTreeSet<u128>,
    listed: &BTreeSet<u128>,
    loss: Loss,
    read: &ShardIndices,
    index: &RootIndex,
) -> Result<(), AllocError>
    ensures { IfOk result (λ _. Added shards.old shards.new (of_places (place_piece (contains nat_cmp named.now) (contains nat_cmp listed.now) loss read.now index.now.id.number) 0 (root_index_of index.now).generations)) }
{
    for (number, base) in index.generations.as_slice().iter().enumerate() {
        let shard = ShardId {
            index: index.id,
            number: number as u32,
        };
        push_place(shards, named, listed, loss, read, shard, *base)?;
    }
    Ok(())
}

/// What the shards of the index lose.
fn loss_of(clean: bool, named: &BTreeSet<u128>, index: &RootIndex) -> Loss
    ensures { result ≡ loss_of clean (loses_all (contains nat_cmp named.now) (root_index_of index.now).snapshots) }
{
    if !is_left(named, index) {
        Loss::All
    } else if clean {
        Loss::Unlisted
    } else {
        Loss::Named
    }
}

/// Appends the shards of an index that are pruned.
fn push_index(
    shards: &mut PrunedShards,
    clean: bool,
    named: &BTreeSet<u128>,
    listed: &BTreeSet<u128>,
    read: &ShardIndices,
    index: &RootIndex,
) -> Result<(), AllocError>
    ensures { IfOk result (λ _. Added shards.old shards.new (index_piece clean (contains nat_cmp named.now) (contains nat_cmp listed.now) read.now (root_index_of index.now))) }
{
    if is_touched(clean, named, index) {
        let loss = loss_of(clean, named, index);
        push_places(shards, named, listed, loss, read, index)
    } else {
        Ok(())
    }
}

/// Appends the shards of all indices that are pruned.
fn push_indices(
    shards: &mut PrunedShards,
    clean: bool,
    named: &BTreeSet<u128>,
    listed: &BTreeSet<u128>,
    read: &ShardIndices,
    indices: &[RootIndex],
) -> Result<(), AllocError>
    ensures { IfOk result (λ _. Added shards.old shards.new (flat_map (index_piece clean (contains nat_cmp named.now) (contains nat_cmp listed.now) read.now) (map root_index_of indices.now))) }
{
    for index in indices {
        push_index(shards, clean, named, listed, read, index)?;
    }
    Ok(())
}

/// The shards that a delete of these uuids, or a cleanup, prunes, in the order in which they draw their ids, where what is held
/// is what was read of them; each is one that was to be read, and is held. Want of memory is the only error.
pub fn pruned(
    alloc: Global,
    clean: bool,
    root: &RootData,
    uuids: &Ids,
    read: &ShardIndices,
) -> Result<PrunedShards, AllocError>
    ensures exact { IfOk result (λ shards. (f : Formats) (blobs : List (BlobName × Bytes)) → IsHeld f clean (root_of root.now) (map number_of uuids.now) blobs read.now
        → map pruned_of shards ≡ pruned_shards f clean (root_of root.now) (map number_of uuids.now) blobs) }
    ensures each { IfOk result (λ shards. AreToRead clean (root_of root.now) (map number_of uuids.now) (map pruned_of shards)) }
    ensures held { IfOk result (λ shards. AreHeldSome read.now (map pruned_of shards)) }
    ensures of_root { IfOk result (λ shards. AreOfRoot (root_of root.now) (map pruned_of shards)) }
    ensures few { IfOk result (λ shards. AreFew (map pruned_of shards)) }
    ensures writable { IfOk result (λ shards. (known : Bytes → Bytes → ℕ → Bool) (told : Bytes → Bytes → ℕ → Option (List (Bytes × Bytes))) (blobs : List (BlobName × Bytes))
        → IsHeld (formats known told) clean (root_of root.now) (map number_of uuids.now) blobs read.now → AreWritable (formats known told) (root_of root.now) (map number_of uuids.now) blobs (map pruned_of shards)) }
    ensures one_each { IfOk result (λ shards. IsOneEach (root_of root.now).indices) }
{
    read.whole();
    let ids = uuids.as_slice();
    let named = id_set(alloc, ids)?;
    let snaps = root.snapshots.as_slice();
    let listed = listed_uuids(alloc, snaps)?;
    let indices = root.indices.as_slice();
    let mut shards = Seq::new(alloc);
    push_indices(&mut shards, clean, &named, &listed, read, indices)?;
    Ok(shards)
}
