//! The indices of the shards that a root has.
ghost use Rattle.std.specs.Prelude.{◌≡◌, ◌<◌, ◌↔◌, ℕ, IfOk, IsTrue, Some, option_map};
ghost use Rattle.esr_formats.specs.Ids.{number_of};
ghost use Rattle.esr_formats.specs.Roots.{root_of, root_index_of};
ghost use Rattle.esr_formats.specs.Shards.{shard_index_of};
ghost use Rattle.esr_model.specs.Values.{SnapList as List};
ghost use Rattle.esr_model.specs.Image.{At, Has, Generation, IndexStands, at_shard};
ghost use Rattle.esr_plain.specs.Exactly.{Always};

use crate::Image;
use crate::files::stored_files;
use crate::listed::have_snaps;
use crate::reading::shard_index_at;
use esr_names::{Id, ShardId};
use esr_root::{RootData, RootIndex};
use esr_shardidx::ShardIndex;
use std::alloc::{AllocError, Global};

/// Whether each snapshot of the index is below the generation.
fn are_below(held: &ShardIndex, generation: Id) -> bool
    ensures { IsTrue result ↔ ((l : List) → Has (shard_index_of held.now).snapshots l → l.uuid < generation.number) }
{
    for list in held.snapshots() {
        if list.uuid.number >= generation.number {
            return false;
        }
    }
    true
}

/// Whether the index of a shard reads, each file that it lists stands, and so does what each listed snapshot has of the shard.
fn index_stands(
    alloc: Global,
    image: &Image,
    root: &RootData,
    shard: ShardId,
    generation: Id,
) -> Result<bool, AllocError>
    ensures { IfOk result (λ b. Always (λ f. IsTrue b ↔ IndexStands f (At f image.now) (root_of root.now) shard.index.number shard.number generation.number)) }
{
    let Some(held) = shard_index_at(alloc, image, shard, generation)? else {
        return Ok(false);
    };
    if !are_below(&held, generation) {
        return Ok(false);
    }
    if !have_snaps(alloc, image, root, shard, &held)? {
        return Ok(false);
    }
    match stored_files(alloc, image, shard, held.files())? {
        Some(_) => Ok(true),
        None => Ok(false),
    }
}

/// Whether that holds of the index of a shard, where the root has one.
fn shard_stands(
    alloc: Global,
    image: &Image,
    root: &RootData,
    shard: ShardId,
    generation: Option<Id>,
) -> Result<bool, AllocError>
    ensures { IfOk result (λ b. Always (λ f. IsTrue b ↔ ((g : ℕ) → option_map number_of generation ≡ Some g → IndexStands f (At f image.now) (root_of root.now) shard.index.number shard.number g))) }
{
    match generation {
        Some(generation) => index_stands(alloc, image, root, shard, generation),
        None => Ok(true),
    }
}

/// The same of each shard of an index.
fn shards_stand(
    alloc: Global,
    image: &Image,
    root: &RootData,
    index: &RootIndex,
) -> Result<bool, AllocError>
    ensures { IfOk result (λ b. Always (λ f. IsTrue b ↔ ((k g : ℕ) → at_shard (root_index_of index.now).generations k ≡ Some g → IndexStands f (At f image.now) (root_of root.now) index.now.id.number k g))) }
{
    for (number, generation) in index.generations.as_slice().iter().enumerate() {
        let shard = ShardId {
            index: index.id,
            number: number as u32,
        };
        if !shard_stands(alloc, image, root, shard, *generation)? {
            return Ok(false);
        }
    }
    Ok(true)
}

/// The same of each shard of a root.
pub fn indices_stand(alloc: Global, image: &Image, root: &RootData) -> Result<bool, AllocError>
    ensures { IfOk result (λ b. Always (λ f. IsTrue b ↔ ((i k g : ℕ) → Generation (root_of root.now) i k g → IndexStands f (At f image.now) (root_of root.now) i k g))) }
{
    for index in root.indices.as_slice() {
        if !shards_stand(alloc, image, root, index)? {
            return Ok(false);
        }
    }
    Ok(true)
}
