//! A shard of a snapshot.
ghost use Rattle.std.specs.Prelude.{◌≡◌, IfOk, option_map};
ghost use Rattle.esr_formats.specs.Ids.{number_of};
ghost use Rattle.esr_formats.specs.Roots.{root_of};
ghost use Rattle.esr_model.specs.Image.{At, ShardStands, index_at, at_shard_of};
ghost use Rattle.esr_plain.specs.Exactly.{Always, IsExactly};
ghost use Rattle.esr_plain.specs.Joined.{HasFiles};
ghost use Rattle.esr_plain.specs.Places.{place_of};

use crate::files::stored_files;
use crate::places::Place;
use crate::reading::{shard_index_at, shard_snap_at};
use crate::{Files, Image, ShelfShard};
use esr_agreement::lists;
use esr_names::{Id, ShardId};
use esr_root::RootData;
use esr_seq::Text;
use std::alloc::{AllocError, Global};

/// The generation of a shard in a root, by the id of its index.
fn generation(root: &RootData, shard: ShardId) -> Option<Id>
    ensures { option_map number_of result ≡ at_shard_of (index_at (root_of root.now).indices shard.index.number) shard.number }
{
    for index in root.indices.as_slice() {
        if index.id.number == shard.index.number {
            return index.generations.get(shard.number);
        }
    }
    None
}

/// The files that a snapshot has of a shard: None where they don't stand.
fn shard_files(
    alloc: Global,
    image: &Image,
    shard: ShardId,
    generation: Id,
    uuid: Id,
) -> Result<Option<Files>, AllocError>
    ensures { IfOk result (λ o. Always (λ f. IsExactly (HasFiles f (At f image.now) shard.index.number shard.number generation.number uuid.number) o)) }
{
    let Some(snap) = shard_snap_at(alloc, image, shard, uuid)? else {
        return Ok(None);
    };
    let Some(held) = shard_index_at(alloc, image, shard, generation)? else {
        return Ok(None);
    };
    if !lists(&held, uuid, snap.files()) {
        return Ok(None);
    }
    stored_files(alloc, image, shard, snap.files())
}

/// A shard of a snapshot: None where it doesn't stand.
pub fn shelf_shard(
    alloc: Global,
    image: &Image,
    root: &RootData,
    uuid: Id,
    place: &Place,
) -> Result<Option<ShelfShard>, AllocError>
    ensures { IfOk result (λ o. Always (λ f. IsExactly (ShardStands f (At f image.now) (root_of root.now) uuid.number (place_of place.now)) o)) }
{
    let shard = ShardId {
        index: place.index.id,
        number: place.number,
    };
    let Some(generation) = generation(root, shard) else {
        return Ok(None);
    };
    let Some(files) = shard_files(alloc, image, shard, generation, uuid)? else {
        return Ok(None);
    };
    let index = Text::from_str(alloc, place.index.name.as_str())?;
    Ok(Some(ShelfShard {
        index,
        number: place.number,
        files,
    }))
}
