//! What stored blobs read as. Want of memory is the only error.
ghost use Rattle.std.specs.Prelude.{◌≡◌, ◌≢◌, ◌↔◌, IfOk, IsTrue, Some, option_map};
ghost use Rattle.esr_formats.specs.Names.{name_of, name_kind};
ghost use Rattle.esr_formats.specs.Roots.{root_of};
ghost use Rattle.esr_formats.specs.Infos.{info_of_code};
ghost use Rattle.esr_formats.specs.Globals.{global_of_code};
ghost use Rattle.esr_formats.specs.IndexMetas.{index_meta_of};
ghost use Rattle.esr_formats.specs.Shards.{shard_snap_of, shard_index_of};
ghost use Rattle.esr_model.specs.Names.{Latest, Root, Snap, Meta, IndexMeta as MetaOfIndex, ShardSnap as SnapOfShard, ShardIndex as IndexOfShard};
ghost use Rattle.esr_model.specs.Image.{At, Reads};
ghost use Rattle.esr_plain.specs.Exactly.{Always, IsExactly};
ghost use Rattle.esr_plain.specs.Settled.{settled};

use crate::Image;
use esr_formats::{
    append_name, read_global, read_index_meta, read_info, read_name, read_root, read_shard_index,
    read_shard_snap,
};
use esr_json::ReadRefusal;
use esr_meta::{GlobalMeta, IndexMeta, SnapInfo};
use esr_names::{BlobName, Id, ShardId};
use esr_root::RootData;
use esr_seq::Bytes;
use esr_shardidx::{ShardIndex, ShardSnap};
use std::alloc::{AllocError, Global};

/// Whether the text reads as this name, and the name isn't that of `index.latest`, which nothing reads.
fn is_stored(name: &BlobName, text: &[u8]) -> bool
    ensures { IsTrue result ↔ ((name_kind.read text.now ≡ Some (name_of name.now)) × (name_of name.now ≢ Latest)) }
{
    match read_name(text) {
        Some(read) => read == *name && *name != BlobName::Latest,
        None => false,
    }
}

/// The bytes of a stored blob.
pub fn blob_at(alloc: Global, image: &Image, name: &BlobName) -> Result<Option<Bytes>, AllocError>
    ensures { IfOk result (λ o. Always (λ f. IsExactly (At f image.now (name_of name.now)) o)) }
{
    let mut text = Bytes::new(alloc);
    append_name(&mut text, name)?;
    if !is_stored(name, text.as_slice()) {
        return Ok(None);
    }
    match image.get(text.as_slice()) {
        Some(bytes) => Ok(Some(Bytes::from_slice(alloc, bytes)?)),
        None => Ok(None),
    }
}

/// What was read, or None where it is damaged.
fn undamaged<T>(read: Result<T, ReadRefusal>) -> Result<Option<T>, AllocError>
    ensures { result ≡ settled read }
{
    match read {
        Ok(value) => Ok(Some(value)),
        Err(ReadRefusal::Memory) => Err(AllocError),
        Err(ReadRefusal::Damaged { .. }) => Ok(None),
    }
}

/// The root of this generation.
pub fn root_at(alloc: Global, image: &Image, n: u64) -> Result<Option<RootData>, AllocError>
    ensures { IfOk result (λ o. Always (λ f. IsExactly (Reads (At f image.now) (Root n) f.root) (option_map root_of o))) }
{
    match blob_at(alloc, image, &BlobName::Root(n))? {
        Some(bytes) => undamaged(read_root(alloc, bytes.as_slice())),
        None => Ok(None),
    }
}

/// The info of a snapshot.
pub fn info_at(alloc: Global, image: &Image, uuid: Id) -> Result<Option<SnapInfo>, AllocError>
    ensures { IfOk result (λ o. Always (λ f. IsExactly (Reads (At f image.now) (Snap uuid.number) f.info) (option_map info_of_code o))) }
{
    match blob_at(alloc, image, &BlobName::Snap(uuid))? {
        Some(bytes) => undamaged(read_info(alloc, bytes.as_slice())),
        None => Ok(None),
    }
}

/// The global metadata of a snapshot.
pub fn global_at(alloc: Global, image: &Image, uuid: Id) -> Result<Option<GlobalMeta>, AllocError>
    ensures { IfOk result (λ o. Always (λ f. IsExactly (Reads (At f image.now) (Meta uuid.number) f.global) (option_map global_of_code o))) }
{
    match blob_at(alloc, image, &BlobName::Meta(uuid))? {
        Some(bytes) => undamaged(read_global(alloc, bytes.as_slice())),
        None => Ok(None),
    }
}

/// The metadata of an index in a snapshot.
pub fn index_meta_at(
    alloc: Global,
    image: &Image,
    index: Id,
    uuid: Id,
) -> Result<Option<IndexMeta>, AllocError>
    ensures { IfOk result (λ o. Always (λ f. IsExactly (Reads (At f image.now) (MetaOfIndex index.number uuid.number) f.index_meta) (option_map index_meta_of o))) }
{
    match blob_at(alloc, image, &BlobName::IndexMeta(index, uuid))? {
        Some(bytes) => undamaged(read_index_meta(alloc, bytes.as_slice())),
        None => Ok(None),
    }
}

/// What a snapshot has of a shard.
pub fn shard_snap_at(
    alloc: Global,
    image: &Image,
    shard: ShardId,
    uuid: Id,
) -> Result<Option<ShardSnap>, AllocError>
    ensures { IfOk result (λ o. Always (λ f. IsExactly (Reads (At f image.now) (SnapOfShard shard.index.number shard.number uuid.number) f.shard_snap) (option_map shard_snap_of o))) }
{
    match blob_at(alloc, image, &BlobName::ShardSnap(shard, uuid))? {
        Some(bytes) => undamaged(read_shard_snap(alloc, bytes.as_slice())),
        None => Ok(None),
    }
}

/// The index of a shard under a generation.
pub fn shard_index_at(
    alloc: Global,
    image: &Image,
    shard: ShardId,
    generation: Id,
) -> Result<Option<ShardIndex>, AllocError>
    ensures { IfOk result (λ o. Always (λ f. IsExactly (Reads (At f image.now) (IndexOfShard shard.index.number shard.number generation.number) f.shard_index) (option_map shard_index_of o))) }
{
    match blob_at(alloc, image, &BlobName::ShardIndex(shard, generation))? {
        Some(bytes) => undamaged(read_shard_index(alloc, bytes.as_slice())),
        None => Ok(None),
    }
}
