//! The bytes of stored files.
ghost use Rattle.std.specs.Prelude.{◌≡◌, ◌<◌, ◌+◌, ◌^◌, ◌↔◌, IfOk, IsTrue, length, map};
ghost use Rattle.std.specs.List.{AllByRecursion};
ghost use Rattle.esr_hash.specs.Prints.{print_of as print};
ghost use Rattle.esr_shardidx.specs.Entries.{IsEntry};
ghost use Rattle.esr_formats.specs.Shards.{entry_of};
ghost use Rattle.esr_model.specs.Image.{AllPairs, At, FileStands};
ghost use Rattle.esr_plain.specs.Exactly.{Always, IsExactly};
ghost use Rattle.esr_plain.specs.Joined.{IsJoined, IsStored};

use crate::reading::blob_at;
use crate::{File, Files, Image};
use esr_hash::{Hasher, Print};
use esr_names::ShardId;
use esr_seq::{Bytes, Seq, Text};
use esr_shardidx::{FileEntry, part_count, part_name};
use std::alloc::{AllocError, Global};

/// Whether the bytes may be part `k` of so many: each but the last has exactly the size.
fn is_cut(part: &[u8], size: u64, k: u64, count: u64) -> bool
    requires { k < count }
    ensures { IsTrue result ↔ (k + 1 < count → length part.now ≡ size) }
{
    k + 1 == count || part.len() as u64 == size
}

/// The parts of a file, joined: None where one isn't there, and where one before the last hasn't exactly the part size.
fn joined(
    alloc: Global,
    image: &Image,
    shard: ShardId,
    entry: &FileEntry,
) -> Result<Option<Bytes>, AllocError>
    requires { IsEntry entry.now }
    ensures { IfOk result (λ o. Always (λ f. IsExactly (IsJoined (At f image.now) shard.index.number shard.number (entry_of entry.now)) o)) }
{
    let count = part_count(entry.print.len, entry.part_size);
    let mut bytes = Bytes::new(alloc);
    for k in 0..count {
        let Some(part) = blob_at(alloc, image, &part_name(shard, entry, k))? else {
            return Ok(None);
        };
        if !is_cut(part.as_slice(), entry.part_size, k, count) {
            return Ok(None);
        }
        bytes.extend_from_slice(part.as_slice())?;
    }
    Ok(Some(bytes))
}

/// The print of fewer than 2^61 bytes.
fn print_of(bytes: &[u8]) -> Print
    requires { length bytes.now < 2 ^ 61 }
    ensures { result ≡ print bytes.now }
{
    let mut hasher = Hasher::start();
    hasher.feed(bytes);
    hasher.end()
}

/// The bytes of a stored file: None where it doesn't stand.
fn file_bytes(
    alloc: Global,
    image: &Image,
    shard: ShardId,
    entry: &FileEntry,
) -> Result<Option<Bytes>, AllocError>
    requires { IsEntry entry.now }
    ensures { IfOk result (λ o. Always (λ f. IsExactly (FileStands f (At f image.now) shard.index.number shard.number (entry_of entry.now)) o)) }
{
    let Some(bytes) = joined(alloc, image, shard, entry)? else {
        return Ok(None);
    };
    if bytes.len() as u64 != entry.print.len {
        return Ok(None);
    }
    if print_of(bytes.as_slice()).sha256 != entry.print.sha256 {
        return Ok(None);
    }
    Ok(Some(bytes))
}

/// The files of these entries, in their order: None where one doesn't stand.
pub fn stored_files(
    alloc: Global,
    image: &Image,
    shard: ShardId,
    entries: &[FileEntry],
) -> Result<Option<Files>, AllocError>
    requires { AllByRecursion IsEntry entries.now }
    ensures { IfOk result (λ o. Always (λ f. IsExactly (AllPairs (IsStored f (At f image.now) shard.index.number shard.number) (map entry_of entries.now)) o)) }
{
    let mut files = Seq::new(alloc);
    for entry in entries {
        let Some(bytes) = file_bytes(alloc, image, shard, entry)? else {
            return Ok(None);
        };
        let name = Text::from_str(alloc, entry.physical.as_str())?;
        files.push(File { name, bytes })?;
    }
    Ok(Some(files))
}
