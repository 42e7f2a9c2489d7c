//! The blobs of a file.
ghost use Rattle.std.specs.Prelude.{◌≡◌, ◌≤◌, ◌^◌};
ghost use Rattle.esr_shardidx.specs.Parts.{part_count, part_name};

use crate::FileEntry;
use esr_names::{BlobName, ShardId};

/// The number of blobs of a file of `len` bytes, where a blob has at most `size` bytes.
pub fn part_count(len: u64, size: u64) -> u64
    requires { (1 ≤ size) × (size ≤ 2 ^ 30) }
    ensures count { result ≡ part_count len size }
    ensures some { 1 ≤ result }
{
    if len <= size {
        1
    } else {
        len / size + u64::from(len % size != 0)
    }
}

/// The name of the blob with number `k`, from 0, of a file.
pub fn part_name(shard: ShardId, entry: &FileEntry, k: u64) -> BlobName
    ensures { result ≡ part_name shard entry.now k }
{
    if entry.print.len <= entry.part_size {
        BlobName::Whole(shard, entry.name)
    } else {
        BlobName::Part(shard, entry.name, k)
    }
}
