//! What is planned for the files of a shard.
ghost use Rattle.std.specs.Prelude.{◌≡◌, IfOk, option_map};
ghost use Rattle.esr_model.specs.Uploads.{reused};
ghost use Rattle.esr_formats.specs.Shards.{entry_of, shard_index_of};
ghost use Rattle.esr_reuse.specs.Plans.{IsPlan};

use esr_hash::Print;
use esr_seq::{Seq, TryClone};
use esr_shardidx::{FileEntry, PhysicalName, ShardIndex};
use std::alloc::{AllocError, Global};

/// A file of a shard that was read: its name where it was taken from, and its print.
#[derive(Drop)]
pub struct ReadFile {
    pub physical: PhysicalName,
    pub print: Print,
}

/// Files in order.
pub type ReadFiles = Seq<ReadFile>;

/// A file of a shard with the entry of the base that it reuses, if there is one.
#[derive(Drop)]
pub struct Planned {
    pub physical: PhysicalName,
    pub print: Print,
    pub reused: Option<FileEntry>,
}

/// Plans in the order of their files.
pub type Plans = Seq<Planned>;

/// A copy of the base's first entry of this name, length and digest, if it has one.
pub fn reusable(
    alloc: Global,
    base: &ShardIndex,
    physical: &PhysicalName,
    print: &Print,
) -> Result<Option<FileEntry>, AllocError>
    ensures { IfOk result (λ o. option_map entry_of o ≡ reused (shard_index_of base.now).files physical.now print.now.len print.now.sha256) }
{
    match base.same_file(physical, print) {
        Some(entry) => Ok(Some(entry.try_clone(alloc)?)),
        None => Ok(None),
    }
}

/// What each file reuses of the base.
pub fn plan(alloc: Global, base: &ShardIndex, files: &[ReadFile]) -> Result<Plans, AllocError>
    ensures { IfOk result (λ plans. IsPlan (shard_index_of base.now).files files.now plans) }
{
    let mut plans = Seq::new(alloc);
    for file in files {
        plans.push(Planned {
            physical: file.physical.try_clone(alloc)?,
            print: file.print,
            reused: reusable(alloc, base, &file.physical, &file.print)?,
        })?;
    }
    Ok(plans)
}
