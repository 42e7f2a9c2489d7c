//! What a snapshot has of a shard.
ghost use Rattle.std.specs.Prelude.{◌≡◌, ◌↔◌, ◌<◌, ◌^◌, true, [], IsSome, IfSome};
ghost use Rattle.esr_hash.specs.Digits.{IsPrint};
ghost use Rattle.esr_shardidx.specs.Entries.{is_sized, IsTyped};
ghost use Rattle.esr_shardidx.specs.Snapshots.{follows, are_snap_files, AreSnapFiles, IsShardSnap};

use crate::reading::{has_file, name_stays};
use crate::{FileEntries, FileEntry};
use esr_hash::Print;
use esr_names::Id;
use std::marker::Model;

/// The files of a shard that a snapshot has, in byte order of their physical names, and the
/// snapshot's id. No physical name and no id of a file stands twice.
#[derive(Debug, Drop)]
pub struct ShardSnap {
    pub(crate) files: FileEntries,
    pub(crate) uuid: Id,
}

impl Model for ShardSnap {
    ghost use Rattle.esr_shardidx.specs.Snapshots.{SnapValue, IsShardSnap};

    ghost Value = { SnapValue };

    ghost view = { λ s. record { files = s.files; uuid = s.uuid } };

    ghost invariant = { λ s. IsShardSnap (record { files = s.files; uuid = s.uuid }) };
}

/// What the types of an id and of a print say.
fn typed(name: Id, print: Print)
    ensures name { name.number < 2 ^ 128 }
    ensures print { IsPrint print }
{}

/// Whether the numbers of an entry are in their ranges.
fn is_sized(entry: &FileEntry) -> bool
    ensures sized { result ≡ is_sized entry.now }
    ensures typed { IsTyped entry.now }
{
    typed(entry.name, entry.print);
    let _text = entry.physical.as_str();
    entry.print.len < 1 << 60 && 1 <= entry.part_size && entry.part_size <= 1 << 30
}

/// Whether the entry may stand after the others.
fn follows(before: &[FileEntry], entry: &FileEntry) -> bool
    ensures follows { result ≡ follows before.now entry.now }
    ensures typed { IsTyped entry.now }
{
    is_sized(entry) && !name_stays(before, entry.physical.as_str()) && !has_file(before, entry.name)
}

/// Whether the entries may stand one after another.
fn are_snap_files(files: &[FileEntry]) -> bool
    ensures test { result ≡ are_snap_files [] files.now }
    ensures whole { result ≡ true → AreSnapFiles [] files.now }
{
    let mut place = 0;
    for entry in files {
        if !follows(&files[..place], entry) {
            return false;
        }
        place += 1;
    }
    true
}

impl ShardSnap {
    /// What a snapshot has of a shard. None where a number is out of its range, where a physical
    /// name isn't above the one before, and where the id of a file stands twice.
    pub fn new(files: FileEntries, uuid: Id) -> Option<ShardSnap>
        ensures made { IfSome result (λ s. s ≡ record { files = files; uuid = uuid }) }
        ensures exact { IsSome result ↔ (are_snap_files [] files ≡ true) }
    {
        if are_snap_files(files.as_slice()) {
            Some(ShardSnap { files, uuid })
        } else {
            None
        }
    }

    /// The same files, for another snapshot.
    pub fn under(self, uuid: Id) -> ShardSnap
        ensures { result ≡ record { files = self.files; uuid = uuid } }
    {
        ShardSnap {
            files: self.files,
            uuid,
        }
    }

    /// The files.
    pub fn files(&self) -> &[FileEntry]
        ensures files { result.now ≡ self.now.files }
        ensures whole { IsShardSnap self.now }
    {
        self.files.as_slice()
    }

    /// The snapshot's id.
    pub fn uuid(&self) -> Id
        ensures { result ≡ self.now.uuid }
    {
        self.uuid
    }
}
