//! The index of a shard.
ghost use Rattle.std.specs.Prelude.{◌≡◌, [], find};
ghost use Rattle.std.specs.Option.{option_copied};
ghost use Rattle.esr_shardidx.specs.Snapshots.{has_name};
ghost use Rattle.esr_shardidx.specs.Indices.{has_uuid, is_same, IsShardIndex};

use crate::{FileEntries, FileEntry, PhysicalName};
use esr_hash::Print;
use esr_names::{Id, Ids};
use esr_seq::{Seq, TryClone};
use std::alloc::{AllocError, Global};
use std::marker::Model;

/// The files of a shard that a snapshot has.
#[derive(Debug)]
pub struct SnapList {
    /// The ids of the files, in byte order of their physical names.
    pub files: Ids,
    /// The snapshot's id.
    pub uuid: Id,
}

impl Drop for SnapList {
    // Not derived: each crate above would prove a derived one again.
    fn drop(self) {
        let SnapList {
            files: _files,
            uuid: _,
        } = self;
    }
}

impl TryClone for SnapList {
    fn try_clone(&self, alloc: Global) -> Result<SnapList, AllocError> {
        Ok(SnapList {
            files: Ids::from_slice(alloc, self.files.as_slice())?,
            uuid: self.uuid,
        })
    }
}

/// Lists in order.
pub type SnapLists = Seq<SnapList>;

/// The stored files of a shard, rising by id, and the files that each snapshot has, in the order in
/// which the snapshots were added. Each file is one that some snapshot has, each that a snapshot has
/// is there, and no snapshot has two lists.
#[derive(Debug)]
pub struct ShardIndex {
    pub(crate) files: FileEntries,
    pub(crate) snapshots: SnapLists,
}

impl Drop for ShardIndex {
    // Not derived: each crate above would prove a derived one again.
    fn drop(self) {
        let ShardIndex {
            files: _files,
            snapshots: _snapshots,
        } = self;
    }
}

impl Model for ShardIndex {
    ghost use Rattle.esr_shardidx.specs.Indices.{IndexValue, IsShardIndex};

    ghost Value = { IndexValue };

    ghost view = { λ i. record { files = i.files; snapshots = i.snapshots } };

    ghost invariant = { λ i. IsShardIndex (record { files = i.files; snapshots = i.snapshots }) };
}

impl ShardIndex {
    /// The index of a shard without snapshots.
    pub fn new(alloc: Global) -> ShardIndex
        ensures { result ≡ record { files = []; snapshots = [] } }
    {
        ShardIndex {
            files: Seq::new(alloc),
            snapshots: Seq::new(alloc),
        }
    }

    /// The files.
    pub fn files(&self) -> &[FileEntry]
        ensures files { result.now ≡ self.now.files }
        ensures whole { IsShardIndex self.now }
    {
        self.files.as_slice()
    }

    /// The lists of the snapshots.
    pub fn snapshots(&self) -> &[SnapList]
        ensures { result.now ≡ self.now.snapshots }
    {
        self.snapshots.as_slice()
    }

    /// The list of a snapshot, if the index has the snapshot.
    pub fn list(&self, uuid: Id) -> Option<&SnapList>
        ensures { option_copied result ≡ find (has_uuid uuid) self.now.snapshots }
    {
        self.snapshots().iter().find(|list| list.uuid == uuid)
    }

    /// The entry of the file with this id, if the index has it.
    pub fn file(&self, name: Id) -> Option<&FileEntry>
        ensures { option_copied result ≡ find (has_name name) self.now.files }
    {
        self.files().iter().find(|entry| entry.name == name)
    }

    /// The first entry of a file of this name with these bytes, as their print tells.
    pub fn same_file(&self, physical: &PhysicalName, print: &Print) -> Option<&FileEntry>
        ensures { option_copied result ≡ find (is_same physical.now print.now) self.now.files }
    {
        self.files().iter().find(|entry| {
            entry.physical.as_str() == physical.as_str()
                && entry.print.len == print.len
                && entry.print.sha256 == print.sha256
        })
    }
}
