//! The entries of stored files.

use crate::PhysicalName;
use esr_hash::Print;
use esr_names::Id;
use esr_seq::{Seq, TryClone};
use std::alloc::{AllocError, Global};

/// A stored file of a shard.
#[derive(Debug)]
pub struct FileEntry {
    /// The id under which its bytes are stored.
    pub name: Id,
    /// Its name where it was taken from.
    pub physical: PhysicalName,
    /// Its length, in bytes, below 2^60, and its digest.
    pub print: Print,
    /// The most bytes of one of its blobs, 1 to 2^30.
    pub part_size: u64,
}

impl Drop for FileEntry {
    // Not derived: each crate above would prove a derived one again.
    fn drop(self) {
        let FileEntry {
            name: _,
            physical: _physical,
            print: _,
            part_size: _,
        } = self;
    }
}

/// Entries in order.
pub type FileEntries = Seq<FileEntry>;

impl TryClone for FileEntry {
    fn try_clone(&self, alloc: Global) -> Result<FileEntry, AllocError> {
        Ok(FileEntry {
            name: self.name,
            physical: self.physical.try_clone(alloc)?,
            print: self.print,
            part_size: self.part_size,
        })
    }
}
