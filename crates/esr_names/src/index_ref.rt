//! An index as a command names it, and lists of ids, names and indices.

use crate::{Id, IndexName, SnapName};
use esr_seq::{Seq, TryClone};
use std::alloc::{AllocError, Global};

/// An index: its id, its name, and how many shards it has.
#[derive(Debug)]
pub struct IndexRef {
    pub id: Id,
    pub name: IndexName,
    pub shards: u32,
}

impl Drop for IndexRef {
    // Not derived: each crate above would prove a derived one again.
    fn drop(self) {
        let IndexRef {
            id: _,
            name: _name,
            shards: _,
        } = self;
    }
}

impl TryClone for IndexRef {
    fn try_clone(&self, alloc: Global) -> Result<IndexRef, AllocError> {
        Ok(IndexRef {
            id: self.id,
            name: self.name.try_clone(alloc)?,
            shards: self.shards,
        })
    }
}

/// Ids in order.
pub type Ids = Seq<Id>;

/// Indices in order.
pub type IndexRefs = Seq<IndexRef>;

/// Names of snapshots in order.
pub type SnapNames = Seq<SnapName>;

/// Names of indices in order.
pub type IndexNames = Seq<IndexName>;
