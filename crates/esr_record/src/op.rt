//! The ops of a record.

use esr_names::{Id, Ids, IndexRefs, SnapName};
use esr_seq::TryClone;
use std::alloc::{AllocError, Global};

/// The snapshot that an op makes: its indices in the command's order, its moment, name and uuid.
pub struct Making {
    pub indices: IndexRefs,
    pub moment: u64,
    pub name: SnapName,
    pub uuid: Id,
}

impl Drop for Making {
    // Not derived: each crate above would prove a derived one again.
    fn drop(self) {
        let Making {
            indices: _indices,
            moment: _,
            name: _name,
            uuid: _,
        } = self;
    }
}

/// What an op does.
#[derive(Drop)]
pub enum OpWork {
    /// Makes a snapshot.
    Create { info: Making },
    /// Makes a snapshot out of the one with the uuid `source`.
    Clone { info: Making, source: Id },
    /// Deletes the snapshots with these uuids.
    Delete { uuids: Ids },
    /// Removes what no snapshot reaches.
    Cleanup,
}

/// An open op, by its number.
pub struct RecordOp {
    pub op: u64,
    pub work: OpWork,
}

impl Drop for RecordOp {
    // Not derived: each crate above would prove a derived one again.
    fn drop(self) {
        let RecordOp { op: _, work: _work } = self;
    }
}

impl TryClone for Making {
    fn try_clone(&self, alloc: Global) -> Result<Making, AllocError> {
        Ok(Making {
            indices: self.indices.try_clone(alloc)?,
            moment: self.moment,
            name: self.name.try_clone(alloc)?,
            uuid: self.uuid,
        })
    }
}

impl TryClone for OpWork {
    fn try_clone(&self, alloc: Global) -> Result<OpWork, AllocError> {
        match self {
            OpWork::Create { info } => Ok(OpWork::Create {
                info: info.try_clone(alloc)?,
            }),
            OpWork::Clone { info, source } => Ok(OpWork::Clone {
                info: info.try_clone(alloc)?,
                source: *source,
            }),
            OpWork::Delete { uuids } => Ok(OpWork::Delete {
                uuids: Ids::from_slice(alloc, uuids.as_slice())?,
            }),
            OpWork::Cleanup => Ok(OpWork::Cleanup),
        }
    }
}

impl TryClone for RecordOp {
    fn try_clone(&self, alloc: Global) -> Result<RecordOp, AllocError> {
        Ok(RecordOp {
            op: self.op,
            work: self.work.try_clone(alloc)?,
        })
    }
}
