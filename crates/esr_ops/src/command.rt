//! What a caller asks for.

use esr_names::{IndexName, IndexNames, SnapName, SnapNames};
use esr_seq::{Seq, Text, TryClone};
use std::alloc::{AllocError, Global};

/// An index that a snapshot is to hold.
pub struct AskedIndex {
    pub name: IndexName,
    /// The count of its shards, 1 to 1,024.
    pub shards: u32,
    /// Where its files are.
    pub place: Text,
}

impl Drop for AskedIndex {
    // Not derived: each crate above would prove a derived one again.
    fn drop(self) {
        let AskedIndex {
            name: _name,
            shards: _,
            place: _place,
        } = self;
    }
}

impl TryClone for AskedIndex {
    fn try_clone(&self, alloc: Global) -> Result<AskedIndex, AllocError> {
        Ok(AskedIndex {
            name: self.name.try_clone(alloc)?,
            shards: self.shards,
            place: self.place.try_clone(alloc)?,
        })
    }
}

/// The indices of a snapshot, in the order of the command.
pub type AskedIndices = Seq<AskedIndex>;

/// A command.
pub enum Command {
    /// Makes a snapshot of these indices.
    Create {
        name: SnapName,
        indices: AskedIndices,
        moment: u64,
    },
    /// Makes a snapshot of what another one has of these indices, of all where none is named.
    Clone {
        source: SnapName,
        name: SnapName,
        indices: IndexNames,
        moment: u64,
    },
    Delete {
        names: SnapNames,
    },
    /// Restores the files of a snapshot below a place.
    Restore {
        name: SnapName,
        place: Text,
    },
    /// Removes what the root doesn't reach.
    Cleanup,
}

impl Drop for Command {
    // Not derived: each crate above would prove a derived one again.
    fn drop(self) {
        match self {
            Command::Create {
                name: _name,
                indices: _indices,
                moment: _,
            } => {}
            Command::Clone {
                source: _source,
                name: _name,
                indices: _indices,
                moment: _,
            } => {}
            Command::Delete { names: _names } => {}
            Command::Restore {
                name: _name,
                place: _place,
            } => {}
            Command::Cleanup => {}
        }
    }
}

/// A command was accepted as this op, for which so many ids were drawn.
#[derive(Clone, Copy)]
pub struct Accepted {
    pub op: u64,
    pub drawn: u64,
}

impl TryClone for Command {
    fn try_clone(&self, alloc: Global) -> Result<Command, AllocError> {
        match self {
            Command::Create {
                name,
                indices,
                moment,
            } => Ok(Command::Create {
                name: name.try_clone(alloc)?,
                indices: indices.try_clone(alloc)?,
                moment: *moment,
            }),
            Command::Clone {
                source,
                name,
                indices,
                moment,
            } => Ok(Command::Clone {
                source: source.try_clone(alloc)?,
                name: name.try_clone(alloc)?,
                indices: indices.try_clone(alloc)?,
                moment: *moment,
            }),
            Command::Delete { names } => {
                let names = names.try_clone(alloc)?;
                Ok(Command::Delete { names })
            }
            Command::Restore { name, place } => Ok(Command::Restore {
                name: name.try_clone(alloc)?,
                place: place.try_clone(alloc)?,
            }),
            Command::Cleanup => Ok(Command::Cleanup),
        }
    }
}
