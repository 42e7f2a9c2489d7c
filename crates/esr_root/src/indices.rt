//! The indices of a root.
ghost use Rattle.std.specs.Prelude.{◌≡◌, ◌<◌, ◌≤◌, [], IfOk, OnOk};
ghost use Rattle.esr_root.specs.Changes.{set_generation_in, thinned, grown};
ghost use Rattle.esr_root.specs.Indices.{AreIndices};

use crate::Generations;
use crate::read::has_id;
use esr_names::{Id, Ids, IndexName};
use esr_seq::{Seq, TryClone};
use std::alloc::{AllocError, Global};
use std::marker::Model;

/// An index that a root lists, with the uuids of its snapshots.
#[derive(Debug)]
pub struct RootIndex {
    pub name: IndexName,
    pub id: Id,
    pub snapshots: Ids,
    pub generations: Generations,
}

impl Drop for RootIndex {
    // Not derived: each crate above would prove a derived one again.
    fn drop(self) {
        let RootIndex {
            name: _name,
            id: _,
            snapshots: _snapshots,
            generations: _generations,
        } = self;
    }
}

impl TryClone for RootIndex {
    fn try_clone(&self, alloc: Global) -> Result<RootIndex, AllocError> {
        Ok(RootIndex {
            name: self.name.try_clone(alloc)?,
            id: self.id,
            snapshots: Seq::from_slice(alloc, self.snapshots.as_slice())?,
            generations: self.generations.try_clone(alloc)?,
        })
    }
}

impl RootIndex {
    /// The index with another generation of a shard, where it has the name.
    pub(crate) fn with_generation(
        &self,
        alloc: Global,
        name: &IndexName,
        shard: u32,
        to: Option<Id>,
    ) -> Result<RootIndex, AllocError>
        requires { shard < 1024 }
        ensures { IfOk result (λ i. i ≡ set_generation_in name.now shard to self.now) }
    {
        let mut copy = self.try_clone(alloc)?;
        if copy.name == *name {
            copy.generations = copy.generations.with(alloc, shard, to)?;
        }
        Ok(copy)
    }

    /// The index without some snapshots; it may have none then.
    pub(crate) fn without(&self, alloc: Global, uuids: &[Id]) -> Result<RootIndex, AllocError>
        ensures { IfOk result (λ i. i ≡ thinned uuids.now self.now) }
    {
        let mut snapshots = Seq::new(alloc);
        for uuid in self.snapshots.as_slice() {
            if !has_id(uuids, *uuid) {
                snapshots.push(*uuid)?;
            }
        }
        Ok(RootIndex {
            name: self.name.try_clone(alloc)?,
            id: self.id,
            snapshots,
            generations: self.generations.try_clone(alloc)?,
        })
    }

    /// One more snapshot at the end, and a place for each of so many shards.
    pub(crate) fn grow(&mut self, alloc: Global, uuid: Id, shards: u32) -> Result<(), AllocError>
        requires { shards ≤ 1024 }
        ensures { OnOk result (self.new ≡ grown uuid shards self.old) }
    {
        self.generations = self.generations.padded(alloc, shards)?;
        self.snapshots.push(uuid)?;
        Ok(())
    }
}

/// Indices in byte order of their names: each has a snapshot, and no name and no id stands twice.
#[derive(Debug, Drop)]
pub struct RootIndices {
    items: Seq<RootIndex>,
}

impl Model for RootIndices {
    ghost use Rattle.std.specs.Prelude.{List};
    ghost use Rattle.esr_root.specs.declared.indices.RootIndex.{RootIndex};
    ghost use Rattle.esr_root.specs.Indices.{AreIndices};

    ghost Value = { List RootIndex };

    ghost view = { λ i. i.items };

    ghost invariant = { λ i. AreIndices i.items };
}

impl RootIndices {
    /// No indices; asks for no memory.
    pub fn new(alloc: Global) -> RootIndices
        ensures { result ≡ [] }
    {
        RootIndices {
            items: Seq::new(alloc),
        }
    }

    pub(crate) fn into_vec(self) -> Vec<RootIndex>
        ensures { result.items ≡ self }
    {
        self.items.into_vec()
    }

    pub(crate) fn from_items(items: Seq<RootIndex>) -> RootIndices
        requires { AreIndices items }
        ensures { result ≡ items }
    {
        RootIndices { items }
    }

    pub fn as_slice(&self) -> &[RootIndex]
        ensures items { result.now ≡ self.now }
        ensures rule { AreIndices self.now }
    {
        self.items.as_slice()
    }
}

impl TryClone for RootIndices {
    fn try_clone(&self, alloc: Global) -> Result<RootIndices, AllocError> {
        Ok(RootIndices {
            items: self.items.try_clone(alloc)?,
        })
    }
}
