//! What a root lists.
ghost use Rattle.std.specs.Prelude.{◌≡◌};
ghost use Rattle.std.specs.List.{AllByRecursion};
ghost use Rattle.esr_root.specs.Indices.{IsListed};
ghost use Rattle.esr_root.specs.Root.{empty_root, IsRoot};
ghost use Rattle.esr_root.specs.Changes.{generation_among, generation_at};

use crate::{RootIndex, RootIndices, RootSnaps};
use esr_names::{Id, IndexName};
use esr_seq::TryClone;
use std::alloc::{AllocError, Global};
use std::marker::Model;

/// The snapshots in order of finalization, and the indices in byte order of their names.
/// Each snapshot of an index is listed.
#[derive(Debug)]
pub struct RootData {
    pub snapshots: RootSnaps,
    pub indices: RootIndices,
}

impl Drop for RootData {
    // Not derived, so that it is one call at each early exit.
    fn drop(self) {
        let RootData {
            snapshots: _snapshots,
            indices: _indices,
        } = self;
    }
}

impl Model for RootData {
    ghost use Rattle.esr_root.specs.Root.{Root, IsRoot};

    ghost Value = { Root };

    ghost view = { λ r. record { snapshots = r.snapshots; indices = r.indices } };

    ghost invariant = { λ r. IsRoot (record { snapshots = r.snapshots; indices = r.indices }) };
}

impl RootData {
    /// The root before the first snapshot; asks for no memory.
    pub fn new(alloc: Global) -> RootData
        ensures { result ≡ empty_root }
    {
        RootData {
            snapshots: RootSnaps::new(alloc),
            indices: RootIndices::new(alloc),
        }
    }

    /// The root of its parts.
    pub(crate) fn from_parts(snapshots: RootSnaps, indices: RootIndices) -> RootData
        requires { AllByRecursion (IsListed snapshots) indices }
        ensures { result ≡ record { snapshots = snapshots; indices = indices } }
    {
        let _snaps = snapshots.as_slice();
        let _indices = indices.as_slice();
        RootData { snapshots, indices }
    }

    /// No name, uuid or id stands twice, names rise, and each snapshot of an index is listed.
    pub(crate) fn rule(&self)
        ensures { IsRoot self.now }
    {
        let _ = &self.snapshots;
    }

    /// The generation of a shard of an index: none also where the root has no index of the name.
    pub fn generation(&self, index: &IndexName, shard: u32) -> Option<Id>
        ensures { result ≡ generation_at self.now index.now shard }
    {
        generation_among(self.indices.as_slice(), index, shard)
    }
}

impl TryClone for RootData {
    fn try_clone(&self, alloc: Global) -> Result<RootData, AllocError> {
        let snapshots = self.snapshots.try_clone(alloc)?;
        let indices = self.indices.try_clone(alloc)?;
        Ok(RootData { snapshots, indices })
    }
}

fn generation_among(indices: &[RootIndex], name: &IndexName, shard: u32) -> Option<Id>
    ensures { result ≡ generation_among indices.now name.now shard }
{
    for index in indices {
        if index.name == *name {
            return index.generations.get(shard);
        }
    }
    None
}
