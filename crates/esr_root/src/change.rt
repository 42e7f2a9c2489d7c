//! New roots out of old ones.
ghost use Rattle.std.specs.Prelude.{◌≡◌, ◌<◌, ◌≤◌, ℕ, List, true, Option, IfOk, OnOk};
ghost use Rattle.std.specs.List.{list_any};
ghost use Rattle.esr_root.specs.Root.{IsOrdered};
ghost use Rattle.esr_root.specs.Indices.{is_named, place_from, IsRef};
ghost use Rattle.esr_root.specs.Changes.{MayAdd, add_of, first, with_index, without_of, set_generation_of, generation_at};

use crate::read::keep;
use crate::{Generations, RootData, RootIndex, RootIndices, RootSnap, generations};
use esr_names::{Id, Ids, IndexName, IndexRef, IndexRefs};
use esr_seq::{Seq, TryClone};
use std::alloc::{AllocError, Global};
use std::cmp::Ordering;

/// Where a name stands, or where it belongs.
fn place(indices: &[RootIndex], name: &str) -> Result<usize, usize>
    ensures { result ≡ place_from 0 name.now indices.now }
{
    for (at, index) in indices.iter().enumerate() {
        match name.cmp(index.name.as_str()) {
            Ordering::Less => return Err(at),
            Ordering::Equal => return Ok(at),
            Ordering::Greater => {}
        }
    }
    Err(indices.len())
}

/// Its name keeps the rules of names, and its id fits its type.
fn rule(index: &IndexRef)
    ensures { IsRef index.now }
{
    let _name = index.name.as_str();
    let _id = index.id.number;
}

/// The index of a first snapshot.
fn first(alloc: Global, uuid: Id, index: &IndexRef) -> Result<RootIndex, AllocError>
    requires { index.now.shards ≤ 1024 }
    ensures { IfOk result (λ i. i ≡ first uuid index.now) }
{
    let mut snapshots = Seq::new(alloc);
    snapshots.push(uuid)?;
    Ok(RootIndex {
        name: index.name.try_clone(alloc)?,
        id: index.id,
        snapshots,
        generations: Generations::new(alloc).padded(alloc, index.shards)?,
    })
}

/// One more snapshot of an index, which comes to its place where there is none of its name.
fn enlist(
    alloc: Global,
    indices: &mut Vec<RootIndex>,
    uuid: Id,
    index: &IndexRef,
) -> Result<(), AllocError>
    requires { index.now.shards ≤ 1024 }
    ensures { OnOk result (indices.new.items ≡ with_index uuid index.now indices.old.items) }
{
    match place(indices.as_slice(), index.name.as_str()) {
        Ok(at) => indices[at].grow(alloc, uuid, index.shards),
        Err(at) => {
            indices.insert(at, first(alloc, uuid, index)?)?;
            Ok(())
        }
    }
}

impl RootData {
    /// The root with a snapshot at its end, and at the end of the list of each of these indices. An
    /// index that the root doesn't have comes in; each has a place for the generation of each shard.
    pub fn add(
        &self,
        alloc: Global,
        snap: &RootSnap,
        indices: &IndexRefs,
    ) -> Result<RootData, AllocError>
        requires { MayAdd self.now snap.now indices.now }
        ensures value { IfOk result (λ r. r ≡ add_of self.now snap.now indices.now) }
        ensures generations { IfOk result (λ r. (name : List ℕ) (k : ℕ)
            → generation_at r name k ≡ generation_at self.now name k) }
        ensures order { IsOrdered self.now → IfOk result IsOrdered }
    {
        self.rule();
        snap.rule();
        let mut snapshots = self.snapshots.try_clone(alloc)?;
        snapshots.push(snap.try_clone(alloc)?)?;
        let mut items = self.indices.try_clone(alloc)?.into_vec();
        for index in indices.as_slice() {
            rule(index);
            enlist(alloc, &mut items, snap.uuid, index)?;
        }
        let indices = RootIndices::from_items(Seq::from_vec(items));
        Ok(RootData::from_parts(snapshots, indices))
    }

    /// The root without the snapshots of these uuids, and without the indices that have no other.
    pub fn without(&self, alloc: Global, uuids: &Ids) -> Result<RootData, AllocError>
        ensures value { IfOk result (λ r. r ≡ without_of self.now uuids.now) }
        ensures generations { IfOk result (λ r. (name : List ℕ) (k : ℕ)
            → list_any (is_named name) r.indices ≡ true
            → generation_at r name k ≡ generation_at self.now name k) }
        ensures order { IsOrdered self.now → IfOk result IsOrdered }
    {
        self.rule();
        let snapshots = self.snapshots.without(alloc, uuids.as_slice())?;
        let mut items = Seq::new(alloc);
        for index in self.indices.as_slice() {
            keep(&mut items, index.without(alloc, uuids.as_slice())?)?;
        }
        let indices = RootIndices::from_items(items);
        Ok(RootData::from_parts(snapshots, indices))
    }

    /// The root with another generation of a shard. Where the list of generations is too short, it
    /// is made longer by none.
    pub fn set_generation(
        &self,
        alloc: Global,
        index: &IndexName,
        shard: u32,
        to: Option<Id>,
    ) -> Result<RootData, AllocError>
        requires known { list_any (is_named index.now) self.now.indices ≡ true }
        requires shard { shard < 1024 }
        ensures value { IfOk result (λ r. r ≡ set_generation_of self.now index.now shard to) }
        ensures there { IfOk result (λ r. generation_at r index.now shard ≡ to) }
        ensures elsewhere { IfOk result (λ r. (name : List ℕ) (k : ℕ)
            → ¬ ((name ≡ index.now) × (k ≡ shard))
            → generation_at r name k ≡ generation_at self.now name k) }
        ensures order { IsOrdered self.now → IfOk result IsOrdered }
    {
        self.rule();
        generations::rule(to);
        let snapshots = self.snapshots.try_clone(alloc)?;
        let mut items = Seq::new(alloc);
        for old in self.indices.as_slice() {
            items.push(old.with_generation(alloc, index, shard, to)?)?;
        }
        let indices = RootIndices::from_items(items);
        Ok(RootData::from_parts(snapshots, indices))
    }
}
