//! Shard indices as they were read.
ghost use Rattle.std.specs.Prelude.{◌≡◌, ◌↔◌, [], IsTrue, OnOk, OnErr, option_map};
ghost use Rattle.std.specs.Option.{option_copied};
ghost use Rattle.esr_formats.specs.Roots.{root_of, root_index_of};
ghost use Rattle.esr_formats.specs.Shards.{shard_index_of};
ghost use Rattle.esr_reach.specs.Held.{held_at, Holds, AreWhole, AreApart};
ghost use Rattle.esr_reach.specs.Reading.{HasEach, HasShards};

use esr_names::ShardId;
use esr_root::{RootData, RootIndex};
use esr_shardidx::ShardIndex;
use std::alloc::{AllocError, Global};
use std::collections::BTreeMap;
use std::marker::Model;

/// Shard indices as they were read, each by its shard.
#[derive(Drop)]
pub struct ShardIndices {
    by_shard: BTreeMap<ShardId, ShardIndex>,
}

impl Model for ShardIndices {
    ghost use Rattle.std.specs.Prelude.{List, map};
    ghost use Rattle.std.specs.List.{AllByRecursion};
    ghost use Rattle.esr_shardidx.specs.Indices.{IsShardIndex};
    ghost use Rattle.esr_reach.specs.Held.{HeldShard, held_of};

    ghost Value = { List HeldShard };

    ghost view = { λ s. map held_of s.by_shard.entries };

    ghost invariant = { λ s. AllByRecursion (λ e. IsShardIndex e.1) s.by_shard.entries };
}

impl ShardIndices {
    /// None yet; asks for no memory.
    pub fn new(alloc: Global) -> ShardIndices
        ensures { result ≡ [] }
    {
        ShardIndices {
            by_shard: BTreeMap::new(alloc),
        }
    }

    /// Holds the index of a shard in place of the one that is held, if there is one.
    pub fn insert(&mut self, shard: ShardId, index: ShardIndex) -> Result<(), AllocError>
        ensures ok { OnOk result (Holds self.old self.new shard.index.number shard.number (shard_index_of index)) }
        ensures err { OnErr result (self.new ≡ self.old) }
    {
        let _files = index.files();
        self.by_shard.insert(shard, index)?;
        Ok(())
    }

    /// The index that is held of a shard.
    pub fn get(&self, shard: ShardId) -> Option<&ShardIndex>
        ensures { option_map shard_index_of (option_copied result) ≡ held_at self.now shard.index.number shard.number }
    {
        self.by_shard.get(&shard)
    }

    /// Each keeps the rules of shard indices.
    pub fn whole(&self)
        ensures { AreWhole self.now }
    {
        let _ = &self.by_shard;
    }

    /// No file and no snapshot of a shard stands twice.
    pub(crate) fn rule(&self)
        ensures { AreApart self.now }
    {
        let _ = &self.by_shard;
    }

    /// Whether an index is held of each shard of an index that has a generation.
    fn has_shards(&self, index: &RootIndex) -> bool
        ensures { IsTrue result ↔ HasShards (root_index_of index.now) self.now }
    {
        for (number, generation) in index.generations.as_slice().iter().enumerate() {
            let shard = ShardId {
                index: index.id,
                number: number as u32,
            };
            if generation.is_some() && self.get(shard).is_none() {
                return false;
            }
        }
        true
    }

    /// Whether an index is held of each shard of a root that has a generation.
    pub fn has_each(&self, root: &RootData) -> bool
        ensures { IsTrue result ↔ HasEach (root_of root.now) self.now }
    {
        for index in root.indices.as_slice() {
            if !self.has_shards(index) {
                return false;
            }
        }
        true
    }
}
