//! The generations of an index's shards.
ghost use Rattle.std.specs.Prelude.{◌≡◌, ◌<◌, ◌≤◌, ◌^◌, [], length, IfOk, OnOk, OnErr};
ghost use Rattle.esr_root.specs.Generations.{AreGenerations, IsGeneration, generation_in, padded, with_generation};

use esr_names::Id;
use esr_seq::{Seq, TryClone};
use std::alloc::{AllocError, Global};
use std::marker::Model;

/// The generation of each shard of an index by its number, or none: at most 1,024.
#[derive(Debug, Drop)]
pub struct Generations {
    items: Seq<Option<Id>>,
}

impl Model for Generations {
    ghost use Rattle.std.specs.Prelude.{List, Option};
    ghost use Rattle.esr_names.specs.declared.ids.Id.{Id};
    ghost use Rattle.esr_root.specs.Generations.{AreGenerations};

    ghost Value = { List (Option Id) };

    ghost view = { λ g. g.items };

    ghost invariant = { λ g. AreGenerations g.items };
}

impl Generations {
    /// No shards; asks for no memory.
    pub fn new(alloc: Global) -> Generations
        ensures { result ≡ [] }
    {
        Generations {
            items: Seq::new(alloc),
        }
    }

    /// The generations in order of the shards' numbers.
    pub(crate) fn from_items(items: Seq<Option<Id>>) -> Generations
        requires { AreGenerations items }
        ensures { result ≡ items }
    {
        Generations { items }
    }

    pub fn as_slice(&self) -> &[Option<Id>]
        ensures items { result.now ≡ self.now }
        ensures rule { AreGenerations self.now }
    {
        self.items.as_slice()
    }

    /// The generation of a shard: none also where the list has none for it.
    pub fn get(&self, shard: u32) -> Option<Id>
        ensures { result ≡ generation_in self.now shard }
    {
        self.items.as_slice().get(shard as usize).copied().flatten()
    }

    /// None at the end, as far as so many shards need it.
    pub(crate) fn padded(&self, alloc: Global, shards: u32) -> Result<Generations, AllocError>
        requires { shards ≤ 1024 }
        ensures { IfOk result (λ g. g ≡ padded shards self.now) }
    {
        let mut items = Seq::from_slice(alloc, self.as_slice())?;
        let missing = (shards as usize).saturating_sub(items.len());
        for _ in 0..missing {
            items.push(None)?;
        }
        Ok(Generations { items })
    }

    /// Another generation of a shard.
    pub(crate) fn with(
        &self,
        alloc: Global,
        shard: u32,
        to: Option<Id>,
    ) -> Result<Generations, AllocError>
        requires { shard < 1024 }
        ensures { IfOk result (λ g. g ≡ with_generation self.now shard to) }
    {
        let mut items = self.padded(alloc, shard + 1)?.items.into_vec();
        items[shard as usize] = to;
        Ok(Generations {
            items: Seq::from_vec(items),
        })
    }
}

impl TryClone for Generations {
    fn try_clone(&self, alloc: Global) -> Result<Generations, AllocError> {
        Ok(Generations {
            items: Seq::from_slice(alloc, self.items.as_slice())?,
        })
    }
}

/// The id of a generation fits its type.
pub(crate) fn rule(generation: Option<Id>)
    ensures { IsGeneration generation }
{
    if let Some(id) = generation {
        let _number = id.number;
    }
}
