//! An open restore.
ghost use Rattle.std.specs.Prelude.{◌≡◌, ◌<◌, map, length, IfOk, IfSome, slice_get, position};
ghost use Rattle.std.specs.List.{list_any};
ghost use Rattle.esr_core.specs.World.{marked, GivenUp};
ghost use Rattle.esr_core.specs.Steps.{given};
ghost use Rattle.esr_ops.specs.Shards.{is_pending, waits, state_of, waits_on, restore_before, AreShards};
ghost use Rattle.esr_ops.specs.Restores.{restore_with, IsOpenRestore, is_unread, is_waiting, IsRestoreWork};

use crate::Work;
use crate::shard::{self, OpenShard, ShardState};
use esr_names::{Id, IndexRefs, ShardId};
use esr_seq::{Text, TryClone};
use std::alloc::{AllocError, Global};
use std::marker::Model;

/// An open restore: its number, its snapshot, the place of the files, the indices, and their shards in order. A shard that is
/// over is given up, as nothing waits for it any more.
pub struct OpenRestore {
    number: u64,
    uuid: Id,
    place: Text,
    indices: IndexRefs,
    shards: Vec<OpenShard>,
}

impl Drop for OpenRestore {
    // Not derived: each crate above would prove a derived one again.
    fn drop(self) {
        let OpenRestore {
            number: _,
            uuid: _,
            place: _place,
            indices: _indices,
            shards: _shards,
        } = self;
    }
}

impl Model for OpenRestore {
    ghost use Rattle.std.specs.Prelude.{ℕ};
    ghost use Rattle.esr_ops.specs.Plan.{RestorePlan};
    ghost use Rattle.esr_ops.specs.Restores.{restore_with, IsOpenRestore};

    ghost Value = { ℕ × RestorePlan };

    ghost view = { λ a. (a.number, restore_with a.uuid a.place a.indices a.shards.items) };

    ghost invariant = { λ a. IsOpenRestore a.indices a.shards.items };
}

impl OpenRestore {
    /// A restore of these shards.
    pub fn new(
        number: u64,
        uuid: Id,
        place: Text,
        indices: IndexRefs,
        shards: Vec<OpenShard>,
    ) -> OpenRestore
        requires { IsOpenRestore indices shards.items }
        ensures { result ≡ (number, restore_with uuid place indices shards.items) }
    {
        OpenRestore {
            number,
            uuid,
            place,
            indices,
            shards,
        }
    }

    /// Its number.
    pub fn number(&self) -> u64
        ensures { result ≡ self.now.0 }
    {
        self.number
    }

    /// The uuid of its snapshot.
    pub fn uuid(&self) -> Id
        ensures { result.number ≡ self.now.1.uuid }
    {
        self.uuid
    }

    /// The place of the first shard that is unread.
    pub fn first_unread(&self) -> Option<usize>
        ensures { result ≡ position is_unread self.now.1.shards }
    {
        shard::first_unread(&self.shards)
    }

    /// Whether the shard of this id and number is unread or being read.
    pub(crate) fn waits_on(&self, shard: ShardId) -> bool
        ensures { result ≡ list_any (waits_on shard) self.now.1.shards }
    {
        shard::wait(&self.shards, shard)
    }

    /// Whether some shard is unread or being read.
    pub fn waits(&self) -> bool
        ensures { result ≡ list_any is_waiting self.now.1.shards }
    {
        shard::any_waits(&self.shards)
    }

    /// The id and number of the shard at a place.
    pub fn shard(&self, at: usize) -> ShardId
        requires { at < length self.now.1.shards }
        ensures { IfSome (slice_get self.now.1.shards at) (λ s. (s.ref.id ≡ result.index.number) × (s.number ≡ result.number)) }
    {
        self.shards[at].shard
    }

    /// What holds of its shards.
    pub fn rule(&self)
        ensures { AreShards self.now.1.shards }
    {
        let _shards = &self.shards;
    }

    /// The unit of the shard at a place.
    pub fn work(&self, alloc: Global, at: usize) -> Result<Work, AllocError>
        requires { at < length self.now.1.shards }
        ensures { IfOk result (λ work. IfSome (slice_get self.now.1.shards at) (λ s. IsRestoreWork self.now.1 s work)) }
    {
        let open = &self.shards[at];
        Ok(Work::RestoreShard {
            uuid: self.uuid,
            shard: open.shard,
            index: self.indices.as_slice()[open.at].name.try_clone(alloc)?,
            place: self.place.try_clone(alloc)?,
        })
    }

    /// Gives a shard to a ticket.
    pub fn give(&mut self, shard: ShardId, ticket: u64)
        ensures { self.new ≡ (self.old.0, record self.old.1 { shards = map (given ticket shard.index.number shard.number) self.old.1.shards }) }
    {
        shard::give(&mut self.shards, shard, ticket);
    }

    /// What a ticket has is over.
    pub fn end(&mut self, ticket: u64)
        ensures { self.new ≡ (self.old.0, record self.old.1 { shards = map (marked ticket GivenUp) self.old.1.shards }) }
    {
        shard::mark(&mut self.shards, ticket, ShardState::GivenUp);
    }
}

impl TryClone for OpenRestore {
    fn try_clone(&self, alloc: Global) -> Result<OpenRestore, AllocError> {
        Ok(OpenRestore {
            number: self.number,
            uuid: self.uuid,
            place: self.place.try_clone(alloc)?,
            indices: self.indices.try_clone(alloc)?,
            shards: Vec::from_slice(alloc, self.shards.as_slice())?,
        })
    }
}

/// Whether a restore before the number has the shard unread or being read.
pub(crate) fn restore_waits(restores: &[OpenRestore], number: u64, shard: ShardId) -> bool
    ensures { result ≡ restore_before restores.now number shard.index.number shard.number }
{
    restores.iter().any(|restore| restore.number() < number && restore.waits_on(shard))
}
