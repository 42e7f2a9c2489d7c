//! An open op.
ghost use Rattle.std.specs.Prelude.{◌≡◌, ◌<◌, ◌↔◌, ◌==◌, ℕ, false, true, None, Some, is_some, map, length, option_map, IsTrue, IfOk, IfSome, slice_get, position, min, sum_by, ◌-◌, ◌^◌};
ghost use Rattle.std.specs.List.{list_any};
ghost use Rattle.esr_core.specs.World.{marked, work_of, Done};
ghost use Rattle.esr_core.specs.Steps.{given, all_done};
ghost use Rattle.esr_core.specs.Turns.{fails};
ghost use Rattle.esr_core.specs.After.{index_id};
ghost use Rattle.esr_formats.specs.Ids.{number_of};
ghost use Rattle.esr_formats.specs.Clusters.{op_of, work_of_code};
ghost use Rattle.esr_record.specs.Op.{IsMaking, IsWork};
ghost use Rattle.esr_model.specs.Values.{ShardResult as Outcome};
ghost use Rattle.esr_ops.specs.Shards.{state_of, waits_on, op_before, AreShards};
ghost use Rattle.esr_ops.specs.Ops.{op_with, IsOpenOp, IsMakingOf, has_stopped, is_free, IsDoneAt, Among, IsMost, later_of, AreParts, work_by_source, IsShardWork, IsFinalWork, making_told};

use crate::shard::{self, OpenShard, ShardState};
use crate::{OpenRestore, Work};
use esr_meta::SnapInfo;
use esr_names::{Id, IndexName, ShardId};
use esr_record::{Making, OpWork, RecordOp};
use esr_results::ShardResult;
use esr_seq::{Seq, Text, TryClone};
use std::alloc::{AllocError, Global};
use std::marker::Model;

/// An open snapshot: its number, what it makes, the place of each index's files, its shards in order, and the snapshot that it
/// copies where it is a clone.
pub struct OpenOp {
    number: u64,
    making: Making,
    places: Seq<Text>,
    shards: Vec<OpenShard>,
    failed: bool,
    source: Option<Id>,
    aborted: Option<u64>,
}

impl Drop for OpenOp {
    // Not derived: each crate above would prove a derived one again.
    fn drop(self) {
        let OpenOp {
            number: _,
            making: _making,
            places: _places,
            shards: _shards,
            failed: _,
            source: _,
            aborted: _,
        } = self;
    }
}

impl Model for OpenOp {
    ghost use Rattle.std.specs.Prelude.{ℕ};
    ghost use Rattle.esr_core.specs.World.{Op};
    ghost use Rattle.esr_ops.specs.Ops.{op_with, IsOpenOp};

    ghost Value = { ℕ × Op };

    ghost view = { λ a. (a.number, op_with a.making a.places a.shards.items a.failed a.source a.aborted) };

    ghost invariant = { λ a. IsOpenOp a.making a.places a.shards.items };
}

impl OpenOp {
    /// An op that neither failed nor was aborted.
    pub fn new(
        number: u64,
        making: Making,
        places: Seq<Text>,
        shards: Vec<OpenShard>,
        source: Option<Id>,
    ) -> OpenOp
        requires { IsOpenOp making places shards.items }
        ensures { result ≡ (number, op_with making places shards.items false source None) }
    {
        OpenOp {
            number,
            making,
            places,
            shards,
            failed: false,
            source,
            aborted: None,
        }
    }

    /// Its number.
    pub fn number(&self) -> u64
        ensures { result ≡ self.now.0 }
    {
        self.number
    }

    /// What it makes.
    pub fn making(&self) -> &Making
        ensures { IsMakingOf result.now self.now.1 }
    {
        &self.making
    }

    /// The uuid of what it makes.
    pub fn uuid(&self) -> Id
        ensures { result.number ≡ self.now.1.uuid }
    {
        self.making.uuid
    }

    /// The snapshot that it copies, where it is a clone.
    pub fn source(&self) -> Option<Id>
        ensures { option_map number_of result ≡ self.now.1.source }
    {
        self.source
    }

    /// The id of its index of this name.
    pub fn index_id(&self, name: &IndexName) -> Option<Id>
        ensures { option_map number_of result ≡ index_id self.now.1.indices name.now }
    {
        for index in self.making.indices.as_slice() {
            if index.name == *name {
                return Some(index.id);
            }
        }
        None
    }

    /// Whether it failed or was aborted.
    pub fn has_stopped(&self) -> bool
        ensures { result ≡ has_stopped self.now.1 }
    {
        self.failed || self.aborted.is_some()
    }

    /// The delete that has aborted it.
    pub fn aborter(&self) -> Option<u64>
        ensures { result ≡ self.now.1.aborted }
    {
        self.aborted
    }

    /// Whether a delete has aborted it.
    pub fn is_aborted(&self) -> bool
        ensures { result ≡ is_some self.now.1.aborted }
    {
        self.aborted.is_some()
    }

    /// Whether all its shards are done.
    pub fn is_done(&self) -> bool
        ensures { result ≡ all_done self.now.1.shards }
    {
        shard::are_done(&self.shards)
    }

    /// Whether all its shards are done once this ticket's is.
    pub fn completes(&self, ticket: u64) -> bool
        ensures { (r : Outcome) → result ≡ all_done (map (marked ticket (Done r)) self.now.1.shards) }
    {
        shard::are_done_with(&self.shards, ticket)
    }

    /// Whether the shard of this id and number is pending or out.
    pub(crate) fn waits_on(&self, shard: ShardId) -> bool
        ensures { result ≡ list_any (waits_on shard) self.now.1.shards }
    {
        shard::wait(&self.shards, shard)
    }

    /// The place of the first of its pending shards on which no op and no restore before it waits.
    pub fn first_free(&self, ops: &[OpenOp], restores: &[OpenRestore]) -> Option<usize>
        ensures { result ≡ position (is_free ops.now restores.now self.now.0) self.now.1.shards }
    {
        shard::first_free(&self.shards, ops, restores, self.number)
    }

    /// The id and number of the shard at a place.
    pub fn shard(&self, at: usize) -> ShardId
        requires { at < length self.now.1.shards }
        ensures { IfSome (slice_get self.now.1.shards at) (λ s. (s.ref.id ≡ result.index.number) × (s.number ≡ result.number)) }
    {
        self.shards[at].shard
    }

    /// What holds of its shards.
    pub fn rule(&self)
        ensures { AreShards self.now.1.shards }
    {
        let _shards = &self.shards;
    }

    /// The shard at a place, with the name of its index and the place of its files.
    fn shard_parts(
        &self,
        alloc: Global,
        at: usize,
    ) -> Result<(ShardId, IndexName, Text), AllocError>
        requires { at < length self.now.1.shards }
        ensures { IfOk result (λ p. IfSome (slice_get self.now.1.shards at) (λ s. AreParts s p.0 p.1 p.2)) }
    {
        let open = &self.shards[at];
        let index = self.making.indices.as_slice()[open.at]
            .name
            .try_clone(alloc)?;
        let place = self.places.as_slice()[open.at].try_clone(alloc)?;
        Ok((open.shard, index, place))
    }

    /// The unit of the shard at a place.
    pub fn shard_work(&self, alloc: Global, at: usize) -> Result<Work, AllocError>
        requires { at < length self.now.1.shards }
        ensures { IfOk result (λ work. IfSome (slice_get self.now.1.shards at) (λ s. IsShardWork self.now.1 s work)) }
    {
        let (shard, index, place) = self.shard_parts(alloc, at)?;
        let uuid = self.making.uuid;
        Ok(work_by_source(self.source, uuid, shard, index, place))
    }

    /// The unit that finalizes it, where all its shards are done.
    pub fn finalization(&self, alloc: Global) -> Result<Work, AllocError>
        requires { all_done self.now.1.shards ≡ true }
        ensures { IfOk result (IsFinalWork self.now.1) }
    {
        let shards = shard::results(alloc, &self.shards)?;
        let (files, bytes) = sums(shards.as_slice());
        let info = SnapInfo {
            bytes,
            files,
            indices: self.making.indices.try_clone(alloc)?,
            moment: self.making.moment,
            name: self.making.name.try_clone(alloc)?,
            state: 1,
            uuid: self.making.uuid,
        };
        Ok(Work::Finalize { info, shards })
    }

    /// Gives a shard to a ticket.
    pub fn give(&mut self, shard: ShardId, ticket: u64)
        ensures { self.new ≡ (self.old.0, record self.old.1 { shards = map (given ticket shard.index.number shard.number) self.old.1.shards }) }
    {
        shard::give(&mut self.shards, shard, ticket);
    }

    /// What a ticket has goes on to another state.
    pub fn mark(&mut self, ticket: u64, state: ShardState)
        ensures { self.new ≡ (self.old.0, record self.old.1 { shards = map (marked ticket (state_of state)) self.old.1.shards }) }
    {
        shard::mark(&mut self.shards, ticket, state);
    }

    /// It fails with the unit of a ticket.
    pub fn fail(&mut self, ticket: u64)
        ensures { self.new ≡ (self.old.0, record self.old.1 { shards = map (fails ticket) self.old.1.shards; failed = true }) }
    {
        shard::give_up(&mut self.shards, ticket);
        self.failed = true;
    }

    /// The largest generation at which it has done the shard.
    pub fn generation(&self, shard: ShardId) -> Option<Id>
        ensures { IsMost (Among self.now.1.shards (IsDoneAt shard.index.number shard.number)) (option_map number_of result) }
    {
        let mut most = None;
        for open in &self.shards {
            most = later(most, open.generation(shard));
        }
        most
    }

    /// A copy that this delete has aborted.
    pub fn aborted_by(&self, alloc: Global, by: u64) -> Result<OpenOp, AllocError>
        ensures { IfOk result (λ o. o ≡ (self.now.0, record self.now.1 { aborted = Some by })) }
    {
        let mut copy = self.try_clone(alloc)?;
        copy.aborted = Some(by);
        Ok(copy)
    }

    /// The op as the cluster record tells it.
    pub fn record_op(&self, alloc: Global) -> Result<RecordOp, AllocError>
        ensures told { IfOk result (λ o. op_of o ≡ (self.now.0, work_of self.now.1)) }
        ensures valid { IfOk result (λ o. IsWork o.work) }
    {
        let info = self.making.try_clone(alloc)?;
        Ok(RecordOp {
            op: self.number,
            work: making_work(info, self.source),
        })
    }
}

impl TryClone for OpenOp {
    fn try_clone(&self, alloc: Global) -> Result<OpenOp, AllocError> {
        Ok(OpenOp {
            number: self.number,
            making: self.making.try_clone(alloc)?,
            places: self.places.try_clone(alloc)?,
            shards: Vec::from_slice(alloc, self.shards.as_slice())?,
            failed: self.failed,
            source: self.source,
            aborted: self.aborted,
        })
    }
}

/// The unit of a shard: of a clone it lists what its source has, else it stores the files at the place.
fn work_by_source(
    source: Option<Id>,
    uuid: Id,
    shard: ShardId,
    index: IndexName,
    place: Text,
) -> Work
    ensures { result ≡ work_by_source source uuid shard index place }
{
    match source {
        Some(source) => Work::CloneShard {
            source,
            uuid,
            shard,
            index,
        },
        None => Work::Shard {
            uuid,
            shard,
            index,
            place,
        },
    }
}

/// What is made, as the cluster record tells it: a clone copies its source.
fn making_work(info: Making, source: Option<Id>) -> OpWork
    requires { IsMaking info }
    ensures told { work_of_code result ≡ making_told info (option_map number_of source) }
    ensures valid { IsWork result }
{
    match source {
        Some(source) => {
            let _number = source.number;
            OpWork::Clone { info, source }
        }
        None => OpWork::Create { info },
    }
}

/// Whether an op before the number waits on the shard.
pub(crate) fn op_waits(ops: &[OpenOp], number: u64, shard: ShardId) -> bool
    ensures { result ≡ op_before ops.now number shard.index.number shard.number }
{
    ops.iter()
        .any(|op| op.number() < number && op.waits_on(shard))
}

/// How many files some shards have, and of how many bytes: each sum stops at 2^63 - 1.
fn sums(shards: &[ShardResult]) -> (u64, u64)
    ensures { result ≡ (min (sum_by (λ r. r.files) shards.now) (2 ^ 63 - 1), min (sum_by (λ r. r.bytes) shards.now) (2 ^ 63 - 1)) }
{
    let mut files = 0u64;
    let mut bytes = 0u64;
    for shard in shards {
        files = files.saturating_add(shard.files);
        bytes = bytes.saturating_add(shard.bytes);
    }
    (files.min((1 << 63) - 1), bytes.min((1 << 63) - 1))
}

/// The larger of two ids, or the one that is there.
pub fn later(a: Option<Id>, b: Option<Id>) -> Option<Id>
    ensures { option_map number_of result ≡ later_of (option_map number_of a) (option_map number_of b) }
{
    match (a, b) {
        (None, b) => b,
        (a, None) => a,
        (Some(a), Some(b)) => Some(a.max(b)),
    }
}
