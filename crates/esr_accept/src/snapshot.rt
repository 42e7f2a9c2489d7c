//! Which snapshots are accepted, and what all commands look up.
ghost use Rattle.std.specs.Prelude.{◌≡◌, ◌<◌, ◌+◌, ◌^◌, ◌++◌, suc, length, map, option_map, nat_lt, not, IfOk, OnOk};
ghost use Rattle.std.specs.FinMap as fin;
ghost use Rattle.esr_core.specs.World.{World};
ghost use Rattle.esr_core.specs.Tracked.{Named};
ghost use Rattle.esr_core.specs.Entry.{Snapshot};
ghost use Rattle.esr_core.specs.After.{root_index_id, open_index_id, ref_by};
ghost use Rattle.esr_model.specs.Kept.{first_id};
ghost use Rattle.esr_formats.specs.Ids.{number_of};
ghost use Rattle.esr_formats.specs.Refs.{ref_of_code, AreApart};
ghost use Rattle.esr_formats.specs.Roots.{root_of, root_snap_of, root_index_of};
ghost use Rattle.esr_record.specs.Op.{IsMaking};
ghost use Rattle.esr_ops.specs.Asked.{asked_of, asked_index_of, IsAskable};
ghost use Rattle.esr_accept.specs.Asking.{open_cleanup, snap_uuid, op_uuid, name_user, known_in, first_refusal, refs_by, new_by, shards_from, shards_of, op_begun};
ghost use Rattle.esr_ops.specs.Plan.{IsAskedIn};
ghost use Rattle.esr_accept.specs.Accepting.{Accepting};

use esr_formats::making_can_be_written;
use esr_names::{Id, IndexName, IndexRef, IndexRefs, ShardId, SnapName};
use esr_ops::{Accepted, AskedIndex, Command, OpenDelete, OpenOp, OpenShard, Refusal, ShardState};
use esr_progress::Progress;
use esr_record::Making;
use esr_root::{RootData, RootIndex, RootSnap};
use esr_seq::{Seq, Text, TryClone};
use std::alloc::{AllocError, Global};

/// The most ops and deletes that are open at once, and the most restores.
pub(crate) const LIMIT: u64 = 1000;

/// The list with a command more, as the next op: its uuid is the next id, and each index whose name neither the root nor an
/// open op has takes one more id. The first rule that refuses the command decides.
pub fn accept(
    progress: &Progress,
    alloc: Global,
    root: &RootData,
    term: u64,
    next: Id,
    command: &Command,
) -> Result<(Progress, Accepted), Refusal>
    requires askable { IsAskable (asked_of command.now) }
    requires named { Named (root_of root.now) progress.now.ops next.number }
    requires in_term { next.number < first_id (suc term) }
    requires term { term < 2 ^ 63 }
    requires room { progress.now.next_op < 2 ^ 62 }
    ensures { (w : World) → IsAskedIn progress.now (root_of root.now) term next.number w → Accepting w (asked_of command.now) result }
{
    let (name, asked, moment) = parts(command);
    let list = progress.lists();
    if let Some(refusal) = refusal(root, list.ops, list.deletes, name) {
        return Err(refusal);
    }
    let (refs, new) = draw(alloc, root, list.ops, next, asked)?;
    let drawn = new + 1;
    if next.number + u128::from(drawn) >= Id::new(term + 1, 0).number {
        return Err(Refusal::IdsSpent { next });
    }
    let making = Making {
        indices: refs,
        moment,
        name: name.try_clone(alloc)?,
        uuid: next,
    };
    making_can_be_written(&making);
    let after = progress.with_op(alloc, begin(alloc, list.next_op, making, asked)?)?;
    let op = list.next_op;
    Ok((after, Accepted { op, drawn }))
}

/// The name, the indices and the moment of a snapshot.
fn parts(command: &Command) -> (&SnapName, &[AskedIndex], u64)
    requires { IsAskable (asked_of command.now) }
    ensures { asked_of command.now ≡ Snapshot result.0.now (map asked_index_of result.1.now) result.2 }
{
    let Command::Create {
        name,
        indices,
        moment,
    } = command
    else {
        unreachable!()
    };
    (name, indices.as_slice(), *moment)
}

/// The first rule that refuses a name.
fn refusal(
    root: &RootData,
    ops: &[OpenOp],
    deletes: &[OpenDelete],
    name: &SnapName,
) -> Option<Refusal>
    requires { length ops.now + length deletes.now < 2 ^ 64 }
    ensures { result ≡ first_refusal (open_cleanup deletes.now) (name_user (root_of root.now) ops.now name.now) (not (nat_lt (length ops.now + length deletes.now) 1000)) }
{
    if let Some(op) = open_cleanup(deletes) {
        return Some(Refusal::CleanupRunning { op });
    }
    if let Some(uuid) = name_user(root, ops, name) {
        return Some(Refusal::NameInUse { uuid });
    }
    if is_full(ops, deletes) {
        return Some(Refusal::TooMany { limit: LIMIT });
    }
    None
}

/// Whether as many ops and deletes are open as may be.
pub(crate) fn is_full(ops: &[OpenOp], deletes: &[OpenDelete]) -> bool
    requires { length ops.now + length deletes.now < 2 ^ 64 }
    ensures { result ≡ not (nat_lt (length ops.now + length deletes.now) 1000) }
{
    (ops.len() + deletes.len()) as u64 >= LIMIT
}

/// The number of the first open cleanup.
pub(crate) fn open_cleanup(deletes: &[OpenDelete]) -> Option<u64>
    ensures { result ≡ open_cleanup deletes.now }
{
    for delete in deletes {
        if delete.cleans() {
            return Some(delete.number());
        }
    }
    None
}

/// The uuid of a listed snapshot of this name, or of an open op.
pub(crate) fn name_user(root: &RootData, ops: &[OpenOp], name: &SnapName) -> Option<Id>
    ensures { option_map number_of result ≡ name_user (root_of root.now) ops.now name.now }
{
    match snap_uuid(root.snapshots.as_slice(), name) {
        Some(uuid) => Some(uuid),
        None => op_uuid(ops, name),
    }
}

pub(crate) fn snap_uuid(snaps: &[RootSnap], name: &SnapName) -> Option<Id>
    ensures { option_map number_of result ≡ snap_uuid (map root_snap_of snaps.now) name.now }
{
    for snap in snaps {
        if snap.name == *name {
            return Some(snap.uuid);
        }
    }
    None
}

fn op_uuid(ops: &[OpenOp], name: &SnapName) -> Option<Id>
    ensures { option_map number_of result ≡ op_uuid ops.now name.now }
{
    for op in ops {
        let making = op.making();
        if making.name == *name {
            return Some(making.uuid);
        }
    }
    None
}

/// The id that the root has for an index name, or else the first open op that has one.
fn known_id(root: &RootData, ops: &[OpenOp], name: &IndexName) -> Option<Id>
    ensures { option_map number_of result ≡ known_in (root_of root.now) ops.now name.now }
{
    match root_id(root.indices.as_slice(), name) {
        Some(id) => Some(id),
        None => open_id(ops, name),
    }
}

fn root_id(indices: &[RootIndex], name: &IndexName) -> Option<Id>
    ensures { option_map number_of result ≡ root_index_id (map root_index_of indices.now) name.now }
{
    for index in indices {
        if index.name == *name {
            return Some(index.id);
        }
    }
    None
}

fn open_id(ops: &[OpenOp], name: &IndexName) -> Option<Id>
    ensures { option_map number_of result ≡ open_index_id ops.now name.now }
{
    for op in ops {
        if let Some(id) = op.index_id(name) {
            return Some(id);
        }
    }
    None
}

/// The asked indices with their ids, where new ones follow `uuid` one after another, and how many are new.
fn draw(
    alloc: Global,
    root: &RootData,
    ops: &[OpenOp],
    uuid: Id,
    asked: &[AskedIndex],
) -> Result<(IndexRefs, u64), AllocError>
    requires { uuid.number < 2 ^ 127 }
    ensures refs { IfOk result (λ r. map ref_of_code r.0 ≡ refs_by (known_in (root_of root.now) ops.now) (suc uuid.number) (map asked_index_of asked.now)) }
    ensures new { IfOk result (λ r. r.1 ≡ new_by (known_in (root_of root.now) ops.now) (map asked_index_of asked.now)) }
{
    let mut refs = Seq::with_capacity(alloc, asked.len())?;
    let mut new = 0;
    for index in asked {
        let next = Id {
            number: uuid.number + 1 + u128::from(new),
        };
        let known = known_id(root, ops, &index.name);
        refs.push(index_ref(alloc, index, known, next)?)?;
        new += u64::from(known.is_none());
    }
    Ok((refs, new))
}

/// An asked index with the id that is known, or else the next one.
fn index_ref(
    alloc: Global,
    index: &AskedIndex,
    known: Option<Id>,
    next: Id,
) -> Result<IndexRef, AllocError>
    ensures { IfOk result (λ r. ref_of_code r ≡ ref_by (asked_index_of index.now) (option_map number_of known) next.number) }
{
    Ok(IndexRef {
        id: known.unwrap_or(next),
        name: index.name.try_clone(alloc)?,
        shards: index.shards,
    })
}

/// The op that makes a snapshot of these indices, with no shard begun.
fn begin(
    alloc: Global,
    number: u64,
    making: Making,
    asked: &[AskedIndex],
) -> Result<OpenOp, AllocError>
    requires valid { IsMaking making }
    requires apart { AreApart (map ref_of_code making.indices) }
    requires same { length making.indices ≡ length asked.now }
    ensures { IfOk result (λ op. op ≡ (number, op_begun making (map asked_index_of asked.now))) }
{
    let places = places(alloc, asked)?;
    let shards = shards(alloc, making.indices.as_slice())?;
    Ok(OpenOp::new(number, making, places, shards, None))
}

/// Where the files of each index are.
fn places(alloc: Global, asked: &[AskedIndex]) -> Result<Seq<Text>, AllocError>
    ensures { IfOk result (λ v. v ≡ map (λ a. a.place) asked.now) }
{
    let mut places = Seq::with_capacity(alloc, asked.len())?;
    for index in asked {
        places.push(index.place.try_clone(alloc)?)?;
    }
    Ok(places)
}

/// The shards of each index, by their numbers.
pub(crate) fn shards(alloc: Global, indices: &[IndexRef]) -> Result<Vec<OpenShard>, AllocError>
    ensures { IfOk result (λ v. v.items ≡ shards_of 0 indices.now) }
{
    let mut shards = Vec::new(alloc);
    for (at, index) in indices.iter().enumerate() {
        push_shards(&mut shards, at, index.id, index.shards)?;
    }
    Ok(shards)
}

/// Appends so many pending shards of an index.
fn push_shards(
    shards: &mut Vec<OpenShard>,
    at: usize,
    index: Id,
    count: u32,
) -> Result<(), AllocError>
    ensures { OnOk result (shards.new.items ≡ shards.old.items ++ shards_from at index 0 count) }
{
    for number in 0..count {
        shards.push(OpenShard {
            at,
            shard: ShardId { index, number },
            state: ShardState::Pending,
        })?;
    }
    Ok(())
}
