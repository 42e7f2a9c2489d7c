//! The ends that a history tells, read off it once.
ghost use Rattle.std.specs.Prelude.{◌≡◌, List, [], map, option_map, IfOk};
ghost use Rattle.esr_core.specs.Entry.{Entry as Told};
ghost use Rattle.esr_formats.specs.Refs.{ref_of_code};
ghost use Rattle.esr_report.specs.Replies.{end_of_op, shard_end, ends_of, restore_reply};
ghost use Rattle.esr_report.specs.Ends.{shard_of_code, end_of_code, AreAllEnds};
ghost use Rattle.esr_report.specs.Code.{reply_of};

use crate::Reply;
use crate::restores::{
    ReadShard, ShardEnd, ShardTake, TicketEnd, end_of, reply_of_ends, restore_shards,
    shard_ends_of, takes_of, ticket_of,
};
use crate::tickets::{OpEnd, end_of_op, ends_of};
use esr_desk::Entry;
use esr_names::{Id, IndexRef};
use std::alloc::{AllocError, Global};

/// How ops ended, to which tickets the shards of restores were given, and how the shards of tickets ended.
#[derive(Drop)]
pub struct ToldEnds {
    pub ops: Vec<OpEnd>,
    pub takes: Vec<ShardTake>,
    pub shards: Vec<TicketEnd>,
}

/// All ends that the entries tell.
pub fn told_ends(alloc: Global, entries: &[Entry]) -> Result<ToldEnds, AllocError>
    ensures { IfOk result (λ told. AreAllEnds entries.now told) }
{
    Ok(ToldEnds {
        ops: ends_of(alloc, entries)?,
        takes: takes_of(alloc, entries)?,
        shards: shard_ends_of(alloc, entries)?,
    })
}

/// How a shard ended, if it has.
fn shard_end(told: &ToldEnds, shard: &ReadShard) -> Option<ShardEnd>
    ensures { (all : List Told) → AreAllEnds all told.now → option_map end_of_code result ≡ shard_end all (shard_of_code shard.now) }
{
    let ticket = ticket_of(&told.takes, shard)?;
    end_of(&told.shards, ticket)
}

/// How these shards ended, where each has.
fn ends_of_shards(
    alloc: Global,
    told: &ToldEnds,
    shards: &[ReadShard],
) -> Result<Option<Vec<ShardEnd>>, AllocError>
    ensures { (all : List Told) → AreAllEnds all told.now
        → IfOk result (λ r. option_map (λ ends. map end_of_code ends.items) r ≡ ends_of all (map shard_of_code shards.now)) }
{
    let mut ends = Vec::new(alloc);
    for shard in shards {
        match shard_end(told, shard) {
            Some(end) => ends.push(end)?,
            None => return Ok(None),
        }
    }
    Ok(Some(ends))
}

/// What an accepted restore is answered where each of its shards has ended.
pub fn restore_reply(
    alloc: Global,
    told: &ToldEnds,
    op: u64,
    uuid: Id,
    indices: &[IndexRef],
) -> Result<Option<Reply>, AllocError>
    ensures { (all : List Told) → AreAllEnds all told.now
        → IfOk result (λ r. option_map reply_of r ≡ restore_reply all op uuid.number (map ref_of_code indices.now)) }
{
    let shards = restore_shards(alloc, op, uuid, indices)?;
    let ends = ends_of_shards(alloc, told, &shards)?;
    Ok(ends.map(|ends| reply_of_ends(&ends)))
}

/// What an accepted command is answered by the end of its op.
pub fn op_reply(told: &ToldEnds, op: u64) -> Option<Reply>
    ensures { (all : List Told) → AreAllEnds all told.now → option_map reply_of result ≡ end_of_op all op [] all }
{
    end_of_op(&told.ops, op)
}
