//! How the shards of restores ended, and what that answers a restore.
ghost use Rattle.std.specs.Prelude.{◌≡◌, ◌-◌, ◌^◌, ◌++◌, ℕ, Some, map, min, sum_by, option_map, IfOk, OnOk};
ghost use Rattle.std.specs.Option.{option_to_list};
ghost use Rattle.esr_model.specs.Places.{numbered, places};
ghost use Rattle.esr_formats.specs.Refs.{ref_of_code};
ghost use Rattle.esr_desk.specs.Entries.{why_of, step_of};
ghost use Rattle.esr_report.specs.Replies.{ReadShard as Shard, same_shard, first_by, shard_ticket_by, shard_end_by, shard_end_at, failure_of, files_of, bytes_of, reply_of_ends, read_shard, restore_shards};
ghost use Rattle.esr_report.specs.Ends.{shard_of_code, end_of_code, ticket_for, shard_end_for, AreTakes, AreShardEnds};
ghost use Rattle.esr_report.specs.Code.{reply_of};

use crate::Reply;
use esr_desk::{Answer, Entry, Given, Read, Step, Why};
use esr_names::{Id, IndexRef, ShardId};
use std::alloc::{AllocError, Global};

/// A shard that a restore reads: of this op, for the snapshot of this uuid.
#[derive(Clone, Copy)]
pub struct ReadShard {
    pub op: u64,
    pub shard: ShardId,
    pub uuid: Id,
}

/// How it ended: so many files were restored, of so many bytes, or it failed.
#[derive(Clone, Copy)]
pub enum ShardEnd {
    Restored { files: u64, bytes: u64 },
    Failed { why: Why },
}

/// The ticket to which a shard was given.
#[derive(Clone, Copy)]
pub struct ShardTake {
    pub shard: ReadShard,
    pub ticket: u64,
}

/// How the shard of a ticket ended.
#[derive(Clone, Copy)]
pub struct TicketEnd {
    pub ticket: u64,
    pub end: ShardEnd,
}

fn same_shard(a: &ReadShard, b: &ReadShard) -> bool
    ensures { result ≡ same_shard (shard_of_code a.now) (shard_of_code b.now) }
{
    a.op == b.op
        && a.shard.index.number == b.shard.index.number
        && a.shard.number == b.shard.number
        && a.uuid.number == b.uuid.number
}

/// The shard that an entry gave to a ticket.
fn take_by(entry: &Entry) -> Option<ShardTake>
    ensures { (s : Shard) → shard_ticket_by entry.now.reply s ≡ first_by (ticket_for s) (option_to_list result) }
{
    match &entry.answer {
        Answer::Gave {
            ticket,
            op,
            unit: Given::RestoreShard { shard, uuid },
        } => Some(ShardTake {
            shard: ReadShard {
                op: *op,
                shard: *shard,
                uuid: *uuid,
            },
            ticket: *ticket,
        }),
        _ => None,
    }
}

/// How an entry ended the shard of its ticket, if it did.
fn shard_end_by(entry: &Entry) -> Option<ShardEnd>
    ensures { option_map end_of_code result ≡ shard_end_by entry.now.step entry.now.reply }
{
    match (&entry.step, &entry.answer) {
        (
            Step::Read {
                read: Read::Restored { files, bytes },
            },
            Answer::Ended,
        ) => Some(ShardEnd::Restored {
            files: *files,
            bytes: *bytes,
        }),
        (
            Step::Read {
                read: Read::Failed { why },
            },
            Answer::Ended,
        ) => Some(ShardEnd::Failed { why: *why }),
        _ => None,
    }
}

/// The end of a ticket's shard that an entry tells.
fn end_by(entry: &Entry) -> Option<TicketEnd>
    ensures { (k : ℕ) → shard_end_at k entry.now ≡ first_by (shard_end_for k) (option_to_list result) }
{
    let end = shard_end_by(entry)?;
    Some(TicketEnd {
        ticket: entry.who,
        end,
    })
}

/// Appends a value where there is one.
pub fn keep<T: Drop>(list: &mut Vec<T>, item: Option<T>) -> Result<(), AllocError>
    ensures { OnOk result (list.new.items ≡ list.old.items ++ option_to_list item) }
{
    if let Some(item) = item {
        list.push(item)?;
    }
    Ok(())
}

/// The tickets to which shards of restores were given, in the order of the entries.
pub fn takes_of(alloc: Global, entries: &[Entry]) -> Result<Vec<ShardTake>, AllocError>
    ensures { IfOk result (λ takes. AreTakes entries.now takes.items) }
{
    let mut takes = Vec::new(alloc);
    for entry in entries {
        keep(&mut takes, take_by(entry))?;
    }
    Ok(takes)
}

/// How the shards of tickets ended, in the order of the entries.
pub fn shard_ends_of(alloc: Global, entries: &[Entry]) -> Result<Vec<TicketEnd>, AllocError>
    ensures { IfOk result (λ ends. AreShardEnds entries.now ends.items) }
{
    let mut ends = Vec::new(alloc);
    for entry in entries {
        keep(&mut ends, end_by(entry))?;
    }
    Ok(ends)
}

/// The ticket to which a shard was given first.
pub fn ticket_of(takes: &[ShardTake], shard: &ReadShard) -> Option<u64>
    ensures { result ≡ first_by (ticket_for (shard_of_code shard.now)) takes.now }
{
    for take in takes {
        if same_shard(&take.shard, shard) {
            return Some(take.ticket);
        }
    }
    None
}

/// How the shard of a ticket ended first.
pub fn end_of(ends: &[TicketEnd], ticket: u64) -> Option<ShardEnd>
    ensures { option_map end_of_code result ≡ first_by (shard_end_for ticket) ends.now }
{
    for end in ends {
        if end.ticket == ticket {
            return Some(end.end);
        }
    }
    None
}

/// Appends the shards of an index, by number.
fn push_numbered(
    shards: &mut Vec<ReadShard>,
    op: u64,
    uuid: Id,
    index: &IndexRef,
) -> Result<(), AllocError>
    ensures { IfOk result (λ _. map shard_of_code shards.new.items ≡ map shard_of_code shards.old.items ++ map (read_shard op uuid.number) (numbered (ref_of_code index.now) 0 index.now.shards)) }
{
    for number in 0..index.shards {
        let index = index.id;
        shards.push(ReadShard {
            op,
            shard: ShardId { index, number },
            uuid,
        })?;
    }
    Ok(())
}

/// The shards of a restore, in the order of the work.
pub fn restore_shards(
    alloc: Global,
    op: u64,
    uuid: Id,
    indices: &[IndexRef],
) -> Result<Vec<ReadShard>, AllocError>
    ensures { IfOk result (λ s. map shard_of_code s.items ≡ restore_shards op uuid.number (map ref_of_code indices.now)) }
{
    let mut shards = Vec::new(alloc);
    for index in indices {
        push_numbered(&mut shards, op, uuid, index)?;
    }
    Ok(shards)
}

/// Why a shard failed, if it did.
fn failure_of(end: &ShardEnd) -> Option<Why>
    ensures { option_map why_of result ≡ failure_of (end_of_code end.now) }
{
    match end {
        ShardEnd::Restored { files: _, bytes: _ } => None,
        ShardEnd::Failed { why } => Some(*why),
    }
}

/// Why the first of them failed that did.
fn first_failure(ends: &[ShardEnd]) -> Option<Why>
    ensures { option_map why_of result ≡ first_by failure_of (map end_of_code ends.now) }
{
    let mut failure: Option<Why> = None;
    for end in ends {
        failure = failure.or(failure_of(end));
    }
    failure
}

fn files_of(end: &ShardEnd) -> u64
    ensures { result ≡ files_of (end_of_code end.now) }
{
    match end {
        ShardEnd::Restored { files, bytes: _ } => *files,
        ShardEnd::Failed { why: _ } => 0,
    }
}

fn bytes_of(end: &ShardEnd) -> u64
    ensures { result ≡ bytes_of (end_of_code end.now) }
{
    match end {
        ShardEnd::Restored { files: _, bytes } => *bytes,
        ShardEnd::Failed { why: _ } => 0,
    }
}

/// The sum of the files, at most 2^64 - 1.
fn sum_of_files(ends: &[ShardEnd]) -> u64
    ensures { result ≡ min (sum_by files_of (map end_of_code ends.now)) (2 ^ 64 - 1) }
{
    let mut sum: u64 = 0;
    for end in ends {
        sum = sum.saturating_add(files_of(end));
    }
    sum
}

/// The sum of the bytes, at most 2^64 - 1.
fn sum_of_bytes(ends: &[ShardEnd]) -> u64
    ensures { result ≡ min (sum_by bytes_of (map end_of_code ends.now)) (2 ^ 64 - 1) }
{
    let mut sum: u64 = 0;
    for end in ends {
        sum = sum.saturating_add(bytes_of(end));
    }
    sum
}

/// What the ends of all its shards answer a restore.
pub fn reply_of_ends(ends: &[ShardEnd]) -> Reply
    ensures { reply_of result ≡ reply_of_ends (map end_of_code ends.now) }
{
    match first_failure(ends) {
        Some(why) => Reply::Failed { why, op: None },
        None => Reply::Restored {
            files: sum_of_files(ends),
            bytes: sum_of_bytes(ends),
        },
    }
}
