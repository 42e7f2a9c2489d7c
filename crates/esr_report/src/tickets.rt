//! Which op a ticket is of, and how ops ended.
ghost use Rattle.std.specs.Prelude.{◌≡◌, ℕ, option_map, IfOk, OnOk};
ghost use Rattle.esr_core.specs.After.{or_else};
ghost use Rattle.esr_formats.specs.Ids.{number_of};
ghost use Rattle.esr_desk.specs.Entries.{unit_of, answer_of, why_of};
ghost use Rattle.esr_report.specs.Replies.{op_by, op_of_ticket, uuid_by, uuid_of_ticket, is_of_term, takes_of_term, begins_term, has_term, is_stale, fails_by, delete_of_ticket, ends_by, ends_at};
ghost use Rattle.esr_report.specs.Ends.{reply_of_end, end_in, first_end, AreEnds};
ghost use Rattle.esr_report.specs.Code.{reply_of};

use crate::Reply;
use crate::aborts::push_aborts;
use crate::cleaned::{cleaned_by, is_cleanup_ticket};
use esr_desk::{Answer, Entry, Given, Prune, Step, Why};
use esr_names::Id;
use std::alloc::{AllocError, Global};

/// How an op ended: its snapshot is in the root, this delete took snapshots out of it, a cleanup took so many blobs away, one of
/// its units failed, with the op of a delete, or this delete aborted it.
#[derive(Clone, Copy)]
pub enum End {
    Made { uuid: Id },
    Deleted { op: u64 },
    Cleaned { blobs: u64, bytes: u64 },
    Failed { why: Why, op: Option<u64> },
    Aborted { by: u64 },
}

impl End {
    ghost use Rattle.esr_report.specs.Ends.{reply_of_end};

    /// What it answers the command of the op.
    fn reply(self) -> Reply
        ensures { reply_of result ≡ reply_of_end self }
    {
        match self {
            End::Made { uuid } => Reply::Made { uuid },
            End::Deleted { op } => Reply::Deleted { op },
            End::Cleaned { blobs, bytes } => Reply::Cleaned { blobs, bytes },
            End::Failed { why, op } => Reply::Failed { why, op },
            End::Aborted { by } => Reply::Aborted { by },
        }
    }
}

/// The end of an op.
#[derive(Clone, Copy)]
pub struct OpEnd {
    pub op: u64,
    pub end: End,
}

/// The op that a take gave to this ticket.
fn op_by(entry: &Entry, ticket: u64) -> Option<u64>
    ensures { result ≡ op_by entry.now.reply ticket }
{
    match &entry.answer {
        Answer::Gave {
            ticket: given,
            op,
            unit: _,
        } => (*given == ticket).then_some(*op),
        _ => None,
    }
}

/// The op of a ticket.
fn op_of_ticket(entries: &[Entry], ticket: u64) -> Option<u64>
    ensures { result ≡ op_of_ticket entries.now ticket }
{
    for entry in entries {
        let op = op_by(entry, ticket);
        if op.is_some() {
            return op;
        }
    }
    None
}

/// The uuid of the snapshot whose finalization a take gave to this ticket.
fn uuid_by(entry: &Entry, ticket: u64) -> Option<Id>
    ensures { option_map number_of result ≡ uuid_by entry.now.reply ticket }
{
    match &entry.answer {
        Answer::Gave {
            ticket: given,
            op: _,
            unit: Given::Finalize { info, shards: _ },
        } => (*given == ticket).then_some(info.uuid),
        _ => None,
    }
}

/// The uuid of the snapshot that a ticket finalizes.
fn uuid_of_ticket(entries: &[Entry], ticket: u64) -> Option<Id>
    ensures { option_map number_of result ≡ uuid_of_ticket entries.now ticket }
{
    for entry in entries {
        let uuid = uuid_by(entry, ticket);
        if uuid.is_some() {
            return uuid;
        }
    }
    None
}

/// Such a unit belongs to the term in which it was taken.
fn is_of_term(unit: &Given) -> bool
    ensures { result ≡ is_of_term (unit_of unit.now) }
{
    matches!(
        unit,
        Given::Finalize { .. } | Given::Drop | Given::Delete { .. } | Given::Cleanup
    )
}

/// A take gave such a unit to this ticket.
fn takes_of_term(entry: &Entry, ticket: u64) -> bool
    ensures { result ≡ takes_of_term entry.now.reply ticket }
{
    match &entry.answer {
        Answer::Gave {
            ticket: given,
            op: _,
            unit,
        } => *given == ticket && is_of_term(unit),
        _ => false,
    }
}

fn begins_term(entry: &Entry) -> bool
    ensures { result ≡ begins_term entry.now.reply }
{
    matches!(&entry.answer, Answer::Elected { .. })
}

/// A term begins in one of them.
fn has_term(entries: &[Entry]) -> bool
    ensures { result ≡ has_term entries.now }
{
    for entry in entries {
        if begins_term(entry) {
            return true;
        }
    }
    false
}

/// After these entries the ticket is stale: a term has begun since its take.
fn is_stale(entries: &[Entry], ticket: u64) -> bool
    ensures { result ≡ is_stale entries.now ticket }
{
    let mut rest = entries;
    while let [first, more @ ..] = rest {
        if takes_of_term(first, ticket) {
            return has_term(more);
        }
        rest = more;
    }
    false
}

/// What a ticket reports as failed, unless it is stale.
fn fails_by(stale: bool, why: Why, op: Option<u64>) -> Option<End>
    ensures { option_map reply_of_end result ≡ fails_by stale (why_of why) op }
{
    if stale {
        return None;
    }
    Some(End::Failed { why, op })
}

/// The op of the delete that a ticket is of.
fn delete_of_ticket(entries: &[Entry], ticket: u64) -> Option<u64>
    ensures { result ≡ delete_of_ticket entries.now ticket }
{
    if is_cleanup_ticket(entries, ticket) {
        return None;
    }
    op_of_ticket(entries, ticket)
}

/// What a step of a ticket answers the command of its op, if it ends it, after these entries of all.
fn ends_by(
    alloc: Global,
    entries: &[Entry],
    before: &[Entry],
    entry: &Entry,
) -> Result<Option<End>, AllocError>
    ensures { IfOk result (λ end. option_map reply_of_end end ≡ ends_by entries.now (is_stale before.now entry.now.who) entry.now.who entry.now.step entry.now.reply) }
{
    match (&entry.step, &entry.answer) {
        (Step::Settle, Answer::Settled) => {
            Ok(uuid_of_ticket(entries, entry.who).map(|uuid| End::Made { uuid }))
        }
        (Step::Failed { why }, Answer::Ended) => {
            Ok(fails_by(is_stale(before, entry.who), *why, None))
        }
        (
            Step::Prune {
                prune: Prune::Settle,
            },
            Answer::Settled,
        ) => Ok(delete_of_ticket(entries, entry.who).map(|op| End::Deleted { op })),
        (
            Step::Prune {
                prune: Prune::Failed { why },
            },
            Answer::Ended,
        ) => {
            let op = delete_of_ticket(entries, entry.who);
            Ok(fails_by(is_stale(before, entry.who), *why, op))
        }
        (Step::Dropped, Answer::Ended) => cleaned_by(alloc, entries, entry.who),
        _ => Ok(None),
    }
}

/// The end of an op that an entry tells, after these of all.
fn op_end(
    alloc: Global,
    entries: &[Entry],
    before: &[Entry],
    entry: &Entry,
) -> Result<Option<OpEnd>, AllocError>
    ensures { IfOk result (λ end. (op : ℕ) → ends_at entries.now before.now op entry.now ≡ end_in end op) }
{
    let Some(end) = ends_by(alloc, entries, before, entry)? else {
        return Ok(None);
    };
    let Some(op) = op_of_ticket(entries, entry.who) else {
        return Ok(None);
    };
    Ok(Some(OpEnd { op, end }))
}

/// Appends an end where there is one.
#[tactic(auto, using(crate::proofs::FirstEnds::first_end_more))]
pub fn keep(ends: &mut Vec<OpEnd>, end: Option<OpEnd>) -> Result<(), AllocError>
    ensures { OnOk result ((op : ℕ) → first_end ends.new.items op ≡ or_else (first_end ends.old.items op) (end_in end op)) }
{
    if let Some(end) = end {
        ends.push(end)?;
    }
    Ok(())
}

/// The ends of ops, in the order of the entries that tell them: the own end of an entry, then those of the ops that it aborts.
pub fn ends_of(alloc: Global, entries: &[Entry]) -> Result<Vec<OpEnd>, AllocError>
    ensures { IfOk result (λ ends. AreEnds entries.now ends.items) }
{
    let mut ends = Vec::new(alloc);
    for (at, entry) in entries.iter().enumerate() {
        let end = op_end(alloc, entries, &entries[..at], entry)?;
        keep(&mut ends, end)?;
        push_aborts(&mut ends, &entries[..at], entry)?;
    }
    Ok(ends)
}

/// What answers the command of an op, by the first of its ends.
pub fn end_of_op(ends: &[OpEnd], op: u64) -> Option<Reply>
    ensures { option_map reply_of result ≡ first_end ends.now op }
{
    for end in ends {
        if end.op == op {
            return Some(end.end.reply());
        }
    }
    None
}
