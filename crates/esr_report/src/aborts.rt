//! Which ops an accepted delete aborts.
ghost use Rattle.std.specs.Prelude.{◌≡◌, ◌==◌, ℕ, None, if◌then◌else◌, option_map, option_copied, OnOk};
ghost use Rattle.esr_model.specs.Uploads.{same_bytes};
ghost use Rattle.esr_core.specs.After.{or_else};
ghost use Rattle.esr_desk.specs.Entries.{unit_of, answer_of};
ghost use Rattle.esr_report.specs.Replies.{name_by, name_of_op, is_over, final_given, final_kept, final_out, has_name, abort_by, aborts_at};
ghost use Rattle.esr_report.specs.Ends.{reply_of_end, end_in, first_end};
ghost use Rattle.esr_report.specs.Aborts.{asks_delete, accepted_by, if_named, unless_out, final_by};

use crate::tickets::{End, OpEnd, end_of_op, keep};
use esr_desk::{Answer, Entry, Given, Step};
use esr_names::SnapName;
use esr_ops::Command;
use std::alloc::AllocError;

/// The name under which a snapshot or a clone was accepted as this op.
fn name_by(entry: &Entry, op: u64) -> Option<&SnapName>
    ensures { option_copied result ≡ name_by op entry.now.step entry.now.reply }
{
    match (&entry.step, &entry.answer) {
        (
            Step::Ask {
                command: Command::Create { name, .. },
            },
            Answer::Accepted { op: accepted },
        ) => (*accepted == op).then_some(name),
        (Step::AskClone { name, .. }, Answer::Accepted { op: accepted }) => {
            (*accepted == op).then_some(name)
        }
        _ => None,
    }
}

/// The name of the snapshot or the clone that was accepted as this op.
fn name_of_op(entries: &[Entry], op: u64) -> Option<&SnapName>
    ensures { option_copied result ≡ name_of_op entries.now op }
{
    for entry in entries {
        let name = name_by(entry, op);
        if name.is_some() {
            return name;
        }
    }
    None
}

/// Its ticket has ended, or its swap has settled.
fn is_over(entry: &Entry) -> bool
    ensures { result ≡ is_over entry.now.step entry.now.reply }
{
    match (&entry.step, &entry.answer) {
        (Step::Settle, Answer::Settled) => true,
        (Step::Failed { why: _ }, Answer::Ended) => true,
        (Step::Finish, Answer::Ended) => true,
        _ => false,
    }
}

/// The ticket of the op's finalization that is out, after a unit of an op was given to a ticket.
fn final_given(op: u64, out: Option<u64>, given: u64, unit: &Given, ticket: u64) -> Option<u64>
    ensures { result ≡ final_given op out given (unit_of unit.now) ticket }
{
    match unit {
        Given::Finalize { info: _, shards: _ } => { if given == op { Some(ticket) } else { out } }
        _ => out,
    }
}

/// The ticket of the op's finalization that is out after a step of who, which ended its ticket or didn't.
fn final_kept(out: Option<u64>, who: u64, over: bool) -> Option<u64>
    ensures { result ≡ final_kept out who over }
{
    match out {
        Some(ticket) => {
            if over && ticket == who {
                None
            } else {
                Some(ticket)
            }
        }
        None => None,
    }
}

/// The ticket of the op's finalization that is out after an answer: any but a take and an election leaves `kept`.
fn final_by(op: u64, out: Option<u64>, answer: &Answer, kept: Option<u64>) -> Option<u64>
    ensures { result ≡ final_by op out (answer_of answer.now) kept }
{
    match answer {
        Answer::Gave {
            ticket,
            op: given,
            unit,
        } => final_given(op, out, *given, unit, *ticket),
        Answer::Elected { term: _ } => None,
        _ => kept,
    }
}

/// The ticket of the op's finalization that is out after one entry more.
fn final_step(op: u64, out: Option<u64>, entry: &Entry) -> Option<u64>
    ensures { result ≡ final_by op out entry.now.reply (final_kept out entry.now.who (is_over entry.now.step entry.now.reply)) }
{
    let kept = final_kept(out, entry.who, is_over(entry));
    final_by(op, out, &entry.answer, kept)
}

/// The ticket of the op's finalization that is out after these entries.
fn final_out(entries: &[Entry], op: u64) -> Option<u64>
    ensures { result ≡ final_out entries.now op }
{
    let mut out: Option<u64> = None;
    for entry in entries {
        out = final_step(op, out, entry);
    }
    out
}

/// Two snapshots have one name.
fn is_named(a: &SnapName, b: &SnapName) -> bool
    ensures { result ≡ same_bytes a.now b.now }
{
    *a == *b
}

/// The names have this one.
fn has_name(names: &[SnapName], name: &SnapName) -> bool
    ensures { result ≡ has_name names.now name.now }
{
    for other in names {
        if is_named(other, name) {
            return true;
        }
    }
    false
}

/// The end by which a delete of this name aborts, where the entry accepts one.
fn abort_by(entry: &Entry, name: &SnapName) -> Option<End>
    ensures { option_map reply_of_end result ≡ abort_by name.now entry.now.step entry.now.reply }
{
    match (&entry.step, &entry.answer) {
        (
            Step::Ask {
                command: Command::Delete { names },
            },
            Answer::Accepted { op },
        ) => has_name(names.as_slice(), name).then_some(End::Aborted { by: *op }),
        _ => None,
    }
}

/// The end, where no finalization of the op is out.
fn unless_out(before: &[Entry], op: u64, end: Option<End>) -> Option<End>
    ensures { option_map reply_of_end result ≡ unless_out (final_out before.now op) (option_map reply_of_end end) }
{
    let Some(end) = end else {
        return None;
    };
    if final_out(before, op).is_some() {
        return None;
    }
    Some(end)
}

/// The end by which an entry aborts the op, after those before it.
fn aborts_at(before: &[Entry], op: u64, entry: &Entry) -> Option<End>
    ensures { option_map reply_of_end result ≡ aborts_at before.now op entry.now }
{
    match name_of_op(before, op) {
        Some(name) => unless_out(before, op, abort_by(entry, name)),
        None => None,
    }
}

/// The op as which a snapshot or a clone was accepted.
fn accepted_op(entry: &Entry) -> Option<u64>
    ensures { result ≡ accepted_by entry.now.step entry.now.reply }
{
    match (&entry.step, &entry.answer) {
        (
            Step::Ask {
                command: Command::Create { .. },
            },
            Answer::Accepted { op },
        ) => Some(*op),
        (Step::AskClone { .. }, Answer::Accepted { op }) => Some(*op),
        _ => None,
    }
}

/// The end as that of the op.
fn with_op(op: u64, end: Option<End>) -> Option<OpEnd>
    ensures { (o : ℕ) → end_in result o ≡ (if op == o then option_map reply_of_end end else None) }
{
    let Some(end) = end else {
        return None;
    };
    Some(OpEnd { op, end })
}

/// The end by which an entry aborts an accepted snapshot, unless that has one of these ends before.
fn aborted(ends: &[OpEnd], before: &[Entry], accepted: &Entry, entry: &Entry) -> Option<OpEnd>
    ensures { (op : ℕ) → or_else (first_end ends.now op) (end_in result op)
        ≡ or_else (first_end ends.now op) (if_named (name_by op accepted.now.step accepted.now.reply) (aborts_at before.now op entry.now)) }
{
    let Some(op) = accepted_op(accepted) else {
        return None;
    };
    if end_of_op(ends, op).is_some() {
        return None;
    }
    with_op(op, aborts_at(before, op, entry))
}

/// Appends the ends by which an entry aborts accepted snapshots.
fn push_aborted(ends: &mut Vec<OpEnd>, before: &[Entry], entry: &Entry) -> Result<(), AllocError>
    ensures { OnOk result ((op : ℕ) → first_end ends.new.items op ≡ or_else (first_end ends.old.items op) (aborts_at before.now op entry.now)) }
{
    for accepted in before {
        let end = aborted(ends.as_slice(), before, accepted, entry);
        keep(ends, end)?;
    }
    Ok(())
}

/// The entry accepts a delete.
fn asks_delete(entry: &Entry) -> bool
    ensures { result ≡ asks_delete entry.now.step entry.now.reply }
{
    match (&entry.step, &entry.answer) {
        (
            Step::Ask {
                command: Command::Delete { names: _ },
            },
            Answer::Accepted { op: _ },
        ) => true,
        _ => false,
    }
}

/// Appends the ends of the ops that an entry aborts, after those before it.
pub fn push_aborts(ends: &mut Vec<OpEnd>, before: &[Entry], entry: &Entry) -> Result<(), AllocError>
    ensures { OnOk result ((op : ℕ) → first_end ends.new.items op ≡ or_else (first_end ends.old.items op) (aborts_at before.now op entry.now)) }
{
    if asks_delete(entry) {
        return push_aborted(ends, before, entry);
    }
    Ok(())
}
