//! The replies of a script's lines.
ghost use Rattle.std.specs.Prelude.{◌≡◌, map, IfOk, option_map};
ghost use Rattle.esr_report.specs.Replies.{fails_swap, has_fallen, is_end, is_line_read, is_of_line, from_line, falls_before, deposed_by, refused_reply, ask_reply, is_election, from_election, before_election, election_reply, failover_reply, past_first, look_reply, ended_reply, read_reply, answer_at, is_looked, is_look_answered, past_look, checked_reply, check_ended, down_reply, check_answer, line_answer, is_short, has_none, is_cut, wait_answer, replies};
ghost use Rattle.esr_script.specs.Kinds.{is_check, is_failover, is_wait};
ghost use Rattle.esr_core.specs.After.{or_else, swaps_record};
ghost use Rattle.esr_core.specs.Entry.{is_recorded};
ghost use Rattle.esr_ops.specs.Asked.{asked_of};
ghost use Rattle.esr_desk.specs.Refusals.{refusal_of};
ghost use Rattle.esr_desk.specs.Entries.{read_of, step_of, answer_of};
ghost use Rattle.esr_report.specs.Ends.{AreAllEnds};
ghost use Rattle.esr_report.specs.Code.{reply_of};

use crate::told::{ToldEnds, op_reply, restore_reply, told_ends};
use crate::{Replies, Reply};
use esr_desk::{Answer, Entry, EntryRefusal, History, Prune, Read, Step, Why};
use esr_ops::Command;
use esr_script::{Item, Kind, Script};
use esr_seq::TryClone;
use std::alloc::{AllocError, Global};

/// The cluster record has the op of the command.
fn is_recorded(command: &Command) -> bool
    ensures { result ≡ is_recorded (asked_of command.now) }
{
    !matches!(command, Command::Restore { .. })
}

fn swaps_record(step: &Step) -> bool
    ensures { result ≡ swaps_record (step_of step.now) }
{
    match step {
        Step::Ask { command } => is_recorded(command),
        Step::AskClone { .. } | Step::Raise | Step::Settle | Step::Dropped | Step::Elect => true,
        Step::Prune { prune } => matches!(prune, Prune::Settle),
        _ => false,
    }
}

/// A record swap failed in it.
fn fails_swap(entry: &Entry) -> bool
    ensures { result ≡ fails_swap entry.now.step entry.now.reply }
{
    match &entry.answer {
        Answer::Refused {
            refusal: EntryRefusal::DepotFault,
        } => swaps_record(&entry.step),
        _ => false,
    }
}

/// A record swap failed in one of them.
pub fn has_fallen(entries: &[Entry]) -> bool
    ensures { result ≡ has_fallen entries.now }
{
    for entry in entries {
        if fails_swap(entry) {
            return true;
        }
    }
    false
}

/// A verification or a check ends by it.
fn is_end(read: &Read) -> bool
    ensures { result ≡ is_end (read_of read.now) }
{
    matches!(
        read,
        Read::Verified | Read::Checked { .. } | Read::Failed { .. }
    )
}

/// A verification or a check has ended, or is over since a step of it was refused as a record swap had failed.
fn is_line_read(read: &Read, answer: &Answer) -> bool
    ensures { result ≡ is_line_read (read_of read.now) (answer_of answer.now) }
{
    match answer {
        Answer::Ended => is_end(read),
        Answer::Refused {
            refusal: EntryRefusal::Deposed { entry: _ },
        } => true,
        _ => false,
    }
}

/// It belongs to a line: an ask or a look of who 0, or the end of a verification or a check.
fn is_of_line(entry: &Entry) -> bool
    ensures { result ≡ is_of_line entry.now }
{
    let is_line = match &entry.step {
        Step::Ask { .. } | Step::AskClone { .. } | Step::Look => true,
        Step::Read { read } => is_line_read(read, &entry.answer),
        _ => false,
    };
    entry.who == 0 && is_line
}

/// The entries from the first one on that belongs to a line.
fn from_line(entries: &[Entry]) -> &[Entry]
    ensures { result.now ≡ from_line entries.now }
{
    let mut rest = entries;
    while let [first, more @ ..] = rest {
        if is_of_line(first) {
            return rest;
        }
        rest = more;
    }
    rest
}

/// A record swap failed before that one.
fn falls_before(entries: &[Entry]) -> bool
    ensures { result ≡ falls_before entries.now }
{
    for entry in entries {
        if is_of_line(entry) {
            return false;
        }
        if fails_swap(entry) {
            return true;
        }
    }
    false
}

/// What the refusal of an ask or of an election answers.
fn refused(refusal: EntryRefusal) -> Reply
    ensures { reply_of result ≡ refused_reply (refusal_of refusal) }
{
    match refusal {
        EntryRefusal::DepotFault => Reply::Failed {
            why: Why::Depot,
            op: None,
        },
        EntryRefusal::Deposed { entry: _ } => Reply::Deposed,
        _ => Reply::Refused { refusal },
    }
}

/// What is answered where nothing else is: that a record swap failed.
fn if_fallen(entries: &[Entry], reply: Option<Reply>) -> Option<Reply>
    ensures { option_map reply_of result ≡ or_else (option_map reply_of reply) (deposed_by (has_fallen entries.now)) }
{
    match reply {
        Some(reply) => Some(reply),
        None => has_fallen(entries).then_some(Reply::Deposed),
    }
}

/// What the ask of a command is answered.
fn ask_reply(
    alloc: Global,
    entries: &[Entry],
    told: &ToldEnds,
    answer: &Answer,
) -> Result<Option<Reply>, AllocError>
    requires { AreAllEnds entries.now told.now }
    ensures { IfOk result (λ r. option_map reply_of r ≡ ask_reply entries.now (answer_of answer.now)) }
{
    match answer {
        Answer::Accepted { op } => Ok(if_fallen(entries, op_reply(told, *op))),
        Answer::AcceptedRestore { op, uuid, indices } => {
            let reply = restore_reply(alloc, told, *op, *uuid, indices.as_slice())?;
            Ok(if_fallen(entries, reply))
        }
        Answer::Refused { refusal } => Ok(Some(refused(*refusal))),
        _ => Ok(None),
    }
}

/// What a look is answered.
fn look_reply(alloc: Global, answer: &Answer) -> Result<Option<Reply>, AllocError>
    ensures { IfOk result (λ r. option_map reply_of r ≡ look_reply (answer_of answer.now)) }
{
    match answer {
        Answer::Looked { snapshots, safe: _ } => Ok(Some(Reply::Listed {
            snapshots: snapshots.try_clone(alloc)?,
        })),
        Answer::Refused {
            refusal: EntryRefusal::Deposed { entry: _ },
        } => Ok(Some(Reply::Deposed)),
        _ => Ok(None),
    }
}

/// What the end of a verification or of a check answers its line.
fn ended_reply(read: &Read) -> Option<Reply>
    ensures { option_map reply_of result ≡ ended_reply (read_of read.now) }
{
    match read {
        Read::Verified => Some(Reply::Verified),
        Read::Checked { snapshots, blobs } => Some(Reply::Checked {
            snapshots: *snapshots,
            blobs: *blobs,
        }),
        Read::Failed { why } => Some(Reply::Failed {
            why: *why,
            op: None,
        }),
        _ => None,
    }
}

/// What a step of a verification or a check answers its line, where it is over by then.
fn read_reply(read: &Read, answer: &Answer) -> Option<Reply>
    ensures { option_map reply_of result ≡ read_reply (read_of read.now) (answer_of answer.now) }
{
    match answer {
        Answer::Ended => ended_reply(read),
        Answer::Refused {
            refusal: EntryRefusal::Deposed { entry: _ },
        } => Some(Reply::Deposed),
        _ => None,
    }
}

/// What the line of an entry is answered.
fn answer_at(
    alloc: Global,
    entries: &[Entry],
    told: &ToldEnds,
    entry: &Entry,
) -> Result<Option<Reply>, AllocError>
    requires { AreAllEnds entries.now told.now }
    ensures { IfOk result (λ r. option_map reply_of r ≡ answer_at entries.now entry.now.step entry.now.reply) }
{
    match &entry.step {
        Step::Ask { command: _ } => ask_reply(alloc, entries, told, &entry.answer),
        Step::AskClone { .. } => ask_reply(alloc, entries, told, &entry.answer),
        Step::Look => look_reply(alloc, &entry.answer),
        Step::Read { read } => Ok(read_reply(read, &entry.answer)),
        _ => Ok(None),
    }
}

fn is_check(item: &Item) -> bool
    ensures { result ≡ is_check item.now }
{
    matches!(item.kind(), Kind::Check)
}

fn is_looked(answer: &Answer) -> bool
    ensures { result ≡ is_looked (answer_of answer.now) }
{
    matches!(answer, Answer::Looked { .. })
}

/// A look that was answered.
fn is_look_answered(entry: &Entry) -> bool
    ensures { result ≡ is_look_answered entry.now.step entry.now.reply }
{
    match &entry.step {
        Step::Look => is_looked(&entry.answer),
        _ => false,
    }
}

/// After the look of a check, the entries from the next one on that belongs to a line.
fn past_look(checks: bool, entries: &[Entry]) -> &[Entry]
    ensures { result.now ≡ past_look checks entries.now }
{
    let [first, more @ ..] = entries else {
        return entries;
    };
    if checks && is_look_answered(first) {
        return from_line(more);
    }
    entries
}

fn checked_reply(read: &Read) -> Option<Reply>
    ensures { option_map reply_of result ≡ checked_reply (read_of read.now) }
{
    match read {
        Read::Checked { snapshots, blobs } => Some(Reply::Checked {
            snapshots: *snapshots,
            blobs: *blobs,
        }),
        Read::Failed { why } => Some(Reply::Failed {
            why: *why,
            op: None,
        }),
        _ => None,
    }
}

/// What the end of a check answers its line.
fn check_ended(read: &Read, answer: &Answer) -> Option<Reply>
    ensures { option_map reply_of result ≡ check_ended (read_of read.now) (answer_of answer.now) }
{
    match answer {
        Answer::Ended => checked_reply(read),
        _ => None,
    }
}

/// What the look of a check answers it, where that was refused.
fn down_reply(answer: &Answer) -> Option<Reply>
    ensures { option_map reply_of result ≡ down_reply (answer_of answer.now) }
{
    match answer {
        Answer::Refused {
            refusal: EntryRefusal::Deposed { entry: _ },
        } => Some(Reply::Deposed),
        _ => None,
    }
}

/// What an entry answers a check.
fn check_answer(entry: &Entry) -> Option<Reply>
    ensures { option_map reply_of result ≡ check_answer entry.now.step entry.now.reply }
{
    match &entry.step {
        Step::Look => down_reply(&entry.answer),
        Step::Read { read } => check_ended(read, &entry.answer),
        _ => None,
    }
}

/// What an entry answers a line.
fn line_answer(
    alloc: Global,
    entries: &[Entry],
    told: &ToldEnds,
    item: &Item,
    entry: &Entry,
) -> Result<Option<Reply>, AllocError>
    requires { AreAllEnds entries.now told.now }
    ensures { IfOk result (λ r. option_map reply_of r ≡ line_answer item.now entries.now entry.now.step entry.now.reply) }
{
    if is_check(item) {
        return Ok(check_answer(entry));
    }
    answer_at(alloc, entries, told, entry)
}

fn is_failover(item: &Item) -> bool
    ensures { result ≡ is_failover item.now }
{
    matches!(item.kind(), Kind::Failover)
}

fn is_election(entry: &Entry) -> bool
    ensures { result ≡ is_election entry.now }
{
    entry.who == 0 && matches!(entry.step, Step::Elect)
}

/// The entries from the first election on.
fn from_election(entries: &[Entry]) -> &[Entry]
    ensures { result.now ≡ from_election entries.now }
{
    let mut rest = entries;
    while let [first, more @ ..] = rest {
        if is_election(first) {
            return rest;
        }
        rest = more;
    }
    rest
}

/// What an election answers its failover.
fn election_reply(answer: &Answer) -> Option<Reply>
    ensures { option_map reply_of result ≡ election_reply (answer_of answer.now) }
{
    match answer {
        Answer::Elected { term } => Some(Reply::Term { term: *term }),
        Answer::Refused { refusal } => Some(refused(*refusal)),
        _ => None,
    }
}

/// What a failover is answered by the first of these entries, its election; else by a record swap that failed.
fn failover_reply(fallen: bool, elections: &[Entry]) -> Option<Reply>
    ensures { option_map reply_of result ≡ failover_reply fallen elections.now }
{
    let [first, ..] = elections else {
        return fallen.then_some(Reply::Deposed);
    };
    election_reply(&first.answer)
}

fn past_first(entries: &[Entry]) -> &[Entry]
    ensures { result.now ≡ past_first entries.now }
{
    let [_, more @ ..] = entries else {
        return entries;
    };
    more
}

fn is_wait(item: &Item) -> bool
    ensures { result ≡ is_wait item.now }
{
    matches!(item.kind(), Kind::Wait)
}

/// Those of `rest` before the next election of a failover, after the elections of the failovers before.
fn before_election<'a>(later: &[Entry], rest: &'a [Entry]) -> &'a [Entry]
    ensures { result.now ≡ before_election later.now rest.now }
{
    &rest[..rest.len().saturating_sub(from_election(later).len())]
}

/// There are fewer entries than turns last for.
pub(crate) fn is_short(entries: &[Entry]) -> bool
    ensures { result ≡ is_short entries.now }
{
    let count = entries.len() as u64;
    count < 1 << 33
}

fn has_none(entries: &[Entry]) -> bool
    ensures { result ≡ has_none entries.now }
{
    let [_, ..] = entries else {
        return true;
    };
    false
}

/// A wait before `rest` may have been left with its turns spent.
fn is_cut(entries: &[Entry], rest: &[Entry]) -> bool
    ensures { result ≡ is_cut entries.now rest.now }
{
    !is_short(entries) && has_none(from_line(rest))
}

/// What a wait is answered, after which a record swap had failed or not, unless it may have been left.
fn wait_answer(down: bool, cut: bool) -> Option<Reply>
    ensures { option_map reply_of result ≡ wait_answer down cut }
{
    if down {
        return Some(Reply::Deposed);
    }
    if cut {
        return None;
    }
    Some(Reply::Waited)
}

/// The replies of the lines, in order, as far as there is an answer.
pub fn replies(alloc: Global, script: &Script, history: &History) -> Result<Replies, AllocError>
    ensures { IfOk result (λ rs. map reply_of rs ≡ replies script.now history.now) }
{
    let entries = history.as_slice();
    let told = told_ends(alloc, entries)?;
    replies_by(alloc, script, entries, &told)
}

/// The replies, by these ends that the entries tell.
#[tactic(auto, unfolding(crate::specs::Replies::replies))]
fn replies_by(
    alloc: Global,
    script: &Script,
    entries: &[Entry],
    told: &ToldEnds,
) -> Result<Replies, AllocError>
    requires { AreAllEnds entries.now told.now }
    ensures { IfOk result (λ rs. map reply_of rs ≡ replies script.now entries.now) }
{
    let fallen = has_fallen(entries);
    let mut rest = entries;
    let mut down = false;
    let mut later = entries;
    let mut replies = Replies::new(alloc);
    for line in script.as_slice() {
        if is_wait(&line.item) {
            let falls = down || falls_before(before_election(later, rest));
            let Some(reply) = wait_answer(falls, is_cut(entries, rest)) else {
                return Ok(replies);
            };
            replies.push(reply)?;
            continue;
        }
        if is_failover(&line.item) {
            let elections = from_election(later);
            let Some(reply) = failover_reply(fallen, elections) else {
                return Ok(replies);
            };
            replies.push(reply)?;
            later = past_first(elections);
            continue;
        }
        let [entry, more @ ..] = past_look(is_check(&line.item), from_line(rest)) else {
            return Ok(replies);
        };
        let Some(reply) = line_answer(alloc, entries, told, &line.item, entry)? else {
            return Ok(replies);
        };
        replies.push(reply)?;
        down = down || falls_before(rest) || fails_swap(entry);
        rest = more;
    }
    Ok(replies)
}
