//! What a list of open ops answers, in words.
use crate::trouble::Trouble;
use esr_names::{Id, ShardId};
use esr_ops::{ReadyUnit, Refusal, Work};
use esr_record::{Making, OpWork, RecordOp};
use esr_scenes::{say, say_number};

/// Says an id as its term and its counter.
pub(crate) fn say_id(said: &mut String, id: Id) {
    say_number(said, id.term());
    say(said, ".");
    say_number(said, id.counter());
}

/// Says a word and an id.
fn say_named(said: &mut String, word: &str, id: Id) {
    say(said, word);
    say(said, " ");
    say_id(said, id);
}

/// Says a word and a number.
pub(crate) fn say_numbered(said: &mut String, word: &str, number: u64) {
    say(said, word);
    say(said, " ");
    say_number(said, number);
}

/// Says a word and ids.
fn say_ids(said: &mut String, word: &str, ids: &[Id]) {
    say(said, word);
    for id in ids {
        say(said, " ");
        say_id(said, *id);
    }
}

fn say_refusal(said: &mut String, refusal: Refusal) {
    match refusal {
        Refusal::Memory => say(said, "out of memory"),
        Refusal::CleanupRunning { op } => say_numbered(said, "refused cleanup-running", op),
        Refusal::NameInUse { uuid } => say_named(said, "refused name-in-use", uuid),
        Refusal::TooMany { limit } => say_numbered(said, "refused too-many", limit),
        Refusal::IdsSpent { next } => say_named(said, "refused ids-spent", next),
        Refusal::NoSnapshot { place } => say_numbered(said, "refused no-snapshot", place),
        Refusal::NoIndex { place } => say_numbered(said, "refused no-index", place),
        Refusal::BeingDeleted { op } => say_numbered(said, "refused being-deleted", op),
        Refusal::CloneRunning { op } => say_numbered(said, "refused clone-running", op),
        Refusal::RestoreRunning { op } => say_numbered(said, "refused restore-running", op),
        Refusal::BusyOp { op } => say_numbered(said, "refused busy-op", op),
        Refusal::BusyTicket { ticket } => say_numbered(said, "refused busy-ticket", ticket),
    }
}

/// Says what is shown in place of an answer.
pub(crate) fn say_trouble(said: &mut String, trouble: Trouble) {
    match trouble {
        Trouble::Memory => say(said, "out of memory"),
        Trouble::Unread(why) => say(said, why),
        Trouble::Refused(refusal) => say_refusal(said, refusal),
    }
}

/// Says the shard of a snapshot that is being made: `shard logs/0 of 1.8`.
fn say_shard(said: &mut String, kind: &str, index: &str, shard: ShardId, uuid: Id) {
    say(said, kind);
    say(said, " ");
    say(said, index);
    say(said, "/");
    say_number(said, u64::from(shard.number));
    say(said, " of ");
    say_id(said, uuid);
}

fn say_work(said: &mut String, work: &Work) {
    match work {
        Work::Shard {
            uuid,
            shard,
            index,
            ..
        } => say_shard(said, "shard", index.as_str(), *shard, *uuid),
        Work::CloneShard {
            uuid,
            shard,
            index,
            ..
        } => say_shard(said, "clone-shard", index.as_str(), *shard, *uuid),
        Work::RestoreShard {
            uuid,
            shard,
            index,
            ..
        } => say_shard(said, "restore-shard", index.as_str(), *shard, *uuid),
        Work::Finalize { info, .. } => {
            say(said, "finalize ");
            say(said, info.name.as_str());
            say_numbered(said, " files", info.files);
            say_numbered(said, " bytes", info.bytes);
        }
        Work::Drop => say(said, "drop"),
        Work::Delete { uuids } => say_ids(said, "delete", uuids.as_slice()),
        Work::Cleanup => say(said, "cleanup"),
    }
}

/// Says the largest live generation of a unit's shard.
fn say_base(said: &mut String, base: Option<Id>) {
    match base {
        Some(id) => say_named(said, " base", id),
        None => say(said, " base none"),
    }
}

/// Says where a unit reads or writes, and on what it builds.
fn say_more(said: &mut String, unit: &ReadyUnit) {
    match &unit.work {
        Work::Shard { place, .. } => {
            say(said, " at ");
            say(said, place.as_str());
            say_base(said, unit.copy.base);
        }
        Work::CloneShard { source, .. } => {
            say_named(said, " from", *source);
            say_base(said, unit.copy.base);
        }
        Work::RestoreShard { place, .. } => {
            say(said, " at ");
            say(said, place.as_str());
        }
        _ => {}
    }
}

/// Says a unit that is given.
pub(crate) fn say_unit(said: &mut String, unit: &ReadyUnit) {
    say_numbered(said, "ticket", unit.ticket);
    say_numbered(said, " op", unit.op);
    say(said, " ");
    say_work(said, &unit.work);
    say_more(said, unit);
}

fn say_making(said: &mut String, kind: &str, info: &Making) {
    say(said, kind);
    say_named(said, info.name.as_str(), info.uuid);
}

fn say_op(said: &mut String, work: &OpWork) {
    match work {
        OpWork::Create { info } => say_making(said, "snapshot ", info),
        OpWork::Clone { info, source } => {
            say_making(said, "clone ", info);
            say_named(said, " from", *source);
        }
        OpWork::Delete { uuids } => say_ids(said, "delete", uuids.as_slice()),
        OpWork::Cleanup => say(said, "cleanup"),
    }
}

/// Says the ops of a record, each ended by a `;`, or `none`.
pub(crate) fn say_ops(said: &mut String, ops: &[RecordOp]) {
    if ops.is_empty() {
        say(said, "none");
    }
    for op in ops {
        say_number(said, op.op);
        say(said, " ");
        say_op(said, &op.work);
        say(said, ";");
    }
}
