//! Records, and the swaps of their numbers.
use crate::names::say_id;
use crate::words::{Said, UNKNOWN, cut, cut_last, number, say, say_unknown, say_written, signed};
use esr_names::Id;
use esr_record::{
    ClusterRecord, Making, OpWork, RecordOp, RecordRefusal, record_read, record_text,
};
use esr_seq::TryClone;
use std::alloc::Global;
use std::fmt::Display;

/// Says the numbers of a record, how many ops it has, and the number of the last.
fn say_numbers(line: &mut String, record: &ClusterRecord) {
    let (pending, safe, term) = (record.pending, record.safe, record.term);
    let (count, last) = (record.ops.as_slice().len(), record.ops.last());
    let _ = write!(
        line,
        "pending {pending} safe {safe} term {term}, {count} ops, last {last}"
    );
}

fn say_making(line: &mut String, info: &Making) {
    let (name, moment, count) = (info.name.as_str(), info.moment, info.indices.len());
    let _ = write!(line, "{name} ");
    say_id(line, info.uuid);
    let _ = write!(line, " moment {moment}, {count} indices");
}

fn say_clone(line: &mut String, info: &Making, source: Id) {
    say(line, "clone ");
    say_making(line, info);
    say(line, ", of ");
    say_id(line, source);
}

fn say_delete(line: &mut String, uuids: &[Id]) {
    say(line, "delete");
    for uuid in uuids {
        say(line, " ");
        say_id(line, *uuid);
    }
}

fn say_work(line: &mut String, work: &OpWork) {
    match work {
        OpWork::Create { info } => {
            say(line, "create ");
            say_making(line, info);
        }
        OpWork::Clone { info, source } => say_clone(line, info, *source),
        OpWork::Delete { uuids } => say_delete(line, uuids.as_slice()),
        OpWork::Cleanup => say(line, "cleanup"),
    }
}

/// Says the op at this place.
fn say_op(line: &mut String, record: &ClusterRecord, place: u64) {
    match record.ops.as_slice().get(place as usize) {
        Some(op) => {
            let _ = write!(line, "{} ", op.op);
            say_work(line, &op.work);
        }
        None => say(line, "none"),
    }
}

/// Says the answer to a swap.
fn say_swap<T: Display + Copy>(line: &mut String, answer: Result<T, RecordRefusal>) {
    let _ = match answer {
        Ok(number) => write!(line, "{number}"),
        Err(refusal) => write!(line, "{refusal}"),
    };
}

/// Makes a generation the safe one, which is above that and was given out where the term is the master's.
fn settle(line: &mut String, record: &mut ClusterRecord, own: u64, generation: i64) {
    if own == record.term && (generation <= record.safe || record.pending < generation) {
        return say(line, UNKNOWN);
    }
    match record.settle(own, generation) {
        Ok(()) => say(line, "done"),
        Err(refusal) => say_swap::<u64>(line, Err(refusal)),
    }
}

/// Adds a cleanup with this number, which is above the last.
fn push(line: &mut String, record: &mut ClusterRecord, op: u64) -> Said {
    if op <= record.ops.last() || op > 1 << 62 {
        return say_unknown(line);
    }
    let work = OpWork::Cleanup;
    record.ops.push(RecordOp { op, work })?;
    say(line, "done");
    Ok(())
}

/// Changes the numbers of a record, or removes an op, and says the answer.
fn change_plain(line: &mut String, question: &str, words: &str, record: &mut ClusterRecord) {
    let (first, second) = cut(words);
    match question {
        "elect" => say_swap(line, record.elect()),
        "raise" => say_swap(line, record.raise(number(first))),
        "settle" => settle(line, record, number(first), signed(second)),
        "remove" => {
            record.ops.remove(number(first));
            say(line, "done");
        }
        _ => say(line, UNKNOWN),
    }
}

/// Says the answer to a change of a record, and the text of the record then.
fn say_changed(
    alloc: Global,
    line: &mut String,
    question: &str,
    words: &str,
    record: &mut ClusterRecord,
) -> Said {
    match question {
        "push" => push(line, record, number(cut(words).0))?,
        _ => change_plain(line, question, words, record),
    }
    say(line, ": ");
    say_written(line, record_text(alloc, record))
}

/// Says what is asked of a record, by the words before its text; of a change the answer, and the text of the record then.
fn say_of_record(
    alloc: Global,
    line: &mut String,
    question: &str,
    words: &str,
    record: &mut ClusterRecord,
) -> Said {
    match question {
        "numbers" => {
            say_numbers(line, record);
            Ok(())
        }
        "op" => {
            say_op(line, record, number(words));
            Ok(())
        }
        _ => say_changed(alloc, line, question, words, record),
    }
}

/// Says the text of the copy of a record of a text.
fn say_again(alloc: Global, line: &mut String, text: &str) -> Said {
    let record = record_read(alloc, text.as_bytes())?;
    let copy = record.try_clone(alloc)?;
    say_written(line, record_text(alloc, &copy))
}

pub(crate) fn answer(alloc: Global, line: &mut String, question: &str, text: &str) -> Said {
    match question {
        "again" => say_again(alloc, line, text),
        "new" => say_written(line, record_text(alloc, &ClusterRecord::new(alloc))),
        _ => {
            let (words, text) = cut_last(text);
            let mut record = record_read(alloc, text.as_bytes())?;
            say_of_record(alloc, line, question, words, &mut record)
        }
    }
}
