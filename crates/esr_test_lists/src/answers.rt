//! What the steps of a history are answered, in words.
//!
//! An answer is one of `op OP`, `restore-op OP ID SHARDS` (of the snapshot of that uuid, which has one index `logs` of so many shards),
//! `ticket TICKET op OP UNIT`, `drawn ID`, `begun`, `done`, `fetched`, `removed`, `settled`, `ended`,
//! `term TERM`, `looked SAFE ROOT` and `refused REFUSAL`. A unit is one of `shard NUMBER`, `finalize INFO`,
//! `drop`, `restore-shard NUMBER ID` and `delete`.
use crate::causes::refusal_of;
use crate::roots::indices_of;
use crate::trouble::Trouble;
use crate::words::id_of;
use esr_desk::{Answer, Given};
use esr_meta::info_read;
use esr_names::{Id, Ids, ShardId};
use esr_results::ShardResults;
use esr_root::root_read;
use esr_scenes::Words;
use esr_seq::TryClone;
use std::alloc::Global;

fn shard_number(words: &mut Words) -> u32 {
    match words.word().parse() {
        Ok(number) => number,
        Err(_) => words.refuse("not the number of a shard", 0),
    }
}

fn shard_of(words: &mut Words) -> ShardId {
    ShardId {
        index: Id::new(1, 1),
        number: shard_number(words),
    }
}

fn finalize_of(alloc: Global, words: &mut Words) -> Result<Given, Trouble> {
    let info = info_read(alloc, words.rest().as_bytes())?;
    Ok(Given::Finalize {
        info,
        shards: ShardResults::new(alloc),
    })
}

fn given_of(alloc: Global, words: &mut Words) -> Result<Given, Trouble> {
    match words.word() {
        "shard" => Ok(Given::Shard {
            shard: shard_of(words),
            base: None,
        }),
        "restore-shard" => Ok(Given::RestoreShard {
            shard: shard_of(words),
            uuid: id_of(words),
        }),
        "finalize" => finalize_of(alloc, words),
        "drop" => Ok(Given::Drop),
        "delete" => Ok(Given::Delete {
            uuids: Ids::new(alloc),
        }),
        _ => Err(Trouble::Unread("no such unit")),
    }
}

fn gave(alloc: Global, words: &mut Words) -> Result<Answer, Trouble> {
    let ticket = words.number();
    if words.word() != "op" {
        words.refuse("a ticket without its op", ());
    }
    let op = words.number();
    let unit = given_of(alloc, words)?;
    Ok(Answer::Gave { ticket, op, unit })
}

fn accepted_restore(alloc: Global, words: &mut Words) -> Result<Answer, Trouble> {
    let (op, uuid) = (words.number(), id_of(words));
    let indices = indices_of(alloc, shard_number(words))?;
    Ok(Answer::AcceptedRestore { op, uuid, indices })
}

fn looked(alloc: Global, words: &mut Words) -> Result<Answer, Trouble> {
    let Ok(safe) = words.word().parse() else {
        return Err(Trouble::Unread("not a generation"));
    };
    let root = root_read(alloc, words.rest().as_bytes())?;
    let snapshots = root.snapshots.try_clone(alloc)?;
    Ok(Answer::Looked { snapshots, safe })
}

/// An answer of one word, or of a word with a number, an id or a refusal.
fn plain(word: &str, words: &mut Words) -> Answer {
    match word {
        "op" => Answer::Accepted { op: words.number() },
        "drawn" => Answer::Drawn {
            first: id_of(words),
        },
        "term" => Answer::Elected {
            term: words.number(),
        },
        "refused" => Answer::Refused {
            refusal: refusal_of(words),
        },
        "begun" => Answer::Begun,
        "done" => Answer::Done,
        "fetched" => Answer::Fetched,
        "removed" => Answer::Removed,
        "settled" => Answer::Settled,
        "ended" => Answer::Ended,
        _ => words.refuse("no such answer", Answer::Done),
    }
}

fn answer_of(alloc: Global, words: &mut Words) -> Result<Answer, Trouble> {
    match words.word() {
        "restore-op" => accepted_restore(alloc, words),
        "ticket" => gave(alloc, words),
        "looked" => looked(alloc, words),
        word => Ok(plain(word, words)),
    }
}

pub(crate) fn answer_read(alloc: Global, text: &str) -> Result<Answer, Trouble> {
    let mut words = Words::new(text);
    let answer = answer_of(alloc, &mut words)?;
    Ok(words.end(answer)?)
}
