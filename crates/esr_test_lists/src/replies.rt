//! Cases of kind `reply`: what is printed for a line of a script by a reply.
//!
//! `LINE -> REPLY` is answered by what is printed, each line of it ended by a `;`. A reply is one of `made ID`, `deleted OP`,
//! `restored FILES BYTES`, `cleaned BLOBS BYTES`, `term TERM`, `waited`, `checked SNAPSHOTS BLOBS`, `verified`,
//! `refused REFUSAL`, `failed CAUSE`, `failed-op OP CAUSE`, `aborted OP` and `deposed`.
use crate::causes::{refusal_of, why_of};
use crate::trouble::{Done, Trouble};
use crate::words::id_of;
use esr_lines::push_line;
use esr_report::Reply;
use esr_scenes::{Words, say};
use esr_script::{ScriptLine, script_read};
use esr_seq::Bytes;
use std::alloc::{AllocError, Global};

/// Says a text in one line: each line of it is ended by a `;`.
pub(crate) fn say_in_one_line(said: &mut String, text: &[u8]) {
    let text = std::str::from_utf8(text).unwrap_or("?");
    for (place, line) in text.split('\n').enumerate() {
        if place > 0 {
            say(said, ";");
        }
        say(said, line);
    }
}

/// A reply that has numbers.
fn numbered(kind: &str, words: &mut Words) -> Reply {
    let first = words.number();
    match kind {
        "deleted" => Reply::Deleted { op: first },
        "restored" => Reply::Restored {
            files: first,
            bytes: words.number(),
        },
        "cleaned" => Reply::Cleaned {
            blobs: first,
            bytes: words.number(),
        },
        "term" => Reply::Term { term: first },
        "checked" => Reply::Checked {
            snapshots: first,
            blobs: words.number(),
        },
        "aborted" => Reply::Aborted { by: first },
        "failed-op" => Reply::Failed {
            why: why_of(words),
            op: Some(first),
        },
        _ => words.refuse("no such reply", Reply::Waited),
    }
}

fn reply_of(words: &mut Words) -> Reply {
    match words.word() {
        "made" => Reply::Made { uuid: id_of(words) },
        "waited" => Reply::Waited,
        "verified" => Reply::Verified,
        "deposed" => Reply::Deposed,
        "refused" => Reply::Refused {
            refusal: refusal_of(words),
        },
        "failed" => Reply::Failed {
            why: why_of(words),
            op: None,
        },
        kind => numbered(kind, words),
    }
}

/// Appends what is printed for a script's lines by a reply.
fn push_lines(
    text: &mut Bytes,
    alloc: Global,
    script: &[ScriptLine],
    reply: &Reply,
) -> Result<(), AllocError> {
    for line in script {
        push_line(text, alloc, line, reply)?;
    }
    Ok(())
}

/// Says what is printed for a script's lines by a reply.
fn say_printed(alloc: Global, script: &str, reply: &Reply, said: &mut String) -> Done {
    let script = script_read(alloc, script.as_bytes())?;
    let mut text = Bytes::new(alloc);
    push_lines(&mut text, alloc, script.as_slice(), reply)?;
    say_in_one_line(said, text.as_slice());
    Ok(())
}

/// Says what a line of a case is answered.
pub(crate) fn say_answer(alloc: Global, line: &str, said: &mut String) -> Done {
    let Some((script, reply)) = line.split_once(" -> ") else {
        return Err(Trouble::Unread("not a line with its reply"));
    };
    let mut words = Words::new(reply);
    let reply = reply_of(&mut words);
    let reply = words.end(reply)?;
    say_printed(alloc, script, &reply, said)
}
