//! The subjects of the cases.
use crate::words::{Said, UNKNOWN, say};
use crate::{hash, json, lists, meta, names, record, root, script, shard, shard_files};
use std::alloc::Global;

/// Answers a question about a text that can always be read.
fn answer_plain(line: &mut String, subject: &str, question: &str, text: &str) {
    match subject {
        "hash" => hash::answer(line, question, text),
        "length" => {
            let _ = write!(line, "{}", text.len());
        }
        _ => say(line, UNKNOWN),
    }
}

/// Answers a question about a text.
fn answer_text(
    alloc: Global,
    line: &mut String,
    subject: &str,
    question: &str,
    text: &str,
) -> Said {
    match subject {
        "list" => lists::answer(alloc, line, question, text),
        "name" => names::answer(alloc, line, question, text),
        "json" => json::answer(alloc, line, question, text),
        "root" => root::answer(alloc, line, question, text),
        "record" => record::answer(alloc, line, question, text),
        "meta" => meta::answer(alloc, line, question, text),
        "shard" => shard::answer(alloc, line, question, text),
        "file" => shard_files::answer(alloc, line, question, text),
        "script" => script::answer(alloc, line, question, text),
        _ => {
            answer_plain(line, subject, question, text);
            Ok(())
        }
    }
}

/// Answers a question about bytes. Those that are no text in UTF-8 are for the reader of JSON alone.
pub(crate) fn answer(
    alloc: Global,
    line: &mut String,
    subject: &str,
    question: &str,
    bytes: &[u8],
) -> Said {
    match str::from_utf8(bytes) {
        Ok(text) => answer_text(alloc, line, subject, question, text),
        Err(_) => json::say_again(alloc, line, bytes),
    }
}
