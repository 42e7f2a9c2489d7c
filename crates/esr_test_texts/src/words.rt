//! The words of a case, and what is said of one. Where memory is wanting the line ends early, and isn't the one that is wanted.
use esr_json::{ReadRefusal, Reason};
use esr_names::{Id, IndexName, SnapName, id_read};
use esr_seq::Bytes;
use std::alloc::{AllocError, Global};

/// Whether something is said of a case, or why its text isn't read. Nothing is said of such a text.
pub(crate) type Said = Result<(), ReadRefusal>;

/// Adds a text to a line.
pub(crate) fn say(line: &mut String, text: &str) {
    let _ = line.push_str(text);
}

/// Adds bytes to a line, as a text.
pub(crate) fn say_bytes(line: &mut String, bytes: &[u8]) {
    say(line, str::from_utf8(bytes).unwrap_or("?"));
}

/// Says a text that was written, if there was memory for it.
pub(crate) fn say_written(line: &mut String, text: Result<Bytes, AllocError>) -> Said {
    say_bytes(line, text?.as_slice());
    Ok(())
}

/// What is said where there is no such question.
pub(crate) const UNKNOWN: &str = "there is no such question";

pub(crate) fn say_unknown(line: &mut String) -> Said {
    say(line, UNKNOWN);
    Ok(())
}

/// The first word, and what comes after it.
pub(crate) fn cut(text: &str) -> (&str, &str) {
    text.split_once(' ').unwrap_or((text, ""))
}

/// What comes before the last word, and that word.
pub(crate) fn cut_last(text: &str) -> (&str, &str) {
    text.rsplit_once(' ').unwrap_or(("", text))
}

/// The number that a word spells, else 0.
pub(crate) fn number(word: &str) -> u64 {
    word.parse::<u64>().unwrap_or(0)
}

/// The number of 32 bits that a word spells, else 0.
pub(crate) fn small(word: &str) -> u32 {
    word.parse::<u32>().unwrap_or(0)
}

/// The number that a word spells, which may be below 0, else 0.
pub(crate) fn signed(word: &str) -> i64 {
    word.parse::<i64>().unwrap_or(0)
}

/// The id that a word is the text of, else 0.0.
pub(crate) fn id(word: &str) -> Id {
    id_read(word.as_bytes()).unwrap_or(Id { number: 0 })
}

const BAD: ReadRefusal = ReadRefusal::Damaged {
    why: Reason::BadName,
};

/// The name of a snapshot.
pub(crate) fn snap_name(alloc: Global, word: &str) -> Result<SnapName, ReadRefusal> {
    SnapName::new(alloc, word).ok().ok_or(BAD)
}

/// The name of an index.
pub(crate) fn index_name(alloc: Global, word: &str) -> Result<IndexName, ReadRefusal> {
    IndexName::new(alloc, word).ok().ok_or(BAD)
}
