//! Addresses of shards, as words.
use esr_scenes::{cut, unquoted};

/// The words `PLACE INDEX NUMBER`, and what comes after them.
#[derive(Clone, Copy)]
pub(crate) struct Words<'a> {
    pub place: &'a str,
    pub index: &'a str,
    pub number: u32,
    pub rest: &'a str,
}

/// The words of a call after its verb. A number that isn't one is that of no shard.
pub(crate) fn words_of(call: &str) -> Words<'_> {
    let (place, rest) = cut(call);
    let (index, rest) = cut(rest);
    let (number, rest) = cut(rest);
    Words {
        place,
        index,
        number: number.parse::<u32>().unwrap_or(u32::MAX),
        rest: unquoted(rest),
    }
}

/// The name and the bytes in `NAME=BYTES`.
pub(crate) fn file_of(text: &str) -> (&str, &str) {
    text.split_once('=').unwrap_or((text, ""))
}
