//! Numbers, ids, prints and names of blobs, as words.
use esr_formats::{append_name, read_name};
use esr_hash::{Print, print_text};
use esr_json::ReadRefusal;
use esr_names::{BlobName, Id};
use esr_scenes::{say, say_bytes, say_number};
use esr_seq::Bytes;
use std::alloc::{AllocError, AllocFailed, Global};
use std::fmt::Write;

/// Why a call isn't answered as usual.
pub(crate) enum Trouble {
    Memory,
    /// The reason, in words.
    Because(&'static str),
}

impl From<AllocError> for Trouble {
    fn from(_: AllocError) -> Self {
        Trouble::Memory
    }
}

impl<T: Drop> From<AllocFailed<T>> for Trouble {
    fn from(_: AllocFailed<T>) -> Self {
        Trouble::Memory
    }
}

/// The number in a word, or the greatest one where it is none.
pub(crate) fn number_of(word: &str) -> u64 {
    word.parse::<u64>().unwrap_or(u64::MAX)
}

/// The id `TERM/COUNTER`.
pub(crate) fn id_of(word: &str) -> Id {
    let (term, counter) = word.split_once('/').unwrap_or((word, ""));
    Id::new(number_of(term), number_of(counter))
}

/// Says the length and the digest of a print.
pub(crate) fn say_print(line: &mut String, print: &Print) {
    say_number(line, print.len);
    say(line, " ");
    say_bytes(line, &print_text(print));
}

/// Says why a text isn't read.
pub(crate) fn say_refusal(line: &mut String, refusal: &ReadRefusal) {
    let _ = match refusal {
        ReadRefusal::Damaged { why } => write!(line, "{why:?}"),
        ReadRefusal::Memory => line.push_str("no memory"),
    };
}

fn name_text(alloc: Global, name: &BlobName) -> Result<Bytes, AllocError> {
    let mut text = Bytes::new(alloc);
    append_name(&mut text, name)?;
    Ok(text)
}

/// Says the name of that number, from 0.
pub(crate) fn say_nth(alloc: Global, names: &[BlobName], nth: &str, line: &mut String) {
    match names.get(number_of(nth) as usize) {
        Some(name) => match name_text(alloc, name) {
            Ok(text) => say_bytes(line, text.as_slice()),
            Err(_) => say(line, "no memory"),
        },
        None => say(line, "none"),
    }
}

/// Says whether the name of this text is among those.
pub(crate) fn say_has(names: &[BlobName], text: &str, line: &mut String) {
    match read_name(text.as_bytes()) {
        Some(name) => say(line, if names.contains(&name) { "yes" } else { "no" }),
        None => say(line, "no name"),
    }
}
