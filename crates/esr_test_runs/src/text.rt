//! The texts of scenes.
use crate::errors::Trouble;
use esr_scenes::say;
use std::alloc::{AllocError, Global};

/// What stands for a byte that isn't to be seen in a scene, and that byte.
static MARKS: [(&str, &str); 5] = [
    ("\\t", "\t"),
    ("\\r", "\r"),
    ("\\s", " "),
    ("\\1", "\u{1}"),
    ("\\d", "\u{7f}"),
];

/// The text with the bytes that its marks stand for.
pub fn plain(alloc: Global, text: &str) -> Result<String, AllocError> {
    let mut plain = String::from_str(alloc, text)?;
    for (mark, meant) in &MARKS {
        plain = plain.as_str().replace(alloc, *mark, *meant)?;
    }
    Ok(plain)
}

/// Adds a line to a text.
pub fn push_line(text: &mut String, line: &str) {
    say(text, line);
    say(text, "\n");
}

/// The first so many bytes of a text, or all of a shorter one.
pub fn front_of(text: &str, length: usize) -> &str {
    match text.split_at_checked(length) {
        Some((front, _)) => front,
        None => text,
    }
}

/// How many blobs the last check of a report counted.
pub fn counted_blobs(report: &str) -> Result<u64, Trouble> {
    let mut counted = Err(Trouble("a check that counted blobs"));
    for line in report.lines() {
        if line.contains(" check ok ") {
            counted = Ok(last_word(line).parse()?);
        }
    }
    counted
}

/// The last word of a line.
pub fn last_word(line: &str) -> &str {
    match line.rsplit_once(' ') {
        Some((_, word)) => word,
        None => line,
    }
}

/// What stands behind that front in the first line that begins with it.
pub fn line_behind<'a>(text: &'a str, front: &str) -> Option<&'a str> {
    for line in text.lines() {
        if let Some(rest) = line.strip_prefix(front) {
            return Some(rest);
        }
    }
    None
}
