//! Answers, as a line of text. Where memory is wanting the line ends early, and isn't the one that is wanted.
use std::fmt::Write;

/// Adds a text to a line.
pub fn say(line: &mut String, text: &str) {
    let _ = line.push_str(text);
}

/// Adds bytes to a line, as a text.
pub fn say_bytes(line: &mut String, bytes: &[u8]) {
    say(line, std::str::from_utf8(bytes).unwrap_or("?"));
}

/// Adds a number to a line.
pub fn say_number(line: &mut String, number: u64) {
    let _ = write!(line, "{number}");
}

/// Adds a name and its length to a line.
pub fn say_length(line: &mut String, name: &str, length: u64) {
    say(line, name);
    say(line, ":");
    say_number(line, length);
    say(line, " ");
}

/// Adds to a line how often an object has failed.
pub fn say_faults(line: &mut String, count: u64) {
    say(line, "faults ");
    say_number(line, count);
}

/// Adds to a line whether a call went through.
pub fn say_success(line: &mut String, is_ok: bool) {
    say(line, if is_ok { "ok " } else { "failed " });
}
