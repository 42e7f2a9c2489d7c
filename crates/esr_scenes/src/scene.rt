//! The parts of a scene.

/// A test as text: its name, the sentence that says what it shows, what it is played over, and its lines.
#[derive(Clone, Copy)]
pub struct Scene<'a> {
    pub name: &'a str,
    pub shows: &'a str,
    pub over: &'a str,
    pub lines: &'a str,
}

/// The number of the first line below the head of a scene, where the line of its name is the first.
pub(crate) const FIRST_LINE: usize = 4;

/// The first line, and the others.
fn cut_line(text: &str) -> (&str, &str) {
    text.split_once('\n').unwrap_or((text, ""))
}

/// The scene of this text, which begins with its name. What its head lacks is empty.
pub(crate) fn scene_of(text: &str) -> Scene<'_> {
    let (name, rest) = cut_line(text);
    let (shows, rest) = cut_line(rest);
    let (over, lines) = cut_line(rest);
    Scene {
        name,
        shows: shows.strip_prefix("shows ").unwrap_or(""),
        over: over.strip_prefix("over ").unwrap_or(""),
        lines,
    }
}

/// The text, or none where it is written as two quotes.
pub fn unquoted(text: &str) -> &str {
    if text == "''" { "" } else { text }
}

/// The first word of a call, and the text after it.
pub fn cut(call: &str) -> (&str, &str) {
    let (word, rest) = call.split_once(' ').unwrap_or((call, ""));
    (unquoted(word), rest.trim_start())
}
