//! Groups of cases.
use crate::answers::answer;
use crate::notation::bytes_of;
use crate::words::{Said, cut, say};
use esr_json::ReadRefusal;
use std::alloc::Global;
use std::io;

/// How many cases held, and how many did not.
#[derive(Clone, Copy)]
pub(crate) struct Tally {
    pub(crate) held: u32,
    pub(crate) failed: u32,
}

/// What the cases of a group have in common.
#[derive(Clone, Copy)]
struct Group<'a> {
    file: &'a str,
    title: &'a str,
    /// What is asked: a subject, and a question about it.
    subject: &'a str,
    question: &'a str,
    /// The text of a case stands in the place of the two dots here.
    frame: &'a str,
}

/// Says what is answered to the text of a case.
fn tell(alloc: Global, line: &mut String, group: &Group<'_>, text: &str) -> Said {
    let text = group.frame.replace(alloc, "..", text)?;
    let bytes = bytes_of(alloc, text.as_str())?;
    answer(alloc, line, group.subject, group.question, bytes.as_slice())
}

/// Says what is answered to the text of a case, or why it isn't read.
fn say_answer(alloc: Global, line: &mut String, group: &Group<'_>, text: &str) {
    match tell(alloc, line, group, text) {
        Ok(()) => {}
        Err(ReadRefusal::Damaged { why }) => {
            let _ = write!(line, "{why:?}");
        }
        Err(ReadRefusal::Memory) => say(line, "no memory"),
    }
}

/// Tells that a case doesn't hold.
fn complain(
    rt: &HostRuntime,
    group: &Group<'_>,
    line: &str,
    wanted: &str,
    came: &str,
) -> io::Result<()> {
    let (file, title) = (group.file, group.title);
    eprintln!(rt; "{file}: {title}\n  the line {line}\n  wanted   {wanted}\n  came     {came}")
}

/// Whether what came is what is wanted. It isn't where memory is wanting.
fn is_wanted(alloc: Global, wanted: &str, came: &str) -> bool {
    match bytes_of(alloc, wanted) {
        Ok(wanted) => wanted.as_slice() == came.as_bytes(),
        Err(_) => false,
    }
}

/// Counts a case, and tells that it doesn't hold where this is so.
fn judge(
    rt: &HostRuntime,
    group: &Group<'_>,
    (line, wanted): (&str, &str),
    came: &str,
    tally: &mut Tally,
) -> io::Result<()> {
    if is_wanted(rt.alloc(), wanted, came) {
        tally.held = tally.held.saturating_add(1);
        return Ok(());
    }
    tally.failed = tally.failed.saturating_add(1);
    complain(rt, group, line, wanted, came)
}

/// Plays a case: what is wanted, where `=` is the text itself, a bar, and the text of the case.
fn play_case(rt: &HostRuntime, group: &Group<'_>, line: &str, tally: &mut Tally) -> io::Result<()> {
    let (wanted, text) = line.split_once(" | ").unwrap_or((line, ""));
    let wanted = if wanted == "=" { text } else { wanted };
    let mut came = String::new(rt.alloc());
    say_answer(rt.alloc(), &mut came, group, text);
    judge(rt, group, (line, wanted), came.as_str(), tally)
}

/// The group with this title, whose next line has the question and the frame.
fn group_of<'a>(file: &'a str, title: &'a str, head: &'a str) -> Group<'a> {
    let (subject, rest) = cut(head);
    let (question, frame) = cut(rest);
    Group {
        file,
        title,
        subject,
        question,
        frame: if frame.is_empty() { ".." } else { frame },
    }
}

/// Plays a group: its title, a line with the question and the frame, and a line for each case.
fn play_group(rt: &HostRuntime, file: &str, group: &str, tally: &mut Tally) -> io::Result<()> {
    let (title, rest) = group.split_once('\n').unwrap_or((group, ""));
    let (head, lines) = rest.split_once('\n').unwrap_or((rest, ""));
    let group = group_of(file, title, head);
    for line in lines.lines() {
        play_case(rt, &group, line, tally)?;
    }
    Ok(())
}

/// Plays the groups of a file, which stand apart by empty lines.
pub(crate) fn play(rt: &HostRuntime, file: &str, text: &str) -> io::Result<Tally> {
    let mut tally = Tally { held: 0, failed: 0 };
    for group in text.split("\n\n") {
        play_group(rt, file, group, &mut tally)?;
    }
    Ok(tally)
}
