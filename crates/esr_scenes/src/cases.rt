//! Cases are played. They stand apart by empty lines. The first line of one is `KIND NAME: SENTENCE`, and each other is
//! `LINE = ANSWER`, or a line without an answer. A line that begins with `#` is a remark. What has the kind `container` is no case:
//! its lines are for cases that name it.
use crate::play::{Place, tell_difference};
use std::alloc::Global;
use std::io;
use std::process::ExitCode;

/// What answers the lines of cases, by their kinds.
pub trait CasePlayer {
    /// Begins a case of that kind, which is empty where it has none.
    fn begin(&mut self, alloc: Global, kind: &str);

    /// Says what a line is answered; nothing, where it asks for nothing. `cases` is the text of all cases.
    fn answer(&mut self, alloc: Global, cases: &str, line: &str, said: &mut String);
}

/// How many cases there were, how many of their lines have an answer, and how many were answered otherwise.
#[derive(Clone, Copy)]
struct Counts {
    cases: u64,
    answers: u64,
    wrong: u64,
}

/// A case: its kind, empty where it has none, its name, and its lines.
#[derive(Clone, Copy)]
struct Case<'a> {
    kind: &'a str,
    name: &'a str,
    lines: &'a str,
}

fn case_of(text: &str) -> Case<'_> {
    let (line, lines) = text.split_once('\n').unwrap_or((text, ""));
    let (title, sentence) = line.split_once(": ").unwrap_or((line, ""));
    let (kind, name) = title.split_once(' ').unwrap_or((title, ""));
    if name.is_empty() || sentence.is_empty() {
        let (kind, name) = ("", title);
        return Case { kind, name, lines };
    }
    Case { kind, name, lines }
}

/// The lines of the container of that name, if there is one.
pub fn container_lines<'a>(cases: &'a str, name: &str) -> Option<&'a str> {
    for text in cases.split("\n\n") {
        let case = case_of(text);
        if case.kind == "container" && case.name == name {
            return Some(case.lines);
        }
    }
    None
}

/// The line with its answer, where it has one.
fn cut_answer(line: &str) -> (&str, &str) {
    line.split_once(" = ").unwrap_or((line, ""))
}

impl Counts {
    fn count(&mut self, has_answer: bool, is_wrong: bool) {
        self.answers = self.answers.saturating_add(u64::from(has_answer));
        self.wrong = self.wrong.saturating_add(u64::from(is_wrong));
    }

    /// Plays a line of a case. Where it is answered otherwise than it says it prints so.
    fn play_line<P: CasePlayer>(
        &mut self,
        rt: &(impl Print + Eprint),
        alloc: Global,
        cases: &str,
        place: Place<'_>,
        line: &str,
        player: &mut P,
    ) -> io::Result<()> {
        let (asked, wanted) = cut_answer(line);
        let mut came = String::new(alloc);
        player.answer(alloc, cases, asked, &mut came);
        let is_wrong = came.as_str() != wanted;
        self.count(!wanted.is_empty(), is_wrong);
        if is_wrong {
            tell_difference(rt, alloc, place, (asked, wanted), came.as_str())
        } else {
            Ok(())
        }
    }

    /// Plays a case, whose title has that number among the lines of all cases.
    fn play<P: CasePlayer>(
        &mut self,
        rt: &(impl Print + Eprint),
        alloc: Global,
        cases: &str,
        case: Case<'_>,
        title: u64,
        player: &mut P,
    ) -> io::Result<()> {
        self.cases = self.cases.saturating_add(1);
        player.begin(alloc, case.kind);
        let mut number = title;
        for line in case.lines.lines() {
            number = number.saturating_add(1);
            if !line.starts_with('#') {
                let place = Place {
                    name: case.name,
                    over: "",
                    number,
                };
                self.play_line(rt, alloc, cases, place, line, player)?;
            }
        }
        Ok(())
    }

    /// Plays the case of a text, unless it is none: an empty text, a remark, or the lines of a container.
    fn play_text<P: CasePlayer>(
        &mut self,
        rt: &(impl Print + Eprint),
        alloc: Global,
        cases: &str,
        text: &str,
        title: u64,
        player: &mut P,
    ) -> io::Result<()> {
        let case = case_of(text);
        if text.is_empty() || text.starts_with('#') || case.kind == "container" {
            Ok(())
        } else {
            self.play(rt, alloc, cases, case, title, player)
        }
    }

    /// Prints how many cases and answers there were, and gives the exit status.
    fn end(self, rt: &impl Print) -> io::Result<ExitCode> {
        println!(rt;
            "{} cases, {} answers, {} wrong",
            self.cases, self.answers, self.wrong
        )?;
        Ok(ExitCode::from(u8::from(self.wrong > 0)))
    }
}

/// Plays the cases of a text, and prints how many cases and answers there were. The exit status is 1 where a line is answered otherwise
/// than it says.
pub fn play_cases<P: CasePlayer>(
    rt: &(impl Print + Eprint),
    alloc: Global,
    cases: &str,
    player: &mut P,
) -> io::Result<ExitCode> {
    let mut counts = Counts {
        cases: 0,
        answers: 0,
        wrong: 0,
    };
    let mut number = 1u64;
    for text in cases.split("\n\n") {
        counts.play_text(rt, alloc, cases, text, number, player)?;
        let length = text.lines().count() as u64;
        number = number.saturating_add(length).saturating_add(1);
    }
    counts.end(rt)
}
