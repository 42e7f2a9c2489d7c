//! Cases of kind `history`: what the lines of a script are answered by a history.
//!
//! - `> LINE` is a line of the script;
//! - `WHO STEP -> ANSWER` is an entry of the history, by the ticket WHO, or by 0;
//! - `answered` is answered by how many of the script's lines the history answers;
//! - `report` by the report, each line of it ended by a `;`, and `status` by the exit status.
use crate::answers::answer_read;
use crate::entries::step_read;
use crate::replies::say_in_one_line;
use crate::trouble::{Done, Trouble};
use esr_desk::{Entry, History};
use esr_lines::report;
use esr_report::{end_of_run, replies};
use esr_scenes::{Words, say_number};
use esr_script::{Script, script_read};
use std::alloc::{AllocError, Global};

/// What a case has come to.
#[derive(Drop)]
pub(crate) struct Told {
    script: String,
    history: History,
}

impl Told {
    pub(crate) fn new(alloc: Global) -> Told {
        Told {
            script: String::new(alloc),
            history: History::new(alloc),
        }
    }

    /// Adds an entry of these words.
    fn push(&mut self, alloc: Global, words: &mut Words, who: u64, answer: &str) -> Done {
        let answer = answer_read(alloc, answer)?;
        let step = step_read(alloc, words)?;
        self.history.push(Entry { who, step, answer })?;
        Ok(())
    }

    fn entry(&mut self, alloc: Global, line: &str) -> Done {
        let Some((words, answer)) = line.split_once(" -> ") else {
            return Err(Trouble::Unread("not an entry, nor a question"));
        };
        let mut words = Words::new(words);
        let who = words.number();
        self.push(alloc, &mut words, who, answer)
    }

    /// Says what the script is answered.
    fn say_question(&self, alloc: Global, what: &str, said: &mut String) -> Done {
        let script = script_read(alloc, self.script.as_bytes())?;
        Ok(say_replies(alloc, &script, &self.history, what, said)?)
    }

    /// Says what a line of a case is answered; nothing, where it is part of the script or of the history.
    pub(crate) fn say_answer(&mut self, alloc: Global, line: &str, said: &mut String) -> Done {
        if let Some(line) = line.strip_prefix("> ") {
            self.script.push_str(line)?;
            return Ok(self.script.push_str("\n")?);
        }
        match line {
            "answered" | "report" | "status" => self.say_question(alloc, line, said),
            _ => self.entry(alloc, line),
        }
    }
}

/// Says what a script is answered by a history: how many lines, the report or the exit status.
fn say_replies(
    alloc: Global,
    script: &Script,
    history: &History,
    what: &str,
    said: &mut String,
) -> Result<(), AllocError> {
    let answers = replies(alloc, script, history)?;
    match what {
        "answered" => say_number(said, answers.len() as u64),
        "status" => say_number(
            said,
            u64::from(end_of_run(script, history, &answers).status()),
        ),
        _ => say_in_one_line(said, report(alloc, script, history, &answers)?.as_slice()),
    }
    Ok(())
}
