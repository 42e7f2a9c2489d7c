//! A scene that is being played, line by line.
use crate::ask::{change_there, say_answer, say_file, write_file};
use crate::errors::{Done, Trouble};
use crate::faults::{Way, set_mishap, set_round};
use crate::ground::{Ground, add_source, has_line, run_there};
use crate::meeting::Meeting;
use crate::setting::{Job, Mishaps, calm};
use crate::shown::{Shown, nothing_shown};
use crate::text::{counted_blobs, front_of, plain, push_line};
use esr_scenes::{say, say_number};
use std::alloc::Global;
use std::mem;
use std::sync::Wait;
use std::thread::Threads;

/// The number of a scene's line, how many lines held, and the first difference that was found.
#[derive(Drop)]
pub struct Verdict {
    pub number: u64,
    pub held: u64,
    pub complaint: String,
}

/// What a scene has come to.
#[derive(Drop)]
pub struct Scene<'a> {
    pub ground: Ground<'a>,
    pub alloc: Global,
    /// In which way something goes wrong in this round of it, and the number of the round.
    pub way: Way,
    pub nth: u64,
    /// The lines that tell sources, the script so far, and what goes wrong in the next run.
    pub sources: String,
    pub script: String,
    pub mishaps: Mishaps,
    /// The text of the record whose swap stops the next run.
    pub last: String,
    /// What the workers of the runs come to, which holds one of them once or none.
    pub gate: Meeting,
    /// What the last run has shown and tells, and how many bytes of its text were compared.
    pub shown: Shown,
    pub at: usize,
    /// Whether the next run is the one in which the round lets something go wrong.
    pub is_armed: bool,
    /// Whether something went wrong there, and what the last run that is asked for showed, with the record after it.
    pub was_hit: bool,
    pub hit: String,
    pub record: String,
    /// The number of the next block as a power of two, and those that were played.
    pub block: u64,
    pub met: u64,
    /// Whether a block of these was played, and whether the lines belong to another one.
    pub is_chosen: bool,
    pub skips: bool,
    /// Whether the rest of the scene doesn't count.
    pub is_over: bool,
    /// How many runs there were.
    pub runs: u64,
    pub verdict: Verdict,
}

/// A scene at its beginning.
pub fn begun(alloc: Global, ground: Ground<'_>, way: Way, nth: u64) -> Scene<'_> {
    Scene {
        ground,
        alloc,
        way,
        nth,
        sources: String::new(alloc),
        script: String::new(alloc),
        mishaps: calm(),
        last: String::new(alloc),
        gate: Meeting::new(false),
        shown: nothing_shown(alloc),
        at: 0,
        is_armed: false,
        was_hit: false,
        hit: String::new(alloc),
        record: String::new(alloc),
        block: 1,
        met: 0,
        is_chosen: false,
        skips: false,
        is_over: false,
        runs: 0,
        verdict: Verdict {
            number: 0,
            held: 0,
            complaint: String::new(alloc),
        },
    }
}

/// Adds to a script a text with its number, and an end.
fn write_numbered(alloc: Global, script: &mut String, (text, end): (&str, &str), number: u64) {
    let mut digits = String::new(alloc);
    say_number(&mut digits, number);
    if let Ok(text) = text.replace(alloc, "<n>", digits.as_str()) {
        say(script, text.as_str());
        say(script, end);
    }
}

/// What is behind so many bytes.
fn rest_of(text: &str, at: usize) -> &str {
    match text.split_at_checked(at) {
        Some((_, rest)) => rest,
        None => "",
    }
}

/// The first line of a text.
fn first_line(text: &str) -> &str {
    text.lines().next().unwrap_or("nothing")
}

impl Verdict {
    /// Notes a difference, unless there was one.
    pub fn complain(&mut self, wanted: &str, came: &str) -> Done {
        if self.complaint.is_empty() {
            let number = self.number;
            write!(
                self.complaint,
                "line {number}\n  wanted: {wanted}\n  came:   {came}\n"
            )?;
        }
        Ok(())
    }

    /// Notes that a line holds, or what came in its place.
    fn judge(&mut self, holds: bool, wanted: &str, came: &str) -> Done {
        if holds {
            self.held = self.held.saturating_add(1);
            return Ok(());
        }
        self.complain(wanted, came)
    }
}

impl Scene<'_> {
    /// Notes a difference where more was shown than was compared.
    pub fn end_shown(&mut self) -> Done {
        let rest = rest_of(self.shown.text.as_str(), self.at);
        if rest.is_empty() {
            return Ok(());
        }
        self.verdict.complain("nothing more", first_line(rest))
    }

    /// How many bytes of a line of the report the output took, in a round that leaves too little room.
    fn length_taken(&self, line: &str) -> usize {
        let whole = line.len().saturating_add(1);
        if !matches!(self.way, Way::Room) || line.starts_with("exit ") {
            return whole;
        }
        whole.min(self.mishaps.room.saturating_sub(self.at))
    }

    /// Compares a line with what was shown next.
    fn want(&mut self, line: &str) -> Done {
        let whole = format!(in self.alloc; "{line}\n")?;
        self.want_front(line, front_of(whole.as_str(), self.length_taken(line)))
    }

    /// Compares what is wanted of a line with what was shown next.
    fn want_front(&mut self, line: &str, wanted: &str) -> Done {
        let rest = rest_of(self.shown.text.as_str(), self.at);
        self.at = self.at.saturating_add(wanted.len());
        self.verdict
            .judge(rest.starts_with(wanted), line, first_line(rest))
    }

    /// Goes past so many lines of what was shown.
    fn pass_lines(&mut self, count: u64) -> Done {
        for _ in 0..count {
            let rest = rest_of(self.shown.text.as_str(), self.at);
            let Some((line, _)) = rest.split_once('\n') else {
                return self.verdict.complain("more lines", "nothing");
            };
            let length = line.len().saturating_add(1);
            self.at = self.at.saturating_add(length);
        }
        self.verdict.judge(true, "", "")
    }

    /// Goes past as many lines as a word says.
    fn pass(&mut self, count: &str) -> Done {
        let count = count.parse()?;
        self.pass_lines(count)
    }

    /// Whether the run that is asked for showed one of these lines.
    fn want_told(&mut self, lines: &str) -> Done {
        let hit = self.hit.as_str();
        let mut holds = false;
        for line in lines.split(" | ") {
            holds = holds || has_line(hit, line);
        }
        self.verdict.judge(holds, lines, hit)
    }

    /// Whether that run showed no line that begins so but those behind it.
    fn want_untold(&mut self, lines: &str) -> Done {
        let (front, others) = lines.split_once(" | ").unwrap_or((lines, ""));
        let others = others.replace(self.alloc, " | ", "\n")?;
        let mut holds = true;
        for line in self.hit.as_str().lines() {
            holds = holds && (!line.starts_with(front) || has_line(others.as_str(), line));
        }
        self.verdict.judge(holds, lines, self.hit.as_str())
    }

    /// Begins a block, which counts where the record has this piece and no block before it did.
    fn choose(&mut self, piece: &str) {
        self.skips = self.is_chosen || !self.record.as_str().contains(piece);
        if !self.skips {
            self.is_chosen = true;
            self.met |= self.block;
        }
        self.block = self.block.saturating_mul(2);
    }

    /// Adds a text to the script so many times, each with its number from 0 on and with that end.
    fn write_times(&mut self, text: &str, end: &str, count: u64) {
        for number in 0..count {
            write_numbered(self.alloc, &mut self.script, (text, end), number);
        }
    }

    /// Adds to the script a text as often as a word says, each with that end.
    fn write_many(&mut self, count: &str, text: &str, end: &str) -> Done {
        let count = count.parse::<u64>()?;
        let text = plain(self.alloc, text)?;
        self.write_times(text.as_str(), end, count);
        Ok(())
    }

    /// Adds to the script: a line, a last text, or one of them so many times.
    fn write(&mut self, mark: &str, rest: &str) -> Done {
        let (count, text) = rest.split_once(' ').unwrap_or((rest, ""));
        match mark {
            ">" => self.write_many("1", rest, "\n"),
            "*" => self.write_many(count, text, "\n"),
            "+" => self.write_many(count, text, ""),
            _ => self.write_many("1", rest, ""),
        }
    }

    /// Adds a source.
    fn add_source(&mut self, line: &str) -> Done {
        push_line(&mut self.sources, line);
        add_source(&mut self.ground, line)
    }

    /// Runs the script by these words.
    fn run_words<R: Threads + Wait + Sync>(&mut self, threads: &R, words: &str) -> Done {
        if self.is_armed {
            set_round(&mut self.mishaps, self.way, self.nth);
        }
        let job = Job {
            words,
            script: self.script.as_str(),
            sources: self.sources.as_str(),
            mishaps: &self.mishaps,
            last: self.last.as_str(),
            gate: &self.gate,
        };
        self.shown = run_there(self.alloc, threads, &mut self.ground, &job)?;
        self.runs = self.runs.saturating_add(1);
        self.script.clear();
        self.last.clear();
        Ok(())
    }

    /// Puts what a run that is asked for showed aside. One in which the output had room for all ends the scene.
    fn keep_hit(&mut self) -> Done {
        if matches!(self.way, Way::Room) {
            self.was_hit = self.shown.text.as_str().ends_with("exit 5\n");
            self.is_over = !self.was_hit;
            return Ok(());
        }
        self.was_hit |= self.shown.was_hit;
        let settles = self.shown.settles;
        write!(self.shown.text, "settles {settles}\n")?;
        self.hit = mem::replace(&mut self.shown.text, String::new(self.alloc));
        self.record = self.answer("record", "")?;
        Ok(())
    }

    /// Has what the last run showed compared, or puts it aside, or leaves it unseen of a run that is to be stopped.
    fn keep(&mut self, mark: &str) -> Done {
        self.at = 0;
        if self.is_armed || mark == "&" {
            return self.keep_hit();
        }
        if mark == "~" {
            let (was_hit, text) = (self.shown.was_hit, self.shown.text.as_str());
            self.verdict.judge(was_hit, "a run that is stopped", text)?;
            self.shown.text.clear();
        }
        Ok(())
    }

    /// Lets nothing go wrong in the next run. A run that tells more failures of the container than it had is a difference.
    fn end_run(&mut self) -> Done {
        if self.shown.told > self.shown.faults {
            self.verdict
                .complain("no more failures than the container had", "more")?;
        }
        self.is_armed = false;
        let room = self.mishaps.room;
        self.mishaps = calm();
        self.mishaps.room = room;
        Ok(())
    }

    /// Runs.
    fn run<R: Threads + Wait + Sync>(&mut self, threads: &R, mark: &str, words: &str) -> Done {
        self.end_shown()?;
        let words = plain(self.alloc, words)?;
        let done = self.run_words(threads, words.as_str());
        drop(words);
        done?;
        self.keep(mark)?;
        self.end_run()
    }

    /// Changes the container, or what goes wrong in the next run.
    fn set(&mut self, line: &str) -> Done {
        let (what, value) = line.split_once(' ').unwrap_or((line, ""));
        match what {
            "put" | "remove" | "shorten" | "record" => {
                change_there(self.alloc, &mut self.ground, what, value)
            }
            "file" => write_file(&self.ground, value),
            "stop-at" => {
                self.last.clear();
                say(&mut self.last, value);
                Ok(())
            }
            "meet" => {
                self.gate = Meeting::new(true);
                Ok(())
            }
            _ => set_mishap(&mut self.mishaps, what, value),
        }
    }

    /// What the container there answers to a question.
    fn answer(&mut self, what: &str, name: &str) -> Result<String, Trouble> {
        let mut said = String::new(self.alloc);
        say_answer(self.alloc, &mut self.ground, what, name, &mut said)?;
        Ok(said)
    }

    /// Whether the container there holds `index.latest`, the blobs that the last run's check counted, and no more.
    fn is_clean(&mut self) -> Result<bool, Trouble> {
        let counted = counted_blobs(self.shown.text.as_str())?;
        let count = self.answer("blobs", "")?.as_str().parse::<u64>()?;
        let latest = self.answer("there", "index.latest")?;
        Ok(latest.as_str() == "true" && count == counted.saturating_add(1))
    }

    /// Says the answer to a question of the last run, or of the container there.
    fn say(&mut self, question: &str, said: &mut String) -> Done {
        let (what, name) = question.split_once(' ').unwrap_or((question, ""));
        match what {
            "faults" => say_number(said, self.shown.faults),
            "misprints" => say(said, self.shown.misprints.as_str().trim_start()),
            "met" => say(said, if self.gate.has_met() { "true" } else { "false" }),
            "clean" => say(said, if self.is_clean()? { "true" } else { "false" }),
            "file" => return say_file(&self.ground, name, said),
            _ => return say_answer(self.alloc, &mut self.ground, what, name, said),
        }
        Ok(())
    }

    /// Asks for what stands before the `=` of a line, and wants what stands behind it.
    fn ask(&mut self, line: &str) -> Done {
        let (question, wanted) = line.split_once('=').unwrap_or((line, ""));
        let mut came = String::new(self.alloc);
        self.say(question, &mut came)?;
        let holds = came.as_str() == wanted;
        self.verdict.judge(holds, line, came.as_str())
    }

    /// Compares a line with what was shown.
    fn compare(&mut self, mark: &str, rest: &str, line: &str) -> Done {
        match mark {
            "told" => self.want_told(rest),
            "untold" => self.want_untold(rest),
            _ => self.want(line),
        }
    }

    /// Plays a line that isn't of a block that doesn't count.
    fn act<R: Threads + Wait + Sync>(
        &mut self,
        threads: &R,
        mark: &str,
        rest: &str,
        line: &str,
    ) -> Done {
        match mark {
            "$" | "~" | "&" => self.run(threads, mark, rest),
            "!" => self.set(rest),
            "?" => self.ask(rest),
            "=" => self.add_source(rest),
            ".." => self.pass(rest),
            "each" => {
                self.is_armed = true;
                Ok(())
            }
            ">" | "|" | "*" | "+" => self.write(mark, rest),
            "#" | "only" | "row" | "most" | "then" => Ok(()),
            _ => self.compare(mark, rest, line),
        }
    }

    /// Plays a line.
    pub fn step<R: Threads + Wait + Sync>(&mut self, threads: &R, line: &str) -> Done {
        let (mark, rest) = line.split_once(' ').unwrap_or((line, ""));
        match mark {
            "when" => {
                self.choose(rest);
                Ok(())
            }
            "end" => {
                self.skips = false;
                self.is_chosen = false;
                Ok(())
            }
            _ if self.skips => Ok(()),
            _ => self.act(threads, mark, rest, line),
        }
    }
}
