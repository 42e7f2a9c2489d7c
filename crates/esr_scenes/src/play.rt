//! A scene is played.
use crate::answers::{say, say_number};
use crate::scene::{FIRST_LINE, Scene, scene_of, unquoted};
use std::alloc::Global;
use std::io;
use std::process::ExitCode;

/// What a scene is played over.
pub trait Subject {
    /// Makes a call, and adds what it answers to a line: nothing, where the call only prepares later ones.
    fn call(&mut self, alloc: Global, call: &str, line: &mut String);
}

/// A program that plays scenes.
pub trait Player {
    /// Plays a scene that is over one subject.
    fn play_over(&self, scene: Scene<'_>, tally: &mut Tally) -> io::Result<()>;
}

/// How many scenes were played, how many lines these have, and how much didn't hold.
#[derive(Clone, Copy)]
pub struct Tally {
    pub scenes: u64,
    pub lines: u64,
    pub failures: u64,
}

/// The call of a line, and the answer that is wanted.
fn call_of(line: &str) -> (&str, &str) {
    let (call, wanted) = line.split_once(" -> ").unwrap_or((line, ""));
    (call.trim(), unquoted(wanted.trim()))
}

fn is_comment(line: &str) -> bool {
    line.is_empty() || line.starts_with('#')
}

/// Prints what doesn't hold, and says it on standard error too, of which the gate shows the end.
pub fn complain(rt: &(impl Print + Eprint), text: &str) -> io::Result<()> {
    let _ = eprint!(rt; "{text}");
    print!(rt; "{text}")
}

/// Where a line stands: the name of its scene and what that is played over, or the name of its case and nothing, and its number.
#[derive(Clone, Copy)]
pub(crate) struct Place<'a> {
    pub(crate) name: &'a str,
    pub(crate) over: &'a str,
    pub(crate) number: u64,
}

/// Adds where a line stands.
fn say_place(line: &mut String, place: Place<'_>) {
    if place.over.is_empty() {
        say(line, place.name);
    } else {
        say(line, "scene `");
        say(line, place.name);
        say(line, "` over ");
        say(line, place.over);
    }
    say(line, ", line ");
    say_number(line, place.number);
}

/// Prints which line is answered otherwise than it says, what was wanted and what came. The call is said first, since it may be long.
pub(crate) fn tell_difference(
    rt: &(impl Print + Eprint),
    alloc: Global,
    place: Place<'_>,
    (call, wanted): (&str, &str),
    came: &str,
) -> io::Result<()> {
    let mut text = String::new(alloc);
    say(&mut text, call);
    say(&mut text, "\n  ");
    say_place(&mut text, place);
    say(&mut text, "\n  wanted: ");
    say(&mut text, wanted);
    say(&mut text, "\n  came:   ");
    say(&mut text, came);
    say(&mut text, "\n");
    complain(rt, text.as_str())
}

impl Tally {
    pub fn new() -> Tally {
        Tally {
            scenes: 0,
            lines: 0,
            failures: 0,
        }
    }

    /// Says why a scene isn't played, and counts that.
    pub fn refuse(
        &mut self,
        rt: &(impl Print + Eprint),
        scene: Scene<'_>,
        why: &str,
    ) -> io::Result<()> {
        self.failures = self.failures.saturating_add(1);
        let _ = eprintln!(rt; "scene `{}`: {why}", scene.name);
        println!(rt; "scene `{}`: {why}", scene.name)
    }

    /// Plays the line at that place of a scene. Where it doesn't hold it says so.
    fn play_line<S: Subject>(
        &mut self,
        rt: &(impl Print + Eprint),
        alloc: Global,
        place: Place<'_>,
        line: &str,
        subject: &mut S,
    ) -> io::Result<()> {
        let (call, wanted) = call_of(line);
        let mut came = String::new(alloc);
        subject.call(alloc, call, &mut came);
        self.lines = self.lines.saturating_add(1);
        if came.as_str().trim() == wanted {
            Ok(())
        } else {
            self.failures = self.failures.saturating_add(1);
            tell_difference(rt, alloc, place, (call, wanted), came.as_str())
        }
    }

    /// Plays a scene over a subject. Of each line that doesn't hold it says so.
    pub fn play<S: Subject>(
        &mut self,
        rt: &(impl Print + Eprint),
        alloc: Global,
        scene: Scene<'_>,
        subject: &mut S,
    ) -> io::Result<()> {
        self.scenes = self.scenes.saturating_add(1);
        for (place, text) in scene.lines.lines().enumerate() {
            if !is_comment(text.trim()) {
                let place = Place {
                    name: scene.name,
                    over: scene.over,
                    number: place.saturating_add(FIRST_LINE) as u64,
                };
                self.play_line(rt, alloc, place, text, subject)?;
            }
        }
        Ok(())
    }

    /// Plays a scene over a subject, which goes then.
    pub fn play_once<S: Subject + Drop>(
        &mut self,
        rt: &(impl Print + Eprint),
        alloc: Global,
        scene: Scene<'_>,
        mut subject: S,
    ) -> io::Result<()> {
        self.play(rt, alloc, scene, &mut subject)
    }

    /// Says how many scenes and lines there were, and answers whether all held.
    pub fn end(self, rt: &impl Print) -> io::Result<bool> {
        let (scenes, lines) = (self.scenes, self.lines);
        if self.failures == 0 {
            println!(rt; "{scenes} scenes and {lines} lines held")?;
            return Ok(true);
        }
        println!(rt;
            "{} failures in {scenes} scenes and {lines} lines",
            self.failures
        )?;
        Ok(false)
    }
}

/// Plays a scene over each subject that it names.
fn play_each<P: Player>(
    rt: &(impl Print + Eprint),
    player: &P,
    scene: Scene<'_>,
    tally: &mut Tally,
) -> io::Result<()> {
    if scene.shows.is_empty() || scene.over.is_empty() {
        return tally.refuse(
            rt,
            scene,
            "it doesn't say what it shows, or is over nothing",
        );
    }
    for over in scene.over.split_whitespace() {
        player.play_over(Scene { over, ..scene }, tally)?;
    }
    Ok(())
}

/// Plays the scenes of a text, and answers whether all held.
fn play_all<P: Player>(rt: &(impl Print + Eprint), player: &P, text: &str) -> io::Result<bool> {
    let mut tally = Tally::new();
    for block in text.split("\nscene ").skip(1) {
        play_each(rt, player, scene_of(block), &mut tally)?;
    }
    tally.end(rt)
}

/// Plays the scenes of a text, if it was read. Answers the exit status: it isn't 0 where a line doesn't hold, or a stream fails.
pub fn play_scenes<P: Player>(
    rt: &(impl Print + Eprint),
    player: &P,
    text: io::Result<String>,
) -> ExitCode {
    let played = match text {
        Ok(text) => play_all(rt, player, text.as_str()),
        Err(error) => Err(error),
    };
    match played {
        Ok(true) => ExitCode::SUCCESS,
        Ok(false) => ExitCode::FAILURE,
        Err(error) => {
            let _ = eprintln!(rt; "{error}");
            let _ = println!(rt; "{error}");
            ExitCode::FAILURE
        }
    }
}

/// The exit status where so many scenes failed. Where they can't be played on it says why.
pub fn exit_of(rt: &impl Eprint, failed: Result<u64, &str>) -> ExitCode {
    match failed {
        Ok(0) => ExitCode::SUCCESS,
        Ok(_) => ExitCode::FAILURE,
        Err(why) => {
            let _ = eprintln!(rt; "{why}");
            ExitCode::FAILURE
        }
    }
}
