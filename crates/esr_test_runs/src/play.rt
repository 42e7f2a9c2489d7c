//! The scenes of a file, each of them over memory and over folders, with each of its rows and rounds.
use crate::errors::{Done, Trouble};
use crate::faults::{Way, way_of};
use crate::ground::{Place, clear, ground_at};
use crate::scene::{Scene, begun};
use crate::text::line_behind;
use std::fs;
use std::sync::Wait;
use std::thread::Threads;

/// More rounds than a scene has.
const ROUNDS: u64 = 10_000;

/// The lines of a scene, and those that stand before each scene of its file, each with the number of the first one.
#[derive(Drop)]
struct Lines<'a> {
    title: &'a str,
    front: &'a str,
    front_at: u64,
    text: &'a str,
    at: u64,
}

/// What was played of a file.
#[derive(Drop)]
pub struct Played {
    pub in_memory: u64,
    pub in_folders: u64,
    pub runs: u64,
    pub held: u64,
    pub failed: u64,
    /// The differences that were found.
    pub complaints: String,
    /// The blocks that were played in the rounds of a scene, and those that it has.
    met: u64,
    blocks: u64,
}

/// Over what a scene is played, with which row, and in which way, by its name too.
#[derive(Drop)]
struct Turn<'a, R> {
    rt: &'a HostRuntime,
    threads: &'a R,
    place: Place,
    row: &'a str,
    way: Way,
    name: &'a str,
}

/// How a round of a scene has gone.
#[derive(Clone, Copy)]
enum Went {
    /// Something was found that isn't wanted.
    Fails,
    /// Something went wrong, as it was to.
    Hit,
    /// Nothing went wrong.
    Unhit,
}

/// Plays a line with a row.
fn play_line<R: Threads + Wait + Sync>(
    threads: &R,
    scene: &mut Scene,
    line: &str,
    row: &str,
) -> Done {
    let line = line.replace(scene.alloc, "<row>", row)?;
    match scene.step(threads, line.as_str()) {
        Ok(()) => Ok(()),
        Err(Trouble(why)) => scene.verdict.complain("a line that can be played", why),
    }
}

/// Plays these lines, the first of which has that number.
fn play_lines<R: Threads + Wait + Sync>(
    threads: &R,
    scene: &mut Scene,
    text: &str,
    at: u64,
    row: &str,
) -> Done {
    for (place, line) in text.lines().enumerate() {
        if scene.is_over || !scene.verdict.complaint.is_empty() {
            return Ok(());
        }
        scene.verdict.number = at.saturating_add(place as u64);
        play_line(threads, scene, line, row)?;
    }
    Ok(())
}

/// Says in which round a scene failed, and what was found.
fn say_failed<R>(said: &mut String, lines: &Lines, turn: &Turn<R>, scene: &Scene) {
    let (place, title, way, row) = (turn.place.name(), lines.title, turn.name, turn.row);
    let (nth, complaint) = (scene.nth, scene.verdict.complaint.as_str());
    let _ = write!(
        said,
        "FAILED over {place}: {title}\n{way} {nth} {row}\n{complaint}"
    );
}

/// Adds what a round came to, and tells how it went.
fn note<R>(played: &mut Played, lines: &Lines, turn: &Turn<R>, scene: &Scene) -> Went {
    played.runs = played.runs.saturating_add(scene.runs);
    played.held = played.held.saturating_add(scene.verdict.held);
    played.met |= scene.met;
    played.blocks |= scene.block.saturating_sub(1);
    if !scene.verdict.complaint.is_empty() {
        say_failed(&mut played.complaints, lines, turn, scene);
        Went::Fails
    } else if scene.was_hit {
        Went::Hit
    } else {
        Went::Unhit
    }
}

/// Plays the lines that stand before a scene, and its own.
fn play_whole<R: Threads + Wait + Sync>(
    threads: &R,
    scene: &mut Scene,
    lines: &Lines,
    row: &str,
) -> Done {
    play_lines(threads, scene, lines.front, lines.front_at, row)?;
    play_lines(threads, scene, lines.text, lines.at, row)?;
    if scene.is_over || !scene.verdict.complaint.is_empty() {
        return Ok(());
    }
    scene.end_shown()
}

/// Plays a round of a scene, whose ground is cleared then.
fn play_round<R: Threads + Wait + Sync>(
    played: &mut Played,
    lines: &Lines,
    turn: &Turn<R>,
    nth: u64,
) -> Result<Went, Trouble> {
    let ground = ground_at(turn.rt, turn.place)?;
    let mut scene = begun(turn.rt.alloc(), ground, turn.way, nth);
    let done = play_whole(turn.threads, &mut scene, lines, turn.row);
    clear(&scene.ground);
    let went = note(played, lines, turn, &scene);
    drop(scene);
    done?;
    Ok(went)
}

/// Plays the rounds of a scene in one way, as many as a line of it says or up to the first in which nothing goes wrong, and tells
/// whether it fails.
fn play_rounds<R: Threads + Wait + Sync>(
    played: &mut Played,
    lines: &Lines,
    turn: &Turn<R>,
) -> Result<bool, Trouble> {
    let most: u64 = line_behind(lines.text, "most ").unwrap_or("0").parse()?;
    for nth in 1..ROUNDS {
        match play_round(played, lines, turn, nth)? {
            Went::Fails => return Ok(true),
            Went::Hit => {
                if nth == most {
                    return Ok(false);
                }
            }
            Went::Unhit => return Ok(false),
        }
    }
    Err(Trouble("a scene has no last round"))
}

const UNPLAYED: &str = "\n  wanted: each block is played in a round\n  came:   one is in none\n";

/// Plays a scene with a row in each of its ways, or once, and tells whether it fails.
fn play_ways<R: Threads + Wait + Sync>(
    played: &mut Played,
    lines: &Lines,
    turn: &Turn<R>,
) -> Result<bool, Trouble> {
    played.met = 0;
    played.blocks = 0;
    let names = line_behind(lines.text, "each ").unwrap_or("once");
    for name in names.split_whitespace() {
        let way = way_of(name)?;
        if play_rounds(played, lines, &Turn { way, name, ..*turn })? {
            return Ok(true);
        }
    }
    let fails = played.met != played.blocks;
    if fails {
        let _ = write!(played.complaints, "FAILED: {}{UNPLAYED}", lines.title);
    }
    Ok(fails)
}

/// Plays a scene with each of its rows, and tells whether it fails.
fn play_rows<R: Threads + Wait + Sync>(
    played: &mut Played,
    lines: &Lines,
    turn: &Turn<R>,
) -> Result<bool, Trouble> {
    let mut has_rows = false;
    let mut fails = false;
    for line in lines.text.lines() {
        if let Some(row) = line.strip_prefix("row ") {
            has_rows = true;
            fails |= play_ways(played, lines, &Turn { row, ..*turn })?;
        }
    }
    if !has_rows {
        fails = play_ways(played, lines, turn)?;
    }
    Ok(fails)
}

/// Whether a scene is played there: over what a line of it says, or over memory and folders.
fn holds_over(lines: &Lines, place: Place) -> bool {
    match line_behind(lines.text, "only ") {
        Some(rest) => rest.starts_with(place.name()),
        None => !matches!(place, Place::Own),
    }
}

/// Plays a scene over what it is to be played.
fn play_scene<R: Threads + Wait + Sync>(
    rt: &HostRuntime,
    threads: &R,
    played: &mut Played,
    lines: &Lines,
) -> Done {
    for place in [Place::Memory, Place::Folders, Place::Own] {
        if !holds_over(lines, place) {
            continue;
        }
        let turn = Turn {
            rt,
            threads,
            place,
            row: "",
            way: Way::Once,
            name: "once",
        };
        let fails = play_rows(played, lines, &turn)?;
        played.failed = played.failed.saturating_add(fails as u64);
        let in_folders = matches!(place, Place::Folders);
        played.in_memory = played.in_memory.saturating_add(!in_folders as u64);
        played.in_folders = played.in_folders.saturating_add(in_folders as u64);
    }
    Ok(())
}

/// Plays scenes, which stand apart by empty lines. One whose title is `front` has the lines that stand before each scene after it,
/// and one whose title begins with `#` is a remark.
fn play_scenes<R: Threads + Wait + Sync>(
    rt: &HostRuntime,
    threads: &R,
    played: &mut Played,
    scenes: &str,
) -> Done {
    let mut at = 1u64;
    let mut front = String::new(rt.alloc());
    let mut front_at = 1u64;
    for scene in scenes.split("\n\n") {
        let (title, text) = scene.split_once('\n').unwrap_or((scene, ""));
        let below = at.saturating_add(1);
        if title == "front" {
            front = String::from_str(rt.alloc(), text)?;
            front_at = below;
        } else if !title.starts_with('#') {
            let lines = Lines {
                title,
                front: front.as_str(),
                front_at,
                text,
                at: below,
            };
            play_scene(rt, threads, played, &lines)?;
        }
        at = below.saturating_add(scene.lines().count() as u64);
    }
    Ok(())
}

/// Plays the scenes of a file.
pub fn play_file<R: Threads + Wait + Sync>(
    rt: &HostRuntime,
    threads: &R,
    path: &str,
) -> Result<Played, Trouble> {
    let text = fs::read_to_string(rt, path)?;
    let mut played = Played {
        in_memory: 0,
        in_folders: 0,
        runs: 0,
        held: 0,
        failed: 0,
        complaints: String::new(rt.alloc()),
        met: 0,
        blocks: 0,
    };
    play_scenes(rt, threads, &mut played, text.as_str())?;
    Ok(played)
}
