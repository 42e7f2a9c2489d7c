//! The scenes of a file.
use crate::errors::{Done, Trouble};
use crate::setting::{say_blob, say_record, sources_of};
use crate::steps::made_in;
use esr_memdepot::MemDepot;
use esr_scenes::{complain, say};
use esr_seq::{Seq, Text};
use esr_source::MemTargets;
use std::alloc::Global;
use std::sync::Wait;
use std::{fs, io};

/// Says whether the container has a blob, which is read then.
fn say_there(alloc: Global, depot: &mut MemDepot, name: &str, said: &mut String) -> Done {
    let mut text = String::new(alloc);
    let is_there = say_blob(alloc, depot, name, &mut text)?;
    say(said, if is_there { "true" } else { "false" });
    Ok(())
}

/// Says the text of a blob, or that there is none.
fn say_text(alloc: Global, depot: &mut MemDepot, name: &str, said: &mut String) -> Done {
    if !say_blob(alloc, depot, name, said)? {
        say(said, "none");
    }
    Ok(())
}

/// Says what was told of the steps, or what the container has of a question: its `record`, the text of a `blob NAME`, or whether it is
/// `there NAME`.
fn say_answer(
    alloc: Global,
    depot: &mut MemDepot,
    told: &str,
    (what, name): (&str, &str),
    said: &mut String,
) -> Done {
    match what {
        "record" => say_record(alloc, depot, said),
        "blob" => say_text(alloc, depot, name, said),
        "steps" => {
            say(said, told.strip_prefix(", ").unwrap_or(told));
            Ok(())
        }
        _ => say_there(alloc, depot, name, said),
    }
}

/// Notes a difference.
fn note(differences: &mut String, line: &str, came: &str) {
    say(differences, "  wanted: ");
    say(differences, line);
    say(differences, "\n  came:   ");
    say(differences, came);
    say(differences, "\n");
}

/// Asks for what stands before the `=` of a line, and notes a difference.
fn ask(
    alloc: Global,
    depot: &mut MemDepot,
    told: &str,
    line: &str,
    differences: &mut String,
) -> Done {
    let (question, wanted) = line.split_once('=').unwrap_or((line, ""));
    let question = question.split_once(' ').unwrap_or((question, ""));
    let mut came = String::new(alloc);
    say_answer(alloc, depot, told, question, &mut came)?;
    if came.as_str() != wanted {
        note(differences, line, came.as_str());
    }
    Ok(())
}

/// Asks each line that begins with `?`, and notes the differences.
fn ask_each(
    alloc: Global,
    depot: &mut MemDepot,
    told: &str,
    lines: &str,
    differences: &mut String,
) -> Done {
    for line in lines.lines() {
        if let Some(line) = line.strip_prefix("? ") {
            ask(alloc, depot, told, line, differences)?;
        }
    }
    Ok(())
}

/// The container after the steps of a scene, and what was told of them.
fn after<R: Wait + Sync>(
    rt: &R,
    alloc: Global,
    lines: &str,
) -> Result<(MemDepot, String), Trouble> {
    let sources = sources_of(alloc, lines)?;
    let steps = Text::from_str(alloc, lines)?;
    let targets = MemTargets::new(Seq::new(alloc));
    let depot = MemDepot::new(alloc, Seq::new(alloc));
    made_in(rt, alloc, depot, &sources, &targets, &steps)
}

/// Plays a scene, and notes the differences.
fn play<R: Wait + Sync>(rt: &R, alloc: Global, lines: &str, differences: &mut String) -> Done {
    let (mut depot, told) = after(rt, alloc, lines)?;
    ask_each(alloc, &mut depot, told.as_str(), lines, differences)
}

/// How many lines of a scene have that mark.
fn count_of(lines: &str, mark: &str) -> u64 {
    let mut count = 0u64;
    for line in lines.lines() {
        count = count.saturating_add(u64::from(line.starts_with(mark)));
    }
    count
}

/// Prints the differences of a scene.
fn tell_failed(rt: &HostRuntime, title: &str, differences: &str) -> io::Result<()> {
    let mut text = String::new(rt.alloc());
    say(&mut text, "FAILED: ");
    say(&mut text, title);
    say(&mut text, "\n");
    say(&mut text, differences);
    complain(rt, text.as_str())
}

/// Prints that a scene held, or its differences.
fn tell(rt: &HostRuntime, title: &str, lines: &str, differences: &str) -> io::Result<()> {
    if !differences.is_empty() {
        return tell_failed(rt, title, differences);
    }
    println!(rt;
        "{title}: {} steps, {} answers held",
        count_of(lines, "> "),
        count_of(lines, "? ")
    )
}

/// Plays a scene, and notes the differences, or why it can't be played.
fn say_differences<R: Wait + Sync>(host: &R, alloc: Global, lines: &str, differences: &mut String) {
    if let Err(Trouble(why)) = play(host, alloc, lines, differences) {
        differences.clear();
        say(differences, "  ");
        say(differences, why);
        say(differences, "\n");
    }
}

/// Plays a scene, prints what was found, and tells whether it fails.
fn play_scene<R: Wait + Sync>(
    rt: &HostRuntime,
    host: &R,
    title: &str,
    lines: &str,
) -> io::Result<bool> {
    let mut differences = String::new(rt.alloc());
    say_differences(host, rt.alloc(), lines, &mut differences);
    tell(rt, title, lines, differences.as_str())?;
    Ok(!differences.is_empty())
}

/// Plays scenes, which stand apart by empty lines, and tells how many failed.
fn play_scenes<R: Wait + Sync>(rt: &HostRuntime, host: &R, text: &str) -> io::Result<u64> {
    let mut failed = 0u64;
    for scene in text.split("\n\n") {
        let (title, lines) = scene.split_once('\n').unwrap_or((scene, ""));
        if !title.starts_with('#') {
            failed = failed.saturating_add(play_scene(rt, host, title, lines)? as u64);
        }
    }
    Ok(failed)
}

/// Plays the scenes of a file, and tells how many failed.
pub fn play_file<R: Wait + Sync>(rt: &HostRuntime, host: &R, path: &str) -> io::Result<u64> {
    let text = fs::read_to_string(rt, path)?;
    play_scenes(rt, host, text.as_str())
}
