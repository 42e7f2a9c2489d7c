//! A container in a folder, as a subject: whom its lock keeps out, and what a failure of the file system leaves.
use crate::calls::{Calls, say_call};
use crate::failing::{Failing, OneCall};
use crate::outside::say_change;
use esr_dirdepot::DirDepot;
use esr_scenes::{Scene, Subject, Tally, cut, say, say_number};
use std::alloc::{AllocError, Global};
use std::fs::File;
use std::rt::Files;
use std::{fs, io};

/// The folder in which scenes are played. It is absent when one begins.
const FOLDER: &str = "folder";

/// Containers on one folder. A call begins with the name of whose it is, and a colon:
///
/// | Whose | |
/// |---|---|
/// | none, `second:` | two containers, from the start to the end of the scene |
/// | `full:` | a third one, whose stages take no byte |
/// | `short:` | a container that is made for this call, and then goes |
/// | `outside:` | the file system |
///
/// `each-failure` makes the calls of the scene that stand above it in a new folder, and once more; and so anew for each
/// call of the file system, of which that one fails.
#[derive(Drop)]
struct Folder<'a, D, E> {
    rt: &'a HostRuntime,
    path: &'a str,
    lines: &'a str,
    first: Option<D>,
    second: Option<D>,
    full: Option<E>,
}

/// How many calls of a scene fail, those that stand above `each-failure`.
fn failures<C: Calls>(alloc: Global, depot: &mut C, lines: &str) -> u64 {
    let mut failed = 0u64;
    for line in lines.lines() {
        let (call, _) = line.split_once(" -> ").unwrap_or((line, ""));
        if call.trim() == "each-failure" {
            return failed;
        }
        let mut answer = String::new(alloc);
        say_call(alloc, depot, call.trim(), &mut answer);
        failed = failed.saturating_add(u64::from(answer.as_str() == "failed"));
    }
    failed
}

/// How many calls fail, how often the container says that it has failed, and how many fail when they are made again.
type Counts = (u64, u64, u64);

/// The failures of a container, which goes then.
fn counts_of<C: Calls>(alloc: Global, mut depot: C, lines: &str) -> Counts {
    let first = failures(alloc, &mut depot, lines);
    let count = depot.fault_count();
    (first, count, failures(alloc, &mut depot, lines))
}

/// The failures of a container on the folder of that path, by these files.
fn failures_by<R: Files<File = File> + Eprint + Drop>(
    files: &R,
    alloc: Global,
    path: &str,
    lines: &str,
) -> Result<Counts, AllocError> {
    Ok(counts_of(alloc, DirDepot::new(files, alloc, path)?, lines))
}

/// The failures of a container on a new folder, where that call of the file system fails.
fn failures_at(rt: &HostRuntime, path: &str, lines: &str, nth: u64) -> Result<Counts, AllocError> {
    let _ = fs::remove_dir_all(rt, FOLDER);
    let files = Failing::new(rt, OneCall::new(nth, false));
    failures_by(&files, rt.alloc(), path, lines)
}

/// Says how many calls of the file system there are, and that each fails one call of the container, which counts it, and
/// none when they are made again; or at which one this isn't so.
fn say_each_failure(rt: &HostRuntime, path: &str, lines: &str, line: &mut String) {
    for nth in 0..1000 {
        match failures_at(rt, path, lines, nth) {
            Ok((1, 1, 0)) => {}
            // The calls end before that one.
            Ok((0, 0, _)) if nth > 21 => {
                return say(line, "one and then none, at each of more than 20");
            }
            _ => {
                say_number(line, nth);
                return say(line, " fails otherwise");
            }
        }
    }
}

/// Makes a call of a container, if there was memory for one.
fn say_made<C: Calls>(alloc: Global, depot: &mut Option<C>, call: &str, line: &mut String) {
    match depot {
        Some(depot) => say_call(alloc, depot, call, line),
        None => say(line, "no memory"),
    }
}

/// Makes a call of a container on the folder of that path, which goes then.
fn say_short<R: Files<File = File> + Eprint + Drop>(
    files: &R,
    alloc: Global,
    path: &str,
    call: &str,
    line: &mut String,
) {
    let mut depot = DirDepot::new(files, alloc, path).ok();
    say_made(alloc, &mut depot, call, line);
}

impl<D: Calls, E: Calls> Subject for Folder<'_, D, E> {
    fn call(&mut self, alloc: Global, call: &str, line: &mut String) {
        let (whose, rest) = cut(call);
        match whose {
            "below" => {}
            "second:" => say_made(alloc, &mut self.second, rest, line),
            "full:" => say_made(alloc, &mut self.full, rest, line),
            "short:" => say_short(self.rt, alloc, self.path, rest, line),
            "outside:" => say_change(self.rt, alloc, self.path, rest, line),
            "each-failure" => say_each_failure(self.rt, self.path, self.lines, line),
            _ => say_made(alloc, &mut self.first, call, line),
        }
    }
}

/// The path that the line `below ..` of a scene adds to that of the folder.
fn below(lines: &str) -> &str {
    for line in lines.lines() {
        if let Some(path) = line.trim().strip_prefix("below ") {
            return path;
        }
    }
    ""
}

/// Plays a scene over containers on the folder of that path. `full` are the files of a full device.
fn play_at<R, F>(
    rt: &HostRuntime,
    scene: Scene<'_>,
    tally: &mut Tally,
    path: &str,
    files: &R,
    full: &F,
) -> io::Result<()>
where
    R: Files<File = File> + Eprint + Drop,
    F: Files<File = File> + Eprint + Drop,
{
    let folder = Folder {
        rt,
        path,
        lines: scene.lines,
        first: DirDepot::new(files, rt.alloc(), path).ok(),
        second: DirDepot::new(files, rt.alloc(), path).ok(),
        full: DirDepot::new(full, rt.alloc(), path).ok(),
    };
    tally.play_once(rt, rt.alloc(), scene, folder)
}

/// Plays a scene over containers on a new folder.
pub(crate) fn play_in_folder(
    rt: &HostRuntime,
    scene: Scene<'_>,
    tally: &mut Tally,
) -> io::Result<()> {
    let _ = fs::remove_dir_all(rt, FOLDER);
    let below = below(scene.lines);
    let path = format!(in rt.alloc(); "{FOLDER}{below}")?;
    let full = Failing::new(rt, OneCall::new(u64::MAX, true));
    play_at(rt, scene, tally, path.as_str(), rt, &full)
}
