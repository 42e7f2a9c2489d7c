//! Sources and targets in folders, as a subject.
use crate::address::{file_of, words_of};
use crate::failing::{Failing, OneCall};
use crate::outside::{say_change, write_file};
use crate::shaky::Shaky;
use crate::shards::say_open_shard;
use crate::targets::say_target;
use esr_dirsource::{DirSources, DirTargets};
use esr_scenes::{Scene, Subject, Tally, cut, say, say_number};
use esr_source::{Sources, Targets};
use std::alloc::{AllocError, Global};
use std::{fs, io};

/// The folder in which scenes are played. It is empty when one begins.
const FOLDER: &str = "files";

/// Sources and targets in that folder, and the shard that was opened last. The calls are those of sources and targets in
/// memory, but for failures; `shard PLACE INDEX NUMBER CALL`, which opens a shard and makes that call of it; `outside: ..`, which
/// changes the folder; and `each-failure PLACE INDEX NUMBER NAME`, which makes a file in an empty folder, and so anew for each call
/// of the file system, of which that one fails.
#[derive(Drop)]
struct FolderFiles<'a, S: Sources, T> {
    rt: &'a HostRuntime,
    sources: S,
    targets: T,
    shard: Option<S::Shard>,
}

/// The place in the folder. An empty one stays so.
fn place_in(alloc: Global, place: &str) -> Result<String, AllocError> {
    if place.is_empty() {
        return Ok(String::new(alloc));
    }
    format!(in alloc; "{FOLDER}/{place}")
}

/// Writes a file of a shard.
fn write_shard_file(rt: &HostRuntime, place: &str, number: u32, file: &str) -> io::Result<()> {
    let (name, text) = file_of(file);
    let path = format!(in rt.alloc(); "{FOLDER}/{place}/{number}/{name}")?;
    write_file(rt, path.as_str(), text)
}

/// Writes the files of a shard.
fn write_files(rt: &HostRuntime, call: &str) -> io::Result<()> {
    let words = words_of(call);
    for file in words.rest.split('|') {
        write_shard_file(rt, words.place, words.number, file)?;
    }
    Ok(())
}

/// Makes a file in a new target.
fn say_new_target<T: Targets>(
    alloc: Global,
    targets: &T,
    verb: &str,
    call: &str,
    line: &mut String,
) -> io::Result<()> {
    let words = words_of(call);
    let place = place_in(alloc, words.place)?;
    let mut target = targets.target(alloc, place.as_str(), words.index, words.number)?;
    say_target(alloc, &mut target, verb, words.rest, line);
    Ok(())
}

/// Makes a file in the folder, which is made anew, where that call of the file system fails.
fn fill_at(rt: &HostRuntime, call: &str, nth: u64, line: &mut String) -> io::Result<()> {
    clear(rt)?;
    let files = Failing::new(rt, OneCall::new(nth, false));
    say_new_target(rt.alloc(), &DirTargets::new(&files), "fill", call, line)
}

/// Says how many calls of the file system there are, and that each one but the first fails one call of the target, which
/// counts it, and none when it is made again; or at which one this isn't so.
fn say_each_failure(rt: &HostRuntime, call: &str, line: &mut String) -> io::Result<()> {
    // The call before these is to make the folder of scenes. Its failure is passed over, since that folder is there.
    for nth in 1..1000 {
        let mut answer = String::new(rt.alloc());
        fill_at(rt, call, nth, &mut answer)?;
        let answer = answer.as_str();
        // The calls end before that one.
        if nth > 11 && answer.ends_with("ok faults 0") {
            say(line, "one and then none, at each of more than 10");
            return Ok(());
        }
        if !answer.ends_with("ok faults 1") {
            say_number(line, nth);
            say(line, " fails otherwise");
            return Ok(());
        }
    }
    Ok(())
}

impl<S: Sources, T: Targets> FolderFiles<'_, S, T> {
    /// Opens a shard, and makes the call of it that stands there, if there is one.
    fn open(&mut self, alloc: Global, call: &str, line: &mut String) -> io::Result<()> {
        let words = words_of(call);
        let place = place_in(alloc, words.place)?;
        let sources = &self.sources;
        self.shard = Some(sources.shard(alloc, place.as_str(), words.index, words.number)?);
        if !words.rest.is_empty() {
            say_open_shard(alloc, &mut self.shard, words.rest, line);
        }
        Ok(())
    }

    /// Makes a call that may want memory.
    fn make(&mut self, alloc: Global, call: &str, line: &mut String) -> io::Result<()> {
        let (verb, rest) = cut(call);
        match verb {
            "source" => write_files(self.rt, rest),
            "shard" => self.open(alloc, rest, line),
            "each-failure" => say_each_failure(self.rt, rest, line),
            _ => say_new_target(alloc, &self.targets, verb, rest, line),
        }
    }

    /// Makes a call, and says what it answers.
    fn answer(&mut self, alloc: Global, call: &str, line: &mut String) {
        let (verb, rest) = cut(call);
        match verb {
            "outside:" => say_change(self.rt, alloc, FOLDER, rest, line),
            "list" | "read" => say_open_shard(alloc, &mut self.shard, call, line),
            _ => {
                if self.make(alloc, call, line).is_err() {
                    say(line, "the file system failed");
                }
            }
        }
    }
}

impl<'a> Subject for FolderFiles<'a, DirSources<'a, HostRuntime>, DirTargets<'a, HostRuntime>> {
    fn call(&mut self, alloc: Global, call: &str, line: &mut String) {
        self.answer(alloc, call, line);
    }
}

/// The files of the runtime, of which some calls fail.
type ShakyFolder<'a> = Failing<'a, Shaky>;

impl<'a> Subject
    for FolderFiles<'a, DirSources<'a, ShakyFolder<'a>>, DirTargets<'a, ShakyFolder<'a>>> {
    fn call(&mut self, alloc: Global, call: &str, line: &mut String) {
        self.answer(alloc, call, line);
    }
}

/// Makes the folder anew.
fn clear(rt: &HostRuntime) -> io::Result<()> {
    let _ = fs::remove_dir_all(rt, FOLDER);
    fs::create_dir_all(rt, FOLDER)
}

/// Plays a scene over sources and targets in a new folder.
pub(crate) fn play_files_in_folder<'a>(
    rt: &'a HostRuntime,
    scene: Scene<'_>,
    tally: &mut Tally,
) -> io::Result<()> {
    clear(rt)?;
    let sources: DirSources<'a, HostRuntime> = DirSources::new(rt);
    let targets: DirTargets<'a, HostRuntime> = DirTargets::new(rt);
    let files = FolderFiles {
        rt,
        sources,
        targets,
        shard: None,
    };
    tally.play_once(rt, rt.alloc(), scene, files)
}

/// Plays a scene over sources and targets in a new folder, of whose files some calls fail.
pub(crate) fn play_shaky_files(
    rt: &HostRuntime,
    scene: Scene<'_>,
    tally: &mut Tally,
) -> io::Result<()> {
    clear(rt)?;
    let shaky = Failing::new(rt, Shaky);
    let files = FolderFiles {
        rt,
        sources: DirSources::new(&shaky),
        targets: DirTargets::new(&shaky),
        shard: None,
    };
    tally.play_once(rt, rt.alloc(), scene, files)
}
