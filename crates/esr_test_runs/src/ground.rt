//! Where a scene is played: in memory, over a container of one's own, or in folders of the folder that the program runs in.
use crate::errors::{Done, Trouble};
use crate::setting::{Job, Mishaps, failing_at, plan_of, run_on, sources_of};
use crate::shown::{Shown, Shows, say_exit, say_restored, shown_by};
use crate::text::{last_word, push_line};
use esr_depot::Depot;
use esr_dirdepot::DirDepot;
use esr_dirsource::{DirShard, DirSources, DirTarget, DirTargets};
use esr_faulty::Faulty;
use esr_memdepot::MemDepot;
use esr_run::Ended;
use esr_scenes::{say, source_line};
use esr_seq::Seq;
use esr_source::{
    Call, Files, ListedFile, MemOut, MemSources, MemTarget, MemTargets, Shard, Sources,
};
use esr_targets::Restored;
use esr_test_container::Store;
use std::alloc::{AllocError, Global};
use std::sync::Wait;
use std::thread::Threads;
use std::{fs, mem};

/// The folder of the container.
pub const REPO: &str = "played";

/// Where scenes are played.
#[derive(Clone, Copy)]
pub enum Place {
    Memory,
    Folders,
    Own,
}

impl Place {
    pub fn name(self) -> &'static str {
        match self {
            Place::Memory => "memory",
            Place::Folders => "folders",
            Place::Own => "own",
        }
    }
}

/// Where a scene is played.
#[derive(Drop)]
pub enum Ground<'a> {
    /// A container, sources and targets in memory.
    Memory { depot: MemDepot },
    /// A container of one's own, with sources and targets in memory.
    Own { store: Store },
    /// All of them in folders, of which `made` has the names of those that this scene makes, a line each.
    Folders { rt: &'a HostRuntime, made: String },
}

/// An empty place in folders.
fn in_folders(rt: &HostRuntime) -> Result<Ground<'_>, Trouble> {
    let mut made = String::new(rt.alloc());
    claim(rt, &mut made, REPO)?;
    Ok(Ground::Folders { rt, made })
}

/// An empty place.
pub fn ground_at(rt: &HostRuntime, place: Place) -> Result<Ground<'_>, Trouble> {
    let alloc = rt.alloc();
    match place {
        Place::Memory => Ok(Ground::Memory {
            depot: empty_memory(alloc),
        }),
        Place::Own => Ok(Ground::Own {
            store: Store::new(alloc),
        }),
        Place::Folders => in_folders(rt),
    }
}

/// Whether a text has that line.
pub fn has_line(text: &str, line: &str) -> bool {
    for other in text.lines() {
        if other == line {
            return true;
        }
    }
    false
}

/// Takes the name of a folder for this scene, unless it has it. One that was there before is left alone.
fn claim(rt: &HostRuntime, made: &mut String, place: &str) -> Done {
    if has_line(made.as_str(), place) {
        return Ok(());
    }
    if fs::exists(rt, place)? {
        return Err(Trouble("a folder of that name was there before"));
    }
    push_line(made, place);
    Ok(())
}

/// Removes the folders that this scene made.
pub fn clear(ground: &Ground) {
    if let Ground::Folders { rt, made } = ground {
        for place in made.as_str().lines() {
            let _ = fs::remove_dir_all(*rt, place);
        }
    }
}

/// The path of what has that name in a folder.
fn path_of(alloc: Global, folder: &str, name: &str) -> Result<String, AllocError> {
    format!(in alloc; "{folder}/{name}")
}

/// Writes the text of a file in a folder.
pub fn write_text(rt: &HostRuntime, folder: &str, file: &str) -> Done {
    let (name, text) = file.split_once('=').unwrap_or((file, ""));
    let path = path_of(rt.alloc(), folder, name)?;
    Ok(fs::write(rt, path.as_str(), text)?)
}

/// Makes a folder with these files.
fn make_folder(rt: &HostRuntime, folder: &str, files: &str) -> Done {
    fs::create_dir_all(rt, folder)?;
    for file in files.split_whitespace() {
        write_text(rt, folder, file)?;
    }
    Ok(())
}

/// Makes the folder of a source, with its files.
fn make_source(rt: &HostRuntime, made: &mut String, line: &str) -> Done {
    let told = source_line(line);
    claim(rt, made, told.place)?;
    let folder = path_of(rt.alloc(), told.place, told.shard)?;
    make_folder(rt, folder.as_str(), told.files)
}

/// Adds a source where it isn't in memory. Those in memory are made with each run.
pub fn add_source(ground: &mut Ground, line: &str) -> Done {
    match ground {
        Ground::Folders { rt, made } => make_source(*rt, made, line),
        _ => Ok(()),
    }
}

/// Says the shards that a run in memory restored, and its exit status.
fn say_left(said: &mut String, targets: &[Restored<MemTarget>], status: u8) {
    for restored in targets {
        say_restored(said, restored);
        restored.target.say_files(said);
        say(said, "\n");
    }
    say_exit(said, status);
}

/// The output of a run.
fn output_of(alloc: Global, mishaps: &Mishaps) -> Result<MemOut, AllocError> {
    let plan = plan_of(alloc, Call::Write, mishaps.write)?;
    MemOut::new(alloc, mishaps.room, plan)
}

/// The sources, the targets and the output of a run in memory.
fn outside_of(alloc: Global, job: &Job) -> Result<(MemSources, MemTargets, MemOut), AllocError> {
    let sources = sources_of(alloc, job.sources, job.mishaps.source)?;
    let plan = failing_at(alloc, "out", job.mishaps.target)?;
    let out = output_of(alloc, job.mishaps)?;
    Ok((sources, MemTargets::new(plan), out))
}

/// A run over a container with sources and targets in memory, and what it shows. An empty container stands in for it meanwhile.
fn run_over<D: Depot + Send, R: Threads + Wait + Sync>(
    alloc: Global,
    threads: &R,
    held: &mut D,
    empty: D,
    job: &Job,
) -> Result<Shown, Trouble>
where
    D::Stage: Send,
    D::Fetch: Send,
{
    let depot = mem::replace(held, empty);
    let (sources, targets, mut out) = outside_of(alloc, job)?;
    let left = run_on(alloc, threads, job, depot, &sources, &targets, &mut out)?;
    let (failed, history) = (left.faults.as_slice(), left.history.as_slice());
    let mut shown = shown_by(alloc, out.as_slice(), failed, &left.depot, history);
    say_left(&mut shown.text, left.targets.as_slice(), left.status);
    *held = left.depot.depot;
    Ok(shown)
}

/// An empty container in memory.
fn empty_memory(alloc: Global) -> MemDepot {
    MemDepot::new(alloc, Seq::new(alloc))
}

/// The line of that number of what a run is asked.
fn asked_line<'a>(job: &Job<'a>, number: u32) -> &'a str {
    if !job.words.ends_with("run") {
        return job.words;
    }
    for (place, line) in job.script.lines().enumerate() {
        if (place as u64).saturating_add(1) == number as u64 {
            return line;
        }
    }
    ""
}

/// Takes the names of the folders for this scene into which a run restores, which are the last words of its lines.
fn claim_targets(rt: &HostRuntime, made: &mut String, job: &Job) -> Done {
    for line in job.script.lines() {
        if line.starts_with("restore ") {
            claim(rt, made, last_word(line))?;
        }
    }
    if job.words.contains("restore ") {
        claim(rt, made, last_word(job.words))?;
    }
    Ok(())
}

/// Says the text of a file in a folder.
pub fn say_text(rt: &HostRuntime, said: &mut String, folder: &str, name: &str) -> Done {
    let path = path_of(rt.alloc(), folder, name)?;
    say(said, fs::read_to_string(rt, path.as_str())?.as_str());
    Ok(())
}

/// Says the name and the text of a file in a folder.
fn say_file(rt: &HostRuntime, said: &mut String, folder: &str, name: &str) -> Done {
    say(said, " ");
    say(said, name);
    say(said, "=");
    say_text(rt, said, folder, name)
}

/// The files in a folder of a place. An absent folder has none.
fn files_in(rt: &HostRuntime, place: &str, number: u32) -> Result<Files, Trouble> {
    let alloc = rt.alloc();
    let mut shard = DirSources::new(rt).shard(alloc, place, "", number)?;
    match shard.list(alloc) {
        Ok(files) => Ok(files),
        Err(_) => Ok(Seq::new(alloc)),
    }
}

/// Says the names and texts of these files of a folder.
fn say_files(rt: &HostRuntime, said: &mut String, folder: &str, files: &[ListedFile]) -> Done {
    for file in files {
        say_file(rt, said, folder, file.name.as_str())?;
    }
    Ok(())
}

/// Says the names and texts of the files in a folder of a place.
fn say_folder(rt: &HostRuntime, said: &mut String, place: &str, number: u32) -> Done {
    let folder = format!(in rt.alloc(); "{place}/{number}")?;
    let files = files_in(rt, place, number)?;
    say_files(rt, said, folder.as_str(), files.as_slice())
}

/// Says a shard that a run in folders restored.
fn say_shard<'a>(
    rt: &HostRuntime,
    said: &mut String,
    job: &Job,
    restored: &Restored<DirTarget<'a, HostRuntime>>,
) -> Done {
    say_restored(said, restored);
    let place = last_word(asked_line(job, restored.line));
    let folder = path_of(rt.alloc(), place, restored.index.as_str())?;
    say_folder(rt, said, folder.as_str(), restored.shard)
}

/// Says the shards that a run in folders restored, and its exit status.
fn say_shards<'a>(
    rt: &HostRuntime,
    said: &mut String,
    job: &Job,
    targets: &[Restored<DirTarget<'a, HostRuntime>>],
    status: u8,
) -> Done {
    for restored in targets {
        say_shard(rt, said, job, restored)?;
        say(said, "\n");
    }
    say_exit(said, status);
    Ok(())
}

/// What a run in folders leaves.
type LeftInFolders<'a> = Ended<
    Faulty<DirDepot<'a, HostRuntime>>,
    DirShard<'a, HostRuntime>,
    DirTarget<'a, HostRuntime>,
>;

/// What a run in folders shows.
fn shown_in_folders(
    rt: &HostRuntime,
    job: &Job,
    report: &[u8],
    left: &LeftInFolders,
) -> Result<Shown, Trouble> {
    let (failed, history) = (left.faults.as_slice(), left.history.as_slice());
    let mut shown = shown_by(rt.alloc(), report, failed, &left.depot, history);
    let targets = left.targets.as_slice();
    say_shards(rt, &mut shown.text, job, targets, left.status)?;
    Ok(shown)
}

/// A run over the container in its folder, and what it leaves.
fn run_on_folders<'a, R: Threads + Wait + Sync>(
    rt: &'a HostRuntime,
    threads: &R,
    job: &Job,
    out: &mut MemOut,
) -> Result<LeftInFolders<'a>, AllocError> {
    let alloc = rt.alloc();
    let depot = DirDepot::new(rt, alloc, REPO)?;
    let (sources, targets) = (DirSources::new(rt), DirTargets::new(rt));
    run_on(alloc, threads, job, depot, &sources, &targets, out)
}

/// A run in folders, and what it shows.
fn run_in_folders<R: Threads + Wait + Sync>(
    rt: &HostRuntime,
    threads: &R,
    made: &mut String,
    job: &Job,
) -> Result<Shown, Trouble> {
    claim_targets(rt, made, job)?;
    let mut out = output_of(rt.alloc(), job.mishaps)?;
    let left = run_on_folders(rt, threads, job, &mut out)?;
    let shown = shown_in_folders(rt, job, out.as_slice(), &left);
    drop(left);
    shown
}

/// A run, and what it shows.
pub fn run_there<R: Threads + Wait + Sync>(
    alloc: Global,
    threads: &R,
    ground: &mut Ground,
    job: &Job,
) -> Result<Shown, Trouble> {
    match ground {
        Ground::Memory { depot } => run_over(alloc, threads, depot, empty_memory(alloc), job),
        Ground::Own { store } => run_over(alloc, threads, store, Store::new(alloc), job),
        Ground::Folders { rt, made } => run_in_folders(*rt, threads, made, job),
    }
}
