//! Plays scenes of whole runs, and says what was found: each argument names a file of scenes.
#![tactic(auto)]

mod ask;
mod errors;
mod faults;
mod ground;
mod meeting;
mod play;
mod scene;
mod setting;
mod shown;
mod text;

use crate::errors::Trouble;
use crate::play::play_file;
use esr_scenes::{complain, exit_of};
use std::env;
use std::process::ExitCode;
use std::sync::Wait;
use std::thread::Threads;

/// Plays a file, prints what was found, and tells how many scenes failed.
fn tell_file<R: Threads + Wait + Sync>(
    rt: &HostRuntime,
    threads: &R,
    path: &str,
) -> Result<u64, Trouble> {
    let played = play_file(rt, threads, path)?;
    complain(rt, played.complaints.as_str())?;
    println!(rt;
        "{path}: {} scenes over memory, {} over folders, {} runs, {} lines held",
        played.in_memory, played.in_folders, played.runs, played.held
    )?;
    Ok(played.failed)
}

/// Plays each file that an argument names, and tells how many scenes failed.
fn tell_all<R: Threads + Wait + Sync>(rt: &HostRuntime, threads: &R) -> Result<u64, Trouble> {
    let mut failed = 0u64;
    for path in env::args(rt)?.skip(1) {
        failed = failed.saturating_add(tell_file(rt, threads, path.as_str())?);
    }
    println!(rt; "{failed} scenes failed")?;
    Ok(failed)
}

fn main(rt: HostRuntime) -> ExitCode {
    match tell_all(&rt, &rt) {
        Ok(failed) => exit_of(&rt, Ok(failed)),
        Err(Trouble(why)) => exit_of(&rt, Err(why)),
    }
}
