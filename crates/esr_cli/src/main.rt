//! The program: a repository in a folder, shards in folders, the script on standard input, the report on standard output.
#![tactic(auto)]

use esr_depot::Depot;
use esr_dirdepot::DirDepot;
use esr_dirsource::{DirSources, DirTargets};
use esr_meter::{Meter, MeterOut, MeterSources, MeterTargets};
use esr_run::{Host, run};
use esr_script::{Words, repo_place};
use esr_seq::{Seq, Text};
use esr_source::{NoGate, Out, Sources, StdLines, StdOut, Targets};
use std::alloc::AllocError;
use std::env;
use std::io::{ErrorKind, IsTerminal};
use std::process::ExitCode;
use std::rt::Clock;
use std::sync::Wait;
use std::thread::Threads;
use std::time::{SystemTime, UNIX_EPOCH};

/// The exit status where there is no memory.
const WANTING: u8 = 8;

/// The time in milliseconds since 1970, or 0 where the clock can't be read.
fn moment_of(clock: &impl Clock) -> u64 {
    let Ok(now) = SystemTime::now(clock) else {
        return 0;
    };
    match now.duration_since(UNIX_EPOCH) {
        Ok(since) => u64::try_from(since.as_millis()).unwrap_or(0),
        Err(_) => 0,
    }
}

/// The words of the command line, without the program's name. Where one is no text there are none, which ask for nothing.
fn words_of(rt: &HostRuntime) -> Result<Words, AllocError> {
    let mut words = Seq::new(rt.alloc());
    let args = match env::args(rt) {
        Ok(args) => args,
        Err(error) if error.kind() == ErrorKind::OutOfMemory => return Err(AllocError),
        Err(_) => return Ok(words),
    };
    for word in args.skip(1) {
        words.push(Text::from_string(word))?;
    }
    Ok(words)
}

/// Whether standard error is a terminal on which a line can be written over.
fn has_terminal(rt: &HostRuntime) -> bool {
    match env::var(rt, "TERM") {
        Ok(kind) => rt.stderr().is_terminal() && kind.as_str() != "dumb",
        Err(_) => false,
    }
}

/// Runs over a container, and answers the exit status. At types that aren't known a call of `run` is proved far sooner.
fn run_over<D: Depot + Send, S: Sources, T: Targets, O: Out, R: Threads + Wait + Sync>(
    rt: &HostRuntime,
    threads: &R,
    words: &Words,
    depot: D,
    sources: &S,
    targets: &T,
    out: &mut O,
) -> u8
where
    D::Stage: Send,
    D::Fetch: Send,
{
    let mut lines = StdLines::new(rt.stdin());
    let (alloc, moment) = (rt.alloc(), moment_of(rt));
    let host = Host {
        sources,
        targets,
        gate: &NoGate,
        moment,
    };
    let ended = run(threads, alloc, words, &mut lines, depot, &host, out);
    ended.status
}

/// Carries out what the words ask for, with workers in threads, and answers the exit status.
fn status_of<R: Threads + Wait + Sync>(rt: &HostRuntime, threads: &R) -> Result<u8, AllocError> {
    let alloc = rt.alloc();
    let words = words_of(rt)?;
    let dir = repo_place(alloc, &words)?;
    let depot = DirDepot::new(rt, alloc, dir.as_str())?;
    let meter = Meter::new(rt, has_terminal(rt));
    let status = run_over(
        rt,
        threads,
        &words,
        depot,
        &MeterSources::new(&meter, DirSources::new(rt)),
        &MeterTargets::new(&meter, DirTargets::new(rt)),
        &mut MeterOut::new(&meter, StdOut::new(rt.stdout())),
    );
    meter.clear();
    Ok(status)
}

fn main(rt: HostRuntime) -> ExitCode {
    ExitCode::from(status_of(&rt, &rt).unwrap_or(WANTING))
}
