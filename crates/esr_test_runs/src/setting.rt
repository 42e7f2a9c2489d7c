//! A run: its words, its script, its sources, and which calls fail.
use crate::meeting::Meeting;
use esr_depot::Depot;
use esr_faulty::{Fault, Faulty, Kind, Turn};
use esr_run::{Ended, Host, run};
use esr_scenes::{one, source_of};
use esr_script::Words;
use esr_seq::{Bytes, Seq, Text};
use esr_source::{
    Address, Call, Failing, FailingAt, Gate, Lines, MemLines, MemOut, MemSource, MemSources, Out,
    Plan, Sources, Targets,
};
use std::alloc::{AllocError, Global};
use std::sync::Wait;
use std::thread::Threads;

/// Which call of the container, of the source `src`, of the target of `logs` below `out`, which read of the script and which write
/// of the output fails, each counted from 1, and how many bytes the output takes.
#[derive(Drop)]
pub struct Mishaps {
    pub fault: Fault,
    pub source: Failing,
    pub target: Failing,
    pub read: u64,
    pub write: u64,
    pub room: usize,
}

/// What a run is of: its words, the script, the lines that tell its sources, which calls fail, and the text of the record whose swap
/// stops the container, if there is one, and the gate.
#[derive(Drop)]
pub struct Job<'a> {
    pub words: &'a str,
    pub script: &'a str,
    pub sources: &'a str,
    pub mishaps: &'a Mishaps,
    pub last: &'a str,
    pub gate: &'a Meeting,
}

/// More bytes than a run prints.
pub const ROOM: usize = 100_000;

/// No call of the container.
pub const NO_FAULT: Fault = Fault {
    kind: Kind::Any,
    nth: 0,
    turn: Turn::Made,
    stops: false,
};

/// No call of a source or a target.
const NO_FAILING: Failing = Failing {
    call: Call::List,
    nth: 0,
};

/// No call fails.
pub fn calm() -> Mishaps {
    Mishaps {
        fault: NO_FAULT,
        source: NO_FAILING,
        target: NO_FAILING,
        read: 0,
        write: 0,
        room: ROOM,
    }
}

/// The plan of that call.
pub fn plan_of(alloc: Global, call: Call, nth: u64) -> Result<Plan, AllocError> {
    one(alloc, Failing { call, nth })
}

/// The plan of that call of the first shard of `logs` at a place.
pub fn failing_at(
    alloc: Global,
    place: &str,
    failing: Failing,
) -> Result<Seq<FailingAt>, AllocError> {
    let Failing { call, nth } = failing;
    let address = Address::new(alloc, place, "logs", 0)?;
    one(alloc, FailingAt { address, call, nth })
}

fn push_sources(alloc: Global, shards: &mut Seq<MemSource>, lines: &str) -> Result<(), AllocError> {
    for line in lines.lines() {
        shards.push(source_of(alloc, line)?)?;
    }
    Ok(())
}

/// The shards in memory of these lines, of which that call of `src` fails.
pub fn sources_of(alloc: Global, lines: &str, failing: Failing) -> Result<MemSources, AllocError> {
    let plan = failing_at(alloc, "src", failing)?;
    let mut shards = Seq::new(alloc);
    push_sources(alloc, &mut shards, lines)?;
    Ok(MemSources::new(shards, plan))
}

fn push_words(alloc: Global, words: &mut Words, line: &str) -> Result<(), AllocError> {
    for word in line.split_whitespace() {
        words.push(Text::from_str(alloc, word)?)?;
    }
    Ok(())
}

/// The words of a line. One worker does the work, unless they say how many.
fn words_of(alloc: Global, line: &str) -> Result<Words, AllocError> {
    let mut words = Seq::new(alloc);
    if !line.contains("--workers") {
        push_words(alloc, &mut words, "--workers 1")?;
    }
    push_words(alloc, &mut words, line)?;
    Ok(words)
}

/// A container whose calls go as the run's job says.
fn container_of<D: Drop>(alloc: Global, depot: D, job: &Job) -> Result<Faulty<D>, AllocError> {
    let last = Text::from_str(alloc, job.last)?;
    Ok(Faulty::new(alloc, depot, job.mishaps.fault, last))
}

/// The lines of the script.
fn lines_of(alloc: Global, job: &Job) -> Result<MemLines, AllocError> {
    let plan = plan_of(alloc, Call::Read, job.mishaps.read)?;
    let bytes = Bytes::from_slice(alloc, job.script.as_bytes())?;
    Ok(MemLines::new(bytes, plan))
}

/// A run that tells contracts nothing. At types that aren't known a call of `run` is proved far sooner.
fn run_untold<
    D: Depot + Send,
    S: Sources,
    T: Targets,
    G: Gate,
    I: Lines,
    O: Out,
    R: Threads + Wait + Sync,
>(
    threads: &R,
    alloc: Global,
    words: &Words,
    lines: &mut I,
    depot: D,
    host: &Host<'_, S, T, G>,
    out: &mut O,
) -> Ended<D, S::Shard, T::Target>
where
    D::Stage: Send,
    D::Fetch: Send,
{
    run(threads, alloc, words, lines, depot, host, out)
}

/// Runs over that container.
pub fn run_on<D: Depot + Send, S: Sources, T: Targets, R: Threads + Wait + Sync>(
    alloc: Global,
    threads: &R,
    job: &Job,
    depot: D,
    sources: &S,
    targets: &T,
    out: &mut MemOut,
) -> Result<Ended<Faulty<D>, S::Shard, T::Target>, AllocError>
where
    D::Stage: Send,
    D::Fetch: Send,
{
    let words = words_of(alloc, job.words)?;
    let mut lines = lines_of(alloc, job)?;
    let depot = container_of(alloc, depot, job)?;
    let host = Host {
        sources,
        targets,
        gate: job.gate,
        moment: 0,
    };
    Ok(run_untold(threads, alloc, &words, &mut lines, depot, &host, out))
}
