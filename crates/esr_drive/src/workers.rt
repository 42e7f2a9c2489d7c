//! Workers at one lock, each in a thread of its own, and the activity that elects masters beside them.
ghost use Rattle.std.specs.Prelude.{◌≡◌, ◌*◌, ◌≤◌, ◌^◌, IfErr};
ghost use Rattle.std.specs.Thread.{IsSync};
ghost use Rattle.esr_drive.specs.Members.{members};
ghost use Rattle.esr_drive.specs.Stopped.{StoppedIn};
ghost use Rattle.esr_drive.specs.Worked.{HasElectedBy, IsWorkable, IsNewPass, IsBack, graver};

use crate::{Crew, Outside, ended_tickets_stay, work};
use esr_desk::{Desk, Sole, StepRefusal};
use esr_handle::{Handle, Share, Since, Sitting};
use esr_source::{Gate, Sources, Targets};
use esr_turns::{Pass, TurnLock};
use std::alloc::Global;
use std::marker::Brand;
use std::sync::Wait;
use std::thread;
use std::thread::Threads;

// The turns of each thread but one, which has all that are left.
const TURNS: u64 = 1 << 33;

/// The pass of a worker that is back, and what it answers.
type Back<Q, B> = (Pass<Sitting<Q, B>>, Result<(), StepRefusal>);

/// The graver of two answers: what the history doesn't tell goes before a refusal that it tells.
fn graver(one: Result<(), StepRefusal>, other: Result<(), StepRefusal>) -> Result<(), StepRefusal>
    ensures { result ≡ graver one other }
{
    match one {
        Ok(()) => other,
        Err(StepRefusal::Memory) => Err(StepRefusal::Memory),
        Err(StepRefusal::TurnsSpent) => Err(StepRefusal::TurnsSpent),
        Err(StepRefusal::Refused(refusal)) => match other {
            Ok(()) => Err(StepRefusal::Refused(refusal)),
            Err(other) => Err(other),
        },
    }
}

/// Works until no unit is ready.
fn worker_told<Q: Sole, S, T, G: Gate, B: Since, W: Share, R: Wait + Sync>(
    rt: &R,
    alloc: Global,
    lock: &TurnLock<Sitting<Q, B>>,
    pass: Pass<Sitting<Q, B>>,
    outside: &Outside<'_, S, T, G>,
) -> Back<Q, B>
where
    S: Sources<Shard = Q::Shard>,
    T: Targets<Target = Q::Target>,
    requires picked { (lock.now ≡ W.lock) × (pass.left ≡ W.total) }
    requires new { IsNewPass Q.start B.before lock.now (2 ^ 33) pass }
    requires workable { IsWorkable Q.start (S.told outside.now.sources.now) (T.told outside.now.targets.now) outside.now.part_size }
    ensures { IsBack Q.start B.before lock.now pass result.0 1 0 result.1 }
{
    let mut desk: Handle<'_, Q, B, W, R> = Handle::new(lock, rt, pass);
    let answer = work(
        alloc,
        &mut desk,
        outside.sources,
        outside.targets,
        outside.gate,
        outside.part_size,
    );
    (desk.into_pass(), answer)
}

fn worker<Q: Sole, S, T, G: Gate, B: Since, R: Wait + Sync>(
    rt: &R,
    alloc: Global,
    lock: &TurnLock<Sitting<Q, B>>,
    pass: Pass<Sitting<Q, B>>,
    outside: &Outside<'_, S, T, G>,
) -> Back<Q, B>
where
    S: Sources<Shard = Q::Shard>,
    T: Targets<Target = Q::Target>,
    requires new { IsNewPass Q.start B.before lock.now (2 ^ 33) pass }
    requires workable { IsWorkable Q.start (S.told outside.now.sources.now) (T.told outside.now.targets.now) outside.now.part_size }
    ensures { IsBack Q.start B.before lock.now pass result.0 1 0 result.1 }
{
    worker_told::<Q, S, T, G, B, Brand, R>(rt, alloc, lock, pass, outside)
}

/// Elects a master. A refusal that the history tells is no reason to stop.
fn elect<Q: Desk>(alloc: Global, desk: &mut Q) -> Result<(), StepRefusal>
    ensures calls { HasElectedBy 1 (Q.calls desk.old) (Q.calls desk.new) result }
    ensures stopped { IfErr result (StoppedIn Q.start (Q.seen desk.new)) }
{
    match desk.elect(alloc) {
        Ok(_) => Ok(()),
        Err(StepRefusal::Refused(_)) => Ok(()),
        Err(StepRefusal::Memory) => Err(StepRefusal::Memory),
        Err(StepRefusal::TurnsSpent) => Err(StepRefusal::TurnsSpent),
    }
}

/// Elects so often.
fn elect_often<Q: Desk>(alloc: Global, desk: &mut Q, times: u64) -> Result<(), StepRefusal>
    ensures calls { HasElectedBy times (Q.calls desk.old) (Q.calls desk.new) result }
    ensures stopped { IfErr result (StoppedIn Q.start (Q.seen desk.new)) }
{
    for _round in 0..times {
        match elect(alloc, desk) {
            Ok(()) => {}
            Err(refusal) => return Err(refusal),
        }
    }
    Ok(())
}

fn elector_told<Q: Sole, B: Since, W: Share, R: Wait + Sync>(
    rt: &R,
    alloc: Global,
    lock: &TurnLock<Sitting<Q, B>>,
    pass: Pass<Sitting<Q, B>>,
    times: u64,
) -> Back<Q, B>
    requires picked { (lock.now ≡ W.lock) × (pass.left ≡ W.total) }
    requires new { IsNewPass Q.start B.before lock.now (2 ^ 33) pass }
    ensures { IsBack Q.start B.before lock.now pass result.0 0 times result.1 }
{
    let mut desk: Handle<'_, Q, B, W, R> = Handle::new(lock, rt, pass);
    let answer = elect_often(alloc, &mut desk, times);
    (desk.into_pass(), answer)
}

fn elector<Q: Sole, B: Since, R: Wait + Sync>(
    rt: &R,
    alloc: Global,
    lock: &TurnLock<Sitting<Q, B>>,
    pass: Pass<Sitting<Q, B>>,
    times: u64,
) -> Back<Q, B>
    requires new { IsNewPass Q.start B.before lock.now (2 ^ 33) pass }
    ensures { IsBack Q.start B.before lock.now pass result.0 0 times result.1 }
{
    elector_told::<Q, B, Brand, R>(rt, alloc, lock, pass, times)
}

/// The work of a crew of one: a worker's, or that of the thread that elects.
fn member<Q: Sole, S, T, G: Gate, B: Since, R: Wait + Sync>(
    rt: &R,
    alloc: Global,
    lock: &TurnLock<Sitting<Q, B>>,
    pass: Pass<Sitting<Q, B>>,
    outside: &Outside<'_, S, T, G>,
    crew: Crew,
) -> Back<Q, B>
where
    S: Sources<Shard = Q::Shard>,
    T: Targets<Target = Q::Target>,
    requires one { members crew.workers crew.elections ≡ 1 }
    requires new { IsNewPass Q.start B.before lock.now (2 ^ 33) pass }
    requires workable { IsWorkable Q.start (S.told outside.now.sources.now) (T.told outside.now.targets.now) outside.now.part_size }
    ensures { IsBack Q.start B.before lock.now pass result.0 crew.workers crew.elections result.1 }
{
    if crew.workers == 0 {
        elector(rt, alloc, lock, pass, crew.elections)
    } else {
        worker(rt, alloc, lock, pass, outside)
    }
}

/// Works with a crew: its workers, and one that elects, each in a thread of its own.
pub(crate) fn drive_and_elect<Q: Sole + Send, S, T, G: Gate, B, R: Threads + Wait + Sync>(
    rt: &R,
    alloc: Global,
    lock: &TurnLock<Sitting<Q, B>>,
    pass: Pass<Sitting<Q, B>>,
    outside: &Outside<'_, S, T, G>,
    crew: Crew,
) -> Back<Q, B>
where
    S: Sources<Shard = Q::Shard>,
    T: Targets<Target = Q::Target>,
    B: Since + Send + Sync,
    Q::Stage: Send,
    Q::Fetch: Send,
    requires some { 1 ≤ members crew.workers crew.elections }
    requires new { IsNewPass Q.start B.before lock.now (members crew.workers crew.elections * 2 ^ 33) pass }
    requires workable { IsWorkable Q.start (S.told outside.now.sources.now) (T.told outside.now.targets.now) outside.now.part_size }
    ensures { IsBack Q.start B.before lock.now pass result.0 crew.workers crew.elections result.1 }
{
    ended_tickets_stay();
    if crew.members() == 1 {
        return member(rt, alloc, lock, pass, outside, crew);
    }
    let (first, others) = crew.split();
    let (rest, one) = lock.split(pass, TURNS);
    let (one, rest) = thread::join(
        rt,
        move || -> Back<Q, B>
            requires sync { IsSync R.row }
            requires one { members first.workers first.elections ≡ 1 }
            requires new { IsNewPass Q.start B.before lock.now (2 ^ 33) one }
            requires workable { IsWorkable Q.start (S.told outside.now.sources.now) (T.told outside.now.targets.now) outside.now.part_size }
            ensures { IsBack Q.start B.before lock.entry.now one result.0 first.workers first.elections result.1 }
        { member(rt, alloc, lock, one, outside, first) },
        move || -> Back<Q, B>
            requires sync { IsSync R.row }
            requires some { 1 ≤ members others.workers others.elections }
            requires new { IsNewPass Q.start B.before lock.now (members others.workers others.elections * 2 ^ 33) rest }
            requires workable { IsWorkable Q.start (S.told outside.now.sources.now) (T.told outside.now.targets.now) outside.now.part_size }
            ensures { IsBack Q.start B.before lock.entry.now rest result.0 others.workers others.elections result.1 }
        { drive_and_elect(rt, alloc, lock, rest, outside, others) },
    );
    let answer = graver(one.1, rest.1);
    (lock.join(one.0, rest.0), answer)
}
