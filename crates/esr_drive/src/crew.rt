//! A sitting: a desk goes into a lock, workers do its units, and it comes back.
ghost use Rattle.std.specs.Prelude.{◌≡◌, ◌+◌, ◌≤◌, ◌^◌, ◌++◌};
ghost use Rattle.esr_turns.specs.Places.{places_from};
ghost use Rattle.esr_drive.specs.Worked.{IsWorkable, IsNewPass, MayWait, HasSat, HasWaited};

use crate::workers::drive_and_elect;
use crate::{Crew, Outside, ended_tickets_stay, work_alone, work_off};
use esr_desk::{Desk, Sole, StepRefusal};
use esr_handle::{Lawful, Since, Sitting};
use esr_source::{Gate, Sources, Targets};
use esr_turns::{Pass, TurnLock};
use std::alloc::Global;
use std::marker::Brand;
use std::sync::Wait;
use std::thread::Threads;

/// The desk that is back, and what is answered.
type DeskBack<Q> = (Q, Result<(), StepRefusal>);

/// The desk, once all passes were joined.
fn close<Q: Sole, B: Since>(lock: TurnLock<Sitting<Q, B>>, pass: Pass<Sitting<Q, B>>) -> Q
    requires own { pass.lock ≡ lock }
    requires all { pass.left + pass.used ≡ 2 ^ 40 }
    ensures whole { Q.seen result ≡ B.before ++ pass.seen }
    ensures mine { pass.mine ≡ places_from 0 pass.seen }
{
    let sitting = lock.close(pass);
    sitting.is_legal();
    sitting.into_desk()
}

/// Works with the crew at the lock, and closes it.
fn work_at<Q: Sole + Send, S, T, G: Gate, B: Since + Send + Sync, R: Threads + Wait + Sync>(
    rt: &R,
    alloc: Global,
    lock: TurnLock<Sitting<Q, B>>,
    pass: Pass<Sitting<Q, B>>,
    outside: &Outside<'_, S, T, G>,
    crew: Crew,
) -> DeskBack<Q>
where
    S: Sources<Shard = Q::Shard>,
    T: Targets<Target = Q::Target>,
    Q::Stage: Send,
    Q::Fetch: Send,
    requires some { 1 ≤ crew.workers }
    requires few { crew.workers ≤ 64 }
    requires new { IsNewPass Q.start B.before lock (2 ^ 40) pass }
    requires all { pass.left ≡ 2 ^ 40 }
    requires workable { IsWorkable Q.start (S.told outside.now.sources.now) (T.told outside.now.targets.now) outside.now.part_size }
    ensures { HasSat Q.start B.before (Q.seen result.0) crew.workers crew.elections result.1 }
{
    let (pass, answer) = drive_and_elect(rt, alloc, &lock, pass, outside, crew);
    (close(lock, pass), answer)
}

/// Works alone: the elections come first, and then all units, one after another.
fn work_one<Q: Sole, S: Sources<Shard = Q::Shard>, T: Targets<Target = Q::Target>, G: Gate>(
    alloc: Global,
    desk: Q,
    outside: &Outside<'_, S, T, G>,
    crew: Crew,
) -> DeskBack<Q>
    requires { MayWait Q.start (S.told outside.now.sources.now) (T.told outside.now.targets.now) outside.now.part_size crew.workers }
    ensures { HasWaited Q.start (Q.seen desk) (Q.seen result.0) crew.workers crew.elections result.1 }
{
    desk.is_legal();
    let mut desk = desk;
    let answer = work_alone(
        alloc,
        &mut desk,
        outside.sources,
        outside.targets,
        outside.gate,
        outside.part_size,
        crew.elections,
    );
    (desk, answer)
}

/// Works with the crew at a lock round the desk, where there is memory for it, and else alone.
fn sit_told<
    Q: Sole + Send,
    S: Sources<Shard = Q::Shard>,
    T: Targets<Target = Q::Target>,
    G: Gate,
    B: Since + Send + Sync,
    R: Threads + Wait + Sync,
>(rt: &R, alloc: Global, desk: Q, outside: &Outside<'_, S, T, G>, crew: Crew) -> DeskBack<Q>
where
    Q::Stage: Send,
    Q::Fetch: Send,
    requires picked { B.before ≡ Q.seen desk }
    requires waits { MayWait Q.start (S.told outside.now.sources.now) (T.told outside.now.targets.now) outside.now.part_size crew.workers }
    ensures { HasWaited Q.start (Q.seen desk) (Q.seen result.0) crew.workers crew.elections result.1 }
{
    ended_tickets_stay();
    desk.is_legal();
    desk.never_fails();
    match TurnLock::new(alloc, Sitting::<Q, B>::new(desk)) {
        Ok((lock, pass)) => {
            let (mut desk, answer) = work_at(rt, alloc, lock, pass, outside, crew);
            match answer {
                Err(refusal) => (desk, Err(refusal)),
                Ok(()) => {
                    let answer = work_off(
                        alloc,
                        &mut desk,
                        outside.sources,
                        outside.targets,
                        outside.gate,
                        outside.part_size,
                    );
                    (desk, answer)
                }
            }
        }
        Err(sitting) => {
            let desk = sitting.into_desk();
            work_one(alloc, desk, outside, crew)
        }
    }
}

/// Does the units of the desk with a crew, until none is ready: its workers each in a thread of its own, beside a thread that elects
/// so often. Of one worker, and where there is no memory for that, the elections come first, and then all units, one after another.
pub fn sit<
    Q: Sole + Send,
    S: Sources<Shard = Q::Shard>,
    T: Targets<Target = Q::Target>,
    G: Gate,
    R: Threads + Wait + Sync,
>(
    rt: &R,
    alloc: Global,
    desk: Q,
    outside: &Outside<'_, S, T, G>,
    crew: Crew,
) -> (Q, Result<(), StepRefusal>)
where
    Q::Stage: Send,
    Q::Fetch: Send,
    requires { MayWait Q.start (S.told outside.now.sources.now) (T.told outside.now.targets.now) outside.now.part_size crew.workers }
    ensures { HasWaited Q.start (Q.seen desk) (Q.seen result.0) crew.workers crew.elections result.1 }
{
    if crew.workers == 1 {
        return work_one(alloc, desk, outside, crew);
    }
    sit_told::<Q, S, T, G, Brand, R>(rt, alloc, desk, outside, crew)
}
