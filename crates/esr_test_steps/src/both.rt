//! Two desks at one lock: one works all units, and the other begins the next term in between.
ghost use Rattle.std.specs.Prelude.{◌≡◌, ◌≤◌, ◌+◌, ◌^◌, true};
ghost use Rattle.esr_drive.specs.Worked.{IsWorkable, IsNewPass};

use crate::between::{Between, Due};
use esr_desk::{Desk, Sole};
use esr_drive::{Outside, work};
use esr_handle::{Handle, Share, Since, Sitting};
use esr_scenes::say;
use esr_source::{NoGate, Sources, Targets};
use esr_turns::{Pass, TurnLock};
use std::alloc::Global;
use std::marker::Brand;
use std::sync::Wait;

// The turns of each desk that has some.
const TURNS: u64 = 1 << 38;

/// How many turns each desk has: none where spent turns are to be told.
fn share_of(due: Due) -> u64
    ensures { result ≤ 2 ^ 38 }
{
    match due {
        Due::Take => 0,
        _ => TURNS,
    }
}

/// Works all units by the desk of one pass, beside which that of the other begins the next term. What was told of the steps.
fn work_both<Q: Sole, S, T, B: Since, W: Share, R: Wait + Sync>(
    rt: &R,
    alloc: Global,
    lock: &TurnLock<Sitting<Q, B>>,
    one: Pass<Sitting<Q, B>>,
    other: Pass<Sitting<Q, B>>,
    outside: &Outside<'_, S, T, NoGate>,
    due: Due,
) -> (Pass<Sitting<Q, B>>, Pass<Sitting<Q, B>>, String)
where
    S: Sources<Shard = Q::Shard>,
    T: Targets<Target = Q::Target>,
    requires picked { (lock.now ≡ W.lock) × (one.left ≡ W.total) × (other.left ≡ W.total) }
    requires earlier { Q.start.earlier_turns ≡ 2 ^ 33 }
    requires one { IsNewPass Q.start B.before lock.now 0 one }
    requires other { IsNewPass Q.start B.before lock.now 0 other }
    requires workable { IsWorkable Q.start (S.told outside.now.sources.now) (T.told outside.now.targets.now) outside.now.part_size }
    ensures own { (result.0.lock ≡ lock.now) × (result.1.lock ≡ lock.now) }
    ensures turns { (result.0.left + result.0.used ≡ one.left) × (result.1.left + result.1.used ≡ other.left) }
{
    let own: Handle<'_, Q, B, W, R> = Handle::new(lock, rt, one);
    let elector: Handle<'_, Q, B, W, R> = Handle::new(lock, rt, other);
    let told = String::new(alloc);
    let mut desk = Between {
        own,
        elector,
        due,
        told,
    };
    let answer = work(
        alloc,
        &mut desk,
        outside.sources,
        outside.targets,
        outside.gate,
        outside.part_size,
    );
    let Between {
        own,
        elector,
        due: _,
        mut told,
    } = desk;
    if answer.is_err() {
        say(&mut told, ", stopped");
    }
    (own.into_pass(), elector.into_pass(), told)
}

/// Works all units at the lock, and closes it.
fn sit_at<Q: Sole, S, T, B: Since, R: Wait + Sync>(
    rt: &R,
    alloc: Global,
    lock: TurnLock<Sitting<Q, B>>,
    pass: Pass<Sitting<Q, B>>,
    outside: &Outside<'_, S, T, NoGate>,
    due: Due,
) -> (Q, String)
where
    S: Sources<Shard = Q::Shard>,
    T: Targets<Target = Q::Target>,
    requires new { IsNewPass Q.start B.before lock (2 ^ 40) pass }
    requires all { pass.left ≡ 2 ^ 40 }
    requires earlier { Q.start.earlier_turns ≡ 2 ^ 33 }
    requires workable { IsWorkable Q.start (S.told outside.now.sources.now) (T.told outside.now.targets.now) outside.now.part_size }
{
    let share = share_of(due);
    let (most, one) = lock.split(pass, share);
    let (rest, other) = lock.split(most, share);
    let (one, other, told) = work_both::<Q, S, T, B, Brand, R>(
        rt, alloc, &lock, one, other, outside, due,
    );
    let both = lock.join(one, other);
    let pass = lock.join(rest, both);
    let sitting = lock.close(pass);
    (sitting.into_desk(), told)
}

/// Works all units of the desk at a lock round it, and begins the next term where it is due. The desk comes back, with what was
/// told of the steps. Where there is no memory for a lock, no unit is worked.
pub(crate) fn sit_told<
    Q: Sole,
    S: Sources<Shard = Q::Shard>,
    T: Targets<Target = Q::Target>,
    B: Since,
    R: Wait + Sync,
>(rt: &R, alloc: Global, desk: Q, outside: &Outside<'_, S, T, NoGate>, due: Due) -> (Q, String)
    requires picked { B.before ≡ Q.seen desk }
    requires alone { Q.start.alone ≡ true }
    requires earlier { Q.start.earlier_turns ≡ 2 ^ 33 }
    requires workable { IsWorkable Q.start (S.told outside.now.sources.now) (T.told outside.now.targets.now) outside.now.part_size }
{
    desk.is_legal();
    desk.never_fails();
    match TurnLock::new(alloc, Sitting::<Q, B>::new(desk)) {
        Ok((lock, pass)) => sit_at(rt, alloc, lock, pass, outside, due),
        Err(sitting) => (sitting.into_desk(), String::new(alloc)),
    }
}
