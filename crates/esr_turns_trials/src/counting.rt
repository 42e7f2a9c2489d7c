// Turns that are taken at one lock.
ghost use Rattle.std.specs.Prelude.{◌≡◌, ℕ, ◌+◌, ◌^◌, ◌<◌, List, [], ◌∷◌, ◌++◌, Option, Some, true};
ghost use Rattle.esr_turns.specs.Places.{places_from, merged};
ghost use Rattle.esr_turns.specs.Histories.{StartsWith};

use crate::counter::Counter;
use crate::tally::Tally;
use esr_turns::{Logged, Pass, TurnLock};
use std::alloc::Global;
use std::sync::Wait;
use std::test::Fail;
use std::thread;
use std::thread::Threads;

// How often each of two threads counts.
const OFTEN: u64 = 100_000;

#[test]
fn each_place_of_the_history_is_one_threads_turn(rt: HostRuntime) -> Result<(), Fail> {
    let counter = counted_by_two(&rt, rt.alloc()).ok_or("there is memory")?;
    assert_eq!(rt; counter.entries(), 2 * OFTEN);
    assert!(rt; counter.is_in_order());
    assert_eq!(rt; counter.counted_by(1), OFTEN as usize);
    assert_eq!(rt; counter.counted_by(2), OFTEN as usize);
    Ok(())
}

#[test]
fn a_pass_without_turns_says_so(rt: HostRuntime) -> Result<(), Fail> {
    let alloc = rt.alloc();
    let Ok((lock, pass)) = TurnLock::new(alloc, Counter::new(alloc)) else {
        return Err("there is memory".into());
    };
    let (pass, none) = lock.split(pass, 0);
    assert_eq!(rt; none.left(), 0);
    assert_eq!(rt; pass.left(), 1 << 40);
    let none = count_once(&rt, &lock, none, 2);
    let pass = count_once(&rt, &lock, pass, 1);
    assert_eq!(rt; pass.left(), (1 << 40) - 1);
    let counter = close_both(lock, pass, none);
    assert_eq!(rt; counter.counted_by(2), 0);
    assert_eq!(rt; counter.counted_by(1), 1);
    Ok(())
}

#[test]
fn an_entry_may_carry_an_image(rt: HostRuntime) -> Result<(), Fail> {
    let alloc = rt.alloc();
    let Ok((lock, pass)) = TurnLock::new(alloc, Tally::new(alloc)) else {
        return Err("there is memory".into());
    };
    let (pass, is_added) = add_in_turn(&rt, &lock, pass, 7);
    assert!(rt; is_added);
    assert_eq!(rt; lock.close(pass).len(), 1);
    Ok(())
}

// Counts one in a turn, where the pass has one left.
fn count_once<R: Wait>(
    rt: &R,
    lock: &TurnLock<Counter>,
    pass: Pass<Counter>,
    by: u64,
) -> Pass<Counter>
    requires { pass.lock ≡ lock.now }
    ensures own { result.lock ≡ lock.now }
    ensures turns { result.left + result.used ≡ pass.left + pass.used }
{
    if pass.left() == 0 {
        return pass;
    }
    let mut held = lock.turn(rt, pass);
    let _ = held.value.add(by);
    lock.home(held)
}

fn count_often<R: Wait>(
    rt: &R,
    lock: &TurnLock<Counter>,
    mut pass: Pass<Counter>,
    by: u64,
) -> Pass<Counter>
    requires { pass.lock ≡ lock.now }
    ensures own { result.lock ≡ lock.now }
    ensures turns { result.left + result.used ≡ pass.left + pass.used }
{
    for _ in 0..OFTEN {
        pass = count_once(rt, lock, pass, by);
    }
    pass
}

// The counter, once both passes were joined. Each place of its history is one pass's.
fn close_both(lock: TurnLock<Counter>, one: Pass<Counter>, other: Pass<Counter>) -> Counter
    requires own { (one.lock ≡ lock) × (other.lock ≡ lock) }
    requires all { (one.left + one.used) + (other.left + other.used) ≡ 2 ^ 40 }
    ensures places { merged one.mine other.mine ≡ places_from 0 result }
    ensures seen { StartsWith result one.seen × StartsWith result other.seen }
{
    let pass = lock.join(one, other);
    lock.close(pass)
}

// Two threads count at one lock.
fn counted_by_two<R: Threads + Wait + Sync>(rt: &R, alloc: Global) -> Option<Counter> {
    let Ok((lock, pass)) = TurnLock::new(alloc, Counter::new(alloc)) else {
        return None;
    };
    let (one, other) = lock.split(pass, 1 << 39);
    let shared = &lock;
    let (one, other) = thread::join(
        rt,
        move || -> Pass<Counter>
            requires { one.lock ≡ shared.now }
            ensures { (result.lock ≡ shared.entry.now) × (result.left + result.used ≡ one.left + one.used) }
        { count_often(rt, shared, one, 1) },
        move || -> Pass<Counter>
            requires { other.lock ≡ shared.now }
            ensures { (result.lock ≡ shared.entry.now) × (result.left + result.used ≡ other.left + other.used) }
        { count_often(rt, shared, other, 2) },
    );
    Some(close_both(lock, one, other))
}

// Adds an amount in a turn. Where it did, the history ends with the amount and its image.
fn add_in_turn<R: Wait>(
    rt: &R,
    lock: &TurnLock<Tally>,
    pass: Pass<Tally>,
    amount: u64,
) -> (Pass<Tally>, bool)
    requires own { pass.lock ≡ lock.now }
    requires all { pass.left + pass.used ≡ 2 ^ 40 }
    requires left { 0 < pass.left }
    ensures own { result.0.lock ≡ lock.now }
    ensures all { result.0.left + result.0.used ≡ 2 ^ 40 }
    ensures image { result.1 ≡ true
        → result.0.seen ≡ pass.seen ++ (amount, Some ((amount ∷ [], amount ∷ amount ∷ []) ∷ [])) ∷ [] }
{
    let mut held = lock.turn(rt, pass);
    let is_added = held.value.add(amount).is_ok();
    (lock.home(held), is_added)
}
