//! All units that are ready.
ghost use Rattle.std.specs.Prelude.{◌≡◌, ◌+◌, ◌≤◌, true, false, [], length, IfErr, IfOk, OnOk};
ghost use Rattle.esr_core.specs.Entry.{TakeStep, NothingReady};
ghost use Rattle.esr_core.specs.Ready.{AnyReady};
ghost use Rattle.esr_core.specs.Tracked.{Tracked};
ghost use Rattle.esr_core.specs.ReadTracked.{ReadTracked};
ghost use Rattle.esr_desk.specs.Last.{IsLast};
ghost use Rattle.esr_desk.specs.Grew.{NoneOut};
ghost use Rattle.esr_desk.specs.Outcome.{Stepped};
ghost use Rattle.esr_desk.specs.Start.{world_of};
ghost use Rattle.esr_quiet.specs.Asked.{GrewAsking};
ghost use Rattle.esr_drive.specs.Calls.{TakeCalls, WorkedCalls, found_none};
ghost use Rattle.esr_drive.specs.Ended.{AllEnded};
ghost use Rattle.esr_drive.specs.Outside.{IsOutside};
ghost use Rattle.esr_drive.specs.Stopped.{IsStopped};
ghost use Rattle.esr_drive.specs.Over.{NoReaderOut};
ghost use Rattle.esr_drive.specs.Works.{WorksOnly};
ghost use Rattle.esr_drive.specs.Takes.{idle_takes};

use crate::law::laws;
use crate::unit::do_next;
use esr_desk::{Desk, Sole, StepRefusal};
use esr_source::{Gate, Sources, Targets};
use std::alloc::Global;

/// Takes a unit and does it. It answers whether there was one. A unit that fails, or whose term is over, is no reason to stop.
fn work_next<Q: Desk<Shard = S::Shard, Target = T::Target>, S: Sources, T: Targets, G: Gate>(
    alloc: Global,
    desk: &mut Q,
    sources: &S,
    targets: &T,
    gate: &G,
    part_size: u64,
) -> Result<bool, StepRefusal>
    requires outside { IsOutside Q.start (S.told sources.now) (T.told targets.now) part_size }
    requires tracked { ReadTracked Q.start.world }
    requires ops { Tracked Q.start.world }
    ensures idle { IfOk result (λ did. did ≡ false → Stepped Q.start (Q.seen desk.old) (Q.seen desk.new) 0 TakeStep NothingReady) }
    ensures longer { IfOk result (λ did. did ≡ true → length (Q.seen desk.old) + 1 ≤ length (Q.seen desk.new)) }
    ensures stopped { IfErr result (IsStopped Q.start (Q.seen desk.new)) }
    ensures rest { OnOk result (Q.start.alone ≡ true → NoneOut Q.start (Q.seen desk.old) → NoneOut Q.start (Q.seen desk.new)) }
    ensures readers { OnOk result (Q.start.alone ≡ true → NoReaderOut Q.start (Q.seen desk.old) → NoReaderOut Q.start (Q.seen desk.new)) }
    ensures grew { GrewAsking Q.start [] (Q.seen desk.old) (Q.seen desk.new) }
    ensures only { Q.start.alone ≡ true → WorksOnly (Q.seen desk.old) (Q.seen desk.new) }
    ensures takes { Q.start.alone ≡ true → idle_takes (Q.seen desk.new) ≡ idle_takes (Q.seen desk.old) + found_none result }
    ensures calls { TakeCalls (found_none result) (Q.calls desk.old) (Q.calls desk.new) }
    ensures ended { OnOk result (AllEnded Q.start (Q.seen desk.new) (Q.calls desk.old) (Q.calls desk.new)) }
{
    laws();
    let unit = match desk.take(alloc) {
        Ok(Some(unit)) => unit,
        Ok(None) => return Ok(false),
        Err(refusal) => return Err(refusal),
    };
    match do_next(alloc, desk, unit, sources, targets, gate, part_size) {
        Ok(()) => Ok(true),
        Err(refusal) => Err(refusal),
    }
}

/// Takes a unit, does it, and goes on until none is ready. A unit that fails, or whose term is over, is no reason to stop; a step
/// that is refused is. Where no unit is ready each ticket that was given to this desk in it has ended. Where nobody else makes a
/// step, all tickets have ended, if they had before.
pub fn work<Q: Desk<Shard = S::Shard, Target = T::Target>, S: Sources, T: Targets, G: Gate>(
    alloc: Global,
    desk: &mut Q,
    sources: &S,
    targets: &T,
    gate: &G,
    part_size: u64,
) -> Result<(), StepRefusal>
    requires outside { IsOutside Q.start (S.told sources.now) (T.told targets.now) part_size }
    requires tracked { ReadTracked Q.start.world }
    requires ops { Tracked Q.start.world }
    ensures idle { OnOk result (IsLast (Q.seen desk.new) 0 TakeStep NothingReady) }
    ensures stopped { IfErr result (IsStopped Q.start (Q.seen desk.new)) }
    ensures rest { OnOk result (Q.start.alone ≡ true → NoneOut Q.start (Q.seen desk.old) → NoneOut Q.start (Q.seen desk.new)) }
    ensures readers { OnOk result (Q.start.alone ≡ true → NoReaderOut Q.start (Q.seen desk.old) → NoReaderOut Q.start (Q.seen desk.new)) }
    ensures grew { GrewAsking Q.start [] (Q.seen desk.old) (Q.seen desk.new) }
    ensures only { Q.start.alone ≡ true → WorksOnly (Q.seen desk.old) (Q.seen desk.new) }
    ensures takes { Q.start.alone ≡ true → idle_takes (Q.seen desk.new) ≤ idle_takes (Q.seen desk.old) + 1 }
    ensures calls { WorkedCalls (Q.calls desk.old) (Q.calls desk.new) result }
    ensures ended { OnOk result (AllEnded Q.start (Q.seen desk.new) (Q.calls desk.old) (Q.calls desk.new)) }
{
    laws();
    for _round in 0..u64::MAX {
        let did = match work_next(alloc, desk, sources, targets, gate, part_size) {
            Ok(did) => did,
            Err(refusal) => return Err(refusal),
        };
        if !did {
            return Ok(());
        }
    }
    Err(StepRefusal::TurnsSpent)
}

/// Takes and does the units that are ready, one after another, as `work`, where nobody else makes a step. Whether one is ready is
/// looked up before, so no take finds none.
pub fn work_off<Q: Sole<Shard = S::Shard, Target = T::Target>, S: Sources, T: Targets, G: Gate>(
    alloc: Global,
    desk: &mut Q,
    sources: &S,
    targets: &T,
    gate: &G,
    part_size: u64,
) -> Result<(), StepRefusal>
    requires alone { Q.start.alone ≡ true }
    requires outside { IsOutside Q.start (S.told sources.now) (T.told targets.now) part_size }
    requires tracked { ReadTracked Q.start.world }
    requires ops { Tracked Q.start.world }
    ensures ready { OnOk result (AnyReady (world_of Q.start (Q.seen desk.new)) → ⊥) }
    ensures stopped { IfErr result (IsStopped Q.start (Q.seen desk.new)) }
    ensures rest { OnOk result (NoneOut Q.start (Q.seen desk.old) → NoneOut Q.start (Q.seen desk.new)) }
    ensures readers { OnOk result (NoReaderOut Q.start (Q.seen desk.old) → NoReaderOut Q.start (Q.seen desk.new)) }
    ensures grew { GrewAsking Q.start [] (Q.seen desk.old) (Q.seen desk.new) }
    ensures only { WorksOnly (Q.seen desk.old) (Q.seen desk.new) }
    ensures takes { idle_takes (Q.seen desk.new) ≡ idle_takes (Q.seen desk.old) }
    ensures calls { TakeCalls 0 (Q.calls desk.old) (Q.calls desk.new) }
    ensures ended { OnOk result (AllEnded Q.start (Q.seen desk.new) (Q.calls desk.old) (Q.calls desk.new)) }
{
    laws();
    for _round in 0..u64::MAX {
        let Ok(any) = desk.is_ready(alloc) else {
            return Err(StepRefusal::Memory);
        };
        if !any {
            return Ok(());
        }
        let did = match work_next(alloc, desk, sources, targets, gate, part_size) {
            Ok(did) => did,
            Err(refusal) => return Err(refusal),
        };
        if !did {
            unreachable!("a unit is ready");
        }
    }
    Err(StepRefusal::TurnsSpent)
}
