//! What one worker does beside nobody: it elects, and works then.
ghost use Rattle.std.specs.Prelude.{◌≡◌, ◌+◌, ◌≤◌, true, [], IfErr, OnOk};
ghost use Rattle.esr_core.specs.Ready.{AnyReady};
ghost use Rattle.esr_core.specs.Tracked.{Tracked};
ghost use Rattle.esr_core.specs.ReadTracked.{ReadTracked};
ghost use Rattle.esr_desk.specs.Grew.{NoneOut};
ghost use Rattle.esr_desk.specs.Start.{Legal, world_of};
ghost use Rattle.esr_quiet.specs.Asked.{GrewAsking};
ghost use Rattle.esr_drive.specs.Outside.{IsOutside};
ghost use Rattle.esr_drive.specs.Stopped.{StoppedIn};
ghost use Rattle.esr_drive.specs.Over.{NoReaderOut};
ghost use Rattle.esr_drive.specs.Elections.{WaitsOnly, ElectsOnly, ElectsFirst, HasElected};
ghost use Rattle.esr_drive.specs.Takes.{idle_takes};

use crate::law::laws;
use crate::worker::work;
use esr_desk::{Desk, StepRefusal};
use esr_quiet::nothing_is_ready_after_an_empty_take;
use esr_source::{Gate, Sources, Targets};
use std::alloc::Global;

/// Elects so often. An election that is refused is no reason to stop.
fn elect_all<Q: Desk>(alloc: Global, desk: &mut Q, times: u64) -> Result<(), StepRefusal>
    requires alone { Q.start.alone ≡ true }
    ensures grew { GrewAsking Q.start [] (Q.seen desk.old) (Q.seen desk.new) }
    ensures only { ElectsOnly (Q.seen desk.old) (Q.seen desk.new) }
    ensures takes { idle_takes (Q.seen desk.new) ≡ idle_takes (Q.seen desk.old) }
    ensures elects { HasElected times (Q.seen desk.old) (Q.seen desk.new) result }
    ensures rest { NoneOut Q.start (Q.seen desk.old) → NoneOut Q.start (Q.seen desk.new) }
    ensures readers { NoReaderOut Q.start (Q.seen desk.old) → NoReaderOut Q.start (Q.seen desk.new) }
    ensures stopped { IfErr result (StoppedIn Q.start (Q.seen desk.new)) }
{
    laws();
    for _time in 0..times {
        match desk.elect(alloc) {
            Ok(_) => {}
            Err(StepRefusal::Refused(_)) => {}
            Err(StepRefusal::Memory) => return Err(StepRefusal::Memory),
            Err(StepRefusal::TurnsSpent) => return Err(StepRefusal::TurnsSpent),
        }
    }
    Ok(())
}

/// Elects so often, and works all units that are ready then. An election that is refused, a unit that fails, and one whose term
/// is over are no reason to stop.
pub fn work_alone<Q: Desk<Shard = S::Shard, Target = T::Target>, S: Sources, T: Targets, G: Gate>(
    alloc: Global,
    desk: &mut Q,
    sources: &S,
    targets: &T,
    gate: &G,
    part_size: u64,
    elections: u64,
) -> Result<(), StepRefusal>
    requires alone { Q.start.alone ≡ true }
    requires outside { IsOutside Q.start (S.told sources.now) (T.told targets.now) part_size }
    requires tracked { ReadTracked Q.start.world }
    requires ops { Tracked Q.start.world }
    requires legal { Legal Q.start (Q.seen desk.old) }
    ensures grew { GrewAsking Q.start [] (Q.seen desk.old) (Q.seen desk.new) }
    ensures only { WaitsOnly (Q.seen desk.old) (Q.seen desk.new) }
    ensures first { ElectsFirst (Q.seen desk.old) (Q.seen desk.new) }
    ensures takes { idle_takes (Q.seen desk.new) ≤ idle_takes (Q.seen desk.old) + 1 }
    ensures elects { HasElected elections (Q.seen desk.old) (Q.seen desk.new) result }
    ensures rest { OnOk result (NoneOut Q.start (Q.seen desk.old) → NoReaderOut Q.start (Q.seen desk.old) → NoneOut Q.start (Q.seen desk.new)) }
    ensures readers { OnOk result (NoneOut Q.start (Q.seen desk.old) → NoReaderOut Q.start (Q.seen desk.old) → NoReaderOut Q.start (Q.seen desk.new)) }
    ensures ready { OnOk result (AnyReady (world_of Q.start (Q.seen desk.new)) → ⊥) }
    ensures stopped { IfErr result (StoppedIn Q.start (Q.seen desk.new)) }
{
    nothing_is_ready_after_an_empty_take();
    match elect_all(alloc, desk, elections) {
        Ok(()) => work(alloc, desk, sources, targets, gate, part_size),
        Err(refusal) => Err(refusal),
    }
}
