//! One unit.
ghost use Rattle.std.specs.Prelude.{◌≡◌, ◌≤◌, ◌^◌, [], IfErr, OnOk};
ghost use Rattle.esr_core.specs.World.{Drop as DropWork};
ghost use Rattle.esr_core.specs.Tracked.{Tracked};
ghost use Rattle.esr_core.specs.ReadTracked.{ReadTracked};
ghost use Rattle.esr_desk.specs.Calls.{HasTaken};
ghost use Rattle.esr_desk.specs.Conditions.{CanFinish};
ghost use Rattle.esr_desk.specs.Grew.{GrewBy};
ghost use Rattle.esr_desk.specs.Own.{made_of};
ghost use Rattle.esr_desk.specs.Readers.{TookRestore, TookUnit};
ghost use Rattle.esr_desk.specs.Sources.{AreSources};
ghost use Rattle.esr_desk.specs.Start.{Legal, ticket_of};
ghost use Rattle.esr_desk.specs.Taken.{Took};
ghost use Rattle.esr_drive.specs.Outside.{IsOutside};
ghost use Rattle.esr_drive.specs.Over.{IsOver};
ghost use Rattle.esr_drive.specs.Stopped.{IsDrop, IsHalted, IsUnitStopped, HasEnded, EndedBy, is_late};

use crate::law::laws;
use esr_desk::{Desk, EntryRefusal, StepRefusal, Unit, UnitRefusal};
use esr_ops::Work;
use esr_source::{Gate, Sources, Targets};
use std::alloc::Global;

/// Whether a step was refused, as the term of its ticket is over.
fn is_late(refusal: StepRefusal) -> bool
    ensures { result ≡ is_late refusal }
{
    match refusal {
        StepRefusal::Refused(EntryRefusal::StaleTerm { own: _, now: _ }) => true,
        _ => false,
    }
}

/// Ends the ticket of a drop, whose term is over.
fn end_stale<Q: Desk>(alloc: Global, desk: &mut Q, ticket: u64) -> UnitRefusal
    requires mine { HasTaken (Q.calls desk.old) ticket }
    requires over { CanFinish Q.start (Q.seen desk.old) ticket }
    requires work { (ticket_of Q.start (Q.seen desk.old) ticket).work ≡ DropWork }
    ensures stopped { IsUnitStopped Q.start (Q.seen desk.new) ticket result }
    ensures ended { EndedBy result (ticket_of Q.start (Q.seen desk.new) ticket) }
    ensures grew { GrewBy Q.start ticket (Q.seen desk.old) (Q.seen desk.new) }
    ensures calls { Q.calls desk.new ≡ Q.calls desk.old }
{
    laws();
    match desk.finish(alloc, ticket) {
        Ok(()) => UnitRefusal::Stale,
        Err(refusal) => UnitRefusal::Stopped(refusal),
    }
}

/// Takes away an op that failed. Where its term is over the ticket ends, and the op is still there.
fn drop_op<Q: Desk>(alloc: Global, desk: &mut Q, unit: &Unit) -> Result<(), UnitRefusal>
    requires mine { HasTaken (Q.calls desk.old) unit.now.ready.ticket }
    requires fresh { Took Q.start (Q.seen desk.old) unit.now }
    requires new { made_of Q.start (Q.seen desk.old) unit.now.ready.ticket ≡ [] }
    requires work { IsDrop unit.now.ready.work }
    ensures stopped { IfErr result (IsUnitStopped Q.start (Q.seen desk.new) unit.now.ready.ticket) }
    ensures ended { HasEnded result (ticket_of Q.start (Q.seen desk.new) unit.now.ready.ticket) }
    ensures grew { GrewBy Q.start unit.now.ready.ticket (Q.seen desk.old) (Q.seen desk.new) }
    ensures calls { Q.calls desk.new ≡ Q.calls desk.old }
{
    laws();
    let ticket = unit.ready.ticket;
    match desk.end_drop(alloc, ticket) {
        Ok(()) => Ok(()),
        Err(refusal) => {
            if is_late(refusal) {
                return Err(end_stale(alloc, desk, ticket));
            }
            Err(UnitRefusal::Stopped(refusal))
        }
    }
}

/// Does what the unit of an op that is no restore is to do.
fn do_op_unit<Q: Desk<Shard = S::Shard>, S: Sources, G: Gate>(
    alloc: Global,
    desk: &mut Q,
    unit: &Unit,
    sources: &S,
    gate: &G,
    part_size: u64,
) -> Result<(), UnitRefusal>
    requires mine { HasTaken (Q.calls desk.old) unit.now.ready.ticket }
    requires fresh { Took Q.start (Q.seen desk.old) unit.now }
    requires new { made_of Q.start (Q.seen desk.old) unit.now.ready.ticket ≡ [] }
    requires sources { AreSources Q.start (S.told sources.now) }
    requires size { part_size ≡ Q.start.part_size }
    requires sized { (1 ≤ part_size) × (part_size ≤ 2 ^ 30) }
    ensures stopped { IfErr result (IsUnitStopped Q.start (Q.seen desk.new) unit.now.ready.ticket) }
    ensures ended { HasEnded result (ticket_of Q.start (Q.seen desk.new) unit.now.ready.ticket) }
    ensures grew { GrewBy Q.start unit.now.ready.ticket (Q.seen desk.old) (Q.seen desk.new) }
    ensures calls { Q.calls desk.new ≡ Q.calls desk.old }
{
    match &unit.ready.work {
        Work::Shard { .. } => esr_upload::run_unit(alloc, desk, unit, sources, gate, part_size),
        Work::CloneShard { .. } => esr_clone::run_unit(alloc, desk, unit),
        Work::Finalize { .. } => esr_finish::run_unit(alloc, desk, unit),
        Work::Drop => drop_op(alloc, desk, unit),
        Work::Delete { .. } | Work::Cleanup => esr_delete::run_unit(alloc, desk, unit),
        _ => unreachable!("no other unit is given"),
    }
}

/// Does the unit of an op. One that fails, or whose term is over, is no reason to stop.
fn do_op<Q: Desk<Shard = S::Shard>, S: Sources, G: Gate>(
    alloc: Global,
    desk: &mut Q,
    unit: &Unit,
    sources: &S,
    gate: &G,
    part_size: u64,
) -> Result<(), StepRefusal>
    requires mine { HasTaken (Q.calls desk.old) unit.now.ready.ticket }
    requires fresh { Took Q.start (Q.seen desk.old) unit.now }
    requires new { made_of Q.start (Q.seen desk.old) unit.now.ready.ticket ≡ [] }
    requires legal { Legal Q.start (Q.seen desk.old) }
    requires sources { AreSources Q.start (S.told sources.now) }
    requires size { part_size ≡ Q.start.part_size }
    requires sized { (1 ≤ part_size) × (part_size ≤ 2 ^ 30) }
    requires tracked { ReadTracked Q.start.world }
    requires ops { Tracked Q.start.world }
    ensures stopped { IfErr result (IsHalted Q.start (Q.seen desk.new) unit.now.ready.ticket) }
    ensures over { OnOk result (IsOver Q.start (Q.seen desk.new) unit.now.ready.ticket) }
    ensures grew { GrewBy Q.start unit.now.ready.ticket (Q.seen desk.old) (Q.seen desk.new) }
    ensures calls { Q.calls desk.new ≡ Q.calls desk.old }
{
    laws();
    match do_op_unit(alloc, desk, unit, sources, gate, part_size) {
        Ok(()) => Ok(()),
        Err(UnitRefusal::Failed(_)) => Ok(()),
        Err(UnitRefusal::Stale) => Ok(()),
        Err(UnitRefusal::Stopped(refusal)) => Err(refusal),
    }
}

/// Does what the unit of a restore is to do. One that fails is no reason to stop; the target that it gives back is dropped.
fn do_restore<Q: Desk, T: Targets<Target = Q::Target>>(
    alloc: Global,
    desk: &mut Q,
    unit: Unit,
    targets: &T,
) -> Result<(), StepRefusal>
    requires mine { HasTaken (Q.calls desk.old) unit.ready.ticket }
    requires fresh { TookRestore Q.start (Q.seen desk.old) unit }
    requires new { made_of Q.start (Q.seen desk.old) unit.ready.ticket ≡ [] }
    requires legal { Legal Q.start (Q.seen desk.old) }
    requires sure { Q.start.sure_targets ≡ (T.told targets.now).is_quiet }
    requires tells { Q.start.targets_tell ≡ (T.told targets.now).tells }
    requires tracked { ReadTracked Q.start.world }
    requires ops { Tracked Q.start.world }
    ensures stopped { IfErr result (IsHalted Q.start (Q.seen desk.new) unit.ready.ticket) }
    ensures over { OnOk result (IsOver Q.start (Q.seen desk.new) unit.ready.ticket) }
    ensures grew { GrewBy Q.start unit.ready.ticket (Q.seen desk.old) (Q.seen desk.new) }
    ensures calls { Q.calls desk.new ≡ Q.calls desk.old }
{
    laws();
    match esr_restore::run_unit(alloc, desk, unit, targets) {
        Ok(()) => Ok(()),
        Err(left) => match left.refusal {
            UnitRefusal::Failed(_) => Ok(()),
            UnitRefusal::Stale => unreachable!("a restore has no term"),
            UnitRefusal::Stopped(refusal) => Err(refusal),
        },
    }
}

/// Does what a unit is to do. One that fails, or whose term is over, is no reason to stop.
pub fn do_next<Q: Desk<Shard = S::Shard, Target = T::Target>, S: Sources, T: Targets, G: Gate>(
    alloc: Global,
    desk: &mut Q,
    unit: Unit,
    sources: &S,
    targets: &T,
    gate: &G,
    part_size: u64,
) -> Result<(), StepRefusal>
    requires mine { HasTaken (Q.calls desk.old) unit.ready.ticket }
    requires fresh { TookUnit Q.start (Q.seen desk.old) unit }
    requires new { made_of Q.start (Q.seen desk.old) unit.ready.ticket ≡ [] }
    requires legal { Legal Q.start (Q.seen desk.old) }
    requires outside { IsOutside Q.start (S.told sources.now) (T.told targets.now) part_size }
    requires tracked { ReadTracked Q.start.world }
    requires ops { Tracked Q.start.world }
    ensures stopped { IfErr result (IsHalted Q.start (Q.seen desk.new) unit.ready.ticket) }
    ensures over { OnOk result (IsOver Q.start (Q.seen desk.new) unit.ready.ticket) }
    ensures grew { GrewBy Q.start unit.ready.ticket (Q.seen desk.old) (Q.seen desk.new) }
    ensures calls { Q.calls desk.new ≡ Q.calls desk.old }
{
    if matches!(&unit.ready.work, Work::RestoreShard { .. }) {
        return do_restore(alloc, desk, unit, targets);
    }
    do_op(alloc, desk, &unit, sources, gate, part_size)
}
