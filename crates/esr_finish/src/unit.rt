//! The unit of a finalization.
ghost use Rattle.std.specs.Prelude.{◌≡◌, [], IfErr, OnOk};
ghost use Rattle.esr_formats.specs.Roots.{root_of};
ghost use Rattle.esr_desk.specs.Evidence.{evidence};
ghost use Rattle.esr_desk.specs.Own.{made_of};
ghost use Rattle.esr_desk.specs.Calls.{HasTaken};
ghost use Rattle.esr_desk.specs.Start.{ticket_of};
ghost use Rattle.esr_desk.specs.Told.{TellsAll};
ghost use Rattle.esr_desk.specs.Conditions.{CanSettle};
ghost use Rattle.esr_desk.specs.Taken.{Took};
ghost use Rattle.esr_desk.specs.Grew.{GrewBy};
ghost use Rattle.esr_finish.specs.Work.{IsFinalize};
ghost use Rattle.esr_finish.specs.Ticket.{Finalized, HasEndedSettled, IsUnsettledMaster};
ghost use Rattle.esr_finish.specs.Refused.{IsHalted, IsUnitRefused};

use crate::end::{end_early, end_swap};
use crate::root::write_swap;
use esr_desk::{Desk, Hand, Unit, UnitRefusal};
use esr_ops::Work;
use esr_root::RootData;
use esr_unit::ending_of;
use std::alloc::Global;

/// Writes the metadata of the unit's snapshot and the new root, settles on it, and ends the ticket. Where the container
/// fails before the settle, the name of the root is taken, a delete aborted the op or no generation is left, the ticket ends as
/// failed; where its term is over, it ends as stale.
pub fn run_unit<Q: Desk>(alloc: Global, desk: &mut Q, unit: &Unit) -> Result<(), UnitRefusal>
    requires mine { HasTaken (Q.calls desk.old) unit.now.ready.ticket }
    requires fresh { Took Q.start (Q.seen desk.old) unit.now }
    requires new { made_of Q.start (Q.seen desk.old) unit.now.ready.ticket ≡ [] }
    requires work { IsFinalize unit.now.ready.work }
    ensures ok { OnOk result (Finalized Q.start (Q.seen desk.old) (Q.seen desk.new) unit.now.ready.ticket) }
    ensures refused { IfErr result (λ e. IsUnitRefused
        (evidence Q.Stage.faults Q.Fetch.faults Q.Shard.faults Q.Target.faults Q.Shard.told Q.Target.told)
        Q.start (Q.seen desk.old) (Q.seen desk.new) unit.now.ready.ticket e) }
    ensures grew { GrewBy Q.start unit.now.ready.ticket (Q.seen desk.old) (Q.seen desk.new) }
    ensures calls { Q.calls desk.new ≡ Q.calls desk.old }
{
    let ticket = unit.ready.ticket;
    let Work::Finalize { info, .. } = &unit.ready.work else {
        unreachable!();
    };
    let Some(root) = &unit.new_root else {
        unreachable!();
    };
    esr_core::refusals_are_of_their_steps();
    match write_swap(alloc, desk, ticket, info, root) {
        Ok(()) => settle(alloc, desk, ticket, root),
        Err(trouble) => Err(end_early(alloc, desk, Hand::Unit, ticket, ending_of(trouble))),
    }
}

/// Settles on the root and ends the ticket. Where the record swap of the settle failed nobody knows whether the root is the safe
/// one, and the ticket stays out.
fn settle<Q: Desk>(
    alloc: Global,
    desk: &mut Q,
    ticket: u64,
    root: &RootData,
) -> Result<(), UnitRefusal>
    requires mine { HasTaken (Q.calls desk.old) ticket }
    requires may { CanSettle Q.start (ticket_of Q.start (Q.seen desk.old) ticket) (root_of root.now) }
    requires masters { IsUnsettledMaster (ticket_of Q.start (Q.seen desk.old) ticket) }
    requires tells { TellsAll Q.start (Q.seen desk.old) ticket }
    ensures ok { OnOk result (HasEndedSettled (ticket_of Q.start (Q.seen desk.old) ticket) (ticket_of Q.start (Q.seen desk.new) ticket)) }
    ensures refused { IfErr result (IsHalted
        (evidence Q.Stage.faults Q.Fetch.faults Q.Shard.faults Q.Target.faults Q.Shard.told Q.Target.told)
        Q.start (Q.seen desk.old) (Q.seen desk.new) ticket) }
    ensures grew { GrewBy Q.start ticket (Q.seen desk.old) (Q.seen desk.new) }
    ensures calls { Q.calls desk.new ≡ Q.calls desk.old }
{
    esr_core::refusals_are_of_their_steps();
    match desk.settle(alloc, ticket, root) {
        Ok(()) => {
            desk.finish(alloc, ticket)?;
            Ok(())
        }
        Err(refusal) => Err(end_swap(alloc, desk, Hand::Unit, ticket, refusal)),
    }
}
