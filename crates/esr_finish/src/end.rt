//! The end of a finalization, a delete or a cleanup that can't do its work.
ghost use Rattle.std.specs.Prelude.{◌≡◌, false};
ghost use Rattle.esr_desk.specs.Calls.{HasTaken};
ghost use Rattle.esr_desk.specs.Start.{ticket_of};
ghost use Rattle.esr_desk.specs.Evidence.{evidence};
ghost use Rattle.esr_desk.specs.Grew.{GrewBy};
ghost use Rattle.esr_desk.specs.Conditions.{CanFinish};
ghost use Rattle.esr_unit.specs.Shown.{EndingShown, Shown};
ghost use Rattle.esr_unit.specs.declared.trouble.Trouble.TheVariants.{Step};
ghost use Rattle.esr_finish.specs.Refused.{CanGiveUp, EndsAs, EndsAsRefused, IsGivenUp, IsSwapRefused, is_fault};

use esr_desk::{Desk, EntryRefusal, Hand, StepRefusal, UnitRefusal};
use esr_unit::{Ending, Trouble, ending_of, give_up};
use std::alloc::Global;

/// Whether the container failed in a step that was refused so.
pub fn is_fault(refusal: StepRefusal) -> bool
    ensures { result ≡ is_fault refusal }
{
    match refusal {
        StepRefusal::Refused(EntryRefusal::DepotFault) => true,
        _ => false,
    }
}

/// Ends the ticket of a finalization (`Hand::Unit`), or of a delete or cleanup (`Hand::Delete`): as failed, or as stale; or stops.
pub fn end_early<Q: Desk>(
    alloc: Global,
    desk: &mut Q,
    hand: Hand,
    ticket: u64,
    ending: Ending<Q::Stage, Q::Fetch, Q::Shard, Q::Target>,
) -> UnitRefusal
    requires mine { HasTaken (Q.calls desk.old) ticket }
    requires may { CanGiveUp hand (ticket_of Q.start (Q.seen desk.old) ticket) }
    requires shown { EndingShown hand
        (evidence Q.Stage.faults Q.Fetch.faults Q.Shard.faults Q.Target.faults Q.Shard.told Q.Target.told)
        ⊥ Q.start (Q.seen desk.old) ticket ending }
    requires cause { EndsAs hand ending }
    ensures given_up { IsGivenUp hand
        (evidence Q.Stage.faults Q.Fetch.faults Q.Shard.faults Q.Target.faults Q.Shard.told Q.Target.told)
        Q.start (Q.seen desk.old) (Q.seen desk.new) ticket result }
    ensures grew { GrewBy Q.start ticket (Q.seen desk.old) (Q.seen desk.new) }
    ensures calls { Q.calls desk.new ≡ Q.calls desk.old }
{
    match ending {
        Ending::Failed { why, by } => {
            give_up(alloc, desk, hand, ticket, Ending::Failed { why, by })
        }
        Ending::Own => unreachable!(),
        Ending::Stale => end_stale(alloc, desk, hand, ticket),
        Ending::Stopped(refusal) => UnitRefusal::Stopped(refusal),
    }
}

/// Ends the ticket, whose term is over. Where a delete has aborted its op meanwhile, it fails.
fn end_stale<Q: Desk>(alloc: Global, desk: &mut Q, hand: Hand, ticket: u64) -> UnitRefusal
    requires mine { HasTaken (Q.calls desk.old) ticket }
    requires may { CanGiveUp hand (ticket_of Q.start (Q.seen desk.old) ticket) }
    requires over { CanFinish Q.start (Q.seen desk.old) ticket }
    ensures given_up { IsGivenUp hand
        (evidence Q.Stage.faults Q.Fetch.faults Q.Shard.faults Q.Target.faults Q.Shard.told Q.Target.told)
        Q.start (Q.seen desk.old) (Q.seen desk.new) ticket result }
    ensures grew { GrewBy Q.start ticket (Q.seen desk.old) (Q.seen desk.new) }
    ensures calls { Q.calls desk.new ≡ Q.calls desk.old }
{
    esr_core::refusals_are_of_their_steps();
    match desk.finish(alloc, ticket) {
        Ok(()) => UnitRefusal::Stale,
        Err(refusal) => {
            let trouble = Trouble::Step(refusal);
            give_up(alloc, desk, hand, ticket, ending_of(trouble))
        }
    }
}

/// Ends the ticket, a record swap of which was refused so. Where the container failed in it nobody knows whether it was made, and
/// the ticket stays as it is.
pub fn end_swap<Q: Desk>(
    alloc: Global,
    desk: &mut Q,
    hand: Hand,
    ticket: u64,
    refusal: StepRefusal,
) -> UnitRefusal
    requires mine { HasTaken (Q.calls desk.old) ticket }
    requires may { is_fault refusal ≡ false → CanGiveUp hand (ticket_of Q.start (Q.seen desk.old) ticket) }
    requires shown { is_fault refusal ≡ false → Shown hand
        (evidence Q.Stage.faults Q.Fetch.faults Q.Shard.faults Q.Target.faults Q.Shard.told Q.Target.told)
        ⊥ Q.start (Q.seen desk.old) ticket (Step refusal) }
    requires cause { is_fault refusal ≡ false → EndsAsRefused hand
        (evidence Q.Stage.faults Q.Fetch.faults Q.Shard.faults Q.Target.faults Q.Shard.told Q.Target.told)
        refusal }
    ensures ended { IsSwapRefused hand
        (evidence Q.Stage.faults Q.Fetch.faults Q.Shard.faults Q.Target.faults Q.Shard.told Q.Target.told)
        Q.start (Q.seen desk.old) (Q.seen desk.new) ticket refusal result }
    ensures grew { GrewBy Q.start ticket (Q.seen desk.old) (Q.seen desk.new) }
    ensures calls { Q.calls desk.new ≡ Q.calls desk.old }
{
    if is_fault(refusal) {
        return UnitRefusal::Stopped(refusal);
    }
    let trouble = Trouble::Step(refusal);
    end_early(alloc, desk, hand, ticket, ending_of(trouble))
}
