//! The settle, the removal of what is doomed, and the end.
ghost use Rattle.std.specs.Prelude.{◌≡◌, true, false, map, IfErr, OnErr, OnOk};
ghost use Rattle.esr_core.specs.Entry.{DroppedStep};
ghost use Rattle.esr_core.specs.Allowed.{HasPutLatest};
ghost use Rattle.esr_core.specs.Pruning.{dooms};
ghost use Rattle.esr_formats.specs.Names.{name_of};
ghost use Rattle.esr_formats.specs.Roots.{root_of};
ghost use Rattle.esr_desk.specs.Calls.{HasTaken};
ghost use Rattle.esr_desk.specs.Start.{formats_of, ticket_of, world_of};
ghost use Rattle.esr_desk.specs.Once.{IsFresh};
ghost use Rattle.esr_desk.specs.Told.{TellsAll};
ghost use Rattle.esr_desk.specs.Grew.{GrewBy};
ghost use Rattle.esr_desk.specs.Halts.{Halts};
ghost use Rattle.esr_desk.specs.Evidence.{evidence};
ghost use Rattle.esr_desk.specs.Delete.Conditions.{CanSettleDelete, CanEndCleanup};
ghost use Rattle.esr_desk.specs.Delete.Cleaned.{NoneFailed};
ghost use Rattle.esr_delete.specs.Ticket.{IsOver};
ghost use Rattle.esr_delete.specs.Removed.{IsSettledPlan, NoneRemoved, HasRemoved, IsCleared};
ghost use Rattle.esr_delete.specs.Refused.{IsRemovalRefused, IsCleanRefused, IsLateRefused, IsHalted};

use crate::remove::{distinct, remove_all};
use esr_desk::{Desk, Hand, StepRefusal, UnitRefusal};
use esr_dooming::DoomedNames;
use esr_finish::{end_early, end_swap};
use esr_root::RootData;
use esr_unit::{Trouble, ending_of};
use std::alloc::Global;

/// Removes what is doomed, each blob once.
fn remove_once<Q: Desk>(
    alloc: Global,
    desk: &mut Q,
    ticket: u64,
    clean: bool,
    names: &DoomedNames,
) -> Result<(), StepRefusal>
    requires mine { HasTaken (Q.calls desk.old) ticket }
    requires over { IsSettledPlan (ticket_of Q.start (Q.seen desk.old) ticket) }
    requires names { Q.start.tells ≡ true → map name_of names.now ≡ dooms (formats_of Q.start) (ticket_of Q.start (Q.seen desk.old) ticket) }
    requires none { NoneRemoved Q.start (Q.seen desk.old) ticket }
    ensures removed { OnOk result (HasRemoved clean Q.start (Q.seen desk.old) (Q.seen desk.new) ticket (map name_of names.now)) }
    ensures own { ticket_of Q.start (Q.seen desk.new) ticket ≡ ticket_of Q.start (Q.seen desk.old) ticket }
    ensures refused { IfErr result (λ e. IsRemovalRefused clean Q.start (Q.seen desk.new) ticket e) }
    ensures grew { GrewBy Q.start ticket (Q.seen desk.old) (Q.seen desk.new) }
    ensures calls { Q.calls desk.new ≡ Q.calls desk.old }
{
    let items = names.as_slice();
    let once = distinct(alloc, items)?;
    remove_all(alloc, desk, ticket, clean, once.as_slice())
}

/// Removes what a delete dooms, and ends its ticket, which has settled.
fn clear<Q: Desk>(
    alloc: Global,
    desk: &mut Q,
    ticket: u64,
    names: &DoomedNames,
) -> Result<(), StepRefusal>
    requires mine { HasTaken (Q.calls desk.old) ticket }
    requires over { IsSettledPlan (ticket_of Q.start (Q.seen desk.old) ticket) }
    requires mode { (ticket_of Q.start (Q.seen desk.old) ticket).clean ≡ false }
    requires names { Q.start.tells ≡ true → map name_of names.now ≡ dooms (formats_of Q.start) (ticket_of Q.start (Q.seen desk.old) ticket) }
    requires none { NoneRemoved Q.start (Q.seen desk.old) ticket }
    ensures ok { OnOk result (IsCleared false Q.start (Q.seen desk.old) (Q.seen desk.new) ticket) }
    ensures kept { OnErr result (ticket_of Q.start (Q.seen desk.new) ticket ≡ ticket_of Q.start (Q.seen desk.old) ticket) }
    ensures refused { IfErr result (λ e. Halts Q.start (Q.seen desk.new) ticket e) }
    ensures grew { GrewBy Q.start ticket (Q.seen desk.old) (Q.seen desk.new) }
    ensures calls { Q.calls desk.new ≡ Q.calls desk.old }
{
    esr_core::refusals_are_of_their_steps();
    remove_once(alloc, desk, ticket, false, names)?;
    desk.end_delete(alloc, ticket)
}

/// Removes what a cleanup dooms, and takes it off the list; its ticket, which has settled, ends. Where the container fails in a
/// removal the ticket ends as failed.
fn clean_up<Q: Desk>(
    alloc: Global,
    desk: &mut Q,
    ticket: u64,
    names: &DoomedNames,
) -> Result<(), UnitRefusal>
    requires mine { HasTaken (Q.calls desk.old) ticket }
    requires over { IsSettledPlan (ticket_of Q.start (Q.seen desk.old) ticket) }
    requires mode { (ticket_of Q.start (Q.seen desk.old) ticket).clean ≡ true }
    requires names { Q.start.tells ≡ true → map name_of names.now ≡ dooms (formats_of Q.start) (ticket_of Q.start (Q.seen desk.old) ticket) }
    requires none { NoneRemoved Q.start (Q.seen desk.old) ticket }
    requires well { NoneFailed Q.start (Q.seen desk.old) ticket }
    requires put { HasPutLatest (world_of Q.start (Q.seen desk.old)) ticket }
    requires undropped { IsFresh Q.start (Q.seen desk.old) ticket DroppedStep }
    ensures ok { OnOk result (IsCleared true Q.start (Q.seen desk.old) (Q.seen desk.new) ticket) }
    ensures refused { IfErr result (IsCleanRefused
        (evidence Q.Stage.faults Q.Fetch.faults Q.Shard.faults Q.Target.faults Q.Shard.told Q.Target.told)
        Q.start (Q.seen desk.old) (Q.seen desk.new) ticket) }
    ensures grew { GrewBy Q.start ticket (Q.seen desk.old) (Q.seen desk.new) }
    ensures calls { Q.calls desk.new ≡ Q.calls desk.old }
{
    esr_core::refusals_are_of_their_steps();
    match remove_once(alloc, desk, ticket, true, names) {
        Ok(()) => end_cleanup(alloc, desk, ticket),
        Err(refusal) => {
            let trouble = Trouble::Step(refusal);
            Err(end_early(alloc, desk, Hand::Delete, ticket, ending_of(trouble)))
        }
    }
}

/// Takes the cleanup off the list, whose ticket ends. Where that record swap failed nobody knows whether the cleanup is still on
/// the list, and its ticket may be out.
fn end_cleanup<Q: Desk>(alloc: Global, desk: &mut Q, ticket: u64) -> Result<(), UnitRefusal>
    requires mine { HasTaken (Q.calls desk.old) ticket }
    requires may { CanEndCleanup Q.start (Q.seen desk.old) ticket }
    requires new { IsFresh Q.start (Q.seen desk.old) ticket DroppedStep }
    ensures ok { OnOk result (IsCleared true Q.start (Q.seen desk.old) (Q.seen desk.new) ticket) }
    ensures refused { IfErr result (IsCleanRefused
        (evidence Q.Stage.faults Q.Fetch.faults Q.Shard.faults Q.Target.faults Q.Shard.told Q.Target.told)
        Q.start (Q.seen desk.old) (Q.seen desk.new) ticket) }
    ensures grew { GrewBy Q.start ticket (Q.seen desk.old) (Q.seen desk.new) }
    ensures calls { Q.calls desk.new ≡ Q.calls desk.old }
{
    esr_core::refusals_are_of_their_steps();
    match desk.end_cleanup(alloc, ticket) {
        Ok(()) => Ok(()),
        Err(refusal) => Err(end_swap(alloc, desk, Hand::Delete, ticket, refusal)),
    }
}

/// Removes what is doomed, and ends the ticket, which has settled.
fn finish<Q: Desk>(
    alloc: Global,
    desk: &mut Q,
    ticket: u64,
    clean: bool,
    names: &DoomedNames,
) -> Result<(), UnitRefusal>
    requires mine { HasTaken (Q.calls desk.old) ticket }
    requires over { IsSettledPlan (ticket_of Q.start (Q.seen desk.old) ticket) }
    requires mode { (ticket_of Q.start (Q.seen desk.old) ticket).clean ≡ clean }
    requires names { Q.start.tells ≡ true → map name_of names.now ≡ dooms (formats_of Q.start) (ticket_of Q.start (Q.seen desk.old) ticket) }
    requires none { NoneRemoved Q.start (Q.seen desk.old) ticket }
    requires well { NoneFailed Q.start (Q.seen desk.old) ticket }
    requires put { clean ≡ true → HasPutLatest (world_of Q.start (Q.seen desk.old)) ticket }
    requires undropped { IsFresh Q.start (Q.seen desk.old) ticket DroppedStep }
    ensures ok { OnOk result (IsCleared clean Q.start (Q.seen desk.old) (Q.seen desk.new) ticket) }
    ensures refused { IfErr result (IsLateRefused clean
        (evidence Q.Stage.faults Q.Fetch.faults Q.Shard.faults Q.Target.faults Q.Shard.told Q.Target.told)
        Q.start (Q.seen desk.old) (Q.seen desk.new) ticket) }
    ensures grew { GrewBy Q.start ticket (Q.seen desk.old) (Q.seen desk.new) }
    ensures calls { Q.calls desk.new ≡ Q.calls desk.old }
{
    if clean {
        return clean_up(alloc, desk, ticket, names);
    }
    clear(alloc, desk, ticket, names)?;
    Ok(())
}

/// Settles on the root, removes what is doomed, and ends the ticket. Where the record swap of the settle failed nobody knows whether
/// the root is the safe one, and the ticket stays out.
pub fn settle<Q: Desk>(
    alloc: Global,
    desk: &mut Q,
    ticket: u64,
    clean: bool,
    root: &RootData,
    names: &DoomedNames,
) -> Result<(), UnitRefusal>
    requires mine { HasTaken (Q.calls desk.old) ticket }
    requires may { CanSettleDelete Q.start (ticket_of Q.start (Q.seen desk.old) ticket) (root_of root.now) }
    requires mode { (ticket_of Q.start (Q.seen desk.old) ticket).clean ≡ clean }
    requires names { Q.start.tells ≡ true → map name_of names.now ≡ dooms (formats_of Q.start) (ticket_of Q.start (Q.seen desk.old) ticket) }
    requires put { clean ≡ true → HasPutLatest (world_of Q.start (Q.seen desk.old)) ticket }
    requires tells { TellsAll Q.start (Q.seen desk.old) ticket }
    ensures ok { OnOk result (IsOver clean Q.start (Q.seen desk.old) (Q.seen desk.new) ticket) }
    ensures refused { IfErr result (IsHalted clean
        (evidence Q.Stage.faults Q.Fetch.faults Q.Shard.faults Q.Target.faults Q.Shard.told Q.Target.told)
        Q.start (Q.seen desk.old) (Q.seen desk.new) ticket) }
    ensures grew { GrewBy Q.start ticket (Q.seen desk.old) (Q.seen desk.new) }
    ensures calls { Q.calls desk.new ≡ Q.calls desk.old }
{
    esr_core::refusals_are_of_their_steps();
    match desk.settle_delete(alloc, ticket, root) {
        Ok(()) => finish(alloc, desk, ticket, clean, names),
        Err(refusal) => Err(end_swap(alloc, desk, Hand::Delete, ticket, refusal)),
    }
}
