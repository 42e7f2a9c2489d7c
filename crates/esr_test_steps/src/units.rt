//! Units that are taken and worked by hand.
ghost use Rattle.std.specs.Prelude.{◌≡◌, ℕ, [], true, Some, IfOk, OnOk};
ghost use Rattle.esr_core.specs.Entry.{TakeStep};
ghost use Rattle.esr_desk.specs.Calls.{HasTaken};
ghost use Rattle.esr_desk.specs.Grew.{GrewBy};
ghost use Rattle.esr_desk.specs.Own.{made_of};
ghost use Rattle.esr_desk.specs.Outcome.{Stepped, take_reply};
ghost use Rattle.esr_desk.specs.Sources.{AreSources};
ghost use Rattle.esr_desk.specs.Taken.{Took};

use crate::errors::{Done, REFUSED, Trouble};
use esr_desk::{Desk, Unit, UnitRefusal};
use esr_ops::Work;
use esr_source::{NoGate, Sources};
use std::alloc::Global;

/// The greatest size of a part in bytes.
pub(crate) const PART_SIZE: u64 = 1 << 24;

/// A word for what a unit does.
fn word_of(work: &Work) -> &'static str {
    match work {
        Work::Shard { .. } => "shard",
        Work::CloneShard { .. } => "clone",
        Work::Finalize { .. } => "finalize",
        _ => "other",
    }
}

/// The next unit, which is to do what the word says.
pub(crate) fn take<Q: Desk>(alloc: Global, desk: &mut Q, word: &str) -> Result<Unit, Trouble>
    ensures took { IfOk result (λ u. Took Q.start (Q.seen desk.new) u) }
    ensures new { IfOk result (λ u. made_of Q.start (Q.seen desk.new) u.ready.ticket ≡ []) }
    ensures mine { IfOk result (λ u. HasTaken (Q.calls desk.new) u.ready.ticket) }
    ensures more { IfOk result (λ u. (ticket : ℕ) → HasTaken (Q.calls desk.old) ticket → HasTaken (Q.calls desk.new) ticket) }
    ensures gave { IfOk result (λ u. Stepped Q.start (Q.seen desk.old) (Q.seen desk.new) 0 TakeStep (take_reply (Some u))) }
{
    let Some(unit) = desk.take(alloc)? else {
        return Err(Trouble("a unit that is ready"));
    };
    if let Work::RestoreShard { .. } = &unit.ready.work {
        return Err(Trouble("a unit of no restore"));
    }
    if word_of(&unit.ready.work) != word {
        return Err(Trouble("a unit that does what the word says"));
    }
    Ok(unit)
}

/// Works a unit that was taken.
pub(crate) fn work_unit<Q: Desk<Shard = S::Shard>, S: Sources>(
    alloc: Global,
    desk: &mut Q,
    unit: &Unit,
    sources: &S,
) -> Done
    requires mine { HasTaken (Q.calls desk.old) unit.now.ready.ticket }
    requires fresh { Took Q.start (Q.seen desk.old) unit.now }
    requires new { made_of Q.start (Q.seen desk.old) unit.now.ready.ticket ≡ [] }
    requires sources { AreSources Q.start (S.told sources.now) }
    requires size { PART_SIZE ≡ Q.start.part_size }
    ensures grew { OnOk result (GrewBy Q.start unit.now.ready.ticket (Q.seen desk.old) (Q.seen desk.new)) }
    ensures calls { OnOk result (Q.calls desk.new ≡ Q.calls desk.old) }
{
    match &unit.ready.work {
        Work::Shard { .. } => {
            match esr_upload::run_unit(alloc, desk, unit, sources, &NoGate, PART_SIZE) {
                Ok(()) => Ok(()),
                Err(_) => Err(Trouble(REFUSED)),
            }
        }
        Work::CloneShard { .. } => match esr_clone::run_unit(alloc, desk, unit) {
            Ok(()) => Ok(()),
            Err(_) => Err(Trouble(REFUSED)),
        },
        Work::Finalize { .. } => match esr_finish::run_unit(alloc, desk, unit) {
            Ok(()) => Ok(()),
            Err(_) => Err(Trouble(REFUSED)),
        },
        Work::Drop => Err(Trouble("an op that has not failed")),
        _ => Err(Trouble("a unit of a snapshot or a clone")),
    }
}

/// Takes the next unit and works it.
pub(crate) fn work_next<Q: Desk<Shard = S::Shard>, S: Sources>(
    alloc: Global,
    desk: &mut Q,
    sources: &S,
    word: &str,
) -> Done
    requires sources { AreSources Q.start (S.told sources.now) }
    requires size { PART_SIZE ≡ Q.start.part_size }
{
    let unit = take(alloc, desk, word)?;
    work_unit(alloc, desk, &unit, sources)
}

/// Takes the next unit and works it. The ticket of a unit that was taken before stays as it is.
pub(crate) fn work_beside<Q: Desk<Shard = S::Shard>, S: Sources>(
    alloc: Global,
    desk: &mut Q,
    held: &Unit,
    sources: &S,
    word: &str,
) -> Done
    requires mine { HasTaken (Q.calls desk.old) held.now.ready.ticket }
    requires held { Took Q.start (Q.seen desk.old) held.now }
    requires new { made_of Q.start (Q.seen desk.old) held.now.ready.ticket ≡ [] }
    requires sources { AreSources Q.start (S.told sources.now) }
    requires size { PART_SIZE ≡ Q.start.part_size }
    requires alone { Q.start.alone ≡ true }
    ensures mine { OnOk result (HasTaken (Q.calls desk.new) held.now.ready.ticket) }
    ensures held { OnOk result (Took Q.start (Q.seen desk.new) held.now) }
    ensures new { OnOk result (made_of Q.start (Q.seen desk.new) held.now.ready.ticket ≡ []) }
{
    esr_quiet::other_tickets_stay();
    let unit = take(alloc, desk, word)?;
    if unit.ready.ticket == held.ready.ticket {
        return Err(Trouble("a ticket of its own"));
    }
    work_unit(alloc, desk, &unit, sources)
}

/// Begins the next term. The ticket of a unit that was taken before stays as it is.
pub(crate) fn elect_beside<Q: Desk>(alloc: Global, desk: &mut Q, held: &Unit) -> Done
    requires mine { HasTaken (Q.calls desk.old) held.now.ready.ticket }
    requires held { Took Q.start (Q.seen desk.old) held.now }
    requires new { made_of Q.start (Q.seen desk.old) held.now.ready.ticket ≡ [] }
    requires alone { Q.start.alone ≡ true }
    ensures mine { OnOk result (HasTaken (Q.calls desk.new) held.now.ready.ticket) }
    ensures held { OnOk result (Took Q.start (Q.seen desk.new) held.now) }
    ensures new { OnOk result (made_of Q.start (Q.seen desk.new) held.now.ready.ticket ≡ []) }
{
    esr_quiet::other_tickets_stay();
    desk.elect(alloc)?;
    Ok(())
}

/// Works a finalization whose term is over: its ticket ends, and its snapshot is still to be finalized.
pub(crate) fn end_late<Q: Desk>(alloc: Global, desk: &mut Q, unit: &Unit) -> Done
    requires mine { HasTaken (Q.calls desk.old) unit.now.ready.ticket }
    requires fresh { Took Q.start (Q.seen desk.old) unit.now }
    requires new { made_of Q.start (Q.seen desk.old) unit.now.ready.ticket ≡ [] }
{
    let Work::Finalize { .. } = &unit.ready.work else {
        return Err(Trouble("a unit that finalizes"));
    };
    match esr_finish::run_unit(alloc, desk, unit) {
        Ok(()) => Err(Trouble("a unit whose term is over")),
        Err(UnitRefusal::Failed(_)) => Err(Trouble("a unit that does not fail")),
        Err(UnitRefusal::Stale) => Ok(()),
        Err(UnitRefusal::Stopped(_)) => Err(Trouble(REFUSED)),
    }
}

/// Works a shard that fails, since its source does.
pub(crate) fn end_faulty<Q: Desk<Shard = S::Shard>, S: Sources>(
    alloc: Global,
    desk: &mut Q,
    unit: &Unit,
    sources: &S,
) -> Done
    requires mine { HasTaken (Q.calls desk.old) unit.now.ready.ticket }
    requires fresh { Took Q.start (Q.seen desk.old) unit.now }
    requires new { made_of Q.start (Q.seen desk.old) unit.now.ready.ticket ≡ [] }
    requires sources { AreSources Q.start (S.told sources.now) }
    requires size { PART_SIZE ≡ Q.start.part_size }
{
    let Work::Shard { .. } = &unit.ready.work else {
        return Err(Trouble("a unit of a snapshot's shard"));
    };
    match esr_upload::run_unit(alloc, desk, unit, sources, &NoGate, PART_SIZE) {
        Ok(_) => Err(Trouble("a unit that fails")),
        Err(UnitRefusal::Failed(_)) => Ok(()),
        Err(UnitRefusal::Stale) => Err(Trouble("a unit whose term is not over")),
        Err(UnitRefusal::Stopped(_)) => Err(Trouble(REFUSED)),
    }
}
