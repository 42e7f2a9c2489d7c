//! The unit of a clone's shard.
ghost use Rattle.std.specs.Prelude.{◌≡◌, ◌<◌, [], Some, option_map, IfErr, OnOk};
ghost use Rattle.esr_formats.specs.Ids.{number_of};
ghost use Rattle.esr_desk.specs.Evidence.{evidence};
ghost use Rattle.esr_desk.specs.Own.{made_of};
ghost use Rattle.esr_desk.specs.Calls.{HasTaken};
ghost use Rattle.esr_desk.specs.Start.{ticket_of};
ghost use Rattle.esr_desk.specs.Taken.{Took};
ghost use Rattle.esr_desk.specs.Grew.{GrewBy};
ghost use Rattle.esr_upload.specs.Refused.{HasDone, IsUnitRefused};
ghost use Rattle.esr_upload.specs.Trouble.{Shown};
ghost use Rattle.esr_upload.specs.Worked.{Went};
ghost use Rattle.esr_clone.specs.Copied.{IsOfClone, IsCopy};

use crate::copy::{Job, copy};
use crate::snap::fetch_snap;
use esr_desk::{Desk, Hand, Unit, UnitRefusal};
use esr_names::{Id, ShardId};
use esr_ops::Work;
use esr_unit::{Trouble, ending_of, give_up};
use esr_upload::base_of;
use std::alloc::Global;

/// What the unit does until its ticket ends as done, or a trouble: it reads what the source has of the shard, and its base,
/// draws one id, and writes the same files under its own uuid and the next index.
fn work<Q: Desk>(
    alloc: Global,
    desk: &mut Q,
    ticket: u64,
    at: ShardId,
    uuid: Id,
    source: Id,
    base: Option<Id>,
) -> Result<(), Trouble<Q::Stage, Q::Fetch>>
    requires mine { HasTaken (Q.calls desk.old) ticket }
    requires unit { IsCopy at.index.number at.number uuid.number source.number (option_map number_of base) (ticket_of Q.start (Q.seen desk.old) ticket) }
    requires few { at.number < 1024 }
    requires new { made_of Q.start (Q.seen desk.old) ticket ≡ [] }
    ensures ok { OnOk result (HasDone Q.start (Q.seen desk.old) (Q.seen desk.new) ticket) }
    ensures trouble { IfErr result (Shown (evidence Q.Stage.faults Q.Fetch.faults Q.Shard.faults Q.Target.faults Q.Shard.told Q.Target.told) 0 (Some []) Q.start (Q.seen desk.new) ticket) }
    ensures went { IfErr result (λ e. Went Q.start (Q.seen desk.old) (Q.seen desk.new) ticket) }
    ensures grew { GrewBy Q.start ticket (Q.seen desk.old) (Q.seen desk.new) }
    ensures calls { Q.calls desk.new ≡ Q.calls desk.old }
{
    esr_core::refusals_are_of_their_steps();
    let snap = fetch_snap(alloc, desk, ticket, at, source)?;
    let index = base_of(alloc, desk, ticket, at, uuid, base)?;
    let first = desk.draw(alloc, ticket, 1)?;
    let job = Job { ticket, at, uuid };
    copy(alloc, desk, job, &index, snap, first)?;
    Ok(())
}

/// Lists the files that the source has of the unit's shard for the clone: reads them, and the base, writes the snapshot of the
/// shard under the clone's uuid and the next index of the base, and ends the ticket. No file is read or stored. Where an object
/// failed, one of the two is absent or doesn't read, the base has the clone already, a name is taken, no id is left or a delete aborted the
/// op, the ticket ends as failed, and the object is handed over.
pub fn run_unit<Q: Desk>(alloc: Global, desk: &mut Q, unit: &Unit) -> Result<(), UnitRefusal>
    requires mine { HasTaken (Q.calls desk.old) unit.now.ready.ticket }
    requires fresh { Took Q.start (Q.seen desk.old) unit.now }
    requires new { made_of Q.start (Q.seen desk.old) unit.now.ready.ticket ≡ [] }
    requires work { IsOfClone unit.now.ready.work }
    ensures ok { OnOk result (HasDone Q.start (Q.seen desk.old) (Q.seen desk.new) unit.now.ready.ticket) }
    ensures refused { IfErr result (IsUnitRefused (evidence Q.Stage.faults Q.Fetch.faults Q.Shard.faults Q.Target.faults Q.Shard.told Q.Target.told)
        (Some []) Q.start (Q.seen desk.old) (Q.seen desk.new) unit.now.ready.ticket) }
    ensures grew { GrewBy Q.start unit.now.ready.ticket (Q.seen desk.old) (Q.seen desk.new) }
    ensures calls { Q.calls desk.new ≡ Q.calls desk.old }
{
    let ticket = unit.ready.ticket;
    let base = unit.ready.copy.base;
    let Work::CloneShard {
        source,
        uuid,
        shard: at,
        ..
    } = &unit.ready.work
    else {
        unreachable!();
    };
    match work(alloc, desk, ticket, *at, *uuid, *source, base) {
        Ok(()) => Ok(()),
        Err(trouble) => Err(give_up(alloc, desk, Hand::Unit, ticket, ending_of(trouble))),
    }
}
