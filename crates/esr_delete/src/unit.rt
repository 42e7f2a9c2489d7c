//! The unit of a delete or cleanup.
ghost use Rattle.std.specs.Prelude.{◌≡◌, [], true, map, IfErr, IfOk, OnOk};
ghost use Rattle.esr_core.specs.Allowed.{HasPutLatest};
ghost use Rattle.esr_core.specs.Pruning.{dooms};
ghost use Rattle.esr_formats.specs.Clusters.{count_of};
ghost use Rattle.esr_formats.specs.Ids.{number_of};
ghost use Rattle.esr_formats.specs.Names.{name_of};
ghost use Rattle.esr_formats.specs.Roots.{root_of};
ghost use Rattle.esr_desk.specs.Own.{made_of};
ghost use Rattle.esr_desk.specs.Calls.{HasTaken};
ghost use Rattle.esr_desk.specs.Start.{formats_of, ticket_of, world_of};
ghost use Rattle.esr_desk.specs.Told.{TellsAll};
ghost use Rattle.esr_desk.specs.Taken.{Took};
ghost use Rattle.esr_desk.specs.Grew.{GrewBy};
ghost use Rattle.esr_desk.specs.declared.hand.Hand.TheVariants.{Delete};
ghost use Rattle.esr_desk.specs.Evidence.{evidence};
ghost use Rattle.esr_unit.specs.Shown.{Shown};
ghost use Rattle.esr_desk.specs.Delete.Conditions.{CanSettleDelete};
ghost use Rattle.esr_delete.specs.Work.{IsPruning};
ghost use Rattle.esr_delete.specs.Gathered.{IsUnplanned};
ghost use Rattle.esr_delete.specs.Ticket.{HasWritten, Deleted};
ghost use Rattle.esr_delete.specs.Went.{Went};
ghost use Rattle.esr_delete.specs.Refused.{IsUnitRefused};

use crate::doom::{Written, write_cleanup, write_delete};
use crate::gather::gather;
use crate::indices::write_indices;
use crate::plan::plan;
use crate::settle::settle;
use esr_desk::{Desk, Hand, Unit, UnitRefusal};
use esr_finish::end_early;
use esr_names::Ids;
use esr_ops::{Copied, Work};
use esr_seq::Seq;
use esr_unit::{Trouble, ending_of};
use std::alloc::Global;

/// Does all that goes before the settle.
fn prepare<Q: Desk>(
    alloc: Global,
    desk: &mut Q,
    ticket: u64,
    clean: bool,
    uuids: &Ids,
    copy: &Copied,
) -> Result<Written, Trouble<Q::Stage, Q::Fetch>>
    requires mine { HasTaken (Q.calls desk.old) ticket }
    requires may { IsUnplanned (ticket_of Q.start (Q.seen desk.old) ticket) clean (root_of copy.now.root) (map number_of uuids.now) }
    requires unread { (ticket_of Q.start (Q.seen desk.old) ticket).read ≡ [] }
    requires safe { (ticket_of Q.start (Q.seen desk.old) ticket).safe ≡ count_of copy.now.safe }
    requires new { made_of Q.start (Q.seen desk.old) ticket ≡ [] }
    ensures ok { IfOk result (λ w. HasWritten Q.start (ticket_of Q.start (Q.seen desk.old) ticket) (ticket_of Q.start (Q.seen desk.new) ticket)) }
    ensures settles { IfOk result (λ w. CanSettleDelete Q.start (ticket_of Q.start (Q.seen desk.new) ticket) (root_of w.root)) }
    ensures names { IfOk result (λ w. Q.start.tells ≡ true → map name_of w.names ≡ dooms (formats_of Q.start) (ticket_of Q.start (Q.seen desk.new) ticket)) }
    ensures put { IfOk result (λ w. clean ≡ true → HasPutLatest (world_of Q.start (Q.seen desk.new)) ticket) }
    ensures tells { IfOk result (λ w. TellsAll Q.start (Q.seen desk.new) ticket) }
    ensures trouble { IfErr result (Shown Delete (evidence Q.Stage.faults Q.Fetch.faults Q.Shard.faults Q.Target.faults Q.Shard.told Q.Target.told) ⊥ Q.start (Q.seen desk.new) ticket) }
    ensures went { Went Q.start (Q.seen desk.old) (Q.seen desk.new) ticket }
    ensures calls { Q.calls desk.new ≡ Q.calls desk.old }
{
    esr_core::refusals_are_of_their_steps();
    let held = gather(alloc, desk, ticket, clean, &copy.root, uuids)?;
    let draft = plan(alloc, desk, ticket, clean, &copy.root, uuids, &held)?;
    write_indices(alloc, desk, ticket, &held, &draft)?;
    if clean {
        write_cleanup(alloc, desk, ticket, held, draft)
    } else {
        write_delete(alloc, desk, ticket, uuids, copy, &held, draft)
    }
}

/// Runs the unit in its mode: `uuids` are those that a delete names.
fn run<Q: Desk>(
    alloc: Global,
    desk: &mut Q,
    ticket: u64,
    clean: bool,
    uuids: &Ids,
    copy: &Copied,
) -> Result<(), UnitRefusal>
    requires mine { HasTaken (Q.calls desk.old) ticket }
    requires may { IsUnplanned (ticket_of Q.start (Q.seen desk.old) ticket) clean (root_of copy.now.root) (map number_of uuids.now) }
    requires unread { (ticket_of Q.start (Q.seen desk.old) ticket).read ≡ [] }
    requires safe { (ticket_of Q.start (Q.seen desk.old) ticket).safe ≡ count_of copy.now.safe }
    requires new { made_of Q.start (Q.seen desk.old) ticket ≡ [] }
    ensures ok { OnOk result (Deleted Q.start (Q.seen desk.old) (Q.seen desk.new) ticket) }
    ensures refused { IfErr result (λ e. IsUnitRefused
        (evidence Q.Stage.faults Q.Fetch.faults Q.Shard.faults Q.Target.faults Q.Shard.told Q.Target.told)
        Q.start (Q.seen desk.old) (Q.seen desk.new) ticket e) }
    ensures grew { GrewBy Q.start ticket (Q.seen desk.old) (Q.seen desk.new) }
    ensures calls { Q.calls desk.new ≡ Q.calls desk.old }
{
    match prepare(alloc, desk, ticket, clean, uuids, copy) {
        Ok(written) => settle(alloc, desk, ticket, clean, &written.root, &written.names),
        Err(trouble) => Err(end_early(alloc, desk, Hand::Delete, ticket, ending_of(trouble))),
    }
}

/// Reads the indices of the shards that may lose a snapshot of the unit, plans, writes the new indices and the root, settles on
/// it, removes what nothing reaches any more, and ends the ticket. A cleanup reads the index of each shard, and lists the container
/// before it writes the root. Where the container fails before the settle, an index is absent or doesn't read, a name is taken or
/// numbers are spent, the ticket ends as failed, and so does that of a cleanup where the container fails in a step on
/// `index.latest` or in a removal; where its term is over, it ends as stale.
pub fn run_unit<Q: Desk>(alloc: Global, desk: &mut Q, unit: &Unit) -> Result<(), UnitRefusal>
    requires mine { HasTaken (Q.calls desk.old) unit.now.ready.ticket }
    requires fresh { Took Q.start (Q.seen desk.old) unit.now }
    requires new { made_of Q.start (Q.seen desk.old) unit.now.ready.ticket ≡ [] }
    requires work { IsPruning unit.now.ready.work }
    ensures ok { OnOk result (Deleted Q.start (Q.seen desk.old) (Q.seen desk.new) unit.now.ready.ticket) }
    ensures refused { IfErr result (λ e. IsUnitRefused
        (evidence Q.Stage.faults Q.Fetch.faults Q.Shard.faults Q.Target.faults Q.Shard.told Q.Target.told)
        Q.start (Q.seen desk.old) (Q.seen desk.new) unit.now.ready.ticket e) }
    ensures grew { GrewBy Q.start unit.now.ready.ticket (Q.seen desk.old) (Q.seen desk.new) }
    ensures calls { Q.calls desk.new ≡ Q.calls desk.old }
{
    let ticket = unit.ready.ticket;
    match &unit.ready.work {
        Work::Delete { uuids } => run(alloc, desk, ticket, false, uuids, &unit.ready.copy),
        Work::Cleanup => {
            let none = Seq::new(alloc);
            run(alloc, desk, ticket, true, &none, &unit.ready.copy)
        }
        _ => unreachable!(),
    }
}
