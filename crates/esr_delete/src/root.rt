//! The new root, and `index.latest`.
ghost use Rattle.std.specs.Prelude.{◌≡◌, ◌||◌, not, true, false, IfErr, IfOk};
ghost use Rattle.esr_core.specs.Allowed.{HasPutLatest};
ghost use Rattle.esr_formats.specs.Roots.{root_of};
ghost use Rattle.esr_desk.specs.Calls.{HasTaken};
ghost use Rattle.esr_desk.specs.Start.{formats_of, ticket_of, world_of};
ghost use Rattle.esr_desk.specs.Told.{TellsAll};
ghost use Rattle.esr_desk.specs.declared.hand.Hand.TheVariants.{Delete};
ghost use Rattle.esr_desk.specs.Evidence.{evidence};
ghost use Rattle.esr_unit.specs.Shown.{Shown};
ghost use Rattle.esr_finish.specs.Ticket.{MayPutRoot};
ghost use Rattle.esr_finish.specs.Went.{Went};
ghost use Rattle.esr_delete.specs.Planned.{IsPruner};
ghost use Rattle.esr_delete.specs.Ticket.{IsRooted};

use esr_desk::{Desk, EntryRefusal, StepRefusal};
use esr_finish::{put_root, try_latest};
use esr_root::RootData;
use esr_unit::Trouble;
use std::alloc::Global;

/// A cleanup goes on where `index.latest` was put, a delete also where the container failed in that.
fn goes_on(clean: bool, put: bool) -> bool
    ensures { result ≡ (put || not clean) }
{
    put || !clean
}

/// Begins a generation, writes its root, and puts `index.latest`; answers the generation.
pub fn write_root<Q: Desk>(
    alloc: Global,
    desk: &mut Q,
    ticket: u64,
    clean: bool,
    root: &RootData,
) -> Result<u64, Trouble<Q::Stage, Q::Fetch>>
    requires mine { HasTaken (Q.calls desk.old) ticket }
    requires pruner { IsPruner (ticket_of Q.start (Q.seen desk.old) ticket) clean }
    requires may { MayPutRoot Q.start (ticket_of Q.start (Q.seen desk.old) ticket) (root_of root.now) }
    requires untried { (ticket_of Q.start (Q.seen desk.old) ticket).tried_latest ≡ false }
    requires tells { TellsAll Q.start (Q.seen desk.old) ticket }
    ensures ok { IfOk result (λ n. IsRooted (formats_of Q.start) (ticket_of Q.start (Q.seen desk.old) ticket) (ticket_of Q.start (Q.seen desk.new) ticket) (root_of root.now) n) }
    ensures put { IfOk result (λ n. clean ≡ true → HasPutLatest (world_of Q.start (Q.seen desk.new)) ticket) }
    ensures tells { IfOk result (λ n. TellsAll Q.start (Q.seen desk.new) ticket) }
    ensures trouble { IfErr result (Shown Delete (evidence Q.Stage.faults Q.Fetch.faults Q.Shard.faults Q.Target.faults Q.Shard.told Q.Target.told) ⊥ Q.start (Q.seen desk.new) ticket) }
    ensures went { Went Q.start (Q.seen desk.old) (Q.seen desk.new) ticket }
    ensures calls { Q.calls desk.new ≡ Q.calls desk.old }
{
    esr_core::refusals_are_of_their_steps();
    let generation = put_root(alloc, desk, ticket, root)?;
    let put = try_latest(alloc, desk, ticket, generation)?;
    if goes_on(clean, put) {
        Ok(generation)
    } else {
        Err(Trouble::Step(StepRefusal::Refused(EntryRefusal::DepotFault)))
    }
}
