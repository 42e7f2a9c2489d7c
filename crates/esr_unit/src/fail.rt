//! The end of a unit that could not do its work.
ghost use Rattle.std.specs.Prelude.{◌≡◌};
ghost use Rattle.esr_desk.specs.Calls.{IsMine};
ghost use Rattle.esr_desk.specs.Evidence.{evidence};
ghost use Rattle.esr_desk.specs.Grew.{GrewBy};
ghost use Rattle.esr_unit.specs.Fetch.{LeavesCalls};
ghost use Rattle.esr_unit.specs.declared.ending.Ending.TheVariants.{Stale};
ghost use Rattle.esr_unit.specs.Shown.{EndingShown, MayEnd};
ghost use Rattle.esr_unit.specs.Fail.{GivenUp, IsReported};

use crate::ending::Ending;
use esr_desk::{Desk, Failure, Hand, UnitRefusal, Who};
use esr_source::{Shard, Target};
use std::alloc::Global;

/// Ends a unit so: tells that it failed. Where it was stopped its ticket stays out. An object of its own that failed is to be made
/// a cause before, and a unit whose term is over is to be finished.
pub fn give_up<Q: Desk>(
    alloc: Global,
    desk: &mut Q,
    hand: Hand,
    who: u64,
    ending: Ending<Q::Stage, Q::Fetch, Q::Shard, Q::Target>,
) -> UnitRefusal
    requires mine { IsMine hand (Q.calls desk.old) who }
    requires may { MayEnd hand Q.start (Q.seen desk.old) who ending }
    requires shown { EndingShown hand
        (evidence Q.Stage.faults Q.Fetch.faults Q.Shard.faults Q.Target.faults Q.Shard.told Q.Target.told)
        ⊥ Q.start (Q.seen desk.old) who ending }
    requires present { ending ≡ Stale → ⊥ }
    ensures end { GivenUp hand
        (evidence Q.Stage.faults Q.Fetch.faults Q.Shard.faults Q.Target.faults Q.Shard.told Q.Target.told)
        Q.start (Q.seen desk.old) (Q.seen desk.new) who ending result }
    ensures report { IsReported hand Q.start (Q.seen desk.old) (Q.seen desk.new) who ending result }
    ensures grew { GrewBy Q.start who (Q.seen desk.old) (Q.seen desk.new) }
    ensures calls { IsMine hand (Q.calls desk.new) who }
    ensures others { LeavesCalls hand (Q.calls desk.old) (Q.calls desk.new) }
{
    esr_core::refusals_are_of_their_steps();
    match ending {
        Ending::Failed { why, by } => {
            let who = Who { hand, number: who };
            match desk.fail(alloc, Failure { who, why, by }) {
                Ok(()) => UnitRefusal::Failed(why),
                Err(refusal) => UnitRefusal::Stopped(refusal),
            }
        }
        Ending::Own => unreachable!(),
        Ending::Stale => unreachable!(),
        Ending::Stopped(refusal) => UnitRefusal::Stopped(refusal),
    }
}
