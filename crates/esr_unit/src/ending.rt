//! How a trouble ends a unit.
ghost use Rattle.std.specs.Prelude.{◌≡◌};
ghost use Rattle.esr_unit.specs.Ending.{ending_by};

use crate::trouble::Trouble;
use esr_desk::{By, EntryRefusal, FailedObject, StepRefusal, Why};

/// How a unit ends before its time. `S` is the type of stages, `F` that of fetches, `H` that of shards, `T` that of targets.
#[derive(Drop)]
pub enum Ending<S, F, H, T> {
    /// It has failed, as `by` shows.
    Failed { why: Why, by: By<S, F, H, T> },
    /// Its own object of the outside failed.
    Own,
    /// Its term is over.
    Stale,
    /// A step was refused so, for which it stops with its ticket out.
    Stopped(StepRefusal),
}

/// How a trouble ends a unit. A step in which the container failed, whose name was taken, whose op was aborted, or for which no
/// id or no generation was left fails it; any other refusal stops it. An object that failed is handed over.
pub fn ending_of<S: Drop, F: Drop, H: Drop, T: Drop>(trouble: Trouble<S, F>) -> Ending<S, F, H, T>
    ensures { result ≡ ending_by trouble }
{
    let (why, by) = match trouble {
        Trouble::Step(StepRefusal::Refused(EntryRefusal::DepotFault)) => (Why::Depot, By::Entry),
        Trouble::Step(StepRefusal::Refused(EntryRefusal::NameTaken { name })) => {
            (Why::NameTaken { name }, By::Entry)
        }
        Trouble::Step(StepRefusal::Refused(EntryRefusal::Aborted { by })) => {
            (Why::Aborted { by }, By::Entry)
        }
        Trouble::Step(StepRefusal::Refused(EntryRefusal::IdsSpent { next })) => {
            (Why::IdsSpent { next }, By::Entry)
        }
        Trouble::Step(StepRefusal::Refused(EntryRefusal::GenerationsSpent { number })) => {
            (Why::GenerationsSpent { number }, By::Entry)
        }
        Trouble::Step(StepRefusal::Refused(EntryRefusal::StaleTerm { own: _, now: _ })) => {
            return Ending::Stale;
        }
        Trouble::Step(refusal) => return Ending::Stopped(refusal),
        Trouble::Stage { stage } => {
            let object = FailedObject::Stage { stage };
            (Why::Depot, By::Object { object })
        }
        Trouble::Fetch { fetch } => {
            let object = FailedObject::Fetch { fetch };
            (Why::Depot, By::Object { object })
        }
        Trouble::Own => return Ending::Own,
        Trouble::Found { why } => (why, By::Nothing),
    };
    Ending::Failed { why, by }
}
