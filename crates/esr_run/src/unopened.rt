//! Runs that end without a step.
ghost use Rattle.std.specs.Prelude.{◌≡◌, []};
ghost use Rattle.esr_run.specs.Causes.{IsTold, end_of_refusal};
ghost use Rattle.esr_run.specs.Faults.{fetch_of};
ghost use Rattle.esr_run.specs.Stops.{end_of};

use crate::stop::Stop;
use crate::verdict::stopped;
use crate::whole::Done;
use esr_depot::Depot;
use esr_desk::History;
use esr_opening::OpenRefusal;
use esr_targets::TargetList;
use std::alloc::Global;

/// Why a run ends whose container wasn't opened, and the fetch whose reading failed.
pub(crate) fn stop_of<F: Drop>(refusal: OpenRefusal<F>) -> (Stop, Option<F>)
    ensures stop { end_of result.0 ≡ end_of_refusal refusal }
    ensures fetch { result.1 ≡ fetch_of refusal }
{
    match refusal {
        OpenRefusal::Memory => (Stop::Memory, None),
        OpenRefusal::DepotFault { fetch } => (Stop::OpenFault, fetch),
        OpenRefusal::Damaged { name, why: _ } => (Stop::Damaged { name }, None),
        OpenRefusal::TermsSpent { term: _ } => (Stop::NoTerm, None),
    }
}

/// A run without a step.
pub(crate) fn ended_at<D: Depot, T: Drop>(alloc: Global, depot: D, stop: &Stop) -> Done<D, T>
    ensures depot { result.depot ≡ depot }
    ensures history { result.history ≡ [] }
    ensures targets { result.targets ≡ [] }
    ensures told { IsTold result.verdict.status result.verdict.text (end_of stop.now) }
{
    Done {
        verdict: stopped(alloc, stop),
        depot,
        targets: TargetList::new(alloc),
        history: History::new(alloc),
    }
}
