//! The next term begins.
ghost use Rattle.std.specs.Prelude.{◌≡◌, ◌+◌, ◌-◌, ◌<◌, ◌≤◌, ◌^◌, IfOk, IfErr, OnOk};
ghost use Rattle.esr_model.specs.Values.{ReadsBack};
ghost use Rattle.esr_depot.specs.Image.{swap_known};
ghost use Rattle.esr_depot.specs.Look.{now};
ghost use Rattle.esr_depot.specs.Moments.{LeavesOnly};
ghost use Rattle.esr_formats.specs.Clusters.{cluster_of, cluster_kind};
ghost use Rattle.esr_opening.specs.Spent.{has_fault, Spends};
ghost use Rattle.esr_opening.specs.Terms.{is_delete, kept_ops, plan_of, AreFew, next_term, text_of, MayHave, NotBegun};

use crate::OpenRefusal;
use esr_depot::Depot;
use esr_formats::write_cluster;
use esr_progress::Progress;
use esr_record::{ClusterRecord, OpWork, RecordOp, RecordOps};
use esr_seq::TryClone;
use std::alloc::{AllocError, Global};

/// Whether the op is a delete.
fn is_delete(work: &OpWork) -> bool
    ensures { result ≡ is_delete work.now }
{
    match work {
        OpWork::Create { .. } => false,
        OpWork::Clone { .. } => false,
        OpWork::Delete { .. } => true,
        OpWork::Cleanup => false,
    }
}

/// The deletes among the ops, numbered from 1 on.
fn kept_ops(alloc: Global, ops: &RecordOps) -> Result<RecordOps, AllocError>
    ensures { IfOk result (λ kept. kept ≡ kept_ops 1 ops.now) }
{
    let mut kept = RecordOps::new(alloc);
    for op in ops.as_slice() {
        if is_delete(&op.work) {
            let work = op.work.try_clone(alloc)?;
            let number = kept.last() + 1;
            kept.push(RecordOp { op: number, work })?;
        }
    }
    Ok(kept)
}

/// The record of the next term: of the ops the deletes alone stay, numbered anew.
fn next_record(alloc: Global, cluster: &ClusterRecord) -> Result<ClusterRecord, AllocError>
    requires { cluster.now.term < 2 ^ 63 - 1 }
    ensures { IfOk result (λ next. next ≡ next_term cluster.now) }
{
    let mut next = ClusterRecord {
        ops: kept_ops(alloc, &cluster.ops)?,
        pending: cluster.pending,
        safe: cluster.safe,
        term: cluster.term,
    };
    // Refused at the last term alone.
    let _term = next.elect();
    Ok(next)
}

/// The record of the next term, and the list of the deletes that stay open.
pub(crate) fn next_of(
    alloc: Global,
    cluster: &ClusterRecord,
) -> Result<(ClusterRecord, Progress), AllocError>
    requires { cluster.now.term < 2 ^ 63 - 1 }
    ensures record { IfOk result (λ n. n.0 ≡ next_term cluster.now) }
    ensures list { IfOk result (λ n. n.1 ≡ plan_of cluster.now) }
    ensures few { OnOk result (AreFew cluster.now) }
{
    let next = next_record(alloc, cluster)?;
    let progress = Progress::reopened(alloc, &cluster.ops)?;
    Ok((next, progress))
}

/// Writes the record with which a term begins.
#[tactic(auto, using(crate::proofs::Looking::call_counts))]
pub(crate) fn begin_term<D: Depot>(
    alloc: Global,
    depot: &mut D,
    next: &ClusterRecord,
) -> Result<(), OpenRefusal<D::Fetch>>
    ensures reads { ReadsBack cluster_kind (cluster_of next.now) }
    ensures swapped { OnOk result (now (D.look depot.new) ≡ swap_known (now (D.look depot.old)) (text_of next.now)) }
    ensures bounded { OnOk result ((D.look depot.new).clock ≤ 2 ^ 64 - 1) }
    ensures left { LeavesOnly (D.look depot.old) (D.look depot.new) (MayHave (now (D.look depot.old)) (text_of next.now)) }
    ensures refused { IfErr result (λ e. NotBegun (D.look depot.old) (D.look depot.new) (D.faults depot.old) (D.faults depot.new) e) }
    ensures counted { D.faults depot.old ≤ D.faults depot.new }
    ensures spends { Spends (D.look depot.old).sure (D.look depot.new).sure 1 (has_fault result) }
    ensures calls { (D.look depot.new).clock ≤ (D.look depot.old).clock + 1 }
{
    let text = write_cluster(alloc, next)?;
    depot.swap_record(alloc, text.as_slice())?;
    Ok(())
}
