//! The steps that swap the cluster record.
ghost use Rattle.std.specs.Prelude.{◌≡◌, ◌⊎◌, ◌<◌, ◌++◌, ℕ, ℤ, map, Some, false, IfOk, IfErr, vec_len, vec_capacity};
ghost use Rattle.std.specs.Option.{unwrap_or, option_to_list};
ghost use Rattle.esr_model.specs.Values.{ReadsBack};
ghost use Rattle.esr_core.specs.World.{record_ops};
ghost use Rattle.esr_core.specs.Entry as entry;
ghost use Rattle.esr_depot.specs.Calls.{HasCause, Serves, Called, is_wanting, has_failed};
ghost use Rattle.esr_depot.specs.Changes.{Swapped, SwapMay};
ghost use Rattle.esr_record.specs.declared.steps.RecordRefusal.TheVariants as records;
ghost use Rattle.esr_formats.specs.Clusters.{count_of, cluster_of, cluster_kind, op_of};
ghost use Rattle.esr_desk.specs.Entries.{step_of, answer_of};
ghost use Rattle.esr_desk.specs.Refusals.{refusal_of};
ghost use Rattle.esr_desk.specs.declared.refusal.StepRefusal.TheVariants.{Memory, Refused};
ghost use Rattle.esr_desk.specs.declared.refusal.EntryRefusal.TheVariants.{DepotFault};
ghost use Rattle.esr_repo.specs.Next.{IsLive, GoesOn, Did};
ghost use Rattle.esr_repo.specs.May.{infos_after, MaySwap};

use crate::steps::renew;
use crate::{Repo, Told};
use esr_depot::{CallError, Depot};
use esr_desk::{Answer, Entry, EntryRefusal, Step, StepRefusal};
use esr_formats::write_cluster;
use esr_meta::SnapInfo;
use esr_names::Id;
use esr_progress::{Progress, SnapInfos};
use esr_record::{ClusterRecord, RecordRefusal};
use esr_root::RootData;
use std::alloc::{AllocError, Global};

/// What a repository keeps after a record swap: the new record, the safe root and the list of ops where they are new, and the
/// infos of the snapshots that are left, where some were taken away, or the info of the one that the new root lists besides,
/// where there is one.
#[derive(Drop)]
pub struct Renewed {
    pub cluster: ClusterRecord,
    pub root: Option<RootData>,
    pub left: Option<SnapInfos>,
    pub info: Option<SnapInfo>,
    pub progress: Option<Progress>,
    pub next: Id,
}

impl Renewed {
    /// Puts the new parts in place of the old ones.
    fn keep(
        self,
        cluster: &mut ClusterRecord,
        root: &mut RootData,
        infos: &mut Vec<SnapInfo>,
        progress: &mut Progress,
        next: &mut Id,
    )
        requires room { vec_len infos.old < vec_capacity infos.old }
        ensures cluster { cluster.new ≡ self.cluster }
        ensures root { root.new ≡ unwrap_or self.root root.old }
        ensures infos { infos.new.items ≡ infos_after self.left self.info infos.old.items }
        ensures progress { progress.new ≡ unwrap_or self.progress progress.old }
        ensures next { next.new ≡ self.next }
    {
        *cluster = self.cluster;
        renew(root, self.root);
        renew_infos(infos, self.left, self.info);
        renew(progress, self.progress);
        *next = self.next;
    }
}

/// What is kept with this record, into which the ops of the list go.
pub fn with_ops(
    alloc: Global,
    mut cluster: ClusterRecord,
    root: Option<RootData>,
    left: Option<SnapInfos>,
    info: Option<SnapInfo>,
    progress: Progress,
    next: Id,
) -> Result<Renewed, AllocError>
    ensures is { IfOk result (λ r. r ≡ record { cluster = r.cluster; root = root; left = left; info = info; progress = Some progress; next = next }) }
    ensures ledger { IfOk result (λ r. (cluster_of r.cluster).ledger ≡ (cluster_of cluster).ledger) }
    ensures ops { IfOk result (λ r. map op_of r.cluster.ops ≡ record_ops progress.ops progress.deletes) }
{
    cluster.ops = progress.record_ops(alloc)?;
    Ok(Renewed {
        cluster,
        root,
        left,
        info,
        progress: Some(progress),
        next,
    })
}

/// The refusal of a record, as an entry tells it.
pub fn entry_refusal(refusal: RecordRefusal) -> EntryRefusal
    ensures stale { (own now : ℕ) → refusal ≡ records.StaleTerm own now → refusal_of result ≡ entry.StaleTerm own now }
    ensures terms { (number : ℕ) → refusal ≡ records.TermsSpent number → refusal_of result ≡ entry.TermsSpent number }
    ensures spent { (number : ℤ) → refusal ≡ records.GenerationsSpent number → refusal_of result ≡ entry.GenerationsSpent (count_of number) }
{
    match refusal {
        RecordRefusal::StaleTerm { own, now } => EntryRefusal::StaleTerm { own, now },
        RecordRefusal::GenerationsSpent { number } => EntryRefusal::GenerationsSpent { number },
        RecordRefusal::TermsSpent { number } => EntryRefusal::TermsSpent { number },
    }
}

/// Appends an info where one is given.
fn push_info(infos: &mut Vec<SnapInfo>, info: Option<SnapInfo>)
    requires { vec_len infos.old < vec_capacity infos.old }
    ensures { infos.new.items ≡ infos.old.items ++ option_to_list info }
{
    if let Some(new) = info {
        infos.push_reserved(new);
    }
}

/// Keeps the infos that are left, where they are given, or one more where it is.
fn renew_infos(infos: &mut Vec<SnapInfo>, left: Option<SnapInfos>, info: Option<SnapInfo>)
    requires { vec_len infos.old < vec_capacity infos.old }
    ensures { infos.new.items ≡ infos_after left info infos.old.items }
{
    let Some(left) = left else {
        push_info(infos, info);
        return;
    };
    *infos = left.into_vec();
}

/// Makes room for one more entry and one more info, and puts the text of the record in place of the container's.
fn put_record<D: Depot>(
    depot: &mut D,
    history: &mut Vec<Entry>,
    infos: &mut Vec<SnapInfo>,
    alloc: Global,
    cluster: &ClusterRecord,
) -> Result<(), CallError>
    ensures call { Called (D.look depot.old) (D.look depot.new) (λ _. Swapped (cluster_kind.text (cluster_of cluster.now)))
        (SwapMay (cluster_kind.text (cluster_of cluster.now))) result }
    ensures cause { HasCause (D.faults depot.old) (D.faults depot.new) (has_failed result) }
    ensures sure { Serves (D.look depot.old).sure (D.look depot.new).sure (has_failed result) }
    ensures reads { ReadsBack cluster_kind (cluster_of cluster.now) }
    ensures entries { history.new.items ≡ history.old.items }
    ensures room { is_wanting result ≡ false → vec_len history.new < vec_capacity history.new }
    ensures infos { infos.new.items ≡ infos.old.items }
    ensures info_room { is_wanting result ≡ false → vec_len infos.new < vec_capacity infos.new }
{
    let text = write_cluster(alloc, cluster)?;
    if history.reserve(1).is_err() || infos.reserve(1).is_err() {
        return Err(CallError::Memory);
    }
    depot.swap_record(alloc, text.as_slice())
}

impl<D: Depot, K: Told> Repo<D, K> {
    /// A step that swaps the record. Where the container fails in the swap, every later step is refused, and the new record may
    /// stand nevertheless.
    pub fn swap(
        &mut self,
        alloc: Global,
        who: u64,
        step: Step,
        answer: Answer,
        renewed: Renewed,
    ) -> Result<(), StepRefusal>
        requires live { IsLive K.start self.old }
        requires goes { GoesOn K.start self.old who (step_of step) }
        requires may { MaySwap K.start self.old who (step_of step) (answer_of answer) renewed.cluster renewed.root renewed.left renewed.info renewed.progress renewed.next.number }
        ensures step { Did K.start self.old self.new who (step_of step) (λ _. answer_of answer) result }
        ensures why { IfErr result (λ e. (e ≡ Memory) ⊎ (e ≡ Refused DepotFault)) }
    {
        Self::laws();
        match put_record(
            &mut self.depot,
            &mut self.history,
            &mut self.infos,
            alloc,
            &renewed.cluster,
        ) {
            Ok(()) => {
                self.history.push_reserved(Entry { who, step, answer });
                renewed.keep(
                    &mut self.cluster,
                    &mut self.root,
                    &mut self.infos,
                    &mut self.progress,
                    &mut self.next,
                );
                Ok(())
            }
            Err(CallError::Memory) => {
                drop(step);
                drop(answer);
                drop(renewed);
                Err(StepRefusal::Memory)
            }
            Err(CallError::Failed) => {
                drop(answer);
                drop(renewed);
                let place = self.history.len() as u64;
                let refusal = EntryRefusal::DepotFault;
                let answer = Answer::Refused { refusal };
                self.history.push_reserved(Entry { who, step, answer });
                self.deposed = Some(place);
                Err(StepRefusal::Refused(refusal))
            }
        }
    }
}
