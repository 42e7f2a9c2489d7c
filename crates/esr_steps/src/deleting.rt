//! The steps of the ticket of a delete or cleanup, its writing and listing aside.
ghost use Rattle.std.specs.Prelude.{◌≡◌, ◌+◌, ◌<◌, ◌^◌, List, ℕ, length, map, filter, count_by, true, false, IfOk, OnOk, OnErr};
ghost use Rattle.esr_model.specs.Values.{Has, IsOneEach, ReadsBack};
ghost use Rattle.esr_model.specs.Delete.{kept_count, deleted_root};
ghost use Rattle.esr_core.specs.Pruning.{AreOfRoot, planned};
ghost use Rattle.esr_core.specs.Entry.{PruneStep, PlanShards, SettlePruned, RemoveDoomed, EndDelete, DrawnFrom, WasSettled, WasRemoved, HasEnded};
ghost use Rattle.esr_names.specs.Layout.{IsName};
ghost use Rattle.esr_root.specs.Indices.{AreIndices};
ghost use Rattle.esr_root.specs.Snaps.{lists};
ghost use Rattle.esr_formats.specs.Ids.{number_of};
ghost use Rattle.esr_formats.specs.Names.{name_of};
ghost use Rattle.esr_formats.specs.Roots.{root_of, root_kind};
ghost use Rattle.esr_results.specs.Pruned.{pruned_of};
ghost use Rattle.esr_desk.specs.Entries.{step_of};
ghost use Rattle.esr_desk.specs.Start.{formats_of, ticket_of, world_of};
ghost use Rattle.esr_desk.specs.Once.{IsFresh};
ghost use Rattle.esr_desk.specs.Taken.{LeftBy, IsSettled};
ghost use Rattle.esr_desk.specs.Delete.Conditions.{CanPlan, CanSettleDelete, CanRemove, CanEndDelete};
ghost use Rattle.esr_repo.specs.Next.{IsLive, GoesOn, Did};
ghost use Rattle.esr_repo.specs.May.{MaySwap};

use crate::renewing::settled_record;
use esr_depot::Depot;
use esr_desk::{Answer, BlobNames, EntryRefusal, Planned, Prune, Step, StepRefusal};
use esr_formats::write_root;
use esr_meta::SnapInfo;
use esr_names::{BlobName, Id, Ids};
use esr_newroot::deleted;
use esr_progress::SnapInfos;
use esr_repo::{Renewed, Repo, Told, with_ops};
use esr_results::{PrunedShard, PrunedShards};
use esr_root::{RootData, RootSnap};
use esr_seq::{Seq, TryClone};
use std::alloc::{AllocError, Global};

/// The step that plans.
fn plans(alloc: Global, shards: &PrunedShards) -> Result<Step, AllocError>
    ensures { IfOk result (λ step. step_of step ≡ PruneStep (PlanShards (map pruned_of shards.now))) }
{
    let shards = PrunedShards::from_slice(alloc, shards.as_slice())?;
    let prune = Prune::Plan { shards };
    Ok(Step::Prune { prune })
}

/// The step that takes doomed blobs away.
fn removes(alloc: Global, names: &Seq<BlobName>) -> Result<Step, AllocError>
    ensures { IfOk result (λ step. step_of step ≡ PruneStep (RemoveDoomed (map name_of names.now))) }
{
    let names = BlobNames::from_slice(alloc, names.as_slice())?;
    let prune = Prune::Remove { names };
    Ok(Step::Prune { prune })
}

/// Of how many of these shards something is left.
fn count_left(shards: &[PrunedShard]) -> usize
    ensures { result ≡ count_by (λ shard. shard.kept) shards.now }
{
    shards.iter().filter(|shard| shard.kept).count()
}

/// How many ids a plan of these shards draws.
fn kept_count(shards: &PrunedShards) -> u64
    ensures { result ≡ kept_count (map pruned_of shards.now) }
{
    count_left(shards.as_slice()) as u64
}

/// Whether a snapshot is listed.
fn lists(listing: &[RootSnap], uuid: Id) -> bool
    ensures { result ≡ lists listing.now uuid }
{
    listing.iter().any(|snap| snap.uuid == uuid)
}

/// Copies of the infos of listed snapshots.
fn left_infos(
    alloc: Global,
    infos: &[SnapInfo],
    listing: &[RootSnap],
) -> Result<SnapInfos, AllocError>
    ensures { IfOk result (λ left. left ≡ filter (λ info. lists listing.now info.uuid) infos.now) }
{
    let mut left = SnapInfos::new(alloc);
    for info in infos {
        if lists(listing, info.uuid) {
            left.push(info.try_clone(alloc)?)?;
        }
    }
    Ok(left)
}

/// The indices of a root keep their rule.
fn indices_rule(root: &RootData)
    ensures { AreIndices root.now.indices }
{
    let _indices = root.indices.as_slice();
}

/// The next id, and the root that a plan of these shards writes from it on. It can be written.
fn planned<D: Depot, K: Told>(
    repo: &Repo<D, K>,
    alloc: Global,
    root: &RootData,
    uuids: &Ids,
    shards: &PrunedShards,
) -> Result<Planned, AllocError>
    requires live { IsLive K.start repo.now }
    requires one_each { IsOneEach (root_of root.now).indices }
    requires of_root { AreOfRoot (root_of root.now) (map pruned_of shards.now) }
    ensures first { IfOk result (λ p. p.first.number ≡ (world_of K.start repo.now).next_id) }
    ensures root { IfOk result (λ p. root_of p.root ≡ deleted_root (root_of root.now) (map number_of uuids.now) (map pruned_of shards.now) p.first.number) }
    ensures back { IfOk result (λ p. ReadsBack root_kind (root_of p.root)) }
    ensures range { IfOk result (λ p. p.first.number + length shards.now < 2 ^ 128) }
{
    indices_rule(root);
    let _count = shards.len();
    let _term = repo.term();
    let first = repo.next_id();
    let root = deleted(alloc, root, uuids, shards, first)?;
    write_root(alloc, &root)?;
    Ok(Planned { first, root })
}

/// Draws the ids of a plan.
fn draw_planned<D: Depot, K: Told>(
    repo: &mut Repo<D, K>,
    ticket: u64,
    step: Step,
    shards: &PrunedShards,
    plan: Planned,
) -> Result<Planned, StepRefusal>
    requires live { IsLive K.start repo.old }
    requires is { step_of step ≡ PruneStep (PlanShards (map pruned_of shards.now)) }
    requires may { (uuids : List ℕ) × CanPlan K.start (ticket_of K.start repo.old ticket) uuids (map pruned_of shards.now)
        × ReadsBack root_kind (deleted_root (ticket_of K.start repo.old ticket).root uuids (map pruned_of shards.now) plan.first.number) }
    requires first { plan.first.number ≡ (world_of K.start repo.old).next_id }
    requires goes { GoesOn K.start repo.old ticket (step_of step) }
    ensures step { Did K.start repo.old repo.new ticket (step_of step) (λ p. DrawnFrom p.first.number) result }
    ensures own { IfOk result (λ p. ticket_of K.start repo.new ticket
        ≡ planned (formats_of K.start) (map pruned_of shards.now) p.first.number (ticket_of K.start repo.old ticket)) }
    ensures same { IfOk result (λ p. p ≡ plan) }
    ensures kept { OnErr result (ticket_of K.start repo.new ticket ≡ ticket_of K.start repo.old ticket) }
{
    repo.rules();
    let first = plan.first;
    let Some(next) = repo.id_after(kept_count(shards)) else {
        let refusal = EntryRefusal::IdsSpent { next: first };
        return Err(repo.refuse(ticket, step, refusal));
    };
    repo.note(ticket, step, Answer::Drawn { first }, None, next)?;
    Ok(plan)
}

/// Plans: draws an id for each of these shards of which something is left, and answers the first one and the root without the
/// named snapshots. `root` and `uuids` are those of the ticket.
pub fn plan_delete<D: Depot, K: Told>(
    repo: &mut Repo<D, K>,
    alloc: Global,
    ticket: u64,
    root: &RootData,
    uuids: &Ids,
    shards: &PrunedShards,
) -> Result<Planned, StepRefusal>
    requires copied { root_of root.now ≡ (ticket_of K.start repo.old ticket).root }
    requires may { CanPlan K.start (ticket_of K.start repo.old ticket) (map number_of uuids.now) (map pruned_of shards.now) }
    requires new { IsFresh K.start repo.old ticket (PruneStep (PlanShards (map pruned_of shards.now))) }
    ensures step { Did K.start repo.old repo.new ticket (PruneStep (PlanShards (map pruned_of shards.now))) (λ p. DrawnFrom p.first.number) result }
    ensures own { IfOk result (λ p. ticket_of K.start repo.new ticket
        ≡ planned (formats_of K.start) (map pruned_of shards.now) p.first.number (ticket_of K.start repo.old ticket)) }
    ensures root { IfOk result (λ p. root_of p.root ≡ deleted_root (root_of root.now) (map number_of uuids.now) (map pruned_of shards.now) p.first.number) }
    ensures range { IfOk result (λ p. p.first.number + length shards.now < 2 ^ 128) }
    ensures kept { OnErr result (ticket_of K.start repo.new ticket ≡ ticket_of K.start repo.old ticket) }
{
    repo.check(ticket, plans(alloc, shards)?)?;
    let plan = planned(repo, alloc, root, uuids, shards)?;
    let step = plans(alloc, shards)?;
    draw_planned(repo, ticket, step, shards, plan)
}

/// What is kept after the ticket settled on its root.
fn pruned<D: Depot, K: Told>(
    repo: &Repo<D, K>,
    alloc: Global,
    ticket: u64,
    root: &RootData,
) -> Result<Renewed, AllocError>
    requires live { IsLive K.start repo.now }
    requires may { CanSettleDelete K.start (ticket_of K.start repo.now ticket) (root_of root.now) }
    requires present { (ticket_of K.start repo.now ticket).term ≡ (world_of K.start repo.now).term }
    ensures { IfOk result (λ r. MaySwap K.start repo.now ticket (PruneStep SettlePruned) WasSettled r.cluster r.root r.left r.info r.progress r.next.number) }
{
    repo.rules();
    let cluster = settled_record(repo, alloc, ticket)?;
    let root = root.try_clone(alloc)?;
    let left = left_infos(alloc, repo.infos(), root.snapshots.as_slice())?;
    let progress = repo.plan().delete_settled(alloc, ticket)?;
    let next = repo.next_id();
    with_ops(alloc, cluster, Some(root), Some(left), None, progress, next)
}

/// Makes the root that the ticket committed the safe one. A delete leaves the list, a cleanup stays.
pub fn settle_delete<D: Depot, K: Told>(
    repo: &mut Repo<D, K>,
    alloc: Global,
    ticket: u64,
    root: &RootData,
) -> Result<(), StepRefusal>
    requires may { CanSettleDelete K.start (ticket_of K.start repo.old ticket) (root_of root.now) }
    requires new { IsFresh K.start repo.old ticket (PruneStep SettlePruned) }
    ensures step { Did K.start repo.old repo.new ticket (PruneStep SettlePruned) (λ _. WasSettled) result }
    ensures own { OnOk result (ticket_of K.start repo.new ticket
        ≡ record (ticket_of K.start repo.old ticket) { settled = true }) }
    ensures kept { LeftBy (IsSettled (ticket_of K.start repo.old ticket)) result (ticket_of K.start repo.old ticket) (ticket_of K.start repo.new ticket) }
{
    let prune = Prune::Settle;
    repo.check(ticket, Step::Prune { prune })?;
    repo.rules();
    let own = repo.seat(ticket).term;
    let now = repo.term();
    if own != now {
        let refusal = EntryRefusal::StaleTerm { own, now };
        let prune = Prune::Settle;
        return Err(repo.refuse(ticket, Step::Prune { prune }, refusal));
    }
    let renewed = pruned(repo, alloc, ticket, root)?;
    let prune = Prune::Settle;
    let step = Step::Prune { prune };
    repo.swap(alloc, ticket, step, Answer::Settled, renewed)
}

/// Takes blobs that the ticket dooms away.
pub fn remove<D: Depot, K: Told>(
    repo: &mut Repo<D, K>,
    alloc: Global,
    ticket: u64,
    names: &Seq<BlobName>,
) -> Result<(), StepRefusal>
    requires layout { (name : BlobName) → Has names.now name → IsName name }
    requires may { CanRemove K.start (ticket_of K.start repo.old ticket) (map name_of names.now) }
    requires new { IsFresh K.start repo.old ticket (PruneStep (RemoveDoomed (map name_of names.now))) }
    ensures step { Did K.start repo.old repo.new ticket (PruneStep (RemoveDoomed (map name_of names.now))) (λ _. WasRemoved) result }
    ensures own { ticket_of K.start repo.new ticket ≡ ticket_of K.start repo.old ticket }
{
    repo.check(ticket, removes(alloc, names)?)?;
    repo.rules();
    let step = removes(alloc, names)?;
    repo.call_remove(alloc, ticket, step, names.as_slice())
}

/// The delete is over; its ticket ends.
pub fn end_delete<D: Depot, K: Told>(
    repo: &mut Repo<D, K>,
    alloc: Global,
    ticket: u64,
) -> Result<(), StepRefusal>
    requires may { CanEndDelete K.start repo.old ticket }
    ensures step { Did K.start repo.old repo.new ticket (PruneStep EndDelete) (λ _. HasEnded) result }
    ensures own { OnOk result (ticket_of K.start repo.new ticket
        ≡ record (ticket_of K.start repo.old ticket) { out = false }) }
    ensures kept { OnErr result (ticket_of K.start repo.new ticket ≡ ticket_of K.start repo.old ticket) }
{
    let prune = Prune::End;
    repo.check(ticket, Step::Prune { prune })?;
    repo.rules();
    let ended = repo.plan().ended(alloc, ticket)?;
    let next = repo.next_id();
    let prune = Prune::End;
    let step = Step::Prune { prune };
    repo.note(ticket, step, Answer::Ended, Some(ended), next)
}
