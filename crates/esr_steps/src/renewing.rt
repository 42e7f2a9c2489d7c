//! What a repository keeps after the record swap of a ticket.
ghost use Rattle.std.specs.Prelude.{◌≡◌, ◌<◌, ◌^◌, ◌≤ℤ◌, ℕ, negsuc, suc, Some, IfOk};
ghost use Rattle.esr_core.specs.World.{record_of};
ghost use Rattle.esr_core.specs.After.{raised};
ghost use Rattle.esr_core.specs.Entry.{RaiseStep, SettleStep, DroppedStep, RaisedTo, WasSettled, HasEnded};
ghost use Rattle.esr_formats.specs.Roots.{root_of};
ghost use Rattle.esr_formats.specs.Clusters.{count_of, cluster_of};
ghost use Rattle.esr_desk.specs.Start.{world_of, ticket_of};
ghost use Rattle.esr_desk.specs.Conditions.{CanRaise, IsUnpruned, CanSettle};
ghost use Rattle.esr_repo.specs.Next.{IsLive};
ghost use Rattle.esr_repo.specs.May.{MaySwap, IsMadeInfo};
ghost use Rattle.esr_steps.specs.Leave.{CanLeave};

use esr_depot::Depot;
use esr_formats::write_info;
use esr_meta::SnapInfo;
use esr_record::ClusterRecord;
use esr_repo::{Renewed, Repo, Told, with_ops};
use esr_root::RootData;
use esr_seq::TryClone;
use std::alloc::{AllocError, Global};

/// How many generations there are up to this one, which is -1 before the first.
pub(crate) fn count(number: i64) -> u64
    requires { negsuc 0 ≤ℤ number }
    ensures { result ≡ count_of number }
{
    if number < 0 {
        return 0;
    }
    number as u64 + 1
}

/// What is kept after a ticket raised a generation.
pub(crate) fn raised<D: Depot, K: Told>(
    repo: &Repo<D, K>,
    alloc: Global,
    ticket: u64,
    generation: u64,
    cluster: ClusterRecord,
) -> Result<Renewed, AllocError>
    requires live { IsLive K.start repo.now }
    requires may { CanRaise K.start (ticket_of K.start repo.now ticket) }
    requires present { (ticket_of K.start repo.now ticket).term ≡ (world_of K.start repo.now).term }
    requires pending { generation ≡ (world_of K.start repo.now).pending }
    requires room { generation < 2 ^ 63 }
    requires record { cluster_of cluster ≡ record_of (raised (world_of K.start repo.now) ticket) }
    ensures { IfOk result (λ r. MaySwap K.start repo.now ticket RaiseStep (RaisedTo generation) r.cluster r.root r.left r.info r.progress r.next.number) }
{
    repo.rules();
    let progress = repo.plan().raised(alloc, ticket, generation)?;
    Ok(Renewed {
        cluster,
        root: None,
        left: None,
        info: None,
        progress: Some(progress),
        next: repo.next_id(),
    })
}

/// The cluster record in which the generation that the ticket raised is the safe one.
pub(crate) fn settled_record<D: Depot, K: Told>(
    repo: &Repo<D, K>,
    alloc: Global,
    ticket: u64,
) -> Result<ClusterRecord, AllocError>
    requires live { IsLive K.start repo.now }
    requires may { (root : _) × CanSettle K.start (ticket_of K.start repo.now ticket) root }
    requires present { (ticket_of K.start repo.now ticket).term ≡ (world_of K.start repo.now).term }
    ensures { IfOk result (λ r. (n : ℕ) → (ticket_of K.start repo.now ticket).raised ≡ Some n
        → (cluster_of r).ledger ≡ record { safe = suc n; pending = (world_of K.start repo.now).pending; term = (world_of K.start repo.now).term }) }
{
    repo.rules();
    let seat = repo.seat(ticket);
    let Some(generation) = seat.raised else {
        unreachable!();
    };
    let mut cluster = repo.record().try_clone(alloc)?;
    if cluster.settle(seat.term, generation as i64).is_err() {
        unreachable!();
    }
    Ok(cluster)
}

/// The info of the snapshot that a ticket finalizes. It can be written.
fn made_info<D: Depot, K: Told>(
    repo: &Repo<D, K>,
    alloc: Global,
    ticket: u64,
) -> Result<SnapInfo, AllocError>
    requires live { IsLive K.start repo.now }
    requires may { (root : _) × CanSettle K.start (ticket_of K.start repo.now ticket) root }
    requires unpruned { IsUnpruned (ticket_of K.start repo.now ticket) }
    requires present { (ticket_of K.start repo.now ticket).term ≡ (world_of K.start repo.now).term }
    ensures { IfOk result (λ info. IsMadeInfo K.start repo.now ticket info) }
{
    repo.rules();
    let seat = repo.seat(ticket);
    let Some(info) = repo.plan().finalized_info(alloc, seat.op)? else {
        unreachable!();
    };
    let _ = &info.name;
    write_info(alloc, &info)?;
    Ok(info)
}

/// What is kept after a ticket settled on its root.
pub(crate) fn settled<D: Depot, K: Told>(
    repo: &Repo<D, K>,
    alloc: Global,
    ticket: u64,
    root: &RootData,
) -> Result<Renewed, AllocError>
    requires live { IsLive K.start repo.now }
    requires may { CanSettle K.start (ticket_of K.start repo.now ticket) (root_of root.now) }
    requires unpruned { IsUnpruned (ticket_of K.start repo.now ticket) }
    requires present { (ticket_of K.start repo.now ticket).term ≡ (world_of K.start repo.now).term }
    ensures { IfOk result (λ r. MaySwap K.start repo.now ticket SettleStep WasSettled r.cluster r.root r.left r.info r.progress r.next.number) }
{
    repo.rules();
    let cluster = settled_record(repo, alloc, ticket)?;
    let root = root.try_clone(alloc)?;
    let info = made_info(repo, alloc, ticket)?;
    let progress = repo.plan().finalized(alloc, ticket)?;
    let next = repo.next_id();
    with_ops(alloc, cluster, Some(root), None, Some(info), progress, next)
}

/// What is kept after the op of a ticket left.
pub(crate) fn without_op<D: Depot, K: Told>(
    repo: &Repo<D, K>,
    alloc: Global,
    ticket: u64,
) -> Result<Renewed, AllocError>
    requires live { IsLive K.start repo.now }
    requires may { CanLeave K.start repo.now ticket }
    requires present { (ticket_of K.start repo.now ticket).term ≡ (world_of K.start repo.now).term }
    ensures { IfOk result (λ r. MaySwap K.start repo.now ticket DroppedStep HasEnded r.cluster r.root r.left r.info r.progress r.next.number) }
{
    repo.rules();
    let cluster = repo.record().try_clone(alloc)?;
    let progress = repo.plan().dropped(alloc, ticket)?;
    let next = repo.next_id();
    with_ops(alloc, cluster, None, None, None, progress, next)
}
