//! What a repository keeps after a command was accepted, or why it is not.
ghost use Rattle.std.specs.Prelude.{◌≡◌, ◌+◌, ◌<◌, ◌^◌, length, IfOk, IfErr, IfSome};
ghost use Rattle.esr_core.specs.Entry.{AskStep, Accepted as AcceptedAs};
ghost use Rattle.esr_ops.specs.Asked.{asked_of, IsForOp};
ghost use Rattle.esr_desk.specs.Entries.{step_of};
ghost use Rattle.esr_desk.specs.Refusals.{refusal_of};
ghost use Rattle.esr_desk.specs.Start.{world_of};
ghost use Rattle.esr_client.specs.Asked.{entry_of, as_op, IsListed};
ghost use Rattle.esr_repo.specs.Next.{IsLive, GoesOn, AddedOr};
ghost use Rattle.esr_repo.specs.May.{MaySwap, MayRefuse};

use esr_accept::{accept, accept_cleanup, accept_delete};
use esr_depot::Depot;
use esr_desk::{EntryRefusal, Step, StepRefusal};
use esr_names::Id;
use esr_ops::{Accepted, Command, Refusal};
use esr_progress::Progress;
use esr_repo::{Renewed, Repo, Told, with_ops};
use esr_seq::TryClone;
use std::alloc::Global;

/// A refusal of the list of ops, as an entry tells it; of want of memory none does.
fn as_entry(refusal: Refusal) -> Option<EntryRefusal>
    ensures { result ≡ entry_of refusal }
{
    match refusal {
        Refusal::Memory => None,
        Refusal::CleanupRunning { op } => Some(EntryRefusal::CleanupRunning { op }),
        Refusal::NameInUse { uuid } => Some(EntryRefusal::NameInUse { uuid }),
        Refusal::TooMany { limit } => Some(EntryRefusal::TooMany { limit }),
        Refusal::IdsSpent { next } => Some(EntryRefusal::IdsSpent { next }),
        Refusal::NoSnapshot { place } => Some(EntryRefusal::NoSnapshot { place }),
        Refusal::NoIndex { place } => Some(EntryRefusal::NoIndex { place }),
        Refusal::BeingDeleted { op } => Some(EntryRefusal::BeingDeleted { op }),
        Refusal::CloneRunning { op } => Some(EntryRefusal::CloneRunning { op }),
        Refusal::RestoreRunning { op } => Some(EntryRefusal::RestoreRunning { op }),
        Refusal::BusyOp { op } => Some(EntryRefusal::BusyOp { op }),
        Refusal::BusyTicket { ticket } => Some(EntryRefusal::BusyTicket { ticket }),
    }
}

/// A command for which no id is drawn.
fn as_op(accepted: Result<(Progress, u64), Refusal>) -> Result<(Progress, Accepted), Refusal>
    ensures { result ≡ as_op accepted }
{
    match accepted {
        Ok((list, op)) => Ok((list, Accepted { op, drawn: 0 })),
        Err(refusal) => Err(refusal),
    }
}

/// A command is not accepted, which changes nothing.
pub(crate) fn refuse_asked<D: Depot, K: Told>(
    repo: &mut Repo<D, K>,
    step: Step,
    refusal: Refusal,
) -> StepRefusal
    requires live { IsLive K.start repo.old }
    requires goes { GoesOn K.start repo.old 0 (step_of step) }
    requires may { IfSome (entry_of refusal) (λ e. MayRefuse K.start repo.old 0 (step_of step) (refusal_of e)) }
    ensures { AddedOr K.start repo.old repo.new 0 (step_of step) result }
{
    match as_entry(refusal) {
        Some(refusal) => repo.refuse(0, step, refusal),
        None => {
            drop(step);
            StepRefusal::Memory
        }
    }
}

/// The list after a command, or the first rule that refuses it.
fn listed<D: Depot, K: Told>(
    repo: &Repo<D, K>,
    alloc: Global,
    command: &Command,
) -> Result<(Progress, Accepted), Refusal>
    requires live { IsLive K.start repo.now }
    requires may { IsForOp (asked_of command.now) }
    requires room { length repo.now < 2 ^ 41 }
    ensures listed { IsListed (world_of K.start repo.now) (asked_of command.now) result }
    ensures fits { IfOk result (λ r. (world_of K.start repo.now).next_id + r.1.drawn < 2 ^ 128) }
{
    repo.rules();
    let list = repo.plan();
    let root = repo.safe_root();
    let term = repo.term();
    let first = repo.next_id();
    match command {
        Command::Create { .. } => accept(list, alloc, root, term, first, command),
        Command::Delete { names } => as_op(accept_delete(list, alloc, root, term, names)),
        Command::Cleanup => as_op(accept_cleanup(list, alloc)),
        Command::Clone { .. } | Command::Restore { .. } => unreachable!(),
    }
}

/// The op as which a command is accepted, or into which it goes, and what is kept then.
pub(crate) fn accepted<D: Depot, K: Told>(
    repo: &Repo<D, K>,
    alloc: Global,
    command: &Command,
) -> Result<(u64, Renewed), Refusal>
    requires live { IsLive K.start repo.now }
    requires may { IsForOp (asked_of command.now) }
    requires room { length repo.now < 2 ^ 41 }
    ensures ok { IfOk result (λ r. MaySwap K.start repo.now 0 (AskStep (asked_of command.now)) (AcceptedAs r.0) r.1.cluster r.1.root r.1.left r.1.info r.1.progress r.1.next.number) }
    ensures err { IfErr result (λ e. IfSome (entry_of e) (λ r. MayRefuse K.start repo.now 0 (AskStep (asked_of command.now)) (refusal_of r))) }
{
    repo.rules();
    let cluster = repo.record().try_clone(alloc)?;
    let (progress, accepted) = listed(repo, alloc, command)?;
    let first = repo.next_id();
    let next = Id {
        number: first.number + u128::from(accepted.drawn),
    };
    let renewed = with_ops(alloc, cluster, None, None, None, progress, next)?;
    Ok((accepted.op, renewed))
}
