//! The step that asks for a clone.
ghost use Rattle.std.specs.Prelude.{◌≡◌, ◌<◌, ◌^◌, List, Option, Some, None, length, map, IfOk};
ghost use Rattle.esr_model.specs.Values.{Bytes, IndexRef};
ghost use Rattle.esr_core.specs.Restores.{AreOnce};
ghost use Rattle.esr_core.specs.Entry.{CloneOf as Taken, Clone, AskStep, Accepted};
ghost use Rattle.esr_core.specs.After.{chosen_refs};
ghost use Rattle.esr_core.specs.Allowed.{IsListed};
ghost use Rattle.esr_formats.specs.Refs.{ref_of_code, AreApart};
ghost use Rattle.esr_progress.specs.Infos.{HasIndices};
ghost use Rattle.esr_accept.specs.Accepting.{IsCloneRefused, Clonable};
ghost use Rattle.esr_desk.specs.Entries.{cloned_of, step_of};
ghost use Rattle.esr_desk.specs.Start.{formats_of, world_of};
ghost use Rattle.esr_repo.specs.Next.{IsLive, GoesOn, AddedOr, Did};
ghost use Rattle.esr_repo.specs.May.{MaySwap};

use crate::accepting::refuse_asked;
use crate::restoring::indices_of;
use esr_accept::{chosen, clonable, open_clone};
use esr_depot::Depot;
use esr_desk::{Answer, CloneAsk, CloneOf, Step, StepRefusal};
use esr_names::{Id, IndexNames, IndexRefs, SnapName};
use esr_ops::{Command, Refusal};
use esr_repo::{Renewed, Repo, Told, with_ops};
use esr_seq::TryClone;
use std::alloc::{AllocError, Global};

/// Copies of the names in the request for a clone: of the snapshot that is copied, of the clone and of the indices.
fn names_copy(
    alloc: Global,
    ask: &CloneAsk<'_>,
) -> Result<(SnapName, SnapName, IndexNames), AllocError>
    ensures source { IfOk result (λ copy. copy.0 ≡ ask.now.source.now) }
    ensures name { IfOk result (λ copy. copy.1 ≡ ask.now.name.now) }
    ensures indices { IfOk result (λ copy. copy.2 ≡ ask.now.indices.now) }
{
    let source = ask.source.try_clone(alloc)?;
    let name = ask.name.try_clone(alloc)?;
    let indices = ask.indices.try_clone(alloc)?;
    Ok((source, name, indices))
}

/// The step that asks for a clone, without what it takes.
fn asks(alloc: Global, ask: &CloneAsk<'_>) -> Result<Step, AllocError>
    ensures { IfOk result (λ step. step_of step ≡ AskStep (Clone ask.now.source.now ask.now.name.now ask.now.indices.now ask.now.moment None)) }
{
    let (source, name, indices) = names_copy(alloc, ask)?;
    let command = Command::Clone {
        source,
        name,
        indices,
        moment: ask.moment,
    };
    Ok(Step::Ask { command })
}

/// The step that asks for a clone which takes this.
fn takes(alloc: Global, ask: &CloneAsk<'_>, taken: CloneOf) -> Result<Step, AllocError>
    ensures { IfOk result (λ step. step_of step ≡ AskStep (Clone ask.now.source.now ask.now.name.now ask.now.indices.now ask.now.moment (Some (cloned_of taken)))) }
{
    let (source, name, indices) = names_copy(alloc, ask)?;
    Ok(Step::AskClone {
        source,
        name,
        indices,
        moment: ask.moment,
        taken,
    })
}

/// Asks for a clone, which names each index once. It is accepted as the op that is answered; the entry tells what it takes.
pub fn clone_snapshot<D: Depot, K: Told>(
    repo: &mut Repo<D, K>,
    alloc: Global,
    ask: &CloneAsk<'_>,
) -> Result<u64, StepRefusal>
    requires once { AreOnce ask.now.indices.now }
    requires room { length repo.old < 2 ^ 41 }
    ensures { (taken : Option Taken) × Did K.start repo.old repo.new 0 (AskStep (Clone ask.now.source.now ask.now.name.now ask.now.indices.now ask.now.moment taken)) (λ op. Accepted op) result }
{
    let asked = asks(alloc, ask)?;
    repo.check(0, asked)?;
    match copied(repo, ask) {
        Ok(uuid) => accept_clone(repo, alloc, uuid, ask),
        Err(refusal) => Err(refuse_clone(repo, alloc, ask, refusal)),
    }
}

/// The snapshot that a clone copies. The first rule that refuses it decides.
fn copied<D: Depot, K: Told>(repo: &Repo<D, K>, ask: &CloneAsk<'_>) -> Result<Id, Refusal>
    requires live { IsLive K.start repo.now }
    ensures { Clonable (world_of K.start repo.now) ask.now.source.now ask.now.name.now ask.now.indices.now result }
{
    let next = repo.next_id();
    clonable(
        repo.plan(),
        repo.safe_root(),
        repo.term(),
        next,
        ask.source,
        ask.name,
        ask.indices,
    )
}

/// A clone is not accepted, which changes nothing.
fn refuse_clone<D: Depot, K: Told>(
    repo: &mut Repo<D, K>,
    alloc: Global,
    ask: &CloneAsk<'_>,
    refusal: Refusal,
) -> StepRefusal
    requires live { IsLive K.start repo.old }
    requires goes { GoesOn K.start repo.old 0 (AskStep (Clone ask.now.source.now ask.now.name.now ask.now.indices.now ask.now.moment None)) }
    requires why { IsCloneRefused (world_of K.start repo.old) ask.now.source.now ask.now.name.now ask.now.indices.now refusal }
    ensures { AddedOr K.start repo.old repo.new 0 (AskStep (Clone ask.now.source.now ask.now.name.now ask.now.indices.now ask.now.moment None)) result }
{
    match asks(alloc, ask) {
        Ok(step) => refuse_asked(repo, step, refusal),
        Err(_) => StepRefusal::Memory,
    }
}

/// A clone of this snapshot is accepted, as the op that is answered.
fn accept_clone<D: Depot, K: Told>(
    repo: &mut Repo<D, K>,
    alloc: Global,
    uuid: Id,
    ask: &CloneAsk<'_>,
) -> Result<u64, StepRefusal>
    requires live { IsLive K.start repo.old }
    requires goes { GoesOn K.start repo.old 0 (AskStep (Clone ask.now.source.now ask.now.name.now ask.now.indices.now ask.now.moment None)) }
    requires once { AreOnce ask.now.indices.now }
    requires room { length repo.old < 2 ^ 41 }
    requires may { Clonable (world_of K.start repo.old) ask.now.source.now ask.now.name.now ask.now.indices.now (Ok uuid) }
    ensures { (taken : Option Taken) × Did K.start repo.old repo.new 0 (AskStep (Clone ask.now.source.now ask.now.name.now ask.now.indices.now ask.now.moment taken)) (λ op. Accepted op) result }
{
    let (op, step, renewed) = cloned(repo, alloc, uuid, ask)?;
    repo.swap(alloc, 0, step, Answer::Accepted { op }, renewed)?;
    Ok(op)
}

/// The indices that a clone of this snapshot takes.
fn chosen_refs<D: Depot, K: Told>(
    repo: &Repo<D, K>,
    alloc: Global,
    uuid: Id,
    ask: &CloneAsk<'_>,
) -> Result<IndexRefs, AllocError>
    requires live { IsLive K.start repo.now }
    requires once { AreOnce ask.now.indices.now }
    requires listed { (name : Bytes) × IsListed (world_of K.start repo.now) name uuid.number }
    ensures chosen { IfOk result (λ refs. (all : List IndexRef) × HasIndices (formats_of K.start) (world_of K.start repo.now) K.start.tells uuid.number all
        × AreApart all × (map ref_of_code refs ≡ chosen_refs all ask.now.indices.now)) }
    ensures apart { IfOk result (λ refs. AreApart (map ref_of_code refs)) }
{
    let all = indices_of(repo, alloc, uuid)?;
    chosen(alloc, &all, ask.indices)
}

/// The op as which a clone of this snapshot is accepted, the step that tells what it takes, and what is kept then.
fn cloned<D: Depot, K: Told>(
    repo: &Repo<D, K>,
    alloc: Global,
    uuid: Id,
    ask: &CloneAsk<'_>,
) -> Result<(u64, Step, Renewed), AllocError>
    requires live { IsLive K.start repo.now }
    requires once { AreOnce ask.now.indices.now }
    requires room { length repo.now < 2 ^ 41 }
    requires may { Clonable (world_of K.start repo.now) ask.now.source.now ask.now.name.now ask.now.indices.now (Ok uuid) }
    ensures { IfOk result (λ r. (taken : Option Taken) × (step_of r.1 ≡ AskStep (Clone ask.now.source.now ask.now.name.now ask.now.indices.now ask.now.moment taken))
        × MaySwap K.start repo.now 0 (AskStep (Clone ask.now.source.now ask.now.name.now ask.now.indices.now ask.now.moment taken)) (Accepted r.0) r.2.cluster r.2.root r.2.left r.2.info r.2.progress r.2.next.number) }
{
    repo.rules();
    let first = repo.next_id();
    let refs = chosen_refs(repo, alloc, uuid, ask)?;
    let cluster = repo.record().try_clone(alloc)?;
    let progress = open_clone(repo.plan(), alloc, first, uuid, ask.name, &refs, ask.moment)?;
    let op = repo.next_op();
    let Some(next) = repo.id_after(1) else {
        unreachable!();
    };
    let renewed = with_ops(alloc, cluster, None, None, None, progress, next)?;
    let taken = CloneOf {
        source: uuid,
        indices: refs,
    };
    let Ok(step) = takes(alloc, ask, taken) else {
        drop(renewed);
        return Err(AllocError);
    };
    Ok((op, step, renewed))
}
