//! The step that asks for a restore.
ghost use Rattle.std.specs.Prelude.{◌≡◌, ◌==◌, ◌<◌, ◌^◌, map, find, option_copied, length, IfOk};
ghost use Rattle.esr_model.specs.Values.{Bytes};
ghost use Rattle.esr_core.specs.Entry.{Restore, AskStep, AcceptedRestore as Accepted};
ghost use Rattle.esr_core.specs.Allowed.{IsListed};
ghost use Rattle.esr_formats.specs.Refs.{ref_of_code, AreApart};
ghost use Rattle.esr_progress.specs.Infos.{HasIndices};
ghost use Rattle.esr_accept.specs.Accepting.{Restorable};
ghost use Rattle.esr_desk.specs.Entries.{step_of};
ghost use Rattle.esr_desk.specs.Start.{formats_of, world_of};
ghost use Rattle.esr_repo.specs.Next.{IsLive, GoesOn, Did};

use crate::accepting::refuse_asked;
use esr_accept::{open_restore, restorable};
use esr_depot::Depot;
use esr_desk::{AcceptedRestore, Answer, Step, StepRefusal};
use esr_meta::SnapInfo;
use esr_names::{Id, IndexRefs, SnapName};
use esr_ops::Command;
use esr_repo::{Repo, Told};
use esr_seq::{Text, TryClone};
use std::alloc::{AllocError, Global};

/// The step that asks for a restore.
fn asks(alloc: Global, name: &SnapName, place: &Text) -> Result<Step, AllocError>
    ensures { IfOk result (λ step. step_of step ≡ AskStep (Restore name.now place.now)) }
{
    let name = name.try_clone(alloc)?;
    let place = place.try_clone(alloc)?;
    let command = Command::Restore { name, place };
    Ok(Step::Ask { command })
}

/// The info of a snapshot.
fn info_of(infos: &[SnapInfo], uuid: Id) -> Option<&SnapInfo>
    ensures { option_copied result ≡ find (λ info. info.uuid.number == uuid.number) infos.now }
{
    infos.iter().find(|info| info.uuid.number == uuid.number)
}

/// Asks for a restore of the files of the snapshot of that name below a place. The answer tells its indices.
pub fn restore<D: Depot, K: Told>(
    repo: &mut Repo<D, K>,
    alloc: Global,
    name: &SnapName,
    place: &Text,
) -> Result<AcceptedRestore, StepRefusal>
    requires room { length repo.old < 2 ^ 41 }
    ensures { Did K.start repo.old repo.new 0 (AskStep (Restore name.now place.now))
        (λ accepted. Accepted accepted.op accepted.uuid.number (map ref_of_code accepted.indices)) result }
{
    repo.check(0, asks(alloc, name, place)?)?;
    match restorable(repo.plan(), repo.safe_root(), name) {
        Ok(uuid) => accept_restore(repo, alloc, uuid, name, place),
        Err(refusal) => {
            let refused = asks(alloc, name, place)?;
            Err(refuse_asked(repo, refused, refusal))
        }
    }
}

/// A restore of this snapshot is accepted.
fn accept_restore<D: Depot, K: Told>(
    repo: &mut Repo<D, K>,
    alloc: Global,
    uuid: Id,
    name: &SnapName,
    place: &Text,
) -> Result<AcceptedRestore, StepRefusal>
    requires live { IsLive K.start repo.old }
    requires goes { GoesOn K.start repo.old 0 (AskStep (Restore name.now place.now)) }
    requires may { Restorable (world_of K.start repo.old) name.now (Ok uuid) }
    requires room { length repo.old < 2 ^ 41 }
    ensures { Did K.start repo.old repo.new 0 (AskStep (Restore name.now place.now))
        (λ accepted. Accepted accepted.op accepted.uuid.number (map ref_of_code accepted.indices)) result }
{
    repo.rules();
    let indices = indices_of(repo, alloc, uuid)?;
    let told = indices.try_clone(alloc)?;
    let progress = open_restore(repo.plan(), alloc, uuid, place, &indices)?;
    let step = asks(alloc, name, place)?;
    let op = repo.next_op();
    let answer = Answer::AcceptedRestore {
        op,
        uuid,
        indices: told,
    };
    let next = repo.next_id();
    repo.note(0, step, answer, Some(progress), next)?;
    Ok(AcceptedRestore { op, uuid, indices })
}

/// The indices of a listed snapshot.
pub(crate) fn indices_of<D: Depot, K: Told>(
    repo: &Repo<D, K>,
    alloc: Global,
    uuid: Id,
) -> Result<IndexRefs, AllocError>
    requires live { IsLive K.start repo.now }
    requires listed { (name : Bytes) × IsListed (world_of K.start repo.now) name uuid.number }
    ensures indices { IfOk result (λ indices. HasIndices (formats_of K.start) (world_of K.start repo.now) K.start.tells uuid.number (map ref_of_code indices)) }
    ensures apart { IfOk result (λ indices. AreApart (map ref_of_code indices)) }
{
    let Some(info) = info_of(repo.infos(), uuid) else {
        unreachable!();
    };
    let _ = &info.name;
    info.indices.try_clone(alloc)
}
