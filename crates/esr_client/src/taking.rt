//! The unit that a take gives.
ghost use Rattle.std.specs.Prelude.{◌≡◌, Some, IfOk};
ghost use Rattle.std.specs.FinMap as fin;
ghost use Rattle.esr_model.specs.Values.{Formats};
ghost use Rattle.esr_core.specs.Entry.{TakeStep};
ghost use Rattle.esr_core.specs.After.{taken_by};
ghost use Rattle.esr_ops.specs.Plan.{IsPlanOf};
ghost use Rattle.esr_ops.specs.Units.{GivesUnit, given_of};
ghost use Rattle.esr_progress.specs.Based.{IsBased};
ghost use Rattle.esr_desk.specs.Entries.{unit_of};
ghost use Rattle.esr_desk.specs.Outcome.{take_reply};
ghost use Rattle.esr_desk.specs.Start.{world_of};
ghost use Rattle.esr_desk.specs.Readers.{TookUnit, IsBare};
ghost use Rattle.esr_client.specs.Given.{IsRootable, HasRoot, HasNoRoot};
ghost use Rattle.esr_repo.specs.Next.{IsLive, GoesOn, Did};

use esr_depot::Depot;
use esr_desk::{Answer, Given, Step, StepRefusal, Unit};
use esr_formats::write_root;
use esr_names::Ids;
use esr_newroot::finalized;
use esr_ops::{ReadyUnit, Work};
use esr_progress::Progress;
use esr_repo::{Repo, Told};
use esr_results::ShardResults;
use esr_root::RootData;
use esr_seq::TryClone;
use std::alloc::{AllocError, Global};

/// What is given, as an entry tells it.
fn given(alloc: Global, unit: &ReadyUnit) -> Result<Given, AllocError>
    ensures { IfOk result (λ given. unit_of given ≡ given_of unit.now) }
{
    match &unit.work {
        Work::Shard { shard, .. } => Ok(Given::Shard {
            shard: *shard,
            base: unit.copy.base,
        }),
        Work::Finalize { info, shards } => Ok(Given::Finalize {
            info: info.try_clone(alloc)?,
            shards: ShardResults::from_slice(alloc, shards.as_slice())?,
        }),
        Work::Drop => Ok(Given::Drop),
        Work::RestoreShard { uuid, shard, .. } => Ok(Given::RestoreShard {
            shard: *shard,
            uuid: *uuid,
        }),
        Work::CloneShard { source, shard, .. } => Ok(Given::CloneShard {
            shard: *shard,
            source: *source,
            base: unit.copy.base,
        }),
        Work::Delete { uuids } => Ok(Given::Delete {
            uuids: Ids::from_slice(alloc, uuids.as_slice())?,
        }),
        Work::Cleanup => Ok(Given::Cleanup),
    }
}

/// The root that a finalization is to write.
fn new_root(alloc: Global, unit: &ReadyUnit) -> Result<Option<RootData>, AllocError>
    requires { IsRootable unit.now }
    ensures root { IfOk result (λ root. HasRoot unit.now root) }
    ensures none { IfOk result (λ root. HasNoRoot unit.now root) }
{
    let Work::Finalize { info, shards } = &unit.work else {
        return Ok(None);
    };
    let root = finalized(alloc, &unit.copy.root, info, shards)?;
    write_root(alloc, &root)?;
    Ok(Some(root))
}

/// What is given, as an entry tells it, and the root that a finalization is to write.
fn given_and_root(alloc: Global, unit: &ReadyUnit) -> Result<(Given, Option<RootData>), AllocError>
    requires { IsRootable unit.now }
    ensures given { IfOk result (λ r. unit_of r.0 ≡ given_of unit.now) }
    ensures root { IfOk result (λ r. HasRoot unit.now r.1) }
    ensures none { IfOk result (λ r. HasNoRoot unit.now r.1) }
{
    let new_root = new_root(alloc, unit)?;
    let given = given(alloc, unit)?;
    Ok((given, new_root))
}

/// Gives a unit that is ready.
pub(crate) fn give<D: Depot, K: Told>(
    repo: &mut Repo<D, K>,
    alloc: Global,
    progress: Progress,
    ready: ReadyUnit,
) -> Result<Unit, StepRefusal>
    requires live { IsLive K.start repo.old }
    requires goes { GoesOn K.start repo.old 0 TakeStep }
    requires gives { GivesUnit (world_of K.start repo.old) ready }
    requires base { IsBased ready }
    requires plan { (f : Formats) → IsPlanOf (taken_by f (world_of K.start repo.old) ready.op (given_of ready) (fin.get (world_of K.start repo.old).ops ready.op)) progress }
    ensures step { Did K.start repo.old repo.new 0 TakeStep (λ unit. take_reply (Some unit)) result }
    ensures took { IfOk result (λ unit. TookUnit K.start repo.new unit) }
    ensures bare { IfOk result (λ unit. IsBare K.start repo.new unit) }
    ensures rest { IfOk result (λ unit. HasNoRoot unit.ready unit.new_root) }
{
    repo.rules();
    let Ok((given, new_root)) = given_and_root(alloc, &ready) else {
        drop(progress);
        drop(ready);
        return Err(StepRefusal::Memory);
    };
    let answer = Answer::Gave {
        ticket: ready.ticket,
        op: ready.op,
        unit: given,
    };
    let unit = Unit { ready, new_root };
    let next = repo.next_id();
    match repo.note(0, Step::Take, answer, Some(progress), next) {
        Ok(()) => Ok(unit),
        Err(refusal) => {
            drop(unit);
            Err(refusal)
        }
    }
}
