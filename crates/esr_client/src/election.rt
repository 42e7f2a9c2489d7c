//! The step by which the next term begins.
ghost use Rattle.std.specs.Prelude.{◌≡◌, ◌<◌, ◌^◌, suc, IfOk};
ghost use Rattle.esr_core.specs.World.{record_of};
ghost use Rattle.esr_core.specs.Entry.{ElectStep, ElectedTerm};
ghost use Rattle.esr_formats.specs.Clusters.{cluster_of};
ghost use Rattle.esr_desk.specs.Start.{world_of};
ghost use Rattle.esr_repo.specs.Next.{IsLive, Did};
ghost use Rattle.esr_repo.specs.May.{MaySwap, swapped_world};

use esr_depot::Depot;
use esr_desk::{Answer, Step, StepRefusal};
use esr_names::Id;
use esr_record::ClusterRecord;
use esr_repo::{Renewed, Repo, Told, entry_refusal};
use esr_seq::TryClone;
use std::alloc::Global;

/// What is kept after an election: ids are those of the new term.
fn elected<D: Depot, K: Told>(repo: &Repo<D, K>, cluster: ClusterRecord, term: u64) -> Renewed
    requires live { IsLive K.start repo.now }
    requires next { term ≡ suc (world_of K.start repo.now).term }
    requires room { term < 2 ^ 63 }
    requires record { cluster_of cluster ≡ record_of (swapped_world K.start repo.now 0 ElectStep) }
    ensures { MaySwap K.start repo.now 0 ElectStep (ElectedTerm term) result.cluster result.root result.left result.info result.progress result.next.number }
{
    repo.rules();
    Renewed {
        cluster,
        root: None,
        left: None,
        info: None,
        progress: None,
        next: Id::new(term, 0),
    }
}

/// Begins the next term, and answers it. Tickets of earlier terms begin and settle no root any more.
pub fn elect<D: Depot, K: Told>(repo: &mut Repo<D, K>, alloc: Global) -> Result<u64, StepRefusal>
    ensures step { Did K.start repo.old repo.new 0 ElectStep (λ term. ElectedTerm term) result }
    ensures range { IfOk result (λ term. term < 2 ^ 63) }
{
    repo.check(0, Step::Elect)?;
    let _term = repo.term();
    let mut cluster = repo.record().try_clone(alloc)?;
    let term = match cluster.elect() {
        Ok(term) => term,
        Err(refusal) => return Err(repo.refuse(0, Step::Elect, entry_refusal(refusal))),
    };
    let renewed = elected(repo, cluster, term);
    repo.swap(alloc, 0, Step::Elect, Answer::Elected { term }, renewed)?;
    Ok(term)
}
