//! A repository with a count of turns, the objects that failed, and the targets of restores.
ghost use Rattle.std.specs.Prelude.{◌≡◌, ◌≢◌, ◌-◌, ◌^◌, ◌≤◌, ℕ, [], length, refl};
ghost use Rattle.esr_core.specs.Entry.{Step, Refused as RefusedAs};
ghost use Rattle.esr_desk.specs.declared.refusal.EntryRefusal.{EntryRefusal};
ghost use Rattle.esr_desk.specs.declared.refusal.StepRefusal.TheVariants.{Refused};
ghost use Rattle.esr_desk.specs.Evidence.{evidence};
ghost use Rattle.esr_desk.specs.Last.{IsLast};
ghost use Rattle.esr_desk.specs.Once.{AreOnce, AreRemovedOnce};
ghost use Rattle.esr_desk.specs.Outcome.{Grounds};
ghost use Rattle.esr_desk.specs.Refusals.{refusal_of};
ghost use Rattle.esr_desk.specs.Restore.Targets.{AreTargetsOf};
ghost use Rattle.esr_desk.specs.Verify.Tested.{AreTested};
ghost use Rattle.esr_desk.specs.Shown.{AreShown};
ghost use Rattle.esr_solo.specs.Turns.{turns_of};

use esr_depot::Depot;
use esr_desk::{Fault, Faults, RestoredTarget, RestoredTargets, Sole, StepRefusal};
use esr_repo::{Repo, Told};
use esr_seq::Seq;
use esr_source::{Shard, Target};
use std::alloc::{AllocError, Global};
use std::marker::Model;

/// The turns of a desk.
pub(crate) const TURNS: u64 = 1 << 40;

/// A repository as the desk of one thread: it has a count of turns, of which each entry of the history takes one, and keeps
/// the objects that failed, and the targets that restores have filled. `H` is the type of the sources' shards, `T` that of the targets.
pub struct Solo<D: Depot, K: Told, H: Shard, T: Target> {
    pub(crate) repo: Repo<D, K>,
    pub(crate) left: u64,
    pub(crate) faults: Vec<Fault<D::Stage, D::Fetch, H, T>>,
    pub(crate) targets: Vec<RestoredTarget<T>>,
}

impl<D: Depot, K: Told, H: Shard, T: Target> Model for Solo<D, K, H, T> {
    ghost use Rattle.std.specs.Prelude.{List};
    ghost use Rattle.esr_core.specs.Entry.{Moment};
    ghost use Rattle.std.specs.Coded.{codes};
    ghost use Rattle.esr_depot.specs.Image.{blobs_code};

    ghost Value = { List Moment };

    ghost coded = { Prim.hlevel (codes, blobs_code) };

    ghost use Rattle.std.specs.Prelude.{◌≡◌, ◌+◌, ◌^◌, [], length};
    ghost use Rattle.esr_desk.specs.Evidence.{evidence};
    ghost use Rattle.esr_desk.specs.Once.{AreOnce, AreRemovedOnce};
    ghost use Rattle.esr_desk.specs.Numbered.{Numbered};
    ghost use Rattle.esr_desk.specs.Restore.Targets.{AreTargetsOf};
    ghost use Rattle.esr_desk.specs.Shown.{AreShown};
    ghost use Rattle.esr_desk.specs.Start.{Legal};
    ghost use Rattle.esr_desk.specs.Verify.Tested.{AreTested};

    ghost view = { λ s. s.repo };

    ghost invariant = { λ s. (length s.repo + s.left ≡ 2 ^ 40)
        × AreShown (evidence D.Stage.faults D.Fetch.faults H.faults T.faults H.told T.told) K.start s.repo s.faults.items
        × AreTargetsOf (evidence D.Stage.faults D.Fetch.faults H.faults T.faults H.told T.told) K.start s.repo s.targets.items
        × AreOnce K.start s.repo
        × Numbered 1 K.start.world
        × (K.start.world.entries ≡ [])
        × AreTested K.start s.repo
        × AreRemovedOnce s.repo
        × Legal K.start s.repo };
}

impl<D: Depot, K: Told, H: Shard, T: Target> Sole for Solo<D, K, H, T> {
    ghost all_calls = { λ s. refl };

    fn is_legal(&self) {
        let _left = self.left;
    }

    fn left(&self) -> u64 {
        self.left
    }

    fn is_ready(&self, alloc: Global) -> Result<bool, AllocError> {
        let _left = self.left;
        self.repo.is_ready(alloc)
    }
}

impl<D: Depot, K: Told, H: Shard, T: Target> Solo<D, K, H, T> {
    /// A desk with all its turns, over a repository on which no step was made yet.
    pub fn new(alloc: Global, repo: Repo<D, K>) -> Solo<D, K, H, T>
        requires { repo ≡ [] }
        ensures { result ≡ [] }
    {
        repo.numbers();
        repo.is_legal();
        Solo {
            repo,
            left: TURNS,
            faults: Vec::new(alloc),
            targets: Vec::new(alloc),
        }
    }

    /// The repository, the objects that failed, and the targets that restores have filled.
    pub fn into_parts(
        self,
    ) -> (
        Repo<D, K>,
        Faults<D::Stage, D::Fetch, H, T>,
        RestoredTargets<T>,
    )
        ensures repo { result.0 ≡ self }
        ensures shown { AreShown (evidence D.Stage.faults D.Fetch.faults H.faults T.faults H.told T.told) K.start result.0 result.1 }
        ensures targets { AreTargetsOf (evidence D.Stage.faults D.Fetch.faults H.faults T.faults H.told T.told) K.start result.0 result.2 }
        ensures once { AreOnce K.start result.0 }
        ensures tested { AreTested K.start result.0 }
        ensures removed { AreRemovedOnce result.0 }
    {
        let Solo {
            repo,
            left: _,
            faults,
            targets,
        } = self;
        (repo, Seq::from_vec(faults), Seq::from_vec(targets))
    }
}

/// How many turns a step took by its answer: one where it added an entry, else none.
fn turns<T: Drop>(answer: &Result<T, StepRefusal>) -> u64
    ensures { result ≡ turns_of answer.now }
{
    match answer {
        Err(StepRefusal::Memory | StepRefusal::TurnsSpent) => 0,
        _ => 1,
    }
}

/// Takes the turn of a step, by its answer, from those that are left. The step, if it was refused, was so on its grounds.
pub(crate) fn spend<D: Depot, K: Told, T: Drop>(
    left: &mut u64,
    repo: &Repo<D, K>,
    answer: &Result<T, StepRefusal>,
)
    requires { left.old ≢ 0 }
    ensures left { left.new ≡ left.old - turns_of answer.now }
    ensures grounds { (who : ℕ) (step : Step) (refusal : EntryRefusal) → length repo.now ≤ 2 ^ 41 → IsLast repo.now who step (RefusedAs (refusal_of refusal))
        → Grounds K.start repo.now who (Refused refusal) }
{
    repo.grounds();
    *left -= turns(answer);
}
