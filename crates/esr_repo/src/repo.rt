//! A container beside the history of its steps, and what is kept of the world that they lead to.
ghost use Rattle.std.specs.Prelude.{◌≡◌, ℕ, [], List, Option, None};
ghost use Rattle.esr_desk.specs.Start.{Legal};
ghost use Rattle.esr_repo.specs.Calm.{IsCalm};
ghost use Rattle.esr_repo.specs.Counted.{IsCounted};
ghost use Rattle.esr_repo.specs.Deposed.{AreDeposedSo};
ghost use Rattle.esr_repo.specs.KeptFaults.{IsKeptOfFaults};
ghost use Rattle.esr_repo.specs.Laws.{Laws};
ghost use Rattle.esr_repo.specs.Log.{log_of};
ghost use Rattle.esr_repo.specs.Past.{IsPast};
ghost use Rattle.esr_repo.specs.Repo.{Kept, IsRepo};
ghost use Rattle.esr_repo.specs.Whole.{IsWhole};

use crate::Told;
use esr_depot::Depot;
use esr_desk::{Entry, History};
use esr_meta::SnapInfo;
use esr_names::Id;
use esr_progress::Progress;
use esr_record::ClusterRecord;
use esr_root::RootData;
use std::alloc::Global;
use std::marker::{Model, PhantomData};

/// A container with the history of the steps that were made on it.
pub struct Repo<D: Depot, K: Told> {
    pub(crate) depot: D,
    pub(crate) history: Vec<Entry>,
    /// The cluster record, the safe root with the infos of its snapshots, the list of ops, and the next id.
    pub(crate) cluster: ClusterRecord,
    pub(crate) root: RootData,
    pub(crate) infos: Vec<SnapInfo>,
    pub(crate) progress: Progress,
    pub(crate) next: Id,
    /// The place in the history of the record swap that failed.
    pub(crate) deposed: Option<u64>,
    of: PhantomData<K>,
}

impl<D: Depot, K: Told> Model for Repo<D, K> {
    ghost use Rattle.std.specs.Prelude.{List};
    ghost use Rattle.esr_core.specs.Entry.{Moment};
    ghost use Rattle.std.specs.Coded.{codes};
    ghost use Rattle.esr_depot.specs.Image.{blobs_code};

    ghost Value = { List Moment };

    ghost coded = { Prim.hlevel (codes, blobs_code) };

    ghost use Rattle.esr_repo.specs.Log.{log_of};
    ghost use Rattle.esr_repo.specs.Calm.{IsCalm};
    ghost use Rattle.esr_repo.specs.KeptFaults.{IsKeptOfFaults};
    ghost use Rattle.esr_repo.specs.Whole.{IsWhole};

    ghost view = { λ r. log_of (D.look r.depot) K.clock r.history.items };

    ghost invariant = { λ r. IsWhole (D.look r.depot) K.start K.clock K.past r.history.items
        (record { cluster = r.cluster; root = r.root; infos = r.infos.items; plan = r.progress; next = r.next.number }) r.deposed
        × IsKeptOfFaults K.faults (D.faults r.depot) r.history.items r.deposed
        × IsCalm K.start.quiet (D.look r.depot).sure r.history.items };
}

impl<D: Depot, K: Told> Repo<D, K> {
    /// A container to which nothing was done yet.
    pub(crate) fn new(
        alloc: Global,
        depot: D,
        cluster: ClusterRecord,
        root: RootData,
        infos: Vec<SnapInfo>,
        next: Id,
        progress: Progress,
    ) -> Repo<D, K>
        requires whole { IsWhole (D.look depot) K.start K.clock K.past []
            (record { cluster = cluster; root = root; infos = infos.items; plan = progress; next = next.number }) None }
        requires faults { IsKeptOfFaults K.faults (D.faults depot) [] None }
        requires calm { IsCalm K.start.quiet (D.look depot).sure [] }
        ensures { result ≡ [] }
    {
        Repo {
            depot,
            history: Vec::new(alloc),
            cluster,
            root,
            infos,
            progress,
            next,
            deposed: None,
            of: PhantomData,
        }
    }

    /// The container and the history of its steps.
    pub fn into_parts(self) -> (D, History)
        ensures repo { (k : Kept) × (deposed : Option ℕ) × IsRepo (D.look result.0) K.start K.clock result.1 k deposed }
        ensures past { IsPast K.start K.clock K.past (D.look result.0) result.1 }
        ensures log { log_of (D.look result.0) K.clock result.1 ≡ self }

        // The container counted each failure that the history tells, and each refusal as deposed names the record swap
        // that failed.
        ensures counted { IsCounted K.faults (D.faults result.0) result.1 }
        ensures named { AreDeposedSo result.1 }

        // A container that tells that no call of it fails made none of the first 2^41 entries tell a failure.
        ensures calm { IsCalm K.start.quiet (D.look result.0).sure result.1 }
    {
        let Repo {
            depot,
            history,
            cluster: _,
            root: _,
            infos: _,
            progress: _,
            next: _,
            deposed: _,
            of: _,
        } = self;
        (depot, History::from_vec(history))
    }

    /// The history is legal.
    pub fn is_legal(&self)
        ensures { Legal K.start self.now }
    {
        let _ = &self.depot;
    }

    /// The laws of steps.
    pub(crate) fn laws()
        ensures { Laws }
    {
        esr_core::each_step_is_tracked();
        esr_core::each_step_is_ranked();
        esr_core::each_step_tracks_restores();
        esr_core::the_record_stays();
        esr_core::leaves_go_on();
        esr_core::each_step_is_one_change();
        esr_core::each_step_leaves_the_others();
        esr_core::each_refusal_has_its_cause();
        esr_core::answers_tell_their_steps();
    }
}
