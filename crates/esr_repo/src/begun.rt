//! A repository of a container that was opened.
ghost use Rattle.std.specs.Prelude.{◌≡◌, ◌≤◌, ◌^◌, true, []};
ghost use Rattle.esr_repo.specs.Begun.{IsBegun};

use crate::{Repo, Told};
use esr_depot::Depot;
use esr_progress::Opening;
use std::alloc::Global;

impl<D: Depot, K: Told> Repo<D, K> {
    /// The repository of a container that was opened.
    pub fn from_opening(alloc: Global, opening: Opening<D>) -> Repo<D, K>
        requires begun { IsBegun K.start K.clock K.past (D.look opening.depot)
            (record { cluster = opening.cluster; root = opening.root; infos = opening.infos; plan = opening.progress; next = opening.next.number }) }
        requires counted { K.faults ≤ D.faults opening.depot }
        requires calm { K.start.quiet ≡ true → 2 ^ 41 ≤ (D.look opening.depot).sure }
        ensures { result ≡ [] }
    {
        Repo::new(
            alloc,
            opening.depot,
            opening.cluster,
            opening.root,
            opening.infos.into_vec(),
            opening.next,
            opening.progress,
        )
    }
}
