//! The unit that is ready.
ghost use Rattle.std.specs.Prelude.{◌≡◌, ◌<◌, ◌^◌, true, false, length, Some, IfOk, IfSome};
ghost use Rattle.esr_core.specs.Ready.{AnyReady};
ghost use Rattle.esr_ops.specs.Units.{NextUnit};
ghost use Rattle.esr_progress.specs.Based.{IsBased};
ghost use Rattle.esr_desk.specs.Start.{world_of};
ghost use Rattle.esr_repo.specs.Next.{IsLive};

use crate::{Repo, Told};
use esr_depot::Depot;
use esr_ops::ReadyUnit;
use esr_progress::Progress;
use std::alloc::{AllocError, Global};

impl<D: Depot, K: Told> Repo<D, K> {
    /// The first ready unit of the lowest op, with the list in which its ticket is out.
    pub fn ready(&self, alloc: Global) -> Result<Option<(Progress, ReadyUnit)>, AllocError>
        requires live { IsLive K.start self.now }
        requires room { length self.now < 2 ^ 41 }
        ensures next { IfOk result (λ o. NextUnit (world_of K.start self.now) o) }
        ensures base { IfOk result (λ o. IfSome o (λ next. IsBased next.1)) }
    {
        self.rules();
        let root = self.safe_root();
        self.plan().next_unit(alloc, root, self.safe(), self.term())
    }

    /// Whether a unit is ready. It answers so after a record swap that failed, too: a take is refused then.
    pub fn is_ready(&self, alloc: Global) -> Result<bool, AllocError>
        requires room { length self.now < 2 ^ 41 }
        ensures ready { IfOk result (λ any. any ≡ true → IsLive K.start self.now → AnyReady (world_of K.start self.now)) }
        ensures none { IfOk result (λ any. any ≡ false → AnyReady (world_of K.start self.now) → ⊥) }
    {
        if self.deposed.is_some() {
            return Ok(true);
        }
        let next = self.ready(alloc)?;
        Ok(next.is_some())
    }
}
