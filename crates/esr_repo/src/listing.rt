//! The call that lists a page of the container's blobs.
ghost use Rattle.std.specs.Prelude.{◌≡◌, option_copied, IfOk};
ghost use Rattle.esr_model.specs.Cleanup.{IsPage};
ghost use Rattle.esr_core.specs.Entry.{ListStep, WasListed};
ghost use Rattle.esr_core.specs.Allowed.{ListsPage};
ghost use Rattle.esr_desk.specs.Entries.{step_of};
ghost use Rattle.esr_desk.specs.Listing.{page_of};
ghost use Rattle.esr_desk.specs.Start.{world_of};
ghost use Rattle.esr_repo.specs.Next.{IsLive, GoesOn, Did};

use crate::calls::refuse_call;
use crate::{Repo, Told};
use esr_depot::{Depot, Listing};
use esr_desk::{Answer, Entry, Step, StepRefusal};
use std::alloc::Global;

impl<D: Depot, K: Told> Repo<D, K> {
    /// A page of the blobs is listed by this step. The entry has a copy.
    pub fn call_list(
        &mut self,
        alloc: Global,
        who: u64,
        step: Step,
        after: Option<&str>,
    ) -> Result<Listing, StepRefusal>
        requires live { IsLive K.start self.old }
        requires is { step_of step ≡ ListStep (option_copied after) }
        requires goes { GoesOn K.start self.old who (step_of step) }
        requires may { ListsPage (world_of K.start self.old) who (option_copied after) }
        ensures step { Did K.start self.old self.new who (step_of step) (λ page. WasListed (page_of page)) result }
        ensures page { IfOk result (λ page. IsPage (option_copied after.entry) (page_of page)) }
    {
        Self::laws();
        if self.history.reserve(1).is_err() {
            drop(step);
            return Err(StepRefusal::Memory);
        }
        match self.depot.list(alloc, after) {
            Ok(pages) => {
                let answer = Answer::Listed { page: pages.copy };
                self.history.push_reserved(Entry { who, step, answer });
                Ok(pages.page)
            }
            Err(error) => Err(refuse_call(&mut self.history, who, step, error)),
        }
    }
}
