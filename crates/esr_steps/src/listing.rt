//! The step that lists a page of the container's blobs.
ghost use Rattle.std.specs.Prelude.{◌≡◌, option_copied, IfOk, OnErr};
ghost use Rattle.esr_model.specs.Cleanup.{IsPage};
ghost use Rattle.esr_core.specs.Entry.{ListStep, WasListed};
ghost use Rattle.esr_core.specs.Steps.{listing};
ghost use Rattle.esr_desk.specs.Entries.{step_of};
ghost use Rattle.esr_desk.specs.Listing.{page_of};
ghost use Rattle.esr_desk.specs.Start.{ticket_of};
ghost use Rattle.esr_desk.specs.Once.{IsFresh};
ghost use Rattle.esr_desk.specs.Delete.Conditions.{CanList};
ghost use Rattle.esr_repo.specs.Next.{Did};

use esr_depot::{Depot, Listing};
use esr_desk::{Step, StepRefusal};
use esr_repo::{Repo, Told};
use esr_seq::Text;
use std::alloc::{AllocError, Global};

/// The step that lists what comes after this name, or from the first name on.
fn lists(alloc: Global, after: Option<&str>) -> Result<Step, AllocError>
    ensures { IfOk result (λ step. step_of step ≡ ListStep (option_copied after.entry)) }
{
    match after {
        None => Ok(Step::List { after: None }),
        Some(name) => {
            let after = Some(Text::from_str(alloc, name)?);
            Ok(Step::List { after })
        }
    }
}

/// A page of the container's blobs: the first 1,000 after this name, or from the first one on, in the byte order of their names.
pub fn list<D: Depot, K: Told>(
    repo: &mut Repo<D, K>,
    alloc: Global,
    ticket: u64,
    after: Option<&str>,
) -> Result<Listing, StepRefusal>
    requires may { CanList (ticket_of K.start repo.old ticket) (option_copied after) }
    requires new { IsFresh K.start repo.old ticket (ListStep (option_copied after)) }
    ensures step { Did K.start repo.old repo.new ticket (ListStep (option_copied after.entry)) (λ page. WasListed (page_of page)) result }
    ensures own { IfOk result (λ page. ticket_of K.start repo.new ticket
        ≡ listing (ticket_of K.start repo.old ticket) (page_of page)) }
    ensures page { IfOk result (λ page. IsPage (option_copied after.entry) (page_of page)) }
    ensures kept { OnErr result (ticket_of K.start repo.new ticket ≡ ticket_of K.start repo.old ticket) }
{
    repo.check(ticket, lists(alloc, after)?)?;
    let step = lists(alloc, after)?;
    repo.call_list(alloc, ticket, step, after)
}
