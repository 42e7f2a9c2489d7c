//! The listing of a cleanup.
ghost use Rattle.std.specs.Prelude.{◌≡◌, IfErr, IfOk, option_copied};
ghost use Rattle.std.specs.BTreeSet.{contains};
ghost use Rattle.esr_model.specs.Cleanup.{last_text, is_short};
ghost use Rattle.esr_desk.specs.Calls.{HasTaken};
ghost use Rattle.esr_desk.specs.Listing.{page_of};
ghost use Rattle.esr_desk.specs.Start.{ticket_of};
ghost use Rattle.esr_desk.specs.Told.{TellsAll};
ghost use Rattle.esr_desk.specs.declared.hand.Hand.TheVariants.{Delete};
ghost use Rattle.esr_desk.specs.Evidence.{evidence};
ghost use Rattle.esr_unit.specs.Shown.{Shown};
ghost use Rattle.esr_delete.specs.Listing.{IsLister, IsWhole};
ghost use Rattle.esr_delete.specs.Went.{Went};

use esr_depot::{Listed, PAGE};
use esr_desk::{Desk, StepRefusal};
use esr_dooming::{DoomedNames, push_unreached};
use esr_names::BlobName;
use esr_seq::Seq;
use esr_unit::Trouble;
use std::alloc::Global;
use std::collections::BTreeSet;

/// The last name of a page.
fn last_name(page: &[Listed]) -> Option<&str>
    ensures { option_copied result ≡ last_text (page_of page.now) }
{
    match page.last() {
        Some(blob) => Some(blob.name.as_str()),
        None => None,
    }
}

/// The page ends the listing.
fn is_last(page: &[Listed]) -> bool
    ensures { result ≡ is_short (page_of page.now) }
{
    page.len() < PAGE
}

/// The names of the layout in the container that aren't reached: lists it page after page, each after the last name of the one
/// before, to the page that ends the listing. It gives up where no turn can be left.
pub fn list_unreached<Q: Desk>(
    alloc: Global,
    desk: &mut Q,
    ticket: u64,
    reached: &BTreeSet<BlobName>,
) -> Result<DoomedNames, Trouble<Q::Stage, Q::Fetch>>
    requires mine { HasTaken (Q.calls desk.old) ticket }
    requires may { IsLister (ticket_of Q.start (Q.seen desk.old) ticket) }
    requires tells { TellsAll Q.start (Q.seen desk.old) ticket }
    ensures ok { IfOk result (λ names. IsWhole (contains ⟦<BlobName as Ord>⟧.cmp reached.now) (ticket_of Q.start (Q.seen desk.old) ticket) (ticket_of Q.start (Q.seen desk.new) ticket) names) }
    ensures tells { IfOk result (λ names. TellsAll Q.start (Q.seen desk.new) ticket) }
    ensures trouble { IfErr result (Shown Delete (evidence Q.Stage.faults Q.Fetch.faults Q.Shard.faults Q.Target.faults Q.Shard.told Q.Target.told) ⊥ Q.start (Q.seen desk.new) ticket) }
    ensures went { Went Q.start (Q.seen desk.old) (Q.seen desk.new) ticket }
    ensures calls { Q.calls desk.new ≡ Q.calls desk.old }
{
    esr_core::refusals_are_of_their_steps();
    let mut names = DoomedNames::new(alloc);
    let mut page = Seq::new(alloc);
    let mut left: u64 = 1 << 33;
    while left > 0 {
        let last = last_name(page.as_slice());
        let next = desk.list(alloc, ticket, last)?;
        let blobs = next.as_slice();
        push_unreached(&mut names, reached, blobs)?;
        if is_last(blobs) {
            return Ok(names);
        }
        page = next;
        left -= 1;
    }
    Err(Trouble::Step(StepRefusal::TurnsSpent))
}
