//! The steps that each hand makes: it fetches a blob, and tells that it failed.
ghost use Rattle.std.specs.Prelude.{◌≡◌, ◌<◌, ◌^◌, length, true, IsTrue, IfOk, IfSome, OnOk, OnErr};
ghost use Rattle.esr_model.specs.Values.{Bytes};
ghost use Rattle.esr_core.specs.Entry.{HasEnded};
ghost use Rattle.esr_names.specs.Layout.{IsName};
ghost use Rattle.esr_formats.specs.Names.{name_of};
ghost use Rattle.esr_desk.specs.Entries.{why_of, step_of};
ghost use Rattle.esr_desk.specs.Start.{world_of};
ghost use Rattle.esr_desk.specs.Own.{own_of};
ghost use Rattle.esr_desk.specs.Once.{IsFresh};
ghost use Rattle.esr_desk.specs.Outcome.{fetch_reply};
ghost use Rattle.esr_desk.specs.Conditions.{Holds};
ghost use Rattle.esr_desk.specs.Hands.{fetch_step, fail_step, MayFetch, MayFail, own_fetched, own_failed};
ghost use Rattle.esr_repo.specs.Next.{IsLive, Did};
ghost use Rattle.esr_steps.specs.Hands.{IsPlanAfter};

use esr_depot::{Depot, Fetch};
use esr_desk::{Answer, Hand, Prune, Read, Step, StepRefusal, Why};
use esr_names::BlobName;
use esr_progress::Progress;
use esr_repo::{Repo, Told, entries_tell_the_caller};
use std::alloc::{AllocError, Global};

/// The step by which a hand fetches a blob.
fn fetches(hand: Hand, name: BlobName) -> Step
    ensures { step_of result ≡ fetch_step hand (name_of name) }
{
    match hand {
        Hand::Unit => Step::Fetch { name },
        Hand::Delete => {
            let prune = Prune::Shard { name };
            Step::Prune { prune }
        }
        Hand::Restore => {
            let read = Read::Blob { name };
            Step::Read { read }
        }
        Hand::Check => {
            let read = Read::Blob { name };
            Step::Read { read }
        }
        Hand::Verify => {
            let read = Read::Blob { name };
            Step::Read { read }
        }
    }
}

/// The step by which a hand tells that it failed.
fn fails(hand: Hand, why: Why) -> Step
    ensures { step_of result ≡ fail_step hand (why_of why) }
{
    match hand {
        Hand::Unit => Step::Failed { why },
        Hand::Delete => {
            let prune = Prune::Failed { why };
            Step::Prune { prune }
        }
        Hand::Restore => {
            let read = Read::Failed { why };
            Step::Read { read }
        }
        Hand::Check => {
            let read = Read::Failed { why };
            Step::Read { read }
        }
        Hand::Verify => {
            let read = Read::Failed { why };
            Step::Read { read }
        }
    }
}

/// The blob of that name, to be read from its first byte, or `None` where there is none.
pub fn fetch<D: Depot, K: Told>(
    repo: &mut Repo<D, K>,
    alloc: Global,
    hand: Hand,
    who: u64,
    name: BlobName,
) -> Result<Option<D::Fetch>, StepRefusal>
    requires layout { IsName name }
    requires may { MayFetch hand K.start repo.old who (name_of name) }
    requires new { IsFresh K.start repo.old who (fetch_step hand (name_of name)) }
    ensures step { Did K.start repo.old repo.new who (fetch_step hand (name_of name)) fetch_reply result }
    ensures own { IfOk result (λ o. own_of K.start repo.new who
        ≡ own_fetched hand D.Fetch.left (name_of name) o (own_of K.start repo.old who)) }
    ensures told { IfOk result (λ o. IfSome o (λ f. (bytes : Bytes) × Holds K.start (D.Fetch.left f) bytes)) }
    ensures count { IfOk result (λ o. IfSome o (λ f. D.Fetch.faults f ≡ 0)) }
    ensures sure { IfOk result (λ o. IfSome o (λ f. K.start.quiet ≡ true → length repo.old < 2 ^ 41 → IsTrue (D.Fetch.is_sure f))) }
    ensures kept { OnErr result (own_of K.start repo.new who ≡ own_of K.start repo.old who) }
{
    entries_tell_the_caller();
    repo.rules();
    repo.check(who, fetches(hand, name))?;
    repo.rules();
    repo.call_fetch(alloc, who, fetches(hand, name), name)
}

/// The list of ops after a hand failed; a check and a verification have no op.
fn failed<D: Depot, K: Told>(
    repo: &Repo<D, K>,
    alloc: Global,
    hand: Hand,
    who: u64,
) -> Result<Option<Progress>, AllocError>
    requires live { IsLive K.start repo.now }
    requires may { MayFail hand K.start repo.now who }
    ensures { IfOk result (λ p. IsPlanAfter hand (world_of K.start repo.now) who p) }
{
    match hand {
        Hand::Unit => Ok(Some(repo.plan().unit_failed(alloc, repo.term(), who)?)),
        Hand::Delete => Ok(Some(repo.plan().delete_failed(alloc, repo.term(), who)?)),
        Hand::Restore => Ok(Some(repo.plan().shard_read(alloc, who)?)),
        Hand::Check => Ok(None),
        Hand::Verify => Ok(None),
    }
}

/// A unit, a check or a verification failed, and ends.
pub fn fail<D: Depot, K: Told>(
    repo: &mut Repo<D, K>,
    alloc: Global,
    hand: Hand,
    who: u64,
    why: Why,
) -> Result<(), StepRefusal>
    requires may { MayFail hand K.start repo.old who }
    ensures step { Did K.start repo.old repo.new who (fail_step hand (why_of why)) (λ _. HasEnded) result }
    ensures own { OnOk result (own_of K.start repo.new who ≡ own_failed hand (own_of K.start repo.old who)) }
    ensures kept { OnErr result (own_of K.start repo.new who ≡ own_of K.start repo.old who) }
{
    entries_tell_the_caller();
    repo.check(who, fails(hand, why))?;
    repo.rules();
    let progress = failed(repo, alloc, hand, who)?;
    let next = repo.next_id();
    repo.note(who, fails(hand, why), Answer::Ended, progress, next)
}
