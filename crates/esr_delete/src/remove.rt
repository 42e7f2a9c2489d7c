//! The removal of doomed blobs, each once.
ghost use Rattle.std.specs.Prelude.{◌≡◌, ◌<◌, ◌≤◌, ◌↔◌, length, map, take, IfErr, IfOk, OnOk};
ghost use Rattle.std.specs.BTreeSet.{contains};
ghost use Rattle.esr_names.specs.declared.blob.BlobName.{BlobName as CodeName};
ghost use Rattle.esr_names.specs.Layout.{IsName};
ghost use Rattle.esr_formats.specs.Names.{name_of};
ghost use Rattle.esr_model.specs.Values.{Has};
ghost use Rattle.esr_reach.specs.Names.{AreOnce};
ghost use Rattle.esr_desk.specs.Calls.{HasTaken};
ghost use Rattle.esr_desk.specs.Start.{ticket_of};
ghost use Rattle.esr_desk.specs.Grew.{GrewBy};
ghost use Rattle.esr_delete.specs.Refused.{IsRemovalRefused};
ghost use Rattle.esr_delete.specs.Removed.{AreUnnamed, MayRemove, Removed, HasRemoved, borne_by, passed_by, IsSetOf, IsWith};

use esr_desk::{Desk, EntryRefusal, StepRefusal};
use esr_names::BlobName;
use esr_seq::Seq;
use std::alloc::{AllocError, Global};
use std::collections::BTreeSet;

/// Appends the name, unless it is there.
fn push_new(
    there: &mut BTreeSet<BlobName>,
    once: &mut Seq<BlobName>,
    name: BlobName,
) -> Result<(), AllocError>
    requires set { IsSetOf (contains ⟦<BlobName as Ord>⟧.cmp there.old) once.old }
    requires once { AreOnce (map name_of once.old) }
    ensures set { OnOk result (IsSetOf (contains ⟦<BlobName as Ord>⟧.cmp there.new) once.new) }
    ensures once { OnOk result (AreOnce (map name_of once.new)) }
    ensures with { OnOk result (IsWith once.old name once.new) }
{
    if there.contains(&name) {
        return Ok(());
    }
    there.insert(name)?;
    once.push(name)?;
    Ok(())
}

/// These names, each once.
pub fn distinct(alloc: Global, names: &[BlobName]) -> Result<Seq<BlobName>, AllocError>
    ensures same { IfOk result (λ ns. (name : CodeName) → Has ns name ↔ Has names.now name) }
    ensures once { IfOk result (λ ns. AreOnce (map name_of ns)) }
{
    let mut there = BTreeSet::new(alloc);
    let mut once = Seq::new(alloc);
    for name in names {
        push_new(&mut there, &mut once, *name)?;
    }
    Ok(once)
}

/// The answer of a removal, in which the container may have failed.
fn borne(answer: Result<(), StepRefusal>) -> Result<(), StepRefusal>
    ensures { result ≡ borne_by answer }
{
    match answer {
        Err(StepRefusal::Refused(EntryRefusal::DepotFault)) => Ok(()),
        _ => answer,
    }
}

/// The answer of a removal of a delete, in which the container may have failed; or of a cleanup, in which it hasn't.
fn passed(clean: bool, answer: Result<(), StepRefusal>) -> Result<(), StepRefusal>
    ensures { result ≡ passed_by clean answer }
{
    if clean { answer } else { borne(answer) }
}

/// Takes the first of these blobs away, at most 1,000, and answers how many. Where the container fails in it those of a delete
/// stay named.
fn remove_first<Q: Desk>(
    alloc: Global,
    desk: &mut Q,
    ticket: u64,
    clean: bool,
    names: &[BlobName],
) -> Result<usize, StepRefusal>
    requires mine { HasTaken (Q.calls desk.old) ticket }
    requires some { 0 < length names.now }
    requires layout { (name : CodeName) → Has names.now name → IsName name }
    requires may { MayRemove Q.start (ticket_of Q.start (Q.seen desk.old) ticket) (map name_of names.now) }
    requires new { AreUnnamed Q.start (Q.seen desk.old) ticket (map name_of names.now) }
    ensures some { IfOk result (λ n. 0 < n) }
    ensures within { IfOk result (λ n. n ≤ length names.now) }
    ensures removed { IfOk result (λ n. Removed clean Q.start (Q.seen desk.old) (Q.seen desk.new) ticket (map name_of (take n names.now))) }
    ensures own { ticket_of Q.start (Q.seen desk.new) ticket ≡ ticket_of Q.start (Q.seen desk.old) ticket }
    ensures refused { IfErr result (λ e. IsRemovalRefused clean Q.start (Q.seen desk.new) ticket e) }
    ensures grew { GrewBy Q.start ticket (Q.seen desk.old) (Q.seen desk.new) }
    ensures calls { Q.calls desk.new ≡ Q.calls desk.old }
{
    esr_core::refusals_are_of_their_steps();
    let count = names.len().min(1000);
    let batch = Seq::from_slice(alloc, &names[..count])?;
    passed(clean, desk.remove(alloc, ticket, &batch))?;
    Ok(count)
}

/// Takes these blobs away, each in one removal.
pub fn remove_all<Q: Desk>(
    alloc: Global,
    desk: &mut Q,
    ticket: u64,
    clean: bool,
    names: &[BlobName],
) -> Result<(), StepRefusal>
    requires mine { HasTaken (Q.calls desk.old) ticket }
    requires layout { (name : CodeName) → Has names.now name → IsName name }
    requires once { AreOnce (map name_of names.now) }
    requires may { MayRemove Q.start (ticket_of Q.start (Q.seen desk.old) ticket) (map name_of names.now) }
    requires new { AreUnnamed Q.start (Q.seen desk.old) ticket (map name_of names.now) }
    ensures removed { OnOk result (HasRemoved clean Q.start (Q.seen desk.old) (Q.seen desk.new) ticket (map name_of names.now)) }
    ensures own { ticket_of Q.start (Q.seen desk.new) ticket ≡ ticket_of Q.start (Q.seen desk.old) ticket }
    ensures refused { IfErr result (λ e. IsRemovalRefused clean Q.start (Q.seen desk.new) ticket e) }
    ensures grew { GrewBy Q.start ticket (Q.seen desk.old) (Q.seen desk.new) }
    ensures calls { Q.calls desk.new ≡ Q.calls desk.old }
{
    let mut rest = names;
    while !rest.is_empty() {
        let count = remove_first(alloc, desk, ticket, clean, rest)?;
        rest = &rest[count..];
    }
    Ok(())
}
