//! Which clones are accepted.
ghost use Rattle.std.specs.Prelude.{◌≡◌, ◌==◌, ◌<◌, ◌++◌, ◌^◌, List, ℕ, Bool, [], suc, length, map, position, replicate, not, nat_lt, IfOk, OnOk, Option};
ghost use Rattle.std.specs.List.{list_any};
ghost use Rattle.esr_model.specs.Values.{Bytes};
ghost use Rattle.esr_model.specs.Kept.{first_id};
ghost use Rattle.esr_core.specs.World.{World};
ghost use Rattle.esr_core.specs.Restores.{AreOnce};
ghost use Rattle.esr_core.specs.After.{ref_by_name, and_ref, named_refs, chosen_refs, cloned_op, clone_opened};
ghost use Rattle.esr_core.specs.Generations.{OpTexts};
ghost use Rattle.esr_formats.specs.Refs.{ref_of_code, AreApart};
ghost use Rattle.esr_formats.specs.Roots.{root_of, root_index_of};
ghost use Rattle.esr_formats.specs.Formats.{formats};
ghost use Rattle.esr_record.specs.Op.{IsMaking};
ghost use Rattle.esr_ops.specs.Plan.{IsPlanOf, IsAskedIn};
ghost use Rattle.esr_accept.specs.Asking.{is_index_of, lacks_index, name_refusal, source_refusal, clone_begun};
ghost use Rattle.esr_accept.specs.Accepting.{Clonable};

use crate::restore::{deleting, listed};
use crate::snapshot::{LIMIT, is_full, name_user, open_cleanup, shards};
use esr_formats::making_can_be_written;
use esr_names::{Id, IndexName, IndexNames, IndexRef, IndexRefs, SnapName};
use esr_ops::{OpenOp, Refusal, names};
use esr_progress::Progress;
use esr_record::Making;
use esr_root::{RootData, RootIndex};
use esr_seq::{Seq, Text, TryClone};
use std::alloc::{AllocError, Global};

/// The listed snapshot of a name, of which these indices may be cloned under another name. The first rule that refuses it
/// decides.
pub fn clonable(
    progress: &Progress,
    root: &RootData,
    term: u64,
    next: Id,
    source: &SnapName,
    name: &SnapName,
    indices: &IndexNames,
) -> Result<Id, Refusal>
    requires in_term { next.number < first_id (suc term) }
    requires term { term < 2 ^ 63 }
    ensures { (w : World) → IsAskedIn progress.now (root_of root.now) term next.number w → Clonable w source.now name.now indices.now result }
{
    let list = progress.lists();
    let user = name_user(root, list.ops, name);
    if let Some(refusal) = name_refusal(open_cleanup(list.deletes), user) {
        return Err(refusal);
    }
    let Some(uuid) = listed(root, source) else {
        return Err(Refusal::NoSnapshot { place: 0 });
    };
    let missing = first_missing(root, uuid, indices.as_slice());
    if let Some(refusal) = source_refusal(deleting(list.deletes, uuid), missing) {
        return Err(refusal);
    }
    if is_full(list.ops, list.deletes) {
        return Err(Refusal::TooMany { limit: LIMIT });
    }
    if is_last(term, next) {
        return Err(Refusal::IdsSpent { next });
    }
    Ok(uuid)
}

/// The list with a clone more, as the next op: its uuid is the next id, and it makes these indices of the snapshot.
pub fn open_clone(
    progress: &Progress,
    alloc: Global,
    next: Id,
    source: Id,
    name: &SnapName,
    indices: &IndexRefs,
    moment: u64,
) -> Result<Progress, AllocError>
    requires apart { AreApart (map ref_of_code indices.now) }
    requires room { progress.now.next_op < 2 ^ 62 }
    ensures plan { IfOk result (λ p. (w : World) → IsPlanOf w progress.now → w.next_id ≡ next.number → IsPlanOf (clone_opened w name.now moment (record { source = source.number; indices = map ref_of_code indices.now })) p) }
    ensures texts { IfOk result (λ p. (w : World) → w.next_id ≡ next.number → (known : Bytes → Bytes → ℕ → Bool) (told : Bytes → Bytes → ℕ → Option (List (Bytes × Bytes)))
        → OpTexts (formats known told) (cloned_op w name.now moment (record { source = source.number; indices = map ref_of_code indices.now }))) }
{
    let making = Making {
        indices: indices.try_clone(alloc)?,
        moment,
        name: name.try_clone(alloc)?,
        uuid: next,
    };
    making_can_be_written(&making);
    let op = begin_clone(alloc, progress.next_op(), making, source)?;
    progress.with_op(alloc, op)
}

/// The indices that a clone takes of a snapshot that has these: the named ones in the order of their names, all where none is
/// named.
pub fn chosen(alloc: Global, all: &IndexRefs, names: &IndexNames) -> Result<IndexRefs, AllocError>
    requires apart { AreApart (map ref_of_code all.now) }
    requires once { AreOnce names.now }
    ensures chosen { IfOk result (λ refs. map ref_of_code refs ≡ chosen_refs (map ref_of_code all.now) names.now) }
    ensures apart { IfOk result (λ refs. AreApart (map ref_of_code refs)) }
{
    if takes_all(names) {
        return all.try_clone(alloc);
    }
    named(alloc, all.as_slice(), names.as_slice())
}

/// Whether a clone takes all indices: none is named.
fn takes_all(names: &IndexNames) -> bool
    ensures { result ≡ (length names.now == 0) }
{
    names.is_empty()
}

/// Those of some indices that have these names, in the order of the names.
fn named(alloc: Global, all: &[IndexRef], names: &[IndexName]) -> Result<IndexRefs, AllocError>
    ensures { IfOk result (λ refs. map ref_of_code refs ≡ named_refs (map ref_of_code all.now) names.now) }
{
    let mut refs = IndexRefs::new(alloc);
    for name in names {
        push_named(alloc, &mut refs, all, name)?;
    }
    Ok(refs)
}

/// Appends a copy of the first of some indices that has the name, where one has.
fn push_named(
    alloc: Global,
    refs: &mut IndexRefs,
    all: &[IndexRef],
    name: &IndexName,
) -> Result<(), AllocError>
    ensures { OnOk result (map ref_of_code refs.new ≡ map ref_of_code refs.old ++ and_ref (ref_by_name (map ref_of_code all.now) name.now) []) }
{
    for index in all {
        if index.name == *name {
            refs.push(index.try_clone(alloc)?)?;
            return Ok(());
        }
    }
    Ok(())
}

/// The first rule on its name that refuses a clone.
fn name_refusal(cleanup: Option<u64>, user: Option<Id>) -> Option<Refusal>
    ensures { result ≡ name_refusal cleanup user }
{
    if let Some(op) = cleanup {
        return Some(Refusal::CleanupRunning { op });
    }
    if let Some(uuid) = user {
        return Some(Refusal::NameInUse { uuid });
    }
    None
}

/// The first rule on its source that refuses a clone.
fn source_refusal(deleting: Option<u64>, missing: Option<usize>) -> Option<Refusal>
    ensures { result ≡ source_refusal deleting missing }
{
    if let Some(op) = deleting {
        return Some(Refusal::BeingDeleted { op });
    }
    if let Some(place) = missing {
        return Some(Refusal::NoIndex {
            place: place as u64,
        });
    }
    None
}

/// Whether an id is the last of the term, so that none is left after it.
fn is_last(term: u64, next: Id) -> bool
    requires in_term { next.number < first_id (suc term) }
    requires term { term < 2 ^ 63 }
    ensures { result ≡ not (nat_lt (suc next.number) (first_id (suc term))) }
{
    next.number + 1 >= Id::new(term + 1, 0).number
}

/// The place of the first name of which the snapshot has no index.
fn first_missing(root: &RootData, uuid: Id, names: &[IndexName]) -> Option<usize>
    ensures { result ≡ position (lacks_index (root_of root.now).indices uuid.number) names.now }
{
    names
        .iter()
        .position(|name| lacks_index(root.indices.as_slice(), uuid, name))
}

/// Whether a snapshot has no index of this name.
fn lacks_index(indices: &[RootIndex], uuid: Id, name: &IndexName) -> bool
    ensures { result ≡ lacks_index (map root_index_of indices.now) uuid.number name.now }
{
    !has_index(indices, uuid, name)
}

/// Whether one of these indices has this name and the snapshot.
fn has_index(indices: &[RootIndex], uuid: Id, name: &IndexName) -> bool
    ensures { result ≡ list_any (λ x. is_index_of uuid.number name.now (root_index_of x)) indices.now }
{
    indices.iter().any(|index| is_index_of(index, uuid, name))
}

/// Whether an index has this name and the snapshot.
fn is_index_of(index: &RootIndex, uuid: Id, name: &IndexName) -> bool
    ensures { result ≡ is_index_of uuid.number name.now (root_index_of index.now) }
{
    index.name == *name && names(index.snapshots.as_slice(), uuid)
}

/// The op that makes a snapshot of these indices of another one, with no shard begun.
fn begin_clone(alloc: Global, number: u64, making: Making, source: Id) -> Result<OpenOp, AllocError>
    requires valid { IsMaking making }
    requires apart { AreApart (map ref_of_code making.indices) }
    ensures { IfOk result (λ op. op ≡ (number, clone_begun making source.number)) }
{
    let places = no_places(alloc, making.indices.len())?;
    let shards = shards(alloc, making.indices.as_slice())?;
    Ok(OpenOp::new(number, making, places, shards, Some(source)))
}

/// So many empty places: the files of a clone are at none.
fn no_places(alloc: Global, count: usize) -> Result<Seq<Text>, AllocError>
    ensures { IfOk result (λ v. v ≡ replicate count []) }
{
    let mut places = Seq::with_capacity(alloc, count)?;
    for _ in 0..count {
        places.push(Text::new(alloc))?;
    }
    Ok(places)
}
