//! Which deletes are accepted.
ghost use Rattle.std.specs.Prelude.{◌≡◌, ◌<◌, ◌^◌, ◌&&◌, List, [], true, map, not, nat_lt, option_map, is_some, position, IfOk, OnOk};
ghost use Rattle.std.specs.FinMap as fin;
ghost use Rattle.esr_model.specs.Values.{Bytes};
ghost use Rattle.esr_core.specs.World.{World};
ghost use Rattle.esr_core.specs.Allowed.{open_count};
ghost use Rattle.esr_core.specs.Deletes.{with_uuid, named_uuids, first_delete, waiting_delete, running_delete, number_by, delete_opened, delete_merged, asked_delete};
ghost use Rattle.esr_formats.specs.Ids.{number_of};
ghost use Rattle.esr_formats.specs.Roots.{root_of, root_snap_of};
ghost use Rattle.esr_record.specs.Op.{AreUuids};
ghost use Rattle.esr_ops.specs.Plan.{IsPlanOf};
ghost use Rattle.esr_accept.specs.Asking.{open_cleanup, name_user};
ghost use Rattle.esr_accept.specs.AskedDeletes.{is_unused, uuids_named, copies, copying, reading, rule_on, waits_in, runs_in, is_joined, growing, aborts, aborted_by};
ghost use Rattle.esr_accept.specs.Accepting.{IsRuledOn, AcceptingDelete};

use crate::snapshot::{LIMIT, is_full, name_user, open_cleanup};
use esr_names::{Id, Ids, SnapName, SnapNames};
use esr_ops::{OpenDelete, OpenOp, OpenRestore, Refusal, names, push_new};
use esr_progress::{Progress, Tickets};
use esr_root::{RootData, RootSnap};
use esr_seq::{TryClone, copies_of};
use std::alloc::{AllocError, Global};

/// The list after a delete of the snapshots of these names was asked for, and the number of the op that it goes into: one
/// that waits takes them in, the running one of just these is joined, else it is the next op. What it names while that is
/// being made is aborted. The first rule that refuses the delete decides.
pub fn accept_delete(
    progress: &Progress,
    alloc: Global,
    root: &RootData,
    term: u64,
    names: &SnapNames,
) -> Result<(Progress, u64), Refusal>
    requires { progress.now.next_op < 2 ^ 62 }
    ensures { (w : World) → IsPlanOf w progress.now → w.root ≡ root_of root.now → w.term ≡ term → AcceptingDelete w names.now result }
{
    let uuids = named(progress, alloc, root, names)?;
    if let Some(refusal) = delete_refusal(progress, root, names, &uuids) {
        return Err(refusal);
    }
    let waiting = waiting_delete(progress, term);
    let running = running_delete(progress, root, term, &uuids);
    if lacks_room(progress, waiting, running) {
        return Err(Refusal::TooMany { limit: LIMIT });
    }
    let op = number_by(progress.next_op(), waiting, running);
    let after = asked_delete(progress, alloc, term, uuids, waiting, running)?;
    Ok((after, op))
}

/// The uuids of these names, each once, where it has one.
fn named(
    progress: &Progress,
    alloc: Global,
    root: &RootData,
    names: &SnapNames,
) -> Result<Ids, AllocError>
    ensures named { IfOk result (λ v. (w : World) → IsPlanOf w progress.now → w.root ≡ root_of root.now → map number_of v ≡ named_uuids w names.now) }
    ensures valid { IfOk result (AreUuids []) }
{
    let list = progress.lists();
    uuids_named(alloc, root, list.ops, names.as_slice())
}

/// The first rule on what it names that refuses a delete of these snapshots.
fn delete_refusal(
    progress: &Progress,
    root: &RootData,
    names: &SnapNames,
    uuids: &Ids,
) -> Option<Refusal>
    ensures { (w : World) → IsPlanOf w progress.now → w.root ≡ root_of root.now → map number_of uuids.now ≡ named_uuids w names.now → IsRuledOn w names.now result }
{
    let list = progress.lists();
    refusal(
        root,
        list.ops,
        list.deletes,
        list.restores,
        names.as_slice(),
        uuids.as_slice(),
    )
}

/// The lowest delete that waits.
fn waiting_delete(progress: &Progress, term: u64) -> Option<u64>
    ensures { (w : World) → IsPlanOf w progress.now → w.term ≡ term → result ≡ waiting_delete w }
{
    let list = progress.lists();
    waiting(list.deletes, list.tickets, term)
}

/// The running delete of just these snapshots.
fn running_delete(progress: &Progress, root: &RootData, term: u64, uuids: &Ids) -> Option<u64>
    ensures { (w : World) → IsPlanOf w progress.now → w.root ≡ root_of root.now → w.term ≡ term → result ≡ running_delete w (map number_of uuids.now) }
{
    let list = progress.lists();
    running(
        snaps_of(root),
        list.deletes,
        list.tickets,
        term,
        uuids.as_slice(),
    )
}

/// Whether a delete needs an op of its own and none may be opened.
fn lacks_room(progress: &Progress, waiting: Option<u64>, running: Option<u64>) -> bool
    ensures { (w : World) → IsPlanOf w progress.now → result ≡ (not (is_joined waiting running) && not (nat_lt (open_count w) 1000)) }
{
    if is_joined(waiting, running) {
        return false;
    }
    let list = progress.lists();
    is_full(list.ops, list.deletes)
}

/// The list after a delete of these snapshots, where this delete waits, or this one of just these runs.
fn asked_delete(
    progress: &Progress,
    alloc: Global,
    term: u64,
    uuids: Ids,
    waiting: Option<u64>,
    running: Option<u64>,
) -> Result<Progress, AllocError>
    requires room { progress.now.next_op < 2 ^ 62 }
    requires valid { AreUuids [] uuids }
    ensures { IfOk result (λ p. (w : World) (names : List Bytes) → IsPlanOf w progress.now → w.term ≡ term → map number_of uuids ≡ named_uuids w names
        → waiting ≡ waiting_delete w → running ≡ running_delete w (named_uuids w names) → IsPlanOf (asked_delete w names) p) }
{
    if let Some(number) = waiting {
        return merged(progress, alloc, term, number, uuids.as_slice());
    }
    if running.is_some() {
        return progress.copy(alloc);
    }
    with_delete(progress, alloc, term, uuids)
}

/// The list in which the delete of a number names these snapshots too.
fn merged(
    progress: &Progress,
    alloc: Global,
    term: u64,
    number: u64,
    uuids: &[Id],
) -> Result<Progress, AllocError>
    ensures { IfOk result (λ p. (w : World) (names : List Bytes) → IsPlanOf w progress.now → w.term ≡ term → map number_of uuids.now ≡ named_uuids w names
        → is_some (fin.get w.deletes number) ≡ true → IsPlanOf (delete_merged w names number (fin.get w.deletes number)) p) }
{
    let list = progress.lists();
    let ops = aborted_ops(alloc, list.ops, list.tickets, term, uuids, number)?;
    let deletes = grown_deletes(alloc, list.deletes, number, uuids)?;
    progress.with_lists(alloc, ops, deletes, list.next_op)
}

/// The list with a delete of these snapshots more.
fn with_delete(
    progress: &Progress,
    alloc: Global,
    term: u64,
    uuids: Ids,
) -> Result<Progress, AllocError>
    requires room { progress.now.next_op < 2 ^ 62 }
    requires valid { AreUuids [] uuids }
    ensures { IfOk result (λ p. (w : World) → IsPlanOf w progress.now → w.term ≡ term → IsPlanOf (delete_opened w (map number_of uuids)) p) }
{
    let list = progress.lists();
    let ops = aborted_ops(
        alloc,
        list.ops,
        list.tickets,
        term,
        uuids.as_slice(),
        list.next_op,
    )?;
    let mut deletes = copies_of(alloc, list.deletes)?;
    deletes.push(OpenDelete::new(list.next_op, uuids))?;
    progress.with_lists(alloc, ops, deletes, list.next_op + 1)
}

/// The first rule on what it names that refuses a delete of these snapshots.
fn refusal(
    root: &RootData,
    ops: &[OpenOp],
    deletes: &[OpenDelete],
    restores: &[OpenRestore],
    names: &[SnapName],
    uuids: &[Id],
) -> Option<Refusal>
    ensures { result ≡ rule_on (open_cleanup deletes.now) (position (is_unused (root_of root.now) ops.now) names.now) (copying ops.now (map number_of uuids.now)) (reading restores.now (map number_of uuids.now)) }
{
    if let Some(op) = open_cleanup(deletes) {
        return Some(Refusal::CleanupRunning { op });
    }
    if let Some(place) = first_unused(root, ops, names) {
        return Some(Refusal::NoSnapshot {
            place: place as u64,
        });
    }
    if let Some(op) = copying(ops, uuids) {
        return Some(Refusal::CloneRunning { op });
    }
    if let Some(op) = reading(restores, uuids) {
        return Some(Refusal::RestoreRunning { op });
    }
    None
}

/// The place of the first name that nothing has.
fn first_unused(root: &RootData, ops: &[OpenOp], names: &[SnapName]) -> Option<usize>
    ensures { result ≡ position (is_unused (root_of root.now) ops.now) names.now }
{
    names.iter().position(|name| is_unused(root, ops, name))
}

/// Whether neither a listed snapshot nor an open op has a name.
fn is_unused(root: &RootData, ops: &[OpenOp], name: &SnapName) -> bool
    ensures { result ≡ is_unused (root_of root.now) ops.now name.now }
{
    name_user(root, ops, name).is_none()
}

/// The uuids of these names, each once, where it has one.
fn uuids_named(
    alloc: Global,
    root: &RootData,
    ops: &[OpenOp],
    names: &[SnapName],
) -> Result<Ids, AllocError>
    ensures named { IfOk result (λ v. map number_of v ≡ uuids_named (root_of root.now) ops.now [] names.now) }
    ensures valid { IfOk result (AreUuids []) }
{
    let mut uuids = Ids::new(alloc);
    for name in names {
        add(&mut uuids, name_user(root, ops, name))?;
    }
    Ok(uuids)
}

/// Appends a uuid, where there is one that isn't among them.
fn add(uuids: &mut Ids, uuid: Option<Id>) -> Result<(), AllocError>
    ensures named { OnOk result (map number_of uuids.new ≡ with_uuid (map number_of uuids.old) (option_map number_of uuid)) }
    ensures valid { OnOk result (AreUuids [] uuids.old → AreUuids [] uuids.new) }
{
    let Some(one) = uuid else {
        return Ok(());
    };
    push_new(uuids, one)?;
    Ok(())
}

/// The number of the first op that copies one of these snapshots.
fn copying(ops: &[OpenOp], uuids: &[Id]) -> Option<u64>
    ensures { result ≡ copying ops.now (map number_of uuids.now) }
{
    for op in ops {
        if copies(op, uuids) {
            return Some(op.number());
        }
    }
    None
}

/// Whether an op copies one of these snapshots.
fn copies(op: &OpenOp, uuids: &[Id]) -> bool
    ensures { result ≡ copies (map number_of uuids.now) op.now.1.source }
{
    match op.source() {
        Some(source) => names(uuids, source),
        None => false,
    }
}

/// The number of the first restore that reads one of these snapshots.
fn reading(restores: &[OpenRestore], uuids: &[Id]) -> Option<u64>
    ensures { result ≡ reading restores.now (map number_of uuids.now) }
{
    for restore in restores {
        if names(uuids, restore.uuid()) {
            return Some(restore.number());
        }
    }
    None
}

/// The snapshots that a root lists.
fn snaps_of(root: &RootData) -> &[RootSnap]
    ensures { map root_snap_of result.now ≡ (root_of root.now).snapshots }
{
    root.snapshots.as_slice()
}

/// The number of the first delete that waits.
fn waiting(deletes: &[OpenDelete], tickets: &Tickets, term: u64) -> Option<u64>
    ensures { result ≡ first_delete (waits_in tickets.now term) deletes.now }
{
    for delete in deletes {
        if waits(tickets, term, delete) {
            return Some(delete.number());
        }
    }
    None
}

/// Whether a delete waits: it hasn't failed, and no ticket of the term has it.
fn waits(tickets: &Tickets, term: u64, delete: &OpenDelete) -> bool
    ensures { result ≡ waits_in tickets.now term delete.now }
{
    !delete.has_failed() && !tickets.op_is_taken(term, delete.number())
}

/// The number of the first delete that runs, and of whose snapshots just these are listed.
fn running(
    snaps: &[RootSnap],
    deletes: &[OpenDelete],
    tickets: &Tickets,
    term: u64,
    uuids: &[Id],
) -> Option<u64>
    ensures { result ≡ first_delete (runs_in (map root_snap_of snaps.now) tickets.now term (map number_of uuids.now)) deletes.now }
{
    for delete in deletes {
        if runs_for(snaps, tickets, term, uuids, delete) {
            return Some(delete.number());
        }
    }
    None
}

/// Whether a delete runs, and of its snapshots just these are listed.
fn runs_for(
    snaps: &[RootSnap],
    tickets: &Tickets,
    term: u64,
    uuids: &[Id],
    delete: &OpenDelete,
) -> bool
    ensures { result ≡ runs_in (map root_snap_of snaps.now) tickets.now term (map number_of uuids.now) delete.now }
{
    !delete.has_failed()
        && tickets.op_is_taken(term, delete.number())
        && delete.lists_just(snaps, uuids)
}

/// Whether an open delete takes it in.
fn is_joined(waiting: Option<u64>, running: Option<u64>) -> bool
    ensures { result ≡ is_joined waiting running }
{
    waiting.is_some() || running.is_some()
}

/// The number of the op that it goes into.
fn number_by(next: u64, waiting: Option<u64>, running: Option<u64>) -> u64
    ensures { result ≡ number_by next waiting running }
{
    match (waiting, running) {
        (Some(number), _) => number,
        (None, Some(number)) => number,
        (None, None) => next,
    }
}

/// A copy of the ops, in which a delete has aborted those that make one of these snapshots.
fn aborted_ops(
    alloc: Global,
    ops: &[OpenOp],
    tickets: &Tickets,
    term: u64,
    uuids: &[Id],
    by: u64,
) -> Result<Vec<OpenOp>, AllocError>
    ensures { IfOk result (λ v. v.items ≡ map (aborted_by tickets.now term (map number_of uuids.now) by) ops.now) }
{
    let mut copy = Vec::with_capacity(alloc, ops.len())?;
    for op in ops {
        copy.push(aborted(alloc, op, tickets, term, uuids, by)?)?;
    }
    Ok(copy)
}

/// A copy of an op, which a delete has aborted where that names it.
fn aborted(
    alloc: Global,
    op: &OpenOp,
    tickets: &Tickets,
    term: u64,
    uuids: &[Id],
    by: u64,
) -> Result<OpenOp, AllocError>
    ensures { IfOk result (λ o. o ≡ aborted_by tickets.now term (map number_of uuids.now) by op.now) }
{
    if aborts(op, tickets, term, uuids) {
        return op.aborted_by(alloc, by);
    }
    op.try_clone(alloc)
}

/// Whether an op makes one of these snapshots, no delete has aborted it before, and its finalization isn't out.
fn aborts(op: &OpenOp, tickets: &Tickets, term: u64, uuids: &[Id]) -> bool
    ensures { result ≡ aborts tickets.now term (map number_of uuids.now) op.now }
{
    names(uuids, op.uuid()) && !op.is_aborted() && !tickets.op_is_swapped(term, op.number())
}

/// A copy of the deletes, in which the one of a number names these snapshots too.
fn grown_deletes(
    alloc: Global,
    deletes: &[OpenDelete],
    number: u64,
    uuids: &[Id],
) -> Result<Vec<OpenDelete>, AllocError>
    ensures { IfOk result (λ v. v.items ≡ map (growing (map number_of uuids.now) number) deletes.now) }
{
    let mut copy = Vec::with_capacity(alloc, deletes.len())?;
    for delete in deletes {
        copy.push(grown(alloc, delete, number, uuids)?)?;
    }
    Ok(copy)
}

/// A copy of a delete, which names these snapshots too where it has the number.
fn grown(
    alloc: Global,
    delete: &OpenDelete,
    number: u64,
    uuids: &[Id],
) -> Result<OpenDelete, AllocError>
    ensures { IfOk result (λ d. d ≡ growing (map number_of uuids.now) number delete.now) }
{
    if delete.has_number(number) {
        return delete.grown(alloc, uuids);
    }
    delete.try_clone(alloc)
}
