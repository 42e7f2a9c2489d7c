//! Which unit is ready.
ghost use Rattle.std.specs.Prelude.{◌≡◌, ◌==◌, ◌<◌, ◌^◌, ℕ, suc, map, length, position, option_map, slice_get, slice_set, IfOk, IfSome, false, true, Some, None};
ghost use Rattle.std.specs.FinMap as fin;
ghost use Rattle.std.specs.List.{list_any};
ghost use Rattle.esr_model.specs.Image.{index_at, at_shard_of};
ghost use Rattle.esr_core.specs.World.{World};
ghost use Rattle.esr_formats.specs.Ids.{number_of};
ghost use Rattle.esr_formats.specs.Roots.{root_of};
ghost use Rattle.esr_formats.specs.Clusters.{count_of};
ghost use Rattle.esr_ops.specs.Plan.{IsGivenIn, IsPlanOf, seat_of_code, reader_of_code};
ghost use Rattle.esr_ops.specs.Inside.{numbers_of};
ghost use Rattle.esr_ops.specs.Ops.{IsMost, Among, IsDoneAt};
ghost use Rattle.esr_ops.specs.Units.{NextUnit, HasSnapReady, HasUnread, IsLowest, LowestUnit};
ghost use Rattle.esr_progress.specs.Based.{IsBased};
ghost use Rattle.esr_progress.specs.Choice.{is_going, goes_in, is_earliest, ready_of, IsFirstReady, IsPossible, IsWorkFor, IsSeatFor, IsBaseFor, given_entry, IsFirstUnread, given_restore, is_before, lower_of};

use crate::Progress;
use crate::next_delete::barred;
use crate::tickets::Tickets;
use esr_names::{Id, ShardId};
use esr_ops::{
    Copied, OpenDelete, OpenOp, OpenRestore, ReaderSeat, ReadyUnit, Seat, SeatKind, Work, later,
};
use esr_root::RootData;
use esr_seq::{TryClone, copies_of};
use std::alloc::{AllocError, Global};

/// What is ready of an op: the shard at a place, its finalization, or that it leaves.
#[derive(Clone, Copy)]
enum Kind {
    Shard(usize),
    Finalize,
    Drop,
}

impl Progress {
    /// The first ready unit of the lowest op, with the list in which its ticket is out; `None` exactly where no unit is ready. Only
    /// the unit of a shard has a base, or that of a clone's.
    pub fn next_unit(
        &self,
        alloc: Global,
        root: &RootData,
        safe: i64,
        term: u64,
    ) -> Result<Option<(Progress, ReadyUnit)>, AllocError>
        requires { self.now.next_ticket < 2 ^ 62 }
        ensures unit { IfOk result (λ o. (w : World) → IsGivenIn self.now (root_of root.now) (count_of safe) term w → NextUnit w o) }
        ensures base { IfOk result (λ o. IfSome o (λ next. IsBased next.1)) }
    {
        let op = self.ready_op(term);
        let delete = self.ready_delete(term);
        if comes_first(self.unread_restore(), lower(delete, op)) {
            return self.restore_unit(alloc, root, safe);
        }
        if comes_first(delete, op) {
            return self.delete_unit(alloc, root, safe, term);
        }
        self.op_unit(alloc, root, safe, term)
    }

    /// The number of the lowest snapshot of which a unit is ready.
    fn ready_op(&self, term: u64) -> Option<u64>
        ensures { (w : World) → IsPlanOf w self.now → w.term ≡ term → IsLowest (HasSnapReady w) result }
    {
        let Some((at, _kind)) = find_ready(
            &self.ops,
            &self.deletes,
            &self.completed,
            &self.tickets,
            &self.restores,
            term,
        ) else {
            return None;
        };
        Some(self.ops[at].number())
    }

    /// The number of the lowest restore of which a shard is unread.
    fn unread_restore(&self) -> Option<u64>
        ensures { (w : World) → IsPlanOf w self.now → IsLowest (HasUnread w) result }
    {
        let Some((at, _i)) = find_unread(&self.restores) else {
            return None;
        };
        Some(self.restores[at].number())
    }

    /// The first unread shard of the lowest restore.
    fn restore_unit(
        &self,
        alloc: Global,
        root: &RootData,
        safe: i64,
    ) -> Result<Option<(Progress, ReadyUnit)>, AllocError>
        requires room { self.now.next_ticket < 2 ^ 62 }
        ensures unit { IfOk result (λ o. (w : World) (term : ℕ) → IsGivenIn self.now (root_of root.now) (count_of safe) term w → LowestUnit (HasUnread w) w o) }
        ensures base { IfOk result (λ o. IfSome o (λ next. IsBased next.1)) }
    {
        let Some((at, i)) = find_unread(&self.restores) else {
            return Ok(None);
        };
        let restore = &self.restores[at];
        restore.rule();
        let shard = restore.shard(i);
        let ticket = self.tickets.next();
        let unit = ReadyUnit {
            ticket,
            op: restore.number(),
            copy: Copied {
                safe,
                root: root.try_clone(alloc)?,
                base: None,
            },
            work: restore.work(alloc, i)?,
        };
        let restores = given_restores(alloc, &self.restores, at, shard, ticket)?;
        Ok(Some((self.with_reader(alloc, restores, unit.op, shard)?, unit)))
    }

    /// A copy with these restores, of which one ticket more is out.
    fn with_reader(
        &self,
        alloc: Global,
        restores: Vec<OpenRestore>,
        op: u64,
        shard: ShardId,
    ) -> Result<Progress, AllocError>
        requires numbers { numbers_of restores.items ≡ numbers_of (fin.entries self.now.restores) }
        requires room { self.now.next_ticket < 2 ^ 62 }
        ensures { IfOk result (λ p. p ≡ record self.now {
          restores = fin.from_entries restores.items;
          readers = fin.insert self.now.readers self.now.next_ticket (reader_of_code (record { op = op; shard = shard }));
          next_ticket = suc self.now.next_ticket;
        }) }
    {
        let ops = copies_of(alloc, &self.ops)?;
        let deletes = copies_of(alloc, &self.deletes)?;
        let mut new = self.with_entries(alloc, ops, deletes, restores, self.next_op)?;
        new.tickets.give_reader(ReaderSeat { op, shard })?;
        Ok(new)
    }

    /// The first ready unit of the lowest snapshot.
    fn op_unit(
        &self,
        alloc: Global,
        root: &RootData,
        safe: i64,
        term: u64,
    ) -> Result<Option<(Progress, ReadyUnit)>, AllocError>
        requires room { self.now.next_ticket < 2 ^ 62 }
        ensures unit { IfOk result (λ o. (w : World) → IsGivenIn self.now (root_of root.now) (count_of safe) term w → LowestUnit (HasSnapReady w) w o) }
        ensures base { IfOk result (λ o. IfSome o (λ next. IsBased next.1)) }
    {
        let Some((at, kind)) = find_ready(
            &self.ops,
            &self.deletes,
            &self.completed,
            &self.tickets,
            &self.restores,
            term,
        ) else {
            return Ok(None);
        };
        let op = &self.ops[at];
        op.rule();
        let seat = seat_kind(op, kind);
        let ticket = self.tickets.next();
        let unit = ReadyUnit {
            ticket,
            op: op.number(),
            copy: Copied {
                safe,
                root: root.try_clone(alloc)?,
                base: base_of(root, &self.ops, seat),
            },
            work: work_of(alloc, op, kind)?,
        };
        let ops = given_ops(alloc, &self.ops, at, seat, ticket)?;
        Ok(Some((
            self.with_seat(alloc, ops, seat, unit.op, term, false)?,
            unit,
        )))
    }

    /// A copy with these ops, in which one ticket more is out.
    pub(crate) fn with_seat(
        &self,
        alloc: Global,
        ops: Vec<OpenOp>,
        kind: SeatKind,
        op: u64,
        term: u64,
        clean: bool,
    ) -> Result<Progress, AllocError>
        requires numbers { numbers_of ops.items ≡ numbers_of (fin.entries self.now.ops) }
        requires room { self.now.next_ticket < 2 ^ 62 }
        ensures { IfOk result (λ p. p ≡ record self.now {
          ops = fin.from_entries ops.items;
          seats = fin.insert self.now.seats self.now.next_ticket (seat_of_code (record { kind = kind; clean = clean; op = op; term = term; raised = None; settled = false }));
          next_ticket = suc self.now.next_ticket;
        }) }
    {
        let deletes = copies_of(alloc, &self.deletes)?;
        let restores = copies_of(alloc, &self.restores)?;
        let mut new = self.with_entries(alloc, ops, deletes, restores, self.next_op)?;
        new.tickets.give(Seat {
            kind,
            clean,
            op,
            term,
            raised: None,
            settled: false,
        })?;
        Ok(new)
    }
}

/// Whether the first number is there, and comes before the other where that is there.
fn comes_first(number: Option<u64>, other: Option<u64>) -> bool
    ensures { result ≡ is_before number other }
{
    match (number, other) {
        (None, _) => false,
        (Some(_), None) => true,
        (Some(number), Some(other)) => number < other,
    }
}

/// The lower of two numbers, or the one that is there.
pub(crate) fn lower(number: Option<u64>, other: Option<u64>) -> Option<u64>
    ensures { result ≡ lower_of number other }
{
    if comes_first(number, other) {
        return number;
    }
    other
}

/// The first restore with an unread shard, by its place, and the place of that shard.
fn find_unread(restores: &[OpenRestore]) -> Option<(usize, usize)>
    ensures { IsFirstUnread restores.now result }
{
    for (at, restore) in restores.iter().enumerate() {
        if let Some(i) = restore.first_unread() {
            return Some((at, i));
        }
    }
    None
}

/// A copy of the restores, in which the shard of the one at a place is given to the ticket.
fn given_restores(
    alloc: Global,
    restores: &[OpenRestore],
    at: usize,
    shard: ShardId,
    ticket: u64,
) -> Result<Vec<OpenRestore>, AllocError>
    requires { at < length restores.now }
    ensures { IfOk result (λ v. IfSome (slice_get restores.now at) (λ e. v.items ≡ slice_set restores.now at (given_restore shard ticket e))) }
{
    let mut copy = copies_of(alloc, restores)?;
    copy[at].give(shard, ticket);
    Ok(copy)
}

/// The first op with a ready unit, by its place, and which unit that is.
fn find_ready(
    ops: &[OpenOp],
    deletes: &[OpenDelete],
    completed: &[u64],
    tickets: &Tickets,
    restores: &[OpenRestore],
    term: u64,
) -> Option<(usize, Kind)>
    ensures { IsFirstReady ops.now deletes.now completed.now tickets.now restores.now term result }
{
    for (at, op) in ops.iter().enumerate() {
        if let Some(kind) = ready_of(ops, deletes, completed, tickets, restores, term, op) {
            return Some((at, kind));
        }
    }
    None
}

/// The ready unit of an op.
fn ready_of(
    ops: &[OpenOp],
    deletes: &[OpenDelete],
    completed: &[u64],
    tickets: &Tickets,
    restores: &[OpenRestore],
    term: u64,
    op: &OpenOp,
) -> Option<Kind>
    ensures { result ≡ ready_of ops.now deletes.now completed.now tickets.now restores.now term op.now }
{
    if op.has_stopped() {
        return (!tickets.unit_is_out(term, op.number())).then_some(Kind::Drop);
    }
    if barred(deletes, op.number()) {
        return None;
    }
    if let Some(at) = op.first_free(ops, restores) {
        return Some(Kind::Shard(at));
    }
    let is_final = op.is_done()
        && !tickets.swap_is_out(term)
        && is_earliest(ops, deletes, completed, op.number());
    is_final.then_some(Kind::Finalize)
}

/// Whether no other op that goes completed before the op of this number.
fn is_earliest(ops: &[OpenOp], deletes: &[OpenDelete], completed: &[u64], number: u64) -> bool
    ensures { result ≡ is_earliest ops.now deletes.now completed.now number }
{
    match place(completed, number) {
        Some(at) => !go(ops, deletes, &completed[..at]),
        None => true,
    }
}

/// Where a number stands.
fn place(numbers: &[u64], number: u64) -> Option<usize>
    ensures { result ≡ position (λ n. n == number) numbers.now }
{
    numbers.iter().position(|other| *other == number)
}

/// Whether an op of one of these numbers goes.
fn go(ops: &[OpenOp], deletes: &[OpenDelete], numbers: &[u64]) -> bool
    ensures { result ≡ list_any (goes_in ops.now deletes.now) numbers.now }
{
    numbers.iter().any(|number| goes(ops, deletes, *number))
}

/// Whether an op of this number goes, and no delete stands before it.
fn goes(ops: &[OpenOp], deletes: &[OpenDelete], number: u64) -> bool
    ensures { result ≡ goes_in ops.now deletes.now number }
{
    is_going(ops, number) && !barred(deletes, number)
}

/// Whether an op of this number is open that neither failed nor was aborted.
fn is_going(ops: &[OpenOp], number: u64) -> bool
    ensures { result ≡ is_going ops.now number }
{
    ops.iter()
        .any(|op| op.number() == number && !op.has_stopped())
}

/// What a unit of an op is to do.
fn work_of(alloc: Global, op: &OpenOp, kind: Kind) -> Result<Work, AllocError>
    requires { IsPossible op.now.1 kind }
    ensures { IfOk result (IsWorkFor op.now.1 kind) }
{
    match kind {
        Kind::Shard(at) => op.shard_work(alloc, at),
        Kind::Finalize => op.finalization(alloc),
        Kind::Drop => Ok(Work::Drop),
    }
}

/// The kind of a ticket's unit.
fn seat_kind(op: &OpenOp, kind: Kind) -> SeatKind
    requires { IsPossible op.now.1 kind }
    ensures { IsSeatFor op.now.1 kind result }
{
    match kind {
        Kind::Shard(at) => SeatKind::Shard {
            shard: op.shard(at),
        },
        Kind::Finalize => SeatKind::Finalize,
        Kind::Drop => SeatKind::Drop,
    }
}

/// The largest live generation of the shard that is given.
fn base_of(root: &RootData, ops: &[OpenOp], kind: SeatKind) -> Option<Id>
    ensures { IsBaseFor (root_of root.now) ops.now kind result }
{
    match kind {
        SeatKind::Shard { shard } => later(root_generation(root, shard), generation(ops, shard)),
        SeatKind::Finalize | SeatKind::Delete | SeatKind::Drop => None,
    }
}

/// The generation of a shard in the root, by the id of its index.
fn root_generation(root: &RootData, shard: ShardId) -> Option<Id>
    ensures { option_map number_of result ≡ at_shard_of (index_at (root_of root.now).indices shard.index.number) shard.number }
{
    for index in root.indices.as_slice() {
        if index.id == shard.index {
            return index.generations.get(shard.number);
        }
    }
    None
}

/// The largest generation at which an op has done the shard.
fn generation(ops: &[OpenOp], shard: ShardId) -> Option<Id>
    ensures { IsMost (Among ops.now (λ e. Among e.1.shards (IsDoneAt shard.index.number shard.number))) (option_map number_of result) }
{
    let mut most = None;
    for op in ops {
        most = later(most, op.generation(shard));
    }
    most
}

/// A copy of the ops, in which the shard of the op at a place is given to the ticket.
fn given_ops(
    alloc: Global,
    ops: &[OpenOp],
    at: usize,
    kind: SeatKind,
    ticket: u64,
) -> Result<Vec<OpenOp>, AllocError>
    requires { at < length ops.now }
    ensures { IfOk result (λ v. IfSome (slice_get ops.now at) (λ e. v.items ≡ slice_set ops.now at (given_entry kind ticket e))) }
{
    let mut copy = copies_of(alloc, ops)?;
    if let SeatKind::Shard { shard } = kind {
        copy[at].give(shard, ticket);
    }
    Ok(copy)
}
