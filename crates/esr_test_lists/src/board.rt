//! A list of open ops, with what it is asked by: the root, the infos of its snapshots, the term and the next id.
ghost use Rattle.std.specs.Prelude.{◌≡◌, ◌<◌, ◌^◌, suc, map, nat_lt, not, IfOk};
ghost use Rattle.esr_model.specs.Kept.{first_id};
ghost use Rattle.esr_core.specs.Restores.{AreOnce};
ghost use Rattle.esr_formats.specs.Refs.{ref_of_code, AreApart};
ghost use Rattle.esr_formats.specs.Roots.{root_of};
ghost use Rattle.esr_ops.specs.Asked.{asked_of, IsAskable};
ghost use Rattle.esr_ops.specs.Plan.{kind_of_code};
ghost use Rattle.esr_test_lists.specs.Board.{IsStart, is_final, is_delete};

use crate::told::{say_id, say_ops};
use crate::trouble::{Done, Trouble};
use esr_accept::{
    accept, accept_cleanup, accept_delete, chosen, clonable, open_clone, open_restore, restorable,
};
use esr_formats::write_info;
use esr_memdepot::MemDepot;
use esr_names::{Id, IndexNames, IndexRef, IndexRefs, SnapName, SnapNames};
use esr_opening::{Opening, SnapInfos};
use esr_ops::{Accepted, Command, ReadyUnit, Refusal, Seat, SeatKind};
use esr_progress::Progress;
use esr_results::ShardResult;
use esr_root::RootData;
use esr_scenes::{one, say, say_bytes, say_number};
use esr_seq::{Text, TryClone};
use std::alloc::{AllocError, Global};
use std::marker::Model;

/// A list of open ops. Once it is `begun`, more than commands of snapshots was accepted.
#[derive(Drop)]
pub(crate) struct Board {
    list: Progress,
    root: RootData,
    infos: SnapInfos,
    safe: i64,
    term: u64,
    next: Id,
    begun: bool,
    /// At least as many tickets as were given.
    given: u64,
}

impl Model for Board {
    ghost use Rattle.std.specs.Prelude.{ℕ};
    ghost use Rattle.esr_formats.specs.Roots.{root_of};
    ghost use Rattle.esr_test_lists.specs.Board.{IsBoard};

    ghost Value = { ℕ };

    ghost view = { λ b. b.given };

    ghost invariant = { λ b. IsBoard b.list (root_of b.root) b.term b.next.number b.given b.begun };
}

/// Whether so many ops were accepted as in no case.
fn is_long(list: &Progress) -> bool
    ensures { result ≡ nat_lt 100000 list.now.next_op }
{
    100_000 < list.next_op()
}

/// Whether so many tickets were given, or terms begun, as in no case.
fn is_many(count: u64) -> bool
    ensures { result ≡ not (nat_lt count 4294967296) }
{
    count >= 1 << 32
}

/// Whether an id is of a later term.
fn is_past(term: u64, next: Id) -> bool
    requires { term < 2 ^ 63 }
    ensures { result ≡ not (nat_lt next.number (first_id (suc term))) }
{
    next.number >= Id::new(term + 1, 0).number
}

fn is_before(next: Id, other: Id) -> bool
    ensures { result ≡ nat_lt next.number other.number }
{
    next.number < other.number
}

/// Whether a ticket is of no finalization.
fn is_unfinal(kind: SeatKind) -> bool
    ensures { result ≡ not (is_final (kind_of_code kind)) }
{
    !matches!(kind, SeatKind::Finalize)
}

/// Whether a ticket is of no delete and no cleanup.
fn is_no_delete(kind: SeatKind) -> bool
    ensures { result ≡ not (is_delete (kind_of_code kind)) }
{
    !matches!(kind, SeatKind::Delete)
}

/// The list of a container that was opened, and the container.
pub(crate) fn board_of(opening: Opening<MemDepot>) -> Result<(Board, MemDepot), Trouble>
    requires { IsStart opening.progress (root_of opening.root) opening.next.number }
{
    let Opening {
        depot,
        cluster,
        root,
        infos,
        progress,
        next,
    } = opening;
    if is_many(cluster.term) {
        return Err(Trouble::Unread("no term is left"));
    }
    if is_past(cluster.term, next) {
        return Err(Trouble::Unread("no id is left"));
    }
    let board = Board {
        list: progress,
        root,
        infos,
        safe: cluster.safe,
        term: cluster.term,
        next,
        begun: false,
        given: 0,
    };
    Ok((board, depot))
}

/// Puts another list in the place of one.
fn renew(list: &mut Progress, new: Progress)
    ensures { list.new ≡ new }
{
    *list = new;
}

/// The one index that a snapshot has.
fn one_index(alloc: Global, indices: &[IndexRef]) -> Result<IndexRefs, Trouble>
    ensures { IfOk result (λ r. AreApart (map ref_of_code r)) }
{
    let [index] = indices else {
        return Err(Trouble::Unread("the snapshot has not one index"));
    };
    if index.shards == 0 || index.shards > 1024 {
        return Err(Trouble::Unread("no shards, or too many"));
    }
    Ok(one(alloc, index.try_clone(alloc)?)?)
}

impl Board {
    pub(crate) fn next_op(&self) -> u64 {
        self.list.next_op()
    }

    /// Says the text of the last info.
    fn say_last_info(&self, alloc: Global, said: &mut String) -> Result<(), AllocError> {
        if let [.., info] = self.infos.as_slice() {
            say_bytes(said, write_info(alloc, info)?.as_slice());
        }
        Ok(())
    }

    /// Says what is asked of an opened container, beside its record.
    pub(crate) fn say(
        &self,
        alloc: Global,
        what: &str,
        said: &mut String,
    ) -> Result<(), AllocError> {
        match what {
            "infos" => say_number(said, self.infos.len() as u64),
            "info" => self.say_last_info(alloc, said)?,
            "snapshots" => say_number(said, self.root.snapshots.as_slice().len() as u64),
            "term" => say_number(said, self.term),
            "next" => say_id(said, self.next),
            "next-op" => say_number(said, self.list.next_op()),
            "ops" => say_ops(said, self.list.record_ops(alloc)?.as_slice()),
            _ => say(said, "no such line of a list"),
        }
        Ok(())
    }

    /// The one index of a listed snapshot.
    fn index_of(&self, alloc: Global, uuid: Id) -> Result<IndexRefs, Trouble>
        ensures { IfOk result (λ r. AreApart (map ref_of_code r)) }
    {
        for info in self.infos.as_slice() {
            if info.uuid == uuid {
                return one_index(alloc, info.indices.as_slice());
            }
        }
        Err(Trouble::Unread("the snapshot has no info"))
    }

    /// The next id is a later one.
    pub(crate) fn skip_to(&mut self, next: Id) -> Done {
        if is_before(next, self.next) {
            return Err(Trouble::Unread("not a later id"));
        }
        if is_past(self.term, next) {
            return Err(Trouble::Unread("not an id of the term"));
        }
        self.next = next;
        Ok(())
    }

    /// The next term begins.
    pub(crate) fn elect(&mut self) -> Done {
        if is_many(self.term) {
            return Err(Trouble::Unread("no term is left"));
        }
        self.begun = true;
        self.term += 1;
        self.next = Id::new(self.term, 0);
        Ok(())
    }

    /// A snapshot is asked for.
    pub(crate) fn snapshot(&mut self, alloc: Global, command: &Command) -> Result<Accepted, Trouble>
        requires askable { IsAskable (asked_of command.now) }
    {
        if self.begun {
            return Err(Trouble::Unread("a snapshot is asked for before all else"));
        }
        if is_long(&self.list) {
            return Err(Trouble::Unread("too many ops"));
        }
        let next = self.next;
        let (list, accepted) = accept(&self.list, alloc, &self.root, self.term, next, command)?;
        let after = Id {
            number: next.number + u128::from(accepted.drawn),
        };
        renew(&mut self.list, list);
        self.next = after;
        Ok(accepted)
    }

    /// A clone is asked for: the uuid of its source.
    pub(crate) fn clonable(
        &self,
        source: &SnapName,
        name: &SnapName,
        names: &IndexNames,
    ) -> Result<Id, Refusal> {
        clonable(
            &self.list, &self.root, self.term, self.next, source, name, names,
        )
    }

    /// The indices that a clone of a listed snapshot takes, with no names or that one.
    fn taken(&self, alloc: Global, source: Id, names: &IndexNames) -> Result<IndexRefs, Trouble>
        requires once { AreOnce names.now }
        ensures { IfOk result (λ r. AreApart (map ref_of_code r)) }
    {
        let all = self.index_of(alloc, source)?;
        let taken = chosen(alloc, &all, names)?;
        Ok(taken)
    }

    /// A clone that no rule refuses is opened: of the index of its source, with no names or that one.
    pub(crate) fn open_clone(
        &mut self,
        alloc: Global,
        source: Id,
        name: &SnapName,
        names: &IndexNames,
    ) -> Done
        requires once { AreOnce names.now }
    {
        let next = self.next;
        let after = Id {
            number: next.number.saturating_add(1),
        };
        if is_long(&self.list) {
            return Err(Trouble::Unread("too many ops"));
        }
        if is_past(self.term, after) {
            return Err(Trouble::Unread("no id is left"));
        }
        let taken = self.taken(alloc, source, names)?;
        let list = open_clone(&self.list, alloc, next, source, name, &taken, 0)?;
        renew(&mut self.list, list);
        self.begun = true;
        self.next = after;
        Ok(())
    }

    /// The listed snapshot of a name, which may be restored.
    pub(crate) fn restorable(&self, name: &SnapName) -> Result<Id, Refusal> {
        restorable(&self.list, &self.root, name)
    }

    /// A restore that no rule refuses is opened.
    pub(crate) fn open_restore(&mut self, alloc: Global, uuid: Id, place: &Text) -> Done {
        if is_long(&self.list) {
            return Err(Trouble::Unread("too many ops"));
        }
        let indices = self.index_of(alloc, uuid)?;
        let list = open_restore(&self.list, alloc, uuid, place, &indices)?;
        renew(&mut self.list, list);
        self.begun = true;
        Ok(())
    }

    /// The op that a delete would go into.
    pub(crate) fn deletable(&self, alloc: Global, names: &SnapNames) -> Result<u64, Trouble> {
        if is_long(&self.list) {
            return Err(Trouble::Unread("too many ops"));
        }
        let (_list, op) = accept_delete(&self.list, alloc, &self.root, self.term, names)?;
        Ok(op)
    }

    /// A delete is asked for: the op that it goes into.
    pub(crate) fn delete(&mut self, alloc: Global, names: &SnapNames) -> Result<u64, Trouble> {
        if is_long(&self.list) {
            return Err(Trouble::Unread("too many ops"));
        }
        let (list, op) = accept_delete(&self.list, alloc, &self.root, self.term, names)?;
        renew(&mut self.list, list);
        self.begun = true;
        Ok(op)
    }

    /// A cleanup is asked for: its op.
    pub(crate) fn cleanup(&mut self, alloc: Global) -> Result<u64, Trouble> {
        if is_long(&self.list) {
            return Err(Trouble::Unread("too many ops"));
        }
        let (list, op) = accept_cleanup(&self.list, alloc)?;
        renew(&mut self.list, list);
        self.begun = true;
        Ok(op)
    }

    /// The next unit is given, where one is ready.
    pub(crate) fn take(&mut self, alloc: Global) -> Result<Option<ReadyUnit>, Trouble> {
        if is_many(self.given) {
            return Err(Trouble::Unread("too many tickets"));
        }
        let next = self
            .list
            .next_unit(alloc, &self.root, self.safe, self.term)?;
        let Some((list, unit)) = next else {
            return Ok(None);
        };
        renew(&mut self.list, list);
        self.begun = true;
        self.given += 1;
        Ok(Some(unit))
    }

    /// The shard of a ticket is done at a generation: three files of seven bytes.
    pub(crate) fn shard_done(&mut self, alloc: Global, ticket: u64, generation: Id) -> Done {
        let Some(
            Seat {
                kind: SeatKind::Shard { shard },
                ..
            },
        ) = self.list.seat(ticket)
        else {
            return Err(Trouble::Unread("not the ticket of a shard"));
        };
        let outcome = ShardResult {
            shard,
            generation,
            files: 3,
            bytes: 7,
        };
        let list = self.list.shard_done(alloc, ticket, &outcome)?;
        renew(&mut self.list, list);
        self.begun = true;
        Ok(())
    }

    /// A unit of a snapshot fails.
    pub(crate) fn unit_failed(&mut self, alloc: Global, ticket: u64) -> Done {
        let Some(_) = self.list.seat(ticket) else {
            return Err(Trouble::Unread("no ticket that is out"));
        };
        let list = self.list.unit_failed(alloc, self.term, ticket)?;
        renew(&mut self.list, list);
        self.begun = true;
        Ok(())
    }

    /// A delete or cleanup fails.
    pub(crate) fn delete_failed(&mut self, alloc: Global, ticket: u64) -> Done {
        let Some(_) = self.list.seat(ticket) else {
            return Err(Trouble::Unread("no ticket that is out"));
        };
        let list = self.list.delete_failed(alloc, self.term, ticket)?;
        renew(&mut self.list, list);
        self.begun = true;
        Ok(())
    }

    /// A ticket raises a generation.
    pub(crate) fn raised(&mut self, alloc: Global, ticket: u64, generation: u64) -> Done {
        let Some(_) = self.list.seat(ticket) else {
            return Err(Trouble::Unread("no ticket that is out"));
        };
        let list = self.list.raised(alloc, ticket, generation)?;
        renew(&mut self.list, list);
        self.begun = true;
        Ok(())
    }

    /// A finalization that raised a generation settles.
    pub(crate) fn settled(&mut self, alloc: Global, ticket: u64) -> Done {
        let Some(seat) = self.list.seat(ticket) else {
            return Err(Trouble::Unread("no such ticket"));
        };
        let Some(_generation) = seat.raised else {
            return Err(Trouble::Unread("no generation was raised"));
        };
        if is_unfinal(seat.kind) {
            return Err(Trouble::Unread("not a finalization"));
        }
        let list = self.list.finalized(alloc, ticket)?;
        renew(&mut self.list, list);
        self.begun = true;
        Ok(())
    }

    /// A delete or cleanup that raised a generation settles.
    pub(crate) fn delete_settled(&mut self, alloc: Global, ticket: u64) -> Done {
        let Some(seat) = self.list.seat(ticket) else {
            return Err(Trouble::Unread("no such ticket"));
        };
        let Some(_generation) = seat.raised else {
            return Err(Trouble::Unread("no generation was raised"));
        };
        if is_no_delete(seat.kind) {
            return Err(Trouble::Unread("not a delete"));
        }
        let list = self.list.delete_settled(alloc, ticket)?;
        renew(&mut self.list, list);
        self.begun = true;
        Ok(())
    }

    /// A ticket ends.
    pub(crate) fn ended(&mut self, alloc: Global, ticket: u64) -> Done {
        let Some(_) = self.list.seat(ticket) else {
            return Err(Trouble::Unread("no ticket that is out"));
        };
        let list = self.list.ended(alloc, ticket)?;
        renew(&mut self.list, list);
        self.begun = true;
        Ok(())
    }

    /// An op that failed or was aborted leaves, or a cleanup that is over.
    pub(crate) fn dropped(&mut self, alloc: Global, ticket: u64) -> Done {
        let Some(_) = self.list.seat(ticket) else {
            return Err(Trouble::Unread("no ticket that is out"));
        };
        let list = self.list.dropped(alloc, ticket)?;
        renew(&mut self.list, list);
        self.begun = true;
        Ok(())
    }

    /// A shard of a restore is restored, or fails.
    pub(crate) fn shard_read(&mut self, alloc: Global, ticket: u64) -> Done {
        let Some(_) = self.list.reader(ticket) else {
            return Err(Trouble::Unread("no ticket that is out"));
        };
        let list = self.list.shard_read(alloc, ticket)?;
        renew(&mut self.list, list);
        self.begun = true;
        Ok(())
    }
}
