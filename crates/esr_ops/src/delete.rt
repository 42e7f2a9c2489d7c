//! An open delete, or a cleanup.
ghost use Rattle.std.specs.Prelude.{◌≡◌, true, ◌==◌, ◌<◌, ◌≤◌, ◌^◌, ◌&&◌, ◌||◌, ◌++◌, [], Some, map, not, IfOk, OnOk};
ghost use Rattle.std.specs.List.{list_any, list_all, filter};
ghost use Rattle.esr_model.specs.Shelf.{names_uuid};
ghost use Rattle.esr_formats.specs.Ids.{number_of};
ghost use Rattle.esr_formats.specs.Roots.{root_snap_of};
ghost use Rattle.esr_core.specs.World.{deletion_work};
ghost use Rattle.esr_core.specs.Deletes.{with_uuid, is_listed_uuid, name_the_same};
ghost use Rattle.esr_formats.specs.Clusters.{op_of};
ghost use Rattle.esr_record.specs.Op.{AreUuids, IsWork, last_op};
ghost use Rattle.esr_ops.specs.Deletes.{deletion_entry, lies_between, between, IsDeleteWork, delete_kind, gives_cleanup, cleanup_begun, kept_delete, with_uuids, grown};
ghost use Rattle.esr_ops.specs.Inside.{numbers_of, Rise};

use crate::{SeatKind, Work};
use esr_names::{Id, Ids};
use esr_record::{OpWork, RecordOp, RecordOps};
use esr_root::RootSnap;
use esr_seq::TryClone;
use std::alloc::{AllocError, Global};
use std::marker::Model;

/// An open delete of the snapshots with these uuids, or a cleanup, by its number.
pub struct OpenDelete {
    number: u64,
    uuids: Ids,
    clean: bool,
    failed: bool,
}

impl Drop for OpenDelete {
    // Not derived: each crate above would prove a derived one again.
    fn drop(self) {
        let OpenDelete {
            number: _,
            uuids: _uuids,
            clean: _,
            failed: _,
        } = self;
    }
}

impl Model for OpenDelete {
    ghost use Rattle.std.specs.Prelude.{ℕ, []};
    ghost use Rattle.esr_core.specs.World.{Deletion};
    ghost use Rattle.esr_record.specs.Op.{AreUuids};
    ghost use Rattle.esr_ops.specs.Deletes.{deletion_with};

    ghost Value = { ℕ × Deletion };

    ghost view = { λ a. (a.number, deletion_with a.uuids a.clean a.failed) };

    ghost invariant = { λ a. AreUuids [] a.uuids };
}

impl OpenDelete {
    /// A delete of these snapshots that hasn't failed.
    pub fn new(number: u64, uuids: Ids) -> OpenDelete
        requires { AreUuids [] uuids }
        ensures { result ≡ (number, kept_delete (map number_of uuids)) }
    {
        OpenDelete {
            number,
            uuids,
            clean: false,
            failed: false,
        }
    }

    /// A cleanup that hasn't failed.
    pub fn cleanup(alloc: Global, number: u64) -> OpenDelete
        ensures { result ≡ (number, cleanup_begun) }
    {
        OpenDelete {
            number,
            uuids: Ids::new(alloc),
            clean: true,
            failed: false,
        }
    }

    /// Its number.
    pub fn number(&self) -> u64
        ensures { result ≡ self.now.0 }
    {
        self.number
    }

    /// Whether its number lies between two others.
    fn lies_between(&self, after: u64, before: u64) -> bool
        ensures { result ≡ lies_between after before self.now.0 }
    {
        after < self.number && self.number < before
    }

    /// Whether it is a cleanup.
    pub fn cleans(&self) -> bool
        ensures { result ≡ self.now.1.clean }
    {
        self.clean
    }

    /// Whether it names the snapshot with this uuid.
    pub fn names(&self, uuid: Id) -> bool
        ensures { result ≡ names_uuid self.now.1.uuids uuid.number }
    {
        names(self.uuids.as_slice(), uuid)
    }

    /// Whether it has this number.
    pub fn has_number(&self, number: u64) -> bool
        ensures { result ≡ (self.now.0 == number) }
    {
        self.number == number
    }

    /// Whether those of its snapshots that are listed are just these.
    pub fn lists_just(&self, snaps: &[RootSnap], uuids: &[Id]) -> bool
        ensures { result ≡ name_the_same (filter (is_listed_uuid (map root_snap_of snaps.now)) self.now.1.uuids) (map number_of uuids.now) }
    {
        list_the_same(snaps, self.uuids.as_slice(), uuids)
    }

    /// A copy that names these snapshots too.
    pub fn grown(&self, alloc: Global, uuids: &[Id]) -> Result<OpenDelete, AllocError>
        ensures { IfOk result (λ d. d ≡ (self.now.0, grown (map number_of uuids.now) self.now.1)) }
    {
        Ok(OpenDelete {
            number: self.number,
            uuids: with_uuids(alloc, self.uuids.as_slice(), uuids)?,
            clean: self.clean,
            failed: self.failed,
        })
    }

    /// The op as the cluster record tells it.
    pub fn record_op(&self, alloc: Global) -> Result<RecordOp, AllocError>
        ensures told { IfOk result (λ o. op_of o ≡ (self.now.0, deletion_work self.now.1)) }
        ensures valid { IfOk result (λ o. IsWork o.work) }
    {
        if self.clean {
            return Ok(RecordOp {
                op: self.number,
                work: OpWork::Cleanup,
            });
        }
        Ok(RecordOp {
            op: self.number,
            work: OpWork::Delete {
                uuids: Ids::from_slice(alloc, self.uuids.as_slice())?,
            },
        })
    }

    /// Whether it has failed.
    pub fn has_failed(&self) -> bool
        ensures { result ≡ self.now.1.failed }
    {
        self.failed
    }

    /// Its unit: that it leaves where it failed, else that its snapshots are deleted, or a cleanup.
    pub fn work(&self, alloc: Global) -> Result<Work, AllocError>
        ensures { IfOk result (IsDeleteWork self.now.1) }
    {
        if self.failed {
            return Ok(Work::Drop);
        }
        if self.clean {
            return Ok(Work::Cleanup);
        }
        Ok(Work::Delete {
            uuids: Ids::from_slice(alloc, self.uuids.as_slice())?,
        })
    }

    /// The kind of this unit.
    pub fn kind(&self) -> SeatKind
        ensures { result ≡ delete_kind self.now.1 }
    {
        if self.failed {
            return SeatKind::Drop;
        }
        SeatKind::Delete
    }

    /// Whether this unit is a cleanup.
    pub fn gives_cleanup(&self) -> bool
        ensures { result ≡ gives_cleanup self.now.1 }
    {
        !self.failed && self.clean
    }

    /// It fails.
    pub fn fail(&mut self)
        ensures { self.new ≡ (self.old.0, record self.old.1 { failed = true }) }
    {
        self.failed = true;
    }
}

impl TryClone for OpenDelete {
    fn try_clone(&self, alloc: Global) -> Result<OpenDelete, AllocError> {
        Ok(OpenDelete {
            number: self.number,
            uuids: Ids::from_slice(alloc, self.uuids.as_slice())?,
            clean: self.clean,
            failed: self.failed,
        })
    }
}

/// Whether an id is among them.
fn are_with(uuids: &[Id], uuid: Id) -> bool
    ensures { result ≡ list_any (λ id. id.number == uuid.number) uuids.now }
{
    uuids.iter().any(|id| *id == uuid)
}

/// Whether a delete of these snapshots names the one with this uuid.
pub fn names(uuids: &[Id], uuid: Id) -> bool
    ensures { result ≡ names_uuid (map number_of uuids.now) uuid.number }
{
    are_with(uuids, uuid)
}

/// Whether a snapshot of this uuid is among them.
fn stand_with(snaps: &[RootSnap], uuid: Id) -> bool
    ensures { result ≡ list_any (λ s. s.uuid.number == uuid.number) snaps.now }
{
    snaps.iter().any(|snap| snap.uuid == uuid)
}

/// Whether a root that lists these snapshots lists the one with this uuid.
fn is_listed(snaps: &[RootSnap], uuid: Id) -> bool
    ensures { result ≡ is_listed_uuid (map root_snap_of snaps.now) uuid.number }
{
    stand_with(snaps, uuid)
}

/// Whether each of these is listed, and one of the others.
fn are_listed_in(snaps: &[RootSnap], uuids: &[Id], all: &[Id]) -> bool
    ensures { result ≡ list_all (λ u. is_listed_uuid (map root_snap_of snaps.now) u.number && names_uuid (map number_of all.now) u.number) uuids.now }
{
    uuids
        .iter()
        .all(|uuid| is_listed(snaps, *uuid) && names(all, *uuid))
}

/// Whether each of these that is listed is one of the others.
fn listed_are_in(snaps: &[RootSnap], all: &[Id], uuids: &[Id]) -> bool
    ensures { result ≡ list_all (λ u. not (is_listed_uuid (map root_snap_of snaps.now) u.number) || names_uuid (map number_of uuids.now) u.number) all.now }
{
    all.iter()
        .all(|uuid| !is_listed(snaps, *uuid) || names(uuids, *uuid))
}

/// Whether those of some uuids that are listed are just the others.
fn list_the_same(snaps: &[RootSnap], all: &[Id], uuids: &[Id]) -> bool
    ensures { result ≡ name_the_same (filter (is_listed_uuid (map root_snap_of snaps.now)) (map number_of all.now)) (map number_of uuids.now) }
{
    are_listed_in(snaps, uuids, all) && listed_are_in(snaps, all, uuids)
}

/// A uuid has at most 128 bits.
fn rule(uuid: Id)
    ensures { uuid.number < 2 ^ 128 }
{
    let _number = uuid.number;
}

/// Appends a uuid that isn't among them.
pub fn push_new(uuids: &mut Ids, uuid: Id) -> Result<(), AllocError>
    ensures named { OnOk result (map number_of uuids.new ≡ with_uuid (map number_of uuids.old) (Some uuid.number)) }
    ensures valid { OnOk result (AreUuids [] uuids.old → AreUuids [] uuids.new) }
{
    rule(uuid);
    if names(uuids.as_slice(), uuid) {
        return Ok(());
    }
    uuids.push(uuid)?;
    Ok(())
}

/// A copy of some uuids, with those of the others that aren't among them.
fn with_uuids(alloc: Global, known: &[Id], uuids: &[Id]) -> Result<Ids, AllocError>
    requires { AreUuids [] known.now }
    ensures named { IfOk result (λ v. map number_of v ≡ with_uuids (map number_of known.now) (map number_of uuids.now)) }
    ensures valid { IfOk result (AreUuids []) }
{
    let mut all = Ids::from_slice(alloc, known)?;
    for uuid in uuids {
        push_new(&mut all, *uuid)?;
    }
    Ok(all)
}

/// Appends the deletes whose numbers lie between two others.
pub fn push_between(
    alloc: Global,
    ops: &mut RecordOps,
    deletes: &[OpenDelete],
    after: u64,
    before: u64,
) -> Result<(), AllocError>
    requires rise { Rise (numbers_of deletes.now) }
    requires last { last_op ops.old ≤ after }
    requires most { before ≤ 2 ^ 62 }
    ensures told { OnOk result (map op_of ops.new ≡ map op_of ops.old ++ map deletion_entry (between after before deletes.now)) }
    ensures last { OnOk result (after < before → last_op ops.new < before) }
{
    for delete in deletes {
        if delete.lies_between(after, before) {
            ops.push(delete.record_op(alloc)?)?;
        }
    }
    Ok(())
}
