//! The parts of a file, read back one after another.
ghost use Rattle.std.specs.Prelude.{◌≡◌, ◌+◌, ◌<◌, ◌≤◌, ◌^◌, [], IfOk, IfErr, OnOk, IsSomeAnd, length};
ghost use Rattle.esr_hash.specs.Fed.{fed_count, HasFed};
ghost use Rattle.esr_core.specs.Entry.{ReadBlob, ReadStep};
ghost use Rattle.esr_names.specs.Layout.{IsName};
ghost use Rattle.esr_formats.specs.Names.{name_of};
ghost use Rattle.esr_shardidx.specs.Entries.{IsEntry};
ghost use Rattle.esr_desk.specs.Calls.{HasTaken};
ghost use Rattle.esr_desk.specs.Once.{IsFresh};
ghost use Rattle.esr_desk.specs.Own.{reader_of};
ghost use Rattle.esr_desk.specs.Made.{ReadsOnly};
ghost use Rattle.esr_desk.specs.Restore.Conditions.{CanRead};
ghost use Rattle.esr_restore.specs.Parts.{ReadPart, ReadParts};
ghost use Rattle.esr_restore.specs.Unread.{AreUnread, IsPartOf};
ghost use Rattle.esr_restore.specs.Snapped.{IsAt, IsListed};
ghost use Rattle.esr_desk.specs.Evidence.{evidence};
ghost use Rattle.esr_restore.specs.Trouble.{IsTrouble};
ghost use Rattle.esr_restore.specs.Went.{Went};

use crate::job::Job;
use crate::snap::fetch;
use esr_desk::Desk;
use esr_hash::Hasher;
use esr_names::BlobName;
use esr_parts::{BackError, Extent, part_plan, read_back};
use esr_shardidx::{FileEntry, part_count, part_name};
use esr_source::Target;
use esr_unit::Trouble;
use std::alloc::Global;

/// A part of a file: the name of its blob, and how many bytes it is to have.
#[derive(Clone, Copy)]
struct Part {
    name: BlobName,
    size: u64,
}

/// Reads a part for the file that is begun, and hashes what it reads. It answers whether the part has exactly the size that
/// is stated.
fn read_part<Q: Desk>(
    alloc: Global,
    desk: &mut Q,
    ticket: u64,
    part: Part,
    target: &mut Q::Target,
    hasher: &mut Hasher,
    buf: &mut [u8],
) -> Result<bool, Trouble<Q::Stage, Q::Fetch>>
    requires mine { HasTaken (Q.calls desk.old) ticket }
    requires layout { IsName part.name }
    requires may { CanRead Q.start (reader_of Q.start (Q.seen desk.old) ticket) (name_of part.name) }
    requires room { IsSomeAnd (Q.Target.told target.old).begun (λ b. part.size ≤ b.room) }
    requires bound { fed_count hasher.old + part.size + 1 < 2 ^ 61 }
    requires buffer { 0 < length buf.old }
    requires new { IsFresh Q.start (Q.seen desk.old) ticket (ReadStep (ReadBlob (name_of part.name))) }
    ensures buffer { length buf.new ≡ length buf.old }
    ensures read { IfOk result (ReadPart Q.start (reader_of Q.start (Q.seen desk.new) ticket) hasher.old hasher.new (Q.Target.told target.old).begun (Q.Target.told target.new).begun (name_of part.name) part.size) }
    ensures files { (Q.Target.told target.new).files ≡ (Q.Target.told target.old).files }
    ensures steady { OnOk result (Q.Target.faults target.new ≡ Q.Target.faults target.old) }
    ensures made_for { (Q.Target.told target.new).made_for ≡ (Q.Target.told target.old).made_for }
    ensures is_sure { (Q.Target.told target.new).is_sure ≡ (Q.Target.told target.old).is_sure }
    ensures reads { IfOk result (λ w. ReadsOnly Q.start (Q.seen desk.old) (Q.seen desk.new) ticket (λ n. n ≡ name_of part.name)) }
    ensures trouble { IfErr result (IsTrouble (evidence Q.Stage.faults Q.Fetch.faults Q.Shard.faults Q.Target.faults Q.Shard.told Q.Target.told) (Q.Target.faults target.new) (Q.Target.told target.new).is_sure Q.start (Q.seen desk.new) ticket) }
    ensures went { Went Q.start (Q.seen desk.old) (Q.seen desk.new) ticket }
    ensures calls { Q.calls desk.new ≡ Q.calls desk.old }
{
    let mut blob = fetch(alloc, desk, ticket, part.name)?;
    match read_back(&mut blob, target, hasher, part.size, buf) {
        Ok(Extent::Whole) => Ok(true),
        Ok(Extent::Short) => Ok(false),
        Ok(Extent::Long) => Ok(false),
        Err(BackError::Fetch) => Err(Trouble::Fetch { fetch: blob }),
        Err(BackError::Target) => Err(Trouble::Own),
    }
}

/// Reads the parts of the file that is begun, and hashes what it reads. It answers whether each has exactly the size that is
/// stated.
pub fn read_parts<Q: Desk>(
    alloc: Global,
    desk: &mut Q,
    job: Job,
    entry: &FileEntry,
    target: &mut Q::Target,
    hasher: &mut Hasher,
    buf: &mut [u8],
) -> Result<bool, Trouble<Q::Stage, Q::Fetch>>
    requires mine { HasTaken (Q.calls desk.old) job.ticket }
    requires at { IsAt (reader_of Q.start (Q.seen desk.old) job.ticket) job.at.index.number job.at.number job.uuid.number }
    requires few { job.at.number < 1024 }
    requires entry { IsEntry entry.now }
    requires listed { IsListed Q.start (reader_of Q.start (Q.seen desk.old) job.ticket) entry.now }
    requires room { IsSomeAnd (Q.Target.told target.old).begun (λ b. b.room ≡ entry.now.print.len) }
    requires fresh { HasFed hasher.old [] }
    requires buffer { 0 < length buf.old }
    requires new { AreUnread Q.start (Q.seen desk.old) job.ticket (IsPartOf job.at entry.now) }
    ensures buffer { length buf.new ≡ length buf.old }
    ensures read { IfOk result (ReadParts Q.start (reader_of Q.start (Q.seen desk.new) job.ticket) hasher.new (Q.Target.told target.old).begun (Q.Target.told target.new).begun job.at entry.now) }
    ensures files { (Q.Target.told target.new).files ≡ (Q.Target.told target.old).files }
    ensures steady { OnOk result (Q.Target.faults target.new ≡ Q.Target.faults target.old) }
    ensures made_for { (Q.Target.told target.new).made_for ≡ (Q.Target.told target.old).made_for }
    ensures is_sure { (Q.Target.told target.new).is_sure ≡ (Q.Target.told target.old).is_sure }
    ensures reads { IfOk result (λ e. ReadsOnly Q.start (Q.seen desk.old) (Q.seen desk.new) job.ticket (IsPartOf job.at entry.now)) }
    ensures trouble { IfErr result (IsTrouble (evidence Q.Stage.faults Q.Fetch.faults Q.Shard.faults Q.Target.faults Q.Shard.told Q.Target.told) (Q.Target.faults target.new) (Q.Target.told target.new).is_sure Q.start (Q.seen desk.new) job.ticket) }
    ensures went { Went Q.start (Q.seen desk.old) (Q.seen desk.new) job.ticket }
    ensures calls { Q.calls desk.new ≡ Q.calls desk.old }
{
    let mut is_exact = true;
    for number in 0..part_count(entry.print.len, entry.part_size) {
        let (_, size) = part_plan(entry.print.len, entry.part_size, number);
        let name = part_name(job.at, entry, number);
        let part = Part { name, size };
        let is_whole = read_part(alloc, desk, job.ticket, part, target, hasher, buf)?;
        is_exact = is_exact && is_whole;
    }
    Ok(is_exact)
}
