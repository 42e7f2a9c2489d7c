//! The files of a shard, one after another.
ghost use Rattle.std.specs.Prelude.{◌≡◌, ◌+◌, ◌-◌, ◌<◌, ◌≤◌, ◌^◌, true, min, sum_by, length, IfErr, IfOk, IsSomeAnd, IfSome};
ghost use Rattle.esr_core.specs.Steps.{Drew};
ghost use Rattle.esr_source.specs.Files.{bytes_at};
ghost use Rattle.esr_parts.specs.Reads.{ReadOn};
ghost use Rattle.esr_desk.specs.Calls.{HasTaken};
ghost use Rattle.esr_desk.specs.Start.{ticket_of};
ghost use Rattle.esr_desk.specs.Evidence.{evidence};
ghost use Rattle.esr_desk.specs.Told.{TellsAll};
ghost use Rattle.esr_upload.specs.Entries.{is_new, new_count, len_planned, entry_at, ReadOnce, Reads, StoredOne, StoredAll};
ghost use Rattle.esr_upload.specs.Stored.{IsAt, IsToldBy, AreBelow};
ghost use Rattle.esr_upload.specs.Trouble.{Shown};
ghost use Rattle.esr_upload.specs.Worked.{Went};

use crate::file::store_file;
use crate::job::Job;
use esr_desk::Desk;
use esr_names::Id;
use esr_reuse::Planned;
use esr_seq::{Seq, TryClone};
use esr_shardidx::{FileEntries, FileEntry};
use esr_source::{Gate, Shard};
use esr_unit::Trouble;
use std::alloc::{AllocError, Global};

/// One for a file that reuses nothing.
fn is_new(plan: &Planned) -> u64
    ensures { result ≡ is_new plan.now.reused }
{
    match plan.reused {
        Some(_) => 0,
        None => 1,
    }
}

/// How many files reuse nothing.
pub fn count_new(plans: &[Planned]) -> u64
    ensures count { result ≡ new_count plans.now }
    ensures bound { result ≤ length plans.now }
{
    let mut count = 0;
    for plan in plans {
        count += is_new(plan);
    }
    count
}

/// The sum of the files' lengths in bytes, at most 2^64 - 1.
pub fn sum_of(plans: &[Planned]) -> u64
    ensures { result ≡ min (sum_by len_planned plans.now) (2 ^ 64 - 1) }
{
    let mut sum: u64 = 0;
    for plan in plans {
        sum = sum.saturating_add(plan.print.len);
    }
    sum
}

/// The entry of a file that reuses nothing.
fn new_entry(
    alloc: Global,
    plan: &Planned,
    name: Id,
    part_size: u64,
) -> Result<FileEntry, AllocError>
    ensures { IfOk result (λ e. e ≡ record { name = name; physical = plan.now.physical; print = plan.now.print; part_size = part_size }) }
{
    Ok(FileEntry {
        name,
        physical: plan.physical.try_clone(alloc)?,
        print: plan.print,
        part_size,
    })
}

/// A file that is to be stored: its place in the list of its shard, and its id.
#[derive(Clone, Copy)]
struct NewFile {
    place: usize,
    name: Id,
}

/// Stores a file under its id, unless it is reused, and answers its entry.
fn store_one<Q: Desk, S: Shard, G: Gate>(
    alloc: Global,
    desk: &mut Q,
    job: &Job<'_, G>,
    shard: &mut S,
    plan: &Planned,
    file: NewFile,
    buf: &mut [u8],
) -> Result<FileEntry, Trouble<Q::Stage, Q::Fetch>>
    requires mine { HasTaken (Q.calls desk.old) job.now.ticket }
    requires work { IsAt (ticket_of Q.start (Q.seen desk.old) job.now.ticket) job.now.at.index.number job.now.at.number }
    requires drew { is_new plan.now.reused ≡ 1 → Drew (ticket_of Q.start (Q.seen desk.old) job.now.ticket) file.name.number }
    requires below { AreBelow (ticket_of Q.start (Q.seen desk.old) job.now.ticket) file.name.number }
    requires few { job.now.at.number < 1024 }
    requires size { (1 ≤ job.now.part_size) × (job.now.part_size ≤ 2 ^ 30) }
    requires cut { job.now.part_size ≡ Q.start.part_size }
    requires told { IsToldBy Q.start (S.told shard.old).files job.now.at.number (ticket_of Q.start (Q.seen desk.old) job.now.ticket) }
    requires short { plan.now.print.len < 2 ^ 60 }
    requires listed { IsSomeAnd (S.told shard.old).listed (λ fs. file.place < length fs) }
    requires place { IfSome (S.told shard.old).files (λ fs. file.place < length fs) }
    requires read { ReadOnce (bytes_at (S.told shard.old).files file.place) plan.now.print }
    requires buffer { 0 < length buf.old }
    requires tells { TellsAll Q.start (Q.seen desk.old) job.now.ticket }
    ensures kept { ReadOn (S.told shard.old) (S.told shard.new) }
    ensures steady { (S.told shard.old).is_sure ≡ true → S.faults shard.new ≡ S.faults shard.old }
    ensures buffer { length buf.new ≡ length buf.old }
    ensures entry { IfOk result (λ e. e ≡ entry_at job.now.part_size file.name.number plan.now plan.now.reused) }
    ensures below { IfOk result (λ e. AreBelow (ticket_of Q.start (Q.seen desk.new) job.now.ticket) (file.name.number + is_new plan.now.reused)) }
    ensures stored { IfOk result
        (λ e. StoredOne Q.start (bytes_at (S.told shard.old).files file.place) job.now.at.index.number job.now.at.number plan.now e (ticket_of Q.start (Q.seen desk.old) job.now.ticket) (ticket_of Q.start (Q.seen desk.new) job.now.ticket)) }
    ensures faults { S.faults shard.old ≤ S.faults shard.new }
    ensures tells { IfOk result (λ e. TellsAll Q.start (Q.seen desk.new) job.now.ticket) }
    ensures trouble { IfErr result (Shown (evidence Q.Stage.faults Q.Fetch.faults Q.Shard.faults Q.Target.faults Q.Shard.told Q.Target.told) (S.faults shard.new) (S.told shard.old).files Q.start (Q.seen desk.new) job.now.ticket) }
    ensures went { Went Q.start (Q.seen desk.old) (Q.seen desk.new) job.now.ticket }
    ensures calls { Q.calls desk.new ≡ Q.calls desk.old }
{
    match &plan.reused {
        Some(entry) => Ok(entry.try_clone(alloc)?),
        None => {
            let entry = new_entry(alloc, plan, file.name, job.part_size)?;
            store_file(alloc, desk, job, shard, file.place, &entry, buf)?;
            Ok(entry)
        }
    }
}

/// Stores each file that reuses nothing, under ids from `first` on, and answers the entries of all.
pub fn store_files<Q: Desk, S: Shard, G: Gate>(
    alloc: Global,
    desk: &mut Q,
    job: &Job<'_, G>,
    shard: &mut S,
    plans: &[Planned],
    first: Id,
    buf: &mut [u8],
) -> Result<FileEntries, Trouble<Q::Stage, Q::Fetch>>
    requires mine { HasTaken (Q.calls desk.old) job.now.ticket }
    requires work { IsAt (ticket_of Q.start (Q.seen desk.old) job.now.ticket) job.now.at.index.number job.now.at.number }
    requires from { (ticket_of Q.start (Q.seen desk.old) job.now.ticket).first ≡ first.number }
    requires drawn { (ticket_of Q.start (Q.seen desk.old) job.now.ticket).drawn ≡ new_count plans.now + 1 }
    requires below { AreBelow (ticket_of Q.start (Q.seen desk.old) job.now.ticket) first.number }
    requires room { first.number + (new_count plans.now + 1) < 2 ^ 128 }
    requires few { job.now.at.number < 1024 }
    requires size { (1 ≤ job.now.part_size) × (job.now.part_size ≤ 2 ^ 30) }
    requires cut { job.now.part_size ≡ Q.start.part_size }
    requires told { IsToldBy Q.start (S.told shard.old).files job.now.at.number (ticket_of Q.start (Q.seen desk.old) job.now.ticket) }
    requires reads { Reads (S.told shard.old).files (S.told shard.old).listed plans.now }
    requires buffer { 0 < length buf.old }
    requires tells { TellsAll Q.start (Q.seen desk.old) job.now.ticket }
    ensures kept { ReadOn (S.told shard.old) (S.told shard.new) }
    ensures steady { (S.told shard.old).is_sure ≡ true → S.faults shard.new ≡ S.faults shard.old }
    ensures buffer { length buf.new ≡ length buf.old }
    ensures below { IfOk result (λ es. AreBelow (ticket_of Q.start (Q.seen desk.new) job.now.ticket) (first.number + new_count plans.now)) }
    ensures stored { IfOk result (λ es.
        StoredAll Q.start (S.told shard.old).files job.now.at.index.number job.now.at.number job.now.part_size first.number plans.now es (ticket_of Q.start (Q.seen desk.old) job.now.ticket) (ticket_of Q.start (Q.seen desk.new) job.now.ticket)) }
    ensures tells { IfOk result (λ es. TellsAll Q.start (Q.seen desk.new) job.now.ticket) }
    ensures trouble { IfErr result (Shown (evidence Q.Stage.faults Q.Fetch.faults Q.Shard.faults Q.Target.faults Q.Shard.told Q.Target.told) (S.faults shard.new) (S.told shard.old).files Q.start (Q.seen desk.new) job.now.ticket) }
    ensures went { Went Q.start (Q.seen desk.old) (Q.seen desk.new) job.now.ticket }
    ensures calls { Q.calls desk.new ≡ Q.calls desk.old }
{
    let mut entries = Seq::new(alloc);
    let mut next = first;
    for (file, plan) in plans.iter().enumerate() {
        let new_file = NewFile {
            place: file,
            name: next,
        };
        let entry = store_one(alloc, desk, job, shard, plan, new_file, buf)?;
        entries.push(entry)?;
        next.number += u128::from(is_new(plan));
    }
    Ok(entries)
}
