//! The blobs of a file.
ghost use Rattle.std.specs.Prelude.{◌≡◌, ◌+◌, ◌<◌, ◌≤◌, ◌^◌, true, [], IfErr, IfOk, IfSome, OnOk, IsSomeAnd, length};
ghost use Rattle.esr_formats.specs.Names.{name_of};
ghost use Rattle.esr_hash.specs.Fed.{fed_count, HasFed};
ghost use Rattle.esr_source.specs.Files.{bytes_at};
ghost use Rattle.esr_parts.specs.Reads.{ReadOn};
ghost use Rattle.esr_desk.specs.Calls.{HasTaken};
ghost use Rattle.esr_desk.specs.Start.{ticket_of};
ghost use Rattle.esr_desk.specs.Evidence.{evidence};
ghost use Rattle.esr_desk.specs.Told.{TellsAll};
ghost use Rattle.esr_upload.specs.Pieces.{IsOfStart, CanStore, AreNumbered, PutPart, PutParts, PartsTold};
ghost use Rattle.esr_upload.specs.Stored.{MayStore, IsToldBy, HasPrint, Stored};
ghost use Rattle.esr_upload.specs.Trouble.{Shown};
ghost use Rattle.esr_upload.specs.Worked.{Went};

use crate::job::Job;
use esr_depot::CallError;
use esr_desk::{Desk, Named, NewBlob, StepRefusal, Why};
use esr_hash::Hasher;
use esr_names::BlobName;
use esr_parts::{CopyError, copy_part, part_plan};
use esr_shardidx::{FileEntry, part_count, part_name};
use esr_source::{Gate, Shard};
use esr_unit::Trouble;
use std::alloc::Global;

/// Goes to the first byte of a file.
fn start_file<Q: Desk, S: Shard>(
    alloc: Global,
    shard: &mut S,
    file: usize,
) -> Result<(), Trouble<Q::Stage, Q::Fetch>>
    requires listed { IsSomeAnd (S.told shard.old).listed (λ fs. file < length fs) }
    ensures started { OnOk result ((S.told shard.new).left ≡ bytes_at (S.told shard.old).files file) }
    ensures kept { ReadOn (S.told shard.old) (S.told shard.new) }
    ensures steady { (S.told shard.old).is_sure ≡ true → S.faults shard.new ≡ S.faults shard.old }
    ensures faults { S.faults shard.old ≤ S.faults shard.new }
    ensures trouble { IfErr result (IsOfStart (S.faults shard.new)) }
{
    match shard.start(alloc, file) {
        Ok(()) => Ok(()),
        Err(CallError::Memory) => Err(Trouble::Step(StepRefusal::Memory)),
        Err(CallError::Failed) => Err(Trouble::Own),
    }
}

/// A part of a file that is to be stored: the name of its blob, and its length in bytes.
#[derive(Clone, Copy)]
struct NewPart {
    name: BlobName,
    size: u64,
}

/// Stores the next bytes of the file that was started as this part, and hashes them. It answers whether the file had so many;
/// where it hadn't, no blob is stored.
fn put_part<Q: Desk, S: Shard, G: Gate>(
    alloc: Global,
    desk: &mut Q,
    job: &Job<'_, G>,
    part: NewPart,
    shard: &mut S,
    hasher: &mut Hasher,
    buf: &mut [u8],
) -> Result<bool, Trouble<Q::Stage, Q::Fetch>>
    requires mine { HasTaken (Q.calls desk.old) job.now.ticket }
    requires may { CanStore Q.start (ticket_of Q.start (Q.seen desk.old) job.now.ticket) part.name }
    requires bound { fed_count hasher.old + part.size < 2 ^ 61 }
    requires buffer { 0 < length buf.old }
    requires tells { TellsAll Q.start (Q.seen desk.old) job.now.ticket }
    ensures kept { ReadOn (S.told shard.old) (S.told shard.new) }
    ensures steady { (S.told shard.old).is_sure ≡ true → S.faults shard.new ≡ S.faults shard.old }
    ensures buffer { length buf.new ≡ length buf.old }
    ensures put { IfOk result
        (PutPart Q.start (S.told shard.old).left (S.told shard.new).left hasher.old hasher.new (ticket_of Q.start (Q.seen desk.old) job.now.ticket) (ticket_of Q.start (Q.seen desk.new) job.now.ticket) (name_of part.name) part.size) }
    ensures faults { S.faults shard.old ≤ S.faults shard.new }
    ensures tells { IfOk result (λ full. full ≡ true → TellsAll Q.start (Q.seen desk.new) job.now.ticket) }
    ensures trouble { IfErr result (Shown (evidence Q.Stage.faults Q.Fetch.faults Q.Shard.faults Q.Target.faults Q.Shard.told Q.Target.told) (S.faults shard.new) (S.told shard.old).files Q.start (Q.seen desk.new) job.now.ticket) }
    ensures went { Went Q.start (Q.seen desk.old) (Q.seen desk.new) job.now.ticket }
    ensures calls { Q.calls desk.new ≡ Q.calls desk.old }
{
    esr_core::refusals_are_of_their_steps();
    let NewPart { name, size } = part;
    let room = size as usize;
    let mut named = desk.begin(alloc, job.ticket, NewBlob { name, room })?;
    match copy_part(
        shard,
        &mut named.stage,
        hasher,
        size,
        job.gate,
        job.ticket,
        buf,
    ) {
        Ok(true) => {}
        Ok(false) => return Ok(false),
        Err(CopyError::Source) => return Err(Trouble::Own),
        Err(CopyError::Stage) => return Err(Trouble::Stage { stage: named.stage }),
    }
    let Named { name, stage } = named;
    desk.commit(alloc, job.ticket, name, stage)?;
    Ok(true)
}

/// Stores the parts of the file that was started, as far as its entry's length, and hashes them. Where the file ends before,
/// the rest is missing.
fn put_parts<Q: Desk, S: Shard, G: Gate>(
    alloc: Global,
    desk: &mut Q,
    job: &Job<'_, G>,
    entry: &FileEntry,
    shard: &mut S,
    hasher: &mut Hasher,
    buf: &mut [u8],
) -> Result<(), Trouble<Q::Stage, Q::Fetch>>
    requires mine { HasTaken (Q.calls desk.old) job.now.ticket }
    requires may { MayStore (ticket_of Q.start (Q.seen desk.old) job.now.ticket) job.now.at.index.number job.now.at.number entry.now.name.number }
    requires few { job.now.at.number < 1024 }
    requires size { (1 ≤ entry.now.part_size) × (entry.now.part_size ≤ 2 ^ 30) }
    requires numbered { AreNumbered Q.start (ticket_of Q.start (Q.seen desk.old) job.now.ticket) job.now.at entry.now }
    requires short { entry.now.print.len < 2 ^ 60 }
    requires fresh { HasFed hasher.old [] }
    requires buffer { 0 < length buf.old }
    requires tells { TellsAll Q.start (Q.seen desk.old) job.now.ticket }
    ensures kept { ReadOn (S.told shard.old) (S.told shard.new) }
    ensures steady { (S.told shard.old).is_sure ≡ true → S.faults shard.new ≡ S.faults shard.old }
    ensures buffer { length buf.new ≡ length buf.old }
    ensures put { OnOk result (PutParts Q.start (S.told shard.old).left (S.told shard.new).left hasher.new job.now.at entry.now (ticket_of Q.start (Q.seen desk.old) job.now.ticket) (ticket_of Q.start (Q.seen desk.new) job.now.ticket)) }
    ensures faults { S.faults shard.old ≤ S.faults shard.new }
    ensures tells { OnOk result (PartsTold Q.start (Q.seen desk.new) job.now.ticket hasher.new entry.now.print.len) }
    ensures trouble { IfErr result (Shown (evidence Q.Stage.faults Q.Fetch.faults Q.Shard.faults Q.Target.faults Q.Shard.told Q.Target.told) (S.faults shard.new) (S.told shard.old).files Q.start (Q.seen desk.new) job.now.ticket) }
    ensures went { Went Q.start (Q.seen desk.old) (Q.seen desk.new) job.now.ticket }
    ensures calls { Q.calls desk.new ≡ Q.calls desk.old }
{
    for number in 0..part_count(entry.print.len, entry.part_size) {
        let (_, size) = part_plan(entry.print.len, entry.part_size, number);
        let name = part_name(job.at, entry, number);
        let part = NewPart { name, size };
        if !put_part(alloc, desk, job, part, shard, hasher, buf)? {
            return Ok(());
        }
    }
    Ok(())
}

/// Reads a file again and stores its blobs under the id of its entry. It must have the entry's print.
pub fn store_file<Q: Desk, S: Shard, G: Gate>(
    alloc: Global,
    desk: &mut Q,
    job: &Job<'_, G>,
    shard: &mut S,
    file: usize,
    entry: &FileEntry,
    buf: &mut [u8],
) -> Result<(), Trouble<Q::Stage, Q::Fetch>>
    requires mine { HasTaken (Q.calls desk.old) job.now.ticket }
    requires may { MayStore (ticket_of Q.start (Q.seen desk.old) job.now.ticket) job.now.at.index.number job.now.at.number entry.now.name.number }
    requires few { job.now.at.number < 1024 }
    requires size { (1 ≤ entry.now.part_size) × (entry.now.part_size ≤ 2 ^ 30) }
    requires cut { entry.now.part_size ≡ Q.start.part_size }
    requires told { IsToldBy Q.start (S.told shard.old).files job.now.at.number (ticket_of Q.start (Q.seen desk.old) job.now.ticket) }
    requires short { entry.now.print.len < 2 ^ 60 }
    requires listed { IsSomeAnd (S.told shard.old).listed (λ fs. file < length fs) }
    requires place { IfSome (S.told shard.old).files (λ fs. file < length fs) }
    requires print { HasPrint (bytes_at (S.told shard.old).files file) entry.now }
    requires buffer { 0 < length buf.old }
    requires tells { TellsAll Q.start (Q.seen desk.old) job.now.ticket }
    ensures kept { ReadOn (S.told shard.old) (S.told shard.new) }
    ensures steady { (S.told shard.old).is_sure ≡ true → S.faults shard.new ≡ S.faults shard.old }
    ensures buffer { length buf.new ≡ length buf.old }
    ensures stored { OnOk result (Stored Q.start (bytes_at (S.told shard.old).files file) job.now.at.index.number job.now.at.number entry.now (ticket_of Q.start (Q.seen desk.old) job.now.ticket) (ticket_of Q.start (Q.seen desk.new) job.now.ticket)) }
    ensures faults { S.faults shard.old ≤ S.faults shard.new }
    ensures tells { OnOk result (TellsAll Q.start (Q.seen desk.new) job.now.ticket) }
    ensures trouble { IfErr result (Shown (evidence Q.Stage.faults Q.Fetch.faults Q.Shard.faults Q.Target.faults Q.Shard.told Q.Target.told) (S.faults shard.new) (S.told shard.old).files Q.start (Q.seen desk.new) job.now.ticket) }
    ensures went { Went Q.start (Q.seen desk.old) (Q.seen desk.new) job.now.ticket }
    ensures calls { Q.calls desk.new ≡ Q.calls desk.old }
{
    start_file::<Q, S>(alloc, shard, file)?;
    let mut hasher = Hasher::start();
    put_parts(alloc, desk, job, entry, shard, &mut hasher, buf)?;
    let first = entry.print;
    let second = hasher.end();
    if first != second {
        let why = Why::Changed { first, second };
        return Err(Trouble::Found { why });
    }
    Ok(())
}
