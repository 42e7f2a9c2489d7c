//! The first reading of a shard's files.
ghost use Rattle.std.specs.Prelude.{◌≡◌, ◌<◌, ◌^◌, false, true, Some, IfOk, IfSome, IsErr, IsSomeAnd, length};
ghost use Rattle.esr_depot.specs.Calls.{HasCause, has_failed};
ghost use Rattle.esr_parts.specs.Reads.{Hashed, ReadOn};
ghost use Rattle.esr_source.specs.Files.{bytes_at, is_file_name};
ghost use Rattle.esr_upload.specs.Surveyed.{SameShard, Surveyed};

use esr_depot::CallError;
use esr_parts::hash_file;
use esr_reuse::{ReadFile, ReadFiles};
use esr_seq::Seq;
use esr_shardidx::{PhysicalName, PhysicalRefusal};
use esr_source::{ListedFile, Shard};
use std::alloc::Global;

/// Reads the file at that place of the list for its print.
fn read_file<S: Shard>(
    alloc: Global,
    shard: &mut S,
    place: usize,
    file: &ListedFile,
    buf: &mut [u8],
) -> Result<ReadFile, CallError>
    requires listed { IsSomeAnd (S.told shard.old).listed (λ fs. place < length fs) }
    requires told { IfSome (bytes_at (S.told shard.old).files place) (λ b. length b ≡ file.now.length) }
    requires short { file.now.length < 2 ^ 60 }
    requires named { is_file_name file.now.name ≡ true }
    requires buffer { 0 < length buf.old }
    ensures kept { ReadOn (S.told shard.old) (S.told shard.new) }
    ensures steady { (S.told shard.old).is_sure ≡ true → S.faults shard.new ≡ S.faults shard.old }
    ensures buffer { length buf.new ≡ length buf.old }
    ensures name { IfOk result (λ f. f.physical ≡ file.now.name) }
    ensures hashed { IfOk result (λ f. Hashed (bytes_at (S.told shard.old).files place) file.now.length f.print) }
    ensures cause { HasCause (S.faults shard.old) (S.faults shard.new) (has_failed result) }
{
    let print = hash_file(alloc, shard, place, file.length, buf)?;
    match PhysicalName::new(alloc, file.name.as_str()) {
        Ok(physical) => Ok(ReadFile { physical, print }),
        Err(PhysicalRefusal::Memory) => Err(CallError::Memory),
        Err(PhysicalRefusal::BadName) => unreachable!("a listed name keeps the rule"),
    }
}

/// Lists the files, and reads each for its print.
pub fn survey<S: Shard>(
    alloc: Global,
    shard: &mut S,
    buf: &mut [u8],
) -> Result<ReadFiles, CallError>
    requires buffer { 0 < length buf.old }
    ensures buffer { length buf.new ≡ length buf.old }
    ensures same { SameShard (S.told shard.old) (S.told shard.new) }
    ensures steady { (S.told shard.old).is_sure ≡ true → S.faults shard.new ≡ S.faults shard.old }
    ensures surveyed { IfOk result (λ fs. Surveyed (S.told shard.old).files (S.told shard.new).listed fs) }
    ensures absent { (S.told shard.old).is_there ≡ Some false → IsErr result }
    ensures cause { HasCause (S.faults shard.old) (S.faults shard.new) (has_failed result) }
{
    let listed = shard.list(alloc)?;
    let mut reads = Seq::new(alloc);
    let mut place = 0;
    for file in listed.as_slice() {
        reads.push(read_file(alloc, shard, place, file, buf)?)?;
        place += 1;
    }
    Ok(reads)
}
