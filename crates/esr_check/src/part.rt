//! The parts of a file, read back one after another for the print of the file.
ghost use Rattle.std.specs.Prelude.{◌≡◌, ◌+◌, ◌<◌, ◌^◌, true, [], map, length, IfOk, IfErr};
ghost use Rattle.esr_hash.specs.Fed.{fed_count, HasFed};
ghost use Rattle.esr_names.specs.Layout.{IsName};
ghost use Rattle.esr_formats.specs.Names.{name_of};
ghost use Rattle.esr_formats.specs.Infos.{info_of_code};
ghost use Rattle.esr_formats.specs.Roots.{root_of};
ghost use Rattle.esr_formats.specs.Shards.{entry_of};
ghost use Rattle.esr_shardidx.specs.Entries.{IsEntry};
ghost use Rattle.esr_desk.specs.Own.{caller_of};
ghost use Rattle.esr_desk.specs.Check.Conditions.{CanCheck};
ghost use Rattle.esr_check.specs.First.{TellsOne, FirstOfFile};
ghost use Rattle.esr_check.specs.Names.{Just, IsOfFile, AreUnfetched};
ghost use Rattle.esr_check.specs.Parts.{ReadPart, ReadParts};
ghost use Rattle.esr_check.specs.Pieces.{IsShardOfRoot, HasEntry};
ghost use Rattle.esr_check.specs.Trouble.{Shown};
ghost use Rattle.esr_check.specs.Went.{IsSoFar, Went};

use crate::fetch::fetch;
use crate::root_shard::ShardOfRoot;
use esr_desk::Client;
use esr_hash::Hasher;
use esr_names::BlobName;
use esr_parts::{Extent, hash_back, part_plan};
use esr_shardidx::{FileEntry, part_count, part_name};
use esr_unit::Trouble;
use std::alloc::Global;

/// Reads a part of `size` bytes, and hashes what it reads. It answers whether the part has exactly that size.
fn read_part<Q: Client>(
    alloc: Global,
    desk: &mut Q,
    count: &mut u64,
    name: BlobName,
    size: u64,
    hasher: &mut Hasher,
    buf: &mut [u8],
) -> Result<bool, Trouble<Q::Stage, Q::Fetch>>
    requires alone { Q.start.alone ≡ true }
    requires layout { IsName name }
    requires may { CanCheck Q.start (Q.seen desk.old) (name_of name) }
    requires bound { fed_count hasher.old + size + 1 < 2 ^ 61 }
    requires buffer { 0 < length buf.old }
    requires so_far { IsSoFar Q.start (Q.seen desk.old) count.old }
    ensures buffer { length buf.new ≡ length buf.old }
    ensures read { IfOk result (ReadPart Q.start (caller_of Q.start (Q.seen desk.new)) hasher.old hasher.new (name_of name) size) }
    ensures so_far { IfOk result (λ w. IsSoFar Q.start (Q.seen desk.new) count.new) }
    ensures trouble { IfErr result (Shown Q.Fetch.faults Q.start (Q.seen desk.new)) }
    ensures first { IfErr result (TellsOne (Just (name_of name))) }
    ensures went { Went Q.start (Q.seen desk.old) (Q.seen desk.new) (Just (name_of name)) }
{
    let mut blob = fetch(alloc, desk, count, name)?;
    match hash_back(&mut blob, hasher, size, buf) {
        Ok(Extent::Whole) => Ok(true),
        Ok(Extent::Short) => Ok(false),
        Ok(Extent::Long) => Ok(false),
        Err(_) => Err(Trouble::Fetch { fetch: blob }),
    }
}

/// Reads the parts of a file, and hashes what it reads. It answers whether each has exactly the size that is stated.
pub fn read_parts<Q: Client>(
    alloc: Global,
    desk: &mut Q,
    count: &mut u64,
    shard: ShardOfRoot<'_>,
    entry: &FileEntry,
    hasher: &mut Hasher,
    buf: &mut [u8],
) -> Result<bool, Trouble<Q::Stage, Q::Fetch>>
    requires alone { Q.start.alone ≡ true }
    requires shard { IsShardOfRoot Q.start (Q.seen desk.old) (root_of shard.root.now) (map info_of_code shard.infos.now) shard.at.index.number shard.at.number shard.generation.number }
    requires entry { IsEntry entry.now }
    requires listed { HasEntry Q.start (caller_of Q.start (Q.seen desk.old)) shard.at.index.number shard.at.number shard.generation.number (entry_of entry.now) }
    requires fresh { HasFed hasher.old [] }
    requires buffer { 0 < length buf.old }
    requires new { AreUnfetched (caller_of Q.start (Q.seen desk.old)) (IsOfFile shard.at.index.number shard.at.number entry.now.name.number) }
    requires so_far { IsSoFar Q.start (Q.seen desk.old) count.old }
    ensures buffer { length buf.new ≡ length buf.old }
    ensures read { IfOk result (ReadParts Q.start (caller_of Q.start (Q.seen desk.new)) hasher.new shard.entry.at entry.now) }
    ensures so_far { IfOk result (λ e. IsSoFar Q.start (Q.seen desk.new) count.new) }
    ensures trouble { IfErr result (Shown Q.Fetch.faults Q.start (Q.seen desk.new)) }
    ensures first { IfErr result (TellsOne (FirstOfFile Q.start (caller_of Q.start (Q.seen desk.new)) shard.entry.at.index.number shard.entry.at.number (entry_of entry.now))) }
    ensures went { Went Q.start (Q.seen desk.old) (Q.seen desk.new) (IsOfFile shard.entry.at.index.number shard.entry.at.number entry.now.name.number) }
{
    let mut is_exact = true;
    for number in 0..part_count(entry.print.len, entry.part_size) {
        let (_, size) = part_plan(entry.print.len, entry.part_size, number);
        let name = part_name(shard.at, entry, number);
        let is_whole = read_part(alloc, desk, count, name, size, hasher, buf)?;
        is_exact = is_exact && is_whole;
    }
    Ok(is_exact)
}
