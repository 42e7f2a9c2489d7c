//! The files of a shard: each has the stated length and digest, cut at the stated part size.
ghost use Rattle.std.specs.Prelude.{◌≡◌, ◌<◌, true, map, length, IfErr, OnOk};
ghost use Rattle.esr_formats.specs.Infos.{info_of_code};
ghost use Rattle.esr_formats.specs.Roots.{root_of};
ghost use Rattle.esr_formats.specs.Shards.{entry_of, shard_index_of};
ghost use Rattle.esr_shardidx.specs.Entries.{IsEntry};
ghost use Rattle.esr_desk.specs.Own.{caller_of};
ghost use Rattle.esr_check.specs.First.{TellsOne, FirstOfFile, FirstOfFiles};
ghost use Rattle.esr_check.specs.Names.{IsOfFile, IsPieceOf, AreUnfetched};
ghost use Rattle.esr_check.specs.Pieces.{IsShardOfRoot, HasHeld, HasEntry, HasFile, HasFiles};
ghost use Rattle.esr_check.specs.Trouble.{Shown, Judged};
ghost use Rattle.esr_check.specs.Went.{IsSoFar, Went};

use crate::part::read_parts;
use crate::root_shard::ShardOfRoot;
use esr_desk::{Client, Why};
use esr_hash::{Hasher, Print};
use esr_names::{BlobName, Id, ShardId};
use esr_shardidx::{FileEntry, ShardIndex};
use esr_unit::Trouble;
use std::alloc::Global;

/// What is wrong with a file by the print of what was read, and by whether each part has the size that is stated.
fn judge(
    at: ShardId,
    generation: Id,
    entry: &FileEntry,
    found: Print,
    is_exact: bool,
) -> Option<Why>
    ensures { Judged at generation entry.now found is_exact result }
{
    let name = BlobName::Whole(at, entry.name);
    let stated = entry.print;
    if stated != found {
        return Some(Why::Misprinted {
            name,
            stated,
            found,
        });
    }
    if is_exact {
        return None;
    }
    let other = BlobName::ShardIndex(at, generation);
    Some(Why::Disagreeing { name, other })
}

/// A file that the index of a shard lists.
fn check_file<Q: Client>(
    alloc: Global,
    desk: &mut Q,
    count: &mut u64,
    shard: ShardOfRoot<'_>,
    entry: &FileEntry,
    buf: &mut [u8],
) -> Result<(), Trouble<Q::Stage, Q::Fetch>>
    requires alone { Q.start.alone ≡ true }
    requires shard { IsShardOfRoot Q.start (Q.seen desk.old) (root_of shard.root.now) (map info_of_code shard.infos.now) shard.at.index.number shard.at.number shard.generation.number }
    requires entry { IsEntry entry.now }
    requires listed { HasEntry Q.start (caller_of Q.start (Q.seen desk.old)) shard.at.index.number shard.at.number shard.generation.number (entry_of entry.now) }
    requires buffer { 0 < length buf.old }
    requires new { AreUnfetched (caller_of Q.start (Q.seen desk.old)) (IsOfFile shard.at.index.number shard.at.number entry.now.name.number) }
    requires so_far { IsSoFar Q.start (Q.seen desk.old) count.old }
    ensures buffer { length buf.new ≡ length buf.old }
    ensures file { OnOk result (HasFile Q.start (caller_of Q.start (Q.seen desk.new)) shard.entry.at.index.number shard.entry.at.number (entry_of entry.now)) }
    ensures so_far { OnOk result (IsSoFar Q.start (Q.seen desk.new) count.new) }
    ensures trouble { IfErr result (Shown Q.Fetch.faults Q.start (Q.seen desk.new)) }
    ensures first { IfErr result (TellsOne (FirstOfFile Q.start (caller_of Q.start (Q.seen desk.new)) shard.entry.at.index.number shard.entry.at.number (entry_of entry.now))) }
    ensures went { Went Q.start (Q.seen desk.old) (Q.seen desk.new) (IsOfFile shard.entry.at.index.number shard.entry.at.number entry.now.name.number) }
{
    let mut hasher = Hasher::start();
    let is_exact = read_parts(alloc, desk, count, shard, entry, &mut hasher, buf)?;
    if let Some(why) = judge(shard.at, shard.generation, entry, hasher.end(), is_exact) {
        return Err(Trouble::Found { why });
    }
    Ok(())
}

/// Each file that the index of a shard lists, those of unlisted snapshots too.
pub fn check_files<Q: Client>(
    alloc: Global,
    desk: &mut Q,
    count: &mut u64,
    shard: ShardOfRoot<'_>,
    held: &ShardIndex,
    buf: &mut [u8],
) -> Result<(), Trouble<Q::Stage, Q::Fetch>>
    requires alone { Q.start.alone ≡ true }
    requires shard { IsShardOfRoot Q.start (Q.seen desk.old) (root_of shard.root.now) (map info_of_code shard.infos.now) shard.at.index.number shard.at.number shard.generation.number }
    requires held { HasHeld Q.start (caller_of Q.start (Q.seen desk.old)) shard.at.index.number shard.at.number shard.generation.number (shard_index_of held.now) }
    requires buffer { 0 < length buf.old }
    requires new { AreUnfetched (caller_of Q.start (Q.seen desk.old)) (IsPieceOf shard.at.index.number shard.at.number) }
    requires so_far { IsSoFar Q.start (Q.seen desk.old) count.old }
    ensures buffer { length buf.new ≡ length buf.old }
    ensures files { OnOk result (HasFiles Q.start (caller_of Q.start (Q.seen desk.new)) shard.entry.at.index.number shard.entry.at.number (shard_index_of held.now).files) }
    ensures so_far { OnOk result (IsSoFar Q.start (Q.seen desk.new) count.new) }
    ensures trouble { IfErr result (Shown Q.Fetch.faults Q.start (Q.seen desk.new)) }
    ensures first { IfErr result (TellsOne (FirstOfFiles Q.start (caller_of Q.start (Q.seen desk.new)) shard.entry.at.index.number shard.entry.at.number (shard_index_of held.now).files)) }
    ensures went { Went Q.start (Q.seen desk.old) (Q.seen desk.new) (IsPieceOf shard.entry.at.index.number shard.entry.at.number) }
{
    for entry in held.files() {
        check_file(alloc, desk, count, shard, entry, buf)?;
    }
    Ok(())
}
