//! The indices of the root: their shards.
ghost use Rattle.std.specs.Prelude.{◌≡◌, ◌<◌, true, map, length, IfErr, OnOk};
ghost use Rattle.esr_formats.specs.Infos.{info_of_code};
ghost use Rattle.esr_formats.specs.Roots.{root_of};
ghost use Rattle.esr_desk.specs.Own.{caller_of};
ghost use Rattle.esr_check.specs.First.{TellsOne, FirstOfIndices};
ghost use Rattle.esr_check.specs.Names.{IsOfAnyShard, AreUnfetched};
ghost use Rattle.esr_check.specs.Pieces.{HasSafe, HasInfos, HasIndices};
ghost use Rattle.esr_check.specs.Trouble.{Shown};
ghost use Rattle.esr_check.specs.Went.{IsSoFar, Went};

use crate::shard::check_shards;
use esr_desk::Client;
use esr_meta::SnapInfo;
use esr_parts::buffer;
use esr_root::RootData;
use esr_unit::Trouble;
use std::alloc::Global;

/// Index by index, shard by shard.
fn check_each<Q: Client>(
    alloc: Global,
    desk: &mut Q,
    count: &mut u64,
    root: &RootData,
    infos: &[SnapInfo],
    buf: &mut [u8],
) -> Result<(), Trouble<Q::Stage, Q::Fetch>>
    requires alone { Q.start.alone ≡ true }
    requires root { HasSafe Q.start (Q.seen desk.old) (root_of root.now) }
    requires infos { HasInfos Q.start (caller_of Q.start (Q.seen desk.old)) (root_of root.now) (map info_of_code infos.now) }
    requires buffer { 0 < length buf.old }
    requires new { AreUnfetched (caller_of Q.start (Q.seen desk.old)) IsOfAnyShard }
    requires so_far { IsSoFar Q.start (Q.seen desk.old) count.old }
    ensures indices { OnOk result (HasIndices Q.start (caller_of Q.start (Q.seen desk.new)) (root_of root.now) (map info_of_code infos.now) (root_of root.now).indices) }
    ensures so_far { OnOk result (IsSoFar Q.start (Q.seen desk.new) count.new) }
    ensures trouble { IfErr result (Shown Q.Fetch.faults Q.start (Q.seen desk.new)) }
    ensures first { IfErr result (TellsOne (FirstOfIndices Q.start (caller_of Q.start (Q.seen desk.new)) (root_of root.now) (map info_of_code infos.now))) }
    ensures went { Went Q.start (Q.seen desk.old) (Q.seen desk.new) IsOfAnyShard }
{
    for index in root.indices.as_slice() {
        check_shards(alloc, desk, count, root, infos, index, buf)?;
    }
    Ok(())
}

/// All that the root reaches beside the listed snapshots.
pub fn check_indices<Q: Client>(
    alloc: Global,
    desk: &mut Q,
    count: &mut u64,
    root: &RootData,
    infos: &[SnapInfo],
) -> Result<(), Trouble<Q::Stage, Q::Fetch>>
    requires alone { Q.start.alone ≡ true }
    requires root { HasSafe Q.start (Q.seen desk.old) (root_of root.now) }
    requires infos { HasInfos Q.start (caller_of Q.start (Q.seen desk.old)) (root_of root.now) (map info_of_code infos.now) }
    requires new { AreUnfetched (caller_of Q.start (Q.seen desk.old)) IsOfAnyShard }
    requires so_far { IsSoFar Q.start (Q.seen desk.old) count.old }
    ensures indices { OnOk result (HasIndices Q.start (caller_of Q.start (Q.seen desk.new)) (root_of root.now) (map info_of_code infos.now) (root_of root.now).indices) }
    ensures so_far { OnOk result (IsSoFar Q.start (Q.seen desk.new) count.new) }
    ensures trouble { IfErr result (Shown Q.Fetch.faults Q.start (Q.seen desk.new)) }
    ensures first { IfErr result (TellsOne (FirstOfIndices Q.start (caller_of Q.start (Q.seen desk.new)) (root_of root.now) (map info_of_code infos.now))) }
    ensures went { Went Q.start (Q.seen desk.old) (Q.seen desk.new) IsOfAnyShard }
{
    let mut buf = buffer();
    check_each(alloc, desk, count, root, infos, &mut buf)
}
