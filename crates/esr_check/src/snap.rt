//! The listed snapshots: their infos, and beside these their metadata.
ghost use Rattle.std.specs.Prelude.{◌≡◌, true, map, IfOk, IfErr, OnOk};
ghost use Rattle.esr_model.specs.Names.{Snap, Meta, IndexMeta as MetaName};
ghost use Rattle.esr_model.specs.Values.{Has};
ghost use Rattle.esr_model.specs.Agreement.{Agrees};
ghost use Rattle.esr_model.specs.Image.{global_of};
ghost use Rattle.esr_desk.specs.Start.{formats_of};
ghost use Rattle.esr_formats.specs.Infos.{info_of_code};
ghost use Rattle.esr_formats.specs.Globals.{global_of_code};
ghost use Rattle.esr_formats.specs.IndexMetas.{index_meta_of};
ghost use Rattle.esr_formats.specs.Refs.{ref_of_code};
ghost use Rattle.esr_formats.specs.Roots.{root_of, root_snap_of};
ghost use Rattle.esr_desk.specs.Own.{caller_of};
ghost use Rattle.esr_desk.specs.Check.Conditions.{CanCheck};
ghost use Rattle.esr_desk.specs.Check.Shown.{ReadAs};
ghost use Rattle.esr_check.specs.First.{TellsOne, FirstOfMetas, FirstOfSnap, FirstOfSnaps};
ghost use Rattle.esr_check.specs.Names.{Just, IsMetaIn, IsOfSnap, IsOfAnySnap, AreUnfetched};
ghost use Rattle.esr_check.specs.Pieces.{HasRoot, IsSnapOfRoot, HasMeta, HasMetas, HasInfo, HasInfos};
ghost use Rattle.esr_check.specs.Trouble.{Shown};
ghost use Rattle.esr_check.specs.Went.{IsSoFar, Went};

use crate::fetch::fetch_whole;
use crate::root_snap::SnapOfRoot;
use esr_agreement::{agreement_is, agrees, is_global_of, is_meta_of};
use esr_desk::{Client, StepRefusal, Why};
use esr_formats::{read_global, read_index_meta, read_info};
use esr_meta::{GlobalMeta, IndexMeta, SnapInfo};
use esr_names::{BlobName, Id, IndexRef};
use esr_root::RootData;
use esr_seq::Seq;
use esr_unit::{Trouble, unread};
use std::alloc::Global;

/// The info of a snapshot.
fn fetch_info<Q: Client>(
    alloc: Global,
    desk: &mut Q,
    count: &mut u64,
    uuid: Id,
) -> Result<SnapInfo, Trouble<Q::Stage, Q::Fetch>>
    requires alone { Q.start.alone ≡ true }
    requires may { CanCheck Q.start (Q.seen desk.old) (Snap uuid.number) }
    requires so_far { IsSoFar Q.start (Q.seen desk.old) count.old }
    ensures read { IfOk result (λ info. ReadAs Q.start (caller_of Q.start (Q.seen desk.new)) (Snap uuid.number) (formats_of Q.start).info (info_of_code info)) }
    ensures so_far { IfOk result (λ info. IsSoFar Q.start (Q.seen desk.new) count.new) }
    ensures trouble { IfErr result (Shown Q.Fetch.faults Q.start (Q.seen desk.new)) }
    ensures first { IfErr result (TellsOne (Just (Snap uuid.number))) }
    ensures went { Went Q.start (Q.seen desk.old) (Q.seen desk.new) (Just (Snap uuid.number)) }
{
    let name = BlobName::Snap(uuid);
    let bytes = fetch_whole(alloc, desk, count, name)?;
    match read_info(alloc, bytes.as_slice()) {
        Ok(info) => Ok(info),
        Err(refusal) => Err(unread(name, refusal)),
    }
}

/// The info of a listed snapshot agrees with the root.
fn check_info<Q: Client>(
    alloc: Global,
    desk: &mut Q,
    count: &mut u64,
    snap: SnapOfRoot<'_>,
) -> Result<SnapInfo, Trouble<Q::Stage, Q::Fetch>>
    requires alone { Q.start.alone ≡ true }
    requires snap { IsSnapOfRoot Q.start (Q.seen desk.old) snap.number (root_of snap.root.now) (root_snap_of snap.listed.now) }
    requires new { AreUnfetched (caller_of Q.start (Q.seen desk.old)) (Just (Snap snap.listed.now.uuid.number)) }
    requires so_far { IsSoFar Q.start (Q.seen desk.old) count.old }
    ensures read { IfOk result (λ info. ReadAs Q.start (caller_of Q.start (Q.seen desk.new)) (Snap snap.entry.listed.now.uuid.number) (formats_of Q.start).info (info_of_code info)) }
    ensures agrees { IfOk result (λ info. Agrees (root_of snap.entry.root.now) (root_snap_of snap.entry.listed.now) (info_of_code info)) }
    ensures so_far { IfOk result (λ info. IsSoFar Q.start (Q.seen desk.new) count.new) }
    ensures trouble { IfErr result (Shown Q.Fetch.faults Q.start (Q.seen desk.new)) }
    ensures first { IfErr result (TellsOne (Just (Snap snap.entry.listed.now.uuid.number))) }
    ensures went { Went Q.start (Q.seen desk.old) (Q.seen desk.new) (Just (Snap snap.entry.listed.now.uuid.number)) }
{
    agreement_is();
    let info = fetch_info(alloc, desk, count, snap.listed.uuid)?;
    if agrees(snap.root, snap.listed, &info) {
        return Ok(info);
    }
    let name = BlobName::Snap(snap.listed.uuid);
    let other = BlobName::Root(snap.number);
    let why = Why::Disagreeing { name, other };
    Err(Trouble::Found { why })
}

/// The global metadata of a snapshot.
fn fetch_global<Q: Client>(
    alloc: Global,
    desk: &mut Q,
    count: &mut u64,
    uuid: Id,
) -> Result<GlobalMeta, Trouble<Q::Stage, Q::Fetch>>
    requires alone { Q.start.alone ≡ true }
    requires may { CanCheck Q.start (Q.seen desk.old) (Meta uuid.number) }
    requires so_far { IsSoFar Q.start (Q.seen desk.old) count.old }
    ensures read { IfOk result (λ meta. ReadAs Q.start (caller_of Q.start (Q.seen desk.new)) (Meta uuid.number) (formats_of Q.start).global (global_of_code meta)) }
    ensures so_far { IfOk result (λ meta. IsSoFar Q.start (Q.seen desk.new) count.new) }
    ensures trouble { IfErr result (Shown Q.Fetch.faults Q.start (Q.seen desk.new)) }
    ensures first { IfErr result (TellsOne (Just (Meta uuid.number))) }
    ensures went { Went Q.start (Q.seen desk.old) (Q.seen desk.new) (Just (Meta uuid.number)) }
{
    let name = BlobName::Meta(uuid);
    let bytes = fetch_whole(alloc, desk, count, name)?;
    match read_global(alloc, bytes.as_slice()) {
        Ok(meta) => Ok(meta),
        Err(refusal) => Err(unread(name, refusal)),
    }
}

/// The global metadata of a snapshot are what its info says.
fn check_global<Q: Client>(
    alloc: Global,
    desk: &mut Q,
    count: &mut u64,
    uuid: Id,
    info: &SnapInfo,
) -> Result<(), Trouble<Q::Stage, Q::Fetch>>
    requires alone { Q.start.alone ≡ true }
    requires may { CanCheck Q.start (Q.seen desk.old) (Meta uuid.number) }
    requires info { ReadAs Q.start (caller_of Q.start (Q.seen desk.old)) (Snap uuid.number) (formats_of Q.start).info (info_of_code info.now) }
    requires so_far { IsSoFar Q.start (Q.seen desk.old) count.old }
    ensures read { OnOk result (ReadAs Q.start (caller_of Q.start (Q.seen desk.new)) (Meta uuid.number) (formats_of Q.start).global (global_of (info_of_code info.now))) }
    ensures so_far { OnOk result (IsSoFar Q.start (Q.seen desk.new) count.new) }
    ensures trouble { IfErr result (Shown Q.Fetch.faults Q.start (Q.seen desk.new)) }
    ensures first { IfErr result (TellsOne (Just (Meta uuid.number))) }
    ensures went { Went Q.start (Q.seen desk.old) (Q.seen desk.new) (Just (Meta uuid.number)) }
{
    let meta = fetch_global(alloc, desk, count, uuid)?;
    if is_global_of(&meta, info) {
        return Ok(());
    }
    let name = BlobName::Meta(uuid);
    let other = BlobName::Snap(uuid);
    let why = Why::Disagreeing { name, other };
    Err(Trouble::Found { why })
}

/// The metadata of an index in a snapshot.
fn fetch_meta<Q: Client>(
    alloc: Global,
    desk: &mut Q,
    count: &mut u64,
    index: Id,
    uuid: Id,
) -> Result<IndexMeta, Trouble<Q::Stage, Q::Fetch>>
    requires alone { Q.start.alone ≡ true }
    requires may { CanCheck Q.start (Q.seen desk.old) (MetaName index.number uuid.number) }
    requires so_far { IsSoFar Q.start (Q.seen desk.old) count.old }
    ensures read { IfOk result (λ meta. ReadAs Q.start (caller_of Q.start (Q.seen desk.new)) (MetaName index.number uuid.number) (formats_of Q.start).index_meta (index_meta_of meta)) }
    ensures so_far { IfOk result (λ meta. IsSoFar Q.start (Q.seen desk.new) count.new) }
    ensures trouble { IfErr result (Shown Q.Fetch.faults Q.start (Q.seen desk.new)) }
    ensures first { IfErr result (TellsOne (Just (MetaName index.number uuid.number))) }
    ensures went { Went Q.start (Q.seen desk.old) (Q.seen desk.new) (Just (MetaName index.number uuid.number)) }
{
    let name = BlobName::IndexMeta(index, uuid);
    let bytes = fetch_whole(alloc, desk, count, name)?;
    match read_index_meta(alloc, bytes.as_slice()) {
        Ok(meta) => Ok(meta),
        Err(refusal) => Err(unread(name, refusal)),
    }
}

/// The metadata of an index in a snapshot are what the snapshot's info says.
fn check_meta<Q: Client>(
    alloc: Global,
    desk: &mut Q,
    count: &mut u64,
    uuid: Id,
    info: &SnapInfo,
    index: &IndexRef,
) -> Result<(), Trouble<Q::Stage, Q::Fetch>>
    requires alone { Q.start.alone ≡ true }
    requires may { CanCheck Q.start (Q.seen desk.old) (MetaName index.now.id.number uuid.number) }
    requires info { ReadAs Q.start (caller_of Q.start (Q.seen desk.old)) (Snap uuid.number) (formats_of Q.start).info (info_of_code info.now) }
    requires there { Has (info_of_code info.now).indices (ref_of_code index.now) }
    requires so_far { IsSoFar Q.start (Q.seen desk.old) count.old }
    ensures meta { OnOk result (HasMeta Q.start (caller_of Q.start (Q.seen desk.new)) uuid.number (ref_of_code index.now)) }
    ensures so_far { OnOk result (IsSoFar Q.start (Q.seen desk.new) count.new) }
    ensures trouble { IfErr result (Shown Q.Fetch.faults Q.start (Q.seen desk.new)) }
    ensures first { IfErr result (TellsOne (Just (MetaName index.now.id.number uuid.number))) }
    ensures went { Went Q.start (Q.seen desk.old) (Q.seen desk.new) (Just (MetaName index.now.id.number uuid.number)) }
{
    let meta = fetch_meta(alloc, desk, count, index.id, uuid)?;
    if is_meta_of(&meta, uuid, index) {
        return Ok(());
    }
    let name = BlobName::IndexMeta(index.id, uuid);
    let other = BlobName::Snap(uuid);
    let why = Why::Disagreeing { name, other };
    Err(Trouble::Found { why })
}

/// The metadata of each index that the info of a listed snapshot has.
fn check_metas<Q: Client>(
    alloc: Global,
    desk: &mut Q,
    count: &mut u64,
    snap: SnapOfRoot<'_>,
    info: &SnapInfo,
) -> Result<(), Trouble<Q::Stage, Q::Fetch>>
    requires alone { Q.start.alone ≡ true }
    requires snap { IsSnapOfRoot Q.start (Q.seen desk.old) snap.number (root_of snap.root.now) (root_snap_of snap.listed.now) }
    requires info { ReadAs Q.start (caller_of Q.start (Q.seen desk.old)) (Snap snap.listed.now.uuid.number) (formats_of Q.start).info (info_of_code info.now) }
    requires agrees { Agrees (root_of snap.root.now) (root_snap_of snap.listed.now) (info_of_code info.now) }
    requires new { AreUnfetched (caller_of Q.start (Q.seen desk.old)) (IsMetaIn snap.listed.now.uuid.number) }
    requires so_far { IsSoFar Q.start (Q.seen desk.old) count.old }
    ensures metas { OnOk result (HasMetas Q.start (caller_of Q.start (Q.seen desk.new)) snap.entry.listed.now.uuid.number (info_of_code info.now).indices) }
    ensures so_far { OnOk result (IsSoFar Q.start (Q.seen desk.new) count.new) }
    ensures trouble { IfErr result (Shown Q.Fetch.faults Q.start (Q.seen desk.new)) }
    ensures first { IfErr result (TellsOne (FirstOfMetas Q.start (caller_of Q.start (Q.seen desk.new)) snap.entry.listed.now.uuid.number (info_of_code info.now).indices)) }
    ensures went { Went Q.start (Q.seen desk.old) (Q.seen desk.new) (IsMetaIn snap.entry.listed.now.uuid.number) }
{
    for index in info.indices.as_slice() {
        check_meta(alloc, desk, count, snap.listed.uuid, info, index)?;
    }
    Ok(())
}

/// A listed snapshot: its info, and beside it its metadata.
fn check_snap<Q: Client>(
    alloc: Global,
    desk: &mut Q,
    count: &mut u64,
    snap: SnapOfRoot<'_>,
) -> Result<SnapInfo, Trouble<Q::Stage, Q::Fetch>>
    requires alone { Q.start.alone ≡ true }
    requires snap { IsSnapOfRoot Q.start (Q.seen desk.old) snap.number (root_of snap.root.now) (root_snap_of snap.listed.now) }
    requires new { AreUnfetched (caller_of Q.start (Q.seen desk.old)) (IsOfSnap snap.listed.now.uuid.number) }
    requires so_far { IsSoFar Q.start (Q.seen desk.old) count.old }
    ensures info { IfOk result (λ info. HasInfo Q.start (caller_of Q.start (Q.seen desk.new)) (root_of snap.entry.root.now) (root_snap_of snap.entry.listed.now) (info_of_code info)) }
    ensures so_far { IfOk result (λ info. IsSoFar Q.start (Q.seen desk.new) count.new) }
    ensures trouble { IfErr result (Shown Q.Fetch.faults Q.start (Q.seen desk.new)) }
    ensures first { IfErr result (TellsOne (FirstOfSnap Q.start (caller_of Q.start (Q.seen desk.new)) (root_of snap.entry.root.now) (root_snap_of snap.entry.listed.now))) }
    ensures went { Went Q.start (Q.seen desk.old) (Q.seen desk.new) (IsOfSnap snap.entry.listed.now.uuid.number) }
{
    let info = check_info(alloc, desk, count, snap)?;
    check_global(alloc, desk, count, snap.listed.uuid, &info)?;
    check_metas(alloc, desk, count, snap, &info)?;
    Ok(info)
}

/// The infos of the listed snapshots, in their order.
pub fn check_snaps<Q: Client>(
    alloc: Global,
    desk: &mut Q,
    count: &mut u64,
    root: &RootData,
    number: u64,
) -> Result<Seq<SnapInfo>, Trouble<Q::Stage, Q::Fetch>>
    requires alone { Q.start.alone ≡ true }
    requires root { HasRoot Q.start (Q.seen desk.old) number (root_of root.now) }
    requires new { AreUnfetched (caller_of Q.start (Q.seen desk.old)) IsOfAnySnap }
    requires so_far { IsSoFar Q.start (Q.seen desk.old) count.old }
    ensures infos { IfOk result (λ infos. HasInfos Q.start (caller_of Q.start (Q.seen desk.new)) (root_of root.now) (map info_of_code infos)) }
    ensures so_far { IfOk result (λ infos. IsSoFar Q.start (Q.seen desk.new) count.new) }
    ensures trouble { IfErr result (Shown Q.Fetch.faults Q.start (Q.seen desk.new)) }
    ensures first { IfErr result (TellsOne (FirstOfSnaps Q.start (caller_of Q.start (Q.seen desk.new)) (root_of root.now))) }
    ensures went { Went Q.start (Q.seen desk.old) (Q.seen desk.new) IsOfAnySnap }
{
    let mut infos = Seq::new(alloc);
    for snap in root.snapshots.as_slice() {
        let of_root = SnapOfRoot {
            root,
            number,
            listed: snap,
        };
        let info = check_snap(alloc, desk, count, of_root)?;
        if infos.push(info).is_err() {
            return Err(Trouble::Step(StepRefusal::Memory));
        }
    }
    Ok(infos)
}
