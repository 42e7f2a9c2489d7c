//! The infos of the snapshots that the safe root lists.
ghost use Rattle.std.specs.Prelude.{◌+◌, ◌<◌, ◌≤◌, ◌^◌, length, map, IfOk};
ghost use Rattle.esr_meta.specs.Info.{info_from};
ghost use Rattle.esr_core.specs.Restores.{AreApart};
ghost use Rattle.esr_depot.specs.Look.{now};
ghost use Rattle.esr_formats.specs.Refs.{ref_of_code};
ghost use Rattle.esr_opening.specs.Found.{read_as, agreed, info_in, infos_in};
ghost use Rattle.esr_opening.specs.Listed.{IsInfoOf, AreInfosIn};
ghost use Rattle.esr_opening.specs.Looked.{Looked, Answers, Says};
ghost use Rattle.esr_opening.specs.Part.{part};
ghost use Rattle.esr_opening.specs.Spent.{has_fault, Spends};

use crate::blob::{fetch_blob, unread};
use crate::{OpenRefusal, Why};
use esr_agreement::agrees;
use esr_depot::Depot;
use esr_formats::{read_info, write_name};
use esr_meta::SnapInfo;
use esr_names::BlobName;
use esr_progress::SnapInfos;
use esr_root::{RootData, RootSnap};
use esr_seq::{Bytes, Text};
use std::alloc::Global;

/// The info of these bytes.
fn parse_info<F>(
    alloc: Global,
    name: Text,
    bytes: Option<Bytes>,
) -> Result<SnapInfo, OpenRefusal<F>>
    ensures says { Says (read_as info_from name bytes) result }
    ensures apart { IfOk result (λ info. AreApart (map ref_of_code info.indices)) }
{
    let Some(bytes) = bytes else {
        return Err(OpenRefusal::Damaged {
            name,
            why: Why::Absent,
        });
    };
    match read_info(alloc, bytes.as_slice()) {
        Ok(info) => {
            let _ = &info.name;
            Ok(info)
        }
        Err(refusal) => Err(unread(name, refusal)),
    }
}

/// Refuses an info that says something else than the root of this number.
#[tactic(auto, unfolding(esr_names::specs::Layout::IsName))]
fn check_agreement<F>(
    alloc: Global,
    root: &RootData,
    number: u64,
    snap: &RootSnap,
    info: &SnapInfo,
) -> Result<(), OpenRefusal<F>>
    ensures { Says (agreed root.now number snap.now info.now) result }
{
    if agrees(root, snap, info) {
        return Ok(());
    }
    let name = write_name(alloc, &BlobName::Snap(snap.uuid))?;
    let with = BlobName::Root(number);
    Err(OpenRefusal::Damaged {
        name,
        why: Why::Disagrees { with },
    })
}

/// The info of the snapshot. Refuses one that isn't there, or doesn't agree with the root.
#[tactic(auto, unfolding(esr_names::specs::Layout::IsName))]
fn check_info<D: Depot>(
    alloc: Global,
    depot: &mut D,
    root: &RootData,
    number: u64,
    snap: &RootSnap,
) -> Result<SnapInfo, OpenRefusal<D::Fetch>>
    ensures looked { Looked (D.look depot.old) (D.look depot.new) (D.faults depot.old) (D.faults depot.new) }
    ensures answer { Answers D.Fetch.faults (now (D.look depot.old)) (D.faults depot.old) (D.faults depot.new)
        (λ i. info_in i.blobs root.now number snap.now) (part (λ _. tt) result) }
    ensures info { IfOk result (IsInfoOf (now (D.look depot.old)) root.now snap.now) }
    ensures spends { Spends (D.look depot.old).sure (D.look depot.new).sure 1 (has_fault result) }
    ensures calls { (D.look depot.new).clock ≤ (D.look depot.old).clock + 1 }
{
    let name = write_name(alloc, &BlobName::Snap(snap.uuid))?;
    let bytes = fetch_blob(alloc, depot, &name)?;
    let info = parse_info(alloc, name, bytes)?;
    check_agreement(alloc, root, number, snap, &info)?;
    Ok(info)
}

/// The infos of the snapshots, in their order. Refuses the first snapshot without an info that agrees with the root.
pub(crate) fn check_infos<D: Depot>(
    alloc: Global,
    depot: &mut D,
    root: &RootData,
    number: u64,
    snaps: &[RootSnap],
) -> Result<SnapInfos, OpenRefusal<D::Fetch>>
    ensures looked { Looked (D.look depot.old) (D.look depot.new) (D.faults depot.old) (D.faults depot.new) }
    ensures answer { Answers D.Fetch.faults (now (D.look depot.old)) (D.faults depot.old) (D.faults depot.new)
        (λ i. infos_in i.blobs root.now number snaps.now) (part (λ _. tt) result) }
    ensures infos { IfOk result (AreInfosIn (now (D.look depot.old)) root.now snaps.now) }
    ensures spends { Spends (D.look depot.old).sure (D.look depot.new).sure (length snaps.now) (has_fault result) }
    ensures few { length snaps.now < 2 ^ 60 }
    ensures calls { (D.look depot.new).clock ≤ (D.look depot.old).clock + length snaps.now }
{
    let mut infos = SnapInfos::new(alloc);
    for snap in snaps {
        let info = check_info(alloc, depot, root, number, snap)?;
        infos.push(info)?;
    }
    Ok(infos)
}
