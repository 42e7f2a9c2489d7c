//! The info of a listed snapshot, with what has to agree with it.
ghost use Rattle.std.specs.Prelude.{◌≡◌, ◌↔◌, IfOk, IsTrue, map, option_map};
ghost use Rattle.esr_formats.specs.Ids.{number_of};
ghost use Rattle.esr_formats.specs.Infos.{info_of_code};
ghost use Rattle.esr_formats.specs.Refs.{ref_of_code};
ghost use Rattle.esr_formats.specs.Roots.{root_of, root_index_of, root_snap_of};
ghost use Rattle.esr_model.specs.Names.{Meta, IndexMeta as MetaOfIndex};
ghost use Rattle.esr_model.specs.Image.{At, Has, Reads, global_of};
ghost use Rattle.esr_plain.specs.Exactly.{Always, IsExactly};
ghost use Rattle.esr_plain.specs.Infos.{IsOf, IsListedIn, IsReferred, AreListed, AreExact, HaveMetas, Agrees, InfoStands};

use crate::Image;
use crate::reading::{global_at, index_meta_at, info_at};
use esr_agreement::{is_global_of, is_meta_of};
use esr_meta::SnapInfo;
use esr_names::{Id, IndexRef};
use esr_root::{RootData, RootIndex, RootSnap};
use std::alloc::{AllocError, Global};

/// Whether the uuid is one of these.
fn has_uuid(uuids: &[Id], uuid: Id) -> bool
    ensures { IsTrue result ↔ Has (map number_of uuids.now) uuid.number }
{
    for one in uuids {
        if one.number == uuid.number {
            return true;
        }
    }
    false
}

/// Whether the info has the name, the uuid and the state of the listed snapshot.
fn is_of(info: &SnapInfo, snap: &RootSnap) -> bool
    ensures { IsTrue result ↔ IsOf (root_snap_of snap.now) (info_of_code info.now) }
{
    info.name.as_str() == snap.name.as_str()
        && info.uuid.number == snap.uuid.number
        && info.state == snap.state
}

/// Whether the global metadata of the snapshot are those of the info.
fn has_global(alloc: Global, image: &Image, uuid: Id, info: &SnapInfo) -> Result<bool, AllocError>
    ensures { IfOk result (λ b. Always (λ f. IsTrue b ↔ Reads (At f image.now) (Meta uuid.number) f.global (global_of (info_of_code info.now)))) }
{
    match global_at(alloc, image, uuid)? {
        Some(meta) => Ok(is_global_of(&meta, info)),
        None => Ok(false),
    }
}

/// Whether the metadata of the index in the snapshot are there.
fn has_meta(alloc: Global, image: &Image, uuid: Id, index: &IndexRef) -> Result<bool, AllocError>
    ensures { IfOk result (λ b. Always (λ f. IsTrue b ↔ Reads (At f image.now) (MetaOfIndex index.now.id.number uuid.number) f.index_meta (record { index = ref_of_code index.now; uuid = uuid.number }))) }
{
    match index_meta_at(alloc, image, index.id, uuid)? {
        Some(meta) => Ok(is_meta_of(&meta, uuid, index)),
        None => Ok(false),
    }
}

/// The same of each index.
fn have_metas(
    alloc: Global,
    image: &Image,
    uuid: Id,
    indices: &[IndexRef],
) -> Result<bool, AllocError>
    ensures { IfOk result (λ b. Always (λ f. IsTrue b ↔ HaveMetas f (At f image.now) uuid.number (map ref_of_code indices.now))) }
{
    for index in indices {
        if !has_meta(alloc, image, uuid, index)? {
            return Ok(false);
        }
    }
    Ok(true)
}

/// Whether the index is that of the reference, and has the snapshot.
fn is_index_of(listed: &RootIndex, uuid: Id, index: &IndexRef) -> bool
    ensures { IsTrue result ↔ (((root_index_of listed.now).name ≡ index.now.name) × ((root_index_of listed.now).id ≡ index.now.id.number) × Has (root_index_of listed.now).snapshots uuid.number) }
{
    listed.name.as_str() == index.name.as_str()
        && listed.id.number == index.id.number
        && has_uuid(listed.snapshots.as_slice(), uuid)
}

/// Whether the root lists the index, with the snapshot.
fn is_listed(root: &RootData, uuid: Id, index: &IndexRef) -> bool
    ensures { IsTrue result ↔ IsListedIn (root_of root.now) uuid.number (ref_of_code index.now) }
{
    for listed in root.indices.as_slice() {
        if is_index_of(listed, uuid, index) {
            return true;
        }
    }
    false
}

/// The same of each index.
fn are_listed(root: &RootData, uuid: Id, indices: &[IndexRef]) -> bool
    ensures { IsTrue result ↔ AreListed (root_of root.now) uuid.number (map ref_of_code indices.now) }
{
    for index in indices {
        if !is_listed(root, uuid, index) {
            return false;
        }
    }
    true
}

/// Whether the reference is to this index.
fn is_ref_to(index: &IndexRef, listed: &RootIndex) -> bool
    ensures { IsTrue result ↔ (((ref_of_code index.now).name ≡ listed.now.name) × ((ref_of_code index.now).id ≡ listed.now.id.number)) }
{
    index.name.as_str() == listed.name.as_str() && index.id.number == listed.id.number
}

/// Whether one of the references is to this index.
fn is_referred(indices: &[IndexRef], listed: &RootIndex) -> bool
    ensures { IsTrue result ↔ IsReferred (map ref_of_code indices.now) (root_index_of listed.now) }
{
    for index in indices {
        if is_ref_to(index, listed) {
            return true;
        }
    }
    false
}

/// Whether the index hasn't the snapshot, or is one of these.
fn is_exact(listed: &RootIndex, uuid: Id, indices: &[IndexRef]) -> bool
    ensures { IsTrue result ↔ (Has (root_index_of listed.now).snapshots uuid.number → IsReferred (map ref_of_code indices.now) (root_index_of listed.now)) }
{
    !has_uuid(listed.snapshots.as_slice(), uuid) || is_referred(indices, listed)
}

/// The same of each index of the root.
fn are_exact(root: &RootData, uuid: Id, indices: &[IndexRef]) -> bool
    ensures { IsTrue result ↔ AreExact (root_of root.now) uuid.number (map ref_of_code indices.now) }
{
    for listed in root.indices.as_slice() {
        if !is_exact(listed, uuid, indices) {
            return false;
        }
    }
    true
}

/// Whether the info agrees with the root and with the metadata.
fn agrees(
    alloc: Global,
    image: &Image,
    root: &RootData,
    snap: &RootSnap,
    info: &SnapInfo,
) -> Result<bool, AllocError>
    ensures { IfOk result (λ b. Always (λ f. IsTrue b ↔ Agrees f (At f image.now) (root_of root.now) (root_snap_of snap.now) (info_of_code info.now))) }
{
    let indices = info.indices.as_slice();
    if !is_of(info, snap) {
        return Ok(false);
    }
    if !are_listed(root, snap.uuid, indices) {
        return Ok(false);
    }
    if !are_exact(root, snap.uuid, indices) {
        return Ok(false);
    }
    if !has_global(alloc, image, snap.uuid, info)? {
        return Ok(false);
    }
    have_metas(alloc, image, snap.uuid, indices)
}

/// The info of a listed snapshot: None where it doesn't read, or something disagrees with it.
pub fn snap_info(
    alloc: Global,
    image: &Image,
    root: &RootData,
    snap: &RootSnap,
) -> Result<Option<SnapInfo>, AllocError>
    ensures { IfOk result (λ o. Always (λ f. IsExactly (InfoStands f (At f image.now) (root_of root.now) (root_snap_of snap.now)) (option_map info_of_code o))) }
{
    let Some(info) = info_at(alloc, image, snap.uuid)? else {
        return Ok(None);
    };
    if agrees(alloc, image, root, snap, &info)? {
        Ok(Some(info))
    } else {
        Ok(None)
    }
}
