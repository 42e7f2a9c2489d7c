//! The info of a snapshot beside the root that lists it.
ghost use Rattle.std.specs.Prelude.{◌≡◌, ◌==◌, ◌&&◌, true, map, option_map, if◌then◌else◌};
ghost use Rattle.esr_model.specs.Shelf.{names_uuid};
ghost use Rattle.esr_model.specs.Uploads.{same_bytes};
ghost use Rattle.esr_formats.specs.Ids.{number_of};
ghost use Rattle.esr_formats.specs.Refs.{ref_of_code};
ghost use Rattle.esr_formats.specs.Roots.{root_of, root_snap_of, root_index_of};
ghost use Rattle.esr_formats.specs.Infos.{info_of_code};
ghost use Rattle.esr_agreement.specs.Agreement.{agrees, are_served, is_served, serves, have_generations, are_told, has_ref};

use esr_meta::SnapInfo;
use esr_names::{Id, IndexName, IndexRef, SnapName};
use esr_root::{Generations, RootData, RootIndex, RootSnap};

/// The uuids have this one.
fn names_uuid(uuids: &[Id], uuid: Id) -> bool
    ensures { result ≡ names_uuid (map number_of uuids.now) uuid.number }
{
    for other in uuids {
        if other.number == uuid.number {
            return true;
        }
    }
    false
}

/// Each of the first so many shards has a generation.
fn have_generations(generations: &Generations, shards: u32) -> bool
    ensures { result ≡ have_generations (map (option_map number_of) generations.now) shards }
{
    for shard in 0..shards {
        match generations.get(shard) {
            Some(_) => {}
            None => return false,
        }
    }
    true
}

/// Two indices have one name.
fn is_named(a: &IndexName, b: &IndexName) -> bool
    ensures { result ≡ same_bytes a.now b.now }
{
    *a == *b
}

/// The root's index has the snapshot, and a generation of each of so many shards.
fn holds(index: &RootIndex, shards: u32, uuid: Id) -> bool
    ensures { result ≡ (names_uuid (root_index_of index.now).snapshots uuid.number && have_generations (root_index_of index.now).generations shards) }
{
    names_uuid(index.snapshots.as_slice(), uuid) && have_generations(&index.generations, shards)
}

/// The root's index has the name, the snapshot, and a generation of each shard.
fn serves(index: &RootIndex, told: &IndexRef, uuid: Id) -> bool
    ensures { result ≡ serves (root_index_of index.now) (ref_of_code told.now) uuid.number }
{
    is_named(&index.name, &told.name) && holds(index, told.shards, uuid)
}

/// So has the index of that id.
fn is_served(indices: &[RootIndex], told: &IndexRef, uuid: Id) -> bool
    ensures { result ≡ is_served (map root_index_of indices.now) (ref_of_code told.now) uuid.number }
{
    for index in indices {
        if index.id.number == told.id.number {
            return serves(index, told, uuid);
        }
    }
    false
}

/// Each index of the info is served.
fn are_served(indices: &[RootIndex], refs: &[IndexRef], uuid: Id) -> bool
    ensures { result ≡ are_served (map root_index_of indices.now) (map ref_of_code refs.now) uuid.number }
{
    for told in refs {
        if !is_served(indices, told, uuid) {
            return false;
        }
    }
    true
}

/// The info's index is the root's.
fn is_of(told: &IndexRef, index: &RootIndex) -> bool
    ensures { result ≡ ((told.now.id.number == index.now.id.number) && same_bytes told.now.name index.now.name) }
{
    told.id.number == index.id.number && is_named(&told.name, &index.name)
}

/// The info has this index.
fn has_ref(refs: &[IndexRef], index: &RootIndex) -> bool
    ensures { result ≡ has_ref (map ref_of_code refs.now) (root_index_of index.now) }
{
    for told in refs {
        if is_of(told, index) {
            return true;
        }
    }
    false
}

/// The info has the index, if that has the snapshot.
fn is_told(index: &RootIndex, refs: &[IndexRef], uuid: Id) -> bool
    ensures { result ≡ (if names_uuid (root_index_of index.now).snapshots uuid.number then has_ref (map ref_of_code refs.now) (root_index_of index.now) else true) }
{
    if names_uuid(index.snapshots.as_slice(), uuid) {
        has_ref(refs, index)
    } else {
        true
    }
}

/// And each that has the snapshot.
fn are_told(indices: &[RootIndex], refs: &[IndexRef], uuid: Id) -> bool
    ensures { result ≡ are_told (map root_index_of indices.now) (map ref_of_code refs.now) uuid.number }
{
    for index in indices {
        if !is_told(index, refs, uuid) {
            return false;
        }
    }
    true
}

/// The name of the info is that of the listed snapshot.
fn is_snap_named(a: &SnapName, b: &SnapName) -> bool
    ensures { result ≡ same_bytes a.now b.now }
{
    *a == *b
}

/// The uuid and the state are those of the listed snapshot.
fn has_numbers(uuid: Id, state: u8, snap: &RootSnap) -> bool
    ensures { result ≡ ((uuid.number == snap.now.uuid.number) && (state == snap.now.state)) }
{
    uuid.number == snap.uuid.number && state == snap.state
}

/// The info has the name, uuid and state of the listed snapshot.
fn is_info_of(snap: &RootSnap, info: &SnapInfo) -> bool
    ensures { result ≡ (same_bytes info.now.name snap.now.name && ((info.now.uuid.number == snap.now.uuid.number) && (info.now.state == snap.now.state))) }
{
    is_snap_named(&info.name, &snap.name) && has_numbers(info.uuid, info.state, snap)
}

/// The info has exactly the indices of the root that have the snapshot.
fn has_indices(indices: &[RootIndex], refs: &[IndexRef], uuid: Id) -> bool
    ensures { result ≡ (are_served (map root_index_of indices.now) (map ref_of_code refs.now) uuid.number && are_told (map root_index_of indices.now) (map ref_of_code refs.now) uuid.number) }
{
    are_served(indices, refs, uuid) && are_told(indices, refs, uuid)
}

/// The info agrees with the root about the snapshot that the root lists.
pub fn agrees(root: &RootData, snap: &RootSnap, info: &SnapInfo) -> bool
    ensures { result ≡ agrees (root_of root.now) (root_snap_of snap.now) (info_of_code info.now) }
{
    let indices = root.indices.as_slice();
    let refs = info.indices.as_slice();
    is_info_of(snap, info) && has_indices(indices, refs, snap.uuid)
}
