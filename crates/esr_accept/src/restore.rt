//! Which restores are accepted.
ghost use Rattle.std.specs.Prelude.{◌≡◌, ◌<◌, ◌^◌, length, map, option_map, not, nat_lt, IfOk};
ghost use Rattle.esr_core.specs.World.{World};
ghost use Rattle.esr_core.specs.Restores.{restore_opened};
ghost use Rattle.esr_formats.specs.Refs.{ref_of_code, AreApart};
ghost use Rattle.esr_formats.specs.Roots.{root_of};
ghost use Rattle.esr_ops.specs.Plan.{IsPlanOf};
ghost use Rattle.esr_accept.specs.Asking.{deleting, restore_begun, snap_uuid};
ghost use Rattle.esr_formats.specs.Ids.{number_of};
ghost use Rattle.esr_accept.specs.Accepting.{Restorable};

use crate::snapshot::{LIMIT, shards, snap_uuid};
use esr_names::{Id, IndexRefs, SnapName};
use esr_ops::{OpenDelete, OpenRestore, Refusal};
use esr_progress::Progress;
use esr_root::RootData;
use esr_seq::{Text, TryClone};
use std::alloc::{AllocError, Global};

/// The listed snapshot of a name, which may be restored. The first rule that refuses it decides.
pub fn restorable(progress: &Progress, root: &RootData, name: &SnapName) -> Result<Id, Refusal>
    ensures { (w : World) → IsPlanOf w progress.now → w.root ≡ root_of root.now → Restorable w name.now result }
{
    let list = progress.lists();
    let Some(uuid) = listed(root, name) else {
        return Err(Refusal::NoSnapshot { place: 0 });
    };
    if let Some(op) = deleting(list.deletes, uuid) {
        return Err(Refusal::BeingDeleted { op });
    }
    if is_full(list.restores) {
        return Err(Refusal::TooMany { limit: LIMIT });
    }
    Ok(uuid)
}

/// The list with a restore of these indices more, as the next op. One without shards has ended as it begins.
pub fn open_restore(
    progress: &Progress,
    alloc: Global,
    uuid: Id,
    place: &Text,
    indices: &IndexRefs,
) -> Result<Progress, AllocError>
    requires apart { AreApart (map ref_of_code indices.now) }
    requires room { progress.now.next_op < 2 ^ 62 }
    ensures { IfOk result (λ p. (w : World) → IsPlanOf w progress.now → IsPlanOf (restore_opened w uuid.number place.now (map ref_of_code indices.now)) p) }
{
    let restore = begin_restore(alloc, progress.next_op(), uuid, place, indices)?;
    progress.with_restore(alloc, restore)
}

/// Whether as many are open as may be.
fn is_full(restores: &[OpenRestore]) -> bool
    ensures { result ≡ not (nat_lt (length restores.now) 1000) }
{
    restores.len() as u64 >= LIMIT
}

/// The uuid of the listed snapshot of a name.
pub(crate) fn listed(root: &RootData, name: &SnapName) -> Option<Id>
    ensures { option_map number_of result ≡ snap_uuid (root_of root.now).snapshots name.now }
{
    snap_uuid(root.snapshots.as_slice(), name)
}

/// The number of the first open delete that names the snapshot.
pub(crate) fn deleting(deletes: &[OpenDelete], uuid: Id) -> Option<u64>
    ensures { result ≡ deleting deletes.now uuid.number }
{
    for delete in deletes {
        if delete.names(uuid) {
            return Some(delete.number());
        }
    }
    None
}

/// A restore with no shard begun.
fn begin_restore(
    alloc: Global,
    number: u64,
    uuid: Id,
    place: &Text,
    indices: &IndexRefs,
) -> Result<OpenRestore, AllocError>
    requires { AreApart (map ref_of_code indices.now) }
    ensures { IfOk result (λ r. r ≡ (number, restore_begun uuid.number place.now (map ref_of_code indices.now))) }
{
    let shards = shards(alloc, indices.as_slice())?;
    let copy = indices.try_clone(alloc)?;
    Ok(OpenRestore::new(number, uuid, place.try_clone(alloc)?, copy, shards))
}
