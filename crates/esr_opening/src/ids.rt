//! Ids of terms that have not come.
ghost use Rattle.std.specs.Prelude.{◌≡◌, ◌∷◌, map, option_map};
ghost use Rattle.esr_formats.specs.Ids.{number_of};
ghost use Rattle.esr_formats.specs.Roots.{root_of, root_snap_of, root_index_of};
ghost use Rattle.esr_opening.specs.Foreign.{generation_ids, index_ids, snapshot_ids, root_ids, first_from};

use esr_names::Id;
use esr_root::{RootData, RootIndex, RootSnap};

/// The first generation that isn't below the bound.
fn foreign_generation(generations: &[Option<Id>], bound: Id) -> Option<Id>
    ensures { option_map number_of result ≡ first_from bound.number (generation_ids (map (option_map number_of) generations.now)) }
{
    for generation in generations {
        if let Some(id) = generation {
            if id.number >= bound.number {
                return Some(*id);
            }
        }
    }
    None
}

/// The id of the index, or its first generation, that isn't below the bound.
fn foreign_of(index: &RootIndex, bound: Id) -> Option<Id>
    ensures { option_map number_of result ≡ first_from bound.number (index.now.id.number ∷ generation_ids (map (option_map number_of) index.now.generations)) }
{
    if index.id.number >= bound.number {
        return Some(index.id);
    }
    foreign_generation(index.generations.as_slice(), bound)
}

/// The first such id of some indices.
fn foreign_index(indices: &[RootIndex], bound: Id) -> Option<Id>
    ensures { option_map number_of result ≡ first_from bound.number (index_ids (map root_index_of indices.now)) }
{
    for index in indices {
        if let Some(id) = foreign_of(index, bound) {
            return Some(id);
        }
    }
    None
}

/// The first uuid that isn't below the bound.
fn foreign_uuid(snaps: &[RootSnap], bound: Id) -> Option<Id>
    ensures { option_map number_of result ≡ first_from bound.number (snapshot_ids (map root_snap_of snaps.now)) }
{
    for snap in snaps {
        if snap.uuid.number >= bound.number {
            return Some(snap.uuid);
        }
    }
    None
}

/// The first id of the root that isn't below the bound: of its snapshots, then of its indices.
pub(crate) fn foreign_id(root: &RootData, bound: Id) -> Option<Id>
    ensures { option_map number_of result ≡ first_from bound.number (root_ids (root_of root.now)) }
{
    match foreign_uuid(root.snapshots.as_slice(), bound) {
        Some(uuid) => Some(uuid),
        None => foreign_index(root.indices.as_slice(), bound),
    }
}
