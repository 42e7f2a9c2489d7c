//! Sets of numbers.
ghost use Rattle.std.specs.Prelude.{◌≡◌, ◌||◌, ℕ, IfOk, map};
ghost use Rattle.std.specs.Ordering.{nat_cmp};
ghost use Rattle.std.specs.BTreeSet.{contains};
ghost use Rattle.esr_formats.specs.Ids.{number_of};
ghost use Rattle.esr_formats.specs.Shards.{snap_list_of};
ghost use Rattle.esr_dooming.specs.Pieces.{is_one, has_left_file};

use esr_names::Id;
use esr_shardidx::SnapList;
use std::alloc::{AllocError, Global};
use std::collections::BTreeSet;

/// The numbers of the ids.
pub(crate) fn id_set(alloc: Global, ids: &[Id]) -> Result<BTreeSet<u128>, AllocError>
    ensures { IfOk result (λ set. contains nat_cmp set ≡ is_one (map number_of ids.now)) }
{
    let mut set = BTreeSet::new(alloc);
    for id in ids {
        set.insert(id.number)?;
    }
    Ok(set)
}

/// Adds the numbers of the ids.
fn add_ids(set: &mut BTreeSet<u128>, ids: &[Id]) -> Result<(), AllocError>
    ensures { IfOk result (λ _. (q : ℕ) → contains nat_cmp set.new q ≡ (contains nat_cmp set.old q || is_one (map number_of ids.now) q)) }
{
    for id in ids {
        set.insert(id.number)?;
    }
    Ok(())
}

/// The numbers of the files that the lists of these snapshots have.
pub(crate) fn file_set(
    alloc: Global,
    left: &BTreeSet<u128>,
    lists: &[SnapList],
) -> Result<BTreeSet<u128>, AllocError>
    ensures { IfOk result (λ set. (q : ℕ) → contains nat_cmp set q ≡ has_left_file (contains nat_cmp left.now) (map snap_list_of lists.now) q) }
{
    let mut set = BTreeSet::new(alloc);
    for list in lists {
        if left.contains(&list.uuid.number) {
            add_ids(&mut set, list.files.as_slice())?;
        }
    }
    Ok(set)
}
