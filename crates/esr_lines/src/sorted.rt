//! Snapshots in the byte order of their names.
ghost use Rattle.std.specs.Prelude.{◌≡◌, ◌≤◌, ◌++◌, ◌∷◌, map, length, take, drop, IfOk};
ghost use Rattle.esr_model.specs.Places.{put_by, sorted_by};
ghost use Rattle.esr_formats.specs.Roots.{root_snap_of};
ghost use Rattle.esr_lines.specs.Lines.{name_first};

use esr_root::RootSnap;
use esr_seq::{Seq, TryClone};
use std::alloc::{AllocError, Global};

/// The first name isn't above the second.
fn comes_first(a: &RootSnap, b: &RootSnap) -> bool
    ensures { result ≡ name_first (root_snap_of a.now) (root_snap_of b.now) }
{
    a.name.as_str() <= b.name.as_str()
}

/// Where the snapshot goes among sorted ones.
fn place_of(sorted: &[RootSnap], snap: &RootSnap) -> usize
    ensures within { result ≤ length sorted.now }
    ensures put { put_by name_first (root_snap_of snap.now) (map root_snap_of sorted.now)
        ≡ take result (map root_snap_of sorted.now) ++ root_snap_of snap.now ∷ drop result (map root_snap_of sorted.now) }
{
    let mut place = 0;
    for old in sorted {
        if comes_first(snap, old) {
            return place;
        }
        place += 1;
    }
    place
}

/// The snapshots in the byte order of their names.
pub fn sorted_snaps(alloc: Global, snaps: &[RootSnap]) -> Result<Seq<RootSnap>, AllocError>
    ensures { IfOk result (λ s. map root_snap_of s ≡ sorted_by name_first (map root_snap_of snaps.now)) }
{
    let mut sorted = Seq::with_capacity(alloc, snaps.len())?;
    let mut left = snaps;
    while let [rest @ .., last] = left {
        let place = place_of(sorted.as_slice(), last);
        sorted.insert(place, last.try_clone(alloc)?)?;
        left = rest;
    }
    Ok(sorted)
}
