//! The shards of a snapshot in the order of the shelf.
ghost use Rattle.std.specs.Prelude.{◌≡◌, ◌≤◌, ◌++◌, ◌∷◌, IfOk, drop, length, map, take};
ghost use Rattle.esr_formats.specs.Refs.{ref_of_code};
ghost use Rattle.esr_model.specs.Places.{comes_first as first, numbered as numbered_from, places as all_places, put_by, shelf_places as in_order, sorted_by};
ghost use Rattle.esr_plain.specs.Places.{place_of};

use esr_names::IndexRef;
use esr_seq::{Seq, TryClone};
use std::alloc::{AllocError, Global};
use std::cmp::Ordering;

/// A shard by its index and its number.
#[derive(Drop)]
pub struct Place {
    pub index: IndexRef,
    pub number: u32,
}

/// Appends the shards of an index, by number.
fn push_numbered(alloc: Global, places: &mut Seq<Place>, index: &IndexRef) -> Result<(), AllocError>
    ensures { IfOk result (λ _. map place_of places.new ≡ map place_of places.old ++ numbered_from (ref_of_code index.now) 0 index.now.shards) }
{
    for number in 0..index.shards {
        let index = index.try_clone(alloc)?;
        places.push(Place { index, number })?;
    }
    Ok(())
}

/// All shards of indices, in the order of the indices.
fn numbered(alloc: Global, indices: &[IndexRef]) -> Result<Seq<Place>, AllocError>
    ensures { IfOk result (λ p. map place_of p ≡ all_places (map ref_of_code indices.now)) }
{
    let mut places = Seq::new(alloc);
    for index in indices {
        push_numbered(alloc, &mut places, index)?;
    }
    Ok(places)
}

/// By the index's name in byte order, then by number.
fn comes_first(a: &Place, b: &Place) -> bool
    ensures { result ≡ first (place_of a.now) (place_of b.now) }
{
    match a.index.name.as_str().cmp(b.index.name.as_str()) {
        Ordering::Less => true,
        Ordering::Equal => a.number <= b.number,
        Ordering::Greater => false,
    }
}

/// Where a shard goes among sorted ones.
fn place_among(sorted: &[Place], place: &Place) -> usize
    ensures within { result ≤ length sorted.now }
    ensures put { put_by first (place_of place.now) (map place_of sorted.now)
        ≡ take result (map place_of sorted.now) ++ place_of place.now ∷ drop result (map place_of sorted.now) }
{
    let mut at = 0;
    for old in sorted {
        if comes_first(place, old) {
            return at;
        }
        at += 1;
    }
    at
}

/// The shards of indices, by the index's name in byte order and by number within each.
pub fn shelf_places(alloc: Global, indices: &[IndexRef]) -> Result<Seq<Place>, AllocError>
    ensures { IfOk result (λ p. map place_of p ≡ in_order (map ref_of_code indices.now)) }
{
    let mut left = numbered(alloc, indices)?;
    let mut sorted = Seq::new(alloc);
    while let Some(place) = left.pop() {
        let at = place_among(sorted.as_slice(), &place);
        sorted.insert(at, place)?;
    }
    Ok(sorted)
}
