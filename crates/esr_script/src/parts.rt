//! The parts INDEX/SHARDS/PLACE of a snapshot.
ghost use Rattle.std.specs.Prelude.{◌≡◌, ◌||◌, ◌==◌, [], length, nat_lt, IfOk};
ghost use Rattle.std.specs.List.{after_first, before_first, list_any};
ghost use Rattle.std.specs.Option.{ok_or};
ghost use Rattle.esr_script.specs.Items.{asked_indices, index_name, is_outside, is_slash, part_index, part_place, part_shards, place, read_all, read_from};
ghost use Rattle.esr_script.specs.Numbers.{number_in};
ghost use Rattle.esr_script.specs.Script.{Gives};
ghost use Rattle.esr_script.specs.declared.refusal.Why.TheVariants.{Name, Number, Place};

use crate::item::{AskedIndex, AskedIndices};
use crate::names::index_name;
use crate::number::number_in;
use crate::refusal::{Fault, Why};
use esr_names::IndexNames;
use esr_seq::{Seq, Text};
use std::alloc::{AllocError, Global};

/// The text before the first slash, and the text after it, which is empty where there is none.
fn cut(text: &str) -> (&str, &str)
    ensures front { result.0.now ≡ before_first is_slash text.now }
    ensures back { result.1.now ≡ after_first is_slash text.now }
{
    text.split_once('/').unwrap_or((text, ""))
}

fn part_index(part: &str) -> &str
    ensures { result.now ≡ part_index part.now }
{
    cut(part).0
}

fn part_shards(part: &str) -> &str
    ensures { result.now ≡ part_shards part.now }
{
    cut(cut(part).1).0
}

fn part_place(part: &str) -> &str
    ensures { result.now ≡ part_place part.now }
{
    cut(cut(part).1).1
}

fn has_byte_outside(bytes: &[u8]) -> bool
    ensures { result ≡ list_any is_outside bytes.now }
{
    bytes.iter().any(|c| *c < 33 || *c > 126)
}

/// The place that a text tells: 1 to 512 bytes of 33 to 126.
pub(crate) fn place(alloc: Global, text: &str) -> Result<Text, Fault>
    ensures { Gives result (ok_or (place text.now) Place) }
{
    let bytes = text.as_bytes();
    if bytes.is_empty() || bytes.len() > 512 || has_byte_outside(bytes) {
        return Err(Fault::Bad(Why::Place));
    }
    Ok(Text::from_str(alloc, text)?)
}

#[tactic(auto, unfolding(crate::specs::Items::read_from))]
pub(crate) fn names_of(alloc: Global, parts: &[Text]) -> Result<IndexNames, Fault>
    ensures { Gives result (read_all (λ part. index_name (part_index part)) Name parts.now) }
{
    let mut names = Seq::new(alloc);
    for part in parts {
        names.push(index_name(alloc, part_index(part.as_str()))?)?;
    }
    Ok(names)
}

#[tactic(auto, unfolding(crate::specs::Items::read_from))]
pub(crate) fn counts_of(alloc: Global, parts: &[Text]) -> Result<Seq<u32>, Fault>
    ensures { Gives result (read_all (λ part. number_in 1 1024 (part_shards part)) Number parts.now) }
{
    let mut counts = Seq::new(alloc);
    for part in parts {
        match number_in(1, 1024, part_shards(part.as_str())) {
            Some(shards) => counts.push(shards as u32)?,
            None => return Err(Fault::Bad(Why::Number)),
        }
    }
    Ok(counts)
}

#[tactic(auto, unfolding(crate::specs::Items::read_from))]
pub(crate) fn places_of(alloc: Global, parts: &[Text]) -> Result<Seq<Text>, Fault>
    ensures { Gives result (read_all (λ part. place (part_place part)) Place parts.now) }
{
    let mut places = Seq::new(alloc);
    for part in parts {
        places.push(place(alloc, part_place(part.as_str()))?)?;
    }
    Ok(places)
}

/// The indices with these names, counts of shards and places, in order.
pub(crate) fn asked_indices(
    alloc: Global,
    names: IndexNames,
    counts: Seq<u32>,
    places: Seq<Text>,
) -> Result<AskedIndices, AllocError>
    ensures { IfOk result (λ indices. indices ≡ asked_indices names counts places) }
{
    let mut indices = Seq::new(alloc);
    let mut counts = counts.into_vec().into_iter();
    let mut places = places.into_vec().into_iter();
    for name in names.into_vec() {
        let (Some(shards), Some(place)) = (counts.next(), places.next()) else {
            return Ok(indices);
        };
        indices.push(AskedIndex {
            name,
            shards,
            place,
        })?;
    }
    Ok(indices)
}
