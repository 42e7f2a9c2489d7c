//! Reading a root.
ghost use Rattle.std.specs.Prelude.{◌≡◌, ℕ, List, [], map, Ok, IfOk, OnOk};
ghost use Rattle.std.specs.List.{list_any, list_all, AllByRecursion};
ghost use Rattle.serde_json.specs.View.{view};
ghost use Rattle.esr_json.specs.Access.{entry_view};
ghost use Rattle.esr_json.specs.Steps.{Gives};
ghost use Rattle.esr_root.specs.Ids.{has_id, repeats};
ghost use Rattle.esr_root.specs.Snaps.{clashes, lists};
ghost use Rattle.esr_root.specs.Indices.{IsListed};
ghost use Rattle.esr_root.specs.Root.{Root, IsRoot};
ghost use Rattle.esr_root.specs.Reading.{name_of, id_of, state_of, snap_of, snaps_from, root_of, root_from, index_name_of, id_item, ids_from, generation_text, generation_of, generations_from, generations_of, index_of, checked, kept, indices_from};

use crate::{Generations, RootData, RootIndex, RootIndices, RootSnap, RootSnaps};
use esr_json::{
    Key, ReadRefusal, Reason, items, items_or_none, members, number_or, parse, text, text_item,
};
use esr_names::{Id, Ids, IndexName, NameRefusal, SnapName, id_read};
use esr_seq::Seq;
use serde_json::{Map, Value};
use std::alloc::{AllocFailed, Global};

#[tactic(auto, unfolding(crate::specs::Reading::name_of))]
fn name_of(alloc: Global, value: &Value) -> Result<SnapName, ReadRefusal>
    ensures { Gives (λ n. n) result (name_of (view value.now)) }
{
    match SnapName::new(alloc, text(value, Key::Name)?) {
        Ok(name) => Ok(name),
        Err(NameRefusal::Memory) => Err(ReadRefusal::Memory),
        Err(NameRefusal::Bad(_)) => Err(ReadRefusal::Damaged {
            why: Reason::BadName,
        }),
    }
}

#[tactic(auto, unfolding(crate::specs::Reading::id_of))]
fn id_of(value: &Value, key: Key) -> Result<Id, Reason>
    ensures { result ≡ id_of key (view value.now) }
{
    id_read(text(value, key)?.as_bytes()).ok_or(Reason::BadId)
}

#[tactic(auto, unfolding(crate::specs::Reading::state_of))]
fn state_of(value: &Value) -> Result<u8, Reason>
    ensures { result ≡ state_of (view value.now) }
{
    Ok(number_or(value, Key::State, 0, 255, 1)? as u8)
}

#[tactic(auto, unfolding(crate::specs::Reading::snap_of))]
fn snap_of(alloc: Global, value: &Value) -> Result<RootSnap, ReadRefusal>
    ensures { Gives (λ s. s) result (snap_of (view value.now)) }
{
    let name = name_of(alloc, value)?;
    let uuid = id_of(value, Key::Uuid)?;
    let state = state_of(value)?;
    Ok(RootSnap { name, uuid, state })
}

/// Whether a snapshot's name or uuid stood before.
fn is_listed(before: &[RootSnap], snap: &RootSnap) -> bool
    ensures { result ≡ list_any (λ old. clashes old snap.now) before.now }
{
    before
        .iter()
        .any(|old| old.name == snap.name || old.uuid == snap.uuid)
}

#[tactic(auto, unfolding(crate::specs::Reading::snaps_from))]
fn snaps_of(alloc: Global, values: &[Value]) -> Result<RootSnaps, ReadRefusal>
    ensures { Gives (λ v. v) result (snaps_from [] (map view values.now)) }
{
    let mut snaps = RootSnaps::new(alloc);
    for value in values {
        let snap = snap_of(alloc, value)?;
        if is_listed(snaps.as_slice(), &snap) {
            return Err(ReadRefusal::Damaged {
                why: Reason::Duplicate,
            });
        }
        snaps.push(snap)?;
    }
    Ok(snaps)
}

fn index_name_of(alloc: Global, name: &str) -> Result<IndexName, ReadRefusal>
    ensures { Gives (λ n. n) result (index_name_of name.now) }
{
    match IndexName::new(alloc, name) {
        Ok(name) => Ok(name),
        Err(NameRefusal::Memory) => Err(ReadRefusal::Memory),
        Err(NameRefusal::Bad(_)) => Err(ReadRefusal::Damaged {
            why: Reason::BadName,
        }),
    }
}

#[tactic(auto, unfolding(crate::specs::Reading::id_item))]
fn id_item(value: &Value) -> Result<Id, Reason>
    ensures { result ≡ id_item (view value.now) }
{
    id_read(text_item(value, Key::Snapshots)?.as_bytes()).ok_or(Reason::BadId)
}

#[tactic(auto, unfolding(crate::specs::Reading::ids_from))]
fn ids_of(alloc: Global, values: &[Value]) -> Result<Ids, ReadRefusal>
    ensures { Gives (λ v. v) result (ids_from [] (map view values.now)) }
{
    let mut ids = Seq::new(alloc);
    for value in values {
        ids.push(id_item(value)?)?;
    }
    Ok(ids)
}

fn generation_text(text: &str) -> Result<Option<Id>, Reason>
    ensures { result ≡ generation_text text.now }
{
    if text == "_new" || text == "_deleted" {
        return Ok(None);
    }
    match id_read(text.as_bytes()) {
        Some(id) => Ok(Some(id)),
        None => Err(Reason::BadId),
    }
}

fn generation_of(value: &Value) -> Result<Option<Id>, Reason>
    ensures { result ≡ generation_of (view value.now) }
{
    match value {
        Value::Null => Ok(None),
        Value::String(text) => generation_text(text.as_str()),
        _ => Err(Reason::WrongKind {
            key: Key::ShardGenerations,
        }),
    }
}

#[tactic(auto, unfolding(crate::specs::Reading::generations_from))]
fn generations_from(alloc: Global, values: &[Value]) -> Result<Seq<Option<Id>>, ReadRefusal>
    ensures { Gives (λ v. v) result (generations_from [] (map view values.now)) }
{
    let mut generations = Seq::new(alloc);
    for value in values {
        generations.push(generation_of(value)?)?;
    }
    Ok(generations)
}

#[tactic(auto, unfolding(crate::specs::Reading::generations_of))]
fn generations_of(alloc: Global, value: &Value) -> Result<Generations, ReadRefusal>
    ensures { Gives (λ v. v) result (generations_of (view value.now)) }
{
    let values = items_or_none(value, Key::ShardGenerations)?;
    if values.len() > 1024 {
        return Err(ReadRefusal::Damaged {
            why: Reason::OutOfRange {
                key: Key::ShardGenerations,
                limit: 1024,
            },
        });
    }
    let items = generations_from(alloc, values)?;
    Ok(Generations::from_items(items))
}

#[tactic(auto, unfolding(crate::specs::Reading::index_of))]
fn index_of(alloc: Global, name: &str, value: &Value) -> Result<RootIndex, ReadRefusal>
    ensures { Gives (λ i. i) result (index_of (name.now, view value.now)) }
{
    let name = index_name_of(alloc, name)?;
    let id = id_of(value, Key::Id)?;
    let snapshots = ids_of(alloc, items(value, Key::Snapshots)?)?;
    let generations = generations_of(alloc, value)?;
    Ok(RootIndex {
        name,
        id,
        snapshots,
        generations,
    })
}

pub(crate) fn has_id(ids: &[Id], id: Id) -> bool
    ensures { result ≡ has_id id ids.now }
{
    ids.iter().any(|other| *other == id)
}

fn repeats(ids: &[Id]) -> bool
    ensures { result ≡ repeats ids.now }
{
    let mut rest = ids;
    while let [id, more @ ..] = rest {
        if has_id(more, *id) {
            return true;
        }
        rest = more;
    }
    false
}

fn lists(snaps: &[RootSnap], id: Id) -> bool
    ensures { result ≡ lists snaps.now id }
{
    snaps.iter().any(|snap| snap.uuid == id)
}

fn lists_all(snaps: &[RootSnap], ids: &[Id]) -> bool
    ensures { result ≡ list_all (lists snaps.now) ids.now }
{
    ids.iter().all(|id| lists(snaps, *id))
}

/// An index, whose id none before has, with snapshots that stand once and are listed.
fn checked(snaps: &[RootSnap], before: &[Id], index: RootIndex) -> Result<RootIndex, Reason>
    ensures { result ≡ checked snaps.now before.now index }
{
    if has_id(before, index.id) || repeats(index.snapshots.as_slice()) {
        Err(Reason::Duplicate)
    } else if !lists_all(snaps, index.snapshots.as_slice()) {
        Err(Reason::Unlisted)
    } else {
        Ok(index)
    }
}

/// Keeps an index that has snapshots.
pub(crate) fn keep(
    indices: &mut Seq<RootIndex>,
    index: RootIndex,
) -> Result<(), AllocFailed<RootIndex>>
    ensures ok { OnOk result (indices.new ≡ kept indices.old index) }
{
    if !index.snapshots.is_empty() {
        indices.push(index)?;
    }
    Ok(())
}

/// The indices in byte order of their names. The ids of those without snapshots count too.
#[tactic(auto, unfolding(crate::specs::Reading::indices_from))]
fn indices_of(
    alloc: Global,
    snaps: &[RootSnap],
    members: &Map<String, Value>,
) -> Result<RootIndices, ReadRefusal>
    ensures exact { Gives (λ v. v) result (indices_from snaps.now [] [] (map entry_view members.now.entries)) }
    ensures listed { IfOk result (AllByRecursion (IsListed snaps.now)) }
{
    let mut ids = Seq::new(alloc);
    let mut indices = Seq::new(alloc);
    for (name, value) in members.iter() {
        let index = index_of(alloc, name.as_str(), value)?;
        let index = checked(snaps, ids.as_slice(), index)?;
        ids.push(index.id)?;
        keep(&mut indices, index)?;
    }
    Ok(RootIndices::from_items(indices))
}

#[tactic(auto, unfolding(crate::specs::Reading::root_of))]
fn root_of(alloc: Global, value: &Value) -> Result<RootData, ReadRefusal>
    ensures { Gives (λ r. r) result (root_of (view value.now)) }
{
    let values = items(value, Key::Snapshots)?;
    let members = members(value, Key::Indices)?;
    let snapshots = snaps_of(alloc, values)?;
    let indices = indices_of(alloc, snapshots.as_slice(), members)?;
    Ok(RootData::from_parts(snapshots, indices))
}

/// The root that the bytes are the text of, else the first reason to refuse them. Members that a
/// root doesn't have are ignored; an index without snapshots is checked and left out.
pub fn root_read(alloc: Global, bytes: &[u8]) -> Result<RootData, ReadRefusal>
    ensures exact { Gives (λ r. r) result (root_from bytes.now) }
    ensures rule { IfOk result IsRoot }
{
    let root = root_of(alloc, &parse(alloc, bytes)?)?;
    root.rule();
    Ok(root)
}

/// What is read as a root keeps the rules of one.
pub fn read_roots_keep_the_rules()
    ensures { (bytes : List ℕ) (r : Root) → root_from bytes ≡ Ok r → IsRoot r }
{}
