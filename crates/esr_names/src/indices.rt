//! The lists `indices` of the texts, and the members that name things.
ghost use Rattle.std.specs.Prelude.{◌≡◌, ◌<◌, ◌^◌, [], map, None, IfOk};
ghost use Rattle.std.specs.List.{list_any};
ghost use Rattle.serde_json.specs.View.{view};
ghost use Rattle.esr_json.specs.Steps.{Gives};
ghost use Rattle.esr_names.specs.NameRule.{snap_name_fault, index_name_fault};
ghost use Rattle.esr_names.specs.Indices.{id_at, snap_name_at, index_name_at, ref_of, clashes, refs_from, indices_at, id_data, ref_data, indices_data, IsRef, AreRefs};

use crate::{Id, IndexName, IndexRef, IndexRefs, NameRefusal, SnapName, id_read, id_text};
use esr_json::{Key, ObjectBuilder, ReadRefusal, Reason, items, number, text, text_value};
use serde_json::Value;
use std::alloc::{AllocError, Global};

/// A member that is the text of an id.
#[tactic(auto, unfolding(crate::specs::Indices::id_at))]
pub fn id_at(value: &Value, key: Key) -> Result<Id, Reason>
    ensures exact { result ≡ id_at key (view value.now) }
    ensures range { IfOk result (λ u. u.number < 2 ^ 128) }
{
    id_read(text(value, key)?.as_bytes()).ok_or(Reason::BadId)
}

/// The member `name`, a snapshot's.
#[tactic(auto, unfolding(crate::specs::Indices::snap_name_at))]
pub fn snap_name_at(alloc: Global, value: &Value) -> Result<SnapName, ReadRefusal>
    ensures exact { Gives (λ n. n) result (snap_name_at (view value.now)) }
    ensures rule { IfOk result (λ n. snap_name_fault n ≡ None) }
{
    match SnapName::new(alloc, text(value, Key::Name)?) {
        Ok(name) => Ok(name),
        Err(NameRefusal::Memory) => Err(ReadRefusal::Memory),
        Err(NameRefusal::Bad(_)) => Err(ReadRefusal::Damaged {
            why: Reason::BadName,
        }),
    }
}

/// The member `name`, an index's.
#[tactic(auto, unfolding(crate::specs::Indices::index_name_at))]
pub fn index_name_at(alloc: Global, value: &Value) -> Result<IndexName, ReadRefusal>
    ensures exact { Gives (λ n. n) result (index_name_at (view value.now)) }
    ensures rule { IfOk result (λ n. index_name_fault n ≡ None) }
{
    match IndexName::new(alloc, text(value, Key::Name)?) {
        Ok(name) => Ok(name),
        Err(NameRefusal::Memory) => Err(ReadRefusal::Memory),
        Err(NameRefusal::Bad(_)) => Err(ReadRefusal::Damaged {
            why: Reason::BadName,
        }),
    }
}

#[tactic(auto, unfolding(crate::specs::Indices::ref_of))]
fn ref_of(alloc: Global, value: &Value) -> Result<IndexRef, ReadRefusal>
    ensures exact { Gives (λ r. r) result (ref_of (view value.now)) }
    ensures valid { IfOk result IsRef }
{
    let id = id_at(value, Key::Id)?;
    let name = index_name_at(alloc, value)?;
    let shards = number(value, Key::Shards, 1, 1024)?;
    Ok(IndexRef {
        id,
        name,
        shards: shards as u32,
    })
}

/// Whether a name or an id stood before.
fn is_listed(index: &IndexRef, before: &[IndexRef]) -> bool
    ensures { result ≡ list_any (clashes index.now) before.now }
{
    before.iter().any(|old| old.name.as_str() == index.name.as_str() || old.id == index.id)
}

#[tactic(auto, unfolding(crate::specs::Indices::refs_from))]
fn refs_of(alloc: Global, values: &[Value]) -> Result<IndexRefs, ReadRefusal>
    ensures exact { Gives (λ v. v) result (refs_from [] (map view values.now)) }
    ensures valid { IfOk result (AreRefs []) }
{
    let mut refs = IndexRefs::new(alloc);
    for value in values {
        let index = ref_of(alloc, value)?;
        if is_listed(&index, refs.as_slice()) {
            return Err(ReadRefusal::Damaged {
                why: Reason::Duplicate,
            });
        }
        refs.push(index)?;
    }
    Ok(refs)
}

/// The member `indices`: a list of objects with the members `id`, `name` and `shards`, no two of
/// which have a name or an id in common.
#[tactic(auto, unfolding(crate::specs::Indices::indices_at))]
pub fn indices_at(alloc: Global, value: &Value) -> Result<IndexRefs, ReadRefusal>
    ensures exact { Gives (λ v. v) result (indices_at (view value.now)) }
    ensures valid { IfOk result (AreRefs []) }
{
    refs_of(alloc, items(value, Key::Indices)?)
}

/// The value of an id's text.
pub fn id_value(alloc: Global, id: Id) -> Result<Value, AllocError>
    ensures value { IfOk result (λ v. view v ≡ id_data id) }
    ensures range { id.number < 2 ^ 128 }
{
    let bytes = id_text(id);
    let Ok(text) = str::from_utf8(&bytes) else {
        unreachable!();
    };
    text_value(alloc, text)
}

fn ref_value(alloc: Global, index: &IndexRef) -> Result<Value, AllocError>
    ensures { IfOk result (λ v. view v ≡ ref_data index.now) }
{
    let value = ObjectBuilder::new(alloc)
        .value("id", id_value(alloc, index.id)?)?
        .text("name", index.name.as_str())?
        .number("shards", u64::from(index.shards))?
        .build();
    Ok(value)
}

/// The value of the member `indices`.
pub fn indices_value(alloc: Global, refs: &IndexRefs) -> Result<Value, AllocError>
    ensures { IfOk result (λ v. view v ≡ indices_data refs.now) }
{
    let mut values = Vec::new(alloc);
    for index in refs.as_slice() {
        values.push(ref_value(alloc, index)?)?;
    }
    Ok(Value::Array(values))
}
