//! Writing a root.
ghost use Rattle.std.specs.Prelude.{◌≡◌, map, IfOk, Ok};
ghost use Rattle.serde_json.specs.Data.{array, object, no_members};
ghost use Rattle.serde_json.specs.View.{view, items_of};
ghost use Rattle.esr_json.specs.Named.{with_members};
ghost use Rattle.esr_root.specs.Text.{id_data, snap_data, generation_data, index_data, index_entry, root_data, root_text};
ghost use Rattle.esr_root.specs.Reading.{root_from};
ghost use Rattle.esr_root.specs.Root.{Root, IsRoot};

use crate::{RootData, RootIndex, RootSnap};
use esr_json::{ObjectBuilder, text_value, write};
use esr_names::{Id, id_text};
use esr_seq::Bytes;
use serde_json::{Map, Value};
use std::alloc::{AllocError, Global};

fn id_value(alloc: Global, id: Id) -> Result<Value, AllocError>
    ensures { IfOk result (λ v. view v ≡ id_data id) }
{
    let bytes = id_text(id);
    let Ok(text) = str::from_utf8(&bytes) else {
        unreachable!();
    };
    text_value(alloc, text)
}

fn snap_value(alloc: Global, snap: &RootSnap) -> Result<Value, AllocError>
    ensures { IfOk result (λ v. view v ≡ snap_data snap.now) }
{
    let value = ObjectBuilder::new(alloc)
        .text("name", snap.name.as_str())?
        .number("state", u64::from(snap.state))?
        .value("uuid", id_value(alloc, snap.uuid)?)?
        .build();
    Ok(value)
}

fn snaps_value(alloc: Global, snaps: &[RootSnap]) -> Result<Value, AllocError>
    ensures { IfOk result (λ v. view v ≡ array (items_of (map snap_data snaps.now))) }
{
    let mut values = Vec::new(alloc);
    for snap in snaps {
        values.push(snap_value(alloc, snap)?)?;
    }
    Ok(Value::Array(values))
}

fn generation_value(alloc: Global, generation: Option<Id>) -> Result<Value, AllocError>
    ensures { IfOk result (λ v. view v ≡ generation_data generation) }
{
    match generation {
        Some(id) => id_value(alloc, id),
        None => text_value(alloc, "_new"),
    }
}

fn generations_value(alloc: Global, generations: &[Option<Id>]) -> Result<Value, AllocError>
    ensures { IfOk result (λ v. view v ≡ array (items_of (map generation_data generations.now))) }
{
    let mut values = Vec::new(alloc);
    for generation in generations {
        values.push(generation_value(alloc, *generation)?)?;
    }
    Ok(Value::Array(values))
}

fn ids_value(alloc: Global, ids: &[Id]) -> Result<Value, AllocError>
    ensures { IfOk result (λ v. view v ≡ array (items_of (map id_data ids.now))) }
{
    let mut values = Vec::new(alloc);
    for id in ids {
        values.push(id_value(alloc, *id)?)?;
    }
    Ok(Value::Array(values))
}

fn index_value(alloc: Global, index: &RootIndex) -> Result<Value, AllocError>
    ensures { IfOk result (λ v. view v ≡ index_data index.now) }
{
    let value = ObjectBuilder::new(alloc)
        .value("id", id_value(alloc, index.id)?)?
        .value(
            "shard_generations",
            generations_value(alloc, index.generations.as_slice())?,
        )?
        .value("snapshots", ids_value(alloc, index.snapshots.as_slice())?)?
        .build();
    Ok(value)
}

fn indices_value(alloc: Global, indices: &[RootIndex]) -> Result<Value, AllocError>
    ensures { IfOk result (λ v. view v ≡ object (with_members no_members (map index_entry indices.now))) }
{
    let mut members = Map::new(alloc);
    for index in indices {
        let name = String::from_str(alloc, index.name.as_str())?;
        members.insert(name, index_value(alloc, index)?)?;
    }
    Ok(Value::Object(members))
}

#[tactic(auto, unfolding(crate::specs::Text::root_data))]
fn root_value(alloc: Global, root: &RootData) -> Result<Value, AllocError>
    ensures { IfOk result (λ v. view v ≡ root_data root.now) }
{
    let snapshots = snaps_value(alloc, root.snapshots.as_slice())?;
    let indices = indices_value(alloc, root.indices.as_slice())?;
    let value = ObjectBuilder::new(alloc)
        .value("indices", indices)?
        .value("snapshots", snapshots)?
        .build();
    Ok(value)
}

/// The text of a root: compact, members in byte order of their keys, no final newline.
/// It reads as that root.
pub fn root_text(alloc: Global, root: &RootData) -> Result<Bytes, AllocError>
    ensures text { IfOk result (λ t. t ≡ root_text root.now) }
    ensures reads { IfOk result (λ t. root_from t ≡ Ok root.now) }
{
    root.rule();
    let value = root_value(alloc, root)?;
    let bytes = write(alloc, &value)?;
    Ok(Bytes::from_vec(bytes))
}

/// The text of a root reads as that root.
pub fn roots_read_back()
    ensures { (r : Root) → IsRoot r → root_from (root_text r) ≡ Ok r }
{}
