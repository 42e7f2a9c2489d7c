//! The metadata of an index.
ghost use Rattle.std.specs.Prelude.{◌≡◌, Ok, IfOk};
ghost use Rattle.serde_json.specs.View.{view};
ghost use Rattle.esr_json.specs.Steps.{Gives};
ghost use Rattle.esr_meta.specs.Index.{index_meta_of, index_meta_from, index_meta_data, index_meta_text, IsIndexMeta};

use esr_json::{Key, ObjectBuilder, ReadRefusal, number, parse, write};
use esr_names::{Id, IndexName, id_at, id_value, index_name_at};
use esr_seq::Bytes;
use serde_json::Value;
use std::alloc::{AllocError, Global};
use std::marker::Model;

/// The metadata of an index in a snapshot: the index's id and name, its number of shards (1 to 1,024)
/// and the snapshot's uuid.
#[derive(Debug, Drop)]
pub struct IndexMeta {
    pub id: Id,
    pub name: IndexName,
    pub shards: u32,
    pub uuid: Id,
}

impl Model for IndexMeta {
    ghost use Rattle.esr_meta.specs.Index.{Index, IsIndexMeta};

    ghost Value = { Index };

    ghost view = { λ a. record { id = a.id; name = a.name; shards = a.shards; uuid = a.uuid } };

    ghost invariant = { λ a. IsIndexMeta (record { id = a.id; name = a.name; shards = a.shards; uuid = a.uuid }) };
}

#[tactic(auto, unfolding(crate::specs::Index::index_meta_of))]
fn index_meta_of(alloc: Global, value: &Value) -> Result<IndexMeta, ReadRefusal>
    ensures exact { Gives (λ m. m) result (index_meta_of (view value.now)) }
    ensures valid { IfOk result IsIndexMeta }
{
    let id = id_at(value, Key::Id)?;
    let name = index_name_at(alloc, value)?;
    let shards = number(value, Key::Shards, 1, 1024)?;
    let uuid = id_at(value, Key::Uuid)?;
    Ok(IndexMeta {
        id,
        name,
        shards: shards as u32,
        uuid,
    })
}

/// The metadata of an index that a text reads as, else the first reason why it is none.
pub fn index_meta_read(alloc: Global, bytes: &[u8]) -> Result<IndexMeta, ReadRefusal>
    ensures exact { Gives (λ m. m) result (index_meta_from bytes.now) }
    ensures valid { IfOk result IsIndexMeta }
{
    index_meta_of(alloc, &parse(alloc, bytes)?)
}

#[tactic(auto, unfolding(crate::specs::Index::index_meta_data))]
fn index_meta_value(alloc: Global, meta: &IndexMeta) -> Result<Value, AllocError>
    ensures value { IfOk result (λ v. view v ≡ index_meta_data meta.now) }
    ensures valid { IfOk result (λ _. IsIndexMeta meta.now) }
{
    let value = ObjectBuilder::new(alloc)
        .value("id", id_value(alloc, meta.id)?)?
        .text("name", meta.name.as_str())?
        .number("shards", u64::from(meta.shards))?
        .value("uuid", id_value(alloc, meta.uuid)?)?
        .build();
    Ok(value)
}

/// The text of an index's metadata, which reads as it.
pub fn index_meta_text(alloc: Global, meta: &IndexMeta) -> Result<Bytes, AllocError>
    ensures text { IfOk result (λ t. t ≡ index_meta_text meta.now) }
    ensures reads { IfOk result (λ t. index_meta_from t ≡ Ok meta.now) }
{
    let value = index_meta_value(alloc, meta)?;
    Ok(Bytes::from_vec(write(alloc, &value)?))
}
