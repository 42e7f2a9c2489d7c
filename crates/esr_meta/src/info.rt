//! The info of a snapshot.
ghost use Rattle.std.specs.Prelude.{◌≡◌, Ok, IfOk};
ghost use Rattle.serde_json.specs.View.{view};
ghost use Rattle.esr_json.specs.Steps.{Gives};
ghost use Rattle.esr_meta.specs.Info.{info_of, info_from, info_data, info_text, IsInfo};

use esr_json::{Key, ObjectBuilder, ReadRefusal, number, parse, write};
use esr_names::{
    Id, IndexRefs, SnapName, id_at, id_value, indices_at, indices_value, snap_name_at,
};
use esr_seq::{Bytes, TryClone};
use serde_json::Value;
use std::alloc::{AllocError, Global};
use std::marker::Model;

/// The info of a snapshot: what its shards hold together, in bytes and files (each below 2^63), its
/// indices in the command's order, its moment, name, state and uuid.
#[derive(Debug)]
pub struct SnapInfo {
    pub bytes: u64,
    pub files: u64,
    pub indices: IndexRefs,
    pub moment: u64,
    pub name: SnapName,
    pub state: u8,
    pub uuid: Id,
}

impl Drop for SnapInfo {
    // Not derived: each crate above would prove a derived one again.
    fn drop(self) {
        let SnapInfo {
            bytes: _,
            files: _,
            indices: _indices,
            moment: _,
            name: _name,
            state: _,
            uuid: _,
        } = self;
    }
}

impl Model for SnapInfo {
    ghost use Rattle.esr_meta.specs.Info.{Info, IsInfo};

    ghost Value = { Info };

    ghost view = { λ a. record { bytes = a.bytes; files = a.files; indices = a.indices; moment = a.moment; name = a.name; state = a.state; uuid = a.uuid } };

    ghost invariant = { λ a. IsInfo (record { bytes = a.bytes; files = a.files; indices = a.indices; moment = a.moment; name = a.name; state = a.state; uuid = a.uuid }) };
}

impl TryClone for SnapInfo {
    fn try_clone(&self, alloc: Global) -> Result<SnapInfo, AllocError> {
        Ok(SnapInfo {
            bytes: self.bytes,
            files: self.files,
            indices: self.indices.try_clone(alloc)?,
            moment: self.moment,
            name: self.name.try_clone(alloc)?,
            state: self.state,
            uuid: self.uuid,
        })
    }
}

#[tactic(auto, unfolding(crate::specs::Info::info_of))]
fn info_of(alloc: Global, value: &Value) -> Result<SnapInfo, ReadRefusal>
    ensures exact { Gives (λ i. i) result (info_of (view value.now)) }
    ensures valid { IfOk result IsInfo }
{
    let bytes = number(value, Key::Bytes, 0, (1 << 63) - 1)?;
    let files = number(value, Key::Files, 0, (1 << 63) - 1)?;
    let indices = indices_at(alloc, value)?;
    let moment = number(value, Key::Moment, 0, (1 << 64) - 1)?;
    let name = snap_name_at(alloc, value)?;
    let state = number(value, Key::State, 0, 255)?;
    let uuid = id_at(value, Key::Uuid)?;
    Ok(SnapInfo {
        bytes: bytes as u64,
        files: files as u64,
        indices,
        moment: moment as u64,
        name,
        state: state as u8,
        uuid,
    })
}

/// The info that a text reads as, else the first reason why it is none: members in byte order.
pub fn info_read(alloc: Global, bytes: &[u8]) -> Result<SnapInfo, ReadRefusal>
    ensures exact { Gives (λ i. i) result (info_from bytes.now) }
    ensures valid { IfOk result IsInfo }
{
    info_of(alloc, &parse(alloc, bytes)?)
}

#[tactic(auto, unfolding(crate::specs::Info::info_data))]
fn info_value(alloc: Global, info: &SnapInfo) -> Result<Value, AllocError>
    ensures value { IfOk result (λ v. view v ≡ info_data info.now) }
    ensures valid { IfOk result (λ _. IsInfo info.now) }
{
    let value = ObjectBuilder::new(alloc)
        .number("bytes", info.bytes)?
        .number("files", info.files)?
        .value("indices", indices_value(alloc, &info.indices)?)?
        .number("moment", info.moment)?
        .text("name", info.name.as_str())?
        .number("state", u64::from(info.state))?
        .value("uuid", id_value(alloc, info.uuid)?)?
        .build();
    Ok(value)
}

/// The text of a snapshot's info.
pub fn info_text(alloc: Global, info: &SnapInfo) -> Result<Bytes, AllocError>
    ensures text { IfOk result (λ t. t ≡ info_text info.now) }
    ensures reads { IfOk result (λ t. info_from t ≡ Ok info.now) }
{
    let value = info_value(alloc, info)?;
    Ok(Bytes::from_vec(write(alloc, &value)?))
}
