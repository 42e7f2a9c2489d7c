//! The global metadata of a snapshot.
ghost use Rattle.std.specs.Prelude.{◌≡◌, Ok, IfOk};
ghost use Rattle.serde_json.specs.View.{view};
ghost use Rattle.esr_json.specs.Steps.{Gives};
ghost use Rattle.esr_meta.specs.Global.{global_of, global_from, global_data, global_text, IsGlobal};

use esr_json::{Key, ObjectBuilder, ReadRefusal, number, parse, write};
use esr_names::{Id, SnapName, id_at, id_value, snap_name_at};
use esr_seq::Bytes;
use serde_json::Value;
use std::alloc::{AllocError, Global};

/// The global metadata of a snapshot: its moment, name and uuid.
#[derive(Debug, Drop)]
pub struct GlobalMeta {
    pub moment: u64,
    pub name: SnapName,
    pub uuid: Id,
}

#[tactic(auto, unfolding(crate::specs::Global::global_of))]
fn global_of(alloc: Global, value: &Value) -> Result<GlobalMeta, ReadRefusal>
    ensures exact { Gives (λ m. m) result (global_of (view value.now)) }
    ensures valid { IfOk result IsGlobal }
{
    let moment = number(value, Key::Moment, 0, (1 << 64) - 1)?;
    let name = snap_name_at(alloc, value)?;
    let uuid = id_at(value, Key::Uuid)?;
    Ok(GlobalMeta {
        moment: moment as u64,
        name,
        uuid,
    })
}

/// The global metadata that a text reads as, else the first reason why it is none.
pub fn global_read(alloc: Global, bytes: &[u8]) -> Result<GlobalMeta, ReadRefusal>
    ensures exact { Gives (λ m. m) result (global_from bytes.now) }
    ensures valid { IfOk result IsGlobal }
{
    global_of(alloc, &parse(alloc, bytes)?)
}

#[tactic(auto, unfolding(crate::specs::Global::global_data))]
fn global_value(alloc: Global, meta: &GlobalMeta) -> Result<Value, AllocError>
    ensures value { IfOk result (λ v. view v ≡ global_data meta.now) }
    ensures valid { IfOk result (λ _. IsGlobal meta.now) }
{
    let value = ObjectBuilder::new(alloc)
        .number("moment", meta.moment)?
        .text("name", meta.name.as_str())?
        .value("uuid", id_value(alloc, meta.uuid)?)?
        .build();
    Ok(value)
}

/// The text of global metadata, which reads as it.
pub fn global_text(alloc: Global, meta: &GlobalMeta) -> Result<Bytes, AllocError>
    ensures text { IfOk result (λ t. t ≡ global_text meta.now) }
    ensures reads { IfOk result (λ t. global_from t ≡ Ok meta.now) }
{
    let value = global_value(alloc, meta)?;
    Ok(Bytes::from_vec(write(alloc, &value)?))
}
