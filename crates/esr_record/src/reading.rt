//! Reading a record.
ghost use Rattle.std.specs.Prelude.{◌≡◌, ◌<◌, ◌≤◌, ◌^◌, [], map, IfOk};
ghost use Rattle.std.specs.List.{list_any};
ghost use Rattle.serde_json.specs.View.{view};
ghost use Rattle.esr_json.specs.Steps.{Gives};
ghost use Rattle.esr_record.specs.Op.{is_id, AreUuids, IsOp, AreOps};
ghost use Rattle.esr_record.specs.Record.{IsRecord};
ghost use Rattle.esr_record.specs.Reading.{kind_of, op_number_of, uuid_item, uuids_from, create_of, clone_of, delete_of, cleanup_of, op_of, ops_from, record_of, record_from};

use crate::{ClusterRecord, Making, OpWork, RecordOp, RecordOps};
use esr_json::{Key, ReadRefusal, Reason, items, number, parse, text, text_item};
use esr_names::{Id, Ids, id_at, id_read, indices_at, snap_name_at};
use serde_json::Value;
use std::alloc::Global;

/// The kinds of op that a text can name.
#[derive(Clone, Copy)]
enum Kind {
    Create,
    Clone,
    Delete,
    Cleanup,
}

#[tactic(auto, unfolding(crate::specs::Reading::kind_of))]
fn kind_of(value: &Value) -> Result<Kind, Reason>
    ensures { result ≡ kind_of (view value.now) }
{
    match text(value, Key::Kind)? {
        "create" => Ok(Kind::Create),
        "clone" => Ok(Kind::Clone),
        "delete" => Ok(Kind::Delete),
        "cleanup" => Ok(Kind::Cleanup),
        _ => Err(Reason::BadName),
    }
}

/// The member `op`, which has to be above the number before.
#[tactic(auto, unfolding(crate::specs::Reading::op_number_of))]
fn op_number_of(last: u64, value: &Value) -> Result<u64, Reason>
    ensures exact { result ≡ op_number_of last (view value.now) }
    ensures above { IfOk result (λ op. last < op) }
    ensures most { IfOk result (λ op. op ≤ 2 ^ 62) }
{
    let op = number(value, Key::Op, 1, 1 << 62)?;
    if op <= last as i128 {
        return Err(Reason::OutOfRange {
            key: Key::Op,
            limit: last as i128,
        });
    }
    Ok(op as u64)
}

#[tactic(auto, unfolding(crate::specs::Reading::create_of))]
fn create_of(alloc: Global, last: u64, value: &Value) -> Result<RecordOp, ReadRefusal>
    ensures exact { Gives (λ o. o) result (create_of last (view value.now)) }
    ensures valid { IfOk result (IsOp last) }
{
    let indices = indices_at(alloc, value)?;
    let moment = number(value, Key::Moment, 0, (1 << 64) - 1)?;
    let name = snap_name_at(alloc, value)?;
    let op = op_number_of(last, value)?;
    let uuid = id_at(value, Key::Uuid)?;
    let info = Making {
        indices,
        moment: moment as u64,
        name,
        uuid,
    };
    Ok(RecordOp {
        op,
        work: OpWork::Create { info },
    })
}

#[tactic(auto, unfolding(crate::specs::Reading::clone_of))]
fn clone_of(alloc: Global, last: u64, value: &Value) -> Result<RecordOp, ReadRefusal>
    ensures exact { Gives (λ o. o) result (clone_of last (view value.now)) }
    ensures valid { IfOk result (IsOp last) }
{
    let indices = indices_at(alloc, value)?;
    let moment = number(value, Key::Moment, 0, (1 << 64) - 1)?;
    let name = snap_name_at(alloc, value)?;
    let op = op_number_of(last, value)?;
    let source = id_at(value, Key::Source)?;
    let uuid = id_at(value, Key::Uuid)?;
    let info = Making {
        indices,
        moment: moment as u64,
        name,
        uuid,
    };
    Ok(RecordOp {
        op,
        work: OpWork::Clone { info, source },
    })
}

#[tactic(auto, unfolding(crate::specs::Reading::uuid_item))]
fn uuid_item(value: &Value) -> Result<Id, Reason>
    ensures exact { result ≡ uuid_item (view value.now) }
    ensures range { IfOk result (λ u. u.number < 2 ^ 128) }
{
    id_read(text_item(value, Key::Uuids)?.as_bytes()).ok_or(Reason::BadId)
}

fn is_listed(uuid: Id, before: &[Id]) -> bool
    ensures { result ≡ list_any (is_id uuid) before.now }
{
    before.iter().any(|old| *old == uuid)
}

#[tactic(auto, unfolding(crate::specs::Reading::uuids_from))]
fn uuids_of(alloc: Global, values: &[Value]) -> Result<Ids, ReadRefusal>
    ensures exact { Gives (λ v. v) result (uuids_from [] (map view values.now)) }
    ensures valid { IfOk result (AreUuids []) }
{
    let mut uuids = Ids::new(alloc);
    for value in values {
        let uuid = uuid_item(value)?;
        if is_listed(uuid, uuids.as_slice()) {
            return Err(ReadRefusal::Damaged {
                why: Reason::Duplicate,
            });
        }
        uuids.push(uuid)?;
    }
    Ok(uuids)
}

#[tactic(auto, unfolding(crate::specs::Reading::delete_of))]
fn delete_of(alloc: Global, last: u64, value: &Value) -> Result<RecordOp, ReadRefusal>
    ensures exact { Gives (λ o. o) result (delete_of last (view value.now)) }
    ensures valid { IfOk result (IsOp last) }
{
    let op = op_number_of(last, value)?;
    let uuids = uuids_of(alloc, items(value, Key::Uuids)?)?;
    Ok(RecordOp {
        op,
        work: OpWork::Delete { uuids },
    })
}

#[tactic(auto, unfolding(crate::specs::Reading::cleanup_of))]
fn cleanup_of(last: u64, value: &Value) -> Result<RecordOp, Reason>
    ensures exact { result ≡ cleanup_of last (view value.now) }
    ensures valid { IfOk result (IsOp last) }
{
    let op = op_number_of(last, value)?;
    Ok(RecordOp {
        op,
        work: OpWork::Cleanup,
    })
}

#[tactic(auto, unfolding(crate::specs::Reading::op_of))]
fn op_of(alloc: Global, last: u64, value: &Value) -> Result<RecordOp, ReadRefusal>
    ensures exact { Gives (λ o. o) result (op_of last (view value.now)) }
    ensures valid { IfOk result (IsOp last) }
{
    match kind_of(value)? {
        Kind::Create => create_of(alloc, last, value),
        Kind::Clone => clone_of(alloc, last, value),
        Kind::Delete => delete_of(alloc, last, value),
        Kind::Cleanup => Ok(cleanup_of(last, value)?),
    }
}

#[tactic(auto, unfolding(crate::specs::Reading::ops_from))]
fn ops_of(alloc: Global, values: &[Value]) -> Result<RecordOps, ReadRefusal>
    ensures exact { Gives (λ v. v) result (ops_from 0 [] (map view values.now)) }
    ensures valid { IfOk result (AreOps 0) }
{
    let mut ops = RecordOps::new(alloc);
    let mut last = 0;
    for value in values {
        let op = op_of(alloc, last, value)?;
        last = op.op;
        ops.push(op)?;
    }
    Ok(ops)
}

#[tactic(auto, unfolding(crate::specs::Reading::record_of))]
fn record_of(alloc: Global, value: &Value) -> Result<ClusterRecord, ReadRefusal>
    ensures exact { Gives (λ r. r) result (record_of (view value.now)) }
    ensures valid { IfOk result IsRecord }
{
    let ops = ops_of(alloc, items(value, Key::Ops)?)?;
    let pending = number(value, Key::Pending, -1, (1 << 63) - 1)?;
    let safe = number(value, Key::Safe, -1, (1 << 63) - 1)?;
    if safe > pending {
        return Err(ReadRefusal::Damaged {
            why: Reason::OutOfRange {
                key: Key::Safe,
                limit: pending,
            },
        });
    }
    let term = number(value, Key::Term, 0, (1 << 63) - 1)?;
    Ok(ClusterRecord {
        ops,
        pending: pending as i64,
        safe: safe as i64,
        term: term as u64,
    })
}

/// The record that a text reads as, else the first reason why it is none.
pub fn record_read(alloc: Global, bytes: &[u8]) -> Result<ClusterRecord, ReadRefusal>
    ensures exact { Gives (λ r. r) result (record_from bytes.now) }
    ensures valid { IfOk result IsRecord }
{
    record_of(alloc, &parse(alloc, bytes)?)
}
