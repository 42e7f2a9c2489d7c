//! Writing a record.
ghost use Rattle.std.specs.Prelude.{◌≡◌, map, IfOk, Ok};
ghost use Rattle.serde_json.specs.Data.{array};
ghost use Rattle.serde_json.specs.View.{view, items_of};
ghost use Rattle.esr_names.specs.Indices.{id_data};
ghost use Rattle.esr_record.specs.Record.{IsRecord};
ghost use Rattle.esr_record.specs.Reading.{record_from};
ghost use Rattle.esr_record.specs.Text.{create_data, clone_data, op_data, record_data, record_text, work_data};
ghost use Rattle.esr_record.specs.declared.op.OpWork.TheVariants.{Cleanup, Delete};

use crate::{ClusterRecord, Making, OpWork, RecordOp};
use esr_json::{ObjectBuilder, write};
use esr_names::{Id, Ids, id_value, indices_value};
use esr_seq::Bytes;
use serde_json::Value;
use std::alloc::{AllocError, Global};

fn create_value(alloc: Global, op: u64, info: &Making) -> Result<Value, AllocError>
    ensures { IfOk result (λ v. view v ≡ create_data op info.now) }
{
    let value = ObjectBuilder::new(alloc)
        .value("indices", indices_value(alloc, &info.indices)?)?
        .text("kind", "create")?
        .number("moment", info.moment)?
        .text("name", info.name.as_str())?
        .number("op", op)?
        .value("uuid", id_value(alloc, info.uuid)?)?
        .build();
    Ok(value)
}

fn clone_value(alloc: Global, op: u64, info: &Making, source: Id) -> Result<Value, AllocError>
    ensures { IfOk result (λ v. view v ≡ clone_data op info.now source) }
{
    let value = ObjectBuilder::new(alloc)
        .value("indices", indices_value(alloc, &info.indices)?)?
        .text("kind", "clone")?
        .number("moment", info.moment)?
        .text("name", info.name.as_str())?
        .number("op", op)?
        .value("source", id_value(alloc, source)?)?
        .value("uuid", id_value(alloc, info.uuid)?)?
        .build();
    Ok(value)
}

fn uuids_value(alloc: Global, uuids: &Ids) -> Result<Value, AllocError>
    ensures { IfOk result (λ v. view v ≡ array (items_of (map id_data uuids.now))) }
{
    let mut values = Vec::new(alloc);
    for uuid in uuids.as_slice() {
        values.push(id_value(alloc, *uuid)?)?;
    }
    Ok(Value::Array(values))
}

fn delete_value(alloc: Global, op: u64, uuids: &Ids) -> Result<Value, AllocError>
    ensures { IfOk result (λ v. view v ≡ work_data op (Delete uuids.now)) }
{
    let value = ObjectBuilder::new(alloc)
        .text("kind", "delete")?
        .number("op", op)?
        .value("uuids", uuids_value(alloc, uuids)?)?
        .build();
    Ok(value)
}

fn cleanup_value(alloc: Global, op: u64) -> Result<Value, AllocError>
    ensures { IfOk result (λ v. view v ≡ work_data op Cleanup) }
{
    let value = ObjectBuilder::new(alloc)
        .text("kind", "cleanup")?
        .number("op", op)?
        .build();
    Ok(value)
}

fn op_value(alloc: Global, op: &RecordOp) -> Result<Value, AllocError>
    ensures { IfOk result (λ v. view v ≡ op_data op.now) }
{
    match &op.work {
        OpWork::Create { info } => create_value(alloc, op.op, info),
        OpWork::Clone { info, source } => clone_value(alloc, op.op, info, *source),
        OpWork::Delete { uuids } => delete_value(alloc, op.op, uuids),
        OpWork::Cleanup => cleanup_value(alloc, op.op),
    }
}

fn ops_value(alloc: Global, ops: &[RecordOp]) -> Result<Value, AllocError>
    ensures { IfOk result (λ v. view v ≡ array (items_of (map op_data ops.now))) }
{
    let mut values = Vec::new(alloc);
    for op in ops {
        values.push(op_value(alloc, op)?)?;
    }
    Ok(Value::Array(values))
}

#[tactic(auto, unfolding(crate::specs::Text::record_data))]
fn record_value(alloc: Global, cluster: &ClusterRecord) -> Result<Value, AllocError>
    ensures value { IfOk result (λ v. view v ≡ record_data cluster.now) }
    ensures valid { IfOk result (λ _. IsRecord cluster.now) }
{
    let ops = ops_value(alloc, cluster.ops.as_slice())?;
    let value = ObjectBuilder::new(alloc)
        .value("ops", ops)?
        .integer("pending", cluster.pending)?
        .integer("safe", cluster.safe)?
        .number("term", cluster.term)?
        .build();
    Ok(value)
}

/// The text of a record, which reads as it.
pub fn record_text(alloc: Global, cluster: &ClusterRecord) -> Result<Bytes, AllocError>
    ensures text { IfOk result (λ t. t ≡ record_text cluster.now) }
    ensures reads { IfOk result (λ t. record_from t ≡ Ok cluster.now) }
{
    let value = record_value(alloc, cluster)?;
    Ok(Bytes::from_vec(write(alloc, &value)?))
}
