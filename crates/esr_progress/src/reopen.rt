//! The list that opening makes of a record's ops.
ghost use Rattle.std.specs.Prelude.{◌≡◌, ◌≤◌, ◌^◌, length, map, IfOk, OnOk};
ghost use Rattle.esr_core.specs.World.{kept_deletes};
ghost use Rattle.esr_formats.specs.Clusters.{op_of, work_of_code};
ghost use Rattle.esr_record.specs.Op.{IsWork, AreOps};
ghost use Rattle.esr_ops.specs.Deletes.{with_kept, kept_from, kept_plan};

use crate::Progress;
use crate::tickets::Tickets;
use esr_names::Ids;
use esr_ops::OpenDelete;
use esr_record::{OpWork, RecordOp, RecordOps};
use std::alloc::{AllocError, Global};

impl Progress {
    /// The list of an opening that finds these ops in the record: its deletes, numbered from 1 on, and nothing else.
    pub fn reopened(alloc: Global, ops: &RecordOps) -> Result<Progress, AllocError>
        ensures list { IfOk result (λ p. p ≡ kept_plan (kept_deletes (map op_of ops.now))) }
        ensures few { IfOk result (λ p. p.next_op ≤ 2 ^ 61) }
    {
        let deletes = kept(alloc, ops.as_slice())?;
        let next_op = deletes.len() as u64 + 1;
        Ok(Progress {
            ops: Vec::new(alloc),
            deletes,
            completed: Vec::new(alloc),
            tickets: Tickets::new(alloc),
            next_op,
            restores: Vec::new(alloc),
        })
    }
}

/// The deletes among these ops, numbered from 1 on.
fn kept(alloc: Global, ops: &[RecordOp]) -> Result<Vec<OpenDelete>, AllocError>
    requires { AreOps 0 ops.now }
    ensures kept { IfOk result (λ v. v.items ≡ kept_from 1 (kept_deletes (map op_of ops.now))) }
    ensures few { IfOk result (λ v. length v.items ≤ 2 ^ 60) }
{
    let mut deletes = Vec::new(alloc);
    for op in ops {
        keep(alloc, &mut deletes, &op.work)?;
    }
    Ok(deletes)
}

/// Appends a delete as the next one, where the op is one. More than 2^60 fit into no memory.
fn keep(alloc: Global, deletes: &mut Vec<OpenDelete>, work: &OpWork) -> Result<(), AllocError>
    requires { IsWork work.now }
    ensures kept { OnOk result (deletes.new.items ≡ with_kept deletes.old.items (work_of_code work.now)) }
    ensures few { OnOk result (length deletes.old.items ≤ 2 ^ 60 → length deletes.new.items ≤ 2 ^ 60) }
{
    let OpWork::Delete { uuids } = work else {
        return Ok(());
    };
    if deletes.len() as u64 >= 1 << 60 {
        return Err(AllocError);
    }
    let number = deletes.len() as u64 + 1;
    let copy = Ids::from_slice(alloc, uuids.as_slice())?;
    deletes.push(OpenDelete::new(number, copy))?;
    Ok(())
}
