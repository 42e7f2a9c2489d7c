//! The list of a record's ops.
ghost use Rattle.std.specs.Prelude.{◌≡◌, ◌==◌, ◌++◌, ◌∷◌, [], not, IfErr, OnErr, OnOk};
ghost use Rattle.std.specs.List.{filter};
ghost use Rattle.esr_record.specs.Op.{IsOp, AreOps, last_op};

use crate::RecordOp;
use esr_seq::{TryClone, copies_of};
use std::alloc::{AllocError, AllocFailed, Global};
use std::marker::Model;

/// Ops whose numbers rise, seen as the list of them.
#[derive(Drop)]
pub struct RecordOps {
    items: Vec<RecordOp>,
}

impl Model for RecordOps {
    ghost use Rattle.std.specs.Prelude.{List};
    ghost use Rattle.esr_record.specs.declared.op.RecordOp.{RecordOp};
    ghost use Rattle.esr_record.specs.Op.{AreOps};

    ghost Value = { List RecordOp };

    ghost view = { λ a. a.items.items };

    ghost invariant = { λ a. AreOps 0 a.items.items };
}

impl RecordOps {
    /// No ops; asks for no memory.
    pub fn new(alloc: Global) -> RecordOps
        ensures { result ≡ [] }
    {
        RecordOps {
            items: Vec::new(alloc),
        }
    }

    /// Appends an op with a number above the last. Where memory is wanting the list stays, and the op
    /// comes back.
    pub fn push(&mut self, op: RecordOp) -> Result<(), AllocFailed<RecordOp>>
        requires { IsOp (last_op self.old) op }
        ensures ok { OnOk result (self.new ≡ self.old ++ op ∷ []) }
        ensures err { OnErr result (self.new ≡ self.old) }
        ensures op_returned { IfErr result (λ e. e.value ≡ op) }
    {
        self.items.push(op)
    }

    /// Removes the op with this number, if there is one.
    pub fn remove(&mut self, op: u64)
        ensures { self.new ≡ filter (λ o. not (o.op == op)) self.old }
    {
        self.items.retain(|o| o.op != op);
    }

    /// The number of the last op, or 0 where there is none.
    pub fn last(&self) -> u64
        ensures { result ≡ last_op self.now }
    {
        match self.items.last() {
            Some(op) => op.op,
            None => 0,
        }
    }

    /// The ops in order of their numbers.
    pub fn as_slice(&self) -> &[RecordOp]
        ensures items { result.now ≡ self.now }
        ensures valid { AreOps 0 self.now }
    {
        self.items.as_slice()
    }
}

impl TryClone for RecordOps {
    fn try_clone(&self, alloc: Global) -> Result<RecordOps, AllocError> {
        Ok(RecordOps {
            items: copies_of(alloc, &self.items)?,
        })
    }
}
