//! The cluster record.
ghost use Rattle.std.specs.Prelude.{◌≡◌, [], negsuc};

use crate::RecordOps;
use esr_seq::TryClone;
use std::alloc::{AllocError, Global};
use std::marker::Model;

/// The record of a cluster: its open ops, the last generation that was given out (`pending`), the one
/// that stands (`safe`, at most `pending`; both -1 before the first) and the master's term (below 2^63).
#[derive(Drop)]
pub struct ClusterRecord {
    pub ops: RecordOps,
    pub pending: i64,
    pub safe: i64,
    pub term: u64,
}

impl Model for ClusterRecord {
    ghost use Rattle.esr_record.specs.Record.{Record, AreNumbers};

    ghost Value = { Record };

    ghost view = { λ a. record { ops = a.ops; pending = a.pending; safe = a.safe; term = a.term } };

    ghost invariant = { λ a. AreNumbers a.pending a.safe a.term };
}

impl ClusterRecord {
    /// What stands for the record where there is none yet; asks for no memory.
    pub fn new(alloc: Global) -> ClusterRecord
        ensures { result ≡ record { ops = []; pending = negsuc 0; safe = negsuc 0; term = 0 } }
    {
        ClusterRecord {
            ops: RecordOps::new(alloc),
            pending: -1,
            safe: -1,
            term: 0,
        }
    }
}

impl TryClone for ClusterRecord {
    fn try_clone(&self, alloc: Global) -> Result<ClusterRecord, AllocError> {
        Ok(ClusterRecord {
            ops: self.ops.try_clone(alloc)?,
            pending: self.pending,
            safe: self.safe,
            term: self.term,
        })
    }
}
