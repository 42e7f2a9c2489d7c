//! Infos of snapshots, and that of an op whose shards are done.
ghost use Rattle.std.specs.Prelude.{◌≡◌, Ok, Some, None, List, IfOk, IfSome};
ghost use Rattle.std.specs.FinMap as fin;
ghost use Rattle.esr_model.specs.Values.{ShardResult};
ghost use Rattle.esr_core.specs.World.{Op, AllDone, info_of};
ghost use Rattle.esr_formats.specs.Infos.{info_of_code};

use crate::Progress;
use crate::progress::place;
use esr_meta::SnapInfo;
use esr_ops::Work;
use esr_seq::Seq;
use std::alloc::{AllocError, Global};

/// Infos of snapshots, in order.
pub type SnapInfos = Seq<SnapInfo>;

impl Progress {
    /// The info that a finalization of the op writes, or `None` where no such op is open or one of its shards isn't done.
    pub fn finalized_info(&self, alloc: Global, op: u64) -> Result<Option<SnapInfo>, AllocError>
        ensures info { IfOk result (λ o. IfSome o (λ info. (x : Op) × (fin.get self.now.ops op ≡ Some x)
            × (results : List ShardResult) × AllDone x.shards results × (info_of_code info ≡ info_of x results))) }
        ensures none { result ≡ Ok None → (x : Op) (results : List ShardResult) → fin.get self.now.ops op ≡ Some x → AllDone x.shards results → ⊥ }
    {
        let Some(at) = place(&self.ops, op) else {
            return Ok(None);
        };
        let open = &self.ops[at];
        if !open.is_done() {
            return Ok(None);
        }
        match open.finalization(alloc)? {
            Work::Finalize { info, shards: _ } => Ok(Some(info)),
            _ => unreachable!(),
        }
    }
}
