//! The safe root.
ghost use Rattle.std.specs.Prelude.{◌≡◌, ◌<◌, ◌^◌, [], suc, true, IfOk, IfErr};
ghost use Rattle.esr_model.specs.Names.{Root};
ghost use Rattle.esr_formats.specs.Roots.{root_of};
ghost use Rattle.esr_root.specs.Root.{IsRoot};
ghost use Rattle.esr_desk.specs.Own.{caller_of};
ghost use Rattle.esr_desk.specs.Start.{world_of};
ghost use Rattle.esr_check.specs.First.{TellsOne};
ghost use Rattle.esr_check.specs.Names.{Just};
ghost use Rattle.esr_check.specs.Pieces.{HasRoot};
ghost use Rattle.esr_check.specs.Trouble.{Shown};
ghost use Rattle.esr_check.specs.Went.{IsSoFar, Went};

use crate::fetch::fetch_whole;
use esr_desk::Client;
use esr_formats::read_root;
use esr_names::BlobName;
use esr_root::RootData;
use esr_unit::{Trouble, unread};
use std::alloc::Global;

/// The safe root, of this generation.
pub fn fetch_root<Q: Client>(
    alloc: Global,
    desk: &mut Q,
    count: &mut u64,
    number: u64,
) -> Result<RootData, Trouble<Q::Stage, Q::Fetch>>
    requires alone { Q.start.alone ≡ true }
    requires number { number < 2 ^ 63 }
    requires safe { (world_of Q.start (Q.seen desk.old)).safe ≡ suc number }
    requires first { (caller_of Q.start (Q.seen desk.old)).fetched ≡ [] }
    requires so_far { IsSoFar Q.start (Q.seen desk.old) count.old }
    ensures root { IfOk result (λ root. HasRoot Q.start (Q.seen desk.new) number (root_of root)) }
    ensures rule { IfOk result IsRoot }
    ensures so_far { IfOk result (λ root. IsSoFar Q.start (Q.seen desk.new) count.new) }
    ensures trouble { IfErr result (Shown Q.Fetch.faults Q.start (Q.seen desk.new)) }
    ensures first { IfErr result (TellsOne (Just (Root number))) }
    ensures went { Went Q.start (Q.seen desk.old) (Q.seen desk.new) (Just (Root number)) }
{
    let name = BlobName::Root(number);
    let bytes = fetch_whole(alloc, desk, count, name)?;
    match read_root(alloc, bytes.as_slice()) {
        Ok(root) => {
            let _ = &root.snapshots;
            Ok(root)
        }
        Err(refusal) => Err(unread(name, refusal)),
    }
}
