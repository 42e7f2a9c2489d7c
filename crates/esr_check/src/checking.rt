//! The check of a repository.
ghost use Rattle.std.specs.Prelude.{◌≡◌, ◌<◌, ◌^◌, [], suc, true, length, IfSome, IfErr, IfOk, OnOk, OnErr};
ghost use Rattle.esr_formats.specs.Clusters.{count_of};
ghost use Rattle.esr_desk.specs.Grew.{GrewBy};
ghost use Rattle.esr_desk.specs.Start.{world_of};
ghost use Rattle.esr_desk.specs.Own.{caller_of};
ghost use Rattle.esr_desk.specs.Evidence.{evidence};
ghost use Rattle.esr_check.specs.Began.{AsksOne, NoneChecked};
ghost use Rattle.esr_check.specs.Checked.{last_root, HasChecked, HasReadAll};
ghost use Rattle.esr_check.specs.First.{TellsOne, FirstOf, AreFirst};
ghost use Rattle.esr_check.specs.Names.{IsAny};
ghost use Rattle.esr_check.specs.Refused.{IsCheckRefused};
ghost use Rattle.esr_check.specs.Trouble.{Shown};
ghost use Rattle.esr_check.specs.Went.{IsSoFar, Went};

use crate::index::check_indices;
use crate::law::laws;
use crate::root::fetch_root;
use crate::snap::check_snaps;
use esr_desk::{Client, Hand, Look, UnitRefusal};
use esr_unit::{Trouble, ending_of, give_up};
use std::alloc::Global;

/// What a check has read: so many listed snapshots, and so many blobs.
#[derive(Clone, Copy)]
pub struct Checked {
    pub snapshots: u64,
    pub blobs: u64,
}

/// How many snapshots are listed.
fn listed_count(look: &Look) -> u64
    ensures { result ≡ length look.now.listing }
{
    look.listing.as_slice().len() as u64
}

/// The generation of the safe root, or none.
fn last_root(safe: i64) -> Option<u64>
    ensures place { result ≡ last_root safe }
    ensures few { IfSome result (λ n. n < 2 ^ 63) }
{
    if safe < 0 { None } else { Some(safe as u64) }
}

/// Reads the safe root, of this generation, and all that it reaches, once each, and answers how many blobs these are.
fn read_root<Q: Client>(
    alloc: Global,
    desk: &mut Q,
    number: u64,
) -> Result<u64, Trouble<Q::Stage, Q::Fetch>>
    requires alone { Q.start.alone ≡ true }
    requires number { number < 2 ^ 63 }
    requires safe { (world_of Q.start (Q.seen desk.old)).safe ≡ suc number }
    requires first { (caller_of Q.start (Q.seen desk.old)).fetched ≡ [] }
    requires so_far { IsSoFar Q.start (Q.seen desk.old) 0 }
    ensures read { OnOk result (HasReadAll Q.start (Q.seen desk.new)) }
    ensures so_far { IfOk result (IsSoFar Q.start (Q.seen desk.new)) }
    ensures trouble { IfErr result (Shown Q.Fetch.faults Q.start (Q.seen desk.new)) }
    ensures first { IfErr result (TellsOne (FirstOf Q.start (Q.seen desk.new))) }
    ensures went { Went Q.start (Q.seen desk.old) (Q.seen desk.new) IsAny }
{
    let mut count = 0;
    let root = fetch_root(alloc, desk, &mut count, number)?;
    let infos = check_snaps(alloc, desk, &mut count, &root, number)?;
    check_indices(alloc, desk, &mut count, &root, infos.as_slice())?;
    Ok(count)
}

/// The same; none where there is no root.
fn read_all<Q: Client>(
    alloc: Global,
    desk: &mut Q,
    safe: i64,
) -> Result<u64, Trouble<Q::Stage, Q::Fetch>>
    requires alone { Q.start.alone ≡ true }
    requires safe { count_of safe ≡ (world_of Q.start (Q.seen desk.old)).safe }
    requires first { (caller_of Q.start (Q.seen desk.old)).fetched ≡ [] }
    requires so_far { IsSoFar Q.start (Q.seen desk.old) 0 }
    ensures read { OnOk result (HasReadAll Q.start (Q.seen desk.new)) }
    ensures rootless { IfOk result (λ n. count_of safe ≡ 0 → n ≡ 0) }
    ensures so_far { IfOk result (IsSoFar Q.start (Q.seen desk.new)) }
    ensures trouble { IfErr result (Shown Q.Fetch.faults Q.start (Q.seen desk.new)) }
    ensures first { IfErr result (TellsOne (FirstOf Q.start (Q.seen desk.new))) }
    ensures went { Went Q.start (Q.seen desk.old) (Q.seen desk.new) IsAny }
{
    match last_root(safe) {
        Some(number) => read_root(alloc, desk, number),
        None => Ok(0),
    }
}

/// Checks the repository: looks, reads the safe root and each blob that it reaches, once, compares what it read, and ends the
/// check. Where a fetch failed, or a blob is absent, doesn't read, has another print than is stated or disagrees with one that was
/// read before, the check ends as failed, with the first of these.
pub fn check<Q: Client>(alloc: Global, desk: &mut Q) -> Result<Checked, UnitRefusal>
    requires alone { Q.start.alone ≡ true }
    ensures ok { IfOk result (λ c. HasChecked Q.start (Q.seen desk.old) (Q.seen desk.new) c.snapshots c.blobs) }
    ensures refused { IfErr result (IsCheckRefused (evidence Q.Stage.faults Q.Fetch.faults Q.Shard.faults Q.Target.faults Q.Shard.told Q.Target.told) Q.start
        (Q.seen desk.old) (Q.seen desk.new)) }
    ensures asked { AsksOne (Q.seen desk.old) (Q.seen desk.new) result }
    ensures unchecked { OnErr result (NoneChecked (Q.seen desk.old) (Q.seen desk.new)) }
    ensures first { AreFirst Q.start (Q.seen desk.old) → AreFirst Q.start (Q.seen desk.new) }
    ensures grew { GrewBy Q.start 0 (Q.seen desk.old) (Q.seen desk.new) }
{
    laws();
    let look = match desk.look(alloc) {
        Ok(look) => look,
        Err(refusal) => return Err(UnitRefusal::Stopped(refusal)),
    };
    let snapshots = listed_count(&look);
    let blobs = match read_all(alloc, desk, look.safe) {
        Ok(blobs) => blobs,
        Err(trouble) => return Err(give_up(alloc, desk, Hand::Check, 0, ending_of(trouble))),
    };
    match desk.end_check(alloc, snapshots, blobs) {
        Ok(()) => Ok(Checked { snapshots, blobs }),
        Err(refusal) => Err(UnitRefusal::Stopped(refusal)),
    }
}
