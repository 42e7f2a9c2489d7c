//! What the source of a clone has of the unit's shard.
ghost use Rattle.std.specs.Prelude.{◌≡◌, ◌<◌, ℕ, [], Some, IfOk, IfErr};
ghost use Rattle.esr_model.specs.Names.{ShardSnap as SnapName, ShardIndex as IndexName};
ghost use Rattle.esr_core.specs.After.{fetching};
ghost use Rattle.esr_core.specs.Entry.{FetchStep, WasFetched};
ghost use Rattle.esr_formats.specs.Shards.{shard_snap_of};
ghost use Rattle.esr_desk.specs.Own.{made_of};
ghost use Rattle.esr_desk.specs.Calls.{HasTaken};
ghost use Rattle.esr_desk.specs.Once.{IsFresh};
ghost use Rattle.esr_desk.specs.Evidence.{HadFetch, evidence};
ghost use Rattle.esr_desk.specs.Start.{ticket_of, told_bytes};
ghost use Rattle.esr_desk.specs.Told.{TellsAll};
ghost use Rattle.esr_upload.specs.Stored.{IsAt};
ghost use Rattle.esr_upload.specs.Trouble.{Shown};
ghost use Rattle.esr_upload.specs.Worked.{Went};
ghost use Rattle.esr_clone.specs.Copied.{HasSource};

use esr_desk::{Desk, Hand, Why};
use esr_formats::read_shard_snap;
use esr_names::{BlobName, Id, ShardId};
use esr_seq::Bytes;
use esr_shardidx::ShardSnap;
use esr_unit::{Trouble, fetch_whole, unread};
use std::alloc::Global;

/// The bytes of what the source has of the shard, which is there.
fn fetch_bytes<Q: Desk>(
    alloc: Global,
    desk: &mut Q,
    ticket: u64,
    at: ShardId,
    source: Id,
) -> Result<Bytes, Trouble<Q::Stage, Q::Fetch>>
    requires mine { HasTaken (Q.calls desk.old) ticket }
    requires at { IsAt (ticket_of Q.start (Q.seen desk.old) ticket) at.index.number at.number }
    requires source { (ticket_of Q.start (Q.seen desk.old) ticket).source ≡ Some source.number }
    requires few { at.number < 1024 }
    requires new { made_of Q.start (Q.seen desk.old) ticket ≡ [] }
    ensures fetched { IfOk result (λ b. ticket_of Q.start (Q.seen desk.new) ticket ≡ fetching (SnapName at.index.number at.number source.number) (told_bytes Q.start b) (ticket_of Q.start (Q.seen desk.old) ticket)) }
    ensures found { IfOk result (λ b. HadFetch Hand.Unit (Q.seen desk.new) ticket (SnapName at.index.number at.number source.number) WasFetched) }
    ensures unread { IfOk result (λ b. (generation : ℕ) → IsFresh Q.start (Q.seen desk.new) ticket (FetchStep (IndexName at.index.number at.number generation))) }
    ensures tells { IfOk result (λ b. TellsAll Q.start (Q.seen desk.new) ticket) }
    ensures trouble { IfErr result (Shown (evidence Q.Stage.faults Q.Fetch.faults Q.Shard.faults Q.Target.faults Q.Shard.told Q.Target.told) 0 (Some []) Q.start (Q.seen desk.new) ticket) }
    ensures went { Went Q.start (Q.seen desk.old) (Q.seen desk.new) ticket }
    ensures calls { Q.calls desk.new ≡ Q.calls desk.old }
{
    esr_core::refusals_are_of_their_steps();
    let name = BlobName::ShardSnap(at, source);
    match fetch_whole(alloc, desk, Hand::Unit, ticket, name)? {
        Some(bytes) => Ok(bytes),
        None => {
            let why = Why::Absent { name };
            Err(Trouble::Found { why })
        }
    }
}

/// What the source has of the shard.
pub fn fetch_snap<Q: Desk>(
    alloc: Global,
    desk: &mut Q,
    ticket: u64,
    at: ShardId,
    source: Id,
) -> Result<ShardSnap, Trouble<Q::Stage, Q::Fetch>>
    requires mine { HasTaken (Q.calls desk.old) ticket }
    requires at { IsAt (ticket_of Q.start (Q.seen desk.old) ticket) at.index.number at.number }
    requires source { (ticket_of Q.start (Q.seen desk.old) ticket).source ≡ Some source.number }
    requires few { at.number < 1024 }
    requires new { made_of Q.start (Q.seen desk.old) ticket ≡ [] }
    ensures read { IfOk result (λ v. HasSource Q.start (ticket_of Q.start (Q.seen desk.old) ticket) (ticket_of Q.start (Q.seen desk.new) ticket) at.index.number at.number source.number (shard_snap_of v)) }
    ensures unread { IfOk result (λ v. (generation : ℕ) → IsFresh Q.start (Q.seen desk.new) ticket (FetchStep (IndexName at.index.number at.number generation))) }
    ensures tells { IfOk result (λ v. TellsAll Q.start (Q.seen desk.new) ticket) }
    ensures trouble { IfErr result (Shown (evidence Q.Stage.faults Q.Fetch.faults Q.Shard.faults Q.Target.faults Q.Shard.told Q.Target.told) 0 (Some []) Q.start (Q.seen desk.new) ticket) }
    ensures went { Went Q.start (Q.seen desk.old) (Q.seen desk.new) ticket }
    ensures calls { Q.calls desk.new ≡ Q.calls desk.old }
{
    let bytes = fetch_bytes(alloc, desk, ticket, at, source)?;
    match read_shard_snap(alloc, bytes.as_slice()) {
        Ok(snap) => Ok(snap),
        Err(refusal) => Err(unread(BlobName::ShardSnap(at, source), refusal)),
    }
}
