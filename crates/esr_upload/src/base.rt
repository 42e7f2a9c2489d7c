//! The index on which the unit of a shard builds.
ghost use Rattle.std.specs.Prelude.{◌≡◌, ◌<◌, ℕ, Some, IfOk, IfErr, []};
ghost use Rattle.esr_model.specs.Names.{ShardIndex as IndexName};
ghost use Rattle.esr_core.specs.After.{fetching};
ghost use Rattle.esr_core.specs.Entry.{FetchStep, WasFetched};
ghost use Rattle.esr_formats.specs.Shards.{shard_index_of};
ghost use Rattle.esr_desk.specs.Calls.{HasTaken};
ghost use Rattle.esr_desk.specs.Once.{IsFresh};
ghost use Rattle.esr_desk.specs.Evidence.{HadFetch, evidence};
ghost use Rattle.esr_desk.specs.Start.{ticket_of, told_bytes};
ghost use Rattle.esr_desk.specs.Told.{TellsAll};
ghost use Rattle.esr_upload.specs.Base.{HasBase};
ghost use Rattle.esr_upload.specs.Stored.{IsAt};
ghost use Rattle.esr_upload.specs.Trouble.{Shown};
ghost use Rattle.esr_upload.specs.Worked.{Went};

use esr_desk::{Desk, Hand, Why};
use esr_formats::read_shard_index;
use esr_names::{BlobName, Id, ShardId};
use esr_seq::Bytes;
use esr_shardidx::ShardIndex;
use esr_unit::{Trouble, fetch_whole, unread};
use std::alloc::Global;

/// The bytes of the base, which is there.
fn fetch_bytes<Q: Desk>(
    alloc: Global,
    desk: &mut Q,
    ticket: u64,
    shard: ShardId,
    base: Id,
) -> Result<Bytes, Trouble<Q::Stage, Q::Fetch>>
    requires mine { HasTaken (Q.calls desk.old) ticket }
    requires at { IsAt (ticket_of Q.start (Q.seen desk.old) ticket) shard.index.number shard.number }
    requires base { (ticket_of Q.start (Q.seen desk.old) ticket).base ≡ Some base.number }
    requires few { shard.number < 1024 }
    requires new { (generation : ℕ) → IsFresh Q.start (Q.seen desk.old) ticket (FetchStep (IndexName shard.index.number shard.number generation)) }
    requires tells { TellsAll Q.start (Q.seen desk.old) ticket }
    ensures fetched { IfOk result (λ b. ticket_of Q.start (Q.seen desk.new) ticket ≡ fetching (IndexName shard.index.number shard.number base.number) (told_bytes Q.start b) (ticket_of Q.start (Q.seen desk.old) ticket)) }
    ensures found { IfOk result (λ b. HadFetch Hand.Unit (Q.seen desk.new) ticket (IndexName shard.index.number shard.number base.number) WasFetched) }
    ensures tells { IfOk result (λ b. TellsAll Q.start (Q.seen desk.new) ticket) }
    ensures trouble { IfErr result (Shown (evidence Q.Stage.faults Q.Fetch.faults Q.Shard.faults Q.Target.faults Q.Shard.told Q.Target.told) 0 (Some []) Q.start (Q.seen desk.new) ticket) }
    ensures went { Went Q.start (Q.seen desk.old) (Q.seen desk.new) ticket }
    ensures calls { Q.calls desk.new ≡ Q.calls desk.old }
{
    esr_core::refusals_are_of_their_steps();
    let name = BlobName::ShardIndex(shard, base);
    match fetch_whole(alloc, desk, Hand::Unit, ticket, name)? {
        Some(bytes) => Ok(bytes),
        None => {
            let why = Why::Absent { name };
            Err(Trouble::Found { why })
        }
    }
}

/// The index of the base, which is read to its end.
pub fn read_base<Q: Desk>(
    alloc: Global,
    desk: &mut Q,
    ticket: u64,
    shard: ShardId,
    base: Id,
) -> Result<ShardIndex, Trouble<Q::Stage, Q::Fetch>>
    requires mine { HasTaken (Q.calls desk.old) ticket }
    requires at { IsAt (ticket_of Q.start (Q.seen desk.old) ticket) shard.index.number shard.number }
    requires base { (ticket_of Q.start (Q.seen desk.old) ticket).base ≡ Some base.number }
    requires few { shard.number < 1024 }
    requires new { (generation : ℕ) → IsFresh Q.start (Q.seen desk.old) ticket (FetchStep (IndexName shard.index.number shard.number generation)) }
    requires tells { TellsAll Q.start (Q.seen desk.old) ticket }
    ensures based { IfOk result (λ v. HasBase Q.start (ticket_of Q.start (Q.seen desk.old) ticket) (ticket_of Q.start (Q.seen desk.new) ticket) shard.index.number shard.number (shard_index_of v)) }
    ensures found { IfOk result (λ v. HadFetch Hand.Unit (Q.seen desk.new) ticket (IndexName shard.index.number shard.number base.number) WasFetched) }
    ensures tells { IfOk result (λ v. TellsAll Q.start (Q.seen desk.new) ticket) }
    ensures trouble { IfErr result (Shown (evidence Q.Stage.faults Q.Fetch.faults Q.Shard.faults Q.Target.faults Q.Shard.told Q.Target.told) 0 (Some []) Q.start (Q.seen desk.new) ticket) }
    ensures went { Went Q.start (Q.seen desk.old) (Q.seen desk.new) ticket }
    ensures calls { Q.calls desk.new ≡ Q.calls desk.old }
{
    let bytes = fetch_bytes(alloc, desk, ticket, shard, base)?;
    match read_shard_index(alloc, bytes.as_slice()) {
        Ok(index) => Ok(index),
        Err(refusal) => Err(unread(BlobName::ShardIndex(shard, base), refusal)),
    }
}
