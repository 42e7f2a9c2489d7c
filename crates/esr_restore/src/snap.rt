//! What a snapshot has of the unit's shard.
ghost use Rattle.std.specs.Prelude.{◌≡◌, ◌<◌, ℕ, Bool, IfOk, IfErr};
ghost use Rattle.esr_model.specs.Names.{ShardSnap as SnapName};
ghost use Rattle.esr_core.specs.Entry.{ReadBlob, ReadStep, WasFetched};
ghost use Rattle.esr_names.specs.Layout.{IsName};
ghost use Rattle.esr_formats.specs.Names.{name_of};
ghost use Rattle.esr_desk.specs.Calls.{HasTaken};
ghost use Rattle.esr_desk.specs.Once.{IsFresh};
ghost use Rattle.esr_desk.specs.Start.{told_bytes};
ghost use Rattle.esr_desk.specs.Own.{reader_of};
ghost use Rattle.esr_desk.specs.Readers.{with_read};
ghost use Rattle.esr_desk.specs.Made.{ReadsOnly};
ghost use Rattle.esr_desk.specs.Restore.Conditions.{CanRead};
ghost use Rattle.esr_desk.specs.declared.hand.Hand.TheVariants.{Restore};
ghost use Rattle.esr_restore.specs.Parts.{Came};
ghost use Rattle.esr_restore.specs.Snapped.{IsAt, HasSnap};
ghost use Rattle.esr_desk.specs.Evidence.{HadFetch, evidence};
ghost use Rattle.esr_restore.specs.Trouble.{IsTrouble};
ghost use Rattle.esr_restore.specs.Went.{Went};

use crate::job::Job;
use esr_desk::{Desk, Hand, Who, Why};
use esr_formats::read_shard_snap;
use esr_names::BlobName;
use esr_seq::Bytes;
use esr_shardidx::ShardSnap;
use esr_unit::{Trouble, fetch_whole, unread};
use std::alloc::Global;

/// The blob of that name, which is there, to be read from its first byte.
pub fn fetch<Q: Desk>(
    alloc: Global,
    desk: &mut Q,
    ticket: u64,
    name: BlobName,
) -> Result<Q::Fetch, Trouble<Q::Stage, Q::Fetch>>
    requires mine { HasTaken (Q.calls desk.old) ticket }
    requires layout { IsName name }
    requires may { CanRead Q.start (reader_of Q.start (Q.seen desk.old) ticket) (name_of name) }
    requires new { IsFresh Q.start (Q.seen desk.old) ticket (ReadStep (ReadBlob (name_of name))) }
    ensures came { IfOk result (λ f. Came Q.start (reader_of Q.start (Q.seen desk.old) ticket) (reader_of Q.start (Q.seen desk.new) ticket) (name_of name) (Q.Fetch.left f) (Q.Fetch.is_sure f)) }
    ensures found { IfOk result (λ f. HadFetch Restore (Q.seen desk.new) ticket (name_of name) WasFetched) }
    ensures reads { IfOk result (λ f. ReadsOnly Q.start (Q.seen desk.old) (Q.seen desk.new) ticket (λ n. n ≡ name_of name)) }
    ensures trouble { IfErr result (λ e. (n : ℕ) (sure : Bool) → IsTrouble (evidence Q.Stage.faults Q.Fetch.faults Q.Shard.faults Q.Target.faults Q.Shard.told Q.Target.told) n sure Q.start (Q.seen desk.new) ticket e) }
    ensures went { Went Q.start (Q.seen desk.old) (Q.seen desk.new) ticket }
    ensures calls { Q.calls desk.new ≡ Q.calls desk.old }
{
    esr_core::refusals_are_of_their_steps();
    let who = Who {
        hand: Hand::Restore,
        number: ticket,
    };
    match desk.fetch(alloc, who, name)? {
        Some(fetch) => Ok(fetch),
        None => Err(Trouble::Found {
            why: Why::Absent { name },
        }),
    }
}

/// The bytes of the shard's snapshot.
fn fetch_bytes<Q: Desk>(
    alloc: Global,
    desk: &mut Q,
    job: Job,
) -> Result<Bytes, Trouble<Q::Stage, Q::Fetch>>
    requires mine { HasTaken (Q.calls desk.old) job.ticket }
    requires at { IsAt (reader_of Q.start (Q.seen desk.old) job.ticket) job.at.index.number job.at.number job.uuid.number }
    requires few { job.at.number < 1024 }
    requires new { IsFresh Q.start (Q.seen desk.old) job.ticket (ReadStep (ReadBlob (SnapName job.at.index.number job.at.number job.uuid.number))) }
    ensures fetched { IfOk result (λ b. reader_of Q.start (Q.seen desk.new) job.ticket ≡ with_read (SnapName job.at.index.number job.at.number job.uuid.number) (told_bytes Q.start b) (reader_of Q.start (Q.seen desk.old) job.ticket)) }
    ensures found { IfOk result (λ b. HadFetch Restore (Q.seen desk.new) job.ticket (SnapName job.at.index.number job.at.number job.uuid.number) WasFetched) }
    ensures reads { IfOk result (λ b. ReadsOnly Q.start (Q.seen desk.old) (Q.seen desk.new) job.ticket (λ n. n ≡ SnapName job.at.index.number job.at.number job.uuid.number)) }
    ensures trouble { IfErr result (λ e. (n : ℕ) (sure : Bool) → IsTrouble (evidence Q.Stage.faults Q.Fetch.faults Q.Shard.faults Q.Target.faults Q.Shard.told Q.Target.told) n sure Q.start (Q.seen desk.new) job.ticket e) }
    ensures went { Went Q.start (Q.seen desk.old) (Q.seen desk.new) job.ticket }
    ensures calls { Q.calls desk.new ≡ Q.calls desk.old }
{
    esr_core::refusals_are_of_their_steps();
    let name = BlobName::ShardSnap(job.at, job.uuid);
    match fetch_whole(alloc, desk, Hand::Restore, job.ticket, name)? {
        Some(bytes) => Ok(bytes),
        None => {
            let why = Why::Absent { name };
            Err(Trouble::Found { why })
        }
    }
}

/// What the snapshot has of the shard.
pub fn fetch_snap<Q: Desk>(
    alloc: Global,
    desk: &mut Q,
    job: Job,
) -> Result<ShardSnap, Trouble<Q::Stage, Q::Fetch>>
    requires mine { HasTaken (Q.calls desk.old) job.ticket }
    requires at { IsAt (reader_of Q.start (Q.seen desk.old) job.ticket) job.at.index.number job.at.number job.uuid.number }
    requires few { job.at.number < 1024 }
    requires new { IsFresh Q.start (Q.seen desk.old) job.ticket (ReadStep (ReadBlob (SnapName job.at.index.number job.at.number job.uuid.number))) }
    ensures snap { IfOk result (λ v. HasSnap Q.start (reader_of Q.start (Q.seen desk.new) job.ticket) v) }
    ensures reads { IfOk result (λ v. ReadsOnly Q.start (Q.seen desk.old) (Q.seen desk.new) job.ticket (λ n. n ≡ SnapName job.at.index.number job.at.number job.uuid.number)) }
    ensures trouble { IfErr result (λ e. (n : ℕ) (sure : Bool) → IsTrouble (evidence Q.Stage.faults Q.Fetch.faults Q.Shard.faults Q.Target.faults Q.Shard.told Q.Target.told) n sure Q.start (Q.seen desk.new) job.ticket e) }
    ensures went { Went Q.start (Q.seen desk.old) (Q.seen desk.new) job.ticket }
    ensures calls { Q.calls desk.new ≡ Q.calls desk.old }
{
    let bytes = fetch_bytes(alloc, desk, job)?;
    match read_shard_snap(alloc, bytes.as_slice()) {
        Ok(snap) => Ok(snap),
        Err(refusal) => Err(unread(BlobName::ShardSnap(job.at, job.uuid), refusal)),
    }
}
