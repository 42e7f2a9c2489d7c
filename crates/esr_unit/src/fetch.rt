//! A whole blob through a desk.
ghost use Rattle.std.specs.Prelude.{◌≡◌, IfErr, IfOk, OnErr};
ghost use Rattle.esr_names.specs.Layout.{IsName};
ghost use Rattle.esr_formats.specs.Names.{name_of};
ghost use Rattle.esr_desk.specs.Start.{told_bytes};
ghost use Rattle.esr_desk.specs.Own.{own_of};
ghost use Rattle.esr_desk.specs.Once.{IsFresh};
ghost use Rattle.esr_desk.specs.Calls.{IsMine};
ghost use Rattle.esr_desk.specs.Hands.{fetch_step, MayFetch, own_fetched};
ghost use Rattle.esr_desk.specs.Outcome.{Stepped, fetch_reply};
ghost use Rattle.esr_desk.specs.Grew.{GrewBy};
ghost use Rattle.esr_unit.specs.Fetch.{FetchErr, IsAsked, IsFetched, LeavesCalls, MadeOne};

use crate::trouble::Trouble;
use esr_depot::{CallError, Fetch, read_whole};
use esr_desk::{Desk, Hand, StepRefusal, Who};
use esr_names::BlobName;
use esr_seq::Bytes;
use std::alloc::Global;

/// The bytes of the blob of that name, all of them, or `None` where there is none.
pub fn fetch_whole<Q: Desk>(
    alloc: Global,
    desk: &mut Q,
    hand: Hand,
    who: u64,
    name: BlobName,
) -> Result<Option<Bytes>, Trouble<Q::Stage, Q::Fetch>>
    requires mine { IsMine hand (Q.calls desk.old) who }
    requires layout { IsName name }
    requires may { MayFetch hand Q.start (Q.seen desk.old) who (name_of name) }
    requires new { IsFresh Q.start (Q.seen desk.old) who (fetch_step hand (name_of name)) }
    ensures step { IfOk result (λ o. Stepped Q.start (Q.seen desk.old) (Q.seen desk.new) who (fetch_step hand (name_of name)) (fetch_reply o)) }
    ensures own { IfOk result (λ o. own_of Q.start (Q.seen desk.new) who
        ≡ own_fetched hand (told_bytes Q.start) (name_of name) o (own_of Q.start (Q.seen desk.old) who)) }
    ensures left { OnErr result (IsFetched hand Q.start (name_of name) (own_of Q.start (Q.seen desk.old) who) (own_of Q.start (Q.seen desk.new) who)) }
    ensures trouble { IfErr result (FetchErr Q.Fetch.faults Q.start (Q.seen desk.old) (Q.seen desk.new) who (fetch_step hand (name_of name))) }
    ensures asked { IsAsked Q.start (Q.seen desk.old) (Q.seen desk.new) who (fetch_step hand (name_of name)) }
    ensures made { MadeOne Q.start (Q.seen desk.old) (Q.seen desk.new) who (fetch_step hand (name_of name)) }
    ensures grew { GrewBy Q.start who (Q.seen desk.old) (Q.seen desk.new) }
    ensures calls { IsMine hand (Q.calls desk.new) who }
    ensures others { LeavesCalls hand (Q.calls desk.old) (Q.calls desk.new) }
{
    let mut fetch = match desk.fetch(alloc, Who { hand, number: who }, name)? {
        Some(fetch) => fetch,
        None => return Ok(None),
    };
    match read_whole(alloc, &mut fetch) {
        Ok(bytes) => Ok(Some(bytes)),
        Err(CallError::Memory) => Err(Trouble::Step(StepRefusal::Memory)),
        Err(CallError::Failed) => Err(Trouble::Fetch { fetch }),
    }
}
