//! A blob that the safe root reaches is fetched, and counted.
ghost use Rattle.std.specs.Prelude.{◌≡◌, true, IfOk, IfErr};
ghost use Rattle.esr_names.specs.Layout.{IsName};
ghost use Rattle.esr_formats.specs.Names.{name_of};
ghost use Rattle.esr_desk.specs.Own.{caller_of};
ghost use Rattle.esr_desk.specs.Check.Conditions.{CanCheck};
ghost use Rattle.esr_desk.specs.Check.Shown.{HasFetched};
ghost use Rattle.esr_check.specs.First.{TellsOne};
ghost use Rattle.esr_check.specs.Names.{Just};
ghost use Rattle.esr_check.specs.Trouble.{Shown};
ghost use Rattle.esr_check.specs.Went.{IsSoFar, Came, Went};

use crate::law::laws;
use esr_depot::{CallError, read_whole};
use esr_desk::{Client, Desk, Hand, StepRefusal, Who, Why};
use esr_names::BlobName;
use esr_seq::Bytes;
use esr_unit::Trouble;
use std::alloc::Global;

/// The blob of that name, which is there, to be read from its first byte.
pub fn fetch<Q: Client>(
    alloc: Global,
    desk: &mut Q,
    count: &mut u64,
    name: BlobName,
) -> Result<Q::Fetch, Trouble<Q::Stage, Q::Fetch>>
    requires alone { Q.start.alone ≡ true }
    requires layout { IsName name }
    requires may { CanCheck Q.start (Q.seen desk.old) (name_of name) }
    requires so_far { IsSoFar Q.start (Q.seen desk.old) count.old }
    ensures came { IfOk result (λ f. Came Q.start (Q.seen desk.new) (name_of name) (Q.Fetch.left f) (Q.Fetch.is_sure f)) }
    ensures so_far { IfOk result (λ f. IsSoFar Q.start (Q.seen desk.new) count.new) }
    ensures trouble { IfErr result (Shown Q.Fetch.faults Q.start (Q.seen desk.new)) }
    ensures first { IfErr result (TellsOne (Just (name_of name))) }
    ensures went { Went Q.start (Q.seen desk.old) (Q.seen desk.new) (Just (name_of name)) }
{
    laws();
    let who = Who {
        hand: Hand::Check,
        number: 0,
    };
    match desk.fetch(alloc, who, name)? {
        Some(fetch) => {
            *count += 1;
            Ok(fetch)
        }
        None => Err(Trouble::Found {
            why: Why::Absent { name },
        }),
    }
}

/// The bytes of the blob of that name, all of them.
pub fn fetch_whole<Q: Client>(
    alloc: Global,
    desk: &mut Q,
    count: &mut u64,
    name: BlobName,
) -> Result<Bytes, Trouble<Q::Stage, Q::Fetch>>
    requires alone { Q.start.alone ≡ true }
    requires layout { IsName name }
    requires may { CanCheck Q.start (Q.seen desk.old) (name_of name) }
    requires so_far { IsSoFar Q.start (Q.seen desk.old) count.old }
    ensures fetched { IfOk result (λ bytes. HasFetched Q.start (caller_of Q.start (Q.seen desk.new)) (name_of name) bytes) }
    ensures so_far { IfOk result (λ bytes. IsSoFar Q.start (Q.seen desk.new) count.new) }
    ensures trouble { IfErr result (Shown Q.Fetch.faults Q.start (Q.seen desk.new)) }
    ensures first { IfErr result (TellsOne (Just (name_of name))) }
    ensures went { Went Q.start (Q.seen desk.old) (Q.seen desk.new) (Just (name_of name)) }
{
    let mut blob = fetch(alloc, desk, count, name)?;
    match read_whole(alloc, &mut blob) {
        Ok(bytes) => Ok(bytes),
        Err(CallError::Memory) => Err(Trouble::Step(StepRefusal::Memory)),
        Err(CallError::Failed) => Err(Trouble::Fetch { fetch: blob }),
    }
}
