//! A blob that is written and committed.
ghost use Rattle.std.specs.Prelude.{◌≡◌, IfErr, IfOk, OnErr};
ghost use Rattle.esr_core.specs.Entry.{BeginStep, CommitStep};
ghost use Rattle.esr_core.specs.Allowed.{IsMetadata};
ghost use Rattle.esr_names.specs.Layout.{IsName};
ghost use Rattle.esr_formats.specs.Names.{name_of};
ghost use Rattle.esr_desk.specs.Start.{ticket_of, told_bytes};
ghost use Rattle.esr_desk.specs.Once.{IsFresh};
ghost use Rattle.esr_desk.specs.Calls.{HasTaken};
ghost use Rattle.esr_desk.specs.Told.{TellsAll};
ghost use Rattle.esr_desk.specs.Conditions.{CanCommit};
ghost use Rattle.esr_desk.specs.Taken.{committed_by};
ghost use Rattle.esr_desk.specs.Grew.{GrewBy};
ghost use Rattle.esr_unit.specs.Put.{PutErr};

use crate::trouble::Trouble;
use esr_depot::{Commit, Stage};
use esr_desk::{Desk, Named, NewBlob};
use esr_names::BlobName;
use std::alloc::Global;

/// Writes a blob that its ticket has not begun yet, and commits it.
pub fn put<Q: Desk>(
    alloc: Global,
    desk: &mut Q,
    ticket: u64,
    name: BlobName,
    bytes: &[u8],
) -> Result<Commit, Trouble<Q::Stage, Q::Fetch>>
    requires mine { HasTaken (Q.calls desk.old) ticket }
    requires layout { IsName name }
    requires may { CanCommit Q.start (ticket_of Q.start (Q.seen desk.old) ticket) (name_of name) bytes.now }
    requires new { IsFresh Q.start (Q.seen desk.old) ticket (BeginStep (name_of name)) }
    requires whole { IsFresh Q.start (Q.seen desk.old) ticket (CommitStep (name_of name)) }
    ensures own { IfOk result (λ c. ticket_of Q.start (Q.seen desk.new) ticket
        ≡ committed_by (name_of name) (told_bytes Q.start bytes.now) c (ticket_of Q.start (Q.seen desk.old) ticket)) }
    ensures found { IfOk result (λ c. c ≡ Commit.Exists → IsMetadata (name_of name)) }
    ensures tells { IfOk result (λ c. TellsAll Q.start (Q.seen desk.old) ticket → TellsAll Q.start (Q.seen desk.new) ticket) }
    ensures left { OnErr result (ticket_of Q.start (Q.seen desk.new) ticket ≡ ticket_of Q.start (Q.seen desk.old) ticket) }
    ensures trouble { IfErr result (PutErr Q.Stage.faults Q.start (Q.seen desk.new) ticket (name_of name)) }
    ensures grew { GrewBy Q.start ticket (Q.seen desk.old) (Q.seen desk.new) }
    ensures calls { Q.calls desk.new ≡ Q.calls desk.old }
{
    let room = bytes.len();
    let mut named = desk.begin(alloc, ticket, NewBlob { name, room })?;
    if named.stage.write(bytes).is_err() {
        return Err(Trouble::Stage { stage: named.stage });
    }
    let Named { name, stage } = named;
    Ok(desk.commit(alloc, ticket, name, stage)?)
}
