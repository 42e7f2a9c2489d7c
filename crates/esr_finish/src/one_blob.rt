//! One blob.
ghost use Rattle.std.specs.Prelude.{◌≡◌, [], ◌∷◌, IfErr, OnOk};
ghost use Rattle.esr_names.specs.Layout.{IsName};
ghost use Rattle.esr_formats.specs.Names.{name_of};
ghost use Rattle.esr_desk.specs.Calls.{HasTaken};
ghost use Rattle.esr_desk.specs.Start.{ticket_of};
ghost use Rattle.esr_desk.specs.Told.{TellsAll};
ghost use Rattle.esr_finish.specs.Ticket.{MayStore, IsUnnoted, Puts};
ghost use Rattle.esr_finish.specs.Went.{Went};
ghost use Rattle.esr_finish.specs.Refused.{IsPutRefused};

use esr_depot::Stage;
use esr_desk::{Desk, Named, NewBlob};
use esr_names::BlobName;
use esr_unit::Trouble;
use std::alloc::Global;

/// Writes a blob and commits it; one of its name that is there already counts as written.
pub fn put<Q: Desk>(
    alloc: Global,
    desk: &mut Q,
    ticket: u64,
    name: BlobName,
    bytes: &[u8],
) -> Result<(), Trouble<Q::Stage, Q::Fetch>>
    requires mine { HasTaken (Q.calls desk.old) ticket }
    requires layout { IsName name }
    requires may { MayStore Q.start (ticket_of Q.start (Q.seen desk.old) ticket) (name_of name) bytes.now }
    requires new { IsUnnoted (ticket_of Q.start (Q.seen desk.old) ticket) (name_of name) }
    requires tells { TellsAll Q.start (Q.seen desk.old) ticket }
    ensures ok { OnOk result (Puts Q.start (Q.seen desk.old) (Q.seen desk.new) ticket ((name_of name, bytes.now) ∷ [])) }
    ensures tells { OnOk result (TellsAll Q.start (Q.seen desk.new) ticket) }
    ensures refused { IfErr result (λ e. IsPutRefused Q.start Q.Stage.faults (Q.seen desk.new) ticket e) }
    ensures went { Went Q.start (Q.seen desk.old) (Q.seen desk.new) ticket }
    ensures calls { Q.calls desk.new ≡ Q.calls desk.old }
{
    let room = bytes.len();
    let mut named = desk.begin(alloc, ticket, NewBlob { name, room })?;
    if named.stage.write(bytes).is_err() {
        return Err(Trouble::Stage { stage: named.stage });
    }
    let Named { name, stage } = named;
    desk.commit(alloc, ticket, name, stage)?;
    Ok(())
}
