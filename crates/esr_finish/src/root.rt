//! The new root, and `index.latest`.
ghost use Rattle.std.specs.Prelude.{◌≡◌, ◌<◌, ◌^◌, false, IfErr, IfOk, OnOk};
ghost use Rattle.esr_formats.specs.Infos.{info_of_code};
ghost use Rattle.esr_formats.specs.Roots.{root_of};
ghost use Rattle.esr_desk.specs.Calls.{HasTaken};
ghost use Rattle.esr_desk.specs.Start.{formats_of, ticket_of};
ghost use Rattle.esr_desk.specs.Conditions.{CanPut};
ghost use Rattle.esr_desk.specs.Taken.{tried};
ghost use Rattle.esr_desk.specs.Told.{TellsAll};
ghost use Rattle.esr_finish.specs.Ticket.{MayWrite, MayPutRoot, PutsRoot, IsWritten};
ghost use Rattle.esr_finish.specs.Went.{Went};
ghost use Rattle.esr_finish.specs.Refused.{IsPutRefused, IsLatestPut};

use crate::end::is_fault;
use crate::metadata::put_metadata;
use crate::one_blob::put;
use esr_depot::Stage;
use esr_desk::{Desk, EntryRefusal, Named, NewBlob, StepRefusal};
use esr_formats::write_root;
use esr_meta::SnapInfo;
use esr_names::BlobName;
use esr_root::RootData;
use esr_unit::Trouble;
use std::alloc::Global;

/// Begins a generation and writes its root, `index-N`; answers N.
pub fn put_root<Q: Desk>(
    alloc: Global,
    desk: &mut Q,
    ticket: u64,
    root: &RootData,
) -> Result<u64, Trouble<Q::Stage, Q::Fetch>>
    requires mine { HasTaken (Q.calls desk.old) ticket }
    requires may { MayPutRoot Q.start (ticket_of Q.start (Q.seen desk.old) ticket) (root_of root.now) }
    requires tells { TellsAll Q.start (Q.seen desk.old) ticket }
    ensures ok { IfOk result (λ n. PutsRoot Q.start (Q.seen desk.old) (Q.seen desk.new) ticket (root_of root.now) n) }
    ensures tells { IfOk result (λ n. TellsAll Q.start (Q.seen desk.new) ticket) }
    ensures refused { IfErr result (λ e. IsPutRefused Q.start Q.Stage.faults (Q.seen desk.new) ticket e) }
    ensures went { Went Q.start (Q.seen desk.old) (Q.seen desk.new) ticket }
    ensures calls { Q.calls desk.new ≡ Q.calls desk.old }
{
    let generation = desk.raise(alloc, ticket)?;
    let text = write_root(alloc, root)?;
    put(
        alloc,
        desk,
        ticket,
        BlobName::Root(generation),
        text.as_slice(),
    )?;
    Ok(generation)
}

/// Tries to put the generation into `index.latest`, and answers whether it was put: not where the container failed in a step.
pub fn try_latest<Q: Desk>(
    alloc: Global,
    desk: &mut Q,
    ticket: u64,
    generation: u64,
) -> Result<bool, Trouble<Q::Stage, Q::Fetch>>
    requires mine { HasTaken (Q.calls desk.old) ticket }
    requires may { CanPut Q.start (ticket_of Q.start (Q.seen desk.old) ticket) generation }
    requires untried { (ticket_of Q.start (Q.seen desk.old) ticket).tried_latest ≡ false }
    requires tells { TellsAll Q.start (Q.seen desk.old) ticket }
    ensures ok { IfOk result (λ done. ticket_of Q.start (Q.seen desk.new) ticket ≡ tried (ticket_of Q.start (Q.seen desk.old) ticket)) }
    ensures put { IfOk result (λ done. IsLatestPut Q.start (Q.seen desk.new) ticket done) }
    ensures tells { IfOk result (λ done. TellsAll Q.start (Q.seen desk.new) ticket) }
    ensures refused { IfErr result (λ e. IsPutRefused Q.start Q.Stage.faults (Q.seen desk.new) ticket e) }
    ensures went { Went Q.start (Q.seen desk.old) (Q.seen desk.new) ticket }
    ensures calls { Q.calls desk.new ≡ Q.calls desk.old }
{
    let name = BlobName::Latest;
    let mut named = match desk.begin(alloc, ticket, NewBlob { name, room: 8 }) {
        Ok(named) => named,
        Err(StepRefusal::Refused(EntryRefusal::DepotFault)) => return Ok(false),
        Err(refusal) => return Err(Trouble::Step(refusal)),
    };
    if named.stage.write(&generation.to_be_bytes()).is_err() {
        return Err(Trouble::Stage { stage: named.stage });
    }
    let Named { name, stage } = named;
    match desk.latest(alloc, ticket, name, stage) {
        Ok(()) => Ok(true),
        Err(refusal) => {
            if is_fault(refusal) {
                return Ok(false);
            }
            Err(Trouble::Step(refusal))
        }
    }
}

/// Writes all that goes before the settle: the metadata, the root, and `index.latest`. Nothing reads that blob, so where the
/// container fails in a step on it the unit goes on without.
pub fn write_swap<Q: Desk>(
    alloc: Global,
    desk: &mut Q,
    ticket: u64,
    info: &SnapInfo,
    root: &RootData,
) -> Result<(), Trouble<Q::Stage, Q::Fetch>>
    requires mine { HasTaken (Q.calls desk.old) ticket }
    requires may { MayWrite Q.start (ticket_of Q.start (Q.seen desk.old) ticket) (info_of_code info.now) (root_of root.now) }
    requires tells { TellsAll Q.start (Q.seen desk.old) ticket }
    ensures ok { OnOk result (IsWritten (formats_of Q.start) (ticket_of Q.start (Q.seen desk.old) ticket) (ticket_of Q.start (Q.seen desk.new) ticket)) }
    ensures tells { OnOk result (TellsAll Q.start (Q.seen desk.new) ticket) }
    ensures refused { IfErr result (λ e. IsPutRefused Q.start Q.Stage.faults (Q.seen desk.new) ticket e) }
    ensures went { Went Q.start (Q.seen desk.old) (Q.seen desk.new) ticket }
    ensures calls { Q.calls desk.new ≡ Q.calls desk.old }
{
    put_metadata(alloc, desk, ticket, info)?;
    let generation = put_root(alloc, desk, ticket, root)?;
    try_latest(alloc, desk, ticket, generation)?;
    Ok(())
}
