//! The metadata of a snapshot.
ghost use Rattle.std.specs.Prelude.{◌≡◌, ◌≤◌, ℕ, [], ◌∷◌, IfErr, IfOk, OnOk};
ghost use Rattle.esr_model.specs.Names.{Snap, Meta, IndexMeta as IndexMetaName};
ghost use Rattle.esr_model.specs.Image.{global_of};
ghost use Rattle.esr_core.specs.World.{metadata};
ghost use Rattle.esr_formats.specs.Globals.{global_kind};
ghost use Rattle.esr_formats.specs.IndexMetas.{index_meta_kind};
ghost use Rattle.esr_formats.specs.Infos.{info_of_code};
ghost use Rattle.esr_formats.specs.Refs.{ref_of_code};
ghost use Rattle.esr_desk.specs.Calls.{HasTaken};
ghost use Rattle.esr_desk.specs.Start.{formats_of, ticket_of};
ghost use Rattle.esr_desk.specs.Told.{TellsAll};
ghost use Rattle.esr_finish.specs.Blobs.{info_blob, global_blob, index_blob, index_blobs};
ghost use Rattle.esr_finish.specs.Ticket.{MayPut, IsUnnoted, Puts};
ghost use Rattle.esr_finish.specs.Went.{Went};
ghost use Rattle.esr_finish.specs.Refused.{IsPutRefused};

use crate::one_blob::put;
use esr_desk::Desk;
use esr_formats::{write_global, write_index_meta, write_info};
use esr_meta::{GlobalMeta, IndexMeta, SnapInfo};
use esr_names::{BlobName, Id, IndexRef};
use esr_seq::{Bytes, TryClone};
use esr_unit::Trouble;
use std::alloc::{AllocError, Global};

/// What a store of blobs answers.
type Store<Q> = Result<(), Trouble<<Q as Desk>::Stage, <Q as Desk>::Fetch>>;

/// The text of the global metadata that an info gives.
fn global_text(alloc: Global, info: &SnapInfo) -> Result<Bytes, AllocError>
    ensures { IfOk result (λ b. b ≡ global_kind.text (global_of (info_of_code info.now))) }
{
    let meta = GlobalMeta {
        moment: info.moment,
        name: info.name.try_clone(alloc)?,
        uuid: info.uuid,
    };
    write_global(alloc, &meta)
}

/// The text of an index's metadata in a snapshot.
fn index_text(alloc: Global, index: &IndexRef, uuid: Id) -> Result<Bytes, AllocError>
    requires some { 1 ≤ index.now.shards }
    requires most { index.now.shards ≤ 1024 }
    ensures { IfOk result (λ b. b ≡ index_meta_kind.text (record { index = ref_of_code index.now; uuid = uuid.number })) }
{
    let _name = index.name.as_str();
    let _id = index.id.number;
    let meta = IndexMeta {
        id: index.id,
        name: index.name.try_clone(alloc)?,
        shards: index.shards,
        uuid,
    };
    write_index_meta(alloc, &meta)
}

fn put_info<Q: Desk>(alloc: Global, desk: &mut Q, ticket: u64, info: &SnapInfo) -> Store<Q>
    requires mine { HasTaken (Q.calls desk.old) ticket }
    requires may { MayPut Q.start (ticket_of Q.start (Q.seen desk.old) ticket) (info_blob (formats_of Q.start) (info_of_code info.now) ∷ []) }
    requires new { IsUnnoted (ticket_of Q.start (Q.seen desk.old) ticket) (Snap info.now.uuid.number) }
    requires tells { TellsAll Q.start (Q.seen desk.old) ticket }
    ensures ok { OnOk result (Puts Q.start (Q.seen desk.old) (Q.seen desk.new) ticket (info_blob (formats_of Q.start) (info_of_code info.now) ∷ [])) }
    ensures tells { OnOk result (TellsAll Q.start (Q.seen desk.new) ticket) }
    ensures refused { IfErr result (λ e. IsPutRefused Q.start Q.Stage.faults (Q.seen desk.new) ticket e) }
    ensures went { Went Q.start (Q.seen desk.old) (Q.seen desk.new) ticket }
    ensures calls { Q.calls desk.new ≡ Q.calls desk.old }
{
    let text = write_info(alloc, info)?;
    put(
        alloc,
        desk,
        ticket,
        BlobName::Snap(info.uuid),
        text.as_slice(),
    )
}

fn put_global<Q: Desk>(alloc: Global, desk: &mut Q, ticket: u64, info: &SnapInfo) -> Store<Q>
    requires mine { HasTaken (Q.calls desk.old) ticket }
    requires may { MayPut Q.start (ticket_of Q.start (Q.seen desk.old) ticket) (global_blob (formats_of Q.start) (info_of_code info.now) ∷ []) }
    requires new { IsUnnoted (ticket_of Q.start (Q.seen desk.old) ticket) (Meta info.now.uuid.number) }
    requires tells { TellsAll Q.start (Q.seen desk.old) ticket }
    ensures ok { OnOk result (Puts Q.start (Q.seen desk.old) (Q.seen desk.new) ticket (global_blob (formats_of Q.start) (info_of_code info.now) ∷ [])) }
    ensures tells { OnOk result (TellsAll Q.start (Q.seen desk.new) ticket) }
    ensures refused { IfErr result (λ e. IsPutRefused Q.start Q.Stage.faults (Q.seen desk.new) ticket e) }
    ensures went { Went Q.start (Q.seen desk.old) (Q.seen desk.new) ticket }
    ensures calls { Q.calls desk.new ≡ Q.calls desk.old }
{
    let text = global_text(alloc, info)?;
    put(
        alloc,
        desk,
        ticket,
        BlobName::Meta(info.uuid),
        text.as_slice(),
    )
}

fn put_index<Q: Desk>(
    alloc: Global,
    desk: &mut Q,
    ticket: u64,
    index: &IndexRef,
    uuid: Id,
) -> Result<(), Trouble<Q::Stage, Q::Fetch>>
    requires mine { HasTaken (Q.calls desk.old) ticket }
    requires some { 1 ≤ index.now.shards }
    requires most { index.now.shards ≤ 1024 }
    requires may { MayPut Q.start (ticket_of Q.start (Q.seen desk.old) ticket) (index_blob (formats_of Q.start) uuid.number (ref_of_code index.now) ∷ []) }
    requires new { IsUnnoted (ticket_of Q.start (Q.seen desk.old) ticket) (IndexMetaName index.now.id.number uuid.number) }
    requires tells { TellsAll Q.start (Q.seen desk.old) ticket }
    ensures ok { OnOk result (Puts Q.start (Q.seen desk.old) (Q.seen desk.new) ticket (index_blob (formats_of Q.start) uuid.number (ref_of_code index.now) ∷ [])) }
    ensures tells { OnOk result (TellsAll Q.start (Q.seen desk.new) ticket) }
    ensures refused { IfErr result (λ e. IsPutRefused Q.start Q.Stage.faults (Q.seen desk.new) ticket e) }
    ensures went { Went Q.start (Q.seen desk.old) (Q.seen desk.new) ticket }
    ensures calls { Q.calls desk.new ≡ Q.calls desk.old }
{
    let text = index_text(alloc, index, uuid)?;
    put(
        alloc,
        desk,
        ticket,
        BlobName::IndexMeta(index.id, uuid),
        text.as_slice(),
    )
}

fn put_indices<Q: Desk>(alloc: Global, desk: &mut Q, ticket: u64, info: &SnapInfo) -> Store<Q>
    requires mine { HasTaken (Q.calls desk.old) ticket }
    requires may { MayPut Q.start (ticket_of Q.start (Q.seen desk.old) ticket) (index_blobs (formats_of Q.start) (info_of_code info.now)) }
    requires new { (id : ℕ) → IsUnnoted (ticket_of Q.start (Q.seen desk.old) ticket) (IndexMetaName id info.now.uuid.number) }
    requires tells { TellsAll Q.start (Q.seen desk.old) ticket }
    ensures ok { OnOk result (Puts Q.start (Q.seen desk.old) (Q.seen desk.new) ticket (index_blobs (formats_of Q.start) (info_of_code info.now))) }
    ensures tells { OnOk result (TellsAll Q.start (Q.seen desk.new) ticket) }
    ensures refused { IfErr result (λ e. IsPutRefused Q.start Q.Stage.faults (Q.seen desk.new) ticket e) }
    ensures went { Went Q.start (Q.seen desk.old) (Q.seen desk.new) ticket }
    ensures calls { Q.calls desk.new ≡ Q.calls desk.old }
{
    for index in info.indices.as_slice() {
        put_index(alloc, desk, ticket, index, info.uuid)?;
    }
    Ok(())
}

/// Writes `snap-U.dat`, `meta-U.dat`, and then `indices/I/meta-U.dat` for each index of the info, in order.
pub fn put_metadata<Q: Desk>(
    alloc: Global,
    desk: &mut Q,
    ticket: u64,
    info: &SnapInfo,
) -> Result<(), Trouble<Q::Stage, Q::Fetch>>
    requires mine { HasTaken (Q.calls desk.old) ticket }
    requires may { MayPut Q.start (ticket_of Q.start (Q.seen desk.old) ticket) (metadata (formats_of Q.start) (info_of_code info.now)) }
    requires new { (ticket_of Q.start (Q.seen desk.old) ticket).noted ≡ [] }
    requires tells { TellsAll Q.start (Q.seen desk.old) ticket }
    ensures ok { OnOk result (Puts Q.start (Q.seen desk.old) (Q.seen desk.new) ticket (metadata (formats_of Q.start) (info_of_code info.now))) }
    ensures tells { OnOk result (TellsAll Q.start (Q.seen desk.new) ticket) }
    ensures refused { IfErr result (λ e. IsPutRefused Q.start Q.Stage.faults (Q.seen desk.new) ticket e) }
    ensures went { Went Q.start (Q.seen desk.old) (Q.seen desk.new) ticket }
    ensures calls { Q.calls desk.new ≡ Q.calls desk.old }
{
    put_info(alloc, desk, ticket, info)?;
    put_global(alloc, desk, ticket, info)?;
    put_indices(alloc, desk, ticket, info)
}
