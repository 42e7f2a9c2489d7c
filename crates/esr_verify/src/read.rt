//! Test blobs are read back.
ghost use Rattle.std.specs.Prelude.{◌≡◌, ◌<◌, ◌^◌, [], length, map, true, IfErr, OnOk};
ghost use Rattle.esr_model.specs.Values.{Has};
ghost use Rattle.esr_hash.specs.Prints.{print_of};
ghost use Rattle.esr_names.specs.IdText.{id_text};
ghost use Rattle.esr_names.specs.Layout.{IsName};
ghost use Rattle.esr_formats.specs.Names.{name_of};
ghost use Rattle.esr_core.specs.Entry.{ReadStep, ReadBlob};
ghost use Rattle.esr_desk.specs.Own.{caller_of};
ghost use Rattle.esr_desk.specs.Once.{IsFresh};
ghost use Rattle.esr_verify.specs.Steps.{reading};
ghost use Rattle.esr_verify.specs.Tests.{AreTests};
ghost use Rattle.esr_verify.specs.Went.{Went, Drew, Kept};
ghost use Rattle.esr_verify.specs.Done.{HasDone, HasMade, Fetched};
ghost use Rattle.esr_desk.specs.Evidence.{evidence};
ghost use Rattle.esr_unit.specs.Shown.{Shown};
ghost use Rattle.esr_verify.specs.Judged.{Judged};

use crate::law::laws;
use esr_desk::{Client, Hand, Why};
use esr_hash::{Hasher, Print};
use esr_json::Reason;
use esr_names::{BlobName, Id, id_text};
use esr_seq::Seq;
use esr_unit::{Trouble, fetch_whole};
use std::alloc::Global;

/// The print of fewer than 2^61 bytes.
fn print_bytes(bytes: &[u8]) -> Print
    requires { length bytes.now < 2 ^ 61 }
    ensures { result ≡ print_of bytes.now }
{
    let mut hasher = Hasher::start();
    hasher.feed(bytes);
    hasher.end()
}

/// Whether the bytes that were read of a test blob are the text of the id. Other bytes are told with their print; where that is
/// the text's own, or they are too many to have one, the blob is told as no text of an id.
fn judge<S: Drop, F: Drop>(id: Id, name: BlobName, bytes: &[u8]) -> Result<(), Trouble<S, F>>
    ensures same { OnOk result (bytes.now ≡ id_text id.number) }
    ensures other { IfErr result (Judged id.number name bytes.now) }
{
    let text = id_text(id);
    if bytes == text.as_slice() {
        return Ok(());
    }
    let reason = Reason::BadId;
    if bytes.len() >= 1 << 61 {
        let why = Why::Unreadable { name, reason };
        return Err(Trouble::Found { why });
    }
    let stated = print_bytes(&text);
    let found = print_bytes(bytes);
    if stated == found {
        let why = Why::Unreadable { name, reason };
        return Err(Trouble::Found { why });
    }
    let why = Why::Misprinted {
        name,
        stated,
        found,
    };
    Err(Trouble::Found { why })
}

/// Reads the test blob of that name to its end; it holds the text of the id.
fn read_test<Q: Client>(
    alloc: Global,
    desk: &mut Q,
    id: Id,
    name: BlobName,
) -> Result<(), Trouble<Q::Stage, Q::Fetch>>
    requires alone { Q.start.alone ≡ true }
    requires layout { IsName name }
    requires committed { Has (caller_of Q.start (Q.seen desk.old)).committed (name_of name) }
    requires unremoved { (caller_of Q.start (Q.seen desk.old)).removed ≡ [] }
    requires once { Has (caller_of Q.start (Q.seen desk.old)).fetched (name_of name) → ⊥ }
    requires new { IsFresh Q.start (Q.seen desk.old) 0 (ReadStep (ReadBlob (name_of name))) }
    requires drew { Drew Q.start (Q.seen desk.old) id.number }
    ensures read { OnOk result (Fetched Q.start (Q.seen desk.old) (Q.seen desk.new) (name_of name) (id_text id.number)) }
    ensures trouble { IfErr result (Shown Hand.Verify (evidence Q.Stage.faults Q.Fetch.faults Q.Shard.faults Q.Target.faults Q.Shard.told Q.Target.told) ⊥ Q.start (Q.seen desk.new) 0) }
    ensures kept { Kept Q.start (Q.seen desk.old) (Q.seen desk.new) id.number }
{
    laws();
    match fetch_whole(alloc, desk, Hand::Verify, 0, name)? {
        Some(bytes) => judge(id, name, bytes.as_slice()),
        None => {
            let why = Why::Absent { name };
            Err(Trouble::Found { why })
        }
    }
}

/// Reads the test blobs of these names, one after another; each holds the text of the id.
pub fn read_all<Q: Client>(
    alloc: Global,
    desk: &mut Q,
    id: Id,
    names: &Seq<BlobName>,
) -> Result<(), Trouble<Q::Stage, Q::Fetch>>
    requires alone { Q.start.alone ≡ true }
    requires tests { AreTests id.number names.now }
    requires drew { Drew Q.start (Q.seen desk.old) id.number }
    requires written { HasDone Q.start (caller_of Q.start (Q.seen desk.old)) id.number (map name_of names.now) [] }
    requires made { HasMade Q.start (Q.seen desk.old) id.number (map name_of names.now) [] }
    ensures went { OnOk result (Went (Q.seen desk.old) (Q.seen desk.new) (reading (map name_of names.now))) }
    ensures done { OnOk result (HasDone Q.start (caller_of Q.start (Q.seen desk.new)) id.number (map name_of names.now) (map name_of names.now)) }
    ensures made { OnOk result (HasMade Q.start (Q.seen desk.new) id.number (map name_of names.now) (map name_of names.now)) }
    ensures trouble { IfErr result (Shown Hand.Verify (evidence Q.Stage.faults Q.Fetch.faults Q.Shard.faults Q.Target.faults Q.Shard.told Q.Target.told) ⊥ Q.start (Q.seen desk.new) 0) }
    ensures kept { Kept Q.start (Q.seen desk.old) (Q.seen desk.new) id.number }
{
    for name in names.as_slice() {
        read_test(alloc, desk, id, *name)?;
    }
    Ok(())
}
