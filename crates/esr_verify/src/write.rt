//! Test blobs are written.
ghost use Rattle.std.specs.Prelude.{◌≡◌, [], map, true, IfErr, OnOk};
ghost use Rattle.esr_model.specs.Values.{Has};
ghost use Rattle.esr_core.specs.Restores.{IsTestOf};
ghost use Rattle.esr_names.specs.IdText.{id_text};
ghost use Rattle.esr_names.specs.Layout.{IsName};
ghost use Rattle.esr_formats.specs.Names.{name_of};
ghost use Rattle.esr_core.specs.Entry.{ReadStep, BeginTest, CommitTest};
ghost use Rattle.esr_desk.specs.Own.{caller_of};
ghost use Rattle.esr_desk.specs.Once.{IsFresh};
ghost use Rattle.esr_verify.specs.Steps.{writing};
ghost use Rattle.esr_verify.specs.Tests.{AreTests};
ghost use Rattle.esr_verify.specs.Went.{Went, Drew, Kept};
ghost use Rattle.esr_verify.specs.Done.{HasDone, HasMade, Wrote};
ghost use Rattle.esr_desk.specs.Evidence.{evidence};
ghost use Rattle.esr_desk.specs.declared.hand.Hand.TheVariants.{Verify};
ghost use Rattle.esr_unit.specs.Shown.{Shown};

use crate::law::laws;
use esr_depot::Stage;
use esr_desk::{Client, Named, NewBlob};
use esr_names::{BlobName, Id, id_text};
use esr_seq::Seq;
use esr_unit::Trouble;
use std::alloc::Global;

/// Writes the test blob of that name, which holds the text of the id.
fn write_test<Q: Client>(
    alloc: Global,
    desk: &mut Q,
    id: Id,
    name: BlobName,
) -> Result<(), Trouble<Q::Stage, Q::Fetch>>
    requires alone { Q.start.alone ≡ true }
    requires layout { IsName name }
    requires own { IsTestOf id.number (name_of name) }
    requires once { Has (caller_of Q.start (Q.seen desk.old)).committed (name_of name) → ⊥ }
    requires new { IsFresh Q.start (Q.seen desk.old) 0 (ReadStep (BeginTest (name_of name))) }
    requires whole { IsFresh Q.start (Q.seen desk.old) 0 (ReadStep (CommitTest (name_of name))) }
    requires drew { Drew Q.start (Q.seen desk.old) id.number }
    ensures wrote { OnOk result (Wrote Q.start (Q.seen desk.old) (Q.seen desk.new) (name_of name) (id_text id.number)) }
    ensures trouble { IfErr result (Shown Verify (evidence Q.Stage.faults Q.Fetch.faults Q.Shard.faults Q.Target.faults Q.Shard.told Q.Target.told) ⊥ Q.start (Q.seen desk.new) 0) }
    ensures kept { Kept Q.start (Q.seen desk.old) (Q.seen desk.new) id.number }
{
    laws();
    let text = id_text(id);
    let room = text.len();
    let mut named = desk.begin_test(alloc, NewBlob { name, room })?;
    if named.stage.write(&text).is_err() {
        return Err(Trouble::Stage { stage: named.stage });
    }
    let Named { name, stage } = named;
    desk.commit_test(alloc, name, stage)?;
    Ok(())
}

/// Writes the test blobs of these names, one after another.
pub fn write_all<Q: Client>(
    alloc: Global,
    desk: &mut Q,
    id: Id,
    names: &Seq<BlobName>,
) -> Result<(), Trouble<Q::Stage, Q::Fetch>>
    requires alone { Q.start.alone ≡ true }
    requires tests { AreTests id.number names.now }
    requires drew { Drew Q.start (Q.seen desk.old) id.number }
    requires new { HasDone Q.start (caller_of Q.start (Q.seen desk.old)) id.number [] [] }
    requires made { HasMade Q.start (Q.seen desk.old) id.number [] [] }
    ensures went { OnOk result (Went (Q.seen desk.old) (Q.seen desk.new) (writing (map name_of names.now))) }
    ensures done { OnOk result (HasDone Q.start (caller_of Q.start (Q.seen desk.new)) id.number (map name_of names.now) []) }
    ensures made { OnOk result (HasMade Q.start (Q.seen desk.new) id.number (map name_of names.now) []) }
    ensures trouble { IfErr result (Shown Verify (evidence Q.Stage.faults Q.Fetch.faults Q.Shard.faults Q.Target.faults Q.Shard.told Q.Target.told) ⊥ Q.start (Q.seen desk.new) 0) }
    ensures kept { Kept Q.start (Q.seen desk.old) (Q.seen desk.new) id.number }
{
    for name in names.as_slice() {
        write_test(alloc, desk, id, *name)?;
    }
    Ok(())
}
