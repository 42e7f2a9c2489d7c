//! The verification of a container.
ghost use Rattle.std.specs.Prelude.{◌≡◌, ◌<◌, ◌≤◌, [], ◌++◌, map, true, IfErr, IfOk, OnErr, OnOk};
ghost use Rattle.esr_model.specs.Names.{TestMaster};
ghost use Rattle.esr_model.specs.Values.{Has};
ghost use Rattle.esr_formats.specs.Names.{name_of};
ghost use Rattle.esr_desk.specs.Grew.{GrewBy};
ghost use Rattle.esr_desk.specs.Own.{caller_of};
ghost use Rattle.esr_verify.specs.Steps.{test_names, writing, reading};
ghost use Rattle.esr_verify.specs.Tests.{AreTests};
ghost use Rattle.esr_verify.specs.Idle.{IsIdle};
ghost use Rattle.esr_verify.specs.Went.{Drew, GrewFurther, Kept};
ghost use Rattle.esr_verify.specs.Began.{AsksOne, NoneVerified};
ghost use Rattle.esr_verify.specs.Done.{HasDone, HasMade};
ghost use Rattle.esr_verify.specs.Ended.{Ended, ending};
ghost use Rattle.esr_desk.specs.Evidence.{evidence};
ghost use Rattle.esr_unit.specs.declared.trouble.Trouble.TheVariants.{Step};
ghost use Rattle.esr_unit.specs.Shown.{Shown};
ghost use Rattle.esr_verify.specs.Verified.{HasVerified};
ghost use Rattle.esr_verify.specs.Refused.{IsVerifyRefused};

use crate::law::laws;
use crate::names::list_names;
use crate::read::read_all;
use crate::write::write_all;
use esr_desk::{Client, Hand, StepRefusal, UnitRefusal};
use esr_names::{BlobName, Id};
use esr_seq::Seq;
use esr_unit::{Trouble, ending_of, give_up};
use std::alloc::Global;

/// Takes the test blobs of these names away, each of which was read, and ends the verification.
fn finish<Q: Client>(
    alloc: Global,
    desk: &mut Q,
    id: Id,
    names: &Seq<BlobName>,
) -> Result<(), StepRefusal>
    requires alone { Q.start.alone ≡ true }
    requires tests { AreTests id.number names.now }
    requires master { Has (map name_of names.now) (TestMaster id.number) }
    requires drew { Drew Q.start (Q.seen desk.old) id.number }
    requires done { HasDone Q.start (caller_of Q.start (Q.seen desk.old)) id.number (map name_of names.now) (map name_of names.now) }
    requires made { HasMade Q.start (Q.seen desk.old) id.number (map name_of names.now) (map name_of names.now) }
    ensures ended { OnOk result (Ended Q.start (Q.seen desk.old) (Q.seen desk.new) id.number (map name_of names.now) (ending (map name_of names.now))) }
    ensures refused { IfErr result (λ refusal. Shown Hand.Verify (evidence Q.Stage.faults Q.Fetch.faults Q.Shard.faults Q.Target.faults Q.Shard.told Q.Target.told) ⊥ Q.start (Q.seen desk.new) 0 (Step refusal)) }
    ensures kept { OnErr result (Kept Q.start (Q.seen desk.old) (Q.seen desk.new) id.number) }
    ensures grew { GrewFurther Q.start (Q.seen desk.old) (Q.seen desk.new) }
{
    laws();
    desk.remove_tests(alloc, names)?;
    desk.end_verification(alloc)
}

/// Writes the test blobs under the id, reads them back and removes them, which ends the verification well.
fn run<Q: Client>(
    alloc: Global,
    desk: &mut Q,
    id: Id,
    workers: u32,
) -> Result<(), Trouble<Q::Stage, Q::Fetch>>
    requires alone { Q.start.alone ≡ true }
    requires few { workers ≤ 64 }
    requires drew { Drew Q.start (Q.seen desk.old) id.number }
    requires new { HasDone Q.start (caller_of Q.start (Q.seen desk.old)) id.number [] [] }
    requires made { HasMade Q.start (Q.seen desk.old) id.number [] [] }
    ensures ended { OnOk result (Ended Q.start (Q.seen desk.old) (Q.seen desk.new) id.number (test_names id.number workers)
        (writing (test_names id.number workers) ++ reading (test_names id.number workers) ++ ending (test_names id.number workers))) }
    ensures trouble { IfErr result (Shown Hand.Verify (evidence Q.Stage.faults Q.Fetch.faults Q.Shard.faults Q.Target.faults Q.Shard.told Q.Target.told) ⊥ Q.start (Q.seen desk.new) 0) }
    ensures kept { OnErr result (Kept Q.start (Q.seen desk.old) (Q.seen desk.new) id.number) }
    ensures grew { GrewFurther Q.start (Q.seen desk.old) (Q.seen desk.new) }
{
    let names = list_names(alloc, id, workers)?;
    write_all(alloc, desk, id, &names)?;
    read_all(alloc, desk, id, &names)?;
    finish(alloc, desk, id, &names)?;
    Ok(())
}

/// Verifies the container: draws an id, writes a test blob for the master and one for each worker, each with the text of the
/// id, reads them back, and removes them. Where no id is left, an object failed, a step failed or found its name taken, or a
/// test blob is absent or holds something else, the verification ends as failed; what was written then stays.
pub fn verify<Q: Client>(alloc: Global, desk: &mut Q, workers: u32) -> Result<(), UnitRefusal>
    requires alone { Q.start.alone ≡ true }
    requires idle { IsIdle (caller_of Q.start (Q.seen desk.old)) }
    requires some { 0 < workers }
    requires few { workers ≤ 64 }
    ensures ok { IfOk result (λ _. HasVerified Q.start (Q.seen desk.old) (Q.seen desk.new) workers) }
    ensures refused { IfErr result (IsVerifyRefused (evidence Q.Stage.faults Q.Fetch.faults Q.Shard.faults Q.Target.faults Q.Shard.told Q.Target.told) Q.start
        (Q.seen desk.old) (Q.seen desk.new)) }
    ensures asked { AsksOne (Q.seen desk.old) (Q.seen desk.new) result }
    ensures unverified { OnErr result (NoneVerified (Q.seen desk.old) (Q.seen desk.new)) }
    ensures grew { GrewBy Q.start 0 (Q.seen desk.old) (Q.seen desk.new) }
{
    laws();
    let id = match desk.draw_test(alloc) {
        Ok(id) => id,
        Err(refusal) => {
            let ending = ending_of(Trouble::Step(refusal));
            return Err(give_up(alloc, desk, Hand::Verify, 0, ending));
        }
    };
    match run(alloc, desk, id, workers) {
        Ok(()) => Ok(()),
        Err(trouble) => Err(give_up(alloc, desk, Hand::Verify, 0, ending_of(trouble))),
    }
}
