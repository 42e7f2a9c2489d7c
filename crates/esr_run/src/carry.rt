//! The lines of a script are carried out, in order.
ghost use Rattle.std.specs.Prelude.{◌≡◌, ◌⊎◌, ◌+◌, ◌<◌, ◌≤◌, ℕ, Bool, ◌^◌, ◌∷◌, [], true, false, None, IfOk, OnOk, length};
ghost use Rattle.esr_script.specs.declared.item.Item.TheVariants.{Wait, Check, Verify};
ghost use Rattle.esr_script.specs.declared.item.Kind.TheVariants as kinds;
ghost use Rattle.esr_script.specs.Kinds.{is_check, is_wait, kind_of};
ghost use Rattle.esr_core.specs.Entry.{Asked, Clone, Restore, DrawTest, AskStep, LookStep, ReadStep};
ghost use Rattle.esr_core.specs.Restores.{AreOnce};
ghost use Rattle.esr_core.specs.Tracked.{Tracked};
ghost use Rattle.esr_desk.specs.Start.{Legal};
ghost use Rattle.esr_ops.specs.Asked.{asked_of, IsForOp};
ghost use Rattle.esr_quiet.specs.Asked.{GrewAsking};
ghost use Rattle.esr_quiet.specs.Asking.{asks_of};
ghost use Rattle.esr_quiet.specs.Numbers.{HasNoTickets};
ghost use Rattle.esr_drive.specs.Takes.{idle_takes};
ghost use Rattle.esr_drive.specs.Elections.{WaitsOnly, elections, HasElected};
ghost use Rattle.esr_drive.specs.Worked.{MayWait};
ghost use Rattle.esr_complete.specs.Answers.{IsIdle};
ghost use Rattle.esr_complete.specs.Lines.{steps_of_item, steps_of, failovers_of};
ghost use Rattle.esr_run.specs.Made.{MadeFirst, HasStopped, WasLeft, NoneOpen, LineSpends, AreIn, LineMade, LineRests, WaitEnds, CheckEnds, VerifyBegins, AddsOnly, AreMade, AreDone, AskedUnlessStopped};
ghost use Rattle.esr_run.specs.Lines.{LineAsked};
ghost use Rattle.esr_run.specs.Checked.{asks_check};
ghost use Rattle.esr_run.specs.Verified.{AreWhole, MayVerify, VerifiesOn};
ghost use Rattle.esr_run.specs.Waits.{waits_in, waits_of, owed_after, LineElects};
ghost use Rattle.esr_run.specs.Script.{is_carried, first_bad};

use crate::command::{delete_of, snapshot_of};
use crate::law::{steps_stay, work_leaves};
use esr_desk::{Client, CloneAsk, Sole, StepRefusal, UnitRefusal};
use esr_drive::{Crew, Outside, sit};
use esr_names::{IndexNames, SnapName};
use esr_ops::Command;
use esr_script::{Item, Kind, ScriptLine};
use esr_seq::Text;
use esr_source::{Gate, Sources, Targets};
use std::alloc::{AllocError, Global};
use std::sync::Wait;
use std::thread::Threads;

/// Asks for a command that is answered by its op, if there was memory for it.
fn ask<Q: Client>(
    alloc: Global,
    desk: &mut Q,
    command: Result<Command, AllocError>,
) -> Result<(), StepRefusal>
    requires may { IfOk command (λ c. IsForOp (asked_of c)) }
    requires numbered { HasNoTickets Q.start }
    requires ops { Tracked Q.start.world }
    requires earlier { Q.start.earlier_turns ≡ 0 }
    ensures made { (wanted : Asked) → IfOk command (λ c. asked_of c ≡ wanted) → LineMade Q.start (asks_of (AskStep wanted)) (Q.seen desk.old) (Q.seen desk.new) result }
    ensures asked { Q.start.alone ≡ true → LineAsked Q.start (Q.seen desk.old) (Q.seen desk.new) result }
{
    steps_stay();
    let Ok(command) = command else {
        return Err(StepRefusal::Memory);
    };
    match desk.ask(alloc, &command) {
        Ok(_) => Ok(()),
        Err(refusal) => Err(refusal),
    }
}

/// Asks for a clone: of these indices, each named once, or of all where none is named.
fn make_clone<Q: Client>(
    alloc: Global,
    desk: &mut Q,
    source: &SnapName,
    name: &SnapName,
    indices: &IndexNames,
    moment: u64,
) -> Result<(), StepRefusal>
    requires once { AreOnce indices.now }
    requires numbered { HasNoTickets Q.start }
    requires ops { Tracked Q.start.world }
    requires earlier { Q.start.earlier_turns ≡ 0 }
    ensures made { LineMade Q.start (AskStep (Clone source.now name.now indices.now moment None) ∷ []) (Q.seen desk.old) (Q.seen desk.new) result }
    ensures asked { Q.start.alone ≡ true → LineAsked Q.start (Q.seen desk.old) (Q.seen desk.new) result }
{
    steps_stay();
    let ask = CloneAsk {
        source,
        name,
        indices,
        moment,
    };
    if let Err(refusal) = desk.clone_snapshot(alloc, &ask) {
        return Err(refusal);
    }
    Ok(())
}

/// Asks for a restore.
fn restore<Q: Client>(
    alloc: Global,
    desk: &mut Q,
    name: &SnapName,
    place: &Text,
) -> Result<(), StepRefusal>
    requires numbered { HasNoTickets Q.start }
    requires ops { Tracked Q.start.world }
    requires earlier { Q.start.earlier_turns ≡ 0 }
    ensures made { LineMade Q.start (AskStep (Restore name.now place.now) ∷ []) (Q.seen desk.old) (Q.seen desk.new) result }
    ensures asked { Q.start.alone ≡ true → LineAsked Q.start (Q.seen desk.old) (Q.seen desk.new) result }
{
    steps_stay();
    if let Err(refusal) = desk.restore(alloc, name, place) {
        return Err(refusal);
    }
    Ok(())
}

/// Asks for the snapshots of the safe root.
fn list<Q: Client>(alloc: Global, desk: &mut Q) -> Result<(), StepRefusal>
    requires numbered { HasNoTickets Q.start }
    requires ops { Tracked Q.start.world }
    requires earlier { Q.start.earlier_turns ≡ 0 }
    ensures made { LineMade Q.start (LookStep ∷ []) (Q.seen desk.old) (Q.seen desk.new) result }
    ensures asked { Q.start.alone ≡ true → LineAsked Q.start (Q.seen desk.old) (Q.seen desk.new) result }
{
    steps_stay();
    if let Err(refusal) = desk.look(alloc) {
        return Err(refusal);
    }
    Ok(())
}

/// Asks for the one step that answers a line: that of a command, or a look.
fn ask_item<Q: Client>(
    alloc: Global,
    desk: &mut Q,
    item: &Item,
    moment: u64,
) -> Result<(), StepRefusal>
    requires carried { is_carried item.now ≡ true }
    requires asks { kind_of item.now ≡ kinds.Ask }
    requires numbered { HasNoTickets Q.start }
    requires ops { Tracked Q.start.world }
    requires earlier { Q.start.earlier_turns ≡ 0 }
    ensures made { LineMade Q.start (steps_of_item moment item.now) (Q.seen desk.old) (Q.seen desk.new) result }
    ensures asked { Q.start.alone ≡ true → LineAsked Q.start (Q.seen desk.old) (Q.seen desk.new) result }
{
    match item {
        Item::Snapshot { name, indices } => {
            let command = snapshot_of(alloc, name, indices.as_slice(), moment);
            ask(alloc, desk, command)
        }
        Item::Clone {
            source,
            name,
            indices,
        } => make_clone(alloc, desk, source, name, indices, moment),
        Item::Delete { names } => ask(alloc, desk, delete_of(alloc, names)),
        Item::Restore { name, place } => restore(alloc, desk, name, place),
        Item::Cleanup => ask(alloc, desk, Ok(Command::Cleanup)),
        Item::List => list(alloc, desk),
        Item::Check | Item::Verify | Item::Failover | Item::Wait => {
            unreachable!("of another kind")
        }
    }
}

/// Verifies the container. A verification that fails is no reason to stop.
fn verify<Q: Client>(alloc: Global, desk: &mut Q, workers: u32) -> Result<(), StepRefusal>
    requires alone { Q.start.alone ≡ true }
    requires numbered { HasNoTickets Q.start }
    requires ops { Tracked Q.start.world }
    requires earlier { Q.start.earlier_turns ≡ 0 }
    requires some { 0 < workers }
    requires few { workers ≤ 64 }
    requires idle { NoneOpen Q.start (Q.seen desk.old) }
    requires legal { Legal Q.start (Q.seen desk.old) }
    ensures made { LineMade Q.start (ReadStep DrawTest ∷ []) (Q.seen desk.old) (Q.seen desk.new) result }
    ensures rests { AreIn Q.start (Q.seen desk.old) → LineRests Q.start (Q.seen desk.new) result }
    ensures spent { LineSpends (Q.seen desk.new) result }
    ensures takes { idle_takes (Q.seen desk.new) ≡ idle_takes (Q.seen desk.old) }
    ensures elects { elections (Q.seen desk.new) ≡ elections (Q.seen desk.old) }
    ensures begun { VerifyBegins (Q.seen desk.old) (Q.seen desk.new) result }
    ensures verified { (checks : Bool) → MayVerify Q.start workers checks (Q.seen desk.old) → VerifiesOn Q.start workers checks (Q.seen desk.new) result }
{
    steps_stay();
    match esr_verify::verify(alloc, desk, workers) {
        Ok(()) => Ok(()),
        Err(UnitRefusal::Failed(_)) => Ok(()),
        Err(UnitRefusal::Stopped(refusal)) => Err(refusal),
        Err(UnitRefusal::Stale) => unreachable!(),
    }
}

/// Checks the repository. A check that fails is no reason to stop.
fn check<Q: Client>(alloc: Global, desk: &mut Q) -> Result<(), StepRefusal>
    requires alone { Q.start.alone ≡ true }
    requires numbered { HasNoTickets Q.start }
    requires ops { Tracked Q.start.world }
    requires earlier { Q.start.earlier_turns ≡ 0 }
    requires legal { Legal Q.start (Q.seen desk.old) }
    ensures made { LineMade Q.start (LookStep ∷ []) (Q.seen desk.old) (Q.seen desk.new) result }
    ensures rests { AreIn Q.start (Q.seen desk.old) → LineRests Q.start (Q.seen desk.new) result }
    ensures spent { LineSpends (Q.seen desk.new) result }
    ensures takes { idle_takes (Q.seen desk.new) ≡ idle_takes (Q.seen desk.old) }
    ensures elects { elections (Q.seen desk.new) ≡ elections (Q.seen desk.old) }
    ensures checked { CheckEnds (Q.seen desk.old) (Q.seen desk.new) result }
    ensures verified { (workers : ℕ) → MayVerify Q.start workers true (Q.seen desk.old) → VerifiesOn Q.start workers true (Q.seen desk.new) result }
{
    steps_stay();
    match esr_check::check(alloc, desk) {
        Ok(_) => Ok(()),
        Err(UnitRefusal::Failed(_)) => Ok(()),
        Err(UnitRefusal::Stopped(refusal)) => Err(refusal),
        Err(UnitRefusal::Stale) => unreachable!(),
    }
}

/// Carries out a line that is no wait. A failover waits for the next one.
fn carry_step<Q: Client>(
    alloc: Global,
    desk: &mut Q,
    item: &Item,
    workers: u32,
    moment: u64,
) -> Result<(), StepRefusal>
    requires carried { is_carried item.now ≡ true }
    requires other { is_wait item.now ≡ false }
    requires alone { Q.start.alone ≡ true }
    requires some { 0 < workers }
    requires few { workers ≤ 64 }
    requires idle { NoneOpen Q.start (Q.seen desk.old) }
    requires legal { Legal Q.start (Q.seen desk.old) }
    requires numbered { HasNoTickets Q.start }
    requires ops { Tracked Q.start.world }
    requires earlier { Q.start.earlier_turns ≡ 0 }
    ensures made { LineMade Q.start (steps_of_item moment item.now) (Q.seen desk.old) (Q.seen desk.new) result }
    ensures rests { AreIn Q.start (Q.seen desk.old) → LineRests Q.start (Q.seen desk.new) result }
    ensures spent { LineSpends (Q.seen desk.new) result }
    ensures checked { item.now ≡ Check → CheckEnds (Q.seen desk.old) (Q.seen desk.new) result }
    ensures takes { idle_takes (Q.seen desk.new) ≡ idle_takes (Q.seen desk.old) }
    ensures elects { elections (Q.seen desk.new) ≡ elections (Q.seen desk.old) }
    ensures begun { item.now ≡ Verify → VerifyBegins (Q.seen desk.old) (Q.seen desk.new) result }
    ensures only { AddsOnly item.now (Q.seen desk.old) (Q.seen desk.new) }
    ensures verified { (checks : Bool) → (is_check item.now ≡ true → checks ≡ true) → MayVerify Q.start workers checks (Q.seen desk.old) → VerifiesOn Q.start workers checks (Q.seen desk.new) result }
{
    match item.kind() {
        Kind::Ask => ask_item(alloc, desk, item, moment),
        Kind::Check => check(alloc, desk),
        Kind::Verify => verify(alloc, desk, workers),
        Kind::Failover => Ok(()),
        Kind::Wait => unreachable!("a wait has a crew"),
    }
}

/// Works all units that are ready with the crew, beside its elections.
fn wait<Q: Sole + Send, S, T, G: Gate, R: Threads + Wait + Sync>(
    rt: &R,
    alloc: Global,
    desk: Q,
    outside: &Outside<'_, S, T, G>,
    crew: Crew,
) -> (Q, Result<(), StepRefusal>)
where
    S: Sources<Shard = Q::Shard>,
    T: Targets<Target = Q::Target>,
    Q::Stage: Send,
    Q::Fetch: Send,
    requires waits { MayWait Q.start (S.told outside.now.sources.now) (T.told outside.now.targets.now) outside.now.part_size crew.workers }
    requires legal { Legal Q.start (Q.seen desk) }
    requires earlier { Q.start.earlier_turns ≡ 0 }
    ensures made { LineMade Q.start [] (Q.seen desk) (Q.seen result.0) result.1 }
    ensures rests { AreIn Q.start (Q.seen desk) → LineRests Q.start (Q.seen result.0) result.1 }
    ensures spent { LineSpends (Q.seen result.0) result.1 }
    ensures ended { WaitEnds Q.start (Q.seen result.0) result.1 }
    ensures verified { (checks : Bool) → MayVerify Q.start crew.workers checks (Q.seen desk) → VerifiesOn Q.start crew.workers checks (Q.seen result.0) result.1 }
    ensures whole { (workers : ℕ) (checks : Bool) → AreWhole Q.start workers checks (Q.seen desk) → AreWhole Q.start workers checks (Q.seen result.0) }
    ensures closed { NoneOpen Q.start (Q.seen desk) → NoneOpen Q.start (Q.seen result.0) }
    ensures takes { idle_takes (Q.seen result.0) ≤ idle_takes (Q.seen desk) + crew.workers }
    ensures elects { HasElected crew.elections (Q.seen desk) (Q.seen result.0) result.1 }
    ensures only { WaitsOnly (Q.seen desk) (Q.seen result.0) }
{
    work_leaves();
    sit(rt, alloc, desk, outside, crew)
}

fn is_wait(item: &Item) -> bool
    ensures { result ≡ is_wait item.now }
{
    matches!(item.kind(), Kind::Wait)
}

/// Carries out a line: a wait with the crew.
fn carry_line<Q: Client + Sole + Send, S, T, G: Gate, R: Threads + Wait + Sync>(
    rt: &R,
    alloc: Global,
    desk: Q,
    item: &Item,
    outside: &Outside<'_, S, T, G>,
    crew: Crew,
    moment: u64,
) -> (Q, Result<(), StepRefusal>)
where
    S: Sources<Shard = Q::Shard>,
    T: Targets<Target = Q::Target>,
    Q::Stage: Send,
    Q::Fetch: Send,
    requires carried { is_carried item.now ≡ true }
    requires waits { MayWait Q.start (S.told outside.now.sources.now) (T.told outside.now.targets.now) outside.now.part_size crew.workers }
    requires idle { NoneOpen Q.start (Q.seen desk) }
    requires legal { Legal Q.start (Q.seen desk) }
    requires numbered { HasNoTickets Q.start }
    requires earlier { Q.start.earlier_turns ≡ 0 }
    ensures made { LineMade Q.start (steps_of_item moment item.now) (Q.seen desk) (Q.seen result.0) result.1 }
    ensures rests { AreIn Q.start (Q.seen desk) → LineRests Q.start (Q.seen result.0) result.1 }
    ensures spent { LineSpends (Q.seen result.0) result.1 }
    ensures checked { item.now ≡ Check → CheckEnds (Q.seen desk) (Q.seen result.0) result.1 }
    ensures ended { item.now ≡ Wait → WaitEnds Q.start (Q.seen result.0) result.1 }
    ensures takes { idle_takes (Q.seen result.0) ≤ idle_takes (Q.seen desk) + waits_in crew.workers item.now }
    ensures elects { LineElects crew.elections item.now (Q.seen desk) (Q.seen result.0) result.1 }
    ensures begun { item.now ≡ Verify → VerifyBegins (Q.seen desk) (Q.seen result.0) result.1 }
    ensures only { AddsOnly item.now (Q.seen desk) (Q.seen result.0) }
    ensures verified { (checks : Bool) → (is_check item.now ≡ true → checks ≡ true) → MayVerify Q.start crew.workers checks (Q.seen desk) → VerifiesOn Q.start crew.workers checks (Q.seen result.0) result.1 }
{
    if is_wait(item) {
        return wait(rt, alloc, desk, outside, crew);
    }
    let mut desk = desk;
    let answer = carry_step(alloc, &mut desk, item, crew.workers, moment);
    (desk, answer)
}

/// A count is below 2 ^ 64.
fn is_count(_n: usize)
    ensures { _n < 2 ^ 64 }
{}

/// How many elections the next wait makes after a line.
fn owed_after(item: &Item, owed: u64) -> u64
    requires fits { owed + 1 < 2 ^ 64 }
    ensures { result ≡ owed_after item.now owed }
{
    match item.kind() {
        Kind::Failover => owed + 1,
        Kind::Wait => 0,
        _ => owed,
    }
}

/// Carries out the lines, and answers how many elections the next wait makes. A refusal that the history tells is no reason to
/// stop; none is carried out once the desk's turns are spent.
fn carry_lines<Q: Client + Sole + Send, S, T, G: Gate, R: Threads + Wait + Sync>(
    rt: &R,
    alloc: Global,
    desk: Q,
    lines: &[ScriptLine],
    outside: &Outside<'_, S, T, G>,
    workers: u32,
    moment: u64,
) -> (Q, Result<u64, AllocError>)
where
    S: Sources<Shard = Q::Shard>,
    T: Targets<Target = Q::Target>,
    Q::Stage: Send,
    Q::Fetch: Send,
    requires carried { first_bad lines.now ≡ None }
    requires waits { MayWait Q.start (S.told outside.now.sources.now) (T.told outside.now.targets.now) outside.now.part_size workers }
    requires may { MayVerify Q.start workers (asks_check lines.now) (Q.seen desk) }
    requires numbered { HasNoTickets Q.start }
    requires earlier { Q.start.earlier_turns ≡ 0 }
    ensures made { MadeFirst Q.start (steps_of moment lines.now) (Q.seen desk) (Q.seen result.0) }
    ensures rests { IfOk result.1 (λ owed. AreIn Q.start (Q.seen desk) → AreMade Q.start moment owed lines.now (Q.seen desk) (Q.seen result.0) ⊎ WasLeft Q.start moment owed lines.now (Q.seen desk) (Q.seen result.0)) }
    ensures whole { AreWhole Q.start workers (asks_check lines.now) (Q.seen result.0) }
    ensures takes { idle_takes (Q.seen result.0) ≤ idle_takes (Q.seen desk) + waits_of workers lines.now }
    ensures owes { IfOk result.1 (λ owed. elections (Q.seen result.0) + owed ≤ elections (Q.seen desk) + failovers_of lines.now) }
    ensures elects { elections (Q.seen result.0) ≤ elections (Q.seen desk) + failovers_of lines.now }
    ensures apart { AreIn Q.start (Q.seen desk) → AskedUnlessStopped Q.start (Q.seen desk) (Q.seen result.0) }
{
    is_count(lines.len());
    let mut desk = desk;
    let mut owed: u64 = 0;
    let mut left = lines;
    while let [line, rest @ ..] = left {
        let crew = Crew {
            workers,
            elections: owed,
        };
        let (after, answer) = carry_line(rt, alloc, desk, &line.item, outside, crew, moment);
        desk = after;
        match answer {
            Ok(()) => {}
            Err(refusal) => match refusal {
                StepRefusal::Refused(_) => {}
                StepRefusal::Memory => return (desk, Err(AllocError)),
                StepRefusal::TurnsSpent => return (desk, Ok(0)),
            },
        }
        owed = owed_after(&line.item, owed);
        left = rest;
    }
    (desk, Ok(owed))
}

/// The wait at the script's end.
fn work_out<Q: Sole + Send, S, T, G: Gate, R: Threads + Wait + Sync>(
    rt: &R,
    alloc: Global,
    desk: Q,
    outside: &Outside<'_, S, T, G>,
    crew: Crew,
) -> (Q, Result<(), AllocError>)
where
    S: Sources<Shard = Q::Shard>,
    T: Targets<Target = Q::Target>,
    Q::Stage: Send,
    Q::Fetch: Send,
    requires waits { MayWait Q.start (S.told outside.now.sources.now) (T.told outside.now.targets.now) outside.now.part_size crew.workers }
    requires legal { Legal Q.start (Q.seen desk) }
    requires earlier { Q.start.earlier_turns ≡ 0 }
    ensures grew { GrewAsking Q.start [] (Q.seen desk) (Q.seen result.0) }
    ensures done { OnOk result.1 (AreIn Q.start (Q.seen desk) → IsIdle Q.start (Q.seen result.0) ⊎ HasStopped (Q.seen result.0)) }
    ensures whole { (workers : ℕ) (checks : Bool) → AreWhole Q.start workers checks (Q.seen desk) → AreWhole Q.start workers checks (Q.seen result.0) }
    ensures closed { NoneOpen Q.start (Q.seen desk) → NoneOpen Q.start (Q.seen result.0) }
    ensures takes { idle_takes (Q.seen result.0) ≤ idle_takes (Q.seen desk) + crew.workers }
    ensures elected { OnOk result.1 ((elections (Q.seen result.0) ≡ elections (Q.seen desk) + crew.elections) ⊎ (2 ^ 33 ≤ length (Q.seen result.0))) }
    ensures elects { elections (Q.seen result.0) ≤ elections (Q.seen desk) + crew.elections }
    ensures only { WaitsOnly (Q.seen desk) (Q.seen result.0) }
{
    let (desk, answer) = wait(rt, alloc, desk, outside, crew);
    match answer {
        Ok(()) => (desk, Ok(())),
        Err(refusal) => match refusal {
            StepRefusal::Memory => (desk, Err(AllocError)),
            StepRefusal::TurnsSpent => (desk, Ok(())),
            StepRefusal::Refused(_) => (desk, Ok(())),
        },
    }
}

/// Carries out the lines, and works all units that are ready then.
pub(crate) fn carry<Q: Client + Sole + Send, S, T, G: Gate, R: Threads + Wait + Sync>(
    rt: &R,
    alloc: Global,
    desk: Q,
    lines: &[ScriptLine],
    outside: &Outside<'_, S, T, G>,
    workers: u32,
    moment: u64,
) -> (Q, Result<(), AllocError>)
where
    S: Sources<Shard = Q::Shard>,
    T: Targets<Target = Q::Target>,
    Q::Stage: Send,
    Q::Fetch: Send,
    requires carried { first_bad lines.now ≡ None }
    requires waits { MayWait Q.start (S.told outside.now.sources.now) (T.told outside.now.targets.now) outside.now.part_size workers }
    requires may { MayVerify Q.start workers (asks_check lines.now) (Q.seen desk) }
    requires numbered { HasNoTickets Q.start }
    requires earlier { Q.start.earlier_turns ≡ 0 }
    ensures made { MadeFirst Q.start (steps_of moment lines.now) (Q.seen desk) (Q.seen result.0) }
    ensures done { OnOk result.1 (AreIn Q.start (Q.seen desk) → AreDone Q.start moment lines.now (Q.seen desk) (Q.seen result.0) ⊎ WasLeft Q.start moment 0 lines.now (Q.seen desk) (Q.seen result.0)) }
    ensures whole { AreWhole Q.start workers (asks_check lines.now) (Q.seen result.0) }
    ensures takes { idle_takes (Q.seen result.0) ≤ idle_takes (Q.seen desk) + (waits_of workers lines.now + workers) }
    ensures elects { elections (Q.seen result.0) ≤ elections (Q.seen desk) + failovers_of lines.now }
    ensures apart { AreIn Q.start (Q.seen desk) → AskedUnlessStopped Q.start (Q.seen desk) (Q.seen result.0) }
{
    let (desk, owed) = carry_lines(rt, alloc, desk, lines, outside, workers, moment);
    match owed {
        Ok(elections) => {
            let crew = Crew { workers, elections };
            work_out(rt, alloc, desk, outside, crew)
        }
        Err(AllocError) => (desk, Err(AllocError)),
    }
}
