//! Steps of a desk, made one after another as the lines of a scene say.
ghost use Rattle.std.specs.Prelude.{◌≡◌, ◌≤◌, ◌^◌, true, Some};
ghost use Rattle.esr_depot.specs.Image.{Image};
ghost use Rattle.esr_depot.specs.Look.{now};
ghost use Rattle.esr_desk.specs.Sources.{AreSources};
ghost use Rattle.esr_drive.specs.Outside.{IsOutside};
ghost use Rattle.esr_repo.specs.Begun.{IsBegun};
ghost use Rattle.esr_drive.specs.Worked.{IsWorkable};

use crate::between::Due;
use crate::both::sit_told;
use crate::errors::{Done, REFUSED, Trouble};
use crate::setting::ask;
use crate::units::{
    PART_SIZE, elect_beside, end_faulty, end_late, take, work_beside, work_next, work_unit,
};
use esr_depot::Depot;
use esr_desk::{Client, Desk, Sole};
use esr_drive::{Outside, work};
use esr_opening::{Opening, open_container};
use esr_repo::{Repo, Told};
use esr_seq::Text;
use esr_solo::Solo;
use esr_source::{NoGate, Sources, Targets};
use std::alloc::Global;
use std::marker::Brand;
use std::sync::Wait;

/// Takes a unit, works two others, and works it then. The words say what they do.
fn work_around<Q: Desk<Shard = S::Shard>, S: Sources>(
    alloc: Global,
    desk: &mut Q,
    sources: &S,
    words: &str,
) -> Done
    requires sources { AreSources Q.start (S.told sources.now) }
    requires size { PART_SIZE ≡ Q.start.part_size }
    requires alone { Q.start.alone ≡ true }
{
    let (word, others) = words.split_once(' ').unwrap_or((words, ""));
    let (first, second) = others.split_once(' ').unwrap_or((others, ""));
    let held = take(alloc, desk, word)?;
    work_beside(alloc, desk, &held, sources, first)?;
    work_beside(alloc, desk, &held, sources, second)?;
    work_unit(alloc, desk, &held, sources)
}

/// Takes a unit, begins the next term, and works it then. The word says what it does.
fn work_late<Q: Desk>(alloc: Global, desk: &mut Q, word: &str) -> Done
    requires alone { Q.start.alone ≡ true }
{
    let held = take(alloc, desk, word)?;
    elect_beside(alloc, desk, &held)?;
    end_late(alloc, desk, &held)
}

/// Takes a unit, works another one, and works it then, when its source fails. The words say what they do.
fn work_faulty<Q: Desk<Shard = S::Shard>, S: Sources>(
    alloc: Global,
    desk: &mut Q,
    sources: &S,
    words: &str,
) -> Done
    requires sources { AreSources Q.start (S.told sources.now) }
    requires size { PART_SIZE ≡ Q.start.part_size }
    requires alone { Q.start.alone ≡ true }
{
    let (word, other) = words.split_once(' ').unwrap_or((words, ""));
    let held = take(alloc, desk, word)?;
    work_beside(alloc, desk, &held, sources, other)?;
    end_faulty(alloc, desk, &held, sources)
}

/// Makes a step: it works, or asks for an op.
fn step<Q: Client<Shard = S::Shard, Target = T::Target>, S: Sources, T: Targets>(
    alloc: Global,
    desk: &mut Q,
    sources: &S,
    targets: &T,
    line: &str,
) -> Done
    requires sources { AreSources Q.start (S.told sources.now) }
    requires size { PART_SIZE ≡ Q.start.part_size }
    requires alone { Q.start.alone ≡ true }
    requires workable { IsWorkable Q.start (S.told sources.now) (T.told targets.now) PART_SIZE }
{
    let (verb, words) = line.split_once(' ').unwrap_or((line, ""));
    match verb {
        "work" => work_next(alloc, desk, sources, words),
        "around" => work_around(alloc, desk, sources, words),
        "faulty" => work_faulty(alloc, desk, sources, words),
        "late" => work_late(alloc, desk, words),
        "all" => match work(alloc, desk, sources, targets, &NoGate, PART_SIZE) {
            Ok(()) => Ok(()),
            Err(_) => Err(Trouble(REFUSED)),
        },
        _ => ask(alloc, desk, verb, words),
    }
}

/// Makes the steps of the lines that begin with `>`.
fn steps<Q: Client<Shard = S::Shard, Target = T::Target>, S: Sources, T: Targets>(
    alloc: Global,
    desk: &mut Q,
    sources: &S,
    targets: &T,
    lines: &str,
) -> Done
    requires sources { AreSources Q.start (S.told sources.now) }
    requires size { PART_SIZE ≡ Q.start.part_size }
    requires alone { Q.start.alone ≡ true }
    requires workable { IsWorkable Q.start (S.told sources.now) (T.told targets.now) PART_SIZE }
{
    for line in lines.lines() {
        if let Some(told) = line.strip_prefix("> ") {
            step(alloc, desk, sources, targets, told)?;
        }
    }
    Ok(())
}

/// Where a line lets the next term begin.
fn due_at(line: &str) -> Option<Due> {
    match line {
        "* raise" => Some(Due::Raise),
        "* plan" => Some(Due::Plan),
        "* drop" => Some(Due::Drop),
        "* spent" => Some(Due::Take),
        _ => None,
    }
}

/// Where the line that begins with `*` lets the next term begin.
fn due_of(lines: &str) -> Option<Due> {
    for line in lines.lines() {
        let due = due_at(line);
        if due.is_some() {
            return due;
        }
    }
    None
}

/// Works all units by two desks, where a line lets the next term begin. The desk comes back, with what was told of the steps.
fn go_on<Q: Sole, S, T, R: Wait + Sync>(
    rt: &R,
    alloc: Global,
    desk: Q,
    outside: &Outside<'_, S, T, NoGate>,
    lines: &str,
) -> (Q, String)
where
    S: Sources<Shard = Q::Shard>,
    T: Targets<Target = Q::Target>,
    requires alone { Q.start.alone ≡ true }
    requires earlier { Q.start.earlier_turns ≡ 2 ^ 33 }
    requires workable { IsWorkable Q.start (S.told outside.now.sources.now) (T.told outside.now.targets.now) outside.now.part_size }
{
    match due_of(lines) {
        Some(due) => sit_told::<Q, S, T, Brand, R>(rt, alloc, desk, outside, due),
        None => (desk, String::new(alloc)),
    }
}

/// Makes the steps of a scene. The desk comes back, with what was told of the steps that two desks made.
fn play_steps<Q: Client + Sole, S, T, R: Wait + Sync>(
    rt: &R,
    alloc: Global,
    desk: Q,
    sources: &S,
    targets: &T,
    lines: &str,
) -> (Q, Result<String, Trouble>)
where
    S: Sources<Shard = Q::Shard>,
    T: Targets<Target = Q::Target>,
    requires sources { AreSources Q.start (S.told sources.now) }
    requires size { PART_SIZE ≡ Q.start.part_size }
    requires alone { Q.start.alone ≡ true }
    requires earlier { Q.start.earlier_turns ≡ 2 ^ 33 }
    requires workable { IsWorkable Q.start (S.told sources.now) (T.told targets.now) PART_SIZE }
{
    let mut desk = desk;
    let stepped = steps(alloc, &mut desk, sources, targets, lines);
    let outside = Outside {
        sources,
        targets,
        gate: &NoGate,
        part_size: PART_SIZE,
    };
    let (desk, told) = go_on(rt, alloc, desk, &outside, lines);
    match stepped {
        Ok(()) => (desk, Ok(told)),
        Err(trouble) => (desk, Err(trouble)),
    }
}

/// The container after these steps, and what was told of those that two desks made then.
fn made<D: Depot, K: Told, S: Sources, T: Targets, R: Wait + Sync>(
    rt: &R,
    alloc: Global,
    opening: Opening<D>,
    sources: &S,
    targets: &T,
    lines: &Text,
) -> Result<(D, String), Trouble>
    requires begun { IsBegun K.start K.clock K.past (D.look opening.depot)
        (record { cluster = opening.cluster; root = opening.root; infos = opening.infos; plan = opening.progress; next = opening.next.number }) }
    requires counted { K.faults ≤ D.faults opening.depot }
    requires calm { K.start.quiet ≡ true → 2 ^ 41 ≤ (D.look opening.depot).sure }
    requires outside { IsOutside K.start (S.told sources.now) (T.told targets.now) PART_SIZE }
    requires alone { K.start.alone ≡ true }
    requires earlier { K.start.earlier_turns ≡ 2 ^ 33 }
{
    let repo = Repo::<D, K>::from_opening(alloc, opening);
    let desk = Solo::<D, K, S::Shard, T::Target>::new(alloc, repo);
    let (desk, told) = play_steps(rt, alloc, desk, sources, targets, lines.as_str());
    let (repo, _faults, _targets) = desk.into_parts();
    let (depot, _history) = repo.into_parts();
    let told = told?;
    Ok((depot, told))
}

/// Since now a crash leaves no image but that of now.
fn only_now<D: Depot>(depot: &D)
    ensures { (i : Image) → (D.look depot.now).since (D.look depot.now).clock i → now (D.look depot.now) ≡ Some i }
{
    let _ = depot;
}

/// The container after these steps, from one that is opened first, and what was told of those that two desks made then.
pub(crate) fn made_in<D: Depot, S: Sources, T: Targets, R: Wait + Sync>(
    rt: &R,
    alloc: Global,
    depot: D,
    sources: &S,
    targets: &T,
    lines: &Text,
) -> Result<(D, String), Trouble> {
    esr_core::opened_worlds_track_restores();
    match open_container(alloc, depot) {
        Ok(opening) => {
            only_now(&opening.depot);
            made::<D, Brand, S, T, R>(rt, alloc, opening, sources, targets, lines)
        }
        Err(_) => Err(Trouble("a container that opens")),
    }
}
