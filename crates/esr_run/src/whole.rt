//! A whole run.
ghost use Rattle.std.specs.Prelude.{◌≡◌, ◌⊎◌, ◌<◌, ◌≤◌, ◌^◌, ℕ, true, false, [], Some, None, OnOk, IfOk, IsErr, vec_len, vec_capacity};
ghost use Rattle.esr_model.specs.Places.{sorted_by};
ghost use Rattle.esr_drive.specs.Outside.{IsOutside};
ghost use Rattle.esr_drive.specs.Worked.{MayWait};
ghost use Rattle.esr_desk.specs.Evidence.{evidence};
ghost use Rattle.esr_desk.specs.Restore.Targets.{AreTargetsOf};
ghost use Rattle.esr_desk.specs.Shown.{AreShown};
ghost use Rattle.esr_targets.specs.Lines.{AreNumbered, ops_of_lines};
ghost use Rattle.esr_targets.specs.Listed.{target_first, listed};
ghost use Rattle.esr_targets.specs.Targets.{AreTargetsOfLines};
ghost use Rattle.esr_run.specs.Restored.{OpensRestored, HasRestored};
ghost use Rattle.esr_repo.specs.Begun.{IsBegun};
ghost use Rattle.esr_desk.specs.Once.{AreOnce, NoneTwice, AreRemovedOnce};
ghost use Rattle.esr_desk.specs.Verify.Tested.{AreTested};
ghost use Rattle.esr_quiet.specs.Numbers.{HasNoTickets};
ghost use Rattle.esr_complete.specs.Lines.{steps_of};
ghost use Rattle.esr_repo.specs.Calm.{IsCalm};
ghost use Rattle.esr_repo.specs.Log.{log_of};
ghost use Rattle.esr_repo.specs.Counted.{IsCounted};
ghost use Rattle.esr_repo.specs.Deposed.{AreDeposedSo};
ghost use Rattle.esr_repo.specs.Past.{IsPast};
ghost use Rattle.esr_script.specs.Jobs.{job_of};
ghost use Rattle.esr_run.specs.Asked.{wanted_of};
ghost use Rattle.esr_run.specs.Ends.{Carried};
ghost use Rattle.esr_run.specs.Script.{first_bad};
ghost use Rattle.esr_run.specs.Start.{telling, LegalRun};
ghost use Rattle.esr_run.specs.Causes.{Given, IsReadFor, IsTold, IsVerdict, IsUnopened, IsOpenedRun, IsOpenCause, IsRunOf, IsCauseOf, IsEndOf, OpensWell, IsComplete};
ghost use Rattle.esr_core.specs.World.{no_caller};
ghost use Rattle.esr_run.specs.Checked.{asks_check};
ghost use Rattle.esr_run.specs.Verified.{AreWhole};
ghost use Rattle.esr_run.specs.Waits.{AreFew};
ghost use Rattle.esr_run.specs.Made.{MadeFirst, HasFallen, HasNoReaders, AreDone, AskedUnlessStopped};

use crate::asked::{Asked, asked_for};
use crate::carry::carry;
use crate::ended::Ended;
use crate::fault::{faults_of, room_for_one};
use crate::host::Host;
use crate::law::{kept_laws, laws, only_now, quiet_laws, refusals};
use crate::stop::Stop;
use crate::unopened::{ended_at, stop_of};
use crate::verdict::{Verdict, print_verdict, reported, wanting};
use esr_depot::Depot;
use esr_desk::{Fault, Faults, History, RestoredTargets, no_step_is_made_twice};
use esr_drive::Outside;
use esr_opening::{Opening, open_container};
use esr_repo::{Repo, Told};
use esr_script::{Script, Words};
use esr_seq::Seq;
use esr_solo::Solo;
use esr_source::{Gate, Lines, Out, Sources, Target, Targets};
use esr_targets::{TargetList, each_target_is_of_its_line, targets_of};
use std::alloc::{AllocError, Global};
use std::marker::Brand;
use std::sync::Wait;
use std::thread::Threads;

/// A run that is not printed yet.
#[derive(Drop)]
pub(crate) struct Done<D: Depot, T> {
    pub verdict: Verdict,
    pub depot: D,
    pub targets: TargetList<T>,
    pub history: History,
}

/// What was carried out on a repository, with the targets that restores filled. It ended early where memory was wanting.
#[derive(Drop)]
struct Work<R, F, T> {
    repo: R,
    faults: F,
    restored: RestoredTargets<T>,
    carried: Result<(), AllocError>,
}

/// The targets by their lines, unless memory was wanting.
fn targets_by_lines<T: Drop>(
    alloc: Global,
    carried: Result<(), AllocError>,
    restored: RestoredTargets<T>,
    script: &Script,
    history: &History,
) -> Result<TargetList<T>, AllocError>
    ensures listed { IfOk result (λ targets. targets ≡ sorted_by target_first (listed (ops_of_lines script.now history.now) restored)) }
    ensures wanting { IsErr carried → IsErr result }
{
    carried?;
    targets_of(alloc, script.as_slice(), history.as_slice(), restored)
}

/// The verdict of a run whose script was carried out, and its targets, unless memory was wanting.
fn verdict_after<T: Drop>(
    alloc: Global,
    listed: Result<TargetList<T>, AllocError>,
    script: &Script,
    history: &History,
) -> (Verdict, TargetList<T>)
    ensures told { IsTold result.0.status result.0.text (Some (Carried script.now history.now)) }
    ensures wanting { IsErr listed → result.0.status ≡ 8 }
    ensures targets { IfOk listed (λ targets. result.1 ≡ targets) }
{
    match listed {
        Ok(targets) => (reported(alloc, script, history), targets),
        Err(AllocError) => (wanting(alloc), Seq::new(alloc)),
    }
}

/// Carries out the script on a desk over the repository.
fn carry_on<D, S: Sources, T: Targets, G: Gate, K: Told + Send + Sync, R: Threads + Wait + Sync>(
    rt: &R,
    alloc: Global,
    repo: Repo<D, K>,
    asked: &Asked,
    host: &Host<'_, S, T, G>,
) -> Work<Repo<D, K>, Faults<D::Stage, D::Fetch, S::Shard, T::Target>, T::Target>
where
    D: Depot + Send,
    D::Stage: Send,
    D::Fetch: Send,
    requires fresh { repo ≡ [] }
    requires waits { MayWait K.start (S.told host.now.sources.now) (T.told host.now.targets.now) asked.now.part_size asked.now.workers }
    requires good { first_bad asked.now.script ≡ None }
    requires numbered { HasNoTickets K.start }
    requires readers { HasNoReaders K.start }
    requires nobody { K.start.world.caller ≡ no_caller }
    requires alive { K.start.world.deposed ≡ false }
    requires earlier { K.start.earlier_turns ≡ 0 }
    ensures shown { AreShown (evidence D.Stage.faults D.Fetch.faults S.Shard.faults T.Target.faults S.Shard.told T.Target.told) K.start result.repo result.faults }
    ensures once { AreOnce K.start result.repo }
    ensures tested { AreTested K.start result.repo }
    ensures removed { AreRemovedOnce result.repo }
    ensures made { MadeFirst K.start (steps_of host.now.moment asked.now.script) [] result.repo }
    ensures done { OnOk result.carried (AreDone K.start host.now.moment asked.now.script [] result.repo ⊎ HasFallen K.start host.now.moment asked.now.script [] result.repo) }
    ensures whole { AreWhole K.start asked.now.workers (asks_check asked.now.script) result.repo }
    ensures few { AreFew asked.now.workers asked.now.script result.repo }
    ensures apart { AskedUnlessStopped K.start [] result.repo }
    ensures restored { AreTargetsOf (evidence D.Stage.faults D.Fetch.faults S.Shard.faults T.Target.faults S.Shard.told T.Target.told) K.start result.repo result.restored }
{
    refusals();
    let desk = Solo::<D, K, S::Shard, T::Target>::new(alloc, repo);
    let lines = asked.script.as_slice();
    let outside = Outside {
        sources: host.sources,
        targets: host.targets,
        gate: host.gate,
        part_size: asked.part_size,
    };
    let (desk, carried) = carry(rt, alloc, desk, lines, &outside, asked.workers, host.moment);
    let (repo, faults, restored) = desk.into_parts();
    Work {
        repo,
        faults,
        restored,
        carried,
    }
}

/// Carries out the script on a container that was opened.
fn run_told<D, S: Sources, T: Targets, G: Gate, K: Told + Send + Sync, R: Threads + Wait + Sync>(
    rt: &R,
    alloc: Global,
    opening: Opening<D>,
    asked: &Asked,
    host: &Host<'_, S, T, G>,
) -> (
    Done<D, T::Target>,
    Faults<D::Stage, D::Fetch, S::Shard, T::Target>,
)
where
    D: Depot + Send,
    D::Stage: Send,
    D::Fetch: Send,
    requires begun { IsBegun K.start K.clock K.past (D.look opening.depot)
        (record { cluster = opening.cluster; root = opening.root; infos = opening.infos; plan = opening.progress; next = opening.next.number }) }
    requires counted { K.faults ≤ D.faults opening.depot }
    requires calm { K.start.quiet ≡ true → 2 ^ 41 ≤ (D.look opening.depot).sure }
    requires alone { K.start.alone ≡ true }
    requires earlier { K.start.earlier_turns ≡ 0 }
    requires readers { HasNoReaders K.start }
    requires outside { IsOutside K.start (S.told host.now.sources.now) (T.told host.now.targets.now) asked.now.part_size }
    requires good { first_bad asked.now.script ≡ None }
    requires lines { AreNumbered asked.now.script }
    requires workers { (1 ≤ asked.now.workers) × (asked.now.workers ≤ 64) }
    ensures legal { LegalRun K.start K.clock (D.look result.0.depot) result.0.history }
    ensures past { IsPast K.start K.clock K.past (D.look result.0.depot) result.0.history }
    ensures shown { AreShown (evidence D.Stage.faults D.Fetch.faults S.Shard.faults T.Target.faults S.Shard.told T.Target.told)
        K.start (log_of (D.look result.0.depot) K.clock result.0.history) result.1 }
    ensures counted { IsCounted K.faults (D.faults result.0.depot) result.0.history }
    ensures named { AreDeposedSo result.0.history }
    ensures once { AreOnce K.start (log_of (D.look result.0.depot) K.clock result.0.history) }
    ensures tested { AreTested K.start (log_of (D.look result.0.depot) K.clock result.0.history) }
    ensures single { NoneTwice (log_of (D.look result.0.depot) K.clock result.0.history) }
    ensures removed { AreRemovedOnce (log_of (D.look result.0.depot) K.clock result.0.history) }
    ensures calm { IsCalm K.start.quiet (D.look result.0.depot).sure result.0.history }
    ensures made { MadeFirst K.start (steps_of host.now.moment asked.now.script) [] (log_of (D.look result.0.depot) K.clock result.0.history) }
    ensures done { (result.0.verdict.status ≡ 8) ⊎ (AreDone K.start host.now.moment asked.now.script [] (log_of (D.look result.0.depot) K.clock result.0.history) ⊎ HasFallen K.start host.now.moment asked.now.script []
        (log_of (D.look result.0.depot) K.clock result.0.history)) }
    ensures verified { AreWhole K.start asked.now.workers (asks_check asked.now.script) (log_of (D.look result.0.depot) K.clock result.0.history) }
    ensures few { AreFew asked.now.workers asked.now.script (log_of (D.look result.0.depot) K.clock result.0.history) }
    ensures apart { AskedUnlessStopped K.start [] (log_of (D.look result.0.depot) K.clock result.0.history) }
    ensures told { IsTold result.0.verdict.status result.0.verdict.text (Some (Carried asked.now.script result.0.history)) }
    ensures restored { (result.0.verdict.status ≡ 8) ⊎ AreTargetsOfLines (evidence D.Stage.faults D.Fetch.faults S.Shard.faults T.Target.faults S.Shard.told T.Target.told)
        K.start host.now.moment asked.now.script (log_of (D.look result.0.depot) K.clock result.0.history) result.0.targets }
{
    each_target_is_of_its_line::<D::Stage, D::Fetch, S::Shard, T::Target>();
    no_step_is_made_twice();
    let repo = Repo::<D, K>::from_opening(alloc, opening);
    let worked = carry_on::<D, S, T, G, K, R>(rt, alloc, repo, asked, host);
    let Work {
        repo,
        faults,
        restored,
        carried,
    } = worked;
    let (depot, history) = repo.into_parts();
    let listed = targets_by_lines(alloc, carried, restored, &asked.script, &history);
    let (verdict, targets) = verdict_after(alloc, listed, &asked.script, &history);
    let done = Done {
        verdict,
        depot,
        targets,
        history,
    };
    (done, faults)
}

/// Opens the container, and carries out the script on it.
fn open_and_carry<D: Depot + Send, S: Sources, T: Targets, G: Gate, R: Threads + Wait + Sync>(
    rt: &R,
    alloc: Global,
    depot: D,
    room: Vec<Fault<D::Stage, D::Fetch, S::Shard, T::Target>>,
    asked: &Asked,
    host: &Host<'_, S, T, G>,
) -> (
    Done<D, T::Target>,
    Faults<D::Stage, D::Fetch, S::Shard, T::Target>,
)
where
    D::Stage: Send,
    D::Fetch: Send,
    requires empty { room.items ≡ [] }
    requires room { vec_len room < vec_capacity room }
    requires sized { (1 ≤ asked.now.part_size) × (asked.now.part_size ≤ 2 ^ 30) }
    requires good { first_bad asked.now.script ≡ None }
    requires lines { AreNumbered asked.now.script }
    requires workers { (1 ≤ asked.now.workers) × (asked.now.workers ≤ 64) }
    ensures run { IsUnopened (evidence D.Stage.faults D.Fetch.faults S.Shard.faults T.Target.faults S.Shard.told T.Target.told) (telling (S.told host.now.sources.now) (T.told host.now.targets.now)) (D.look depot)
        (D.look result.0.depot) (D.faults depot) (D.faults result.0.depot) result.0.history result.1
        ⊎ IsOpenedRun (evidence D.Stage.faults D.Fetch.faults S.Shard.faults T.Target.faults S.Shard.told T.Target.told) (telling (S.told host.now.sources.now) (T.told host.now.targets.now)) asked.now.part_size
        asked.now.workers host.now.moment asked.now.script (D.look depot) (D.look result.0.depot) result.0.history result.1 }
    ensures complete { OpensWell (evidence D.Stage.faults D.Fetch.faults S.Shard.faults T.Target.faults S.Shard.told T.Target.told) (telling (S.told host.now.sources.now) (T.told host.now.targets.now))
        asked.now.part_size asked.now.workers host.now.moment asked.now.script (D.look depot) (D.look result.0.depot) result.0.history result.1 result.0.verdict.status }
    ensures told { IsVerdict result.0.verdict.status result.0.verdict.text
        (IsOpenCause (evidence D.Stage.faults D.Fetch.faults S.Shard.faults T.Target.faults S.Shard.told T.Target.told) (telling (S.told host.now.sources.now) (T.told host.now.targets.now)) asked.now.part_size
        asked.now.workers host.now.moment (D.look depot) (D.look result.0.depot) (D.faults depot) (D.faults result.0.depot) asked.now.script result.0.history result.1) }
    ensures counted { IsCounted (D.faults depot) (D.faults result.0.depot) result.0.history }
    ensures named { AreDeposedSo result.0.history }
    ensures restored { OpensRestored (evidence D.Stage.faults D.Fetch.faults S.Shard.faults T.Target.faults S.Shard.told T.Target.told) (telling (S.told host.now.sources.now) (T.told host.now.targets.now))
        asked.now.part_size asked.now.workers host.now.moment asked.now.script (D.look depot) (D.look result.0.depot) result.0.history result.1 result.0.targets result.0.verdict.status }
{
    laws();
    quiet_laws::<D::Stage, D::Fetch, S::Shard, T::Target>();
    kept_laws::<D::Stage, D::Fetch, S::Shard, T::Target>();
    match open_container(alloc, depot) {
        Ok(opening) => {
            only_now(&opening.depot);
            run_told::<D, S, T, G, Brand, R>(rt, alloc, opening, asked, host)
        }
        Err((depot, refusal)) => {
            let (stop, fetch) = stop_of(refusal);
            (ended_at(alloc, depot, &stop), faults_of(room, fetch))
        }
    }
}

/// Carries out what the words ask for.
fn carry_out<D: Depot + Send, S: Sources, T: Targets, G: Gate, I: Lines, R: Threads + Wait + Sync>(
    rt: &R,
    alloc: Global,
    words: &Words,
    script: &mut I,
    depot: D,
    host: &Host<'_, S, T, G>,
) -> (
    Done<D, T::Target>,
    Faults<D::Stage, D::Fetch, S::Shard, T::Target>,
)
where
    D::Stage: Send,
    D::Fetch: Send,
    ensures run { IsRunOf (evidence D.Stage.faults D.Fetch.faults S.Shard.faults T.Target.faults S.Shard.told T.Target.told)
        (record { words = words.now; script = I.left script.old; faults = I.faults script.old; moment = host.now.moment }) (telling (S.told host.now.sources.now) (T.told host.now.targets.now))
        (D.look depot) (D.look result.0.depot) (D.faults depot) (D.faults result.0.depot) result.0.history result.1 }
    ensures told { IsVerdict result.0.verdict.status result.0.verdict.text
        (IsCauseOf (evidence D.Stage.faults D.Fetch.faults S.Shard.faults T.Target.faults S.Shard.told T.Target.told)
        (record { words = words.now; script = I.left script.old; faults = I.faults script.old; moment = host.now.moment }) (telling (S.told host.now.sources.now) (T.told host.now.targets.now)) (I.faults script.new)
        (D.look depot) (D.look result.0.depot) (D.faults depot) (D.faults result.0.depot) result.0.history result.1) }
    ensures complete { (old new : ℕ) → IsComplete (evidence D.Stage.faults D.Fetch.faults S.Shard.faults T.Target.faults S.Shard.told T.Target.told)
        (record { words = words.now; script = I.left script.old; faults = I.faults script.old; moment = host.now.moment }) (telling (S.told host.now.sources.now) (T.told host.now.targets.now)) (I.faults script.new)
        (D.look depot) (D.look result.0.depot) old new result.0.history result.1 result.0.verdict.status }
    ensures reader { IsReadFor (wanted_of (job_of words.now)) (I.left script.old) (I.left script.new) (I.faults script.old) (I.faults script.new) }
    ensures counted { IsCounted (D.faults depot) (D.faults result.0.depot) result.0.history }
    ensures named { AreDeposedSo result.0.history }
    ensures restored { HasRestored (evidence D.Stage.faults D.Fetch.faults S.Shard.faults T.Target.faults S.Shard.told T.Target.told)
        (record { words = words.now; script = I.left script.old; faults = I.faults script.old; moment = host.now.moment }) (telling (S.told host.now.sources.now) (T.told host.now.targets.now)) (D.look depot)
        (D.look result.0.depot) result.0.history result.1 result.0.targets result.0.verdict.status }
{
    only_now(&depot);
    let asked = match asked_for(alloc, words, script) {
        Ok(asked) => asked,
        Err(stop) => return (ended_at(alloc, depot, &stop), Seq::new(alloc)),
    };
    match room_for_one(alloc) {
        Ok(room) => open_and_carry::<D, S, T, G, R>(rt, alloc, depot, room, &asked, host),
        Err(AllocError) => (ended_at(alloc, depot, &Stop::Memory), Seq::new(alloc)),
    }
}

/// Carries out the script for which the words ask, or the one command, as a script of that line, on a container into which
/// nothing was written, or one that an earlier run left, and prints what each line was answered. The script is read to its
/// end where the words ask for one, and else not at all. The files of restores go into the targets of the host; the shards
/// that were restored come back in the result, by line, index and shard. Waits have as many workers as the words ask for,
/// each in a thread of `rt`.
pub fn run<
    D: Depot + Send,
    S: Sources,
    T: Targets,
    G: Gate,
    I: Lines,
    O: Out,
    R: Threads + Wait + Sync,
>(
    rt: &R,
    alloc: Global,
    words: &Words,
    script: &mut I,
    depot: D,
    host: &Host<'_, S, T, G>,
    out: &mut O,
) -> Ended<D, S::Shard, T::Target>
where
    D::Stage: Send,
    D::Fetch: Send,
    ensures legal { IsRunOf (evidence D.Stage.faults D.Fetch.faults S.Shard.faults T.Target.faults S.Shard.told T.Target.told)
        (record { words = words.now; script = I.left script.old; faults = I.faults script.old; moment = host.now.moment }) (telling (S.told host.now.sources.now) (T.told host.now.targets.now))
        (D.look depot) (D.look result.depot) (D.faults depot) (D.faults result.depot) result.history result.faults }
    ensures end { IsEndOf result.status (O.contents out.old) (O.contents out.new) (O.faults out.old) (O.faults out.new)
        (IsCauseOf (evidence D.Stage.faults D.Fetch.faults S.Shard.faults T.Target.faults S.Shard.told T.Target.told)
        (record { words = words.now; script = I.left script.old; faults = I.faults script.old; moment = host.now.moment }) (telling (S.told host.now.sources.now) (T.told host.now.targets.now)) (I.faults script.new)
        (D.look depot) (D.look result.depot) (D.faults depot) (D.faults result.depot) result.history result.faults) }
    ensures complete { IsComplete (evidence D.Stage.faults D.Fetch.faults S.Shard.faults T.Target.faults S.Shard.told T.Target.told)
        (record { words = words.now; script = I.left script.old; faults = I.faults script.old; moment = host.now.moment }) (telling (S.told host.now.sources.now) (T.told host.now.targets.now)) (I.faults script.new)
        (D.look depot) (D.look result.depot) (O.faults out.old) (O.faults out.new) result.history result.faults result.status }
    ensures reader { IsReadFor (wanted_of (job_of words.now)) (I.left script.old) (I.left script.new) (I.faults script.old) (I.faults script.new) }
    ensures counted { IsCounted (D.faults depot) (D.faults result.depot) result.history }
    ensures named { AreDeposedSo result.history }
    ensures restored { HasRestored (evidence D.Stage.faults D.Fetch.faults S.Shard.faults T.Target.faults S.Shard.told T.Target.told)
        (record { words = words.now; script = I.left script.old; faults = I.faults script.old; moment = host.now.moment }) (telling (S.told host.now.sources.now) (T.told host.now.targets.now)) (D.look depot)
        (D.look result.depot) result.history result.faults result.targets result.status }
{
    let (done, faults) = carry_out::<D, S, T, G, I, R>(rt, alloc, words, script, depot, host);
    let status = print_verdict(out, &done.verdict);
    Ended {
        status,
        depot: done.depot,
        targets: done.targets,
        history: done.history,
        faults,
    }
}
