//! What a run is asked for.
ghost use Rattle.std.specs.Prelude.{◌≡◌, ◌≤◌, ◌^◌, ℕ, true, Some, Ok, IfOk, IfErr};
ghost use Rattle.esr_script.specs.Jobs.{job_of, IsOptions};
ghost use Rattle.esr_run.specs.Asked.{ReadScript, wanted_of, workers_of, part_size_of, single_script};
ghost use Rattle.esr_run.specs.Causes.{Given, IsScript, IsScriptFor, IsReadInPart, IsReadFor};
ghost use Rattle.esr_run.specs.Script.{is_carried};
ghost use Rattle.esr_run.specs.Stops.{IsNoRun, IsNoCommand, end_of, StoppedBy};

use crate::line::{is_carried, lines_of};
use crate::read::read_all;
use crate::stop::Stop;
use esr_script::{Item, Job, JobWork, Script, ScriptLine, Words, WordsRefusal, words_read};
use esr_source::Lines;
use std::alloc::{AllocError, Global};

/// What a run is asked for: its lines, the greatest size of a part in bytes, and how many workers there are.
#[derive(Drop)]
pub(crate) struct Asked {
    pub workers: u32,
    pub part_size: u64,
    pub script: Script,
}

/// The job for which the words ask.
fn job_for(alloc: Global, words: &Words) -> Result<Job, Stop>
    ensures job { IfOk result (λ job. job_of words.now ≡ Ok job) }
    ensures options { IfOk result (λ job. IsOptions job.options) }
    ensures err { IfErr result (IsNoRun words.now) }
{
    match words_read(alloc, words) {
        Ok(job) => Ok(job),
        Err(WordsRefusal::BadWords) => Err(Stop::BadWords),
        Err(WordsRefusal::Memory) => Err(Stop::Memory),
    }
}

/// The lines of the script, which is read to its end, unless it is too long.
fn script_asked<I: Lines>(
    alloc: Global,
    workers: u32,
    part_size: u64,
    script: &mut I,
) -> Result<Asked, Stop>
    ensures workers { IfOk result (λ a. a.workers ≡ workers) }
    ensures size { IfOk result (λ a. a.part_size ≡ part_size) }
    ensures script { IfOk result (λ a. IsScriptFor (ReadScript part_size) (I.left script.old) a.script) }
    ensures reader { IsReadInPart (I.left script.old) (I.left script.new) }
    ensures err { IfErr result (λ e. StoppedBy (ReadScript part_size) (I.left script.old) (I.faults script.old) (I.faults script.new) (end_of e)) }
{
    let bytes = read_all(alloc, script)?;
    match lines_of(alloc, bytes.as_slice()) {
        Ok(script) => Ok(Asked {
            workers,
            part_size,
            script,
        }),
        Err(stop) => Err(stop),
    }
}

/// A script of that command alone, as its line 1.
fn single_script(alloc: Global, item: Item) -> Result<Script, AllocError>
    ensures { IfOk result (λ lines. lines ≡ single_script item) }
{
    let mut script = Script::new(alloc);
    script.push(ScriptLine { number: 1, item })?;
    Ok(script)
}

/// The command alone, where it is one that can be carried out.
fn command_asked(alloc: Global, workers: u32, part_size: u64, item: Item) -> Result<Asked, Stop>
    ensures workers { IfOk result (λ a. a.workers ≡ workers) }
    ensures size { IfOk result (λ a. a.part_size ≡ part_size) }
    ensures script { IfOk result (λ a. a.script ≡ single_script item) }
    ensures carried { IfOk result (λ _. is_carried item ≡ true) }
    ensures err { IfErr result (IsNoCommand item) }
{
    if !is_carried(&item) {
        drop(item);
        return Err(Stop::BadLine { number: 1 });
    }
    let script = single_script(alloc, item)?;
    Ok(Asked {
        workers,
        part_size,
        script,
    })
}

/// What a job asks for. The script is read where the job is to run one, and else left alone.
fn asked_by<I: Lines>(alloc: Global, job: Job, script: &mut I) -> Result<Asked, Stop>
    requires { IsOptions job.options }
    ensures workers { IfOk result (λ a. workers_of (Ok job) ≡ Some a.workers) }
    ensures few { IfOk result (λ a. (1 ≤ a.workers) × (a.workers ≤ 64)) }
    ensures size { IfOk result (λ a. part_size_of (wanted_of (Ok job)) ≡ Some a.part_size) }
    ensures bound { IfOk result (λ a. (1 ≤ a.part_size) × (a.part_size ≤ 2 ^ 30)) }
    ensures script { IfOk result (λ a. IsScriptFor (wanted_of (Ok job)) (I.left script.old) a.script) }
    ensures reader { IsReadFor (wanted_of (Ok job)) (I.left script.old) (I.left script.new) (I.faults script.old) (I.faults script.new) }
    ensures err { IfErr result (λ e. StoppedBy (wanted_of (Ok job)) (I.left script.old) (I.faults script.old) (I.faults script.new) (end_of e)) }
{
    let Job { options, work } = job;
    match work {
        JobWork::Run => script_asked(alloc, options.workers, options.part_size, script),
        JobWork::Single(item) => command_asked(alloc, options.workers, options.part_size, item),
        JobWork::Generate { seed: _ } => Err(Stop::BadWords),
    }
}

/// What the words ask for: the lines of the script, or a command alone.
pub(crate) fn asked_for<I: Lines>(
    alloc: Global,
    words: &Words,
    script: &mut I,
) -> Result<Asked, Stop>
    ensures workers { IfOk result (λ a. workers_of (job_of words.now) ≡ Some a.workers) }
    ensures few { IfOk result (λ a. (1 ≤ a.workers) × (a.workers ≤ 64)) }
    ensures size { IfOk result (λ a. part_size_of (wanted_of (job_of words.now)) ≡ Some a.part_size) }
    ensures bound { IfOk result (λ a. (1 ≤ a.part_size) × (a.part_size ≤ 2 ^ 30)) }
    ensures script { IfOk result (λ a. (moment : ℕ) → IsScript (record { words = words.now; script = I.left script.old; faults = I.faults script.old; moment = moment }) a.script) }
    ensures reader { IsReadFor (wanted_of (job_of words.now)) (I.left script.old) (I.left script.new) (I.faults script.old) (I.faults script.new) }
    ensures err { IfErr result (λ e. StoppedBy (wanted_of (job_of words.now)) (I.left script.old) (I.faults script.old) (I.faults script.new) (end_of e)) }
{
    let job = job_for(alloc, words)?;
    asked_by(alloc, job, script)
}
