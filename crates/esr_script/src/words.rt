//! The words of the command line.
ghost use Rattle.std.specs.Prelude.{◌≡◌, ◌≤◌, if◌then◌else◌, is_ok, Ok, Err, IfOk, IfSome, codes, map, option_map};
ghost use Rattle.std.specs.Option.{ok_or};
ghost use Rattle.clap.specs.Words.{first_of, found_of, rows_of, subcommand_rows_of};
ghost use Rattle.esr_script.specs.Jobs.{GivesMatches, GivesWords, IsOptions, folder_of, generate_of, job_from, job_of, number_of, options_of, place_of, run_of, single_of, work_of, words_in};
ghost use Rattle.esr_script.specs.Items.{verb_of};
ghost use Rattle.esr_script.specs.declared.refusal.WordsRefusal.TheVariants.{BadWords};

use crate::job::{Job, JobWork, Options};
use crate::line::verb_of;
use crate::number::number_in;
use crate::program::program;
use crate::refusal::{Fault, WordsRefusal};
use clap::ArgMatches;
use clap::error::ErrorKind;
use esr_seq::{Seq, Text};
use std::alloc::{AllocError, Global};

/// The words of the command line, without the program's name.
pub type Words = Seq<Text>;

fn texts_of(alloc: Global, words: &[Text]) -> Result<Vec<&str>, AllocError>
    ensures { IfOk result (λ texts. map (λ t. t.now) texts.items ≡ words.now) }
{
    let mut texts = Vec::new(alloc);
    for word in words {
        texts.push(word.as_str())?;
    }
    Ok(texts)
}

fn copies_of(alloc: Global, texts: &[&str]) -> Result<Seq<Text>, AllocError>
    ensures { IfOk result (λ words. words ≡ map (λ t. t.now) texts.now) }
{
    let mut words = Seq::new(alloc);
    for text in texts {
        words.push(Text::from_str(alloc, text)?)?;
    }
    Ok(words)
}

/// What the command line makes of the words.
fn matches_of<'a>(alloc: Global, words: &'a [&'a str]) -> Result<ArgMatches<'a>, WordsRefusal>
    ensures { GivesMatches result (map (λ w. w.now) words.entry.now) }
{
    let error = match program(alloc)?.try_get_matches_from(words) {
        Ok(matches) => return Ok(matches),
        Err(error) => error,
    };
    match error.kind() {
        ErrorKind::OutOfMemory => Err(WordsRefusal::Memory),
        _ => Err(WordsRefusal::BadWords),
    }
}

/// The number that an option's text tells, or the usual one where the option isn't there.
fn number_of(least: u64, most: u64, usual: u64, text: Option<&str>) -> Option<u64>
    requires { (least ≤ usual) × (usual ≤ most) }
    ensures exact { result ≡ number_of least most usual (option_map (λ t. t.now) text.entry) }
    ensures least { IfSome result (λ n. least ≤ n) }
    ensures most { IfSome result (λ n. n ≤ most) }
{
    match text {
        Some(text) => number_in(least, most, text),
        None => Some(usual),
    }
}

/// The text of an option.
fn text_of<'a>(matches: &ArgMatches<'a>, name: &str) -> Option<&'a str>
    ensures { option_map (λ t. t.now) result ≡ first_of name.now (rows_of (found_of matches.now)) }
{
    matches.get_str(name)
}

fn options_of(matches: &ArgMatches<'_>) -> Option<Options>
    ensures exact { result ≡ options_of (rows_of (found_of matches.now)) }
    ensures bound { IfSome result IsOptions }
{
    let workers = number_of(1, 64, 4, text_of(matches, "workers"))?;
    let part_size = number_of(1, 1_073_741_824, 16_777_216, text_of(matches, "chunk-size"))?;
    Some(Options {
        workers: workers as u32,
        part_size,
    })
}

fn run_of(words: &[Text]) -> Result<JobWork, WordsRefusal>
    ensures { GivesWords result (ok_or (run_of words.now) BadWords) }
{
    match words {
        [] => Ok(JobWork::Run),
        _ => Err(WordsRefusal::BadWords),
    }
}

fn generate_of(words: &[Text]) -> Result<JobWork, WordsRefusal>
    ensures { GivesWords result (ok_or (generate_of words.now) BadWords) }
{
    let [text] = words else {
        return Err(WordsRefusal::BadWords);
    };
    match number_in(0, u64::MAX, text.as_str()) {
        Some(seed) => Ok(JobWork::Generate { seed }),
        None => Err(WordsRefusal::BadWords),
    }
}

fn single_of(alloc: Global, verb: &str, words: &[Text]) -> Result<JobWork, WordsRefusal>
    ensures { GivesWords result (ok_or (single_of (verb_of verb.now words.now)) BadWords) }
{
    match verb_of(alloc, verb, words) {
        Ok(item) => Ok(JobWork::Single(item)),
        Err(Fault::Memory) => Err(WordsRefusal::Memory),
        Err(Fault::Bad(_)) => Err(WordsRefusal::BadWords),
    }
}

fn work_of(alloc: Global, verb: &str, words: &[Text]) -> Result<JobWork, WordsRefusal>
    ensures { GivesWords result (ok_or (work_of verb.now words.now) BadWords) }
{
    match verb {
        "run" => run_of(words),
        "generate" => generate_of(words),
        _ => single_of(alloc, verb, words),
    }
}

/// The verb with its own matches.
fn verb_in<'m, 'a>(matches: &'m ArgMatches<'a>) -> Option<(&'a str, &'m ArgMatches<'a>)>
    ensures { option_map (λ p. (p.0.now, rows_of (found_of p.1.now))) result ≡ subcommand_rows_of matches.now }
{
    matches.subcommand()
}

/// The words after a verb.
fn words_in(alloc: Global, matches: &ArgMatches<'_>) -> Result<Seq<Text>, AllocError>
    ensures { IfOk result (λ words. words ≡ words_in (rows_of (found_of matches.now))) }
{
    match matches.get_strs("words") {
        Some(texts) => copies_of(alloc, texts),
        None => Ok(Seq::new(alloc)),
    }
}

fn job_from(alloc: Global, matches: &ArgMatches<'_>) -> Result<Job, WordsRefusal>
    ensures job { GivesWords result (ok_or (job_from (rows_of (found_of matches.now)) (subcommand_rows_of matches.now)) BadWords) }
    ensures options { IfOk result (λ job. IsOptions job.options) }
{
    let Some((verb, given)) = verb_in(matches) else {
        return Err(WordsRefusal::BadWords);
    };
    let Some(options) = options_of(matches) else {
        return Err(WordsRefusal::BadWords);
    };
    let words = words_in(alloc, given)?;
    let work = work_of(alloc, verb, words.as_slice())?;
    Ok(Job { options, work })
}

/// What the words ask for. They are bad exactly where the command line has no such words, where a
/// number is out of its bounds, or where the words after a verb break the rules of a script's line.
#[tactic(auto, unfolding(crate::specs::Jobs::job_of))]
pub fn words_read(alloc: Global, words: &Words) -> Result<Job, WordsRefusal>
    ensures job { GivesWords result (job_of words.now) }
    ensures options { IfOk result (λ job. IsOptions job.options) }
{
    let texts = texts_of(alloc, words.as_slice())?;
    let matches = matches_of(alloc, texts.as_slice())?;
    job_from(alloc, &matches)
}

/// DIR where the words ask for something.
#[tactic(auto, unfolding(crate::specs::Jobs::job_of))]
fn asked_place(alloc: Global, words: &Words) -> Result<Text, WordsRefusal>
    ensures { GivesWords result (if is_ok (job_of words.now) then Ok (folder_of words.now) else Err BadWords) }
{
    let texts = texts_of(alloc, words.as_slice())?;
    let matches = matches_of(alloc, texts.as_slice())?;
    drop(job_from(alloc, &matches)?);
    let place = text_of(&matches, "repo").unwrap_or("repo");
    Ok(Text::from_str(alloc, place)?)
}

/// The folder of the container: DIR where `words_read` accepts the words, else `repo`.
#[tactic(auto, unfolding(crate::specs::Jobs::place_of))]
pub fn repo_place(alloc: Global, words: &Words) -> Result<Text, AllocError>
    ensures { IfOk result (λ place. place ≡ place_of words.now) }
{
    match asked_place(alloc, words) {
        Ok(place) => Ok(place),
        Err(WordsRefusal::BadWords) => Text::from_str(alloc, "repo"),
        Err(WordsRefusal::Memory) => Err(AllocError),
    }
}
