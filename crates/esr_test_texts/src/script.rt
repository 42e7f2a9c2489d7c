//! What scripts and command lines ask for.
use crate::words::{Said, UNKNOWN, say};
use esr_names::{IndexNames, SnapName, SnapNames};
use esr_script::*;
use esr_seq::Text;
use std::alloc::{AllocError, Global};

fn say_snapshot(line: &mut String, name: &SnapName, indices: &AskedIndices) {
    say(line, "snapshot ");
    say(line, name.as_str());
    for index in indices.as_slice() {
        let (name, place) = (index.name.as_str(), index.place.as_str());
        let _ = write!(line, " {name}:{}:{place}", index.shards);
    }
}

fn say_clone(line: &mut String, source: &SnapName, name: &SnapName, indices: &IndexNames) {
    let _ = write!(line, "clone {} {}", source.as_str(), name.as_str());
    for index in indices.as_slice() {
        say(line, " ");
        say(line, index.as_str());
    }
}

fn say_delete(line: &mut String, names: &SnapNames) {
    say(line, "delete");
    for name in names.as_slice() {
        say(line, " ");
        say(line, name.as_str());
    }
}

/// The verb of an item.
fn verb_of(item: &Item) -> &'static str {
    match item {
        Item::Snapshot { .. } => "snapshot",
        Item::Clone { .. } => "clone",
        Item::Delete { .. } => "delete",
        Item::Restore { .. } => "restore",
        Item::Cleanup => "cleanup",
        Item::Failover => "failover",
        Item::Wait => "wait",
        Item::List => "list",
        Item::Check => "check",
        Item::Verify => "verify",
    }
}

/// Says an item and what it holds.
fn say_item(line: &mut String, item: &Item) {
    match item {
        Item::Snapshot { name, indices } => say_snapshot(line, name, indices),
        Item::Clone {
            source,
            name,
            indices,
        } => say_clone(line, source, name, indices),
        Item::Delete { names } => say_delete(line, names),
        Item::Restore { name, place } => {
            let _ = write!(line, "restore {} {}", name.as_str(), place.as_str());
        }
        _ => say(line, verb_of(item)),
    }
}

/// Says the items of a script, each as the number of its line and what it holds.
fn say_lines(line: &mut String, script: &[ScriptLine]) {
    say(line, "lines");
    for item in script {
        let _ = write!(line, " {} ", item.number);
        say_item(line, &item.item);
        say(line, ";");
    }
}

/// Says the items of a script, or why there are none.
fn say_script(alloc: Global, line: &mut String, script: &str) {
    match script_read(alloc, script.as_bytes()) {
        Ok(script) => say_lines(line, script.as_slice()),
        Err(refusal) => {
            let _ = write!(line, "{refusal}");
        }
    }
}

/// The words of a command line without the program's name, which spaces part here.
fn words_of(alloc: Global, text: &str) -> Result<Words, AllocError> {
    let mut words = Words::new(alloc);
    for word in text.split_whitespace() {
        words.push(Text::from_str(alloc, word)?)?;
    }
    Ok(words)
}

fn say_work(line: &mut String, work: &JobWork) {
    match work {
        JobWork::Run => say(line, "run"),
        JobWork::Single(item) => say_item(line, item),
        JobWork::Generate { seed } => {
            let _ = write!(line, "generate {seed}");
        }
    }
}

/// Says a job: its workers, the size of its parts and its work.
fn say_job(line: &mut String, job: &Job) {
    let _ = write!(line, "{} {} ", job.options.workers, job.options.part_size);
    say_work(line, &job.work);
}

/// Says the job of a command line, or why there is none.
fn say_words(alloc: Global, line: &mut String, text: &str) -> Said {
    let words = words_of(alloc, text)?;
    match words_read(alloc, &words) {
        Ok(job) => say_job(line, &job),
        Err(refusal) => {
            let _ = write!(line, "{refusal}");
        }
    }
    Ok(())
}

/// Says the folder of the repository of a command line.
fn say_folder(alloc: Global, line: &mut String, text: &str) -> Said {
    let words = words_of(alloc, text)?;
    let place = repo_place(alloc, &words)?;
    say(line, place.as_str());
    Ok(())
}

pub(crate) fn answer(alloc: Global, line: &mut String, question: &str, text: &str) -> Said {
    match question {
        "lines" => say_script(alloc, line, text),
        "words" => return say_words(alloc, line, text),
        "folder" => return say_folder(alloc, line, text),
        _ => say(line, UNKNOWN),
    }
    Ok(())
}
