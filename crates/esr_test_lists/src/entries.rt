//! The entries of a history, in words.
//!
//! A step is one of `look`, `take`, `elect`, `raise`, `settle`, `finish`, `failed CAUSE`, `ask LINE` (a line of a script),
//! `clone ID LINE` (one that is accepted, of the snapshot of that uuid), `read STEP` (of a restore, a check or a verification) and
//! `prune STEP` (of a delete).
use crate::causes::why_of;
use crate::trouble::Trouble;
use crate::words::{blob_of, id_of};
use esr_desk::{CloneOf, Prune, Read, Step};
use esr_names::{IndexNames, IndexRefs, SnapName};
use esr_ops::{AskedIndices, Command};
use esr_scenes::{Words, one};
use esr_script::{Item, script_read};
use std::alloc::Global;

/// What the one line of a script asks for.
pub(crate) fn item_of(alloc: Global, line: &str) -> Result<Item, Trouble> {
    let mut script = script_read(alloc, line.as_bytes())?;
    match script.pop() {
        Some(line) => Ok(line.item),
        None => Err(Trouble::Unread("not a line of a script")),
    }
}

/// The command that a line asks for. A snapshot is of no index here.
fn command_of(alloc: Global, item: Item) -> Result<Command, Trouble> {
    match item {
        Item::Snapshot { name, indices: _ } => Ok(Command::Create {
            name,
            indices: AskedIndices::new(alloc),
            moment: 0,
        }),
        Item::Clone {
            source,
            name,
            indices,
        } => Ok(Command::Clone {
            source,
            name,
            indices,
            moment: 0,
        }),
        Item::Delete { names } => Ok(Command::Delete { names }),
        Item::Restore { name, place } => Ok(Command::Restore { name, place }),
        Item::Cleanup => Ok(Command::Cleanup),
        _ => Err(Trouble::Unread("not a line that asks for an op")),
    }
}

fn ask(alloc: Global, line: &str) -> Result<Step, Trouble> {
    let command = command_of(alloc, item_of(alloc, line)?)?;
    Ok(Step::Ask { command })
}

/// A clone that is accepted, of no index.
fn ask_clone(alloc: Global, words: &mut Words) -> Result<Step, Trouble> {
    let taken = id_of(words);
    let source = SnapName::new(alloc, words.word())?;
    let name = SnapName::new(alloc, words.word())?;
    Ok(Step::AskClone {
        source,
        name,
        indices: IndexNames::new(alloc),
        moment: 0,
        taken: CloneOf {
            source: taken,
            indices: IndexRefs::new(alloc),
        },
    })
}

/// A step of a restore, a check or a verification.
fn read_of(kind: &str, words: &mut Words) -> Read {
    match kind {
        "restored" => Read::Restored {
            files: words.number(),
            bytes: words.number(),
        },
        "checked" => Read::Checked {
            snapshots: words.number(),
            blobs: words.number(),
        },
        "draw-test" => Read::DrawTest,
        "verified" => Read::Verified,
        "failed" => Read::Failed { why: why_of(words) },
        "blob" => Read::Blob {
            name: blob_of(words),
        },
        "begin-test" => Read::BeginTest {
            name: blob_of(words),
        },
        "commit-test" => Read::CommitTest {
            name: blob_of(words),
        },
        _ => words.refuse("no such step of reading", Read::Verified),
    }
}

fn read_step(alloc: Global, words: &mut Words) -> Result<Step, Trouble> {
    match words.word() {
        "remove-tests" => {
            let names = one(alloc, blob_of(words))?;
            Ok(Step::Read {
                read: Read::RemoveTests { names },
            })
        }
        kind => Ok(Step::Read {
            read: read_of(kind, words),
        }),
    }
}

/// A step of a delete.
fn prune_of(words: &mut Words) -> Prune {
    match words.word() {
        "settle" => Prune::Settle,
        "failed" => Prune::Failed { why: why_of(words) },
        _ => words.refuse("no such step of a delete", Prune::Settle),
    }
}

/// A step that asks for no op, and reads nothing.
fn plain(word: &str, words: &mut Words) -> Step {
    match word {
        "look" => Step::Look,
        "take" => Step::Take,
        "elect" => Step::Elect,
        "raise" => Step::Raise,
        "settle" => Step::Settle,
        "finish" => Step::Finish,
        "failed" => Step::Failed { why: why_of(words) },
        "prune" => Step::Prune {
            prune: prune_of(words),
        },
        _ => words.refuse("no such step", Step::Look),
    }
}

fn step_of(alloc: Global, words: &mut Words) -> Result<Step, Trouble> {
    match words.word() {
        "ask" => ask(alloc, words.rest()),
        "clone" => ask_clone(alloc, words),
        "read" => read_step(alloc, words),
        word => Ok(plain(word, words)),
    }
}

/// The step that is left of the words.
pub(crate) fn step_read(alloc: Global, words: &mut Words) -> Result<Step, Trouble> {
    let step = step_of(alloc, words)?;
    Ok(words.end(step)?)
}
