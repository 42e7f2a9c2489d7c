//! Sources, commands, and what is looked for in a container in memory.
ghost use Rattle.std.specs.Prelude.{◌≡◌, IfOk};
ghost use Rattle.esr_ops.specs.Asked.{asked_of, IsForOp};

use crate::errors::{Done, Trouble};
use esr_depot::{Depot, Fetch};
use esr_desk::{Attempt, Client, CloneAsk};
use esr_memdepot::{MemDepot, MemFetch};
use esr_names::{IndexName, IndexNames, SnapName};
use esr_ops::{AskedIndex, Command};
use esr_scenes::{one, say_bytes, source_of};
use esr_seq::{Seq, Text};
use esr_source::{MemSource, MemSources};
use std::alloc::{AllocError, Global};

fn add_sources(alloc: Global, lines: &str, shards: &mut Seq<MemSource>) -> Result<(), AllocError> {
    for line in lines.lines() {
        if let Some(told) = line.strip_prefix("= ") {
            shards.push(source_of(alloc, told)?)?;
        }
    }
    Ok(())
}

/// The shards of the lines such as `= PLACE INDEX NAME=TEXT ..`, each of the number 0.
pub(crate) fn sources_of(alloc: Global, lines: &str) -> Result<MemSources, AllocError> {
    let mut shards = Seq::new(alloc);
    add_sources(alloc, lines, &mut shards)?;
    Ok(MemSources::new(shards, Seq::new(alloc)))
}

/// An index of one shard, from words such as `INDEX/PLACE`.
fn index_of(alloc: Global, words: &str) -> Result<AskedIndex, Trouble>
    ensures { IfOk result (λ a. a.shards ≡ 1) }
{
    let (name, place) = words.split_once('/').unwrap_or((words, ""));
    Ok(AskedIndex {
        name: IndexName::new(alloc, name)?,
        shards: 1,
        place: Text::from_str(alloc, place)?,
    })
}

/// A snapshot of one index.
fn snapshot_of(alloc: Global, name: &str, index: AskedIndex) -> Result<Command, Trouble>
    requires { index.shards ≡ 1 }
    ensures { IfOk result (λ c. IsForOp (asked_of c)) }
{
    let indices = one(alloc, index)?;
    Ok(Command::Create {
        name: SnapName::new(alloc, name)?,
        indices,
        moment: 0,
    })
}

/// A snapshot of two indices.
fn snapshot_of_two(
    alloc: Global,
    name: &str,
    first: AskedIndex,
    second: AskedIndex,
) -> Result<Command, Trouble>
    requires first { first.shards ≡ 1 }
    requires second { second.shards ≡ 1 }
    ensures { IfOk result (λ c. IsForOp (asked_of c)) }
{
    if first.name == second.name {
        return Err(Trouble("two indices have one name"));
    }
    let mut indices = Seq::new(alloc);
    indices.push(first)?;
    indices.push(second)?;
    Ok(Command::Create {
        name: SnapName::new(alloc, name)?,
        indices,
        moment: 0,
    })
}

/// A snapshot of one index, which the word tells.
fn snapshot_by_word(alloc: Global, name: &str, index: &str) -> Result<Command, Trouble>
    ensures { IfOk result (λ c. IsForOp (asked_of c)) }
{
    let index = index_of(alloc, index)?;
    snapshot_of(alloc, name, index)
}

/// A snapshot of two indices, which the words tell.
fn snapshot_by_two(alloc: Global, name: &str, first: &str, second: &str) -> Result<Command, Trouble>
    ensures { IfOk result (λ c. IsForOp (asked_of c)) }
{
    let first = index_of(alloc, first)?;
    let second = index_of(alloc, second)?;
    snapshot_of_two(alloc, name, first, second)
}

/// A snapshot of one index or of two, by words such as `NAME INDEX/PLACE INDEX/PLACE`.
fn snapshot_in(alloc: Global, words: &str) -> Result<Command, Trouble>
    ensures { IfOk result (λ c. IsForOp (asked_of c)) }
{
    let (name, indices) = words.split_once(' ').unwrap_or((words, ""));
    match indices.split_once(' ') {
        Some((first, second)) => snapshot_by_two(alloc, name, first, second),
        None => snapshot_by_word(alloc, name, indices),
    }
}

/// A delete of the snapshot of that name.
fn delete_of(alloc: Global, name: &str) -> Result<Command, Trouble>
    ensures { IfOk result (λ c. IsForOp (asked_of c)) }
{
    let names = one(alloc, SnapName::new(alloc, name)?)?;
    Ok(Command::Delete { names })
}

/// What is asked for by a verb and more words, where it is no clone.
fn command_of(alloc: Global, verb: &str, words: &str) -> Result<Command, Trouble>
    ensures { IfOk result (λ c. IsForOp (asked_of c)) }
{
    match verb {
        "snapshot" => snapshot_in(alloc, words),
        "delete" => delete_of(alloc, words),
        "cleanup" => Ok(Command::Cleanup),
        _ => Err(Trouble("a step that there is")),
    }
}

/// The two names of words such as `SOURCE NAME`.
fn names_of(alloc: Global, words: &str) -> Result<(SnapName, SnapName), Trouble> {
    let (source, name) = words.split_once(' ').unwrap_or((words, ""));
    let source = SnapName::new(alloc, source)?;
    let name = SnapName::new(alloc, name)?;
    Ok((source, name))
}

/// What comes of a step that is answered by its op.
fn accepted(answer: Attempt<u64>) -> Done {
    answer?;
    Ok(())
}

/// Asks for a clone of all indices of a snapshot, by words such as `SOURCE NAME`.
fn ask_clone<Q: Client>(alloc: Global, desk: &mut Q, words: &str) -> Done {
    let (source, name) = names_of(alloc, words)?;
    let all = IndexNames::new(alloc);
    let ask = CloneAsk {
        source: &source,
        name: &name,
        indices: &all,
        moment: 0,
    };
    let answer = desk.clone_snapshot(alloc, &ask);
    accepted(answer)
}

/// Asks for an op, by its verb and more words.
pub(crate) fn ask<Q: Client>(alloc: Global, desk: &mut Q, verb: &str, words: &str) -> Done {
    if verb == "clone" {
        return ask_clone(alloc, desk, words);
    }
    let command = command_of(alloc, verb, words)?;
    let answer = desk.ask(alloc, &command);
    drop(command);
    accepted(answer)
}

/// Says the front of a blob, and answers that there is one.
fn say_front(mut fetch: MemFetch, said: &mut String) -> Result<bool, Trouble> {
    let mut buf = [0; 1024];
    let count = fetch.read(&mut buf)?;
    say_bytes(said, &buf[..count]);
    Ok(true)
}

/// Says the text of the blob of that name, or the front of a longer one, and answers whether there is one.
pub(crate) fn say_blob(
    alloc: Global,
    depot: &mut MemDepot,
    name: &str,
    said: &mut String,
) -> Result<bool, Trouble> {
    match depot.fetch(alloc, name)? {
        Some(fetch) => say_front(fetch, said),
        None => Ok(false),
    }
}

/// Says the text of the record.
pub(crate) fn say_record(alloc: Global, depot: &mut MemDepot, said: &mut String) -> Done {
    let Some(bytes) = depot.read_record(alloc)? else {
        return Err(Trouble("a container that has a record"));
    };
    say_bytes(said, bytes.as_slice());
    Ok(())
}
