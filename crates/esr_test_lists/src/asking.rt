//! The commands that a list of open ops is asked for, by the lines of a script that ask for them.
ghost use Rattle.std.specs.Prelude.{[], map, IfOk};
ghost use Rattle.esr_core.specs.Entry.{Snapshot};
ghost use Rattle.esr_core.specs.Restores.{AreOnce};
ghost use Rattle.esr_ops.specs.Asked.{asked_of, asked_index_of, HasShards, IsAskable};

use crate::board::Board;
use crate::entries::item_of;
use crate::told::{say_id, say_numbered};
use crate::trouble::{Done, Trouble};
use esr_names::{Id, IndexName, IndexNames, SnapName};
use esr_ops::{Accepted, AskedIndex, AskedIndices, Command, Refusal};
use esr_scenes::{Words, one, say, say_number};
use esr_script::{AskedIndex as LineIndex, Item};
use esr_seq::{Text, TryClone};
use std::alloc::Global;

/// The number of an op, or why there is none.
type Op = Result<u64, Trouble>;

/// An index of a command.
fn index_of(alloc: Global, index: &LineIndex) -> Result<AskedIndex, Trouble>
    ensures { IfOk result (λ a. HasShards (asked_index_of a)) }
{
    if index.shards == 0 || index.shards > 1024 {
        return Err(Trouble::Unread("no shards, or too many"));
    }
    Ok(AskedIndex {
        name: index.name.try_clone(alloc)?,
        shards: index.shards,
        place: index.place.try_clone(alloc)?,
    })
}

/// No index, or the one that there is.
fn indices_of(alloc: Global, indices: &[LineIndex]) -> Result<AskedIndices, Trouble>
    ensures { IfOk result (λ a. IsAskable (Snapshot [] (map asked_index_of a) 0)) }
{
    match indices {
        [] => Ok(AskedIndices::new(alloc)),
        [index] => Ok(one(alloc, index_of(alloc, index)?)?),
        _ => Err(Trouble::Unread("more than one index")),
    }
}

/// The command of a snapshot.
fn command_of(alloc: Global, name: &SnapName, indices: &[LineIndex]) -> Result<Command, Trouble>
    ensures { IfOk result (λ c. IsAskable (asked_of c)) }
{
    let name = name.try_clone(alloc)?;
    let indices = indices_of(alloc, indices)?;
    Ok(Command::Create {
        name,
        indices,
        moment: 7,
    })
}

/// No name, or the one that there is.
fn one_name(alloc: Global, names: &[IndexName]) -> Result<IndexNames, Trouble>
    ensures { IfOk result (λ r. AreOnce r) }
{
    match names {
        [] => Ok(IndexNames::new(alloc)),
        [name] => Ok(one(alloc, name.try_clone(alloc)?)?),
        _ => Err(Trouble::Unread("more than one index")),
    }
}

fn ask_snapshot(
    alloc: Global,
    board: &mut Board,
    name: &SnapName,
    indices: &[LineIndex],
) -> Result<Accepted, Trouble> {
    let command = command_of(alloc, name, indices)?;
    board.snapshot(alloc, &command)
}

fn snapshot(
    alloc: Global,
    board: &mut Board,
    name: &SnapName,
    indices: &[LineIndex],
    said: &mut String,
) -> Done {
    let accepted = ask_snapshot(alloc, board, name, indices)?;
    say_numbered(said, "op", accepted.op);
    say_numbered(said, " drew", accepted.drawn);
    Ok(())
}

fn open_clone(
    alloc: Global,
    board: &mut Board,
    source: &SnapName,
    name: &SnapName,
    indices: &IndexNames,
) -> Op {
    let uuid = board.clonable(source, name, indices)?;
    let op = board.next_op();
    let names = one_name(alloc, indices.as_slice())?;
    board.open_clone(alloc, uuid, name, &names)?;
    Ok(op)
}

fn open_restore(alloc: Global, board: &mut Board, name: &SnapName, place: &Text) -> Op {
    let uuid = board.restorable(name)?;
    let op = board.next_op();
    board.open_restore(alloc, uuid, place)?;
    Ok(op)
}

/// Says the op that was opened, or that a delete goes into, if there is one.
fn say_op(said: &mut String, op: Op) -> Done {
    say_numbered(said, "op", op?);
    Ok(())
}

/// Says what an item is answered that asks for an op.
fn ask(alloc: Global, board: &mut Board, item: &Item, said: &mut String) -> Done {
    match item {
        Item::Snapshot { name, indices } => {
            snapshot(alloc, board, name, indices.as_slice(), said)
        }
        Item::Clone {
            source,
            name,
            indices,
        } => say_op(said, open_clone(alloc, board, source, name, indices)),
        Item::Delete { names } => say_op(said, board.delete(alloc, names)),
        Item::Restore { name, place } => say_op(said, open_restore(alloc, board, name, place)),
        Item::Cleanup => say_op(said, board.cleanup(alloc)),
        _ => Err(Trouble::Unread("not a line that asks a list of ops")),
    }
}

/// Says what a line is answered that asks for an op.
pub(crate) fn asked(alloc: Global, board: &mut Board, line: &str, said: &mut String) -> Done {
    let item = item_of(alloc, line)?;
    ask(alloc, board, &item, said)
}

fn say_uuid(said: &mut String, uuid: Result<Id, Refusal>) -> Done {
    say_id(said, uuid?);
    Ok(())
}

/// Says the op that a delete would go into, or the uuid of a clone's source or of what would be restored.
fn say_found(alloc: Global, board: &Board, item: &Item, said: &mut String) -> Done {
    match item {
        Item::Clone {
            source,
            name,
            indices,
        } => say_uuid(said, board.clonable(source, name, indices)),
        Item::Delete { names } => say_op(said, board.deletable(alloc, names)),
        Item::Restore { name, place: _ } => say_uuid(said, board.restorable(name)),
        _ => Err(Trouble::Unread("not a line that asks a list of ops")),
    }
}

/// Says what a line would be answered that asks for an op.
pub(crate) fn would(alloc: Global, board: &Board, line: &str, said: &mut String) -> Done {
    let item = item_of(alloc, line)?;
    say_found(alloc, board, &item, said)
}

/// A snapshot of no index is asked for, with a number in its name.
fn ask_numbered(alloc: Global, board: &mut Board, number: u64, said: &mut String) -> Done {
    let mut line = String::new(alloc);
    say(&mut line, "snapshot x");
    say_number(&mut line, number);
    asked(alloc, board, line.as_str(), said)
}

/// So many snapshots of no index are asked for, up to the first that is refused. Says what the last of them is answered.
pub(crate) fn many(alloc: Global, board: &mut Board, words: &mut Words, said: &mut String) -> Done {
    let count = words.number();
    for number in 0..words.end(count)? {
        said.clear();
        ask_numbered(alloc, board, number, said)?;
    }
    Ok(())
}
