//! Roots, and the steps from one to the next.
ghost use Rattle.std.specs.Prelude.{◌≡◌, ◌≤◌, IfOk};
ghost use Rattle.std.specs.List.{list_any};
ghost use Rattle.esr_root.specs.Indices.{is_named};

use crate::names::say_id;
use crate::words::{
    Said, cut, cut_last, id, index_name, say, say_unknown, say_written, small, snap_name,
};
use esr_json::ReadRefusal;
use esr_names::{Id, IndexName, IndexRef};
use esr_root::{RootData, RootSnap, root_read, root_text};
use esr_seq::Seq;
use std::alloc::Global;

/// Says the one snapshot of a root, and how many indices it lists.
fn say_fields(line: &mut String, root: &RootData) -> Said {
    let [snap] = root.snapshots.as_slice() else {
        return say_unknown(line);
    };
    let (state, count) = (snap.state, root.indices.as_slice().len());
    say(line, snap.name.as_str());
    say(line, " ");
    say_id(line, snap.uuid);
    let _ = write!(line, " state {state}, {count} indices");
    Ok(())
}

/// The empty root with a snapshot of an index.
fn first(alloc: Global, snap: &RootSnap, index: IndexRef) -> Result<RootData, ReadRefusal>
    requires { index.shards ≤ 1024 }
{
    let mut indices = Seq::new(alloc);
    indices.push(index)?;
    Ok(RootData::new(alloc).add(alloc, snap, &indices)?)
}

/// The snapshot 1.0 of that name.
fn snap_of(alloc: Global, name: &str) -> Result<RootSnap, ReadRefusal> {
    Ok(RootSnap {
        name: snap_name(alloc, name)?,
        uuid: Id::new(1, 0),
        state: 3,
    })
}

/// The index 1.1 of that name.
fn index_of(alloc: Global, name: &str, shards: u32) -> Result<IndexRef, ReadRefusal>
    ensures { IfOk result (λ index. index.shards ≤ 1024) }
{
    Ok(IndexRef {
        id: Id::new(1, 1),
        name: index_name(alloc, name)?,
        shards: shards.min(1024),
    })
}

/// Says the empty root with a snapshot 1.0 of an index 1.1: the words are their names, and the number of shards.
fn say_first(alloc: Global, line: &mut String, text: &str) -> Said {
    let (name, rest) = cut(text);
    let (index, shards) = cut(rest);
    let snap = snap_of(alloc, name)?;
    let index = index_of(alloc, index, small(shards))?;
    let root = first(alloc, &snap, index)?;
    say_written(line, root_text(alloc, &root))
}

/// Whether the root has an index of this name.
fn has_index(root: &RootData, name: &IndexName) -> bool
    ensures { result ≡ list_any (is_named name.now) root.now.indices }
{
    root.indices
        .as_slice()
        .iter()
        .any(|index| index.name == *name)
}

/// Says the root with another generation of a shard of an index.
fn say_set(
    alloc: Global,
    line: &mut String,
    root: &RootData,
    name: &IndexName,
    (shard, generation): (u32, Id),
) -> Said {
    if shard > 1023 || !has_index(root, name) {
        return say_unknown(line);
    }
    let root = root.set_generation(alloc, name, shard, Some(generation))?;
    say_written(line, root_text(alloc, &root))
}

/// Says the root with a generation that words tell, with its shard and its index.
fn say_with_generation(alloc: Global, line: &mut String, root: &RootData, words: &str) -> Said {
    let (name, rest) = cut(words);
    let (shard, generation) = cut(rest);
    let name = index_name(alloc, name)?;
    say_set(alloc, line, root, &name, (small(shard), id(generation)))
}

/// Says the root without a snapshot.
fn say_without(alloc: Global, line: &mut String, root: &RootData, uuid: Id) -> Said {
    let uuids = Seq::from_slice(alloc, &[uuid])?;
    let root = root.without(alloc, &uuids)?;
    say_written(line, root_text(alloc, &root))
}

fn say_id_or_none(line: &mut String, id: Option<Id>) {
    match id {
        Some(id) => say_id(line, id),
        None => say(line, "none"),
    }
}

/// Says the generation of a shard of an index.
fn say_generation(alloc: Global, line: &mut String, root: &RootData, words: &str) -> Said {
    let (name, shard) = cut(words);
    let name = index_name(alloc, name)?;
    say_id_or_none(line, root.generation(&name, small(shard)));
    Ok(())
}

/// Says what is asked of a root, by the words before its text.
fn say_of_root(
    alloc: Global,
    line: &mut String,
    question: &str,
    words: &str,
    root: &RootData,
) -> Said {
    match question {
        "again" => say_written(line, root_text(alloc, root)),
        "fields" => say_fields(line, root),
        "set" => say_with_generation(alloc, line, root, words),
        "without" => say_without(alloc, line, root, id(words)),
        "generation" => say_generation(alloc, line, root, words),
        _ => say_unknown(line),
    }
}

pub(crate) fn answer(alloc: Global, line: &mut String, question: &str, text: &str) -> Said {
    let (words, root) = match question {
        "first" => return say_first(alloc, line, text),
        "again" => ("", text),
        _ => cut_last(text),
    };
    let root = root_read(alloc, root.as_bytes())?;
    say_of_root(alloc, line, question, words, &root)
}
