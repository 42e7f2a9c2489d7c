//! Ids, names and the names of blobs.
use crate::words::{Said, UNKNOWN, cut, id, index_name, number, say, say_bytes, small, snap_name};
use esr_json::ReadRefusal;
use esr_names::{
    BlobName, Id, IndexName, IndexNames, IndexRef, NameRefusal, ShardId, SnapName, id_read,
    id_text, is_name, parse_name, print_name,
};
use esr_seq::TryClone;
use std::alloc::Global;

/// Says an id by its term and its counter.
pub(crate) fn say_id(line: &mut String, id: Id) {
    let _ = write!(line, "{}.{}", id.term(), id.counter());
}

/// The id of a term and a counter.
fn id_of(text: &str) -> Id {
    let (term, counter) = cut(text);
    Id::new(number(term), number(counter))
}

/// Says the order of two ids, each by its term and its counter.
fn say_id_order(line: &mut String, text: &str) {
    let (first, second) = text.split_once(", ").unwrap_or((text, ""));
    let order = id_of(first).cmp(&id_of(second));
    let _ = write!(line, "{order:?}");
}

/// Says a blob of this kind in the folder of a shard.
fn say_in_shard(line: &mut String, kind: &str, shard: ShardId, of: Id) {
    say_of(line, kind, of);
    let _ = write!(line, " of shard {} of ", shard.number);
    say_id(line, shard.index);
}

/// Says a blob of this kind, for an id.
fn say_of(line: &mut String, kind: &str, of: Id) {
    let _ = write!(line, "{kind} {}.{}", of.term(), of.counter());
}

fn say_index_meta(line: &mut String, index: Id, snap: Id) {
    say_of(line, "meta", snap);
    say(line, " of ");
    say_id(line, index);
}

fn say_part(line: &mut String, shard: ShardId, file: Id, part: u64) {
    let _ = write!(line, "part {part} of ");
    say_in_shard(line, "file", shard, file);
}

fn say_test_node(line: &mut String, test: Id, worker: u32) {
    say_of(line, "test", test);
    let _ = write!(line, " of {worker}");
}

fn say_root(line: &mut String, number: u64) {
    let _ = write!(line, "root {number}");
}

/// Says the kind of a blob, and what its name tells.
pub(crate) fn say_blob(line: &mut String, name: &BlobName) {
    match name {
        BlobName::Root(number) => say_root(line, *number),
        BlobName::Latest => say(line, "latest"),
        BlobName::Snap(snap) => say_of(line, "snap", *snap),
        BlobName::Meta(snap) => say_of(line, "meta", *snap),
        BlobName::IndexMeta(index, snap) => say_index_meta(line, *index, *snap),
        BlobName::ShardSnap(shard, snap) => say_in_shard(line, "snap", *shard, *snap),
        BlobName::ShardIndex(shard, generation) => {
            say_in_shard(line, "index", *shard, *generation)
        }
        BlobName::Whole(shard, file) => say_in_shard(line, "file", *shard, *file),
        BlobName::Part(shard, file, number) => say_part(line, *shard, *file, *number),
        BlobName::TestMaster(test) => say_of(line, "test", *test),
        BlobName::TestNode(test, worker) => say_test_node(line, *test, *worker),
    }
}

/// Whether a name is one of the layout, and has this text.
fn is_written(name: &BlobName, text: &str) -> bool {
    let mut out = [0; 128];
    let len = print_name(name, &mut out);
    is_name(name) && &out[..len] == text.as_bytes()
}

/// Says the name of a blob with this text.
fn say_blob_of(line: &mut String, text: &str) {
    match parse_name(text.as_bytes()) {
        Some(name) if is_written(&name, text) => say_blob(line, &name),
        Some(_) => say(line, "a blob of another text"),
        None => say(line, "no blob"),
    }
}

fn say_refusal(line: &mut String, refusal: NameRefusal) -> Said {
    match refusal {
        NameRefusal::Memory => Err(ReadRefusal::Memory),
        NameRefusal::Bad(bad) => {
            let (rule, place) = (bad.rule, bad.place);
            let _ = write!(line, "{rule:?} at {place}");
            Ok(())
        }
    }
}

/// Says the copy of a name of a snapshot, or the first rule that the text breaks.
fn say_snapshot(alloc: Global, line: &mut String, text: &str) -> Said {
    match SnapName::new(alloc, text) {
        Ok(name) => {
            say(line, name.try_clone(alloc)?.as_str());
            Ok(())
        }
        Err(refusal) => say_refusal(line, refusal),
    }
}

/// Says the copy of a name of an index, or the first rule that the text breaks.
fn say_index_name(alloc: Global, line: &mut String, text: &str) -> Said {
    match IndexName::new(alloc, text) {
        Ok(name) => {
            say(line, name.try_clone(alloc)?.as_str());
            Ok(())
        }
        Err(refusal) => say_refusal(line, refusal),
    }
}

/// Says the order of two names of snapshots.
fn say_snapshot_order(alloc: Global, line: &mut String, text: &str) -> Said {
    let (first, second) = cut(text);
    let first = snap_name(alloc, first)?;
    let second = snap_name(alloc, second)?;
    let order = first.cmp(&second);
    let _ = write!(line, "{order:?}");
    Ok(())
}

fn add_names(alloc: Global, text: &str, names: &mut IndexNames) -> Result<(), ReadRefusal> {
    for word in text.split_whitespace() {
        names.push(index_name(alloc, word)?)?;
    }
    Ok(())
}

/// The names of indices that the text has, in their order.
fn sorted(alloc: Global, text: &str) -> Result<Vec<IndexName>, ReadRefusal> {
    let mut names = IndexNames::new(alloc);
    add_names(alloc, text, &mut names)?;
    let mut names = names.into_vec();
    names.sort()?;
    Ok(names)
}

fn say_names(line: &mut String, names: &[IndexName]) {
    say(line, "names");
    for name in names {
        say(line, " ");
        say(line, name.as_str());
    }
}

fn say_sorted(alloc: Global, line: &mut String, text: &str) -> Said {
    let names = sorted(alloc, text)?;
    say_names(line, names.as_slice());
    Ok(())
}

/// Says an index by its id, its name and the number of its shards.
pub(crate) fn say_index(line: &mut String, index: &IndexRef) {
    say_id(line, index.id);
    let _ = write!(line, " {} {}", index.name.as_str(), index.shards);
}

/// Says the copy of an index.
fn say_index_copy(alloc: Global, line: &mut String, text: &str) -> Said {
    let (word, rest) = cut(text);
    let (name, shards) = cut(rest);
    let index = IndexRef {
        id: id(word),
        name: index_name(alloc, name)?,
        shards: small(shards),
    };
    say_index(line, &index.try_clone(alloc)?);
    Ok(())
}

fn say_read(line: &mut String, text: &str) {
    match id_read(text.as_bytes()) {
        Some(id) => say_id(line, id),
        None => say(line, "no id"),
    }
}

/// Answers a question about an id or the name of a blob.
fn answer_plain(line: &mut String, question: &str, text: &str) {
    match question {
        "id" => say_bytes(line, &id_text(id_of(text))),
        "id-read" => say_read(line, text),
        "id-order" => say_id_order(line, text),
        "blob" => say_blob_of(line, text),
        _ => say(line, UNKNOWN),
    }
}

pub(crate) fn answer(alloc: Global, line: &mut String, question: &str, text: &str) -> Said {
    match question {
        "snapshot" => say_snapshot(alloc, line, text),
        "index" => say_index_name(alloc, line, text),
        "snapshot-order" => say_snapshot_order(alloc, line, text),
        "indices-sorted" => say_sorted(alloc, line, text),
        "index-copy" => say_index_copy(alloc, line, text),
        _ => {
            answer_plain(line, question, text);
            Ok(())
        }
    }
}
