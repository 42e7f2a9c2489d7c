//! The texts of shards: what snapshots have of one, and indices, with the steps from one index to the next.
use crate::names::say_id;
use crate::shard_files::physical_name;
use crate::words::{Said, UNKNOWN, cut, cut_last, id, number, say, say_bytes, say_written};
use esr_hash::{Print, print_read, print_text};
use esr_json::ReadRefusal;
use esr_names::Id;
use esr_seq::Seq;
use esr_shardidx::{
    FileEntry, PhysicalName, ShardIndex, ShardSnap, SnapList, shard_index_read, shard_index_text,
    shard_snap_read, shard_snap_text,
};
use std::alloc::Global;

/// Says a file by its id, its name, its length, the size of its parts and its digits.
fn say_file(line: &mut String, file: &FileEntry) {
    let (name, len, part_size) = (file.physical.as_str(), file.print.len, file.part_size);
    say_id(line, file.name);
    let _ = write!(line, " {name} length {len} parts {part_size} ");
    say_bytes(line, &print_text(&file.print));
}

/// Says the one file of some, or how many there are.
fn say_files(line: &mut String, files: &[FileEntry]) {
    match files {
        [file] => say_file(line, file),
        _ => {
            let _ = write!(line, "{} files", files.len());
        }
    }
}

/// Says a snapshot's list by its uuid and the one id of a file, or how many there are.
fn say_list(line: &mut String, list: &SnapList) {
    say_id(line, list.uuid);
    say(line, " has ");
    match list.files.as_slice() {
        [file] => say_id(line, *file),
        files => {
            let _ = write!(line, "{} files", files.len());
        }
    }
}

/// Says the one list of an index, or how many there are, and then its files.
fn say_index_fields(line: &mut String, index: &ShardIndex) {
    match index.snapshots() {
        [list] => say_list(line, list),
        lists => {
            let _ = write!(line, "{} snapshots", lists.len());
        }
    }
    say(line, ": ");
    say_files(line, index.files());
}

fn say_found(line: &mut String, file: Option<&FileEntry>) {
    match file {
        Some(file) => say_id(line, file.name),
        None => say(line, "none"),
    }
}

fn say_list_of(line: &mut String, index: &ShardIndex, uuid: Id) {
    match index.list(uuid) {
        Some(list) => say_list(line, list),
        None => say(line, "none"),
    }
}

fn say_file_like(line: &mut String, index: &ShardIndex, name: &PhysicalName, print: Option<Print>) {
    match print {
        Some(print) => say_found(line, index.same_file(name, &print)),
        None => say(line, UNKNOWN),
    }
}

/// Says the file of this physical name, length and digits.
fn say_same_file(alloc: Global, line: &mut String, index: &ShardIndex, words: &str) -> Said {
    let (name, rest) = cut(words);
    let (len, digits) = cut(rest);
    let print = print_read(number(len), digits.as_bytes());
    let name = physical_name(alloc, name)?;
    say_file_like(line, index, &name, print);
    Ok(())
}

/// Says the index with what a snapshot has of the shard, under the uuid of the first word.
fn say_with_snap(alloc: Global, line: &mut String, index: &ShardIndex, words: &str) -> Said {
    let (uuid, text) = cut(words);
    let snap = shard_snap_read(alloc, text.as_bytes())?.under(id(uuid));
    let index = index.with_snap(alloc, &snap)?;
    say_written(line, shard_index_text(alloc, &index))
}

/// Says what survives of an index if one snapshot is listed.
fn say_survivors(alloc: Global, line: &mut String, index: &ShardIndex, uuid: Id) -> Said {
    let listed = Seq::from_slice(alloc, &[uuid])?;
    let index = index.survivors(alloc, &listed)?;
    say_written(line, shard_index_text(alloc, &index))
}

/// Says what an index has.
fn say_part(line: &mut String, question: &str, words: &str, index: &ShardIndex) {
    match question {
        "index-fields" => say_index_fields(line, index),
        "list" => say_list_of(line, index, id(words)),
        "file" => say_found(line, index.file(id(words))),
        _ => say(line, UNKNOWN),
    }
}

/// Says what is asked of an index, by the words before its text.
fn say_of_index(
    alloc: Global,
    line: &mut String,
    question: &str,
    words: &str,
    index: &ShardIndex,
) -> Said {
    match question {
        "same-file" => say_same_file(alloc, line, index, words),
        "with" => say_with_snap(alloc, line, index, words),
        "survivors" => say_survivors(alloc, line, index, id(words)),
        _ => {
            say_part(line, question, words, index);
            Ok(())
        }
    }
}

/// The index of a text, where a word `none` is a new one.
fn index_of(alloc: Global, text: &str) -> Result<ShardIndex, ReadRefusal> {
    match text {
        "none" => Ok(ShardIndex::new(alloc)),
        _ => shard_index_read(alloc, text.as_bytes()),
    }
}

fn say_snap_again(alloc: Global, line: &mut String, text: &str) -> Said {
    let snap = shard_snap_read(alloc, text.as_bytes())?;
    say_written(line, shard_snap_text(alloc, &snap))
}

fn say_snap_fields(alloc: Global, line: &mut String, text: &str) -> Said {
    let snap = shard_snap_read(alloc, text.as_bytes())?;
    say_id(line, snap.uuid());
    say(line, ": ");
    say_files(line, snap.files());
    Ok(())
}

fn say_index_again(alloc: Global, line: &mut String, text: &str) -> Said {
    let index = shard_index_read(alloc, text.as_bytes())?;
    say_written(line, shard_index_text(alloc, &index))
}

pub(crate) fn answer(alloc: Global, line: &mut String, question: &str, text: &str) -> Said {
    match question {
        "snap" => say_snap_again(alloc, line, text),
        "snap-fields" => say_snap_fields(alloc, line, text),
        "index" => say_index_again(alloc, line, text),
        _ => {
            let (words, text) = cut_last(text);
            let index = index_of(alloc, text)?;
            say_of_index(alloc, line, question, words, &index)
        }
    }
}
