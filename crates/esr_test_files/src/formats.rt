//! The worked texts of the formats, each read and written again.
use crate::words::{id_of, number_of, say_refusal};
use esr_formats::{
    read_cluster, read_global, read_index_meta, read_info, read_name, read_root, read_shard_index,
    read_shard_snap, write_cluster, write_global, write_index_meta, write_info, write_name,
    write_root, write_shard_index, write_shard_snap,
};
use esr_names::{BlobName, ShardId, is_name};
use esr_scenes::{Subject, cut, say, say_bytes, say_number};
use esr_seq::Bytes;
use std::alloc::{AllocError, Global};

/// The texts of the formats, and names of blobs:
///
/// | Call | Answers |
/// |---|---|
/// | `KIND TEXT` | what is written of what is read of the text, `same` for the same text, or why it isn't read |
/// | `length TEXT` | its length in bytes |
/// | `shard-index INDEX NUMBER GENERATION` | the text of the name of that index of a shard, which reads as that name |
/// | `name TEXT` | `some` or `none`, whether it is the text of a name |
///
/// A kind is `root`, `record`, `info`, `global`, `index-meta`, `shard-snap` or `shard-index-blob`; an id is `TERM/COUNTER`.
#[derive(Drop)]
pub(crate) struct Formats;

/// Says what was written of what was read of a text.
fn say_written(text: &[u8], written: Result<Bytes, AllocError>, line: &mut String) {
    match written {
        Ok(bytes) if bytes.as_slice() == text => say(line, "same"),
        Ok(bytes) => say_bytes(line, bytes.as_slice()),
        Err(_) => say(line, "no memory"),
    }
}

fn say_root(alloc: Global, text: &[u8], line: &mut String) {
    match read_root(alloc, text) {
        Ok(value) => say_written(text, write_root(alloc, &value), line),
        Err(refusal) => say_refusal(line, &refusal),
    }
}

fn say_cluster(alloc: Global, text: &[u8], line: &mut String) {
    match read_cluster(alloc, text) {
        Ok(value) => say_written(text, write_cluster(alloc, &value), line),
        Err(refusal) => say_refusal(line, &refusal),
    }
}

fn say_info(alloc: Global, text: &[u8], line: &mut String) {
    match read_info(alloc, text) {
        Ok(value) => say_written(text, write_info(alloc, &value), line),
        Err(refusal) => say_refusal(line, &refusal),
    }
}

fn say_global(alloc: Global, text: &[u8], line: &mut String) {
    match read_global(alloc, text) {
        Ok(value) => say_written(text, write_global(alloc, &value), line),
        Err(refusal) => say_refusal(line, &refusal),
    }
}

fn say_index_meta(alloc: Global, text: &[u8], line: &mut String) {
    match read_index_meta(alloc, text) {
        Ok(value) => say_written(text, write_index_meta(alloc, &value), line),
        Err(refusal) => say_refusal(line, &refusal),
    }
}

fn say_shard_snap(alloc: Global, text: &[u8], line: &mut String) {
    match read_shard_snap(alloc, text) {
        Ok(value) => say_written(text, write_shard_snap(alloc, &value), line),
        Err(refusal) => say_refusal(line, &refusal),
    }
}

fn say_index_blob(alloc: Global, text: &[u8], line: &mut String) {
    match read_shard_index(alloc, text) {
        Ok(value) => say_written(text, write_shard_index(alloc, &value), line),
        Err(refusal) => say_refusal(line, &refusal),
    }
}

/// Says what is written of what is read of a text of such a kind.
fn say_again(alloc: Global, kind: &str, text: &[u8], line: &mut String) {
    match kind {
        "root" => say_root(alloc, text, line),
        "record" => say_cluster(alloc, text, line),
        "info" => say_info(alloc, text, line),
        "global" => say_global(alloc, text, line),
        "index-meta" => say_index_meta(alloc, text, line),
        "shard-snap" => say_shard_snap(alloc, text, line),
        "shard-index-blob" => say_index_blob(alloc, text, line),
        _ => say(line, "no such kind"),
    }
}

/// Says the text of a name, and that it doesn't read as that name where this is so.
fn say_name(alloc: Global, name: BlobName, line: &mut String) -> Result<(), AllocError> {
    if !is_name(&name) {
        say(line, "no name");
        return Ok(());
    }
    let text = write_name(alloc, &name)?;
    say(line, text.as_str());
    if read_name(text.as_str().as_bytes()) != Some(name) {
        say(line, ", which reads otherwise");
    }
    Ok(())
}

fn say_shard_index(alloc: Global, words: &str, line: &mut String) {
    let (index, rest) = cut(words);
    let (number, generation) = cut(rest);
    let shard = ShardId {
        index: id_of(index),
        number: u32::try_from(number_of(number)).unwrap_or(u32::MAX),
    };
    let name = BlobName::ShardIndex(shard, id_of(generation));
    if say_name(alloc, name, line).is_err() {
        say(line, "no memory");
    }
}

impl Subject for Formats {
    fn call(&mut self, alloc: Global, call: &str, line: &mut String) {
        let (verb, rest) = cut(call);
        match verb {
            "length" => say_number(line, rest.len() as u64),
            "shard-index" => say_shard_index(alloc, rest, line),
            "name" if read_name(rest.as_bytes()).is_some() => say(line, "some"),
            "name" => say(line, "none"),
            _ => say_again(alloc, verb, rest.as_bytes(), line),
        }
    }
}
