//! The metadata of snapshots.
use crate::names::{say_id, say_index};
use crate::words::{Said, say, say_unknown, say_written};
use esr_meta::{
    SnapInfo, global_read, global_text, index_meta_read, index_meta_text, info_read, info_text,
};
use esr_names::IndexRefs;
use esr_seq::TryClone;
use std::alloc::Global;

fn say_info_again(alloc: Global, line: &mut String, bytes: &[u8]) -> Said {
    let info = info_read(alloc, bytes)?;
    say_written(line, info_text(alloc, &info))
}

/// Says the one index of a list, or how many there are.
fn say_indices(line: &mut String, indices: &IndexRefs) {
    match indices.as_slice() {
        [index] => say_index(line, index),
        indices => {
            let _ = write!(line, "{} indices", indices.len());
        }
    }
}

/// Says the numbers of an info, its name and its uuid.
fn say_info(line: &mut String, info: &SnapInfo) {
    let (bytes, files, moment) = (info.bytes, info.files, info.moment);
    let (name, state) = (info.name.as_str(), info.state);
    let _ = write!(
        line,
        "bytes {bytes} files {files} moment {moment} {name} state {state} "
    );
    say_id(line, info.uuid);
}

/// Says what an info has, with its indices and then their copy.
fn say_info_fields(alloc: Global, line: &mut String, bytes: &[u8]) -> Said {
    let info = info_read(alloc, bytes)?;
    let copy = info.indices.try_clone(alloc)?;
    say_info(line, &info);
    say(line, ", ");
    say_indices(line, &info.indices);
    say(line, ", ");
    say_indices(line, &copy);
    Ok(())
}

fn say_global_again(alloc: Global, line: &mut String, bytes: &[u8]) -> Said {
    let global = global_read(alloc, bytes)?;
    say_written(line, global_text(alloc, &global))
}

fn say_global_fields(alloc: Global, line: &mut String, bytes: &[u8]) -> Said {
    let global = global_read(alloc, bytes)?;
    let _ = write!(line, "moment {} {} ", global.moment, global.name.as_str());
    say_id(line, global.uuid);
    Ok(())
}

fn say_index_again(alloc: Global, line: &mut String, bytes: &[u8]) -> Said {
    let index = index_meta_read(alloc, bytes)?;
    say_written(line, index_meta_text(alloc, &index))
}

fn say_index_fields(alloc: Global, line: &mut String, bytes: &[u8]) -> Said {
    let index = index_meta_read(alloc, bytes)?;
    let (name, shards) = (index.name.as_str(), index.shards);
    say_id(line, index.id);
    let _ = write!(line, " {name} shards {shards}, in ");
    say_id(line, index.uuid);
    Ok(())
}

pub(crate) fn answer(alloc: Global, line: &mut String, question: &str, text: &str) -> Said {
    let bytes = text.as_bytes();
    match question {
        "info" => say_info_again(alloc, line, bytes),
        "info-fields" => say_info_fields(alloc, line, bytes),
        "global" => say_global_again(alloc, line, bytes),
        "global-fields" => say_global_fields(alloc, line, bytes),
        "index" => say_index_again(alloc, line, bytes),
        "index-fields" => say_index_fields(alloc, line, bytes),
        _ => say_unknown(line),
    }
}
