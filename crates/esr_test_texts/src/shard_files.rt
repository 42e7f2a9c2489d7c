//! The files of shards: their names, and the blobs that they are stored in.
ghost use Rattle.std.specs.Prelude.{◌≡◌};

use crate::names::say_blob;
use crate::words::{Said, cut, id, number, say, say_unknown, say_written};
use esr_hash::{Print, print_read};
use esr_json::{ReadRefusal, Reason};
use esr_names::{Id, ShardId};
use esr_seq::Seq;
use esr_shardidx::{
    FileEntry, PhysicalName, PhysicalRefusal, ShardSnap, part_count, part_name, shard_snap_text,
};
use std::alloc::Global;

/// The name of a file where it was taken from.
pub(crate) fn physical_name(alloc: Global, word: &str) -> Result<PhysicalName, ReadRefusal> {
    match PhysicalName::new(alloc, word) {
        Ok(name) => Ok(name),
        Err(PhysicalRefusal::Memory) => Err(ReadRefusal::Memory),
        Err(PhysicalRefusal::BadName) => Err(ReadRefusal::Damaged {
            why: Reason::BadName,
        }),
    }
}

fn say_name(alloc: Global, line: &mut String, text: &str) -> Said {
    say(line, physical_name(alloc, text)?.as_str());
    Ok(())
}

/// Says the number of the blobs of a file, by its length and the size of its parts.
fn say_count(line: &mut String, text: &str) -> Said {
    let (len, size) = cut(text);
    let size = number(size);
    if size < 1 || size > 1 << 30 {
        return say_unknown(line);
    }
    let count = part_count(number(len), size);
    let _ = write!(line, "{count}");
    Ok(())
}

/// The print of that length with the digest of `abc`.
fn print_of(len: u64) -> Result<Print, ReadRefusal> {
    let digits = b"ba7816bf8f01cfea414140de5dae2223b00361a396177a9cb410ff61f20015ad";
    match print_read(len, digits.as_slice()) {
        Some(print) => Ok(print),
        None => Err(ReadRefusal::from(Reason::BadId)),
    }
}

/// A file of the digest of `abc`, by its id, its name, its length and the size of its parts.
fn entry(alloc: Global, text: &str) -> Result<FileEntry, ReadRefusal> {
    let (name, rest) = cut(text);
    let (physical, rest) = cut(rest);
    let (len, part_size) = cut(rest);
    let print = print_of(number(len))?;
    let physical = physical_name(alloc, physical)?;
    Ok(FileEntry {
        name: id(name),
        physical,
        print,
        part_size: number(part_size),
    })
}

const SHARD: ShardId = ShardId {
    index: Id {
        number: (1 << 64) + 1,
    },
    number: 0,
};

/// Says the name of the blob of this number of a file.
fn say_part(alloc: Global, line: &mut String, text: &str) -> Said {
    let (part, text) = cut(text);
    let file = entry(alloc, text)?;
    say_blob(line, &part_name(SHARD, &file, number(part)));
    Ok(())
}

/// Says what the snapshot 1.0 has of a shard with this file.
fn say_snap_of(alloc: Global, line: &mut String, text: &str) -> Said {
    let mut files = Seq::new(alloc);
    files.push(entry(alloc, text)?)?;
    match ShardSnap::new(files, Id::new(1, 0)) {
        Some(snap) => say_written(line, shard_snap_text(alloc, &snap)),
        None => {
            say(line, "none");
            Ok(())
        }
    }
}

pub(crate) fn answer(alloc: Global, line: &mut String, question: &str, text: &str) -> Said {
    match question {
        "name" => say_name(alloc, line, text),
        "parts" => say_count(line, text),
        "part" => say_part(alloc, line, text),
        "snap" => say_snap_of(alloc, line, text),
        _ => say_unknown(line),
    }
}
