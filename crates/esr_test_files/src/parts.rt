//! Files of shards that are hashed and copied in pieces, as a subject.
ghost use Rattle.std.specs.Prelude.{None, false, [], ◌<◌, ◌≡◌, length, IsSomeAnd};

use crate::words::{number_of, say_print};
use esr_depot::{CallError, Counted, Failed, Stage};
use esr_hash::{Hasher, Print};
use esr_parts::{CopyError, copy_part, hash_file, part_plan};
use esr_scenes::{Subject, cut, one, say, say_number};
use esr_seq::Seq;
use esr_shardidx::part_count;
use esr_source::{Address, MemFile, MemShard, MemSource, MemSources, NoGate, Shard, Sources};
use std::alloc::{AllocError, Global};

/// Parts, and the shard that has the files `a`, which is empty, and `b`, which is `abc`:
///
/// | Call | What it does | Answers |
/// |---|---|---|
/// | `part LENGTH SIZE NUMBER` | | the place and the length of that part of a file of that length, which is cut at the size |
/// | `hash PLACE` | reads the file at that place two bytes at a time | its length and its digest |
/// | `copy` | copies `b` one byte at a time into two stages with room for two bytes | whether each is full, how many bytes it took, and the print |
#[derive(Drop)]
pub(crate) struct Parts;

/// A stage that counts the bytes that are written to it, and keeps none.
#[derive(Drop)]
struct Tally {
    room: usize,
    written: usize,
}

impl Counted for Tally {
    ghost faults = { λ _. 0 };

    fn fault_count(&self) -> u64 {
        0
    }
}

impl Stage for Tally {
    ghost name = { λ _. [] };

    ghost contents = { λ _. None };

    ghost room = { λ t. t.room };

    ghost is_sure = { λ _. false };

    fn write(&mut self, piece: &[u8]) -> Result<(), Failed> {
        self.room -= piece.len();
        self.written = self.written.saturating_add(piece.len());
        Ok(())
    }
}

/// The files `a` and `b`.
fn files_of(alloc: Global) -> Result<Seq<MemFile>, AllocError> {
    let mut files = Seq::new(alloc);
    for (name, text) in [("a", ""), ("b", "abc")] {
        files.push(MemFile::new(alloc, name, text.as_bytes())?)?;
    }
    Ok(files)
}

/// The shard 0 of `logs` in `src`, with those files.
fn shard_of(alloc: Global) -> Result<MemShard, AllocError> {
    let address = Address::new(alloc, "src", "logs", 0)?;
    let files = files_of(alloc)?;
    let sources = one(alloc, MemSource { address, files })?;
    MemSources::new(sources, Seq::new(alloc)).shard(alloc, "src", "logs", 0)
}

/// The print of the file at that place of the list, read two bytes at a time.
fn print_at<S: Shard>(
    alloc: Global,
    shard: &mut S,
    file: usize,
) -> Result<Option<Print>, CallError> {
    let files = shard.list(alloc)?;
    if file >= files.len() {
        return Ok(None);
    }
    let len = files.as_slice()[file].length;
    let mut buf = [0u8; 2];
    Ok(Some(hash_file(alloc, shard, file, len, &mut buf)?))
}

fn say_hash(alloc: Global, file: u64, line: &mut String) -> Result<(), CallError> {
    let mut shard = shard_of(alloc)?;
    match print_at(alloc, &mut shard, file as usize)? {
        Some(print) => say_print(line, &print),
        None => say(line, "no such file"),
    }
    Ok(())
}

fn say_part(words: &str, line: &mut String) {
    let (len, rest) = cut(words);
    let (size, number) = cut(rest);
    let (len, size, number) = (number_of(len), number_of(size), number_of(number));
    if size == 0 || size > 1 << 30 || number >= part_count(len, size) {
        return say(line, "no such part");
    }
    let (place, length) = part_plan(len, size, number);
    say_number(line, place);
    say(line, " ");
    say_number(line, length);
}

fn tally_of(room: usize) -> Tally
    ensures { result.room ≡ room }
{
    Tally { room, written: 0 }
}

/// Whether a stage got all bytes that it had room for, and how many it got.
type Filled = (bool, usize);

/// What is copied of the started file into two stages of two bytes each, one byte at a time; and its print.
fn copy_halves(shard: &mut MemShard) -> Result<(Filled, Filled, Print), CopyError> {
    let mut hasher = Hasher::start();
    let (mut first, mut last) = (tally_of(2), tally_of(2));
    let mut buf = [0u8; 1];
    let first_full = copy_part(shard, &mut first, &mut hasher, 2, &NoGate, 1, &mut buf)?;
    let last_full = copy_part(shard, &mut last, &mut hasher, 2, &NoGate, 1, &mut buf)?;
    Ok((
        (first_full, first.written),
        (last_full, last.written),
        hasher.end(),
    ))
}

fn say_filled(line: &mut String, filled: Filled) {
    say(line, if filled.0 { "full " } else { "short " });
    say_number(line, filled.1 as u64);
    say(line, ", ");
}

/// Says what is copied of the second file.
fn say_copy_of(alloc: Global, shard: &mut MemShard, line: &mut String) -> Result<(), CallError> {
    if shard.list(alloc)?.len() != 2 {
        say(line, "not two files");
        return Ok(());
    }
    shard.start(alloc, 1)?;
    match copy_halves(shard) {
        Ok((first, last, print)) => {
            say_filled(line, first);
            say_filled(line, last);
            say_print(line, &print);
        }
        Err(_) => say(line, "failed"),
    }
    Ok(())
}

fn say_copy(alloc: Global, line: &mut String) -> Result<(), CallError> {
    let mut shard = shard_of(alloc)?;
    say_copy_of(alloc, &mut shard, line)
}

impl Subject for Parts {
    fn call(&mut self, alloc: Global, call: &str, line: &mut String) {
        let (verb, rest) = cut(call);
        let answer = match verb {
            "part" => {
                say_part(rest, line);
                Ok(())
            }
            "hash" => say_hash(alloc, number_of(rest), line),
            "copy" => say_copy(alloc, line),
            _ => Err(CallError::Failed),
        };
        if answer.is_err() {
            say(line, "failed");
        }
    }
}
