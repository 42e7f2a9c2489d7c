//! Files that a base has, and others, as a subject.
use crate::words::{Trouble, number_of};
use esr_hash::Print;
use esr_names::Id;
use esr_reuse::{Planned, ReadFile, plan};
use esr_scenes::{Subject, cut, say};
use esr_seq::Seq;
use esr_shardidx::{FileEntries, FileEntry, PhysicalName, ShardIndex, ShardSnap};
use std::alloc::Global;
use std::fmt::Write;

/// What files reuse of a base:
///
/// | Call | What it does | Answers |
/// |---|---|---|
/// | `base NAME LENGTH BYTE ID` | the base has a file with that name, length and id, whose digest is that byte 32 times | |
/// | `reuses NAME LENGTH BYTE` | | the id of the file that such a file reuses, or `none` |
#[derive(Drop)]
pub(crate) struct Reuse<'a> {
    lines: &'a str,
}

/// The print of that length, of a byte 32 times.
fn print_of(len: u64, byte: &str) -> Result<Print, Trouble> {
    match byte.parse::<u8>() {
        Ok(byte) => Ok(Print {
            len,
            sha256: [byte; 32],
        }),
        Err(_) => Err(Trouble::Because("no byte")),
    }
}

fn named(alloc: Global, name: &str, print: Print) -> Result<ReadFile, Trouble> {
    match PhysicalName::new(alloc, name) {
        Ok(physical) => Ok(ReadFile { physical, print }),
        Err(_) => Err(Trouble::Because("no name of a file")),
    }
}

/// A file, and the number after it.
fn file_of(alloc: Global, words: &str) -> Result<(ReadFile, u64), Trouble> {
    let (name, rest) = cut(words);
    let (len, rest) = cut(rest);
    let (byte, number) = cut(rest);
    let print = print_of(number_of(len), byte)?;
    let file = named(alloc, name, print)?;
    Ok((file, number_of(number)))
}

fn entry_of(alloc: Global, words: &str) -> Result<FileEntry, Trouble> {
    let (file, id) = file_of(alloc, words)?;
    Ok(FileEntry {
        name: Id {
            number: u128::from(id),
        },
        physical: file.physical,
        print: file.print,
        part_size: 4,
    })
}

fn add_entries(alloc: Global, lines: &str, entries: &mut FileEntries) -> Result<(), Trouble> {
    for line in lines.lines() {
        if let Some(words) = line.trim().strip_prefix("base ") {
            entries.push(entry_of(alloc, words)?)?;
        }
    }
    Ok(())
}

/// The files that the lines `base ..` say.
fn entries_of(alloc: Global, lines: &str) -> Result<FileEntries, Trouble> {
    let mut entries = Seq::new(alloc);
    add_entries(alloc, lines, &mut entries)?;
    Ok(entries)
}

/// An index of these files.
fn base_of(alloc: Global, files: FileEntries) -> Result<ShardIndex, Trouble> {
    match ShardSnap::new(files, Id { number: 1 }) {
        Some(snap) => Ok(ShardIndex::new(alloc).with_snap(alloc, &snap)?),
        None => Err(Trouble::Because("no files of a snapshot")),
    }
}

/// Says the id that the first of these reuses.
fn say_first(plans: &[Planned], line: &mut String) {
    match plans.first() {
        Some(planned) => match &planned.reused {
            Some(entry) => {
                let _ = write!(line, "{}", entry.name.number);
            }
            None => say(line, "none"),
        },
        None => say(line, "no plan"),
    }
}

/// Says the id that a file reuses of a base.
fn say_plan(
    alloc: Global,
    base: &ShardIndex,
    file: ReadFile,
    line: &mut String,
) -> Result<(), Trouble> {
    say_first(plan(alloc, base, &[file])?.as_slice(), line);
    Ok(())
}

impl<'a> Reuse<'a> {
    pub fn new(lines: &'a str) -> Reuse<'a> {
        Reuse { lines }
    }

    fn say_reused(&self, alloc: Global, words: &str, line: &mut String) -> Result<(), Trouble> {
        let base = base_of(alloc, entries_of(alloc, self.lines)?)?;
        let (file, _) = file_of(alloc, words)?;
        say_plan(alloc, &base, file, line)
    }
}

impl Subject for Reuse<'_> {
    fn call(&mut self, alloc: Global, call: &str, line: &mut String) {
        let (verb, rest) = cut(call);
        match verb {
            "base" => {}
            "reuses" => match self.say_reused(alloc, rest, line) {
                Ok(()) => {}
                Err(Trouble::Because(why)) => say(line, why),
                Err(Trouble::Memory) => say(line, "no memory"),
            },
            _ => say(line, "no such call"),
        }
    }
}
