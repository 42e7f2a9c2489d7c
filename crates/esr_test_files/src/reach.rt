//! Small roots, typed out, with the indices of their shards, as a subject.
use crate::words::{number_of, say_nth, say_refusal};
use esr_json::ReadRefusal;
use esr_names::{Id, ShardId};
use esr_reach::{Names, ShardIndices, doomed_by_delete, reach};
use esr_root::{RootData, root_read};
use esr_scenes::{Subject, cut, say, say_number};
use esr_seq::{Seq, Text};
use esr_shardidx::shard_index_read;
use std::alloc::Global;
use std::mem;

/// The names that a root reaches:
///
/// | Call | What it does | Answers |
/// |---|---|---|
/// | `root TEXT` | takes a root | |
/// | `reach NUMBER TEXT` | | how many names it reaches where the shard of that number of the index with the id 1/1 has an index of this text |
/// | `before` | keeps the names as those of the root before a delete | |
/// | `doomed` | | how many names of the root before the delete the root doesn't reach |
/// | `name N` | | the name with that number, from 0, of those that were counted last |
#[derive(Drop)]
pub(crate) struct Reach {
    root: Text,
    names: Names,
    before: Names,
}

/// That shard of the index with the id 1/1, with an index of its own of this text.
fn held_of(alloc: Global, number: u32, text: &str) -> Result<ShardIndices, ReadRefusal> {
    let shard = ShardId {
        index: Id::new(1, 1),
        number,
    };
    let index = shard_index_read(alloc, text.as_bytes())?;
    let mut held = ShardIndices::new(alloc);
    held.insert(shard, index)?;
    Ok(held)
}

/// The names that the root reaches, or none where a shard is not held.
fn names_of(
    alloc: Global,
    root: &RootData,
    held: &ShardIndices,
) -> Result<Option<Names>, ReadRefusal> {
    if !held.has_each(root) {
        return Ok(None);
    }
    Ok(Some(reach(alloc, root, held)?))
}

impl Reach {
    pub fn new(alloc: Global) -> Reach {
        Reach {
            root: Text::new(alloc),
            names: Seq::new(alloc),
            before: Seq::new(alloc),
        }
    }

    /// The names that the root reaches with a shard's index.
    fn reached(&self, alloc: Global, words: &str) -> Result<Option<Names>, ReadRefusal> {
        let (number, text) = cut(words);
        let number = u32::try_from(number_of(number)).unwrap_or(u32::MAX);
        let root = root_read(alloc, self.root.as_str().as_bytes())?;
        let held = held_of(alloc, number, text)?;
        names_of(alloc, &root, &held)
    }

    fn say_reached(&mut self, alloc: Global, words: &str, line: &mut String) {
        match self.reached(alloc, words) {
            Ok(Some(names)) => {
                say_number(line, names.len() as u64);
                self.names = names;
            }
            Ok(None) => say(line, "a shard is not held"),
            Err(refusal) => say_refusal(line, &refusal),
        }
    }

    fn say_doomed(&mut self, alloc: Global, line: &mut String) {
        match doomed_by_delete(alloc, &self.before, &self.names) {
            Ok(names) => {
                say_number(line, names.len() as u64);
                self.names = names;
            }
            Err(_) => say(line, "no memory"),
        }
    }

    fn take_root(&mut self, alloc: Global, text: &str, line: &mut String) {
        match Text::from_str(alloc, text) {
            Ok(root) => self.root = root,
            Err(_) => say(line, "no memory"),
        }
    }
}

impl Subject for Reach {
    fn call(&mut self, alloc: Global, call: &str, line: &mut String) {
        let (verb, rest) = cut(call);
        match verb {
            "root" => self.take_root(alloc, rest, line),
            "reach" => self.say_reached(alloc, rest, line),
            "before" => self.before = mem::replace(&mut self.names, Seq::new(alloc)),
            "doomed" => self.say_doomed(alloc, line),
            "name" => say_nth(alloc, self.names.as_slice(), rest, line),
            _ => say(line, "no such call"),
        }
    }
}
