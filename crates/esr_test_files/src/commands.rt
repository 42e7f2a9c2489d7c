//! The shelf after commands, as a subject, and a shelf as a line.
use crate::words::{id_of, number_of};
use esr_names::Id;
use esr_plain::{Command, Commands, File, Shelf, ShelfShard, Shelved, shelf_after};
use esr_scenes::{Subject, cut, one, say, say_bytes, say_number};
use esr_seq::{Bytes, Seq, Text};
use std::alloc::{AllocError, Global};
use std::mem;

/// Commands, one after another:
///
/// | Call | What it does |
/// |---|---|
/// | `create NAME UUID SHARDS` | a snapshot of shards `INDEX/NUMBER`, each with a file `abc` that has the name of the index |
/// | `clone SOURCE NAME UUID INDICES` | a clone of these indices |
/// | `delete UUIDS` | a delete |
/// | `shelf` | says what an empty shelf is after the commands above |
///
/// A uuid is `TERM/COUNTER`.
#[derive(Drop)]
pub(crate) struct ShelfCommands {
    commands: Commands,
}

fn say_shard(line: &mut String, shard: &ShelfShard) {
    say(line, " ");
    say(line, shard.index.as_str());
    say(line, "/");
    say_number(line, u64::from(shard.number));
    for file in shard.files.as_slice() {
        say(line, " ");
        say(line, file.name.as_str());
        say(line, "=");
        say_bytes(line, file.bytes.as_slice());
    }
}

/// Says the snapshots of a shelf, each with its shards and their files, and a semicolon.
pub(crate) fn say_shelf(line: &mut String, shelf: &Shelf) {
    for snap in shelf.as_slice() {
        say(line, snap.name.as_str());
        for shard in snap.shards.as_slice() {
            say_shard(line, shard);
        }
        say(line, "; ");
    }
}

/// The file `abc` of that name.
fn file_of(alloc: Global, name: &str) -> Result<File, AllocError> {
    let name = Text::from_str(alloc, name)?;
    let bytes = Bytes::from_slice(alloc, b"abc")?;
    Ok(File { name, bytes })
}

/// The shard `INDEX/NUMBER`.
fn shard_of(alloc: Global, word: &str) -> Result<ShelfShard, AllocError> {
    let (index, number) = word.split_once('/').unwrap_or((word, ""));
    let files = one(alloc, file_of(alloc, index)?)?;
    Ok(ShelfShard {
        index: Text::from_str(alloc, index)?,
        number: u32::try_from(number_of(number)).unwrap_or(u32::MAX),
        files,
    })
}

fn add_shards(alloc: Global, words: &str, shards: &mut Seq<ShelfShard>) -> Result<(), AllocError> {
    for word in words.split_whitespace() {
        shards.push(shard_of(alloc, word)?)?;
    }
    Ok(())
}

fn shelved_of(alloc: Global, name: &str, uuid: Id, words: &str) -> Result<Shelved, AllocError> {
    let name = Text::from_str(alloc, name)?;
    let mut shards = Seq::new(alloc);
    add_shards(alloc, words, &mut shards)?;
    Ok(Shelved { name, uuid, shards })
}

fn create(alloc: Global, words: &str) -> Result<Command, AllocError> {
    let (name, rest) = cut(words);
    let (uuid, rest) = cut(rest);
    let shelved = shelved_of(alloc, name, id_of(uuid), rest)?;
    Ok(Command::Create(shelved))
}

fn add_texts(alloc: Global, words: &str, texts: &mut Seq<Text>) -> Result<(), AllocError> {
    for word in words.split_whitespace() {
        texts.push(Text::from_str(alloc, word)?)?;
    }
    Ok(())
}

fn texts_of(alloc: Global, words: &str) -> Result<Seq<Text>, AllocError> {
    let mut texts = Seq::new(alloc);
    add_texts(alloc, words, &mut texts)?;
    Ok(texts)
}

fn clone(alloc: Global, words: &str) -> Result<Command, AllocError> {
    let (source, rest) = cut(words);
    let (name, rest) = cut(rest);
    let (uuid, rest) = cut(rest);
    let indices = texts_of(alloc, rest)?;
    Ok(Command::Clone {
        source: id_of(source),
        name: Text::from_str(alloc, name)?,
        uuid: id_of(uuid),
        indices,
    })
}

fn add_ids(words: &str, ids: &mut Seq<Id>) -> Result<(), AllocError> {
    for word in words.split_whitespace() {
        ids.push(id_of(word))?;
    }
    Ok(())
}

fn delete(alloc: Global, words: &str) -> Result<Command, AllocError> {
    let mut uuids = Seq::new(alloc);
    add_ids(words, &mut uuids)?;
    Ok(Command::Delete(uuids))
}

impl ShelfCommands {
    pub fn new(alloc: Global) -> ShelfCommands {
        ShelfCommands {
            commands: Seq::new(alloc),
        }
    }

    /// Adds the command that a call makes.
    fn add(&mut self, command: Result<Command, AllocError>) -> Result<(), AllocError> {
        self.commands.push(command?)?;
        Ok(())
    }

    fn say_after(&mut self, alloc: Global, line: &mut String) -> Result<(), AllocError> {
        let commands = mem::replace(&mut self.commands, Seq::new(alloc));
        say_shelf(line, &shelf_after(alloc, Seq::new(alloc), commands)?);
        Ok(())
    }

    fn make(&mut self, alloc: Global, call: &str, line: &mut String) -> Result<(), AllocError> {
        let (verb, rest) = cut(call);
        match verb {
            "create" => self.add(create(alloc, rest)),
            "clone" => self.add(clone(alloc, rest)),
            "delete" => self.add(delete(alloc, rest)),
            "shelf" => self.say_after(alloc, line),
            _ => line.push_str("no such command"),
        }
    }
}

impl Subject for ShelfCommands {
    fn call(&mut self, alloc: Global, call: &str, line: &mut String) {
        if self.make(alloc, call, line).is_err() {
            say(line, "no memory");
        }
    }
}
