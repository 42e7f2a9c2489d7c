//! The shelf, and what commands make of it.
ghost use Rattle.std.specs.Prelude.{◌≡◌, ◌++◌, IfOk, filter, map};
ghost use Rattle.std.specs.List.{list_any};
ghost use Rattle.esr_formats.specs.Ids.{number_of};
ghost use Rattle.esr_model.specs.Shelf.{apply as applied, copied_snap, is_of_one as of_one, left_shelf, names_uuid as named, shelf_after as after, shelved_at};
ghost use Rattle.esr_model.specs.Uploads.{same_bytes};
ghost use Rattle.esr_plain.specs.Commands.{command_of, made_list};

use esr_names::{Id, Ids};
use esr_seq::{Bytes, Seq, Text, TryClone};
use std::alloc::{AllocError, Global};
use std::marker::Model;

/// A file by its name where it was taken from, with its bytes.
#[derive(Drop)]
pub struct File {
    pub name: Text,
    pub bytes: Bytes,
}

impl Model for File {
    ghost use Rattle.std.specs.Prelude.{List, ℕ};

    ghost Value = { List ℕ × List ℕ };

    ghost view = { λ f. (f.name, f.bytes) };
}

impl TryClone for File {
    fn try_clone(&self, alloc: Global) -> Result<File, AllocError> {
        Ok(File {
            name: self.name.try_clone(alloc)?,
            bytes: self.bytes.try_clone(alloc)?,
        })
    }
}

/// Files in the byte order of their names.
pub type Files = Seq<File>;

/// A shard of a snapshot: the name of its index, its number, and its files.
#[derive(Drop)]
pub struct ShelfShard {
    pub index: Text,
    pub number: u32,
    pub files: Files,
}

impl Model for ShelfShard {
    ghost use Rattle.esr_model.specs.Shelf.{ShelfShard as ShardOnShelf};

    ghost Value = { ShardOnShelf };

    ghost view = { λ s. record { index = s.index; number = s.number; files = s.files } };
}

impl TryClone for ShelfShard {
    fn try_clone(&self, alloc: Global) -> Result<ShelfShard, AllocError> {
        Ok(ShelfShard {
            index: self.index.try_clone(alloc)?,
            number: self.number,
            files: self.files.try_clone(alloc)?,
        })
    }
}

/// Shards by the names of their indices in byte order, and by number within each.
pub type ShelfShards = Seq<ShelfShard>;

/// A snapshot on the shelf.
#[derive(Drop)]
pub struct Shelved {
    pub name: Text,
    pub uuid: Id,
    pub shards: ShelfShards,
}

impl Model for Shelved {
    ghost use Rattle.esr_model.specs.Shelf.{Shelved as SnapOnShelf};

    ghost Value = { SnapOnShelf };

    ghost view = { λ s. record { name = s.name; uuid = s.uuid.number; shards = s.shards } };
}

/// Snapshots in the order in which they were finalized.
pub type Shelf = Seq<Shelved>;

/// What changes a shelf: a snapshot is added, or one of some indices of another, or those with some uuids are taken away.
#[derive(Drop)]
pub enum Command {
    Create(Shelved),
    Clone {
        source: Id,
        name: Text,
        uuid: Id,
        indices: Seq<Text>,
    },
    Delete(Ids),
}

/// Commands in the order of their settles.
pub type Commands = Seq<Command>;

/// Whether the uuid is one of these.
fn names_uuid(uuids: &[Id], uuid: Id) -> bool
    ensures { result ≡ named (map number_of uuids.now) uuid.number }
{
    for named in uuids {
        if named.number == uuid.number {
            return true;
        }
    }
    false
}

/// The snapshots whose uuids are none of these.
fn left(shelf: Shelf, uuids: &[Id]) -> Shelf
    ensures { result ≡ left_shelf (map number_of uuids.now) shelf }
{
    let mut snaps = shelf.into_vec();
    snaps.retain(|snap| !names_uuid(uuids, snap.uuid));
    Seq::from_vec(snaps)
}

/// Two texts are one.
fn is_same(a: &str, b: &str) -> bool
    ensures { result ≡ same_bytes a.now b.now }
{
    a == b
}

/// Whether the name is one of these.
fn is_among(names: &[Text], name: &Text) -> bool
    ensures { result ≡ list_any (same_bytes name.now) names.now }
{
    for other in names {
        if is_same(name.as_str(), other.as_str()) {
            return true;
        }
    }
    false
}

/// Whether the shard is of one of these indices.
fn is_of_one(names: &[Text], shard: &ShelfShard) -> bool
    ensures { result ≡ of_one names.now shard.now }
{
    is_among(names, &shard.index)
}

/// Copies of the shards that are of these indices.
fn shards_of(alloc: Global, names: &[Text], shards: &ShelfShards) -> Result<ShelfShards, AllocError>
    ensures { IfOk result (λ kept. kept ≡ filter (of_one names.now) shards.now) }
{
    let mut kept = ShelfShards::new(alloc);
    for shard in shards.as_slice() {
        if is_of_one(names, shard) {
            kept.push(shard.try_clone(alloc)?)?;
        }
    }
    Ok(kept)
}

/// What a snapshot has of these indices, under another name and uuid.
fn renamed(
    alloc: Global,
    snap: &Shelved,
    name: &Text,
    uuid: Id,
    indices: &[Text],
) -> Result<Shelved, AllocError>
    ensures { IfOk result (λ made. made ≡ record { name = name.now; uuid = uuid.number; shards = filter (of_one indices.now) snap.now.shards }) }
{
    Ok(Shelved {
        name: name.try_clone(alloc)?,
        uuid,
        shards: shards_of(alloc, indices, &snap.shards)?,
    })
}

/// The same of the snapshot with the uuid of a source: None where there is none.
fn copied(
    alloc: Global,
    shelf: &[Shelved],
    source: Id,
    name: &Text,
    uuid: Id,
    indices: &[Text],
) -> Result<Option<Shelved>, AllocError>
    ensures { IfOk result (λ made. made_list made ≡ copied_snap name.now uuid.number indices.now (shelved_at shelf.now source.number)) }
{
    for snap in shelf {
        if snap.uuid.number == source.number {
            return Ok(Some(renamed(alloc, snap, name, uuid, indices)?));
        }
    }
    Ok(None)
}

/// The shelf with another snapshot, where there is one.
fn with_made(shelf: Shelf, made: Option<Shelved>) -> Result<Shelf, AllocError>
    ensures { IfOk result (λ s. s ≡ shelf ++ made_list made) }
{
    match made {
        Some(snap) => {
            let mut more = shelf;
            more.push(snap)?;
            Ok(more)
        }
        None => Ok(shelf),
    }
}

/// The shelf after a command.
pub fn apply(alloc: Global, shelf: Shelf, command: Command) -> Result<Shelf, AllocError>
    ensures { IfOk result (λ s. s ≡ applied shelf (command_of command)) }
{
    match command {
        Command::Create(made) => with_made(shelf, Some(made)),
        Command::Clone {
            source,
            name,
            uuid,
            indices,
        } => {
            let made = copied(
                alloc,
                shelf.as_slice(),
                source,
                &name,
                uuid,
                indices.as_slice(),
            )?;
            with_made(shelf, made)
        }
        Command::Delete(uuids) => Ok(left(shelf, uuids.as_slice())),
    }
}

/// The shelf after commands, one after another.
pub fn shelf_after(alloc: Global, start: Shelf, commands: Commands) -> Result<Shelf, AllocError>
    ensures { IfOk result (λ s. s ≡ after start (map command_of commands)) }
{
    let mut shelf = start;
    for command in commands.into_vec() {
        shelf = apply(alloc, shelf, command)?;
    }
    Ok(shelf)
}
