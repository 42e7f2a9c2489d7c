//! Reading what a snapshot has of a shard, and a shard's index.
ghost use Rattle.std.specs.Prelude.{◌≡◌, ◌+◌, [], length, map, IfOk};
ghost use Rattle.std.specs.List.{list_any};
ghost use Rattle.serde_json.specs.View.{view};
ghost use Rattle.esr_json.specs.Steps.{Gives};
ghost use Rattle.esr_shardidx.specs.Entries.{read_file, last_place, file_after, physical_after, print_at, entry_of, is_below, id_falls, name_stays, last_of};
ghost use Rattle.esr_shardidx.specs.Snapshots.{has_name, id_at, snap_files_from, shard_snap_of, shard_snap_from};
ghost use Rattle.esr_shardidx.specs.Indices.{has_uuid, has_file, is_at, index_files_from, file_item, file_ids_from, list_of, lists_from, shard_index_of, shard_index_from, Rises};
ghost use Rattle.esr_shardidx.specs.Marks.{AreMarks, IsNamed};

use crate::marks::{Named, marked};
use crate::trail::Trail;
use crate::{
    FileEntries, FileEntry, PhysicalName, PhysicalRefusal, ShardIndex, ShardSnap, SnapList,
    SnapLists,
};
use esr_hash::{Print, print_read};
use esr_json::{Key, ReadRefusal, Reason, items, number, parse, text, text_item};
use esr_names::{Id, Ids, id_read};
use esr_seq::Seq;
use serde_json::Value;
use std::alloc::Global;
use std::collections::BTreeSet;

/// The id of the file that has this name.
#[tactic(auto, unfolding(crate::specs::Entries::read_file))]
pub fn read_file(bytes: &[u8]) -> Option<Id>
    ensures { result ≡ read_file bytes.now }
{
    if bytes.len() < 2 {
        return None;
    }
    if &bytes[..2] == b"__".as_slice() {
        id_read(&bytes[2..])
    } else {
        None
    }
}

/// The place of the last entry.
fn last_place(before: &[FileEntry]) -> i128
    ensures { result ≡ last_place before.now }
{
    before.len().saturating_sub(1) as i128
}

/// Whether an id is below that of the last entry.
fn id_falls(before: &[FileEntry], name: Id) -> bool
    ensures { result ≡ id_falls (last_of before.now) name }
{
    match before.last() {
        Some(last) => name.number < last.name.number,
        None => false,
    }
}

/// Whether an id is that of the last entry.
fn id_stays(before: &[FileEntry], name: Id) -> bool
    ensures { result ≡ is_at name (last_of before.now) }
{
    match before.last() {
        Some(last) => name.number == last.name.number,
        None => false,
    }
}

/// Whether a name isn't above that of the last entry.
pub fn name_stays(before: &[FileEntry], name: &str) -> bool
    ensures { result ≡ name_stays (last_of before.now) name.now }
{
    match before.last() {
        Some(last) => !(last.physical.as_str() < name),
        None => false,
    }
}

#[tactic(auto, unfolding(crate::specs::Entries::file_after))]
fn file_after(before: &[FileEntry], value: &Value) -> Result<Id, Reason>
    ensures { result ≡ file_after before.now (view value.now) }
{
    let name = read_file(text(value, Key::Name)?.as_bytes()).ok_or(Reason::BadId)?;
    if id_falls(before, name) {
        return Err(Reason::OutOfRange {
            key: Key::Name,
            limit: last_place(before),
        });
    }
    Ok(name)
}

#[tactic(auto, unfolding(crate::specs::Entries::physical_after))]
fn physical_after(
    alloc: Global,
    before: &[FileEntry],
    value: &Value,
) -> Result<PhysicalName, ReadRefusal>
    ensures { Gives (λ n. n) result (physical_after before.now (view value.now)) }
{
    let text = text(value, Key::PhysicalName)?;
    let name = match PhysicalName::new(alloc, text) {
        Ok(name) => name,
        Err(PhysicalRefusal::Memory) => return Err(ReadRefusal::Memory),
        Err(PhysicalRefusal::BadName) => return Err(ReadRefusal::Damaged {
            why: Reason::BadName,
        }),
    };
    if name_stays(before, text) {
        return Err(ReadRefusal::Damaged {
            why: Reason::OutOfRange {
                key: Key::PhysicalName,
                limit: last_place(before),
            },
        });
    }
    Ok(name)
}

#[tactic(auto, unfolding(crate::specs::Entries::print_at))]
fn print_at(len: u64, value: &Value) -> Result<Print, Reason>
    ensures { result ≡ print_at len (view value.now) }
{
    print_read(len, text(value, Key::Sha256)?.as_bytes()).ok_or(Reason::BadId)
}

/// An entry whose id isn't below that of the last of `ids`, and whose physical name is above that of
/// the last of `names`.
#[tactic(auto, unfolding(crate::specs::Entries::entry_of))]
pub fn entry_of(
    alloc: Global,
    ids: &[FileEntry],
    names: &[FileEntry],
    value: &Value,
) -> Result<FileEntry, ReadRefusal>
    ensures { Gives (λ e. e) result (entry_of ids.now names.now (view value.now)) }
{
    let len = number(value, Key::Length, 0, (1 << 60) - 1)? as u64;
    let name = file_after(ids, value)?;
    let part_size = number(value, Key::PartSize, 1, 1 << 30)? as u64;
    let physical = physical_after(alloc, names, value)?;
    let print = print_at(len, value)?;
    Ok(FileEntry {
        name,
        physical,
        print,
        part_size,
    })
}

/// Whether one of the entries has this id.
pub fn has_file(entries: &[FileEntry], name: Id) -> bool
    ensures { result ≡ has_file entries.now name }
{
    entries.iter().any(|entry| entry.name == name)
}

#[tactic(auto, unfolding(crate::specs::Snapshots::id_at))]
fn id_at(value: &Value, key: Key) -> Result<Id, Reason>
    ensures { result ≡ id_at key (view value.now) }
{
    id_read(text(value, key)?.as_bytes()).ok_or(Reason::BadId)
}

#[tactic(auto, unfolding(crate::specs::Snapshots::snap_files_from))]
fn snap_files_of(alloc: Global, values: &[Value]) -> Result<FileEntries, ReadRefusal>
    ensures { Gives (λ v. v) result (snap_files_from [] (map view values.now)) }
{
    let mut files = Seq::new(alloc);
    let mut ids = BTreeSet::new(alloc);
    for value in values {
        let entry = entry_of(alloc, &[], files.as_slice(), value)?;
        if !ids.insert(entry.name.number)? {
            return Err(ReadRefusal::Damaged {
                why: Reason::Duplicate,
            });
        }
        files.push(entry)?;
    }
    Ok(files)
}

#[tactic(auto, unfolding(crate::specs::Snapshots::shard_snap_of))]
fn shard_snap_of(alloc: Global, value: &Value) -> Result<ShardSnap, ReadRefusal>
    ensures { Gives (λ s. s) result (shard_snap_of (view value.now)) }
{
    let files = snap_files_of(alloc, items(value, Key::Files)?)?;
    let uuid = id_at(value, Key::Uuid)?;
    Ok(ShardSnap { files, uuid })
}

/// What a snapshot has of a shard, by its text.
pub fn shard_snap_read(alloc: Global, bytes: &[u8]) -> Result<ShardSnap, ReadRefusal>
    ensures { Gives (λ s. s) result (shard_snap_from bytes.now) }
{
    shard_snap_of(alloc, &parse(alloc, bytes)?)
}

#[tactic(auto, unfolding(crate::specs::Indices::index_files_from))]
fn index_files_of(alloc: Global, values: &[Value]) -> Result<FileEntries, ReadRefusal>
    ensures gives { Gives (λ v. v) result (index_files_from [] (map view values.now)) }
    ensures rises { IfOk result Rises }
{
    let mut files = Seq::with_capacity(alloc, values.len())?;
    for value in values {
        let entry = entry_of(alloc, files.as_slice(), &[], value)?;
        if id_stays(files.as_slice(), entry.name) {
            return Err(ReadRefusal::Damaged {
                why: Reason::Duplicate,
            });
        }
        files.push(entry)?;
    }
    Ok(files)
}

#[tactic(auto, unfolding(crate::specs::Indices::file_item))]
fn file_item(trail: &Trail, last: Option<usize>, value: &Value) -> Result<Id, Reason>
    ensures { result ≡ file_item (view value.now) }
{
    let name = text_item(value, Key::Files)?.as_bytes();
    match trail.id_after(last, name) {
        Some(id) => Ok(id),
        None => read_file(name).ok_or(Reason::BadId),
    }
}

#[tactic(auto, unfolding(crate::specs::Indices::file_ids_from))]
fn file_ids_of(alloc: Global, trail: &Trail, values: &[Value]) -> Result<Ids, ReadRefusal>
    ensures { Gives (λ v. v) result (file_ids_from [] (map view values.now)) }
{
    let mut ids = Seq::with_capacity(alloc, values.len())?;
    let mut last = None;
    for value in values {
        let id = file_item(trail, last, value)?;
        last = Some(trail.place_after(last, id));
        ids.push(id)?;
    }
    Ok(ids)
}

#[tactic(auto, unfolding(crate::specs::Indices::list_of))]
fn list_of(alloc: Global, trail: &Trail, value: &Value) -> Result<SnapList, ReadRefusal>
    ensures { Gives (λ l. l) result (list_of (view value.now)) }
{
    let files = file_ids_of(alloc, trail, items(value, Key::Files)?)?;
    let uuid = id_at(value, Key::Uuid)?;
    Ok(SnapList { files, uuid })
}

pub fn has_list(lists: &[SnapList], uuid: Id) -> bool
    ensures { result ≡ list_any (has_uuid uuid) lists.now }
{
    lists.iter().any(|list| list.uuid == uuid)
}

#[tactic(auto, unfolding(crate::specs::Indices::lists_from))]
fn lists_of(
    alloc: Global,
    entries: &[FileEntry],
    named: &mut Named,
    values: &[Value],
) -> Result<SnapLists, ReadRefusal>
    requires rises { Rises entries.now }
    requires named { IsNamed entries.now [] named.old }
    ensures gives { Gives (λ v. v) result (lists_from entries.now [] (map view values.now)) }
    ensures named { IfOk result (λ ls. IsNamed entries.now ls named.new) }
{
    let mut lists = Seq::new(alloc);
    let mut trail = Trail::straight(alloc, entries.len())?;
    for value in values {
        // One list alone costs no names.
        if lists.len() == 1 {
            trail.learn(alloc, entries)?;
        }
        let list = list_of(alloc, &trail, value)?;
        let list = named.checked(alloc, entries, &mut trail, lists.as_slice(), list)?;
        lists.push(list)?;
    }
    Ok(lists)
}

#[tactic(auto, unfolding(crate::specs::Indices::shard_index_of))]
fn shard_index_of(alloc: Global, value: &Value) -> Result<ShardIndex, ReadRefusal>
    ensures { Gives (λ i. i) result (shard_index_of (view value.now)) }
{
    let entries = index_files_of(alloc, items(value, Key::Files)?)?;
    let lists = items(value, Key::Snapshots)?;
    let mut named = Named::new(alloc, entries.len())?;
    let snapshots = lists_of(alloc, entries.as_slice(), &mut named, lists)?;
    let files = marked(alloc, entries, named.marks.as_slice())?;
    Ok(ShardIndex { files, snapshots })
}

/// The index of a shard, by its text.
pub fn shard_index_read(alloc: Global, bytes: &[u8]) -> Result<ShardIndex, ReadRefusal>
    ensures { Gives (λ i. i) result (shard_index_from bytes.now) }
{
    shard_index_of(alloc, &parse(alloc, bytes)?)
}
