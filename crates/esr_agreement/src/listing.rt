//! What a snapshot has of a shard, beside the index of the shard.
ghost use Rattle.std.specs.Prelude.{◌≡◌, ◌↔◌, IsTrue, map};
ghost use Rattle.esr_model.specs.Values.{Has};
ghost use Rattle.esr_model.specs.Image.{AllPairs, Lists};
ghost use Rattle.esr_formats.specs.Ids.{number_of};
ghost use Rattle.esr_formats.specs.Shards.{entry_of, shard_index_of, snap_list_of};
ghost use Rattle.esr_agreement.specs.Lists.{IsListOf, Names, ListsFiles};

use esr_names::Id;
use esr_shardidx::{FileEntry, ShardIndex, SnapList};

/// The list is that of the snapshot.
fn is_for(list: &SnapList, uuid: Id) -> bool
    ensures { IsTrue result ↔ ((snap_list_of list.now).uuid ≡ uuid.number) }
{
    list.uuid.number == uuid.number
}

/// The index of the shard has a list of the snapshot.
pub fn has_list(held: &ShardIndex, uuid: Id) -> bool
    ensures { IsTrue result ↔ IsListOf (shard_index_of held.now) uuid.number }
{
    for list in held.snapshots() {
        if is_for(list, uuid) {
            return true;
        }
    }
    false
}

/// The entries are one.
fn is_same(a: &FileEntry, b: &FileEntry) -> bool
    ensures { IsTrue result ↔ (entry_of a.now ≡ entry_of b.now) }
{
    a.name.number == b.name.number
        && a.physical.as_str() == b.physical.as_str()
        && a.print.len == b.print.len
        && a.print.sha256 == b.print.sha256
        && a.part_size == b.part_size
}

/// The very entry is one of these.
fn has_entry(entries: &[FileEntry], entry: &FileEntry) -> bool
    ensures { IsTrue result ↔ Has (map entry_of entries.now) (entry_of entry.now) }
{
    for old in entries {
        if is_same(old, entry) {
            return true;
        }
    }
    false
}

/// The id is that of the file, which is one of the entries.
fn names_file(id: Id, file: &FileEntry, entries: &[FileEntry]) -> bool
    ensures { IsTrue result ↔ Names (map entry_of entries.now) id.number (entry_of file.now) }
{
    file.name.number == id.number && has_entry(entries, file)
}

/// The ids are those of the files, in order, and each file is one of the entries.
fn names_files(ids: &[Id], files: &[FileEntry], entries: &[FileEntry]) -> bool
    ensures { IsTrue result ↔ AllPairs (Names (map entry_of entries.now)) (map number_of ids.now) (map entry_of files.now) }
{
    if ids.len() != files.len() {
        return false;
    }
    for (k, id) in ids.iter().enumerate() {
        if !names_file(*id, &files[k], entries) {
            return false;
        }
    }
    true
}

/// The list is that of the snapshot, with these files.
fn is_list_of(list: &SnapList, uuid: Id, files: &[FileEntry], entries: &[FileEntry]) -> bool
    ensures { IsTrue result ↔ ListsFiles (map entry_of entries.now) uuid.number (map entry_of files.now) (snap_list_of list.now) }
{
    list.uuid.number == uuid.number && names_files(list.files.as_slice(), files, entries)
}

/// The index of the shard lists the snapshot with these files.
pub fn lists(held: &ShardIndex, uuid: Id, files: &[FileEntry]) -> bool
    ensures { IsTrue result ↔ Lists (shard_index_of held.now) uuid.number (map entry_of files.now) }
{
    for list in held.snapshots() {
        if is_list_of(list, uuid, files, held.files()) {
            return true;
        }
    }
    false
}
