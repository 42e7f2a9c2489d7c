//! Laws about files, their parts and a shard's index, for the crates above.
ghost use Rattle.std.specs.Prelude.{◌≡◌, ◌≤◌, ◌<◌, ◌+◌, false, true, ℕ, List, Some, Ok, find, length, map};
ghost use Rattle.std.specs.List.{list_any, AllByRecursion};
ghost use Rattle.esr_names.specs.Layout.{IsName};
ghost use Rattle.esr_names.specs.declared.blob.ShardId.{ShardId};
ghost use Rattle.esr_names.specs.declared.ids.Id.{Id};
ghost use Rattle.esr_shardidx.specs.declared.entry.FileEntry.{FileEntry};
ghost use Rattle.esr_shardidx.specs.Entries.{IsEntry};
ghost use Rattle.esr_shardidx.specs.Parts.{part_count, part_name, part_len, len_of_parts, parts_of, join, IsCut};
ghost use Rattle.esr_shardidx.specs.Snapshots.{SnapValue, has_name, shard_snap_text, shard_snap_from, IsShardSnap, NamesRise};
ghost use Rattle.esr_shardidx.specs.Indices.{IndexValue, shard_index_text, shard_index_from, repeats, has_uuid, names_file, name_of, listed_of, with_snap_of, survivors_of, IsShardIndex, HasEntry, Agrees};

/// The texts are read back as what they are the texts of.
pub fn texts_read_back()
    ensures snap { (s : SnapValue) → IsShardSnap s → shard_snap_from (shard_snap_text s) ≡ Ok s }
    ensures index { (v : IndexValue) → IsShardIndex v → shard_index_from (shard_index_text v) ≡ Ok v }
{}

/// The parts of a file, one after another, are the file. Each but the last is of exactly the size.
pub fn parts_are_the_file()
    ensures joined { (size : ℕ) (bytes : List ℕ) → 1 ≤ size → join (parts_of size bytes) ≡ bytes }
    ensures cut { (size : ℕ) (bytes : List ℕ) → 1 ≤ size → IsCut size (parts_of size bytes) }
    ensures counted { (size : ℕ) (bytes : List ℕ) → 1 ≤ size
        → length (parts_of size bytes) ≡ part_count (length bytes) size }
    ensures full { (len size k : ℕ) → 1 ≤ size → k + 1 < part_count len size → part_len len size k ≡ size }
    ensures sum { (len size : ℕ) → 1 ≤ size → len_of_parts len size (part_count len size) ≡ len }
{}

/// No two parts of the files of a shard have one name, and each name is one of the layout.
pub fn part_names_differ()
    ensures numbers { (s : ShardId) (e : FileEntry) (j k : ℕ) → j < part_count e.print.len e.part_size → k < part_count e.print.len e.part_size
        → part_name s e j ≡ part_name s e k → j ≡ k }
    ensures files { (s t : ShardId) (e f : FileEntry) (j k : ℕ) → part_name s e j ≡ part_name t f k → e.name ≡ f.name }
    ensures layout { (s : ShardId) (e : FileEntry) (k : ℕ) → s.number < 1024 → IsEntry e → k < part_count e.print.len e.part_size
        → IsName (part_name s e k) }
{}

/// The physical names of a snapshot's files rise, and no id of a file stands twice.
pub fn snap_files_differ()
    ensures names { (s : SnapValue) → IsShardSnap s → NamesRise s.files }
    ensures ids { (s : SnapValue) → IsShardSnap s → repeats (map name_of s.files) ≡ false }
{}

/// An index with a snapshot added has the entries of the snapshot's files, where none of its own
/// differs from them, and keeps its own.
pub fn with_snap_adds()
    ensures files { (v : IndexValue) (s : SnapValue) → IsShardSnap s → list_any (has_uuid s.uuid) v.snapshots ≡ false
        → AllByRecursion (Agrees v.files) s.files → AllByRecursion (HasEntry (with_snap_of v s).files) s.files }
    ensures kept { (v : IndexValue) (s : SnapValue) (u : Id) (e : FileEntry) → IsShardIndex v → find (has_name u) v.files ≡ Some e
        → find (has_name u) (with_snap_of v s).files ≡ Some e }
{}

/// The entries of the files of the snapshots that are kept stay.
pub fn survivors_keep()
    ensures { (v : IndexValue) (listed : List Id) (u : Id) → list_any (names_file u) (listed_of listed v.snapshots) ≡ true
        → find (has_name u) (survivors_of v listed).files ≡ find (has_name u) v.files }
{}
