//! What makes one index of another.
ghost use Rattle.std.specs.Prelude.{◌≡◌, ◌++◌, ◌∷◌, [], filter, false, if◌then◌else◌, map, not, IfOk, OnOk};
ghost use Rattle.std.specs.Ordering.{nat_cmp};
ghost use Rattle.std.specs.BTreeSet.{contains};
ghost use Rattle.esr_shardidx.specs.Snapshots.{IsShardSnap};
ghost use Rattle.esr_shardidx.specs.Indices.{Rises, is_named, repeats, has_file, name_of, insert_files, list_of_snap, listed_of, with_snap_of, survivors_of};
ghost use Rattle.esr_shardidx.specs.Marks.{AreMarked};

use crate::marks::{is_there, mark_files, marked_copies, set_of};
use crate::reading::has_list;
use crate::{FileEntry, ShardIndex, ShardSnap, SnapList, SnapLists};
use esr_names::{Id, Ids};
use esr_seq::{Seq, TryClone, copies_of};
use std::alloc::{AllocError, Global};
use std::collections::BTreeSet;

fn names_of(alloc: Global, entries: &[FileEntry]) -> Result<Ids, AllocError>
    ensures { IfOk result (λ v. v ≡ map name_of entries.now) }
{
    let mut names = Seq::new(alloc);
    for entry in entries {
        names.push(entry.name)?;
    }
    Ok(names)
}

fn list_of_snap(alloc: Global, snap: &ShardSnap) -> Result<SnapList, AllocError>
    ensures { IfOk result (λ l. l ≡ list_of_snap snap.now) }
{
    Ok(SnapList {
        files: names_of(alloc, snap.files())?,
        uuid: snap.uuid(),
    })
}

/// Appends copies of the entries of `more` whose ids `entries` don't have.
fn add_fresh(
    alloc: Global,
    files: &mut Vec<FileEntry>,
    entries: &[FileEntry],
    more: &[FileEntry],
) -> Result<(), AllocError>
    requires { Rises entries.now }
    ensures { OnOk result (files.new.items ≡ files.old.items ++ filter (λ e. not (has_file entries.now e.name)) more.now) }
{
    for entry in more {
        if !is_there(entries, entry.name) {
            files.push(entry.try_clone(alloc)?)?;
        }
    }
    Ok(())
}

/// Copies of the entries, and of those of `more` whose ids they don't have, by id.
fn with_files(
    alloc: Global,
    entries: &[FileEntry],
    more: &[FileEntry],
) -> Result<Vec<FileEntry>, AllocError>
    requires rises { Rises entries.now }
    requires differ { repeats (map name_of more.now) ≡ false }
    ensures { IfOk result (λ v. v.items ≡ insert_files entries.now more.now) }
{
    let mut files = copies_of(alloc, entries)?;
    add_fresh(alloc, &mut files, entries, more)?;
    files.sort_by_key(|file| file.name.number)?;
    Ok(files)
}

/// Keeps a copy of the list, where its snapshot is listed.
fn keep_list(
    alloc: Global,
    kept: &mut SnapLists,
    listed: &BTreeSet<u128>,
    list: &SnapList,
) -> Result<(), AllocError>
    ensures ok { OnOk result (kept.new ≡ kept.old ++ (if contains nat_cmp listed.now list.now.uuid.number then list.now ∷ [] else [])) }
{
    if listed.contains(&list.uuid.number) {
        kept.push(list.try_clone(alloc)?)?;
    }
    Ok(())
}

fn listed_of(alloc: Global, lists: &[SnapList], listed: &[Id]) -> Result<SnapLists, AllocError>
    ensures { IfOk result (λ v. v ≡ listed_of listed.now lists.now) }
{
    let listed = set_of(alloc, listed)?;
    let mut kept = Seq::new(alloc);
    for list in lists {
        keep_list(alloc, &mut kept, &listed, list)?;
    }
    Ok(kept)
}

/// Marks for the files that some list has.
fn marks_of(
    alloc: Global,
    entries: &[FileEntry],
    lists: &[SnapList],
) -> Result<Vec<usize>, AllocError>
    requires { Rises entries.now }
    ensures { IfOk result (λ v. AreMarked (is_named lists.now) entries.now v.items) }
{
    let mut marks = vec![in alloc; 0; entries.len()]?;
    for list in lists {
        mark_files(entries, &mut marks, list.files.as_slice());
    }
    Ok(marks)
}

impl ShardIndex {
    /// The index with a snapshot added after the others, and with those of its files whose ids it
    /// doesn't have yet. An index that has the snapshot already stays as it is.
    pub fn with_snap(&self, alloc: Global, snap: &ShardSnap) -> Result<ShardIndex, AllocError>
        ensures { IfOk result (λ i. i ≡ with_snap_of self.now snap.now) }
    {
        if has_list(self.snapshots(), snap.uuid()) {
            return self.try_clone(alloc);
        }
        let files = with_files(alloc, self.files(), snap.files())?;
        let mut snapshots = Seq::from_vec(copies_of(alloc, self.snapshots())?);
        snapshots.push(list_of_snap(alloc, snap)?)?;
        Ok(ShardIndex {
            files: Seq::from_vec(files),
            snapshots,
        })
    }

    /// The index with the listed snapshots alone, and exactly the files that some of them has.
    pub fn survivors(&self, alloc: Global, listed: &Ids) -> Result<ShardIndex, AllocError>
        ensures { IfOk result (λ i. i ≡ survivors_of self.now listed.now) }
    {
        let snapshots = listed_of(alloc, self.snapshots(), listed.as_slice())?;
        let marks = marks_of(alloc, self.files(), snapshots.as_slice())?;
        let files = marked_copies(alloc, self.files(), marks.as_slice())?;
        Ok(ShardIndex { files, snapshots })
    }
}

impl TryClone for ShardIndex {
    fn try_clone(&self, alloc: Global) -> Result<ShardIndex, AllocError> {
        let files = self.files.try_clone(alloc)?;
        let snapshots = self.snapshots.try_clone(alloc)?;
        Ok(ShardIndex { files, snapshots })
    }
}
