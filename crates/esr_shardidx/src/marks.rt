//! Which files of an index its lists have.
ghost use Rattle.std.specs.Prelude.{◌≡◌, ◌<◌, ◌≤◌, ◌+◌, ◌==◌, ◌||◌, ◌++◌, ◌∷◌, [], ℕ, Bool, List, true, false, length, not, if◌then◌else◌, slice_get, replicate, IfSome, IfNone, IfOk, OnOk, Err};
ghost use Rattle.std.specs.Ordering.{nat_cmp};
ghost use Rattle.std.specs.BTreeSet.{contains};
ghost use Rattle.std.specs.List.{list_any, list_all};
ghost use Rattle.esr_names.specs.declared.ids.Id.{Id as AnId};
ghost use Rattle.esr_json.specs.Steps.{Gives, Fails};
ghost use Rattle.esr_json.specs.declared.refusal.Reason.TheVariants as reasons;
ghost use Rattle.esr_shardidx.specs.declared.entry.FileEntry.{FileEntry as Entry};
ghost use Rattle.esr_shardidx.specs.Indices.{repeats, has_file, Rises, place_of, is_at, checked};
ghost use Rattle.esr_shardidx.specs.Marks.{AreMarked, marked_of, is_among, AreMarks, files_checked, IsNamed};

use crate::trail::Trail;
use crate::{FileEntries, FileEntry, SnapList};
use esr_json::{ReadRefusal, Reason};
use esr_names::Id;
use esr_seq::{Seq, TryClone};
use std::alloc::{AllocError, Global};
use std::collections::BTreeSet;

/// The snapshots of the lists so far, and a mark for each file of the index.
#[derive(Drop)]
pub struct Named {
    pub uuids: BTreeSet<u128>,
    pub marks: Vec<usize>,
}

/// The ids, each once.
pub fn set_of(alloc: Global, ids: &[Id]) -> Result<BTreeSet<u128>, AllocError>
    ensures { IfOk result (λ s. (q : ℕ) → contains nat_cmp s q ≡ list_any (λ v. v.number == q) ids.now) }
{
    let mut set = BTreeSet::new(alloc);
    for id in ids {
        set.insert(id.number)?;
    }
    Ok(set)
}

/// Whether an id stands twice.
fn repeats(alloc: Global, ids: &[Id]) -> Result<bool, AllocError>
    ensures { IfOk result (λ b. b ≡ repeats ids.now) }
{
    let mut before = BTreeSet::new(alloc);
    for id in ids {
        if !before.insert(id.number)? {
            return Ok(true);
        }
    }
    Ok(false)
}

/// The place of the first entry with this id or one above it.
pub fn place_of(entries: &[FileEntry], name: Id) -> usize
    requires { Rises entries.now }
    ensures place { result ≡ place_of name entries.now }
    ensures within { result ≤ length entries.now }
{
    entries.partition_point(|entry| entry.name.number < name.number)
}

/// Whether the entry at a place has this id.
pub fn is_at(entries: &[FileEntry], place: usize, name: Id) -> bool
    ensures test { result ≡ is_at name (slice_get entries.now place) }
    ensures within { result ≡ true → place < length entries.now }
{
    match entries.get(place) {
        Some(entry) => entry.name.number == name.number,
        None => false,
    }
}

/// The place of the entry with this id, which is looked for at `near` first.
pub fn find_place(entries: &[FileEntry], near: usize, name: Id) -> Option<usize>
    requires { Rises entries.now }
    ensures found { IfSome result (λ i. is_at name (slice_get entries.now i) ≡ true) }
    ensures within { IfSome result (λ i. i < length entries.now) }
    ensures absent { IfNone result (has_file entries.now name ≡ false) }
{
    if is_at(entries, near, name) {
        return Some(near);
    }
    let place = place_of(entries, name);
    if is_at(entries, place, name) {
        Some(place)
    } else {
        None
    }
}

/// Whether one of the entries has this id.
pub fn is_there(entries: &[FileEntry], name: Id) -> bool
    requires { Rises entries.now }
    ensures { result ≡ has_file entries.now name }
{
    find_place(entries, entries.len(), name).is_some()
}

/// Why a list that has a file that isn't there is refused.
fn absent(alloc: Global, names: &[Id]) -> ReadRefusal
    ensures { Fails {B = AnId} result (if repeats names.now then Err reasons.Duplicate else Err reasons.Unlisted) }
{
    match repeats(alloc, names) {
        Ok(true) => ReadRefusal::Damaged {
            why: Reason::Duplicate,
        },
        Ok(false) => ReadRefusal::Damaged {
            why: Reason::Unlisted,
        },
        Err(_) => ReadRefusal::Memory,
    }
}

/// Marks the files of the list that comes next. Refuses a file that stands twice, and one that isn't
/// there.
fn mark_list(
    alloc: Global,
    entries: &[FileEntry],
    before: &[SnapList],
    marks: &mut Vec<usize>,
    trail: &mut Trail,
    names: &[Id],
) -> Result<(), ReadRefusal>
    requires rises { Rises entries.now }
    requires marks { AreMarks entries.now before.now [] (length before.now + 1) marks.old.items }
    ensures gives { Gives (λ _. names.now) result (files_checked entries.now names.now) }
    ensures marks { OnOk result (AreMarks entries.now before.now names.now (length before.now + 1) marks.new.items) }
{
    let turn = before.len() + 1;
    let mut last = None;
    for name in names {
        let near = trail.next(last);
        let Some(place) = find_place(entries, near, *name) else {
            return Err(absent(alloc, names));
        };
        if marks[place] == turn {
            return Err(ReadRefusal::Damaged {
                why: Reason::Duplicate,
            });
        }
        marks[place] = turn;
        trail.step(last, place);
        last = Some(place);
    }
    Ok(())
}

/// Marks the files that have these ids.
pub fn mark_files(entries: &[FileEntry], marks: &mut Vec<usize>, names: &[Id])
    requires rises { Rises entries.now }
    requires len { length marks.old.items ≡ length entries.now }
    ensures { (p : Entry → Bool) → AreMarked p entries.now marks.old.items
        → AreMarked (λ e. p e || is_among names.now e) entries.now marks.new.items }
{
    let mut near = 0;
    for name in names {
        let Some(place) = find_place(entries, near, *name) else {
            continue;
        };
        marks[place] = 1;
        near = place + 1;
    }
}

impl Named {
    /// No lists yet, of an index with so many files.
    pub fn new(alloc: Global, len: usize) -> Result<Named, AllocError>
        ensures { IfOk result (λ n. (files : List Entry) → length files ≡ len → IsNamed files [] n) }
    {
        Ok(Named {
            uuids: BTreeSet::new(alloc),
            marks: vec![in alloc; 0; len]?,
        })
    }

    /// Refuses a second list of a snapshot, a file that stands twice, and one that isn't there.
    pub fn checked(
        &mut self,
        alloc: Global,
        entries: &[FileEntry],
        trail: &mut Trail,
        before: &[SnapList],
        list: SnapList,
    ) -> Result<SnapList, ReadRefusal>
        requires rises { Rises entries.now }
        requires named { IsNamed entries.now before.now self.old }
        ensures gives { Gives (λ l. l) result (checked entries.now before.now list) }
        ensures named { IfOk result (λ l. IsNamed entries.now (before.now ++ l ∷ []) self.new) }
    {
        if !self.uuids.insert(list.uuid.number)? {
            return Err(ReadRefusal::Damaged {
                why: Reason::Duplicate,
            });
        }
        mark_list(
            alloc,
            entries,
            before,
            &mut self.marks,
            trail,
            list.files.as_slice(),
        )?;
        Ok(list)
    }
}

/// Copies of the entries with a mark.
pub fn marked_copies(
    alloc: Global,
    entries: &[FileEntry],
    marks: &[usize],
) -> Result<FileEntries, AllocError>
    requires { length marks.now ≡ length entries.now }
    ensures { IfOk result (λ v. v ≡ marked_of entries.now marks.now) }
{
    let mut copies = Seq::new(alloc);
    for (place, entry) in entries.iter().enumerate() {
        if marks[place] != 0 {
            copies.push(entry.try_clone(alloc)?)?;
        }
    }
    Ok(copies)
}

/// Whether no mark is 0.
fn all_marked(marks: &[usize]) -> bool
    ensures { result ≡ list_all (λ m. not (m == 0)) marks.now }
{
    marks.iter().all(|mark| *mark != 0)
}

/// The entries with a mark.
pub fn marked(
    alloc: Global,
    entries: FileEntries,
    marks: &[usize],
) -> Result<FileEntries, AllocError>
    requires { length marks.now ≡ length entries }
    ensures { IfOk result (λ v. v ≡ marked_of entries marks.now) }
{
    if all_marked(marks) {
        return Ok(entries);
    }
    marked_copies(alloc, entries.as_slice(), marks)
}
