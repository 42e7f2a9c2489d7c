//! Where the files of a list are looked for first.
ghost use Rattle.std.specs.Prelude.{◌≡◌, Some, IfSome};
ghost use Rattle.esr_shardidx.specs.Entries.{file_text, read_file};

use crate::FileEntry;
use crate::writing::file_name;
use esr_names::Id;
use std::alloc::{AllocError, Global};

/// A file of an index: its id and its name.
#[derive(Drop)]
struct Known {
    id: Id,
    name: [u8; 24],
    ghost named: { name ≡ file_text id },
}

/// For each file of an index, the place of the one that came next in the last list that had it. A list
/// mostly has files in the order of the one before it.
#[derive(Drop)]
pub struct Trail {
    after: Vec<usize>,
    /// The files by id, or none while their names aren't known.
    files: Vec<Known>,
}

impl Known {
    /// The number of its id.
    fn number(&self) -> u128
        ensures { result ≡ self.now.id.number }
    {
        self.id.number
    }

    /// The id, if the file has this name.
    fn id_of(&self, name: &[u8]) -> Option<Id>
        ensures { IfSome result (λ id. read_file name.now ≡ Some id) }
    {
        let number = self.number();
        if self.name.as_slice() == name {
            Some(Id { number })
        } else {
            None
        }
    }
}

impl Trail {
    /// The trail from each of so many files to the next one, whose names aren't known.
    pub fn straight(alloc: Global, len: usize) -> Result<Trail, AllocError> {
        let mut after = Vec::with_capacity(alloc, len)?;
        for place in 0..len {
            after.push(place + 1)?;
        }
        Ok(Trail {
            after,
            files: Vec::new(alloc),
        })
    }

    /// Makes the names of the files known.
    pub fn learn(&mut self, alloc: Global, entries: &[FileEntry]) -> Result<(), AllocError> {
        let mut files = Vec::with_capacity(alloc, entries.len())?;
        for entry in entries {
            files.push(Known {
                id: entry.name,
                name: file_name(entry.name),
            })?;
        }
        self.files = files;
        Ok(())
    }

    /// The place that comes after this one, or the first.
    pub fn next(&self, last: Option<usize>) -> usize {
        match last {
            Some(last) if last < self.after.len() => self.after[last],
            _ => 0,
        }
    }

    /// The id of the file of this name, if it is known and comes after the one at this place.
    pub fn id_after(&self, last: Option<usize>, name: &[u8]) -> Option<Id>
        ensures { IfSome result (λ id. read_file name.now ≡ Some id) }
    {
        let next = self.next(last);
        if next < self.files.len() {
            self.files[next].id_of(name)
        } else {
            None
        }
    }

    /// The place after this one, if the known file with this id is there, or else the one where such a file stands.
    pub fn place_after(&self, last: Option<usize>, id: Id) -> usize {
        let next = self.next(last);
        if next < self.files.len() && self.files[next].id.number == id.number {
            return next;
        }
        self.files
            .as_slice()
            .partition_point(|file| file.id.number < id.number)
    }

    /// A list has the file at this place after the one at the last.
    pub fn step(&mut self, last: Option<usize>, place: usize) {
        if let Some(last) = last
            && last < self.after.len()
        {
            self.after[last] = place;
        }
    }
}
