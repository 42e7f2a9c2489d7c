//! How far the files of a shard are.
use esr_seq::Text;
use esr_source::ListedFile;
use std::alloc::{AllocError, Global};

/// What is done to files.
#[derive(Clone, Copy)]
pub(crate) enum Work {
    /// They are read a first time, for their prints.
    Read,
    /// They are read again, to be stored.
    Store,
    /// They are written.
    Restore,
}

/// How far the files of a shard are.
#[derive(Drop)]
pub(crate) struct Way {
    pub work: Work,
    pub index: Text,
    pub shard: u32,
    /// Of each listed file how many bytes stand before it, and at last how many there are. It is empty where that isn't known.
    starts: Vec<u64>,
    /// How many files were begun.
    pub files: u64,
    /// How many bytes were passed, those of skipped files among them.
    pub bytes: u64,
}

impl Way {
    pub fn new(alloc: Global, work: Work, index: &str, shard: u32) -> Result<Way, AllocError> {
        Ok(Way {
            work,
            index: Text::from_str(alloc, index)?,
            shard,
            starts: Vec::new(alloc),
            files: 0,
            bytes: 0,
        })
    }

    /// The files were listed, and none of them was begun yet.
    pub fn list(&mut self, files: &[ListedFile]) {
        self.work = Work::Read;
        self.files = 0;
        self.bytes = 0;
        if self.note(files).is_err() {
            self.starts.clear();
        }
    }

    /// Notes where each file begins.
    fn note(&mut self, files: &[ListedFile]) -> Result<(), AllocError> {
        self.starts.clear();
        let mut end = 0u64;
        self.starts.push(end)?;
        for file in files {
            end = end.saturating_add(file.length);
            self.starts.push(end)?;
        }
        Ok(())
    }

    /// The file at that place of the list is begun. One that was begun before is read to be stored.
    pub fn start(&mut self, file: usize) {
        if (file as u64) < self.files {
            self.work = Work::Store;
        }
        self.files = (file as u64).saturating_add(1);
        self.bytes = match self.starts.get(file) {
            Some(start) => *start,
            None => self.bytes,
        };
    }

    /// One more file is begun.
    pub fn create(&mut self) {
        self.files = self.files.saturating_add(1);
    }

    /// So many bytes of the file were passed.
    pub fn pass(&mut self, count: u64) {
        self.bytes = self.bytes.saturating_add(count);
    }

    /// How many files there are, and how many bytes they have, where that is known.
    pub fn whole(&self) -> Option<(u64, u64)> {
        let bytes = self.starts.last()?;
        Some(((self.starts.len() as u64).saturating_sub(1), *bytes))
    }

    /// All files were passed.
    pub fn is_end(&self) -> bool {
        self.whole() == Some((self.files, self.bytes))
    }
}
