//! A walk over the folder of blobs, in the byte order of names.
use esr_depot::{PAGE, is_after};
use esr_seq::Text;
use std::alloc::Global;
use std::collections::{BTreeMap, BTreeSet};
use std::fs::{self, File, Metadata};
use std::io::{self, ErrorKind};
use std::rt::Files;

/// What a name that waits stands for.
#[derive(Drop)]
enum Waiting {
    /// The entry of that name, a file or a folder.
    Entry,
    /// The entries of its folder from that name on.
    Rest,
}

/// The files of a page that a walk found, and what it is to look at, by names from the top on.
#[derive(Drop)]
struct Walk<'a> {
    after: Option<&'a str>,
    lengths: BTreeMap<Text, u64>,
    waiting: BTreeMap<Text, Waiting>,
}

/// The lengths of the files below a folder by their names from there on: of those after this name, or of all, the first ones
/// that a page takes. No other file is looked at, and no folder of which no name can be of the page.
pub fn first_below<R: Files<File = File>>(
    files: &R,
    alloc: Global,
    top: &str,
    after: Option<&str>,
) -> io::Result<BTreeMap<Text, u64>> {
    let mut walk = Walk {
        after,
        lengths: BTreeMap::new(alloc),
        waiting: BTreeMap::new(alloc),
    };
    walk.fill(files, alloc, top)?;
    Ok(walk.lengths)
}

/// What stands at that name.
fn found_at<R: Files>(files: &R, alloc: Global, top: &str, entry: &str) -> io::Result<Metadata> {
    let path = format!(in alloc; "{top}/{entry}")?;
    fs::symlink_metadata(files, path.as_str())
}

/// The folder that has an entry of that name, with a slash at its end, or nothing for the top.
fn folder_of(name: &str) -> &str {
    match name.rsplit_once('/') {
        Some((folder, _)) => name.get(..folder.len().saturating_add(1)).unwrap_or(name),
        None => "",
    }
}

impl Walk<'_> {
    /// What comes next in the order of names, unless the page is full.
    fn next(&mut self) -> Option<(Text, Waiting)> {
        if self.lengths.len() < PAGE {
            self.waiting.pop_first()
        } else {
            None
        }
    }

    /// Walks until the page is full, or nothing waits.
    fn fill<R: Files<File = File>>(
        &mut self,
        files: &R,
        alloc: Global,
        top: &str,
    ) -> io::Result<()> {
        self.look_into(files, alloc, top, "")?;
        for _ in 0..u64::MAX {
            let Some((name, waiting)) = self.next() else {
                return Ok(());
            };
            self.look(files, alloc, top, name, waiting)?;
        }
        Err(ErrorKind::InvalidData.into())
    }

    /// Looks at an entry, or into its folder from it on.
    fn look<R: Files<File = File>>(
        &mut self,
        files: &R,
        alloc: Global,
        top: &str,
        name: Text,
        waiting: Waiting,
    ) -> io::Result<()> {
        match waiting {
            Waiting::Entry => self.look_at(files, alloc, top, name),
            Waiting::Rest => self.look_into(files, alloc, top, name.as_str()),
        }
    }

    /// Lets the entries wait that stand from this name on in its folder.
    fn look_into<R: Files<File = File>>(
        &mut self,
        files: &R,
        alloc: Global,
        top: &str,
        from: &str,
    ) -> io::Result<()> {
        let mut entries = BTreeSet::new(alloc);
        self.read(files, alloc, top, from, &mut entries)?;
        self.let_wait(entries)
    }

    /// Reads the folder of this name.
    fn read<R: Files<File = File>>(
        &self,
        files: &R,
        alloc: Global,
        top: &str,
        from: &str,
        entries: &mut BTreeSet<Text>,
    ) -> io::Result<()> {
        let folder = folder_of(from);
        let path = format!(in alloc; "{top}/{folder}")?;
        self.read_at(&(files, alloc), path.as_str(), from, entries)
    }

    /// Adds the entries of the folder at a path that stand from this name on, as many as a page takes and the next one. At a
    /// type that isn't known its loop is proved far sooner than at a pair.
    fn read_at<R: Files + AllocGlobal + Clone + Drop>(
        &self,
        files: &R,
        path: &str,
        from: &str,
        entries: &mut BTreeSet<Text>,
    ) -> io::Result<()> {
        let alloc = files.alloc();
        for entry in fs::read_dir(files, path)? {
            let entry = entry?;
            self.add(alloc, from, entry.file_name(), entries)?;
        }
        Ok(())
    }

    /// Adds an entry that stands from this name on, and takes the last one away where they are more than a page and one.
    fn add(
        &self,
        alloc: Global,
        from: &str,
        entry: &str,
        entries: &mut BTreeSet<Text>,
    ) -> io::Result<()> {
        let folder = folder_of(from);
        let name = Text::from_string(format!(in alloc; "{folder}{entry}")?);
        if from <= name.as_str() && self.may_have(name.as_str()) {
            entries.insert(name)?;
            if entries.len() > PAGE + 1 {
                entries.pop_last();
            }
        }
        Ok(())
    }

    /// Lets as many entries wait as a page takes, and from where on the others stand.
    fn let_wait(&mut self, entries: BTreeSet<Text>) -> io::Result<()> {
        let mut entries = entries;
        if entries.len() > PAGE
            && let Some(rest) = entries.pop_last()
        {
            self.waiting.insert(rest, Waiting::Rest)?;
        }
        for name in entries {
            self.waiting.insert(name, Waiting::Entry)?;
        }
        Ok(())
    }

    /// Keeps a file, and lets a folder's entries wait.
    fn look_at<R: Files<File = File>>(
        &mut self,
        files: &R,
        alloc: Global,
        top: &str,
        name: Text,
    ) -> io::Result<()> {
        let found = found_at(files, alloc, top, name.as_str())?;
        if found.is_file() {
            self.keep(name, found.len())
        } else if found.is_dir() {
            self.enter(alloc, name.as_str())
        } else {
            Err(ErrorKind::InvalidData.into())
        }
    }

    /// Keeps a file that comes after the page's beginning.
    fn keep(&mut self, name: Text, length: u64) -> io::Result<()> {
        if is_after(self.after, name.as_str()) {
            self.lengths.insert(name, length)?;
        }
        Ok(())
    }

    /// Lets the entries of a folder wait of which a name may be of the page.
    fn enter(&mut self, alloc: Global, folder: &str) -> io::Result<()> {
        let inside = Text::from_string(format!(in alloc; "{folder}/")?);
        if self.may_have(inside.as_str()) {
            self.waiting.insert(inside, Waiting::Rest)?;
        }
        Ok(())
    }

    /// Whether a name that begins so may come after the page's beginning.
    fn may_have(&self, start: &str) -> bool {
        match self.after {
            None => true,
            Some(after) => after < start || after.starts_with(start),
        }
    }
}
