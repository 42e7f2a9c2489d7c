//! The calls of a container, on its folder.
ghost use Rattle.std.specs.Prelude.{◌≡◌, map, option_copied, IfOk};
ghost use Rattle.esr_depot.specs.Listing.{size_of, IsPage};

use crate::entries::{
    clear_way, has_file, make_folder, make_way, open_file, parent_of, remove_file, remove_files_in,
    sync_folder,
};
use crate::hold::{Hold, open_lock, take_lock};
use crate::name::is_inside;
use crate::paths::Paths;
use crate::stage::StageFile;
use crate::walk::first_below;
use esr_depot::{Commit, Pages, page_of};
use esr_seq::{Bytes, Text};
use std::alloc::{AllocError, Global};
use std::fs::{self, File};
use std::io::{self, ErrorKind, Read, Write};
use std::rt::Files;

/// A folder that holds a container.
#[derive(Drop)]
pub struct Folder<'a, R> {
    files: &'a R,
    paths: Paths,
    hold: Hold,
    /// The folders inside are made.
    is_whole: bool,
    /// No stage of an earlier run is left.
    is_cleared: bool,
    /// The number of the next stage.
    next_stage: u64,
}

impl<'a, R: Files<File = File> + Eprint> Folder<'a, R> {
    pub fn new(files: &'a R, alloc: Global, dir: &str) -> Result<Folder<'a, R>, AllocError> {
        Ok(Folder {
            files,
            paths: Paths::new(alloc, dir)?,
            hold: Hold::Unseen,
            is_whole: false,
            is_cleared: false,
            next_stage: 0,
        })
    }

    /// Tells whether the folder is there. Where it is, it is this container's, or the call fails.
    fn find(&mut self) -> io::Result<bool> {
        match &self.hold {
            Hold::Held(_) => Ok(true),
            Hold::Refused => Err(ErrorKind::ResourceBusy.into()),
            Hold::Unseen => self.find_first(),
            Hold::Absent => self.find_again(),
            Hold::Made => self.settle(),
        }
    }

    fn find_first(&mut self) -> io::Result<bool> {
        let file = match open_lock(self.files, self.paths.lock.as_str()) {
            Ok(file) => file,
            Err(error) if error.kind() == ErrorKind::NotFound => {
                self.hold = Hold::Absent;
                return Ok(false);
            }
            Err(error) => return Err(error),
        };
        if !take_lock(&file)? {
            return Err(self.refuse());
        }
        self.hold = Hold::Held(file);
        Ok(true)
    }

    /// What was answered of an absent folder may not hold of one that another process has made.
    fn find_again(&mut self) -> io::Result<bool> {
        if fs::exists(self.files, self.paths.dir.as_str())? {
            return Err(self.refuse());
        }
        Ok(false)
    }

    /// Takes the lock of the folder that this container made, unless another process was faster to use it.
    fn settle(&mut self) -> io::Result<bool> {
        sync_folder(self.files, parent_of(self.paths.dir.as_str()))?;
        let file = open_lock(self.files, self.paths.lock.as_str())?;
        if !take_lock(&file)? || !self.is_bare()? {
            return Err(self.refuse());
        }
        self.hold = Hold::Held(file);
        Ok(true)
    }

    fn is_bare(&self) -> io::Result<bool> {
        Ok(
            !fs::exists(self.files, self.paths.blobs.as_str())?
                && !fs::exists(self.files, self.paths.stages.as_str())?
                && !fs::exists(self.files, self.paths.record.as_str())?,
        )
    }

    /// Gives the folder up for good, and says so.
    fn refuse(&mut self) -> io::Error {
        let dir = self.paths.dir.as_str();
        let _ = eprintln!(self.files; "esrepo: another process uses the repository {dir}");
        self.hold = Hold::Refused;
        ErrorKind::ResourceBusy.into()
    }

    /// Makes the folder where it is absent, and those inside.
    fn make(&mut self) -> io::Result<()> {
        if !self.find()? {
            self.make_dir()?;
        }
        if !self.is_whole {
            make_folder(self.files, self.paths.blobs.as_str())?;
            make_folder(self.files, self.paths.stages.as_str())?;
            self.is_whole = true;
        }
        Ok(())
    }

    fn make_dir(&mut self) -> io::Result<()> {
        let dir = self.paths.dir.as_str();
        make_way(self.files, dir, 1)?;
        match fs::create_dir(self.files, dir) {
            Ok(()) => {}
            Err(error) if error.kind() == ErrorKind::AlreadyExists => return Err(self.refuse()),
            Err(error) => return Err(error),
        }
        self.hold = Hold::Made;
        self.settle()?;
        Ok(())
    }

    /// Removes what earlier runs left among the stages.
    fn clear_stages(&mut self, alloc: Global) -> io::Result<()> {
        if self.is_cleared {
            return Ok(());
        }
        remove_files_in(&(self.files, alloc), self.paths.stages.as_str())?;
        self.is_cleared = true;
        Ok(())
    }

    /// A new file for a blob of that name.
    pub fn open_stage(&mut self, alloc: Global, name: &str) -> io::Result<StageFile> {
        self.paths.aim(name)?;
        self.make()?;
        self.clear_stages(alloc)?;
        let stages = self.paths.stages.as_str();
        let number = self.next_stage;
        let path = Text::from_string(format!(in alloc; "{stages}/{number}")?);
        let file = File::create_new(self.files, path.as_str())?;
        self.next_stage = number.saturating_add(1);
        Ok(StageFile {
            path,
            file,
            is_broken: false,
            is_synced: false,
        })
    }

    /// Syncs a stage, and makes the folders on the way to the blob of that name.
    fn prepare(&mut self, stage: &StageFile, name: &str) -> io::Result<()> {
        self.paths.aim(name)?;
        if !self.find()? {
            return Err(ErrorKind::NotFound.into());
        }
        stage.sync()?;
        let start = self.paths.blobs.len().saturating_add(1);
        make_way(self.files, self.paths.aimed.as_str(), start)
    }

    /// Gives a stage's file that name, unless a blob has it.
    pub fn commit(&mut self, stage: &StageFile, name: &str) -> io::Result<Commit> {
        self.prepare(stage, name)?;
        let (from, to) = (stage.path.as_str(), self.paths.aimed.as_str());
        let answer = match fs::hard_link(self.files, from, to) {
            Ok(()) => Commit::Done,
            Err(error) if error.kind() == ErrorKind::AlreadyExists && has_file(self.files, to)? => {
                Commit::Exists
            }
            Err(error) => return Err(error),
        };
        fs::remove_file(self.files, from)?;
        sync_folder(self.files, parent_of(to))?;
        Ok(answer)
    }

    /// Gives a stage's file that name, in place of the blob that has it.
    pub fn replace(&mut self, stage: &StageFile, name: &str) -> io::Result<()> {
        self.prepare(stage, name)?;
        let to = self.paths.aimed.as_str();
        fs::rename(self.files, stage.path.as_str(), to)?;
        sync_folder(self.files, parent_of(to))
    }

    /// The file of the blob of that name, or `None` where there is none.
    pub fn open_blob(&mut self, name: &str) -> io::Result<Option<File>> {
        self.paths.aim(name)?;
        if !self.find()? {
            return Ok(None);
        }
        open_file(self.files, self.paths.aimed.as_str())
    }

    /// A page of the blobs.
    pub fn list(&mut self, alloc: Global, after: Option<&str>) -> io::Result<Pages>
        ensures page { IfOk result (λ p. IsPage (option_copied after.entry) (map size_of p.page)) }
        ensures copy { IfOk result (λ p. p.copy ≡ p.page) }
    {
        if !self.find()? || !fs::exists(self.files, self.paths.blobs.as_str())? {
            return Ok(Pages::new(alloc));
        }
        let lengths = first_below(self.files, alloc, self.paths.blobs.as_str(), after)?;
        Ok(page_of(alloc, after, lengths)?)
    }

    /// Removes those of the blobs that are there. It takes no memory.
    pub fn remove(&mut self, names: &[Text]) -> io::Result<()> {
        if !names.iter().all(|name| is_inside(name.as_str())) {
            return Err(ErrorKind::InvalidInput.into());
        }
        if !self.find()? {
            return Ok(());
        }
        for name in names {
            self.paths.aim(name.as_str())?;
            remove_file(self.files, self.paths.aimed.as_str())?;
        }
        self.sync_folders_of(names)?;
        self.clear_folders_of(names)
    }

    /// Removes the folders of these blobs that are empty now, once for neighbours in one folder. A power cut may bring one back, as
    /// an empty folder.
    fn clear_folders_of(&mut self, names: &[Text]) -> io::Result<()> {
        let start = self.paths.blobs.len().saturating_add(1);
        let mut cleared = None;
        for name in names {
            let folder = parent_of(name.as_str());
            if cleared != Some(folder) {
                self.paths.aim(name.as_str())?;
                clear_way(self.files, self.paths.aimed.as_str(), start);
                cleared = Some(folder);
            }
        }
        Ok(())
    }

    /// Syncs the folders of these blobs, once for neighbours in one folder.
    fn sync_folders_of(&mut self, names: &[Text]) -> io::Result<()> {
        let mut synced = None;
        for name in names {
            let folder = parent_of(name.as_str());
            if synced != Some(folder) {
                self.paths.aim(name.as_str())?;
                sync_if_there(self.files, parent_of(self.paths.aimed.as_str()))?;
                synced = Some(folder);
            }
        }
        Ok(())
    }

    /// The text of the record, or `None` where there is none.
    pub fn read_record(&mut self, alloc: Global) -> io::Result<Option<Bytes>> {
        if !self.find()? {
            return Ok(None);
        }
        let Some(mut file) = open_file(self.files, self.paths.record.as_str())? else {
            return Ok(None);
        };
        let mut text = Vec::new(alloc);
        file.read_to_end(&mut text)?;
        Ok(Some(Bytes::from_vec(text)))
    }

    /// Puts a text in place of the record's. The stages of an earlier run go first: they may be what fills the disk.
    pub fn swap_record(&mut self, alloc: Global, text: &[u8]) -> io::Result<()> {
        self.make()?;
        self.clear_stages(alloc)?;
        let (files, paths) = (self.files, &self.paths);
        let next = paths.next_record.as_str();
        let mut file = File::create(files, next)?;
        file.write_all(text)?;
        file.sync_all()?;
        fs::rename(files, next, paths.record.as_str())?;
        sync_folder(files, paths.dir.as_str())
    }
}

/// Puts a folder's entries on the disk, if it is there.
fn sync_if_there<R: Files<File = File>>(files: &R, path: &str) -> io::Result<()> {
    match sync_folder(files, path) {
        Err(error) if error.kind() == ErrorKind::NotFound => Ok(()),
        done => done,
    }
}
