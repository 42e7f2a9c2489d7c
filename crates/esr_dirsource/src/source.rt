//! Sources in folders.
ghost use Rattle.std.specs.Prelude.{◌≡◌, ◌<◌, None, Some, false, length, IfOk, IsSomeAnd};
ghost use Rattle.esr_source.specs.Files.{IsListing};
ghost use Rattle.esr_dirsource.specs.Paths.{source_folder, file_path};

use crate::faults::Faults;
use crate::folder::{list, open_plain, read_some};
use crate::paths::{path_in, source_folder};
use esr_depot::{CallError, Counted, Failed};
use esr_seq::{Text, TryClone};
use esr_source::{Address, Files as FileList, New, Shard, Sources};
use std::alloc::{AllocError, Global};
use std::io::{self, ErrorKind};
use std::rt::Files;

/// Sources in folders: the files of a shard are those of the folder `PLACE/S`, where `S` is its number.
#[derive(Drop)]
pub struct DirSources<'a, R> {
    rt: &'a R,
}

impl<'a, R> DirSources<'a, R> {
    /// Sources in the folders of `rt`, none of which is touched yet.
    pub fn new(rt: &'a R) -> DirSources<'a, R> {
        DirSources { rt }
    }
}

/// The files of one shard, as they are being read.
#[derive(Drop)]
pub struct DirShard<'a, R: Files> {
    rt: &'a R,
    address: Address,
    folder: Text,
    listed: Option<FileList>,
    started: Option<R::File>,
    faults: Faults,
    ghost in_place: { folder ≡ source_folder address.place address.number },
}

impl<'a, R: Files> Counted for DirShard<'a, R> {
    ghost faults = { λ s. s.faults.count };

    fn fault_count(&self) -> u64 {
        self.faults.count
    }
}

impl<'a, R: Files> DirShard<'a, R> {
    /// The files of its folder. An empty place has none, since its folder would lie in the root.
    fn files(&self, alloc: Global) -> io::Result<FileList>
        ensures { IfOk result IsListing }
    {
        if self.address.place.is_empty() {
            return Err(io::Error::from(ErrorKind::NotFound));
        }
        list(self.rt, alloc, self.folder.as_str())
    }

    /// The path of the file at that place of the last list, counted from 0.
    fn path_of(&self, alloc: Global, file: usize) -> Result<Text, AllocError>
        requires { IsSomeAnd self.now.listed (λ fs. file < length fs) }
        ensures { IfOk result (λ path. Some path ≡ file_path self.now.folder self.now.listed file) }
    {
        let Some(files) = &self.listed else {
            unreachable!()
        };
        path_in(
            alloc,
            self.folder.as_str(),
            files.as_slice()[file].name.as_str(),
        )
    }
}

impl<'a, R: Files> Shard for DirShard<'a, R>
where
    R: Sync + Drop,
    R::File: Send,
{
    ghost told = { λ s. record { address = s.address; files = None; is_there = None; is_sure = false; listed = s.listed; left = None } };

    fn list(&mut self, alloc: Global) -> Result<FileList, CallError> {
        let files = match self.files(alloc) {
            Ok(files) => files,
            Err(error) if error.kind() == ErrorKind::OutOfMemory => return Err(CallError::Memory),
            Err(_) => {
                self.faults.add();
                return Err(CallError::Failed);
            }
        };
        self.listed = Some(files.try_clone(alloc)?);
        Ok(files)
    }

    fn start(&mut self, alloc: Global, file: usize) -> Result<(), CallError> {
        let path = self.path_of(alloc, file)?;
        match open_plain(self.rt, path.as_str()) {
            Ok(started) => {
                self.started = Some(started);
                Ok(())
            }
            Err(_) => {
                self.faults.add();
                Err(CallError::Failed)
            }
        }
    }

    fn read(&mut self, buf: &mut [u8]) -> Result<usize, Failed> {
        let Some(started) = &mut self.started else {
            return Ok(0);
        };
        match read_some(started, buf) {
            Ok(count) => Ok(count),
            Err(_) => {
                self.faults.add();
                Err(Failed)
            }
        }
    }
}

impl<'a, R: Files> Sources for DirSources<'a, R>
where
    R: Sync + Drop,
    R::File: Send,
{
    type Shard = DirShard<'a, R>;

    ghost told = { λ _. record { files = λ _ _ _. None; is_there = λ _ _ _. None; is_quiet = false } };

    ghost may_be_listed = { λ _ _ _ _. tt };

    fn shard(&self, alloc: Global, place: &str, index: &str, number: u32) -> New<Self::Shard> {
        Ok(DirShard {
            rt: self.rt,
            address: Address::new(alloc, place, index, number)?,
            folder: source_folder(alloc, place, number)?,
            listed: None,
            started: None,
            faults: Faults::new(),
        })
    }
}
