//! Targets in folders.
ghost use Rattle.std.specs.Prelude.{◌≡◌, None, true, false, option_map, IfOk, IsTrue};
ghost use Rattle.std.specs.Option.{ForSome};
ghost use Rattle.std.specs.Fs.{asks_write, asks_create_new};
ghost use Rattle.esr_dirsource.specs.Paths.{target_folder, path_in, is_folder_name};

use crate::begun::BegunFile;
use crate::faults::Faults;
use crate::folder;
use crate::paths::{Folders, file_name, is_folder_name, path_in};
use esr_depot::{CallError, Counted, Failed};
use esr_seq::Text;
use esr_source::{Address, New, Target, Targets};
use std::alloc::Global;
use std::fs::OpenOptions;
use std::io::{self, ErrorKind};
use std::rt::Files;

/// Targets in folders: the files of a shard are written to the folder `PLACE/INDEX/S`, where `S` is its number.
#[derive(Drop)]
pub struct DirTargets<'a, R> {
    rt: &'a R,
}

impl<'a, R> DirTargets<'a, R> {
    /// Targets in the folders of `rt`, none of which is touched yet.
    pub fn new(rt: &'a R) -> DirTargets<'a, R> {
        DirTargets { rt }
    }
}

/// The files of one shard, as they are being written.
#[derive(Drop)]
pub struct DirTarget<'a, R: Files> {
    rt: &'a R,
    address: Address,
    folders: Folders,
    is_made: bool,
    begun: Option<BegunFile<R::File>>,
    faults: Faults,
    ghost in_place: { folders.shard ≡ target_folder address.place address.index address.number },
    ghost inside: { ForSome begun (λ _. is_folder_name address.index ≡ true) },
}

impl<'a, R: Files> DirTarget<'a, R> {
    /// Makes the folder of the shard and those on the way to it where they are absent, so that their names outlast a power
    /// cut.
    fn make_folders(&self) -> io::Result<()> {
        let place = self.address.place.as_str();
        let index = self.folders.index.as_str();
        folder::make_with_way(self.rt, place)?;
        folder::make_in(self.rt, place, index)?;
        folder::make_in(self.rt, index, self.folders.shard.as_str())
    }

    /// Makes the folder of the shard, if it wasn't made yet.
    fn prepare(&mut self) -> io::Result<()>
        ensures address { self.new.address ≡ self.old.address }
        ensures begun { self.new.begun ≡ self.old.begun }
        ensures faults { self.new.faults ≡ self.old.faults }
    {
        if !self.is_made {
            self.make_folders()?;
            self.is_made = true;
        }
        Ok(())
    }

    /// Whether the names of the address keep its folder in the place.
    fn is_inside(&self) -> bool
        ensures { IsTrue result → is_folder_name self.now.address.index ≡ true }
    {
        !self.address.place.is_empty() && is_folder_name(self.address.index.as_str())
    }

    /// Makes the file of that name, whose path has none yet.
    fn begin(&mut self, name: Text, path: &str, room: u64) -> io::Result<BegunFile<R::File>>
        requires { path.now ≡ path_in self.old.folders.shard name }
        ensures index { IfOk result (λ _. is_folder_name self.old.address.index ≡ true) }
        ensures name { IfOk result (λ b. b.name ≡ name) }
        ensures room { IfOk result (λ b. b.room ≡ room) }
        ensures address { self.new.address ≡ self.old.address }
        ensures begun { self.new.begun ≡ self.old.begun }
        ensures faults { self.new.faults ≡ self.old.faults }
    {
        if !self.is_inside() {
            return Err(io::Error::from(ErrorKind::InvalidFilename));
        }
        let Some(name) = file_name(name) else {
            return Err(io::Error::from(ErrorKind::InvalidFilename));
        };
        self.prepare()?;
        let file = new_file().open(self.rt, path)?;
        Ok(BegunFile::new(file, name, room))
    }
}

/// How a file is made: to be written, and only where its path has nothing yet.
fn new_file() -> OpenOptions
    ensures write { asks_write result ≡ true }
    ensures new { asks_create_new result ≡ true }
{
    let mut options = OpenOptions::new();
    options.write(true).create_new(true);
    options
}

impl<'a, R: Files> Counted for DirTarget<'a, R> {
    ghost faults = { λ t. t.faults.count };

    fn fault_count(&self) -> u64 {
        self.faults.count
    }
}

impl<'a, R: Files> Target for DirTarget<'a, R>
where
    R: Sync + Drop,
    R::File: Send,
{
    ghost told = { λ t. record {
      made_for = t.address;
      files = None;
      begun = option_map (λ b. record { name = b.name; bytes = None; room = b.room }) t.begun;
      is_sure = false;
    } };

    fn create(&mut self, alloc: Global, name: &str, room: u64) -> Result<(), CallError> {
        let name = Text::from_str(alloc, name)?;
        let path = path_in(alloc, self.folders.shard.as_str(), name.as_str())?;
        match self.begin(name, path.as_str(), room) {
            Ok(begun) => {
                self.begun = Some(begun);
                Ok(())
            }
            Err(_) => {
                self.faults.add();
                Err(CallError::Failed)
            }
        }
    }

    fn write(&mut self, bytes: &[u8]) -> Result<(), Failed> {
        let Some(begun) = &mut self.begun else {
            unreachable!()
        };
        match begun.append(bytes) {
            Ok(()) => Ok(()),
            Err(_) => {
                self.faults.add();
                Err(Failed)
            }
        }
    }

    fn end(&mut self) -> Result<(), Failed> {
        let Some(begun) = &mut self.begun else {
            unreachable!()
        };
        match begun.finish(self.rt, self.folders.shard.as_str()) {
            Ok(()) => {
                self.begun = None;
                Ok(())
            }
            Err(_) => {
                self.faults.add();
                Err(Failed)
            }
        }
    }
}

impl<'a, R: Files> Targets for DirTargets<'a, R>
where
    R: Sync + Drop,
    R::File: Send,
{
    type Target = DirTarget<'a, R>;

    ghost told = { λ _. record { tells = false; is_quiet = false } };

    fn target(&self, alloc: Global, place: &str, index: &str, number: u32) -> New<Self::Target> {
        Ok(DirTarget {
            rt: self.rt,
            address: Address::new(alloc, place, index, number)?,
            folders: Folders::new(alloc, place, index, number)?,
            is_made: false,
            begun: None,
            faults: Faults::new(),
        })
    }
}
