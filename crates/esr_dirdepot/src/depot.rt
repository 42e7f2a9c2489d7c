//! The container.
ghost use Rattle.std.specs.Prelude.{◌≡◌, ◌≤◌};
ghost use Rattle.esr_depot.specs.Calls.{up};
ghost use Rattle.esr_depot.specs.Untold.{untold};

use crate::fetch::DirFetch;
use crate::folder::Folder;
use crate::stage::DirStage;
use esr_depot::{CallError, Commit, Counted, Depot, Failed, Names, Pages};
use esr_seq::{Bytes, Text};
use std::alloc::{AllocError, Global};
use std::fs::File;
use std::io::{self, ErrorKind};
use std::rt::Files;

/// A container in a folder of the file system. It tells nothing of what it holds.
#[derive(Drop)]
pub struct DirDepot<'a, R> {
    folder: Folder<'a, R>,
    clock: u64,
    faults: u64,
}

impl<'a, R: Files<File = File> + Eprint + Drop> DirDepot<'a, R> {
    ghost use Rattle.std.specs.Prelude.{IfOk};

    /// The container in that folder. Nothing on the disk is looked at, or made.
    pub fn new(rt: &'a R, alloc: Global, dir: &str) -> Result<DirDepot<'a, R>, AllocError>
        ensures clock { IfOk result (λ d. (⟦<DirDepot<'a, R> as Depot>⟧.look d).clock ≡ 0) }
        ensures count { IfOk result (λ d. ⟦<DirDepot<'a, R> as Counted>⟧.faults d ≡ 0) }
    {
        Ok(DirDepot {
            folder: Folder::new(rt, alloc, dir)?,
            clock: 0,
            faults: 0,
        })
    }
}

impl<'a, R> DirDepot<'a, R> {
    /// A call answers.
    fn pass(&mut self)
        ensures clock { self.new.clock ≡ up self.old.clock }
        ensures later { self.old.clock ≤ self.new.clock }
        ensures faults { self.new.faults ≡ self.old.faults }
    {
        self.clock = self.clock.saturating_add(1);
    }

    /// A call fails.
    fn fail(&mut self)
        ensures clock { self.new.clock ≡ up self.old.clock }
        ensures later { self.old.clock ≤ self.new.clock }
        ensures faults { self.new.faults ≡ up self.old.faults }
        ensures more { self.old.faults ≤ self.new.faults }
    {
        self.pass();
        self.faults = self.faults.saturating_add(1);
    }
}

/// Tells whether a call that has changed nothing so far found no memory.
fn is_wanting(error: &io::Error) -> bool {
    error.kind() == ErrorKind::OutOfMemory
}

impl<R> Counted for DirDepot<'_, R> {
    ghost faults = { λ d. d.faults };

    fn fault_count(&self) -> u64 {
        self.faults
    }
}

#[tactic(auto, using(esr_depot::specs::Untold::untold_called))]
impl<'a, R: Files<File = File> + Eprint + Drop> Depot for DirDepot<'a, R> {
    type Stage = DirStage;

    type Fetch = DirFetch;

    ghost look = { λ d. untold d.clock };

    ghost counts_now = { λ d t i le is. absurd Prim.cc };

    ghost only_now = { λ d i left. absurd left };

    fn begin(&mut self, alloc: Global, name: &str, room: usize) -> Result<DirStage, CallError> {
        let kept = Text::from_str(alloc, name)?;
        match self.folder.open_stage(alloc, name) {
            Ok(to) => {
                self.pass();
                Ok(DirStage {
                    name: kept,
                    room,
                    faults: 0,
                    to,
                })
            }
            Err(error) if is_wanting(&error) => Err(CallError::Memory),
            Err(_) => {
                self.fail();
                Err(CallError::Failed)
            }
        }
    }

    fn commit(&mut self, _alloc: Global, stage: DirStage) -> Result<Commit, CallError> {
        match self.folder.commit(&stage.to, stage.name.as_str()) {
            Ok(answer) => {
                self.pass();
                Ok(answer)
            }
            Err(_) => {
                self.fail();
                Err(CallError::Failed)
            }
        }
    }

    fn replace(&mut self, _alloc: Global, stage: DirStage) -> Result<(), CallError> {
        match self.folder.replace(&stage.to, stage.name.as_str()) {
            Ok(()) => {
                self.pass();
                Ok(())
            }
            Err(_) => {
                self.fail();
                Err(CallError::Failed)
            }
        }
    }

    fn fetch(&mut self, _alloc: Global, name: &str) -> Result<Option<DirFetch>, CallError> {
        match self.folder.open_blob(name) {
            Ok(Some(file)) => {
                self.pass();
                Ok(Some(DirFetch::new(file)))
            }
            Ok(None) => {
                self.pass();
                Ok(None)
            }
            Err(error) if is_wanting(&error) => Err(CallError::Memory),
            Err(_) => {
                self.fail();
                Err(CallError::Failed)
            }
        }
    }

    fn list(&mut self, alloc: Global, after: Option<&str>) -> Result<Pages, CallError> {
        match self.folder.list(alloc, after) {
            Ok(pages) => {
                self.pass();
                Ok(pages)
            }
            Err(error) if is_wanting(&error) => Err(CallError::Memory),
            Err(_) => {
                self.fail();
                Err(CallError::Failed)
            }
        }
    }

    fn remove(&mut self, names: &Names) -> Result<(), Failed> {
        match self.folder.remove(names.as_slice()) {
            Ok(()) => {
                self.pass();
                Ok(())
            }
            Err(_) => {
                self.fail();
                Err(Failed)
            }
        }
    }

    fn read_record(&mut self, alloc: Global) -> Result<Option<Bytes>, CallError> {
        match self.folder.read_record(alloc) {
            Ok(text) => {
                self.pass();
                Ok(text)
            }
            Err(error) if is_wanting(&error) => Err(CallError::Memory),
            Err(_) => {
                self.fail();
                Err(CallError::Failed)
            }
        }
    }

    fn swap_record(&mut self, alloc: Global, text: &[u8]) -> Result<(), CallError> {
        match self.folder.swap_record(alloc, text) {
            Ok(()) => {
                self.pass();
                Ok(())
            }
            Err(_) => {
                self.fail();
                Err(CallError::Failed)
            }
        }
    }
}
