//! A blob that is being written into a file.
ghost use Rattle.std.specs.Prelude.{◌≡◌, None, false};

use esr_depot::{Counted, Failed, Stage};
use esr_seq::Text;
use std::fs::File;
use std::io::{self, ErrorKind, Write};

/// The file of a stage. After a failure it is broken for good: what it has then is not known.
#[derive(Drop)]
pub struct StageFile {
    pub(crate) path: Text,
    pub(crate) file: File,
    pub(crate) is_broken: bool,
    /// All that was written is on the disk.
    pub(crate) is_synced: bool,
}

/// A blob that is being written into a file of its own, which isn't among the blobs yet.
#[derive(Drop)]
pub struct DirStage {
    pub(crate) name: Text,
    pub(crate) room: usize,
    pub(crate) faults: u64,
    pub(crate) to: StageFile,
}

impl StageFile {
    /// Appends all of the piece, and syncs the file where it is the last one.
    fn append(&mut self, piece: &[u8], is_last: bool) -> io::Result<()> {
        if self.is_broken {
            return Err(ErrorKind::InvalidData.into());
        }
        self.is_broken = true;
        self.is_synced = false;
        self.file.write_all(piece)?;
        if is_last {
            self.file.sync_all()?;
        }
        self.is_broken = false;
        self.is_synced = is_last;
        Ok(())
    }

    /// Puts what was written on the disk, unless it is there.
    pub(crate) fn sync(&self) -> io::Result<()> {
        if self.is_broken {
            return Err(ErrorKind::InvalidData.into());
        }
        if self.is_synced {
            return Ok(());
        }
        self.file.sync_all()
    }
}

impl Counted for DirStage {
    ghost faults = { λ s. s.faults };

    fn fault_count(&self) -> u64 {
        self.faults
    }
}

impl Stage for DirStage {
    ghost name = { λ s. s.name };

    ghost contents = { λ _. None };

    ghost room = { λ s. s.room };

    ghost is_sure = { λ _. false };

    fn write(&mut self, piece: &[u8]) -> Result<(), Failed> {
        match self.to.append(piece, piece.len() == self.room) {
            Ok(()) => {
                self.room -= piece.len();
                Ok(())
            }
            Err(_) => {
                self.faults = self.faults.saturating_add(1);
                Err(Failed)
            }
        }
    }
}
