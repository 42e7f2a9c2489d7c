//! A blob that is being read from its file.
ghost use Rattle.std.specs.Prelude.{◌≡◌, None, false};

use esr_depot::{Counted, Failed, Fetch};
use std::fs::File;
use std::io::Read;

/// A blob that is being read from its file.
#[derive(Drop)]
pub struct DirFetch {
    file: File,
    faults: u64,
}

impl DirFetch {
    /// A file that is read from where it stands.
    pub(crate) fn new(file: File) -> DirFetch
        ensures { result.faults ≡ 0 }
    {
        DirFetch { file, faults: 0 }
    }
}

impl Counted for DirFetch {
    ghost faults = { λ f. f.faults };

    fn fault_count(&self) -> u64 {
        self.faults
    }
}

impl Fetch for DirFetch {
    ghost left = { λ _. None };

    ghost is_sure = { λ _. false };

    fn read(&mut self, buf: &mut [u8]) -> Result<usize, Failed> {
        match self.file.read(buf) {
            Ok(count) => Ok(count),
            Err(_) => {
                self.faults = self.faults.saturating_add(1);
                Err(Failed)
            }
        }
    }
}
