//! Blobs that are being written and read.
ghost use Rattle.std.specs.Prelude.{◌≡◌, None, false};

use esr_depot::{Counted, Failed, Fetch, Stage};
use esr_seq::{Bytes, Text};
use std::io::{Cursor, Read};

/// A blob that is being written.
#[derive(Drop)]
pub struct NewBlob {
    pub(crate) name: Text,
    pub(crate) bytes: Bytes,
    room: usize,
    faults: u64,
}

impl NewBlob {
    pub(crate) fn new(name: Text, bytes: Bytes, room: usize) -> NewBlob
        ensures name { result.name ≡ name }
        ensures room { result.room ≡ room }
        ensures count { result.faults ≡ 0 }
    {
        NewBlob {
            name,
            bytes,
            room,
            faults: 0,
        }
    }
}

impl Counted for NewBlob {
    ghost faults = { λ b. b.faults };

    fn fault_count(&self) -> u64 {
        self.faults
    }
}

impl Stage for NewBlob {
    ghost name = { λ b. b.name };

    ghost contents = { λ _. None };

    ghost room = { λ b. b.room };

    ghost is_sure = { λ _. false };

    fn write(&mut self, piece: &[u8]) -> Result<(), Failed> {
        if self.bytes.extend_from_slice(piece).is_err() {
            self.faults = self.faults.saturating_add(1);
            return Err(Failed);
        }
        self.room -= piece.len();
        Ok(())
    }
}

/// A blob that is being read.
#[derive(Drop)]
pub struct OpenBlob {
    bytes: Cursor<Vec<u8>>,
    faults: u64,
}

impl OpenBlob {
    pub(crate) fn new(bytes: Bytes) -> OpenBlob
        ensures { result.faults ≡ 0 }
    {
        OpenBlob {
            bytes: Cursor::new(bytes.into_vec()),
            faults: 0,
        }
    }
}

impl Counted for OpenBlob {
    ghost faults = { λ b. b.faults };

    fn fault_count(&self) -> u64 {
        self.faults
    }
}

impl Fetch for OpenBlob {
    ghost left = { λ _. None };

    ghost is_sure = { λ _. false };

    fn read(&mut self, buf: &mut [u8]) -> Result<usize, Failed> {
        match self.bytes.read(buf) {
            Ok(count) => Ok(count),
            Err(_) => {
                self.faults = self.faults.saturating_add(1);
                Err(Failed)
            }
        }
    }
}
