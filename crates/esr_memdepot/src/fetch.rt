//! A blob that is being read from memory.
ghost use Rattle.std.specs.Prelude.{◌≡◌, ◌≤◌, Some, None, length, drop, IfOk, IfSome, option_map};
ghost use Rattle.esr_memdepot.specs.Stages.{is_none_planned};

use crate::mishaps::Mishaps;
use esr_depot::{Counted, Failed, Fetch};
use esr_seq::{Bytes, Seq};
use std::alloc::{AllocError, Global};

/// A copy of a blob's bytes, and how many of them were read.
#[derive(Drop)]
pub struct MemFetch {
    pub(crate) bytes: Bytes,
    pub(crate) at: usize,
    pub(crate) mishaps: Mishaps,
    ghost within: { at ≤ length bytes },
}

impl MemFetch {
    /// A copy of these bytes, of which none is read yet. The reads of these numbers are to fail.
    pub(crate) fn new(
        alloc: Global,
        bytes: &[u8],
        failing: Seq<u64>,
    ) -> Result<MemFetch, AllocError>
        ensures bytes { IfOk result (λ f. drop f.at f.bytes ≡ bytes.now) }
        ensures mishaps { IfOk result (λ f. f.mishaps ≡ record { calls = 0; faults = 0; failing = failing }) }
    {
        Ok(MemFetch {
            bytes: Bytes::from_slice(alloc, bytes)?,
            at: 0,
            mishaps: Mishaps::new(failing),
        })
    }
}

impl Counted for MemFetch {
    ghost faults = { λ f. f.mishaps.faults };

    fn fault_count(&self) -> u64 {
        self.mishaps.faults
    }
}

impl Fetch for MemFetch {
    ghost left = { λ f. Some (drop f.at f.bytes) };

    ghost is_sure = { λ f. is_none_planned f.mishaps.failing };

    fn read(&mut self, buf: &mut [u8]) -> Result<usize, Failed> {
        self.mishaps.turn()?;
        let bytes = self.bytes.as_slice();
        let count = buf.len().min(bytes.len() - self.at);
        buf[..count].copy_from_slice(&bytes[self.at..self.at + count]);
        self.at += count;
        Ok(count)
    }
}
