//! A blob that is being written in memory.
ghost use Rattle.std.specs.Prelude.{◌≡◌, ◌-◌, ◌≤◌, ◌+◌, [], Some, vec_len, vec_capacity, length, IfOk};
ghost use Rattle.esr_memdepot.specs.Stages.{is_none_planned};

use crate::mishaps::Mishaps;
use esr_depot::{Counted, Failed, Stage};
use esr_seq::{Bytes, Seq, Text};
use std::alloc::{AllocError, Global};

/// A blob that is being written in memory. Its room is reserved.
#[derive(Drop)]
pub struct MemStage {
    pub(crate) name: Text,
    pub(crate) bytes: Vec<u8>,
    pub(crate) room: usize,
    pub(crate) mishaps: Mishaps,
    ghost reserved: { vec_len bytes + room ≤ vec_capacity bytes },
}

impl MemStage {
    /// An empty stage, whose writes of these numbers are to fail.
    pub(crate) fn new(
        alloc: Global,
        name: &str,
        room: usize,
        failing: Seq<u64>,
    ) -> Result<MemStage, AllocError>
        ensures name { IfOk result (λ s. s.name ≡ name.now) }
        ensures bytes { IfOk result (λ s. s.bytes.items ≡ []) }
        ensures room { IfOk result (λ s. s.room ≡ room) }
        ensures mishaps { IfOk result (λ s. s.mishaps ≡ record { calls = 0; faults = 0; failing = failing }) }
    {
        Ok(MemStage {
            name: Text::from_str(alloc, name)?,
            bytes: Vec::with_capacity(alloc, room)?,
            room,
            mishaps: Mishaps::new(failing),
        })
    }
}

impl Counted for MemStage {
    ghost faults = { λ s. s.mishaps.faults };

    fn fault_count(&self) -> u64 {
        self.mishaps.faults
    }
}

impl Stage for MemStage {
    ghost name = { λ s. s.name };

    ghost contents = { λ s. Some s.bytes.items };

    ghost room = { λ s. s.room };

    ghost is_sure = { λ s. is_none_planned s.mishaps.failing };

    fn write(&mut self, piece: &[u8]) -> Result<(), Failed> {
        self.mishaps.turn()?;
        match self.bytes.extend_from_slice(piece) {
            Ok(()) => {
                self.room -= piece.len();
                Ok(())
            }
            Err(_) => unreachable!(),
        }
    }
}
