//! A script and an output in memory.
ghost use Rattle.std.specs.Prelude.{◌≡◌, ◌≤◌, ◌+◌, [], Some, IfOk, if◌then◌else◌, vec_len, vec_capacity};
ghost use Rattle.esr_source.specs.Plan.{is_unplanned};

use crate::plan::{Call, Meter, Plan};
use crate::stream::{Lines, Out};
use crate::unread::Unread;
use esr_depot::{Counted, Failed};
use esr_seq::Bytes;
use std::alloc::{AllocError, Global};

/// A script in memory.
#[derive(Drop)]
pub struct MemLines {
    unread: Unread,
    meter: Meter,
}

impl MemLines {
    /// A script of these bytes.
    pub fn new(bytes: Bytes, plan: Plan) -> MemLines
        ensures left { ⟦<MemLines as Lines>⟧.left result ≡ Some bytes }
        ensures sure { ⟦<MemLines as Lines>⟧.is_sure result ≡ is_unplanned plan }
        ensures count { ⟦<MemLines as Counted>⟧.faults result ≡ 0 }
    {
        MemLines {
            unread: Unread::new(bytes),
            meter: Meter::new(plan),
        }
    }
}

impl Counted for MemLines {
    ghost faults = { λ l. l.meter.faults };

    fn fault_count(&self) -> u64 {
        self.meter.faults
    }
}

impl Lines for MemLines {
    ghost left = { λ l. Some l.unread };

    ghost is_sure = { λ l. is_unplanned l.meter.failing.items };

    fn read(&mut self, buf: &mut [u8]) -> Result<usize, Failed> {
        if self.meter.fails(Call::Read) {
            return Err(Failed);
        }
        Ok(self.unread.read(buf))
    }
}

/// An output in memory. Its room is reserved; once that is full each write of a byte fails.
#[derive(Drop)]
pub struct MemOut {
    bytes: Vec<u8>,
    room: usize,
    meter: Meter,
    ghost reserved: { vec_len bytes + room ≤ vec_capacity bytes },
}

impl MemOut {
    /// An empty output with room for that many bytes.
    pub fn new(alloc: Global, room: usize, plan: Plan) -> Result<MemOut, AllocError>
        ensures contents { IfOk result (λ o. ⟦<MemOut as Out>⟧.contents o ≡ Some []) }
        ensures sure { IfOk result (λ o. ⟦<MemOut as Out>⟧.sure o ≡ (if is_unplanned plan then room else 0)) }
        ensures count { IfOk result (λ o. ⟦<MemOut as Counted>⟧.faults o ≡ 0) }
    {
        Ok(MemOut {
            bytes: Vec::with_capacity(alloc, room)?,
            room,
            meter: Meter::new(plan),
        })
    }

    /// The bytes that were taken.
    pub fn as_slice(&self) -> &[u8]
        ensures { ⟦<MemOut as Out>⟧.contents self.now ≡ Some result.now }
    {
        self.bytes.as_slice()
    }
}

impl Counted for MemOut {
    ghost faults = { λ o. o.meter.faults };

    fn fault_count(&self) -> u64 {
        self.meter.faults
    }
}

impl Out for MemOut {
    ghost contents = { λ o. Some o.bytes.items };

    ghost sure = { λ o. if is_unplanned o.meter.failing.items then o.room else 0 };

    fn write(&mut self, bytes: &[u8]) -> Result<usize, Failed> {
        if self.meter.fails(Call::Write) {
            return Err(Failed);
        }
        if self.room == 0 && !bytes.is_empty() {
            self.meter.fault();
            return Err(Failed);
        }
        let count = bytes.len().min(self.room);
        match self.bytes.extend_from_slice(&bytes[..count]) {
            Ok(()) => {
                self.room -= count;
                Ok(count)
            }
            Err(_) => unreachable!(),
        }
    }
}
