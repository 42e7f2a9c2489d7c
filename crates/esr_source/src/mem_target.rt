//! Targets in memory.
ghost use Rattle.std.specs.Prelude.{◌≡◌, ◌≤◌, ◌<◌, ◌+◌, Some, None, true, map, option_map, vec_len, vec_capacity, ◌-◌, ◌++◌, length};
ghost use Rattle.std.specs.Option.{ForSome};
ghost use Rattle.esr_source.specs.Files.{told_file};
ghost use Rattle.esr_source.specs.Plan.{is_unplanned};

use crate::address::Address;
use crate::files::MemFile;
use crate::plan::{Call, FailingAt, Meter, plan_at};
use crate::source::New;
use crate::target::{Target, Targets};
use esr_depot::{CallError, Counted, Failed};
use esr_seq::{Bytes, Seq, Text};
use std::alloc::Global;

/// Targets in memory, each of them a fresh one.
#[derive(Drop)]
pub struct MemTargets {
    pub plan: Seq<FailingAt>,
}

/// A file that is being written. Its room is reserved.
#[derive(Drop)]
pub(crate) struct MemBegun {
    name: Text,
    bytes: Vec<u8>,
    room: u64,
    ghost reserved: { vec_len bytes + room ≤ vec_capacity bytes },
}

/// The files of one shard in memory, as they are being written.
#[derive(Drop)]
pub struct MemTarget {
    address: Address,
    files: Vec<MemFile>,
    begun: Option<MemBegun>,
    meter: Meter,
    ghost reserved: { ForSome begun (λ _. vec_len files < vec_capacity files) },
}

impl MemTargets {
    pub fn new(plan: Seq<FailingAt>) -> MemTargets
        ensures { result ≡ record { plan = plan } }
    {
        MemTargets { plan }
    }
}

impl MemTarget {
    /// The files that were ended, in the order in which they were.
    pub fn files(&self) -> &[MemFile]
        ensures { (⟦<MemTarget as Target>⟧.told self.now).files ≡ Some (map told_file result.now) }
    {
        self.files.as_slice()
    }
}

impl Counted for MemTarget {
    ghost faults = { λ t. t.meter.faults };

    fn fault_count(&self) -> u64 {
        self.meter.faults
    }
}

impl Target for MemTarget {
    ghost told = { λ t. record {
      made_for = t.address;
      files = Some (map told_file t.files.items);
      begun = option_map (λ b. record { name = b.name; bytes = Some b.bytes.items; room = b.room }) t.begun;
      is_sure = is_unplanned t.meter.failing.items;
    } };

    fn create(&mut self, alloc: Global, name: &str, room: u64) -> Result<(), CallError> {
        let begun = MemBegun {
            name: Text::from_str(alloc, name)?,
            bytes: Vec::with_capacity(alloc, room as usize)?,
            room,
        };
        self.files.reserve(1)?;
        if self.meter.fails(Call::Create) {
            return Err(CallError::Failed);
        }
        self.begun = Some(begun);
        Ok(())
    }

    fn write(&mut self, bytes: &[u8]) -> Result<(), Failed> {
        if self.meter.fails(Call::Write) {
            return Err(Failed);
        }
        match &mut self.begun {
            None => unreachable!(),
            Some(begun) => begun.append(bytes),
        }
        Ok(())
    }

    fn end(&mut self) -> Result<(), Failed> {
        if self.meter.fails(Call::End) {
            return Err(Failed);
        }
        let Some(begun) = self.begun.take() else {
            unreachable!()
        };
        let file = MemFile {
            name: begun.name,
            bytes: Bytes::from_vec(begun.bytes),
        };
        match self.files.push(file) {
            Ok(()) => Ok(()),
            Err(_) => unreachable!(),
        }
    }
}

impl MemBegun {
    /// Appends the bytes, for which there is room.
    fn append(&mut self, bytes: &[u8])
        requires { length bytes.now ≤ self.old.room }
        ensures name { self.new.name ≡ self.old.name }
        ensures bytes { self.new.bytes.items ≡ self.old.bytes.items ++ bytes.now }
        ensures room { self.new.room ≡ self.old.room - length bytes.now }
    {
        match self.bytes.extend_from_slice(bytes) {
            Ok(()) => self.room -= bytes.len() as u64,
            Err(_) => unreachable!(),
        }
    }
}

impl Targets for MemTargets {
    type Target = MemTarget;

    ghost told = { λ t. record { tells = true; is_quiet = is_unplanned t.plan } };

    fn target(&self, alloc: Global, place: &str, index: &str, number: u32) -> New<Self::Target> {
        let address = Address::new(alloc, place, index, number)?;
        let plan = plan_at(alloc, self.plan.as_slice(), &address)?;
        Ok(MemTarget {
            address,
            files: Vec::new(alloc),
            begun: None,
            meter: Meter::new(plan),
        })
    }
}
